//! The program header table.
ghost use Rattle.std.specs.Prelude.{◌≡◌, ◌+◌, ◌<◌, ◌&&◌, true};
ghost use Rattle.guest_elf.specs.File.{back_of, front_of, header_at, header_count, is_around, is_interpreter, is_load, is_bad_segment, is_moved, meets_region, ranges_meet, HasHeader, HasTable};

use crate::fields::{E_PHNUM, E_PHOFF, half_at, word_at};
use memory_map::{HEAP_SIZE, Regions, StackRegion};

/// PT_LOAD: a segment to load.
const PT_LOAD: u32 = 1;
/// PT_INTERP: the path of an interpreter.
const PT_INTERP: u32 = 3;
/// The size of a program header, in bytes.
pub(crate) const PROGRAM_HEADER_SIZE: usize = 32;

/// The fields of a program header that matter here (Elf32_Phdr, figure 5-1).
#[derive(Clone, Copy)]
pub(crate) struct ProgramHeader {
    /// p_type.
    pub(crate) kind: u32,
    /// p_offset: the offset of its first byte in the file.
    pub(crate) offset: u32,
    /// p_vaddr: the address of its first byte.
    pub(crate) vaddr: u32,
    /// p_filesz: the number of its bytes in the file.
    pub(crate) filesz: u32,
    /// p_memsz: the number of its bytes in memory.
    pub(crate) memsz: u32,
}

impl ProgramHeader {
    /// Returns whether it is a PT_INTERP.
    #[tactic(auto, unfolding(crate::specs::File::is_interpreter))]
    pub(crate) fn is_interpreter(self) -> bool
        ensures { result ≡ is_interpreter self }
    {
        self.kind == PT_INTERP
    }

    /// Returns whether it is a PT_LOAD that is not empty.
    #[tactic(auto, unfolding(crate::specs::File::is_load))]
    pub(crate) fn is_load(self) -> bool
        ensures { result ≡ is_load self }
    {
        self.kind == PT_LOAD && !(self.filesz == 0 && self.memsz == 0)
    }

    /// Returns whether it has more bytes in the file than in memory, or bytes past the end of a file of `file_length` bytes, or an end
    /// above 2^32.
    #[tactic(auto, unfolding(crate::specs::File::is_bad_segment))]
    pub(crate) fn is_bad_segment(self, file_length: usize) -> bool
        ensures { result ≡ is_bad_segment file_length self }
    {
        self.filesz > self.memsz
            || (self.filesz != 0 && self.offset as usize + self.filesz as usize > file_length)
            || self.end() > 1 << 32
    }

    /// Returns whether it has an address of the heap's region or of the stack's.
    #[tactic(auto, unfolding(crate::specs::File::meets_region))]
    pub(crate) fn meets_region(self, regions: Regions) -> bool
        ensures { result ≡ meets_region regions self }
    {
        let heap = regions.heap_begin();
        let stack = regions.stack();
        self.meets(heap, u64::from(heap) + u64::from(HEAP_SIZE))
            || self.meets(stack.begin, u64::from(stack.end))
    }

    /// Returns whether it has an address from `start` up to, but not including, `end`.
    fn meets(self, start: u32, end: u64) -> bool
        ensures { result ≡ ranges_meet self.vaddr (self.vaddr + self.memsz) start end }
    {
        u64::from(self.vaddr.max(start)) < self.end().min(end)
    }

    /// Returns whether it has the whole region of a stack in that part of its memory for which the file has no bytes.
    #[tactic(auto, unfolding(crate::specs::File::is_around))]
    fn is_around(self, stack: StackRegion) -> bool
        ensures { result ≡ is_around stack self }
    {
        u64::from(self.vaddr) + u64::from(self.filesz) <= u64::from(stack.begin)
            && u64::from(stack.end) <= self.end()
    }

    /// Returns whether its front and its back are loaded, and not all of it.
    pub(crate) fn is_split(self, regions: Regions) -> bool
        ensures { result ≡ (is_moved regions.stack && is_around regions.stack self) }
    {
        is_moved(regions.stack()) && self.is_around(regions.stack())
    }

    /// Returns what it has before the region of the stack: all its bytes from the file, and zeros after them.
    #[tactic(auto, unfolding(crate::specs::File::is_around))]
    pub(crate) fn front(self, regions: Regions) -> ProgramHeader
        requires { is_around regions.stack self ≡ true }
        ensures { result ≡ front_of regions.stack self }
    {
        ProgramHeader {
            memsz: regions.stack().begin - self.vaddr,
            ..self
        }
    }

    /// Returns what it has after the region of the stack: zeros.
    #[tactic(auto, unfolding(crate::specs::File::is_around), using(crate::proofs::Splitting::stack_rises))]
    pub(crate) fn back(self, regions: Regions) -> ProgramHeader
        requires { is_around regions.stack self ≡ true }
        ensures { result ≡ back_of regions.stack self }
    {
        let stack = regions.stack();
        ProgramHeader {
            kind: self.kind,
            offset: 0,
            vaddr: stack.end,
            filesz: 0,
            memsz: self.memsz - (stack.end - self.vaddr),
        }
    }

    /// Returns the address after its last byte, as a whole number.
    pub(crate) fn end(self) -> u64
        ensures { result ≡ self.vaddr + self.memsz }
    {
        u64::from(self.vaddr) + u64::from(self.memsz)
    }
}

/// Returns whether the stack's region is another than the usual one.
#[tactic(auto, unfolding(crate::specs::File::is_moved, memory_map::specs::Regions::is_heap_begin, memory_map::specs::Regions::is_stack_region, memory_map::specs::Regions::overlap))]
fn is_moved(stack: StackRegion) -> bool
    ensures { result ≡ is_moved stack }
{
    stack != Regions::USUAL.stack()
}

/// Returns the number of program headers.
pub(crate) fn header_count(file: &[u8]) -> u16
    requires { HasHeader file.now }
    ensures { result ≡ header_count file.now }
{
    half_at(file, E_PHNUM)
}

/// Returns the program header at an index of the table.
#[tactic(auto, unfolding(crate::specs::File::header_from))]
pub(crate) fn header_at(file: &[u8], index: u16) -> ProgramHeader
    requires table { HasTable file.now }
    requires listed { index < header_count file.now }
    ensures { result ≡ header_at file.now index }
{
    let start = word_at(file, E_PHOFF) as usize + PROGRAM_HEADER_SIZE * index as usize;
    ProgramHeader {
        kind: word_at(file, start),
        offset: word_at(file, start + 4),
        vaddr: word_at(file, start + 8),
        filesz: word_at(file, start + 16),
        memsz: word_at(file, start + 20),
    }
}
