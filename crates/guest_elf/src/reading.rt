//! From a file's bytes to an image.
ghost use Rattle.std.specs.Prelude.{◌≡◌, ℕ, ◌⊎◌, false, length, map, IfOk, IfErr, IfNone};
ghost use Rattle.std.specs.List.{list_any};
ghost use Rattle.guest_elf.specs.File.{early_refusal, late_refusal, refusal, is_bad_segment, bytes_in, content_in, first_loaded, loads_of, HasHeader, HasTable, HasSegments, IsImageFor, IsImageOf};
ghost use Rattle.guest_elf.specs.Profiles.{usual};
ghost use Rattle.guest_elf.specs.Sections.{symbol_table, HasNames, HasSections};
ghost use Rattle.guest_elf.specs.Segments.{content_of, loaded};
ghost use Rattle.guest_elf.specs.declared.fault.ElfFault.{ElfFault};

use crate::fault::ElfFault;
use crate::fields::{E_ENTRY, word_at};
use crate::image::Image;
use crate::names::FunctionNames;
use crate::overlaps::has_overlap;
use crate::pieces::loads_of;
use crate::profile::Profile;
use crate::program::ProgramHeader;
use crate::refusals::{
    has_bad_table, has_bad_version, is_not_class_32, is_not_elf, is_not_executable,
    is_not_little_endian, is_not_risc_v,
};
use crate::segment::Segment;
use crate::segments::{has_bad_segment, has_interpreter, is_too_large};
use crate::symbols::has_bad_symbols;
use memory_map::Regions;
use std::alloc::{AllocError, Global};

/// Returns the first condition that holds, of those that are tested without memory.
#[tactic(auto, unfolding(crate::specs::File::early_refusal))]
pub(crate) fn early_refusal(file: &[u8]) -> Option<ElfFault>
    ensures value { result ≡ early_refusal file.now }
    ensures header { IfNone result (HasHeader file.now) }
    ensures table { IfNone result (HasTable file.now) }
    ensures sections { IfNone result (HasSections file.now) }
    ensures segments { IfNone result (HasSegments file.now) }
{
    if is_not_elf(file) {
        Some(ElfFault::NotElf)
    } else if is_not_class_32(file) {
        Some(ElfFault::NotClass32)
    } else if is_not_little_endian(file) {
        Some(ElfFault::NotLittleEndian)
    } else if has_bad_version(file) {
        Some(ElfFault::BadVersion)
    } else if is_not_executable(file) {
        Some(ElfFault::NotExecutable)
    } else if is_not_risc_v(file) {
        Some(ElfFault::NotRiscV)
    } else if has_bad_table(file) {
        Some(ElfFault::BadTable)
    } else if has_interpreter(file) {
        Some(ElfFault::Interpreter)
    } else if has_bad_segment(file) {
        Some(ElfFault::BadSegment)
    } else {
        None
    }
}

/// Returns the first condition that holds, of the others.
#[tactic(auto, unfolding(crate::specs::File::late_refusal))]
fn late_refusal(
    alloc: Global,
    file: &[u8],
    regions: Regions,
    loads: &[ProgramHeader],
) -> Result<Option<ElfFault>, AllocError>
    requires header { HasHeader file.now }
    requires table { HasTable file.now }
    requires sections { HasSections file.now }
    requires good { HasSegments file.now }
    requires listed { loads.now ≡ loads_of regions file.now }
    ensures value { IfOk result (λ fault. fault ≡ late_refusal regions file.now) }
    ensures names { IfOk result (λ fault. IfNone fault (HasNames file.now (symbol_table file.now))) }
{
    if has_overlap(alloc, file, regions, loads)? {
        return Ok(Some(ElfFault::Overlap));
    }
    if is_too_large(file, regions, loads) {
        return Ok(Some(ElfFault::TooLarge));
    }
    if has_bad_symbols(file) {
        return Ok(Some(ElfFault::BadSymbols));
    }
    Ok(None)
}

/// Returns the bytes of a program header in the file. The header is not bad. If there are none, p_offset may be anything.
fn bytes_of(file: &[u8], header: ProgramHeader) -> &[u8]
    requires { is_bad_segment (length file.now) header ≡ false }
    ensures { result.now ≡ bytes_in file.now header }
{
    if header.filesz == 0 {
        return &[];
    }
    let start = header.offset as usize;
    &file[start..start + header.filesz as usize]
}

/// Returns the segment of a program header that isn't bad.
#[tactic(auto, unfolding(crate::specs::File::content_in, crate::specs::Segments::content_of))]
fn segment_of<'a>(file: &'a [u8], header: ProgramHeader) -> Segment<'a>
    requires { is_bad_segment (length file.now) header ≡ false }
    ensures { content_of result ≡ content_in file.now header }
{
    Segment {
        vaddr: header.vaddr,
        memsz: header.memsz,
        bytes: bytes_of(file, header),
    }
}

/// Returns the segments of program headers, in their order.
fn segments_of<'a>(
    alloc: Global,
    file: &'a [u8],
    loads: &[ProgramHeader],
) -> Result<Vec<Segment<'a>>, AllocError>
    requires { list_any (is_bad_segment (length file.now)) loads.now ≡ false }
    ensures contents { IfOk result (λ segments. map content_of segments.items ≡ map (content_in file.now) loads.now) }
    ensures loads { IfOk result (λ segments. (address : ℕ) →
        loaded segments.items address ≡ first_loaded file.now loads.now address) }
{
    let mut segments = Vec::new(alloc);
    for header in loads {
        segments.push(segment_of(file, *header))?;
    }
    Ok(segments)
}

/// Reads a static executable for RV32 from the bytes of an ELF32 file, which the image borrows, for a profile, which the image keeps. The
/// profile's regions have a say in what is loaded, and its instruction set has none.
///
/// # Errors
///
/// Returns the first condition that holds, in the order of `ElfFault::number`, or `Memory` if a list could not grow. The first list grows
/// after the conditions 20 to 28 are tested.
#[tactic(auto, unfolding(crate::specs::File::refusal))]
pub fn read_for<'a>(alloc: Global, file: &'a [u8], profile: Profile) -> Result<Image<'a>, ElfFault>
    ensures image { IfOk result (IsImageFor profile file.entry.now) }
    ensures refused { IfErr result (λ fault.
        (fault ≡ ElfFault.Memory) ⊎ (refusal profile.regions file.entry.now ≡ Some fault)) }
    // Running out of memory hides no condition that is tested before the first list grows.
    ensures least { (fault : ElfFault) → early_refusal file.entry.now ≡ Some fault → result ≡ Err fault }
{
    if let Some(fault) = early_refusal(file) {
        return Err(fault);
    }
    let loads = loads_of(alloc, file, profile.regions)?;
    if let Some(fault) = late_refusal(alloc, file, profile.regions, &loads)? {
        return Err(fault);
    }
    let segments = segments_of(alloc, file, &loads)?;
    let names = FunctionNames::read(alloc, file)?;
    Ok(Image::new(segments, word_at(file, E_ENTRY), names, profile))
}

/// Reads a static executable for RV32 from the bytes of an ELF32 file, which the image borrows, for the usual profile.
///
/// # Errors
///
/// Those of [`read_for`].
pub fn read<'a>(alloc: Global, file: &'a [u8]) -> Result<Image<'a>, ElfFault>
    ensures image { IfOk result (IsImageOf file.entry.now) }
    ensures refused { IfErr result (λ fault.
        (fault ≡ ElfFault.Memory) ⊎ (refusal usual.regions file.entry.now ≡ Some fault)) }
    ensures least { (fault : ElfFault) → early_refusal file.entry.now ≡ Some fault → result ≡ Err fault }
{
    read_for(alloc, file, Profile::USUAL)
}
