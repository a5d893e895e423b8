//! Files by hand, and their images. `tests/program/test-files` tests with which number a cut or changed file is rejected.
use crate::{comes, holds};
use byteorder::{ByteOrder, LittleEndian};
use guest_elf::{Isa, Profile, Segment, StreamLimits, read, read_for};
use memory_map::{Regions, StackRegion};
use std::alloc::{AllocError, Global};

/// Three words at 0x10000: `addi a7, x0, 93`, `addi a0, x0, 0`, `ecall`.
const PROGRAM: [u8; 96] = [
    0x7F, 0x45, 0x4C, 0x46, 0x01, 0x01, 0x01, 0x00, 0x00, 0x00, 0x00, 0x00, 0x00, 0x00, 0x00, 0x00,
    0x02, 0x00, 0xF3, 0x00, 0x01, 0x00, 0x00, 0x00, 0x00, 0x00, 0x01, 0x00, 0x34, 0x00, 0x00, 0x00,
    0x00, 0x00, 0x00, 0x00, 0x00, 0x00, 0x00, 0x00, 0x34, 0x00, 0x20, 0x00, 0x01, 0x00, 0x00, 0x00,
    0x00, 0x00, 0x00, 0x00, 0x01, 0x00, 0x00, 0x00, 0x54, 0x00, 0x00, 0x00, 0x00, 0x00, 0x01, 0x00,
    0x00, 0x00, 0x01, 0x00, 0x0C, 0x00, 0x00, 0x00, 0x0C, 0x00, 0x00, 0x00, 0x05, 0x00, 0x00, 0x00,
    0x04, 0x00, 0x00, 0x00, 0x93, 0x08, 0xD0, 0x05, 0x13, 0x05, 0x00, 0x00, 0x73, 0x00, 0x00, 0x00,
];

/// The name of an address in no function.
pub(crate) const UNKNOWN: &[u8] = b"???";

/// A changed word of a file: its offset and its new value.
pub(crate) type Change = (usize, u32);

/// No word: no file is as long.
pub(crate) const NONE: Change = (usize::MAX, 0);

/// The fields of the program that are changed.
const OFFSET: usize = 56;

const VADDR: usize = 60;

const FILESZ: usize = 68;

const MEMSZ: usize = 72;

/// Changes a word, if the file has it.
pub(crate) fn change(file: &mut [u8], change: Change) {
    let (offset, word) = change;
    if offset <= file.len() && file.len() - offset >= 4 {
        LittleEndian::write_u32(&mut file[offset..], word);
    }
}

/// Returns whether the only segment is that of the program above.
fn are_code(segments: &[Segment<'_>]) -> bool {
    match segments {
        [segment] => {
            segment.vaddr == 0x10000 && segment.memsz == 12 && segment.bytes == &PROGRAM[84..]
        }
        _ => false,
    }
}

/// Returns whether the program is read.
fn is_read(alloc: Global) -> bool {
    match read(alloc, &PROGRAM) {
        Ok(image) => {
            image.entry() == 0x10000
                && are_code(image.segments())
                && image.name_of(0x10000) == UNKNOWN
        }
        Err(_) => false,
    }
}

/// Returns whether the program is read for a profile, which the image keeps.
fn is_read_for(alloc: Global, profile: Profile) -> bool {
    match read_for(alloc, &PROGRAM, profile) {
        Ok(image) => image.profile() == profile && are_code(image.segments()),
        Err(_) => false,
    }
}

/// Returns whether it is for the usual one, which is that of `read`.
fn is_read_for_usual(alloc: Global) -> bool {
    let Some(usual) = profile_of(Isa::RV32IM) else {
        return false;
    };
    match read(alloc, &PROGRAM) {
        Ok(image) => image.profile() == usual && is_read_for(alloc, usual),
        Err(_) => false,
    }
}

/// Returns the profile of an instruction set with these regions, if they are sound.
fn profile_with(isa: Isa, heap: u32, stack: StackRegion) -> Option<Profile> {
    match Regions::new(heap, stack) {
        Ok(regions) => Some(Profile {
            isa,
            regions,
            limits: StreamLimits::USUAL,
        }),
        Err(_) => None,
    }
}

/// Returns that of an instruction set with the usual regions.
fn profile_of(isa: Isa) -> Option<Profile> {
    profile_with(isa, 0x4000_0000, USUAL_STACK)
}

/// Returns whether instructions of RV32IM may begin at multiples of 4 alone.
fn begin_at_fours() -> bool {
    let isa = Isa::RV32IM;
    isa.aligns(0x10004)
        && !isa.aligns(0x10005)
        && !isa.aligns(0x10006)
        && !isa.aligns(0x10007)
        && isa.aligns(0xFFFF_FFFC)
        && isa.unit() == 4
        && !isa.has_halves()
        && !isa.has_atomics()
        && !isa.is_half(0x4502)
}

/// Returns whether those of a set with C may at multiples of 2, and have two bytes unless the two lowest bits are set.
fn begin_at_twos(isa: Isa) -> bool {
    isa.aligns(0x10004)
        && isa.aligns(0x10006)
        && !isa.aligns(0x10005)
        && isa.aligns(0xFFFF_FFFE)
        && isa.unit() == 2
        && isa.has_halves()
        && isa.is_half(0x4502)
        && !isa.is_half(0x0513)
}

/// Two changed words of the program, an address, whether the word there can be patched, and whether the segment has bytes.
type Patchable = (Change, Change, u32, bool, bool);

/// The segment has zeros after its bytes; it reaches up to the last address; or it has no bytes, whatever their offset.
const LARGE: Change = (MEMSZ, 0x0100_0000);

const LAST: Change = (VADDR, 0xFFFF_FFF4);

const EMPTY: Change = (FILESZ, 0);

const PATCHABLE: [Patchable; 12] = [
    (NONE, NONE, 0xFFFC, false, true),
    (NONE, NONE, 0xFFFD, false, true),
    (NONE, NONE, 0x10000, true, true),
    (NONE, NONE, 0x10008, true, true),
    (NONE, NONE, 0x10009, false, true),
    (NONE, NONE, 0x1000C, false, true),
    (NONE, NONE, 0xFFFF_FFFF, false, true),
    (LARGE, NONE, 0x0100_FFFC, true, true),
    (LARGE, NONE, 0x0100_FFFD, false, true),
    (LAST, NONE, 0xFFFF_FFFC, true, true),
    (LAST, NONE, 0xFFFF_FFFD, false, true),
    (EMPTY, (OFFSET, 0xFFFF_FFFF), 0x10000, true, false),
];

/// A changed word of the program; an address; and whether a word of RV32IM is there, and with C a word and a half.
type Coded = (Change, u32, bool, bool, bool);

const CODED: [Coded; 9] = [
    (NONE, 0xFFFE, false, false, false),
    (NONE, 0x10000, true, true, true),
    (NONE, 0x10001, false, false, false),
    (NONE, 0x10002, false, true, true),
    (NONE, 0x10008, true, true, true),
    (NONE, 0x1000A, false, false, true),
    (NONE, 0x1000C, false, false, false),
    (LAST, 0xFFFF_FFFC, true, true, true),
    (LAST, 0xFFFF_FFFE, false, false, true),
];

/// Returns whether a row holds of the program, read for an instruction set, without its halves if there are none.
fn is_coded_for(alloc: Global, file: &[u8], isa: Isa, row: &Coded) -> bool {
    let (_, addr, word, long, half) = row;
    let Some(profile) = profile_of(isa) else {
        return false;
    };
    match read_for(alloc, file, profile) {
        Ok(image) if isa.has_halves() => {
            image.is_word(*addr) == *long && image.is_half_word(*addr) == *half
        }
        Ok(image) => image.is_word(*addr) == *word,
        Err(_) => false,
    }
}

/// Returns whether a row holds.
fn is_coded(alloc: Global, row: &Coded) -> bool {
    let mut file = PROGRAM;
    change(&mut file, row.0);
    is_coded_for(alloc, &file, Isa::RV32IM, row)
        && is_coded_for(alloc, &file, Isa::RV32IMC, row)
        && is_coded_for(alloc, &file, Isa::RV32IMAC, row)
}

/// Returns whether there is one segment, with bytes or without.
fn have_bytes(segments: &[Segment<'_>], want: bool) -> bool {
    match segments {
        [segment] => segment.bytes.is_empty() != want,
        _ => false,
    }
}

/// Returns whether a row holds.
fn is_patchable(alloc: Global, row: &Patchable) -> bool {
    let (one, two, addr, want, bytes) = row;
    let mut file = PROGRAM;
    change(&mut file, *one);
    change(&mut file, *two);
    match read(alloc, &file) {
        Ok(image) => image.patchable(*addr) == *want && have_bytes(image.segments(), *bytes),
        Err(_) => false,
    }
}

/// Writes the program at the start of a file, if it has room there.
fn set_program(file: &mut [u8]) {
    if file.len() >= 96 {
        file[..96].copy_from_slice(&PROGRAM);
    }
}

/// Returns whether reading a file gives this result: the number of a fault, or 0.
fn is_answered(alloc: Global, file: &[u8], want: u8) -> bool {
    match read(alloc, file) {
        Ok(_image) => want == 0,
        Err(fault) => fault.number() == want,
    }
}

/// Returns whether the program in a file of `len` bytes, with zeros after it, does.
fn is_sized_answered(alloc: Global, len: usize, want: u8) -> Result<bool, AllocError> {
    let mut file = vec![in alloc; 0u8; len]?;
    set_program(&mut file);
    Ok(is_answered(alloc, &file, want))
}

#[test]
fn files_by_hand(rt: HostRuntime) {
    holds(&rt, "a program", is_read(rt.alloc()));
    holds(
        &rt,
        "a program for a profile",
        is_read_for_usual(rt.alloc()),
    );
    holds(&rt, "instructions of 32 bits", begin_at_fours());
    holds(&rt, "those of 16 bits too", begin_at_twos(Isa::RV32IMC));
    holds(&rt, "and atomic ones", begin_at_twos(Isa::RV32IMAC));
    holds(
        &rt,
        "atomic instructions in one set",
        Isa::RV32IMAC.has_atomics() && !Isa::RV32IMC.has_atomics(),
    );
    comes(
        &rt,
        "at the limit",
        is_sized_answered(rt.alloc(), 16_777_216, 0),
    );
    comes(
        &rt,
        "above it",
        is_sized_answered(rt.alloc(), 16_777_217, 30),
    );
}

#[test]
fn words_are_patchable_where_each_byte_is_loaded(rt: HostRuntime) {
    for row in &PATCHABLE {
        assert!(rt; is_patchable(rt.alloc(), row), "at {:#010x}", row.2);
    }
}

#[test]
fn codes_are_where_an_instruction_may_begin_and_each_byte_is_loaded(rt: HostRuntime) {
    for row in &CODED {
        assert!(rt; is_coded(rt.alloc(), row), "at {:#010x}", row.1);
    }
}

/// The region of the stack where nothing is said of it, and one in a program's memory.
const USUAL_STACK: StackRegion = StackRegion {
    begin: 0x7F00_0000,
    end: 0x8000_0000,
};

const LOW_STACK: StackRegion = StackRegion {
    begin: 0x20000,
    end: 0x30000,
};

/// A label, the begin of the heap's region and the region of the stack, three changed words of the program; and the number of a fault, or 0.
type Placed = (&'static str, u32, StackRegion, [Change; 3], u8);

/// The program as a segment that goes from an address on for so many bytes.
const AROUND: [Change; 3] = [NONE, NONE, (MEMSZ, 0x30000)];

const PLACED: [Placed; 10] = [
    (
        "where the usual heap is, and it isn't",
        0x9000_0000,
        USUAL_STACK,
        [(VADDR, 0x4000_0000), NONE, NONE],
        0,
    ),
    (
        "where the heap is",
        0x9000_0000,
        USUAL_STACK,
        [(VADDR, 0xAFFF_FFFF), NONE, NONE],
        29,
    ),
    (
        "where the usual heap is",
        0x4000_0000,
        USUAL_STACK,
        [(VADDR, 0x4000_0000), NONE, NONE],
        29,
    ),
    ("around the stack", 0x4000_0000, LOW_STACK, AROUND, 0),
    (
        "with a byte in the stack",
        0x4000_0000,
        LOW_STACK,
        [(VADDR, 0x1FFF5), NONE, (MEMSZ, 0x20000)],
        29,
    ),
    (
        "with bytes up to the stack",
        0x4000_0000,
        LOW_STACK,
        [(VADDR, 0x1FFF4), NONE, (MEMSZ, 0x2000C)],
        0,
    ),
    (
        "that ends in the stack",
        0x4000_0000,
        LOW_STACK,
        [NONE, NONE, (MEMSZ, 0x1FFFF)],
        29,
    ),
    (
        "that begins in the stack",
        0x4000_0000,
        LOW_STACK,
        [(VADDR, 0x20001), (FILESZ, 0), (MEMSZ, 0x20000)],
        29,
    ),
    (
        "the stack alone, without bytes",
        0x4000_0000,
        LOW_STACK,
        [(VADDR, 0x20000), (FILESZ, 0), (MEMSZ, 0x10000)],
        0,
    ),
    (
        "around the usual stack",
        0x4000_0000,
        USUAL_STACK,
        [(VADDR, 0x7EFF_FFF4), NONE, (MEMSZ, 0x0100_0010)],
        29,
    ),
];

/// Returns the program's file with some words changed.
fn changed(changes: &[Change; 3]) -> [u8; 96] {
    let mut file = PROGRAM;
    change(&mut file, changes[0]);
    change(&mut file, changes[1]);
    change(&mut file, changes[2]);
    file
}

/// Returns whether a row holds.
fn is_placed(alloc: Global, row: &Placed) -> bool {
    let file = changed(&row.3);
    let Some(profile) = profile_with(Isa::RV32IM, row.1, row.2) else {
        return false;
    };
    match read_for(alloc, &file, profile) {
        Ok(_image) => row.4 == 0,
        Err(fault) => fault.number() == row.4,
    }
}

#[test]
fn segments_lie_beside_the_regions(rt: HostRuntime) {
    for row in &PLACED {
        holds(&rt, row.0, is_placed(rt.alloc(), row));
    }
}

/// Returns whether the program, as a segment that is around the stack, is loaded up to the stack and from its end on.
fn is_loaded_around(alloc: Global) -> bool {
    let file = changed(&AROUND);
    let Some(profile) = profile_with(Isa::RV32IM, 0x4000_0000, LOW_STACK) else {
        return false;
    };
    match read_for(alloc, &file, profile) {
        Ok(image) => {
            image.segments().len() == 2
                && image.patchable(0x10000)
                && image.patchable(0x1FFFC)
                && !image.patchable(0x1FFFD)
                && !image.patchable(0x2FFFF)
                && image.patchable(0x30000)
                && image.patchable(0x3FFFC)
                && !image.patchable(0x3FFFD)
        }
        Err(_) => false,
    }
}

#[test]
fn nothing_is_loaded_in_the_stack(rt: HostRuntime) {
    holds(&rt, "around the stack", is_loaded_around(rt.alloc()));
}
