//! The instructions of a program that has some of 16 bits.
ghost use Rattle.std.specs.Prelude.{◌≡◌, ◌+◌, ◌*◌, ◌<◌, ◌≤◌, ◌^◌, ◌++◌, IfOk, OnOk, false, length, unwrap_or};
ghost use Rattle.guest_elf.specs.Images.{loaded_at};
ghost use Rattle.guest_elf.specs.Segments.{loaded, loaded_by};
ghost use Rattle.sweep_plans.specs.Plans.{count, instruction_at, instructions, is_long, loaded_half, somewhere};

use crate::plan::{Places, SweepPlace};
use guest_elf::{Image, Segment};
use std::alloc::{AllocError, Global};

/// Returns the byte that a segment loads at an address, if the address is among its own.
#[tactic(auto, unfolding(guest_elf::specs::Segments::loaded_by))]
fn byte_of(segment: &Segment<'_>, addr: u32) -> Option<u8>
    ensures { result ≡ loaded_by segment.now addr }
{
    if !segment.has(addr) {
        return None;
    }
    let place = (addr - segment.vaddr) as usize;
    Some(segment.bytes.get(place).copied().unwrap_or(0))
}

/// Returns the byte that some segments load at an address, or 0 if none does. The first that has the address does.
fn byte_in(segments: &[Segment<'_>], addr: u32) -> u8
    ensures { result ≡ unwrap_or (loaded segments.now addr) 0 }
{
    for segment in segments {
        if let Some(byte) = byte_of(segment, addr) {
            return byte;
        }
    }
    0
}

/// Returns the byte that is loaded at an address, or 0 if none is.
#[tactic(auto, unfolding(guest_elf::specs::Images::loaded_at))]
fn loaded_byte(image: &Image<'_>, addr: u32) -> u8
    ensures { result ≡ unwrap_or (loaded_at image.now addr) 0 }
{
    byte_in(image.segments(), addr)
}

/// Returns the number in the two bytes that are loaded at an address.
fn loaded_half(image: &Image<'_>, addr: u32) -> u32
    requires { addr + 1 < 2 ^ 32 }
    ensures { result ≡ loaded_half image.now addr }
{
    u32::from(loaded_byte(image, addr)) + 256 * u32::from(loaded_byte(image, addr + 1))
}

/// Returns the instruction that begins at an address, if it isn't inside of a word.
#[tactic(auto, unfolding(crate::specs::Plans::instruction_at))]
fn instruction_at(image: &Image<'_>, inside: bool, addr: u32) -> SweepPlace
    requires { addr + 1 < 2 ^ 32 }
    ensures { result ≡ instruction_at image.now inside addr }
{
    if inside || !image.is_half_word(addr) {
        SweepPlace::Nowhere
    } else if image.profile().isa.is_half(loaded_half(image, addr)) {
        SweepPlace::Half(addr)
    } else if image.is_word(addr) {
        SweepPlace::Word(addr)
    } else {
        SweepPlace::Nowhere
    }
}

/// Appends a place, if it is somewhere.
fn push_place(places: &mut Vec<SweepPlace>, place: SweepPlace) -> Result<(), AllocError>
    ensures { OnOk result (places.new.items ≡ places.old.items ++ somewhere place) }
{
    if !matches!(place, SweepPlace::Nowhere) {
        places.push(place)?;
    }
    Ok(())
}

/// Returns whether the next half is the second one of a word.
fn is_long(place: SweepPlace) -> bool
    ensures { result ≡ is_long place }
{
    matches!(place, SweepPlace::Word(_))
}

/// Returns the instructions that begin in some halves, which are given by half of their addresses.
pub fn instructions(
    alloc: Global,
    image: &Image<'_>,
    halves: Places,
) -> Result<Vec<SweepPlace>, AllocError>
    requires { halves.end ≤ 2 ^ 31 }
    ensures list { IfOk result (λ list. list.items ≡ instructions image.now false (2 * halves.first) (count halves)) }
    ensures few { IfOk result (λ list. length list.items ≤ 2 ^ 31) }
{
    let mut list = Vec::new(alloc);
    let mut inside = false;
    for i in 0..halves.count() {
        let place = instruction_at(image, inside, 2 * (halves.first + i));
        inside = is_long(place);
        push_place(&mut list, place)?;
    }
    Ok(list)
}
