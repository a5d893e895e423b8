//! A table of instructions that were decoded from codes of one length, each in the place of its address.
ghost use Rattle.std.specs.Prelude.{◌≡◌, ◌+◌, ◌^◌, ◌<◌, ◌≤◌, ◌⊎◌, ℕ, IfSome, length, slice_set, false};
ghost use Rattle.guest_machine.specs.DecodeCaches.{entry_at, no_entry, place_of, AreLeft, AreLeftBut, ArePlaced, IsClear, IsCodeLen, IsEntry};

use crate::decode_cache::{Decoded, NO_ENTRY};
use instructions::Instruction;

/// The greatest number of instructions in a table.
const ROOM: usize = 4096;
/// The number of instructions for which room is made at once.
const AT_ONCE: usize = 256;
/// The greatest number of bytes of a range whose codes are removed individually.
pub(crate) const FEW: u32 = 1024;

/// The place of an address.
#[inline(always)]
fn place_of(len: u32, addr: u32) -> usize
    requires { IsCodeLen len }
    ensures value { result ≡ place_of len addr }
    ensures within { result < 4096 }
{
    (addr / len) as usize % ROOM
}

/// The instruction of the code at an address, if there is one.
#[inline(always)]
pub(crate) fn entry_in(entries: &[Decoded], len: u32, addr: u32) -> Option<Instruction>
    requires { IsCodeLen len }
    ensures { IfSome result (λ row. (row ≡ (entry_at entries.now (place_of len addr)).row) × ((entry_at entries.now (place_of len addr)).addr ≡ addr)) }
{
    let place = place_of(len, addr);
    if place < entries.len() && entries[place].addr == addr {
        return Some(entries[place].row);
    }
    None
}

/// Removes all entries.
pub(crate) fn clear_all(entries: &mut Vec<Decoded>)
    ensures { (k : ℕ) → IsEntry (entry_at entries.new.items k) → ⊥ }
{
    entries.clear();
}

/// Makes room for a place and those around it. If memory runs out, there is no room afterwards either.
fn make_room(entries: &mut Vec<Decoded>, place: usize)
    requires { place < 4096 }
    ensures { (k : ℕ) → entry_at entries.new.items k ≡ entry_at entries.old.items k }
{
    if place < entries.len() {
        return;
    }
    let _grown = entries.resize(place / AT_ONCE * AT_ONCE + AT_ONCE, NO_ENTRY);
}

/// Puts an entry in its place, where there is room.
pub(crate) fn put_in(entries: &mut Vec<Decoded>, len: u32, entry: Decoded)
    requires { IsCodeLen len }
    ensures { (k : ℕ) → (entry_at entries.new.items k ≡ entry_at entries.old.items k)
        ⊎ ((k ≡ place_of len entry.addr) × (entry_at entries.new.items k ≡ entry)) }
{
    let place = place_of(len, entry.addr);
    make_room(entries, place);
    if place < entries.len() {
        entries[place] = entry;
    }
}

/// Removes the entry of a place.
pub(crate) fn drop_at(entries: &mut Vec<Decoded>, place: usize)
    requires { place < length entries.old.items }
    ensures { entries.new.items ≡ slice_set entries.old.items place no_entry }
{
    entries[place] = NO_ENTRY;
}

/// Whether an entry's code may have one of the `n` bytes from an address on.
fn meets(entry: Decoded, len: u32, start: u32, n: u32) -> bool
    requires { start + n < 2 ^ 32 }
    ensures { result ≡ false → IsClear start n len entry.addr }
{
    entry.addr < start.saturating_add(n) && start < entry.addr.saturating_add(len)
}

/// Removes the entry at one number of places from the beginning, counted without an end, if its code has one of the bytes of a range.
fn drop_at_number(entries: &mut Vec<Decoded>, len: u32, start: u32, n: u32, number: u32)
    requires len { IsCodeLen len }
    requires flat { start + n < 2 ^ 32 }
    requires placed { ArePlaced len entries.old.items }
    ensures { AreLeftBut entries.old.items entries.new.items start n len number (number + 1) }
{
    let place = number as usize % ROOM;
    if place < entries.len() && meets(entries[place], len, start, n) {
        drop_at(entries, place);
    }
}

/// Removes the entries whose codes have one of the bytes of a range.
pub(crate) fn drop_met(entries: &mut Vec<Decoded>, len: u32, start: u32, n: u32)
    requires len { IsCodeLen len }
    requires flat { start + n < 2 ^ 32 }
    requires placed { ArePlaced len entries.old.items }
    ensures { AreLeft entries.old.items entries.new.items start n len }
{
    for number in start.saturating_sub(len) / len..(start + n) / len + 1 {
        drop_at_number(entries, len, start, n, number);
    }
}
