//! The bytes of words, and the cells that they are stored in or loaded from.
ghost use Rattle.std.specs.Prelude.{◌≡◌, ℕ, ◌*◌, ◌^◌, ◌<◌, ◌&&◌, IsFalse, IsTrue, false, length, nat_le, nat_lt, slice_index, if◌then◌else◌};
ghost use Rattle.shadow_memory.specs.Ranges.{byte_of, little_word};
ghost use Rattle.shadow_memory.specs.Cells.{shadow_in, IsClean};
ghost use Rattle.shadow_memory.specs.Shadows.{loaded_undef};
ghost use Rattle.shadow_memory.specs.Loads.{four, loaded_at};
ghost use Rattle.shadow_memory.specs.Changes.{stored, IsWidth};

use crate::cells::{Cell, Loaded};
use definedness::Bits;

/// The cell of the bytes above those that are loaded.
pub(crate) const ABSENT: Cell = Cell {
    byte: 0,
    accessible: true,
    undef: 0,
};

/// The value of a 1 in the highest byte of a word.
const HIGHEST: u32 = 1 << 24;

/// Returns byte `i` of a word, from the low end.
#[inline(always)]
#[tactic(auto, unfolding(crate::specs::Ranges::byte_of))]
pub(crate) fn byte_at(word: u32, i: u32) -> u8
    requires { i < 4 }
    ensures { result ≡ byte_of word i }
{
    let byte = match i {
        0 => word % 256,
        1 => word / 256 % 256,
        2 => word / 65536 % 256,
        _ => word / 16777216 % 256,
    };
    byte as u8
}

/// Returns the bytes of a word, the lowest first.
#[inline(always)]
pub(crate) fn word_bytes(word: u32) -> [u8; 4]
    ensures { (i : ℕ) → i < 4 → slice_index result i ≡ byte_of word i }
{
    [
        byte_at(word, 0),
        byte_at(word, 1),
        byte_at(word, 2),
        byte_at(word, 3),
    ]
}

/// Returns the number of four bytes, the lowest first.
#[inline(always)]
#[tactic(auto, unfolding(crate::specs::Ranges::little_word))]
pub(crate) fn word(first: u8, second: u8, third: u8, fourth: u8) -> u32
    ensures { result ≡ little_word (four first second third fourth) }
{
    u32::from_le_bytes([first, second, third, fourth])
}

/// Returns the number of `n` bytes, all of whose bits are set.
#[inline(always)]
#[tactic(auto, unfolding(crate::specs::Ranges::little_word))]
pub(crate) fn all_bits(n: u32) -> u32
    requires { IsWidth n }
    ensures value { result ≡ little_word (λ i. if nat_lt i n then 255 else 0) }
    ensures small { result < 2 ^ (8 * n) }
{
    match n {
        1 => 0xff,
        2 => 0xffff,
        _ => u32::MAX,
    }
}

/// Returns whether all bits of the low `n` bytes of a number are set.
#[tactic(auto, unfolding(crate::specs::Ranges::byte_of))]
pub(crate) fn has_all_bits(number: u32, n: u32) -> bool
    requires { IsWidth n }
    ensures { IsTrue result → (i : ℕ) → i < n → byte_of number i ≡ 255 }
{
    match n {
        1 => number % 256 == 0xff,
        2 => number % 65536 == 0xffff,
        _ => number == u32::MAX,
    }
}

/// Returns whether four bytes may have a value from `low` up to, but not including, `high`, by their highest byte.
#[inline(always)]
pub(crate) fn may_lie_within(bytes: &[u8], low: u32, high: u64) -> bool
    requires { length bytes.now ≡ 4 }
    ensures { IsFalse result → (nat_le low (little_word (slice_index bytes.now)) && nat_lt (little_word (slice_index bytes.now)) high) ≡ false }
{
    let least = u64::from(low / HIGHEST);
    let end = high / u64::from(HIGHEST) + 1;
    // One comparison, whose jump is mispredicted on random data less often than the jumps of two.
    u64::from(bytes[3]).wrapping_sub(least) < end.saturating_sub(least)
}

// Returns the undefined bits of a cell as it is loaded.
fn loaded_undef(cell: Cell) -> u8
    ensures { result ≡ loaded_undef (shadow_in cell) }
{
    if cell.accessible { cell.undef } else { 0 }
}

/// Returns a cell after byte `i` of a number was stored in it.
pub(crate) fn stored_cell(bits: Bits, i: u32, cell: Cell) -> Cell
    requires width { i < 4 }
    requires clean { IsClean cell }
    ensures value { result ≡ stored bits i cell }
    ensures clean { IsClean result }
{
    Cell {
        byte: byte_at(bits.value, i),
        accessible: cell.accessible,
        undef: if cell.accessible {
            byte_at(bits.undef, i)
        } else {
            cell.undef
        },
    }
}

/// Returns a target's cell after a source's was copied to it.
pub(crate) fn copied_from(source: Cell, target: Cell) -> Cell
    requires source { IsClean source }
    requires target { IsClean target }
    ensures byte { result.byte ≡ source.byte }
    ensures accessible { result.accessible ≡ target.accessible }
    ensures undef { result.undef ≡ (if target.accessible then loaded_undef (shadow_in source) else target.undef) }
    ensures clean { IsClean result }
{
    Cell {
        byte: source.byte,
        accessible: target.accessible,
        undef: if target.accessible {
            loaded_undef(source)
        } else {
            target.undef
        },
    }
}

/// Returns what a load of four cells from an address on takes.
#[tactic(auto, unfolding(crate::specs::Loads::loaded_at, crate::specs::Ranges::little_word, crate::specs::Ranges::first_from))]
pub(crate) fn loaded_from(addr: u32, first: Cell, second: Cell, third: Cell, fourth: Cell) -> Loaded
    ensures { result ≡ loaded_at (four first second third fourth) addr 4 }
{
    let bad = if !first.accessible {
        Some(addr.wrapping_add(0))
    } else if !second.accessible {
        Some(addr.wrapping_add(1))
    } else if !third.accessible {
        Some(addr.wrapping_add(2))
    } else if !fourth.accessible {
        Some(addr.wrapping_add(3))
    } else {
        None
    };
    Loaded {
        value: word(first.byte, second.byte, third.byte, fourth.byte),
        undef: word(
            loaded_undef(first),
            loaded_undef(second),
            loaded_undef(third),
            loaded_undef(fourth),
        ),
        bad,
    }
}
