//! Scans of words, a row of sixteen at once, and four rows.
ghost use Rattle.std.specs.Prelude.{◌≡◌, ℕ, ◌+◌, ◌-◌, ◌*◌, ◌%◌, ◌^◌, ◌<◌, ◌≤◌, ◌&&◌, false, length, min, nat_le, nat_lt, slice_index, IsTrue};
ghost use Rattle.shadow_memory.specs.Values.{value_at};

use std::simd::prelude::*;

/// The number of bytes of a row.
pub(crate) const ROW: usize = 64;

/// The number of bytes of four rows.
pub(crate) const ROWS: usize = 256;

// Returns how far above a number the values of sixteen words from a place on are, round the end.
#[inline(always)]
fn above(bytes: &[u8], at: usize, low: u32) -> u32x16
    requires { at + 64 ≤ length bytes.now }
    ensures len { length result ≡ 16 }
    ensures each { (j : ℕ) → j < 16
        → slice_index result j ≡ (value_at (slice_index bytes.now) (at + 4 * j) + (2 ^ 32 - low)) % 2 ^ 32 }
{
    u32x16::from_le_bytes(u8x64::from_slice(&bytes[at..])) - u32x16::splat(low)
}

/// Returns whether each of 64 bytes from a place on is 0.
#[inline(always)]
pub(crate) fn are_zero(bytes: &[u8], at: usize) -> bool
    requires { at + 64 ≤ length bytes.now }
    ensures { IsTrue result → (k : ℕ) → k < 64 → slice_index bytes.now (at + k) ≡ 0 }
{
    u8x64::from_slice(&bytes[at..])
        .simd_ne(u8x64::splat(0))
        .to_bitmask()
        == 0
}

// Returns the lesser of two numbers, for each of sixteen pairs.
#[inline(always)]
fn lesser(lanes: u32x16, others: u32x16) -> u32x16
    requires lanes { length lanes ≡ 16 }
    requires others { length others ≡ 16 }
    ensures len { length result ≡ 16 }
    ensures each { (j : ℕ) → j < 16 → slice_index result j ≡ min (slice_index lanes j) (slice_index others j) }
{
    lanes.simd_min(others)
}

// Returns whether each of sixteen numbers is greater than another.
#[inline(always)]
fn are_greater(lanes: u32x16, most: u32) -> bool
    requires { length lanes ≡ 16 }
    ensures { IsTrue result → (j : ℕ) → j < 16 → most < slice_index lanes j }
{
    lanes.simd_le(u32x16::splat(most)).to_bitmask() == 0
}

// Returns how far above `low` the greatest number below `high` is; 0 if there is none.
#[inline(always)]
fn extent(low: u32, high: u64) -> u32
    ensures { result ≡ min (high - (low + 1)) (2 ^ 32 - 1) }
{
    high.saturating_sub(u64::from(low) + 1)
        .min(u64::from(u32::MAX)) as u32
}

/// Returns whether none of the sixteen words from a place on has a value from `low` up to, but not including, `high`. May also return
/// `false` for such words.
#[inline(always)]
pub(crate) fn row_has_none(bytes: &[u8], at: usize, low: u32, high: u64) -> bool
    requires { at + 64 ≤ length bytes.now }
    ensures { IsTrue result → (j : ℕ) → j < 16
        → (nat_le low (value_at (slice_index bytes.now) (at + 4 * j)) && nat_lt (value_at (slice_index bytes.now) (at + 4 * j)) high) ≡ false }
{
    are_greater(above(bytes, at, low), extent(low, high))
}

/// Returns the same for 64 words.
#[inline(always)]
pub(crate) fn rows_have_none(bytes: &[u8], at: usize, low: u32, high: u64) -> bool
    requires { at + 256 ≤ length bytes.now }
    ensures { IsTrue result → (j : ℕ) → j < 64
        → (nat_le low (value_at (slice_index bytes.now) (at + 4 * j)) && nat_lt (value_at (slice_index bytes.now) (at + 4 * j)) high) ≡ false }
{
    let first = lesser(above(bytes, at, low), above(bytes, at + ROW, low));
    let second = lesser(
        above(bytes, at + 2 * ROW, low),
        above(bytes, at + 3 * ROW, low),
    );
    are_greater(lesser(first, second), extent(low, high))
}
