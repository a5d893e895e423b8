//! Scans of bytes, many at a time.
ghost use Rattle.std.specs.Prelude.{◌≡◌, ◌≢◌, ℕ, ◌+◌, ◌<◌, ◌≤◌, ◌==◌, ◌↔◌, not, length, slice_index, IsTrue, IfNone, IfSome, EachIndex};
ghost use Rattle.std.specs.Simd.Lanes.{chunk};
ghost use Rattle.std.specs.List.{prefix_len};

use std::simd::prelude::*;

const LANES: usize = 16;

/// The number of bytes that are compared at once.
const WIDE: usize = 64;

// Returns the number of the sixteen bytes from a place on that come before the first that differs.
fn run_at(bytes: &[u8], at: usize, byte: u8) -> u32
    requires { at + 16 ≤ length bytes.now }
    ensures { result ≡ prefix_len (λ x. not (not (x == byte))) (chunk at 16 bytes.now) }
{
    let others = u8x16::from_slice(&bytes[at..])
        .simd_ne(u8x16::splat(byte))
        .to_bitmask();
    if others == 0 {
        16
    } else {
        others.trailing_zeros()
    }
}

/// Returns the least index at which a byte differs.
pub fn first_not(bytes: &[u8], byte: u8) -> Option<usize>
    ensures none { IfNone result (EachIndex bytes.now (λ k. slice_index bytes.now k ≡ byte)) }
    ensures within { IfSome result (λ i. i < length bytes.now) }
    ensures differs { IfSome result (λ i. slice_index bytes.now i ≢ byte) }
    ensures least { IfSome result (λ i. (k : ℕ) → k < i → slice_index bytes.now k ≡ byte) }
{
    let mut at = 0;
    while bytes.len() - at >= LANES {
        let run = run_at(bytes, at, byte) as usize;
        if run < LANES {
            return Some(at + run);
        }
        at += LANES;
    }
    for i in at..bytes.len() {
        if bytes[i] != byte {
            return Some(i);
        }
    }
    None
}

// Returns whether the 64 bytes from a place on are the same in two slices.
fn are_same_at(bytes: &[u8], others: &[u8], at: usize) -> bool
    requires here { at + 64 ≤ length bytes.now }
    requires there { at + 64 ≤ length others.now }
    ensures { IsTrue result → chunk at 64 bytes.now ≡ chunk at 64 others.now }
{
    let here = u8x64::from_slice(&bytes[at..]);
    let there = u8x64::from_slice(&others[at..]);
    here.simd_ne(there).to_bitmask() == 0
}

/// Returns whether two slices have the same bytes.
pub fn are_same(bytes: &[u8], others: &[u8]) -> bool
    ensures { IsTrue result → bytes.now ≡ others.now }
{
    if bytes.len() != others.len() {
        return false;
    }
    let mut at = 0;
    while bytes.len() - at >= WIDE {
        if !are_same_at(bytes, others, at) {
            return false;
        }
        at += WIDE;
    }
    bytes[at..] == others[at..]
}

/// Returns whether each byte is this one.
pub fn all_are(bytes: &[u8], byte: u8) -> bool
    ensures { IsTrue result ↔ EachIndex bytes.now (λ k. slice_index bytes.now k ≡ byte) }
{
    first_not(bytes, byte).is_none()
}
