//! The heap's region, and its multiples of 16, at which blocks begin.
ghost use Rattle.std.specs.Prelude.{◌≡◌, ◌<◌, ◌≤◌, ◌+◌, ◌%◌};
ghost use Rattle.memory_map.specs.Regions.{heap_size};
ghost use Rattle.guest_heap.specs.States.{slot_of};

use memory_map::HEAP_SIZE;

/// The number of multiples of 16 in the region.
pub(crate) const SLOTS: usize = 33554432;

/// The size of the greatest block, in bytes.
pub(crate) const GREATEST_SIZE: u32 = 16777216;

/// Returns the first address after the region that begins at an address.
#[inline(always)]
pub(crate) fn end_of(begin: u32) -> u64
    ensures { result ≡ begin + heap_size }
{
    u64::from(begin) + u64::from(HEAP_SIZE)
}

/// Returns the slot of an address of the region that begins at `begin`: the number of multiples of 16 in the region that lie below it.
pub(crate) fn slot_of(begin: u32, address: u32) -> usize
    requires { begin ≤ address }
    ensures { result ≡ slot_of begin address }
{
    ((u64::from(address) - u64::from(begin)) / 16) as usize
}

/// Returns the least multiple of 16 that isn't below an address.
pub(crate) fn aligned(address: u64) -> u64
    requires { address < 17179869184 }
    ensures multiple { result % 16 ≡ 0 }
    ensures above { address ≤ result }
    ensures near { result < address + 16 }
{
    (address + 15) / 16 * 16
}
