//! Blocks of a heap by their addresses.
ghost use Rattle.std.specs.Prelude.{◌≡◌, ◌<◌, ◌≤◌, ℕ, None};
ghost use Rattle.guest_heap.specs.Blocks.{near_of, high_end};
ghost use Rattle.guest_heap.specs.Entries.{block_of};

use crate::entry::Entry;
use crate::heap::Heap;
use crate::region::{SLOTS, end_of};
use call_stacks::{Block, Near, Place};

fn near_of(entry: &Entry, address: u32) -> Near
    requires { high_end (block_of entry.now) < 4294967296 }
    ensures { result ≡ near_of (block_of entry.now) address }
{
    let found = entry.block();
    let start = entry.start;
    let size = entry.size;
    if address < start {
        return Near {
            block: found,
            place: Place::Before,
            distance: start - address,
        };
    }
    if start + size <= address {
        return Near {
            block: found,
            place: Place::After,
            distance: address - (start + size),
        };
    }
    Near {
        block: found,
        place: Place::Inside,
        distance: address - start,
    }
}

#[tactic(auto, unfolding(crate::specs::Heaps::blocks_of, crate::specs::Heaps::live_in))]
impl Heap {
    ghost use Rattle.std.specs.Prelude.{IfSome, IfNone, IsSomeAnd};
    ghost use Rattle.std.specs.Option.{option_copied, option_map};
    ghost use Rattle.guest_heap.specs.Blocks.{IsKept, Holds, IsFirstKept, IsFirstLive};
    ghost use Rattle.guest_heap.specs.States.{IsNextKept, live_block};
    ghost use Rattle.guest_heap.specs.Steps.{near, live_from};
    ghost use Rattle.guest_heap.specs.Heaps.{blocks_of, live_in};

    /// Returns the first live block from a slot on.
    fn first_live(&self, slot: usize) -> Option<&Entry>
        requires { slot ≤ 33554432 }
        ensures { IsNextKept (live_block (live_in self.now)) slot (option_map block_of (option_copied result)) }
    {
        match self.live.next_from(slot) {
            Some(at) => self.live.get(at),
            None => None,
        }
    }

    /// Returns the live block with the least start that isn't below an address.
    fn next_live(&self, from: u32) -> Option<Block>
        ensures some { IfSome result (λ b. IsFirstLive (blocks_of self.now).live from b) }
        ensures none { IfNone result ((a : ℕ) → from ≤ a → (blocks_of self.now).live a ≡ None) }
    {
        let begin = u64::from(self.begin);
        let above = u64::from(from).max(begin) - begin;
        let slot = ((above + 15) / 16) as usize;
        match self.first_live(slot.min(SLOTS)) {
            Some(entry) => Some(entry.block()),
            None => None,
        }
    }

    /// Returns the live block with the least start that isn't below an address. Allocates nothing.
    pub fn live(&self, from: u32) -> Option<Block>
        ensures first { result ≡ live_from (blocks_of self.now) from }
        ensures some { IfSome result (λ b. IsFirstLive (blocks_of self.now).live from b) }
        ensures none { IfNone result ((a : ℕ) → from ≤ a → (blocks_of self.now).live a ≡ None) }
    {
        self.next_live(from)
    }

    /// Returns the kept block with the least start that isn't below an address: a live one, or one in the queue of the freed ones. Allocates
    /// nothing.
    pub fn kept(&self, from: u32) -> Option<Block>
        ensures some { IfSome result (λ b. IsFirstKept (blocks_of self.now) from b) }
        ensures below { IfSome result (λ b. b.start < u32.MAX) }
        ensures none { IfNone result ((b : Block) → IsKept (blocks_of self.now) b → b.start < from) }
    {
        let begin = u64::from(self.begin);
        let above = u64::from(from).max(begin) - begin;
        let slot = ((above + 15) / 16) as usize;
        match self.kept_from(slot.min(SLOTS)) {
            Some(entry) => Some(entry.block()),
            None => None,
        }
    }

    /// Returns the kept block whose interval holds an address, and how far from the block the address is. There is at most one such block.
    fn holding(&self, address: u32) -> Option<Near>
        ensures kept { IfSome result (λ near. IsKept (blocks_of self.now) near.block) }
        ensures holds { IfSome result (λ near. Holds near.block address) }
        ensures near { IfSome result (λ near. near ≡ near_of near.block address) }
        ensures only { (b : Block) → IsKept (blocks_of self.now) b → Holds b address → IsSomeAnd result (λ near. near.block ≡ b) }
    {
        let low = u64::from(address);
        if address < self.begin {
            return None;
        }
        if low >= end_of(self.begin) {
            return None;
        }
        match self.meeting(low, low + 1) {
            Some(entry) => Some(near_of(entry, address)),
            None => None,
        }
    }

    /// Returns the kept block whose interval holds an address, and how far from the block the address is. There is at most one such block.
    /// Allocates nothing.
    pub fn block_near(&self, address: u32) -> Option<Near>
        ensures near { result ≡ near (blocks_of self.now) address }
        ensures kept { IfSome result (λ near. IsKept (blocks_of self.now) near.block) }
        ensures holds { IfSome result (λ near. Holds near.block address) }
        ensures only { (b : Block) → IsKept (blocks_of self.now) b → Holds b address → IsSomeAnd result (λ near. near.block ≡ b) }
    {
        self.holding(address)
    }
}
