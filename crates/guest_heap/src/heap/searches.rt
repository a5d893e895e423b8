//! Blocks by their places.
ghost use Rattle.std.specs.Prelude.{◌≡◌, ◌<◌, ◌≤◌, ◌+◌, ◌*◌, ◌==◌, ℕ, IsNone};

use crate::entry::Entry;
use crate::heap::Heap;
use crate::interval::{high_end, low_end};
use crate::region::{end_of, slot_of};

#[tactic(auto, unfolding(crate::specs::Heaps::live_in, crate::specs::Heaps::freed_in, crate::specs::Heaps::first_in))]
impl Heap {
    ghost use Rattle.std.specs.Prelude.{IfSome, IfNone};
    ghost use Rattle.std.specs.Option.{option_copied, option_map};
    ghost use Rattle.call_stacks.specs.declared.block.Block.{Block};
    ghost use Rattle.guest_heap.specs.Entries.{block_of, IsNext, IsLast};
    ghost use Rattle.guest_heap.specs.States.{kept_at, either, IsNextKept, IsLastKept, MeetsBelow, MeetsFrom, EndsBelow, BeginsAbove};
    ghost use Rattle.guest_heap.specs.Heaps.{blocks_of, live_in, freed_in, first_in};
    ghost use Rattle.guest_heap.specs.Blocks.{IsKept, Meets, high_end};
    ghost use Rattle.memory_map.specs.Regions.{heap_size};

    /// Returns the kept block of a slot.
    fn kept_in(&self, slot: usize) -> Option<&Entry>
        requires { slot < 33554432 }
        ensures { option_map block_of (option_copied result) ≡ kept_at (live_in self.now) (freed_in self.now) (first_in self.now) slot }
    {
        if let Some(entry) = self.live.get(slot) {
            return Some(entry);
        }
        match self.freed.get(slot) {
            Some(entry) => {
                if entry.number >= self.first {
                    return Some(entry);
                }
                None
            }
            None => None,
        }
    }

    /// Returns the first slot from this one on that has an entry in one of the tables.
    fn used_from(&self, at: usize) -> Option<usize>
        requires { at ≤ 33554432 }
        ensures { IsNext (either (live_in self.now) (freed_in self.now)) at 33554432 result }
    {
        match self.live.next_from(at) {
            Some(live) => match self.freed.next_from(at) {
                Some(freed) => Some(live.min(freed)),
                None => Some(live),
            },
            None => self.freed.next_from(at),
        }
    }

    /// Returns the last slot below this one that has an entry in one of the tables.
    fn used_below(&self, at: usize) -> Option<usize>
        requires { at ≤ 33554432 }
        ensures { IsLast (either (live_in self.now) (freed_in self.now)) at result }
    {
        match self.live.last_below(at) {
            Some(live) => match self.freed.last_below(at) {
                Some(freed) => Some(live.max(freed)),
                None => Some(live),
            },
            None => self.freed.last_below(at),
        }
    }

    /// Returns the first kept block from a slot on.
    #[tactic(auto, using(crate::proofs::KeptSteps::none_kept), unfolding(crate::specs::Heaps::live_in, crate::specs::Heaps::freed_in, crate::specs::Heaps::first_in))]
    pub(crate) fn kept_from(&self, from: usize) -> Option<&Entry>
        requires { from ≤ 33554432 }
        ensures { IsNextKept (kept_at (live_in self.now) (freed_in self.now) (first_in self.now)) from (option_map block_of (option_copied result)) }
    {
        let mut at = from;
        while let Some(slot) = self.used_from(at) {
            if let Some(entry) = self.kept_in(slot) {
                return Some(entry);
            }
            at = slot + 1;
        }
        None
    }

    /// Returns the last kept block below a slot.
    #[tactic(auto, using(crate::proofs::KeptSteps::none_kept), unfolding(crate::specs::Heaps::live_in, crate::specs::Heaps::freed_in, crate::specs::Heaps::first_in))]
    fn kept_below(&self, to: usize) -> Option<&Entry>
        requires { to ≤ 33554432 }
        ensures { IsLastKept (kept_at (live_in self.now) (freed_in self.now) (first_in self.now)) to (option_map block_of (option_copied result)) }
    {
        let mut at = to;
        while let Some(slot) = self.used_below(at) {
            if let Some(entry) = self.kept_in(slot) {
                return Some(entry);
            }
            at = slot;
        }
        None
    }

    /// Returns a kept block that begins below a slot and whose interval extends past an address.
    fn meeting_below(&self, to: usize, low: u64) -> Option<&Entry>
        requires { to ≤ 33554432 }
        ensures { MeetsBelow (blocks_of self.now) to low (option_map block_of (option_copied result)) }
    {
        match self.kept_below(to) {
            Some(entry) => {
                if low < high_end(entry) {
                    return Some(entry);
                }
                None
            }
            None => None,
        }
    }

    /// Returns a kept block that begins at a slot or above it, and whose interval begins below an address.
    fn meeting_from(&self, from: usize, high: u64) -> Option<&Entry>
        requires { from ≤ 33554432 }
        ensures { MeetsFrom (blocks_of self.now) from high (option_map block_of (option_copied result)) }
    {
        match self.kept_from(from) {
            Some(entry) => {
                if low_end(entry) < high {
                    return Some(entry);
                }
                None
            }
            None => None,
        }
    }

    /// Returns the end of the interval of the last kept block that begins below an address, or the region's begin if there is none.
    pub(crate) fn end_below(&self, start: u32) -> u64
        requires above { self.now.begin ≤ start }
        requires below { start < self.now.begin + heap_size }
        ensures end { EndsBelow (blocks_of self.now) start result }
        ensures within { result ≤ self.now.begin + heap_size }
    {
        match self.kept_below(slot_of(self.begin, start)) {
            Some(entry) => high_end(entry),
            None => u64::from(self.begin),
        }
    }

    /// Returns the begin of the interval of the first kept block that begins above an address, or the region's end if there is none.
    pub(crate) fn begin_above(&self, start: u32) -> u64
        requires above { self.now.begin ≤ start }
        requires below { start < self.now.begin + heap_size }
        ensures begin { BeginsAbove (blocks_of self.now) start result }
    {
        match self.kept_from(slot_of(self.begin, start) + 1) {
            Some(entry) => low_end(entry),
            None => end_of(self.begin),
        }
    }

    /// Returns a kept block whose interval meets a range.
    #[tactic(auto, unfolding(crate::specs::Heaps::blocks_of))]
    pub(crate) fn meeting(&self, low: u64, high: u64) -> Option<&Entry>
        requires above { self.now.begin ≤ low }
        requires below { low ≤ self.now.begin + heap_size }
        requires order { low < high }
        ensures some { IfSome result (λ e. IsKept (blocks_of self.now) (block_of e.now)) }
        ensures meets { IfSome result (λ e. Meets low high (block_of e.now)) }
        ensures within { IfSome result (λ e. high_end (block_of e.now) ≤ self.now.begin + heap_size) }
        ensures none { IfNone result ((b : Block) → IsKept (blocks_of self.now) b → ¬ (Meets low high b)) }
    {
        // Looks first at the blocks that begin in the range or after it: a walk from block to block has each ahead of it, and seldom looks
        // back.
        let from = ((low - u64::from(self.begin) + 15) / 16) as usize;
        match self.meeting_from(from, high) {
            Some(entry) => Some(entry),
            None => self.meeting_below(from, low),
        }
    }
}
