//! Searches for the least place, from block to block and from part to part.
ghost use Rattle.std.specs.Prelude.{◌≡◌, ◌<◌, ◌≤◌, ◌+◌, ◌%◌, ◌^◌, ℕ};

use crate::bounds::{Bound, past};
use crate::gaps::ranges::Full;
use crate::gaps::{Gaps, part_end};
use crate::heap::Heap;
use crate::interval::{high_end, low_end};
use crate::region::{aligned, end_of};
use std::alloc::{AllocError, Global};

/// The greatest number of kept blocks that a search looks at without an index of gaps.
const FEW: u32 = 64;

/// A search: its outcome, or an address below which there is no place.
pub(crate) enum Search {
    Done(Option<u32>),
    At(u64),
}

/// What a look at a part of the region found: the least place, or a room into which each block fits that has a place there.
pub(crate) enum Look {
    Place(u32),
    Room(u32),
}

#[tactic(auto, unfolding(crate::specs::Heaps::blocks_of, crate::specs::Heaps::redzone_in))]
impl Heap {
    ghost use Rattle.std.specs.Prelude.{IfOk};
    ghost use Rattle.memory_map.specs.Regions.{heap_size};
    ghost use Rattle.guest_heap.specs.Blocks.{IsPlace, Places, greatest_size};
    ghost use Rattle.guest_heap.specs.Heaps.{blocks_of, redzone_in};
    ghost use Rattle.guest_heap.specs.States.{AreNoPlaces};
    ghost use Rattle.guest_heap.specs.Gaps.{AreGaps};
    ghost use Rattle.guest_heap.specs.Searches.{IsReached, IsFurther, Searched, Looked};

    /// Searches from block to block, from an address on, and stops if there are many.
    #[inline(always)]
    pub(crate) fn place_near(&self, from: u64, size: u32, known: &Bound) -> Search
        requires reached { IsReached (blocks_of self.now) size (redzone_in self.now) from }
        requires small { size ≤ greatest_size }
        requires skipped { AreNoPlaces (blocks_of self.now) size (redzone_in self.now) known.now.next known.now.until }
        ensures { Searched (blocks_of self.now) size (redzone_in self.now) result }
    {
        let before = u64::from(self.redzone);
        let after = u64::from(size.max(1)) + before;
        let end = end_of(self.begin);
        let mut at = from;
        for _ in 0..FEW {
            if at + after > end {
                return Search::Done(None);
            }
            match self.meeting(at - before, at + after) {
                None => return Search::Done(Some(at as u32)),
                Some(entry) => {
                    let behind = aligned(high_end(entry) + before);
                    at = past(behind, known);
                }
            }
        }
        Search::At(at)
    }

    /// Looks at the kept blocks from an address up to another.
    fn look(&self, from: u64, until: u64, size: u32) -> Look
        requires reached { IsReached (blocks_of self.now) size (redzone_in self.now) from }
        requires small { size ≤ greatest_size }
        ensures { Looked (blocks_of self.now) size (redzone_in self.now) from until result }
    {
        let before = u64::from(self.redzone);
        let reach = u64::from(size.max(1)) + before;
        let end = end_of(self.begin);
        let mut room: u64 = 0;
        let mut at = from;
        while at < until {
            if at + reach > end {
                return Look::Room(room.max(end.saturating_sub(at + before)) as u32);
            }
            match self.meeting(at - before, at + reach) {
                None => return Look::Place(at as u32),
                Some(entry) => {
                    room = room.max(low_end(entry).saturating_sub(at + before));
                    at = aligned(high_end(entry) + before);
                }
            }
        }
        Look::Room(room as u32)
    }

    /// Passes over what is full for a size, or else looks at the part of an address, and notes what it finds.
    fn search_part(
        &self,
        alloc: Global,
        gaps: &mut Gaps,
        at: u64,
        size: u32,
    ) -> Result<Search, AllocError>
        requires reached { IsReached (blocks_of self.now) size (redzone_in self.now) at }
        requires within { at < self.now.begin + heap_size }
        requires small { size ≤ greatest_size }
        requires gaps { AreGaps (blocks_of self.now) (redzone_in self.now) gaps.old }
        ensures gaps { AreGaps (blocks_of self.now) (redzone_in self.now) gaps.new }
        ensures searched { IfOk result (λ search. Searched (blocks_of self.now) size (redzone_in self.now) search) }
        ensures further { IfOk result (λ search. IsFurther at search) }
    {
        let passed = gaps.past(self.begin, at, size);
        if passed > at {
            return Ok(Search::At(passed));
        }
        let until = part_end(self.begin, at);
        match self.look(at, until, size) {
            Look::Place(start) => Ok(Search::Done(Some(start))),
            Look::Room(room) => {
                gaps.put(
                    alloc,
                    self.begin,
                    Full {
                        size: room + 1,
                        from: at as u32,
                        until: until as u32,
                    },
                )?;
                Ok(Search::At(until))
            }
        }
    }

    /// Searches from part to part, from an address on, by an index of gaps.
    pub(crate) fn place_in_gaps(
        &self,
        alloc: Global,
        gaps: &mut Gaps,
        from: u64,
        size: u32,
    ) -> Result<Option<u32>, AllocError>
        requires reached { IsReached (blocks_of self.now) size (redzone_in self.now) from }
        requires small { size ≤ greatest_size }
        requires gaps { AreGaps (blocks_of self.now) (redzone_in self.now) gaps.old }
        ensures gaps { AreGaps (blocks_of self.now) (redzone_in self.now) gaps.new }
        ensures place { IfOk result (λ start. Places (blocks_of self.now) size (redzone_in self.now) start) }
    {
        let after = u64::from(size.max(1)) + u64::from(self.redzone);
        let end = end_of(self.begin);
        let mut at = from;
        while at + after <= end {
            match self.search_part(alloc, gaps, at, size)? {
                Search::Done(place) => return Ok(place),
                Search::At(next) => {
                    gaps.pass(self.begin, at, next, size)?;
                    at = next;
                }
            }
        }
        Ok(None)
    }
}
