//! Places for new blocks.
ghost use Rattle.std.specs.Prelude.{◌≡◌, ◌<◌, ◌≤◌, ◌+◌, ◌%◌, ◌^◌, ℕ, None};

use crate::bounds::{Bound, SizeClass, class_of};
use crate::entry::Entry;
use crate::gaps::Gaps;
use crate::heap::Heap;
use crate::heap::places::Search;
use crate::region::{GREATEST_SIZE, aligned, end_of, slot_of};
use call_stacks::Trace;
use std::alloc::{AllocError, Global};
use std::mem;
use std::rc::Rc;

#[tactic(auto, unfolding(crate::specs::Heaps::blocks_of))]
impl Heap {
    ghost use Rattle.std.specs.Prelude.{IfOk, OnOk, OnErr};
    ghost use Rattle.guest_heap.specs.Blocks.{IsPlace, Places, allocated, greatest_size, with_block};
    ghost use Rattle.guest_heap.specs.Entries.{block_of};
    ghost use Rattle.guest_heap.specs.Steps.{place};
    ghost use Rattle.guest_heap.specs.Heaps.{blocks_of, redzone_in};
    ghost use Rattle.guest_heap.specs.States.{AreNoPlaces};
    ghost use Rattle.guest_heap.specs.Bounds.{Holds};
    ghost use Rattle.guest_heap.specs.Searches.{IsReached};

    /// Returns the least place from an address on, with the index of gaps. While the search runs, the heap has no index.
    #[inline(never)]
    #[tactic(auto, unfolding(crate::specs::Heaps::blocks_of, crate::specs::Heaps::redzone_in))]
    fn place_by_gaps(
        &mut self,
        alloc: Global,
        from: u64,
        size: u32,
    ) -> Result<Option<u32>, AllocError>
        requires reached { IsReached (blocks_of self.old) size (redzone_in self.old) from }
        requires small { size ≤ greatest_size }
        ensures same { blocks_of self.new ≡ blocks_of self.old }
        ensures redzone { redzone_in self.new ≡ redzone_in self.old }
        ensures place { IfOk result (λ start. Places (blocks_of self.new) size (redzone_in self.new) start) }
    {
        let mut gaps = mem::replace(&mut self.gaps, Gaps::new());
        let found = self.place_in_gaps(alloc, &mut gaps, from, size);
        self.gaps = gaps;
        found
    }

    /// Returns the least place from an address on. If there are many blocks to look at, the heap has an index of gaps from then on.
    #[inline(always)]
    #[tactic(auto, unfolding(crate::specs::Heaps::blocks_of, crate::specs::Heaps::redzone_in))]
    fn place_from(
        &mut self,
        alloc: Global,
        from: u64,
        size: u32,
        known: &Bound,
    ) -> Result<Option<u32>, AllocError>
        requires reached { IsReached (blocks_of self.old) size (redzone_in self.old) from }
        requires small { size ≤ greatest_size }
        requires skipped { AreNoPlaces (blocks_of self.old) size (redzone_in self.old) known.now.next known.now.until }
        ensures same { blocks_of self.new ≡ blocks_of self.old }
        ensures redzone { redzone_in self.new ≡ redzone_in self.old }
        ensures place { IfOk result (λ start. Places (blocks_of self.new) size (redzone_in self.new) start) }
    {
        if !self.gaps.are_absent() {
            return self.place_by_gaps(alloc, from, size);
        }
        match self.place_near(from, size, known) {
            Search::Done(place) => Ok(place),
            Search::At(at) => {
                self.gaps = Gaps::of_region(alloc, self.begin)?;
                self.place_by_gaps(alloc, at, size)
            }
        }
    }

    /// Makes the bounds those of a redzone. What was known for another one is forgotten.
    #[tactic(auto, unfolding(crate::specs::Heaps::blocks_of, crate::specs::Heaps::redzone_in))]
    fn use_redzone(&mut self, alloc: Global, redzone: u32) -> Result<(), AllocError>
        ensures same { blocks_of self.new ≡ blocks_of self.old }
        ensures redzone { OnOk result (redzone_in self.new ≡ redzone) }
    {
        if self.redzone != redzone || self.bounds.are_absent() {
            self.bounds.forget(alloc)?;
            self.gaps = Gaps::new();
            self.redzone = redzone;
        }
        Ok(())
    }

    /// Returns the bound of a class, raised to the least place of its least block.
    #[tactic(auto, unfolding(crate::specs::Heaps::blocks_of, crate::specs::Heaps::redzone_in))]
    fn raised(&mut self, alloc: Global, class: &SizeClass) -> Result<Bound, AllocError>
        requires index { class.now.index < 268 }
        requires small { class.now.least ≤ greatest_size }
        ensures same { blocks_of self.new ≡ blocks_of self.old }
        ensures redzone { redzone_in self.new ≡ redzone_in self.old }
        ensures size { IfOk result (λ bound. bound.size ≡ class.now.least) }
        ensures holds { IfOk result (λ bound. Holds (blocks_of self.new) (redzone_in self.new) bound) }
    {
        let known = u64::from(self.bounds.known(class));
        let own = self.bounds.get(class);
        let from = aligned(known.max(u64::from(self.begin) + u64::from(self.redzone)));
        let least = match self.place_from(alloc, from, class.least, &own)? {
            Some(place) => place,
            None => end_of(self.begin) as u32,
        };
        Ok(Bound {
            size: own.size,
            from: least,
            next: own.next,
            until: own.until,
        })
    }

    /// Raises the bound of a class, and returns it. If the bound already has that value, copies still share the list.
    #[tactic(auto, unfolding(crate::specs::Heaps::blocks_of, crate::specs::Heaps::redzone_in))]
    fn raise_bound(&mut self, alloc: Global, class: &SizeClass) -> Result<Bound, AllocError>
        requires index { class.now.index < 268 }
        requires small { class.now.least ≤ greatest_size }
        ensures same { blocks_of self.new ≡ blocks_of self.old }
        ensures redzone { redzone_in self.new ≡ redzone_in self.old }
        ensures size { IfOk result (λ bound. bound.size ≡ class.now.least) }
        ensures holds { IfOk result (λ bound. Holds (blocks_of self.new) (redzone_in self.new) bound) }
    {
        let raised = self.raised(alloc, class)?;
        if raised.from == self.bounds.get(class).from {
            return Ok(raised);
        }
        self.bounds.put(class.index, raised)?;
        Ok(raised)
    }

    /// Returns the least place for a block, if there is one.
    fn place(&mut self, alloc: Global, size: u32, redzone: u32) -> Result<Option<u32>, AllocError>
        ensures same { blocks_of self.new ≡ blocks_of self.old }
        ensures place { IfOk result (λ start. Places (blocks_of self.new) size redzone start) }
    {
        if size > GREATEST_SIZE {
            return Ok(None);
        }
        self.use_redzone(alloc, redzone)?;
        let bound = self.raise_bound(alloc, &class_of(size))?;
        let from = aligned(u64::from(bound.from).max(u64::from(self.begin) + u64::from(redzone)));
        self.place_from(alloc, from, size, &bound)
    }

    /// Puts a new live block at a place.
    fn put(&mut self, alloc: Global, entry: Entry) -> Result<(), AllocError>
        requires place { IsPlace (blocks_of self.old) entry.size entry.redzone entry.start }
        requires live { entry.freed ≡ None }
        ensures ok { OnOk result (blocks_of self.new ≡ with_block (blocks_of self.old) (block_of entry)) }
        ensures err { OnErr result (blocks_of self.new ≡ blocks_of self.old) }
    {
        self.placed = self.placed.saturating_add(1);
        let slot = slot_of(self.begin, entry.start);
        let shared = Rc::new(alloc, entry)?;
        self.live.set(alloc, slot, Some(shared))?;
        Ok(())
    }

    /// Allocates a block of `size` bytes, with `redzone` bytes on either side and the trace of its allocation, and returns its start: the
    /// least place for it. Returns `None` if there is no place, as for more than 16,777,216 bytes. If memory runs out, the heap stays as it
    /// was.
    pub fn allocate(
        &mut self,
        alloc: Global,
        size: u32,
        trace: Trace,
        redzone: u32,
    ) -> Result<Option<u32>, AllocError>
        ensures place { IfOk result (λ start. start ≡ place (blocks_of self.old) size redzone) }
        ensures least { IfOk result (λ start. Places (blocks_of self.old) size redzone start) }
        ensures ok { IfOk result (λ start. blocks_of self.new ≡ allocated (blocks_of self.old) start size trace redzone) }
        ensures err { OnErr result (blocks_of self.new ≡ blocks_of self.old) }
    {
        match self.place(alloc, size, redzone)? {
            Some(start) => {
                let entry = Entry {
                    start,
                    size,
                    redzone,
                    number: 0,
                    trace: self.share_trace(alloc, &trace)?,
                    freed: None,
                };
                self.put(alloc, entry)?;
                Ok(Some(start))
            }
            None => Ok(None),
        }
    }
}
