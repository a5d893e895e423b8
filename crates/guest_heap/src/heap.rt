//! The heap: its contents, and the changes to it.
ghost use Rattle.std.specs.Prelude.{◌≡◌, ◌+◌, ◌%◌, ◌<◌, ◌≤◌, length};
ghost use Rattle.memory_map.specs.Regions.{greatest_heap_begin};
ghost use Rattle.guest_heap.specs.Tables.{entries_of};
ghost use Rattle.guest_heap.specs.Queues.{queued};
ghost use Rattle.guest_heap.specs.States.{AreSound, volume_in, shown};
ghost use Rattle.guest_heap.specs.Gaps.{AreKnown};
ghost use Rattle.guest_heap.specs.BoundLists.{bounds_in};

use crate::bounds::Bounds;
use crate::gaps::Gaps;
use crate::queue::Queue;
use crate::table::Table;
use crate::traces::{RecentTraces, SharedTrace};
use call_stacks::Trace;
use memory_map::Regions;
use std::alloc::{AllocError, Global};

pub(crate) mod comparing;
pub(crate) mod places;
pub(crate) mod placing;
pub(crate) mod reading;
pub(crate) mod releasing;
pub(crate) mod searches;

/// The live blocks of a guest's heap, and the queue of the freed ones.
#[derive(Drop)]
pub struct Heap {
    // The first address of the region.
    begin: u32,
    live: Table,
    freed: Table,
    queue: Queue,
    // The number of blocks that were placed, of those that have left the queue, and of those that were freed.
    placed: u64,
    first: u64,
    next: u64,
    // The sum of the sizes in the queue.
    held: u64,
    // The redzone of the bounds and of the index of gaps.
    redzone: u32,
    bounds: Bounds,
    gaps: Gaps,
    traces: RecentTraces,
    ghost grid: { begin % 16 ≡ 0 },
    ghost some: { 0 < begin },
    ghost within: { begin ≤ greatest_heap_begin },
    ghost sound: { AreSound begin (entries_of live) (entries_of freed) (queued queue) first },
    ghost numbered: { next ≡ first + length (queued queue) },
    ghost volume: { held ≡ volume_in (queued queue) },
    ghost known: { AreKnown (shown begin (entries_of live) (queued queue)) redzone (bounds_in bounds) gaps },
}

#[tactic(auto, unfolding(crate::specs::Heaps::blocks_of))]
impl Heap {
    ghost use Rattle.std.specs.Prelude.{IfOk, None, []};
    ghost use Rattle.guest_heap.specs.Heaps.{blocks_of};
    ghost use Rattle.guest_heap.specs.Blocks.{no_blocks};
    ghost use Rattle.memory_map.specs.Regions.{heap_begin};
    ghost use Rattle.guest_heap.specs.Steps.{AreInRegion, AreApart};

    /// Returns a heap with no blocks, whose region is that of [`Regions::USUAL`]. Allocates nothing.
    pub fn new(alloc: Global) -> Heap
        ensures { blocks_of result ≡ no_blocks heap_begin }
    {
        Heap::new_in(alloc, Regions::USUAL)
    }

    /// Returns a heap with no blocks, whose region is that of `regions`. Allocates nothing.
    pub fn new_in(alloc: Global, regions: Regions) -> Heap
        ensures { blocks_of result ≡ no_blocks regions.heap }
    {
        let live = Table::new();
        let freed = Table::new();
        let queue = Queue::new(alloc);
        let bounds = Bounds::new();
        let gaps = Gaps::new();
        let traces = RecentTraces::new();
        Heap {
            begin: regions.heap_begin(),
            live,
            freed,
            queue,
            placed: 0,
            first: 0,
            next: 0,
            held: 0,
            redzone: 0,
            bounds,
            gaps,
            traces,
        }
    }

    /// Returns a heap with the same contents. Changes of one of the two don't reach the other. Allocates memory for references, and none
    /// for blocks.
    pub fn share(&self) -> Result<Heap, AllocError>
        ensures { IfOk result (λ copy. blocks_of copy ≡ blocks_of self.now) }
    {
        let live = self.live.share()?;
        let freed = self.freed.share()?;
        let queue = self.queue.share()?;
        let bounds = self.bounds.share()?;
        let gaps = self.gaps.share()?;
        let traces = self.traces.clone()?;
        Ok(Heap {
            begin: self.begin,
            live,
            freed,
            queue,
            placed: self.placed,
            first: self.first,
            next: self.next,
            held: self.held,
            redzone: self.redzone,
            bounds,
            gaps,
            traces,
        })
    }

    /// Returns a trace for the entries of blocks. Blocks with the same trace share it.
    fn share_trace(&mut self, alloc: Global, trace: &Trace) -> Result<SharedTrace, AllocError>
        ensures same { blocks_of self.new ≡ blocks_of self.old }
        ensures trace { IfOk result (λ shared. shared ≡ trace.now) }
    {
        self.traces.share(alloc, trace)
    }

    /// Does nothing. Its contract says that the live blocks of a heap are in its region, which the laws of the heap calls require.
    pub fn in_region(&self)
        ensures { AreInRegion (blocks_of self.now) }
    {}

    /// Returns the first address of the region.
    pub fn begin(&self) -> u32
        ensures { result ≡ (blocks_of self.now).begin }
    {
        self.begin
    }

    /// Returns how many blocks are kept: live ones, and those of the queue. No contract says so: it is for limits of memory.
    pub fn kept_blocks(&self) -> u64 {
        self.placed.saturating_sub(self.first)
    }

    /// Does nothing. Its contract says that the kept blocks of a heap are apart.
    pub fn apart(&self)
        ensures { AreApart (blocks_of self.now) }
    {}
}
