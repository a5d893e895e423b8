//! Freed blocks, and blocks that leave the queue.
ghost use Rattle.std.specs.Prelude.{◌≡◌, ◌<◌, ◌≤◌, ◌∷◌, ◌++◌, ◌⊎◌, [], None, Some, IfOk, OnErr, OnOk};
ghost use Rattle.guest_heap.specs.Blocks.{freed_by};
ghost use Rattle.guest_heap.specs.Entries.{block_of, entry_for, with_entry};
ghost use Rattle.guest_heap.specs.Tables.{entries_of};

use crate::bounds::Opened;
use crate::entry::Entry;
use crate::heap::Heap;
use crate::region::{SLOTS, aligned, slot_of};
use crate::released::Released;
use crate::table::Table;
use crate::traces::SharedTrace;
use call_stacks::{Block, Trace};
use std::alloc::{AllocError, Global};
use std::rc::Rc;

fn freed_by(block: &Block, trace: Trace) -> Block
    ensures { result ≡ freed_by trace block.now }
{
    Block {
        start: block.start,
        size: block.size,
        redzone: block.redzone,
        trace: block.trace,
        freed: Some(trace),
    }
}

/// Returns what is kept of a block that is freed: the traces of its allocation and its release, which blocks share, and the number of
/// blocks freed before it.
fn freed_entry(
    alloc: Global,
    block: &Block,
    made: SharedTrace,
    trace: SharedTrace,
    number: u64,
) -> Result<Rc<Entry>, AllocError>
    requires { made ≡ block.now.trace }
    ensures { IfOk result (λ freed. freed.value ≡ entry_for (freed_by trace block.now) number) }
{
    let entry = Entry {
        start: block.start,
        size: block.size,
        redzone: block.redzone,
        number,
        trace: made,
        freed: Some(trace),
    };
    Ok(Rc::new(alloc, entry)?)
}

/// Moves a block from the live ones to the freed ones. If memory runs out, it stays live.
fn move_to_freed(
    alloc: Global,
    live: &mut Table,
    freed: &mut Table,
    slot: usize,
    entry: &Rc<Entry>,
) -> Result<(), AllocError>
    requires { slot < 33554432 }
    ensures live { OnOk result (entries_of live.new ≡ with_entry (entries_of live.old) slot None) }
    ensures freed { OnOk result (entries_of freed.new ≡ with_entry (entries_of freed.old) slot (Some entry.now.value)) }
    ensures live_err { OnErr result (entries_of live.new ≡ entries_of live.old) }
    ensures freed_err { OnErr result ((entries_of freed.new ≡ entries_of freed.old) ⊎ (entries_of freed.new ≡ with_entry (entries_of freed.old) slot (Some entry.now.value))) }
{
    freed.set(alloc, slot, Some(entry.clone()?))?;
    live.set(alloc, slot, None)
}

#[tactic(auto, using(crate::proofs::FreeSteps::spare_sound, crate::proofs::KnownSteps::same_known), unfolding(crate::specs::Heaps::blocks_of))]
impl Heap {
    ghost use Rattle.std.specs.Prelude.{IfOk, OnOk, OnErr, drop};
    ghost use Rattle.std.specs.Option.{option_copied, option_map};
    ghost use Rattle.guest_heap.specs.Blocks.{released_at, Releases, Frees, IsLongestFitting, queue_with};
    ghost use Rattle.guest_heap.specs.Steps.{released_blocks};
    ghost use Rattle.guest_heap.specs.Heaps.{blocks_of};

    /// Returns the live block that begins at an address.
    fn live_at(&self, address: u32) -> Option<&Entry>
        ensures { option_map block_of (option_copied result) ≡ (blocks_of self.now).live address }
    {
        if address < self.begin {
            return None;
        }
        if slot_of(self.begin, address) >= SLOTS {
            return None;
        }
        match self.live.get(slot_of(self.begin, address)) {
            Some(entry) => {
                if entry.start == address {
                    return Some(entry);
                }
                None
            }
            None => None,
        }
    }

    /// Appends a live block to the queue.
    fn enqueue(
        &mut self,
        alloc: Global,
        block: &Block,
        made: SharedTrace,
        trace: SharedTrace,
    ) -> Result<(), AllocError>
        requires live { (blocks_of self.old).live block.now.start ≡ Some block.now }
        requires made { made ≡ block.now.trace }
        ensures ok { OnOk result (blocks_of self.new ≡ queue_with (blocks_of self.old) (freed_by trace block.now)) }
        ensures err { OnErr result (blocks_of self.new ≡ blocks_of self.old) }
    {
        // No run has 2^64 releases or freed bytes; one that had would fail as if memory ran out.
        let Some(next) = self.next.checked_add(1) else {
            return Err(AllocError);
        };
        let Some(held) = self.held.checked_add(u64::from(block.size)) else {
            return Err(AllocError);
        };
        let freed = freed_entry(alloc, block, made, trace, self.next)?;
        let slot = slot_of(self.begin, block.start);
        self.queue.prepare(alloc)?;
        move_to_freed(alloc, &mut self.live, &mut self.freed, slot, &freed)?;
        self.queue.push(freed);
        self.next = next;
        self.held = held;
        Ok(())
    }

    /// Removes the oldest block from the queue.
    fn forget_oldest(&mut self, alloc: Global)
        ensures begin { (blocks_of self.new).begin ≡ (blocks_of self.old).begin }
        ensures live { (blocks_of self.new).live ≡ (blocks_of self.old).live }
        ensures queue { (blocks_of self.new).queue ≡ drop 1 (blocks_of self.old).queue }
    {
        let (start, size) = match self.queue.front() {
            Some(entry) => (entry.start, entry.size),
            None => return,
        };
        let redzone = u64::from(self.redzone);
        let first = aligned(self.end_below(start) + redzone);
        let end = self.begin_above(start);
        let room = end.saturating_sub(first + redzone);
        self.queue.pop_front();
        self.first += 1;
        self.held -= u64::from(size);
        let opened = Opened { first, end, room };
        self.bounds.lower(&opened);
        self.gaps.raise(&opened);
        // If this fails, the entry stays but doesn't count: its number is too small.
        let _ = self.freed.set(alloc, slot_of(self.begin, start), None);
    }

    /// Removes the oldest blocks from the queue, until the sizes in it sum to at most a volume.
    fn forget(&mut self, alloc: Global, volume: u32)
        ensures begin { (blocks_of self.new).begin ≡ (blocks_of self.old).begin }
        ensures live { (blocks_of self.new).live ≡ (blocks_of self.old).live }
        ensures queue { IsLongestFitting volume (blocks_of self.old).queue (blocks_of self.new).queue }
    {
        while self.held > u64::from(volume) {
            self.forget_oldest(alloc);
        }
    }

    /// Frees the live block that begins at `ptr`, with the trace of the release. The block goes to the end of the queue. The oldest blocks
    /// leave the queue while the sizes in it sum to more than `volume`. If memory runs out, the heap stays as it was.
    pub fn release(
        &mut self,
        alloc: Global,
        ptr: u32,
        trace: Trace,
        volume: u32,
    ) -> Result<Released, AllocError>
        ensures answer { IfOk result (λ released. released ≡ released_at (blocks_of self.old) ptr trace) }
        ensures ok { IfOk result (λ _. blocks_of self.new ≡ released_blocks (blocks_of self.old) ptr trace volume) }
        ensures longest { IfOk result (λ released. Releases released volume (blocks_of self.old) (blocks_of self.new)) }
        ensures err { OnErr result (blocks_of self.new ≡ blocks_of self.old) }
    {
        if ptr == 0 {
            return Ok(Released::Nothing);
        }
        let (block, made) = match self.live_at(ptr) {
            Some(entry) => (entry.block(), entry.trace.clone()?),
            None => return Ok(Released::Invalid),
        };
        let shared = self.share_trace(alloc, &trace)?;
        self.enqueue(alloc, &block, made, shared)?;
        self.forget(alloc, volume);
        Ok(Released::Done(freed_by(&block, trace)))
    }
}
