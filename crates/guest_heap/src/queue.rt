//! The freed blocks, oldest first. Copies share all but the newest few.
ghost use Rattle.std.specs.Prelude.{◌≡◌, ◌<◌, ◌≤◌, IsTrue, map};
ghost use Rattle.guest_heap.specs.Entries.{block_of};
ghost use Rattle.guest_heap.specs.Runs.{IsWithin, values};

use crate::entry::Entry;
use crate::queue::runs::entry_at;
use std::alloc::{AllocError, Global};
use std::collections::VecDeque;
use std::rc::Rc;

pub(crate) mod runs;

/// The number of freed blocks in a run. A share copies a reference for each run, and for each block of the last one.
const RUN: usize = 256;

/// Returns whether entries have the same blocks as others, in order.
fn are_same(entries: &[Rc<Entry>], others: &[Rc<Entry>]) -> bool
    ensures { IsTrue result → map block_of (values entries.now) ≡ map block_of (values others.now) }
{
    let Some((entry, later)) = entries.split_first() else {
        return others.is_empty();
    };
    let Some((other, rest)) = others.split_first() else {
        return false;
    };
    entry.has_block_of(other) && are_same(later, rest)
}

#[derive(Drop)]
pub(crate) struct Queue {
    runs: VecDeque<Rc<Vec<Rc<Entry>>>>,
    tail: Vec<Rc<Entry>>,
    // The number of entries at the front that have left.
    skipped: usize,
    ghost within: { IsWithin runs.items tail.items skipped },
}

#[tactic(auto, unfolding(crate::specs::Queues::queued, crate::specs::Queues::HasRoom, crate::specs::Queues::queued_behind))]
impl Queue {
    ghost use Rattle.std.specs.Prelude.{◌≡◌, ◌<◌, ◌++◌, ◌∷◌, [], drop, length, OnOk, OnErr, IfOk};
    ghost use Rattle.std.specs.Option.{option_copied};
    ghost use Rattle.guest_heap.specs.Queues.{queued, queued_behind, tail_len, HasRoom};
    ghost use Rattle.guest_heap.specs.Runs.{first_of, front_len};

    pub(crate) fn new(alloc: Global) -> Queue
        ensures { queued result ≡ [] }
    {
        Queue {
            runs: VecDeque::new(alloc),
            tail: Vec::new(alloc),
            skipped: 0,
        }
    }

    /// Allocates the room for another entry.
    pub(crate) fn prepare(&mut self, alloc: Global) -> Result<(), AllocError>
        ensures same { queued self.new ≡ queued self.old }
        ensures room { OnOk result (HasRoom self.new) }
    {
        if self.tail.len() >= RUN {
            self.close_run(alloc)?;
        }
        self.tail.reserve(1)
    }

    /// Makes the newest entries a run, which copies share.
    fn close_run(&mut self, alloc: Global) -> Result<(), AllocError>
        requires { 0 < tail_len self.old }
        ensures { queued self.new ≡ queued self.old }
    {
        let tail = self.tail.clone()?;
        let run = Rc::new(alloc, tail)?;
        self.runs.push_back(run)?;
        self.tail.clear();
        Ok(())
    }

    /// Appends an entry, the newest.
    pub(crate) fn push(&mut self, entry: Rc<Entry>)
        requires { HasRoom self.old }
        ensures { queued self.new ≡ queued self.old ++ entry.value ∷ [] }
    {
        let _ = self.tail.push(entry);
    }

    /// Returns the oldest entry.
    pub(crate) fn front(&self) -> Option<&Entry>
        ensures { option_copied result ≡ first_of (queued self.now) }
    {
        match self.runs.front() {
            Some(run) => entry_at(run, self.skipped),
            None => entry_at(&self.tail, self.skipped),
        }
    }

    /// Removes the oldest entry.
    pub(crate) fn pop_front(&mut self)
        requires { 0 < length (queued self.old) }
        ensures { queued self.new ≡ drop 1 (queued self.old) }
    {
        if self.skipped + 1 < self.front_len() {
            self.skipped += 1;
        } else {
            self.drop_run();
        }
    }

    /// Returns the number of entries in the first run, or in the tail if there is no run.
    fn front_len(&self) -> usize
        ensures { result ≡ front_len self.now.runs.items self.now.tail.items }
    {
        match self.runs.front() {
            Some(run) => run.len(),
            None => self.tail.len(),
        }
    }

    /// Drops the first run, or the tail if there is no run.
    fn drop_run(&mut self)
        ensures { queued self.new ≡ queued_behind self.old }
    {
        self.skipped = 0;
        if self.runs.pop_front().is_none() {
            self.tail.clear();
        }
    }

    /// Returns whether the blocks are those of another queue, in order. May also return `false` for such a queue, as it does if one of them
    /// has many blocks.
    pub(crate) fn is_same(&self, other: &Queue) -> bool
        ensures { IsTrue result → map block_of (queued self.now) ≡ map block_of (queued other.now) }
    {
        if self.runs.len() > 0 {
            return false;
        }
        if other.runs.len() > 0 {
            return false;
        }
        if self.skipped != other.skipped {
            return false;
        }
        are_same(&self.tail, &other.tail)
    }

    pub(crate) fn share(&self) -> Result<Queue, AllocError>
        ensures { IfOk result (λ copy. queued copy ≡ queued self.now) }
    {
        let runs = self.runs.clone()?;
        let tail = self.tail.clone()?;
        Ok(Queue {
            runs,
            tail,
            skipped: self.skipped,
        })
    }
}
