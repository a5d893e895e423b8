//! Counts in order. All but the last few are in chunks, which copies share until they change.
ghost use Rattle.std.specs.Prelude.{◌≡◌, ◌<◌, ◌≤◌, length, slice_get, OnOk, OnErr};
ghost use Rattle.error_events.specs.Counts.{raised_at, AreFull};

use std::alloc::{AllocError, Global};
use std::rc::Rc;

/// The number of counts in a chunk.
const CHUNK: usize = 256;

/// The greatest number of chunks. No memory holds as many.
const MOST_CHUNKS: usize = 1099511627776;

/// The counts. Contracts see their list, `counts_of`.
#[derive(Drop)]
pub(crate) struct Counts {
    chunks: Vec<Rc<Vec<u64>>>,
    // The counts after the chunks, at most as many as one chunk has.
    recent: Vec<u64>,
    ghost full: { AreFull chunks.items },
    ghost few: { length chunks.items ≤ 1099511627776 },
}

/// Returns the count at a place.
fn count_at(counts: &[u64], index: usize) -> Option<u64>
    ensures { result ≡ slice_get counts.now index }
{
    counts.get(index).copied()
}

/// Adds a number to the count at a place.
fn raise_at(counts: &mut Vec<u64>, index: usize, by: u64)
    requires { index < length counts.old.items }
    ensures { counts.new.items ≡ raised_at counts.old.items index by }
{
    counts[index] = counts[index].saturating_add(by);
}

/// Adds a number to the count at a place of a chunk, which is copied first if others share it.
fn raise_in(chunk: &mut Rc<Vec<u64>>, index: usize, by: u64) -> Result<(), AllocError>
    requires { index < length chunk.old.value.items }
    ensures long { length chunk.new.value.items ≡ length chunk.old.value.items }
    ensures ok { OnOk result (chunk.new.value.items ≡ raised_at chunk.old.value.items index by) }
    ensures err { OnErr result (chunk.new.value.items ≡ chunk.old.value.items) }
{
    let own = Rc::make_mut(chunk)?;
    raise_at(own, index, by);
    Ok(())
}

#[tactic(auto, unfolding(crate::specs::CountLists::counts_of, crate::specs::CountLists::HasRoom))]
impl Counts {
    ghost use Rattle.std.specs.Prelude.{◌≡◌, ◌<◌, ◌++◌, ◌∷◌, [], length, slice_get, OnOk, OnErr, IfOk};
    ghost use Rattle.error_events.specs.Counts.{raised_at};
    ghost use Rattle.error_events.specs.CountLists.{counts_of, HasRoom};

    /// Returns no counts. Allocates nothing.
    pub(crate) fn new(alloc: Global) -> Self
        ensures { counts_of result ≡ [] }
    {
        Counts {
            chunks: Vec::new(alloc),
            recent: Vec::new(alloc),
        }
    }

    /// Returns the allocator.
    pub(crate) fn allocator(&self) -> Global {
        *self.recent.allocator()
    }

    /// Returns the number of counts.
    pub(crate) fn len(&self) -> usize
        ensures { result ≡ length (counts_of self.now) }
    {
        CHUNK * self.chunks.len() + self.recent.len()
    }

    /// Returns the count at a place.
    pub(crate) fn get(&self, index: usize) -> Option<u64>
        ensures { result ≡ slice_get (counts_of self.now) index }
    {
        let chunk = index / CHUNK;
        if chunk < self.chunks.len() {
            return count_at(&self.chunks[chunk], index % CHUNK);
        }
        count_at(&self.recent, index - CHUNK * self.chunks.len())
    }

    /// Adds a number to the count at a place. A failure changes nothing.
    pub(crate) fn raise(&mut self, index: usize, by: u64) -> Result<(), AllocError>
        requires { index < length (counts_of self.old) }
        ensures ok { OnOk result (counts_of self.new ≡ raised_at (counts_of self.old) index by) }
        ensures err { OnErr result (counts_of self.new ≡ counts_of self.old) }
    {
        let chunk = index / CHUNK;
        if chunk < self.chunks.len() {
            return raise_in(&mut self.chunks[chunk], index % CHUNK, by);
        }
        let place = index - CHUNK * self.chunks.len();
        raise_at(&mut self.recent, place, by);
        Ok(())
    }

    /// Allocates the room for another count.
    pub(crate) fn make_room(&mut self) -> Result<(), AllocError>
        ensures same { counts_of self.new ≡ counts_of self.old }
        ensures room { OnOk result (HasRoom self.new) }
    {
        if self.recent.len() == CHUNK {
            self.close_chunk()?;
        }
        self.recent.reserve(1)
    }

    /// Makes the counts after the chunks a chunk.
    fn close_chunk(&mut self) -> Result<(), AllocError>
        requires { length self.old.recent.items ≡ 256 }
        ensures { counts_of self.new ≡ counts_of self.old }
    {
        if self.chunks.len() >= MOST_CHUNKS {
            return Err(AllocError);
        }
        let chunk = Rc::new(self.allocator(), self.recent.clone()?)?;
        self.chunks.push(chunk)?;
        self.recent.clear();
        Ok(())
    }

    /// Appends a count, for which there is room.
    pub(crate) fn push(&mut self, count: u64)
        requires { HasRoom self.old }
        ensures { counts_of self.new ≡ counts_of self.old ++ count ∷ [] }
    {
        self.recent.push(count).unwrap();
    }

    /// Returns a copy, which shares the chunks.
    pub(crate) fn share(&self) -> Result<Counts, AllocError>
        ensures { IfOk result (λ copy. counts_of copy ≡ counts_of self.now) }
    {
        let chunks = self.chunks.clone()?;
        let recent = self.recent.clone()?;
        Ok(Counts { chunks, recent })
    }
}
