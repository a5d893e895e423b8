//! The parts of a table: runs of places, which copies share.
ghost use Rattle.std.specs.Prelude.{◌≡◌, ◌<◌, ◌≤◌, IfOk, OnOk, OnErr, IsTrue, None};
ghost use Rattle.std.specs.Option.{option_copied};
ghost use Rattle.guest_heap.specs.Entries.{entries_at, entry_of, with_entry, IsNext, IsLast};

use crate::entry::Entry;
use std::alloc::{AllocError, Global};
use std::rc::Rc;

/// Consecutive places, each for a block. A part without blocks is left out of the part that would hold it.
pub(crate) trait Part: Drop {
    ghost use Rattle.std.specs.Prelude.{ℕ};
    ghost use Rattle.guest_heap.specs.Entries.{Entries};
    ghost use Rattle.guest_heap.specs.Sizes.{IsSize};

    /// The number of its places.
    ghost PLACES: { ℕ };

    const PLACES: usize;

    /// The entries at its places.
    ghost entries: { Self → Entries };

    /// Returns a part with no blocks.
    fn empty(alloc: Global) -> Result<Self, AllocError>
        ensures { IfOk result (λ part. entries part ≡ (λ _. None)) };

    fn get(&self, at: usize) -> Option<&Entry>
        requires { at < PLACES }
        ensures { option_copied result ≡ entries self.now at };

    fn put(&mut self, alloc: Global, at: usize, entry: Option<Rc<Entry>>) -> Result<(), AllocError>
        requires { at < PLACES }
        ensures ok { OnOk result (entries self.new ≡ with_entry (entries self.old) at (entry_of entry)) }
        ensures err { OnErr result (entries self.new ≡ entries self.old) };

    /// Sets the entry at a place, in a copy if others share the part. Returns whether the part has no blocks then.
    fn set(
        shared: &mut Rc<Self>,
        alloc: Global,
        at: usize,
        entry: Option<Rc<Entry>>,
    ) -> Result<bool, AllocError>
        requires { at < PLACES }
        ensures ok { OnOk result (entries shared.new.value ≡ with_entry (entries shared.old.value) at (entry_of entry)) }
        ensures empty { IfOk result (λ empty. IsTrue empty → entries shared.new.value ≡ (λ _. None)) }
        ensures err { OnErr result (entries shared.new.value ≡ entries shared.old.value) };

    /// Returns the first place from this one on that has a block.
    fn next_from(&self, at: usize) -> Option<usize>
        requires { at ≤ PLACES }
        ensures { IsNext (entries self.now) at PLACES result };

    /// Returns the last place below this one that has a block.
    fn last_below(&self, at: usize) -> Option<usize>
        requires { at ≤ PLACES }
        ensures { IsLast (entries self.now) at result };

    /// It has at least one place, and at most as many as the heap's region.
    ghost sized: { IsSize PLACES };
}

#[tactic(auto, unfolding(crate::specs::Entries::entries_at))]
pub(crate) fn get_in<P: Part>(slot: &Option<Rc<P>>, at: usize) -> Option<&Entry>
    requires { at < P.PLACES }
    ensures { option_copied result ≡ entries_at P.entries slot.now at }
{
    match slot {
        Some(part) => part.get(at),
        None => None,
    }
}

/// Returns a new part, with an entry at one place.
fn part_with<P: Part>(
    alloc: Global,
    at: usize,
    entry: Option<Rc<Entry>>,
) -> Result<Rc<P>, AllocError>
    requires { at < P.PLACES }
    ensures { IfOk result (λ part. P.entries part.value ≡ with_entry (λ _. None) at (entry_of entry)) }
{
    let mut part = P::empty(alloc)?;
    part.put(alloc, at, entry)?;
    Ok(Rc::new(alloc, part)?)
}

/// Sets the entry at a place of a part. A part is left out once it has no blocks.
#[tactic(auto, unfolding(crate::specs::Entries::entries_at))]
pub(crate) fn set_in<P: Part>(
    slot: &mut Option<Rc<P>>,
    alloc: Global,
    at: usize,
    entry: Option<Rc<Entry>>,
) -> Result<(), AllocError>
    requires { at < P.PLACES }
    ensures ok { OnOk result (entries_at P.entries slot.new ≡ with_entry (entries_at P.entries slot.old) at (entry_of entry)) }
    ensures err { OnErr result (entries_at P.entries slot.new ≡ entries_at P.entries slot.old) }
{
    match slot {
        Some(shared) => {
            if P::set(shared, alloc, at, entry)? {
                *slot = None;
            }
        }
        None => *slot = Some(part_with(alloc, at, entry)?),
    }
    Ok(())
}

/// Returns the first place from this one on that has a block.
#[tactic(auto, unfolding(crate::specs::Entries::entries_at))]
pub(crate) fn next_in<P: Part>(slot: &Option<Rc<P>>, at: usize) -> Option<usize>
    requires { at ≤ P.PLACES }
    ensures { IsNext (entries_at P.entries slot.now) at P.PLACES result }
{
    match slot {
        Some(part) => part.next_from(at),
        None => None,
    }
}

/// Returns the last place below this one that has a block.
#[tactic(auto, unfolding(crate::specs::Entries::entries_at))]
pub(crate) fn last_in<P: Part>(slot: &Option<Rc<P>>, at: usize) -> Option<usize>
    requires { at ≤ P.PLACES }
    ensures { IsLast (entries_at P.entries slot.now) at result }
{
    match slot {
        Some(part) => part.last_below(at),
        None => None,
    }
}
