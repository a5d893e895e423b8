//! Consecutive parts, each of which may be absent, or shared with copies.
ghost use Rattle.std.specs.Prelude.{◌≡◌, ◌<◌, ◌≤◌, vec_len, OnOk, OnErr, IsTrue, None};
ghost use Rattle.guest_heap.specs.Entries.{entry_of};
ghost use Rattle.guest_heap.specs.Rows.{grid_of, with_cell, begin_in, end_in};
ghost use Rattle.guest_heap.specs.Sizes.{parts_of, IsSize};

use crate::entry::Entry;
use crate::region::SLOTS;
use crate::table::part::{Part, get_in, last_in, next_in, set_in};
use std::alloc::{AllocError, Global};
use std::rc::Rc;

/// The number of places in a row of 64 rows of 64 leaves.
const THIRD_LEVEL: usize = 262144;

/// Returns the number of parts of a row, each with `each` places: 64, or, if each part is a row of 64 rows of 64 leaves, as many as the
/// heap's region has.
#[tactic(auto, unfolding(crate::specs::Sizes::parts_of))]
const fn parts_of(each: usize) -> usize
    requires { IsSize each }
    ensures { result ≡ parts_of each }
{
    if each < THIRD_LEVEL { 64 } else { SLOTS / each }
}

/// Returns the place of a part at which an upward search from a place of the row begins.
fn begin_in(part: usize, at: usize, i: usize) -> usize
    ensures { result ≡ begin_in part at i }
{
    if i == part { at } else { 0 }
}

/// Returns the place of a part at which a downward search from below a place of the row begins.
fn end_in(places: usize, part: usize, at: usize, i: usize) -> usize
    ensures { result ≡ end_in places part at i }
{
    if i == part { at } else { places }
}

/// Consecutive parts, whose places are numbered through.
#[derive(Drop)]
pub(crate) struct Row<P> {
    // From the end of this list on there are no parts.
    parts: Vec<Option<Rc<P>>>,
}

#[tactic(auto, unfolding(crate::specs::Rows::grid_of))]
impl<P: Part> Row<P> {
    /// Makes room for the part of a number.
    fn grow(&mut self, part: usize) -> Result<(), AllocError>
        requires { part ≤ 33554432 }
        ensures same { grid_of P.entries self.new ≡ grid_of P.entries self.old }
        ensures room { OnOk result (part < vec_len self.new.parts) }
    {
        for _i in self.parts.len()..part + 1 {
            self.parts.push(None)?;
        }
        Ok(())
    }

    fn write(
        &mut self,
        alloc: Global,
        part: usize,
        at: usize,
        entry: Option<Rc<Entry>>,
    ) -> Result<(), AllocError>
        requires room { part < vec_len self.old.parts }
        requires within { at < P.PLACES }
        ensures ok { OnOk result (grid_of P.entries self.new ≡ with_cell (grid_of P.entries self.old) part at (entry_of entry)) }
        ensures err { OnErr result (grid_of P.entries self.new ≡ grid_of P.entries self.old) }
    {
        set_in(&mut self.parts[part], alloc, at, entry)
    }

    /// Removes absent parts from the end of the row.
    fn shrink(&mut self)
        ensures { grid_of P.entries self.new ≡ grid_of P.entries self.old }
    {
        while let Some(None) = self.parts.last() {
            self.parts.pop();
        }
    }
}

#[tactic(auto, unfolding(crate::specs::Rows::grid_of, crate::specs::Rows::entries_along))]
impl<P: Part> Row<P> {
    ghost use Rattle.guest_heap.specs.Rows.{entries_along};

    fn is_empty(&self) -> bool
        ensures { IsTrue result → entries_along P.PLACES P.entries self.now ≡ (λ _. None) }
    {
        self.parts.is_empty()
    }
}

#[tactic(auto, unfolding(crate::specs::Rows::grid_of, crate::specs::Rows::entries_along))]
impl<P: Part> Part for Row<P> {
    ghost use Rattle.guest_heap.specs.Rows.{entries_along};
    ghost use Rattle.guest_heap.specs.Sizes.{places_of, row_sized};

    ghost PLACES = { places_of P.PLACES };

    const PLACES: usize = parts_of(P::PLACES) * P::PLACES;

    ghost entries = { entries_along P.PLACES P.entries };

    fn empty(alloc: Global) -> Result<Row<P>, AllocError> {
        Ok(Row {
            parts: Vec::new(alloc),
        })
    }

    fn get(&self, at: usize) -> Option<&Entry> {
        let each = P::PLACES;
        let part = at / each;
        if part < self.parts.len() {
            return get_in(&self.parts[part], at % each);
        }
        None
    }

    fn put(
        &mut self,
        alloc: Global,
        at: usize,
        entry: Option<Rc<Entry>>,
    ) -> Result<(), AllocError> {
        let each = P::PLACES;
        let part = at / each;
        self.grow(part)?;
        self.write(alloc, part, at % each, entry)?;
        self.shrink();
        Ok(())
    }

    fn set(
        shared: &mut Rc<Row<P>>,
        alloc: Global,
        at: usize,
        entry: Option<Rc<Entry>>,
    ) -> Result<bool, AllocError> {
        let row = Rc::make_mut(shared)?;
        row.put(alloc, at, entry)?;
        Ok(row.is_empty())
    }

    fn next_from(&self, at: usize) -> Option<usize> {
        let each = P::PLACES;
        let (part, place) = (at / each, at % each);
        for i in part..self.parts.len().min(parts_of(each)) {
            if let Some(found) = next_in(&self.parts[i], begin_in(part, place, i)) {
                return Some(i * each + found);
            }
        }
        None
    }

    fn last_below(&self, at: usize) -> Option<usize> {
        let each = P::PLACES;
        let (part, place) = (at / each, at % each);
        for i in (0..(part + 1).min(self.parts.len())).rev() {
            if let Some(found) = last_in(&self.parts[i], end_in(each, part, place, i)) {
                return Some(i * each + found);
            }
        }
        None
    }

    ghost sized = { row_sized P.PLACES P.sized };
}

#[tactic(auto, unfolding(crate::specs::Rows::entries_along))]
impl<P: Part> Clone for Row<P> {
    ghost use Rattle.std.specs.Prelude.{◌≡◌};
    ghost use Rattle.guest_heap.specs.Rows.{entries_along};

    ghost is_clone = { λ row copy. entries_along P.PLACES P.entries copy ≡ entries_along P.PLACES P.entries row };

    fn clone(&self) -> Result<Row<P>, AllocError> {
        let parts = self.parts.clone()?;
        Ok(Row { parts })
    }
}
