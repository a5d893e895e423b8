//! Blocks by their places: the multiples of 16 of the heap's region, in order. Copies share what neither has changed.

use crate::entry::Entry;
use crate::table::leaf::Leaf;
use crate::table::part::{Part, set_in};
use crate::table::row::Row;
use std::alloc::{AllocError, Global};
use std::rc::Rc;

pub(crate) mod leaf;
pub(crate) mod part;
pub(crate) mod row;

#[derive(Drop)]
pub(crate) struct Table {
    root: Option<Rc<Row<Row<Row<Leaf>>>>>,
}

#[tactic(auto, unfolding(crate::specs::Tables::entries_of, crate::specs::Tables::entries_in_root, crate::specs::Entries::entries_at, crate::specs::Sizes::places_of, crate::specs::Sizes::parts_of))]
impl Table {
    ghost use Rattle.std.specs.Prelude.{◌≡◌, ◌<◌, ◌≤◌, OnOk, OnErr, IfOk, None};
    ghost use Rattle.std.specs.Option.{option_copied};
    ghost use Rattle.guest_heap.specs.Entries.{entry_of, with_entry, IsNext, IsLast};
    ghost use Rattle.guest_heap.specs.Tables.{entries_of};

    pub(crate) fn new() -> Table
        ensures { entries_of result ≡ (λ _. None) }
    {
        Table { root: None }
    }

    pub(crate) fn get(&self, at: usize) -> Option<&Entry>
        requires { at < 33554432 }
        ensures { option_copied result ≡ entries_of self.now at }
    {
        match &self.root {
            Some(root) => root.get(at),
            None => None,
        }
    }

    pub(crate) fn set(
        &mut self,
        alloc: Global,
        at: usize,
        entry: Option<Rc<Entry>>,
    ) -> Result<(), AllocError>
        requires { at < 33554432 }
        ensures ok { OnOk result (entries_of self.new ≡ with_entry (entries_of self.old) at (entry_of entry)) }
        ensures err { OnErr result (entries_of self.new ≡ entries_of self.old) }
    {
        set_in(&mut self.root, alloc, at, entry)
    }

    /// Returns the first slot from this one on that has a block.
    pub(crate) fn next_from(&self, at: usize) -> Option<usize>
        requires { at ≤ 33554432 }
        ensures { IsNext (entries_of self.now) at 33554432 result }
    {
        match &self.root {
            Some(root) => root.next_from(at),
            None => None,
        }
    }

    /// Returns the last slot below this one that has a block.
    pub(crate) fn last_below(&self, at: usize) -> Option<usize>
        requires { at ≤ 33554432 }
        ensures { IsLast (entries_of self.now) at result }
    {
        match &self.root {
            Some(root) => root.last_below(at),
            None => None,
        }
    }

    /// Returns a table with the same contents, for the cost of one reference.
    pub(crate) fn share(&self) -> Result<Table, AllocError>
        ensures { IfOk result (λ copy. entries_of copy ≡ entries_of self.now) }
    {
        let root = self.root.clone()?;
        Ok(Table { root })
    }
}
