//! The parts of a row.
ghost use Rattle.std.specs.Prelude.{◌≡◌};

use crate::bounds::Opened;
use crate::gaps::ranges::{Full, UNKNOWN, put_in, raise_in, unknown_but};
use std::alloc::{AllocError, Global};
use std::marker::Model;
use std::rc::Rc;

/// The parts of a row, once one of them is known. Copies share them until one of the copies changes them.
#[derive(Drop)]
pub(crate) struct FullParts {
    list: Option<Rc<Vec<Full>>>,
}

impl Model for FullParts {
    ghost use Rattle.std.specs.Prelude.{List};
    ghost use Rattle.guest_heap.specs.SharedLists.{items_in};
    ghost use Rattle.guest_heap.specs.declared.gaps.ranges.Full.{Full};

    ghost Value = { List Full };

    ghost view = { λ parts. items_in parts.list };
}

impl Clone for FullParts {
    ghost use Rattle.std.specs.Prelude.{◌≡◌};

    ghost is_clone = { λ parts copy. copy ≡ parts };

    fn clone(&self) -> Result<FullParts, AllocError> {
        let list = self.list.clone()?;
        Ok(FullParts { list })
    }
}

impl FullParts {
    ghost use Rattle.std.specs.Prelude.{◌⊎◌, ℕ, Some, [], map, slice_get, OnOk};
    ghost use Rattle.guest_heap.specs.Gaps.{IsPut, SaysNothing, raised};

    pub(crate) fn new() -> FullParts
        ensures { result ≡ [] }
    {
        FullParts { list: None }
    }

    /// Returns the range of a part, or one that says nothing.
    pub(crate) fn get(&self, part: usize) -> Full
        ensures { SaysNothing result ⊎ ((i : ℕ) × (slice_get self.now i ≡ Some result)) }
    {
        let Some(list) = &self.list else {
            return UNKNOWN;
        };
        if part < list.len() {
            return list[part];
        }
        UNKNOWN
    }

    /// Sets the range of a part.
    pub(crate) fn put(&mut self, alloc: Global, part: usize, range: Full) -> Result<(), AllocError>
        ensures { IsPut range self.old self.new }
    {
        match &mut self.list {
            Some(shared) => put_in(shared, part, range),
            None => {
                self.list = Some(unknown_but(alloc, part, range)?);
                Ok(())
            }
        }
    }

    pub(crate) fn raise(&mut self, opened: &Opened) -> Result<(), AllocError>
        ensures { OnOk result (self.new ≡ map (raised opened.now) self.old) }
    {
        match &mut self.list {
            Some(shared) => raise_in(shared, opened),
            None => Ok(()),
        }
    }
}
