//! Changes of consecutive cells.
ghost use Rattle.std.specs.Prelude.{◌≡◌};
ghost use Rattle.shadow_memory.specs.Edits.{each_of};
ghost use Rattle.shadow_memory.specs.Marks.{blank};

use crate::cells::{Cell, RangeKind};
use crate::pages::Page;

/// A change of each byte of a range.
#[derive(Clone, Copy)]
pub(crate) enum Each {
    /// It gets this kind; its value stays.
    Make(RangeKind),
    /// It becomes 0, accessible and defined.
    Clear,
    /// It becomes 0, with the undefined bits with which a byte of this kind is loaded. If it is inaccessible, it stays so.
    Take(RangeKind),
}

#[tactic(auto, unfolding(crate::specs::Edits::each_of))]
impl Each {
    /// Returns the kind of zeros after the change, for zeros of a kind; they are still zeros.
    pub(crate) fn kind_after(self, old: RangeKind) -> RangeKind
        ensures { each_of self (blank old) ≡ blank result }
    {
        match self {
            Each::Make(kind) => kind,
            Each::Clear => RangeKind::Defined,
            Each::Take(kind) => match (old, kind) {
                (RangeKind::NoAccess, _) => RangeKind::NoAccess,
                (_, RangeKind::Undefined) => RangeKind::Undefined,
                _ => RangeKind::Defined,
            },
        }
    }
}

/// One change, from a place of a page on.
#[derive(Clone, Copy)]
pub(crate) enum PageEdit<'a> {
    /// One cell becomes this one.
    Set(Cell),
    /// This number of bytes change alike.
    All(usize, Each),
    /// This number of bytes become accessible and defined, with these values and zeros after them.
    Fill(usize, &'a [u8]),
    /// These bytes are stored, with all of their bits defined. An inaccessible byte stays inaccessible.
    Store(&'a [u8]),
    /// These bytes are stored, with all of their bits undefined. An inaccessible byte stays inaccessible.
    StoreUndefined(&'a [u8]),
    /// Bytes are copied from a place of a page on, this number of them, with their undefined bits. An inaccessible byte stays inaccessible.
    Copy(&'a Page, usize, usize),
}
