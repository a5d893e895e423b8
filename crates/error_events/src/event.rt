ghost use Rattle.std.specs.Prelude.{◌↔◌, ◌≡◌, IsTrue};

use crate::kind::Kind;
use call_stacks::{Near, Trace};

/// What an error says of an address (Memcheck manual, section 4.2.1).
#[derive(Clone, Copy)]
pub enum Note {
    /// Nothing: the error isn't about an address.
    Absent,
    /// The address is in a block of the heap, or near one.
    Near(u32, Near),
    /// The address is in the stack region.
    Stack(u32),
    /// The address is in no known region.
    Elsewhere(u32),
}

impl Note {
    /// Returns whether another note is the same.
    pub fn is_same(&self, other: &Note) -> bool
        ensures { IsTrue result ↔ self.now ≡ other.now }
    {
        match (self, other) {
            (Note::Absent, Note::Absent) => true,
            (Note::Near(address, near), Note::Near(another, nearby)) => {
                *address == *another && near.is_same(nearby)
            }
            (Note::Stack(address), Note::Stack(another)) => *address == *another,
            (Note::Elsewhere(address), Note::Elsewhere(another)) => *address == *another,
            _ => false,
        }
    }
}

/// An error.
#[derive(Clone, Copy)]
pub struct Event {
    /// The kind.
    pub kind: Kind,
    /// The trace where it happened.
    pub trace: Trace,
    /// The note on an address.
    pub note: Note,
}

/// The errors of one kind and one trace.
#[derive(Clone, Copy)]
pub struct Group {
    /// Their kind.
    pub kind: Kind,
    /// The trace where they happened.
    pub trace: Trace,
    /// Their number, at most the greatest `u64`.
    pub count: u64,
    /// The note of the first one.
    pub note: Note,
}

impl Group {
    /// Returns whether another group is the same.
    pub fn is_same(&self, other: &Group) -> bool
        ensures { IsTrue result ↔ self.now ≡ other.now }
    {
        self.count == other.count
            && self.kind == other.kind
            && self.trace.is_same(&other.trace)
            && self.note.is_same(&other.note)
    }
}

/// What the errors of a group have in common.
#[derive(Clone, Copy, PartialEq, Eq, Hash)]
pub(crate) struct Key {
    pub(crate) kind: Kind,
    pub(crate) trace: Trace,
}
