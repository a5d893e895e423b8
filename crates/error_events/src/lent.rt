//! Borrowed notes. One is kept only if its group is new.
ghost use Rattle.std.specs.Prelude.{◌≡◌, IfOk};
ghost use Rattle.error_events.specs.Lent.{lent_note};

use crate::event::Note;
use crate::kept_note::KeptNote;
use std::alloc::{AllocError, Global};

/// A borrowed note.
#[derive(Clone, Copy)]
pub(crate) enum NoteRef<'a> {
    /// The note of an error.
    Plain(&'a Note),
    /// A note that a map keeps.
    Kept(&'a KeptNote),
}

impl NoteRef<'_> {
    /// Returns a note to keep. A note that is kept already shares what it says of a block.
    pub(crate) fn kept(&self, alloc: Global) -> Result<KeptNote, AllocError>
        ensures { IfOk result (λ kept. kept ≡ lent_note self.now) }
    {
        match self {
            NoteRef::Plain(note) => KeptNote::of(alloc, note),
            NoteRef::Kept(note) => (*note).clone(),
        }
    }
}
