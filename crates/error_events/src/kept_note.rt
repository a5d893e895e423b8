//! Notes as maps keep them. Most are small. One with a block, which is large, is held by a reference that copies share.
ghost use Rattle.std.specs.Prelude.{◌≡◌, IfOk};
ghost use Rattle.error_events.specs.KeptNotes.{note_in};

use crate::event::Note;
use call_stacks::Near;
use std::alloc::{AllocError, Global};
use std::marker::Model;
use std::rc::Rc;

/// The kept form of a note.
#[derive(Drop)]
enum Form {
    Absent,
    Near(u32, Rc<Near>),
    Stack(u32),
    Elsewhere(u32),
}

/// A kept note. Contracts see it as the note.
#[derive(Drop)]
pub(crate) struct KeptNote {
    form: Form,
}

// In bytes; a note has 248.
const _: () = prove!(size_of::<KeptNote>() == 16);

impl Model for KeptNote {
    ghost use Rattle.error_events.specs.declared.event.Note.{Note};

    ghost Value = { Note };

    ghost use Rattle.error_events.specs.KeptNotes.{note_in};

    ghost view = { λ kept. note_in kept.form };
}

/// Returns the form to keep of a note.
fn form_of(alloc: Global, note: &Note) -> Result<Form, AllocError>
    ensures { IfOk result (λ form. note_in form ≡ note.now) }
{
    match note {
        Note::Absent => Ok(Form::Absent),
        Note::Near(address, near) => Ok(Form::Near(*address, Rc::new(alloc, *near)?)),
        Note::Stack(address) => Ok(Form::Stack(*address)),
        Note::Elsewhere(address) => Ok(Form::Elsewhere(*address)),
    }
}

/// Returns the note of a kept form.
fn note_in(form: &Form) -> Note
    ensures { result ≡ note_in form.now }
{
    match form {
        Form::Absent => Note::Absent,
        Form::Near(address, near) => Note::Near(*address, **near),
        Form::Stack(address) => Note::Stack(*address),
        Form::Elsewhere(address) => Note::Elsewhere(*address),
    }
}

impl KeptNote {
    /// Returns a note to keep.
    pub(crate) fn of(alloc: Global, note: &Note) -> Result<KeptNote, AllocError>
        ensures { IfOk result (λ kept. kept ≡ note.now) }
    {
        Ok(KeptNote {
            form: form_of(alloc, note)?,
        })
    }

    /// Returns the note.
    pub(crate) fn note(&self) -> Note
        ensures { result ≡ self.now }
    {
        note_in(&self.form)
    }
}

impl Clone for Form {
    ghost use Rattle.std.specs.Prelude.{◌≡◌};
    ghost use Rattle.error_events.specs.KeptNotes.{note_in};

    ghost is_clone = { λ form copy. note_in copy ≡ note_in form };

    fn clone(&self) -> Result<Form, AllocError> {
        match self {
            Form::Absent => Ok(Form::Absent),
            Form::Near(address, near) => Ok(Form::Near(*address, near.clone()?)),
            Form::Stack(address) => Ok(Form::Stack(*address)),
            Form::Elsewhere(address) => Ok(Form::Elsewhere(*address)),
        }
    }
}

impl Clone for KeptNote {
    ghost use Rattle.std.specs.Prelude.{◌≡◌};

    ghost is_clone = { λ source clone. clone ≡ source };

    fn clone(&self) -> Result<KeptNote, AllocError> {
        Ok(KeptNote {
            form: self.form.clone()?,
        })
    }
}
