//! Which edits a sweep applies: the request in its arguments, and the places and values that the request means.
//!
//! | Item | What it is |
//! |---|---|
//! | [`Request::of`] | reads the arguments of a sweep, or says which of them can't be read: a [`Request`], with [`Range`]s and a [`Part`] |
//! | [`open_range`], [`closed_range`] | return the [`Range`] of a text, if it is one; and if it has an end |
//! | [`bytes_of`] | returns the bytes that a range names in an input, or rejects them |
//! | [`plan_of`] | returns the [`Plan`] of a request for a program and an input, or why its places are rejected |
//! | [`Plan::places`], [`Plan::place`] | return the number of [`SweepPlace`]s, and one of them |
//! | [`Plan::changes`] | returns the [`Change`]s at a place, given its value, or pc before its step and whether the instruction there has 16 bits: a [`Standing`] |
//! | [`byte_flips`] | returns the changes at a step that turn the bits of a byte |
//! | [`Places::count`] | returns the number of consecutive bytes, words or steps |
//! | [`Change::edit`] | returns the edit of a change; of two edits the first |
//! | [`has_word`] | returns whether one of some words is loaded whole |
//! | [`laws::parts_make_the_whole`] | does nothing; its contract says that the places of the parts 1 to N are all places, in order |
//!
//! In `specs/`: `Requests`, `Steps` and `Models`, the request in some arguments; `Planned`, the places of a request; `Plans`, the
//! instructions of 16 and of 32 bits by their lengths, the places by their numbers, and the changes at each; `Glitches`, those at a step;
//! `Changes`, the edits of a change; `Laws`, the places of the parts.
#![tactic(auto)]

mod change;
mod code;
mod glitches;
pub mod laws;
mod loaded;
mod models;
mod plan;
mod planning;
mod request;
mod standing;
mod steps;
mod values;

pub use change::{Change, Glitch};
pub use glitches::byte_flips;
pub use loaded::has_word;
pub use plan::{ByteValues, FaultModels, Places, Plan, SweepPlace, WordValues};
pub use planning::{bytes_of, plan_of};
pub use request::{Part, Range, Request, closed_range, open_range};
pub use standing::Standing;
pub use steps::StepRequest;
