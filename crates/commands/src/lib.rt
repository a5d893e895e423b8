//! Reads the lines of a session: each as a [`Command`], or as the [`Fault`] for which it is rejected.
//!
//! | Item | What it is |
//! |---|---|
//! | [`parse`] | reads a line |
//! | [`number`], [`digit_value`] | reads a field that is a number; returns the value of a digit |
//! | [`Command`], [`Edit`], [`Bytes`] | what a line asks for; an edit of a scenario; bytes that it gives the input |
//! | [`Refusal`], [`Fault`] | why an edit is rejected; why a line is rejected, with its number |
//! | [`BeginFault`] | why no session begins |
//! | [`laws::lines_make_ranges`] | does nothing; its contract says that no line makes another alteration than of a range |
//!
//! This crate is separate from `scenario`, which applies the edits, and from `replay_session`, which carries out the commands and lists the
//! lines. In `specs/`: `Commands`, the language, with a definition for each command over the fields of a line; `Faults`, the numbers of the
//! faults; `Laws`.
#![tactic(auto)]

mod bytes;
mod command;
mod edit;
mod fault;
pub mod laws;
mod numbers;
mod parsing;
mod refusal;

pub use bytes::Bytes;
pub use command::Command;
pub use edit::Edit;
pub use fault::{BeginFault, Fault};
pub use numbers::{digit_value, number};
pub use parsing::parse;
pub use refusal::Refusal;
