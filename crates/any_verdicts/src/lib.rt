//! Whether a run is the same for every value of some bytes: the verdict, and its line.
//!
//! | Call | What it does |
//! |---|---|
//! | [`certify_any`] | returns the [`AnyVerdict`] on a program's run: the same for every value of [`AnyBytes`], or what depends on them first |
//! | [`Chosen::bytes`] | returns the bytes that a user chose |
//! | [`push_any_verdict`] | appends the line of a verdict |
//!
//! # What a caller can rely on
//!
//! - [`certify_any`]: if the verdict is [`AnyVerdict::Same`], each other run is the same (`IsSame`); else it is the first step that may
//!   depend on these bytes, and what it does (`IsAnyVerdict`).
//!
//! # Where the definitions are
//!
//! In `specs/`: `Chosen`, what [`AnyBytes`] stand for; `Verdicts`, what each verdict says; `Lines`, what a user sees.
#![tactic(auto)]

mod any_bytes;
mod certifying;
mod chosen;
mod fading;
mod lines;
mod uses;
mod verdict;

pub use any_bytes::{AnyBytes, Reveal};
pub use certifying::certify_any;
pub use chosen::Chosen;
pub use lines::push_any_verdict;
pub use verdict::{AnyVerdict, Closed};
