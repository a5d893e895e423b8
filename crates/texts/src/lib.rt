//! Texts as lists of bytes: their parts between separator bytes, and how often each of some texts occurs.
//!
//! | Call | What it does |
//! |---|---|
//! | [`Parts::new`] | returns all parts of a text, as lines or as words between spaces: one more than the number of separators |
//! | [`Parts::next`] | returns the next part |
//! | [`Parts::fork`] | returns the same parts again |
//! | [`separator_at`] | returns the place of the first separator |
//! | [`Tallies::begin`] | starts with a first text, of number 0, with count 0 |
//! | [`Tallies::new`] | starts without a text |
//! | [`Tallies::find`] | looks up a text: its number, and whether it was counted before |
//! | [`Tallies::record`] | counts a text; returns its number, and whether it was counted before |
//! | [`Tallies::counts`] | returns how often each text was counted, in their order |
//! | [`laws::texts_are_counted`] | does nothing; its contract says that the entries are the distinct texts with how often each was counted |
//!
//! Parts are returned one at a time. None of their calls allocates memory, and none fails. Contracts see [`Parts`] as the list of the
//! remaining parts, which `specs/Parts.antt` defines.
//!
//! [`Tallies`] keep each text once, in order of first occurrence. A text that was counted before costs one look-up, and no memory. A new
//! one is copied. If memory runs out, the texts and their counts stay as they were. Counts stop at 2^64 - 1. Contracts speak of
//! `entries_of`, the list of the texts with their counts. In `specs/`: `Tallied` has the definitions, `Distinct` the distinct items of a
//! list, and `Laws` what the entries are.
#![tactic(auto)]

pub mod laws;
mod parts;
mod tallies;

pub use parts::{Parts, separator_at};
pub use tallies::{Found, Tallies};
