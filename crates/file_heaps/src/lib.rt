//! Whether errors of a program's heap can be found, as far as the names of its functions tell.
//!
//! The machine takes over functions named `malloc`, `free`, `calloc` and `realloc`, and environment calls by number. What happens in the
//! blocks of another allocator isn't checked.
//!
//! | Call | What it does |
//! |---|---|
//! | [`FileHeap::read`] | reads how the heap of a file is known by its symbols, and which functions may give blocks of another heap |
//! | [`Known::sight`] | says whether errors of the heap can be found, with whether the run has called the heap |
//!
//! # What a caller relies on
//!
//! [`FileHeap::read`] is what `known_of` and `unknown_names` say of the symbols that the file defines, for every file. The names are in
//! `specs/Names`, and what they mean in `specs/FileHeaps`.
#![tactic(auto)]

mod heap;
mod names;
mod searching;
mod wording;

pub use heap::{FileHeap, Known, Sight};
