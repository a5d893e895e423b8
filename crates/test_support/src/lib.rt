//! For tests: readers and writers over memory that fail when they should, and small guest programs as ELF files.
//!
//! | Item | What it is |
//! |---|---|
//! | [`Script`] | a reader of some bytes, which fails from a call or from a byte on; [`Interruptions`] says which reads are interrupted |
//! | [`Room`] | a writer that takes a number of bytes, and fails by a [`Refusal`] for what it doesn't take |
//! | [`program`] | returns the file of a program of some words |
//! | [`sized_program`] | returns the same, with more memory than words |
//! | [`push_words`] | appends words to a file that is built by hand |
//!
//! Contracts see the bytes that a [`Script`] still has, and those that a [`Room`] has taken. They define a program's file byte for byte, by
//! the definitions of `specs/Files.antt` (System V ABI, edition 4.1, chapters 4 and 5).
#![tactic(auto)]

mod programs;
mod streams;

pub use programs::{program, push_words, sized_program};
pub use streams::{Interruptions, Refusal, Room, Script};
