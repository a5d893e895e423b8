//! What the files that a command names give: the first bytes of each, judged, over any files and reader.
//!
//! | Call | What it returns |
//! |---|---|
//! | [`profile_named`] | what a program's file is read for, by the name of an instruction set and the texts of the regions of heap and stack |
//! | [`read_front`] | the bytes of a file up to a limit, and one more if it has more |
//! | [`read_suppressions`], [`read_named_text`] | the suppressions of a file, or its text, if one is named |
//! | [`read_input`], [`read_stream`], [`read_sweep_input`] | the input: of a file if one is named, of standard input, of either |
//! | [`read_opened`] | the first bytes of a file that was opened, or a [`ReadFault`] |
//! | [`Files`] | what gives files their bytes: the machine, or a test |
//!
//! # What a caller relies on
//!
//! Each call returns what the file gives (`HasRules`, `HasInput` ..), or the end of the program that it causes (`NoBytes`, `NoRules`,
//! `NoInput` ..): a file that can't be read, one that is too long, or one whose text is refused; memory may fail at each.
//!
//! A program's file is judged by its first 67,108,865 bytes, and so whole up to 67,108,864: the number of its refusal is the least that
//! holds of the file. The definitions stand in `specs/`: `Opened`, `Files` and `Profiles`.
#![tactic(auto)]

mod files;
mod profiles;
mod reading;

pub use files::{Files, ReadFault, read_opened};
pub use profiles::profile_named;
pub use reading::{
    MOST_READ, read_front, read_input, read_named_text, read_stream, read_suppressions,
    read_sweep_input,
};
