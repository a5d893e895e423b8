//! What the program does with an order: it reads files, and prints a report or a verdict or serves a session, over any files, reader and
//! writer.
//!
//! | Call | What it does |
//! |---|---|
//! | [`run_order`] | carries out an order of the command line, and returns how the program ends: an [`End`] |
//! | [`run_once`] | writes the report of a program at a step, or stops with a [`RunFault`] |
//! | [`tell`] | writes the error line of an end, and returns the exit status |
//! | [`Files`] | the source of the files' bytes: the machine, or a test |
//! | [`read_opened`] | returns the first bytes of an opened file, or a [`ReadFault`] |
//! | [`laws::rows_are_lines`] | does nothing; its contract says that the line of a row on a byte, a word or a half, as a session reads it, applies the edit |
//! | [`laws::faults_are_lines`] | the same for the row of a fault, and of two, in a session whose run can be looked at |
//!
//! # What a caller can rely on
//!
//! - [`run_order`]: the program is read for the instruction set and the regions that the order names, then the suppressions, then the
//!   input, each judged before the next is read; the report or the replies are written, and nothing else; and the end is that of what
//!   stopped it (`Carried`). A sweep's step and arguments are judged before the program, and its places after the input (`CarriedSweep`).
//! - [`run_once`]: the report of one run from step zero was written (`IsReportOnce`), or a front of it before a write that failed.
//! - [`tell`]: the exit status is that of the end (`status_of`), and what was written is its line (`line_of`), or a front of it.
//!
//! A program's file is judged by its first 67,108,865 bytes, and so as a whole up to 67,108,864: the number of its refusal is the least
//! that holds for the file. The definitions are in `specs/`: `Once`, `Certified`, `Carried`, `Sweeping` and `Laws`. What files
//! give is defined in the crate `program_files`, how the program ends in `ends`, and what a sweep writes in `sweep_tables`.
#![tactic(auto)]

mod carrying;
mod certifying;
mod choosing;
pub mod laws;
mod reporting;

pub use carrying::run_order;
pub use exit_status::{End, LoneOption, SweepOption, tell};
pub use program_files::{Files, MOST_READ, ReadFault, read_opened};
pub use reporting::{RunFault, run_once};

// The command line takes the steps that a session takes.
const _: () = prove!(command_line::MOST_STEPS == replay_session::MOST_STEPS);

const _: () = prove!(command_line::FURTHEST_STEP == replay_session::FURTHEST_STEP);
