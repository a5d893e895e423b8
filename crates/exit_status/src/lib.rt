//! How the program ends: an [`End`], which [`tell`] writes as a line of standard error and returns as an exit status.
//!
//! [`tell`]: the exit status is that of the end (`status_of`), and what was written is its line (`line_of`), or a front of it. A
//! [`SweepOption`] is an option whose text is read; the line names it if the text can't be read. A [`LoneOption`] is one that needs another
//! one. Faults become ends by `From`.
//!
//! How `exec` ends is an [`ExecEnd`], of which [`tell_exec`] writes the lines and returns the status. [`Ended`] says why its run ended where it did.
//!
//! The definitions are in `specs/Ends` and `specs/ExecEnds`.
#![tactic(auto)]

mod addresses;
mod ended;
mod ends;
mod exec_ends;
mod lines;

pub use ended::Ended;
pub use ends::{End, LoneOption, SweepOption, tell};
pub use exec_ends::{ChosenStatuses, ExecDone, ExecEnd, Outcome, tell_exec, tell_for};
