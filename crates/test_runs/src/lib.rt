//! `exec`: a program is run as a test, with its output, its exit status, and a report of its errors, over any files, reader and writers.
//!
//! | Item | What it is |
//! |---|---|
//! | [`exec_order`] | follows an order for `exec`, and returns how the program ends: an [`ExecEnd`](exit_status::ExecEnd) |
//! | [`Log`] | where the report goes: a file that is opened before the run, or standard error |
//! | [`Execution`] | a run of a scenario whose output is written as the program writes it, and which can wait for its input |
//! | [`Execution::begin`] | returns the execution of a scenario at step 0 |
//! | [`Execution::run`] | runs it to the chosen step, or up to a step that asks for more input than there is |
//! | [`Execution::at`], [`Execution::machine`], [`Execution::refused`] | the step it is at, the machine there, and the number of `write`s that found no room so far |
//! | [`Execution::is_open`] | returns whether the last line that it wrote to standard error is open |
//! | [`Execution::needs_limits`] | returns whether a call so far would have done something else by the usual limits |
//! | [`Execution::into_unknown`] | returns the calls that weren't known, with how often each was made |
//! | [`Streams`] | standard output and standard error |
//! | [`laws::moves_on`] | nothing: its contract says that an execution that hasn't seen the end of an empty input is one of each input |
//!
//! # What a caller relies on
//!
//! [`exec_order`] judges the options, then the program's file, the suppressions, the input and the patches, before anything is written.
//! Then one run is made from step zero. Standard output gets what the program writes to descriptor 1, and standard error what it writes to
//! descriptor 2, each piece in its step. Then the report is written, on a line of its own; the end says how the run stands at its last step
//! (`Executed`), and which of its calls aren't known. Standard input is read only if the program asks for more than an empty input has,
//! and the run goes on from there. The last step is the one that was asked for, or the first multiple of 65,536 at which the stack
//! overflows, or one at which more memory is needed than there may be.
//!
//! An execution is at a step of the run of a scenario without marks (`IsAt`): its machine shows the state before that step of one run from
//! step zero. [`Execution::run`] leaves it so. Standard output was given what that run writes to descriptor 1 between the two steps, and
//! standard error what it writes to descriptor 2 (`Wrote`). Where it fails, each was given what was written to it before some step, and a
//! front of what that step writes (`WroteFront`). No step is made twice, and nothing is written twice. A run that may wait stops before the
//! first step that would see the end of the input; with more input it goes on from there.
//!
//! The definitions stand in `specs/`: `Executions`, an execution and what it wrote; `Prepared`, what is run; `Overflows`, where it ends;
//! and `Executed`, what becomes of it. Steps, and what they have to do with input and output, are those of `guest_machine`.
#![tactic(auto)]

mod executing;
mod execution;
mod fault;
pub mod laws;
mod log;
mod orders;
mod preparing;
mod speaking;
mod stepping;
mod streams;
mod watching;

pub use execution::Execution;
pub use fault::ExecutionFault;
pub use log::Log;
pub use orders::exec_order;
pub use streams::Streams;
