//! Which of many edited runs needn't be executed in full: those that are like another one, and the steps that they have in common.
//!
//! Most steps of an edited run are those of the unedited one: once both have read an input in which one byte differs, they go on in the
//! same way until a step touches that byte or what was made of it. A [`Course`] has machines of one run, and which words the steps between
//! them touch. Another run that differs from it in some words alone needn't execute the steps up to the next one that touches one of these:
//! the machine of the course there, with the words put back, is its own.
//!
//! A [`Passing`] says what a register or a word of memory is to one step of a machine: whether the step looks at it, keeps it, or
//! overwrites it without a look. A change of what the step keeps may as well be made after the step, and one of what it overwrites is gone
//! after it. So of the runs with such a change before each step most are the same, and one of them stands for the others.
//!
//! # Public items
//!
//! | Call | What it does |
//! |---|---|
//! | [`Course::along`] | executes a run, and returns its course |
//! | [`Course::first`] | returns the first step of the course |
//! | [`Course::run`] | executes the steps of any run, as `Machine::run` does, and jumps where that is the same |
//! | [`passing_of`] | returns the [`Passing`] of a register in the next step of a machine |
//! | [`passing_word`] | returns that of a word of memory, given the ranges that the step touches |
//! | [`laws::keeps_registers`], [`laws::overwrites_registers`] | do nothing; their contracts are laws of one step |
//! | [`laws::runs_keep`], [`laws::runs_overwrite`] | likewise, of a run with an alteration of the register before the step |
//! | [`laws::runs_keep_words`] | likewise, of a run in which bits of a word are turned before the step |
//!
//! Only a lack of memory fails, and only a [`Course`] allocates memory.
//!
//! # What a caller can rely on
//!
//! The contract of [`Course::run`] is that of `Machine::run`, for every machine and every setup: the machine that it returns shows the state
//! after all of the steps. A caller never asks whether a course fits. It serves a run that is like its own, and is of no use for another.
//!
//! - [`passing_of`]: for each state that the machine shows, the result is `passing` of the state, the setup and the register.
//! - [`passing_word`]: the result is `passing_word` of each state in whose step those are the ranges touched. If it is `Keeps`, the bytes of
//!   the word are less than 256.
//! - [`laws::keeps_registers`]: if `passing` is `Keeps`, the step leaves the register as it is, and does the same to all else whatever the
//!   register holds.
//! - [`laws::overwrites_registers`]: if it is `Overwrites`, the step leaves one and the same state whatever the register holds.
//! - [`laws::runs_keep`]: if step k keeps the register, a run in which the register is set or has bits turned before step k, after the other
//!   alterations there, is the run with that before step k + 1. The machine must still run before step k + 1, and nothing else be altered
//!   there.
//! - [`laws::runs_overwrite`]: if step k overwrites it, the run is the one without the alteration after step k.
//! - [`laws::runs_keep_words`]: if step k touches no byte of a word at a multiple of 4, turning bits of it before step k and before step
//!   k + 1 leads to the same run, under the same conditions.
//!
//! The laws of registers are of x1 to x31. `Looks` promises nothing: an ECALL and a heap call by name look at every register here, as the
//! values of some registers decide which others they look at. An instruction that writes x2 looks at it, as the stack pointer rule compares
//! the old value with the new one.
//!
//! # Why a jump is right
//!
//! A type invariant says of the machines in order that each leads on to the next (`IsCourse`): from every state that one shows, the next one
//! shows the state some steps later, and a list tells which words these steps touch. `Machine::words_apart` says that all but some words of
//! two machines is the same. A step that touches none of them does the same in both runs and leaves them
//! (`guest_machine::laws::keeps_apart`), also under a setup whose input differs where it was read.
//!
//! # Where the definitions are
//!
//! - `specs/Touches`: the list of what steps touch, as one number for a word and a step.
//! - `specs/Courses`: machines that lead on to each other; `OneProof` that there is one proof of it.
//! - `specs/Passing`: what a register is to an instruction and to a step; `Words`, what a word is to a step; `Laws`, the laws. What a step
//!   does is `exec` of the crate `guest_machine`, and a run is `pre` and `post` there.
//!
//! # Costs
//!
//! A course holds some 513 machines, 16 steps apart or more, and a number for each word that a step touches, fetches among them. To find
//! out how long the run is, it is executed once more. A run is compared with the machine of its step first behind the next 64 steps, or at
//! the next machine, then behind 128, 256 and so on from there, until it is found to be like it, and after a jump again from 64 on. After
//! looks 64 machines apart it is executed to its end. Where pc or a register differs a look needs some tens of machine instructions; else
//! all pages of both memories are compared. So a run of fewer than 2,048 steps is executed as it is, and no jump is of fewer than 256 steps.
//!
//! Sources: RISC-V Unprivileged ISA 20191213, chapters 2 and 7, for the operands and the destination of each instruction; the Valgrind user
//! manual, section 4.5.2, for the stack pointer rule.
#![tactic(auto)]

mod course;
mod jumping;
pub mod laws;
mod passing;
mod touches;
mod words;

pub use course::Course;
pub use passing::{Passing, passing_of};
pub use words::passing_word;
