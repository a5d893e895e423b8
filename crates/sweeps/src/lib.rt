//! Every change of a run, one at a time: the outcome of each changed byte of an input, of each changed word of a program, and of each fault
//! at a step.
//!
//! A [`Sweep`] visits the places of a [`sweep_plans::Plan`] one after another. At each it applies every requested change, one at a time, and
//! appends the change's row of the table: the lines of a session that apply the change, and the number of its outcome.
//!
//! # Public items
//!
//! | Call | What it does |
//! |---|---|
//! | [`Sweep::begin`] | executes the unedited run, and appends its outcome |
//! | [`Sweep::visit`] | applies each change of a place, and appends its row, after its outcome if that is new |
//! | [`Sweep::range`], [`Sweep::table`], [`Sweep::apart`] | return the range of addresses of which a table says what the runs have executed, that table, and how far its places are apart |
//! | [`Sweep::finish`] | appends the number of edits that lead to each outcome, and then the number of edits, of outcomes and of steps |
//! | [`laws::outcomes_are_counted`], [`laws::steps_are_one`], [`laws::outcomes_are_one`], [`laws::parts_have_all_changes`], [`laws::reads_are_looks`] | do nothing; their contracts are laws of the table |
//!
//! # What a caller can rely on
//!
//! Each outcome is the outline of **one run from step zero of the scenario with only that change** (`IsOutcome`); nothing of another change
//! or its outcome is in it. Outcomes are numbered in order of first occurrence. A sweep knows what it has met (`HasMet`): `visit` adds the
//! changes of its place (`changes_from`), in order. If memory runs out, neither what was appended nor the sweep may be used; the sweep's
//! scenario is as it was.
//!
//! A sweep of bytes can have a table that says which instructions its runs have executed, and how they went on from each (`HasCovered`).
//!
//! Not each outcome needs a run. That of a register that is set or has a bit turned before a step is the outcome of the same change before
//! the next step, if the step keeps the register; if the step overwrites the register, it is that of the unedited run. Bits of a word of
//! memory are like a register that is kept, if the step doesn't touch the word (`pruning` has the laws). So from one step to the next a
//! sweep recalls up to 2^20 outcomes of up to 4,096 bytes (`Recalls`), and makes a run only for what the step before looked at or
//! overwrote.
//!
//! Not each run needs its end. That of a skip, or of a register that is altered, is compared with machines of the unedited run that are held
//! before each sixteenth step. If they are the same, the outcome is that of the unedited run at the chosen step; of a skip, that of one step
//! after it (`AreEnds`).
//!
//! # Where the definitions are
//!
//! In `specs/`: `Standing` (what is at a place, and the changes there), `Memory` (those of bytes that are read later), `Outcomes` (the
//! outcome of a change), `Tables` (the text), `Sites` (where the runs of a place continue), `Recall` (which outcomes are known without a run),
//! `Landmarks` (the unedited run's machines that are held, and the runs that meet it), `LoneSkips` (what each skip leads to by itself),
//! `Sweeps` (what a sweep has met), `Covered` (what its runs have executed), `Accesses` (the table of what steps do first with each byte), `Laws` (what the numbers of a table mean).
//! The places of a plan and the changes at each are defined in the crate `sweep_plans`.
#![tactic(auto)]

mod accesses;
mod beginning;
mod counting;
mod endings;
mod entering;
mod held_run;
mod landmarks;
pub mod laws;
mod lone_skips;
mod meeting;
mod memory;
mod outcomes;
mod pairs;
mod recall;
mod rows;
mod settings;
mod sites;
mod striking;
mod sweep;

pub use sweep::{Asked, Sweep};
