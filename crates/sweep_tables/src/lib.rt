//! The table of a sweep, written row by row as the sweep proceeds.
//!
//! [`sweep_program`] sweeps a program with an input and suppressions, as a request says. Either the places are rejected and nothing is
//! written, or the table of the places of the part is written, or a front of the table, before a write that failed or until memory ran out
//! (`Sweeps`).
//!
//! In `specs/`: `Swept`, the table as it is written; `SidesLines`, its lines on what the runs have executed; `Laws`, that a sweep has one table ([`laws::table_is_one`]).
#![tactic(auto)]

mod head;
pub mod laws;
mod program;
mod sides;
mod table;

pub use program::{Material, sweep_program};
