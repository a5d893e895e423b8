//! Tests of the command line and of what the program does with an order, by the public calls of their crates.
//!
//! This crate is separate from those that it tests, since a crate with tests is proved a second time with them.
#![tactic(auto)]

#[cfg(test)]
mod end_lines;
#[cfg(test)]
mod endings;
#[cfg(test)]
mod exec_cases;
#[cfg(test)]
mod file_reads;
#[cfg(test)]
mod orders;
#[cfg(test)]
mod overflow_cases;
#[cfg(test)]
mod programs;
#[cfg(test)]
mod shelf;
#[cfg(test)]
mod stream_cases;
#[cfg(test)]
mod words;
