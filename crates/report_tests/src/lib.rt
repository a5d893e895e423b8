//! Tests of reports, of outlines, of held machines and of searches, by the public calls of their crates.
//!
//! This crate is separate from those that it tests, since a crate with tests is proved a second time with them.
#![tactic(auto)]

#[cfg(test)]
mod alterations;
#[cfg(test)]
mod compares;
#[cfg(test)]
mod ends_of_input;
#[cfg(test)]
mod outlines;
#[cfg(test)]
mod reports;
#[cfg(test)]
mod runs;
#[cfg(test)]
mod searches;
#[cfg(test)]
mod trails;
