//! Tests of sessions, by the public calls of their crate.
//!
//! This crate is separate from the one that it tests, since a crate with tests is proved a second time with them.
#![tactic(auto)]

#[cfg(test)]
mod scenarios;
#[cfg(test)]
mod serving;
#[cfg(test)]
mod sessions;
