//! Tests of the machine, by its public calls.
//!
//! This crate is separate from the one that it tests, since a crate with tests is proved a second time with them.
#![tactic(auto)]

#[cfg(test)]
mod extensions;
#[cfg(test)]
mod tests;
#[cfg(test)]
mod trials;
