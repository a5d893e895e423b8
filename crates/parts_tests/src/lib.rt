//! Tests of the crates below the machine, by their public calls: undefined bits, instructions of 32 and of 16 bits and of extensions, program
//! files, memory, call stacks, control registers, the heap, errors, kinds of leaks, suppressions and counted texts.
//!
//! This crate is separate from those that it tests, since a crate with tests is proved a second time with them.
#![tactic(auto)]

#[cfg(test)]
mod comparing;
#[cfg(test)]
mod copies;
#[cfg(test)]
mod counted_texts;
#[cfg(test)]
mod decoding;
#[cfg(test)]
mod errors;
#[cfg(test)]
mod expanding;
#[cfg(test)]
mod extending;
#[cfg(test)]
mod files;
#[cfg(test)]
mod heap;
#[cfg(test)]
mod leak_kinds;
#[cfg(test)]
mod memory;
#[cfg(test)]
mod program_files;
#[cfg(test)]
mod registers;
#[cfg(test)]
mod stacks;
#[cfg(test)]
mod suppression_texts;
#[cfg(test)]
mod symbols;
#[cfg(test)]
mod undefined_bits;

#[cfg(test)]
use std::alloc::AllocError;
#[cfg(test)]
use std::process::Abort;

/// Asserts that a row holds, by its label.
#[cfg(test)]
fn holds(rt: &impl Abort, label: &str, is_so: bool) {
    assert!(rt; is_so, "{label}");
}

/// Asserts the same of a test for which memory may run out.
#[cfg(test)]
fn comes(rt: &impl Abort, label: &str, is_so: Result<bool, AllocError>) {
    holds(rt, label, matches!(is_so, Ok(true)));
}
