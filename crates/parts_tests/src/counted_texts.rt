//! Counted texts, with numbers and counts worked out by hand.
use crate::comes;
use std::alloc::{AllocError, Global};
use texts::Tallies;

/// Texts, the number of each and whether it was met before.
const TEXTS: [(&[u8], usize, bool); 5] = [
    (b"running\n", 1, false),
    (b"exited 0\n", 0, true),
    (b"running\n", 1, true),
    (b"", 2, false),
    (b"running\n", 1, true),
];

/// Returns whether each of the texts is found.
fn are_met(tallies: &mut Tallies) -> Result<bool, AllocError> {
    for (text, number, is_met) in &TEXTS {
        let found = tallies.record(text)?;
        if found.number != *number || found.is_met != *is_met {
            return Ok(false);
        }
    }
    Ok(true)
}

/// Returns whether the texts are found and counted.
fn are_counted(alloc: Global, tallies: &mut Tallies) -> Result<bool, AllocError> {
    if !are_met(tallies)? {
        return Ok(false);
    }
    Ok(tallies.counts(alloc)?.as_slice() == [1, 3, 1].as_slice())
}

/// Returns the same, starting with only the first text.
fn are_counted_from_one(alloc: Global) -> Result<bool, AllocError> {
    let mut tallies = Tallies::begin(alloc, b"exited 0\n".to_vec(alloc)?)?;
    are_counted(alloc, &mut tallies)
}

#[test]
fn texts_have_numbers_and_counts(rt: HostRuntime) {
    comes(&rt, "numbers and counts", are_counted_from_one(rt.alloc()));
}
