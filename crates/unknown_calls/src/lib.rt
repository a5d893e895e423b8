//! Counts the calls of a program that aren't known: how often each of the first ten numbers was called.
//!
//! | Item | What it is |
//! |---|---|
//! | [`UnknownCall`] | a number and how often it was called |
//! | [`count_unknown`] | counts a call, if there is one |
//!
//! The definitions are in `specs/UnknownCalls`: `after_call`, a list of calls after one more, and `Within`, that no count exceeds a number.
#![tactic(auto)]

ghost use Rattle.std.specs.Prelude.{◌≡◌, ◌<◌, ◌+◌, ◌^◌, ◌-◌, ℕ, OnOk, OnErr, IfErr, length};
ghost use Rattle.unknown_calls.specs.UnknownCalls.{Within, after_call, after_maybe, place_in, with_call};

use std::alloc::AllocError;

/// The most numbers that are kept.
const MOST: usize = 10;

/// A call that isn't known, by its number, and how often it was made.
#[derive(Clone, Copy)]
pub struct UnknownCall {
    /// The number.
    pub number: u32,
    /// How often it was called.
    pub times: u32,
}

/// Returns the place of a number in a list of calls, or its length.
fn place_in(calls: &[UnknownCall], number: u32) -> usize
    ensures { result ≡ place_in calls.now number }
{
    let mut place = 0;
    while place < calls.len() {
        if calls[place].number == number {
            return place;
        }
        place += 1;
    }
    place
}

/// Counts a call of a number, unless it is a new one and ten numbers are kept. If memory runs out, the list stays as it was.
fn count(calls: &mut Vec<UnknownCall>, number: u32) -> Result<(), AllocError>
    requires { Within (2 ^ 32 - 2) calls.old.items }
    ensures ok { OnOk result (calls.new.items ≡ after_call calls.old.items number) }
    ensures err { OnErr result (calls.new.items ≡ calls.old.items) }
{
    let place = place_in(calls, number);
    if place < calls.len() {
        calls[place].times += 1;
    } else if place < MOST {
        calls.push(UnknownCall { number, times: 1 })?;
    }
    Ok(())
}

/// Counts a call, if there is one, unless its number is a new one and ten numbers are kept. If memory runs out, the list stays as it was.
pub fn count_unknown(calls: &mut Vec<UnknownCall>, number: Option<u32>) -> Result<(), AllocError>
    requires { Within (2 ^ 32 - 2) calls.old.items }
    ensures ok { OnOk result (calls.new.items ≡ after_maybe calls.old.items number) }
    ensures err { OnErr result (calls.new.items ≡ calls.old.items) }
    ensures within { OnOk result ((n : ℕ) → Within n calls.old.items → Within (n + 1) calls.new.items) }
{
    match number {
        Some(number) => count(calls, number),
        None => Ok(()),
    }
}
