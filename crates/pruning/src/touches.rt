//! Which steps of a run touch which words.
ghost use Rattle.std.specs.Prelude.{◌≡◌, ◌+◌, ◌/◌, ◌<◌, ◌≤◌, ℕ, false, length, slice_index_or, true, IfOk, IsTrue, OnOk};
ghost use Rattle.std.specs.List.Sorted.{IsNonDecreasingBy};
ghost use Rattle.guest_machine.specs.Exec.{has_touched};
ghost use Rattle.guest_machine.specs.Spans.{covers};
ghost use Rattle.pruning.specs.Touches.{is_told, touch, TellsAll};

use guest_machine::{Span, Touched};
use std::alloc::AllocError;

/// The number of addresses.
const ADDRESSES: u64 = 1 << 32;

/// For each word that steps touch, named by a quarter of its address, these steps: numbers in ascending order.
#[derive(Drop)]
pub(crate) struct Touches {
    pub(crate) keys: Vec<u64>,
    ghost sorted: { IsNonDecreasingBy (λ (key : ℕ). key) keys.items },
}

/// The number of a step that touches a word.
fn touch(word: u32, step: u32) -> u64
    ensures { result ≡ touch word step }
{
    u64::from(word) * ADDRESSES + u64::from(step)
}

/// Appends that a step touches the words of a range, if there is one. Returns whether the range ends at an address or after the last one;
/// if it goes on at address 0, appends nothing.
fn push_range(keys: &mut Vec<u64>, step: u32, range: Option<Span>) -> Result<bool, AllocError>
    ensures kept { OnOk result (TellsAll keys.old.items keys.new.items) }
    ensures told { IfOk result (λ whole. IsTrue whole → (a : ℕ) → covers range a ≡ true → is_told keys.new.items (a / 4) step ≡ true) }
{
    let Some(range) = range else {
        return Ok(true);
    };
    let end = u64::from(range.start) + u64::from(range.len);
    if end > ADDRESSES {
        return Ok(false);
    }
    let first = range.start / 4;
    let last = ((end + 3) / 4) as u32;
    for word in first..last {
        keys.push(touch(word, step))?;
    }
    Ok(true)
}

/// Appends what a step touches. Returns whether it told all.
pub(crate) fn push_touched(
    keys: &mut Vec<u64>,
    step: u32,
    touched: &Touched,
) -> Result<bool, AllocError>
    ensures kept { OnOk result (TellsAll keys.old.items keys.new.items) }
    ensures told { IfOk result (λ whole. IsTrue whole → (a : ℕ) → has_touched touched.now a ≡ true → is_told keys.new.items (a / 4) step ≡ true) }
{
    let fetch = push_range(keys, step, touched.fetch)?;
    let reads = push_range(keys, step, touched.reads)?;
    let writes = push_range(keys, step, touched.writes)?;
    Ok(fetch && reads && writes)
}

/// The place of the first number that isn't below another.
fn place_of(keys: &[u64], key: u64) -> usize
    requires { IsNonDecreasingBy (λ (k : ℕ). k) keys.now }
    ensures within { result ≤ length keys.now }
    ensures before { (k d : ℕ) → k < result → slice_index_or keys.now k d < key }
    ensures next { (k d : ℕ) → result ≤ k → k < length keys.now → key ≤ slice_index_or keys.now k d }
{
    keys.partition_point(|k| *k < key)
}

/// Returns the first step that touches a word, from one step up to, but not including, a last one, which it returns if none does.
fn next_in(keys: &[u64], word: u32, from: u32, last: u32) -> u32
    requires sorted { IsNonDecreasingBy (λ (k : ℕ). k) keys.now }
    requires order { from ≤ last }
    ensures later { from ≤ result }
    ensures within { result ≤ last }
    ensures none { (step : ℕ) → from ≤ step → step < result → is_told keys.now word step ≡ false }
{
    let place = place_of(keys, touch(word, from));
    if place == keys.len() {
        return last;
    }
    let next = keys[place];
    if next / ADDRESSES == u64::from(word) {
        last.min((next % ADDRESSES) as u32)
    } else {
        last
    }
}

impl Touches {
    /// Returns the steps of a list.
    pub(crate) fn new(keys: Vec<u64>) -> Touches
        ensures { TellsAll keys.items result.keys.items }
    {
        let mut keys = keys;
        keys.sort_unstable();
        Touches { keys }
    }

    /// Returns the first step that touches a word, from one step up to, but not including, a last one, which it returns if none does.
    pub(crate) fn next(&self, word: u32, from: u32, last: u32) -> u32
        requires { from ≤ last }
        ensures later { from ≤ result }
        ensures within { result ≤ last }
        ensures none { (step : ℕ) → from ≤ step → step < result → is_told self.now.keys.items word step ≡ false }
    {
        next_in(&self.keys, word, from, last)
    }
}
