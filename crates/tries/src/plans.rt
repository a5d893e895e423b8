//! A line read as a plan of tries: bytes of the input, and the values that each gets.
ghost use Rattle.std.specs.Prelude.{◌≡◌, ◌≤◌, ◌∷◌, [], IfOk, length};
ghost use Rattle.tries.specs.Plans.{edit_of, places_in, plan_asked, plan_in, values_of};

use commands::{Bytes, Edit, Fault, number};
use std::alloc::{AllocError, Global};
use sweep_plans::{ByteValues, Places};
use texts::Parts;

const ALL: &[u8] = b"all";

const FLIPS: &[u8] = b"flips";

const EDGES: &[u8] = b"edges";

/// The bytes of the input that a line tries with other values, one at a time.
#[derive(Drop)]
pub(crate) struct BytePlan {
    /// The offsets of the bytes.
    pub(crate) places: Places,
    /// The values that each gets.
    pub(crate) values: ByteValues,
}

/// A byte of the input with another value.
#[derive(Clone, Copy)]
pub(crate) struct Attempt {
    /// The offset of the byte.
    pub(crate) offset: u32,
    /// Its other value.
    pub(crate) value: u8,
}

impl Attempt {
    /// Returns the edit that gives the byte this value.
    pub(crate) fn edit(self, alloc: Global) -> Result<Edit, AllocError>
        ensures { IfOk result (λ edit. edit ≡ edit_of self) }
    {
        let mut bytes = Vec::new(alloc);
        bytes.push(self.value)?;
        Ok(Edit::Overwrite {
            offset: self.offset,
            bytes: Bytes::new(bytes),
        })
    }
}

/// Returns the values that a word names.
#[tactic(auto, unfolding(crate::specs::Plans::values_of))]
fn values_of(word: &[u8]) -> Option<ByteValues>
    ensures { result ≡ values_of word.now }
{
    if word == ALL {
        Some(ByteValues::All)
    } else if word == FLIPS {
        Some(ByteValues::Flips)
    } else if word == EDGES {
        Some(ByteValues::Edges)
    } else {
        None
    }
}

/// `A..B`, as parts between dots.
#[tactic(auto, unfolding(crate::specs::Plans::places_in))]
fn places_in(mut parts: Parts<'_>) -> Option<Places>
    ensures { result ≡ places_in parts.entry }
{
    let first = parts.next()?;
    let gap = parts.next()?;
    let end = parts.next()?;
    if parts.next().is_some() || !gap.is_empty() {
        return None;
    }
    let first = number(first)?;
    let end = number(end)?;
    if first < end {
        Some(Places { first, end })
    } else {
        None
    }
}

/// `tries A..B VALUES`, as fields.
#[tactic(auto, unfolding(crate::specs::Plans::plan_in))]
fn plan_in(mut fields: Parts<'_>) -> Option<BytePlan>
    ensures { result ≡ plan_in fields.entry }
{
    let _word = fields.next()?;
    let places = fields.next()?;
    let values = fields.next()?;
    if fields.next().is_some() {
        return None;
    }
    let places = places_in(Parts::new(places, b'.'))?;
    let values = values_of(values)?;
    Some(BytePlan { places, values })
}

/// Returns the plan that a line asks for, or why it is rejected, for an input of a length. The line's first word is not looked at.
pub(crate) fn plan_asked(line: &[u8], len: u64) -> Result<BytePlan, Fault>
    ensures asked { result ≡ plan_asked len line.now }
    ensures within { IfOk result (λ plan. plan.places.end ≤ len) }
{
    let Some(plan) = plan_in(Parts::new(line, b' ')) else {
        return Err(Fault::BadCommand);
    };
    if u64::from(plan.places.end) > len {
        Err(Fault::OutsideInput)
    } else {
        Ok(plan)
    }
}
