//! The values that a place gets, and the changes to them.
ghost use Rattle.std.specs.Prelude.{◌≡◌, ◌≤◌, ◌++◌, ◌∷◌, ◌&&◌, ◌==◌, [], OnOk, IfOk, if◌then◌else◌, map, not};
ghost use Rattle.sweep_plans.specs.Plans.{byte_to, byte_values, flips_below, half_to, is_edge, is_flip, is_wanted, word_values};
ghost use Rattle.sweep_plans.specs.declared.change.Change.TheVariants.{Word};

use crate::change::Change;
use crate::plan::ByteValues;
use std::alloc::{AllocError, Global};

/// Returns whether two bytes differ in one bit.
#[tactic(auto, unfolding(crate::specs::Plans::is_flip))]
fn is_flip(old: u8, new: u8) -> bool
    ensures { result ≡ is_flip old new }
{
    matches!(old ^ new, 1 | 2 | 4 | 8 | 16 | 32 | 64 | 128)
}

/// Returns whether a value is an edge value.
#[tactic(auto, unfolding(crate::specs::Plans::is_edge))]
fn is_edge(old: u8, new: u8) -> bool
    ensures { result ≡ is_edge old new }
{
    matches!(new, 0 | 1 | 127 | 128 | 255)
        || new == old.wrapping_add(1)
        || new == old.wrapping_add(255)
}

impl ByteValues {
    /// Returns whether `new` is one of these values, for a byte that is `old`.
    #[tactic(auto, unfolding(crate::specs::Plans::is_wanted))]
    fn wants(&self, old: u8, new: u8) -> bool
        ensures { result ≡ is_wanted self.now old new }
    {
        match self {
            ByteValues::All => true,
            ByteValues::Flips => is_flip(old, new),
            ByteValues::Edges => is_edge(old, new),
            ByteValues::Listed(list) => list.contains(&u32::from(new)),
        }
    }

    /// Returns the same, but false if `new` is `old`.
    pub fn wants_other(&self, old: u8, new: u8) -> bool
        ensures { result ≡ (not (new == old) && is_wanted self.now old new) }
    {
        new != old && self.wants(old, new)
    }
}

/// Appends a value, if it is wanted.
#[inline(always)]
fn push_if(values: &mut Vec<u32>, is_wanted: bool, value: u32) -> Result<(), AllocError>
    ensures { OnOk result (values.new.items ≡ values.old.items ++ (if is_wanted then value ∷ [] else [])) }
{
    if is_wanted {
        values.push(value)?;
    }
    Ok(())
}

/// Returns the values that a byte gets instead of its own.
pub fn byte_values(alloc: Global, wanted: &ByteValues, old: u8) -> Result<Vec<u32>, AllocError>
    ensures { IfOk result (λ values. values.items ≡ byte_values wanted.now old 256) }
{
    let mut values = Vec::new(alloc);
    for new in 0..256u32 {
        let is_wanted = wanted.wants_other(old, new as u8);
        push_if(&mut values, is_wanted, new)?;
    }
    Ok(values)
}

/// Returns a value with each of its lowest bits flipped, from bit 0 on.
pub fn flips(alloc: Global, old: u32, bits: u32) -> Result<Vec<u32>, AllocError>
    requires { bits ≤ 32 }
    ensures { IfOk result (λ words. words.items ≡ flips_below old bits) }
{
    let mut words = Vec::new(alloc);
    for bit in 0..bits {
        words.push(old ^ (1 << bit))?;
    }
    Ok(words)
}

/// Returns the values of a list, except for one.
pub fn others(alloc: Global, words: &[u32], old: u32) -> Result<Vec<u32>, AllocError>
    ensures { IfOk result (λ values. values.items ≡ word_values old words.now) }
{
    let mut values = Vec::new(alloc);
    for word in words {
        push_if(&mut values, *word != old, *word)?;
    }
    Ok(values)
}

/// Returns the changes of the byte at an offset to some values, of each the low eight bits.
pub fn byte_changes(alloc: Global, offset: u32, values: &[u32]) -> Result<Vec<Change>, AllocError>
    ensures { IfOk result (λ changes. changes.items ≡ map (byte_to offset) values.now) }
{
    let mut changes = Vec::new(alloc);
    for value in values {
        let byte = (*value % 256) as u8;
        changes.push(Change::Byte { offset, byte })?;
    }
    Ok(changes)
}

/// Returns the changes of the word at an address to some values.
pub fn word_changes(alloc: Global, addr: u32, values: &[u32]) -> Result<Vec<Change>, AllocError>
    ensures { IfOk result (λ changes. changes.items ≡ map (Word addr) values.now) }
{
    let mut changes = Vec::new(alloc);
    for word in values {
        changes.push(Change::Word { addr, word: *word })?;
    }
    Ok(changes)
}

/// Returns the changes of the half at an address to some values, of each the low sixteen bits.
pub fn half_changes(alloc: Global, addr: u32, values: &[u32]) -> Result<Vec<Change>, AllocError>
    ensures { IfOk result (λ changes. changes.items ≡ map (half_to addr) values.now) }
{
    let mut changes = Vec::new(alloc);
    for value in values {
        let half = (*value % 65536) as u16;
        changes.push(Change::Half { addr, half })?;
    }
    Ok(changes)
}
