//! Which entries of tables of decoded instructions are right for another memory.
ghost use Rattle.std.specs.Prelude.{◌≡◌, ℕ, ◌<◌, IsTrue, length};
ghost use Rattle.shadow_memory.specs.Memories.{bytes_in, shadows_in};
ghost use Rattle.shadow_memory.specs.Ranges.{little_word, window};
ghost use Rattle.shadow_memory.specs.Shadows.{HasDefined};
ghost use Rattle.guest_machine.specs.DecodeCaches.{entry_at, HasBoth, HasEach, IsCodeLen, IsEntry};

use crate::decode_cache::{DecodeCache, Decoded};
use crate::decode_table::drop_at;
use shadow_memory::Memory;

/// Whether one look-up shows that a memory has the same code at an address as another one, and that it is accessible and defined.
fn has_code_of(memory: &Memory, other: &Memory, addr: u32, len: u32) -> bool
    requires { IsCodeLen len }
    ensures { IsTrue result → HasDefined (bytes_in memory.now) (shadows_in memory.now) addr len (little_word (window (bytes_in other.now) addr len)) }
{
    match memory.defined(addr, len) {
        Some(code) => code == other.load(addr, len).value,
        None => false,
    }
}

/// Removes the entry of a place, unless a memory has the same code as another one.
#[tactic(auto, using(crate::proofs::SameCodes::dropped_same, crate::proofs::SameCodes::dropped_none))]
fn fit_at(entries: &mut Vec<Decoded>, len: u32, place: usize, memory: &Memory, other: &Memory)
    requires len { IsCodeLen len }
    requires within { place < length entries.old.items }
    ensures length { length entries.new.items ≡ length entries.old.items }
    ensures left { (k : ℕ) → IsEntry (entry_at entries.new.items k) → entry_at entries.new.items k ≡ entry_at entries.old.items k }
    ensures has { IsEntry (entry_at entries.new.items place) → HasDefined (bytes_in memory.now) (shadows_in memory.now)
        (entry_at entries.new.items place).addr len (little_word (window (bytes_in other.now) (entry_at entries.new.items place).addr len)) }
{
    let addr = entries[place].addr;
    if addr % 2 == 0 && !has_code_of(memory, other, addr, len) {
        drop_at(entries, place);
    }
}

/// Removes each entry, unless a memory has the same code as another one.
#[tactic(auto, using(crate::proofs::SameCodes::fit_begun, crate::proofs::SameCodes::fit_more, crate::proofs::SameCodes::fit_each))]
fn fit_each(entries: &mut Vec<Decoded>, len: u32, memory: &Memory, other: &Memory)
    requires { IsCodeLen len }
    ensures left { (k : ℕ) → IsEntry (entry_at entries.new.items k) → entry_at entries.new.items k ≡ entry_at entries.old.items k }
    ensures has { HasEach (bytes_in other.now) (shadows_in other.now) len entries.old.items
        → HasEach (bytes_in memory.now) (shadows_in memory.now) len entries.new.items }
{
    for place in 0..entries.len() {
        fit_at(entries, len, place, memory, other);
    }
}

impl DecodeCache {
    /// Whether a memory has the same codes as another one for all entries, if these lie near each other.
    fn fits(&self, memory: &Memory, other: &Memory) -> bool
        ensures { IsTrue result → HasBoth (bytes_in other.now) (shadows_in other.now) self.now.words.items self.now.halves.items
            → HasBoth (bytes_in memory.now) (shadows_in memory.now) self.now.words.items self.now.halves.items }
    {
        match self.range() {
            Some(range) => memory.has_bytes_of(other, range.start, range.len),
            None => false,
        }
    }

    /// Leaves those entries of another memory's tables whose codes a memory has too: all at once, if they lie near each other and none has
    /// changed, and otherwise individually.
    pub(crate) fn fit(&mut self, memory: &Memory, other: &Memory)
        ensures { HasBoth (bytes_in other.now) (shadows_in other.now) self.old.words.items self.old.halves.items
            → HasBoth (bytes_in memory.now) (shadows_in memory.now) self.new.words.items self.new.halves.items }
    {
        if !self.fits(memory, other) {
            fit_each(&mut self.words, 4, memory, other);
            fit_each(&mut self.halves, 2, memory, other);
        }
    }
}
