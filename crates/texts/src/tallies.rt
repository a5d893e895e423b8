//! How often each of some texts was counted.

ghost use Rattle.std.specs.Prelude.{◌≡◌, ◌<◌, ◌∷◌, [], List, ℕ, true, false, IfOk, OnOk, OnErr, length};
ghost use Rattle.texts.specs.Tallied.{entries_of, counts_of, with_text, number_of, is_met, next_count, keyed};

use indexmap::IndexMap;
use std::alloc::{AllocError, Global};

/// Texts with their counts, in order of first occurrence. Contracts see their list, `entries_of`.
#[derive(Drop)]
pub struct Tallies {
    texts: IndexMap<Vec<u8>, u64>,
}

/// The result of a look-up of a text.
#[derive(Clone, Copy)]
pub struct Found {
    /// Its number: the number of other texts that were met before its first occurrence.
    pub number: usize,
    /// Whether it was met before.
    pub is_met: bool,
}

/// Returns the next count, at most the greatest `u64`.
fn next_count(count: u64) -> u64
    ensures { result ≡ next_count count }
{
    count.saturating_add(1)
}

/// Looks up a text.
fn find_in(texts: &IndexMap<Vec<u8>, u64>, text: &[u8]) -> Found
    ensures number { result.number ≡ number_of (keyed texts.now.entries) text.now }
    ensures met { result.is_met ≡ is_met (keyed texts.now.entries) text.now }
    ensures within { result.is_met ≡ true → result.number < length texts.now.entries }
{
    match texts.get_index_of(text) {
        Some(number) => Found {
            number,
            is_met: true,
        },
        None => Found {
            number: texts.len(),
            is_met: false,
        },
    }
}

/// Counts the text at a place again.
fn count_again(texts: &mut IndexMap<Vec<u8>, u64>, place: usize)
    requires { place < length texts.old.entries }
    ensures { (text : List ℕ) → place ≡ number_of (keyed texts.old.entries) text
        → keyed texts.new.entries ≡ with_text (keyed texts.old.entries) text }
{
    texts[place] = next_count(texts[place]);
}

/// Adds a copy of a new text, met once.
fn add_new(texts: &mut IndexMap<Vec<u8>, u64>, text: &[u8]) -> Result<(), AllocError>
    requires { is_met (keyed texts.old.entries) text.now ≡ false }
    ensures ok { OnOk result (keyed texts.new.entries ≡ with_text (keyed texts.old.entries) text.now) }
    ensures err { OnErr result (keyed texts.new.entries ≡ keyed texts.old.entries) }
{
    let text = Vec::from_slice(*texts.allocator(), text)?;
    let _former = texts.insert(text, 1)?;
    Ok(())
}

#[tactic(auto, unfolding(crate::specs::Tallied::entries_of))]
impl Tallies {
    /// Returns the tallies of a first text, with count 0.
    pub fn begin(alloc: Global, first: Vec<u8>) -> Result<Tallies, AllocError>
        ensures { IfOk result (λ tallies. entries_of tallies ≡ (first.items, 0) ∷ []) }
    {
        let mut texts = IndexMap::new(alloc);
        let _former = texts.insert(first, 0)?;
        Ok(Tallies { texts })
    }

    /// Returns tallies without a text.
    pub fn new(alloc: Global) -> Tallies
        ensures { entries_of result ≡ [] }
    {
        Tallies {
            texts: IndexMap::new(alloc),
        }
    }

    /// Looks up a text, and counts none.
    pub fn find(&self, text: &[u8]) -> Found
        ensures number { result.number ≡ number_of (entries_of self.now) text.now }
        ensures met { result.is_met ≡ is_met (entries_of self.now) text.now }
    {
        find_in(&self.texts, text)
    }

    /// Counts a text. Returns its number, and whether it was met before. If memory runs out for a new text, nothing changes.
    pub fn record(&mut self, text: &[u8]) -> Result<Found, AllocError>
        ensures number { IfOk result (λ found. found.number ≡ number_of (entries_of self.old) text.now) }
        ensures met { IfOk result (λ found. found.is_met ≡ is_met (entries_of self.old) text.now) }
        ensures ok { OnOk result (entries_of self.new ≡ with_text (entries_of self.old) text.now) }
        ensures err { OnErr result (entries_of self.new ≡ entries_of self.old) }
    {
        let found = find_in(&self.texts, text);
        if found.is_met {
            count_again(&mut self.texts, found.number);
        } else {
            add_new(&mut self.texts, text)?;
        }
        Ok(found)
    }

    /// Returns how often each text was met, in their order.
    #[tactic(auto, unfolding(crate::specs::Tallied::entries_of), using(crate::proofs::Steps::counts_keyed))]
    pub fn counts(&self, alloc: Global) -> Result<Vec<u64>, AllocError>
        ensures { IfOk result (λ counts. counts.items ≡ counts_of (entries_of self.now)) }
    {
        self.texts.values().copied().collect(alloc)
    }
}
