//! The words of a memory.
ghost use Rattle.std.specs.Prelude.{◌≡◌, ℕ, ◌<◌, ◌≤◌, IfNone, IfSome, None};
ghost use Rattle.leak_search.specs.Gathering.{words_within, IsNextIn};

use shadow_memory::Memory;

/// The address of a word, and its value.
#[derive(Clone, Copy)]
pub(crate) struct Word {
    pub(crate) address: u32,
    pub(crate) value: u32,
}

/// Returns the first word at an address or above whose value is from `low` up to, but not including, `high`.
pub(crate) fn next_word(memory: &Memory, from: u32, low: u32, high: u64) -> Option<Word>
    requires { 0 < low }
    ensures none { IfNone result ((w : ℕ) → from ≤ w → words_within memory.now low high w ≡ None) }
    ensures some { IfSome result (λ word. IsNextIn (words_within memory.now low high) from word) }
{
    match memory.next_in_range(from, low, high) {
        None => None,
        Some(address) => Some(Word {
            address,
            value: memory.load(address, 4).value,
        }),
    }
}
