//! The words in which two memories differ.
ghost use Rattle.std.specs.Prelude.{◌≡◌, ℕ, ◌+◌, ◌*◌, ◌/◌, ◌%◌, ◌<◌, ◌≤◌, IfOk, IsTrue};
ghost use Rattle.shadow_memory.specs.Comparisons.{AreBytesOf, DifferBelow};
ghost use Rattle.shadow_memory.specs.Marks.{blank};
ghost use Rattle.shadow_memory.specs.Memories.{bytes_in, cells_of};
ghost use Rattle.shadow_memory.specs.Places.{page_len};
ghost use Rattle.shadow_memory.specs.Ranges.{byte_of};
ghost use Rattle.shadow_memory.specs.Views.{cells_seen};
ghost use Rattle.shadow_memory.specs.Differences.{IsWordApart};

use crate::cells::RangeKind;
use crate::memory::Memory;
use crate::pages::PAGE;
use crate::views::View;
use crate::words::word;
use std::alloc::AllocError;

/// The greatest number of words that are returned.
const MOST_WORDS: usize = 32;

/// The number of bytes that are compared at once where a page differs.
const CHUNK: usize = 64;

/// A word in which the bytes of two memories differ: its address, which is a multiple of 4, and its value in the one and in the other.
#[derive(Clone, Copy)]
pub struct WordApart {
    pub addr: u32,
    pub here: u32,
    pub there: u32,
}

// Returns a number of bytes, from a place on, that are found to be the same in two pages: those of a page, of a chunk or of a word; 0 if the
// word there differs.
fn same_from(here: View<'_>, there: View<'_>, at: usize) -> usize
    requires within { at < page_len }
    requires aligned { at % 4 ≡ 0 }
    ensures within { at + result ≤ page_len }
    ensures aligned { result % 4 ≡ 0 }
    ensures same { AreBytesOf (cells_seen here.entry) (cells_seen there.entry) at (at + result) }
{
    if at == 0 && here.is_same_in(there, 0, PAGE) {
        return PAGE;
    }
    if at % CHUNK == 0 && here.is_same_in(there, at, at + CHUNK) {
        return CHUNK;
    }
    if here.is_same_in(there, at, at + 4) {
        return 4;
    }
    0
}

// Returns the first multiple of 4, from a place on, at which the words of two pages differ; 4,096 if there is none.
fn next_apart(here: View<'_>, there: View<'_>, from: usize) -> usize
    requires within { from ≤ page_len }
    requires aligned { from % 4 ≡ 0 }
    ensures start { from ≤ result }
    ensures within { result ≤ page_len }
    ensures aligned { result % 4 ≡ 0 }
    ensures same { AreBytesOf (cells_seen here.entry) (cells_seen there.entry) from result }
{
    let mut at = from;
    while at < PAGE {
        let count = same_from(here, there, at);
        if count == 0 {
            return at;
        }
        at += count;
    }
    at
}

impl Memory {
    // Returns the value of the word at an address.
    #[tactic(auto, unfolding(crate::specs::Memories::bytes_in))]
    fn word_at(&self, addr: u32) -> u32
        requires { addr % 4 ≡ 0 }
        ensures { (i : ℕ) → i < 4 → bytes_in self.now (addr + i) ≡ byte_of result i }
    {
        let first = self.cell(addr);
        let second = self.cell(addr + 1);
        let third = self.cell(addr + 2);
        let fourth = self.cell(addr + 3);
        word(first.byte, second.byte, third.byte, fourth.byte)
    }

    // Returns the word at an address, with its values in two memories.
    fn word_apart(&self, other: &Memory, addr: u32) -> WordApart
        requires { addr % 4 ≡ 0 }
        ensures addr { result.addr ≡ addr }
        ensures word { IsWordApart (bytes_in self.now) (bytes_in other.now) result }
    {
        WordApart {
            addr,
            here: self.word_at(addr),
            there: other.word_at(addr),
        }
    }

    /// Returns the number of the first page, from one on, that may be kept here or in another memory; 1,048,576 at most.
    pub(crate) fn next_kept_in(&self, other: &Memory, number: u32) -> u32
        requires { number < 1048576 }
        ensures after { number ≤ result }
        ensures within { result ≤ 1048576 }
        ensures here { (a : ℕ) → number ≤ a / page_len → a / page_len < result → cells_of self.now a ≡ blank RangeKind.NoAccess }
        ensures there { (a : ℕ) → number ≤ a / page_len → a / page_len < result → cells_of other.now a ≡ blank RangeKind.NoAccess }
    {
        let here = self.next_kept(number);
        let there = other.next_kept(number);
        if here < there { here } else { there }
    }

    /// Appends the words of the page at an address in which another memory has other bytes. Returns whether nothing else differs in the
    /// page. May also return `false` for such a page, as it does if the words become too many.
    pub(crate) fn push_words(
        &self,
        other: &Memory,
        addr: u32,
        words: &mut Vec<WordApart>,
    ) -> Result<bool, AllocError>
        requires page { addr % page_len ≡ 0 }
        requires known { DifferBelow words.old.items (cells_of self.now) (cells_of other.now) addr }
        ensures { IfOk result (λ whole. IsTrue whole → DifferBelow words.new.items (cells_of self.now) (cells_of other.now) (addr + page_len)) }
    {
        let here = self.view(addr);
        let there = other.view(addr);
        if !here.has_marks_of(there) {
            return Ok(false);
        }
        let mut at = next_apart(here, there, 0);
        while at < PAGE {
            if words.len() == MOST_WORDS {
                return Ok(false);
            }
            words.push(self.word_apart(other, addr + at as u32))?;
            at = next_apart(here, there, at + 4);
        }
        Ok(true)
    }
}
