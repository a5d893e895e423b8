//! One page of a memory, to read.
ghost use Rattle.std.specs.Prelude.{◌≡◌, ℕ, ◌+◌, ◌*◌, ◌%◌, ◌^◌, ◌<◌, ◌≤◌, None, IfNone, IfSome, IsTrue};
ghost use Rattle.shadow_memory.specs.Cells.{shadow_in, IsClean};
ghost use Rattle.shadow_memory.specs.Changes.{IsWidth};
ghost use Rattle.shadow_memory.specs.Loads.{loaded_at};
ghost use Rattle.shadow_memory.specs.Marks.{blank};
ghost use Rattle.shadow_memory.specs.Firsts.{IsFirst, NonePass};
ghost use Rattle.shadow_memory.specs.Shadows.{is_bad, HoldNoWord, IsNextWord};
ghost use Rattle.shadow_memory.specs.Values.{holds_in_range, HoldNoneInRange, IsNextInRange};
ghost use Rattle.shadow_memory.specs.Views.{cells_seen};
ghost use Rattle.shadow_memory.specs.Comparisons.{AreBytesOf, HaveBytesOf};
ghost use Rattle.shadow_memory.specs.Places.{page_len};

use crate::cells::{Cell, Loaded, RangeKind, blank_cell};
use crate::marks::{first_bad_of, next_word_of};
use crate::pages::Page;
use crate::words::{ABSENT, loaded_from};

/// A page that may be blank.
#[derive(Clone, Copy)]
pub(crate) enum View<'a> {
    /// Zeros, all of one kind.
    Blank(RangeKind),
    /// A page that is held.
    Held(&'a Page),
}

#[tactic(auto, unfolding(crate::specs::Views::cells_seen, crate::specs::Loads::loaded_at, crate::specs::Ranges::little_word, crate::specs::Ranges::first_from))]
impl View<'_> {
    pub(crate) fn cell(self, at: usize) -> Cell
        requires { at < page_len }
        ensures value { result ≡ cells_seen self.entry at }
        ensures clean { IsClean result }
    {
        match self {
            View::Blank(kind) => blank_cell(kind),
            View::Held(page) => page.cell(at),
        }
    }

    /// Returns the kind of the bytes from one place up to, but not including, another, if they are zeros of one.
    pub(crate) fn zeros(self, from: usize, to: usize) -> Option<RangeKind>
        requires order { from < to }
        requires within { to ≤ page_len }
        ensures { IfSome result (λ kind. (k : ℕ) → from ≤ k → k < to → cells_seen self.entry k ≡ blank kind) }
    {
        match self {
            View::Blank(kind) => Some(kind),
            View::Held(page) => page.zeros(from, to),
        }
    }

    /// Returns the number of `n` bytes from a place on, if they are found to be all accessible and defined.
    #[inline(always)]
    pub(crate) fn defined(self, at: usize, n: u32) -> Option<u32>
        requires width { IsWidth n }
        requires within { at + n ≤ page_len }
        ensures value { IfSome result (λ value. (addr : ℕ)
            → loaded_at (λ i. cells_seen self.entry (at + i)) addr n ≡ record { value = value; undef = 0; bad = None }) }
        ensures small { IfSome result (λ value. value < 2 ^ (8 * n)) }
    {
        match self {
            View::Blank(_) => None,
            View::Held(page) => page.defined(at, n),
        }
    }

    /// Returns what a load of `n` bytes from a place on takes. The bytes lie from an address on.
    #[inline(always)]
    pub(crate) fn load(self, at: usize, addr: u32, n: u32) -> Loaded
        requires width { IsWidth n }
        requires within { at + n ≤ page_len }
        ensures value { result ≡ loaded_at (λ i. cells_seen self.entry (at + i)) addr n }
        ensures small { result.value < 2 ^ (8 * n) }
        ensures small_undef { result.undef < 2 ^ (8 * n) }
    {
        match self {
            View::Held(page) => page.load(at, addr, n),
            View::Blank(kind) => {
                let cell = blank_cell(kind);
                match n {
                    1 => loaded_from(addr, cell, ABSENT, ABSENT, ABSENT),
                    2 => loaded_from(addr, cell, cell, ABSENT, ABSENT),
                    _ => loaded_from(addr, cell, cell, cell, cell),
                }
            }
        }
    }

    /// Returns the first multiple of 4, from `from` on, that has four accessible and defined bytes.
    pub(crate) fn next_word(self, from: usize) -> Option<usize>
        requires within { from ≤ page_len }
        requires aligned { from % 4 ≡ 0 }
        ensures none { IfNone result (HoldNoWord (λ k. shadow_in (cells_seen self.entry k)) from page_len) }
        ensures some { IfSome result (IsNextWord (λ k. shadow_in (cells_seen self.entry k)) from) }
        ensures inside { IfSome result (λ at. at < page_len) }
    {
        match self {
            View::Blank(kind) => next_word_of(kind, from),
            View::Held(page) => page.next_word(from),
        }
    }

    /// Returns the first multiple of 4, from `from` on, whose four bytes are accessible and defined, with a value from `low` up to, but not
    /// including, `high`.
    pub(crate) fn next_in_range(self, from: usize, low: u32, high: u64) -> Option<usize>
        requires within { from ≤ page_len }
        requires aligned { from % 4 ≡ 0 }
        requires positive { 0 < low }
        ensures none { IfNone result (HoldNoneInRange (λ k. (cells_seen self.entry k).byte) (λ k. shadow_in (cells_seen self.entry k)) low high from page_len) }
        ensures some { IfSome result (IsNextInRange (λ k. (cells_seen self.entry k).byte) (λ k. shadow_in (cells_seen self.entry k)) low high from) }
        ensures inside { IfSome result (λ at. at < page_len) }
    {
        match self {
            View::Blank(_) => None,
            View::Held(page) => page.next_in_range(from, low, high),
        }
    }

    /// Returns the first bad byte from one place up to, but not including, another.
    pub(crate) fn first_bad(self, from: usize, to: usize, need_defined: bool) -> Option<usize>
        requires order { from ≤ to }
        requires within { to ≤ page_len }
        ensures none { IfNone result (NonePass (λ k. is_bad need_defined (shadow_in (cells_seen self.entry k))) from to) }
        ensures some { IfSome result (IsFirst (λ k. is_bad need_defined (shadow_in (cells_seen self.entry k))) from to) }
    {
        match self {
            View::Blank(kind) => first_bad_of(kind, from, to, need_defined),
            View::Held(page) => page.first_bad(from, to, need_defined),
        }
    }

    /// Returns whether both pages are held, and the bytes from one place up to, but not including, another are those of the other page
    /// there, and all of them are accessible and defined.
    pub(crate) fn has_bytes_of(self, other: View<'_>, from: usize, to: usize) -> bool
        requires order { from < to }
        requires within { to ≤ page_len }
        ensures { IsTrue result → HaveBytesOf (cells_seen self.entry) (cells_seen other.entry) from to }
    {
        match (self, other) {
            (View::Held(page), View::Held(others)) => page.has_bytes_of(others, from, to),
            _ => false,
        }
    }

    /// Returns whether another page has the same accessible bytes and undefined bits. May also return `false` for such a page.
    pub(crate) fn has_marks_of(self, other: View<'_>) -> bool
        ensures { IsTrue result → (k : ℕ) → k < page_len → shadow_in (cells_seen self.entry k) ≡ shadow_in (cells_seen other.entry k) }
    {
        match (self, other) {
            (View::Blank(kind), View::Blank(another)) => kind == another,
            (View::Blank(kind), View::Held(others)) => others.is_of(kind),
            (View::Held(page), View::Blank(kind)) => page.is_of(kind),
            (View::Held(page), View::Held(others)) => page.has_marks_of(others),
        }
    }

    /// Returns whether the bytes from one place up to, but not including, another are those of another page there.
    pub(crate) fn is_same_in(self, other: View<'_>, from: usize, to: usize) -> bool
        requires order { from < to }
        requires within { to ≤ page_len }
        ensures { IsTrue result → AreBytesOf (cells_seen self.entry) (cells_seen other.entry) from to }
    {
        match (self, other) {
            (View::Blank(_), View::Blank(_)) => true,
            (View::Blank(_), View::Held(others)) => others.is_zero_in(from, to),
            (View::Held(page), View::Blank(_)) => page.is_zero_in(from, to),
            (View::Held(page), View::Held(others)) => page.is_same_in(others, from, to),
        }
    }
}
