//! Searches of memory, page by page.
ghost use Rattle.std.specs.Prelude.{◌≡◌, ℕ, ◌+◌, ◌%◌, ◌<◌, ◌≤◌, ◌^◌, IfNone, IfSome};
ghost use Rattle.shadow_memory.specs.Marks.{blank};
ghost use Rattle.shadow_memory.specs.Ranges.{above};
ghost use Rattle.shadow_memory.specs.Shadows.{first_bad, HoldNoWord, IsNextWord};
ghost use Rattle.shadow_memory.specs.Values.{HoldNoneInRange, IsNextInRange};
ghost use Rattle.shadow_memory.specs.Memories.{bytes_in, cells_of, shadows_in};
ghost use Rattle.shadow_memory.specs.Places.{page_len};

use crate::cells::{Bad, RangeKind};
use crate::memory::{Memory, PAGES};
use crate::pages::PAGE;
use crate::ranges::{PAGE_LEN, count_in_page};

/// A number of zeros of one kind.
#[derive(Clone, Copy)]
pub(crate) struct Zeros {
    pub(crate) count: u32,
    pub(crate) kind: RangeKind,
}

impl Memory {
    // Returns the kind of `count` bytes of one page, if they are zeros of one kind.
    fn zeros_in_page(&self, addr: u32, count: u32) -> Option<RangeKind>
        requires some { 0 < count }
        requires one_page { addr % page_len + count ≤ page_len }
        ensures { IfSome result (λ kind. (i : ℕ) → i < count → cells_of self.now (above addr i) ≡ blank kind) }
    {
        let place = addr as usize % PAGE;
        self.view(addr).zeros(place, place + count as usize)
    }

    /// Returns zeros of one kind from an address on, at most `most` of them, if the bytes up to the end of the page are such zeros.
    pub(crate) fn zeros(&self, addr: u32, most: u32) -> Option<Zeros>
        requires { 0 < most }
        ensures some { IfSome result (λ zeros. 0 < zeros.count) }
        ensures within { IfSome result (λ zeros. zeros.count ≤ most) }
        ensures zeros { IfSome result (λ zeros. (i : ℕ) → i < zeros.count → cells_of self.now (above addr i) ≡ blank zeros.kind) }
    {
        let mut count = count_in_page(addr, most);
        let kind = self.zeros_in_page(addr, count)?;
        while count < most {
            let at = addr.wrapping_add(count);
            let more = count_in_page(at, most - count);
            match self.zeros_in_page(at, more) {
                Some(other) if other == kind => count += more,
                _ => return Some(Zeros { count, kind }),
            }
        }
        Some(Zeros { count, kind })
    }

    /// Returns the first byte of a range that is inaccessible or, if asked, has an undefined bit.
    pub fn first_bad(&self, addr: u32, len: u32, need_defined: bool) -> Option<Bad>
        ensures { result ≡ first_bad (shadows_in self.now) addr len need_defined }
    {
        let mut done = 0;
        while done < len {
            let at = addr.wrapping_add(done);
            let count = count_in_page(at, len - done);
            let place = at as usize % PAGE;
            let view = self.view(at);
            if let Some(found) = view.first_bad(place, place + count as usize, need_defined) {
                let accessible = view.cell(found).accessible;
                let addr = at - at % PAGE_LEN + found as u32;
                return Some(Bad { addr, accessible });
            }
            done += count;
        }
        None
    }

    /// Returns the least multiple of 4, at or above an address, whose four bytes are all accessible and defined.
    pub fn next_word(&self, addr: u32) -> Option<u32>
        ensures none { IfNone result (HoldNoWord (shadows_in self.now) addr (2 ^ 32)) }
        ensures some { IfSome result (IsNextWord (shadows_in self.now) addr) }
    {
        let mut page = addr / PAGE_LEN;
        let mut from = (addr % PAGE_LEN + 3) / 4 * 4;
        while page < PAGES {
            let next = self.next_kept(page);
            if page < next {
                page = next;
            } else {
                let start = page * PAGE_LEN;
                if let Some(place) = self.view(start).next_word(from as usize) {
                    return Some(start + place as u32);
                }
                page += 1;
            }
            from = 0;
        }
        None
    }

    /// Returns the least multiple of 4, at or above an address, whose four bytes are all accessible and defined, with a value from `low` up
    /// to, but not including, `high`. Zeros never have such a value, so a blank page costs one step. Pages that aren't kept cost one step for
    /// all of a directory or a top directory.
    pub fn next_in_range(&self, addr: u32, low: u32, high: u64) -> Option<u32>
        requires { 0 < low }
        ensures none { IfNone result (HoldNoneInRange (bytes_in self.now) (shadows_in self.now) low high addr (2 ^ 32)) }
        ensures some { IfSome result (IsNextInRange (bytes_in self.now) (shadows_in self.now) low high addr) }
    {
        let mut page = addr / PAGE_LEN;
        let mut from = 4 * ((addr % PAGE_LEN + 3) / 4);
        while page < PAGES {
            let next = self.next_kept(page);
            if page < next {
                page = next;
            } else {
                let start = page * PAGE_LEN;
                if let Some(place) = self.view(start).next_in_range(from as usize, low, high) {
                    return Some(start + place as u32);
                }
                page += 1;
            }
            from = 0;
        }
        None
    }
}
