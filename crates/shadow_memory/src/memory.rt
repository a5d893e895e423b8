//! The whole memory, and a change of it.
ghost use Rattle.std.specs.Prelude.{◌≡◌, ℕ, ◌+◌, ◌/◌, ◌%◌, ◌^◌, ◌<◌, ◌≤◌, true, IfOk, IsTrue, IsFalse, OnOk, OnErr, IfSome, length, slice_index, vec_len};
ghost use Rattle.shadow_memory.specs.Changes.{received};
ghost use Rattle.shadow_memory.specs.Marks.{blank};
ghost use Rattle.shadow_memory.specs.Shadows.{shadow_of};
ghost use Rattle.shadow_memory.specs.Directories.{cells_at};
ghost use Rattle.shadow_memory.specs.Edits.{change_of, count_of, each_of, Fits};
ghost use Rattle.shadow_memory.specs.Cells.{shadow_in, IsClean};
ghost use Rattle.shadow_memory.specs.Places.{changed_from, page_len};
ghost use Rattle.shadow_memory.specs.Views.{cells_seen};
ghost use Rattle.shadow_memory.specs.Memories.{bytes_in, shadows_in, cells_of};
ghost use Rattle.shadow_memory.specs.Differences.{DifferInWords};

use crate::cells::{Cell, RangeKind};
use crate::contents::are_same;
use crate::differences::WordApart;
use crate::edits::{Each, PageEdit};
use crate::pages::PAGE;
use crate::ranges::PAGE_LEN;
use crate::slots::PageSlot;
use crate::top_directories::{TOP_PAGES, TOP_SIZE, TopDirectory};
use crate::views::View;
use std::alloc::{AllocError, Global};

/// The number of pages of the address space.
pub(crate) const PAGES: u32 = 1048576;

/// The number of tops of the address space.
const TOPS: usize = 32;

/// The greatest number of pages in which words that differ are looked for.
const MOST_COMPARED: u32 = 512;

/// A byte for each of 2^32 addresses, and what is known of it.
#[derive(Drop)]
pub struct Memory {
    // Top directories from the end of this list on are blank.
    tops: Vec<TopDirectory>,
    alloc: Global,
}

#[tactic(auto, unfolding(crate::specs::Memories::cells_of, crate::specs::Views::cells_seen, crate::specs::Directories::cells_at, crate::specs::Memories::bytes_in, crate::specs::Memories::shadows_in))]
impl Memory {
    /// Returns a memory whose bytes are 0 and inaccessible.
    pub fn new(alloc: Global) -> Self
        ensures bytes { bytes_in result ≡ (λ a. 0) }
        ensures shadows { shadows_in result ≡ (λ a. shadow_of RangeKind.NoAccess) }
    {
        Memory {
            tops: Vec::new(alloc),
            alloc,
        }
    }

    /// Returns what an address holds.
    pub fn byte(&self, addr: u32) -> Cell
        ensures byte { result.byte ≡ bytes_in self.now addr }
        ensures shadow { shadow_in result ≡ shadows_in self.now addr }
        ensures clean { IsClean result }
    {
        self.cell(addr)
    }

    pub(crate) fn cell(&self, addr: u32) -> Cell
        ensures value { result ≡ cells_of self.now addr }
        ensures clean { IsClean result }
    {
        self.view(addr).cell(addr as usize % PAGE)
    }

    /// Returns the page of an address, to read.
    #[inline(always)]
    pub(crate) fn view(&self, addr: u32) -> View<'_>
        ensures { (a : ℕ) → a / page_len ≡ addr / page_len → cells_of self.now a ≡ cells_seen result (a % page_len) }
    {
        let at = addr as usize;
        if at / TOP_SIZE < self.tops.len() {
            self.tops[at / TOP_SIZE].view(at % TOP_SIZE)
        } else {
            View::Blank(RangeKind::NoAccess)
        }
    }

    /// Returns the page of an address, which the caller then holds too.
    pub(crate) fn slot(&self, addr: u32) -> Result<PageSlot, AllocError>
        ensures { IfOk result (λ slot. (a : ℕ) → a / page_len ≡ addr / page_len → cells_of self.now a ≡ cells_at slot (a % page_len)) }
    {
        let at = addr as usize;
        if at / TOP_SIZE < self.tops.len() {
            self.tops[at / TOP_SIZE].slot(at % TOP_SIZE)
        } else {
            Ok(PageSlot::Blank(RangeKind::NoAccess))
        }
    }

    /// Returns a number, from this one on, below which no page from this one on is kept; 1,048,576 at most.
    pub(crate) fn next_kept(&self, number: u32) -> u32
        requires { number < 1048576 }
        ensures after { number ≤ result }
        ensures within { result ≤ 1048576 }
        ensures blank { (a : ℕ) → number ≤ a / page_len → a / page_len < result → cells_of self.now a ≡ blank RangeKind.NoAccess }
    {
        let number = number as usize;
        let top = number / TOP_PAGES;
        if top >= self.tops.len() {
            return PAGES;
        }
        let next = top * TOP_PAGES + self.tops[top].next_kept(number % TOP_PAGES);
        next as u32
    }

    // Makes room for the top directory of a number.
    fn grow(&mut self, number: usize) -> Result<(), AllocError>
        requires { number < 32 }
        ensures same { cells_of self.new ≡ cells_of self.old }
        ensures room { OnOk result (number < vec_len self.new.tops) }
    {
        for _i in self.tops.len()..number + 1 {
            self.tops.push(TopDirectory::new(self.alloc))?;
        }
        Ok(())
    }

    /// Stores bytes in one page, if the bytes there are all accessible, and no other memory has the page. Returns whether it did. Allocates
    /// nothing.
    #[inline(always)]
    pub(crate) fn put(&mut self, addr: u32, bytes: &[u8]) -> bool
        requires { addr % page_len + length bytes.now ≤ page_len }
        ensures done { IsTrue result → cells_of self.new ≡ changed_from (cells_of self.old) addr (length bytes.now) (received (slice_index bytes.now)) }
        ensures whole { IsTrue result → (k : ℕ) → addr ≤ k → k < addr + length bytes.now → (cells_of self.old k).accessible ≡ true }
        ensures kept { IsFalse result → cells_of self.new ≡ cells_of self.old }
    {
        let at = addr as usize;
        let number = at / TOP_SIZE;
        number < self.tops.len() && self.tops[number].put(at % TOP_SIZE, bytes)
    }

    // Changes cells of one page, if no other memory has it and that allocates nothing. Returns whether it did.
    #[inline(never)]
    fn change_own(&mut self, addr: u32, edit: &PageEdit<'_>) -> bool
        requires one_page { addr % page_len + count_of edit.now ≤ page_len }
        requires fits { Fits edit.now }
        ensures done { IsTrue result → cells_of self.new ≡ changed_from (cells_of self.old) addr (count_of edit.now) (change_of edit.now) }
        ensures kept { IsFalse result → cells_of self.new ≡ cells_of self.old }
    {
        let at = addr as usize;
        let number = at / TOP_SIZE;
        number < self.tops.len() && self.tops[number].change_own(at % TOP_SIZE, edit)
    }

    /// Changes cells of one page, all of them or none.
    pub(crate) fn change(&mut self, addr: u32, edit: &PageEdit<'_>) -> Result<(), AllocError>
        requires one_page { addr % page_len + count_of edit.now ≤ page_len }
        requires fits { Fits edit.now }
        ensures ok { OnOk result (cells_of self.new ≡ changed_from (cells_of self.old) addr (count_of edit.now) (change_of edit.now)) }
        ensures err { OnErr result (cells_of self.new ≡ cells_of self.old) }
    {
        if self.change_own(addr, edit) {
            return Ok(());
        }
        self.change_any(addr, edit)
    }

    // Does the same for any page, in a copy if others share it.
    fn change_any(&mut self, addr: u32, edit: &PageEdit<'_>) -> Result<(), AllocError>
        requires one_page { addr % page_len + count_of edit.now ≤ page_len }
        requires fits { Fits edit.now }
        ensures ok { OnOk result (cells_of self.new ≡ changed_from (cells_of self.old) addr (count_of edit.now) (change_of edit.now)) }
        ensures err { OnErr result (cells_of self.new ≡ cells_of self.old) }
    {
        let at = addr as usize;
        self.grow(at / TOP_SIZE)?;
        self.tops[at / TOP_SIZE].change(self.alloc, at % TOP_SIZE, edit)
    }

    // Changes bytes of one page alike, if no other memory has it and that allocates nothing. Returns whether it did.
    #[tactic(auto, unfolding(crate::specs::Edits::count_of, crate::specs::Edits::change_of, crate::specs::Edits::Fits))]
    fn change_own_alike(&mut self, addr: u32, count: u32, each: Each) -> bool
        ensures inside { IsTrue result → addr + count ≤ 2 ^ 32 }
        ensures done { IsTrue result → cells_of self.new ≡ changed_from (cells_of self.old) addr count (λ i cell. each_of each cell) }
        ensures kept { IsFalse result → cells_of self.new ≡ cells_of self.old }
    {
        let count = count as usize;
        addr as usize % PAGE + count <= PAGE && self.change_own(addr, &PageEdit::All(count, each))
    }

    /// Changes bytes alike from an address on, at least one and at most `most`, all of them or none. Returns the number of bytes.
    pub(crate) fn change_some(
        &mut self,
        addr: u32,
        most: u32,
        each: Each,
    ) -> Result<u32, AllocError>
        requires { 0 < most }
        ensures some { IfOk result (λ n. 0 < n) }
        ensures within { IfOk result (λ n. n ≤ most) }
        ensures inside { IfOk result (λ n. addr + n ≤ 2 ^ 32) }
        ensures ok { IfOk result (λ n. cells_of self.new ≡ changed_from (cells_of self.old) addr n (λ i cell. each_of each cell)) }
        ensures err { OnErr result (cells_of self.new ≡ cells_of self.old) }
    {
        if self.change_own_alike(addr, most, each) {
            return Ok(most);
        }
        self.change_any_some(addr, most, each)
    }

    // Does the same for any bytes, in copies of pages that others share.
    fn change_any_some(&mut self, addr: u32, most: u32, each: Each) -> Result<u32, AllocError>
        requires { 0 < most }
        ensures some { IfOk result (λ n. 0 < n) }
        ensures within { IfOk result (λ n. n ≤ most) }
        ensures inside { IfOk result (λ n. addr + n ≤ 2 ^ 32) }
        ensures ok { IfOk result (λ n. cells_of self.new ≡ changed_from (cells_of self.old) addr n (λ i cell. each_of each cell)) }
        ensures err { OnErr result (cells_of self.new ≡ cells_of self.old) }
    {
        let number = addr as usize / TOP_SIZE;
        let at = addr as usize % TOP_SIZE;
        let most = (most as usize).min(TOP_SIZE - at);
        self.grow(number)?;
        let count = self.tops[number].change_some(self.alloc, at, most, each)?;
        Ok(count as u32)
    }

    /// Returns whether another memory has the same contents. May also return `false` for such a memory, as it does if many pages are kept,
    /// or if they are kept in another way.
    pub fn is_same(&self, other: &Memory) -> bool
        ensures bytes { IsTrue result → bytes_in self.now ≡ bytes_in other.now }
        ensures shadows { IsTrue result → shadows_in self.now ≡ shadows_in other.now }
    {
        are_same(&self.tops, &other.tops)
    }

    // Returns whether no page after the last address is kept, as none is in any memory that the program makes.
    fn ends_in_time(&self) -> bool
        ensures { IsTrue result → (a : ℕ) → 2 ^ 32 ≤ a → cells_of self.now a ≡ blank RangeKind.NoAccess }
    {
        self.tops.len() <= TOPS
    }

    /// Returns how many pages are kept. No contract says so, as pages don't show: it is for limits of memory.
    pub fn kept_pages(&self) -> u32 {
        let mut kept = 0;
        let mut page = 0;
        while page < PAGES {
            let next = self.next_kept(page);
            if page < next {
                page = next;
            } else {
                kept += 1;
                page += 1;
            }
        }
        kept
    }

    /// Returns the words in which another memory has other bytes, if all else is the same: all other bytes, which bytes are accessible, and
    /// the undefined bits. May also return `None` for such a memory, as it does if many pages are kept, if many words differ, or if the
    /// memories are kept in different ways.
    pub fn words_apart(&self, other: &Memory) -> Result<Option<Vec<WordApart>>, AllocError>
        ensures shadows { IfOk result (λ found. IfSome found (λ words. shadows_in self.now ≡ shadows_in other.now)) }
        ensures words { IfOk result (λ found. IfSome found (λ words. DifferInWords words.items (bytes_in self.now) (bytes_in other.now))) }
    {
        if !self.ends_in_time() || !other.ends_in_time() {
            return Ok(None);
        }
        let mut words = Vec::new(self.alloc);
        let mut compared = 0;
        let mut page = 0;
        while page < PAGES {
            let next = self.next_kept_in(other, page);
            if page < next {
                page = next;
            } else {
                if compared == MOST_COMPARED
                    || !self.push_words(other, page * PAGE_LEN, &mut words)?
                {
                    return Ok(None);
                }
                compared += 1;
                page += 1;
            }
        }
        Ok(Some(words))
    }

    /// Returns a memory with the same contents. Later changes of one of the two don't reach the other.
    pub fn share(&self) -> Result<Memory, AllocError>
        ensures bytes { IfOk result (λ copy. bytes_in copy ≡ bytes_in self.now) }
        ensures shadows { IfOk result (λ copy. shadows_in copy ≡ shadows_in self.now) }
    {
        let tops = self.tops.clone()?;
        Ok(Memory {
            tops,
            alloc: self.alloc,
        })
    }
}
