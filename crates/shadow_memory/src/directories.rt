//! A row of pages.
ghost use Rattle.std.specs.Prelude.{◌≡◌, ℕ, ◌<◌, ◌≤◌, ◌+◌, ◌*◌, ◌/◌, ◌%◌, true, OnOk, OnErr, IfOk, IfNone, IfSome, IsTrue, IsFalse, length, replicate, slice_index, vec_len};
ghost use Rattle.shadow_memory.specs.Changes.{received};
ghost use Rattle.shadow_memory.specs.Places.{page_len};

use crate::cells::RangeKind;
use crate::contents::are_same;
use crate::edits::{Each, PageEdit};
use crate::pages::PAGE;
use crate::slots::PageSlot;
use crate::views::View;
use std::alloc::{AllocError, Global};

/// The number of pages of a directory.
pub(crate) const DIRECTORY_PAGES: usize = 1024;

/// The greatest number of pages of a directory that are compared with those of another.
const MOST_COMPARED: usize = 64;

/// 1,024 pages in a row. Those from the first to the last that was changed are kept.
#[derive(Drop)]
pub(crate) struct Directory {
    first: usize,
    pages: Vec<PageSlot>,
    ghost within: { first + vec_len pages ≤ 1024 },
}

/// Returns `count` unchanged pages.
fn untouched(alloc: Global, count: usize) -> Result<Vec<PageSlot>, AllocError>
    ensures { IfOk result (λ pages. pages.items ≡ replicate count (PageSlot.Blank RangeKind.NoAccess)) }
{
    let mut pages = Vec::with_capacity(alloc, count)?;
    for _i in 0..count {
        pages.push(PageSlot::Blank(RangeKind::NoAccess))?;
    }
    Ok(pages)
}

#[tactic(auto, unfolding(crate::specs::Directories::cells_under, crate::specs::Directories::cells_at, crate::specs::Directories::page_at))]
impl Directory {
    ghost use Rattle.shadow_memory.specs.Marks.{blank};
    ghost use Rattle.shadow_memory.specs.Places.{changed_from};
    ghost use Rattle.shadow_memory.specs.Directories.{cells_at, cells_under, page_at};
    ghost use Rattle.shadow_memory.specs.Views.{cells_seen};
    ghost use Rattle.shadow_memory.specs.Edits.{change_of, count_of, each_of, Fits};

    /// Returns a directory of inaccessible zeros.
    pub(crate) fn new(alloc: Global) -> Directory
        ensures { cells_under result ≡ (λ a. blank RangeKind.NoAccess) }
    {
        Directory {
            first: 0,
            pages: Vec::new(alloc),
        }
    }

    /// Returns where the page with this number is kept, if it is.
    #[inline(always)]
    fn place(&self, number: usize) -> Option<usize>
        ensures some { IfSome result (λ place. (number ≡ self.now.first + place) × (place < vec_len self.now.pages)) }
        ensures none { IfNone result (page_at self.now number ≡ PageSlot.Blank RangeKind.NoAccess) }
    {
        if number < self.first {
            return None;
        }
        let place = number - self.first;
        if place < self.pages.len() {
            return Some(place);
        }
        None
    }

    /// Returns the number of the first kept page, from a number on; 1,024 if there is none.
    pub(crate) fn next_kept(&self, number: usize) -> usize
        requires { number ≤ 1024 }
        ensures after { number ≤ result }
        ensures within { result ≤ 1024 }
        ensures blank { (a : ℕ) → number ≤ a / page_len → a / page_len < result → cells_under self.now a ≡ blank RangeKind.NoAccess }
    {
        if number < self.first {
            return self.first;
        }
        if number - self.first < self.pages.len() {
            return number;
        }
        DIRECTORY_PAGES
    }

    /// Returns the page of a place, to read.
    #[inline(always)]
    pub(crate) fn view(&self, at: usize) -> View<'_>
        requires { at < 4194304 }
        ensures { (a : ℕ) → a / page_len ≡ at / page_len → cells_under self.now a ≡ cells_seen result (a % page_len) }
    {
        match self.place(at / PAGE) {
            Some(place) => self.pages[place].view(),
            None => View::Blank(RangeKind::NoAccess),
        }
    }

    /// Returns the page of a place, which the caller then holds too.
    pub(crate) fn slot(&self, at: usize) -> Result<PageSlot, AllocError>
        requires { at < 4194304 }
        ensures { IfOk result (λ slot. (a : ℕ) → a / page_len ≡ at / page_len → cells_under self.now a ≡ cells_at slot (a % page_len)) }
    {
        match self.place(at / PAGE) {
            Some(place) => Ok(self.pages[place].clone()?),
            None => Ok(PageSlot::Blank(RangeKind::NoAccess)),
        }
    }

    /// Returns whether the pages are those of another directory. May also return `false` for such pages, as it does if many are kept.
    pub(crate) fn is_same(&self, other: &Directory) -> bool
        ensures { IsTrue result → cells_under other.now ≡ cells_under self.now }
    {
        if self.first != other.first || self.pages.len() > MOST_COMPARED {
            return false;
        }
        are_same(&self.pages, &other.pages)
    }

    /// Stores bytes in one page, if no other memory shares it and the bytes there are all accessible. Returns whether it did.
    #[inline(always)]
    pub(crate) fn put(&mut self, at: usize, bytes: &[u8]) -> bool
        requires within { at < 4194304 }
        requires one_page { at % page_len + length bytes.now ≤ page_len }
        ensures done { IsTrue result → cells_under self.new ≡ changed_from (cells_under self.old) at (length bytes.now) (received (slice_index bytes.now)) }
        ensures whole { IsTrue result → (k : ℕ) → at ≤ k → k < at + length bytes.now → (cells_under self.old k).accessible ≡ true }
        ensures kept { IsFalse result → cells_under self.new ≡ cells_under self.old }
    {
        match self.place(at / PAGE) {
            Some(place) => self.pages[place].put(at % PAGE, bytes),
            None => false,
        }
    }

    /// Changes cells of one page, if no other memory shares it and that allocates nothing. Returns whether it did.
    #[inline(always)]
    pub(crate) fn change_own(&mut self, at: usize, edit: &PageEdit<'_>) -> bool
        requires within { at < 4194304 }
        requires one_page { at % page_len + count_of edit.now ≤ page_len }
        requires fits { Fits edit.now }
        ensures done { IsTrue result → cells_under self.new ≡ changed_from (cells_under self.old) at (count_of edit.now) (change_of edit.now) }
        ensures kept { IsFalse result → cells_under self.new ≡ cells_under self.old }
    {
        match self.place(at / PAGE) {
            Some(place) => self.pages[place].change_own(at % PAGE, edit),
            None => false,
        }
    }

    /// Keeps the pages from this one on, which is before the first.
    fn reach_down(&mut self, alloc: Global, number: usize) -> Result<(), AllocError>
        requires { number < self.old.first }
        ensures same { cells_under self.new ≡ cells_under self.old }
        ensures room { OnOk result ((self.new.first ≤ number) × (number < self.new.first + vec_len self.new.pages)) }
    {
        let mut pages = untouched(alloc, self.first - number)?;
        pages.append(&mut self.pages)?;
        self.pages = pages;
        self.first = number;
        Ok(())
    }

    /// Keeps the pages up to this one, which is after the last.
    fn reach_up(&mut self, alloc: Global, number: usize) -> Result<(), AllocError>
        requires within { number < 1024 }
        requires after { self.old.first + vec_len self.old.pages ≤ number }
        ensures same { cells_under self.new ≡ cells_under self.old }
        ensures room { OnOk result ((self.new.first ≤ number) × (number < self.new.first + vec_len self.new.pages)) }
    {
        let end = self.first + self.pages.len();
        let mut pages = untouched(alloc, number + 1 - end)?;
        self.pages.append(&mut pages)?;
        Ok(())
    }

    /// Makes this page the first that is kept, if none is.
    fn begin_with(&mut self, number: usize)
        requires { number < 1024 }
        ensures same { cells_under self.new ≡ cells_under self.old }
    {
        if self.pages.is_empty() {
            self.first = number;
        }
    }

    /// Keeps the page with this number, too.
    fn reach(&mut self, alloc: Global, number: usize) -> Result<(), AllocError>
        requires { number < 1024 }
        ensures same { cells_under self.new ≡ cells_under self.old }
        ensures room { OnOk result ((self.new.first ≤ number) × (number < self.new.first + vec_len self.new.pages)) }
    {
        self.begin_with(number);
        if number < self.first {
            return self.reach_down(alloc, number);
        }
        if number >= self.first + self.pages.len() {
            return self.reach_up(alloc, number);
        }
        Ok(())
    }

    /// Changes cells of one page.
    pub(crate) fn change(
        &mut self,
        alloc: Global,
        at: usize,
        edit: &PageEdit<'_>,
    ) -> Result<(), AllocError>
        requires within { at < 4194304 }
        requires one_page { at % page_len + count_of edit.now ≤ page_len }
        requires fits { Fits edit.now }
        ensures ok { OnOk result (cells_under self.new ≡ changed_from (cells_under self.old) at (count_of edit.now) (change_of edit.now)) }
        ensures err { OnErr result (cells_under self.new ≡ cells_under self.old) }
    {
        let number = at / PAGE;
        self.reach(alloc, number)?;
        let place = number - self.first;
        self.pages[place].change(alloc, at % PAGE, edit)
    }

    /// Changes each byte of blank pages, one page after another from a kept one on, at most `most` of them. Returns the number of pages.
    fn change_blank_pages(&mut self, place: usize, most: usize, each: Each) -> usize
        requires { place + most ≤ vec_len self.old.pages }
        ensures within { result ≤ most }
        ensures swept { cells_under self.new ≡ changed_from (cells_under self.old) (page_len * (self.old.first + place)) (page_len * result)
            (λ i cell. each_of each cell) }
    {
        for i in 0..most {
            if !self.pages[place + i].change_if_blank(each) {
                return i;
            }
        }
        most
    }

    /// Does the same from the page with a number on.
    fn change_blank(
        &mut self,
        alloc: Global,
        number: usize,
        most: usize,
        each: Each,
    ) -> Result<usize, AllocError>
        requires { number + most ≤ 1024 }
        ensures within { IfOk result (λ n. n ≤ most) }
        ensures ok { IfOk result (λ n. cells_under self.new ≡ changed_from (cells_under self.old) (page_len * number) (page_len * n)
            (λ i cell. each_of each cell)) }
        ensures err { OnErr result (cells_under self.new ≡ cells_under self.old) }
    {
        if most == 0 {
            return Ok(0);
        }
        self.reach(alloc, number + most - 1)?;
        self.reach(alloc, number)?;
        let place = number - self.first;
        let kept = self.pages.len() - place;
        Ok(self.change_blank_pages(place, most.min(kept), each))
    }

    /// Changes bytes of one page alike, at most `most` of them. Returns the number of bytes.
    #[tactic(auto, unfolding(crate::specs::Edits::count_of, crate::specs::Edits::change_of, crate::specs::Edits::Fits))]
    fn change_page(
        &mut self,
        alloc: Global,
        at: usize,
        most: usize,
        each: Each,
    ) -> Result<usize, AllocError>
        requires some { 0 < most }
        requires within { at < 4194304 }
        ensures some { IfOk result (λ n. 0 < n) }
        ensures within { IfOk result (λ n. n ≤ most) }
        ensures ok { IfOk result (λ n. cells_under self.new ≡ changed_from (cells_under self.old) at n (λ i cell. each_of each cell)) }
        ensures err { OnErr result (cells_under self.new ≡ cells_under self.old) }
    {
        let count = most.min(PAGE - at % PAGE);
        self.change(alloc, at, &PageEdit::All(count, each))?;
        Ok(count)
    }

    /// Changes bytes alike from a place on: those of blank pages, or some of one page. Returns the number of bytes.
    pub(crate) fn change_some(
        &mut self,
        alloc: Global,
        at: usize,
        most: usize,
        each: Each,
    ) -> Result<usize, AllocError>
        requires some { 0 < most }
        requires within { at + most ≤ 4194304 }
        ensures some { IfOk result (λ n. 0 < n) }
        ensures within { IfOk result (λ n. n ≤ most) }
        ensures ok { IfOk result (λ n. cells_under self.new ≡ changed_from (cells_under self.old) at n (λ i cell. each_of each cell)) }
        ensures err { OnErr result (cells_under self.new ≡ cells_under self.old) }
    {
        if at % PAGE != 0 {
            return self.change_page(alloc, at, most, each);
        }
        let count = self.change_blank(alloc, at / PAGE, most / PAGE, each)?;
        if count > 0 {
            return Ok(PAGE * count);
        }
        self.change_page(alloc, at, most, each)
    }
}

#[tactic(auto, unfolding(crate::specs::Directories::cells_under, crate::specs::Directories::cells_at))]
impl Clone for Directory {
    ghost use Rattle.std.specs.Prelude.{◌≡◌};
    ghost use Rattle.shadow_memory.specs.Directories.{cells_under};

    ghost is_clone = { λ directory copy. cells_under copy ≡ cells_under directory };

    fn clone(&self) -> Result<Directory, AllocError> {
        let pages = self.pages.clone()?;
        Ok(Directory {
            first: self.first,
            pages,
        })
    }
}
