//! A directory that may be blank, or shared.
ghost use Rattle.std.specs.Prelude.{◌≡◌, ℕ, ◌+◌, ◌/◌, ◌%◌, ◌<◌, ◌≤◌, true, IfOk, IsTrue, IsFalse, OnOk, OnErr, length, slice_index};
ghost use Rattle.shadow_memory.specs.Changes.{received};
ghost use Rattle.shadow_memory.specs.Marks.{blank};
ghost use Rattle.shadow_memory.specs.Directories.{cells_at};
ghost use Rattle.shadow_memory.specs.Edits.{change_of, count_of, each_of, Fits};
ghost use Rattle.shadow_memory.specs.Places.{changed_from, page_len, AgreeInDirectory};
ghost use Rattle.shadow_memory.specs.Views.{cells_seen};
ghost use Rattle.shadow_memory.specs.TopDirectories.{cells_below};

use crate::cells::RangeKind;
use crate::contents::HasCells;
use crate::directories::{DIRECTORY_PAGES, Directory};
use crate::edits::{Each, PageEdit};
use crate::slots::PageSlot;
use crate::views::View;
use std::alloc::{AllocError, Global};
use std::rc::Rc;

/// The number of bytes of a directory.
pub(crate) const DIRECTORY: usize = 4194304;

/// 1,024 pages, which may be blank, or shared.
#[derive(Drop)]
pub(crate) enum DirectorySlot {
    /// Inaccessible zeros.
    Blank,
    /// Pages, which other memories may hold too.
    Held(Rc<Directory>),
}

#[tactic(auto, unfolding(crate::specs::TopDirectories::cells_below, crate::specs::Views::cells_seen, crate::specs::Directories::cells_at))]
impl DirectorySlot {
    /// Returns the page of a place, to read.
    #[inline(always)]
    pub(crate) fn view(&self, at: usize) -> View<'_>
        requires { at < 4194304 }
        ensures { (a : ℕ) → a / page_len ≡ at / page_len → a < 4194304 → cells_below self.now a ≡ cells_seen result (a % page_len) }
    {
        match self {
            DirectorySlot::Blank => View::Blank(RangeKind::NoAccess),
            DirectorySlot::Held(directory) => directory.view(at),
        }
    }

    /// Returns the page of a place, which the caller then holds too.
    pub(crate) fn slot(&self, at: usize) -> Result<PageSlot, AllocError>
        requires { at < 4194304 }
        ensures { IfOk result (λ slot. (a : ℕ) → a / page_len ≡ at / page_len → a < 4194304 → cells_below self.now a ≡ cells_at slot (a % page_len)) }
    {
        match self {
            DirectorySlot::Blank => Ok(PageSlot::Blank(RangeKind::NoAccess)),
            DirectorySlot::Held(directory) => directory.slot(at),
        }
    }

    /// Returns whether it is blank.
    pub(crate) fn is_blank(&self) -> bool
        ensures { IsTrue result → self.now ≡ DirectorySlot.Blank }
    {
        matches!(self, DirectorySlot::Blank)
    }

    /// Returns the number of the first kept page, from a number on; 1,024 if there is none.
    pub(crate) fn next_kept(&self, number: usize) -> usize
        requires { number ≤ 1024 }
        ensures after { number ≤ result }
        ensures within { result ≤ 1024 }
        ensures blank { (a : ℕ) → number ≤ a / page_len → a / page_len < result → cells_below self.now a ≡ blank RangeKind.NoAccess }
    {
        match self {
            DirectorySlot::Blank => DIRECTORY_PAGES,
            DirectorySlot::Held(directory) => directory.next_kept(number),
        }
    }

    /// Stores bytes in one page, if no other memory shares it or the directory and the bytes there are all accessible.
    #[inline(always)]
    pub(crate) fn put(&mut self, at: usize, bytes: &[u8]) -> bool
        requires within { at < 4194304 }
        requires one_page { at % page_len + length bytes.now ≤ page_len }
        ensures done { IsTrue result → AgreeInDirectory (cells_below self.new)
            (changed_from (cells_below self.old) at (length bytes.now) (received (slice_index bytes.now))) }
        ensures whole { IsTrue result → (k : ℕ) → at ≤ k → k < at + length bytes.now → (cells_below self.old k).accessible ≡ true }
        ensures kept { IsFalse result → cells_below self.new ≡ cells_below self.old }
    {
        if let DirectorySlot::Held(shared) = self
            && let Some(own) = Rc::get_mut(shared)
        {
            return own.put(at, bytes);
        }
        false
    }

    /// Changes cells of one page, if no other memory shares it or the directory and that allocates nothing. Returns whether it did.
    #[inline(always)]
    pub(crate) fn change_own(&mut self, at: usize, edit: &PageEdit<'_>) -> bool
        requires within { at < 4194304 }
        requires one_page { at % page_len + count_of edit.now ≤ page_len }
        requires fits { Fits edit.now }
        ensures done { IsTrue result → AgreeInDirectory (cells_below self.new) (changed_from (cells_below self.old) at (count_of edit.now) (change_of edit.now)) }
        ensures kept { IsFalse result → cells_below self.new ≡ cells_below self.old }
    {
        if let DirectorySlot::Held(shared) = self
            && let Some(own) = Rc::get_mut(shared)
        {
            return own.change_own(at, edit);
        }
        false
    }

    /// Changes cells of one page, in a directory that no other memory shares.
    pub(crate) fn change(
        &mut self,
        alloc: Global,
        at: usize,
        edit: &PageEdit<'_>,
    ) -> Result<(), AllocError>
        requires within { at < 4194304 }
        requires one_page { at % page_len + count_of edit.now ≤ page_len }
        requires fits { Fits edit.now }
        ensures ok { OnOk result (AgreeInDirectory (cells_below self.new) (changed_from (cells_below self.old) at (count_of edit.now) (change_of edit.now))) }
        ensures err { OnErr result (AgreeInDirectory (cells_below self.new) (cells_below self.old)) }
    {
        match self {
            DirectorySlot::Held(shared) => {
                let own = Rc::make_mut(shared)?;
                own.change(alloc, at, edit)
            }
            DirectorySlot::Blank => {
                let mut directory = Directory::new(alloc);
                directory.change(alloc, at, edit)?;
                *self = DirectorySlot::Held(Rc::new(alloc, directory)?);
                Ok(())
            }
        }
    }

    /// Changes bytes alike from a place on, at most `most` of them, in a directory that no other memory shares. Returns the number of
    /// bytes.
    pub(crate) fn change_some(
        &mut self,
        alloc: Global,
        at: usize,
        most: usize,
        each: Each,
    ) -> Result<usize, AllocError>
        requires some { 0 < most }
        requires within { at + most ≤ 4194304 }
        ensures some { IfOk result (λ n. 0 < n) }
        ensures within { IfOk result (λ n. n ≤ most) }
        ensures ok { IfOk result (λ n. AgreeInDirectory (cells_below self.new) (changed_from (cells_below self.old) at n (λ i cell. each_of each cell))) }
        ensures err { OnErr result (AgreeInDirectory (cells_below self.new) (cells_below self.old)) }
    {
        match self {
            DirectorySlot::Held(shared) => {
                let own = Rc::make_mut(shared)?;
                own.change_some(alloc, at, most, each)
            }
            DirectorySlot::Blank => {
                let mut directory = Directory::new(alloc);
                let count = directory.change_some(alloc, at, most, each)?;
                *self = DirectorySlot::Held(Rc::new(alloc, directory)?);
                Ok(count)
            }
        }
    }
}

#[tactic(auto, unfolding(crate::specs::TopDirectories::cells_below))]
impl HasCells for DirectorySlot {
    ghost cells = { cells_below };

    fn is_same(&self, other: &DirectorySlot) -> bool {
        match (self, other) {
            (DirectorySlot::Blank, DirectorySlot::Blank) => true,
            (DirectorySlot::Held(directory), DirectorySlot::Held(another)) => {
                directory.is_same(another)
            }
            _ => false,
        }
    }
}

#[tactic(auto, unfolding(crate::specs::TopDirectories::cells_below))]
impl Clone for DirectorySlot {
    ghost is_clone = { λ slot copy. cells_below copy ≡ cells_below slot };

    fn clone(&self) -> Result<DirectorySlot, AllocError> {
        match self {
            DirectorySlot::Blank => Ok(DirectorySlot::Blank),
            DirectorySlot::Held(directory) => Ok(DirectorySlot::Held(directory.clone()?)),
        }
    }
}
