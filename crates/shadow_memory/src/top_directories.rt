//! A row of directories.
ghost use Rattle.std.specs.Prelude.{◌≡◌, ℕ, ◌+◌, ◌/◌, ◌%◌, ◌<◌, ◌≤◌, true, IfOk, IsTrue, IsFalse, OnOk, OnErr, length, slice_index, vec_len};

use crate::cells::RangeKind;
use crate::contents::{HasCells, are_same};
use crate::directories::DIRECTORY_PAGES;
use crate::directory_slots::{DIRECTORY, DirectorySlot};
use crate::edits::{Each, PageEdit};
use crate::slots::PageSlot;
use crate::views::View;
use std::alloc::{AllocError, Global};

/// The number of directories of a top directory.
const DIRECTORIES: usize = 32;

/// The number of pages of a top directory.
pub(crate) const TOP_PAGES: usize = DIRECTORIES * DIRECTORY_PAGES;

/// The number of bytes of a top directory.
pub(crate) const TOP_SIZE: usize = 134217728;

/// 32 directories in a row.
#[derive(Drop)]
pub(crate) struct TopDirectory {
    // Directories from the end of this list on are blank.
    directories: Vec<DirectorySlot>,
    ghost within: { vec_len directories ≤ 32 },
}

#[tactic(auto, unfolding(crate::specs::TopDirectories::cells_on, crate::specs::TopDirectories::cells_below, crate::specs::Views::cells_seen, crate::specs::Directories::cells_at))]
impl TopDirectory {
    ghost use Rattle.shadow_memory.specs.Directories.{cells_at};
    ghost use Rattle.shadow_memory.specs.Edits.{change_of, count_of, each_of, Fits};
    ghost use Rattle.shadow_memory.specs.Marks.{blank};
    ghost use Rattle.shadow_memory.specs.Places.{changed_from, page_len};
    ghost use Rattle.shadow_memory.specs.Views.{cells_seen};
    ghost use Rattle.shadow_memory.specs.TopDirectories.{cells_on};
    ghost use Rattle.shadow_memory.specs.Changes.{received};

    /// Returns a top directory of inaccessible zeros.
    pub(crate) fn new(alloc: Global) -> TopDirectory
        ensures { cells_on result ≡ (λ a. blank RangeKind.NoAccess) }
    {
        TopDirectory {
            directories: Vec::new(alloc),
        }
    }

    /// Returns the page of a place, to read.
    #[inline(always)]
    pub(crate) fn view(&self, at: usize) -> View<'_>
        requires { at < 134217728 }
        ensures { (a : ℕ) → a / page_len ≡ at / page_len → cells_on self.now a ≡ cells_seen result (a % page_len) }
    {
        let number = at / DIRECTORY;
        if number < self.directories.len() {
            self.directories[number].view(at % DIRECTORY)
        } else {
            View::Blank(RangeKind::NoAccess)
        }
    }

    /// Returns the page of a place, which the caller then holds too.
    pub(crate) fn slot(&self, at: usize) -> Result<PageSlot, AllocError>
        requires { at < 134217728 }
        ensures { IfOk result (λ slot. (a : ℕ) → a / page_len ≡ at / page_len → cells_on self.now a ≡ cells_at slot (a % page_len)) }
    {
        let number = at / DIRECTORY;
        if number < self.directories.len() {
            self.directories[number].slot(at % DIRECTORY)
        } else {
            Ok(PageSlot::Blank(RangeKind::NoAccess))
        }
    }

    /// Returns a number, from this one on, below which no page from this one on is kept; 32,768 at most.
    pub(crate) fn next_kept(&self, number: usize) -> usize
        requires { number < 32768 }
        ensures after { number ≤ result }
        ensures within { result ≤ 32768 }
        ensures blank { (a : ℕ) → number ≤ a / page_len → a / page_len < result → cells_on self.now a ≡ blank RangeKind.NoAccess }
    {
        let first = number / DIRECTORY_PAGES;
        let mut directory = first;
        while directory < self.directories.len() && self.directories[directory].is_blank() {
            directory += 1;
        }
        if first < directory {
            return directory * DIRECTORY_PAGES;
        }
        if directory < self.directories.len() {
            return directory * DIRECTORY_PAGES
                + self.directories[directory].next_kept(number % DIRECTORY_PAGES);
        }
        TOP_PAGES
    }

    // Makes room for the directory of a number.
    fn grow(&mut self, number: usize) -> Result<(), AllocError>
        requires { number < 32 }
        ensures same { cells_on self.new ≡ cells_on self.old }
        ensures room { OnOk result (number < vec_len self.new.directories) }
    {
        for _i in self.directories.len()..number + 1 {
            self.directories.push(DirectorySlot::Blank)?;
        }
        Ok(())
    }

    /// Stores bytes in one page, if no other memory shares it or its directory and the bytes there are all accessible. Returns whether it
    /// did.
    #[inline(always)]
    pub(crate) fn put(&mut self, at: usize, bytes: &[u8]) -> bool
        requires within { at < 134217728 }
        requires one_page { at % page_len + length bytes.now ≤ page_len }
        ensures done { IsTrue result → cells_on self.new ≡ changed_from (cells_on self.old) at (length bytes.now) (received (slice_index bytes.now)) }
        ensures whole { IsTrue result → (k : ℕ) → at ≤ k → k < at + length bytes.now → (cells_on self.old k).accessible ≡ true }
        ensures kept { IsFalse result → cells_on self.new ≡ cells_on self.old }
    {
        let number = at / DIRECTORY;
        number < self.directories.len() && self.directories[number].put(at % DIRECTORY, bytes)
    }

    /// Changes cells of one page, if no other memory shares it or its directory and that allocates nothing. Returns whether it did.
    #[inline(always)]
    pub(crate) fn change_own(&mut self, at: usize, edit: &PageEdit<'_>) -> bool
        requires within { at < 134217728 }
        requires one_page { at % page_len + count_of edit.now ≤ page_len }
        requires fits { Fits edit.now }
        ensures done { IsTrue result → cells_on self.new ≡ changed_from (cells_on self.old) at (count_of edit.now) (change_of edit.now) }
        ensures kept { IsFalse result → cells_on self.new ≡ cells_on self.old }
    {
        let number = at / DIRECTORY;
        number < self.directories.len() && self.directories[number].change_own(at % DIRECTORY, edit)
    }

    /// Changes cells of one page, all of them or none.
    pub(crate) fn change(
        &mut self,
        alloc: Global,
        at: usize,
        edit: &PageEdit<'_>,
    ) -> Result<(), AllocError>
        requires within { at < 134217728 }
        requires one_page { at % page_len + count_of edit.now ≤ page_len }
        requires fits { Fits edit.now }
        ensures ok { OnOk result (cells_on self.new ≡ changed_from (cells_on self.old) at (count_of edit.now) (change_of edit.now)) }
        ensures err { OnErr result (cells_on self.new ≡ cells_on self.old) }
    {
        let number = at / DIRECTORY;
        self.grow(number)?;
        self.directories[number].change(alloc, at % DIRECTORY, edit)
    }

    /// Changes bytes of one directory alike from a place on, at least one and at most `most`. Returns the number of bytes.
    pub(crate) fn change_some(
        &mut self,
        alloc: Global,
        at: usize,
        most: usize,
        each: Each,
    ) -> Result<usize, AllocError>
        requires some { 0 < most }
        requires within { at + most ≤ 134217728 }
        ensures some { IfOk result (λ n. 0 < n) }
        ensures within { IfOk result (λ n. n ≤ most) }
        ensures ok { IfOk result (λ n. cells_on self.new ≡ changed_from (cells_on self.old) at n (λ i cell. each_of each cell)) }
        ensures err { OnErr result (cells_on self.new ≡ cells_on self.old) }
    {
        let number = at / DIRECTORY;
        let place = at % DIRECTORY;
        self.grow(number)?;
        self.directories[number].change_some(alloc, place, most.min(DIRECTORY - place), each)
    }
}

#[tactic(auto, unfolding(crate::specs::TopDirectories::cells_on))]
impl HasCells for TopDirectory {
    ghost use Rattle.shadow_memory.specs.TopDirectories.{cells_on};

    ghost cells = { cells_on };

    fn is_same(&self, other: &TopDirectory) -> bool {
        are_same(&self.directories, &other.directories)
    }
}

#[tactic(auto, unfolding(crate::specs::TopDirectories::cells_on))]
impl Clone for TopDirectory {
    ghost use Rattle.std.specs.Prelude.{◌≡◌};
    ghost use Rattle.shadow_memory.specs.TopDirectories.{cells_on};

    ghost is_clone = { λ top copy. cells_on copy ≡ cells_on top };

    fn clone(&self) -> Result<TopDirectory, AllocError> {
        let directories = self.directories.clone()?;
        Ok(TopDirectory { directories })
    }
}
