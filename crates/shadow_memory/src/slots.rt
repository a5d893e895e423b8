//! A page that may be blank, or shared.
ghost use Rattle.std.specs.Prelude.{◌≡◌, ℕ, ◌+◌, ◌<◌, ◌≤◌, true, IfSome, IsTrue, IsFalse, OnOk, OnErr, length, slice_index};
ghost use Rattle.shadow_memory.specs.Changes.{received};
ghost use Rattle.shadow_memory.specs.Places.{changed_from, page_len, AgreeInPage};
ghost use Rattle.shadow_memory.specs.Directories.{cells_at};
ghost use Rattle.shadow_memory.specs.Views.{cells_seen};
ghost use Rattle.shadow_memory.specs.Edits.{change_of, count_of, each_of, Fits, LeavesBlank};
ghost use Rattle.shadow_memory.specs.Marks.{blank};
ghost use Rattle.shadow_memory.specs.Pages.{cells_in};

use crate::cells::RangeKind;
use crate::contents::HasCells;
use crate::edits::{Each, PageEdit};
use crate::pages::{PAGE, Page};
use crate::views::View;
use std::alloc::{AllocError, Global};
use std::rc::Rc;

/// One page of a directory.
#[derive(Drop)]
pub(crate) enum PageSlot {
    /// Zeros, all of one kind.
    Blank(RangeKind),
    /// A page, which other memories may hold too.
    Held(Rc<Page>),
}

// Returns the kind that a blank page has after a change, if it stays blank.
#[tactic(auto, unfolding(crate::specs::Edits::count_of, crate::specs::Edits::change_of))]
fn blank_after(old: RangeKind, edit: &PageEdit<'_>) -> Option<RangeKind>
    ensures { IfSome result (LeavesBlank old edit.now) }
{
    match edit {
        PageEdit::All(count, each) => {
            let new = each.kind_after(old);
            if *count == PAGE || new == old {
                Some(new)
            } else {
                None
            }
        }
        PageEdit::Fill(PAGE, []) => Some(RangeKind::Defined),
        _ => None,
    }
}

// Returns the kind of a page after a change of all of it, if it is known to be zeros of one kind.
#[tactic(auto, unfolding(crate::specs::Edits::count_of, crate::specs::Edits::change_of, crate::specs::Edits::each_of))]
fn cleared_by(page: &Page, edit: &PageEdit<'_>) -> Option<RangeKind>
    ensures whole { IfSome result (λ kind. count_of edit.now ≡ page_len) }
    ensures zeros { IfSome result (λ kind. (k : ℕ) → k < page_len → change_of edit.now k (cells_in page.now k) ≡ blank kind) }
{
    match edit {
        PageEdit::All(PAGE, each) => page.cleared(*each),
        PageEdit::Fill(PAGE, []) => Some(RangeKind::Defined),
        _ => None,
    }
}

#[tactic(auto, unfolding(crate::specs::Directories::cells_at, crate::specs::Views::cells_seen, crate::specs::Edits::count_of, crate::specs::Edits::change_of))]
impl PageSlot {
    /// Returns the page, to read.
    #[inline(always)]
    pub(crate) fn view(&self) -> View<'_>
        ensures { cells_seen result ≡ cells_at self.now }
    {
        match self {
            PageSlot::Blank(kind) => View::Blank(*kind),
            PageSlot::Held(page) => View::Held(page),
        }
    }

    /// Stores bytes from a place on, if no other memory shares the page and the bytes there are all accessible. Returns whether it did.
    #[inline(always)]
    pub(crate) fn put(&mut self, at: usize, bytes: &[u8]) -> bool
        requires { at + length bytes.now ≤ page_len }
        ensures done { IsTrue result → AgreeInPage (cells_at self.new)
            (changed_from (cells_at self.old) at (length bytes.now) (received (slice_index bytes.now))) }
        ensures whole { IsTrue result → (k : ℕ) → at ≤ k → k < at + length bytes.now → (cells_at self.old k).accessible ≡ true }
        ensures kept { IsFalse result → cells_at self.new ≡ cells_at self.old }
    {
        if let PageSlot::Held(shared) = self
            && let Some(own) = Rc::get_mut(shared)
        {
            return own.put(at, bytes);
        }
        false
    }

    /// Changes cells from a place on, if no other memory shares the page and that allocates nothing. Returns whether it did.
    #[inline(always)]
    pub(crate) fn change_own(&mut self, at: usize, edit: &PageEdit<'_>) -> bool
        requires within { at + count_of edit.now ≤ page_len }
        requires fits { Fits edit.now }
        ensures done { IsTrue result → AgreeInPage (cells_at self.new) (changed_from (cells_at self.old) at (count_of edit.now) (change_of edit.now)) }
        ensures kept { IsFalse result → cells_at self.new ≡ cells_at self.old }
    {
        if let PageSlot::Held(shared) = self
            && let Some(own) = Rc::get_mut(shared)
        {
            return own.change_own(at, edit);
        }
        false
    }

    /// Changes each byte of a blank page. Returns whether it was one.
    pub(crate) fn change_if_blank(&mut self, each: Each) -> bool
        ensures done { IsTrue result → cells_at self.new ≡ (λ k. each_of each (cells_at self.old k)) }
        ensures kept { IsFalse result → cells_at self.new ≡ cells_at self.old }
    {
        match self {
            PageSlot::Blank(old) => {
                *self = PageSlot::Blank(each.kind_after(*old));
                true
            }
            PageSlot::Held(_) => false,
        }
    }

    /// Changes cells from a place on, in a page that no other memory shares.
    pub(crate) fn change(
        &mut self,
        alloc: Global,
        at: usize,
        edit: &PageEdit<'_>,
    ) -> Result<(), AllocError>
        requires within { at + count_of edit.now ≤ page_len }
        requires fits { Fits edit.now }
        ensures ok { OnOk result (AgreeInPage (cells_at self.new) (changed_from (cells_at self.old) at (count_of edit.now) (change_of edit.now))) }
        ensures err { OnErr result (AgreeInPage (cells_at self.new) (cells_at self.old)) }
    {
        match self {
            PageSlot::Held(shared) => {
                if let Some(kind) = cleared_by(shared, edit) {
                    *self = PageSlot::Blank(kind);
                    return Ok(());
                }
                let own = Rc::make_mut(shared)?;
                own.change(alloc, at, edit)
            }
            PageSlot::Blank(old) => {
                if let Some(kind) = blank_after(*old, edit) {
                    *self = PageSlot::Blank(kind);
                    return Ok(());
                }
                let mut page = Page::new(alloc, *old)?;
                page.change(alloc, at, edit)?;
                *self = PageSlot::Held(Rc::new(alloc, page)?);
                Ok(())
            }
        }
    }
}

#[tactic(auto, unfolding(crate::specs::Directories::cells_at))]
impl HasCells for PageSlot {
    ghost cells = { cells_at };

    fn is_same(&self, other: &PageSlot) -> bool {
        match (self, other) {
            (PageSlot::Blank(kind), PageSlot::Blank(another)) => *kind == *another,
            (PageSlot::Held(page), PageSlot::Held(another)) => page.is_same(another),
            _ => false,
        }
    }
}

#[tactic(auto, unfolding(crate::specs::Directories::cells_at))]
impl Clone for PageSlot {
    ghost is_clone = { λ slot copy. cells_at copy ≡ cells_at slot };

    fn clone(&self) -> Result<PageSlot, AllocError> {
        match self {
            PageSlot::Blank(kind) => Ok(PageSlot::Blank(*kind)),
            PageSlot::Held(page) => Ok(PageSlot::Held(page.clone()?)),
        }
    }
}
