//! Changes of a page's accessible bytes and undefined bits.
ghost use Rattle.std.specs.Prelude.{◌≡◌, ◌+◌, ◌<◌, ◌≤◌, ℕ, true, OnOk, OnErr, IsTrue, IsFalse};
ghost use Rattle.shadow_memory.specs.Cells.{set_at};
ghost use Rattle.shadow_memory.specs.Marks.{defined, mark_of, taken, IsCleanMark};
ghost use Rattle.shadow_memory.specs.Places.{changed_from, is_between, page_len};
ghost use Rattle.shadow_memory.specs.Codes.{code_at};

use crate::cells::{ByteShadow, RangeKind, mark_of_kind};
use crate::marks::{Mixed, PageShadows};
use std::alloc::{AllocError, Global};

#[tactic(auto, unfolding(crate::specs::Pages::marks_in, crate::specs::Pages::AreWhole))]
impl PageShadows {
    ghost use Rattle.std.specs.Prelude.{if◌then◌else◌};
    ghost use Rattle.shadow_memory.specs.Pages.{marks_in, marks_mixed, AreWhole};
    ghost use Rattle.shadow_memory.specs.Places.{AgreeInPage};

    pub(crate) fn set(
        &mut self,
        alloc: Global,
        at: usize,
        mark: ByteShadow,
    ) -> Result<(), AllocError>
        requires within { at < page_len }
        requires clean { IsCleanMark mark }
        ensures ok { OnOk result (AgreeInPage (marks_in self.new) (set_at (marks_in self.old) at mark)) }
        ensures err { OnErr result (AgreeInPage (marks_in self.new) (marks_in self.old)) }
    {
        match self {
            PageShadows::Mixed(mixed) => mixed.set(at, mark),
            PageShadows::Uniform(kind) => {
                if mark_of_kind(*kind) == mark {
                    return Ok(());
                }
                let mut mixed = Mixed::filled(alloc, *kind)?;
                mixed.set(at, mark)?;
                *self = PageShadows::Mixed(mixed);
                Ok(())
            }
        }
    }

    /// Sets a mark, if that allocates nothing. Returns whether it did.
    pub(crate) fn set_held(&mut self, at: usize, mark: ByteShadow) -> bool
        requires within { at < page_len }
        requires clean { IsCleanMark mark }
        ensures done { IsTrue result → AgreeInPage (marks_in self.new) (set_at (marks_in self.old) at mark) }
        ensures kept { IsFalse result → self.new ≡ self.old }
    {
        match self {
            PageShadows::Uniform(kind) => mark_of_kind(*kind) == mark,
            PageShadows::Mixed(mixed) => mixed.set_whole(at, mark),
        }
    }

    // If each byte is of this kind, the marks are held as one again.
    fn fold(&mut self, kind: RangeKind)
        ensures { AgreeInPage (marks_in self.new) (marks_in self.old) }
    {
        if let PageShadows::Mixed(mixed) = self
            && mixed.are_all(kind)
        {
            *self = PageShadows::Uniform(kind);
        }
    }

    /// Makes the bits of the accessible bytes from one place up to, but not including, another defined.
    pub(crate) fn define(&mut self, alloc: Global, from: usize, to: usize) -> Result<(), AllocError>
        requires order { from ≤ to }
        requires within { to ≤ page_len }
        ensures ok { OnOk result (AgreeInPage (marks_in self.new) (λ k. if is_between from to k then defined (marks_in self.old k) else marks_in self.old k)) }
        ensures err { OnErr result (AgreeInPage (marks_in self.new) (marks_in self.old)) }
    {
        match self {
            PageShadows::Uniform(RangeKind::Undefined) => {
                self.make(alloc, from, to, RangeKind::Defined)
            }
            PageShadows::Uniform(_) => Ok(()),
            PageShadows::Mixed(mixed) => {
                mixed.define(from, to);
                Ok(())
            }
        }
    }

    /// Makes the bits of the bytes from one place up to, but not including, another defined, if all of them are accessible and their marks
    /// are held individually. Returns whether they are. Allocates nothing.
    pub(crate) fn define_accessible(&mut self, from: usize, to: usize) -> bool
        requires order { from ≤ to }
        requires within { to ≤ page_len }
        ensures done { IsTrue result → AgreeInPage (marks_in self.new) (λ k. if is_between from to k then defined (marks_in self.old k) else marks_in self.old k) }
        ensures whole { IsTrue result → (k : ℕ) → from ≤ k → k < to → (marks_in self.old k).accessible ≡ true }
        ensures kept { IsFalse result → self.new ≡ self.old }
    {
        match self {
            PageShadows::Uniform(_) => false,
            PageShadows::Mixed(mixed) => mixed.define_accessible(from, to),
        }
    }

    /// Gives the accessible bytes from one place up to, but not including, another the undefined bits with which a byte of a kind is
    /// loaded.
    pub(crate) fn take(
        &mut self,
        alloc: Global,
        from: usize,
        to: usize,
        kind: RangeKind,
    ) -> Result<(), AllocError>
        requires order { from ≤ to }
        requires within { to ≤ page_len }
        ensures ok { OnOk result (AgreeInPage (marks_in self.new) (λ k.
            if is_between from to k then taken (mark_of kind) (marks_in self.old k) else marks_in self.old k)) }
        ensures err { OnErr result (AgreeInPage (marks_in self.new) (marks_in self.old)) }
    {
        let made = match kind {
            RangeKind::Undefined => RangeKind::Undefined,
            _ => RangeKind::Defined,
        };
        match self {
            PageShadows::Uniform(RangeKind::NoAccess) => Ok(()),
            PageShadows::Uniform(_) => self.make(alloc, from, to, made),
            PageShadows::Mixed(mixed) => {
                mixed.take(from, to, kind);
                self.fold(made);
                Ok(())
            }
        }
    }

    // Gives accessible bytes the undefined bits with which others are loaded, none of which is partly defined.
    fn copy_mixed(
        &mut self,
        alloc: Global,
        at: usize,
        source: &Mixed,
        from: usize,
        count: usize,
    ) -> Result<(), AllocError>
        requires room { at + count ≤ page_len }
        requires within { from + count ≤ page_len }
        requires whole { (k : ℕ) → from ≤ k → k < from + count → code_at source.now.codes k < 3 }
        ensures ok { OnOk result (AgreeInPage (marks_in self.new) (changed_from (marks_in self.old) at count
            (λ i mark. taken (marks_mixed source.now (from + i)) mark))) }
        ensures err { OnErr result (AgreeInPage (marks_in self.new) (marks_in self.old)) }
    {
        match self {
            PageShadows::Uniform(RangeKind::NoAccess) => Ok(()),
            PageShadows::Uniform(old) => {
                let mut mixed = Mixed::filled(alloc, *old)?;
                mixed.copy(at, source, from, count);
                *self = PageShadows::Mixed(mixed);
                Ok(())
            }
            PageShadows::Mixed(mixed) => {
                mixed.copy(at, source, from, count);
                Ok(())
            }
        }
    }

    /// Gives `count` accessible bytes the undefined bits with which others are loaded, none of which is partly defined.
    pub(crate) fn copy(
        &mut self,
        alloc: Global,
        at: usize,
        source: &PageShadows,
        from: usize,
        count: usize,
    ) -> Result<(), AllocError>
        requires room { at + count ≤ page_len }
        requires within { from + count ≤ page_len }
        requires whole { AreWhole source.now from (from + count) }
        ensures ok { OnOk result (AgreeInPage (marks_in self.new) (changed_from (marks_in self.old) at count
            (λ i mark. taken (marks_in source.now (from + i)) mark))) }
        ensures err { OnErr result (AgreeInPage (marks_in self.new) (marks_in self.old)) }
    {
        match source {
            PageShadows::Uniform(kind) => self.take(alloc, at, at + count, *kind),
            PageShadows::Mixed(mixed) => {
                self.copy_mixed(alloc, at, mixed, from, count)?;
                self.fold(RangeKind::Defined);
                Ok(())
            }
        }
    }

    /// Sets the marks from one place up to, but not including, another, if they are held individually. Returns whether they are. Allocates
    /// nothing.
    pub(crate) fn make_held(&mut self, from: usize, to: usize, kind: RangeKind) -> bool
        requires order { from ≤ to }
        requires within { to ≤ page_len }
        ensures done { IsTrue result → AgreeInPage (marks_in self.new) (λ k. if is_between from to k then mark_of kind else marks_in self.old k) }
        ensures kept { IsFalse result → self.new ≡ self.old }
    {
        match self {
            PageShadows::Uniform(_) => false,
            PageShadows::Mixed(mixed) => {
                mixed.make(from, to, kind);
                self.fold(kind);
                true
            }
        }
    }

    /// Does the same for the accessible bytes, which get the undefined bits with which a byte of a kind is loaded.
    pub(crate) fn take_held(&mut self, from: usize, to: usize, kind: RangeKind) -> bool
        requires order { from ≤ to }
        requires within { to ≤ page_len }
        ensures done { IsTrue result → AgreeInPage (marks_in self.new) (λ k.
            if is_between from to k then taken (mark_of kind) (marks_in self.old k) else marks_in self.old k) }
        ensures kept { IsFalse result → self.new ≡ self.old }
    {
        match self {
            PageShadows::Uniform(_) => false,
            PageShadows::Mixed(mixed) => {
                mixed.take(from, to, kind);
                self.fold(kind);
                true
            }
        }
    }

    /// Sets the marks from one place up to, but not including, another.
    pub(crate) fn make(
        &mut self,
        alloc: Global,
        from: usize,
        to: usize,
        kind: RangeKind,
    ) -> Result<(), AllocError>
        requires order { from ≤ to }
        requires within { to ≤ page_len }
        ensures ok { OnOk result (AgreeInPage (marks_in self.new) (λ k. if is_between from to k then mark_of kind else marks_in self.old k)) }
        ensures err { OnErr result (AgreeInPage (marks_in self.new) (marks_in self.old)) }
    {
        if from == 0 && to == 4096 {
            *self = PageShadows::Uniform(kind);
            return Ok(());
        }
        match self {
            PageShadows::Mixed(mixed) => {
                mixed.make(from, to, kind);
                self.fold(kind);
                Ok(())
            }
            PageShadows::Uniform(old) => {
                if *old == kind {
                    return Ok(());
                }
                let mut mixed = Mixed::filled(alloc, *old)?;
                mixed.make(from, to, kind);
                *self = PageShadows::Mixed(mixed);
                Ok(())
            }
        }
    }
}
