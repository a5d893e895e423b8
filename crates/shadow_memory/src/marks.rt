//! The accessible bytes of a page, and their undefined bits.
ghost use Rattle.std.specs.Prelude.{◌≡◌, ◌+◌, ◌%◌, ◌<◌, ◌≤◌, ℕ, true, OnOk, OnErr, IfOk, IfNone, IfSome, IsTrue, IsFalse, not};
ghost use Rattle.shadow_memory.specs.Firsts.{IsFirst, NonePass};
ghost use Rattle.shadow_memory.specs.Shadows.{holds_word, is_bad, HoldNoWord, IsNextWord};
ghost use Rattle.shadow_memory.specs.Cells.{set_at};
ghost use Rattle.shadow_memory.specs.Marks.{defined, mark_of, shadow_of_mark, taken, IsCleanMark};
ghost use Rattle.shadow_memory.specs.Places.{changed_from, is_between, page_len};
ghost use Rattle.shadow_memory.specs.Codes.{code_at};

use crate::cells::{ByteShadow, RangeKind, is_bad_mark, mark_of_kind};
use crate::codes::{
    Codes, DEFINED, NO_ACCESS, PARTLY, UNDEFINED, code_of_kind, kind_of_code, loaded_code,
};
use crate::pages::PAGE;
use std::alloc::{AllocError, Global};
use std::collections::BTreeMap;

/// Marks that differ: two bits for each byte, and the undefined bits of the partly defined bytes.
#[derive(Drop)]
pub(crate) struct Mixed {
    codes: Codes,
    partly: BTreeMap<u16, u8>,
}

/// The marks of a page.
#[derive(Drop)]
pub(crate) enum PageShadows {
    Uniform(RangeKind),
    Mixed(Mixed),
}

/// Returns the first multiple of 4, from `from` on, that has four accessible and defined bytes, if all bytes are of one kind.
pub(crate) fn next_word_of(kind: RangeKind, from: usize) -> Option<usize>
    requires within { from ≤ page_len }
    requires aligned { from % 4 ≡ 0 }
    ensures none { IfNone result (HoldNoWord (λ k. shadow_of_mark (mark_of kind)) from page_len) }
    ensures some { IfSome result (IsNextWord (λ k. shadow_of_mark (mark_of kind)) from) }
    ensures inside { IfSome result (λ at. at < page_len) }
{
    if from < PAGE && kind == RangeKind::Defined {
        Some(from)
    } else {
        None
    }
}

/// Returns the first bad byte, if all bytes are of one kind.
pub(crate) fn first_bad_of(
    kind: RangeKind,
    from: usize,
    to: usize,
    need_defined: bool,
) -> Option<usize>
    requires { from ≤ to }
    ensures none { IfNone result (NonePass (λ k. is_bad need_defined (shadow_of_mark (mark_of kind))) from to) }
    ensures some { IfSome result (IsFirst (λ k. is_bad need_defined (shadow_of_mark (mark_of kind))) from to) }
{
    if from < to && is_bad_mark(mark_of_kind(kind), need_defined) {
        Some(from)
    } else {
        None
    }
}

#[tactic(auto, unfolding(crate::specs::Pages::marks_mixed))]
impl Mixed {
    ghost use Rattle.std.specs.Prelude.{if◌then◌else◌};
    ghost use Rattle.shadow_memory.specs.Pages.{marks_mixed};
    ghost use Rattle.shadow_memory.specs.Places.{Agree, AgreeInPage};

    pub(crate) fn filled(alloc: Global, kind: RangeKind) -> Result<Mixed, AllocError>
        ensures { IfOk result (λ mixed. (at : ℕ) → at < page_len → marks_mixed mixed at ≡ mark_of kind) }
    {
        let codes = Codes::filled(alloc, code_of_kind(kind))?;
        Ok(Mixed {
            codes,
            partly: BTreeMap::new(alloc),
        })
    }

    fn mark(&self, at: usize) -> ByteShadow
        requires { at < page_len }
        ensures value { result ≡ marks_mixed self.now at }
        ensures clean { IsCleanMark result }
    {
        match self.codes.code(at) {
            NO_ACCESS => ByteShadow {
                accessible: false,
                undef: 0,
            },
            UNDEFINED => ByteShadow {
                accessible: true,
                undef: 255,
            },
            DEFINED => ByteShadow {
                accessible: true,
                undef: 0,
            },
            _ => ByteShadow {
                accessible: true,
                undef: self.partly.get(&(at as u16)).copied().unwrap_or(0),
            },
        }
    }

    /// Sets a mark, if it isn't that of a partly defined byte. Returns whether it did.
    pub(crate) fn set_whole(&mut self, at: usize, mark: ByteShadow) -> bool
        requires within { at < page_len }
        requires clean { IsCleanMark mark }
        ensures done { IsTrue result → (k : ℕ) → marks_mixed self.new k ≡ set_at (marks_mixed self.old) at mark k }
        ensures kept { IsFalse result → self.new ≡ self.old }
        ensures partly { IsFalse result → mark.accessible ≡ true }
    {
        if !mark.accessible {
            self.codes.set(at, NO_ACCESS);
        } else if mark.undef == 255 {
            self.codes.set(at, UNDEFINED);
        } else if mark.undef == 0 {
            self.codes.set(at, DEFINED);
        } else {
            return false;
        }
        true
    }

    /// Sets a mark. The side map is written first, which can fail. What it has of a byte that isn't partly defined is never read.
    pub(crate) fn set(&mut self, at: usize, mark: ByteShadow) -> Result<(), AllocError>
        requires within { at < page_len }
        requires clean { IsCleanMark mark }
        ensures ok { OnOk result ((k : ℕ) → marks_mixed self.new k ≡ set_at (marks_mixed self.old) at mark k) }
        ensures err { OnErr result ((k : ℕ) → marks_mixed self.new k ≡ marks_mixed self.old k) }
    {
        if !self.set_whole(at, mark) {
            self.partly.insert(at as u16, mark.undef)?;
            self.codes.set(at, PARTLY);
        }
        Ok(())
    }

    /// Sets the marks from one place up to, but not including, another.
    pub(crate) fn make(&mut self, from: usize, to: usize, kind: RangeKind)
        requires order { from ≤ to }
        requires within { to ≤ page_len }
        ensures { Agree (marks_mixed self.new) (λ k. if is_between from to k then mark_of kind else marks_mixed self.old k) }
    {
        self.codes.make(from, to, code_of_kind(kind));
    }

    // Returns whether the bytes from one place up to, but not including, another are all accessible and defined. May also return `false`
    // for such bytes.
    #[inline(always)]
    fn are_defined(&self, from: usize, to: usize) -> bool
        requires order { from ≤ to }
        requires within { to ≤ page_len }
        ensures { IsTrue result → (k : ℕ) → from ≤ k → k < to → marks_mixed self.now k ≡ mark_of RangeKind.Defined }
    {
        self.codes.are_all_between(from, to, DEFINED)
    }

    // Returns whether they are all accessible, with all bits undefined. May also return `false` for such bytes.
    #[inline(always)]
    fn are_undefined(&self, from: usize, to: usize) -> bool
        requires order { from ≤ to }
        requires within { to ≤ page_len }
        ensures { IsTrue result → (k : ℕ) → from ≤ k → k < to → marks_mixed self.now k ≡ mark_of RangeKind.Undefined }
    {
        self.codes.are_all_between(from, to, UNDEFINED)
    }

    /// Makes the bits of the accessible bytes defined.
    pub(crate) fn define(&mut self, from: usize, to: usize)
        requires order { from ≤ to }
        requires within { to ≤ page_len }
        ensures { Agree (marks_mixed self.new) (λ k. if is_between from to k then defined (marks_mixed self.old k) else marks_mixed self.old k) }
    {
        if !self.are_defined(from, to) {
            self.take(from, to, RangeKind::Defined);
        }
    }

    /// Makes the bits of bytes defined, if all the bytes are accessible. Returns whether they are.
    pub(crate) fn define_accessible(&mut self, from: usize, to: usize) -> bool
        requires order { from ≤ to }
        requires within { to ≤ page_len }
        ensures done { IsTrue result → Agree (marks_mixed self.new) (λ k. if is_between from to k then defined (marks_mixed self.old k) else marks_mixed self.old k) }
        ensures whole { IsTrue result → (k : ℕ) → from ≤ k → k < to → (marks_mixed self.old k).accessible ≡ true }
        ensures kept { IsFalse result → self.new ≡ self.old }
    {
        if self.codes.take_word(from, to, DEFINED) {
            return true;
        }
        if !self.codes.are_accessible(from, to) {
            return false;
        }
        self.codes.make(from, to, DEFINED);
        true
    }

    /// Gives the accessible bytes the undefined bits with which a byte of a kind is loaded.
    pub(crate) fn take(&mut self, from: usize, to: usize, kind: RangeKind)
        requires order { from ≤ to }
        requires within { to ≤ page_len }
        ensures { Agree (marks_mixed self.new) (λ k. if is_between from to k then taken (mark_of kind) (marks_mixed self.old k) else marks_mixed self.old k) }
    {
        self.codes.take(from, to, loaded_code(code_of_kind(kind)));
    }

    /// Gives the accessible bytes the undefined bits with which others are loaded, none of which is partly defined.
    pub(crate) fn copy(&mut self, at: usize, source: &Mixed, from: usize, count: usize)
        requires room { at + count ≤ page_len }
        requires within { from + count ≤ page_len }
        requires whole { (k : ℕ) → from ≤ k → k < from + count → code_at source.now.codes k < 3 }
        ensures { Agree (marks_mixed self.new) (changed_from (marks_mixed self.old) at count (λ i mark. taken (marks_mixed source.now (from + i)) mark)) }
    {
        self.codes.copy(at, &source.codes, from, count);
    }

    // Returns the kind of the bytes from one place up to, but not including, another, if they are of one.
    fn kind(&self, from: usize, to: usize) -> Option<RangeKind>
        requires order { from < to }
        requires within { to ≤ page_len }
        ensures { IfSome result (λ kind. (k : ℕ) → from ≤ k → k < to → marks_mixed self.now k ≡ mark_of kind) }
    {
        let kind = kind_of_code(self.codes.code(from))?;
        if self.codes.run(from, to) == to {
            Some(kind)
        } else {
            None
        }
    }

    // Returns the first bad byte from one place up to, but not including, another. A scan skips defined bytes.
    fn first_bad(&self, from: usize, to: usize, need_defined: bool) -> Option<usize>
        requires order { from ≤ to }
        requires within { to ≤ page_len }
        ensures none { IfNone result (NonePass (λ k. is_bad need_defined (shadow_of_mark (marks_mixed self.now k))) from to) }
        ensures some { IfSome result (IsFirst (λ k. is_bad need_defined (shadow_of_mark (marks_mixed self.now k))) from to) }
    {
        let start = if from % 4 == 0 {
            self.codes.skip(from, DEFINED).min(to)
        } else {
            from
        };
        for at in start..to {
            if is_bad_mark(self.mark(at), need_defined) {
                return Some(at);
            }
        }
        None
    }

    // Returns whether 256 bytes, from a multiple of 4 on, are all inaccessible.
    #[inline(always)]
    fn are_inaccessible(&self, at: usize) -> bool
        requires aligned { at % 4 ≡ 0 }
        requires within { at + 256 ≤ page_len }
        ensures { IsTrue result → (k : ℕ) → at ≤ k → k < at + 256 → marks_mixed self.now k ≡ mark_of RangeKind.NoAccess }
    {
        self.codes.are_inaccessible(at)
    }

    // Returns whether four bytes are all accessible and defined.
    fn holds_word(&self, at: usize) -> bool
        requires { at + 4 ≤ page_len }
        ensures { result ≡ holds_word (λ k. shadow_of_mark (marks_mixed self.now k)) at }
    {
        !is_bad_mark(self.mark(at), true)
            && !is_bad_mark(self.mark(at + 1), true)
            && !is_bad_mark(self.mark(at + 2), true)
            && !is_bad_mark(self.mark(at + 3), true)
    }

    // Returns the first multiple of 4, from `from` on, that has four such bytes.
    fn next_word(&self, from: usize) -> Option<usize>
        requires within { from ≤ page_len }
        requires aligned { from % 4 ≡ 0 }
        ensures none { IfNone result (HoldNoWord (λ k. shadow_of_mark (marks_mixed self.now k)) from page_len) }
        ensures some { IfSome result (IsNextWord (λ k. shadow_of_mark (marks_mixed self.now k)) from) }
        ensures inside { IfSome result (λ at. at < page_len) }
    {
        for word in from / 4..PAGE / 4 {
            if self.holds_word(4 * word) {
                return Some(4 * word);
            }
        }
        None
    }

    /// Returns whether the marks are those of others. May also return `false` for such marks, if a byte was once partly defined.
    fn are_same(&self, others: &Mixed) -> bool
        ensures { IsTrue result → Agree (marks_mixed self.now) (marks_mixed others.now) }
    {
        self.codes.are_same(&others.codes) && self.partly == others.partly
    }

    /// Returns whether each byte is of this kind.
    pub(crate) fn are_all(&self, kind: RangeKind) -> bool
        ensures { IsTrue result → AgreeInPage (marks_mixed self.now) (λ k. mark_of kind) }
    {
        self.codes.are_all(code_of_kind(kind))
    }
}

#[tactic(auto, unfolding(crate::specs::Pages::marks_mixed))]
impl Clone for Mixed {
    ghost use Rattle.shadow_memory.specs.Pages.{marks_mixed};
    ghost use Rattle.shadow_memory.specs.Places.{Agree};

    ghost is_clone = { λ mixed copy. Agree (marks_mixed copy) (marks_mixed mixed) };

    fn clone(&self) -> Result<Mixed, AllocError> {
        let codes = self.codes.clone()?;
        let partly = self.partly.clone()?;
        Ok(Mixed { codes, partly })
    }
}

#[tactic(auto, unfolding(crate::specs::Pages::marks_in))]
impl Clone for PageShadows {
    ghost use Rattle.shadow_memory.specs.Pages.{marks_in};
    ghost use Rattle.shadow_memory.specs.Places.{Agree};

    ghost is_clone = { λ marks copy. Agree (marks_in copy) (marks_in marks) };

    fn clone(&self) -> Result<PageShadows, AllocError> {
        match self {
            PageShadows::Uniform(kind) => Ok(PageShadows::Uniform(*kind)),
            PageShadows::Mixed(mixed) => Ok(PageShadows::Mixed(mixed.clone()?)),
        }
    }
}

#[tactic(auto, unfolding(crate::specs::Pages::marks_in, crate::specs::Pages::AreWhole))]
impl PageShadows {
    ghost use Rattle.std.specs.Prelude.{if◌then◌else◌};
    ghost use Rattle.shadow_memory.specs.Pages.{marks_in, marks_mixed, AreWhole};
    ghost use Rattle.shadow_memory.specs.Places.{Agree, AgreeInPage};

    pub(crate) fn mark(&self, at: usize) -> ByteShadow
        requires { at < page_len }
        ensures value { result ≡ marks_in self.now at }
        ensures clean { IsCleanMark result }
    {
        match self {
            PageShadows::Uniform(kind) => mark_of_kind(*kind),
            PageShadows::Mixed(mixed) => mixed.mark(at),
        }
    }

    /// Returns whether the marks are those of others. May also return `false` for such marks, if they are kept in other ways.
    pub(crate) fn are_same(&self, others: &PageShadows) -> bool
        ensures { IsTrue result → Agree (marks_in self.now) (marks_in others.now) }
    {
        match (self, others) {
            (PageShadows::Uniform(kind), PageShadows::Uniform(other)) => *kind == *other,
            (PageShadows::Mixed(mixed), PageShadows::Mixed(other)) => mixed.are_same(other),
            _ => false,
        }
    }

    /// Returns whether four bytes are all accessible and defined.
    pub(crate) fn holds_word(&self, at: usize) -> bool
        requires { at + 4 ≤ page_len }
        ensures { result ≡ holds_word (λ k. shadow_of_mark (marks_in self.now k)) at }
    {
        match self {
            PageShadows::Uniform(kind) => !is_bad_mark(mark_of_kind(*kind), true),
            PageShadows::Mixed(mixed) => mixed.holds_word(at),
        }
    }

    /// Returns whether 256 bytes, from a multiple of 4 on, are all inaccessible.
    #[inline(always)]
    pub(crate) fn are_inaccessible(&self, at: usize) -> bool
        requires aligned { at % 4 ≡ 0 }
        requires within { at + 256 ≤ page_len }
        ensures { IsTrue result → (k : ℕ) → at ≤ k → k < at + 256 → marks_in self.now k ≡ mark_of RangeKind.NoAccess }
    {
        match self {
            PageShadows::Uniform(kind) => *kind == RangeKind::NoAccess,
            PageShadows::Mixed(mixed) => mixed.are_inaccessible(at),
        }
    }

    /// Returns the first multiple of 4, from `from` on, that has four accessible and defined bytes.
    pub(crate) fn next_word(&self, from: usize) -> Option<usize>
        requires within { from ≤ page_len }
        requires aligned { from % 4 ≡ 0 }
        ensures none { IfNone result (HoldNoWord (λ k. shadow_of_mark (marks_in self.now k)) from page_len) }
        ensures some { IfSome result (IsNextWord (λ k. shadow_of_mark (marks_in self.now k)) from) }
        ensures inside { IfSome result (λ at. at < page_len) }
    {
        match self {
            PageShadows::Uniform(kind) => next_word_of(*kind, from),
            PageShadows::Mixed(mixed) => mixed.next_word(from),
        }
    }

    /// Returns the first bad byte from one place up to, but not including, another.
    pub(crate) fn first_bad(&self, from: usize, to: usize, need_defined: bool) -> Option<usize>
        requires order { from ≤ to }
        requires within { to ≤ page_len }
        ensures none { IfNone result (NonePass (λ k. is_bad need_defined (shadow_of_mark (marks_in self.now k))) from to) }
        ensures some { IfSome result (IsFirst (λ k. is_bad need_defined (shadow_of_mark (marks_in self.now k))) from to) }
    {
        match self {
            PageShadows::Uniform(kind) => first_bad_of(*kind, from, to, need_defined),
            PageShadows::Mixed(mixed) => mixed.first_bad(from, to, need_defined),
        }
    }

    /// Returns whether the bytes from one place up to, but not including, another are all accessible and defined. May also return `false`
    /// for such bytes.
    #[inline(always)]
    pub(crate) fn are_defined(&self, from: usize, to: usize) -> bool
        requires order { from ≤ to }
        requires within { to ≤ page_len }
        ensures { IsTrue result → (k : ℕ) → from ≤ k → k < to → marks_in self.now k ≡ mark_of RangeKind.Defined }
    {
        match self {
            PageShadows::Uniform(kind) => *kind == RangeKind::Defined,
            PageShadows::Mixed(mixed) => mixed.are_defined(from, to),
        }
    }

    /// Returns whether they are all accessible, with all bits undefined. May also return `false` for such bytes.
    pub(crate) fn are_undefined(&self, from: usize, to: usize) -> bool
        requires order { from ≤ to }
        requires within { to ≤ page_len }
        ensures { IsTrue result → (k : ℕ) → from ≤ k → k < to → marks_in self.now k ≡ mark_of RangeKind.Undefined }
    {
        match self {
            PageShadows::Uniform(kind) => *kind == RangeKind::Undefined,
            PageShadows::Mixed(mixed) => mixed.are_undefined(from, to),
        }
    }

    /// Returns the first place, from `from` up to `to`, whose byte is partly defined, or `to` if there is none.
    pub(crate) fn whole_end(&self, from: usize, to: usize) -> usize
        requires order { from ≤ to }
        requires within { to ≤ page_len }
        ensures start { from ≤ result }
        ensures within { result ≤ to }
        ensures whole { AreWhole self.now from result }
    {
        match self {
            PageShadows::Uniform(_) => to,
            PageShadows::Mixed(mixed) => mixed.codes.whole_end(from, to),
        }
    }

    /// Returns the kind of the bytes from one place up to, but not including, another, if they are of one.
    pub(crate) fn kind(&self, from: usize, to: usize) -> Option<RangeKind>
        requires order { from < to }
        requires within { to ≤ page_len }
        ensures { IfSome result (λ kind. (k : ℕ) → from ≤ k → k < to → marks_in self.now k ≡ mark_of kind) }
    {
        match self {
            PageShadows::Uniform(kind) => Some(*kind),
            PageShadows::Mixed(mixed) => mixed.kind(from, to),
        }
    }
}
