//! One page of 4,096 bytes.
ghost use Rattle.std.specs.Prelude.{◌≡◌, ℕ, ◌+◌, ◌*◌, ◌%◌, ◌^◌, ◌<◌, ◌≤◌, true, None, OnOk, OnErr, IfOk, IfNone, IfSome, IsTrue, IsFalse, length, nat_lt, slice_index, vec_len};
ghost use Rattle.shadow_memory.specs.Cells.{set_at, shadow_in, IsClean};
ghost use Rattle.shadow_memory.specs.Marks.{blank, mark_of, marked};
ghost use Rattle.shadow_memory.specs.Places.{changed_from, page_len, AgreeInPage};
ghost use Rattle.shadow_memory.specs.Changes.{IsWidth};
ghost use Rattle.shadow_memory.specs.Loads.{loaded_at};
ghost use Rattle.shadow_memory.specs.Ranges.{byte_of, little_word};
ghost use Rattle.shadow_memory.specs.Firsts.{IsFirst, NonePass};
ghost use Rattle.shadow_memory.specs.Shadows.{is_bad, HoldNoWord, IsNextWord};
ghost use Rattle.shadow_memory.specs.Values.{holds_in_range, HoldNoneInRange, IsNextInRange};
ghost use Rattle.shadow_memory.specs.Comparisons.{AreBytesOf, HaveBytesOf};

use crate::cells::{ByteShadow, Cell, Loaded, RangeKind, marked_cell};
use crate::edits::{Each, PageEdit};
use crate::laws::{all_are, are_same};
use crate::marks::PageShadows;
use crate::slices::{fill_at, set_all, write_at};
use crate::word_scans::{ROW, ROWS, row_has_none, rows_have_none};
use crate::words::{ABSENT, all_bits, loaded_from, may_lie_within, word, word_bytes};
use std::alloc::{AllocError, Global};

/// The number of bytes of a page.
pub(crate) const PAGE: usize = 4096;

/// The bytes of a page, and their marks.
#[derive(Drop)]
pub(crate) struct Page {
    bytes: Vec<u8>,
    marks: PageShadows,
    ghost long: { vec_len bytes ≡ page_len },
}

#[tactic(auto, unfolding(crate::specs::Pages::cells_in, crate::specs::Pages::marks_in, crate::specs::Edits::count_of, crate::specs::Edits::change_of, crate::specs::Edits::each_of, crate::specs::Edits::Fits, crate::specs::Loads::loaded_at, crate::specs::Ranges::little_word, crate::specs::Ranges::first_from))]
impl Page {
    ghost use Rattle.std.specs.Prelude.{if◌then◌else◌};
    ghost use Rattle.shadow_memory.specs.Places.{Agree, is_between};
    ghost use Rattle.shadow_memory.specs.Changes.{filled, ranged, received, taken_cell};
    ghost use Rattle.shadow_memory.specs.Edits.{change_of, count_of, each_of, Fits};
    ghost use Rattle.shadow_memory.specs.Pages.{cells_in, AreWhole};

    /// Returns a page of zeros, of a kind.
    pub(crate) fn new(alloc: Global, kind: RangeKind) -> Result<Page, AllocError>
        ensures { IfOk result (λ page. AgreeInPage (cells_in page) (λ at. blank kind)) }
    {
        let bytes = vec![in alloc; 0u8; PAGE]?;
        Ok(Page {
            bytes,
            marks: PageShadows::Uniform(kind),
        })
    }

    pub(crate) fn cell(&self, at: usize) -> Cell
        requires { at < page_len }
        ensures value { result ≡ cells_in self.now at }
        ensures clean { IsClean result }
    {
        marked_cell(self.bytes[at], self.marks.mark(at))
    }

    // Returns the number of `n` bytes from a place on.
    #[inline(always)]
    fn number(&self, at: usize, n: u32) -> u32
        requires width { IsWidth n }
        requires within { at + n ≤ page_len }
        ensures value { result ≡ little_word (λ i. if nat_lt i n then slice_index self.now.bytes.items (at + i) else 0) }
        ensures small { result < 2 ^ (8 * n) }
    {
        let bytes = &self.bytes;
        match n {
            1 => word(bytes[at], 0, 0, 0),
            2 => word(bytes[at], bytes[at + 1], 0, 0),
            _ => word(bytes[at], bytes[at + 1], bytes[at + 2], bytes[at + 3]),
        }
    }

    /// Returns the number of `n` bytes from a place on, if they are found to be all accessible and defined.
    #[inline(always)]
    pub(crate) fn defined(&self, at: usize, n: u32) -> Option<u32>
        requires width { IsWidth n }
        requires within { at + n ≤ page_len }
        ensures value { IfSome result (λ value. (addr : ℕ)
            → loaded_at (λ i. cells_in self.now (at + i)) addr n ≡ record { value = value; undef = 0; bad = None }) }
        ensures small { IfSome result (λ value. value < 2 ^ (8 * n)) }
    {
        if self.marks.are_defined(at, at + n as usize) {
            return Some(self.number(at, n));
        }
        None
    }

    /// Returns what a load of `n` bytes from a place on takes. The bytes lie from an address on.
    #[inline(always)]
    pub(crate) fn load(&self, at: usize, addr: u32, n: u32) -> Loaded
        requires width { IsWidth n }
        requires within { at + n ≤ page_len }
        ensures value { result ≡ loaded_at (λ i. cells_in self.now (at + i)) addr n }
        ensures small { result.value < 2 ^ (8 * n) }
        ensures small_undef { result.undef < 2 ^ (8 * n) }
    {
        match self.defined(at, n) {
            Some(value) => Loaded {
                value,
                undef: 0,
                bad: None,
            },
            None => self.load_out(at, addr, n),
        }
    }

    // The same, if some bits are undefined. What an out-of-line function returns in memory gets its room, filled with zeros, at the
    // beginning of the function that calls it, inlined or not. So the call is here, and not where each load begins.
    #[inline(always)]
    fn load_out(&self, at: usize, addr: u32, n: u32) -> Loaded
        requires width { IsWidth n }
        requires within { at + n ≤ page_len }
        ensures value { result ≡ loaded_at (λ i. cells_in self.now (at + i)) addr n }
        ensures small { result.value < 2 ^ (8 * n) }
        ensures small_undef { result.undef < 2 ^ (8 * n) }
    {
        self.load_undefined(at, addr, n)
    }

    // The same, at once if all bits are undefined.
    #[inline(never)]
    fn load_undefined(&self, at: usize, addr: u32, n: u32) -> Loaded
        requires width { IsWidth n }
        requires within { at + n ≤ page_len }
        ensures value { result ≡ loaded_at (λ i. cells_in self.now (at + i)) addr n }
        ensures small { result.value < 2 ^ (8 * n) }
        ensures small_undef { result.undef < 2 ^ (8 * n) }
    {
        if self.marks.are_undefined(at, at + n as usize) {
            return Loaded {
                value: self.number(at, n),
                undef: all_bits(n),
                bad: None,
            };
        }
        self.load_cells(at, addr, n)
    }

    // The same, cell by cell.
    #[inline(never)]
    fn load_cells(&self, at: usize, addr: u32, n: u32) -> Loaded
        requires width { IsWidth n }
        requires within { at + n ≤ page_len }
        ensures value { result ≡ loaded_at (λ i. cells_in self.now (at + i)) addr n }
        ensures small { result.value < 2 ^ (8 * n) }
        ensures small_undef { result.undef < 2 ^ (8 * n) }
    {
        match n {
            1 => loaded_from(addr, self.cell(at), ABSENT, ABSENT, ABSENT),
            2 => loaded_from(addr, self.cell(at), self.cell(at + 1), ABSENT, ABSENT),
            _ => loaded_from(
                addr,
                self.cell(at),
                self.cell(at + 1),
                self.cell(at + 2),
                self.cell(at + 3),
            ),
        }
    }

    /// Returns the first multiple of 4, from `from` on, that has four accessible and defined bytes.
    pub(crate) fn next_word(&self, from: usize) -> Option<usize>
        requires within { from ≤ page_len }
        requires aligned { from % 4 ≡ 0 }
        ensures none { IfNone result (HoldNoWord (λ k. shadow_in (cells_in self.now k)) from page_len) }
        ensures some { IfSome result (IsNextWord (λ k. shadow_in (cells_in self.now k)) from) }
        ensures inside { IfSome result (λ at. at < page_len) }
    {
        self.marks.next_word(from)
    }

    // Returns whether four bytes are accessible and defined, with a value from `low` up to, but not including, `high`.
    #[inline(always)]
    fn holds_in_range(&self, at: usize, low: u32, high: u64) -> bool
        requires { at + 4 ≤ page_len }
        ensures { result ≡ holds_in_range (λ k. (cells_in self.now k).byte) (λ k. shadow_in (cells_in self.now k)) low high at }
    {
        if !may_lie_within(&self.bytes[at..at + 4], low, high) {
            return false;
        }
        let value = self.number(at, 4);
        low <= value && (value as u64) < high && self.marks.holds_word(at)
    }

    // Returns whether none of 64 words from a place on, a multiple of 4, has such bytes. May also return `false` for such words.
    #[inline(always)]
    fn passes_rows(&self, at: usize, low: u32, high: u64) -> bool
        requires aligned { at % 4 ≡ 0 }
        requires within { at + 256 ≤ page_len }
        ensures { IsTrue result → HoldNoneInRange (λ k. (cells_in self.now k).byte) (λ k. shadow_in (cells_in self.now k)) low high at (at + 256) }
    {
        self.marks.are_inaccessible(at) || rows_have_none(&self.bytes, at, low, high)
    }

    // The same of sixteen.
    #[inline(always)]
    fn passes_row(&self, at: usize, low: u32, high: u64) -> bool
        requires aligned { at % 4 ≡ 0 }
        requires within { at + 64 ≤ page_len }
        ensures { IsTrue result → HoldNoneInRange (λ k. (cells_in self.now k).byte) (λ k. shadow_in (cells_in self.now k)) low high at (at + 64) }
    {
        row_has_none(&self.bytes, at, low, high)
    }

    /// Returns the first multiple of 4, from `from` on, with four such bytes.
    pub(crate) fn next_in_range(&self, from: usize, low: u32, high: u64) -> Option<usize>
        requires within { from ≤ page_len }
        requires aligned { from % 4 ≡ 0 }
        ensures none { IfNone result (HoldNoneInRange (λ k. (cells_in self.now k).byte) (λ k. shadow_in (cells_in self.now k)) low high from page_len) }
        ensures some { IfSome result (IsNextInRange (λ k. (cells_in self.now k).byte) (λ k. shadow_in (cells_in self.now k)) low high from) }
        ensures inside { IfSome result (λ at. at < page_len) }
    {
        let mut at = from;
        while at < PAGE {
            if at % ROWS == 0 && self.passes_rows(at, low, high) {
                at += ROWS;
            } else if at % ROW == 0 && self.passes_row(at, low, high) {
                at += ROW;
            } else if self.holds_in_range(at, low, high) {
                return Some(at);
            } else {
                at += 4;
            }
        }
        None
    }

    /// Returns the first bad byte from one place up to, but not including, another.
    pub(crate) fn first_bad(&self, from: usize, to: usize, need_defined: bool) -> Option<usize>
        requires order { from ≤ to }
        requires within { to ≤ page_len }
        ensures none { IfNone result (NonePass (λ k. is_bad need_defined (shadow_in (cells_in self.now k))) from to) }
        ensures some { IfSome result (IsFirst (λ k. is_bad need_defined (shadow_in (cells_in self.now k))) from to) }
    {
        self.marks.first_bad(from, to, need_defined)
    }

    /// Returns whether the bytes from one place up to, but not including, another are those of another page there.
    pub(crate) fn is_same_in(&self, other: &Page, from: usize, to: usize) -> bool
        requires order { from < to }
        requires within { to ≤ page_len }
        ensures { IsTrue result → AreBytesOf (cells_in self.now) (cells_in other.now) from to }
    {
        are_same(&self.bytes[from..to], &other.bytes[from..to])
    }

    /// Returns whether they are, and all of them are accessible and defined.
    pub(crate) fn has_bytes_of(&self, other: &Page, from: usize, to: usize) -> bool
        requires order { from < to }
        requires within { to ≤ page_len }
        ensures { IsTrue result → HaveBytesOf (cells_in self.now) (cells_in other.now) from to }
    {
        if self.first_bad(from, to, true).is_some() {
            return false;
        }
        self.is_same_in(other, from, to)
    }

    /// Returns whether the cells are those of another page. May also return `false` for such pages.
    pub(crate) fn is_same(&self, other: &Page) -> bool
        ensures { IsTrue result → Agree (cells_in self.now) (cells_in other.now) }
    {
        self.marks.are_same(&other.marks) && are_same(&self.bytes[..], &other.bytes[..])
    }

    /// Returns whether the accessible bytes and the undefined bits are those of another page. May also return `false` for such a page.
    pub(crate) fn has_marks_of(&self, other: &Page) -> bool
        ensures { IsTrue result → (k : ℕ) → shadow_in (cells_in self.now k) ≡ shadow_in (cells_in other.now k) }
    {
        self.marks.are_same(&other.marks)
    }

    /// Returns whether each byte is known to be of this kind.
    pub(crate) fn is_of(&self, kind: RangeKind) -> bool
        ensures { IsTrue result → (k : ℕ) → k < page_len → shadow_in (cells_in self.now k) ≡ shadow_in (blank kind) }
    {
        match self.marks.kind(0, PAGE) {
            Some(own) => own == kind,
            None => false,
        }
    }

    fn set(&mut self, alloc: Global, at: usize, cell: Cell) -> Result<(), AllocError>
        requires within { at < page_len }
        requires clean { IsClean cell }
        ensures ok { OnOk result (AgreeInPage (cells_in self.new) (set_at (cells_in self.old) at cell)) }
        ensures err { OnErr result (AgreeInPage (cells_in self.new) (cells_in self.old)) }
    {
        let mark = ByteShadow {
            accessible: cell.accessible,
            undef: cell.undef,
        };
        self.marks.set(alloc, at, mark)?;
        self.bytes[at] = cell.byte;
        Ok(())
    }

    fn make(
        &mut self,
        alloc: Global,
        from: usize,
        to: usize,
        kind: RangeKind,
    ) -> Result<(), AllocError>
        requires order { from ≤ to }
        requires within { to ≤ page_len }
        ensures ok { OnOk result (AgreeInPage (cells_in self.new) (λ k.
            if is_between from to k then ranged kind 0 (cells_in self.old k) else cells_in self.old k)) }
        ensures err { OnErr result (AgreeInPage (cells_in self.new) (cells_in self.old)) }
    {
        self.marks.make(alloc, from, to, kind)
    }

    fn fill(
        &mut self,
        alloc: Global,
        at: usize,
        count: usize,
        bytes: &[u8],
    ) -> Result<(), AllocError>
        requires { at + count ≤ page_len }
        ensures ok { OnOk result (AgreeInPage (cells_in self.new) (changed_from (cells_in self.old) at count (filled (slice_index bytes.now)))) }
        ensures err { OnErr result (AgreeInPage (cells_in self.new) (cells_in self.old)) }
    {
        self.marks.make(alloc, at, at + count, RangeKind::Defined)?;
        fill_at(&mut self.bytes, at, count, bytes);
        Ok(())
    }

    // Makes bytes 0, with the undefined bits with which a byte of a kind is loaded.
    fn take(
        &mut self,
        alloc: Global,
        at: usize,
        count: usize,
        kind: RangeKind,
    ) -> Result<(), AllocError>
        requires { at + count ≤ page_len }
        ensures ok { OnOk result (AgreeInPage (cells_in self.new) (changed_from (cells_in self.old) at count (λ i cell. taken_cell (blank kind) cell))) }
        ensures err { OnErr result (AgreeInPage (cells_in self.new) (cells_in self.old)) }
    {
        self.marks.take(alloc, at, at + count, kind)?;
        set_all(&mut self.bytes, at, at + count, 0);
        Ok(())
    }

    // Changes bytes alike.
    fn all(&mut self, alloc: Global, at: usize, count: usize, each: Each) -> Result<(), AllocError>
        requires { at + count ≤ page_len }
        ensures ok { OnOk result (AgreeInPage (cells_in self.new) (changed_from (cells_in self.old) at count (λ i cell. each_of each cell))) }
        ensures err { OnErr result (AgreeInPage (cells_in self.new) (cells_in self.old)) }
    {
        match each {
            Each::Make(kind) => self.make(alloc, at, at + count, kind),
            Each::Clear => self.fill(alloc, at, count, &[]),
            Each::Take(kind) => self.take(alloc, at, count, kind),
        }
    }

    // Copies bytes of a page, none of which is partly defined.
    fn copy(
        &mut self,
        alloc: Global,
        at: usize,
        source: &Page,
        from: usize,
        count: usize,
    ) -> Result<(), AllocError>
        requires room { at + count ≤ page_len }
        requires within { from + count ≤ page_len }
        requires whole { AreWhole source.now.marks from (from + count) }
        ensures ok { OnOk result (AgreeInPage (cells_in self.new) (changed_from (cells_in self.old) at count
            (λ i cell. taken_cell (cells_in source.now (from + i)) cell))) }
        ensures err { OnErr result (AgreeInPage (cells_in self.new) (cells_in self.old)) }
    {
        self.marks.copy(alloc, at, &source.marks, from, count)?;
        write_at(&mut self.bytes, at, &source.bytes[from..from + count]);
        Ok(())
    }

    /// Returns the first place, from `from` up to `to`, whose byte is partly defined, or `to` if there is none.
    pub(crate) fn whole_end(&self, from: usize, to: usize) -> usize
        requires order { from ≤ to }
        requires within { to ≤ page_len }
        ensures start { from ≤ result }
        ensures within { result ≤ to }
        ensures whole { AreWhole self.now.marks from result }
    {
        self.marks.whole_end(from, to)
    }

    /// Returns whether the bytes from one place up to, but not including, another are zeros.
    pub(crate) fn is_zero_in(&self, from: usize, to: usize) -> bool
        requires order { from < to }
        requires within { to ≤ page_len }
        ensures { IsTrue result → (k : ℕ) → from ≤ k → k < to → (cells_in self.now k).byte ≡ 0 }
    {
        all_are(&self.bytes[from..to], 0)
    }

    /// Returns their kind, if they are zeros of one.
    pub(crate) fn zeros(&self, from: usize, to: usize) -> Option<RangeKind>
        requires order { from < to }
        requires within { to ≤ page_len }
        ensures { IfSome result (λ kind. (k : ℕ) → from ≤ k → k < to → cells_in self.now k ≡ blank kind) }
    {
        if !self.is_zero_in(from, to) {
            return None;
        }
        self.marks.kind(from, to)
    }

    /// Returns the kind of the page after each of its bytes has changed in this way, if it is then zeros of one kind and this can be found
    /// out without looking at the bytes.
    pub(crate) fn cleared(&self, each: Each) -> Option<RangeKind>
        ensures { IfSome result (λ kind. (k : ℕ) → k < page_len → each_of each (cells_in self.now k) ≡ blank kind) }
    {
        match each {
            Each::Make(_) => None,
            Each::Clear => Some(RangeKind::Defined),
            Each::Take(_) => Some(each.kind_after(self.marks.kind(0, PAGE)?)),
        }
    }

    fn store(&mut self, alloc: Global, at: usize, bytes: &[u8]) -> Result<(), AllocError>
        requires { at + length bytes.now ≤ page_len }
        ensures ok { OnOk result (AgreeInPage (cells_in self.new) (changed_from (cells_in self.old) at (length bytes.now) (received (slice_index bytes.now)))) }
        ensures err { OnErr result (AgreeInPage (cells_in self.new) (cells_in self.old)) }
    {
        self.marks.define(alloc, at, at + bytes.len())?;
        write_at(&mut self.bytes, at, bytes);
        Ok(())
    }

    // Stores bytes all of whose bits are undefined.
    fn store_undefined(&mut self, alloc: Global, at: usize, bytes: &[u8]) -> Result<(), AllocError>
        requires { at + length bytes.now ≤ page_len }
        ensures ok { OnOk result (AgreeInPage (cells_in self.new) (changed_from (cells_in self.old) at (length bytes.now)
            (λ i cell. taken_cell (marked (slice_index bytes.now i) (mark_of RangeKind.Undefined)) cell))) }
        ensures err { OnErr result (AgreeInPage (cells_in self.new) (cells_in self.old)) }
    {
        self.marks
            .take(alloc, at, at + bytes.len(), RangeKind::Undefined)?;
        write_at(&mut self.bytes, at, bytes);
        Ok(())
    }

    /// Stores bytes from a place on, if the bytes there are all accessible. Returns whether it did. Allocates nothing.
    #[inline(always)]
    pub(crate) fn put(&mut self, at: usize, bytes: &[u8]) -> bool
        requires { at + length bytes.now ≤ page_len }
        ensures done { IsTrue result → AgreeInPage (cells_in self.new)
            (changed_from (cells_in self.old) at (length bytes.now) (received (slice_index bytes.now))) }
        ensures whole { IsTrue result → (k : ℕ) → at ≤ k → k < at + length bytes.now → (cells_in self.old k).accessible ≡ true }
        ensures kept { IsFalse result → cells_in self.new ≡ cells_in self.old }
    {
        if self.marks.are_defined(at, at + bytes.len()) {
            write_at(&mut self.bytes, at, bytes);
            return true;
        }
        self.put_out(at, bytes)
    }

    // The same, out of line. A word is passed as a number: borrowed bytes lie in memory, and are written individually above.
    #[inline(always)]
    fn put_out(&mut self, at: usize, bytes: &[u8]) -> bool
        requires { at + length bytes.now ≤ page_len }
        ensures done { IsTrue result → AgreeInPage (cells_in self.new)
            (changed_from (cells_in self.old) at (length bytes.now) (received (slice_index bytes.now))) }
        ensures whole { IsTrue result → (k : ℕ) → at ≤ k → k < at + length bytes.now → (cells_in self.old k).accessible ≡ true }
        ensures kept { IsFalse result → cells_in self.new ≡ cells_in self.old }
    {
        if let [first, second, third, fourth] = bytes {
            return self.put_word(at, word(*first, *second, *third, *fourth));
        }
        self.put_defining(at, bytes)
    }

    // The same for a word.
    #[inline(never)]
    fn put_word(&mut self, at: usize, value: u32) -> bool
        requires { at + 4 ≤ page_len }
        ensures done { IsTrue result → AgreeInPage (cells_in self.new) (changed_from (cells_in self.old) at 4 (received (byte_of value))) }
        ensures whole { IsTrue result → (k : ℕ) → at ≤ k → k < at + 4 → (cells_in self.old k).accessible ≡ true }
        ensures kept { IsFalse result → cells_in self.new ≡ cells_in self.old }
    {
        self.put_defining(at, &word_bytes(value))
    }

    // The same, if some bits of the bytes there are undefined.
    #[inline(never)]
    fn put_defining(&mut self, at: usize, bytes: &[u8]) -> bool
        requires { at + length bytes.now ≤ page_len }
        ensures done { IsTrue result → AgreeInPage (cells_in self.new)
            (changed_from (cells_in self.old) at (length bytes.now) (received (slice_index bytes.now))) }
        ensures whole { IsTrue result → (k : ℕ) → at ≤ k → k < at + length bytes.now → (cells_in self.old k).accessible ≡ true }
        ensures kept { IsFalse result → cells_in self.new ≡ cells_in self.old }
    {
        if !self.marks.define_accessible(at, at + bytes.len()) {
            return false;
        }
        write_at(&mut self.bytes, at, bytes);
        true
    }

    // Sets a cell, if that allocates nothing. Returns whether it did.
    fn set_own(&mut self, at: usize, cell: Cell) -> bool
        requires within { at < page_len }
        requires clean { IsClean cell }
        ensures done { IsTrue result → AgreeInPage (cells_in self.new) (set_at (cells_in self.old) at cell) }
        ensures kept { IsFalse result → cells_in self.new ≡ cells_in self.old }
    {
        let mark = ByteShadow {
            accessible: cell.accessible,
            undef: cell.undef,
        };
        if !self.marks.set_held(at, mark) {
            return false;
        }
        self.bytes[at] = cell.byte;
        true
    }

    // Stores bytes all of whose bits are undefined, if the marks are held individually. Returns whether they are.
    fn store_undefined_own(&mut self, at: usize, bytes: &[u8]) -> bool
        requires { at + length bytes.now ≤ page_len }
        ensures done { IsTrue result → AgreeInPage (cells_in self.new) (changed_from (cells_in self.old) at (length bytes.now)
            (λ i cell. taken_cell (marked (slice_index bytes.now i) (mark_of RangeKind.Undefined)) cell)) }
        ensures kept { IsFalse result → cells_in self.new ≡ cells_in self.old }
    {
        let to = at + bytes.len();
        if !self.marks.take_held(at, to, RangeKind::Undefined) {
            return false;
        }
        write_at(&mut self.bytes, at, bytes);
        true
    }

    /// Changes cells from a place on, if that allocates nothing: one cell, or the cells of a range whose kind is set or that is stored
    /// undefined. Returns whether it did.
    pub(crate) fn change_own(&mut self, at: usize, edit: &PageEdit<'_>) -> bool
        requires within { at + count_of edit.now ≤ page_len }
        requires fits { Fits edit.now }
        ensures done { IsTrue result → AgreeInPage (cells_in self.new) (changed_from (cells_in self.old) at (count_of edit.now) (change_of edit.now)) }
        ensures kept { IsFalse result → cells_in self.new ≡ cells_in self.old }
    {
        match edit {
            PageEdit::Set(cell) => self.set_own(at, *cell),
            PageEdit::All(count, Each::Make(kind)) => self.marks.make_held(at, at + *count, *kind),
            PageEdit::StoreUndefined(bytes) => self.store_undefined_own(at, bytes),
            _ => false,
        }
    }

    /// Changes cells from a place on.
    pub(crate) fn change(
        &mut self,
        alloc: Global,
        at: usize,
        edit: &PageEdit<'_>,
    ) -> Result<(), AllocError>
        requires within { at + count_of edit.now ≤ page_len }
        requires fits { Fits edit.now }
        ensures ok { OnOk result (AgreeInPage (cells_in self.new) (changed_from (cells_in self.old) at (count_of edit.now) (change_of edit.now))) }
        ensures err { OnErr result (AgreeInPage (cells_in self.new) (cells_in self.old)) }
    {
        match edit {
            PageEdit::Set(cell) => self.set(alloc, at, *cell),
            PageEdit::All(count, each) => self.all(alloc, at, *count, *each),
            PageEdit::Fill(count, bytes) => self.fill(alloc, at, *count, bytes),
            PageEdit::Store(bytes) => self.store(alloc, at, bytes),
            PageEdit::StoreUndefined(bytes) => self.store_undefined(alloc, at, bytes),
            PageEdit::Copy(source, from, count) => self.copy(alloc, at, source, *from, *count),
        }
    }
}

#[tactic(auto, unfolding(crate::specs::Pages::cells_in))]
impl Clone for Page {
    ghost use Rattle.shadow_memory.specs.Places.{Agree};
    ghost use Rattle.shadow_memory.specs.Pages.{cells_in};

    ghost is_clone = { λ page copy. Agree (cells_in copy) (cells_in page) };

    fn clone(&self) -> Result<Page, AllocError> {
        let bytes = self.bytes.clone()?;
        let marks = self.marks.clone()?;
        Ok(Page { bytes, marks })
    }
}
