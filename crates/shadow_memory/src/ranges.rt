//! Changes of whole ranges: consecutive blank pages at once, others page by page.
ghost use Rattle.std.specs.Prelude.{◌≡◌, ◌+◌, ◌%◌, ◌<◌, ◌≤◌, ◌^◌, IfOk, OnOk, OnErr, length, slice_index};
ghost use Rattle.shadow_memory.specs.Edits.{each_of};
ghost use Rattle.shadow_memory.specs.Places.{changed_from, page_len};
ghost use Rattle.shadow_memory.specs.Ranges.{changed_in, written};
ghost use Rattle.shadow_memory.specs.Shadows.{made_so, stored_undef};
ghost use Rattle.shadow_memory.specs.Changes.{filled, SomeFront};
ghost use Rattle.shadow_memory.specs.Fronts.{CellsReceived, HasFilled, HasReceived};
ghost use Rattle.shadow_memory.specs.Memories.{bytes_in, shadows_in, cells_of};

use crate::cells::RangeKind;
use crate::edits::{Each, PageEdit};
use crate::memory::Memory;
use std::alloc::AllocError;

/// The number of bytes of a page.
pub(crate) const PAGE_LEN: u32 = 4096;

/// Returns the number of bytes from an address to the end of its page, or `most` if that is less.
pub(crate) fn count_in_page(at: u32, most: u32) -> u32
    requires { 0 < most }
    ensures some { 0 < result }
    ensures within { result ≤ most }
    ensures one_page { at % page_len + result ≤ page_len }
    ensures aligned { at % 4 ≡ 0 → most % 4 ≡ 0 → result % 4 ≡ 0 }
{
    (PAGE_LEN - at % PAGE_LEN).min(most)
}

impl Memory {
    /// Makes a range inaccessible, undefined or defined. Its bytes stay. On an error, a front of it is changed.
    pub fn set_range(&mut self, addr: u32, len: u32, kind: RangeKind) -> Result<(), AllocError>
        ensures bytes { bytes_in self.new ≡ bytes_in self.old }
        ensures shadows { OnOk result (shadows_in self.new ≡ made_so (shadows_in self.old) addr len kind) }
        ensures err { OnErr result (SomeFront len (λ k. shadows_in self.new ≡ made_so (shadows_in self.old) addr k kind)) }
    {
        self.change_all(addr, len, Each::Make(kind))
    }

    /// Changes the bytes of a range alike. On an error, a front of it is changed.
    pub(crate) fn change_all(&mut self, addr: u32, len: u32, each: Each) -> Result<(), AllocError>
        ensures ok { OnOk result (cells_of self.new ≡ changed_in (cells_of self.old) addr len (λ i cell. each_of each cell)) }
        ensures err { OnErr result (SomeFront len (λ k. cells_of self.new ≡ changed_in (cells_of self.old) addr k (λ i cell. each_of each cell))) }
    {
        let mut done = 0;
        while done < len {
            let at = addr.wrapping_add(done);
            let count = self.change_some(at, len - done, each)?;
            done += count;
        }
        Ok(())
    }

    /// Makes a range accessible and defined, with these bytes and zeros after them. On an error, a front of it is changed.
    pub fn fill(&mut self, addr: u32, len: u32, bytes: &[u8]) -> Result<(), AllocError>
        ensures bytes { OnOk result (bytes_in self.new ≡ written (bytes_in self.old) addr len (slice_index bytes.now)) }
        ensures shadows { OnOk result (shadows_in self.new ≡ made_so (shadows_in self.old) addr len RangeKind.Defined) }
        ensures err { OnErr result (SomeFront len (λ k. HasFilled self.old self.new addr k bytes.now)) }
    {
        self.fill_cells(addr, len, bytes)
    }

    // Fills some cells of a range, all of them or none. Returns the number of cells.
    #[tactic(auto, unfolding(crate::specs::Edits::count_of, crate::specs::Edits::change_of, crate::specs::Edits::each_of, crate::specs::Edits::Fits))]
    fn fill_some(&mut self, at: u32, most: u32, bytes: &[u8]) -> Result<u32, AllocError>
        requires { 0 < most }
        ensures some { IfOk result (λ n. 0 < n) }
        ensures within { IfOk result (λ n. n ≤ most) }
        ensures inside { IfOk result (λ n. at + n ≤ 2 ^ 32) }
        ensures ok { IfOk result (λ n. cells_of self.new ≡ changed_from (cells_of self.old) at n (filled (slice_index bytes.now))) }
        ensures err { OnErr result (cells_of self.new ≡ cells_of self.old) }
    {
        if bytes.is_empty() {
            return self.change_some(at, most, Each::Clear);
        }
        let count = count_in_page(at, most);
        self.change(at, &PageEdit::Fill(count as usize, bytes))?;
        Ok(count)
    }

    // Fills the cells of a range.
    fn fill_cells(&mut self, addr: u32, len: u32, bytes: &[u8]) -> Result<(), AllocError>
        ensures ok { OnOk result (cells_of self.new ≡ changed_in (cells_of self.old) addr len (filled (slice_index bytes.now))) }
        ensures err { OnErr result (SomeFront len (λ k. cells_of self.new ≡ changed_in (cells_of self.old) addr k (filled (slice_index bytes.now)))) }
    {
        let mut done = 0;
        while done < len {
            let at = addr.wrapping_add(done);
            let rest = &bytes[bytes.len().min(done as usize)..];
            let count = self.fill_some(at, len - done, rest)?;
            done += count;
        }
        Ok(())
    }

    /// Stores bytes all of whose bits are defined. An inaccessible byte takes its value and stays inaccessible. On an error, a front of the
    /// bytes is stored.
    pub fn store_bytes(&mut self, addr: u32, bytes: &[u8]) -> Result<(), AllocError>
        requires { length bytes.now < 2 ^ 32 }
        ensures bytes { OnOk result (bytes_in self.new ≡ written (bytes_in self.old) addr (length bytes.now) (slice_index bytes.now)) }
        ensures shadows { OnOk result (shadows_in self.new ≡ stored_undef (shadows_in self.old) addr (length bytes.now) 0) }
        ensures err { OnErr result (SomeFront (length bytes.now) (λ k. HasReceived self.old self.new addr k bytes.now)) }
    {
        self.store_bytes_cells(addr, bytes)
    }

    // Stores into the cells of a range, page by page.
    #[tactic(auto, unfolding(crate::specs::Edits::count_of, crate::specs::Edits::change_of, crate::specs::Edits::Fits))]
    fn store_bytes_cells(&mut self, addr: u32, bytes: &[u8]) -> Result<(), AllocError>
        requires { length bytes.now < 2 ^ 32 }
        ensures ok { OnOk result (CellsReceived self.old self.new addr bytes.now (length bytes.now)) }
        ensures err { OnErr result (SomeFront (length bytes.now) (CellsReceived self.old self.new addr bytes.now)) }
    {
        let len = bytes.len() as u32;
        let mut done = 0;
        while done < len {
            let at = addr.wrapping_add(done);
            let count = count_in_page(at, len - done);
            let from = done as usize;
            let part = &bytes[from..from + count as usize];
            self.change(at, &PageEdit::Store(part))?;
            done += count;
        }
        Ok(())
    }
}
