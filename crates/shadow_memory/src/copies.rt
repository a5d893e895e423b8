//! Copies within memory.
ghost use Rattle.std.specs.Prelude.{◌≡◌, ℕ, ◌+◌, ◌%◌, ◌<◌, ◌≤◌, IfOk, OnOk, OnErr};
ghost use Rattle.shadow_memory.specs.Marks.{blank};
ghost use Rattle.shadow_memory.specs.Places.{changed_from, page_len};
ghost use Rattle.shadow_memory.specs.Ranges.{above, changed_in, copied};
ghost use Rattle.shadow_memory.specs.Shadows.{copied_undef};
ghost use Rattle.shadow_memory.specs.Changes.{copied_cell, AreApart, SomeFront};
ghost use Rattle.shadow_memory.specs.Fronts.{HasCopied};
ghost use Rattle.shadow_memory.specs.Memories.{bytes_in, shadows_in, cells_of};

use crate::cells::RangeKind;
use crate::edits::{Each, PageEdit};
use crate::memory::Memory;
use crate::pages::PAGE;
use crate::ranges::count_in_page;
use crate::slots::PageSlot;
use crate::words::copied_from;
use std::alloc::AllocError;

impl Memory {
    /// Copies bytes, with their undefined bits, to a range that doesn't overlap theirs. An inaccessible byte is copied as a defined one. An
    /// inaccessible target takes the byte and stays inaccessible. On an error, a front of the range is copied.
    pub fn copy_with_shadow(&mut self, from: u32, to: u32, len: u32) -> Result<(), AllocError>
        requires { AreApart from to len }
        ensures bytes { OnOk result (bytes_in self.new ≡ copied (bytes_in self.old) from to len) }
        ensures shadows { OnOk result (shadows_in self.new ≡ copied_undef (shadows_in self.old) from to len) }
        ensures err { OnErr result (SomeFront len (λ k. HasCopied self.old self.new from to k)) }
    {
        self.copy_cells(from, to, len)
    }

    // Copies part by part.
    fn copy_cells(&mut self, from: u32, to: u32, len: u32) -> Result<(), AllocError>
        requires { AreApart from to len }
        ensures ok { OnOk result (cells_of self.new ≡ changed_in (cells_of self.old) to len (copied_cell (cells_of self.old) from)) }
        ensures err { OnErr result (SomeFront len (λ k. cells_of self.new ≡ changed_in (cells_of self.old) to k (copied_cell (cells_of self.old) from))) }
    {
        let mut done = 0;
        while done < len {
            let source = from.wrapping_add(done);
            let at = to.wrapping_add(done);
            let count = self.copy_some(source, at, len - done)?;
            done += count;
        }
        Ok(())
    }

    // Copies the first part. Returns the number of its bytes.
    fn copy_some(&mut self, from: u32, to: u32, most: u32) -> Result<u32, AllocError>
        requires { 0 < most }
        ensures some { IfOk result (λ n. 0 < n) }
        ensures within { IfOk result (λ n. n ≤ most) }
        ensures ok { IfOk result (λ n. cells_of self.new ≡ changed_in (cells_of self.old) to n (copied_cell (cells_of self.old) from)) }
        ensures err { OnErr result (SomeFront most (λ k. cells_of self.new ≡ changed_in (cells_of self.old) to k (copied_cell (cells_of self.old) from))) }
    {
        if let Some(zeros) = self.zeros(from, most) {
            self.copy_zeros(from, to, zeros.count, zeros.kind)?;
            return Ok(zeros.count);
        }
        let most = count_in_page(from, count_in_page(to, most));
        let count = self.copy_part(from, to, most)?;
        Ok(count)
    }

    // Copies zeros of one kind.
    fn copy_zeros(
        &mut self,
        from: u32,
        to: u32,
        count: u32,
        kind: RangeKind,
    ) -> Result<(), AllocError>
        requires { (i : ℕ) → i < count → cells_of self.old (above from i) ≡ blank kind }
        ensures ok { OnOk result (cells_of self.new ≡ changed_in (cells_of self.old) to count (copied_cell (cells_of self.old) from)) }
        ensures err { OnErr result (SomeFront count (λ k. cells_of self.new ≡ changed_in (cells_of self.old) to k (copied_cell (cells_of self.old) from))) }
    {
        let _from = from;
        self.change_all(to, count, Each::Take(kind))
    }

    // Copies bytes from one page to one page, up to the first that is partly defined, or only this one. Returns the number of bytes.
    #[tactic(auto, unfolding(crate::specs::Edits::count_of, crate::specs::Edits::change_of, crate::specs::Edits::Fits))]
    fn copy_part(&mut self, from: u32, to: u32, most: u32) -> Result<u32, AllocError>
        requires some { 0 < most }
        requires from_page { from % page_len + most ≤ page_len }
        requires to_page { to % page_len + most ≤ page_len }
        ensures some { IfOk result (λ n. 0 < n) }
        ensures within { IfOk result (λ n. n ≤ most) }
        ensures ok { IfOk result (λ n. cells_of self.new ≡ changed_from (cells_of self.old) to n (copied_cell (cells_of self.old) from)) }
        ensures err { OnErr result (cells_of self.new ≡ cells_of self.old) }
    {
        let place = from as usize % PAGE;
        if let PageSlot::Held(page) = self.slot(from)? {
            let count = page.whole_end(place, place + most as usize) - place;
            if count > 0 {
                self.change(to, &PageEdit::Copy(&page, place, count))?;
                return Ok(count as u32);
            }
        }
        self.copy_cell(from, to)?;
        Ok(1)
    }

    // Copies one byte.
    #[tactic(auto, unfolding(crate::specs::Edits::count_of, crate::specs::Edits::change_of, crate::specs::Edits::Fits))]
    fn copy_cell(&mut self, from: u32, to: u32) -> Result<(), AllocError>
        ensures ok { OnOk result (cells_of self.new ≡ changed_from (cells_of self.old) to 1 (copied_cell (cells_of self.old) from)) }
        ensures err { OnErr result (cells_of self.new ≡ cells_of self.old) }
    {
        let source = self.cell(from);
        let target = self.cell(to);
        self.change(to, &PageEdit::Set(copied_from(source, target)))
    }
}
