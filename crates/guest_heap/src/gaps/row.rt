//! A row of parts.
ghost use Rattle.std.specs.Prelude.{◌≡◌};

use crate::bounds::Opened;
use crate::gaps::parts::FullParts;
use crate::gaps::ranges::{Full, is_full, lies_apart, raised};
use crate::region::aligned;
use std::alloc::{AllocError, Global};

/// A row of parts: the whole as one range, and its parts.
#[derive(Drop)]
pub(crate) struct GapRow {
    pub(crate) whole: Full,
    pub(crate) parts: FullParts,
}

impl Clone for GapRow {
    ghost use Rattle.std.specs.Prelude.{◌≡◌};

    ghost is_clone = { λ row copy. copy ≡ row };

    fn clone(&self) -> Result<GapRow, AllocError> {
        let parts = self.parts.clone()?;
        Ok(GapRow {
            whole: self.whole,
            parts,
        })
    }
}

impl GapRow {
    ghost use Rattle.std.specs.Prelude.{◌<◌, ◌≤◌, ◌%◌, ℕ, OnOk};
    ghost use Rattle.guest_heap.specs.Blocks.{Blocks};
    ghost use Rattle.guest_heap.specs.States.{AreNoPlaces};
    ghost use Rattle.guest_heap.specs.Gaps.{IsFull, IsGapRow, raised_row};

    /// Returns the least multiple of 16 not below `at`, which is in a part of this row, at which the index leaves a size open.
    pub(crate) fn past(&self, part: usize, at: u64, size: u32) -> u64
        requires multiple { at % 16 ≡ 0 }
        requires below { at < 17179869184 }
        ensures multiple { result % 16 ≡ 0 }
        ensures above { at ≤ result }
        ensures below { result < 17179869184 }
        ensures passed { (blocks : Blocks) (redzone : ℕ) → IsGapRow blocks redzone self.now → AreNoPlaces blocks size redzone at result }
    {
        if is_full(&self.whole, at, size) {
            return aligned(u64::from(self.whole.until));
        }
        let range = self.parts.get(part);
        let until = range.until.min(self.whole.until);
        if is_full(&range, at, size) && u64::from(self.whole.from) <= at && at < u64::from(until) {
            return aligned(u64::from(until));
        }
        at
    }

    /// Sets the range of a part.
    pub(crate) fn put(&mut self, alloc: Global, part: usize, range: Full) -> Result<(), AllocError>
        ensures { (blocks : Blocks) (redzone : ℕ) → IsFull blocks redzone range → IsGapRow blocks redzone self.old → IsGapRow blocks redzone self.new }
    {
        self.parts.put(alloc, part, range)
    }

    /// Takes account of a range that became free.
    pub(crate) fn raise(&mut self, opened: &Opened) -> Result<(), AllocError>
        ensures { OnOk result (self.new ≡ raised_row opened.now self.old) }
    {
        if lies_apart(opened, &self.whole) {
            return Ok(());
        }
        self.parts.raise(opened)?;
        self.whole = raised(self.whole, opened);
        Ok(())
    }

    /// Notes that no block of a size has a place in the row, if the row ends at an address or below it.
    pub(crate) fn pass(&mut self, below: u64, size: u32)
        ensures { (blocks : Blocks) (redzone : ℕ) → AreNoPlaces blocks size redzone 0 below → IsGapRow blocks redzone self.old → IsGapRow blocks redzone self.new }
    {
        if u64::from(self.whole.until) <= below && size < self.whole.size {
            self.whole.size = size;
        }
    }
}
