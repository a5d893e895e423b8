//! An index of gaps by size, so that an allocation among many gaps looks at few kept blocks. For each part of the region it has a size of
//! which no block has a place in the part, and the same for each row of parts. A search passes over what is full for its size.
ghost use Rattle.std.specs.Prelude.{◌≡◌, ◌<◌, ◌≤◌, ◌%◌, ◌+◌};

use crate::bounds::Opened;
use crate::gaps::ranges::Full;
use crate::gaps::row::GapRow;
use crate::gaps::rows::{ROW, pass_in_rows, put_in_rows, raise_rows_in, unknown_rows};
use std::alloc::{AllocError, Global};
use std::marker::Model;
use std::rc::Rc;

pub(crate) mod parts;
pub(crate) mod ranges;
pub(crate) mod row;
pub(crate) mod rows;

/// The number of addresses of a part.
const PART: u32 = 16384;

/// Returns the row of an address of the region that begins at `begin`.
fn row_of(begin: u32, at: u64) -> usize {
    (at.saturating_sub(u64::from(begin)) / u64::from(ROW)) as usize
}

/// Returns the part of an address in its row.
fn part_of(begin: u32, at: u64) -> usize {
    (at.saturating_sub(u64::from(begin)) % u64::from(ROW) / u64::from(PART)) as usize
}

/// Returns the end of the part of an address.
pub(crate) fn part_end(begin: u32, at: u64) -> u64
    requires grid { begin % 16 ≡ 0 }
    requires above { begin ≤ at }
    requires below { at < 17179869184 }
    ensures multiple { result % 16 ≡ 0 }
    ensures above { at < result }
    ensures near { result ≤ at + 16384 }
{
    let each = u64::from(PART);
    let begin = u64::from(begin);
    begin + (at - begin) / each * each + each
}

/// An index of gaps by size, once there is one. Copies share it until one of them changes it.
#[derive(Drop)]
pub(crate) struct Gaps {
    rows: Option<Rc<Vec<GapRow>>>,
}

impl Model for Gaps {
    ghost use Rattle.std.specs.Prelude.{List};
    ghost use Rattle.guest_heap.specs.SharedLists.{items_in};
    ghost use Rattle.guest_heap.specs.declared.gaps.row.GapRow.{GapRow};

    ghost Value = { List GapRow };

    ghost view = { λ gaps. items_in gaps.rows };
}

impl Gaps {
    ghost use Rattle.std.specs.Prelude.{ℕ, IfOk, []};
    ghost use Rattle.memory_map.specs.Regions.{greatest_heap_begin};
    ghost use Rattle.guest_heap.specs.Blocks.{Blocks};
    ghost use Rattle.guest_heap.specs.States.{AreNoPlaces};
    ghost use Rattle.guest_heap.specs.Gaps.{AreGaps, AreUnknown, IsFull, IsRaised};

    /// Returns no index. Allocates nothing.
    pub(crate) fn new() -> Gaps
        ensures { result ≡ [] }
    {
        Gaps { rows: None }
    }

    /// Returns an index that knows nothing, of the region that begins at an address.
    pub(crate) fn of_region(alloc: Global, begin: u32) -> Result<Gaps, AllocError>
        requires { begin ≤ greatest_heap_begin }
        ensures { IfOk result (λ gaps. AreUnknown gaps) }
    {
        let rows = unknown_rows(alloc, begin)?;
        Ok(Gaps {
            rows: Some(Rc::new(alloc, rows)?),
        })
    }

    /// Returns whether there is no index.
    pub(crate) fn are_absent(&self) -> bool {
        self.rows.is_none()
    }

    /// Returns the least multiple of 16 not below `at` that the index leaves open, as far as the row and the part of `at` tell.
    pub(crate) fn past(&self, begin: u32, at: u64, size: u32) -> u64
        requires multiple { at % 16 ≡ 0 }
        requires below { at < 17179869184 }
        ensures multiple { result % 16 ≡ 0 }
        ensures above { at ≤ result }
        ensures below { result < 17179869184 }
        ensures passed { (blocks : Blocks) (redzone : ℕ) → AreGaps blocks redzone self.now → AreNoPlaces blocks size redzone at result }
    {
        let Some(rows) = &self.rows else {
            return at;
        };
        let row = row_of(begin, at);
        if row < rows.len() {
            return rows[row].past(part_of(begin, at), at, size);
        }
        at
    }

    /// Sets the range of the part in which it begins. If memory runs out, the index holds what it did, or nothing.
    pub(crate) fn put(&mut self, alloc: Global, begin: u32, range: Full) -> Result<(), AllocError>
        ensures { (blocks : Blocks) (redzone : ℕ) → IsFull blocks redzone range → AreGaps blocks redzone self.old → AreGaps blocks redzone self.new }
    {
        let from = u64::from(range.from);
        match &mut self.rows {
            Some(shared) => put_in_rows(
                shared,
                alloc,
                row_of(begin, from),
                part_of(begin, from),
                range,
            ),
            None => Ok(()),
        }
    }

    /// Returns whether the row of an address ends at another or below it, and may have a place for a size.
    fn is_passed(&self, row: usize, below: u64, size: u32) -> bool {
        let Some(rows) = &self.rows else {
            return false;
        };
        row < rows.len() && u64::from(rows[row].whole.until) <= below && size < rows[row].whole.size
    }

    /// Notes that no block of a size has a place below an address, for the row in which `at` is.
    pub(crate) fn pass(
        &mut self,
        begin: u32,
        at: u64,
        below: u64,
        size: u32,
    ) -> Result<(), AllocError>
        ensures { (blocks : Blocks) (redzone : ℕ) → AreNoPlaces blocks size redzone 0 below → AreGaps blocks redzone self.old → AreGaps blocks redzone self.new }
    {
        let row = row_of(begin, at);
        if !self.is_passed(row, below, size) {
            return Ok(());
        }
        match &mut self.rows {
            Some(shared) => pass_in_rows(shared, row, below, size),
            None => Ok(()),
        }
    }

    /// Takes account of a range that became free. If memory runs out for a copy, there is no index any more.
    pub(crate) fn raise(&mut self, opened: &Opened)
        ensures { IsRaised opened.now self.old self.new }
    {
        if let Some(shared) = &mut self.rows
            && raise_rows_in(shared, opened).is_err()
        {
            self.rows = None;
        }
    }

    pub(crate) fn share(&self) -> Result<Gaps, AllocError>
        ensures { IfOk result (λ copy. copy ≡ self.now) }
    {
        let rows = self.rows.clone()?;
        Ok(Gaps { rows })
    }
}
