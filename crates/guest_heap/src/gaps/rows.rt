//! The rows of parts of a heap's region.
ghost use Rattle.std.specs.Prelude.{◌≡◌, ◌<◌, ◌≤◌, ℕ, map, OnOk, IfOk, []};
ghost use Rattle.memory_map.specs.Regions.{greatest_heap_begin};
ghost use Rattle.guest_heap.specs.Blocks.{Blocks};
ghost use Rattle.guest_heap.specs.States.{AreNoPlaces};
ghost use Rattle.guest_heap.specs.Gaps.{AreGaps, AreUnknown, IsFull, raised_row};

use crate::bounds::Opened;
use crate::gaps::parts::FullParts;
use crate::gaps::ranges::Full;
use crate::gaps::row::GapRow;
use crate::region::GREATEST_SIZE;
use std::alloc::{AllocError, Global};
use std::rc::Rc;

/// The number of addresses of a row.
pub(crate) const ROW: u32 = 4194304;

/// The number of rows of the region.
const ROWS: u32 = 128;

fn raise_rows(rows: &mut Vec<GapRow>, opened: &Opened) -> Result<(), AllocError>
    ensures { OnOk result (rows.new.items ≡ map (raised_row opened.now) rows.old.items) }
{
    for row in rows.iter_mut() {
        row.raise(opened)?;
    }
    Ok(())
}

/// Takes account of a range that became free, in a copy if others share the rows.
pub(crate) fn raise_rows_in(shared: &mut Rc<Vec<GapRow>>, opened: &Opened) -> Result<(), AllocError>
    ensures { OnOk result (shared.new.value.items ≡ map (raised_row opened.now) shared.old.value.items) }
{
    let own = Rc::make_mut(shared)?;
    raise_rows(own, opened)
}

/// Sets the range of a part of a row.
pub(crate) fn put_in_row(
    rows: &mut Vec<GapRow>,
    alloc: Global,
    row: usize,
    part: usize,
    range: Full,
) -> Result<(), AllocError>
    ensures { (blocks : Blocks) (redzone : ℕ) → IsFull blocks redzone range → AreGaps blocks redzone rows.old.items → AreGaps blocks redzone rows.new.items }
{
    if row < rows.len() {
        rows[row].put(alloc, part, range)?;
    }
    Ok(())
}

/// Sets the range of a part of a row, in a copy if others share the rows.
pub(crate) fn put_in_rows(
    shared: &mut Rc<Vec<GapRow>>,
    alloc: Global,
    row: usize,
    part: usize,
    range: Full,
) -> Result<(), AllocError>
    ensures { (blocks : Blocks) (redzone : ℕ) → IsFull blocks redzone range → AreGaps blocks redzone shared.old.value.items → AreGaps blocks redzone shared.new.value.items }
{
    let own = Rc::make_mut(shared)?;
    put_in_row(own, alloc, row, part, range)
}

/// Notes that no block of a size has a place in a row, if the row ends at an address or below it.
pub(crate) fn pass_row(rows: &mut Vec<GapRow>, row: usize, below: u64, size: u32)
    ensures { (blocks : Blocks) (redzone : ℕ) → AreNoPlaces blocks size redzone 0 below → AreGaps blocks redzone rows.old.items → AreGaps blocks redzone rows.new.items }
{
    if row < rows.len() {
        rows[row].pass(below, size);
    }
}

/// Notes that no block of a size has a place in a row, in a copy if others share the rows.
pub(crate) fn pass_in_rows(
    shared: &mut Rc<Vec<GapRow>>,
    row: usize,
    below: u64,
    size: u32,
) -> Result<(), AllocError>
    ensures { (blocks : Blocks) (redzone : ℕ) → AreNoPlaces blocks size redzone 0 below → AreGaps blocks redzone shared.old.value.items → AreGaps blocks redzone shared.new.value.items }
{
    let own = Rc::make_mut(shared)?;
    pass_row(own, row, below, size);
    Ok(())
}

/// Returns a row that begins at an address, of which nothing is known.
pub(crate) fn unknown_row(from: u32) -> GapRow
    requires { from < 4290000000 }
    ensures size { result.whole.size ≡ 16777217 }
    ensures parts { result.parts ≡ [] }
{
    GapRow {
        whole: Full {
            size: GREATEST_SIZE + 1,
            from,
            until: from + ROW,
        },
        parts: FullParts::new(),
    }
}

/// Returns the rows of the region that begins at an address.
pub(crate) fn unknown_rows(alloc: Global, begin: u32) -> Result<Vec<GapRow>, AllocError>
    requires { begin ≤ greatest_heap_begin }
    ensures { IfOk result (λ rows. AreUnknown rows.items) }
{
    let mut rows = Vec::with_capacity(alloc, ROWS as usize)?;
    for i in 0..ROWS {
        rows.push(unknown_row(begin + i * ROW))?;
    }
    Ok(rows)
}
