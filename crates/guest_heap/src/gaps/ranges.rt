//! Ranges of addresses that are full for a size.
ghost use Rattle.std.specs.Prelude.{◌≡◌, ◌<◌, ◌≤◌, max, map, slice_set, OnOk, OnErr, IfOk, IsTrue, []};
ghost use Rattle.guest_heap.specs.Gaps.{IsPut, lies_apart, raised};

use crate::bounds::Opened;
use crate::region::GREATEST_SIZE;
use std::alloc::{AllocError, Global};
use std::rc::Rc;

/// The number of parts of a row.
const PARTS: usize = 256;

/// A range of addresses that is full for a size: no block of `size` bytes has a place from `from` up to, but not including, `until`.
#[derive(Clone, Copy)]
pub(crate) struct Full {
    pub(crate) size: u32,
    pub(crate) from: u32,
    pub(crate) until: u32,
}

/// A range that says nothing.
pub(crate) const UNKNOWN: Full = Full {
    size: 0,
    from: 0,
    until: 0,
};

/// Returns whether a range has an address, and no place for a size.
pub(crate) fn is_full(range: &Full, at: u64, size: u32) -> bool
    ensures { IsTrue result → (range.now.size ≤ max size 1) × (range.now.from ≤ at) × (at < range.now.until) }
{
    range.size <= size.max(1) && u64::from(range.from) <= at && at < u64::from(range.until)
}

/// Returns whether a range that became free doesn't meet another.
pub(crate) fn lies_apart(opened: &Opened, range: &Full) -> bool
    ensures { result ≡ lies_apart opened.now range.now }
{
    opened.end <= u64::from(range.from) || u64::from(range.until) <= opened.first
}

/// Returns a range after another became free. If they meet, its size is then one that fits into neither.
pub(crate) fn raised(range: Full, opened: &Opened) -> Full
    ensures { result ≡ raised opened.now range }
{
    if lies_apart(opened, &range) || u64::from(range.size.max(1)) > opened.room {
        return range;
    }
    Full {
        size: opened.room.min(u64::from(GREATEST_SIZE)) as u32 + 1,
        from: range.from,
        until: range.until,
    }
}

pub(crate) fn raise_all(list: &mut Vec<Full>, opened: &Opened)
    ensures { list.new.items ≡ map (raised opened.now) list.old.items }
{
    for range in list.iter_mut() {
        *range = raised(*range, opened);
    }
}

/// Takes account of a range that became free, in a copy if others share the list.
pub(crate) fn raise_in(shared: &mut Rc<Vec<Full>>, opened: &Opened) -> Result<(), AllocError>
    ensures { OnOk result (shared.new.value.items ≡ map (raised opened.now) shared.old.value.items) }
{
    let own = Rc::make_mut(shared)?;
    raise_all(own, opened);
    Ok(())
}

/// Sets the range of a part.
pub(crate) fn put_at(list: &mut Vec<Full>, part: usize, range: Full)
    ensures { list.new.items ≡ slice_set list.old.items part range }
{
    if part < list.len() {
        list[part] = range;
    }
}

/// Sets the range of a part, in a copy if others share the list.
pub(crate) fn put_in(shared: &mut Rc<Vec<Full>>, part: usize, range: Full) -> Result<(), AllocError>
    ensures ok { OnOk result (shared.new.value.items ≡ slice_set shared.old.value.items part range) }
    ensures err { OnErr result (shared.new.value.items ≡ shared.old.value.items) }
{
    let own = Rc::make_mut(shared)?;
    put_at(own, part, range);
    Ok(())
}

/// Returns the parts of a row, of which only one is known.
pub(crate) fn unknown_but(
    alloc: Global,
    part: usize,
    range: Full,
) -> Result<Rc<Vec<Full>>, AllocError>
    ensures { IfOk result (λ list. IsPut range [] list.value.items) }
{
    let mut list = vec![in alloc; UNKNOWN; PARTS]?;
    put_at(&mut list, part, range);
    Ok(Rc::new(alloc, list)?)
}
