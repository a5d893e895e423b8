//! Which places are known to be taken, for each class of sizes, so that most allocations look at no kept block. For each class there is a
//! bound below which its least size has no place, and a range further up without a place either. When a low block leaves the queue, the
//! range above its place stays known.
ghost use Rattle.std.specs.Prelude.{◌≡◌, ◌<◌, ◌≤◌, ◌+◌, ◌%◌, ℕ, max, map, slice_set, OnOk, OnErr};
ghost use Rattle.guest_heap.specs.Blocks.{greatest_size};
ghost use Rattle.guest_heap.specs.Bounds.{lowered, IsKnown, IsSkipped, IsTaken};
ghost use Rattle.guest_heap.specs.SharedLists.{items_in};

use crate::region::aligned;
use std::alloc::{AllocError, Global};
use std::rc::Rc;

/// Sizes up to 4,096 are in classes of 16 consecutive sizes. Blocks begin at multiples of 16, so with one redzone for all, the sizes of a
/// class have the same places. Each further class has twice as many sizes as the one before.
const STEP: u32 = 16;

const FINE_SIZES: u32 = 4096;

const FINE_CLASSES: usize = 256;

const DOUBLINGS: usize = 11;

pub(crate) const CLASSES: usize = 268;

/// Sizes that share a bound: the number of their class, and the least of them.
#[derive(Clone, Copy)]
pub(crate) struct SizeClass {
    pub(crate) index: usize,
    pub(crate) least: u32,
}

/// Returns the class of a size.
pub(crate) fn class_of(size: u32) -> SizeClass
    requires { size ≤ greatest_size }
    ensures index { result.index < 268 }
    ensures least { result.least ≤ max size 1 }
{
    let below = size.max(1) - 1;
    if below < FINE_SIZES {
        return SizeClass {
            index: (below / STEP) as usize,
            least: below / STEP * STEP + 1,
        };
    }
    let mut half = FINE_SIZES;
    let mut index = FINE_CLASSES;
    for _doubling in 0..DOUBLINGS {
        if half * 2 <= below {
            half *= 2;
            index += 1;
        }
    }
    SizeClass {
        index,
        least: half + 1,
    }
}

/// Where no block of `size` bytes has a place: below `from`, and from `next` up to, but not including, `until`.
#[derive(Clone, Copy)]
pub(crate) struct Bound {
    pub(crate) size: u32,
    pub(crate) from: u32,
    pub(crate) next: u32,
    pub(crate) until: u32,
}

/// A bound that says nothing.
const NOTHING_KNOWN: Bound = Bound {
    size: 0,
    from: 0,
    next: 0,
    until: 0,
};

/// A bound for each class, once there are any. Copies share the list until one of them changes it.
#[derive(Drop)]
pub(crate) struct Bounds {
    list: Option<Rc<Vec<Bound>>>,
}

/// A range that became free, for blocks with a redzone: its first place, its end, and the greatest size that has a place in it.
#[derive(Clone, Copy)]
pub(crate) struct Opened {
    pub(crate) first: u64,
    pub(crate) end: u64,
    pub(crate) room: u64,
}

/// Returns what is still known. The bound goes down to the range that became free. Of the range further up, the part above that range or
/// else the part below it stays known; if there was no range further up, the places from the end of that range up to the old bound.
fn lowered(bound: Bound, opened: &Opened) -> Bound
    ensures { result ≡ lowered opened.now bound }
{
    if u64::from(bound.size.max(1)) > opened.room {
        return bound;
    }
    let from = u64::from(bound.from).min(opened.first) as u32;
    if bound.until <= bound.from && opened.end < u64::from(bound.from) {
        return Bound {
            size: bound.size,
            from,
            next: opened.end as u32,
            until: bound.from,
        };
    }
    if opened.end < u64::from(bound.until) {
        return Bound {
            size: bound.size,
            from,
            next: bound.next.max(opened.end as u32),
            until: bound.until,
        };
    }
    Bound {
        size: bound.size,
        from,
        next: bound.next,
        until: u64::from(bound.until).min(opened.first) as u32,
    }
}

/// Returns the least multiple of 16 that is not below `at` and that a bound leaves open.
pub(crate) fn past(at: u64, bound: &Bound) -> u64
    requires multiple { at % 16 ≡ 0 }
    requires below { at < 17179869184 }
    ensures multiple { result % 16 ≡ 0 }
    ensures above { at ≤ result }
    ensures below { result < 17179869184 }
    ensures passed { (q : ℕ) → at ≤ q → q < result → q % 16 ≡ 0 → IsSkipped bound.now q }
{
    if u64::from(bound.next) <= at && at < u64::from(bound.until) {
        return aligned(u64::from(bound.until));
    }
    at
}

/// Returns the bounds of a list, or none if it is absent.
fn listed(list: &Option<Rc<Vec<Bound>>>) -> &[Bound]
    ensures { result.now ≡ items_in list.now }
{
    match list {
        Some(shared) => shared.as_slice(),
        None => &[],
    }
}

/// Returns the greatest known bound of a class. A class has no place where a smaller size has none.
fn known_in(list: &[Bound], class: &SizeClass) -> u32
    requires { class.now.index < 268 }
    ensures { IsKnown list.now class.now.least result }
{
    let mut known = 0;
    for index in 0..(class.index + 1).min(list.len()) {
        let bound = list[index];
        if bound.size <= class.least && bound.from > known {
            known = bound.from;
        }
    }
    known
}

/// Returns what is known of places for a class, with its least size.
fn taken_from(list: &[Bound], class: &SizeClass) -> Bound
    ensures size { result.size ≡ class.now.least }
    ensures known { IsTaken list.now result }
{
    if let Some(bound) = list.get(class.index)
        && bound.size <= class.least
    {
        return Bound {
            size: class.least,
            from: bound.from,
            next: bound.next,
            until: bound.until,
        };
    }
    Bound {
        size: class.least,
        from: 0,
        next: 0,
        until: 0,
    }
}

/// Sets a bound.
fn put_at(list: &mut Vec<Bound>, index: usize, bound: Bound)
    ensures { list.new.items ≡ slice_set list.old.items index bound }
{
    if index < list.len() {
        list[index] = bound;
    }
}

/// Sets a bound, in a copy if others share the list.
fn put_in(shared: &mut Rc<Vec<Bound>>, index: usize, bound: Bound) -> Result<(), AllocError>
    ensures ok { OnOk result (shared.new.value.items ≡ slice_set shared.old.value.items index bound) }
    ensures err { OnErr result (shared.new.value.items ≡ shared.old.value.items) }
{
    let own = Rc::make_mut(shared)?;
    put_at(own, index, bound);
    Ok(())
}

fn lower_all(list: &mut Vec<Bound>, opened: &Opened)
    ensures { list.new.items ≡ map (lowered opened.now) list.old.items }
{
    for bound in list.iter_mut() {
        *bound = lowered(*bound, opened);
    }
}

/// Lowers the bounds, in a copy if others share the list.
fn lower_in(shared: &mut Rc<Vec<Bound>>, opened: &Opened) -> Result<(), AllocError>
    ensures { OnOk result (shared.new.value.items ≡ map (lowered opened.now) shared.old.value.items) }
{
    let own = Rc::make_mut(shared)?;
    lower_all(own, opened);
    Ok(())
}

impl Bounds {
    ghost use Rattle.std.specs.Prelude.{◌≡◌, ◌<◌, IfOk, OnOk, OnErr, length, nat_eq, slice_set};
    ghost use Rattle.guest_heap.specs.Bounds.{AreFresh, IsKnown, IsTaken, IsLowered};
    ghost use Rattle.guest_heap.specs.BoundLists.{bounds_in};

    /// Returns no bounds. Allocates nothing.
    pub(crate) fn new() -> Bounds
        ensures { AreFresh (bounds_in result) }
    {
        Bounds { list: None }
    }

    /// Returns whether there are no bounds yet.
    pub(crate) fn are_absent(&self) -> bool
        ensures { result ≡ nat_eq (length (bounds_in self.now)) 0 }
    {
        listed(&self.list).is_empty()
    }

    /// Returns the greatest known bound of a class. A class has no place where a smaller size has none.
    pub(crate) fn known(&self, class: &SizeClass) -> u32
        requires { class.now.index < 268 }
        ensures { IsKnown (bounds_in self.now) class.now.least result }
    {
        known_in(listed(&self.list), class)
    }

    /// Returns what is known of places for a class, with its least size.
    pub(crate) fn get(&self, class: &SizeClass) -> Bound
        ensures size { result.size ≡ class.now.least }
        ensures known { IsTaken (bounds_in self.now) result }
    {
        taken_from(listed(&self.list), class)
    }

    /// Sets a bound, if there are any. If memory runs out for a copy of the list, the bounds stay as they were.
    pub(crate) fn put(&mut self, index: usize, bound: Bound) -> Result<(), AllocError>
        ensures ok { OnOk result (bounds_in self.new ≡ slice_set (bounds_in self.old) index bound) }
        ensures err { OnErr result (bounds_in self.new ≡ bounds_in self.old) }
    {
        match &mut self.list {
            Some(shared) => put_in(shared, index, bound),
            None => Ok(()),
        }
    }

    /// Sets the bound of each class to one that says nothing. If memory runs out, there are no bounds.
    pub(crate) fn forget(&mut self, alloc: Global) -> Result<(), AllocError>
        ensures { AreFresh (bounds_in self.new) }
    {
        self.list = None;
        let list = vec![in alloc; NOTHING_KNOWN; CLASSES]?;
        self.list = Some(Rc::new(alloc, list)?);
        Ok(())
    }

    /// Takes account of a range that became free. If memory runs out for a copy of the list, there are no bounds any more.
    pub(crate) fn lower(&mut self, opened: &Opened)
        ensures { IsLowered opened.now (bounds_in self.old) (bounds_in self.new) }
    {
        if let Some(shared) = &mut self.list
            && lower_in(shared, opened).is_err()
        {
            self.list = None;
        }
    }

    pub(crate) fn share(&self) -> Result<Bounds, AllocError>
        ensures { IfOk result (λ copy. bounds_in copy ≡ bounds_in self.now) }
    {
        let list = self.list.clone()?;
        Ok(Bounds { list })
    }
}
