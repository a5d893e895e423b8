//! What is compared with a copy, and with one in which one thing is another.
use crate::heap::release;
use crate::{comes, holds};
use call_stacks::{CallStack, Trace};
use error_events::{Event, Group, Groups, Kind, Note};
use guest_heap::{Block, Heap, Near, Place};
use shadow_memory::{Memory, RangeKind};
use std::alloc::{AllocError, Global};

/// The groups that are compared; of more, no two lists are found to be the same.
const MOST_GROUPS: u32 = 64;

/// A live block of 8 bytes, or with one thing changed, by its number from 1 to 5.
fn block_with(change: u32) -> Block {
    let freed = Trace::of(0x10010);
    Block {
        start: if change == 1 {
            0x4000_0020
        } else {
            0x4000_0010
        },
        size: if change == 2 { 9 } else { 8 },
        redzone: if change == 3 { 24 } else { 16 },
        trace: Trace::of(if change == 4 { 0x10000 } else { 0x10008 }),
        freed: if change == 5 { Some(freed) } else { None },
    }
}

/// The group of this many reads just after a block.
fn group_of(count: u64) -> Group {
    Group {
        kind: Kind::Read(4),
        trace: Trace::of(0x1000C),
        count,
        note: Note::Near(0x4000_0018, near_by(0)),
    }
}

fn near_by(distance: u32) -> Near {
    Near {
        block: block_with(0),
        place: Place::After,
        distance,
    }
}

/// Returns whether blocks are the same if nothing is changed, or the same thing.
fn blocks_differ() -> bool {
    for one in 0..6 {
        for other in 0..6 {
            if block_with(one).is_same(&block_with(other)) != (one == other) {
                return false;
            }
        }
    }
    true
}

/// Returns whether a block with the place of an address is the same as itself, and as none in which one thing is another.
fn places_differ() -> bool {
    let near = near_by(0);
    let others = [
        near_by(1),
        Near {
            place: Place::Inside,
            ..near
        },
        Near {
            block: block_with(1),
            ..near
        },
    ];
    near.is_same(&near) && !others.iter().any(|other| near.is_same(other))
}

/// Returns whether each note is the same as itself, and as no other one.
fn notes_differ() -> bool {
    let notes = [
        Note::Absent,
        Note::Near(8, near_by(0)),
        Note::Near(8, near_by(1)),
        Note::Near(9, near_by(0)),
        Note::Stack(8),
        Note::Stack(9),
        Note::Elsewhere(8),
        Note::Elsewhere(9),
    ];
    for (i, one) in notes.iter().enumerate() {
        for (j, other) in notes.iter().enumerate() {
            if one.is_same(other) != (i == j) {
                return false;
            }
        }
    }
    true
}

/// Returns whether that is so of a group.
fn groups_differ() -> bool {
    let group = group_of(1);
    let others = [
        group_of(2),
        Group {
            kind: Kind::Write(4),
            ..group
        },
        Group {
            trace: Trace::of(0x10000),
            ..group
        },
        Group {
            note: Note::Absent,
            ..group
        },
    ];
    group.is_same(&group) && !others.iter().any(|other| group.is_same(other))
}

/// Returns whether traces are the same if all their addresses are.
fn traces_differ() -> bool {
    match Trace::new(&[8, 12]) {
        Some(two) => {
            let front = two.front(1);
            two.is_same(&two) && front.is_same(&Trace::of(8)) && !two.is_same(&front)
        }
        None => false,
    }
}

#[test]
fn values_are_compared(rt: HostRuntime) {
    holds(&rt, "blocks", blocks_differ());
    holds(&rt, "places near blocks", places_differ());
    holds(&rt, "notes", notes_differ());
    holds(&rt, "groups", groups_differ());
    holds(&rt, "traces", traces_differ());
}

/// Returns whether a call stack is the same as its copy, but not after one more call, nor after a return and a call from elsewhere.
fn stacks_differ(alloc: Global) -> Result<bool, AllocError> {
    let mut stack = CallStack::new(alloc)?;
    stack.call(0x10, 0x14);
    let copy = stack.share()?;
    let is_alike = stack.is_same(&copy);
    stack.call(0x20, 0x24);
    let is_longer = !stack.is_same(&copy);
    stack.back_to(0x14);
    stack.call(0x30, 0x14);
    Ok(is_alike && is_longer && !stack.is_same(&copy))
}

/// Adds a read at an address.
fn add_read(groups: &mut Groups, address: u32) -> Result<(), AllocError> {
    groups.add(Event {
        kind: Kind::Read(4),
        trace: Trace::of(address),
        note: Note::Absent,
    })
}

/// Returns whether errors are the same as a copy until one more is added: of a group that is there, and of a new one.
fn errors_differ(alloc: Global) -> Result<bool, AllocError> {
    let mut groups = Groups::new(alloc);
    for address in 1..MOST_GROUPS {
        add_read(&mut groups, address)?;
    }
    let early = groups.share()?;
    let is_alike = groups.are_same(&early);
    add_read(&mut groups, 1)?;
    let raised = groups.share()?;
    add_read(&mut groups, 0)?;
    let grown = groups.share()?;
    Ok(is_alike && !raised.are_same(&early) && !grown.are_same(&raised) && grown.are_same(&groups))
}

/// Returns whether a heap is the same as a copy, until a block is allocated and until it is freed.
fn heaps_differ(alloc: Global) -> Result<bool, AllocError> {
    let mut heap = Heap::new(alloc);
    let empty = heap.share()?;
    let is_alike = heap.is_same(&empty);
    let place = heap.allocate(alloc, 8, Trace::of(8), 16)?;
    let live = heap.share()?;
    let is_grown = heap.is_same(&live) && !heap.is_same(&empty);
    let _start = release(alloc, &mut heap, place.unwrap_or(0), 1000)?;
    let freed = heap.share()?;
    Ok(is_alike && is_grown && heap.is_same(&freed) && !heap.is_same(&live))
}

/// Returns whether a memory is the same as a copy until a byte is written, and until one is made undefined.
fn memories_differ(alloc: Global) -> Result<bool, AllocError> {
    let mut memory = Memory::new(alloc);
    memory.fill(0x1_0000, 0x2000, b"a")?;
    let early = memory.share()?;
    let is_alike = memory.is_same(&early);
    memory.fill(0x1_1008, 1, b"b")?;
    let written = memory.share()?;
    memory.set_range(0x1_0FFF, 1, RangeKind::Undefined)?;
    Ok(is_alike && !written.is_same(&early) && !memory.is_same(&written))
}

#[test]
fn what_grows_is_compared(rt: HostRuntime) {
    comes(&rt, "call stacks", stacks_differ(rt.alloc()));
    comes(&rt, "errors", errors_differ(rt.alloc()));
    comes(&rt, "heaps", heaps_differ(rt.alloc()));
    comes(&rt, "memories", memories_differ(rt.alloc()));
}
