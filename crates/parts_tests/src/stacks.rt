//! Calls, returns and traces.
use crate::{comes, holds};
use call_stacks::{CallStack, Trace};
use std::alloc::{AllocError, Global};

/// Calls from 0x1000, 0x1010, 0x1020 and on, each of which returns to the next instruction.
const FIRST: u32 = 0x1000;

/// Executes `count` calls.
fn call_each(stack: &mut CallStack, count: u32) {
    let mut site = FIRST;
    for _call in 0..count {
        stack.call(site, site.wrapping_add(4));
        site = site.wrapping_add(16);
    }
}

/// Returns the number of addresses of the trace at 8.
fn depth(stack: &CallStack) -> usize {
    stack.trace(8).addresses().len()
}

/// Returns whether there are 256 frames, of which the oldest is the second that was pushed.
fn begins_with_the_second(stack: &CallStack) -> bool {
    let Some(oldest) = stack.frame(255) else {
        return false;
    };
    stack.depth() == 256 && oldest.site == 0x1010
}

/// Returns whether the oldest of 257 frames is gone, so that a return to it changes nothing, and a return to the second, which is the
/// oldest that was kept, removes all.
fn has_256(stack: &mut CallStack) -> bool {
    stack.back_to(0x1004);
    if depth(stack) != 24 || stack.trace(8).addresses().get(1).copied() != Some(0x2000) {
        return false;
    }
    stack.back_to(0x1014);
    depth(stack) == 1
}

/// Returns whether that holds, and a copy stays as it was.
fn drops_the_oldest(stack: &mut CallStack) -> Result<bool, AllocError> {
    call_each(stack, 257);
    let copy = stack.share()?;
    Ok(begins_with_the_second(&copy) && has_256(stack) && depth(&copy) == 24)
}

/// Calls, each by its site and its return address.
const CALLS: [(u32, u32); 4] = [(0x10, 0x14), (0x20, 0x24), (0x30, 0x24), (0x40, 0x44)];

/// The targets of the returns after those, and the trace then.
const RETURNS: [(u32, &[u32]); 4] = [
    (0, &[8, 0x40, 0x30, 0x20, 0x10]),
    (0x28, &[8, 0x40, 0x30, 0x20, 0x10]),
    (0x24, &[8, 0x20, 0x10]),
    (0x24, &[8, 0x10]),
];

/// Returns whether the trace at 8 has these addresses after a return to a target.
fn is_back(stack: &mut CallStack, target: u32, addresses: &[u32]) -> bool {
    stack.back_to(target);
    stack.trace(8).addresses() == addresses
}

/// Returns whether returns remove the right frames of four calls.
fn returns_past(stack: &mut CallStack) -> bool {
    for (site, ret) in &CALLS {
        stack.call(*site, *ret);
    }
    for (target, addresses) in &RETURNS {
        if !is_back(stack, *target, addresses) {
            return false;
        }
    }
    true
}

/// Returns whether one of these two holds for a new stack.
fn stacks_calls(alloc: Global, many: bool) -> Result<bool, AllocError> {
    let mut stack = CallStack::new(alloc)?;
    if many {
        return drops_the_oldest(&mut stack);
    }
    Ok(returns_past(&mut stack))
}

/// Returns whether a trace of these addresses has them.
fn is_made(addresses: &[u32]) -> bool {
    match Trace::new(addresses) {
        Some(trace) => trace.addresses() == addresses,
        None => false,
    }
}

/// Returns whether a trace has 1 to 24 addresses.
fn have_1_to_24() -> bool {
    Trace::of(8).addresses() == [8].as_slice()
        && Trace::new(&[]).is_none()
        && Trace::new(&[1; 25]).is_none()
        && is_made(&[1; 24])
}

#[test]
fn stacks_and_traces(rt: HostRuntime) {
    comes(
        &rt,
        "the oldest of 257 frames",
        stacks_calls(rt.alloc(), true),
    );
    comes(
        &rt,
        "returns past newer frames",
        stacks_calls(rt.alloc(), false),
    );
    holds(&rt, "traces of 1 to 24", have_1_to_24());
}
