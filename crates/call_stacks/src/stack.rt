//! Call stacks.
ghost use Rattle.std.specs.Prelude.{◌↔◌, ◌≡◌, ◌==◌, [], IfOk, IsTrue, length, position, slice_get};
ghost use Rattle.std.specs.Option.{option_copied};
ghost use Rattle.call_stacks.specs.Frames.{called, returned, trace_at};

use crate::trace::{LONGEST_TRACE, Trace};
use circular_buffer::HeapCircularBuffer;
use std::alloc::{AllocError, Global};
use std::marker::Model;

/// The greatest number of frames of a stack.
const FRAMES: usize = 256;

/// A call that is on the stack.
#[derive(Clone, Copy, Debug, PartialEq, Eq)]
pub struct Frame {
    /// The address of the instruction that called.
    pub site: u32,
    /// The address that the call returns to.
    pub return_to: u32,
}

/// The newest 256 calls that have not returned. Contracts see the list of their frames, newest first.
#[derive(Drop)]
pub struct CallStack {
    frames: HeapCircularBuffer<Frame>,
}

impl Model for CallStack {
    ghost use Rattle.std.specs.Prelude.{List, ◌≡◌};
    ghost use Rattle.call_stacks.specs.declared.stack.Frame.{Frame};

    ghost Value = { List Frame };

    ghost view = { λ s. s.frames.items };

    ghost invariant = { λ s. s.frames.capacity ≡ 256 };
}

/// Returns whether two frames are the same, or there are none.
fn are_same(one: Option<&Frame>, other: Option<&Frame>) -> bool
    ensures { IsTrue result ↔ option_copied one.entry ≡ option_copied other.entry }
{
    match (one, other) {
        (Some(one), Some(other)) => *one == *other,
        (None, None) => true,
        _ => false,
    }
}

#[tactic(auto, unfolding(crate::specs::Frames::returned, crate::specs::Frames::trace_at))]
impl CallStack {
    /// Returns a stack with no frames. Allocates all the memory that the stack needs.
    pub fn new(alloc: Global) -> Result<CallStack, AllocError>
        ensures { IfOk result (λ stack. stack ≡ []) }
    {
        let frames = HeapCircularBuffer::with_capacity(alloc, FRAMES)?;
        Ok(CallStack { frames })
    }

    /// Pushes a call from `site` that returns to `ret`; of 257 frames, drops the oldest. Allocates nothing.
    pub fn call(&mut self, site: u32, ret: u32)
        ensures { self.new ≡ called (record { site = site; return_to = ret }) self.old }
    {
        self.frames.push_front(Frame {
            site,
            return_to: ret,
        });
    }

    /// Returns to `target`: removes the newest frame with that return address, and all newer ones, or nothing if there is none. Allocates
    /// nothing, and costs one pass over the frames.
    pub fn back_to(&mut self, target: u32)
        ensures { self.new ≡ returned target self.old }
    {
        if let Some(newer) = self.newest_returning_to(target) {
            let kept = self.frames.len().saturating_sub(newer + 1);
            self.frames.truncate_front(kept);
        }
    }

    /// Returns the number of frames that are newer than the newest one that returns to `target`.
    fn newest_returning_to(&self, target: u32) -> Option<usize>
        ensures { result ≡ position (λ frame. frame.return_to == target) self.now }
    {
        for i in 0..self.frames.len() {
            if let Some(frame) = self.frames.get(i) {
                if frame.return_to == target {
                    return Some(i);
                }
            }
        }
        None
    }

    /// Returns the number of frames.
    pub fn depth(&self) -> usize
        ensures { result ≡ length self.now }
    {
        self.frames.len()
    }

    /// Returns a frame by the number of newer ones, if there is one.
    pub fn frame(&self, newer: usize) -> Option<Frame>
        ensures { result ≡ slice_get self.now newer }
    {
        match self.frames.get(newer) {
            Some(frame) => Some(*frame),
            None => None,
        }
    }

    /// Returns the trace at `pc`: `pc`, and the sites of the newest calls.
    pub fn trace(&self, pc: u32) -> Trace
        ensures { result ≡ trace_at pc self.now }
    {
        let mut trace = Trace::of(pc);
        for i in 0..(LONGEST_TRACE - 1).min(self.frames.len()) {
            if let Some(frame) = self.frames.get(i) {
                trace.push(frame.site);
            }
        }
        trace
    }

    /// Returns a copy, which later changes of the original don't reach. Costs a copy of the frames held.
    pub fn share(&self) -> Result<CallStack, AllocError>
        ensures { IfOk result (λ copy. copy ≡ self.now) }
    {
        let (newer, older) = self.frames.as_slices();
        let capacity = self.frames.capacity();
        let mut frames = HeapCircularBuffer::with_capacity(*self.frames.allocator(), capacity)?;
        frames.extend_from_slice(newer);
        frames.extend_from_slice(older);
        Ok(CallStack { frames })
    }

    /// Returns whether another stack has the same frames. Allocates nothing, and costs one pass over the frames.
    pub fn is_same(&self, other: &CallStack) -> bool
        ensures { IsTrue result ↔ self.now ≡ other.now }
    {
        if self.frames.len() != other.frames.len() {
            return false;
        }
        for i in 0..self.frames.len() {
            if !are_same(self.frames.get(i), other.frames.get(i)) {
                return false;
            }
        }
        true
    }
}
