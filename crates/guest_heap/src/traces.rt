//! Traces that blocks share. A program allocates most of its blocks at few places, and frees them at few.
ghost use Rattle.std.specs.Prelude.{◌≡◌, IsTrue, IfOk, IfSome};

use call_stacks::Trace;
use std::alloc::{AllocError, Global};
use std::marker::Model;
use std::rc::Rc;

/// A trace that blocks share. Contracts see the trace.
#[derive(Drop)]
pub(crate) struct SharedTrace {
    trace: Rc<Trace>,
}

impl Model for SharedTrace {
    ghost use Rattle.std.specs.Prelude.{List, ℕ};

    ghost Value = { List ℕ };

    ghost view = { λ t. t.trace.value };
}

impl SharedTrace {
    fn new(alloc: Global, trace: Trace) -> Result<SharedTrace, AllocError>
        ensures { IfOk result (λ shared. shared ≡ trace) }
    {
        let trace = Rc::new(alloc, trace)?;
        Ok(SharedTrace { trace })
    }

    pub(crate) fn get(&self) -> Trace
        ensures { result ≡ self.now }
    {
        *self.trace
    }

    fn is(&self, trace: &Trace) -> bool
        ensures { IsTrue result → self.now ≡ trace.now }
    {
        self.trace.addresses() == trace.addresses()
    }
}

impl Clone for SharedTrace {
    ghost use Rattle.std.specs.Prelude.{◌≡◌};

    ghost is_clone = { λ trace copy. copy ≡ trace };

    fn clone(&self) -> Result<SharedTrace, AllocError> {
        let trace = self.trace.clone()?;
        Ok(SharedTrace { trace })
    }
}

/// The number of traces that a heap remembers.
const RECENT: usize = 64;

/// Returns the slot in which a trace is remembered. All its addresses count, since every allocation may be by one instruction.
fn slot_of(trace: &Trace) -> usize {
    let mut mixed: u32 = 0;
    for address in trace.addresses() {
        mixed = mixed.wrapping_mul(31).wrapping_add(*address / 4);
    }
    mixed as usize % RECENT
}

/// Traces of blocks that were allocated or freed recently. Copies share them until one of them meets another trace.
#[derive(Drop)]
pub(crate) struct RecentTraces {
    slots: Option<Rc<Vec<Option<SharedTrace>>>>,
}

impl RecentTraces {
    pub(crate) fn new() -> RecentTraces {
        RecentTraces { slots: None }
    }

    /// Returns the trace that is remembered in a slot, if it is this one.
    fn known(&self, slot: usize, trace: &Trace) -> Option<&SharedTrace>
        ensures { IfSome result (λ shared. shared.now ≡ trace.now) }
    {
        let Some(slots) = &self.slots else {
            return None;
        };
        match slots.get(slot) {
            Some(Some(shared)) if shared.is(trace) => Some(shared),
            _ => None,
        }
    }

    fn remember(
        &mut self,
        alloc: Global,
        slot: usize,
        trace: &SharedTrace,
    ) -> Result<(), AllocError> {
        if self.slots.is_none() {
            let slots = vec![in alloc; None; RECENT]?;
            self.slots = Some(Rc::new(alloc, slots)?);
        }
        if let Some(shared) = &mut self.slots {
            let slots = Rc::make_mut(shared)?;
            if slot < slots.len() {
                slots[slot] = Some(trace.clone()?);
            }
        }
        Ok(())
    }

    /// Returns the trace as it is remembered, or else a new one, which is remembered if there is memory for that.
    pub(crate) fn share(&mut self, alloc: Global, trace: &Trace) -> Result<SharedTrace, AllocError>
        ensures { IfOk result (λ shared. shared ≡ trace.now) }
    {
        let slot = slot_of(trace);
        if let Some(known) = self.known(slot, trace) {
            return known.clone();
        }
        let made = SharedTrace::new(alloc, *trace)?;
        let _ = self.remember(alloc, slot, &made);
        Ok(made)
    }
}

impl Clone for RecentTraces {
    fn clone(&self) -> Result<RecentTraces, AllocError> {
        let slots = self.slots.clone()?;
        Ok(RecentTraces { slots })
    }
}
