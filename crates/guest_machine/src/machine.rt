//! The machine: what it keeps, and (in the modules below) what changes it.
ghost use Rattle.std.specs.Prelude.{◌≡◌, slice_index_or};
ghost use Rattle.guest_machine.specs.Registers.{known};

mod altering;
mod atomics;
mod between;
mod calls;
mod checks;
mod comparing;
mod csrs;
mod decoded;
mod execute;
mod fetching;
mod flow;
mod heap_calls;
mod named_calls;
mod observers;
mod registers;
mod stack;
mod step;
mod streams;

use crate::cached_memory::CachedMemory;
use call_stacks::CallStack;
use control_registers::ControlRegisters;
use definedness::Bits;
use error_events::{Event, Groups};
use guest_elf::{Isa, StreamLimits};
use guest_heap::Heap;
use memory_map::StackRegion;
use run_values::Status;
use std::alloc::{AllocError, Global};

/// How far a program has come, which only increases: bytes of input read and whether its end was seen, bytes of output, heap calls.
#[derive(Clone, Copy)]
pub(crate) struct Progress {
    position: u64,
    end_seen: bool,
    output_len: u64,
    heap_calls: u64,
}

impl Progress {
    ghost use Rattle.std.specs.Prelude.{◌+◌, ◌^◌, ◌<◌, IsTrue, min, nat_lt, nat_le};
    ghost use Rattle.guest_machine.specs.Exec.{seen_also};

    /// Counts n bytes of the input as read, of those that were asked for.
    fn note_read(&mut self, asked: u32, n: u32)
        requires { self.old.position + n < 2 ^ 64 }
        ensures position { self.new.position ≡ self.old.position + n }
        ensures end_seen { self.new.end_seen ≡ seen_also self.old.end_seen (nat_lt n asked) }
        ensures output { self.new.output_len ≡ self.old.output_len }
        ensures heap_calls { self.new.heap_calls ≡ self.old.heap_calls }
    {
        self.position += u64::from(n);
        if n < asked {
            self.end_seen = true;
        }
    }

    /// Whether there is room for `len` further bytes of output, of `most` in all.
    fn has_room(&self, len: u32, most: u64) -> bool
        ensures room { result ≡ nat_le (self.now.output_len + len) most }
        ensures fits { IsTrue result → self.now.output_len + len < 2 ^ 64 }
    {
        let len = u64::from(len);
        len <= most && self.output_len <= most - len
    }

    fn count_heap_call(&mut self)
        ensures position { self.new.position ≡ self.old.position }
        ensures end_seen { self.new.end_seen ≡ self.old.end_seen }
        ensures output { self.new.output_len ≡ self.old.output_len }
        ensures counted { self.new.heap_calls ≡ min (self.old.heap_calls + 1) u64.MAX }
    {
        self.heap_calls = self.heap_calls.saturating_add(1);
    }
}

/// The errors so far, counted by kind and trace, and whether one was raised since the last step began.
#[derive(Drop)]
pub(crate) struct Noted {
    groups: Groups,
    raised: bool,
}

impl Noted {
    ghost use Rattle.std.specs.Prelude.{◌∷◌, [], OnOk};
    ghost use Rattle.guest_machine.specs.Doing.{noted_of, note_events};

    /// Adds an error.
    #[tactic(auto, unfolding(crate::specs::Doing::note_events))]
    fn add(&mut self, event: Event) -> Result<(), AllocError>
        ensures { OnOk result (noted_of self.new ≡ note_events (noted_of self.old) (event ∷ [])) }
    {
        self.groups.add(event)?;
        self.raised = true;
        Ok(())
    }
}

/// A guest machine between two steps. Its contents are on the heap, so that a step moves one pointer.
#[derive(Drop)]
pub struct Machine {
    guest: Box<Guest>,
}

/// What a machine holds: memory, registers, pc, status, calls, heap, progress, its errors, its instruction set, the region of its stack, how
/// many bytes its calls move, the address that is reserved, if one is, its control registers and the number of steps. Each step counts in
/// each instruction set, and shows only where there are counters.
#[derive(Drop)]
pub(crate) struct Guest {
    alloc: Global,
    memory: CachedMemory,
    registers: [Bits; 32],
    pc: u32,
    status: Status,
    frames: CallStack,
    heap: Heap,
    progress: Progress,
    noted: Noted,
    isa: Isa,
    stack: StackRegion,
    limits: StreamLimits,
    reserved: Option<u32>,
    controls: ControlRegisters,
    steps: u64,
    // x0 is 0, so that a read tests nothing.
    ghost zero: { slice_index_or registers 0 (known 0) ≡ known 0 },
}
