//! Machines that show the same.
ghost use Rattle.std.specs.Prelude.{◌≡◌, IfOk, IfSome, IsTrue};
ghost use Rattle.control_registers.specs.Written.{registers_in};
ghost use Rattle.shadow_memory.specs.Memories.{shadows_in};
ghost use Rattle.guest_machine.specs.Differences.{ShowsButFor};
ghost use Rattle.guest_machine.specs.Shows.{bytes_of, core_of, Holds, Shows};
ghost use Rattle.guest_machine.specs.State.{State};

use crate::machine::{Guest, Machine, Progress};
use definedness::Bits;
use shadow_memory::WordApart;
use std::alloc::AllocError;

/// Returns whether registers are the same, with the same undefined bits.
fn are_same(registers: &[Bits], others: &[Bits]) -> bool
    ensures { IsTrue result → registers.now ≡ others.now }
{
    registers == others
}

impl Progress {
    /// Returns whether another program has come as far.
    fn is_same(&self, other: &Progress) -> bool
        ensures { IsTrue result → self.now ≡ other.now }
    {
        self.position == other.position
            && self.end_seen == other.end_seen
            && self.output_len == other.output_len
            && self.heap_calls == other.heap_calls
    }
}

impl Guest {
    /// Returns whether another guest shows the same number of steps.
    fn shows_steps_of(&self, other: &Guest) -> bool
        requires { self.now.isa ≡ other.now.isa }
        ensures { IsTrue result → (core_of self.now).steps ≡ (core_of other.now).steps }
    {
        !self.isa.has_controls() || self.steps == other.steps
    }

    /// Returns whether another guest has the same registers, pc, status, instruction set, region of the stack, limits of calls and
    /// reservation, and is as far.
    fn has_core_of(&self, other: &Guest) -> bool
        ensures pc { IsTrue result → self.now.pc ≡ other.now.pc }
        ensures status { IsTrue result → self.now.status ≡ other.now.status }
        ensures isa { IsTrue result → self.now.isa ≡ other.now.isa }
        ensures stack { IsTrue result → self.now.stack ≡ other.now.stack }
        ensures limits { IsTrue result → self.now.limits ≡ other.now.limits }
        ensures reserved { IsTrue result → self.now.reserved ≡ other.now.reserved }
        ensures controls { IsTrue result → registers_in self.now.controls ≡ registers_in other.now.controls }
        ensures steps { IsTrue result → (core_of self.now).steps ≡ (core_of other.now).steps }
        ensures registers { IsTrue result → self.now.registers ≡ other.now.registers }
        ensures progress { IsTrue result → self.now.progress ≡ other.now.progress }
    {
        self.pc == other.pc
            && self.status == other.status
            && self.isa == other.isa
            && self.stack == other.stack
            && self.limits == other.limits
            && self.reserved == other.reserved
            && self.shows_steps_of(other)
            && self.progress.is_same(&other.progress)
            && are_same(&self.registers, &other.registers)
            && self.controls.is_same(&other.controls)
    }

    /// Returns whether another guest holds the same besides the memory. What costs least is compared first.
    fn has_rest_of(&self, other: &Guest) -> bool
        ensures { IsTrue result → shadows_in self.now.memory ≡ shadows_in other.now.memory
            → (s : State) → Holds self.now s → Holds other.now (record s { bytes = bytes_of other.now }) }
    {
        self.has_core_of(other)
            && self.frames.is_same(&other.frames)
            && self.noted.groups.are_same(&other.noted.groups)
            && self.heap.is_same(&other.heap)
    }

    /// Returns whether another guest holds the same.
    fn is_same(&self, other: &Guest) -> bool
        ensures { IsTrue result → (s : State) → Holds self.now s → Holds other.now s }
    {
        self.has_rest_of(other) && self.memory.memory().is_same(other.memory.memory())
    }

    /// Returns the words in which the memory of another guest has other bytes, if all else is the same.
    fn words_apart(&self, other: &Guest) -> Result<Option<Vec<WordApart>>, AllocError>
        ensures { IfOk result (λ found. IfSome found (λ words. ShowsButFor words.items (Holds self.now) (Holds other.now))) }
    {
        if !self.has_rest_of(other) {
            return Ok(None);
        }
        self.memory.memory().words_apart(other.memory.memory())
    }
}

#[tactic(auto, unfolding(crate::specs::Shows::Shows))]
impl Machine {
    /// Returns whether another machine shows each state that this one shows. May also return `false` for such a machine, as it does if much
    /// memory is used, there are many errors or many blocks, or if they are kept in another way. Compares what costs least first.
    pub fn is_same(&self, other: &Machine) -> bool
        ensures { IsTrue result → (s : State) → Shows self.now s → Shows other.now s }
    {
        self.guest.is_same(&other.guest)
    }

    /// Returns the words in which the memory of another machine has other bytes, if both show the same but for these. May also return `None`
    /// for such a machine, as [`Machine::is_same`] may return `false`, or if many words differ. Compares what costs least first.
    pub fn words_apart(&self, other: &Machine) -> Result<Option<Vec<WordApart>>, AllocError>
        ensures { IfOk result (λ found. IfSome found (λ words. ShowsButFor words.items (Shows self.now) (Shows other.now))) }
    {
        self.guest.words_apart(&other.guest)
    }
}
