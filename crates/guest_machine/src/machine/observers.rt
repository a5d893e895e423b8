//! What is seen of a machine.
ghost use Rattle.std.specs.Prelude.{◌≡◌, length};
ghost use Rattle.guest_machine.specs.State.{State};
ghost use Rattle.guest_machine.specs.Controls.{control_seen};
ghost use Rattle.guest_machine.specs.Registers.{register as register_of};
ghost use Rattle.shadow_memory.specs.Memories.{bytes_in, shadows_in};
ghost use Rattle.guest_heap.specs.Heaps.{blocks_of};
ghost use Rattle.error_events.specs.Groups.{grouped};
ghost use Rattle.error_events.specs.Shown.{groups_of};
ghost use Rattle.guest_machine.specs.Shows.{Shows, has_raised};

use crate::machine::Machine;
use call_stacks::CallStack;
use definedness::Bits;
use error_events::Groups;
use guest_elf::Isa;
use guest_heap::Heap;
use instructions::Register;
use run_values::Status;
use shadow_memory::Memory;

#[tactic(auto, unfolding(crate::specs::Shows::Shows))]
impl Machine {
    /// Returns whether the machine runs.
    pub fn status(&self) -> Status
        ensures { (s : State) → Shows self.now s → result ≡ s.core.status }
    {
        self.guest.status
    }

    /// Returns the address of the next instruction; for a stopped or exited machine, of its last one.
    pub fn pc(&self) -> u32
        ensures { (s : State) → Shows self.now s → result ≡ s.core.pc }
    {
        self.guest.pc
    }

    /// Returns the instruction set, which stays that of the image.
    pub fn isa(&self) -> Isa
        ensures { (s : State) → Shows self.now s → result ≡ s.core.isa }
    {
        self.guest.isa
    }

    /// Returns the first address of the heap's region.
    pub fn heap_begin(&self) -> u32
        ensures { (s : State) → Shows self.now s → result ≡ s.core.blocks.begin }
    {
        self.guest.heap.begin()
    }

    /// Returns the number of bytes of input read.
    pub fn position(&self) -> u64
        ensures { (s : State) → Shows self.now s → result ≡ s.position }
    {
        self.guest.progress.position
    }

    /// Returns whether a read of the input has asked for more bytes than were left.
    pub fn end_seen(&self) -> bool
        ensures { (s : State) → Shows self.now s → result ≡ s.end_seen }
    {
        self.guest.progress.end_seen
    }

    /// Returns the number of bytes written.
    pub fn output_len(&self) -> u64
        ensures { (s : State) → Shows self.now s → result ≡ length s.output }
    {
        self.guest.progress.output_len
    }

    /// Returns the number of heap calls.
    pub fn heap_calls(&self) -> u64
        ensures { (s : State) → Shows self.now s → result ≡ s.heap_calls }
    {
        self.guest.progress.heap_calls
    }

    /// Returns the frames of the calls that the machine is in.
    pub fn frames(&self) -> &CallStack
        ensures { (s : State) → Shows self.now s → result.now ≡ s.core.frames }
    {
        &self.guest.frames
    }

    /// Returns a register's value and undefined bits; x0 is 0.
    pub fn register(&self, register: Register) -> Bits
        ensures { (s : State) → Shows self.now s → result ≡ register_of s.core register }
    {
        self.guest.read_register(register)
    }

    /// Returns a control register's value and undefined bits, if the instruction set has control registers.
    pub fn control(&self, number: u16) -> Option<Bits>
        ensures { (s : State) → Shows self.now s → result ≡ control_seen s.core number }
    {
        self.guest.control_seen(number)
    }

    /// Returns whether the last step raised an error.
    #[tactic(auto, unfolding(crate::specs::Shows::has_raised))]
    pub fn has_raised(&self) -> bool
        ensures { result ≡ has_raised self.now }
    {
        self.guest.noted.raised
    }

    /// Returns the memory: each byte, and what is known of it.
    pub fn memory(&self) -> &Memory
        ensures bytes { (s : State) → Shows self.now s → bytes_in result.now ≡ s.bytes }
        ensures shadows { (s : State) → Shows self.now s → shadows_in result.now ≡ s.core.shadow }
    {
        self.guest.memory.memory()
    }

    /// Returns the heap: its live blocks, and those freed that are not forgotten yet.
    pub fn heap(&self) -> &Heap
        ensures { (s : State) → Shows self.now s → blocks_of result.now ≡ s.core.blocks }
    {
        &self.guest.heap
    }

    /// Returns the errors so far, counted by kind and trace, in order of first occurrence.
    pub fn groups(&self) -> &Groups
        ensures { (s : State) → Shows self.now s → groups_of result.now ≡ grouped s.events }
    {
        &self.guest.noted.groups
    }
}
