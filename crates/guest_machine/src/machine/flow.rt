//! Where a machine goes next: pc, whether it runs, and the frames of the calls that it is in.
ghost use Rattle.std.specs.Prelude.{◌≡◌};
ghost use Rattle.guest_machine.specs.Effects.{moved_to, next_of, stopped, jumped, linked_jump};
ghost use Rattle.instructions.specs.CallStack.{hinted};
ghost use Rattle.guest_machine.specs.NamedCalls.{returned_to};
ghost use Rattle.guest_machine.specs.Shows.{core_of};
ghost use Rattle.guest_machine.specs.Doing.{Sets};

use crate::machine::Guest;
use crate::machine::registers::known;
use call_stacks::CallStack;
use instructions::{Register, StackHint};
use run_values::{Status, Stop};

/// Calls and returns, by the hint of a jump from an address to another; `next` is the address after the jump.
#[tactic(auto, unfolding(instructions::specs::CallStack::hinted))]
fn apply_hint(frames: &mut CallStack, hint: StackHint, pc: u32, next: u32, to: u32)
    ensures { frames.new ≡ hinted hint pc next to frames.old }
{
    match hint {
        StackHint::NoHint => {}
        StackHint::Pop => frames.back_to(to),
        StackHint::Push => frames.call(pc, next),
        StackHint::PopPush => {
            frames.back_to(to);
            frames.call(pc, next);
        }
    }
}

impl Guest {
    /// Goes on at the address after the instruction.
    #[inline(always)]
    pub(super) fn advance(&mut self, next: u32)
        ensures { Sets self.old self.new (moved_to (core_of self.old) next) }
    {
        self.pc = next;
    }

    /// Goes on after an instruction of this length. It adds to pc where pc is kept, which costs less than `advance`.
    #[inline(always)]
    pub(super) fn advance_by(&mut self, len: u32)
        ensures { Sets self.old self.new (moved_to (core_of self.old) (next_of (core_of self.old) len)) }
    {
        self.pc = self.pc.wrapping_add(len);
    }

    /// Stops for good, at this pc.
    #[inline(always)]
    pub(super) fn stop(&mut self, stop: Stop)
        ensures { Sets self.old self.new (stopped (core_of self.old) stop) }
    {
        self.status = Status::Stopped(stop);
    }

    /// Jumps to an address, or stops if no instruction may begin there.
    #[inline(always)]
    #[tactic(auto, unfolding(crate::specs::Effects::jumped))]
    pub(super) fn jump(&mut self, to: u32)
        ensures { Sets self.old self.new (jumped (core_of self.old) to) }
    {
        if self.isa.aligns(to) {
            self.pc = to;
        } else {
            self.stop(Stop::Misaligned);
        }
    }

    /// Jumps to an address, and leaves the address after this instruction in rd; stops if no instruction may begin there.
    #[tactic(auto, unfolding(crate::specs::Effects::linked_jump))]
    pub(super) fn linked_jump(&mut self, next: u32, hint: StackHint, rd: Register, to: u32)
        ensures { Sets self.old self.new (linked_jump (core_of self.old) next hint rd to) }
    {
        if self.isa.aligns(to) {
            apply_hint(&mut self.frames, hint, self.pc, next, to);
            self.set_register(rd, known(next));
            self.pc = to;
        } else {
            self.stop(Stop::Misaligned);
        }
    }

    /// Returns to an address.
    pub(super) fn return_to(&mut self, to: u32)
        ensures { Sets self.old self.new (returned_to to (core_of self.old)) }
    {
        self.frames.back_to(to);
        self.pc = to;
    }
}
