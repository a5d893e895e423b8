//! The stack pointer rule.
ghost use Rattle.std.specs.Prelude.{◌≡◌, ◌≤◌, OnOk};
ghost use Rattle.guest_machine.specs.StackPointer.{is_stack_pointer, ranged, framed, stack_moved, stack_ruled};
ghost use Rattle.guest_machine.specs.Shows.{core_of, bytes_of};
ghost use Rattle.guest_machine.specs.Doing.{Changes};

use crate::machine::Guest;
use definedness::Bits;
use instructions::Register;
use memory_map::StackRegion;
use shadow_memory::RangeKind;
use std::alloc::AllocError;

/// The most bytes that a stack frame may have.
const LARGEST_FRAME: u32 = 2_000_000;

/// Whether it is a defined address in the stack region, including its end.
fn is_stack_pointer(stack: StackRegion, bits: Bits) -> bool
    ensures { result ≡ is_stack_pointer stack bits }
{
    bits.undef == 0 && stack.begin <= bits.value && bits.value <= stack.end
}

impl Guest {
    /// Makes a range accessible or inaccessible; byte values stay.
    pub(super) fn make(&mut self, start: u32, len: u32, kind: RangeKind) -> Result<(), AllocError>
        ensures { OnOk result (Changes self.old self.new (ranged (core_of self.old) start len kind) (bytes_of self.old)) }
    {
        self.memory.set_range(start, len, kind)?;
        Ok(())
    }

    #[inline(never)]
    #[tactic(auto, unfolding(crate::specs::StackPointer::framed))]
    fn frame(&mut self, low: u32, high: u32, kind: RangeKind) -> Result<(), AllocError>
        requires { low ≤ high }
        ensures { OnOk result (Changes self.old self.new (framed (core_of self.old) low high kind) (bytes_of self.old)) }
    {
        if high - low <= LARGEST_FRAME {
            self.make(low, high - low, kind)?;
        }
        Ok(())
    }

    /// The rule, after an instruction before which x2 was `old`.
    #[inline(always)]
    #[tactic(auto, unfolding(crate::specs::StackPointer::stack_ruled, crate::specs::StackPointer::stack_moved))]
    pub(super) fn stack_rule(&mut self, old: Bits) -> Result<(), AllocError>
        ensures { OnOk result (Changes self.old self.new (stack_ruled old (core_of self.old)) (bytes_of self.old)) }
    {
        let new = self.read_register(Register::new(2));
        if new.value == old.value {
            return Ok(());
        }
        if is_stack_pointer(self.stack, old) && is_stack_pointer(self.stack, new) {
            if new.value < old.value {
                self.frame(new.value, old.value, RangeKind::Undefined)?;
            } else if old.value < new.value {
                self.frame(old.value, new.value, RangeKind::NoAccess)?;
            }
        }
        Ok(())
    }
}
