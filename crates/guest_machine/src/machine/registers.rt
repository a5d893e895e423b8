//! The registers.
ghost use Rattle.std.specs.Prelude.{◌≡◌};
ghost use Rattle.guest_machine.specs.Registers.{known, register, set_register, defined};
ghost use Rattle.guest_machine.specs.Effects.{target};
ghost use Rattle.guest_machine.specs.Calls.{answered};
ghost use Rattle.guest_machine.specs.Shows.{core_of};
ghost use Rattle.guest_machine.specs.Doing.{Sets};

use crate::machine::Guest;
use definedness::Bits;
use instructions::Register;

/// A number with no undefined bit.
#[inline(always)]
pub(crate) fn known(value: u32) -> Bits
    ensures { result ≡ known value }
{
    Bits { value, undef: 0 }
}

impl Guest {
    #[inline(always)]
    #[tactic(auto, unfolding(crate::specs::Registers::register))]
    pub(super) fn read_register(&self, r: Register) -> Bits
        ensures { result ≡ register (core_of self.now) r }
    {
        self.registers[r.number()]
    }

    #[inline(always)]
    #[tactic(auto, unfolding(crate::specs::Registers::set_register))]
    pub(super) fn set_register(&mut self, r: Register, bits: Bits)
        ensures { Sets self.old self.new (set_register (core_of self.old) r bits) }
    {
        let i = r.number();
        if i != 0 {
            self.registers[i] = bits;
        }
    }

    /// Makes a register defined.
    pub(super) fn define(&mut self, r: Register)
        ensures { Sets self.old self.new (defined (core_of self.old) r) }
    {
        let value = self.read_register(r).value;
        self.set_register(r, known(value));
    }

    /// The address of a load, a store or JALR.
    #[inline(always)]
    #[tactic(auto, unfolding(crate::specs::Effects::target))]
    pub(super) fn target(&self, rs1: Register, imm: u32) -> u32
        ensures { result ≡ target (core_of self.now) rs1 imm }
    {
        self.read_register(rs1).value.wrapping_add(imm)
    }

    /// Leaves a call's result in a0.
    pub(super) fn answer(&mut self, n: u32)
        ensures { Sets self.old self.new (answered (core_of self.old) n) }
    {
        self.set_register(Register::new(10), known(n));
    }
}
