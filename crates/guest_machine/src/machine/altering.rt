//! What is altered between steps.
ghost use Rattle.std.specs.Prelude.{◌≡◌, OnOk};
ghost use Rattle.guest_machine.specs.Acting.{IsDone};
ghost use Rattle.guest_machine.specs.Alterations.{len_here};
ghost use Rattle.guest_machine.specs.Shows.{bytes_of, core_of};

use crate::machine::Guest;
use crate::machine::registers::known;
use definedness::Bits;
use guest_elf::is_short;
use instructions::{Register, Width};
use run_values::Act;
use shadow_memory::RangeKind;
use std::alloc::AllocError;

impl Guest {
    ghost use Rattle.run_values.specs.declared.alteration.Act.TheVariants.{Make, Set, Flip, Jump, FlipPc, Write, Turn, Skip};

    /// Makes a range so at any time, and does all else if the machine runs.
    pub(super) fn act(&mut self, act: Act) -> Result<(), AllocError>
        ensures { OnOk result (IsDone act self.old self.new) }
    {
        match act {
            Act::Make { addr, len, kind } => self.declare(addr, len, kind),
            Act::Set {
                register,
                value,
                undef,
            } => {
                self.assign(register, Bits { value, undef });
                Ok(())
            }
            Act::Flip { register, mask } => {
                self.flip(register, mask);
                Ok(())
            }
            Act::Jump { target } => {
                self.jump_to(target);
                Ok(())
            }
            Act::FlipPc { mask } => {
                self.flip_pc(mask);
                Ok(())
            }
            Act::Write { addr, width, value } => self.write_at(addr, width, value),
            Act::Turn { addr, mask } => self.flip_word(addr, mask),
            Act::Skip => {
                self.skip();
                Ok(())
            }
        }
    }

    /// Makes a range inaccessible, undefined or defined.
    #[tactic(auto, unfolding(crate::specs::Alterations::altered_core, crate::specs::Alterations::altered_bytes))]
    pub(super) fn declare(&mut self, addr: u32, len: u32, kind: RangeKind) -> Result<(), AllocError>
        ensures { OnOk result (IsDone (Make addr len kind) self.old self.new) }
    {
        self.memory.set_range(addr, len, kind)?;
        Ok(())
    }

    /// Gives a register a number, some of whose bits may be undefined.
    #[tactic(auto, unfolding(crate::specs::Alterations::altered_core, crate::specs::Alterations::altered_bytes))]
    fn assign(&mut self, register: Register, bits: Bits)
        ensures { IsDone (Set register bits.value bits.undef) self.old self.new }
    {
        if self.runs() {
            self.set_register(register, bits);
        }
    }

    /// Turns bits of a register.
    #[tactic(auto, unfolding(crate::specs::Alterations::altered_core, crate::specs::Alterations::altered_bytes, definedness::specs::Operations::xor_of))]
    fn flip(&mut self, register: Register, mask: u32)
        ensures { IsDone (Flip register mask) self.old self.new }
    {
        if self.runs() {
            let bits = self.read_register(register);
            let turned = Bits {
                value: bits.value ^ mask,
                undef: bits.undef,
            };
            self.set_register(register, turned);
        }
    }

    /// Sets pc.
    #[tactic(auto, unfolding(crate::specs::Alterations::altered_core, crate::specs::Alterations::altered_bytes))]
    fn jump_to(&mut self, target: u32)
        ensures { IsDone (Jump target) self.old self.new }
    {
        if self.runs() {
            self.pc = target;
        }
    }

    /// Turns bits of pc.
    #[tactic(auto, unfolding(crate::specs::Alterations::altered_core, crate::specs::Alterations::altered_bytes, definedness::specs::Operations::xor_of))]
    fn flip_pc(&mut self, mask: u32)
        ensures { IsDone (FlipPc mask) self.old self.new }
    {
        if self.runs() {
            self.pc ^= mask;
        }
    }

    /// Writes bytes, as a store without errors.
    #[tactic(auto, unfolding(crate::specs::Alterations::altered_core, crate::specs::Alterations::altered_bytes))]
    fn write_at(&mut self, addr: u32, width: Width, value: u32) -> Result<(), AllocError>
        ensures { OnOk result (IsDone (Write addr width value) self.old self.new) }
    {
        if self.runs() {
            let _bad = self.memory.store(addr, width.len(), known(value))?;
        }
        Ok(())
    }

    /// Turns bits of four bytes.
    #[tactic(auto, unfolding(crate::specs::Alterations::altered_core, crate::specs::Alterations::altered_bytes, definedness::specs::Operations::xor_of))]
    fn flip_word(&mut self, addr: u32, mask: u32) -> Result<(), AllocError>
        ensures { OnOk result (IsDone (Turn addr mask) self.old self.new) }
    {
        if self.runs() {
            let word = self.memory.load(addr, 4).value;
            self.memory.poke_word(addr, word ^ mask)?;
        }
        Ok(())
    }

    /// The length of the instruction at pc. It reads no byte if all have the same.
    #[tactic(auto, unfolding(guest_elf::specs::Profiles::has_halves, guest_elf::specs::Profiles::is_half))]
    fn len_here(&self) -> u32
        ensures { result ≡ len_here (core_of self.now) (bytes_of self.now) }
    {
        if !self.isa.has_halves() {
            return 4;
        }
        let half = self.memory.load(self.pc, 2);
        if is_short(half.value) { 2 } else { 4 }
    }

    /// Leaves an instruction out. It counts as a step.
    #[tactic(auto, unfolding(crate::specs::Alterations::altered_core, crate::specs::Alterations::altered_bytes))]
    fn skip(&mut self)
        ensures { IsDone Skip self.old self.new }
    {
        if self.runs() {
            let len = self.len_here();
            self.count_step();
            self.advance_by(len);
        }
    }
}
