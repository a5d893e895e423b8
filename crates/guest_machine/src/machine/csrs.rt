//! Instructions of control registers. Each is given the address after it, `next`.
ghost use Rattle.std.specs.Prelude.{◌≡◌, true, false, OnOk};
ghost use Rattle.guest_elf.specs.Profiles.{has_controls};
ghost use Rattle.guest_machine.specs.Controls.{barrier, control, control_effect, control_seen, controls_after, is_counter, is_read_only, is_upper_counter, operand_of};
ghost use Rattle.guest_machine.specs.Doing.{Does, Sets};
ghost use Rattle.guest_machine.specs.Exec.{no_intake, nothing};
ghost use Rattle.guest_machine.specs.Shows.{core_of};

use crate::machine::Guest;
use crate::machine::registers::known;
use definedness::Bits;
use instructions::{ControlAccess, ControlOperand, Register, replaced};
use run_values::Stop;
use std::alloc::AllocError;

/// Whether a control register can only be read.
fn is_read_only(number: u16) -> bool
    ensures { result ≡ is_read_only number }
{
    number / 1024 % 4 == 3
}

/// Whether it is the lower half of a counter.
fn is_counter(number: u16) -> bool
    ensures { result ≡ is_counter number }
{
    number == 0xB00 || number == 0xB02 || number == 0xC00 || number == 0xC01 || number == 0xC02
}

/// Whether it is the upper half of a counter.
fn is_upper_counter(number: u16) -> bool
    ensures { result ≡ is_upper_counter number }
{
    number == 0xB80 || number == 0xB82 || number == 0xC80 || number == 0xC81 || number == 0xC82
}

impl Guest {
    /// The word in a control register, where there are some.
    #[tactic(auto, unfolding(crate::specs::Controls::control))]
    fn control(&self, number: u16) -> Bits
        requires { has_controls (core_of self.now).isa ≡ true }
        ensures { result ≡ control (core_of self.now) number }
    {
        if is_counter(number) {
            known((self.steps % 0x1_0000_0000) as u32)
        } else if is_upper_counter(number) {
            known((self.steps >> 32) as u32)
        } else {
            self.controls.read(number)
        }
    }

    /// The word in a control register, if there are some.
    #[tactic(auto, unfolding(crate::specs::Controls::control_seen))]
    pub(super) fn control_seen(&self, number: u16) -> Option<Bits>
        ensures { result ≡ control_seen (core_of self.now) number }
    {
        if self.isa.has_controls() {
            Some(self.control(number))
        } else {
            None
        }
    }

    /// The word of an operand.
    #[tactic(auto, unfolding(crate::specs::Controls::operand_of))]
    fn operand_of(&self, operand: &ControlOperand) -> Bits
        ensures { result ≡ operand_of (core_of self.now) operand.now }
    {
        match *operand {
            ControlOperand::Register(r) => self.read_register(r),
            ControlOperand::Immediate(n) => known(u32::from(n)),
        }
    }

    /// Puts what replaces the word in a control register there, if it is written and is no counter.
    #[tactic(auto, unfolding(crate::specs::Controls::controls_after))]
    fn write_control(
        &mut self,
        access: ControlAccess,
        number: u16,
        operand: &ControlOperand,
    ) -> Result<(), AllocError>
        requires { has_controls (core_of self.old).isa ≡ true }
        ensures { OnOk result (Sets self.old self.new (record (core_of self.old) {
          controls = controls_after (core_of self.old) access number operand.now;
        })) }
    {
        if access.writes(*operand) && !(is_counter(number) || is_upper_counter(number)) {
            let word = replaced(access, self.control(number), self.operand_of(operand));
            self.controls.write(number, word)?;
        }
        Ok(())
    }

    /// Executes an instruction of a control register, where there are some.
    #[tactic(auto, unfolding(crate::specs::Controls::control_effect, crate::specs::Controls::has_control, crate::specs::Doing::note_events))]
    fn exchange(
        &mut self,
        next: u32,
        access: ControlAccess,
        rd: Register,
        number: u16,
        operand: &ControlOperand,
    ) -> Result<(), AllocError>
        requires { has_controls (core_of self.old).isa ≡ true }
        ensures { OnOk result (Does self.old self.new (control_effect (core_of self.old) next access rd number operand.now) nothing false no_intake) }
    {
        if access.writes(*operand) && is_read_only(number) {
            self.stop(Stop::Illegal);
            return Ok(());
        }
        let word = self.control(number);
        self.write_control(access, number, operand)?;
        self.set_register(rd, word);
        self.advance(next);
        Ok(())
    }

    /// Executes an instruction of a control register.
    #[inline(never)]
    #[tactic(auto, unfolding(crate::specs::Controls::control_effect, crate::specs::Controls::has_control, crate::specs::Doing::note_events))]
    pub(super) fn access_control(
        &mut self,
        next: u32,
        access: ControlAccess,
        rd: Register,
        number: u16,
        operand: ControlOperand,
    ) -> Result<(), AllocError>
        ensures { OnOk result (Does self.old self.new (control_effect (core_of self.old) next access rd number operand) nothing false no_intake) }
    {
        if !self.isa.has_controls() {
            self.stop(Stop::Illegal);
            return Ok(());
        }
        self.exchange(next, access, rd, number, &operand)
    }

    /// Goes on at FENCE.I and at WFI.
    #[inline(never)]
    #[tactic(auto, unfolding(crate::specs::Controls::barrier, crate::specs::Doing::note_events))]
    pub(super) fn pass_barrier(&mut self, next: u32)
        ensures { Does self.old self.new (barrier (core_of self.old) next) nothing false no_intake }
    {
        if self.isa.has_controls() {
            self.advance(next);
        } else {
            self.stop(Stop::Illegal);
        }
    }
}
