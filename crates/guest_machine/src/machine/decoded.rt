//! Steps whose instructions were decoded recently.
ghost use Rattle.std.specs.Prelude.{◌≡◌, Some, IfOk, IsTrue, false};
ghost use Rattle.guest_machine.specs.State.{State};
ghost use Rattle.guest_machine.specs.Doing.{DoesStep, touched_by};
ghost use Rattle.guest_machine.specs.Exec.{exec, touched_of};
ghost use Rattle.guest_machine.specs.Shows.{core_of, Holds, Shows};
ghost use Rattle.guest_machine.specs.Spans.{span_at};

use crate::machine::{Guest, Machine};
use crate::setup::Setup;
use error_events::laws::groups_grow;
use std::alloc::AllocError;

impl Guest {
    /// The step, if it executes an instruction of four bytes that was decoded recently. Returns whether it does.
    #[inline(always)]
    #[tactic(auto, unfolding(instructions::specs::Codes::code_of, crate::specs::Exec::uses_at, crate::specs::Exec::intake_at, crate::specs::Exec::outcome_at, crate::specs::Exec::effect_at, crate::specs::Exec::touched_at))]
    fn step_once_decoded(&mut self, setup: &Setup) -> Result<bool, AllocError>
        ensures does { IfOk result (λ made. IsTrue made → DoesStep self.old self.new setup.now) }
        ensures fetched { IfOk result (λ made. IsTrue made → (touched_by self.old setup.now).fetch ≡ Some (span_at (core_of self.old).pc 4)) }
        ensures left { IfOk result (λ made. made ≡ false → self.new ≡ self.old) }
    {
        if !self.is_ready() || self.named_here(&setup.hooks).is_some() {
            return Ok(false);
        }
        match self.decoded_here() {
            None => Ok(false),
            Some(instruction) => {
                let _used = self.execute_decoded(setup, 0, 4, instruction)?;
                self.count_step();
                Ok(true)
            }
        }
    }

    /// What [`Guest::step_once_decoded`] does, for each state that is held.
    #[inline(always)]
    fn step_decoded(&mut self, setup: &Setup) -> Result<bool, AllocError>
        ensures holds { IfOk result (λ made. (s : State) → Holds self.old s → IsTrue made → Holds self.new (exec s setup.now)) }
        ensures left { IfOk result (λ made. (s : State) → Holds self.old s → made ≡ false → Holds self.new s) }
        ensures fetched { IfOk result (λ made. (s : State) → Holds self.old s → IsTrue made
            → (touched_of s setup.now).fetch ≡ Some (span_at s.core.pc 4)) }
    {
        groups_grow();
        let made = self.step_once_decoded(setup)?;
        Ok(made)
    }
}

impl Machine {
    /// Executes the next step if that executes an instruction of four bytes that was decoded recently, and else leaves the machine as it is.
    /// Returns whether it did. This is for loops that ask of most steps only where they lead. The step counts on no meter, and
    /// [`Machine::has_raised`] doesn't say whether it raised an error. Drops the machine if memory runs out.
    #[inline(always)]
    #[tactic(auto, unfolding(crate::specs::Shows::Shows))]
    pub fn step_decoded(self, setup: &Setup) -> Result<(Machine, bool), AllocError>
        ensures shows { IfOk result (λ r. (s : State) → Shows self s → IsTrue r.1 → Shows r.0 (exec s setup.now)) }
        ensures left { IfOk result (λ r. (s : State) → Shows self s → r.1 ≡ false → Shows r.0 s) }
        ensures fetched { IfOk result (λ r. (s : State) → Shows self s → IsTrue r.1
            → (touched_of s setup.now).fetch ≡ Some (span_at s.core.pc 4)) }
    {
        let mut machine = self;
        let made = machine.guest.step_decoded(setup)?;
        Ok((machine, made))
    }
}
