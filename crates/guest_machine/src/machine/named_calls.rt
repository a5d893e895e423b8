//! The calls of the heap by name.
ghost use Rattle.std.specs.Prelude.{◌≡◌, IfOk, OnOk};
ghost use Rattle.guest_machine.specs.Doing.{used_of, uses_by_name, DoesNamed};

use crate::machine::Guest;
use crate::machine::calls::{A0, A1, heap_parameters};
use crate::machine::step::{NOTHING, Used};
use crate::setup::Setup;
use guest_elf::Hook;
use instructions::Register;
use run_values::Stop;
use std::alloc::AllocError;

/// The register of the address that a function returns to.
const RA: u8 = 1;

impl Guest {
    /// Executes the heap call in place of a function, and returns to its caller. Returns which bytes it read and which it wrote.
    #[cold]
    #[inline(never)]
    #[tactic(auto, unfolding(crate::specs::NamedCalls::named_by, crate::specs::Exec::named_uses_by, crate::specs::Doing::note_events), using(crate::proofs::Showing::note_events_append))]
    pub(super) fn call_by_name(&mut self, function: Hook, setup: &Setup) -> Result<Used, AllocError>
        ensures does { OnOk result (DoesNamed self.old self.new function setup.now) }
        ensures uses { IfOk result (λ used. used ≡ used_of (uses_by_name self.old function setup.now)) }
    {
        let to = self.argument(RA) / 2 * 2;
        let returns = self.isa.aligns(to);
        let x = self.argument(A0);
        let y = self.argument(A1);
        self.test_value(Register::new(RA))?;
        if !returns {
            self.stop(Stop::Misaligned);
            return Ok(NOTHING);
        }
        self.test_parameters(heap_parameters(function))?;
        let used = self.heap_work(function, x, y, setup)?;
        self.return_to(to);
        Ok(used)
    }
}
