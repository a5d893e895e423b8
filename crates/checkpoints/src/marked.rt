//! The machine at a step of a run with only marks.
ghost use Rattle.std.specs.Prelude.{◌≡◌, ◌+◌, ◌≤◌, min, IfOk, OnOk, OnErr};
ghost use Rattle.guest_machine.specs.State.{State};
ghost use Rattle.guest_machine.specs.MarkedRun.{alterations_of, post};
ghost use Rattle.guest_machine.specs.Shows.{Shows};
ghost use Rattle.checkpoints.specs.MarkedTrails.{IsRightFor};
ghost use Rattle.checkpoints.specs.Trails.{meter_of, is_short, loaded_of, last_held, spacing_of};
ghost use Rattle.checkpoints.specs.Work.{reached, steps_made};

use crate::trail::Trail;
use guest_machine::laws::runs_as_marked;
use guest_machine::{Alteration, Machine, Mark, Setup};
use std::alloc::{AllocError, Global};

impl Trail {
    /// Returns the machine at a step of the run, after the step's marks. Each step executed for it counts on the trail's meter. This is
    /// [`Trail::at_altered`] for callers that have marks and no other alterations.
    pub fn at(&mut self, step: u32, setup: &Setup, marks: &[Mark]) -> Result<Machine, AllocError>
        ensures shows { IfOk result (λ machine. (start : State) → IsRightFor self.old start setup.now marks.now
            → Shows machine (post start setup.now marks.now step)) }
        ensures right { (start : State) → IsRightFor self.old start setup.now marks.now → IsRightFor self.new start setup.now marks.now }
        ensures held { OnOk result (last_held self.new ≡ reached (spacing_of self.old) (last_held self.old) step) }
        ensures kept { OnErr result (last_held self.old ≤ last_held self.new) }
        ensures meter { OnOk result (meter_of self.new ≡ min (meter_of self.old + steps_made (spacing_of self.old) (last_held self.old) step) u64.MAX) }
        ensures short { is_short self.new ≡ is_short self.old }
        ensures loaded { loaded_of self.new ≡ loaded_of self.old }
        ensures spacing { spacing_of self.new ≡ spacing_of self.old }
    {
        runs_as_marked();
        let alterations = alterations_of(self.held.allocator(), marks)?;
        self.at_altered(step, setup, &alterations)
    }
}

/// The marks as alterations.
fn alterations_of(alloc: Global, marks: &[Mark]) -> Result<Vec<Alteration>, AllocError>
    ensures { IfOk result (λ made. made.items ≡ alterations_of marks.now) }
{
    marks
        .iter()
        .map(|mark| Alteration::from(*mark))
        .collect(alloc)
}
