//! The verdict on a run.
ghost use Rattle.std.specs.Prelude.{◌≡◌, ◌+◌, ◌↔◌, ◌≤◌, Bool, IfOk, IsTrue, OnOk};
ghost use Rattle.checkpoints.specs.Trails.{IsRightFor, is_short, last_held, loaded_of, spacing_of};
ghost use Rattle.checkpoints.specs.Work.{reached};
ghost use Rattle.guest_elf.specs.declared.image.Image.{Image as ImageOf};
ghost use Rattle.guest_machine.specs.Run.{post};
ghost use Rattle.guest_machine.specs.Shows.{Shows};
ghost use Rattle.guest_machine.specs.State.{State};
ghost use Rattle.clean_reports.specs.Disturbed.{HasBytes, IsStartOf};
ghost use Rattle.clean_reports.specs.Uses.{NoUse};
ghost use Rattle.clean_reports.specs.Verdicts.{IsCertified, IsVerdict, RaisesFirstUse, has_ended};

use crate::marks::first_in_the_way;
use crate::uses::{first_use, is_clean};
use crate::verdict::{FirstUse, Verdict};
use checkpoints::Trail;
use guest_machine::{Alteration, Machine, Setup, Status};
use std::alloc::AllocError;

/// Returns whether no error of a trail's run up to a step is a use.
fn is_clean_at(
    trail: &mut Trail,
    setup: &Setup,
    marks: &[Alteration],
    step: u32,
) -> Result<bool, AllocError>
    ensures tells { IfOk result (λ clean. (start : State) → IsRightFor trail.old start setup.now marks.now
        → IsTrue clean ↔ NoUse (post start setup.now marks.now step).events) }
    ensures right { (start : State) → IsRightFor trail.old start setup.now marks.now → IsRightFor trail.new start setup.now marks.now }
    ensures held { OnOk result (last_held trail.new ≡ reached (spacing_of trail.old) (last_held trail.old) step) }
    ensures short { is_short trail.new ≡ is_short trail.old }
    ensures loaded { loaded_of trail.new ≡ loaded_of trail.old }
    ensures spacing { spacing_of trail.new ≡ spacing_of trail.old }
{
    let machine = trail.at_altered(step, setup, marks)?;
    Ok(is_clean(&machine))
}

/// Returns the step that raises the first use of a trail's run, if a use is raised before the step `end`. Finds it by halving.
fn first_use_step(
    trail: &mut Trail,
    setup: &Setup,
    marks: &[Alteration],
    end: u32,
) -> Result<u32, AllocError>
    ensures raises { IfOk result (λ step. (start : State) → IsRightFor trail.old start setup.now marks.now → NoUse start.events
        → (NoUse (post start setup.now marks.now end).events → ⊥) → RaisesFirstUse start setup.now marks.now step) }
    ensures below { IfOk result (λ step. (start : State) → IsRightFor trail.old start setup.now marks.now → NoUse start.events
        → (NoUse (post start setup.now marks.now end).events → ⊥) → step + 1 ≤ end) }
    ensures right { (start : State) → IsRightFor trail.old start setup.now marks.now → IsRightFor trail.new start setup.now marks.now }
    ensures held { OnOk result (reached (spacing_of trail.old) (last_held trail.old) end ≡ last_held trail.old → last_held trail.new ≡ last_held trail.old) }
    ensures short { is_short trail.new ≡ is_short trail.old }
    ensures loaded { loaded_of trail.new ≡ loaded_of trail.old }
    ensures spacing { spacing_of trail.new ≡ spacing_of trail.old }
{
    let mut clean = 0;
    let mut used = end;
    'halve: while used - clean > 1 {
        let middle = clean + (used - clean) / 2;
        if is_clean_at(trail, setup, marks, middle)? {
            clean = middle;
        } else {
            used = middle;
        }
    }
    Ok(clean)
}

/// Returns whether a machine's run has ended: it exited or stopped, or it rests in a jump to itself.
#[tactic(auto, unfolding(crate::specs::Verdicts::has_ended))]
pub fn has_ended(machine: &Machine, setup: &Setup) -> bool
    ensures { (s : State) → Shows machine.now s → result ≡ has_ended s setup.now }
{
    !matches!(machine.status(), Status::Running) || machine.is_idle(setup)
}

/// Returns the verdict on a trail's run up to a step: on marks first, and then on errors. The trail is moved as by [`Trail::at_altered`].
///
/// If the verdict is [`Verdict::Clean`], each disturbed run agrees with the run, and has the same reports (`IsCertified`).
pub fn certify(
    trail: &mut Trail,
    setup: &Setup,
    marks: &[Alteration],
    step: u32,
) -> Result<Verdict, AllocError>
    ensures verdict { IfOk result (λ verdict. (start : State) → IsRightFor trail.old start setup.now marks.now → NoUse start.events
        → IsVerdict start setup.now marks.now step verdict) }
    ensures certified { IfOk result (λ verdict. (ended : Bool) → verdict ≡ Verdict.Clean ended → (image : ImageOf) (start : State)
        → IsRightFor trail.old start setup.now marks.now → IsStartOf image start → HasBytes setup.now
        → IsCertified image start setup.now marks.now step) }
    ensures right { (start : State) → IsRightFor trail.old start setup.now marks.now → IsRightFor trail.new start setup.now marks.now }
    ensures held { OnOk result (last_held trail.new ≡ reached (spacing_of trail.old) (last_held trail.old) step) }
    ensures short { is_short trail.new ≡ is_short trail.old }
    ensures loaded { loaded_of trail.new ≡ loaded_of trail.old }
    ensures spacing { spacing_of trail.new ≡ spacing_of trail.old }
{
    let machine = trail.at_altered(step, setup, marks)?;
    if let Some((index, mark)) = first_in_the_way(machine.isa(), machine.heap_begin(), marks) {
        return Ok(Verdict::Mark(index, mark));
    }
    let Some(group) = first_use(machine.groups()) else {
        return Ok(Verdict::Clean(has_ended(&machine, setup)));
    };
    Ok(Verdict::Use(FirstUse {
        step: first_use_step(trail, setup, marks, step)?,
        kind: group.kind,
        trace: group.trace,
    }))
}
