//! Faults whose run shows a state of the unedited run again. From there on it goes as that run goes, so its outcome is that of the unedited
//! run; or that of the unedited run one step after the chosen one, if the fault leaves out a step.
ghost use Rattle.std.specs.Prelude.{◌≡◌, ◌+◌, ◌-◌, ◌≤◌, ◌<◌, ℕ, [], IfOk};
ghost use Rattle.checkpoints.specs.Effects.{LeadsTo, Run};
ghost use Rattle.checkpoints.specs.Forks.{IsForkFor};
ghost use Rattle.checkpoints.specs.declared.effect.Effect.TheVariants.{After};
ghost use Rattle.guest_machine.specs.Run.{pre};
ghost use Rattle.guest_machine.specs.Shows.{Shows};
ghost use Rattle.guest_machine.specs.State.{State};
ghost use Rattle.scenario.specs.Scenario.{IsOutlineOf, run_of, limit_of};
ghost use Rattle.sweep_plans.specs.Changes.{IsRight};
ghost use Rattle.sweep_plans.specs.declared.change.Change.TheVariants.{Once};
ghost use Rattle.sweeps.specs.Landmarks.{AreEnds, EndsIn, IsPursued, NoneFrom, Outlines};
ghost use Rattle.sweeps.specs.Outcomes.{IsOutcome};

use crate::landmarks::{Landmarks, SPACING};
use crate::outcomes::unmark;
use crate::recall::{Recall, SharedOutcome};
use crate::settings::Settings;
use checkpoints::Fork;
use guest_machine::{Machine, Meter};
use scenario::Scenario;
use scenario::laws::edits_follow;
use std::alloc::AllocError;
use sweep_plans::{Change, Glitch};

/// The most machines that are held, so that they take little memory.
const MOST_HELD: u32 = 256;

/// How often a run is compared, each time after twice as many held machines.
const COMPARISONS: u32 = 5;

/// The number of held machines after a fault with which its run may be compared.
const REACH: u32 = 32;

/// The least number of steps that a run without its end must save.
const LEAST_LEFT: u32 = 128;

/// Machines of the unedited run, and its outcomes.
#[derive(Drop)]
pub(crate) struct Ends {
    pub(crate) landmarks: Landmarks,
    /// The outcome at the chosen step.
    pub(crate) same: SharedOutcome,
    /// That of one step after the chosen one.
    pub(crate) ahead: SharedOutcome,
}

/// Where a run may meet the unedited one: the machines of that which are held, how many steps it is ahead there, and the outcome then.
#[derive(Clone, Copy)]
pub(crate) struct Joint<'a> {
    pub(crate) landmarks: &'a Landmarks,
    pub(crate) lead: u32,
    pub(crate) known: &'a SharedOutcome,
}

/// A machine of a run before a step.
#[derive(Drop)]
pub(crate) struct Pursued {
    pub(crate) machine: Machine,
    pub(crate) step: u32,
    /// Whether the unedited run shows its states.
    pub(crate) is_met: bool,
}

impl Ends {
    /// Returns the machines of the unedited run from a fork's step on, and its outcomes.
    pub(crate) fn along(
        settings: Settings,
        scenario: &Scenario,
        before: &Fork,
    ) -> Result<Ends, AllocError>
        requires { before.now.step ≤ scenario.now.step }
        ensures { IfOk result (AreEnds settings.with_output scenario.now) }
    {
        let left = scenario.step() - before.step;
        let count = (left / SPACING).min(MOST_HELD);
        let mut landmarks = Landmarks::begin(settings.alloc, before.step);
        let machine = before.machine.share_warm()?;
        let held = landmarks.run_held(machine, scenario.setup(), count)?;
        let rest = left - landmarks.steps;
        let last = landmarks.run(held, scenario.setup(), rest)?;
        let same = scenario.outline(&last, settings.with_output)?;
        let after = last.run(scenario.setup(), 1, &mut Meter::new())?;
        let ahead = scenario.outline(&after, settings.with_output)?;
        Ok(Ends {
            landmarks,
            same: SharedOutcome::new(settings.alloc, same)?,
            ahead: SharedOutcome::new(settings.alloc, ahead)?,
        })
    }

    /// Returns whether machines are held for as many steps from one on as a run is compared.
    pub(crate) fn reaches(&self, step: u32) -> bool {
        let steps = step.saturating_sub(self.landmarks.first);
        let place = (steps / SPACING).saturating_add(REACH);
        let held = self.landmarks.machines.len();
        self.landmarks.first <= step && (held < MOST_HELD as usize || (place as usize) <= held)
    }
}

/// Returns whether enough of a run is left after a step to compare it.
pub(crate) fn is_long(scenario: &Scenario, step: u32) -> bool {
    scenario.step().saturating_sub(step) >= LEAST_LEFT
}

/// Returns whether runs with a glitch often meet the unedited run. Those in which pc or a word of memory is altered seldom do.
pub(crate) fn often_meets(glitch: Glitch) -> bool {
    matches!(
        glitch,
        Glitch::Skip | Glitch::Flip { .. } | Glitch::Set { .. }
    )
}

/// Continues a run from its machine before a step after which nothing is altered, until it meets the unedited run, a number of steps ahead,
/// or has been compared some times.
fn pursue(
    scenario: &Scenario,
    landmarks: &Landmarks,
    machine: Machine,
    from: u32,
    lead: u32,
) -> Result<Pursued, AllocError>
    requires { from ≤ scenario.now.step }
    ensures { IfOk result (IsPursued scenario.now landmarks.now machine from lead) }
{
    let mut machine = machine;
    let mut step = from;
    let mut count = 1u32;
    for _turn in 0..COMPARISONS {
        let next = landmarks.next_step(step, lead, count, scenario.step());
        machine = machine.run(scenario.setup(), next - step, &mut Meter::new())?;
        step = next;
        count = count.saturating_mul(2);
        if landmarks.meets(&machine, step, lead) {
            return Ok(Pursued {
                machine,
                step,
                is_met: true,
            });
        }
    }
    Ok(Pursued {
        machine,
        step,
        is_met: false,
    })
}

/// Returns the outcome of such a run: the known one, if it meets the unedited run where it may.
pub(crate) fn outcome_from(
    settings: Settings,
    scenario: &Scenario,
    recall: &Recall,
    joint: Joint,
    machine: Machine,
    from: u32,
) -> Result<SharedOutcome, AllocError>
    requires { from ≤ scenario.now.step }
    ensures { IfOk result (λ outcome. EndsIn settings.with_output scenario.now joint.entry.landmarks.now joint.entry.lead joint.entry.known.now → (s : State) → Shows machine s
        → Outlines settings.with_output scenario.now (pre s scenario.now.setup [] (scenario.now.step - from)) outcome) }
{
    let pursued = pursue(scenario, joint.landmarks, machine, from, joint.lead)?;
    if pursued.is_met {
        let outcome = joint.known.clone()?;
        return Ok(outcome);
    }
    let Pursued { machine, step, .. } = pursued;
    let end = machine.run(scenario.setup(), scenario.step() - step, &mut Meter::new())?;
    let text = scenario.outline(&end, settings.with_output)?;
    recall.outcome(settings.alloc, text)
}

/// Returns the outcome of a scenario in which an earlier step was struck, as whose run before that one a fork is, if nothing is altered from
/// a later step on.
fn outcome_behind(
    settings: Settings,
    scenario: &Scenario,
    recall: &Recall,
    ends: &Ends,
    fork: &Fork,
    from: u32,
    is_ahead: bool,
) -> Result<SharedOutcome, AllocError>
    requires before { fork.now.step ≤ from }
    requires within { from ≤ scenario.now.step }
    requires quiet { NoneFrom from scenario.now.marks }
    ensures { IfOk result (λ outcome. (s : ℕ) (one : Run) → LeadsTo (After s) one (run_of scenario.now)
        → IsForkFor (After s) one scenario.now.step fork.now → AreEnds settings.with_output scenario.now ends.now
        → IsOutlineOf settings.with_output scenario.now outcome) }
{
    let next = fork.go_on(from, scenario.setup(), scenario.marks())?;
    let Fork { machine, .. } = next;
    if is_ahead {
        let joint = Joint {
            landmarks: &ends.landmarks,
            lead: 1,
            known: &ends.ahead,
        };
        return outcome_from(settings, scenario, recall, joint, machine, from);
    }
    let joint = Joint {
        landmarks: &ends.landmarks,
        lead: 0,
        known: &ends.same,
    };
    outcome_from(settings, scenario, recall, joint, machine, from)
}

/// Returns the outcome of a glitch just before a step, whose run continues from a fork. Afterwards the scenario is as it was.
pub(crate) fn outcome_of_glitch(
    settings: Settings,
    scenario: &mut Scenario,
    recall: &Recall,
    ends: &Ends,
    fork: &Fork,
    step: u32,
    glitch: Glitch,
) -> Result<SharedOutcome, AllocError>
    requires unmarked { scenario.old.marks ≡ [] }
    requires near { step ≤ limit_of scenario.old }
    requires below { step < scenario.old.step }
    requires right { IsRight glitch }
    requires fork { IsForkFor (After step) (run_of scenario.old) scenario.old.step fork.now }
    ensures same { scenario.new ≡ scenario.old }
    ensures outcome { IfOk result (λ outcome. AreEnds settings.with_output scenario.old ends.now
        → IsOutcome settings.with_output scenario.old (Once step glitch) outcome) }
{
    edits_follow();
    let is_ahead = matches!(glitch, Glitch::Skip);
    let change = Change::Once { step, glitch };
    scenario.edit(change.edit())?;
    let told = outcome_behind(settings, scenario, recall, ends, fork, step + 1, is_ahead);
    unmark(scenario);
    told
}
