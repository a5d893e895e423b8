//! The glitches just before one step, one at a time. An outcome that is recalled comes without a run.
ghost use Rattle.std.specs.Prelude.{◌≡◌, ◌<◌, ◌∷◌, [], ℕ, IfOk, IfSome, OnOk, Bool, true};
ghost use Rattle.guest_machine.specs.Exec.{is_running};
ghost use Rattle.guest_machine.specs.Shows.{Shows};
ghost use Rattle.guest_machine.specs.State.{State};
ghost use Rattle.scenario.specs.Scenario.{Scenario as ScenarioOf};
ghost use Rattle.pruning.specs.declared.passing.Passing.TheVariants.{Looks};
ghost use Rattle.std.specs.List.{All};
ghost use Rattle.sweep_plans.specs.Changes.{IsRight};
ghost use Rattle.sweep_plans.specs.declared.change.Change.TheVariants.{Once};
ghost use Rattle.sweep_plans.specs.declared.change.Glitch.TheVariants.{Turn};
ghost use Rattle.sweeps.specs.Outcomes.{IsOutcome};
ghost use Rattle.sweeps.specs.Recall.{IsRecalled, IsTouched, Passes, Recalls, RegisterIs};
ghost use Rattle.sweeps.specs.Sites.{IsBefore};
ghost use Rattle.sweeps.specs.Standing.{IsAt, state_before};
ghost use Rattle.sweeps.specs.Sweeps.{CountsMore};

use crate::counting::Counts;
use crate::endings::{is_long, often_meets, outcome_of_glitch};
use crate::meeting::try_change_at;
use crate::outcomes::outcome_of;
use crate::recall::{Recall, SharedOutcome};
use crate::settings::Settings;
use crate::sites::Site;
use guest_machine::{Machine, Register, Setup, Touched};
use pruning::Passing;
use pruning::laws::{runs_keep, runs_keep_words, runs_overwrite};
use scenario::Scenario;
use std::alloc::AllocError;
use sweep_plans::{Change, Glitch};

/// Returns what a register is to the next step of a machine; x0 counts as one that the step looks at.
fn passing_register(machine: &Machine, setup: &Setup, register: u8) -> Passing
    requires { register < 32 }
    ensures { (s : State) → Shows machine.now s → (Looks ≡ result → ⊥) → RegisterIs s setup.now register result }
{
    if register == 0 {
        return Passing::Looks;
    }
    pruning::passing_of(machine, setup, Register::new(register))
}

/// Returns what a word of memory is to the next step of a machine, which touches these ranges. If they aren't given, it counts as one that the
/// step looks at.
fn passing_word(machine: &Machine, setup: &Setup, touched: Option<Touched>, addr: u32) -> Passing
    requires { IfSome touched (IsTouched machine.now setup.now) }
    ensures { (s : State) → Shows machine.now s → (mask : ℕ) → Passes s setup.now (Turn addr mask) result }
{
    match touched {
        Some(touched) => pruning::passing_word(machine, touched, addr),
        None => Passing::Looks,
    }
}

/// Returns what is known of a glitch's part in the next step of a machine, which touches these ranges.
fn passing_of(machine: &Machine, setup: &Setup, touched: Option<Touched>, glitch: Glitch) -> Passing
    requires right { IsRight glitch }
    requires touched { IfSome touched (IsTouched machine.now setup.now) }
    ensures { (s : State) → Shows machine.now s → Passes s setup.now glitch result }
{
    match glitch {
        Glitch::Flip { register, .. } => passing_register(machine, setup, register),
        Glitch::Set { register, .. } => passing_register(machine, setup, register),
        Glitch::Turn { addr, .. } => passing_word(machine, setup, touched, addr),
        _ => Passing::Looks,
    }
}

/// Returns the outcome of a glitch just before the step that is recalled, if it is known.
fn recalled(
    recall: &Recall,
    glitch: Glitch,
    passing: Passing,
) -> Result<Option<SharedOutcome>, AllocError>
    ensures { IfOk result (λ found. IfSome found (IsRecalled recall.now glitch passing)) }
{
    runs_overwrite();
    match passing {
        Passing::Overwrites => Ok(Some(recall.unedited.clone()?)),
        _ => recall.known(glitch),
    }
}

/// Recalls an outcome of a glitch just before a step for the next step, if this one keeps the register.
fn keep(
    recall: &mut Recall,
    glitch: Glitch,
    passing: Passing,
    outcome: SharedOutcome,
) -> Result<(), AllocError>
    ensures step { OnOk result (recall.new.step ≡ recall.old.step) }
    ensures so { OnOk result ((with_output : Bool) (sc : ScenarioOf) → sc.marks ≡ [] → recall.old.step < sc.step
        → Passes (state_before sc recall.old.step) sc.setup glitch passing
        → IsOutcome with_output sc (Once recall.old.step glitch) outcome → Recalls with_output sc recall.old
        → Recalls with_output sc recall.new) }
{
    runs_keep();
    runs_keep_words();
    recall.pass(glitch);
    match passing {
        Passing::Keeps => recall.keep(glitch, outcome),
        _ => Ok(()),
    }
}

/// A step, and the ranges that it touches if they are known.
#[derive(Clone, Copy)]
pub(crate) struct NextStep {
    pub(crate) step: u32,
    pub(crate) touched: Option<Touched>,
}

/// A glitch just before a step, and the ranges that the step touches if they are known.
#[derive(Clone, Copy)]
struct Struck {
    step: u32,
    glitch: Glitch,
    touched: Option<Touched>,
}

/// Returns the outcome of a glitch at a site: the one that is recalled, or that of a run. Afterwards the scenario is as it was.
fn outcome_at(
    settings: Settings,
    scenario: &mut Scenario,
    counts: &Counts,
    site: &Site,
    struck: Struck,
    passing: Passing,
) -> Result<SharedOutcome, AllocError>
    requires before { IsBefore scenario.old struck.step site.now }
    requires at { IsAt scenario.old site.now.standing (Once struck.step struck.glitch) }
    requires here { counts.now.recall.step ≡ struck.step }
    requires passing { Passes (state_before scenario.old struck.step) scenario.old.setup struck.glitch passing }
    ensures same { scenario.new ≡ scenario.old }
    ensures outcome { IfOk result (λ outcome. Recalls settings.with_output scenario.old counts.now.recall
        → IsOutcome settings.with_output scenario.old (Once struck.step struck.glitch) outcome) }
{
    let Struck { step, glitch, .. } = struck;
    let recall = &counts.recall;
    if let Some(outcome) = recalled(recall, glitch, passing)? {
        return Ok(outcome);
    }
    if let Some(ends) = &recall.ends
        && often_meets(glitch)
        && is_long(scenario, step)
    {
        let fork = &site.fork;
        return outcome_of_glitch(settings, scenario, recall, ends, fork, step, glitch);
    }
    let change = Change::Once { step, glitch };
    let text = outcome_of(
        counts.course.as_ref(),
        scenario,
        &site.fork,
        site.standing,
        change,
        settings.with_output,
    )?;
    recall.outcome(settings.alloc, text)
}

/// Applies a glitch at a site, and no other edit, counts the outcome, and appends its row. Afterwards the scenario is as it was.
fn try_glitch(
    settings: Settings,
    scenario: &mut Scenario,
    counts: &mut Counts,
    site: &Site,
    struck: Struck,
    out: &mut Vec<u8>,
) -> Result<(), AllocError>
    requires before { IsBefore scenario.old struck.step site.now }
    requires at { IsAt scenario.old site.now.standing (Once struck.step struck.glitch) }
    requires right { IsRight struck.glitch }
    requires touched { IfSome struck.touched (IsTouched site.now.fork.machine scenario.old.setup) }
    requires here { counts.old.recall.step ≡ struck.step }
    ensures same { scenario.new ≡ scenario.old }
    ensures here { OnOk result (counts.new.recall.step ≡ struck.step) }
    ensures met { OnOk result (CountsMore counts.old counts.new settings.with_output scenario.old (Once struck.step struck.glitch ∷ []) out.old.items out.new.items) }
{
    let Struck {
        step,
        glitch,
        touched,
    } = struck;
    let passing = passing_of(&site.fork.machine, scenario.setup(), touched, glitch);
    let outcome = outcome_at(settings, scenario, counts, site, struck, passing)?;
    let steps = scenario.step() - site.fork.step;
    counts.count(Change::Once { step, glitch }, outcome.text(), steps, out)?;
    keep(&mut counts.recall, glitch, passing, outcome)
}

/// Applies a change at a site just before a step, and no other edit, counts the outcome, and appends its row. Afterwards the scenario is as it
/// was.
fn try_change(
    settings: Settings,
    scenario: &mut Scenario,
    counts: &mut Counts,
    site: &Site,
    next: NextStep,
    change: Change,
    out: &mut Vec<u8>,
) -> Result<(), AllocError>
    requires before { IsBefore scenario.old next.step site.now }
    requires at { IsAt scenario.old site.now.standing change }
    requires touched { IfSome next.touched (IsTouched site.now.fork.machine scenario.old.setup) }
    requires here { counts.old.recall.step ≡ next.step }
    ensures same { scenario.new ≡ scenario.old }
    ensures here { OnOk result (counts.new.recall.step ≡ next.step) }
    ensures met { OnOk result (CountsMore counts.old counts.new settings.with_output scenario.old (change ∷ []) out.old.items out.new.items) }
{
    match change {
        Change::Once { glitch, .. } => {
            let struck = Struck {
                step: next.step,
                glitch,
                touched: next.touched,
            };
            try_glitch(settings, scenario, counts, site, struck, out)
        }
        _ => try_change_at(scenario, counts, site, change, settings.with_output, out),
    }
}

/// Applies each of some changes just before a step, one at a time, counts the outcomes, and appends the rows. Afterwards the scenario is as it
/// was.
pub(crate) fn try_changes(
    settings: Settings,
    scenario: &mut Scenario,
    counts: &mut Counts,
    site: &Site,
    next: NextStep,
    changes: &[Change],
    out: &mut Vec<u8>,
) -> Result<(), AllocError>
    requires before { IsBefore scenario.old next.step site.now }
    requires at { All (IsAt scenario.old site.now.standing) changes.now }
    requires touched { IfSome next.touched (IsTouched site.now.fork.machine scenario.old.setup) }
    requires here { counts.old.recall.step ≡ next.step }
    ensures same { scenario.new ≡ scenario.old }
    ensures met { OnOk result (CountsMore counts.old counts.new settings.with_output scenario.old changes.now out.old.items out.new.items) }
{
    for change in changes {
        try_change(settings, scenario, counts, site, next, *change, out)?;
    }
    Ok(())
}

/// Has what is recalled go on to a step; then applies each of some changes just before it, one at a time, counts the outcomes, and appends the
/// rows. Afterwards the scenario is as it was.
pub(crate) fn try_step(
    settings: Settings,
    scenario: &mut Scenario,
    counts: &mut Counts,
    site: &Site,
    step: u32,
    changes: &[Change],
    out: &mut Vec<u8>,
) -> Result<(), AllocError>
    requires before { IsBefore scenario.old step site.now }
    requires at { All (IsAt scenario.old site.now.standing) changes.now }
    requires runs { is_running (state_before scenario.old step).core.status ≡ true }
    ensures same { scenario.new ≡ scenario.old }
    ensures met { OnOk result (CountsMore counts.old counts.new settings.with_output scenario.old changes.now out.old.items out.new.items) }
{
    counts
        .recall
        .hold_ends(settings, scenario, &site.fork, changes.len())?;
    counts.recall.arrive(step);
    let next = NextStep {
        step,
        touched: None,
    };
    try_changes(settings, scenario, counts, site, next, changes, out)
}
