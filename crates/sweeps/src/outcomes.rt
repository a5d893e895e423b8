//! The outcome of each change.
ghost use Rattle.std.specs.Prelude.{◌≡◌, ◌≤◌, ◌<◌, ◌+◌, ℕ, IfOk, IsTrue, None, length};
ghost use Rattle.checkpoints.specs.Effects.{LeadsTo, Run};
ghost use Rattle.checkpoints.specs.Forks.{IsForkFor, ShowsEdited};
ghost use Rattle.checkpoints.specs.declared.effect.Effect.TheVariants.{After};
ghost use Rattle.scenario.specs.Edits.{row};
ghost use Rattle.scenario.specs.Limits.{most_marks};
ghost use Rattle.scenario.specs.Scenario.{Scenario as ScenarioOf, IsOutlineOf, run_of, limit_of};
ghost use Rattle.sweeps.specs.Landmarks.{NoneFrom};
ghost use Rattle.sweeps.specs.Outcomes.{IsOutcome};
ghost use Rattle.sweep_plans.specs.Changes.{IsRight, edit_of, glitch_edit, second_of};
ghost use Rattle.sweep_plans.specs.declared.change.Change.{Change as ChangeOf};
ghost use Rattle.sweep_plans.specs.declared.change.Glitch.{Glitch as GlitchOf};
ghost use Rattle.sweep_plans.specs.declared.change.Change.TheVariants.{Once, Twice};
ghost use Rattle.sweeps.specs.Standing.{GoesBack, IsAt, MayFollow, Stands};

use checkpoints::{Effect, Fork};
use guest_machine::{Alteration, Machine, Meter};
use pruning::Course;
use scenario::laws::{edits_follow, edits_go_back};
use scenario::{Edit, Scenario};
use std::alloc::AllocError;
use sweep_plans::{Change, Glitch, Standing};

/// Returns whether nothing is altered after a step; `false` where several steps are altered.
fn is_quiet_after(marks: &[Alteration], step: u32) -> bool
    ensures { IsTrue result → NoneFrom (step + 1) marks.now }
{
    match marks.split_first() {
        Some((mark, later)) => later.is_empty() && mark.step <= step,
        None => true,
    }
}

/// Returns the machine at the chosen step of an edited scenario, whose run continues from a fork; an effect leads to it from the run of the
/// fork. Jumps over what the run has in common with a course.
fn machine_by(
    course: &Course,
    scenario: &Scenario,
    fork: &Fork,
    effect: Effect,
) -> Result<Machine, AllocError>
    requires before { fork.now.step ≤ scenario.now.step }
    requires quiet { NoneFrom (fork.now.step + 1) scenario.now.marks }
    ensures { IfOk result (λ machine. (last : ℕ) → ShowsEdited effect fork.now scenario.now.setup scenario.now.marks last scenario.now.step machine) }
{
    let setup = scenario.setup();
    let begun = fork.follow(
        effect,
        setup,
        scenario.marks(),
        fork.step,
        &mut Meter::new(),
    )?;
    let machine = course.run(begun, fork.step, setup, scenario.step())?;
    Ok(machine)
}

/// Returns that machine, with a course if there is one and it serves.
fn machine_from(
    course: Option<&Course>,
    scenario: &Scenario,
    fork: &Fork,
    effect: Effect,
) -> Result<Machine, AllocError>
    requires { fork.now.step ≤ scenario.now.step }
    ensures { IfOk result (λ machine. (last : ℕ) → ShowsEdited effect fork.now scenario.now.setup scenario.now.marks last scenario.now.step machine) }
{
    if let Some(course) = course {
        if is_quiet_after(scenario.marks(), fork.step) {
            return machine_by(course, scenario, fork, effect);
        }
    }
    let machine = fork.follow(
        effect,
        scenario.setup(),
        scenario.marks(),
        scenario.step(),
        &mut Meter::new(),
    )?;
    Ok(machine)
}

/// Returns the outline of an edited scenario, whose run continues from a fork. An effect leads to it from the run of the fork.
fn outline_from(
    course: Option<&Course>,
    scenario: &Scenario,
    fork: &Fork,
    effect: Effect,
    with_output: bool,
) -> Result<Vec<u8>, AllocError>
    requires { fork.now.step ≤ scenario.now.step }
    ensures { IfOk result (λ text. (one : Run) (last : ℕ) → LeadsTo effect one (run_of scenario.now) → IsForkFor effect one last fork.now
        → IsOutlineOf with_output scenario.now text.items) }
{
    let machine = machine_from(course, scenario, fork, effect)?;
    scenario.outline(&machine, with_output)
}

/// Takes the last mark out.
pub(crate) fn unmark(scenario: &mut Scenario)
    requires some { 1 ≤ length scenario.old.marks }
    requires few { length scenario.old.marks ≤ most_marks }
    ensures { (sc : ScenarioOf) (step : ℕ) (glitch : GlitchOf) → scenario.old ≡ (row sc (glitch_edit step glitch)).after → scenario.new ≡ sc }
{
    edits_go_back();
    let last = (scenario.marks().len() - 1) as u32;
    let _cannot_fail = scenario.edit(Edit::Unmark(last));
}

/// Takes a change back, which is one edit: the place is as it was.
pub(crate) fn take_back(scenario: &mut Scenario, standing: Standing)
    requires { GoesBack scenario.old standing }
    ensures { (sc : ScenarioOf) (change : ChangeOf) → Stands sc standing → IsAt sc standing change → scenario.old ≡ (row sc (edit_of change)).after → scenario.new ≡ sc }
{
    edits_go_back();
    match standing {
        Standing::Byte { offset, byte } => {
            let _cannot_fail = scenario.edit(Edit::Input { offset, byte });
        }
        Standing::Word { .. } => scenario.drop_word(),
        Standing::Half { .. } => scenario.drop_word(),
        Standing::Step { .. } => unmark(scenario),
    }
}

/// Returns the outcome of a change of one edit, whose run continues from a fork. Afterwards the scenario is as it was.
pub(crate) fn outcome_of_one(
    course: Option<&Course>,
    scenario: &mut Scenario,
    fork: &Fork,
    standing: Standing,
    change: Change,
    with_output: bool,
) -> Result<Vec<u8>, AllocError>
    requires before { fork.now.step ≤ scenario.old.step }
    requires stands { Stands scenario.old standing }
    requires at { IsAt scenario.old standing change }
    requires one { second_of change ≡ None }
    ensures same { scenario.new ≡ scenario.old }
    ensures outcome { IfOk result (λ text. (last : ℕ) → IsForkFor (row scenario.old (edit_of change)).effect (run_of scenario.old) last fork.now
        → IsOutcome with_output scenario.old change text.items) }
{
    edits_follow();
    let effect = scenario.effect(&change.edit());
    scenario.edit(change.edit())?;
    let told = outline_from(course, scenario, fork, effect, with_output);
    take_back(scenario, standing);
    told
}

/// Returns the outcome of a glitch at a later step of a scenario in which an earlier step was struck, as whose run before that one a fork is.
/// Afterwards the scenario is as it was.
fn outcome_of_second(
    course: Option<&Course>,
    scenario: &mut Scenario,
    fork: &Fork,
    later: u32,
    other: Glitch,
    with_output: bool,
) -> Result<Vec<u8>, AllocError>
    requires forward { fork.now.step ≤ later }
    requires within { later ≤ scenario.old.step }
    requires near { later ≤ limit_of scenario.old }
    requires room { length scenario.old.marks < most_marks }
    requires right { IsRight other }
    ensures same { scenario.new ≡ scenario.old }
    ensures outcome { IfOk result (λ text. (s : ℕ) (one : Run) → LeadsTo (After s) one (run_of scenario.old) → IsForkFor (After s) one scenario.old.step fork.now
        → IsOutcome with_output scenario.old (Once later other) text.items) }
{
    let next = fork.go_on(later, scenario.setup(), scenario.marks())?;
    let standing = Standing::Step {
        step: later,
        pc: 0,
        is_half: false,
    };
    let change = Change::Once {
        step: later,
        glitch: other,
    };
    outcome_of_one(course, scenario, &next, standing, change, with_output)
}

/// A glitch, and the step that it strikes.
#[derive(Clone, Copy)]
struct Strike {
    step: u32,
    glitch: Glitch,
}

/// Returns the outcome of two glitches, the first of which strikes a step before which a fork is. Afterwards the scenario is as it was.
fn outcome_of_two(
    course: Option<&Course>,
    scenario: &mut Scenario,
    fork: &Fork,
    first: Strike,
    second: Strike,
    with_output: bool,
) -> Result<Vec<u8>, AllocError>
    requires fork { IsForkFor (After first.step) (run_of scenario.old) scenario.old.step fork.now }
    requires may { MayFollow scenario.old first.step second.step }
    requires right { IsRight first.glitch }
    requires right_too { IsRight second.glitch }
    ensures same { scenario.new ≡ scenario.old }
    ensures outcome { IfOk result (λ text. IsOutcome with_output scenario.old (Twice first.step first.glitch second.step second.glitch) text.items) }
{
    edits_follow();
    let Strike { step, glitch } = first;
    let change = Change::Once { step, glitch };
    scenario.edit(change.edit())?;
    let told = outcome_of_second(
        course,
        scenario,
        fork,
        second.step,
        second.glitch,
        with_output,
    );
    unmark(scenario);
    told
}

/// Returns the outcome of a change at a place, whose run continues from a fork. Afterwards the scenario is as it was.
pub(crate) fn outcome_of(
    course: Option<&Course>,
    scenario: &mut Scenario,
    fork: &Fork,
    standing: Standing,
    change: Change,
    with_output: bool,
) -> Result<Vec<u8>, AllocError>
    requires stands { Stands scenario.old standing }
    requires at { IsAt scenario.old standing change }
    requires fork { IsForkFor (row scenario.old (edit_of change)).effect (run_of scenario.old) scenario.old.step fork.now }
    ensures same { scenario.new ≡ scenario.old }
    ensures outcome { IfOk result (λ text. IsOutcome with_output scenario.old change text.items) }
{
    match change {
        Change::Twice {
            step,
            glitch,
            later,
            other,
        } => {
            let first = Strike { step, glitch };
            let second = Strike {
                step: later,
                glitch: other,
            };
            outcome_of_two(course, scenario, fork, first, second, with_output)
        }
        _ => outcome_of_one(course, scenario, fork, standing, change, with_output),
    }
}
