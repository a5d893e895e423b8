//! The run of a session with other bytes as its input, tried from a machine at which they don't show yet.
ghost use Rattle.std.specs.Prelude.{◌≡◌, ◌≤◌, ℕ, IfOk, take};
ghost use Rattle.guest_machine.specs.Run.{pre};
ghost use Rattle.guest_machine.specs.Shows.{Shows};
ghost use Rattle.checkpoints.specs.Effects.{IsOfSetup, LeadsTo, Run};
ghost use Rattle.checkpoints.specs.Forks.{IsForkFor};
ghost use Rattle.checkpoints.specs.Sides.{IsSides};
ghost use Rattle.scenario.specs.Edits.{row, IsTaken};
ghost use Rattle.scenario.specs.Scenario.{first_state, run_of};
ghost use Rattle.replay_session.specs.Trying.{GivesInput, IsCompared, IsForkPoint, IsTried, compares_of};

use checkpoints::{Compare, Effect, Fork, Sides};
use commands::Edit;
use guest_machine::Span;
use scenario::Scenario;
use scenario::laws::edits_follow;
use std::alloc::{AllocError, Global};

/// A machine of a session's run at which an edit doesn't show yet, and what the steps before it have done.
#[derive(Drop)]
pub struct ForkPoint {
    /// The machine, and its step.
    pub fork: Fork,
    /// What the steps before that have done with each instruction of a range.
    pub sides: Vec<Sides>,
}

/// What a run does up to the chosen step.
#[derive(Drop)]
pub struct Tried {
    /// Its outline there.
    pub outcome: Vec<u8>,
    /// What its steps have done with each instruction of a range.
    pub sides: Vec<Sides>,
}

/// The first compares that two runs execute from a step on.
#[derive(Drop)]
pub struct Compared {
    /// Those of a session's run.
    pub own: Vec<Compare>,
    /// Those of the same with other input bytes.
    pub other: Vec<Compare>,
}

/// Returns what a scenario's run does, which continues from a fork; an effect leads to it from the fork's run. `sides` are what the steps
/// before the fork's have done.
fn run_from_fork(
    scenario: &Scenario<'_>,
    effect: Effect,
    fork: &Fork,
    sides: Vec<Sides>,
    range: Span,
) -> Result<Tried, AllocError>
    requires before { fork.now.step ≤ scenario.now.step }
    requires of { IsOfSetup effect }
    ensures { IfOk result (λ tried. (one : Run) (last : ℕ) → LeadsTo effect one (run_of scenario.now) → IsForkFor effect one last fork.now
        → IsSides one.start one.setup one.marks fork.now.step range sides.items → IsTried scenario.now range tried) }
{
    let mut sides = sides;
    let machine = fork.follow_entering(
        effect,
        scenario.setup(),
        scenario.marks(),
        scenario.step(),
        range.start,
        &mut sides,
    )?;
    let outcome = scenario.outline(&machine, false)?;
    Ok(Tried { outcome, sides })
}

/// Runs a scenario with an edit that gives the input bytes, from a fork point. Afterwards the scenario is as it was.
pub(crate) fn try_edit(
    alloc: Global,
    scenario: &mut Scenario<'_>,
    edit: Edit,
    fork_point: &ForkPoint,
    range: Span,
) -> Result<Tried, AllocError>
    requires taken { IsTaken scenario.old edit }
    requires input { GivesInput edit }
    requires fork_point { IsForkPoint scenario.old (row scenario.old edit).effect range fork_point.now }
    ensures same { scenario.new ≡ scenario.old }
    ensures tried { IfOk result (IsTried (row scenario.old edit).after range) }
{
    edits_follow();
    let effect = scenario.effect(&edit);
    let given = scenario.input().to_vec(alloc)?;
    let sides = fork_point.sides.as_slice().to_vec(alloc)?;
    scenario.edit(edit)?;
    let tried = run_from_fork(scenario, effect, &fork_point.fork, sides, range);
    scenario.give(given);
    tried
}

/// Returns the first compares of a scenario's run from a fork's step on and below the chosen one. The fork is one of that run.
fn compares(
    alloc: Global,
    scenario: &Scenario<'_>,
    fork: &Fork,
    most: usize,
) -> Result<Vec<Compare>, AllocError>
    ensures { IfOk result (λ found. Shows fork.now.machine (pre (first_state scenario.now) scenario.now.setup scenario.now.marks fork.now.step)
        → found.items ≡ take most (compares_of scenario.now fork.now.step)) }
{
    fork.compares(
        alloc,
        scenario.setup(),
        scenario.marks(),
        scenario.step(),
        most,
    )
}

/// The same of a scenario to whose run an effect leads from the fork's run.
fn compares_edited(
    alloc: Global,
    scenario: &Scenario<'_>,
    effect: Effect,
    fork: &Fork,
    most: usize,
) -> Result<Vec<Compare>, AllocError>
    ensures { IfOk result (λ found. (one : Run) (last : ℕ) → LeadsTo effect one (run_of scenario.now) → IsForkFor effect one last fork.now
        → found.items ≡ take most (compares_of scenario.now fork.now.step)) }
{
    fork.compares_edited(
        alloc,
        effect,
        scenario.setup(),
        scenario.marks(),
        scenario.step(),
        most,
    )
}

/// Returns the first compares of a scenario's run, and those of its run with an edit that gives the input bytes, from a fork's step on and
/// below the chosen one. Afterwards the scenario is as it was.
pub(crate) fn compare_edit(
    alloc: Global,
    scenario: &mut Scenario<'_>,
    edit: Edit,
    fork: &Fork,
    most: usize,
) -> Result<Compared, AllocError>
    requires taken { IsTaken scenario.old edit }
    requires input { GivesInput edit }
    requires fork { IsForkFor (row scenario.old edit).effect (run_of scenario.old) scenario.old.step fork.now }
    ensures same { scenario.new ≡ scenario.old }
    ensures compared { IfOk result (IsCompared scenario.old (row scenario.old edit).after fork.now.step most) }
{
    edits_follow();
    let effect = scenario.effect(&edit);
    let given = scenario.input().to_vec(alloc)?;
    let own = compares(alloc, scenario, fork, most)?;
    scenario.edit(edit)?;
    let edited = compares_edited(alloc, scenario, effect, fork, most);
    scenario.give(given);
    let other = edited?;
    Ok(Compared { own, other })
}
