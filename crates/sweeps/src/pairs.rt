//! Pairs of instructions that are left out.
ghost use Rattle.std.specs.Prelude.{◌≡◌, ◌≤◌, ◌<◌, ◌+◌, ◌-◌, ◌∷◌, [], ℕ, List, IfOk, OnOk, Some, length};
ghost use Rattle.checkpoints.specs.Forks.{IsForkFor};
ghost use Rattle.checkpoints.specs.declared.effect.Effect.TheVariants.{After};
ghost use Rattle.guest_machine.specs.Shows.{Shows};
ghost use Rattle.scenario.specs.Limits.{most_marks};
ghost use Rattle.scenario.specs.Scenario.{Scenario as ScenarioOf, run_of, limit_of};
ghost use Rattle.sweep_plans.specs.declared.change.Change.TheVariants.{Once, Twice};
ghost use Rattle.sweep_plans.specs.declared.change.Glitch.TheVariants.{Skip};
ghost use Rattle.sweeps.specs.Landmarks.{NoneFrom};
ghost use Rattle.sweeps.specs.LoneSkips.{Joins};
ghost use Rattle.sweeps.specs.Outcomes.{IsOutcome, TakesSteps};
ghost use Rattle.sweeps.specs.Sites.{Continues, IsLed};
ghost use Rattle.sweeps.specs.Standing.{IsBelow, pair_by, pairs_at, pairs_from, skipped, standing_step, state_before};
ghost use Rattle.sweeps.specs.Sweeps.{CountsMore};
ghost use Rattle.sweeps.specs.declared.counting.Counts.{Counts as CountsOf};

use crate::counting::Counts;
use crate::outcomes::{outcome_of_one, unmark};
use crate::settings::Settings;
use crate::sites::{Site, standing_step};
use checkpoints::Fork;
use scenario::Scenario;
use scenario::laws::edits_follow;
use std::alloc::AllocError;
use sweep_plans::{Change, Glitch, Plan, Range, Standing};

/// The first instruction of some pairs.
#[derive(Clone, Copy)]
pub(crate) struct First {
    /// Its step.
    pub(crate) step: u32,
    /// The number of steps that each of the pairs needs by definition.
    pub(crate) steps: u32,
    /// The addresses to which pc is limited at the second one.
    pub(crate) code: Option<Range>,
    pub(crate) with_output: bool,
}

/// Counts the outcome of a pair, and appends its row.
fn count_pair(
    counts: &mut Counts,
    first: First,
    later: u32,
    outcome: &[u8],
    out: &mut Vec<u8>,
) -> Result<(), AllocError>
    ensures recall { OnOk result (counts.new.recall ≡ counts.old.recall) }
    ensures met { OnOk result ((sc : ScenarioOf) → IsOutcome first.with_output (skipped sc first.step) (Once later Skip) outcome.now
        → TakesSteps sc (Once first.step Skip) first.steps
        → CountsMore counts.old counts.new first.with_output sc (Twice first.step Skip later Skip ∷ []) out.old.items out.new.items) }
{
    let pair = Change::Twice {
        step: first.step,
        glitch: Glitch::Skip,
        later,
        other: Glitch::Skip,
    };
    counts.count(pair, outcome, first.steps, out)?;
    Ok(())
}

/// Leaves out the instruction of a later step, too, counts the outcome, and appends the row of the pair. Afterwards the scenario is as it was.
fn try_pair(
    scenario: &mut Scenario,
    counts: &mut Counts,
    fork: &Fork,
    first: First,
    later: u32,
    out: &mut Vec<u8>,
) -> Result<(), AllocError>
    requires near { later ≤ limit_of scenario.old }
    requires room { length scenario.old.marks < most_marks }
    requires fork { IsForkFor (After later) (run_of scenario.old) scenario.old.step fork.now }
    ensures same { scenario.new ≡ scenario.old }
    ensures met { OnOk result ((sc : ScenarioOf) → scenario.old ≡ skipped sc first.step → TakesSteps sc (Once first.step Skip) first.steps
        → CountsMore counts.old counts.new first.with_output sc (Twice first.step Skip later Skip ∷ []) out.old.items out.new.items) }
{
    let standing = Standing::Step {
        step: later,
        pc: 0,
        is_half: false,
    };
    let second = Change::Once {
        step: later,
        glitch: Glitch::Skip,
    };
    let outcome = outcome_of_one(None, scenario, fork, standing, second, first.with_output)?;
    count_pair(counts, first, later, &outcome, out)
}

/// Tries the pair with a later step if a fault may strike that. Returns the fork before it, given one before the step before it.
fn try_later(
    scenario: &mut Scenario,
    counts: &mut Counts,
    last_fork: &Fork,
    first: First,
    later: u32,
    out: &mut Vec<u8>,
) -> Result<Fork, AllocError>
    requires near { scenario.old.step ≤ limit_of scenario.old }
    requires below { later < scenario.old.step }
    requires room { length scenario.old.marks < most_marks }
    requires last_fork { (before : ℕ) × (later ≡ before + 1) × IsForkFor (After before) (run_of scenario.old) scenario.old.step last_fork.now }
    ensures same { scenario.new ≡ scenario.old }
    ensures fork { IfOk result (λ fork. IsForkFor (After later) (run_of scenario.old) scenario.old.step fork) }
    ensures met { OnOk result ((sc : ScenarioOf) → scenario.old ≡ skipped sc first.step → TakesSteps sc (Once first.step Skip) first.steps
        → CountsMore counts.old counts.new first.with_output sc (pair_by first.step (standing_step scenario.old first.code later)) out.old.items out.new.items) }
{
    let fork = last_fork.go_on(later, scenario.setup(), scenario.marks())?;
    if standing_step(scenario, &fork.machine, first.code, later).is_some() {
        try_pair(scenario, counts, &fork, first, later, out)?;
        return Ok(fork);
    }
    Ok(fork)
}

/// Counts the outcome of the pair with a later step, and appends its row, without a run, if the table of skips has the outcome of the skip of
/// the step after it.
fn try_foreseen(
    scenario: &Scenario,
    counts: &mut Counts,
    fork: &Fork,
    first: First,
    later: u32,
    end: u32,
    out: &mut Vec<u8>,
) -> Result<(), AllocError>
    requires joins { Joins counts.old.recall.lone fork.now.machine fork.now.step end }
    requires shows { Shows fork.now.machine (state_before scenario.now fork.now.step) }
    requires from { fork.now.step ≤ later }
    requires past { first.step < fork.now.step }
    requires below { later < end }
    requires within { end ≤ scenario.now.step }
    requires quiet { NoneFrom (first.step + 1) scenario.now.marks }
    ensures recall { OnOk result (counts.new.recall ≡ counts.old.recall) }
    ensures met { OnOk result ((sc : ScenarioOf) → scenario.now ≡ skipped sc first.step → TakesSteps sc (Once first.step Skip) first.steps
        → CountsMore counts.old counts.new first.with_output sc (pair_by first.step (standing_step scenario.now first.code later)) out.old.items out.new.items) }
{
    let found = counts.recall.lone.outcome_at(later + 1, first.code)?;
    match found {
        Some(outcome) => count_pair(counts, first, later, outcome.text(), out),
        None => Ok(()),
    }
}

/// Counts the outcomes of the pairs with the steps from one on up to another that the table of skips has, and appends their rows.
fn try_rest(
    scenario: &Scenario,
    counts: &mut Counts,
    fork: &Fork,
    first: First,
    from: u32,
    end: u32,
    out: &mut Vec<u8>,
) -> Result<(), AllocError>
    requires joins { Joins counts.old.recall.lone fork.now.machine fork.now.step end }
    requires shows { Shows fork.now.machine (state_before scenario.now fork.now.step) }
    requires from { fork.now.step ≤ from }
    requires past { first.step < fork.now.step }
    requires forward { from ≤ end }
    requires within { end ≤ scenario.now.step }
    requires quiet { NoneFrom (first.step + 1) scenario.now.marks }
    ensures met { OnOk result ((sc : ScenarioOf) (begun : CountsOf) (before : List ℕ) → scenario.now ≡ skipped sc first.step
        → TakesSteps sc (Once first.step Skip) first.steps
        → CountsMore begun counts.old first.with_output sc (pairs_from sc first.code first.step (from - (first.step + 1))) before out.old.items
        → CountsMore begun counts.new first.with_output sc (pairs_from sc first.code first.step (end - (first.step + 1))) before out.new.items) }
{
    for later in from..end {
        try_foreseen(scenario, counts, fork, first, later, end, out)?;
    }
    Ok(())
}

/// Tries the pair with each later step below another.
fn try_until(
    scenario: &mut Scenario,
    counts: &mut Counts,
    fork: &Fork,
    first: First,
    end: u32,
    out: &mut Vec<u8>,
) -> Result<(), AllocError>
    requires near { scenario.old.step ≤ limit_of scenario.old }
    requires below { first.step < scenario.old.step }
    requires forward { first.step + 1 ≤ end }
    requires within { end ≤ scenario.old.step }
    requires room { length scenario.old.marks < most_marks }
    requires before { fork.now.step ≤ first.step }
    requires led { IsLed first.step scenario.old fork.now }
    requires quiet { NoneFrom (first.step + 1) scenario.old.marks }
    ensures same { scenario.new ≡ scenario.old }
    ensures met { OnOk result ((sc : ScenarioOf) → scenario.old ≡ skipped sc first.step → TakesSteps sc (Once first.step Skip) first.steps
        → CountsMore counts.old counts.new first.with_output sc (pairs_from sc first.code first.step (end - (first.step + 1))) out.old.items out.new.items) }
{
    let mut last_fork = fork.go_on(first.step, scenario.setup(), scenario.marks())?;
    for later in first.step + 1..end {
        last_fork = try_later(scenario, counts, &last_fork, first, later, out)?;
        if counts.recall.lone.joins(&last_fork, later, end) {
            return try_rest(scenario, counts, &last_fork, first, later + 1, end, out);
        }
    }
    Ok(())
}

/// Leaves out the first instruction of pairs, and then each later one. Afterwards the scenario is as it was.
fn try_after(
    scenario: &mut Scenario,
    counts: &mut Counts,
    fork: &Fork,
    first: First,
    end: u32,
    out: &mut Vec<u8>,
) -> Result<(), AllocError>
    requires near { scenario.old.step ≤ limit_of scenario.old }
    requires unmarked { scenario.old.marks ≡ [] }
    requires below { first.step < scenario.old.step }
    requires forward { first.step + 1 ≤ end }
    requires within { end ≤ scenario.old.step }
    requires fork { IsForkFor (After first.step) (run_of scenario.old) scenario.old.step fork.now }
    requires steps { TakesSteps scenario.old (Once first.step Skip) first.steps }
    ensures same { scenario.new ≡ scenario.old }
    ensures met { OnOk result (CountsMore counts.old counts.new first.with_output scenario.old
        (pairs_from scenario.old first.code first.step (end - (first.step + 1))) out.old.items out.new.items) }
{
    edits_follow();
    let change = Change::Once {
        step: first.step,
        glitch: Glitch::Skip,
    };
    scenario.edit(change.edit())?;
    let met = try_until(scenario, counts, fork, first, end, out);
    unmark(scenario);
    met
}

/// Tries the pairs at a site, if they were asked for.
#[tactic(auto, unfolding(crate::specs::Standing::pairs_at))]
pub(crate) fn try_pairs(
    settings: Settings,
    scenario: &mut Scenario,
    counts: &mut Counts,
    plan: &Plan,
    site: &Site,
    out: &mut Vec<u8>,
) -> Result<(), AllocError>
    requires near { scenario.old.step ≤ limit_of scenario.old }
    requires unmarked { scenario.old.marks ≡ [] }
    requires below { IsBelow scenario.old.step site.now.standing }
    requires fork { Continues scenario.old site.now.standing site.now.fork }
    ensures same { scenario.new ≡ scenario.old }
    ensures met { OnOk result (CountsMore counts.old counts.new settings.with_output scenario.old (pairs_at scenario.old plan.now site.now.standing) out.old.items out.new.items) }
{
    let Standing::Step { step, .. } = site.standing else {
        return Ok(());
    };
    let last = scenario.step();
    let end = plan.steps.end.min(last);
    if !plan.pairs {
        return Ok(());
    }
    if end <= step {
        return Ok(());
    }
    let first = First {
        step,
        steps: last - site.fork.step,
        code: plan.code,
        with_output: settings.with_output,
    };
    counts.recall.foresee(settings, scenario, &site.fork, end)?;
    try_after(scenario, counts, &site.fork, first, end, out)
}
