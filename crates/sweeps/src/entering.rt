//! The changes of a byte, one at a time, each by a run that enters in a table what it executes.
ghost use Rattle.std.specs.Prelude.{◌≡◌, ◌≤◌, ◌∷◌, [], ℕ, IfOk, OnOk, length};
ghost use Rattle.std.specs.List.{All};
ghost use Rattle.checkpoints.specs.Effects.{IsOfSetup, LeadsTo, Run};
ghost use Rattle.checkpoints.specs.Forks.{IsForkFor};
ghost use Rattle.checkpoints.specs.Merged.{AlsoEnters};
ghost use Rattle.scenario.specs.Edits.{row};
ghost use Rattle.scenario.specs.Scenario.{IsOutlineOf, run_of, limit_of};
ghost use Rattle.sweep_plans.specs.Changes.{edit_of};
ghost use Rattle.sweeps.specs.Covered.{AreCovered, CoverageGrows, CoversMore, IsByte, MayCover};
ghost use Rattle.sweeps.specs.Outcomes.{IsOutcome};
ghost use Rattle.sweeps.specs.Sites.{Continues, changes_there};
ghost use Rattle.sweeps.specs.Standing.{IsAt, IsBelow, Stands};
ghost use Rattle.sweeps.specs.Sweeps.{CountsMore};

use crate::counting::Counts;
use crate::held_run::HeldRun;
use crate::meeting::try_place;
use crate::outcomes::take_back;
use crate::settings::Settings;
use crate::sites::Site;
use checkpoints::{Effect, Fork, Sides};
use guest_machine::Span;
use scenario::Scenario;
use scenario::laws::edits_follow;
use std::alloc::{AllocError, Global};
use sweep_plans::{Change, Plan, Standing};

/// A table of a range of addresses that says what runs have executed.
#[derive(Drop)]
pub(crate) struct Coverage {
    pub(crate) range: Span,
    pub(crate) table: Vec<Sides>,
}

/// Returns the table of a range that says what the unedited run has executed. That of a range of no bytes needs no run.
pub(crate) fn unedited_table(
    alloc: Global,
    run: &HeldRun,
    range: Span,
) -> Result<Vec<Sides>, AllocError>
    ensures { IfOk result (λ table. AreCovered run.now.scenario [] range table.items) }
{
    if range.len == 0 {
        return Ok(Vec::new(alloc));
    }
    let scenario = &run.scenario;
    run.trail.sides(
        alloc,
        range,
        scenario.step(),
        scenario.setup(),
        scenario.marks(),
    )
}

/// Returns the outline of an edited scenario, whose run continues from a fork, and enters in a table what the run executes from there on. An
/// effect leads to it from the run of the fork.
fn outline_entering(
    scenario: &Scenario,
    fork: &Fork,
    effect: Effect,
    first: u32,
    table: &mut Vec<Sides>,
    with_output: bool,
) -> Result<Vec<u8>, AllocError>
    requires before { fork.now.step ≤ scenario.now.step }
    requires of { IsOfSetup effect }
    ensures outline { IfOk result (λ text. (one : Run) (last : ℕ) → LeadsTo effect one (run_of scenario.now) → IsForkFor effect one last fork.now
        → IsOutlineOf with_output scenario.now text.items) }
    ensures entered { OnOk result ((length table.new.items ≡ length table.old.items)
        × AlsoEnters effect fork.now first scenario.now.setup scenario.now.marks scenario.now.step table.old.items table.new.items) }
{
    let machine = fork.follow_entering(
        effect,
        scenario.setup(),
        scenario.marks(),
        scenario.step(),
        first,
        table,
    )?;
    scenario.outline(&machine, with_output)
}

/// Returns the outcome of a change of a byte, whose run continues from a fork, and enters in a table what the run executes. Afterwards the
/// scenario is as it was.
fn outcome_entering(
    scenario: &mut Scenario,
    fork: &Fork,
    standing: Standing,
    change: Change,
    first: u32,
    table: &mut Vec<Sides>,
    with_output: bool,
) -> Result<Vec<u8>, AllocError>
    requires before { fork.now.step ≤ scenario.old.step }
    requires stands { Stands scenario.old standing }
    requires byte { IsByte standing }
    requires at { IsAt scenario.old standing change }
    requires fork { IsForkFor (row scenario.old (edit_of change)).effect (run_of scenario.old) scenario.old.step fork.now }
    ensures same { scenario.new ≡ scenario.old }
    ensures outcome { IfOk result (λ text. IsOutcome with_output scenario.old change text.items) }
    ensures covers { OnOk result (CoversMore scenario.old first (change ∷ []) table.old.items table.new.items) }
{
    edits_follow();
    let effect = scenario.effect(&change.edit());
    scenario.edit(change.edit())?;
    let told = outline_entering(scenario, fork, effect, first, table, with_output);
    take_back(scenario, standing);
    told
}

/// Applies a change of a byte at a site, and no other edit, counts the outcome, appends its row, and enters in a table what its run executes.
/// Afterwards the scenario is as it was.
fn try_entering(
    scenario: &mut Scenario,
    counts: &mut Counts,
    site: &Site,
    change: Change,
    coverage: &mut Coverage,
    with_output: bool,
    out: &mut Vec<u8>,
) -> Result<(), AllocError>
    requires stands { Stands scenario.old site.now.standing }
    requires byte { IsByte site.now.standing }
    requires at { IsAt scenario.old site.now.standing change }
    requires fork { IsForkFor (row scenario.old (edit_of change)).effect (run_of scenario.old) scenario.old.step site.now.fork }
    ensures range { coverage.new.range ≡ coverage.old.range }
    ensures same { scenario.new ≡ scenario.old }
    ensures met { OnOk result (CountsMore counts.old counts.new with_output scenario.old (change ∷ []) out.old.items out.new.items) }
    ensures covers { OnOk result (CoverageGrows scenario.old (change ∷ []) coverage.old coverage.new) }
{
    let outcome = outcome_entering(
        scenario,
        &site.fork,
        site.standing,
        change,
        coverage.range.start,
        &mut coverage.table,
        with_output,
    )?;
    let steps = scenario.step() - site.fork.step;
    counts.count(change, &outcome, steps, out)?;
    Ok(())
}

/// Applies each of some changes of a byte at a site, one at a time, counts the outcomes, appends the rows, and enters in a table what the runs
/// execute. Afterwards the scenario is as it was.
fn try_each_entering(
    scenario: &mut Scenario,
    counts: &mut Counts,
    site: &Site,
    changes: &[Change],
    coverage: &mut Coverage,
    with_output: bool,
    out: &mut Vec<u8>,
) -> Result<(), AllocError>
    requires stands { Stands scenario.old site.now.standing }
    requires byte { IsByte site.now.standing }
    requires at { All (IsAt scenario.old site.now.standing) changes.now }
    requires fork { Continues scenario.old site.now.standing site.now.fork }
    ensures range { coverage.new.range ≡ coverage.old.range }
    ensures same { scenario.new ≡ scenario.old }
    ensures met { OnOk result (CountsMore counts.old counts.new with_output scenario.old changes.now out.old.items out.new.items) }
    ensures covers { OnOk result (CoverageGrows scenario.old changes.now coverage.old coverage.new) }
{
    for change in changes {
        try_entering(scenario, counts, site, *change, coverage, with_output, out)?;
    }
    Ok(())
}

/// Applies each change of a plan to the byte at a site, one at a time, and enters in a table what the runs execute. Afterwards the scenario is
/// as it was.
fn try_byte(
    settings: Settings,
    scenario: &mut Scenario,
    counts: &mut Counts,
    plan: &Plan,
    site: &Site,
    coverage: &mut Coverage,
    out: &mut Vec<u8>,
) -> Result<(), AllocError>
    requires near { scenario.old.step ≤ limit_of scenario.old }
    requires unmarked { scenario.old.marks ≡ [] }
    requires stands { Stands scenario.old site.now.standing }
    requires byte { IsByte site.now.standing }
    requires fork { Continues scenario.old site.now.standing site.now.fork }
    ensures range { coverage.new.range ≡ coverage.old.range }
    ensures same { scenario.new ≡ scenario.old }
    ensures met { OnOk result (CountsMore counts.old counts.new settings.with_output scenario.old (changes_there scenario.old plan.now site.now) out.old.items out.new.items) }
    ensures covers { OnOk result (CoverageGrows scenario.old (changes_there scenario.old plan.now site.now) coverage.old coverage.new) }
{
    let changes = plan.changes(settings.alloc, site.standing)?;
    try_each_entering(
        scenario,
        counts,
        site,
        &changes,
        coverage,
        settings.with_output,
        out,
    )
}

/// Applies each change of a plan at a site, one at a time, counts the outcomes and appends the rows. If a table has rows and a byte is there,
/// what the runs execute is entered in it. Afterwards the run's scenario is as it was.
pub(crate) fn try_site(
    settings: Settings,
    run: &mut HeldRun,
    counts: &mut Counts,
    plan: &Plan,
    site: &Site,
    coverage: &mut Coverage,
    out: &mut Vec<u8>,
) -> Result<(), AllocError>
    requires near { run.old.scenario.step ≤ limit_of run.old.scenario }
    requires unmarked { run.old.scenario.marks ≡ [] }
    requires stands { Stands run.old.scenario site.now.standing }
    requires below { IsBelow run.old.scenario.step site.now.standing }
    requires fork { Continues run.old.scenario site.now.standing site.now.fork }
    ensures range { coverage.new.range ≡ coverage.old.range }
    ensures same { run.new.scenario ≡ run.old.scenario }
    ensures met { OnOk result (CountsMore counts.old counts.new settings.with_output run.old.scenario
        (changes_there run.old.scenario plan.now site.now) out.old.items out.new.items) }
    ensures covers { OnOk result (MayCover site.now.standing coverage.old.table.items
        → CoverageGrows run.old.scenario (changes_there run.old.scenario plan.now site.now) coverage.old coverage.new) }
{
    if coverage.table.is_empty() {
        return try_place(settings, &mut run.scenario, counts, plan, site, out);
    }
    match site.standing {
        Standing::Byte { .. } => {
            try_byte(
                settings,
                &mut run.scenario,
                counts,
                plan,
                site,
                coverage,
                out,
            )
        }
        _ => try_place(settings, &mut run.scenario, counts, plan, site, out),
    }
}
