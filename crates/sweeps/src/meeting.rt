//! The changes of one place, one at a time.
ghost use Rattle.std.specs.Prelude.{◌≡◌, ◌≤◌, ◌∷◌, [], OnOk};
ghost use Rattle.std.specs.List.{All};
ghost use Rattle.checkpoints.specs.Forks.{IsForkFor};
ghost use Rattle.scenario.specs.Edits.{row};
ghost use Rattle.scenario.specs.Scenario.{run_of, limit_of};
ghost use Rattle.sweep_plans.specs.Changes.{edit_of};
ghost use Rattle.sweep_plans.specs.Plans.{changes_of};
ghost use Rattle.sweeps.specs.Sites.{Continues, changes_there};
ghost use Rattle.sweeps.specs.Standing.{IsAt, IsBelow, Stands};
ghost use Rattle.sweeps.specs.Sweeps.{CountsMore};

use crate::accesses::is_running;
use crate::counting::Counts;
use crate::memory::try_memory;
use crate::outcomes::outcome_of;
use crate::pairs::try_pairs;
use crate::settings::Settings;
use crate::sites::Site;
use crate::striking::try_step;
use scenario::Scenario;
use std::alloc::AllocError;
use sweep_plans::{Change, Plan, Standing};

/// Applies a change at a site, and no other edit, counts the outcome, and appends its row. Afterwards the scenario is as it was.
pub(crate) fn try_change_at(
    scenario: &mut Scenario,
    counts: &mut Counts,
    site: &Site,
    change: Change,
    with_output: bool,
    out: &mut Vec<u8>,
) -> Result<(), AllocError>
    requires stands { Stands scenario.old site.now.standing }
    requires at { IsAt scenario.old site.now.standing change }
    requires fork { IsForkFor (row scenario.old (edit_of change)).effect (run_of scenario.old) scenario.old.step site.now.fork }
    ensures same { scenario.new ≡ scenario.old }
    ensures recall { OnOk result (counts.new.recall ≡ counts.old.recall) }
    ensures met { OnOk result (CountsMore counts.old counts.new with_output scenario.old (change ∷ []) out.old.items out.new.items) }
{
    let outcome = outcome_of(
        counts.course.as_ref(),
        scenario,
        &site.fork,
        site.standing,
        change,
        with_output,
    )?;
    let steps = scenario.step() - site.fork.step;
    counts.count(change, &outcome, steps, out)?;
    Ok(())
}

/// Applies each of some changes at a site, one at a time, by a run, counts the outcomes, and appends the rows. Afterwards the scenario is as it
/// was.
pub(crate) fn try_each(
    scenario: &mut Scenario,
    counts: &mut Counts,
    site: &Site,
    changes: &[Change],
    with_output: bool,
    out: &mut Vec<u8>,
) -> Result<(), AllocError>
    requires stands { Stands scenario.old site.now.standing }
    requires at { All (IsAt scenario.old site.now.standing) changes.now }
    requires fork { Continues scenario.old site.now.standing site.now.fork }
    ensures same { scenario.new ≡ scenario.old }
    ensures met { OnOk result (CountsMore counts.old counts.new with_output scenario.old changes.now out.old.items out.new.items) }
{
    for change in changes {
        try_change_at(scenario, counts, site, *change, with_output, out)?;
    }
    Ok(())
}

/// Applies each of some changes at a site, one at a time, counts the outcomes, and appends the rows. At a step, outcomes that are recalled come
/// without a run. Afterwards the scenario is as it was.
fn try_there(
    settings: Settings,
    scenario: &mut Scenario,
    counts: &mut Counts,
    site: &Site,
    changes: &[Change],
    out: &mut Vec<u8>,
) -> Result<(), AllocError>
    requires unmarked { scenario.old.marks ≡ [] }
    requires stands { Stands scenario.old site.now.standing }
    requires below { IsBelow scenario.old.step site.now.standing }
    requires at { All (IsAt scenario.old site.now.standing) changes.now }
    requires fork { Continues scenario.old site.now.standing site.now.fork }
    ensures same { scenario.new ≡ scenario.old }
    ensures met { OnOk result (CountsMore counts.old counts.new settings.with_output scenario.old changes.now out.old.items out.new.items) }
{
    if let Standing::Step { step, .. } = site.standing {
        if is_running(&site.fork.machine) {
            return try_step(settings, scenario, counts, site, step, changes, out);
        }
    }
    try_each(scenario, counts, site, changes, settings.with_output, out)
}

/// Applies each change of a plan at a site, one at a time, counts the outcomes, and appends the rows. Afterwards the scenario is as it was.
fn try_all(
    settings: Settings,
    scenario: &mut Scenario,
    counts: &mut Counts,
    plan: &Plan,
    site: &Site,
    out: &mut Vec<u8>,
) -> Result<(), AllocError>
    requires near { scenario.old.step ≤ limit_of scenario.old }
    requires unmarked { scenario.old.marks ≡ [] }
    requires stands { Stands scenario.old site.now.standing }
    requires below { IsBelow scenario.old.step site.now.standing }
    requires fork { Continues scenario.old site.now.standing site.now.fork }
    ensures same { scenario.new ≡ scenario.old }
    ensures met { OnOk result (CountsMore counts.old counts.new settings.with_output scenario.old (changes_of plan.now site.now.standing) out.old.items out.new.items) }
{
    let changes = plan.changes(settings.alloc, site.standing)?;
    counts.hold_course(settings.alloc, scenario, &site.fork, changes.len())?;
    try_there(settings, scenario, counts, site, &changes, out)
}

/// Applies each change of a plan at a site, one at a time, then those of bytes that the run reads later, and of pairs of faults of which the
/// first strikes there. Counts the outcomes, and appends the rows. Afterwards the scenario is as it was.
pub(crate) fn try_place(
    settings: Settings,
    scenario: &mut Scenario,
    counts: &mut Counts,
    plan: &Plan,
    site: &Site,
    out: &mut Vec<u8>,
) -> Result<(), AllocError>
    requires near { scenario.old.step ≤ limit_of scenario.old }
    requires unmarked { scenario.old.marks ≡ [] }
    requires stands { Stands scenario.old site.now.standing }
    requires below { IsBelow scenario.old.step site.now.standing }
    requires fork { Continues scenario.old site.now.standing site.now.fork }
    ensures same { scenario.new ≡ scenario.old }
    ensures met { OnOk result (CountsMore counts.old counts.new settings.with_output scenario.old (changes_there scenario.old plan.now site.now) out.old.items out.new.items) }
{
    try_all(settings, scenario, counts, plan, site, out)?;
    try_memory(settings, scenario, counts, plan, site, out)?;
    try_pairs(settings, scenario, counts, plan, site, out)
}
