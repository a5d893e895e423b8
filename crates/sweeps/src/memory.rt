//! The flips of the bytes that the run reads later.
ghost use Rattle.std.specs.Prelude.{◌≡◌, ◌≤◌, ◌+◌, ◌-◌, ◌^◌, ◌%◌, [], IfOk, OnOk};
ghost use Rattle.scenario.specs.Scenario.{limit_of};
ghost use Rattle.std.specs.List.{All};
ghost use Rattle.sweeps.specs.Accesses.{IsTable, TurnsOn};
ghost use Rattle.sweeps.specs.Memory.{memory_at};
ghost use Rattle.sweeps.specs.Recall.{IsTouched};
ghost use Rattle.sweeps.specs.Sites.{Continues, MayTurn};
ghost use Rattle.sweeps.specs.Standing.{IsAt, IsBelow, Stands};
ghost use Rattle.sweeps.specs.Sweeps.{CountsMore};

use crate::accesses::{READ, first_accesses};
use crate::counting::Counts;
use crate::meeting::try_each;
use crate::settings::Settings;
use crate::sites::Site;
use crate::striking::{NextStep, try_changes};
use guest_machine::{Machine, Setup, Touched};
use scenario::Scenario;
use shadow_memory::Memory;
use std::alloc::AllocError;
use sweep_plans::{Change, Plan, Standing, byte_flips};

/// What the flips at a step need.
#[derive(Clone, Copy)]
struct Turning {
    settings: Settings,
    step: u32,
    /// The ranges that the step touches.
    touched: Touched,
}

/// Returns the ranges that the next step of a machine touches.
fn touched_by(machine: &Machine, setup: &Setup) -> Result<Touched, AllocError>
    ensures { IfOk result (IsTouched machine.now setup.now) }
{
    let (_stepped, touched) = machine.share_warm()?.step_on(setup)?;
    Ok(touched)
}

/// Makes some changes just before the step, one at a time. An outcome that is recalled comes without a run.
fn try_turned(
    scenario: &mut Scenario,
    counts: &mut Counts,
    site: &Site,
    turning: Turning,
    changes: &[Change],
    out: &mut Vec<u8>,
) -> Result<(), AllocError>
    requires turning { MayTurn scenario.old site.now turning }
    requires at { All (IsAt scenario.old site.now.standing) changes.now }
    ensures same { scenario.new ≡ scenario.old }
    ensures met { OnOk result (CountsMore counts.old counts.new turning.settings.with_output scenario.old changes.now out.old.items out.new.items) }
{
    if counts.recall.step != turning.step {
        return try_each(
            scenario,
            counts,
            site,
            changes,
            turning.settings.with_output,
            out,
        );
    }
    let next = NextStep {
        step: turning.step,
        touched: Some(turning.touched),
    };
    try_changes(turning.settings, scenario, counts, site, next, changes, out)
}

/// Turns each bit of a byte, one at a time, if the run reads the byte later.
fn try_byte(
    scenario: &mut Scenario,
    counts: &mut Counts,
    table: &Memory,
    site: &Site,
    turning: Turning,
    addr: u32,
    out: &mut Vec<u8>,
) -> Result<(), AllocError>
    requires turning { MayTurn scenario.old site.now turning }
    requires table { IsTable scenario.old turning.step (scenario.old.step - turning.step) table.now }
    ensures same { scenario.new ≡ scenario.old }
    ensures met { OnOk result (TurnsOn scenario.old turning.step turning.settings.with_output addr (addr + 1) counts.old out.old.items counts.new out.new.items) }
{
    if table.byte(addr).byte != READ {
        return Ok(());
    }
    let changes = byte_flips(turning.settings.alloc, turning.step, addr)?;
    try_turned(scenario, counts, site, turning, &changes, out)
}

/// Turns each bit of the four bytes of a word, one at a time, of those that the run reads later.
fn try_word(
    scenario: &mut Scenario,
    counts: &mut Counts,
    table: &Memory,
    site: &Site,
    turning: Turning,
    word: u32,
    out: &mut Vec<u8>,
) -> Result<(), AllocError>
    requires aligned { word % 4 ≡ 0 }
    requires turning { MayTurn scenario.old site.now turning }
    requires table { IsTable scenario.old turning.step (scenario.old.step - turning.step) table.now }
    ensures same { scenario.new ≡ scenario.old }
    ensures met { OnOk result (TurnsOn scenario.old turning.step turning.settings.with_output word (word + 4) counts.old out.old.items counts.new out.new.items) }
{
    for i in 0..4 {
        try_byte(scenario, counts, table, site, turning, word + i, out)?;
    }
    Ok(())
}

/// Turns each bit of all bytes that the run reads later, one at a time, in ascending order of their addresses.
fn try_bytes(
    scenario: &mut Scenario,
    counts: &mut Counts,
    table: &Memory,
    site: &Site,
    turning: Turning,
    out: &mut Vec<u8>,
) -> Result<(), AllocError>
    requires turning { MayTurn scenario.old site.now turning }
    requires table { IsTable scenario.old turning.step (scenario.old.step - turning.step) table.now }
    ensures same { scenario.new ≡ scenario.old }
    ensures met { OnOk result (TurnsOn scenario.old turning.step turning.settings.with_output 0 (2 ^ 32) counts.old out.old.items counts.new out.new.items) }
{
    let mut from = 0;
    while let Some(word) = table.next_word(from) {
        try_word(scenario, counts, table, site, turning, word, out)?;
        match word.checked_add(4) {
            Some(next) => from = next,
            None => return Ok(()),
        }
    }
    Ok(())
}

/// Executes the unedited run from a site on, and then turns each bit of each byte that it reads before it overwrites the byte, one at a
/// time, if that was asked for. Afterwards the scenario is as it was.
#[tactic(auto, unfolding(crate::specs::Memory::memory_at))]
pub(crate) fn try_memory(
    settings: Settings,
    scenario: &mut Scenario,
    counts: &mut Counts,
    plan: &Plan,
    site: &Site,
    out: &mut Vec<u8>,
) -> Result<(), AllocError>
    requires near { scenario.old.step ≤ limit_of scenario.old }
    requires unmarked { scenario.old.marks ≡ [] }
    requires stands { Stands scenario.old site.now.standing }
    requires below { IsBelow scenario.old.step site.now.standing }
    requires fork { Continues scenario.old site.now.standing site.now.fork }
    ensures same { scenario.new ≡ scenario.old }
    ensures met { OnOk result (CountsMore counts.old counts.new settings.with_output scenario.old (memory_at scenario.old plan.now site.now.standing) out.old.items out.new.items) }
{
    let Standing::Step { step, .. } = site.standing else {
        return Ok(());
    };
    if !plan.models.memory {
        return Ok(());
    }
    let table = first_accesses(settings.alloc, scenario, &site.fork.machine, step)?;
    let touched = touched_by(&site.fork.machine, scenario.setup())?;
    let turning = Turning {
        settings,
        step,
        touched,
    };
    try_bytes(scenario, counts, &table, site, turning, out)
}
