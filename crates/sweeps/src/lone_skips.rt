//! What each skip of a run leads to by itself. Most runs in which an instruction is left out soon show a state of the run in which none is,
//! one step ahead of it, as a skip needs no step. From there a second skip leads to what the skip of the step after it leads to by itself.
ghost use Rattle.std.specs.Prelude.{◌≡◌, ◌+◌, ◌-◌, ◌<◌, ◌≤◌, [], IfOk, IsTrue, OnOk, Some, length, slice_get};
ghost use Rattle.scenario.specs.Scenario.{limit_of};
ghost use Rattle.guest_machine.specs.Run.{pre};
ghost use Rattle.guest_machine.specs.Shows.{Shows};
ghost use Rattle.guest_machine.specs.State.{State};
ghost use Rattle.sweeps.specs.Landmarks.{Outlines};
ghost use Rattle.sweeps.specs.LoneSkips.{IsFound, IsLone, left_out, struck_pc, strikes};
ghost use Rattle.sweeps.specs.declared.lone_skips.LoneSkip.{LoneSkip as LoneSkipOf};

use crate::landmarks::Landmarks;
use crate::recall::SharedOutcome;
use crate::settings::Settings;
use crate::sites::is_in_code;
use checkpoints::Fork;
use guest_machine::{Act, Alteration, Machine, Meter, Setup, Status};
use scenario::Scenario;
use std::alloc::{AllocError, Global};
use sweep_plans::Range;

/// What leaving an instruction out leads to.
#[derive(Drop)]
pub(crate) struct LoneSkip {
    /// pc before its step, if a fault may strike there in some code.
    pub(crate) pc: Option<u32>,
    /// The outcome of the skip, one step after the chosen one.
    pub(crate) outcome: SharedOutcome,
}

/// Machines of a run from a step on, and a row for each step from there.
#[derive(Drop)]
pub(crate) struct LoneSkips {
    pub(crate) landmarks: Landmarks,
    pub(crate) rows: Vec<LoneSkip>,
}

/// Returns pc, if a fault may strike the next step of a machine in some code.
fn struck_pc(machine: &Machine, setup: &Setup) -> Option<u32>
    ensures { (s : State) → Shows machine.now s → result ≡ struck_pc setup.now.hooks s.core }
{
    let pc = machine.pc();
    let is_running = matches!(machine.status(), Status::Running);
    if is_running && setup.hooks.at(pc).is_none() {
        Some(pc)
    } else {
        None
    }
}

/// Returns whether there is such a pc in this code.
fn strikes(code: Option<Range>, pc: Option<u32>) -> bool
    ensures { result ≡ strikes code pc }
{
    match pc {
        Some(pc) => is_in_code(code, pc),
        None => false,
    }
}

/// Returns the outline of a machine whose next instruction is left out, a number of steps later.
fn skip_outline(
    scenario: &Scenario,
    machine: &Machine,
    steps: u32,
    with_output: bool,
) -> Result<Vec<u8>, AllocError>
    ensures { IfOk result (λ text. (s : State) → Shows machine.now s
        → Outlines with_output scenario.now (pre (left_out s) scenario.now.setup [] steps) text.items) }
{
    let copy = machine.share_warm()?;
    let struck = copy.alter(&Alteration {
        step: 0,
        act: Act::Skip,
    })?;
    let end = struck.run(scenario.setup(), steps, &mut Meter::new())?;
    scenario.outline(&end, with_output)
}

/// Returns the row of a machine whose next instruction is left out.
fn lone_skip(
    settings: Settings,
    scenario: &Scenario,
    machine: &Machine,
    steps: u32,
) -> Result<LoneSkip, AllocError>
    ensures { IfOk result (λ row. (s : State) → Shows machine.now s → IsLone settings.with_output scenario.now s steps row) }
{
    let text = skip_outline(scenario, machine, steps, settings.with_output)?;
    Ok(LoneSkip {
        pc: struck_pc(machine, scenario.setup()),
        outcome: SharedOutcome::new(settings.alloc, text)?,
    })
}

impl LoneSkips {
    ghost use Rattle.sweeps.specs.LoneSkips.{AreForeseen, Joins};
    ghost use Rattle.sweeps.specs.Landmarks.{Follows};

    /// Returns a table without rows, from a step on.
    pub(crate) fn begin(alloc: Global, first: u32) -> LoneSkips
        ensures first { result.landmarks.first ≡ first }
        ensures steps { result.landmarks.steps ≡ 0 }
        ensures rows { result.rows.items ≡ [] }
        ensures machines { result.landmarks.machines.items ≡ [] }
    {
        LoneSkips {
            landmarks: Landmarks::begin(alloc, first),
            rows: Vec::new(alloc),
        }
    }

    /// Adds the row of the machine before the next step.
    fn add(
        &mut self,
        settings: Settings,
        scenario: &Scenario,
        machine: &Machine,
        steps: u32,
    ) -> Result<(), AllocError>
        requires steps { steps ≡ scenario.now.step + 1 - (self.old.landmarks.first + length self.old.rows.items) }
        requires rows { self.old.landmarks.steps ≡ length self.old.rows.items }
        ensures landmarks { OnOk result (self.new.landmarks ≡ self.old.landmarks) }
        ensures rows { OnOk result (length self.new.rows.items ≡ length self.old.rows.items + 1) }
        ensures foreseen { OnOk result (Follows scenario.now.setup self.old.landmarks machine.now → AreForeseen settings.with_output scenario.now self.old
            → AreForeseen settings.with_output scenario.now self.new) }
    {
        let row = lone_skip(settings, scenario, machine, steps)?;
        self.rows.push(row)?;
        Ok(())
    }

    /// Returns the table of the steps from one on up to another, given the machine before the first.
    pub(crate) fn along(
        settings: Settings,
        scenario: &Scenario,
        before: &Machine,
        first: u32,
        end: u32,
    ) -> Result<LoneSkips, AllocError>
        requires within { end ≤ scenario.now.step }
        requires near { scenario.now.step ≤ limit_of scenario.now }
        ensures { IfOk result (λ skips. AreForeseen settings.with_output scenario.now skips) }
    {
        let mut skips = LoneSkips::begin(settings.alloc, first);
        let mut machine = before.share_warm()?;
        for step in first..end + 1 {
            let steps = scenario.step() - step + 1;
            let held = skips.landmarks.hold(machine)?;
            skips.add(settings, scenario, &held, steps)?;
            machine = skips.landmarks.run(held, scenario.setup(), 1)?;
        }
        Ok(skips)
    }

    /// Returns whether there are rows up to a step, with that step.
    fn has_row(&self, step: u32) -> bool
        ensures { IsTrue result → step < self.now.landmarks.first + length self.now.rows.items }
    {
        match step.checked_sub(self.landmarks.first) {
            Some(row) => (row as usize) < self.rows.len(),
            None => false,
        }
    }

    /// Returns whether there are rows for the steps from one on up to another, with that step.
    pub(crate) fn reaches(&self, step: u32, end: u32) -> bool {
        self.landmarks.first <= step && self.has_row(end)
    }

    /// Returns whether each state that a fork before a step shows is one that a held machine shows before the next step, and there are rows
    /// up to a step.
    pub(crate) fn joins(&self, fork: &Fork, step: u32, end: u32) -> bool
        ensures joins { IsTrue result → Joins self.now fork.now.machine step end }
        ensures step { IsTrue result → fork.now.step ≡ step }
    {
        if fork.step != step {
            return false;
        }
        if !self.has_row(end) {
            return false;
        }
        self.landmarks.meets(&fork.machine, step, 1)
    }

    /// Returns the outcome of the skip of a step, if a fault may strike there in this code.
    pub(crate) fn outcome_at(
        &self,
        step: u32,
        code: Option<Range>,
    ) -> Result<Option<SharedOutcome>, AllocError>
        requires first { self.now.landmarks.first ≤ step }
        requires rows { step < self.now.landmarks.first + length self.now.rows.items }
        ensures { IfOk result (λ found. (row : LoneSkipOf) → slice_get self.now.rows.items (step - self.now.landmarks.first) ≡ Some row → IsFound code row found) }
    {
        let row = &self.rows[(step - self.landmarks.first) as usize];
        if strikes(code, row.pc) {
            Ok(Some(row.outcome.clone()?))
        } else {
            Ok(None)
        }
    }
}
