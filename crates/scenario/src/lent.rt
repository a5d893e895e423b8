//! A scenario with borrowed parts, and its report.
ghost use Rattle.std.specs.Prelude.{◌≡◌, ◌≤◌, IfOk, OnOk, OnErr};
ghost use Rattle.guest_machine.specs.Shows.{Shows};
ghost use Rattle.guest_machine.specs.State.{State};
ghost use Rattle.replay_report.specs.Outlines.{IsOutline};
ghost use Rattle.replay_report.specs.Report.{AppendsReport};
ghost use Rattle.scenario.specs.Lent.{lent};
ghost use Rattle.scenario.specs.Limits.{most_callers};
ghost use Rattle.scenario.specs.Scenario.{IsReportOf, chosen_state, first_state, with_words};

use crate::written::Written;
use checkpoints::run_to;
use guest_elf::Image;
use guest_machine::{Alteration, Machine, Meter, Setup};
use replay_report::{Options, outline, render};
use std::alloc::{AllocError, Global};
use suppressions::Suppression;

/// A scenario with borrowed parts.
#[derive(Clone, Copy)]
pub struct ScenarioRef<'a> {
    /// The program.
    pub image: &'a Image<'a>,
    /// The words and halves that were written into it, in order.
    pub words: &'a [Written],
    /// The input and the heap's settings.
    pub setup: &'a Setup,
    /// The marks, in order.
    pub marks: &'a [Alteration],
    /// The suppressions with their switches.
    pub suppressions: &'a [Suppression],
    /// The options of the report.
    pub options: &'a Options,
    /// The chosen step.
    pub step: u32,
    /// The greatest step that may be chosen. The report doesn't depend on it.
    pub limit: u32,
}

impl<'a> ScenarioRef<'a> {
    /// Appends the report at the chosen step, by one run from step zero, whose steps count on a meter. `callers` of the options is from 1
    /// to 24.
    #[tactic(auto, unfolding(crate::specs::Scenario::chosen_state))]
    pub fn report(
        &self,
        alloc: Global,
        meter: &mut Meter,
        out: &mut Vec<u8>,
    ) -> Result<(), AllocError>
        requires some { 1 ≤ self.now.options.now.callers }
        requires few { self.now.options.now.callers ≤ most_callers }
        ensures ok { OnOk result (AppendsReport (IsReportOf (lent self.now)) out.old.items out.new.items) }
        ensures err { OnErr result (out.new.items ≡ out.old.items) }
    {
        let start = self.start(alloc)?;
        let machine = run_to(start, self.setup, self.marks, self.step, meter)?;
        self.render(alloc, &machine, out)
    }

    /// Appends the report of a machine that is at the chosen step of the run.
    #[tactic(auto, unfolding(crate::specs::Scenario::IsReportOf))]
    pub(crate) fn render(
        &self,
        alloc: Global,
        machine: &Machine,
        out: &mut Vec<u8>,
    ) -> Result<(), AllocError>
        requires some { 1 ≤ self.now.options.now.callers }
        requires few { self.now.options.now.callers ≤ most_callers }
        ensures ok { OnOk result (Shows machine.now (chosen_state (lent self.now)) → AppendsReport (IsReportOf (lent self.now)) out.old.items out.new.items) }
        ensures err { OnErr result (out.new.items ≡ out.old.items) }
    {
        let input_len = self.setup.input.len() as u64;
        render(
            alloc,
            machine,
            self.image,
            self.suppressions,
            self.options,
            self.step,
            input_len,
            out,
        )
    }

    /// Returns the outline of a machine, at whatever step of whatever run it is.
    pub(crate) fn outline(
        &self,
        alloc: Global,
        machine: &Machine,
        with_output: bool,
    ) -> Result<Vec<u8>, AllocError>
        requires some { 1 ≤ self.now.options.now.callers }
        requires few { self.now.options.now.callers ≤ most_callers }
        ensures { IfOk result (λ text. (s : State) → Shows machine.now s
            → IsOutline s (lent self.now).image (lent self.now).rules (lent self.now).options with_output text.items) }
    {
        outline(
            alloc,
            machine,
            self.image,
            self.suppressions,
            self.options,
            with_output,
        )
    }

    /// Returns the machine before step 0, with the codes written.
    #[tactic(auto, unfolding(crate::specs::Scenario::first_state))]
    pub(crate) fn start(&self, alloc: Global) -> Result<Machine, AllocError>
        ensures { IfOk result (λ machine. Shows machine (first_state (lent self.now))) }
    {
        let start = Machine::start(alloc, self.image)?;
        with_words(start, self.words)
    }
}

/// Returns a machine with codes written into it, in order.
fn with_words(machine: Machine, words: &[Written]) -> Result<Machine, AllocError>
    ensures { IfOk result (λ written. (s : State) → Shows machine s → Shows written (with_words s words.now)) }
{
    let mut machine = machine;
    for written in words {
        machine = machine.poke(written.addr, written.code)?;
    }
    Ok(machine)
}
