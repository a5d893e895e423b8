//! A scenario, and its report.
ghost use Rattle.std.specs.Prelude.{◌≡◌, ◌≤◌, IfOk, OnOk, OnErr, length};
ghost use Rattle.guest_machine.specs.Shows.{Shows};
ghost use Rattle.guest_machine.specs.State.{State};
ghost use Rattle.replay_report.specs.Outlines.{IsOutline};
ghost use Rattle.replay_report.specs.Report.{AppendsReport};
ghost use Rattle.scenario.specs.Lent.{lent};
ghost use Rattle.scenario.specs.Limits.{furthest_step, longest_input, most_callers};
ghost use Rattle.scenario.specs.Scenario.{IsReportOf, at_step, begun, begun_within, chosen_state, first_state, limit_of};
ghost use Rattle.scenario.specs.Edits.{with_input};

use crate::lent::ScenarioRef;
use crate::limits::MOST_STEPS;
use crate::setups::setup_with;
use crate::written::Written;
use guest_elf::Image;
use guest_machine::{Alteration, Input, Machine, Meter, Setup};
use replay_report::Options;
use std::alloc::{AllocError, Global};
use std::marker::Model;
use suppressions::Suppression;

/// A program with the words and halves that were written into it, its input and the heap's settings, marks, suppressions, options of the report and
/// the chosen step.
#[derive(Drop)]
pub struct Scenario<'a> {
    pub(crate) alloc: Global,
    pub(crate) image: Image<'a>,
    pub(crate) words: Vec<Written>,
    pub(crate) setup: Setup,
    pub(crate) marks: Vec<Alteration>,
    pub(crate) suppressions: Vec<Suppression>,
    pub(crate) options: Options,
    pub(crate) step: u32,
    pub(crate) limit: u32,
}

impl<'a> Model for Scenario<'a> {
    ghost use Rattle.std.specs.Prelude.{◌≤◌, length};
    ghost use Rattle.scenario.specs.Limits.{furthest_step, longest_input, most_callers};
    ghost use Rattle.scenario.specs.Scenario.{Scenario as ScenarioOf};

    ghost Value = { ScenarioOf };

    ghost view = { λ a. record { image = a.image; words = a.words.items; setup = a.setup; marks = a.marks.items; rules = a.suppressions.items; options = a.options; step = a.step; limit = a.limit } };

    ghost invariant = { λ a. (length a.setup.input ≤ longest_input) × (1 ≤ a.options.callers) × (a.options.callers ≤ most_callers) × (a.limit ≤ furthest_step) };
}

impl<'a> Scenario<'a> {
    /// Returns the scenario of a program with an input and suppressions, without edits and with step 0 chosen.
    pub fn begin(
        alloc: Global,
        image: Image<'a>,
        input: Vec<u8>,
        suppressions: Vec<Suppression>,
    ) -> Result<Self, AllocError>
        requires { length input.items ≤ longest_input }
        ensures { IfOk result (λ scenario. scenario ≡ begun image.entry input.items suppressions.items) }
    {
        Scenario::begin_within(alloc, image, input, suppressions, MOST_STEPS)
    }

    /// The same, with another greatest step that may be chosen or marked.
    pub fn begin_within(
        alloc: Global,
        image: Image<'a>,
        input: Vec<u8>,
        suppressions: Vec<Suppression>,
        limit: u32,
    ) -> Result<Self, AllocError>
        requires short { length input.items ≤ longest_input }
        requires limit { limit ≤ furthest_step }
        ensures { IfOk result (λ scenario. scenario ≡ begun_within limit image.entry input.items suppressions.items) }
    {
        let setup = setup_with(alloc, &image, input)?;
        Ok(Scenario {
            alloc,
            image,
            words: Vec::new(alloc),
            setup,
            marks: Vec::new(alloc),
            suppressions,
            options: Options::default(),
            step: 0,
            limit,
        })
    }

    /// Returns the program.
    pub fn image(&self) -> &Image<'a>
        ensures { result.now ≡ self.now.image }
    {
        &self.image
    }

    /// Returns the greatest step that may be chosen or marked.
    pub fn limit(&self) -> u32
        ensures { result ≡ limit_of self.now }
    {
        self.limit
    }

    /// Returns the setup of its run.
    pub fn setup(&self) -> &Setup
        ensures { result.now ≡ self.now.setup }
    {
        &self.setup
    }

    /// Returns the input.
    pub fn input(&self) -> &[u8]
        ensures input { result.now ≡ self.now.setup.input }
        ensures short { length result.now ≤ longest_input }
    {
        self.setup.input.as_slice()
    }

    /// Returns the marks, in their order.
    pub fn marks(&self) -> &[Alteration]
        ensures { result.now ≡ self.now.marks }
    {
        &self.marks
    }

    /// Returns the suppressions, in their order.
    pub fn suppressions(&self) -> &[Suppression]
        ensures { result.now ≡ self.now.rules }
    {
        &self.suppressions
    }

    /// Returns the options of the report, whose `callers` are from 1 to 24.
    pub fn options(&self) -> &Options
        ensures options { result.now ≡ self.now.options }
        ensures some { 1 ≤ result.now.callers }
    {
        &self.options
    }

    /// Returns the chosen step.
    pub fn step(&self) -> u32
        ensures { result ≡ self.now.step }
    {
        self.step
    }

    /// Chooses a step.
    pub fn choose(&mut self, step: u32)
        ensures { self.new ≡ at_step self.old step }
    {
        self.step = step;
    }

    /// Returns the same scenario with borrowed parts.
    fn lent(&self) -> ScenarioRef<'_>
        ensures parts { lent result ≡ self.now }
        ensures some { 1 ≤ result.options.now.callers }
        ensures few { result.options.now.callers ≤ most_callers }
    {
        ScenarioRef {
            image: &self.image,
            words: &self.words,
            setup: &self.setup,
            marks: &self.marks,
            suppressions: &self.suppressions,
            options: &self.options,
            step: self.step,
            limit: self.limit,
        }
    }

    /// Replaces the input.
    pub fn give(&mut self, input: Vec<u8>)
        requires { length input.items ≤ longest_input }
        ensures { self.new ≡ with_input self.old input.items }
    {
        self.setup.input = Input::new(input);
    }

    /// Returns the machine before step 0.
    pub fn start(&self) -> Result<Machine, AllocError>
        ensures { IfOk result (λ machine. Shows machine (first_state self.now)) }
    {
        self.lent().start(self.alloc)
    }

    /// Appends the report at the chosen step, by one run from step zero, whose steps count on a meter.
    pub fn report(&self, meter: &mut Meter, out: &mut Vec<u8>) -> Result<(), AllocError>
        ensures ok { OnOk result (AppendsReport (IsReportOf self.now) out.old.items out.new.items) }
        ensures err { OnErr result (out.new.items ≡ out.old.items) }
    {
        self.lent().report(self.alloc, meter, out)
    }

    /// Appends the report of a machine that is at the chosen step of the run.
    pub fn render(&self, machine: &Machine, out: &mut Vec<u8>) -> Result<(), AllocError>
        ensures ok { OnOk result (Shows machine.now (chosen_state self.now) → AppendsReport (IsReportOf self.now) out.old.items out.new.items) }
        ensures err { OnErr result (out.new.items ≡ out.old.items) }
    {
        self.lent().render(self.alloc, machine, out)
    }

    /// Returns the outline of a machine, at whatever step of whatever run it is, with or without the number of bytes written. The
    /// scenario's files and options say how it is shown.
    pub fn outline(&self, machine: &Machine, with_output: bool) -> Result<Vec<u8>, AllocError>
        ensures { IfOk result (λ text. (s : State) → Shows machine.now s
            → IsOutline s self.now.image self.now.rules self.now.options with_output text.items) }
    {
        self.lent().outline(self.alloc, machine, with_output)
    }
}
