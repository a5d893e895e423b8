//! A sweep, and one place of it.
ghost use Rattle.std.specs.Prelude.{◌≡◌, ◌≤◌, []};
ghost use Rattle.checkpoints.specs.OneProof.{shows-prop};
ghost use Rattle.guest_machine.specs.Shows.{Shows};
ghost use Rattle.scenario.specs.Limits.{furthest_step};
ghost use Rattle.scenario.specs.Scenario.{first_state, limit_of};
ghost use Rattle.sweeps.specs.LastForks.{last-fork-prop};
ghost use Rattle.sweeps.specs.Sites.{IsLastFork};

use crate::beginning::{count_unedited, scenario_at};
use crate::counting::Counts;
use crate::entering::{Coverage, try_site, unedited_table};
use crate::held_run::HeldRun;
use crate::settings::Settings;
use crate::sites::{Origin, find, keep_last_fork};
use checkpoints::{Fork, Sides};
use guest_elf::Image;
use guest_machine::{Machine, Span};
use scenario::Scenario;
use std::alloc::{AllocError, Global};
use suppressions::Suppression;
use sweep_plans::Plan;

/// What a sweep is asked for besides its places: the step at which outcomes are, whether they have the number of bytes written, and the range
/// of addresses of which a table says what the runs have executed.
#[derive(Clone, Copy)]
pub struct Asked {
    pub step: u32,
    pub with_output: bool,
    pub range: Span,
}

/// A run whose changes are tried individually, one after another; their outcomes so far; the number of edits; and the number of steps that
/// they need by definition.
#[derive(Drop)]
pub struct Sweep<'a> {
    alloc: Global,
    run: HeldRun<'a>,
    ghost near: { run.scenario.step ≤ limit_of run.scenario },
    ghost unmarked: { run.scenario.marks ≡ [] },
    last_fork: Option<Fork>,
    ghost continued: { IsLastFork run.scenario last_fork } by { last-fork-prop run.scenario last_fork },
    start: Machine,
    ghost starts: { Shows start (first_state run.scenario) } by { shows-prop start (first_state run.scenario) },
    input: Vec<u8>,
    ghost copied: { input.items ≡ run.scenario.setup.input },
    with_output: bool,
    counts: Counts,
    coverage: Coverage,
}

impl<'a> Sweep<'a> {
    ghost use Rattle.std.specs.Prelude.{◌≡◌, ◌≤◌, ◌++◌, [], ℕ, List, IfOk, OnOk, length, map};
    ghost use Rattle.scenario.specs.Limits.{furthest_step, longest_input};
    ghost use Rattle.sweep_plans.specs.declared.change.Change.{Change};
    ghost use Rattle.sweeps.specs.Covered.{FitsPlan, HasCovered, apart_in, range_of, table_of};
    ghost use Rattle.sweeps.specs.Outcomes.{Met};
    ghost use Rattle.sweeps.specs.Standing.{changes_at};
    ghost use Rattle.sweeps.specs.Sweeps.{HasMet, MeetsMore, scenario_of, tells_output, unedited_at};
    ghost use Rattle.sweeps.specs.Tables.{rows_text, table_text};

    /// Returns a sweep of a program with an input and suppressions at a step, which has a table of a range of addresses. Executes the
    /// unedited run, and appends its outcome.
    #[tactic(auto, unfolding(crate::specs::Sweeps::scenario_of, crate::specs::Sweeps::tells_output, crate::specs::Covered::range_of, crate::specs::Covered::table_of))]
    pub fn begin(
        alloc: Global,
        image: Image<'a>,
        input: Vec<u8>,
        suppressions: Vec<Suppression>,
        asked: Asked,
        out: &mut Vec<u8>,
    ) -> Result<Self, AllocError>
        requires short { length input.items ≤ longest_input }
        requires near { asked.step ≤ furthest_step }
        ensures scenario { IfOk result (λ sweep. scenario_of sweep ≡ unedited_at image.entry input.items suppressions.items asked.step) }
        ensures output { IfOk result (λ sweep. tells_output sweep ≡ asked.with_output) }
        ensures met { IfOk result (λ sweep. (first : List ℕ) × HasMet sweep first [] × (out.new.items ≡ out.old.items ++ rows_text first [])) }
        ensures range { IfOk result (λ sweep. range_of sweep ≡ asked.range) }
        ensures covered { IfOk result (λ sweep. HasCovered sweep []) }
    {
        let copy = input.as_slice().to_vec(alloc)?;
        let scenario = scenario_at(alloc, image, input, suppressions, asked.step)?;
        Sweep::over(alloc, scenario, copy, asked.with_output, asked.range, out)
    }

    /// Returns a sweep of an unedited scenario, with a copy of its input. Executes its run, and appends the outcome.
    #[tactic(auto, unfolding(crate::specs::Sweeps::scenario_of, crate::specs::Sweeps::tells_output, crate::specs::Covered::range_of, crate::specs::Covered::table_of))]
    fn over(
        alloc: Global,
        scenario: Scenario<'a>,
        input: Vec<u8>,
        with_output: bool,
        range: Span,
        out: &mut Vec<u8>,
    ) -> Result<Self, AllocError>
        requires near { scenario.step ≤ limit_of scenario }
        requires unedited { scenario.words ≡ [] }
        requires unmarked { scenario.marks ≡ [] }
        requires copied { input.items ≡ scenario.setup.input }
        ensures scenario { IfOk result (λ sweep. scenario_of sweep ≡ scenario.entry) }
        ensures output { IfOk result (λ sweep. tells_output sweep ≡ with_output) }
        ensures met { IfOk result (λ sweep. (first : List ℕ) × HasMet sweep first [] × (out.new.items ≡ out.old.items ++ rows_text first [])) }
        ensures range { IfOk result (λ sweep. range_of sweep ≡ range) }
        ensures covered { IfOk result (λ sweep. HasCovered sweep []) }
    {
        let start = Machine::start(alloc, scenario.image())?;
        let mut run = HeldRun::begin(alloc, scenario)?;
        let counts = count_unedited(alloc, &mut run, with_output, out)?;
        let table = unedited_table(alloc, &run, range)?;
        Ok(Sweep {
            alloc,
            run,
            last_fork: None,
            start,
            input,
            with_output,
            counts,
            coverage: Coverage { range, table },
        })
    }

    /// Applies each change of a place, one at a time, and appends its row, after its outcome if that is new. Enters in the table what the runs
    /// execute, if all places of the plan are bytes.
    #[tactic(auto, unfolding(crate::specs::Sweeps::scenario_of, crate::specs::Sweeps::tells_output, crate::specs::Covered::range_of, crate::specs::Covered::table_of))]
    pub fn visit(&mut self, plan: &Plan, place: u64, out: &mut Vec<u8>) -> Result<(), AllocError>
        ensures scenario { scenario_of self.new ≡ scenario_of self.old }
        ensures output { tells_output self.new ≡ tells_output self.old }
        ensures met { OnOk result (MeetsMore self.old self.new (changes_at (scenario_of self.old) plan.now place) out.old.items out.new.items) }
        ensures range { range_of self.new ≡ range_of self.old }
        ensures covered { OnOk result ((done : List Change) → FitsPlan plan.now (range_of self.old) → HasCovered self.old done
            → HasCovered self.new (done ++ changes_at (scenario_of self.old) plan.now place)) }
    {
        let origin = Origin {
            input: &self.input,
            start: &self.start,
        };
        let place = plan.place(place);
        let found = find(&mut self.run, &mut self.last_fork, &origin, plan, place)?;
        let Some(site) = found else {
            return Ok(());
        };
        let settings = Settings {
            alloc: self.alloc,
            with_output: self.with_output,
        };
        try_site(
            settings,
            &mut self.run,
            &mut self.counts,
            plan,
            &site,
            &mut self.coverage,
            out,
        )?;
        let run = &self.run;
        keep_last_fork(&run.scenario, &mut self.last_fork, site);
        Ok(())
    }

    /// Returns the range of addresses of which the table says what the runs have executed.
    #[tactic(auto, unfolding(crate::specs::Covered::range_of))]
    pub fn range(&self) -> Span
        ensures { result ≡ range_of self.now }
    {
        self.coverage.range
    }

    /// Returns that table.
    #[tactic(auto, unfolding(crate::specs::Covered::table_of))]
    pub fn table(&self) -> &[Sides]
        ensures { result.now ≡ table_of self.now }
    {
        &self.coverage.table
    }

    /// Returns how far the places of the table are apart.
    #[tactic(auto, unfolding(crate::specs::Sweeps::scenario_of))]
    pub fn apart(&self) -> u32
        ensures places { result ≡ apart_in (scenario_of self.now) }
        ensures few { result ≤ 4 }
    {
        self.start.isa().unit()
    }

    /// Appends the number of edits that lead to each outcome, then some lines, and then the number of edits, of outcomes and of steps. The
    /// steps are those that the edits need by definition (`TakesSteps`); a sweep may execute fewer.
    #[tactic(auto, unfolding(crate::specs::Tables::table_text, crate::specs::Sweeps::HasMet))]
    pub fn finish(&self, lines: &[u8], out: &mut Vec<u8>) -> Result<(), AllocError>
        ensures { OnOk result ((first : List ℕ) (met : List Met) → HasMet self.now first met
            → (text : List ℕ) × (out.new.items ≡ out.old.items ++ text) × (table_text first met lines.now ≡ rows_text first met ++ text)) }
    {
        self.counts.push_totals(self.alloc, lines, out)
    }
}
