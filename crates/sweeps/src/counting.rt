//! What a sweep has met so far: the number of edits that lead to each outcome, the number of edits, and the number of steps that they need
//! by definition; and the outcomes that it recalls.
ghost use Rattle.std.specs.Prelude.{◌≡◌, ◌+◌, ◌++◌, OnOk};
ghost use Rattle.texts.specs.Tallied.{entries_of, with_text};
ghost use Rattle.sweeps.specs.Outcomes.{standing};
ghost use Rattle.sweeps.specs.Sweeps.{IsSameBut};
ghost use Rattle.sweeps.specs.Tables.{found_text, met_text, total_lines};

use crate::endings::is_long;
use crate::recall::Recall;
use crate::rows::{push_end, push_outcome, push_row, push_tallies};
use checkpoints::Fork;
use pruning::Course;
use replay_report::push_text;
use scenario::Scenario;
use std::alloc::{AllocError, Global};
use sweep_plans::Change;
use texts::{Found, Tallies};

/// The least number of edits for which the course of the unedited run pays.
const MANY: u64 = 16;

/// The outcomes, the number of edits, and the number of steps that the edits need by definition (`TakesSteps`). A sweep may execute fewer.
/// Both numbers stop at 2^64 - 1.
#[derive(Drop)]
pub(crate) struct Counts {
    pub(crate) tallies: Tallies,
    pub(crate) edits: u64,
    pub(crate) steps: u64,
    pub(crate) recall: Recall,
    /// The course of the unedited run: a run that is like it for long jumps over these steps.
    pub(crate) course: Option<Course>,
}

/// Appends an outcome, if it is new, and the row of the change that has it.
#[tactic(auto, unfolding(crate::specs::Tables::met_text), using(std::proofs::Common::append_assoc))]
fn push_met(
    out: &mut Vec<u8>,
    found: Found,
    change: Change,
    outcome: &[u8],
) -> Result<(), AllocError>
    ensures { OnOk result (out.new.items ≡ out.old.items ++ found_text found change outcome.now) }
{
    if !found.is_met {
        push_outcome(out, found.number as u64, outcome)?;
    }
    push_row(out, change, found.number as u64)
}

impl Counts {
    /// Counts a change with its outcome and the steps that it needs, and appends its row.
    #[tactic(auto, unfolding(crate::specs::Tables::met_text))]
    pub(crate) fn count(
        &mut self,
        change: Change,
        outcome: &[u8],
        steps: u32,
        out: &mut Vec<u8>,
    ) -> Result<(), AllocError>
        ensures entries { OnOk result (entries_of self.new.tallies ≡ with_text (entries_of self.old.tallies) outcome.now) }
        ensures edits { OnOk result (self.new.edits ≡ standing (self.old.edits + 1)) }
        ensures steps { OnOk result (self.new.steps ≡ standing (self.old.steps + steps)) }
        ensures recall { OnOk result (self.new.recall ≡ self.old.recall) }
        ensures text { OnOk result (out.new.items ≡ out.old.items ++ met_text (entries_of self.old.tallies) change outcome.now) }
    {
        let found = self.tallies.record(outcome)?;
        push_met(out, found, change, outcome)?;
        self.edits = self.edits.saturating_add(1);
        self.steps = self.steps.saturating_add(u64::from(steps));
        Ok(())
    }

    /// Returns whether the course of the unedited run is wanted from a step on, at which a number of edits are tried: if many are, much of
    /// the run is left, and there is no course or one from a later step on.
    fn wants_course(&self, scenario: &Scenario, step: u32, count: usize) -> bool {
        let begins_later = match &self.course {
            Some(course) => step < course.first(),
            None => true,
        };
        begins_later && is_long(scenario, step) && self.edits.saturating_add(count as u64) >= MANY
    }

    /// Has the course of the unedited run from a fork on, before which a number of edits are tried, if that pays.
    pub(crate) fn hold_course(
        &mut self,
        alloc: Global,
        scenario: &Scenario,
        before: &Fork,
        count: usize,
    ) -> Result<(), AllocError>
        ensures { OnOk result (IsSameBut self.old self.new) }
    {
        if self.wants_course(scenario, before.step, count) {
            let course = Course::along(
                alloc,
                &before.machine,
                scenario.setup(),
                before.step,
                scenario.step(),
            )?;
            self.course = Some(course);
        }
        Ok(())
    }

    /// Appends the end of a table, with some lines before its last one.
    #[tactic(auto, unfolding(crate::specs::Tables::total_lines), using(std::proofs::Common::append_assoc))]
    pub(crate) fn push_totals(
        &self,
        alloc: Global,
        lines: &[u8],
        out: &mut Vec<u8>,
    ) -> Result<(), AllocError>
        ensures { OnOk result (out.new.items ≡ out.old.items ++ total_lines (entries_of self.now.tallies) lines.now self.now.edits self.now.steps) }
    {
        let counts = self.tallies.counts(alloc)?;
        push_tallies(out, &counts)?;
        push_text(out, lines)?;
        push_end(out, self.edits, counts.len() as u64, self.steps)
    }
}
