//! Outcomes that are known without a run. A glitch of a register or a word of memory that a step keeps has the same outcome before the step
//! and after it. One of a register that the step overwrites has the outcome of the unedited run.
ghost use Rattle.std.specs.Prelude.{◌≡◌, ◌+◌, [], Bool, IfOk, IfSome, IsTrue, None, OnOk, length, true, ◌≤◌};
ghost use Rattle.guest_machine.specs.Exec.{is_running};
ghost use Rattle.scenario.specs.Scenario.{Scenario as ScenarioOf, limit_of};
ghost use Rattle.sweep_plans.specs.declared.change.Change.TheVariants.{Once};
ghost use Rattle.sweeps.specs.Outcomes.{IsOutcome};
ghost use Rattle.sweeps.specs.Standing.{state_before};

use crate::endings::{Ends, is_long};
use crate::lone_skips::LoneSkips;
use crate::settings::Settings;
use checkpoints::Fork;
use scenario::Scenario;
use std::alloc::{AllocError, Global};
use std::marker::Model;
use std::mem;
use std::rc::Rc;
use sweep_plans::Glitch;

/// The length of the longest outcome that is recalled, in bytes. A longer one comes from a run each time, so that what is recalled takes
/// little memory.
const LONGEST: usize = 4096;

/// The greatest number of steps whose skips are recalled, so that their table takes little memory.
const MOST_FORESEEN: u32 = 16384;

/// The least number of changes at a step for which machines of the unedited run are held.
const MANY: usize = 16;

/// The most outcomes that are recalled at a step.
const MOST: usize = 1 << 20;

/// An outcome that several changes share. Contracts see the text.
#[derive(Drop)]
pub(crate) struct SharedOutcome {
    text: Rc<Vec<u8>>,
}

impl Model for SharedOutcome {
    ghost use Rattle.std.specs.Prelude.{List, ℕ};

    ghost Value = { List ℕ };

    ghost view = { λ outcome. outcome.text.value.items };
}

impl SharedOutcome {
    pub(crate) fn new(alloc: Global, text: Vec<u8>) -> Result<SharedOutcome, AllocError>
        ensures { IfOk result (λ outcome. outcome ≡ text.items) }
    {
        let text = Rc::new(alloc, text)?;
        Ok(SharedOutcome { text })
    }

    pub(crate) fn text(&self) -> &[u8]
        ensures { result.now ≡ self.now }
    {
        self.text.as_slice()
    }

    fn is(&self, text: &[u8]) -> bool
        ensures { IsTrue result → self.now ≡ text.now }
    {
        self.text() == text
    }
}

impl Clone for SharedOutcome {
    ghost use Rattle.std.specs.Prelude.{◌≡◌};

    ghost is_clone = { λ outcome copy. copy ≡ outcome };

    fn clone(&self) -> Result<SharedOutcome, AllocError> {
        let text = self.text.clone()?;
        Ok(SharedOutcome { text })
    }
}

/// A glitch whose outcome is known.
#[derive(Drop)]
pub(crate) struct Known {
    pub(crate) glitch: Glitch,
    pub(crate) outcome: SharedOutcome,
}

/// What a sweep recalls of outcomes when it goes from one step to the next. Contracts say what is so of it by `Recalls`.
#[derive(Drop)]
pub(crate) struct Recall {
    /// The outcome of the unedited run.
    pub(crate) unedited: SharedOutcome,
    /// The step that was visited last.
    pub(crate) step: u32,
    /// Outcomes of glitches just before that step, in the order in which a sweep tries them.
    pub(crate) here: Vec<Known>,
    /// How many of these it has tried.
    passed: usize,
    /// Outcomes of glitches just before the next step, if the program still runs there.
    pub(crate) next: Vec<Known>,
    /// Outcomes of skips one step after the chosen one.
    pub(crate) lone: LoneSkips,
    /// Outcomes of runs that show a state of the unedited run again.
    pub(crate) ends: Option<Ends>,
}

/// Returns whether two glitches are the same.
fn is_same(one: Glitch, other: Glitch) -> bool
    ensures { IsTrue result → one ≡ other }
{
    one == other
}

impl Recall {
    ghost use Rattle.sweeps.specs.Recall.{Recalls};

    /// Returns what is recalled before the first place: the outcome of the unedited run.
    pub(crate) fn begin(alloc: Global, unedited: SharedOutcome) -> Recall
        ensures unedited { result.unedited ≡ unedited }
        ensures here { result.here.items ≡ [] }
        ensures next { result.next.items ≡ [] }
        ensures lone { result.lone.rows.items ≡ [] }
        ensures ends { result.ends ≡ None }
    {
        Recall {
            unedited,
            step: 0,
            here: Vec::new(alloc),
            passed: 0,
            next: Vec::new(alloc),
            lone: LoneSkips::begin(alloc, 0),
            ends: None,
        }
    }

    /// Has the table of skips have rows from a step on, before which a machine is, up to another step; unless it has them, or these would
    /// be too many.
    pub(crate) fn foresee(
        &mut self,
        settings: Settings,
        scenario: &Scenario,
        before: &Fork,
        end: u32,
    ) -> Result<(), AllocError>
        requires within { end ≤ scenario.now.step }
        requires near { scenario.now.step ≤ limit_of scenario.now }
        ensures { OnOk result (Recalls settings.with_output scenario.now self.old → Recalls settings.with_output scenario.now self.new) }
    {
        let step = before.step;
        if self.lone.reaches(step, end) {
            return Ok(());
        }
        if end.saturating_sub(step) > MOST_FORESEEN {
            return Ok(());
        }
        self.lone = LoneSkips::along(settings, scenario, &before.machine, step, end)?;
        Ok(())
    }

    /// Returns whether machines of the unedited run are to be held from a step on, at which a number of changes are tried: not if they are,
    /// if little of the run is left, or if the step seems to be the only one and has few changes.
    fn wants_ends(&self, scenario: &Scenario, step: u32, count: usize) -> bool {
        let is_held = match &self.ends {
            Some(ends) => ends.reaches(step),
            None => false,
        };
        let is_next = self.step.checked_add(1) == Some(step);
        !is_held && is_long(scenario, step) && (is_next || count >= MANY)
    }

    /// Holds machines of the unedited run from a fork on, before which a number of changes are tried, if that pays.
    pub(crate) fn hold_ends(
        &mut self,
        settings: Settings,
        scenario: &Scenario,
        before: &Fork,
        count: usize,
    ) -> Result<(), AllocError>
        requires { before.now.step ≤ scenario.now.step }
        ensures step { OnOk result (self.new.step ≡ self.old.step) }
        ensures so { OnOk result (Recalls settings.with_output scenario.now self.old → Recalls settings.with_output scenario.now self.new) }
    {
        if !self.wants_ends(scenario, before.step, count) {
            return Ok(());
        }
        let ends = Ends::along(settings, scenario, before)?;
        self.ends = Some(ends);
        Ok(())
    }

    /// Goes on to a step before which the program runs.
    pub(crate) fn arrive(&mut self, step: u32)
        ensures step { self.new.step ≡ step }
        ensures so { (with_output : Bool) (sc : ScenarioOf) → is_running (state_before sc step).core.status ≡ true
            → Recalls with_output sc self.old → Recalls with_output sc self.new }
    {
        if self.step.checked_add(1) != Some(step) {
            self.next.clear();
        }
        mem::swap(&mut self.here, &mut self.next);
        self.next.clear();
        self.step = step;
        self.passed = 0;
    }

    /// Returns the outcome of the next glitch just before the step, if it is known.
    pub(crate) fn known(&self, glitch: Glitch) -> Result<Option<SharedOutcome>, AllocError>
        ensures { IfOk result (λ found. IfSome found (λ outcome. (with_output : Bool) (sc : ScenarioOf) → Recalls with_output sc self.now
            → IsOutcome with_output sc (Once self.now.step glitch) outcome)) }
    {
        let Some(known) = self.here.get(self.passed) else {
            return Ok(None);
        };
        if !is_same(known.glitch, glitch) {
            return Ok(None);
        }
        Ok(Some(known.outcome.clone()?))
    }

    /// Goes on behind a glitch in the list of known outcomes, if it is the next one there.
    pub(crate) fn pass(&mut self, glitch: Glitch)
        ensures step { self.new.step ≡ self.old.step }
        ensures so { (with_output : Bool) (sc : ScenarioOf) → Recalls with_output sc self.old → Recalls with_output sc self.new }
    {
        let is_next = match self.here.get(self.passed) {
            Some(known) => is_same(known.glitch, glitch),
            None => false,
        };
        if is_next {
            self.passed = self.passed.saturating_add(1);
        }
    }

    /// Returns an outcome, which it shares with the unedited run or with the last glitch that is recalled if the text is the same.
    pub(crate) fn outcome(&self, alloc: Global, text: Vec<u8>) -> Result<SharedOutcome, AllocError>
        ensures { IfOk result (λ outcome. outcome ≡ text.items) }
    {
        if self.unedited.is(&text) {
            return self.unedited.clone();
        }
        if let Some(last) = self.next.last() {
            if last.outcome.is(&text) {
                return last.outcome.clone();
            }
        }
        SharedOutcome::new(alloc, text)
    }

    /// Recalls the outcome of a glitch just before the next step, unless it is long or there are too many.
    pub(crate) fn keep(&mut self, glitch: Glitch, outcome: SharedOutcome) -> Result<(), AllocError>
        ensures step { OnOk result (self.new.step ≡ self.old.step) }
        ensures so { OnOk result ((with_output : Bool) (sc : ScenarioOf)
            → (is_running (state_before sc (self.old.step + 1)).core.status ≡ true
            → IsOutcome with_output sc (Once (self.old.step + 1) glitch) outcome)
            → Recalls with_output sc self.old → Recalls with_output sc self.new) }
    {
        if outcome.text().len() <= LONGEST && self.next.len() < MOST {
            self.next.push(Known { glitch, outcome })?;
        }
        Ok(())
    }
}
