//! A scenario together with the trail of its run.
ghost use Rattle.std.specs.Prelude.{◌≡◌, ◌≤◌, [], IfOk};
ghost use Rattle.checkpoints.specs.Edits.{IsRightForRun};
ghost use Rattle.checkpoints.specs.Forks.{IsForkFor};
ghost use Rattle.checkpoints.specs.OneProof.{right-prop};
ghost use Rattle.checkpoints.specs.Trails.{LoadsAs, loaded_of};
ghost use Rattle.checkpoints.specs.Words.{IsCodeIn};
ghost use Rattle.checkpoints.specs.declared.effect.Effect.TheVariants.{After, Input};
ghost use Rattle.scenario.specs.Scenario.{IsOutlineOf, run_of, limit_of};

use checkpoints::{Fork, Trail, spacing_for};
use scenario::Scenario;
use std::alloc::{AllocError, Global};

/// A scenario, and machines of its run.
#[derive(Drop)]
pub(crate) struct HeldRun<'a> {
    pub(crate) scenario: Scenario<'a>,
    pub(crate) trail: Trail,
    ghost loads: { LoadsAs trail scenario.image },
    ghost right: { IsRightForRun trail (run_of scenario) } by { right-prop trail (run_of scenario) },
}

impl<'a> HeldRun<'a> {
    ghost use Rattle.sweeps.specs.Sites.{ForksEachCode};

    /// Returns the run of an unedited scenario, without a machine but the first.
    pub(crate) fn begin(alloc: Global, scenario: Scenario<'a>) -> Result<Self, AllocError>
        requires { scenario.words ≡ [] }
        ensures { IfOk result (λ run. run.scenario ≡ scenario.entry) }
    {
        let trail = Trail::begin_apart(alloc, scenario.image(), spacing_for(scenario.limit()))?;
        Ok(HeldRun { scenario, trail })
    }

    /// Returns the outline of the scenario.
    pub(crate) fn outline(&mut self, with_output: bool) -> Result<Vec<u8>, AllocError>
        ensures same { self.new.scenario ≡ self.old.scenario }
        ensures outline { IfOk result (λ text. IsOutlineOf with_output self.old.scenario text.items) }
    {
        let scenario = &self.scenario;
        let machine = self
            .trail
            .at_altered(scenario.step(), scenario.setup(), scenario.marks())?;
        scenario.outline(&machine, with_output)
    }

    /// Returns the machine from which each run continues that has another byte at an offset.
    pub(crate) fn fork_at_byte(&mut self, offset: u32) -> Result<Fork, AllocError>
        requires near { self.old.scenario.step ≤ limit_of self.old.scenario }
        ensures same { self.new.scenario ≡ self.old.scenario }
        ensures fork { IfOk result (λ fork. IsForkFor (Input offset) (run_of self.old.scenario) self.old.scenario.step fork) }
    {
        let scenario = &self.scenario;
        self.trail.fork_at_byte(offset, scenario.step(), scenario.setup(), scenario.marks())
    }

    /// Returns the machine from which each run continues that has another code at an address, of a number of bytes, 2 or 4.
    pub(crate) fn fork_at_code(&mut self, addr: u32, len: u32) -> Result<Fork, AllocError>
        requires near { self.old.scenario.step ≤ limit_of self.old.scenario }
        requires code { IsCodeIn (loaded_of self.old.trail) addr len }
        ensures same { self.new.scenario ≡ self.old.scenario }
        ensures fork { IfOk result (ForksEachCode self.old.scenario addr len) }
    {
        let scenario = &self.scenario;
        self.trail.fork_at_code(
            addr,
            len,
            scenario.step(),
            scenario.image().profile().isa,
            scenario.setup(),
            scenario.marks(),
        )
    }

    /// Returns the fork before a step.
    pub(crate) fn fork_at_step(&mut self, step: u32) -> Result<Fork, AllocError>
        requires near { self.old.scenario.step ≤ limit_of self.old.scenario }
        requires within { step ≤ self.old.scenario.step }
        ensures same { self.new.scenario ≡ self.old.scenario }
        ensures fork { IfOk result (λ fork. IsForkFor (After step) (run_of self.old.scenario) self.old.scenario.step fork) }
        ensures step { IfOk result (λ fork. fork.step ≡ step) }
    {
        let scenario = &self.scenario;
        self.trail
            .fork_at_step(step, scenario.step(), scenario.setup(), scenario.marks())
    }
}
