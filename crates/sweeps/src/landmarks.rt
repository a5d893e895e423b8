//! Machines of the unedited run before each sixteenth step from one on. An edited run that shows a state of one of them again goes on as the
//! unedited run does.
ghost use Rattle.std.specs.Prelude.{◌≡◌, ◌+◌, ◌*◌, ◌<◌, ◌≤◌, ◌^◌, [], IfOk, IfSome, IsTrue, OnOk, length};
ghost use Rattle.guest_machine.specs.declared.setup.Setup.{Setup as SetupOf};

use crate::accesses::is_running;
use guest_machine::{Machine, Meter, Setup};
use std::alloc::{AllocError, Global};

/// The number of steps from one held machine to the next.
pub(crate) const SPACING: u32 = 16;

/// Machines of a run before each sixteenth step from a first one on, and the number of steps from the first to where the run has come.
#[derive(Drop)]
pub(crate) struct Landmarks {
    pub(crate) first: u32,
    pub(crate) steps: u32,
    pub(crate) machines: Vec<Machine>,
}

impl Landmarks {
    ghost use Rattle.sweeps.specs.Landmarks.{AreSpaced, Follows, HoldsAnother, Meets};

    /// Returns landmarks from a step on, of which none is held yet.
    pub(crate) fn begin(alloc: Global, first: u32) -> Landmarks
        ensures first { result.first ≡ first }
        ensures steps { result.steps ≡ 0 }
        ensures machines { result.machines.items ≡ [] }
    {
        Landmarks {
            first,
            steps: 0,
            machines: Vec::new(alloc),
        }
    }

    /// Holds the machine before the next step, if that is a sixteenth one. Returns the machine that continues its run.
    pub(crate) fn hold(&mut self, machine: Machine) -> Result<Machine, AllocError>
        ensures first { OnOk result (self.new.first ≡ self.old.first) }
        ensures steps { OnOk result (self.new.steps ≡ self.old.steps) }
        ensures another { OnOk result (HoldsAnother self.old self.new) }
        ensures follows { IfOk result (λ next. (setup : SetupOf) → Follows setup self.old machine → Follows setup self.new next) }
        ensures spaced { OnOk result (AreSpaced self.old → AreSpaced self.new) }
    {
        let place = (self.steps / SPACING) as usize;
        if place != self.machines.len() || self.steps % SPACING != 0 {
            return Ok(machine);
        }
        let mut machine = machine;
        let next = machine.share_moving()?;
        self.machines.push(machine)?;
        Ok(next)
    }

    /// Executes a number of steps of the run, from its machine where it has come. Returns the machine after them.
    pub(crate) fn run(
        &mut self,
        machine: Machine,
        setup: &Setup,
        steps: u32,
    ) -> Result<Machine, AllocError>
        requires { self.old.steps + steps < 2 ^ 32 }
        ensures first { OnOk result (self.new.first ≡ self.old.first) }
        ensures steps { OnOk result (self.new.steps ≡ self.old.steps + steps) }
        ensures machines { OnOk result (self.new.machines ≡ self.old.machines) }
        ensures follows { IfOk result (λ next. AreSpaced self.old → Follows setup.now self.old machine → Follows setup.now self.new next) }
        ensures spaced { OnOk result (AreSpaced self.old → AreSpaced self.new) }
    {
        let next = machine.run(setup, steps, &mut Meter::new())?;
        self.steps += steps;
        Ok(next)
    }

    /// Executes a number of times sixteen steps of the run, and holds the machine before each sixteenth one, as long as it runs. Returns the
    /// machine after them.
    pub(crate) fn run_held(
        &mut self,
        machine: Machine,
        setup: &Setup,
        count: u32,
    ) -> Result<Machine, AllocError>
        requires room { self.old.steps + 16 * count < 2 ^ 32 }
        requires spaced { AreSpaced self.old }
        requires follows { Follows setup.now self.old machine }
        ensures first { OnOk result (self.new.first ≡ self.old.first) }
        ensures steps { OnOk result (self.new.steps ≤ self.old.steps + 16 * count) }
        ensures spaced { OnOk result (AreSpaced self.new) }
        ensures follows { IfOk result (Follows setup.now self.new) }
    {
        let mut machine = machine;
        for _turn in 0..count {
            if !is_running(&machine) {
                return Ok(machine);
            }
            let held = self.hold(machine)?;
            machine = self.run(held, setup, SPACING)?;
        }
        Ok(machine)
    }

    /// Returns the place of the machine that is held a number of steps after a step, if there is one.
    fn place_of(&self, step: u32, lead: u32) -> Option<usize>
        ensures place { IfSome result (λ place. self.now.first + 16 * place ≡ step + lead) }
        ensures within { IfSome result (λ place. place < length self.now.machines.items) }
    {
        let steps = step.checked_add(lead)?.checked_sub(self.first)?;
        let place = (steps / SPACING) as usize;
        if steps % SPACING == 0 && place < self.machines.len() {
            Some(place)
        } else {
            None
        }
    }

    /// Returns whether each state that a machine before a step shows is one that a held machine shows, a number of steps later.
    pub(crate) fn meets(&self, machine: &Machine, step: u32, lead: u32) -> bool
        ensures { IsTrue result → Meets self.now machine.now (step + lead) }
    {
        match self.place_of(step, lead) {
            Some(place) => machine.is_same(&self.machines[place]),
            None => false,
        }
    }

    /// Returns the step before which a run is to be compared with a held machine a number of steps later: by a number of held machines
    /// later than this step, and at most a last step.
    pub(crate) fn next_step(&self, step: u32, lead: u32, count: u32, last: u32) -> u32
        requires { step ≤ last }
        ensures later { step ≤ result }
        ensures within { result ≤ last }
    {
        let steps = step.saturating_add(lead).saturating_sub(self.first);
        let place = (steps / SPACING).saturating_add(count);
        let there = place.saturating_mul(SPACING).saturating_add(self.first);
        let next = there.saturating_sub(lead);
        if step <= next && next <= last {
            next
        } else {
            last
        }
    }
}
