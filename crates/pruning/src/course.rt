//! Machines of a run, some steps apart, and which words the steps between them touch.
ghost use Rattle.std.specs.Prelude.{◌≡◌, ◌+◌, ◌++◌, ◌^◌, ◌<◌, ◌∷◌, [], ℕ, IfOk, IsTrue, OnOk};
ghost use Rattle.guest_machine.specs.Run.{pre};
ghost use Rattle.guest_machine.specs.Shows.{Shows};
ghost use Rattle.guest_machine.specs.State.{State};
ghost use Rattle.pruning.specs.Courses.{IsCourse, LeadsOn};
ghost use Rattle.pruning.specs.OneProof.{course-prop};
ghost use Rattle.pruning.specs.Touches.{TellsAll};

use crate::touches::{Touches, push_touched};
use guest_machine::{Machine, Meter, Setup, Status};
use std::alloc::{AllocError, Global};

/// The greatest number of machines that a course holds, but for one, so that they take little memory.
const MOST_HELD: u32 = 512;

/// The least number of steps from one machine to the next.
const LEAST_APART: u32 = 16;

/// The course of a run under a setup: its machines before some steps, equally far apart, and which words the steps between them touch.
#[derive(Drop)]
pub struct Course {
    pub(crate) setup: Setup,
    /// The step of the run before which the first machine is.
    pub(crate) first: u32,
    /// The number of steps from one machine to the next.
    pub(crate) apart: u32,
    pub(crate) machines: Vec<Machine>,
    pub(crate) touches: Touches,
    /// Whether the program's code is short, as far as the machines tell, so that what one run has decoded is soon compared for another.
    pub(crate) is_near: bool,
    ghost some: { 0 < apart },
    ghost right: { IsCourse touches.keys.items setup apart machines.items } by { course-prop touches.keys.items setup apart machines.items },
}

/// The greatest distance of the instructions of machines whose code is short.
const NEAR: u32 = 1 << 15;

/// Returns whether the next instructions of all machines lie near the first one's.
fn are_near(machines: &[Machine]) -> bool {
    let Some(first) = machines.first() else {
        return true;
    };
    let pc = first.pc();
    machines
        .iter()
        .all(|machine| machine.pc().abs_diff(pc) <= NEAR)
}

/// Returns whether a machine runs.
fn is_running(machine: &Machine) -> bool {
    matches!(machine.status(), Status::Running)
}

/// The number of steps after which a run is asked whether it still runs.
const STRETCH: u32 = 1024;

/// Returns how long a machine runs under a setup, to within some steps, and at most a number of steps.
fn length_of(start: &Machine, setup: &Setup, most: u32) -> Result<u32, AllocError> {
    let mut machine = start.share_warm()?;
    for done in 0..most / STRETCH {
        if !is_running(&machine) {
            return Ok(done * STRETCH);
        }
        machine = machine.run(setup, STRETCH, &mut Meter::new())?;
    }
    Ok(most)
}

/// Executes some steps, and appends which words they touch; these are numbered from one on. Returns the machine after them, and whether all
/// was told.
fn pass(
    machine: Machine,
    setup: &Setup,
    from: u32,
    steps: u32,
    keys: &mut Vec<u64>,
) -> Result<(Machine, bool), AllocError>
    requires { from + steps < 2 ^ 32 }
    ensures kept { OnOk result (TellsAll keys.old.items keys.new.items) }
    ensures leads { IfOk result (λ r. IsTrue r.1 → LeadsOn keys.new.items setup.now from steps machine r.0) }
{
    let mut machine = machine;
    let mut is_whole = true;
    for done in 0..steps {
        let (next, touched) = machine.step_on(setup)?;
        is_whole &= push_touched(keys, from + done, &touched)?;
        machine = next;
    }
    Ok((machine, is_whole))
}

/// Holds a machine behind others. Returns one that goes on from it.
fn hold(machine: Machine, machines: &mut Vec<Machine>) -> Result<Machine, AllocError>
    ensures held { OnOk result (machines.new.items ≡ machines.old.items ++ machine ∷ []) }
    ensures shows { IfOk result (λ next. (s : State) → Shows machine s → Shows next s) }
{
    let mut machine = machine;
    let next = machine.share_moving()?;
    machines.push(machine)?;
    Ok(next)
}

impl Course {
    /// Returns the course of the run of a machine under a setup, from one step of it up to a last one, or to where it halts.
    pub fn along(
        alloc: Global,
        start: &Machine,
        setup: &Setup,
        first: u32,
        last: u32,
    ) -> Result<Course, AllocError> {
        let setup = setup.copy(alloc)?;
        let steps = length_of(start, &setup, last.saturating_sub(first))?;
        let apart = (steps / MOST_HELD).max(LEAST_APART);
        let mut keys = Vec::new(alloc);
        let mut machines = Vec::new(alloc);
        let copy = start.share_warm()?;
        let mut machine = hold(copy, &mut machines)?;
        for place in 0..steps / apart {
            let (next, is_whole) = pass(machine, &setup, apart * place, apart, &mut keys)?;
            if !is_whole {
                return Ok(Course::of(setup, first, apart, machines, keys));
            }
            machine = hold(next, &mut machines)?;
            if !is_running(&machine) {
                return Ok(Course::of(setup, first, apart, machines, keys));
            }
        }
        Ok(Course::of(setup, first, apart, machines, keys))
    }

    /// Returns the first step that it has.
    pub fn first(&self) -> u32
        ensures { result ≡ self.now.first }
    {
        self.first
    }

    /// Returns the course of some machines and of what the steps between them touch.
    fn of(setup: Setup, first: u32, apart: u32, machines: Vec<Machine>, keys: Vec<u64>) -> Course
        requires some { 0 < apart }
        requires course { IsCourse keys.items setup apart machines.items }
    {
        Course {
            is_near: are_near(&machines),
            setup,
            first,
            apart,
            machines,
            touches: Touches::new(keys),
        }
    }
}
