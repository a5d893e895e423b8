//! What the steps of a run do that a strip of it shows.
ghost use Rattle.std.specs.Prelude.{◌≡◌, ◌+◌, ◌++◌, ◌≤◌, length, min, take, option_map, option_to_list, IfOk, OnOk, OnErr};
ghost use Rattle.guest_machine.specs.State.{State};
ghost use Rattle.guest_machine.specs.Exec.{exec};
ghost use Rattle.guest_machine.specs.Run.{pre};
ghost use Rattle.guest_machine.specs.Shows.{Shows};
ghost use Rattle.checkpoints.specs.Happenings.{counts_of, entered, happened_at, happened_between, what_happens};
ghost use Rattle.checkpoints.specs.Trails.{meter_of, is_short, loaded_of, last_held, IsRightFor, spacing_of};
ghost use Rattle.checkpoints.specs.Work.{floor, reached, steps_made};

use crate::running::{is_running, next_step, pass_marks, run_on};
use crate::trail::Trail;
use guest_machine::laws::stays_halted;
use guest_machine::{Alteration, Machine, Meter, Setup};
use std::alloc::{AllocError, Global};

/// What a step does that a strip of the run shows. A depth is the number of frames of the calls that the machine is in after the step.
#[derive(Clone, Copy)]
pub enum Happening {
    /// It calls a function: the next address, and the depth.
    Call {
        /// The next address.
        to: u32,
        /// The depth.
        depth: usize,
    },
    /// It returns from one function or from several.
    Return {
        /// The next address.
        to: u32,
        /// The depth.
        depth: usize,
    },
    /// It is a heap call.
    Heap {
        /// The depth.
        depth: usize,
    },
    /// It reads input.
    Input {
        /// The number of bytes.
        count: u64,
    },
    /// It writes output.
    Output {
        /// The number of bytes.
        count: u64,
    },
}

/// What happens in a step of a run.
#[derive(Clone, Copy)]
pub struct Happened {
    /// The step.
    pub step: u32,
    /// What it does.
    pub what: Happening,
}

/// What is counted of a machine.
#[derive(Clone, Copy)]
struct Counts {
    /// The number of its heap calls.
    heap_calls: u64,
    /// The number of frames of the calls that it is in.
    depth: usize,
    /// The number of bytes that it has read.
    position: u64,
    /// The number of bytes that it has written.
    output: u64,
}

impl Trail {
    /// Returns the first `most` of what happens in the steps of the run from one on and below another. The trail is left as
    /// [`Trail::at`] the second one leaves it. The steps are executed again from a held machine on, and count on no meter.
    pub fn happened(
        &mut self,
        alloc: Global,
        from: u32,
        before: u32,
        most: usize,
        setup: &Setup,
        marks: &[Alteration],
    ) -> Result<Vec<Happened>, AllocError>
        ensures found { IfOk result (λ found. (start : State) → IsRightFor self.old start setup.now marks.now
            → found.items ≡ take most (happened_between start setup.now marks.now from before)) }
        ensures right { (start : State) → IsRightFor self.old start setup.now marks.now → IsRightFor self.new start setup.now marks.now }
        ensures held { OnOk result (last_held self.new ≡ reached (spacing_of self.old) (last_held self.old) before) }
        ensures kept { OnErr result (last_held self.old ≤ last_held self.new) }
        ensures meter { OnOk result (meter_of self.new ≡ min (meter_of self.old + steps_made (spacing_of self.old) (last_held self.old) before) u64.MAX) }
        ensures short { is_short self.new ≡ is_short self.old }
        ensures loaded { loaded_of self.new ≡ loaded_of self.old }
        ensures spacing { spacing_of self.new ≡ spacing_of self.old }
    {
        let _machine = self.before(before, setup, marks)?;
        let found = self.happened_below(alloc, from, before, most, setup, marks)?;
        Ok(found)
    }

    /// The same, if a machine is held before the last of the steps.
    #[tactic(auto, unfolding(crate::specs::Trails::machines_of, crate::specs::Trails::last_held, crate::specs::Trails::spacing_of))]
    fn happened_below(
        &self,
        alloc: Global,
        from: u32,
        before: u32,
        most: usize,
        setup: &Setup,
        marks: &[Alteration],
    ) -> Result<Vec<Happened>, AllocError>
        requires { floor (spacing_of self.now) before ≤ last_held self.now }
        ensures { IfOk result (λ found. (start : State) → IsRightFor self.now start setup.now marks.now
            → found.items ≡ take most (happened_between start setup.now marks.now from before)) }
    {
        if from >= before {
            return Ok(Vec::new(alloc));
        }
        let place = from / self.spacing;
        let copy = self.warm_copy(place as usize)?;
        let machine = run_on(
            copy,
            setup,
            marks,
            place * self.spacing,
            from,
            &mut Meter::new(),
        )?;
        happened_from(alloc, machine, setup, marks, from, before, most)
    }
}

/// The first `most` of what happens in the steps of a run from one on and below another, by the machine before the first step.
fn happened_from(
    alloc: Global,
    machine: Machine,
    setup: &Setup,
    marks: &[Alteration],
    from: u32,
    to: u32,
    most: usize,
) -> Result<Vec<Happened>, AllocError>
    ensures { IfOk result (λ found. (start : State) → Shows machine (pre start setup.now marks.now from)
        → found.items ≡ take most (happened_between start setup.now marks.now from to)) }
{
    stays_halted();
    let mut found = Vec::new(alloc);
    if most == 0 {
        return Ok(found);
    }
    let mut machine = machine;
    let mut next = next_step(marks, from);
    for k in from..to {
        if !is_running(&machine) {
            return Ok(found);
        }
        let marked = pass_marks(machine, marks, k, &mut next)?;
        machine = step_noting(marked, setup, k, &mut found)?;
        if found.len() == most {
            return Ok(found);
        }
    }
    Ok(found)
}

/// Executes one step, and appends what happens in it, if anything does.
#[inline(always)]
fn step_noting(
    machine: Machine,
    setup: &Setup,
    step: u32,
    found: &mut Vec<Happened>,
) -> Result<Machine, AllocError>
    ensures shows { IfOk result (λ r. (s : State) → Shows machine s → Shows r (exec s setup.now)) }
    ensures few { OnOk result (length found.new.items ≤ length found.old.items + 1) }
    ensures found { OnOk result ((s : State) → Shows machine s → found.new.items ≡ found.old.items ++ option_to_list (happened_at step s setup.now)) }
{
    let old = counts_of(&machine);
    let (stepped, _touched) = machine.step_on(setup)?;
    let what = what_happens(setup, stepped.pc(), old, counts_of(&stepped));
    push_if(found, step, what)?;
    Ok(stepped)
}

/// What is counted of a machine.
#[inline(always)]
fn counts_of(machine: &Machine) -> Counts
    ensures { (s : State) → Shows machine.now s → result ≡ counts_of s }
{
    Counts {
        heap_calls: machine.heap_calls(),
        depth: machine.frames().depth(),
        position: machine.position(),
        output: machine.output_len(),
    }
}

/// What happens in a step that leaves pc at an address, by what is counted before and after it.
#[inline(always)]
#[tactic(auto, unfolding(crate::specs::Happenings::what_happens))]
fn what_happens(setup: &Setup, pc: u32, old: Counts, new: Counts) -> Option<Happening>
    ensures { result ≡ what_happens setup.now pc old new }
{
    if old.heap_calls < new.heap_calls {
        Some(Happening::Heap { depth: new.depth })
    } else if old.depth < new.depth {
        entered(setup, pc, new.depth)
    } else if new.depth < old.depth {
        Some(Happening::Return {
            to: pc,
            depth: new.depth,
        })
    } else if old.position < new.position {
        Some(Happening::Input {
            count: new.position - old.position,
        })
    } else if old.output < new.output {
        Some(Happening::Output {
            count: new.output - old.output,
        })
    } else {
        None
    }
}

/// A call, unless it is that of a function of the heap that is called by name.
fn entered(setup: &Setup, pc: u32, depth: usize) -> Option<Happening>
    ensures { result ≡ entered setup.now pc depth }
{
    if setup.hooks.at(pc).is_some() {
        None
    } else {
        Some(Happening::Call { to: pc, depth })
    }
}

/// Appends what happens in a step, if anything does.
fn push_if(found: &mut Vec<Happened>, step: u32, what: Option<Happening>) -> Result<(), AllocError>
    ensures { OnOk result (found.new.items ≡ found.old.items ++ option_to_list (option_map (λ what. record { step = step; what = what }) what)) }
{
    if let Some(what) = what {
        found.push(Happened { step, what })?;
    }
    Ok(())
}
