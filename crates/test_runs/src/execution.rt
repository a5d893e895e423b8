//! An execution, and how it is run.
ghost use Rattle.std.specs.Prelude.{◌≡◌, ◌+◌, ◌≤◌, ◌<◌, ◌||◌, if◌then◌else◌};
ghost use Rattle.unknown_calls.specs.UnknownCalls.{Within};

use crate::fault::ExecutionFault;
use crate::speaking::speak;
use crate::stepping::step_of_machine;
use crate::streams::Streams;
use guest_machine::laws::{only_calls_speak, stays_at_rest};
use guest_machine::{Machine, Register};
use scenario::Scenario;
use std::alloc::{AllocError, Global};
use std::io::Write;
use unknown_calls::{UnknownCall, count_unknown};

/// The most steps between two looks at whether the machine rests in a jump to itself.
const AT_ONCE: u32 = 65_536;

/// The register in which a `write` has its descriptor: a0.
const DESCRIPTOR: u8 = 10;

/// A run of a scenario, at a step.
#[derive(Drop)]
pub struct Execution {
    machine: Machine,
    at: u32,
    /// How many `write`s found no room.
    refused: u32,
    /// Whether the last line that it wrote to standard error is open.
    is_open: bool,
    /// The calls that aren't known.
    unknown: Vec<UnknownCall>,
    /// Whether one of its calls would do something else by the usual limits.
    needs_limits: bool,
    ghost few: { refused ≤ at },
    ghost counts: { Within at unknown.items },
}

/// One more of a count, where a test holds.
fn counted(count: u32, more: bool) -> u32
    requires { count < u32.MAX }
    ensures { result ≡ count + (if more then 1 else 0) }
{
    if more { count + 1 } else { count }
}

/// Whether one of two tests holds.
fn either(one: bool, other: bool) -> bool
    ensures { result ≡ (one || other) }
{
    one || other
}

impl Execution {
    ghost use Rattle.std.specs.Prelude.{◌≡◌, ◌+◌, ◌≤◌, ◌<◌, IfErr, IfOk, IsTrue, false};
    ghost use Rattle.guest_machine.specs.Streams.{Rests};
    ghost use Rattle.test_runs.specs.Executions.{held, limited_of, state_at, step_of, machine_of, open_of, refused_of, unknown_of, GoesOn, GoesOnSilently, IsAt, LeavesEnd, StopsAt, Wrote, WroteFront};

    /// Returns the execution of a scenario at step 0.
    pub fn begin(alloc: Global, scenario: &Scenario) -> Result<Self, AllocError>
        ensures at { IfOk result (λ e. IsAt e scenario.now) }
        ensures first { IfOk result (λ e. step_of e ≡ 0) }
    {
        Ok(Execution {
            machine: scenario.start()?,
            at: 0,
            refused: 0,
            is_open: false,
            unknown: Vec::new(alloc),
            needs_limits: false,
        })
    }

    /// Returns the step that it is at.
    pub fn at(&self) -> u32
        ensures { result ≡ step_of self.now }
    {
        self.at
    }

    /// Returns the machine before that step.
    pub fn machine(&self) -> &Machine
        ensures { result.now ≡ machine_of self.now }
    {
        &self.machine
    }

    /// Returns the number of `write`s that found no room so far.
    pub fn refused(&self) -> u32
        ensures { result ≡ refused_of self.now }
    {
        self.refused
    }

    /// Returns whether the last line that it wrote to standard error is open: whether its last byte is another one than a newline.
    pub fn is_open(&self) -> bool
        ensures { result ≡ open_of self.now }
    {
        self.is_open
    }

    /// Returns the calls that weren't known so far, of which the first ten numbers are kept.
    pub fn into_unknown(self) -> Vec<UnknownCall>
        ensures { result.items ≡ unknown_of self }
    {
        self.unknown
    }

    /// Returns whether a call so far would have done something else by the usual limits.
    pub fn needs_limits(&self) -> bool
        ensures { result ≡ limited_of self.now }
    {
        self.needs_limits
    }

    /// Makes the steps before the next that may be an ECALL, or some of them, and none from the chosen step on.
    fn run_quietly(self, scenario: &Scenario) -> Result<Self, AllocError>
        requires at { IsAt self scenario.now }
        requires within { step_of self ≤ scenario.now.step }
        ensures { IfOk result (GoesOnSilently scenario.now self) }
    {
        only_calls_speak();
        let Execution {
            machine,
            at,
            refused,
            is_open,
            unknown,
            needs_limits,
        } = self;
        let steps = (scenario.step() - at).min(AT_ONCE);
        let (machine, made) = machine.run_quietly(scenario.setup(), steps)?;
        Ok(Execution {
            machine,
            at: at + made,
            refused,
            is_open,
            unknown,
            needs_limits,
        })
    }

    /// Goes to the chosen step, where the machine rests.
    fn rest(self, scenario: &Scenario) -> Self
        requires at { IsAt self scenario.now }
        requires within { step_of self ≤ scenario.now.step }
        requires rests { Rests (state_at scenario.now (step_of self)) scenario.now.setup }
        ensures on { GoesOnSilently scenario.now self result }
        ensures last { step_of result ≡ scenario.now.step }
    {
        only_calls_speak();
        stays_at_rest();
        let Execution {
            machine,
            at,
            refused,
            is_open,
            unknown,
            needs_limits,
        } = self;
        let last = scenario.step();
        Execution {
            machine: machine.rest_for(last - at),
            at: last,
            refused,
            is_open,
            unknown,
            needs_limits,
        }
    }

    /// Makes one step, and writes what it writes to the stream of its descriptor.
    fn step<O: Write, E: Write>(
        self,
        alloc: Global,
        scenario: &Scenario,
        streams: &mut Streams<O, E>,
    ) -> Result<Self, ExecutionFault>
        requires at { IsAt self scenario.now }
        requires before { step_of self < scenario.now.step }
        ensures on { IfOk result (λ e. IsAt e scenario.now) }
        ensures next { IfOk result (λ e. step_of e ≡ step_of self + 1) }
        ensures ok { IfOk result (λ e. Wrote scenario.now (step_of self) (step_of e)
            (held (O.contents streams.old.out) (E.contents streams.old.err))
            (held (O.contents streams.new.out) (E.contents streams.new.err))) }
        ensures err { IfErr result (λ fault. WroteFront scenario.now (step_of self)
            (held (O.contents streams.old.out) (E.contents streams.old.err))
            (held (O.contents streams.new.out) (E.contents streams.new.err))) }
    {
        let Execution {
            machine,
            at,
            refused,
            is_open,
            unknown,
            needs_limits,
        } = self;
        let _last = scenario.step();
        let mut unknown = unknown;
        count_unknown(&mut unknown, machine.unknown_call(scenario.setup()))?;
        let refused = counted(refused, machine.refuses_write(scenario.setup()));
        let needs_limits = either(needs_limits, machine.needs_limits(scenario.setup()));
        let descriptor = machine.register(Register::new(DESCRIPTOR)).value;
        let (machine, range) = step_of_machine(machine, scenario)?;
        let is_open = speak(alloc, machine.memory(), range, descriptor, is_open, streams)?;
        Ok(Execution {
            machine,
            at: at + 1,
            refused,
            is_open,
            unknown,
            needs_limits,
        })
    }

    /// Makes steps up to and with the next that may be an ECALL. Returns whether it goes on: it doesn't before a step that asks for more input
    /// than there is, if it may wait for that.
    fn run_stretch<O: Write, E: Write>(
        self,
        alloc: Global,
        scenario: &Scenario,
        waits: bool,
        streams: &mut Streams<O, E>,
    ) -> Result<(Self, bool), ExecutionFault>
        requires at { IsAt self scenario.now }
        requires before { step_of self < scenario.now.step }
        ensures on { IfOk result (λ r. GoesOn scenario.now self r.0) }
        ensures next { IfOk result (λ r. IsTrue r.1 → step_of self < step_of r.0) }
        ensures stops { IfOk result (λ r. r.1 ≡ false → StopsAt scenario.now waits (step_of r.0)) }
        ensures unseen { IfOk result (λ r. LeavesEnd scenario.now waits (step_of self) (step_of r.0)) }
        ensures ok { IfOk result (λ r. Wrote scenario.now (step_of self) (step_of r.0)
            (held (O.contents streams.old.out) (E.contents streams.old.err))
            (held (O.contents streams.new.out) (E.contents streams.new.err))) }
        ensures err { IfErr result (λ fault. WroteFront scenario.now (step_of self)
            (held (O.contents streams.old.out) (E.contents streams.old.err))
            (held (O.contents streams.new.out) (E.contents streams.new.err))) }
    {
        let quiet = self.run_quietly(scenario)?;
        if quiet.at == scenario.step() {
            return Ok((quiet, true));
        }
        if quiet.machine.rests(scenario.setup()) {
            return Ok((quiet.rest(scenario), true));
        }
        if waits && quiet.machine.sees_end(scenario.setup()) {
            return Ok((quiet, false));
        }
        let next = quiet.step(alloc, scenario, streams)?;
        Ok((next, true))
    }

    /// Runs to the chosen step, and writes what the program writes, each piece in its step to the stream of its descriptor. One that `waits`
    /// stops before the first step that asks for more input than there is. After a fault all that was written before some step was given
    /// to its stream, and a front of what that step writes.
    pub fn run<O: Write, E: Write>(
        self,
        alloc: Global,
        scenario: &Scenario,
        waits: bool,
        streams: &mut Streams<O, E>,
    ) -> Result<Self, ExecutionFault>
        requires at { IsAt self scenario.now }
        requires within { step_of self ≤ scenario.now.step }
        ensures on { IfOk result (λ e. IsAt e scenario.now) }
        ensures stops { IfOk result (λ e. StopsAt scenario.now waits (step_of e)) }
        ensures unseen { IfOk result (λ e. LeavesEnd scenario.now waits (step_of self) (step_of e)) }
        ensures ok { IfOk result (λ e. Wrote scenario.now (step_of self) (step_of e)
            (held (O.contents streams.old.out) (E.contents streams.old.err))
            (held (O.contents streams.new.out) (E.contents streams.new.err))) }
        ensures err { IfErr result (λ fault. WroteFront scenario.now (step_of self)
            (held (O.contents streams.old.out) (E.contents streams.old.err))
            (held (O.contents streams.new.out) (E.contents streams.new.err))) }
    {
        let mut execution = self;
        while execution.at < scenario.step() {
            let (next, goes_on) = execution.run_stretch(alloc, scenario, waits, streams)?;
            execution = next;
            if !goes_on {
                return Ok(execution);
            }
        }
        Ok(execution)
    }
}
