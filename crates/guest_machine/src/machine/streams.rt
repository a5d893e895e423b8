//! What the next step has to do with the program's input and output, and steps up to one that may have.
ghost use Rattle.std.specs.Prelude.{◌≡◌, ◌≤◌, ℕ, List, [], false, IfOk, IsTrue, Some};
ghost use Rattle.guest_elf.specs.declared.hook.Hook.{Hook as HookOf};
ghost use Rattle.guest_machine.specs.State.{State};
ghost use Rattle.guest_machine.specs.Calls.{call_at};
ghost use Rattle.guest_machine.specs.Exec.{call_asks, action_at, intake_at, row_asks};
ghost use Rattle.guest_machine.specs.Run.{pre};
ghost use Rattle.guest_machine.specs.Shows.{core_of, bytes_of, Holds, Shows};
ghost use Rattle.guest_machine.specs.Streams.{are_unlike, calls_out, idles_in, is_idle, is_refused, is_self_jump, needs_limits, needs_limits_in, needs_limits_row, refuses_row, refuses_write, IsQuietFor, Rests, rested, rested_core, row_in, sees_end, unknown_call, unknown_row};
ghost use Rattle.guest_machine.specs.Doing.{Sets};

use crate::environment_call::EnvironmentCall;
use crate::hooks::Hooks;
use crate::machine::calls::{A0, A7};
use crate::machine::fetching::Fetch;
use crate::machine::{Guest, Machine};
use crate::setup::Setup;
use instructions::{Code, Instruction, row_of_code};
use std::alloc::AllocError;

/// `jal x0, 0`.
const SELF_JUMP: u32 = 0x6F;
/// `c.j 0`.
const SHORT_SELF_JUMP: u16 = 0xA001;

/// Whether an instruction is ECALL.
#[inline(always)]
#[tactic(auto, unfolding(crate::specs::Streams::calls_out))]
fn is_call(instruction: Instruction) -> bool
    ensures { result ≡ calls_out (Some instruction) }
{
    matches!(instruction, Instruction::CallEnvironment)
}

/// Whether a code is a jump to itself.
fn is_self_jump(code: Code) -> bool
    ensures { result ≡ is_self_jump code }
{
    match code {
        Code::Word(word) => word == SELF_JUMP,
        Code::Half(half) => half == SHORT_SELF_JUMP,
    }
}

/// Whether two answers are different.
fn are_unlike(one: bool, other: bool) -> bool
    ensures { result ≡ are_unlike one other }
{
    if one { !other } else { other }
}

impl Guest {
    /// The instruction that the next step carries out, if it carries one out.
    #[tactic(auto, unfolding(crate::specs::Streams::row_in))]
    fn row_here(&self, hooks: &Hooks) -> Option<Instruction>
        ensures { result ≡ row_in (action_at (core_of self.now) (bytes_of self.now) hooks.now) }
    {
        if self.called_here(hooks).is_some() {
            return None;
        }
        match self.fetch() {
            Fetch::Whole(code, _) => row_of_code(code),
            Fetch::First(_) | Fetch::Nothing => None,
        }
    }

    /// Whether the next step may be an ECALL. It isn't if the instruction at pc was decoded lately and is another one.
    #[inline(always)]
    fn may_call(&self) -> bool
        ensures { result ≡ false → (hooks : List (ℕ × HookOf)) → calls_out (row_in (action_at (core_of self.now) (bytes_of self.now) hooks)) ≡ false }
    {
        match self.decoded() {
            Some(instruction) => is_call(instruction),
            None => self.may_call_short(),
        }
    }

    /// The same if no word at pc was decoded lately.
    #[inline(never)]
    fn may_call_short(&self) -> bool
        ensures { result ≡ false → (hooks : List (ℕ × HookOf)) → calls_out (row_in (action_at (core_of self.now) (bytes_of self.now) hooks)) ≡ false }
    {
        match self.decoded_half() {
            Some(instruction) => is_call(instruction),
            None => true,
        }
    }

    /// The number of bytes of the input that an ECALL asks for, if it asks for some.
    #[tactic(auto, unfolding(crate::specs::Calls::call_at, crate::specs::Exec::call_asks))]
    fn call_asks(&self) -> Option<u32>
        ensures { result ≡ call_asks (core_of self.now) (call_at (core_of self.now)) }
    {
        match EnvironmentCall::of(self.argument(A7)) {
            EnvironmentCall::Read => {
                if self.argument(A0) == 0 {
                    Some(self.moved_len())
                } else {
                    None
                }
            }
            _ => None,
        }
    }

    /// The number of bytes of the input that the next step asks for, if it asks for some.
    #[tactic(auto, unfolding(crate::specs::Exec::row_asks))]
    fn asks(&self, hooks: &Hooks) -> Option<u32>
        ensures { result ≡ row_asks (core_of self.now) (row_in (action_at (core_of self.now) (bytes_of self.now) hooks.now)) }
    {
        match self.row_here(hooks) {
            Some(Instruction::CallEnvironment) => self.call_asks(),
            _ => None,
        }
    }

    /// Whether the next step asks for more of the input than is left.
    #[tactic(auto, unfolding(crate::specs::Exec::intake_at), using(crate::proofs::StreamSteps::asks_by_row))]
    fn sees_end(&self, setup: &Setup) -> bool
        ensures { result ≡ (intake_at (core_of self.now) (bytes_of self.now) self.now.progress.position setup.now).ends }
    {
        let len = setup.input.len() as u64;
        let left = len.saturating_sub(self.progress.position);
        match self.asks(&setup.hooks) {
            Some(asked) => left < u64::from(asked),
            None => false,
        }
    }

    /// Whether an ECALL is a `write` that finds no room.
    #[tactic(auto, unfolding(crate::specs::Calls::call_at, crate::specs::Calls::appends, crate::specs::Streams::is_refused))]
    fn is_refused(&self) -> bool
        ensures { result ≡ is_refused (core_of self.now) (call_at (core_of self.now)) self.now.progress.output_len }
    {
        match EnvironmentCall::of(self.argument(A7)) {
            EnvironmentCall::Write => {
                let descriptor = self.argument(A0);
                (descriptor == 1 || descriptor == 2) && !self.has_room()
            }
            _ => false,
        }
    }

    /// Whether the next step is a `write` that finds no room.
    #[tactic(auto, unfolding(crate::specs::Streams::refuses_row))]
    fn refuses_write(&self, hooks: &Hooks) -> bool
        ensures { result ≡ refuses_row (core_of self.now) (row_in (action_at (core_of self.now) (bytes_of self.now) hooks.now)) self.now.progress.output_len }
    {
        match self.row_here(hooks) {
            Some(Instruction::CallEnvironment) => self.is_refused(),
            _ => false,
        }
    }

    /// The number of the call that the next step makes, if it isn't known.
    #[tactic(auto, unfolding(crate::specs::Calls::call_at, crate::specs::Streams::unknown_in, crate::specs::Streams::unknown_row))]
    fn unknown_call(&self, hooks: &Hooks) -> Option<u32>
        ensures { result ≡ unknown_row (core_of self.now) (row_in (action_at (core_of self.now) (bytes_of self.now) hooks.now)) }
    {
        match self.row_here(hooks) {
            Some(Instruction::CallEnvironment) => {
                let number = self.argument(A7);
                match EnvironmentCall::of(number) {
                    EnvironmentCall::Unknown => Some(number),
                    _ => None,
                }
            }
            _ => None,
        }
    }

    /// Whether an ECALL does something else where nothing is said of how many bytes calls move.
    #[tactic(auto, unfolding(crate::specs::Calls::call_at, crate::specs::Streams::needs_limits_in))]
    fn call_needs_limits(&self) -> bool
        ensures { result ≡ needs_limits_in (core_of self.now) (call_at (core_of self.now)) self.now.progress.output_len }
    {
        match EnvironmentCall::of(self.argument(A7)) {
            EnvironmentCall::Read => {
                self.argument(A0) == 0 && self.moved_len() != self.usually_moved()
            }
            EnvironmentCall::Write => {
                let descriptor = self.argument(A0);
                let moves = self.moved_len() != self.usually_moved();
                let fits = are_unlike(self.has_room(), self.usually_has_room());
                (descriptor == 1 || descriptor == 2) && (moves || fits)
            }
            _ => false,
        }
    }

    /// Whether the next step does something else where nothing is said of how many bytes calls move.
    #[tactic(auto, unfolding(crate::specs::Streams::needs_limits_row))]
    fn needs_limits(&self, hooks: &Hooks) -> bool
        ensures { result ≡ needs_limits_row (core_of self.now) (row_in (action_at (core_of self.now) (bytes_of self.now) hooks.now)) self.now.progress.output_len }
    {
        match self.row_here(hooks) {
            Some(Instruction::CallEnvironment) => self.call_needs_limits(),
            _ => false,
        }
    }

    /// Whether the next step is a jump to itself, whose code is defined.
    #[tactic(auto, unfolding(crate::specs::Streams::jumps_to_itself))]
    fn is_idle(&self, hooks: &Hooks) -> bool
        ensures { result ≡ idles_in (core_of self.now) (action_at (core_of self.now) (bytes_of self.now) hooks.now) }
    {
        if self.called_here(hooks).is_some() {
            return false;
        }
        match self.fetch() {
            Fetch::Whole(code, undef) => is_self_jump(code) && undef == 0,
            Fetch::First(_) | Fetch::Nothing => false,
        }
    }

    /// The number of steps, where it is counted.
    fn shown_steps(&self) -> u64
        ensures { result ≡ (core_of self.now).steps }
    {
        if self.isa.has_controls() {
            self.steps
        } else {
            0
        }
    }

    /// Counts steps in which the machine rests.
    fn count_rest(&mut self, steps: u32)
        ensures { Sets self.old self.new (rested_core (core_of self.old) steps) }
    {
        if self.is_ready() {
            self.steps = self.steps.wrapping_add(u64::from(steps));
        }
    }

    fn rest_for(&mut self, steps: u32)
        ensures { (s : State) → Holds self.old s → Holds self.new (rested s steps) }
    {
        self.count_rest(steps);
    }

    /// Steps up to the first that may be an ECALL, so many at most; none once it is halted.
    fn run_quietly(&mut self, setup: &Setup, steps: u32) -> Result<u32, AllocError>
        ensures within { IfOk result (λ made. made ≤ steps) }
        ensures holds { IfOk result (λ made. (s : State) → Holds self.old s → Holds self.new (pre s setup.now [] made)) }
        ensures quiet { IfOk result (λ made. (s : State) → Holds self.old s → IsQuietFor s setup.now made) }
    {
        for step in 0..steps {
            if !self.runs() || self.may_call() {
                return Ok(step);
            }
            let _touched = self.step_on(setup)?;
        }
        Ok(steps)
    }
}

#[tactic(auto, unfolding(crate::specs::Shows::Shows))]
impl Machine {
    /// Whether the next step asks for more of the input than is left.
    #[tactic(auto, unfolding(crate::specs::Shows::Shows, crate::specs::Streams::sees_end))]
    pub fn sees_end(&self, setup: &Setup) -> bool
        ensures { (s : State) → Shows self.now s → result ≡ sees_end s setup.now }
    {
        self.guest.sees_end(setup)
    }

    /// Whether the next step is a `write` to the output that finds no room there.
    #[tactic(auto, unfolding(crate::specs::Shows::Shows, crate::specs::Streams::refuses_write, crate::specs::Streams::row_at))]
    pub fn refuses_write(&self, setup: &Setup) -> bool
        ensures { (s : State) → Shows self.now s → result ≡ refuses_write s setup.now }
    {
        self.guest.refuses_write(&setup.hooks)
    }

    /// Returns the number of the call that the next step makes, if it is one that isn't known.
    #[tactic(auto, unfolding(crate::specs::Shows::Shows, crate::specs::Streams::unknown_call, crate::specs::Streams::row_at))]
    pub fn unknown_call(&self, setup: &Setup) -> Option<u32>
        ensures { (s : State) → Shows self.now s → result ≡ unknown_call s setup.now }
    {
        self.guest.unknown_call(&setup.hooks)
    }

    /// Returns whether the next step is a `read` or `write` that would do something else with the usual
    /// [`StreamLimits`](guest_elf::StreamLimits).
    #[tactic(auto, unfolding(crate::specs::Shows::Shows, crate::specs::Streams::needs_limits, crate::specs::Streams::row_at))]
    pub fn needs_limits(&self, setup: &Setup) -> bool
        ensures { (s : State) → Shows self.now s → result ≡ needs_limits s setup.now }
    {
        self.guest.needs_limits(&setup.hooks)
    }

    /// Whether the next step is a jump to itself, whose code is defined.
    #[tactic(auto, unfolding(crate::specs::Shows::Shows, crate::specs::Streams::is_idle))]
    pub fn is_idle(&self, setup: &Setup) -> bool
        ensures { (s : State) → Shows self.now s → result ≡ is_idle s setup.now }
    {
        self.guest.is_idle(&setup.hooks)
    }

    /// The number of steps, where it is counted.
    fn steps(&self) -> u64
        ensures { (s : State) → Shows self.now s → result ≡ s.core.steps }
    {
        self.guest.shown_steps()
    }

    /// Whether the machine has halted or is in a jump to itself: a step leaves it as it is then, but for the number of steps
    /// ([`laws::stays_at_rest`](crate::laws::stays_at_rest)).
    #[tactic(auto, unfolding(crate::specs::Shows::Shows))]
    pub fn rests(&self, setup: &Setup) -> bool
        ensures { IsTrue result → (s : State) → Shows self.now s → Rests s setup.now }
    {
        let _pc = self.pc();
        let _steps = self.steps();
        !self.guest.runs() || self.is_idle(setup)
    }

    /// Returns the machine after a number of steps in which it rests.
    pub fn rest_for(self, steps: u32) -> Machine
        ensures { (s : State) → Shows self s → Shows result (rested s steps) }
    {
        let mut machine = self;
        machine.guest.rest_for(steps);
        machine
    }

    /// Makes steps up to the first that may be an ECALL, `steps` at most, and returns how many. A halted machine makes none. A machine for
    /// which memory fails is dropped.
    pub fn run_quietly(self, setup: &Setup, steps: u32) -> Result<(Machine, u32), AllocError>
        ensures within { IfOk result (λ r. r.1 ≤ steps) }
        ensures shows { IfOk result (λ r. (s : State) → Shows self s → Shows r.0 (pre s setup.now [] r.1)) }
        ensures quiet { IfOk result (λ r. (s : State) → Shows self s → IsQuietFor s setup.now r.1) }
    {
        let mut machine = self;
        let made = machine.guest.run_quietly(setup, steps)?;
        Ok((machine, made))
    }
}
