//! One step.
ghost use Rattle.std.specs.Prelude.{◌≡◌, ◌+◌, ◌%◌, ◌≤◌, [], min, length, nat_lt, true, false, Option, Some, None, IfOk, IfSome, OnErr, OnOk};
ghost use Rattle.guest_machine.specs.State.{State};
ghost use Rattle.guest_machine.specs.Effects.{next_of};
ghost use Rattle.guest_machine.specs.Errors.{fetch_undef};
ghost use Rattle.instructions.specs.Codes.{len_of, row_of_code};
ghost use Rattle.guest_machine.specs.Atomics.{atomic_effect, atomic_reads};
ghost use Rattle.guest_machine.specs.Exec.{atomic_uses, no_intake, nothing, reading, writing, called_here, exec, is_ready, steps_on, taken_from, touched_of};
ghost use Rattle.guest_machine.specs.Run.{pre};
ghost use Rattle.guest_machine.specs.Shows.{core_of, bytes_of, Holds, Shows, has_raised};
ghost use Rattle.guest_machine.specs.Spans.{span_at, IsCodeSpan};
ghost use Rattle.guest_machine.specs.Doing.{touched_in, used_of, uses_by, touched_by, Does, DoesAction, DoesRow, DoesDecoded, DoesStep, IsFetch, Sets};

use crate::hooks::Hooks;
use crate::machine::fetching::Fetch;
use crate::machine::registers::known;
use crate::machine::{Guest, Machine};
use crate::meter::Meter;
use crate::setup::{Setup, Touched};
use error_events::laws::groups_grow;
use guest_elf::Hook;
use instructions::{Atomic, Code, Instruction, Register, computed};
use run_values::{Span, Stop};
use std::alloc::AllocError;

/// The ranges whose bytes an instruction read and wrote.
#[derive(Clone, Copy)]
pub(super) struct Used {
    pub(super) reads: Option<Span>,
    pub(super) writes: Option<Span>,
}

pub(super) const NOTHING: Used = Used {
    reads: None,
    writes: None,
};

impl Used {
    #[inline(always)]
    pub(super) fn reading(range: Span) -> Used
        ensures { result ≡ used_of (reading range) }
    {
        Used {
            reads: Some(range),
            writes: None,
        }
    }

    #[inline(always)]
    pub(super) fn writing(range: Span) -> Used
        ensures { result ≡ used_of (writing range) }
    {
        Used {
            reads: None,
            writes: Some(range),
        }
    }

    /// A range that is read, and then written.
    pub(super) fn updating(range: Span) -> Used
        ensures reads { result.reads ≡ Some range }
        ensures writes { result.writes ≡ Some range }
    {
        Used {
            reads: Some(range),
            writes: Some(range),
        }
    }

    /// These, besides the code that was fetched.
    #[inline(always)]
    fn touched(self, fetch: Option<Span>) -> Touched
        ensures { result ≡ touched_in self fetch }
    {
        Touched {
            fetch,
            reads: self.reads,
            writes: self.writes,
        }
    }

    /// These, besides the first bytes at pc, at most four.
    #[inline(always)]
    fn touched_at(self, pc: u32, len: u32) -> Touched
        requires even { pc % 2 ≡ 0 }
        requires few { len ≤ 4 }
        ensures value { result ≡ touched_in self (Some (span_at pc len)) }
        ensures code { IfSome result.fetch IsCodeSpan }
    {
        self.touched(Some(Span { start: pc, len }))
    }
}

impl Guest {
    // What an out-of-line function returns in memory gets its room, filled with zeros, at the beginning of the function that calls it,
    // inlined or not. So what a step seldom calls is called by a function of its own, here and below.

    /// An environment call.
    #[inline(always)]
    fn call_out(&mut self, next: u32, setup: &Setup) -> Result<Used, AllocError>
        ensures does { OnOk result (DoesRow self.old self.new next (Some Instruction.CallEnvironment) setup.now) }
        ensures uses { IfOk result (λ used. used ≡ used_of (uses_by self.old (Some Instruction.CallEnvironment) setup.now)) }
    {
        let used = self.call_environment(next, setup)?;
        Ok(used)
    }

    /// An atomic instruction.
    #[inline(always)]
    fn access_atomically(
        &mut self,
        next: u32,
        atomic: Atomic,
        rd: Register,
        rs1: Register,
        rs2: Register,
    ) -> Result<Used, AllocError>
        ensures does { OnOk result (Does self.old self.new (atomic_effect (core_of self.old) next atomic rd rs1 rs2
            (taken_from (bytes_of self.old) (atomic_reads (core_of self.old) atomic rs1))) (atomic_uses (core_of self.old) atomic rs1) false no_intake) }
        ensures uses { IfOk result (λ used. used ≡ used_of (atomic_uses (core_of self.old) atomic rs1)) }
    {
        let used = self.atomic_used(atomic, rs1);
        self.atomic(next, atomic, rd, rs1, rs2)?;
        Ok(used)
    }

    /// Executes an instruction of this length. Returns which bytes it read and which it wrote.
    #[inline(always)]
    #[tactic(auto, unfolding(crate::specs::Exec::row_effect, crate::specs::Exec::row_uses, crate::specs::Exec::calls_heap, crate::specs::Exec::row_asks, crate::specs::Exec::call_asks, crate::specs::Doing::note_events))]
    fn execute(
        &mut self,
        setup: &Setup,
        len: u32,
        instruction: Instruction,
    ) -> Result<Used, AllocError>
        ensures does { OnOk result (DoesRow self.old self.new (next_of (core_of self.old) len) (Some instruction) setup.now) }
        ensures uses { IfOk result (λ used. used ≡ used_of (uses_by self.old (Some instruction) setup.now)) }
    {
        match instruction {
            Instruction::LoadUpper { rd, imm } => {
                self.result_in(len, rd, known(imm));
                Ok(NOTHING)
            }
            Instruction::AddUpper { rd, imm } => {
                let value = self.pc.wrapping_add(imm);
                self.result_in(len, rd, known(value));
                Ok(NOTHING)
            }
            Instruction::Jump { rd, imm } => {
                self.jump_and_link(self.pc.wrapping_add(len), rd, imm);
                Ok(NOTHING)
            }
            Instruction::JumpRegister { rd, rs1, imm } => {
                self.jump_register(self.pc.wrapping_add(len), rd, rs1, imm)?;
                Ok(NOTHING)
            }
            Instruction::Branch {
                comparison,
                rs1,
                rs2,
                imm,
            } => {
                self.branch(len, comparison, rs1, rs2, imm)?;
                Ok(NOTHING)
            }
            Instruction::Load {
                width,
                signed,
                rd,
                rs1,
                imm,
            } => {
                let range = self.accessed(rs1, imm, width);
                self.load(len, width, signed, rd, rs1, imm)?;
                Ok(Used::reading(range))
            }
            Instruction::Store {
                width,
                rs1,
                rs2,
                imm,
            } => {
                let range = self.accessed(rs1, imm, width);
                self.store(len, width, rs1, rs2, imm)?;
                Ok(Used::writing(range))
            }
            Instruction::Immediate {
                operation,
                rd,
                rs1,
                imm,
            } => {
                let bits = computed(operation, self.read_register(rs1), known(imm));
                self.result_in(len, rd, bits);
                Ok(NOTHING)
            }
            Instruction::Registers {
                operation,
                rd,
                rs1,
                rs2,
            } => {
                let bits = computed(operation, self.read_register(rs1), self.read_register(rs2));
                self.result_in(len, rd, bits);
                Ok(NOTHING)
            }
            Instruction::Fence => {
                self.advance_by(len);
                Ok(NOTHING)
            }
            Instruction::CallEnvironment => self.call_out(self.pc.wrapping_add(len), setup),
            Instruction::Breakpoint => {
                self.stop(Stop::Break);
                Ok(NOTHING)
            }
            Instruction::LoadReserved { rd, rs1 } => {
                let next = self.pc.wrapping_add(len);
                self.access_atomically(next, Atomic::LoadReserved, rd, rs1, Register::new(0))
            }
            Instruction::StoreConditional { rd, rs1, rs2 } => {
                let next = self.pc.wrapping_add(len);
                self.access_atomically(next, Atomic::StoreConditional, rd, rs1, rs2)
            }
            Instruction::Update {
                update,
                rd,
                rs1,
                rs2,
            } => {
                let next = self.pc.wrapping_add(len);
                self.access_atomically(next, Atomic::Update(update), rd, rs1, rs2)
            }
            Instruction::Control {
                access,
                rd,
                number,
                operand,
            } => {
                self.access_control(self.pc.wrapping_add(len), access, rd, number, operand)?;
                Ok(NOTHING)
            }
            Instruction::Barrier => {
                self.pass_barrier(self.pc.wrapping_add(len));
                Ok(NOTHING)
            }
        }
    }

    /// The function of the heap that is called by name; an instruction may begin at pc.
    #[inline(always)]
    #[tactic(auto, unfolding(crate::specs::Exec::called_here))]
    pub(super) fn named_here(&self, hooks: &Hooks) -> Option<Hook>
        requires { is_ready (core_of self.now) ≡ true }
        ensures { result ≡ called_here (core_of self.now) hooks.now }
    {
        hooks.at(self.pc)
    }

    /// The function of the heap that is called by name.
    #[inline(always)]
    #[tactic(auto, unfolding(crate::specs::Exec::called_here))]
    pub(super) fn called_here(&self, hooks: &Hooks) -> Option<Hook>
        ensures { result ≡ called_here (core_of self.now) hooks.now }
    {
        if self.is_ready() {
            self.named_here(hooks)
        } else {
            None
        }
    }

    /// Executes an instruction of this length, between the test of its code's undefined bits and the stack pointer rule.
    #[inline(always)]
    #[tactic(auto, using(crate::proofs::Showing::note_events_append))]
    pub(super) fn execute_decoded(
        &mut self,
        setup: &Setup,
        undef: u32,
        len: u32,
        instruction: Instruction,
    ) -> Result<Used, AllocError>
        requires { undef ≡ fetch_undef (core_of self.old) len }
        ensures does { OnOk result (DoesDecoded self.old self.new len (Some instruction) setup.now) }
        ensures uses { IfOk result (λ used. used ≡ used_of (uses_by self.old (Some instruction) setup.now)) }
    {
        let stack_pointer = self.read_register(Register::new(2));
        self.test_word(undef)?;
        let used = self.execute(setup, len, instruction)?;
        self.stack_rule(stack_pointer)?;
        Ok(used)
    }

    /// Stops at a code that is no instruction.
    #[tactic(auto, unfolding(crate::specs::Exec::row_effect, crate::specs::Exec::row_uses, crate::specs::Exec::calls_heap, crate::specs::Exec::row_asks, crate::specs::Doing::note_events))]
    fn stop_illegal(&mut self, setup: &Setup, len: u32)
        ensures does { DoesRow self.old self.new (next_of (core_of self.old) len) None setup.now }
        ensures uses { uses_by self.old None setup.now ≡ nothing }
    {
        self.stop(Stop::Illegal);
    }

    /// The same as [`Guest::execute_decoded`] at a code that is no instruction.
    #[tactic(auto, using(crate::proofs::Showing::note_events_append))]
    fn execute_illegal(&mut self, setup: &Setup, undef: u32, len: u32) -> Result<(), AllocError>
        requires { undef ≡ fetch_undef (core_of self.old) len }
        ensures does { OnOk result (DoesDecoded self.old self.new len None setup.now) }
        ensures uses { OnOk result (uses_by self.old None setup.now ≡ nothing) }
    {
        let stack_pointer = self.read_register(Register::new(2));
        self.test_word(undef)?;
        self.stop_illegal(setup, len);
        self.stack_rule(stack_pointer)
    }

    /// Decodes a code that may be fetched, and executes it.
    fn decode_and_execute(
        &mut self,
        setup: &Setup,
        code: Code,
        undef: u32,
    ) -> Result<Used, AllocError>
        requires { IsFetch (core_of self.old) (bytes_of self.old) (Fetch.Whole code undef) }
        ensures does { OnOk result (DoesDecoded self.old self.new (len_of code) (row_of_code code) setup.now) }
        ensures uses { IfOk result (λ used. used ≡ used_of (uses_by self.old (row_of_code code) setup.now)) }
    {
        match self.decode(code, undef) {
            Some(instruction) => self.execute_decoded(setup, undef, code.len(), instruction),
            None => {
                self.execute_illegal(setup, undef, code.len())?;
                Ok(NOTHING)
            }
        }
    }

    /// The step if no function of the heap begins at pc, and the code there is still to be decoded, or can't be fetched.
    #[inline(never)]
    #[tactic(auto, unfolding(instructions::specs::Codes::code_of, crate::specs::Exec::uses_at, crate::specs::Exec::intake_at, crate::specs::Exec::outcome_at, crate::specs::Exec::touched_at))]
    fn fetch_and_execute(&mut self, setup: &Setup) -> Result<Touched, AllocError>
        requires { called_here (core_of self.old) setup.now.hooks ≡ None }
        ensures does { OnOk result (DoesAction self.old self.new setup.now) }
        ensures touched { IfOk result (λ touched. touched ≡ touched_by self.old setup.now) }
        ensures code { IfOk result (λ touched. IfSome touched.fetch IsCodeSpan) }
    {
        let pc = self.pc;
        match self.fetch() {
            Fetch::Nothing => {
                self.halt()?;
                Ok(NOTHING.touched(None))
            }
            Fetch::First(undef) => {
                self.cut(undef)?;
                Ok(NOTHING.touched_at(pc, 2))
            }
            Fetch::Whole(code, undef) => {
                let used = self.decode_and_execute(setup, code, undef)?;
                Ok(used.touched_at(pc, code.len()))
            }
        }
    }

    /// The step if no function of the heap begins at pc, and no word there was decoded recently.
    #[inline(never)]
    #[tactic(auto, unfolding(instructions::specs::Codes::code_of, crate::specs::Exec::uses_at, crate::specs::Exec::intake_at, crate::specs::Exec::outcome_at, crate::specs::Exec::touched_at))]
    fn step_on_miss(&mut self, setup: &Setup) -> Result<Touched, AllocError>
        requires { called_here (core_of self.old) setup.now.hooks ≡ None }
        ensures does { OnOk result (DoesAction self.old self.new setup.now) }
        ensures touched { IfOk result (λ touched. touched ≡ touched_by self.old setup.now) }
        ensures code { IfOk result (λ touched. IfSome touched.fetch IsCodeSpan) }
    {
        let pc = self.pc;
        match self.decoded_half() {
            None => self.fetch_and_execute(setup),
            Some(instruction) => {
                let used = self.execute_decoded(setup, 0, 2, instruction)?;
                Ok(used.touched_at(pc, 2))
            }
        }
    }

    /// Calls [`Guest::step_on_miss`], which is out of line, and passes on what it returns.
    #[inline(always)]
    fn missed(&mut self, setup: &Setup) -> Result<Touched, AllocError>
        requires { called_here (core_of self.old) setup.now.hooks ≡ None }
        ensures does { OnOk result (DoesAction self.old self.new setup.now) }
        ensures touched { IfOk result (λ touched. touched ≡ touched_by self.old setup.now) }
        ensures code { IfOk result (λ touched. IfSome touched.fetch IsCodeSpan) }
    {
        let touched = self.step_on_miss(setup)?;
        Ok(touched)
    }

    /// Calls the function of the heap that begins at pc.
    #[inline(always)]
    #[tactic(auto, unfolding(instructions::specs::Codes::code_of, crate::specs::Exec::uses_at, crate::specs::Exec::intake_at, crate::specs::Exec::outcome_at, crate::specs::Exec::touched_at))]
    fn step_by_name(&mut self, function: Hook, setup: &Setup) -> Result<Touched, AllocError>
        requires { called_here (core_of self.old) setup.now.hooks ≡ Some function }
        ensures does { OnOk result (DoesAction self.old self.new setup.now) }
        ensures touched { IfOk result (λ touched. touched ≡ touched_by self.old setup.now) }
        ensures code { IfOk result (λ touched. IfSome touched.fetch IsCodeSpan) }
    {
        let used = self.call_by_name(function, setup)?;
        Ok(used.touched(None))
    }

    /// The step if no instruction may begin at pc, or the machine doesn't run: none that counts.
    #[inline(always)]
    #[tactic(auto, unfolding(crate::specs::Exec::called_here, crate::specs::Exec::effect_at))]
    fn step_unready(&mut self, setup: &Setup) -> Result<Touched, AllocError>
        requires { is_ready (core_of self.old) ≡ false }
        ensures does { OnOk result (DoesStep self.old self.new setup.now) }
        ensures touched { IfOk result (λ touched. touched ≡ touched_by self.old setup.now) }
        ensures code { IfOk result (λ touched. IfSome touched.fetch IsCodeSpan) }
    {
        self.missed(setup)
    }

    /// Counts a step.
    #[inline(always)]
    pub(super) fn count_step(&mut self)
        ensures { Sets self.old self.new (record (core_of self.old) { steps = steps_on (core_of self.old) }) }
    {
        self.steps = self.steps.wrapping_add(1);
    }

    /// Calls the function of the heap that begins at pc, or executes or fetches the code there. Returns which bytes that read or wrote. Each
    /// of the three ways counts the step itself, so that what they return isn't taken apart for it.
    #[inline(always)]
    #[tactic(auto, unfolding(instructions::specs::Codes::code_of, crate::specs::Exec::uses_at, crate::specs::Exec::intake_at, crate::specs::Exec::outcome_at, crate::specs::Exec::effect_at, crate::specs::Exec::touched_at))]
    fn step_ready(&mut self, setup: &Setup) -> Result<Touched, AllocError>
        requires { is_ready (core_of self.old) ≡ true }
        ensures does { OnOk result (DoesStep self.old self.new setup.now) }
        ensures touched { IfOk result (λ touched. touched ≡ touched_by self.old setup.now) }
        ensures code { IfOk result (λ touched. IfSome touched.fetch IsCodeSpan) }
    {
        if let Some(function) = self.named_here(&setup.hooks) {
            let touched = self.step_by_name(function, setup)?;
            self.count_step();
            return Ok(touched);
        }
        let pc = self.pc;
        match self.decoded_here() {
            None => {
                let touched = self.missed(setup)?;
                self.count_step();
                Ok(touched)
            }
            Some(instruction) => {
                let used = self.execute_decoded(setup, 0, 4, instruction)?;
                self.count_step();
                Ok(used.touched_at(pc, 4))
            }
        }
    }

    /// Makes a step, or halts. Returns which bytes that read or wrote. Asks only once whether an instruction may begin at pc.
    #[inline(always)]
    fn step_once(&mut self, setup: &Setup) -> Result<Touched, AllocError>
        ensures does { OnOk result (DoesStep self.old self.new setup.now) }
        ensures touched { IfOk result (λ touched. touched ≡ touched_by self.old setup.now) }
        ensures code { IfOk result (λ touched. IfSome touched.fetch IsCodeSpan) }
    {
        if !self.is_ready() {
            return self.step_unready(setup);
        }
        self.step_ready(setup)
    }

    /// Forgets that the step before raised an error.
    #[inline(always)]
    fn begin_step(&mut self)
        ensures holds { (s : State) → Holds self.old s → Holds self.new s }
        ensures none { self.new.noted.raised ≡ false }
    {
        self.noted.raised = false;
    }

    /// What [`Guest::step_once`] does, for each state that is held.
    #[inline(always)]
    pub(super) fn step_on(&mut self, setup: &Setup) -> Result<Touched, AllocError>
        ensures holds { OnOk result ((s : State) → Holds self.old s → Holds self.new (exec s setup.now)) }
        ensures touched { IfOk result (λ t. (s : State) → Holds self.old s → t ≡ touched_of s setup.now) }
        ensures code { IfOk result (λ t. IfSome t.fetch IsCodeSpan) }
    {
        groups_grow();
        let touched = self.step_once(setup)?;
        Ok(touched)
    }

    /// What [`Guest::step_once`] does, for each state that is held. Notes whether an error was raised.
    #[inline(always)]
    fn step(&mut self, setup: &Setup) -> Result<Touched, AllocError>
        ensures holds { OnOk result ((s : State) → Holds self.old s → Holds self.new (exec s setup.now)) }
        ensures touched { IfOk result (λ t. (s : State) → Holds self.old s → t ≡ touched_of s setup.now) }
        ensures raised { OnOk result ((s : State) → Holds self.old s
            → self.new.noted.raised ≡ nat_lt (length s.events) (length (exec s setup.now).events)) }
    {
        groups_grow();
        self.begin_step();
        let touched = self.step_once(setup)?;
        Ok(touched)
    }

    /// Executes a number of steps; once the machine is halted, they leave it as it is.
    fn run(&mut self, setup: &Setup, steps: u32) -> Result<(), AllocError>
        ensures { OnOk result ((s : State) → Holds self.old s → Holds self.new (pre s setup.now [] steps)) }
    {
        for _step in 0..steps {
            if !self.runs() {
                return Ok(());
            }
            let _touched = self.step_on(setup)?;
        }
        Ok(())
    }
}

impl Machine {
    /// Executes one step. Returns the ranges whose bytes it read or wrote. This is for a caller that counts its steps itself and doesn't
    /// ask whether they raise errors: [`Machine::has_raised`] doesn't say so. Drops the machine if memory runs out.
    #[inline(always)]
    #[tactic(auto, unfolding(crate::specs::Shows::Shows))]
    pub fn step_on(self, setup: &Setup) -> Result<(Machine, Touched), AllocError>
        ensures shows { IfOk result (λ r. (s : State) → Shows self s → Shows r.0 (exec s setup.now)) }
        ensures touched { IfOk result (λ r. (s : State) → Shows self s → r.1 ≡ touched_of s setup.now) }
        ensures code { IfOk result (λ r. IfSome r.1.fetch IsCodeSpan) }
    {
        let mut machine = self;
        let touched = machine.guest.step_on(setup)?;
        Ok((machine, touched))
    }

    /// Executes one step. Returns the ranges whose bytes it read or wrote. [`Machine::has_raised`] then says whether the step raised an
    /// error. The meter rises by one. If memory runs out, drops the machine and leaves the meter as it was.
    #[inline(always)]
    #[tactic(auto, unfolding(crate::specs::Shows::Shows, crate::specs::Shows::has_raised))]
    pub fn step(self, setup: &Setup, meter: &mut Meter) -> Result<(Machine, Touched), AllocError>
        ensures shows { IfOk result (λ r. (s : State) → Shows self s → Shows r.0 (exec s setup.now)) }
        ensures touched { IfOk result (λ r. (s : State) → Shows self s → r.1 ≡ touched_of s setup.now) }
        ensures raised { IfOk result (λ r. (s : State) → Shows self s
            → has_raised r.0 ≡ nat_lt (length s.events) (length (exec s setup.now).events)) }
        ensures meter { OnOk result (meter.new ≡ min (meter.old + 1) u64.MAX) }
        ensures unmoved { OnErr result (meter.new ≡ meter.old) }
    {
        let mut machine = self;
        let touched = machine.guest.step(setup)?;
        meter.rise();
        Ok((machine, touched))
    }

    /// Executes a number of steps. The meter rises by that number, even if the machine halts on the way: a step of a halted machine leaves
    /// it as it is ([`laws::stays_halted`](crate::laws::stays_halted)), so none is executed. If memory runs out, drops the machine and
    /// leaves the meter as it was.
    #[tactic(auto, unfolding(crate::specs::Shows::Shows))]
    pub fn run(self, setup: &Setup, steps: u32, meter: &mut Meter) -> Result<Machine, AllocError>
        requires metered { meter.old ≤ u64.MAX }
        ensures shows { IfOk result (λ m. (s : State) → Shows self s → Shows m (pre s setup.now [] steps)) }
        ensures meter { OnOk result (meter.new ≡ min (meter.old + steps) u64.MAX) }
        ensures unmoved { OnErr result (meter.new ≡ meter.old) }
    {
        let mut machine = self;
        machine.guest.run(setup, steps)?;
        meter.rise_by(steps);
        Ok(machine)
    }
}
