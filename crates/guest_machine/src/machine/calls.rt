//! The calls that a program makes of its environment.
ghost use Rattle.std.specs.Prelude.{◌≡◌, ◌+◌, ◌-◌, ◌^◌, ◌<◌, ◌≤◌, length, min, slice_index, false, Some, IfOk, IsTrue, OnOk};
ghost use Rattle.guest_machine.specs.Calls.{accessible_len, answers, argument, call_errors, call_tested, errors_from, exit_call, has_room, heap_parameters, moved_len, parameters_of, tested_from};
ghost use Rattle.guest_machine.specs.Errors.{fault_of, buffer_errors};
ghost use Rattle.shadow_memory.specs.Ranges.{written};
ghost use Rattle.guest_machine.specs.Effects.{stored_core};
ghost use Rattle.guest_machine.specs.Exec.{no_intake, nothing, given_at, read_uses, write_uses};
ghost use Rattle.guest_machine.specs.Shows.{core_of, bytes_of};
ghost use Rattle.guest_machine.specs.Streams.{usually};
ghost use Rattle.guest_machine.specs.Doing.{used_of, uses_by, read_intake, Changes, Notes, Does, DoesRow, DoesRead, DoesWrite};

use crate::environment_call::EnvironmentCall;
use crate::machine::Guest;
use crate::machine::step::{NOTHING, Used};
use crate::setup::Setup;
use error_events::{Kind, Parameter, ParameterFault};
use guest_elf::{Hook, StreamLimits};
use instructions::{Instruction, Register};
use run_values::{Span, Status};
use shadow_memory::Bad;
use std::alloc::AllocError;

/// The register of a call's first argument, and of its result.
pub(super) const A0: u8 = 10;
/// The register of a call's second argument.
pub(super) const A1: u8 = 11;
/// The register of a call's third argument.
const A2: u8 = 12;
/// The register of a call's number.
pub(super) const A7: u8 = 17;

/// The number of bytes that a call moves even if they may not be accessed.
const ALWAYS_MOVED: u32 = 4096;

/// EBADF negated, modulo 2^32: the result of a call that names no open file.
const BAD_DESCRIPTOR: u32 = u32::MAX - 8;
/// ENOSPC negated: the result of a `write` for which there is no room.
const NO_SPACE: u32 = u32::MAX - 27;
/// ENOSYS negated: the result of a call whose number is unknown.
const NO_SUCH_CALL: u32 = u32::MAX - 37;

impl Guest {
    /// The value of a register that a call reads.
    pub(super) fn argument(&self, r: u8) -> u32
        requires { r < 32 }
        ensures { result ≡ argument (core_of self.now) r }
    {
        self.read_register(Register::new(r)).value
    }

    /// How many of n bytes from an address on come before the first that may not be accessed.
    #[tactic(auto, using(crate::proofs::Moving::accessible_none, crate::proofs::Moving::accessible_some))]
    fn accessible_len(&self, start: u32, n: u32) -> u32
        ensures { result ≡ accessible_len (core_of self.now).shadow start n }
    {
        match self.memory.first_bad(start, n, false) {
            Some(bad) => bad.addr.wrapping_sub(start),
            None => n,
        }
    }

    /// How many bytes a call moves at most.
    #[tactic(auto, unfolding(crate::specs::Calls::moved_len))]
    pub(super) fn moved_len(&self) -> u32
        ensures { result ≡ moved_len (core_of self.now) }
    {
        let asked = self.argument(A2).min(self.limits.most_moved);
        if asked <= ALWAYS_MOVED {
            return asked;
        }
        self.accessible_len(self.argument(A1), asked)
            .max(ALWAYS_MOVED)
    }

    /// Whether there is room for the bytes of a `write`.
    pub(super) fn has_room(&self) -> bool
        ensures room { result ≡ has_room (core_of self.now) self.now.progress.output_len }
        ensures fits { IsTrue result → self.now.progress.output_len + moved_len (core_of self.now) < 2 ^ 64 }
    {
        self.progress
            .has_room(self.moved_len(), self.limits.most_output)
    }

    /// How many bytes a call moves where nothing is said of it.
    pub(super) fn usually_moved(&self) -> u32
        ensures { result ≡ moved_len (usually (core_of self.now)) }
    {
        self.argument(A2).min(StreamLimits::USUAL.most_moved)
    }

    /// Whether there is room for the bytes of a `write` where nothing is said of it.
    pub(super) fn usually_has_room(&self) -> bool
        ensures { result ≡ has_room (usually (core_of self.now)) self.now.progress.output_len }
    {
        let limits = StreamLimits::USUAL;
        self.progress
            .has_room(self.usually_moved(), limits.most_output)
    }

    /// Tests the parameters of a call, which are in a0 and on, in order.
    pub(super) fn test_parameters(&mut self, parameters: &[Parameter]) -> Result<(), AllocError>
        requires { length parameters.now ≤ 3 }
        ensures { OnOk result (Notes self.old self.new (tested_from (core_of self.old) 10 parameters.now) (errors_from (core_of self.old) 10 parameters.now)) }
    {
        let mut r = A0;
        for &parameter in parameters {
            self.test(
                Register::new(r),
                Kind::Param(parameter, ParameterFault::Contains),
            )?;
            r += 1;
        }
        Ok(())
    }

    /// Tests a call's number, and then its parameters in order.
    #[tactic(auto, unfolding(crate::specs::Doing::note_events), using(crate::proofs::Showing::note_events_append))]
    pub(super) fn test_call(&mut self, call: EnvironmentCall) -> Result<(), AllocError>
        ensures { OnOk result (Notes self.old self.new (call_tested (core_of self.old) call) (call_errors (core_of self.old) call)) }
    {
        let number = Kind::Param(Parameter::SyscallNumber, ParameterFault::Contains);
        self.test(Register::new(A7), number)?;
        self.test_parameters(parameters_of(call))
    }

    /// A call that only returns a result, and goes on at the address after it.
    #[tactic(auto, unfolding(crate::specs::Doing::note_events))]
    fn test_and_answer(
        &mut self,
        next: u32,
        call: EnvironmentCall,
        n: u32,
    ) -> Result<Used, AllocError>
        ensures does { OnOk result (Does self.old self.new (answers (core_of self.old) next call n) nothing false no_intake) }
        ensures uses { IfOk result (λ used. used ≡ used_of nothing) }
    {
        self.test_call(call)?;
        self.answer(n);
        self.advance(next);
        Ok(NOTHING)
    }

    /// Stores input at an address.
    fn store_input(&mut self, start: u32, given: &[u8]) -> Result<(), AllocError>
        requires { length given.now < 2 ^ 32 }
        ensures { OnOk result (Changes self.old self.new (stored_core (core_of self.old) start (length given.now) 0)
            (written (bytes_of self.old) start (length given.now) (slice_index given.now))) }
    {
        self.memory.store_bytes(start, given)?;
        Ok(())
    }

    /// Notes the first of n bytes that may not be accessed or, if its value is asked for, has an undefined bit.
    #[tactic(auto, unfolding(crate::specs::Errors::buffer_event, crate::specs::Doing::note_events))]
    fn test_buffer(
        &mut self,
        parameter: Parameter,
        need_defined: bool,
        start: u32,
        n: u32,
    ) -> Result<(), AllocError>
        ensures { OnOk result (Notes self.old self.new (core_of self.old) (buffer_errors (core_of self.old) parameter need_defined start n)) }
    {
        if let Some(bad) = self.memory.first_bad(start, n, need_defined) {
            let kind = Kind::Param(parameter, fault_of(bad));
            let note = self.note_at(bad.addr);
            self.raise(kind, note)?;
        }
        Ok(())
    }

    fn exit_call(&mut self, call: EnvironmentCall) -> Result<Used, AllocError>
        ensures uses { IfOk result (λ used. used ≡ used_of nothing) }
        ensures does { OnOk result (Does self.old self.new (exit_call (core_of self.old) call) nothing false no_intake) }
    {
        let code = (self.argument(A0) % 256) as u8;
        self.test_call(call)?;
        self.status = Status::Exited(code);
        Ok(NOTHING)
    }

    #[tactic(auto, unfolding(crate::specs::Calls::read_call, crate::specs::Exec::call_asks, crate::specs::Doing::note_events), using(crate::proofs::Showing::note_events_append))]
    fn read_call(&mut self, next: u32, setup: &Setup) -> Result<Used, AllocError>
        ensures does { OnOk result (DoesRead self.old self.new next setup.now) }
        ensures uses { IfOk result (λ used. used ≡ used_of (read_uses (core_of self.old) (read_intake self.old setup.now).count)) }
    {
        if self.argument(A0) != 0 {
            return self.test_and_answer(next, EnvironmentCall::Read, BAD_DESCRIPTOR);
        }
        let start = self.argument(A1);
        let asked = self.moved_len();
        let given = given(setup, self.progress.position, asked);
        let n = given.len() as u32;
        self.test_call(EnvironmentCall::Read)?;
        self.test_buffer(Parameter::ReadBuffer, false, start, asked)?;
        self.store_input(start, given)?;
        self.progress.note_read(asked, n);
        self.answer(n);
        self.advance(next);
        Ok(Used {
            reads: None,
            writes: Some(Span { start, len: n }),
        })
    }

    #[tactic(auto, unfolding(crate::specs::Calls::write_call, crate::specs::Calls::appends, crate::specs::Doing::note_events), using(crate::proofs::Showing::note_events_append, crate::proofs::Showing::length_taken))]
    fn write_call(&mut self, next: u32) -> Result<Used, AllocError>
        ensures does { OnOk result (DoesWrite self.old self.new next) }
        ensures uses { IfOk result (λ used. used ≡ used_of (write_uses (core_of self.old) self.old.progress.output_len)) }
    {
        let descriptor = self.argument(A0);
        if descriptor != 1 && descriptor != 2 {
            return self.test_and_answer(next, EnvironmentCall::Write, BAD_DESCRIPTOR);
        }
        let start = self.argument(A1);
        let len = self.moved_len();
        if !self.has_room() {
            return self.test_and_answer(next, EnvironmentCall::Write, NO_SPACE);
        }
        self.test_call(EnvironmentCall::Write)?;
        self.test_buffer(Parameter::WriteBuffer, true, start, len)?;
        self.progress.output_len += u64::from(len);
        self.answer(len);
        self.advance(next);
        Ok(Used {
            reads: Some(Span { start, len }),
            writes: None,
        })
    }

    /// Executes ECALL, after which `next` is the address, and returns which bytes it read and which it wrote.
    #[cold]
    #[inline(never)]
    #[tactic(auto, unfolding(crate::specs::Calls::call_at, crate::specs::Exec::call_effect, crate::specs::Exec::call_uses, crate::specs::Exec::calls_heap, crate::specs::Exec::row_asks, crate::specs::Exec::call_asks, crate::specs::Exec::row_uses, crate::specs::Exec::row_effect))]
    pub(super) fn call_environment(&mut self, next: u32, setup: &Setup) -> Result<Used, AllocError>
        ensures does { OnOk result (DoesRow self.old self.new next (Some Instruction.CallEnvironment) setup.now) }
        ensures uses { IfOk result (λ used. used ≡ used_of (uses_by self.old (Some Instruction.CallEnvironment) setup.now)) }
    {
        let call = EnvironmentCall::of(self.argument(A7));
        match call {
            EnvironmentCall::Read => self.read_call(next, setup),
            EnvironmentCall::Write => self.write_call(next),
            EnvironmentCall::Exit | EnvironmentCall::ExitGroup => self.exit_call(call),
            EnvironmentCall::Heap(function) => self.heap_call(next, function, setup),
            EnvironmentCall::Unknown => self.test_and_answer(next, call, NO_SUCH_CALL),
        }
    }
}

/// The parameters of a heap call.
#[tactic(auto, unfolding(crate::specs::Calls::heap_parameters))]
pub(super) fn heap_parameters(function: Hook) -> &'static [Parameter]
    ensures list { result.now ≡ heap_parameters function }
    ensures few { length result.now ≤ 3 }
{
    match function {
        Hook::Malloc => &[Parameter::MallocSize],
        Hook::Free => &[Parameter::FreePointer],
        Hook::Calloc => &[Parameter::CallocMembers, Parameter::CallocSize],
        Hook::Realloc => &[Parameter::ReallocPointer, Parameter::ReallocSize],
    }
}

/// The parameters of a call.
#[tactic(auto, unfolding(crate::specs::Calls::parameters_of))]
fn parameters_of(call: EnvironmentCall) -> &'static [Parameter]
    ensures list { result.now ≡ parameters_of call }
    ensures few { length result.now ≤ 3 }
{
    match call {
        EnvironmentCall::Read => &[
            Parameter::ReadFd,
            Parameter::ReadBuffer,
            Parameter::ReadCount,
        ],
        EnvironmentCall::Write => &[
            Parameter::WriteFd,
            Parameter::WriteBuffer,
            Parameter::WriteCount,
        ],
        EnvironmentCall::Exit => &[Parameter::ExitStatus],
        EnvironmentCall::ExitGroup => &[Parameter::ExitGroupStatus],
        EnvironmentCall::Heap(function) => heap_parameters(function),
        EnvironmentCall::Unknown => &[],
    }
}

/// What is wrong with a byte of a buffer.
fn fault_of(bad: Bad) -> ParameterFault
    ensures { result ≡ fault_of bad }
{
    if bad.accessible {
        ParameterFault::Uninit
    } else {
        ParameterFault::Unaddressable
    }
}

/// The input from a position on, as much of it as is asked for and left.
fn given<'a>(setup: &'a Setup, position: u64, asked: u32) -> &'a [u8]
    ensures value { result.now ≡ given_at position (min asked (length setup.now.input - position)) setup.now }
    ensures len { length result.now ≡ min asked (length setup.now.input - position) }
    ensures fits { position + length result.now < 2 ^ 64 }
{
    let bytes = setup.input.as_slice();
    let from = bytes.len().min(position as usize);
    let left = &bytes[from..];
    &left[..left.len().min(asked as usize)]
}
