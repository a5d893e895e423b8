//! The verdict on a run for every value of some bytes.
ghost use Rattle.std.specs.Prelude.{◌≡◌, ◌<◌, ◌≤◌, ◌-◌, ◌==◌, Bool, IfErr, IfOk, IfSome, None, ℕ};
ghost use Rattle.guest_elf.specs.declared.image.Image.{Image as ImageOf};
ghost use Rattle.guest_machine.specs.Registers.{register};
ghost use Rattle.guest_machine.specs.Shows.{Shows};
ghost use Rattle.guest_machine.specs.State.{State};
ghost use Rattle.clean_reports.specs.Agreement.{AreBytes};
ghost use Rattle.clean_reports.specs.Disturbed.{HasBytes, IsStartOf};
ghost use Rattle.clean_reports.specs.Uses.{NoUse};
ghost use Rattle.any_runs.specs.Echoes.{kept};
ghost use Rattle.any_runs.specs.Inputs.{blurred, is_given};
ghost use Rattle.any_runs.specs.Secrets.{faded_at, known_at};
ghost use Rattle.any_verdicts.specs.Chosen.{has_position, is_revealed, secrets_of};
ghost use Rattle.any_verdicts.specs.Verdicts.{AllOthersAreSame, FailsAt, FailsBefore, IsAnyVerdict, IsFault, IsFitStep, IsOpen, IsShutAt};

use crate::any_bytes::AnyBytes;
use crate::fading::{fade_all, fade_given, first_closed, know_all};
use crate::uses::first_kept_use;
use crate::verdict::{AnyVerdict, Closed};
use clean_reports::{FirstUse, has_ended};
use guest_machine::{Machine, Meter, Setup, Touched};
use instructions::Register;
use run_values::Span;
use std::alloc::AllocError;

/// Returns what of a machine's errors, or of what its last step read, is in the way.
fn fault_of(machine: &Machine, touched: &Touched, step: u32) -> Option<AnyVerdict>
    ensures kept { result ≡ None → (s : State) → Shows machine.now s → NoUse (kept s.events) }
    ensures opened { result ≡ None → (s : State) → Shows machine.now s → IsOpen s touched.now.reads }
    ensures fault { IfSome result (λ verdict. (s : State) → Shows machine.now s → IsFault s touched.now.reads step verdict) }
{
    if let Some(group) = first_kept_use(machine.groups()) {
        return Some(AnyVerdict::Use(FirstUse {
            step,
            kind: group.kind,
            trace: group.trace,
        }));
    }
    match touched.reads {
        Some(span) if first_closed(machine, span.start, span.len).is_some() => {
            Some(AnyVerdict::Write(step))
        }
        _ => None,
    }
}

/// Returns whether the stack pointer has no undefined bit.
fn has_stack_pointer(machine: &Machine) -> bool
    ensures { (s : State) → Shows machine.now s → result ≡ (register s.core 2).undef == 0 }
{
    machine.register(Register::new(2)).undef == 0
}

/// Returns the machine after a step with the bytes undefined that the step has read and that may be any, by the position in the input before
/// the step and what the step wrote. A step reads fewer than 2^32 bytes; as no clause says so, more are reported as out of memory.
fn fade_read(
    after: Machine,
    bytes: &AnyBytes,
    from: u64,
    writes: Option<Span>,
    step: u32,
) -> Result<Result<Machine, AnyVerdict>, AllocError>
    ensures faded { IfOk result (λ r. IfOk r (λ m. (s : State) → Shows after s
        → Shows m (faded_at (is_given (has_position bytes.now.input.items) from (s.position - from) writes) s))) }
    ensures shut { IfOk result (λ r. IfErr r (λ verdict. (s : State) → Shows after s
        → IsShutAt (has_position bytes.now.input.items) s from writes step verdict)) }
{
    match writes {
        Some(span) => {
            let Ok(count) = u32::try_from(after.position().saturating_sub(from)) else {
                return Err(AllocError);
            };
            match fade_given(after, &bytes.input, from, count, span.start)? {
                Ok(faded) => Ok(Ok(faded)),
                Err(position) => Ok(Err(AnyVerdict::Closed(Closed::Input { step, position }))),
            }
        }
        None => Ok(Ok(after)),
    }
}

/// Executes a step, after which the bytes of the input that it read and that may be any are undefined; or returns what is in the way.
fn step_any(
    machine: Machine,
    setup: &Setup,
    bytes: &AnyBytes,
    step: u32,
) -> Result<Result<Machine, AnyVerdict>, AllocError>
    ensures next { IfOk result (λ r. IfOk r (λ m. (s : State) → Shows machine s
        → Shows m (blurred (has_position bytes.now.input.items) s setup.now))) }
    ensures fit { IfOk result (λ r. IfOk r (λ m. (s : State) → Shows machine s → IsFitStep s setup.now)) }
    ensures fails { IfOk result (λ r. IfErr r (λ verdict. (s : State) → Shows machine s
        → FailsAt (has_position bytes.now.input.items) s setup.now step verdict)) }
{
    let from = machine.position();
    let begins = has_stack_pointer(&machine);
    let (after, touched) = machine.step(setup, &mut Meter::new())?;
    if after.has_raised() {
        if let Some(verdict) = fault_of(&after, &touched, step) {
            return Ok(Err(verdict));
        }
    }
    if !begins || !has_stack_pointer(&after) {
        return Ok(Err(AnyVerdict::StackPointer(step)));
    }
    fade_read(after, bytes, from, touched.writes, step)
}

/// Makes a step of the run, after what is revealed just before it.
fn visit(
    machine: Machine,
    setup: &Setup,
    bytes: &AnyBytes,
    step: u32,
) -> Result<Result<Machine, AnyVerdict>, AllocError>
    ensures next { IfOk result (λ r. IfOk r (λ m. (s : State) → Shows machine s
        → Shows m (blurred (has_position bytes.now.input.items) (known_at (is_revealed bytes.now.revealed.items step) s) setup.now))) }
    ensures fit { IfOk result (λ r. IfOk r (λ m. (s : State) → Shows machine s
        → IsFitStep (known_at (is_revealed bytes.now.revealed.items step) s) setup.now)) }
    ensures fails { IfOk result (λ r. IfErr r (λ verdict. (s : State) → Shows machine s
        → FailsBefore (secrets_of bytes.now) s setup.now step verdict)) }
{
    match know_all(machine, &bytes.revealed, step)? {
        Ok(known) => step_any(known, setup, bytes, step),
        Err(addr) => Ok(Err(AnyVerdict::Closed(Closed::Revealed { step, addr }))),
    }
}

/// Makes the run from a machine up to a step, and returns the verdict on it.
fn run_any(
    machine: Machine,
    setup: &Setup,
    bytes: &AnyBytes,
    steps: u32,
) -> Result<AnyVerdict, AllocError>
    ensures verdict { IfOk result (λ verdict. (start : State) → Shows machine start → NoUse (kept start.events)
        → IsAnyVerdict (secrets_of bytes.now) start setup.now steps verdict) }
{
    let mut machine = match fade_all(machine, &bytes.memory)? {
        Ok(faded) => faded,
        Err(addr) => return Ok(AnyVerdict::Closed(Closed::Memory(addr))),
    };
    for step in 0..steps {
        machine = match visit(machine, setup, bytes, step)? {
            Ok(next) => next,
            Err(verdict) => return Ok(verdict),
        };
    }
    match know_all(machine, &bytes.revealed, steps)? {
        Ok(last) => Ok(AnyVerdict::Same {
            ended: has_ended(&last, setup),
            read: last.position(),
        }),
        Err(addr) => Ok(AnyVerdict::Closed(Closed::Revealed { step: steps, addr })),
    }
}

/// Returns the verdict on the run from a machine up to a step, for every value of some bytes. Makes each step once.
///
/// If the verdict is [`AnyVerdict::Same`], each other run of the program is the same (`IsSame`): one whose input and memory differ at most in
/// these bytes, and in which what is revealed is the same and defined (`IsAnother`).
pub fn certify_any(
    machine: Machine,
    setup: &Setup,
    bytes: &AnyBytes,
    steps: u32,
) -> Result<AnyVerdict, AllocError>
    ensures verdict { IfOk result (λ verdict. (start : State) → Shows machine start → NoUse (kept start.events)
        → IsAnyVerdict (secrets_of bytes.now) start setup.now steps verdict) }
    ensures same { IfOk result (λ verdict. (ended : Bool) (read : ℕ) → verdict ≡ AnyVerdict.Same ended read → (image : ImageOf) (start : State)
        → Shows machine start → IsStartOf image start → AreBytes start.bytes → HasBytes setup.now → AllOthersAreSame (secrets_of bytes.now) start setup.now steps) }
{
    run_any(machine, setup, bytes, steps)
}
