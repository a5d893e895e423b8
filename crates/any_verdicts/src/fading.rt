//! Bytes made undefined, or known, where they may be accessed.
ghost use Rattle.std.specs.Prelude.{◌≡◌, ◌+◌, ◌-◌, ◌^◌, ◌<◌, ◌≤◌, ◌&&◌, false, true, IfErr, IfOk, IfSome, None};
ghost use Rattle.std.specs.Option.{option_map};
ghost use Rattle.shadow_memory.specs.Ranges.{above, is_in};
ghost use Rattle.shadow_memory.specs.Shadows.{first_bad};
ghost use Rattle.shadow_memory.specs.declared.cells.Bad.{Bad};
ghost use Rattle.guest_machine.specs.Shows.{Shows};
ghost use Rattle.guest_machine.specs.State.{State};
ghost use Rattle.any_runs.specs.Secrets.{faded_at, known_at};
ghost use Rattle.any_verdicts.specs.Chosen.{given_in, has_address, has_position, is_revealed};

use crate::any_bytes::{Reveal, has_position};
use guest_machine::{Machine, Mark};
use run_values::Span;
use shadow_memory::RangeKind;
use std::alloc::AllocError;

/// Returns the first byte of a range that may not be accessed.
pub(crate) fn first_closed(machine: &Machine, start: u32, len: u32) -> Option<u32>
    ensures { (s : State) → Shows machine.now s → result ≡ option_map (λ (bad : Bad). bad.addr) (first_bad s.core.shadow start len false) }
{
    match machine.memory().first_bad(start, len, false) {
        Some(bad) => Some(bad.addr),
        None => None,
    }
}

/// Returns the machine with a range undefined, or its first byte that may not be accessed.
fn fade(machine: Machine, start: u32, len: u32) -> Result<Result<Machine, u32>, AllocError>
    ensures faded { IfOk result (λ r. IfOk r (λ m. (s : State) → Shows machine s → Shows m (faded_at (is_in start len) s))) }
    ensures closed { IfOk result (λ r. IfErr r (λ addr. (s : State) → Shows machine s → is_in start len addr ≡ true)) }
    ensures shut { IfOk result (λ r. IfErr r (λ addr. (s : State) → Shows machine s → (s.core.shadow addr).accessible ≡ false)) }
{
    if let Some(addr) = first_closed(&machine, start, len) {
        return Ok(Err(addr));
    }
    let mark = Mark {
        step: 0,
        addr: start,
        len,
        kind: RangeKind::Undefined,
    };
    Ok(Ok(machine.mark(&mark)?))
}

/// Returns the machine with a range defined, or its first byte that may not be accessed.
fn know(machine: Machine, start: u32, len: u32) -> Result<Result<Machine, u32>, AllocError>
    ensures known { IfOk result (λ r. IfOk r (λ m. (s : State) → Shows machine s → Shows m (known_at (is_in start len) s))) }
    ensures closed { IfOk result (λ r. IfErr r (λ addr. (s : State) → Shows machine s → is_in start len addr ≡ true)) }
    ensures shut { IfOk result (λ r. IfErr r (λ addr. (s : State) → Shows machine s → (s.core.shadow addr).accessible ≡ false)) }
{
    if let Some(addr) = first_closed(&machine, start, len) {
        return Ok(Err(addr));
    }
    let mark = Mark {
        step: 0,
        addr: start,
        len,
        kind: RangeKind::Defined,
    };
    Ok(Ok(machine.mark(&mark)?))
}

/// Returns the machine with some ranges undefined, or a byte of them that may not be accessed.
pub(crate) fn fade_all(machine: Machine, spans: &[Span]) -> Result<Result<Machine, u32>, AllocError>
    ensures faded { IfOk result (λ r. IfOk r (λ m. (s : State) → Shows machine s → Shows m (faded_at (has_address spans.now) s))) }
    ensures closed { IfOk result (λ r. IfErr r (λ addr. (s : State) → Shows machine s → has_address spans.now addr ≡ true)) }
    ensures shut { IfOk result (λ r. IfErr r (λ addr. (s : State) → Shows machine s → (s.core.shadow addr).accessible ≡ false)) }
{
    let mut machine = machine;
    for span in spans {
        machine = match fade(machine, span.start, span.len)? {
            Ok(faded) => faded,
            Err(addr) => return Ok(Err(addr)),
        };
    }
    Ok(Ok(machine))
}

/// Returns the machine with what is revealed just before a step defined, or a byte of that that may not be accessed.
pub(crate) fn know_all(
    machine: Machine,
    reveals: &[Reveal],
    step: u32,
) -> Result<Result<Machine, u32>, AllocError>
    ensures known { IfOk result (λ r. IfOk r (λ m. (s : State) → Shows machine s → Shows m (known_at (is_revealed reveals.now step) s))) }
    ensures closed { IfOk result (λ r. IfErr r (λ addr. (s : State) → Shows machine s → is_revealed reveals.now step addr ≡ true)) }
    ensures shut { IfOk result (λ r. IfErr r (λ addr. (s : State) → Shows machine s → (s.core.shadow addr).accessible ≡ false)) }
{
    let mut machine = machine;
    for reveal in reveals {
        if reveal.step == step {
            machine = match know(machine, reveal.span.start, reveal.span.len)? {
                Ok(known) => known,
                Err(addr) => return Ok(Err(addr)),
            };
        }
    }
    Ok(Ok(machine))
}

/// Returns the machine with the bytes undefined that come from some positions of the input, where as many from `from` on lie from an address
/// on; or the position of one that may not be accessed.
pub(crate) fn fade_given(
    machine: Machine,
    spans: &[Span],
    from: u64,
    count: u32,
    start: u32,
) -> Result<Result<Machine, u64>, AllocError>
    requires { from + count < 2 ^ 64 }
    ensures faded { IfOk result (λ r. IfOk r (λ m. (s : State) → Shows machine s → Shows m (faded_at (given_in spans.now from count start) s))) }
    ensures chosen { IfOk result (λ r. IfErr r (λ position. has_position spans.now position ≡ true)) }
    ensures low { IfOk result (λ r. IfErr r (λ position. from ≤ position)) }
    ensures high { IfOk result (λ r. IfErr r (λ position. position < from + count)) }
    ensures shut { IfOk result (λ r. IfErr r (λ position. (s : State) → Shows machine s → (s.core.shadow (above start (position - from))).accessible ≡ false)) }
{
    let mut machine = machine;
    for i in 0..count {
        let position = from + u64::from(i);
        if has_position(spans, position) {
            machine = match fade(machine, start.wrapping_add(i), 1)? {
                Ok(faded) => faded,
                Err(_addr) => return Ok(Err(position)),
            };
        }
    }
    Ok(Ok(machine))
}
