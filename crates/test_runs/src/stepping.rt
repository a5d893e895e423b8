//! One step of a machine, and what it writes out.
ghost use Rattle.std.specs.Prelude.{◌≡◌, ◌⊎◌, IfOk, None};
ghost use Rattle.guest_machine.specs.Exec.{exec};
ghost use Rattle.guest_machine.specs.Shows.{Shows};
ghost use Rattle.guest_machine.specs.State.{State};
ghost use Rattle.guest_machine.specs.Streams.{bytes_over};
ghost use Rattle.test_runs.specs.Executions.{piece_of};

use guest_machine::laws::writes_what_it_reads;
use guest_machine::{Machine, Span};
use scenario::Scenario;
use std::alloc::AllocError;

/// Returns the range of the bytes that a step writes out: the one that it reads, if the output is longer after it.
fn piece_range(before: u64, after: u64, reads: Option<Span>) -> Option<Span>
    ensures { ((after ≡ before) × (result ≡ None)) ⊎ ((after ≡ before → ⊥) × (result ≡ reads)) }
{
    if after == before { None } else { reads }
}

/// Makes one step of a machine. Returns the machine after it, and the range of what the step writes out, in the memory after it.
pub(crate) fn step_of_machine(
    machine: Machine,
    scenario: &Scenario,
) -> Result<(Machine, Option<Span>), AllocError>
    ensures shows { IfOk result (λ r. (s : State) → Shows machine s → Shows r.0 (exec s scenario.now.setup)) }
    ensures piece { IfOk result (λ r. (s : State) → Shows machine s → piece_of s scenario.now.setup ≡ bytes_over (exec s scenario.now.setup).bytes r.1) }
{
    writes_what_it_reads();
    let written = machine.output_len();
    let (machine, touched) = machine.step_on(scenario.setup())?;
    let range = piece_range(written, machine.output_len(), touched.reads);
    Ok((machine, range))
}
