//! A run that is looked at now and then, and ends where its stack overflows or where it needs more memory than it may have.
ghost use Rattle.std.specs.Prelude.{◌≡◌, ◌≤◌, ◌<◌, IfErr, IfOk, IsTrue, MatchOption, false, is_some, suc, true};
ghost use Rattle.std.specs.List.{list_any};
ghost use Rattle.guest_elf.specs.Images.{loaded_at};
ghost use Rattle.guest_elf.specs.Segments.{has_address};
ghost use Rattle.guest_machine.specs.Exec.{is_running};
ghost use Rattle.guest_machine.specs.Shows.{Shows};
ghost use Rattle.guest_machine.specs.State.{State};
ghost use Rattle.test_runs.specs.Executions.{held, step_of, IsAt, WroteFront};
ghost use Rattle.test_runs.specs.Overflows.{Finds, IsKept, IsLeg, IsWatched, KeepsStack, is_below, is_of_heap, is_past, overflows, pointer_of};

use crate::{Execution, ExecutionFault, Streams};
use exit_status::Ended;
use guest_elf::{Image, Segment};
use guest_machine::Machine;
use guest_machine::laws::stays_at_rest;
use instructions::Register;
use memory_map::{HEAP_SIZE, Regions};
use run_values::Status;
use scenario::Scenario;
use std::alloc::Global;
use std::io::Write;

/// What a run may do.
#[derive(Clone, Copy)]
pub(crate) struct Bounds {
    /// Whether it waits for more input where it asks for more than there is.
    pub(crate) waits: bool,
    /// How many MiB of memory it may need; 0 if there is no limit.
    pub(crate) limit: u32,
}

/// How many steps are between two looks.
const APART: u32 = 65_536;
/// How far below its region a stack that overflows is found.
const MOST_BELOW: u32 = 0x0400_0000;
/// How many bytes a page that is kept is taken to need.
const PAGE_COST: u64 = 5_000;
/// How many bytes a block is taken to need.
const BLOCK_COST: u64 = 1_500;
/// The number of bytes in a MiB.
const MIB: u64 = 1 << 20;
/// The number of the stack pointer, x2.
const STACK_POINTER: u8 = 2;

/// Returns whether an address is below the stack's region, and no further than a stack that overflows is found.
fn is_below(regions: Regions, address: u32) -> bool
    ensures { result ≡ is_below regions address }
{
    let begin = regions.stack().begin;
    address < begin && begin - address <= MOST_BELOW
}

/// Returns whether an address is of the heap's region.
fn is_of_heap(regions: Regions, address: u32) -> bool
    ensures { result ≡ is_of_heap regions address }
{
    let begin = regions.heap_begin();
    begin <= address && address - begin < HEAP_SIZE
}

/// Returns whether an address is in one of some segments.
fn has_any(segments: &[Segment], address: u32) -> bool
    ensures { result ≡ list_any (λ segment. has_address segment address) segments.now }
{
    segments.iter().any(|segment| segment.has(address))
}

/// Returns whether an address is of what a program loads.
fn is_loaded(image: &Image, address: u32) -> bool
    ensures { result ≡ is_some (loaded_at image.now address) }
{
    has_any(image.segments(), address)
}

/// Returns whether a stack pointer is one of the stack that has run out of its region.
fn is_past(image: &Image, address: u32) -> bool
    ensures { result ≡ is_past image.now address }
{
    let regions = image.profile().regions;
    is_below(regions, address) && !is_of_heap(regions, address) && !is_loaded(image, address)
}

/// Returns the stack pointer of a machine whose stack overflows; nothing of another one.
#[tactic(auto, unfolding(crate::specs::Overflows::overflows))]
fn overflow_of(image: &Image, machine: &Machine) -> Option<u32>
    ensures { MatchOption result ((s : State) → Shows machine.now s → overflows image.now s ≡ false)
        (λ pointer. (s : State) → Shows machine.now s → (overflows image.now s ≡ true) × (pointer ≡ (pointer_of s).value)) }
{
    let pointer = machine.register(Register::new(STACK_POINTER));
    let runs = matches!(machine.status(), Status::Running);
    if runs && pointer.undef == 0 && is_past(image, pointer.value) {
        Some(pointer.value)
    } else {
        None
    }
}

/// Returns how many bytes a machine is taken to need: for the pages of its memory that are kept, and its live and queued blocks.
fn needed(machine: &Machine) -> u64 {
    let pages = u64::from(machine.memory().kept_pages());
    let blocks = machine.heap().kept_blocks();
    (pages * PAGE_COST).saturating_add(blocks.saturating_mul(BLOCK_COST))
}

/// Returns whether a machine runs and needs more memory than it may have, in MiB; if there is a limit.
fn is_over(machine: &Machine, limit: u32) -> bool
    ensures limited { IsTrue result → limit ≡ 0 → ⊥ }
    ensures runs { IsTrue result → (s : State) → Shows machine.now s → is_running s.core.status ≡ true }
{
    let most = u64::from(limit) * MIB;
    limit > 0 && matches!(machine.status(), Status::Running) && needed(machine) > most
}

/// Returns why a run ends at the step that an execution of it is at, if it does.
fn found_at(scenario: &Scenario, execution: &Execution, limit: u32) -> Option<Ended>
    requires { IsAt execution.now scenario.now }
    ensures { MatchOption result ((step_of execution.now ≡ scenario.now.step → ⊥) × IsKept scenario.now (step_of execution.now))
        (Finds scenario.now limit (step_of execution.now)) }
{
    let at = execution.at();
    let machine = execution.machine();
    if at % APART == 0 {
        if let Some(pointer) = overflow_of(scenario.image(), machine) {
            return Some(Ended::Overflow(pointer));
        }
        if is_over(machine, limit) {
            return Some(Ended::OverLimit(limit));
        }
    }
    if at == scenario.step() {
        Some(Ended::AtLast)
    } else {
        None
    }
}

/// Returns the step of the next look, or the last one: if a machine rests there is nothing new to find.
fn next_look(scenario: &Scenario, execution: &Execution) -> u32
    requires at { IsAt execution.now scenario.now }
    requires before { step_of execution.now < scenario.now.step }
    requires kept { KeepsStack scenario.now (suc (step_of execution.now)) }
    ensures after { step_of execution.now < result }
    ensures within { result ≤ scenario.now.step }
    ensures kept { KeepsStack scenario.now result }
{
    stays_at_rest();
    let at = execution.at();
    let last = scenario.step();
    let past = at % APART;
    if past == 0 && execution.machine().rests(scenario.setup()) {
        return last;
    }
    at + (APART - past).min(last - at)
}

/// Runs to the next look, or, if it may wait, up to a step that asks for more input than there is. Returns whether it goes on.
fn run_leg<O: Write, E: Write>(
    alloc: Global,
    scenario: &mut Scenario,
    execution: Execution,
    waits: bool,
    streams: &mut Streams<O, E>,
) -> Result<(Execution, bool), ExecutionFault>
    requires at { IsAt execution scenario.old }
    requires before { step_of execution < scenario.old.step }
    requires kept { KeepsStack scenario.old (suc (step_of execution)) }
    ensures same { scenario.new ≡ scenario.old }
    ensures ok { IfOk result (λ r. IsLeg scenario.old waits (step_of execution) (held (O.contents streams.old.out) (E.contents streams.old.err))
        (held (O.contents streams.new.out) (E.contents streams.new.err)) r.0 r.1) }
    ensures err { IfErr result (λ fault. WroteFront scenario.old (step_of execution) (held (O.contents streams.old.out) (E.contents streams.old.err))
        (held (O.contents streams.new.out) (E.contents streams.new.err))) }
{
    let last = scenario.step();
    let next = next_look(scenario, &execution);
    scenario.choose(next);
    let run = execution.run(alloc, scenario, waits, streams);
    scenario.choose(last);
    let execution = run?;
    let goes_on = execution.at() == next;
    Ok((execution, goes_on))
}

/// Runs a scenario to its end, or, if it may wait, up to a step that asks for more input than there is. Returns why it ends, if it does.
pub(crate) fn watch<O: Write, E: Write>(
    alloc: Global,
    scenario: &mut Scenario,
    execution: Execution,
    bounds: Bounds,
    streams: &mut Streams<O, E>,
) -> Result<(Execution, Option<Ended>), ExecutionFault>
    requires at { IsAt execution scenario.old }
    requires within { step_of execution ≤ scenario.old.step }
    requires kept { KeepsStack scenario.old (step_of execution) }
    ensures same { scenario.new ≡ scenario.old }
    ensures ok { IfOk result (λ r. IsWatched scenario.old bounds.waits bounds.limit (step_of execution) (held (O.contents streams.old.out) (E.contents streams.old.err))
        (held (O.contents streams.new.out) (E.contents streams.new.err)) r.0 r.1) }
    ensures err { IfErr result (λ fault. WroteFront scenario.old (step_of execution) (held (O.contents streams.old.out) (E.contents streams.old.err))
        (held (O.contents streams.new.out) (E.contents streams.new.err))) }
{
    let mut execution = execution;
    loop {
        if let Some(ended) = found_at(scenario, &execution, bounds.limit) {
            return Ok((execution, Some(ended)));
        }
        let (next, goes_on) = run_leg(alloc, scenario, execution, bounds.waits, streams)?;
        execution = next;
        if !goes_on {
            return Ok((execution, None));
        }
    }
}
