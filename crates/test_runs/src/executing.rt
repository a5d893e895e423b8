//! A run, its output and its report.
ghost use Rattle.std.specs.Prelude.{◌≡◌, ◌≤◌, ◌∷◌, ℕ, List, [], Bool, Option, true, false, IfErr, IfOk, IsTrue, ◌&&◌, not, take, if◌then◌else◌};
ghost use Rattle.std.specs.Io.KnownBytes.{Appends};
ghost use Rattle.guest_machine.specs.Shows.{Shows};
ghost use Rattle.replay_report.specs.Findings.{HasFindings};
ghost use Rattle.scenario.specs.Edits.{shown};
ghost use Rattle.scenario.specs.Scenario.{Scenario as TheScenario, chosen_state};
ghost use Rattle.test_runs.specs.Executions.{held, open_of, step_of, IsAt, WroteFront};
ghost use Rattle.exit_status.specs.declared.exec_ends.ExecEnd.TheVariants.{Early};
ghost use Rattle.test_runs.specs.Overflows.{KeepsStack};
ghost use Rattle.test_runs.specs.Executed.{Cuts, CutsOutput, Executes, Finishes, HasRest, HasRun, HasRunAll, IsFault, IsOutcome, IsTold, Tells, end_of_fault, ends_line, fails_at, is_stopped, limits_told, pipes, sight_in, told_at};

use crate::laws::moves_on;
use crate::watching::{Bounds, watch};
use crate::{Execution, ExecutionFault, Streams};
use exit_status::{ChosenStatuses, End, Ended, ExecEnd, Outcome};
use file_heaps::{Known, Sight};
use guest_machine::laws::{end_stays, keeps_front};
use guest_machine::{Machine, Status};
use line_protocol::send;
use program_files::read_stream;
use replay_report::has_findings;
use scenario::Scenario;
use std::alloc::{AllocError, Global};
use std::io::{Read, Write};
use suppressions::LeakKinds;
use unknown_calls::UnknownCall;

/// What the options choose that no file decides.
#[derive(Clone, Copy)]
pub(crate) struct Choices {
    /// The exit statuses.
    pub(crate) codes: ChosenStatuses,
    /// Which leaks count as errors.
    pub(crate) count: LeakKinds,
    /// Whether a report without findings is left out.
    pub(crate) quiet: bool,
    /// Whether a heap whose errors can't be found is a failure.
    pub(crate) requires_heap: bool,
    /// Whether the last line on standard error is ended before a report that goes elsewhere.
    pub(crate) end_line: bool,
    /// How many MiB of memory the run may need; 0 if there is no limit.
    pub(crate) limit: u32,
}

/// How a run is made and judged.
#[derive(Clone, Copy)]
pub(crate) struct Plan<'a> {
    /// Whether it waits for more input where it asks for more than there is.
    pub(crate) waits: bool,
    /// The exit statuses.
    pub(crate) codes: ChosenStatuses,
    /// Which leaks count as errors.
    pub(crate) count: LeakKinds,
    /// Whether a report without findings is left out.
    pub(crate) quiet: bool,
    /// Whether a heap whose errors can't be found is a failure.
    pub(crate) requires_heap: bool,
    /// Whether the last line on standard error is ended before a report that goes elsewhere.
    pub(crate) end_line: bool,
    /// How many MiB of memory the run may need; 0 if there is no limit.
    pub(crate) limit: u32,
    /// What the program's symbols tell of its heap.
    pub(crate) known: Known,
    /// The place of the report.
    pub(crate) place: Option<&'a str>,
}

/// How a run ends, and the calls of it that aren't known.
#[derive(Drop)]
pub(crate) struct Finished<'a> {
    /// How it ends.
    pub(crate) end: ExecEnd<'a>,
    /// The calls that aren't known.
    pub(crate) unknown: Vec<UnknownCall>,
}

/// Returns the kinds of leak in the order in which reports name them.
fn shown(kinds: LeakKinds) -> [bool; 4]
    ensures { result ≡ shown kinds }
{
    [
        kinds.definite,
        kinds.indirect,
        kinds.possible,
        kinds.reachable,
    ]
}

/// Returns whether a program has stopped.
fn is_stopped(status: Status) -> bool
    ensures { result ≡ is_stopped status }
{
    matches!(status, Status::Stopped(_))
}

/// Returns whether the machine at the last step has an error, or a leak of some kinds.
fn finds(
    alloc: Global,
    scenario: &Scenario,
    machine: &Machine,
    kinds: &[bool; 4],
) -> Result<bool, AllocError>
    ensures { IfOk result (λ found. Shows machine.now (chosen_state scenario.now)
        → HasFindings (chosen_state scenario.now) scenario.now.image scenario.now.rules scenario.now.options.callers kinds.now found) }
{
    let options = scenario.options();
    has_findings(
        alloc,
        machine,
        scenario.image(),
        scenario.suppressions(),
        options.callers,
        kinds,
    )
}

/// Returns whether the report at the last step tells something.
fn tells(alloc: Global, scenario: &Scenario, machine: &Machine) -> Result<bool, AllocError>
    ensures { IfOk result (λ told. Shows machine.now (chosen_state scenario.now) → Tells scenario.now told) }
{
    let found = finds(alloc, scenario, machine, &scenario.options().show)?;
    Ok(is_stopped(machine.status()) || found)
}

/// Returns the report at the last step, or nothing if it tells nothing and `quiet` is set.
fn report_of(
    alloc: Global,
    scenario: &Scenario,
    machine: &Machine,
    quiet: bool,
) -> Result<Vec<u8>, AllocError>
    ensures { IfOk result (λ text. Shows machine.now (chosen_state scenario.now) → IsTold quiet scenario.now text.items) }
{
    let mut text = Vec::new(alloc);
    if quiet {
        let told = tells(alloc, scenario, machine)?;
        if !told {
            return Ok(text);
        }
    }
    scenario.render(machine, &mut text)?;
    Ok(text)
}

/// Returns whether errors of the heap can be found in a run that has come to its last step.
fn sight_in(plan: Plan, machine: &Machine) -> Sight
    ensures { (sc : TheScenario) → Shows machine.now (chosen_state sc) → result ≡ sight_in plan.entry sc }
{
    plan.known.sight(machine.heap_calls() > 0)
}

/// Returns whether a heap that is seen so is a failure.
fn fails_at(plan: Plan, sight: Sight) -> bool
    ensures { result ≡ fails_at plan.entry sight }
{
    plan.requires_heap && sight.is_unseen()
}

/// Returns whether it is said how the heap is seen.
fn told_at(plan: Plan, sight: Sight) -> bool
    ensures { result ≡ told_at plan.entry sight }
{
    fails_at(plan, sight) || (!plan.quiet && !sight.is_seen())
}

/// Returns whether it is said that it matters how many bytes calls move.
fn limits_told(plan: Plan, matters: bool) -> bool
    ensures { result ≡ limits_told plan.entry matters }
{
    matters && !plan.quiet
}

/// Returns how a run stands at its last step, which it ends at for a reason.
fn outcome_of(
    alloc: Global,
    scenario: &Scenario,
    execution: &Execution,
    ended: Ended,
    plan: Plan,
    is_open: bool,
) -> Result<Outcome, AllocError>
    requires marks { scenario.now.marks ≡ [] }
    requires at { IsAt execution.now scenario.now }
    requires last { step_of execution.now ≡ scenario.now.step }
    ensures { IfOk result (IsOutcome scenario.now ended plan.entry is_open) }
{
    let machine = execution.machine();
    let has_errors = finds(alloc, scenario, machine, &shown(plan.count))?;
    let sight = sight_in(plan, machine);
    Ok(Outcome {
        step: scenario.step(),
        ended,
        status: machine.status(),
        idles: machine.is_idle(scenario.setup()),
        has_errors,
        lost: execution.refused(),
        limits: scenario.image().profile().limits,
        limits_told: limits_told(plan, execution.needs_limits()),
        heap_fails: fails_at(plan, sight),
        heap_told: told_at(plan, sight),
        is_open,
    })
}

/// Returns whether the program's last line on standard error is ended before a report.
fn ends_line(plan: Plan, is_open: bool, text: &[u8]) -> bool
    ensures { result ≡ ends_line plan.entry is_open text.now }
{
    is_open && !text.is_empty() && (plan.place.is_none() || plan.end_line)
}

/// Returns whether a line is still open, if it was and was ended or not.
fn stays_open(was_open: bool, ends: bool) -> bool
    ensures { result ≡ (was_open && not ends) }
{
    was_open && !ends
}

/// Ends the program's last line on standard error, if that is asked for. Returns whether it could.
fn end_line<E: Write>(ends: bool, err: &mut E) -> bool
    ensures whole { IsTrue result → Appends (E.contents err.old) (E.contents err.new) (if ends then 10 ∷ [] else []) }
    ensures cut { result ≡ false → (sent : ℕ) × Appends (E.contents err.old) (E.contents err.new) (take sent (10 ∷ [])) }
{
    if !ends {
        return true;
    }
    send(err, b"\n").whole
}

/// Writes the report of a run that has come to its last step, on a line of its own, and returns how the program ends.
fn finish<'a, E: Write, L: Write>(
    alloc: Global,
    scenario: &Scenario,
    execution: &Execution,
    ended: Ended,
    plan: Plan<'a>,
    err: &mut E,
    log: &mut L,
) -> ExecEnd<'a>
    requires marks { scenario.now.marks ≡ [] }
    requires at { IsAt execution.now scenario.now }
    requires last { step_of execution.now ≡ scenario.now.step }
    ensures { (line : List ℕ) × Appends (E.contents err.old) (E.contents err.new) line
        × Finishes plan.entry scenario.now ended line (L.contents log.old) (L.contents log.new) result }
{
    let Ok(text) = report_of(alloc, scenario, execution.machine(), plan.quiet) else {
        return ExecEnd::Early(End::NoMemory);
    };
    let was_open = execution.is_open();
    let ends = ends_line(plan, was_open, &text);
    let is_open = stays_open(was_open, ends);
    let Ok(outcome) = outcome_of(alloc, scenario, execution, ended, plan, is_open) else {
        return ExecEnd::Early(End::NoMemory);
    };
    if !end_line(ends, err) {
        return ExecEnd::Early(End::CannotWrite);
    }
    if send(log, &text).whole {
        ExecEnd::Ran(plan.codes, outcome)
    } else {
        ExecEnd::NoReport(plan.place)
    }
}

/// Returns how the program ends after a fault of the run.
fn end_of<'a>(fault: ExecutionFault) -> ExecEnd<'a>
    ensures { result ≡ Early (end_of_fault fault) }
{
    match fault {
        ExecutionFault::NoMemory => ExecEnd::Early(End::NoMemory),
        ExecutionFault::WriteFailed => ExecEnd::Early(End::CannotWrite),
    }
}

/// Makes the run up to its end, or up to a step that asks for more input than there is, if it may wait for that. Returns why it ends, if it
/// does.
fn run_first<'a, O: Write, E: Write>(
    alloc: Global,
    scenario: &mut Scenario,
    bounds: Bounds,
    streams: &mut Streams<O, E>,
) -> Result<(Execution, Option<Ended>), ExecEnd<'a>>
    requires { scenario.old.marks ≡ [] }
    ensures same { scenario.new ≡ scenario.old }
    ensures ok { IfOk result (λ r. HasRun bounds.waits bounds.limit scenario.old (held (O.contents streams.old.out) (E.contents streams.old.err))
        (held (O.contents streams.new.out) (E.contents streams.new.err)) r.0 r.1) }
    ensures err { IfErr result (λ end. IsFault end × CutsOutput scenario.old (held (O.contents streams.old.out) (E.contents streams.old.err))
        (held (O.contents streams.new.out) (E.contents streams.new.err))) }
{
    let Ok(execution) = Execution::begin(alloc, scenario) else {
        return Err(ExecEnd::Early(End::NoMemory));
    };
    match watch(alloc, scenario, execution, bounds, streams) {
        Ok(watched) => Ok(watched),
        Err(fault) => Err(end_of(fault)),
    }
}

/// Makes the rest of a run that has stopped for its input. Returns why it ends.
fn run_rest<'a, O: Write, E: Write>(
    alloc: Global,
    scenario: &mut Scenario,
    execution: Execution,
    limit: u32,
    streams: &mut Streams<O, E>,
) -> Result<(Execution, Ended), ExecEnd<'a>>
    requires at { IsAt execution scenario.old }
    requires within { step_of execution ≤ scenario.old.step }
    requires kept { KeepsStack scenario.old (step_of execution) }
    ensures same { scenario.new ≡ scenario.old }
    ensures ok { IfOk result (λ r. HasRest limit scenario.old (step_of execution) (held (O.contents streams.old.out) (E.contents streams.old.err))
        (held (O.contents streams.new.out) (E.contents streams.new.err)) r.0 r.1) }
    ensures err { IfErr result (λ end. IsFault end × WroteFront scenario.old (step_of execution) (held (O.contents streams.old.out) (E.contents streams.old.err))
        (held (O.contents streams.new.out) (E.contents streams.new.err))) }
{
    let bounds = Bounds {
        waits: false,
        limit,
    };
    match watch(alloc, scenario, execution, bounds, streams) {
        Ok((execution, ended)) => {
            let Some(ended) = ended else { unreachable!() };
            Ok((execution, ended))
        }
        Err(fault) => Err(end_of(fault)),
    }
}

/// Makes the run, with standard input if it asks for it, and chooses the step that it ends at. Returns why it ends there.
fn run_all<'a, R: Read, O: Write, E: Write>(
    alloc: Global,
    scenario: &mut Scenario,
    bounds: Bounds,
    reader: &mut R,
    streams: &mut Streams<O, E>,
) -> Result<(Execution, Ended), ExecEnd<'a>>
    requires marks { scenario.old.marks ≡ [] }
    requires empty { bounds.waits ≡ true → scenario.old.setup.input ≡ [] }
    ensures ok { IfOk result (λ r. HasRunAll bounds.waits bounds.limit scenario.old scenario.new
        (R.remaining reader.old) (R.remaining reader.new) (held (O.contents streams.old.out) (E.contents streams.old.err))
        (held (O.contents streams.new.out) (E.contents streams.new.err)) r.0 r.1) }
    ensures err { IfErr result (Cuts bounds.waits scenario.old (R.remaining reader.old) (held (O.contents streams.old.out) (E.contents streams.old.err))
        (held (O.contents streams.new.out) (E.contents streams.new.err))) }
{
    moves_on();
    keeps_front();
    end_stays();
    let (execution, ended) = run_first(alloc, scenario, bounds, streams)?;
    if let Some(ended) = ended {
        scenario.choose(execution.at());
        return Ok((execution, ended));
    }
    let input = read_stream(alloc, reader)?;
    scenario.give(input);
    let (execution, ended) = run_rest(alloc, scenario, execution, bounds.limit, streams)?;
    scenario.choose(execution.at());
    Ok((execution, ended))
}

/// Makes the run of a scenario, and writes its output, and its report to a place.
pub(crate) fn execute<'a, R: Read, O: Write, E: Write, L: Write>(
    alloc: Global,
    scenario: &mut Scenario,
    plan: Plan<'a>,
    reader: &mut R,
    streams: &mut Streams<O, E>,
    log: &mut L,
) -> Finished<'a>
    requires marks { scenario.old.marks ≡ [] }
    requires empty { plan.waits ≡ true → scenario.old.setup.input ≡ [] }
    ensures { (opened : Option (Option (List ℕ))) → Executes plan.entry scenario.old
        (pipes (R.remaining reader.old) (held (O.contents streams.old.out) (E.contents streams.old.err)) (L.contents log.old) opened)
        (pipes (R.remaining reader.new) (held (O.contents streams.new.out) (E.contents streams.new.err)) (L.contents log.new) opened)
        result.end result.unknown.items }
{
    let bounds = Bounds {
        waits: plan.waits,
        limit: plan.limit,
    };
    match run_all(alloc, scenario, bounds, reader, streams) {
        Ok((execution, ended)) => {
            let end = finish(
                alloc,
                scenario,
                &execution,
                ended,
                plan,
                &mut streams.err,
                log,
            );
            let unknown = execution.into_unknown();
            Finished { end, unknown }
        }
        Err(end) => Finished {
            end,
            unknown: Vec::new(alloc),
        },
    }
}
