//! An order for `exec` is followed: options and files are judged, and then the run is made.
ghost use Rattle.std.specs.Prelude.{◌≡◌, ℕ, List, [], Option, None, Some, Bool, true, IfErr, IfOk, is_some, option_map};
ghost use Rattle.test_runs.specs.Executions.{held};
ghost use Rattle.unknown_calls.specs.declared.UnknownCall.{UnknownCall};
ghost use Rattle.test_runs.specs.Executed.{Executed, IsChoice, NoChoice, WithScenario, is_path, is_read, names_in, pipes, requires_heap};

use crate::Streams;
use crate::executing::{Choices, Finished, Plan, execute};
use crate::log::Log;
use crate::preparing::{kinds_of, prepare};
use command_line::{ExecArgs, Order};
use exit_status::{ChosenStatuses, End, ExecDone, ExecEnd};
use file_heaps::FileHeap;
use guest_elf::read_for;
use program_files::{Files, MOST_READ, profile_named, read_front};
use scenario::Scenario;
use std::alloc::Global;
use std::io::{Read, Write};
use suppressions::LeakKinds;

/// Returns whether a path is one of those that an order reads.
fn is_read(order: &Order, path: &str) -> bool
    ensures { result ≡ is_read order.now path.now }
{
    path == order.file || is_path(path, order.input) || is_path(path, order.suppressions)
}

/// Returns whether a path is another one, if there is one.
fn is_path(path: &str, other: Option<&str>) -> bool
    ensures { result ≡ is_path path.now (option_map (λ other. other.now) other.entry) }
{
    match other {
        Some(other) => path == other,
        None => false,
    }
}

/// Returns whether a heap whose errors can't be found is a failure.
fn requires_heap(asked: &ExecArgs) -> bool
    ensures { result ≡ requires_heap asked.now }
{
    asked.require_heap || (asked.error_exitcode.is_some() && !asked.no_require_heap)
}

/// Returns the names of functions that aren't a heap's.
fn names_in<'a>(names: Option<&'a str>) -> &'a [u8]
    ensures { result.now ≡ names_in names.entry }
{
    match names {
        Some(names) => names.as_bytes(),
        None => &[],
    }
}

/// Judges the options that no file decides: the lists of leak kinds, and the file of the report.
fn choices_of<'a>(
    order: &Order<'a>,
    asked: &ExecArgs<'a>,
) -> Result<(LeakKinds, Choices), ExecEnd<'a>>
    ensures ok { IfOk result (λ r. IsChoice asked.now r.0 r.1) }
    ensures err { IfErr result (NoChoice order.now asked.now) }
{
    let show = kinds_of(asked.show)?;
    let count = kinds_of(asked.count)?;
    if let Some(path) = asked.report {
        if is_read(order, path) {
            return Err(ExecEnd::ReportInPlace(path));
        }
    }
    let codes = ChosenStatuses {
        errors: asked.error_exitcode,
        idle: asked.idle_exitcode,
    };
    let quiet = asked.quiet;
    let requires_heap = requires_heap(asked);
    let end_line = asked.end_line;
    let limit = asked.memory_limit;
    Ok((
        show,
        Choices {
            codes,
            count,
            quiet,
            requires_heap,
            end_line,
            limit,
        },
    ))
}

/// Opens the place of the report, and makes the run of a scenario.
fn open_and_execute<'a, R: Read, O: Write, E: Write, L: Log>(
    alloc: Global,
    scenario: &mut Scenario,
    plan: Plan<'a>,
    reader: &mut R,
    streams: &mut Streams<O, E>,
    log: &mut L,
) -> Finished<'a>
    requires marks { scenario.old.marks ≡ [] }
    requires empty { plan.waits ≡ true → scenario.old.setup.input ≡ [] }
    requires unopened { L.place log.old ≡ None }
    ensures { WithScenario (λ place logged. (opened : L) × (L.place opened ≡ Some place) × (L.contents opened ≡ logged))
        plan.entry scenario.old
        (pipes (R.remaining reader.old) (held (O.contents streams.old.out) (E.contents streams.old.err)) (L.contents log.old) (L.place log.old))
        (pipes (R.remaining reader.new) (held (O.contents streams.new.out) (E.contents streams.new.err)) (L.contents log.new) (L.place log.new))
        result.end result.unknown.items }
{
    if !log.open(plan.place) {
        return Finished {
            end: ExecEnd::NoReport(plan.place),
            unknown: Vec::new(alloc),
        };
    }
    execute(alloc, scenario, plan, reader, streams, log)
}

/// Follows an order for `exec`: its options are judged, then its files, each before the next is read, and the run is made.
fn try_exec<'a, F: Files, R: Read, O: Write, E: Write, L: Log>(
    alloc: Global,
    order: &Order<'a>,
    asked: &ExecArgs<'a>,
    files: &F,
    reader: &mut R,
    streams: &mut Streams<O, E>,
    log: &mut L,
) -> Result<ExecDone<'a>, ExecEnd<'a>>
    requires unopened { L.place log.old ≡ None }
    ensures ok { IfOk result (λ done. Executed (F.gives files.now)
        (λ place logged. (opened : L) × (L.place opened ≡ Some place) × (L.contents opened ≡ logged)) order.now asked.now
        (pipes (R.remaining reader.old) (held (O.contents streams.old.out) (E.contents streams.old.err)) (L.contents log.old) (L.place log.old))
        (pipes (R.remaining reader.new) (held (O.contents streams.new.out) (E.contents streams.new.err)) (L.contents log.new) (L.place log.new))
        done.end done.names.items done.unknown.items) }
    ensures file { IfOk result (λ done. done.file ≡ order.now.file) }
    ensures err { IfErr result (λ end. (names : List ℕ) (unknown : List UnknownCall) → Executed (F.gives files.now)
        (λ place logged. (opened : L) × (L.place opened ≡ Some place) × (L.contents opened ≡ logged)) order.now asked.now
        (pipes (R.remaining reader.old) (held (O.contents streams.old.out) (E.contents streams.old.err)) (L.contents log.old) (L.place log.old))
        (pipes (R.remaining reader.new) (held (O.contents streams.new.out) (E.contents streams.new.err)) (L.contents log.new) (L.place log.new)) end names unknown) }
{
    let (show, choices) = choices_of(order, asked)?;
    let profile = profile_named(order.profile)?;
    let file = read_front(alloc, files, order.file, MOST_READ)?;
    let image = read_for(alloc, &file, profile)?;
    let Ok(heap) = FileHeap::read(alloc, &file, names_in(asked.not_heap)) else {
        return Err(ExecEnd::Early(End::NoMemory));
    };
    let mut scenario = prepare(alloc, image, order, asked, show, files)?;
    let waits = order.input.is_none();
    let plan = Plan {
        waits,
        codes: choices.codes,
        count: choices.count,
        quiet: choices.quiet,
        requires_heap: choices.requires_heap,
        end_line: choices.end_line,
        limit: choices.limit,
        known: heap.known,
        place: asked.report,
    };
    let ended = open_and_execute(alloc, &mut scenario, plan, reader, streams, log);
    Ok(ExecDone {
        end: ended.end,
        file: order.file,
        names: heap.names,
        unknown: ended.unknown,
    })
}

/// Follows an order for `exec`, and returns how the program ends.
pub fn exec_order<'a, F: Files, R: Read, O: Write, E: Write, L: Log>(
    alloc: Global,
    order: &Order<'a>,
    asked: &ExecArgs<'a>,
    files: &F,
    reader: &mut R,
    streams: &mut Streams<O, E>,
    log: &mut L,
) -> ExecDone<'a>
    requires unopened { L.place log.old ≡ None }
    ensures done { Executed (F.gives files.now)
        (λ place logged. (opened : L) × (L.place opened ≡ Some place) × (L.contents opened ≡ logged)) order.now asked.now
        (pipes (R.remaining reader.old) (held (O.contents streams.old.out) (E.contents streams.old.err)) (L.contents log.old) (L.place log.old))
        (pipes (R.remaining reader.new) (held (O.contents streams.new.out) (E.contents streams.new.err)) (L.contents log.new) (L.place log.new))
        result.end result.names.items result.unknown.items }
    ensures file { result.file.now ≡ order.now.file.now }
{
    match try_exec(alloc, order, asked, files, reader, streams, log) {
        Ok(done) => done,
        Err(end) => ExecDone {
            end,
            file: order.file,
            names: Vec::new(alloc),
            unknown: Vec::new(alloc),
        },
    }
}
