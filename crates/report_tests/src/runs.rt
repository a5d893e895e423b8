//! Programs by hand, and whether the reports of their runs are those written down.
use call_stacks::Trace;
use guest_elf::{Image, read};
use guest_machine::{Hooks, Input, Machine, Mark, Meter, Setup};
use leak_graph::LeakKind;
use leak_search::{LeakRecord, search};
use replay_report::{Options, outline, render};
use shadow_memory::RangeKind;
use std::alloc::{AllocError, Global};
use std::process::Abort;
use suppressions::Suppression;
use test_support::program;

/// What is reported of a run. A report shows the kinds of leaks that Memcheck shows, and has no input, unless something else is said.
pub(crate) enum Telling {
    /// A report with these first lines and these last ones.
    Ends(&'static [u8], &'static [u8]),
    /// A report with no other lines.
    Whole(&'static [u8], &'static [u8]),
    /// A report that shows these kinds of leaks: its last lines.
    Shown([bool; 4], &'static [u8]),
    /// A report for an input of this length, of which nothing is read: its first lines.
    OfInput(u64, &'static [u8]),
    /// A report after a text: that text with its first lines.
    Behind(&'static [u8], &'static [u8]),
    /// A report that shows all kinds of leaks, with possible leaks suppressed: its last lines.
    Hidden(&'static [u8]),
    /// An outline, with the output or without.
    Outline(bool, &'static [u8]),
    /// The leaks, each by its start, its kind and where its block of 8 bytes was allocated.
    Leaks(&'static [(u32, LeakKind, u32)]),
}

/// The kinds of leaks that Memcheck shows.
pub(crate) const MEMCHECK: [bool; 4] = [true, false, true, false];

/// The options of a report, and its expected text.
#[derive(Clone, Copy)]
struct Report {
    input_len: u64,
    show: [bool; 4],
    before: &'static [u8],
    front: &'static [u8],
    back: &'static [u8],
    is_whole: bool,
}

/// Returns a report without input and with these lines.
fn plain(front: &'static [u8], back: &'static [u8]) -> Report {
    Report {
        input_len: 0,
        show: MEMCHECK,
        before: b"",
        front,
        back,
        is_whole: false,
    }
}

/// Returns the expected report, if a report without suppressions is expected.
fn report_of(telling: &Telling) -> Option<Report> {
    match telling {
        Telling::Ends(front, back) => Some(plain(front, back)),
        Telling::Whole(front, back) => Some(Report {
            is_whole: true,
            ..plain(front, back)
        }),
        Telling::Shown(show, back) => Some(Report {
            show: *show,
            ..plain(b"", back)
        }),
        Telling::OfInput(input_len, front) => Some(Report {
            input_len: *input_len,
            ..plain(front, b"")
        }),
        Telling::Behind(before, front) => Some(Report {
            before,
            ..plain(front, b"")
        }),
        _ => None,
    }
}

/// A label, a program, the number of steps executed, and what is reported then.
pub(crate) type Run = (&'static str, &'static [u32], u32, Telling);

/// Returns the machine after a number of steps, without input.
fn stepped(machine: Machine, setup: &Setup, steps: u32) -> Result<Machine, AllocError> {
    let mut meter = Meter::new();
    let mut machine = machine;
    for _ in 0..steps {
        let (next, _) = machine.step(setup, &mut meter)?;
        machine = next;
    }
    Ok(machine)
}

/// Returns the machine before the first step. The four bytes at the stack pointer, which are 0, are undefined from the start.
fn started(alloc: Global, image: &Image) -> Result<Machine, AllocError> {
    Machine::start(alloc, image)?.mark(&Mark {
        step: 0,
        addr: 0x7FFF_FFF0,
        len: 4,
        kind: RangeKind::Undefined,
    })
}

/// Returns a setup of Memcheck's redzone and volume of freed blocks, and an input.
pub(crate) fn setup_of(alloc: Global, input: Input) -> Setup {
    Setup {
        input,
        redzone: 16,
        volume: 20_000_000,
        hooks: Hooks::new(Vec::new(alloc)),
    }
}

/// Returns the machine of a program after a number of steps.
fn machine_after(alloc: Global, image: &Image, steps: u32) -> Result<Machine, AllocError> {
    let setup = setup_of(alloc, Input::new(Vec::new(alloc)));
    stepped(started(alloc, image)?, &setup, steps)
}

/// Returns whether a text has these ends.
fn has_ends(text: &[u8], report: &Report) -> bool {
    match text.strip_prefix(report.front) {
        Some(rest) if report.is_whole => rest == report.back,
        Some(rest) => rest.ends_with(report.back),
        None => false,
    }
}

/// Returns whether a machine has a report.
fn has_report(
    alloc: Global,
    image: &Image,
    machine: &Machine,
    steps: u32,
    report: &Report,
) -> Result<bool, AllocError> {
    let options = Options {
        callers: 12,
        show: report.show,
    };
    let mut out = report.before.to_vec(alloc)?;
    render(
        alloc,
        machine,
        image,
        &[],
        &options,
        steps,
        report.input_len,
        &mut out,
    )?;
    Ok(has_ends(&out, report))
}

/// Returns whether a report that shows all has an end, with some suppressions.
fn hides(
    alloc: Global,
    image: &Image,
    machine: &Machine,
    suppressions: &[Suppression],
    back: &[u8],
) -> Result<bool, AllocError> {
    let options = Options {
        callers: 12,
        show: [true; 4],
    };
    let mut out = Vec::new(alloc);
    render(
        alloc,
        machine,
        image,
        suppressions,
        &options,
        4,
        0,
        &mut out,
    )?;
    Ok(out.ends_with(back))
}

/// Returns the same if possible leaks are suppressed.
fn hides_possible(
    alloc: Global,
    image: &Image,
    machine: &Machine,
    back: &[u8],
) -> Result<bool, AllocError> {
    match Suppression::from_words(alloc, b"Leak match-leak-kinds:possible fun:*") {
        Ok(hidden) => hides(alloc, image, machine, &[hidden], back),
        Err(_) => Ok(false),
    }
}

/// Returns whether a machine has an outline.
fn has_outline(
    alloc: Global,
    image: &Image,
    machine: &Machine,
    with_output: bool,
    want: &[u8],
) -> Result<bool, AllocError> {
    let options = Options::default();
    let text = outline(alloc, machine, image, &[], &options, with_output)?;
    Ok(text.as_slice() == want)
}

/// Returns whether these are records of leaks.
fn are_records(records: &[LeakRecord], leaks: &[(u32, LeakKind, u32)]) -> bool {
    for (i, (start, kind, pc)) in leaks.iter().enumerate() {
        let want = LeakRecord {
            start: *start,
            size: 8,
            kind: *kind,
            trace: Trace::of(*pc),
        };
        if records.get(i) != Some(&want) {
            return false;
        }
    }
    records.len() == leaks.len()
}

/// Returns whether a search returns these leaks.
fn has_leaks(
    alloc: Global,
    machine: &Machine,
    leaks: &[(u32, LeakKind, u32)],
) -> Result<bool, AllocError> {
    let records = search(alloc, machine)?;
    Ok(are_records(&records, leaks))
}

/// Returns whether a machine's report is as expected.
fn is_told_by(
    alloc: Global,
    image: &Image,
    machine: &Machine,
    run: &Run,
) -> Result<bool, AllocError> {
    if let Some(report) = report_of(&run.3) {
        return has_report(alloc, image, machine, run.2, &report);
    }
    match &run.3 {
        Telling::Hidden(back) => hides_possible(alloc, image, machine, back),
        Telling::Outline(with_output, want) => {
            has_outline(alloc, image, machine, *with_output, want)
        }
        Telling::Leaks(leaks) => has_leaks(alloc, machine, leaks),
        _ => Ok(false),
    }
}

/// Returns whether it is for the run of an image.
fn is_told_on(alloc: Global, image: &Image, run: &Run) -> Result<bool, AllocError> {
    let machine = machine_after(alloc, image, run.2)?;
    is_told_by(alloc, image, &machine, run)
}

/// Returns whether it is for the run of a file.
fn is_told_of(alloc: Global, file: &[u8], run: &Run) -> Result<bool, AllocError> {
    match read(alloc, file) {
        Ok(image) => is_told_on(alloc, &image, run),
        Err(_) => Ok(false),
    }
}

/// Returns whether it is for the run of a program.
fn is_told(alloc: Global, run: &Run) -> Result<bool, AllocError> {
    let file = program(alloc, run.1)?;
    is_told_of(alloc, &file, run)
}

/// Asserts that the reports of runs are as expected.
pub(crate) fn assert_told(rt: &impl Abort, alloc: Global, runs: &[Run]) {
    for run in runs {
        assert!(rt; matches!(is_told(alloc, run), Ok(true)), "{}", run.0);
    }
}

/// `addi a7, x0, 93; addi a0, x0, 0; ecall`: the call `exit`.
pub(crate) const EXIT: [u32; 3] = [0x05D0_0893, 0x0000_0513, 0x0000_0073];

/// `lw a0, 0(sp); beq a0, x0, 8`: the branch goes past the end of the program.
pub(crate) const BRANCH_PAST_THE_END: [u32; 2] = [0x0001_2503, 0x0005_0463];

/// `lw a0, 0(sp); beq a0, x0, -4`
pub(crate) const BRANCH_BACK: [u32; 2] = [0x0001_2503, 0xFE05_0EE3];

/// `malloc(8)`: two blocks; the first holds the address of the second and then its own, and then no register does.
pub(crate) const TWO_BLOCKS: [u32; 10] = [
    0x7D10_0893,
    0x0080_0513,
    0x0000_0073,
    0x0005_0413,
    0x0080_0513,
    0x0000_0073,
    0x00A4_2023,
    0x0085_2023,
    0x0000_0413,
    0x0000_0513,
];
