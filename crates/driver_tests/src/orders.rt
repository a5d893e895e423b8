//! The orders of command lines.
use crate::words::{Given, profile_of};
use clap::error::ErrorKind;
use command_line::{Action, CertifyArgs, Order, ProfileArgs, SweepArgs, Task, read_order};
use std::alloc::{AllocError, Global};
use std::process::Abort;

/// The arguments of a line, after the program's name.
fn words_of(alloc: Global, line: &[&str]) -> Result<Vec<String>, AllocError> {
    let mut words = Vec::new(alloc);
    words.push(String::from_str(alloc, "replaycheck")?)?;
    for word in line {
        words.push(String::from_str(alloc, word)?)?;
    }
    Ok(words)
}

/// Whether two texts are the same, or neither is there.
fn is_text(asked: Option<&str>, want: Option<&str>) -> bool {
    match (asked, want) {
        (Some(asked), Some(want)) => asked == want,
        (None, None) => true,
        _ => false,
    }
}

/// Whether two sweeps are the same.
fn is_sweep(asked: &SweepArgs<'_>, want: &SweepArgs<'_>) -> bool {
    asked.step == want.step
        && is_text(asked.bytes, want.bytes)
        && asked.byte_values == want.byte_values
        && is_text(asked.words, want.words)
        && asked.word_values == want.word_values
        && is_text(asked.at, want.at)
        && is_text(asked.faults, want.faults)
        && is_text(asked.code, want.code)
        && is_text(asked.pairs, want.pairs)
        && asked.part == want.part
        && asked.with_output == want.with_output
        && asked.with_sides == want.with_sides
}

/// Whether the arguments of two verdicts are.
fn is_certify(asked: &CertifyArgs<'_>, want: &CertifyArgs<'_>) -> bool {
    asked.step == want.step
        && asked.any == want.any
        && asked.any_memory == want.any_memory
        && asked.reveal == want.reveal
}

/// Whether two commands are.
fn is_task(asked: &Task<'_>, want: &Task<'_>) -> bool {
    match (asked, want) {
        (Task::Do(Action::Report(step)), Task::Do(Action::Report(at))) => step == at,
        (Task::Do(Action::Session), Task::Do(Action::Session)) => true,
        (Task::Do(Action::Look(limit)), Task::Do(Action::Look(other))) => limit == other,
        (Task::Do(Action::Tries(limit)), Task::Do(Action::Tries(other))) => limit == other,
        (Task::Sweep(asked), Task::Sweep(want)) => is_sweep(asked, want),
        (Task::Do(Action::Certify(asked)), Task::Do(Action::Certify(want))) => {
            is_certify(asked, want)
        }
        _ => false,
    }
}

/// Whether two profiles are.
fn is_profile(asked: &ProfileArgs<'_>, want: &ProfileArgs<'_>) -> bool {
    asked.isa == want.isa && asked.heap == want.heap && asked.stack == want.stack
}

/// Whether two orders are.
fn is_order(asked: &Order<'_>, want: &Order<'_>) -> bool {
    asked.file == want.file
        && is_text(asked.input, want.input)
        && is_text(asked.suppressions, want.suppressions)
        && is_profile(&asked.profile, &want.profile)
        && is_task(&asked.task, &want.task)
}

/// A label; the arguments of a line; and its order: its program, input and suppressions, what is said of what that is read for, and the
/// command.
type Line = (
    &'static str,
    &'static [&'static str],
    (&'static str, Option<&'static str>, Option<&'static str>),
    Given,
    Task<'static>,
);

/// The order of a line.
fn order_of(line: &Line) -> Order<'static> {
    let (file, input, suppressions) = line.2;
    Order {
        file,
        input,
        suppressions,
        profile: profile_of(line.3),
        task: line.4,
    }
}

/// Whether arguments give an order.
fn give(alloc: Global, words: &[String], want: &Order<'_>) -> bool {
    match read_order(alloc, words) {
        Ok(order) => is_order(&order, want),
        Err(_) => false,
    }
}

/// Whether a line does.
fn gives(alloc: Global, line: &Line) -> Result<bool, AllocError> {
    let words = words_of(alloc, line.1)?;
    Ok(give(alloc, &words, &order_of(line)))
}

/// Asserts that lines give their orders.
fn assert_given(rt: &impl Abort, alloc: Global, lines: &[Line]) {
    for line in lines {
        assert!(rt; matches!(gives(alloc, line), Ok(true)), "{}", line.0);
    }
}

const REPORTS: [Line; 6] = [
    (
        "the usual step",
        &["run", "program"],
        ("program", None, None),
        Given::Nothing,
        Task::Do(Action::Report(1_048_576)),
    ),
    (
        "the greatest step",
        &["run", "--step=4194304", "f"],
        ("f", None, None),
        Given::Nothing,
        Task::Do(Action::Report(4_194_304)),
    ),
    (
        "no minus",
        &["run", "f", "--step=-0"],
        ("f", None, None),
        Given::Nothing,
        Task::Do(Action::Report(0)),
    ),
    (
        "a verdict",
        &["certify", "f", "--input", "i", "--step", "7"],
        ("f", Some("i"), None),
        Given::Nothing,
        Task::Do(Action::Certify(CertifyArgs {
            step: Some(7),
            any: None,
            any_memory: None,
            reveal: None,
        })),
    ),
    (
        "a verdict for every value",
        &[
            "certify",
            "f",
            "--any",
            "0..3",
            "--any-memory",
            "8..9",
            "--reveal",
            "1,2,3",
        ],
        ("f", None, None),
        Given::Nothing,
        Task::Do(Action::Certify(CertifyArgs {
            step: None,
            any: Some("0..3"),
            any_memory: Some("8..9"),
            reveal: Some("1,2,3"),
        })),
    ),
    (
        "a verdict on no step that is given",
        &["certify", "f"],
        ("f", None, None),
        Given::Nothing,
        Task::Do(Action::Certify(CertifyArgs {
            step: None,
            any: None,
            any_memory: None,
            reveal: None,
        })),
    ),
];

#[test]
fn reports_are_ordered(rt: HostRuntime) {
    assert_given(&rt, rt.alloc(), &REPORTS);
}

const SESSIONS: [Line; 8] = [
    (
        "a text for the heap's region, whatever it is",
        &["session", "f", "--heap-region", "here"],
        ("f", None, None),
        Given::Heap("here"),
        Task::Do(Action::Session),
    ),
    (
        "a text for the stack's region, whatever it is",
        &["session", "f", "--stack-region=there"],
        ("f", None, None),
        Given::Stack("there"),
        Task::Do(Action::Session),
    ),
    (
        "a name of an instruction set, whatever it is",
        &["session", "f", "--isa", "rv32"],
        ("f", None, None),
        Given::Isa("rv32"),
        Task::Do(Action::Session),
    ),
    (
        "a session with files",
        &["session", "f", "--supp", "s", "--input=i"],
        ("f", Some("i"), Some("s")),
        Given::Nothing,
        Task::Do(Action::Session),
    ),
    (
        "one that looks",
        &["look", "f", "--input", "i"],
        ("f", Some("i"), None),
        Given::Nothing,
        Task::Do(Action::Look(None)),
    ),
    (
        "one that tries",
        &["tries", "f", "--input", "i", "--supp", "s"],
        ("f", Some("i"), Some("s")),
        Given::Nothing,
        Task::Do(Action::Tries(None)),
    ),
    (
        "one that looks up to the furthest step",
        &["look", "f", "--limit", "2147483647"],
        ("f", None, None),
        Given::Nothing,
        Task::Do(Action::Look(Some(2_147_483_647))),
    ),
    (
        "one that tries up to the first step",
        &["tries", "f", "--limit=1"],
        ("f", None, None),
        Given::Nothing,
        Task::Do(Action::Tries(Some(1))),
    ),
];

#[test]
fn sessions_are_ordered(rt: HostRuntime) {
    assert_given(&rt, rt.alloc(), &SESSIONS);
}

const SWEEPS: [Line; 3] = [
    (
        "a sweep of all bytes",
        &["sweep", "f"],
        ("f", None, None),
        Given::Nothing,
        Task::Sweep(SweepArgs {
            step: 1_048_576,
            bytes: None,
            byte_values: "all",
            words: None,
            word_values: "skip",
            at: None,
            faults: None,
            code: None,
            pairs: None,
            part: "1/1",
            with_output: false,
            with_sides: false,
        }),
    ),
    (
        "a sweep of bytes and words",
        &[
            "sweep",
            "f",
            "--bytes=1..2",
            "--values=edges",
            "--words=0x4",
            "--words-values=flips",
            "--part=2/3",
            "--with-output",
            "--step=9",
        ],
        ("f", None, None),
        Given::Nothing,
        Task::Sweep(SweepArgs {
            step: 9,
            bytes: Some("1..2"),
            byte_values: "edges",
            words: Some("0x4"),
            word_values: "flips",
            at: None,
            faults: None,
            code: None,
            pairs: None,
            part: "2/3",
            with_output: true,
            with_sides: false,
        }),
    ),
    (
        "a sweep of steps",
        &[
            "sweep",
            "f",
            "--at=3..",
            "--faults=skip,pc",
            "--code-range=4..8",
            "--pairs=skip",
        ],
        ("f", None, None),
        Given::Nothing,
        Task::Sweep(SweepArgs {
            step: 1_048_576,
            bytes: None,
            byte_values: "all",
            words: None,
            word_values: "skip",
            at: Some("3.."),
            faults: Some("skip,pc"),
            code: Some("4..8"),
            pairs: Some("skip"),
            part: "1/1",
            with_output: false,
            with_sides: false,
        }),
    ),
];

#[test]
fn sweeps_are_ordered(rt: HostRuntime) {
    assert_given(&rt, rt.alloc(), &SWEEPS);
}

/// A label, the arguments of a line, and why it has no order.
type NoOrder = (&'static str, &'static [&'static str], ErrorKind);

const NO_ORDERS: [NoOrder; 16] = [
    (
        "a region of the heap twice",
        &["look", "f", "--heap-region=1", "--heap-region=1"],
        ErrorKind::ArgumentConflict,
    ),
    (
        "an instruction set twice",
        &["look", "f", "--isa=rv32im", "--isa=rv32im"],
        ErrorKind::ArgumentConflict,
    ),
    (
        "no name of an instruction set",
        &["certify", "f", "--isa"],
        ErrorKind::InvalidValue,
    ),
    ("nothing", &[], ErrorKind::MissingSubcommand),
    ("help", &["--help"], ErrorKind::DisplayHelp),
    (
        "help on a command",
        &["run", "--help"],
        ErrorKind::DisplayHelp,
    ),
    ("the version", &["--version"], ErrorKind::DisplayVersion),
    ("no file", &["run"], ErrorKind::MissingRequiredArgument),
    ("no such command", &["walk"], ErrorKind::InvalidSubcommand),
    (
        "a step too many",
        &["run", "f", "--step=4194305"],
        ErrorKind::ValueValidation,
    ),
    (
        "a step too many of a sweep",
        &["sweep", "f", "--step=2147483648"],
        ErrorKind::ValueValidation,
    ),
    (
        "a limit too great",
        &["look", "f", "--limit=2147483648"],
        ErrorKind::ValueValidation,
    ),
    (
        "no step up to the limit",
        &["tries", "f", "--limit=0"],
        ErrorKind::ValueValidation,
    ),
    (
        "a limit of a session",
        &["session", "f", "--limit=1"],
        ErrorKind::UnknownArgument,
    ),
    (
        "twice",
        &["run", "f", "--step=1", "--step=1"],
        ErrorKind::ArgumentConflict,
    ),
    (
        "a step of a session",
        &["session", "f", "--step=1"],
        ErrorKind::UnknownArgument,
    ),
];

/// Whether arguments are rejected for this.
fn refuses(alloc: Global, words: &[String], want: ErrorKind) -> bool {
    match read_order(alloc, words) {
        Ok(_) => false,
        Err(error) => error.kind() == want,
    }
}

/// Whether a line is.
fn is_refused(alloc: Global, line: &NoOrder) -> Result<bool, AllocError> {
    let words = words_of(alloc, line.1)?;
    Ok(refuses(alloc, &words, line.2))
}

#[test]
fn lines_without_an_order(rt: HostRuntime) {
    for line in &NO_ORDERS {
        assert!(rt;
            matches!(is_refused(rt.alloc(), line), Ok(true)),
            "{}",
            line.0
        );
    }
}
