//! How orders are carried out and what they write, over files, readers and writers that fail.
use crate::shelf::Shelf;
use crate::words::{Given, profile_of};
use command_line::{Action, CertifyArgs, Order, SweepArgs, Task};
use driver::{RunFault, run_once, run_order, tell};
use guest_elf::{Image, read};
use replay_session::LONGEST_INPUT;
use std::alloc::{AllocError, Global};
use std::process::Abort;
use test_support::{Room, Script, program};

/// Three words: exit with status 0.
const EXITS: [u32; 3] = [0x05D0_0893, 0x0000_0513, 0x0000_0073];

/// The report of `EXITS` at step 3.
const REPORT: &[u8] = b"step 3
state exited 0
input 0 of 0
output 0
definitely lost: 0 bytes in 0 blocks
indirectly lost: 0 bytes in 0 blocks
possibly lost: 0 bytes in 0 blocks
still reachable: 0 bytes in 0 blocks
suppressed: 0 bytes in 0 blocks
ERROR SUMMARY: 0 errors from 0 contexts (suppressed: 0 from 0)
";

/// The outcome of a report, and the number of its bytes that were taken.
fn told(end: Result<(), RunFault>) -> (&'static str, u64) {
    match end {
        Ok(()) => ("done", 0),
        Err(RunFault::InputTooLarge) => ("too large", 0),
        Err(RunFault::NoMemory) => ("no memory", 0),
        Err(RunFault::WriteFailed { bytes }) => ("cut", bytes),
    }
}

/// A label; the number of bytes that a writer takes and of flushes; the length of the input; the outcome of the report, and the number of
/// its bytes that are taken.
type Report = (
    &'static str,
    usize,
    usize,
    usize,
    (&'static str, u64),
    usize,
);

const REPORTS: [Report; 4] = [
    ("all of it", 1 << 20, 1, 0, ("done", 0), 285),
    ("a write fails", 100, 1, 0, ("cut", 100), 100),
    ("the flush fails", 1 << 20, 0, 0, ("cut", 285), 285),
    (
        "an input too large",
        1 << 20,
        1,
        LONGEST_INPUT + 1,
        ("too large", 0),
        0,
    ),
];

/// Whether the report on an image, with an input, has the outcome of a row.
fn is_cut_to(alloc: Global, image: &Image<'_>, input: Vec<u8>, report: &Report) -> bool {
    let mut writer = Room::new(alloc, report.1);
    writer.flushes = report.2;
    let end = run_once(alloc, image, input, &[], 3, &mut writer);
    told(end) == report.4 && writer.taken.len() == report.5 && REPORT.starts_with(&writer.taken)
}

/// The same on a file.
fn is_cut_of(alloc: Global, file: &[u8], report: &Report) -> Result<bool, AllocError> {
    let input = vec![in alloc; 0u8; report.3]?;
    match read(alloc, file) {
        Ok(image) => Ok(is_cut_to(alloc, &image, input, report)),
        Err(_) => Ok(false),
    }
}

/// The same on a new file.
fn is_cut(alloc: Global, report: &Report) -> Result<bool, AllocError> {
    let file = program(alloc, &EXITS)?;
    is_cut_of(alloc, &file, report)
}

/// A write that fails has taken a front of the report, and a flush that fails all of it.
#[test]
fn a_report_is_cut(rt: HostRuntime) {
    for report in &REPORTS {
        assert!(rt;
            matches!(is_cut(rt.alloc(), report), Ok(true)),
            "{}",
            report.0
        );
    }
}

/// What an order writes.
enum Written {
    Nothing,
    /// A report with something before it and after it.
    Around(&'static [u8], &'static [u8]),
    /// A table with this end.
    Table(&'static [u8]),
    /// A line with this front.
    Line(&'static [u8]),
}

/// Whether a text is that.
fn is_written(text: &[u8], want: &Written) -> bool {
    match want {
        Written::Nothing => text.is_empty(),
        Written::Around(before, after) => is_around(text, before, after),
        Written::Table(end) => text.ends_with(end),
        Written::Line(front) => text.starts_with(front) && text.ends_with(b"\n"),
    }
}

/// Whether a text is a report with this around it.
fn is_around(text: &[u8], before: &[u8], after: &[u8]) -> bool {
    match text.strip_prefix(before) {
        Some(rest) => match rest.strip_prefix(REPORT) {
            Some(rest) => rest == after,
            None => false,
        },
        None => false,
    }
}

/// A label; a file, whether it has suppressions, a command, and these suppressions on the shelf; the status with which an order for that
/// ends, and what it writes.
type Case = (
    &'static str,
    (&'static str, bool, Asked),
    &'static [u8],
    u8,
    Written,
);

/// A verdict, up to no step that is given.
const PLAIN: CertifyArgs<'static> = CertifyArgs {
    step: None,
    any: None,
    any_memory: None,
    reveal: None,
};

/// Up to step 2, and up to step 3.
const TO_2: CertifyArgs<'static> = CertifyArgs {
    step: Some(2),
    any: None,
    any_memory: None,
    reveal: None,
};

const TO_3: CertifyArgs<'static> = CertifyArgs {
    step: Some(3),
    any: None,
    any_memory: None,
    reveal: None,
};

/// For every value of a byte of the input, which has none; and of bytes of memory, the second of which isn't loaded.
const OF_INPUT: CertifyArgs<'static> = CertifyArgs {
    step: Some(3),
    any: Some("0"),
    any_memory: None,
    reveal: None,
};

const OF_MEMORY: CertifyArgs<'static> = CertifyArgs {
    step: Some(3),
    any: None,
    any_memory: Some("0x1000b..0x1000d"),
    reveal: None,
};

/// A command.
enum Asked {
    Do(Action<'static>),
    /// A sweep over the input of the shelf: its bytes, words and part.
    Sweep(Option<&'static str>, Option<&'static str>, &'static str),
}

/// An order's input and its command.
fn task_of(asked: &Asked) -> (Option<&'static str>, Task<'static>) {
    match asked {
        Asked::Do(action) => (None, Task::Do(*action)),
        Asked::Sweep(bytes, words, part) => {
            let words = SweepArgs {
                step: 3,
                bytes: *bytes,
                byte_values: "0,97",
                words: *words,
                word_values: "0x00100513,0x513",
                at: None,
                faults: None,
                code: None,
                pairs: None,
                part,
                with_output: true,
                with_sides: false,
            };
            (Some("input"), Task::Sweep(words))
        }
    }
}

/// The status with which an order ends, whose line is written.
fn status_of(alloc: Global, order: &Order<'_>, shelf: &Shelf<'_>, writer: &mut Room) -> u8 {
    let mut reader = Script::new(b"goto 3\nreport\nlook last run 0x10008 4 0\n");
    let end = run_order(alloc, order, shelf, &mut reader, writer);
    let mut line = Room::new(alloc, 1 << 20);
    tell(&end, &mut line)
}

/// Whether an order on a program, of which this is said, ends in this way.
fn is_carried_on(alloc: Global, program: &[u8], said: Given, case: &Case) -> bool {
    let (_, (file, has_rules, asked), rules, status, written) = case;
    let (input, task) = task_of(asked);
    let order = Order {
        file,
        input,
        suppressions: if *has_rules { Some("rules") } else { None },
        profile: profile_of(said),
        task,
    };
    let mut writer = Room::new(alloc, 1 << 20);
    let came = status_of(alloc, &order, &Shelf { program, rules }, &mut writer);
    came == *status && is_written(&writer.taken, written)
}

/// Whether one on a new program does.
fn is_carried(alloc: Global, said: Given, case: &Case) -> Result<bool, AllocError> {
    let file = program(alloc, &EXITS)?;
    Ok(is_carried_on(alloc, &file, said, case))
}

/// Asserts that orders are carried out.
fn assert_carried(rt: &impl Abort, alloc: Global, cases: &[Case]) {
    for case in cases {
        assert!(rt;
            matches!(is_carried(alloc, Given::Nothing, case), Ok(true)),
            "{}",
            case.0
        );
    }
}

/// What is said of what a file is read for, and an order for that.
type Named = (Given, Case);

/// Orders for a profile. One that there isn't ends them before the file is read, and after the arguments of a sweep.
const NAMED: [Named; 9] = [
    (
        Given::Heap("805306368"),
        (
            "a report with the heap elsewhere",
            ("program", false, Asked::Do(Action::Report(3))),
            b"",
            0,
            Written::Around(b"", b""),
        ),
    ),
    (
        Given::Heap("0x48000000"),
        (
            "no region of a heap",
            ("program", false, Asked::Do(Action::Report(3))),
            b"",
            2,
            Written::Nothing,
        ),
    ),
    (
        Given::Stack("0x7f000000"),
        (
            "no region of a stack",
            ("program", false, Asked::Do(Action::Session)),
            b"",
            2,
            Written::Nothing,
        ),
    ),
    (
        Given::Heap("0x70000000"),
        (
            "regions that overlap",
            ("prog", false, Asked::Sweep(None, None, "1/1")),
            b"",
            2,
            Written::Nothing,
        ),
    ),
    (
        Given::Isa("rv32imc"),
        (
            "a report for rv32imc",
            ("program", false, Asked::Do(Action::Report(3))),
            b"",
            0,
            Written::Around(b"", b""),
        ),
    ),
    (
        Given::Isa("rv32imac"),
        (
            "a report for rv32imac",
            ("program", false, Asked::Do(Action::Report(3))),
            b"",
            0,
            Written::Around(b"", b""),
        ),
    ),
    (
        Given::Isa("rv32gc"),
        (
            "a session for another set",
            ("prog", false, Asked::Do(Action::Session)),
            b"",
            2,
            Written::Nothing,
        ),
    ),
    (
        Given::Isa("RV32IM"),
        (
            "a sweep for another set",
            ("prog", false, Asked::Sweep(None, None, "1/1")),
            b"",
            2,
            Written::Nothing,
        ),
    ),
    (
        Given::Isa(""),
        (
            "a verdict for none",
            ("program", false, Asked::Do(Action::Certify(TO_3))),
            b"",
            2,
            Written::Nothing,
        ),
    ),
];

#[test]
fn sets_are_judged(rt: HostRuntime) {
    for row in &NAMED {
        assert!(rt;
            matches!(is_carried(rt.alloc(), row.0, &row.1), Ok(true)),
            "{}",
            row.1.0
        );
    }
}

const GOOD_RULES: &[u8] = b"{\n  any\n  Memcheck:Cond\n  fun:*\n}\n";

const BAD_RULES: &[u8] = b"# an empty block\n{\n}\n";

/// A report, a session, one that also looks, one that also tries, and a verdict.
const ORDERS: [Case; 10] = [
    (
        "a report",
        ("program", false, Asked::Do(Action::Report(3))),
        b"",
        0,
        Written::Around(b"", b""),
    ),
    (
        "with suppressions",
        ("program", true, Asked::Do(Action::Report(3))),
        GOOD_RULES,
        0,
        Written::Around(b"", b""),
    ),
    (
        "a session",
        ("program", false, Asked::Do(Action::Session)),
        b"",
        0,
        Written::Around(b"ok\n", b"refused 2\n"),
    ),
    (
        "a session that looks",
        ("program", false, Asked::Do(Action::Look(None))),
        b"",
        0,
        Written::Around(b"ok\n", b"step 2\n"),
    ),
    (
        "a session that tries, which looks too",
        ("program", false, Asked::Do(Action::Tries(None))),
        b"",
        0,
        Written::Around(b"ok\n", b"step 2\n"),
    ),
    (
        "a verdict",
        ("program", false, Asked::Do(Action::Certify(TO_3))),
        b"",
        0,
        Written::Line(b"clean to step 3: "),
    ),
    (
        "a verdict on a run that goes on after the step",
        ("program", false, Asked::Do(Action::Certify(TO_2))),
        b"",
        0,
        Written::Line(b"clean up to step 2: "),
    ),
    (
        "a verdict up to the greatest step",
        ("program", false, Asked::Do(Action::Certify(PLAIN))),
        b"",
        0,
        Written::Line(b"clean to step 4194304: "),
    ),
    (
        "a verdict for every value of a byte that the input hasn't",
        ("program", false, Asked::Do(Action::Certify(OF_INPUT))),
        b"",
        3,
        Written::Nothing,
    ),
    (
        "a verdict for every value of bytes that may not be accessed",
        ("program", false, Asked::Do(Action::Certify(OF_MEMORY))),
        b"",
        5,
        Written::Line(
            b"not the same for any memory 0x0001000b..0x0001000d: 0x0001000c may not be accessed",
        ),
    ),
];

#[test]
fn orders_are_carried_out(rt: HostRuntime) {
    assert_carried(&rt, rt.alloc(), &ORDERS);
}

/// Files for which an order fails.
const NO_ORDERS: [Case; 3] = [
    (
        "no such program",
        ("prog", true, Asked::Do(Action::Session)),
        BAD_RULES,
        1,
        Written::Nothing,
    ),
    (
        "no ELF file",
        ("input", true, Asked::Do(Action::Look(None))),
        BAD_RULES,
        3,
        Written::Nothing,
    ),
    (
        "bad suppressions",
        ("program", true, Asked::Do(Action::Session)),
        BAD_RULES,
        3,
        Written::Nothing,
    ),
];

#[test]
fn files_keep_orders_from_it(rt: HostRuntime) {
    assert_carried(&rt, rt.alloc(), &NO_ORDERS);
}

/// The end of a table after its digests: a word that makes the exit status 1. Values equal to the word there are no edits.
const WORD_TABLE: &[u8] = b"
words 0x00010000..0x0001000b 0x00100513,0x513
step 3
output yes
part 2/3
outcome 0
exited 0
output 0
unedited 0
outcome 1
exited 1
output 0
patch 0x00010004 0x00100513 1
tally 0 0
tally 1 1
end 1 2 2
";

/// Bytes that the program doesn't read: no step is executed for them.
const BYTE_TABLE: &[u8] = b"
bytes 0..1 0,97
step 3
output yes
part 1/1
outcome 0
exited 0
output 0
unedited 0
input 0 0 0
input 1 0 0
input 1 97 0
tally 0 3
end 3 1 0
";

/// Words, the second of three parts; and bytes, up to the last.
const SWEEPS: [Case; 2] = [
    (
        "words",
        (
            "program",
            false,
            Asked::Sweep(None, Some("0x10000..0x1000b"), "2/3"),
        ),
        b"",
        0,
        Written::Table(WORD_TABLE),
    ),
    (
        "bytes",
        ("program", false, Asked::Sweep(Some("0.."), None, "1/1")),
        b"",
        0,
        Written::Table(BYTE_TABLE),
    ),
];

#[test]
fn sweeps_are_made(rt: HostRuntime) {
    assert_carried(&rt, rt.alloc(), &SWEEPS);
}

/// Arguments that no sweep has.
const NO_SWEEPS: [Case; 4] = [
    (
        "bytes outside of the input",
        ("program", false, Asked::Sweep(Some("1..2"), None, "1/1")),
        b"",
        3,
        Written::Nothing,
    ),
    (
        "no word loaded",
        (
            "program",
            false,
            Asked::Sweep(None, Some("0..0xffff"), "1/1"),
        ),
        b"",
        3,
        Written::Nothing,
    ),
    (
        "no range",
        ("program", false, Asked::Sweep(Some("2..1"), None, "1/1")),
        b"",
        2,
        Written::Nothing,
    ),
    (
        "no part",
        ("program", false, Asked::Sweep(None, None, "4/3")),
        b"",
        2,
        Written::Nothing,
    ),
];

#[test]
fn sweeps_are_refused(rt: HostRuntime) {
    assert_carried(&rt, rt.alloc(), &NO_SWEEPS);
}
