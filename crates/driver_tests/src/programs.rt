//! Runs whose output is written as it is made, and how such a run ends.
use crate::words::{COPIES, WRITES};
use exit_status::{ChosenStatuses, End, Ended, ExecDone, ExecEnd, Outcome, tell_exec};
use guest_elf::{StreamLimits, read};
use run_values::{Status, Stop};
use scenario::{LONGEST_INPUT, Scenario};
use std::alloc::{AllocError, Global};
use std::process::Abort;
use test_runs::{Execution, ExecutionFault, Streams};
use test_support::{Room, program};

/// A label; a program's words, the bytes of output that are taken, and the input that it is given where it waits; the step at which it first
/// stops, and the output.
struct Run {
    label: &'static str,
    words: &'static [u32],
    room: usize,
    input: &'static [u8],
    stops: u32,
    output: &'static [u8],
}

const RUNS: [Run; 4] = [
    Run {
        label: "output",
        words: &WRITES,
        room: 1 << 20,
        input: b"",
        stops: 1000,
        output: b"ok!\n",
    },
    Run {
        label: "input that is waited for",
        words: &COPIES,
        room: 1 << 20,
        input: b"xyz",
        stops: 4,
        output: b"x",
    },
    Run {
        label: "no input",
        words: &COPIES,
        room: 1 << 20,
        input: b"",
        stops: 4,
        output: b"\0",
    },
    Run {
        label: "a jump to itself",
        words: &[0x0000_006F],
        room: 0,
        input: b"",
        stops: 1000,
        output: b"",
    },
];

/// Runs a scenario until it waits for input, and then another run of it, with an input, to its last step. Returns the step at which the
/// first waits.
fn run_through(
    alloc: Global,
    scenario: &mut Scenario<'_>,
    input: Vec<u8>,
    streams: &mut Streams<Room, Room>,
) -> Result<u32, ExecutionFault> {
    let mut first = Streams {
        out: Room::new(alloc, 1 << 20),
        err: Room::new(alloc, 0),
    };
    let waiting = Execution::begin(alloc, scenario)?.run(alloc, scenario, true, &mut first)?;
    if input.len() > LONGEST_INPUT {
        return Ok(u32::MAX);
    }
    scenario.give(input);
    let last = Execution::begin(alloc, scenario)?.run(alloc, scenario, false, streams)?;
    if last.at() == 1000 && last.refused() == 0 {
        Ok(waiting.at())
    } else {
        Ok(u32::MAX)
    }
}

/// Whether a run of a file comes out as its row says.
fn comes_out(alloc: Global, file: &[u8], run: &Run) -> Result<bool, AllocError> {
    let mut input = Vec::new(alloc);
    input.extend_from_slice(run.input)?;
    let mut streams = Streams {
        out: Room::new(alloc, run.room),
        err: Room::new(alloc, 0),
    };
    let Ok(image) = read(alloc, file) else {
        return Ok(false);
    };
    let mut scenario = Scenario::begin(alloc, image, Vec::new(alloc), Vec::new(alloc))?;
    scenario.choose(1000);
    let came = run_through(alloc, &mut scenario, input, &mut streams);
    Ok(
        matches!(came, Ok(stops) if stops == run.stops)
            && streams.out.taken.as_slice() == run.output,
    )
}

/// Whether a run comes out as its row says.
fn is_run(alloc: Global, run: &Run) -> Result<bool, AllocError> {
    let file = program(alloc, run.words)?;
    comes_out(alloc, &file, run)
}

#[test]
fn programs_are_executed(rt: HostRuntime) {
    for run in &RUNS {
        assert!(rt;
            matches!(is_run(rt.alloc(), run), Ok(true)),
            "{}",
            run.label
        );
    }
}

/// A run that has exited with 0 at step 9, without errors.
const PLAIN: Outcome = Outcome {
    step: 9,
    ended: Ended::AtLast,
    status: Status::Exited(0),
    idles: false,
    has_errors: false,
    lost: 0,
    limits: StreamLimits {
        most_moved: 2_147_479_552,
        most_output: 65_536,
    },
    limits_told: false,
    heap_fails: false,
    heap_told: false,
    is_open: false,
};

/// The exit statuses that a user chose.
const CHOSEN: ChosenStatuses = ChosenStatuses {
    errors: Some(99),
    idle: Some(3),
};

/// None.
const NONE_CHOSEN: ChosenStatuses = ChosenStatuses {
    errors: None,
    idle: None,
};

/// An end, its exit status, and what is said of it.
const ENDS: [(ExecEnd<'static>, u8, &'static [u8]); 17] = [
    (ExecEnd::Ran(CHOSEN, PLAIN), 0, b""),
    (
        ExecEnd::Ran(
            CHOSEN,
            Outcome {
                has_errors: true,
                ..PLAIN
            },
        ),
        99,
        b"",
    ),
    (
        ExecEnd::Ran(
            CHOSEN,
            Outcome {
                status: Status::Running,
                ..PLAIN
            },
        ),
        124,
        b"replaycheck exec: still running at step 9\n",
    ),
    (
        ExecEnd::Ran(
            CHOSEN,
            Outcome {
                status: Status::Running,
                idles: true,
                ..PLAIN
            },
        ),
        3,
        b"",
    ),
    (
        ExecEnd::Ran(
            CHOSEN,
            Outcome {
                status: Status::Stopped(Stop::Jump),
                ..PLAIN
            },
        ),
        139,
        b"",
    ),
    (
        ExecEnd::Ran(
            CHOSEN,
            Outcome {
                status: Status::Running,
                idles: true,
                has_errors: true,
                ..PLAIN
            },
        ),
        99,
        b"",
    ),
    (
        ExecEnd::Ran(
            CHOSEN,
            Outcome {
                heap_fails: true,
                heap_told: true,
                ..PLAIN
            },
        ),
        99,
        b"replaycheck exec: a.elf: errors of the heap can't be found in blocks of these (see `replaycheck adopt`, --not-heap): k_malloc\n",
    ),
    (
        ExecEnd::Ran(
            NONE_CHOSEN,
            Outcome {
                heap_fails: true,
                ..PLAIN
            },
        ),
        126,
        b"",
    ),
    (
        ExecEnd::Ran(
            NONE_CHOSEN,
            Outcome {
                status: Status::Running,
                idles: true,
                has_errors: true,
                ..PLAIN
            },
        ),
        124,
        b"replaycheck exec: in a jump to itself (--idle-exitcode=0 passes that, as a failed assert that loops) at step 9\n",
    ),
    (
        ExecEnd::Ran(CHOSEN, Outcome { lost: 2, ..PLAIN }),
        123,
        b"replaycheck exec: 65536 bytes of output are all there is room for (--most-output); writes refused: 2\n",
    ),
    (
        ExecEnd::Ran(
            CHOSEN,
            Outcome {
                limits_told: true,
                is_open: true,
                ..PLAIN
            },
        ),
        0,
        b"\nreplaycheck exec: other commands repeat this run with --most-moved 2147479552 --most-output 65536\n",
    ),
    (
        ExecEnd::Ran(
            CHOSEN,
            Outcome {
                limits: StreamLimits {
                    most_moved: 1,
                    most_output: u64::MAX,
                },
                limits_told: true,
                ..PLAIN
            },
        ),
        0,
        b"replaycheck exec: other commands repeat this run with --most-moved 1 --most-output none\n",
    ),
    (
        ExecEnd::Ran(
            CHOSEN,
            Outcome {
                status: Status::Running,
                is_open: true,
                ..PLAIN
            },
        ),
        124,
        b"\nreplaycheck exec: still running at step 9\n",
    ),
    (
        ExecEnd::Ran(
            CHOSEN,
            Outcome {
                is_open: true,
                ..PLAIN
            },
        ),
        0,
        b"",
    ),
    (
        ExecEnd::Early(End::CannotRead("a")),
        127,
        b"replaycheck: cannot read a\n",
    ),
    (
        ExecEnd::PatchRefused("0=0"),
        126,
        b"replaycheck exec: patch refused 4: 0=0\n",
    ),
    (
        ExecEnd::BadPatch("x"),
        125,
        b"replaycheck exec: not ADDR=WORD: --patch x\n",
    ),
];

/// The same of runs that end before their last step.
const EARLY_ENDS: [(ExecEnd<'static>, u8, &'static [u8]); 3] = [
    (
        ExecEnd::Ran(
            CHOSEN,
            Outcome {
                status: Status::Running,
                ended: Ended::Overflow(0x7EFF_F000),
                idles: true,
                has_errors: true,
                ..PLAIN
            },
        ),
        139,
        b"replaycheck exec: Stack overflow in thread #1: can't grow stack to 0x7efff000\n",
    ),
    (
        ExecEnd::Ran(
            CHOSEN,
            Outcome {
                status: Status::Running,
                ended: Ended::OverLimit(1024),
                has_errors: true,
                ..PLAIN
            },
        ),
        122,
        b"replaycheck exec: more than 1024 MiB of memory are needed at step 9 (--memory-limit)\n",
    ),
    (
        ExecEnd::Ran(
            NONE_CHOSEN,
            Outcome {
                status: Status::Running,
                ended: Ended::Overflow(16),
                lost: 2,
                ..PLAIN
            },
        ),
        139,
        b"replaycheck exec: Stack overflow in thread #1: can't grow stack to 0x00000010\nreplaycheck exec: 65536 bytes of output are all there is room for (--most-output); writes refused: 2\n",
    ),
];

/// Returns the status of an end of a program with an allocator of its own, after what is said of it is written.
fn is_told(alloc: Global, end: ExecEnd<'_>, writer: &mut Room) -> u8 {
    let mut names = Vec::new(alloc);
    if names.extend_from_slice(b"k_malloc").is_err() {
        return 0;
    }
    let file = "a.elf";
    let unknown = Vec::new(alloc);
    let done = ExecDone {
        end,
        file,
        names,
        unknown,
    };
    tell_exec(&done, writer)
}

/// Asserts that each end has its status and its lines.
fn assert_told(rt: &impl Abort, alloc: Global, rows: &[(ExecEnd<'static>, u8, &'static [u8])]) {
    for (i, (end, status, line)) in rows.iter().enumerate() {
        let mut writer = Room::new(alloc, 1000);
        let told = is_told(alloc, *end, &mut writer);
        assert!(rt;
            told == *status && writer.taken.as_slice() == *line,
            "end {i}"
        );
    }
}

#[test]
fn ends_of_executions_are_told(rt: HostRuntime) {
    assert_told(&rt, rt.alloc(), &ENDS);
}

#[test]
fn early_ends_of_executions_are_told(rt: HostRuntime) {
    assert_told(&rt, rt.alloc(), &EARLY_ENDS);
}
