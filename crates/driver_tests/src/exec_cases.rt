//! What `exec` writes, and how it ends.
ghost use Rattle.std.specs.Prelude.{◌≡◌, IfOk, option_map, string_bytes};

use crate::shelf::Shelf;
use crate::words::{COPIES, Given, WRITES, profile_of};
use command_line::{ExecArgs, Order, ProfileArgs, Task};
use exit_status::tell_exec;
use std::alloc::{AllocError, Global};
use std::io;
use std::io::Write;
use std::process::Abort;
use test_runs::{Log, Streams, exec_order};
use test_support::{Room, Script, program};

/// A place for a report, which can be opened or not, and which one is open.
#[derive(Drop)]
struct Paper {
    room: Room,
    opens: bool,
    opened: Option<Option<String>>,
    alloc: Global,
}

impl Write for Paper {
    fn write(&mut self, bytes: &[u8]) -> io::Result<usize> {
        self.room.write(bytes)
    }

    fn flush(&mut self) -> io::Result<()> {
        self.room.flush()
    }
}

/// Returns a place, which may be a path, as a text of its own.
fn owned(alloc: Global, path: Option<&str>) -> Result<Option<String>, AllocError>
    ensures { IfOk result (λ place. option_map string_bytes place ≡ option_map (λ path. path.now) path.entry) }
{
    match path {
        Some(path) => Ok(Some(String::from_str(alloc, path)?)),
        None => Ok(None),
    }
}

impl Log for Paper {
    ghost place = { λ paper. option_map (option_map string_bytes) paper.opened };

    fn open(&mut self, path: Option<&str>) -> bool {
        if !self.opens {
            return false;
        }
        match owned(self.alloc, path) {
            Ok(place) => {
                self.opened = Some(place);
                true
            }
            Err(_) => false,
        }
    }
}

/// Frees an address that no block has (`free(0x100)` as call 2002), and exits with status 0.
const FREES: [u32; 7] = [
    0x1000_0513,
    0x7D20_0893,
    0x0000_0073,
    0x05D0_0893,
    0x0000_0513,
    0x0000_0073,
    0x0000_0013,
];

/// The arguments of `exec` that ask for nothing but a quiet report at step 1000.
const PLAIN: ExecArgs<'static> = ExecArgs {
    step: 1000,
    patches: None,
    report: None,
    error_exitcode: None,
    idle_exitcode: None,
    callers: 12,
    redzone: 16,
    queue: 20_000_000,
    show: "definite,possible",
    count: "definite,possible",
    quiet: true,
    require_heap: false,
    no_require_heap: true,
    not_heap: None,
    memory_limit: 1024,
    end_line: false,
};

/// What there is room for: the bytes of output, of standard error and of a report that are taken, and whether the report's file can be
/// opened.
#[derive(Clone, Copy)]
struct Rooms {
    output: usize,
    error: usize,
    report: usize,
    opens: bool,
}

/// What a case asks for that isn't usual.
#[derive(Clone, Copy)]
pub(crate) enum Ask {
    /// An instruction set.
    Isa(&'static str),
    /// Where the heap's region begins.
    Heap(&'static str),
    /// The stack's region.
    Stack(&'static str),
    /// The last step.
    Step(u32),
    /// Patches.
    Patches(&'static str),
    /// The status of errors.
    ErrorStatus(u32),
    /// The status of a jump to itself.
    IdleStatus(u32),
    /// A report that isn't quiet.
    Report,
    /// The same, to the file `log`.
    Log,
    /// A file `log` that can't be opened.
    NoLog,
    /// The end of an open line before a report in a file.
    EndLine,
    /// A heap of which errors can be found.
    SeenHeap,
    /// The most memory, in MiB.
    Memory(u32),
    /// Standard input.
    Input(&'static [u8]),
    /// How many bytes of output are taken.
    OutputRoom(usize),
    /// How many bytes of standard error are taken.
    ErrorRoom(usize),
}

/// What is said after a run: all of it, or a front.
#[derive(Clone, Copy)]
pub(crate) enum Said {
    All(&'static [u8]),
    Front(&'static [u8]),
}

/// A label; a program's words and what is asked for; the exit status; what the run writes to standard output and to standard error; the
/// front of the report, which is empty where there is none; and what is said.
#[derive(Clone, Copy)]
pub(crate) struct Case {
    pub(crate) label: &'static str,
    pub(crate) words: &'static [u32],
    pub(crate) asks: &'static [Ask],
    pub(crate) status: u8,
    pub(crate) output: &'static [u8],
    pub(crate) error: &'static [u8],
    pub(crate) report: &'static [u8],
    pub(crate) said: Said,
}

/// What a file is read for, the arguments, standard input and the rooms.
#[derive(Clone, Copy)]
struct Setting {
    profile: ProfileArgs<'static>,
    asked: ExecArgs<'static>,
    input: &'static [u8],
    rooms: Rooms,
}

/// Puts into a setting what is asked for.
fn put(setting: &mut Setting, ask: Ask) {
    match ask {
        Ask::Isa(isa) => setting.profile.isa = isa,
        Ask::Heap(heap) => setting.profile.heap = heap,
        Ask::Stack(stack) => setting.profile.stack = stack,
        Ask::Step(step) => setting.asked.step = step,
        Ask::Patches(patches) => setting.asked.patches = Some(patches),
        Ask::ErrorStatus(status) => setting.asked.error_exitcode = Some(status),
        Ask::IdleStatus(status) => setting.asked.idle_exitcode = Some(status),
        Ask::Report => setting.asked.quiet = false,
        Ask::Log => {
            setting.asked.quiet = false;
            setting.asked.report = Some("log");
        }
        Ask::NoLog => setting.rooms.opens = false,
        Ask::EndLine => setting.asked.end_line = true,
        Ask::SeenHeap => setting.asked.no_require_heap = false,
        Ask::Memory(limit) => setting.asked.memory_limit = limit,
        Ask::Input(input) => setting.input = input,
        Ask::OutputRoom(room) => setting.rooms.output = room,
        Ask::ErrorRoom(room) => setting.rooms.error = room,
    }
}

/// What is usual, but for what is asked for.
fn setting_of(asks: &[Ask]) -> Setting {
    let mut setting = Setting {
        profile: profile_of(Given::Nothing),
        asked: PLAIN,
        input: b"",
        rooms: Rooms {
            output: 1 << 20,
            error: 1 << 20,
            report: 1 << 20,
            opens: true,
        },
    };
    for ask in asks {
        put(&mut setting, *ask);
    }
    setting
}

/// Whether the place that is open is the one that is asked for. None is where `exec` fails before the run.
fn is_place(opened: &Option<Option<String>>, asked: Option<&str>, status: u8) -> bool {
    match (opened, asked) {
        (Some(Some(path)), Some(asked)) => path.as_str() == asked,
        (Some(None), None) => true,
        (None, _) => status == 125,
        _ => false,
    }
}

/// Whether a text is what is said.
fn is_said(text: &[u8], said: Said) -> bool {
    match said {
        Said::All(all) => text == all,
        Said::Front(front) => text.starts_with(front),
    }
}

/// Whether a case of a file comes out so.
fn comes_out(alloc: Global, file: &[u8], case: &Case) -> bool {
    let setting = setting_of(case.asks);
    let order = Order {
        file: "program",
        input: None,
        suppressions: None,
        profile: setting.profile,
        task: Task::Exec(setting.asked),
    };
    let shelf = Shelf {
        program: file,
        rules: b"",
    };
    let mut reader = Script::new(setting.input);
    let mut streams = Streams {
        out: Room::new(alloc, setting.rooms.output),
        err: Room::new(alloc, setting.rooms.error),
    };
    let mut log = Paper {
        room: Room::new(alloc, setting.rooms.report),
        opens: setting.rooms.opens,
        opened: None,
        alloc,
    };
    let done = exec_order(
        alloc,
        &order,
        &setting.asked,
        &shelf,
        &mut reader,
        &mut streams,
        &mut log,
    );
    let mut said = Room::new(alloc, 1 << 20);
    let status = tell_exec(&done, &mut said);
    is_place(&log.opened, setting.asked.report, case.status)
        && status == case.status
        && streams.out.taken.as_slice() == case.output
        && streams.err.taken.as_slice() == case.error
        && is_said(said.taken.as_slice(), case.said)
        && log.room.taken.starts_with(case.report)
        && log.room.taken.is_empty() == case.report.is_empty()
}

/// Whether a case comes out so.
fn is_executed(alloc: Global, case: &Case) -> Result<bool, AllocError> {
    let file = program(alloc, case.words)?;
    Ok(comes_out(alloc, &file, case))
}

/// Asserts that each case comes out as its row says.
pub(crate) fn assert_executed(rt: &impl Abort, alloc: Global, cases: &[Case]) {
    for case in cases {
        assert!(rt;
            matches!(is_executed(alloc, case), Ok(true)),
            "{}",
            case.label
        );
    }
}

const RUNS: [Case; 12] = [
    Case {
        label: "output and status",
        words: &WRITES,
        asks: &[],
        status: 7,
        output: b"ok!\n",
        error: b"",
        report: b"",
        said: Said::Front(b""),
    },
    Case {
        label: "a patch of the status",
        words: &WRITES,
        asks: &[Ask::Patches("0x1001C=0x00900513")],
        status: 9,
        output: b"ok!\n",
        error: b"",
        report: b"",
        said: Said::Front(b""),
    },
    Case {
        label: "a named instruction set",
        words: &WRITES,
        asks: &[Ask::Isa("rv32imc")],
        status: 7,
        output: b"ok!\n",
        error: b"",
        report: b"",
        said: Said::Front(b""),
    },
    Case {
        label: "an unknown instruction set",
        words: &WRITES,
        asks: &[Ask::Isa("rv32gc")],
        status: 125,
        output: b"",
        error: b"",
        report: b"",
        said: Said::Front(b""),
    },
    Case {
        label: "no region of a stack",
        words: &WRITES,
        asks: &[Ask::Stack("0x10000")],
        status: 125,
        output: b"",
        error: b"",
        report: b"",
        said: Said::Front(b""),
    },
    Case {
        label: "an illegal instruction",
        words: &[0],
        asks: &[],
        status: 132,
        output: b"",
        error: b"",
        report: b"step 1000\nstate stopped illegal",
        said: Said::Front(b""),
    },
    Case {
        label: "standard input is read",
        words: &COPIES,
        asks: &[Ask::Input(b"xyz")],
        status: 0,
        output: b"x",
        error: b"",
        report: b"",
        said: Said::Front(b""),
    },
    Case {
        label: "a bad free that fails",
        words: &FREES,
        asks: &[Ask::ErrorStatus(99)],
        status: 99,
        output: b"",
        error: b"",
        report: b"step 1000\nstate exited 0\n",
        said: Said::Front(b""),
    },
    Case {
        label: "output that can't be written",
        words: &WRITES,
        asks: &[Ask::OutputRoom(2)],
        status: 125,
        output: b"ok",
        error: b"",
        report: b"",
        said: Said::Front(b""),
    },
    Case {
        label: "a report in a file",
        words: &WRITES,
        asks: &[Ask::Log],
        status: 7,
        output: b"ok!\n",
        error: b"",
        report: b"step 1000\nstate exited 7\n",
        said: Said::Front(b""),
    },
    Case {
        label: "a file without symbols, of which it is asked for that errors of its heap can be found",
        words: &WRITES,
        asks: &[Ask::ErrorStatus(99), Ask::SeenHeap],
        status: 99,
        output: b"ok!\n",
        error: b"",
        report: b"",
        said: Said::Front(b""),
    },
    Case {
        label: "a report that can't be opened",
        words: &WRITES,
        asks: &[Ask::NoLog],
        status: 125,
        output: b"",
        error: b"",
        report: b"",
        said: Said::Front(b""),
    },
];

#[test]
fn programs_are_executed(rt: HostRuntime) {
    assert_executed(&rt, rt.alloc(), &RUNS);
}
