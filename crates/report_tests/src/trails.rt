//! Edits of runs, and the number of steps executed for each machine that was asked for. The numbers follow from the steps at which an edit
//! first shows. A trail that is asked for step n executes those from the last step at which it holds a machine, at most n, all of which are
//! multiples of 1024.
ghost use Rattle.checkpoints.specs.Trails.{LoadsAs};

use crate::runs::setup_of;
use checkpoints::{Effect, Fork, Sought, Trail, Watch, run_to};
use guest_elf::{Image, Isa, read};
use guest_machine::{
    Act as Action, Alteration, Code, Input, Machine, Mark, Meter, Setup, Span, Status, Stop, Width,
};
use shadow_memory::RangeKind;
use std::alloc::{AllocError, Global};
use std::process::Abort;
use test_support::sized_program;

/// `lui x5, 0x10; lw x6, 20(x5); addi x5, x5, 4; beq x6, x0, -8; ebreak`: the words from 0x10014 on are read until one isn't 0, word i of
/// them in step 1 + 3i.
const READS_ON: [u32; 5] = [
    0x0001_02B7,
    0x0142_A303,
    0x0042_8293,
    0xFE03_0CE3,
    0x0010_0073,
];

/// `read(0, x2, 4)` in step 5, and an exit with the second byte.
const EXITS_WITH_INPUT: [u32; 10] = [
    0x03F0_0893,
    0x0000_0513,
    0xFF01_0113,
    0x0001_0593,
    0x0040_0613,
    0x0000_0073,
    0x0011_4683,
    0x05D0_0893,
    0x0006_8513,
    0x0000_0073,
];

/// `addi a7, x0, 63; addi a2, x0, 0; addi a1, x2, 0`, then over and over `addi x5, x0, 600; addi x5, x5, -1; bne x5, x0, -4; addi a0, x0,
/// 0; ecall; add x6, x6, a0; bne a0, x0, -24`, and `addi a7, x0, 93; addi a0, x6, 0; ecall`: reads until a call gives no byte, and exits
/// with the number of bytes. Call k is executed in step 1205k. The second word has the number of bytes that a call asks for.
const READS_BYTES: [u32; 13] = [
    0x03F0_0893,
    0x0000_0613,
    0x0001_0593,
    0x2580_0293,
    0xFFF2_8293,
    0xFE02_9EE3,
    0x0000_0513,
    0x0000_0073,
    0x00A3_0333,
    0xFE05_14E3,
    0x05D0_0893,
    0x0003_0513,
    0x0000_0073,
];

/// The programs of the tables.
#[derive(Clone, Copy)]
pub(crate) enum Program {
    /// Runs at 0x10008 in steps 2 + 3i, and reads the word at 0x10014 + 4i in step 1 + 3i.
    ReadsOn,
    /// Has a frame from 0x7FFFFFE0 on from step 2 on, is given two bytes there in step 5, reads the second in step 6, and is halted from
    /// step 10 on.
    ExitsWithInput,
    /// Reads to the end, this number of bytes in each call.
    ReadsBytes(u32),
}

/// Returns the words of a program that asks for `len` bytes in each call.
fn reads_bytes(len: u32) -> [u32; 13] {
    let mut words = READS_BYTES;
    words[1] |= len << 20;
    words
}

impl Program {
    /// Returns its file, with zeros after its words.
    fn file(self, alloc: Global) -> Result<Vec<u8>, AllocError> {
        match self {
            Program::ReadsOn => sized_program(alloc, &READS_ON, 0x2000),
            Program::ExitsWithInput => sized_program(alloc, &EXITS_WITH_INPUT, 0x2000),
            Program::ReadsBytes(len) => sized_program(alloc, &reads_bytes(len), 0x2000),
        }
    }
}

/// The number of steps executed on a trail so far; and of the machine that was asked for, its status, its pc and its number of errors.
type Told = (u64, Status, u32, usize);

/// The step of a fork; and of the machine at a step of the edited run, the number of steps executed for it, its status and its pc.
type Forked = (u32, u64, Status, u32);

/// A step that was found, and the number of steps executed to find it.
pub(crate) type Found = (Option<u32>, u64);

pub(crate) const RUNS: Status = Status::Running;

pub(crate) const ENDS: Status = Status::Stopped(Stop::Break);

/// An act on a trail, and what is expected then.
pub(crate) enum Act {
    /// The machine at a step is asked for.
    Ask(u32, Told),
    /// The machine at a step of the run with only marks is asked for, of which there are none.
    AskUnmarked(u32, Told),
    /// A word is patched.
    Patch(u32, u32),
    /// A half is patched.
    PatchHalf(u32, u16),
    /// A mark is appended to the list.
    AddMark(Mark),
    /// A word is written just before a step.
    Write(u32, u32, u32),
    /// A word is patched that is written in this way too.
    PatchWritten(u32, u32),
    /// The first mark is removed.
    TakeMark,
    /// The input is another, from an offset on.
    ReplaceInput(u32, &'static [u8]),
    /// A byte is appended to the input.
    Append(u8),
    /// The redzone is changed.
    SetRedzone(u32),
    /// At a byte of the input there is a fork, from which another input continues to step 5000.
    ForkAtByte(u32, &'static [u8], Forked),
    /// At a word there is a fork, from which another word continues to step 4000.
    ForkAtWord(u32, u32, Forked),
    /// The run up to a step, without the trail: the number of steps executed, and the status.
    Run(u32, (u64, Status)),
    /// The next and the last step that does something in a range of addresses, from a step on and below another.
    Search((Watch, u32, u32), (u32, u32), [Found; 2]),
}

/// A label, a program, and the acts on its trail.
pub(crate) type Case = (&'static str, Program, &'static [Act]);

const EDITS: [Case; 5] = [
    // A word that isn't read by the step asked for, and one that is read in step 1201.
    (
        "words that are read late",
        Program::ReadsOn,
        &[
            Act::Ask(3000, (3000, RUNS, 0x1000C, 0)),
            Act::Patch(0x112D4, 1),
            Act::Ask(3000, (3952, RUNS, 0x1000C, 0)),
            Act::Ask(4000, (5904, ENDS, 0x10010, 0)),
            Act::Patch(0x10654, 1),
            Act::Ask(4000, (8880, ENDS, 0x10010, 0)),
            Act::Ask(1204, (9060, RUNS, 0x10010, 0)),
        ],
    ),
    // The second half of a word that is read in step 1201, and a half over two words, of which the first is read in step 1024.
    (
        "halves go by the words that have their bytes",
        Program::ReadsOn,
        &[
            Act::Ask(3000, (3000, RUNS, 0x1000C, 0)),
            Act::PatchHalf(0x10656, 1),
            Act::Ask(4000, (5976, ENDS, 0x10010, 0)),
            Act::PatchHalf(0x1056B, 0),
            Act::Ask(4000, (8952, ENDS, 0x10010, 0)),
        ],
    ),
    // A word that is read in step 4, there and back; and one that is read in step 1024: the machine at 1024 is kept and has the word.
    (
        "words that are read early, there and back",
        Program::ReadsOn,
        &[
            Act::Ask(3000, (3000, RUNS, 0x1000C, 0)),
            Act::Patch(0x10018, 1),
            Act::Ask(3000, (6000, ENDS, 0x10010, 0)),
            Act::Patch(0x10018, 0),
            Act::Ask(3000, (9000, RUNS, 0x1000C, 0)),
            Act::Patch(0x10568, 1),
            Act::Ask(3000, (10976, ENDS, 0x10010, 0)),
        ],
    ),
    // Marks at steps 2500, 1024 and 1023, of which the first is removed; and another redzone, although no heap call was executed. The one
    // error is that of the branch on the word that is read in step 2500.
    (
        "marks, and another redzone",
        Program::ReadsOn,
        &[
            Act::Ask(3000, (3000, RUNS, 0x1000C, 0)),
            Act::AddMark(Mark {
                step: 2500,
                addr: 0x10D18,
                len: 4,
                kind: RangeKind::Undefined,
            }),
            Act::Ask(3000, (3952, RUNS, 0x1000C, 1)),
            Act::AddMark(Mark {
                step: 1024,
                addr: 0x20000,
                len: 4,
                kind: RangeKind::Defined,
            }),
            Act::Ask(3000, (5928, RUNS, 0x1000C, 1)),
            Act::AddMark(Mark {
                step: 1023,
                addr: 0x20000,
                len: 4,
                kind: RangeKind::Defined,
            }),
            Act::Ask(3000, (8928, RUNS, 0x1000C, 1)),
            Act::TakeMark,
            Act::Ask(3000, (9880, RUNS, 0x1000C, 0)),
            Act::SetRedzone(0),
            Act::Ask(3000, (10832, RUNS, 0x1000C, 0)),
        ],
    ),
    // An input, another second byte of it, and an earlier step.
    (
        "another input, and an earlier step",
        Program::ExitsWithInput,
        &[
            Act::ReplaceInput(0, b"ab"),
            Act::Ask(10, (10, Status::Exited(98), 0x10024, 0)),
            Act::ReplaceInput(1, b"a\x07"),
            Act::Ask(10, (20, Status::Exited(7), 0x10024, 0)),
            Act::Ask(5, (25, RUNS, 0x10014, 0)),
        ],
    ),
];

const FORKS: [Case; 3] = [
    // The second byte is read in step 2410. Of three bytes, each is read by a call of its own.
    (
        "another input goes on from a fork",
        Program::ReadsBytes(1),
        &[
            Act::ReplaceInput(0, b"ab"),
            Act::ForkAtByte(1, b"acd", (2410, 2590, Status::Exited(3), 0x10030)),
        ],
    ),
    // The word is read in step 1201.
    (
        "another word goes on from a fork",
        Program::ReadsOn,
        &[Act::ForkAtWord(0x10654, 1, (1201, 2799, ENDS, 0x10010))],
    ),
    (
        "a run has no need of a trail",
        Program::ExitsWithInput,
        &[
            Act::ReplaceInput(0, b"a\x07"),
            Act::Run(10, (10, Status::Exited(7))),
        ],
    ),
];

/// A trail, with the input, the heap's settings and the marks that are edited.
#[derive(Drop)]
struct Edited<'a> {
    alloc: Global,
    image: Image<'a>,
    trail: Trail,
    ghost loads: { LoadsAs trail image },
    setup: Setup,
    marks: Vec<Alteration>,
}

/// Returns whether a machine continues from a fork as expected, without marks.
fn goes_on(
    fork: &Fork,
    effect: Effect,
    setup: &Setup,
    step: u32,
    told: &Forked,
) -> Result<bool, AllocError> {
    if step < fork.step {
        return Ok(false);
    }
    let mut meter = Meter::new();
    let machine = fork.follow(effect, setup, &[], step, &mut meter)?;
    let (at, made, status, pc) = told;
    Ok(
        fork.step == *at
            && meter.read() == *made
            && machine.status() == *status
            && machine.pc() == *pc,
    )
}

/// Returns whether a run of an image ends as expected.
fn runs(
    alloc: Global,
    image: &Image,
    setup: &Setup,
    step: u32,
    told: &(u64, Status),
) -> Result<bool, AllocError> {
    let start = Machine::start(alloc, image)?;
    let mut meter = Meter::new();
    let machine = run_to(start, setup, &[], step, &mut meter)?;
    Ok(meter.read() == told.0 && machine.status() == told.1)
}

impl<'a> Edited<'a> {
    /// Returns the trail of a program with no input, no marks and the settings of Memcheck.
    fn begin(alloc: Global, image: Image<'a>) -> Result<Self, AllocError> {
        let trail = Trail::begin(alloc, &image)?;
        Ok(Edited {
            alloc,
            image,
            trail,
            setup: setup_of(alloc, Input::new(Vec::new(alloc))),
            marks: Vec::new(alloc),
        })
    }

    /// Returns whether a machine is as expected.
    fn is_told(&self, machine: &Machine, told: &Told) -> bool {
        let (made, status, pc, errors) = told;
        self.trail.meter().read() == *made
            && machine.status() == *status
            && machine.pc() == *pc
            && machine.groups().len() == *errors
    }

    /// Returns whether the machine at a step of the run with only marks is as expected.
    fn asks_unmarked(&mut self, step: u32, told: &Told) -> Result<bool, AllocError> {
        let machine = self.trail.at(step, &self.setup, &[])?;
        Ok(self.is_told(&machine, told))
    }

    /// Returns whether the machine at a step is as expected.
    fn asks(&mut self, step: u32, told: &Told) -> Result<bool, AllocError> {
        let machine = self.trail.at_altered(step, &self.setup, &self.marks)?;
        Ok(self.is_told(&machine, told))
    }

    /// Patches a word, if its bytes are loaded.
    fn patches(&mut self, addr: u32, word: u32) -> Result<bool, AllocError> {
        if addr % 4 != 0 || !self.image.patchable(addr) {
            return Ok(false);
        }
        self.trail.follow(Effect::Patch {
            addr,
            code: Code::Word(word),
        })?;
        Ok(true)
    }

    /// Patches a half, if the bytes of the word from there on are loaded.
    fn patches_half(&mut self, addr: u32, half: u16) -> Result<bool, AllocError> {
        if addr > 0xFFFF_FFF0 || !self.image.patchable(addr) {
            return Ok(false);
        }
        self.trail.follow(Effect::Patch {
            addr,
            code: Code::Half(half),
        })?;
        Ok(true)
    }

    /// Has the machine altered just before a step.
    fn alters(&mut self, step: u32, act: Action) -> Result<bool, AllocError> {
        self.marks.push(Alteration { step, act })?;
        self.trail.cut(Effect::After(step));
        Ok(true)
    }

    fn adds_mark(&mut self, mark: &Mark) -> Result<bool, AllocError> {
        let act = Action::Make {
            addr: mark.addr,
            len: mark.len,
            kind: mark.kind,
        };
        self.alters(mark.step, act)
    }

    /// Has a word written just before a step.
    fn writes(&mut self, step: u32, addr: u32, value: u32) -> Result<bool, AllocError> {
        let act = Action::Write {
            addr,
            width: Width::Word,
            value,
        };
        self.alters(step, act)
    }

    /// Patches a word that is written in this way, if its bytes are loaded.
    fn patches_written(&mut self, addr: u32, word: u32) -> Result<bool, AllocError> {
        if addr % 4 != 0 || !self.image.patchable(addr) {
            return Ok(false);
        }
        self.trail.follow(Effect::Anew {
            addr,
            code: Code::Word(word),
        })?;
        Ok(true)
    }

    /// Removes the first mark, if there is one.
    fn takes_mark(&mut self) -> bool {
        if self.marks.is_empty() {
            return false;
        }
        let mark = self.marks.remove(0);
        self.trail.cut(Effect::After(mark.step));
        true
    }

    fn replaces_input(&mut self, offset: u32, bytes: &[u8]) -> Result<bool, AllocError> {
        self.setup.input = Input::new(bytes.to_vec(self.alloc)?);
        self.trail.cut(Effect::Input(offset));
        Ok(true)
    }

    fn appends(&mut self, byte: u8) -> Result<bool, AllocError> {
        self.setup.input.push(byte)?;
        self.trail.cut(Effect::End);
        Ok(true)
    }

    fn sets_redzone(&mut self, len: u32) -> bool {
        self.setup.redzone = len;
        self.trail.cut(Effect::Heap);
        true
    }

    /// Returns whether another input continues from a fork as expected.
    fn forks_at_byte(
        &mut self,
        offset: u32,
        other: &[u8],
        told: &Forked,
    ) -> Result<bool, AllocError> {
        let setup = setup_of(self.alloc, Input::new(other.to_vec(self.alloc)?));
        let fork = self
            .trail
            .fork_at_byte(offset, 5000, &self.setup, &self.marks)?;
        goes_on(&fork, Effect::Input(offset), &setup, 5000, told)
    }

    /// Returns whether another word whose bytes are loaded does.
    fn forks_at_word(&mut self, addr: u32, word: u32, told: &Forked) -> Result<bool, AllocError> {
        if addr % 4 != 0 || !self.image.patchable(addr) {
            return Ok(false);
        }
        let fork = self
            .trail
            .fork_at_code(addr, 4, 4000, Isa::RV32IM, &self.setup, &self.marks)?;
        let effect = Effect::Patch {
            addr,
            code: Code::Word(word),
        };
        goes_on(&fork, effect, &self.setup, 4000, told)
    }

    /// Returns whether the next step that does what is sought is found.
    fn finds_next(
        &mut self,
        sought: Sought,
        steps: (u32, u32),
        found: &Found,
    ) -> Result<bool, AllocError> {
        let mut meter = Meter::new();
        let next = self.trail.next(
            sought,
            steps.0,
            steps.1,
            &self.setup,
            &self.marks,
            &mut meter,
        )?;
        Ok(next == found.0 && meter.read() == found.1)
    }

    /// Returns whether the last one is found.
    fn finds_last(
        &mut self,
        sought: Sought,
        steps: (u32, u32),
        found: &Found,
    ) -> Result<bool, AllocError> {
        let mut meter = Meter::new();
        let last = self.trail.last(
            sought,
            steps.0,
            steps.1,
            &self.setup,
            &self.marks,
            &mut meter,
        )?;
        Ok(last == found.0 && meter.read() == found.1)
    }

    /// Returns whether both are found, one after the other.
    fn finds(
        &mut self,
        sought: Sought,
        steps: (u32, u32),
        found: &[Found; 2],
    ) -> Result<bool, AllocError> {
        if !self.finds_next(sought, steps, &found[0])? {
            return Ok(false);
        }
        self.finds_last(sought, steps, &found[1])
    }

    /// Performs an act. Returns whether the outcome is as expected.
    fn performs(&mut self, act: &Act) -> Result<bool, AllocError> {
        match act {
            Act::Ask(step, told) => self.asks(*step, told),
            Act::AskUnmarked(step, told) => self.asks_unmarked(*step, told),
            Act::Patch(addr, word) => self.patches(*addr, *word),
            Act::PatchHalf(addr, half) => self.patches_half(*addr, *half),
            Act::AddMark(mark) => self.adds_mark(mark),
            Act::Write(step, addr, value) => self.writes(*step, *addr, *value),
            Act::PatchWritten(addr, word) => self.patches_written(*addr, *word),
            Act::TakeMark => Ok(self.takes_mark()),
            Act::ReplaceInput(offset, bytes) => self.replaces_input(*offset, bytes),
            Act::Append(byte) => self.appends(*byte),
            Act::SetRedzone(len) => Ok(self.sets_redzone(*len)),
            Act::ForkAtByte(offset, other, told) => self.forks_at_byte(*offset, other, told),
            Act::ForkAtWord(addr, word, told) => self.forks_at_word(*addr, *word, told),
            Act::Run(step, told) => runs(self.alloc, &self.image, &self.setup, *step, told),
            Act::Search((watch, start, len), steps, found) => {
                let range = Span {
                    start: *start,
                    len: *len,
                };
                let sought = Sought {
                    watch: *watch,
                    range,
                };
                self.finds(sought, *steps, found)
            }
        }
    }

    /// Performs each act, one after another.
    fn performs_all(&mut self, acts: &[Act]) -> Result<bool, AllocError> {
        for act in acts {
            if !self.performs(act)? {
                return Ok(false);
            }
        }
        Ok(true)
    }
}

/// Returns whether acts are performed on the trail of an image.
fn are_performed_on(alloc: Global, image: Image<'_>, acts: &[Act]) -> Result<bool, AllocError> {
    let mut edited = Edited::begin(alloc, image)?;
    edited.performs_all(acts)
}

/// Returns whether they are performed on the trail of a file.
fn are_performed_of(alloc: Global, file: &[u8], acts: &[Act]) -> Result<bool, AllocError> {
    match read(alloc, file) {
        Ok(image) => are_performed_on(alloc, image, acts),
        Err(_) => Ok(false),
    }
}

/// Returns whether the acts of a case are performed.
fn are_performed(alloc: Global, case: &Case) -> Result<bool, AllocError> {
    let (_, program, acts) = case;
    let file = program.file(alloc)?;
    are_performed_of(alloc, &file, acts)
}

/// Asserts that the acts of each case are performed.
pub(crate) fn assert_performed(rt: &impl Abort, alloc: Global, cases: &[Case]) {
    for case in cases {
        assert!(rt;
            matches!(are_performed(alloc, case), Ok(true)),
            "{}",
            case.0
        );
    }
}

#[test]
fn edits_cost_what_follows_them(rt: HostRuntime) {
    assert_performed(&rt, rt.alloc(), &EDITS);
}

#[test]
fn forks_go_on(rt: HostRuntime) {
    assert_performed(&rt, rt.alloc(), &FORKS);
}
