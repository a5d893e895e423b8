//! The status of each end of the program, and the line that it writes.
use driver::{End, LoneOption, SweepOption, tell};
use guest_elf::ElfFault;
use std::alloc::Global;
use std::process::Abort;
use suppressions::SuppFault;
use test_support::Room;

/// An end, with its status and its line.
type Told = (End<'static>, u8, &'static [u8]);

/// Whether a writer with this much room takes as much of an end's line, with its status.
fn is_told(alloc: Global, row: &Told, room: usize) -> bool {
    let (end, status, line) = row;
    let mut writer = Room::new(alloc, room);
    tell(end, &mut writer) == *status
        && writer.taken.len() == line.len().min(room)
        && line.starts_with(&writer.taken)
}

/// Asserts that each end has its status and its line, and a front of the line if a write fails.
fn assert_told(rt: &impl Abort, alloc: Global, rows: &[Told]) {
    for (i, row) in rows.iter().enumerate() {
        assert!(rt;
            is_told(alloc, row, 1000) && is_told(alloc, row, 24),
            "end {i}"
        );
    }
}

const ENDS: [Told; 11] = [
    (End::Done, 0, b""),
    (End::NotClean, 5, b""),
    (
        End::CannotRead("a file"),
        1,
        b"replaycheck: cannot read a file\n",
    ),
    (
        End::CannotReadInput,
        1,
        b"replaycheck: cannot read standard input\n",
    ),
    (End::CannotWrite, 1, b"replaycheck: cannot write\n"),
    (End::Usage, 2, b""),
    (
        End::BadIsa("rv64"),
        2,
        b"replaycheck: not one of rv32im, rv32imc, rv32imac: --isa rv64\n",
    ),
    (
        End::BadHeapRegion("0"),
        2,
        b"replaycheck: not a multiple of 0x10000000 from 0x10000000 to 0xd0000000: --heap-region 0\n",
    ),
    (
        End::BadStackRegion("1..2"),
        2,
        b"replaycheck: not A..B, multiples of 4096 at least 65536 apart: --stack-region 1..2\n",
    ),
    (
        End::RegionsOverlap {
            heap: "0x70000000",
            stack: "0x7f000000..0x80000000",
        },
        2,
        b"replaycheck: heap region and stack region overlap: --heap-region 0x70000000 --stack-region 0x7f000000..0x80000000\n",
    ),
    (
        End::NotText,
        2,
        b"error: invalid UTF-8 was detected in one or more arguments\n",
    ),
];

#[test]
fn ends_are_told(rt: HostRuntime) {
    assert_told(&rt, rt.alloc(), &ENDS);
}

const FILE_ENDS: [Told; 6] = [
    (
        End::Image(ElfFault::Memory),
        4,
        b"replaycheck: out of memory\n",
    ),
    (
        End::Image(ElfFault::NotElf),
        3,
        b"replaycheck: image refused 20\n",
    ),
    (
        End::Image(ElfFault::BadSymbols),
        3,
        b"replaycheck: image refused 31\n",
    ),
    (
        End::Suppressions(SuppFault::Memory),
        4,
        b"replaycheck: out of memory\n",
    ),
    (
        End::Suppressions(SuppFault::BadSuppression(u32::MAX)),
        3,
        b"replaycheck: suppressions refused 13 at line 4294967295\n",
    ),
    (
        End::SuppressionsTooLong,
        3,
        b"replaycheck: suppressions refused 15\n",
    ),
];

#[test]
fn ends_of_files_are_told(rt: HostRuntime) {
    assert_told(&rt, rt.alloc(), &FILE_ENDS);
}

const STEP_ENDS: [Told; 6] = [
    (End::StepsRefused, 3, b"replaycheck: steps refused 5\n"),
    (
        End::Lone(LoneOption::At),
        2,
        b"replaycheck: --at needs --faults\n",
    ),
    (
        End::Lone(LoneOption::Faults),
        2,
        b"replaycheck: --faults needs --at\n",
    ),
    (
        End::Lone(LoneOption::CodeRange),
        2,
        b"replaycheck: --code-range needs --at\n",
    ),
    (
        End::Lone(LoneOption::Pairs),
        2,
        b"replaycheck: --pairs needs --at\n",
    ),
    (
        End::Lone(LoneOption::Sides),
        2,
        b"replaycheck: --sides needs edits of bytes only, without --words and --at\n",
    ),
];

#[test]
fn ends_of_steps_are_told(rt: HostRuntime) {
    assert_told(&rt, rt.alloc(), &STEP_ENDS);
}

const WORD_ENDS: [Told; 5] = [
    (End::InputTooLarge, 3, b"replaycheck: input refused 14\n"),
    (End::BytesRefused, 3, b"replaycheck: bytes refused 3\n"),
    (End::WordsRefused, 3, b"replaycheck: words refused 4\n"),
    (
        End::BadText {
            option: SweepOption::Bytes,
            text: "5..x",
        },
        2,
        b"replaycheck: no range, list or part: --bytes 5..x\n",
    ),
    (End::NoMemory, 4, b"replaycheck: out of memory\n"),
];

#[test]
fn ends_of_words_are_told(rt: HostRuntime) {
    assert_told(&rt, rt.alloc(), &WORD_ENDS);
}
