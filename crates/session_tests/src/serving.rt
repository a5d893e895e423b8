//! Lines and their replies, over readers and writers that fail.
use guest_elf::{Image, read};
use replay_session::laws::work_of_lines;
use replay_session::{BeginFault, LONGEST_INPUT, ServeFault, Session, serve};
use std::alloc::{AllocError, Global};
use std::process::Abort;
use test_support::{Interruptions, Refusal, Room, Script, program};

/// Three words: exit with status 0.
pub(crate) const EXITS: [u32; 3] = [0x05D0_0893, 0x0000_0513, 0x0000_0073];

/// `lw a0, 0(x2)` and a branch on it, below a new stack frame.
const BRANCHES: [u32; 3] = [0xFF01_0113, 0x0001_2503, 0x0005_0463];

/// The report of `EXITS` at step 3, with no input.
pub(crate) const REPORT: &[u8] = b"step 3
state exited 0
input 0 of 0
output 0
definitely lost: 0 bytes in 0 blocks
indirectly lost: 0 bytes in 0 blocks
possibly lost: 0 bytes in 0 blocks
still reachable: 0 bytes in 0 blocks
suppressed: 0 bytes in 0 blocks
ERROR SUMMARY: 0 errors from 0 contexts (suppressed: 0 from 0)
";

/// How a served session ends; `None` if its input is too large.
type End = Option<Result<(), ServeFault>>;

const DONE: End = Some(Ok(()));

/// How it ends if memory runs out for it.
const NO_MEMORY: End = Some(Err(ServeFault::NoMemory {
    replies: 0,
    bytes: 0,
}));

/// Serves the lines of a script to a writer, over an image and an input.
fn served_over(
    alloc: Global,
    image: Image<'_>,
    input: Vec<u8>,
    script: &mut Script<'_>,
    writer: &mut Room,
) -> End {
    match Session::begin(alloc, image, input, Vec::new(alloc)) {
        Ok(session) => Some(serve(session, script, writer)),
        Err(BeginFault::InputTooLarge) => None,
        Err(BeginFault::Memory) => NO_MEMORY,
    }
}

/// Serves the same over a file, with an input of `input_len` zeros.
fn served_of(
    alloc: Global,
    file: &[u8],
    input_len: usize,
    script: &mut Script<'_>,
    writer: &mut Room,
) -> Result<End, AllocError> {
    let input = vec![in alloc; 0u8; input_len]?;
    match read(alloc, file) {
        Ok(image) => Ok(served_over(alloc, image, input, script, writer)),
        Err(_) => Ok(NO_MEMORY),
    }
}

/// Returns whether a session over a program of some words, with an input of this length, ends in this way.
fn ends(
    alloc: Global,
    (words, input_len): (&[u32], usize),
    script: &mut Script<'_>,
    writer: &mut Room,
    want: &End,
) -> Result<bool, AllocError> {
    let file = program(alloc, words)?;
    Ok(served_of(alloc, &file, input_len, script, writer)? == *want)
}

/// Returns whether a session without a line ends in this way.
fn ends_at_once(alloc: Global, input_len: usize, want: &End) -> Result<bool, AllocError> {
    let mut writer = Room::new(alloc, 0);
    let mut script = Script::new(b"");
    ends(alloc, (&EXITS, input_len), &mut script, &mut writer, want)
}

#[test]
fn the_longest_input(rt: HostRuntime) {
    let longest = ends_at_once(rt.alloc(), LONGEST_INPUT, &DONE);
    assert!(rt; matches!(longest, Ok(true)));
    let longer = ends_at_once(rt.alloc(), LONGEST_INPUT + 1, &None);
    assert!(rt; matches!(longer, Ok(true)));
}

/// A label; a program and lines; parts of the replies, and how often each occurs in them.
type Shown = (
    &'static str,
    &'static [u32],
    &'static [u8],
    &'static [(&'static str, usize)],
);

/// Returns whether a text has all these parts.
fn has_parts(text: &str, parts: &[(&str, usize)]) -> bool {
    for (part, count) in parts {
        if text.matches(*part).count() != *count {
            return false;
        }
    }
    true
}

/// Returns whether a row holds, by what a writer takes.
fn shows(alloc: Global, row: &Shown, writer: &mut Room) -> Result<bool, AllocError> {
    let mut script = Script::new(row.2);
    if !ends(alloc, (row.1, 2), &mut script, writer, &DONE)? {
        return Ok(false);
    }
    match std::str::from_utf8(&writer.taken) {
        Ok(text) => Ok(has_parts(text, row.3)),
        Err(_) => Ok(false),
    }
}

/// Returns the same for a new writer.
fn shows_anew(alloc: Global, row: &Shown) -> Result<bool, AllocError> {
    let mut writer = Room::new(alloc, 1 << 20);
    shows(alloc, row, &mut writer)
}

/// Asserts that rows hold.
fn assert_shown(rt: &impl Abort, alloc: Global, rows: &[Shown]) {
    for row in rows {
        assert!(rt; matches!(shows_anew(alloc, row), Ok(true)), "{}", row.0);
    }
}

const EDITS: [Shown; 1] = [
    // An input byte, a suppression and its switch, between reports. By the law of work, three reports at step 3, with only the machine at
    // step 0 held, cost 9 steps.
    (
        "edits",
        &BRANCHES,
        b"goto 3\nreport\nsupp add Cond ...\nreport\nsupp off 0\nreport\nworked\n",
        &[
            (
                "ERROR SUMMARY: 1 errors from 1 contexts (suppressed: 0 from 0)\n",
                2,
            ),
            (
                "ERROR SUMMARY: 0 errors from 0 contexts (suppressed: 1 from 1)\n",
                1,
            ),
            ("input 0 of 2\n", 3),
            ("ok\n", 3),
            ("worked 9\n", 1),
        ],
    ),
];

#[test]
fn edits_show(rt: HostRuntime) {
    work_of_lines();
    assert_shown(&rt, rt.alloc(), &EDITS);
}

const MARKS_AND_LATE: [Shown; 3] = [
    (
        "marked",
        &EXITS,
        b"goto 3\nmark 0 0x10000 4 undefined\nreport\n",
        &[(
            "ERROR SUMMARY: 1 errors from 1 contexts (suppressed: 0 from 0)\n",
            1,
        )],
    ),
    (
        "taken out",
        &EXITS,
        b"goto 3\nmark 0 0x10000 4 undefined\nunmark 0\nreport\n",
        &[(
            "ERROR SUMMARY: 0 errors from 0 contexts (suppressed: 0 from 0)\n",
            1,
        )],
    ),
    // A step after the one that `run` reports at.
    (
        "late",
        &EXITS,
        b"goto 1048577\nreport\n",
        &[("ok\nstep 1048577\nstate exited 0\n", 1)],
    ),
];

#[test]
fn taken_out_and_late(rt: HostRuntime) {
    assert_shown(&rt, rt.alloc(), &MARKS_AND_LATE);
}

/// A text in pieces: bytes, and the number of copies of them.
type Pieces = &'static [(&'static [u8], usize)];

/// A label; lines, the greatest number of bytes that a read gives, and which reads are interrupted; and the replies.
type Answered = (&'static str, Pieces, usize, Interruptions, Pieces);

/// Returns the text of pieces.
fn joined(alloc: Global, pieces: &[(&[u8], usize)]) -> Result<Vec<u8>, AllocError> {
    let mut text = Vec::new(alloc);
    for (bytes, count) in pieces {
        for _ in 0..*count {
            text.extend_from_slice(bytes)?;
        }
    }
    Ok(text)
}

/// A writer: the number of bytes that it takes, and at most in each write; the number of writes, and how it rejects the next; the number of
/// flushes.
type Writing = (usize, usize, u64, Refusal, usize);

/// A writer that takes everything.
const ROOMY: Writing = (1 << 20, usize::MAX, u64::MAX, Refusal::Fails, usize::MAX);

/// Returns whether serving lines ends in this way, and a writer has taken the first `bytes` bytes of the replies and flushed `flushed` of
/// them.
fn are_taken(
    alloc: Global,
    script: &mut Script<'_>,
    writing: &Writing,
    want: &End,
    (replies, taken, flushed): (&[u8], usize, usize),
) -> Result<bool, AllocError> {
    let mut writer = Room::new(alloc, writing.0);
    (writer.most, writer.writes, writer.refusal) = (writing.1, writing.2, writing.3);
    writer.flushes = writing.4;
    let is_so = ends(alloc, (&EXITS, 2), script, &mut writer, want)?;
    Ok(
        is_so
            && writer.taken.len() == taken
            && writer.flushed == flushed
            && replies.starts_with(&writer.taken),
    )
}

/// Returns whether a row holds.
fn is_answered(alloc: Global, row: &Answered) -> Result<bool, AllocError> {
    let lines = joined(alloc, row.1)?;
    let want = joined(alloc, row.4)?;
    let mut script = Script::new(&lines);
    (script.most, script.interruptions) = (row.2, row.3);
    let all = (want.as_slice(), want.len(), want.len());
    are_taken(alloc, &mut script, &ROOMY, &DONE, all)
}

/// Asserts that rows hold.
fn assert_answered(rt: &impl Abort, alloc: Global, rows: &[Answered]) {
    for row in rows {
        assert!(rt; matches!(is_answered(alloc, row), Ok(true)), "{}", row.0);
    }
}

const SHORT: [Answered; 3] = [
    (
        "a carriage return goes before a newline alone",
        &[(b"goto 3\r\nreport\r\r\n\nunmark 0", 1)],
        usize::MAX,
        Interruptions::None,
        &[(b"ok\nrefused 2\nrefused 2\nrefused 7\n", 1)],
    ),
    (
        "and at no end",
        &[(b"goto 3\r", 1)],
        usize::MAX,
        Interruptions::None,
        &[(b"refused 2\n", 1)],
    ),
    (
        "a byte at a time, with interruptions",
        &[(b"goto 3\r\nreport\r\r\n\nunmark 0", 1)],
        1,
        Interruptions::EverySecond,
        &[(b"ok\nrefused 2\nrefused 2\nrefused 7\n", 1)],
    ),
];

#[test]
fn any_reader(rt: HostRuntime) {
    assert_answered(&rt, rt.alloc(), &SHORT);
}

const LONG: [Answered; 2] = [
    (
        "over 200,000 reads, of a byte each, are no input without an end",
        &[(b"goto 0\n", 30_000)],
        1,
        Interruptions::None,
        &[(b"ok\n", 30_000)],
    ),
    (
        "a line of 4,096 bytes and one of 4,097",
        &[
            (b"supp add Cond fun:", 1),
            (b"a", 4096 - 18),
            (b"\r\nsupp add Cond fun:a", 1),
            (b"a", 4096 - 18),
            (b"\r\n", 1),
        ],
        usize::MAX,
        Interruptions::None,
        &[(b"ok\nrefused 11\n", 1)],
    ),
];

#[test]
fn many_reads_and_long_lines(rt: HostRuntime) {
    assert_answered(&rt, rt.alloc(), &LONG);
}

/// Four lines, of which the last has no newline, and the others seven bytes each.
const LINES: &[u8] = b"goto 3\nreport\nworked\nunm";

/// The replies to them.
const REPLIES: &[u8] = b"ok
step 3
state exited 0
input 0 of 2
output 0
definitely lost: 0 bytes in 0 blocks
indirectly lost: 0 bytes in 0 blocks
possibly lost: 0 bytes in 0 blocks
still reachable: 0 bytes in 0 blocks
suppressed: 0 bytes in 0 blocks
ERROR SUMMARY: 0 errors from 0 contexts (suppressed: 0 from 0)
worked 3
refused 2
";

/// The number of bytes of the replies to none, one, two, three and all of the lines.
const REPLIED: [usize; 5] = [0, 3, 288, 297, 307];

/// Returns the number of whole replies in the first `bytes` bytes, and their number of bytes.
fn whole_replies(bytes: usize) -> (u64, usize) {
    match bytes {
        0..=2 => (0, 0),
        3..=287 => (1, 3),
        288..=296 => (2, 288),
        297..=306 => (3, 297),
        _ => (4, 307),
    }
}

/// Returns whether a reader of `LINES` that fails after `given` bytes, or doesn't fail, gets the replies to the lines whose newline it
/// gave, or all.
fn is_served(
    alloc: Global,
    reader: &mut Script<'_>,
    given: usize,
    fails: bool,
) -> Result<bool, AllocError> {
    let replies = if fails { (given / 7).min(3) } else { 4 };
    let fault = ServeFault::ReadFailed {
        replies: replies as u64,
        bytes: REPLIED[replies] as u64,
    };
    let want = if fails { Some(Err(fault)) } else { DONE };
    let bytes = REPLIED[replies];
    are_taken(alloc, reader, &ROOMY, &want, (REPLIES, bytes, bytes))
}

/// A label; the number of bytes that each read gives, which reads are interrupted, the number of bytes that two reads give; the number of
/// reads; and whether these are bytes, each of which fails.
type Reading = (&'static str, usize, Interruptions, usize, usize, bool);

const READINGS: [Reading; 3] = [
    ("five bytes each", 5, Interruptions::None, 10, 6, false),
    (
        "one each, interrupted and made again",
        1,
        Interruptions::EverySecond,
        1,
        50,
        false,
    ),
    ("each byte", usize::MAX, Interruptions::None, 2, 24, true),
];

/// Returns whether the fault is right if reads fail from each one on.
fn reads_fail(alloc: Global, reading: &Reading) -> Result<bool, AllocError> {
    let (_, most, interruptions, by_two, reads, by_byte) = *reading;
    for n in 0..=reads {
        let mut reader = Script::new(LINES);
        (reader.most, reader.interruptions) = (most, interruptions);
        if by_byte {
            reader.bytes = n;
        } else {
            reader.failing_read = n as u64;
        }
        let given = by_two.wrapping_mul(n) / 2;
        if !is_served(alloc, &mut reader, given, by_byte || n < reads)? {
            return Ok(false);
        }
    }
    Ok(true)
}

#[test]
fn each_read_fails_in_turn(rt: HostRuntime) {
    for reading in &READINGS {
        assert!(rt;
            matches!(reads_fail(rt.alloc(), reading), Ok(true)),
            "{}",
            reading.0
        );
    }
}

/// Returns whether reads without an end stop at the 10,000th, which fails, after replies of three bytes each.
fn stops(
    alloc: Global,
    interruptions: Interruptions,
    endless: bool,
    replies: u64,
) -> Result<bool, AllocError> {
    let mut reader = Script::new(b"goto 3\n");
    (reader.interruptions, reader.endless) = (interruptions, endless);
    reader.failing_read = 10_000;
    let bytes = if replies == 0 { 0 } else { 3 };
    let want = Some(Err(ServeFault::ReadFailed {
        replies,
        bytes: bytes as u64,
    }));
    let is_so = are_taken(alloc, &mut reader, &ROOMY, &want, (REPLIES, bytes, bytes))?;
    Ok(is_so && reader.reads == 10_000)
}

/// Reads that are all interrupted, and a line that never ends, until a read fails.
#[test]
fn without_an_end(rt: HostRuntime) {
    let interrupted = stops(rt.alloc(), Interruptions::All, false, 0);
    assert!(rt; matches!(interrupted, Ok(true)));
    let endless = stops(rt.alloc(), Interruptions::None, true, 1);
    assert!(rt; matches!(endless, Ok(true)));
}

/// Returns whether a writer takes this many bytes of the replies to `LINES`, and flushes this many.
fn is_written(
    alloc: Global,
    writing: &Writing,
    bytes: usize,
    flushed: usize,
) -> Result<bool, AllocError> {
    let fault = ServeFault::WriteFailed {
        replies: whole_replies(bytes).0,
        bytes: bytes as u64,
    };
    let want = if flushed == REPLIED[4] {
        DONE
    } else {
        Some(Err(fault))
    };
    let mut script = Script::new(LINES);
    are_taken(
        alloc,
        &mut script,
        writing,
        &want,
        (REPLIES, bytes, flushed),
    )
}

/// The number of bytes taken and the number flushed before each write of at most 50.
const WRITTEN: [(usize, usize); 10] = [
    (0, 0),
    (3, 3),
    (53, 3),
    (103, 3),
    (153, 3),
    (203, 3),
    (253, 3),
    (288, 288),
    (297, 297),
    (307, 307),
];

/// Returns whether the fault is right if writes fail from each one on.
fn writes_fail(alloc: Global, refusal: Refusal) -> Result<bool, AllocError> {
    for (n, (bytes, flushed)) in WRITTEN.iter().enumerate() {
        let writing = (1 << 20, 50, n as u64, refusal, usize::MAX);
        if !is_written(alloc, &writing, *bytes, *flushed)? {
            return Ok(false);
        }
    }
    Ok(true)
}

/// Returns whether the fault is right if writes fail from each byte on.
fn bytes_fail(alloc: Global) -> Result<bool, AllocError> {
    for bytes in 0..=REPLIED[4] {
        let writing = (bytes, usize::MAX, u64::MAX, Refusal::Fails, usize::MAX);
        if !is_written(alloc, &writing, bytes, whole_replies(bytes).1)? {
            return Ok(false);
        }
    }
    Ok(true)
}

/// Returns whether the fault is right if flushes fail.
fn flushes_fail(alloc: Global) -> Result<bool, AllocError> {
    for n in 0..4 {
        let writing = (1 << 20, usize::MAX, u64::MAX, Refusal::Fails, n);
        if !is_written(alloc, &writing, REPLIED[n + 1], REPLIED[n])? {
            return Ok(false);
        }
    }
    Ok(true)
}

/// What fails in turn.
#[derive(Clone, Copy)]
enum Failing {
    /// Each write of at most 50 bytes, in some way.
    Writes(Refusal),
    /// Writes from each byte on.
    Bytes,
    Flushes,
}

/// Returns whether the fault is right each time.
fn fails(alloc: Global, failing: Failing) -> Result<bool, AllocError> {
    match failing {
        Failing::Writes(refusal) => writes_fail(alloc, refusal),
        Failing::Bytes => bytes_fail(alloc),
        Failing::Flushes => flushes_fail(alloc),
    }
}

const FAILINGS: [(&str, Failing); 5] = [
    ("a write fails", Failing::Writes(Refusal::Fails)),
    ("it takes nothing", Failing::Writes(Refusal::TakesNothing)),
    ("it is interrupted", Failing::Writes(Refusal::IsInterrupted)),
    ("from a byte on", Failing::Bytes),
    ("a flush fails", Failing::Flushes),
];

#[test]
fn each_write_fails_in_turn(rt: HostRuntime) {
    for (label, failing) in &FAILINGS {
        assert!(rt; matches!(fails(rt.alloc(), *failing), Ok(true)), "{label}");
    }
}
