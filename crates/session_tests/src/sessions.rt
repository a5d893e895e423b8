//! Lines and their replies, by calls of a session.
use crate::serving::{EXITS, REPORT};
use guest_elf::{Image, read};
use replay_session::{Reply, Session};
use std::alloc::{AllocError, Global};
use test_support::program;

/// Returns whether a session without input prints a report at step 3.
fn reports(session: &mut Session<'_>, out: &mut Vec<u8>) -> bool {
    session.command(b"goto 3", out) == Ok(Reply::Done)
        && session.command(b"report", out) == Ok(Reply::Report)
        && out.as_slice() == REPORT
}

/// Returns whether the third line and all up to the last one that is answered report the steps of one report.
fn all_work(session: &mut Session<'_>, out: &mut Vec<u8>) -> bool {
    for _ in 2..100_000 {
        if session.command(b"worked", out) != Ok(Reply::Work(3)) {
            return false;
        }
    }
    true
}

/// Returns whether a report is rejected, as after too many lines.
fn refuses(session: &mut Session<'_>, out: &mut Vec<u8>) -> bool {
    match session.command(b"report", out) {
        Ok(_) => false,
        Err(fault) => fault.number() == 12,
    }
}

/// Returns whether the first 100,000 lines are answered, and the lines after them are rejected and change nothing.
fn answers_100_000(session: &mut Session<'_>, out: &mut Vec<u8>) -> bool {
    reports(session, out)
        && all_work(session, out)
        && refuses(session, out)
        && refuses(session, out)
        && out.len() == REPORT.len()
}

/// Returns whether this holds for a session on an image.
fn begun_answers_100_000(alloc: Global, image: Image<'_>, out: &mut Vec<u8>) -> bool {
    match Session::begin(alloc, image, Vec::new(alloc), Vec::new(alloc)) {
        Ok(mut session) => answers_100_000(&mut session, out),
        Err(_) => false,
    }
}

/// Returns whether this holds for a file.
fn read_answers_100_000(alloc: Global, file: &[u8], out: &mut Vec<u8>) -> bool {
    match read(alloc, file) {
        Ok(image) => begun_answers_100_000(alloc, image, out),
        Err(_) => false,
    }
}

/// A label, a program, a line that chooses a step, and the line of the verdict up to that step.
type Verdict = (&'static str, &'static [u32], &'static [u8], &'static [u8]);

/// Clean runs: whether they have ended, or go on.
const VERDICTS: [Verdict; 5] = [
    (
        "it has exited",
        &EXITS,
        b"goto 3",
        b"clean to step 3: nothing that uninitialised, freed or unmapped memory holds has any influence on this run\n",
    ),
    (
        "it goes on",
        &EXITS,
        b"goto 2",
        b"clean up to step 2: nothing that uninitialised, freed or unmapped memory holds has any influence on the run up to there; the run goes on\n",
    ),
    (
        "it has stopped at EBREAK",
        &[0x0010_0073],
        b"goto 1",
        b"clean to step 1: nothing that uninitialised, freed or unmapped memory holds has any influence on this run\n",
    ),
    (
        "it rests in a jump to itself",
        &[0x0000_006F],
        b"goto 0",
        b"clean to step 0: nothing that uninitialised, freed or unmapped memory holds has any influence on this run\n",
    ),
    (
        "it goes on in a loop of two instructions",
        &[0x0000_0013, 0xFFDF_F06F],
        b"goto 9",
        b"clean up to step 9: nothing that uninitialised, freed or unmapped memory holds has any influence on the run up to there; the run goes on\n",
    ),
];

/// Returns whether a session at the step of a line has a verdict.
fn tells(session: &mut Session<'_>, line: &[u8], want: &[u8], out: &mut Vec<u8>) -> bool {
    session.command(line, out) == Ok(Reply::Done)
        && session.certify(out).is_ok()
        && out.as_slice() == want
}

/// Returns whether a session on an image does.
fn begun_tells(
    alloc: Global,
    image: Image<'_>,
    line: &[u8],
    want: &[u8],
    out: &mut Vec<u8>,
) -> bool {
    match Session::begin(alloc, image, Vec::new(alloc), Vec::new(alloc)) {
        Ok(mut session) => tells(&mut session, line, want, out),
        Err(_) => false,
    }
}

/// Returns the same for a new file.
fn tells_anew(alloc: Global, words: &[u32], line: &[u8], want: &[u8]) -> Result<bool, AllocError> {
    let file = program(alloc, words)?;
    let mut out = Vec::new(alloc);
    match read(alloc, &file) {
        Ok(image) => Ok(begun_tells(alloc, image, line, want, &mut out)),
        Err(_) => Ok(false),
    }
}

#[test]
fn verdicts(rt: HostRuntime) {
    for (label, words, line, want) in &VERDICTS {
        assert!(rt;
            matches!(tells_anew(rt.alloc(), words, line, want), Ok(true)),
            "{}",
            label
        );
    }
}

/// Returns the same for a new file.
fn answers_100_000_anew(alloc: Global) -> Result<bool, AllocError> {
    let file = program(alloc, &EXITS)?;
    let mut out = Vec::new(alloc);
    Ok(read_answers_100_000(alloc, &file, &mut out))
}

#[test]
fn too_many_lines(rt: HostRuntime) {
    assert!(rt; matches!(answers_100_000_anew(rt.alloc()), Ok(true)));
}
