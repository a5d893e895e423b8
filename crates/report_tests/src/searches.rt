//! The next and the last step that runs, reads, writes, changes what is known of a byte or raises an error in a range, and the number of
//! steps executed to find it. The numbers follow from the two programs. A search forwards executes the steps up to the one that is found or
//! to the halt. A search backwards executes those of the windows of 1,024 steps, from the last one down to the one in which the step is
//! found.

use crate::trails::{Act, Case, Program, assert_performed};
use checkpoints::Watch;
use guest_machine::Mark;
use shadow_memory::RangeKind;

/// The input of the second program.
const INPUT: Act = Act::ReplaceInput(0, b"ab");

/// The instructions can't be fetched any more from step 1024 on: there the machine still runs, and then it stops.
const STOPS: Mark = Mark {
    step: 1024,
    addr: 0x10000,
    len: 20,
    kind: RangeKind::NoAccess,
};

/// The word that is read in step 2500 is undefined, and the branch at 0x1000C depends on it.
const UNDEFINED: Mark = Mark {
    step: 2500,
    addr: 0x10D18,
    len: 4,
    kind: RangeKind::Undefined,
};

/// A word that is read once.
const ONE_WORD: [Case; 6] = [
    (
        "a word that is read once",
        Program::ReadsOn,
        &[Act::Search(
            (Watch::Read, 0x10654, 4),
            (0, 4000),
            [(Some(1201), 1202), (Some(1201), 2976)],
        )],
    ),
    (
        "a byte within it",
        Program::ReadsOn,
        &[Act::Search(
            (Watch::Read, 0x10656, 1),
            (0, 4000),
            [(Some(1201), 1202), (Some(1201), 2976)],
        )],
    ),
    (
        "a byte of it and one of the next",
        Program::ReadsOn,
        &[Act::Search(
            (Watch::Read, 0x10657, 2),
            (0, 4000),
            [(Some(1201), 1202), (Some(1204), 2976)],
        )],
    ),
    (
        "the step itself, alone",
        Program::ReadsOn,
        &[Act::Search(
            (Watch::Read, 0x10654, 4),
            (1201, 1202),
            [(Some(1201), 1), (Some(1201), 178)],
        )],
    ),
    (
        "the steps after it",
        Program::ReadsOn,
        &[Act::Search(
            (Watch::Read, 0x10654, 4),
            (1202, 4000),
            [(None, 2798), (None, 2976)],
        )],
    ),
    (
        "the steps before it",
        Program::ReadsOn,
        &[Act::Search(
            (Watch::Read, 0x10654, 4),
            (0, 1201),
            [(None, 1201), (None, 1201)],
        )],
    ),
];

#[test]
fn a_word_that_is_read_once(rt: HostRuntime) {
    assert_performed(&rt, rt.alloc(), &ONE_WORD);
}

/// Other searches in the first program.
const OTHERS: [Case; 7] = [
    (
        "words that run are not read",
        Program::ReadsOn,
        &[Act::Search(
            (Watch::Read, 0x10000, 20),
            (0, 100),
            [(None, 100), (None, 100)],
        )],
    ),
    (
        "what is read is not written",
        Program::ReadsOn,
        &[Act::Search(
            (Watch::Write, 0x10000, 0x2000),
            (0, 100),
            [(None, 100), (None, 100)],
        )],
    ),
    (
        "an instruction, from the middle on and up to a held machine",
        Program::ReadsOn,
        &[Act::Search(
            (Watch::Run, 0x10008, 1),
            (1000, 2048),
            [(Some(1001), 2), (Some(2045), 1024)],
        )],
    ),
    (
        "an instruction, up to the step of a held machine and that one too",
        Program::ReadsOn,
        &[Act::Search(
            (Watch::Run, 0x10008, 4),
            (2047, 2049),
            [(Some(2048), 2), (Some(2048), 1)],
        )],
    ),
    (
        "an address within an instruction",
        Program::ReadsOn,
        &[Act::Search(
            (Watch::Run, 0x10009, 3),
            (0, 100),
            [(None, 100), (None, 100)],
        )],
    ),
    (
        "a range that wraps",
        Program::ReadsOn,
        &[Act::Search(
            (Watch::Read, 0xFFFF_FFF0, 0x10025),
            (0, 100),
            [(Some(1), 2), (Some(1), 100)],
        )],
    ),
    (
        "no steps, and a range of no bytes",
        Program::ReadsOn,
        &[Act::Search((Watch::Read, 0x10654, 0), (3, 2), [(None, 0), (None, 0)])],
    ),
];

#[test]
fn instructions_and_ranges(rt: HostRuntime) {
    assert_performed(&rt, rt.alloc(), &OTHERS);
}

/// Searches in the second program.
const SECOND: [Case; 4] = [
    (
        "a byte that a call writes",
        Program::ExitsWithInput,
        &[
            INPUT,
            Act::Search(
                (Watch::Write, 0x7FFF_FFE1, 1),
                (0, 5000),
                [(Some(5), 6), (Some(5), 10)],
            ),
        ],
    ),
    (
        "a byte that it was asked for and not given",
        Program::ExitsWithInput,
        &[
            INPUT,
            Act::Search(
                (Watch::Write, 0x7FFF_FFE2, 2),
                (0, 5000),
                [(None, 10), (None, 10)],
            ),
        ],
    ),
    (
        "a byte that a frame makes undefined and a call defined",
        Program::ExitsWithInput,
        &[
            INPUT,
            Act::Search(
                (Watch::Shadow, 0x7FFF_FFE1, 1),
                (0, 5000),
                [(Some(2), 3), (Some(5), 10)],
            ),
        ],
    ),
    (
        "a halted machine runs no more",
        Program::ExitsWithInput,
        &[
            INPUT,
            Act::Search(
                (Watch::Run, 0, 0xFFFF_FFFF),
                (0, 5000),
                [(Some(0), 1), (Some(9), 10)],
            ),
        ],
    ),
];

#[test]
fn what_a_call_writes(rt: HostRuntime) {
    assert_performed(&rt, rt.alloc(), &SECOND);
}

/// Searches with a mark.
const MARKED: [Case; 5] = [
    (
        "a run that a mark stops",
        Program::ReadsOn,
        &[
            Act::AddMark(STOPS),
            Act::Search(
                (Watch::Run, 0x10000, 20),
                (1000, 3000),
                [(Some(1000), 1), (Some(1024), 1)],
            ),
        ],
    ),
    (
        "its error",
        Program::ReadsOn,
        &[
            Act::AddMark(STOPS),
            Act::Search(
                (Watch::Error, 0, 0xFFFF_FFFF),
                (0, 3000),
                [(Some(1024), 1025), (Some(1024), 1)],
            ),
        ],
    ),
    (
        "an error anywhere",
        Program::ReadsOn,
        &[
            Act::AddMark(UNDEFINED),
            Act::Search(
                (Watch::Error, 0, 0xFFFF_FFFF),
                (0, 3000),
                [(Some(2502), 2503), (Some(2502), 952)],
            ),
        ],
    ),
    (
        "a mark is no step",
        Program::ReadsOn,
        &[
            Act::AddMark(UNDEFINED),
            Act::Search(
                (Watch::Shadow, 0x10D18, 4),
                (2400, 2600),
                [(None, 200), (None, 552)],
            ),
        ],
    ),
    (
        "an error at another instruction",
        Program::ReadsOn,
        &[
            Act::AddMark(UNDEFINED),
            Act::Search(
                (Watch::Error, 0x10000, 12),
                (2048, 3000),
                [(None, 952), (None, 952)],
            ),
        ],
    ),
];

#[test]
fn marks_are_applied(rt: HostRuntime) {
    assert_performed(&rt, rt.alloc(), &MARKED);
}
