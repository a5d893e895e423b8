//! Outlines of programs by hand, compared with texts written down from the format of an outline.
use crate::runs::{BRANCH_BACK, BRANCH_PAST_THE_END, EXIT, Run, TWO_BLOCKS, Telling, assert_told};
use replay_report::{push_address, push_number};
use std::alloc::{AllocError, Global};

const ENDS: [Run; 4] = [
    ("running", &EXIT, 0, Telling::Outline(false, b"running\n")),
    ("exited", &EXIT, 3, Telling::Outline(false, b"exited 0\n")),
    (
        "exited, with its output",
        &EXIT,
        3,
        Telling::Outline(true, b"exited 0\noutput 0\n"),
    ),
    (
        "stopped",
        &[0x0010_0073],
        1,
        Telling::Outline(false, b"stopped break 0x00010000\n"),
    ),
];

#[test]
fn ends(rt: HostRuntime) {
    assert_told(&rt, rt.alloc(), &ENDS);
}

const ERRORS_AND_LEAKS: [Run; 4] = [
    (
        "an error",
        &BRANCH_BACK,
        4,
        Telling::Outline(
            false,
            b"running\n\
Conditional jump or move depends on uninitialised value(s)\n   at 0x00010004: ???\n",
        ),
    ),
    (
        "a jump without a caller",
        &BRANCH_PAST_THE_END,
        3,
        Telling::Outline(
            false,
            b"stopped jump\n\
Conditional jump or move depends on uninitialised value(s)\n   at 0x00010004: ???\n\
Jump to the invalid address stated on the next line\n",
        ),
    ),
    // `jal ra, 4; jalr x0, 0(x0)`: after a call the jump goes to address 0.
    (
        "a jump after a call",
        &[0x0040_00EF, 0x0000_0067],
        3,
        Telling::Outline(
            false,
            b"stopped jump\n\
Jump to the invalid address stated on the next line\n   at 0x00010000: ???\n",
        ),
    ),
    (
        "a leak",
        &TWO_BLOCKS,
        10,
        Telling::Outline(false, b"running\ndefinitely lost\n   at 0x00010008: ???\n"),
    ),
];

#[test]
fn errors_and_leaks(rt: HostRuntime) {
    assert_told(&rt, rt.alloc(), &ERRORS_AND_LEAKS);
}

/// Returns whether a number and an address are written after a text.
fn are_written(out: &mut Vec<u8>) -> Result<bool, AllocError> {
    push_number(out, 4095)?;
    push_address(out, 0x0001_02AF)?;
    Ok(out.as_slice() == b"input 40950x000102af".as_slice())
}

/// Returns the same for a new text.
fn are_written_anew(alloc: Global) -> Result<bool, AllocError> {
    let mut out = b"input ".to_vec(alloc)?;
    are_written(&mut out)
}

#[test]
fn numbers_and_addresses(rt: HostRuntime) {
    assert!(rt; matches!(are_written_anew(rt.alloc()), Ok(true)));
}
