//! Reports of programs by hand, compared with texts written down from the format of a report.
use crate::runs::{
    BRANCH_BACK, BRANCH_PAST_THE_END, EXIT, MEMCHECK, Run, TWO_BLOCKS, Telling, assert_told,
};
use leak_graph::LeakKind;
use replay_report::Options;

/// The last lines of a report where nothing was allocated and nothing went wrong.
const NOTHING_LOST: &[u8] = b"input 0 of 0\n\
output 0\n\
definitely lost: 0 bytes in 0 blocks\n\
indirectly lost: 0 bytes in 0 blocks\n\
possibly lost: 0 bytes in 0 blocks\n\
still reachable: 0 bytes in 0 blocks\n\
suppressed: 0 bytes in 0 blocks\n\
ERROR SUMMARY: 0 errors from 0 contexts (suppressed: 0 from 0)\n";

/// `malloc(8)`, and then its address plus 1.
const INSIDE: [u32; 4] = [0x7D10_0893, 0x0080_0513, 0x0000_0073, 0x0015_0513];

const STATES: [Run; 7] = [
    (
        "running",
        &EXIT,
        0,
        Telling::Whole(
            b"step 0\n\
state running 0x00010000\n",
            NOTHING_LOST,
        ),
    ),
    (
        "exited",
        &EXIT,
        3,
        Telling::Whole(
            b"step 3\n\
state exited 0\n",
            NOTHING_LOST,
        ),
    ),
    (
        "a break",
        &[0x0010_0073],
        1,
        Telling::Ends(
            b"step 1\n\
state stopped break 0x00010000\n\
input 0 of 0\n",
            b"",
        ),
    ),
    (
        "no instruction",
        &[0],
        1,
        Telling::Ends(
            b"step 1\n\
state stopped illegal 0x00010000\n\
input 0 of 0\n",
            b"",
        ),
    ),
    // `jalr x0, 2(x0)`
    (
        "a misaligned jump",
        &[0x0020_0067],
        1,
        Telling::Ends(
            b"step 1\n\
state stopped misaligned 0x00010000\n\
input 0 of 0\n",
            b"",
        ),
    ),
    // `addi a7, x0, 93; addi a0, x0, -1; ecall`
    (
        "numbers are decimal",
        &[0x05D0_0893, 0xFFF0_0513, 0x0000_0073],
        10,
        Telling::OfInput(
            1_048_576,
            b"step 10\n\
state exited 255\n\
input 0 of 1048576\n\
output 0\n",
        ),
    ),
    (
        "a report is appended",
        &EXIT,
        0,
        Telling::Behind(
            b"ok\n",
            b"ok\n\
step 0\n\
state running 0x00010000\n\
input 0 of 0\n\
output 0\n",
        ),
    ),
];

#[test]
fn states(rt: HostRuntime) {
    assert_told(&rt, rt.alloc(), &STATES);
}

const ERRORS: [Run; 4] = [
    (
        "an error has its trace",
        &BRANCH_PAST_THE_END,
        2,
        Telling::Whole(
            b"step 2\n\
state running 0x0001000c\n\
input 0 of 0\n\
output 0\n\
error 1: Conditional jump or move depends on uninitialised value(s)\n   at 0x00010004: ???\n\
definitely lost: 0 bytes in 0 blocks\n\
indirectly lost: 0 bytes in 0 blocks\n\
possibly lost: 0 bytes in 0 blocks\n\
still reachable: 0 bytes in 0 blocks\n\
suppressed: 0 bytes in 0 blocks\n\
ERROR SUMMARY: 1 errors from 1 contexts (suppressed: 0 from 0)\n",
            b"",
        ),
    ),
    (
        "a jump error has its note",
        &BRANCH_PAST_THE_END,
        3,
        Telling::Ends(
            b"step 3\n\
state stopped jump 0x0001000c\n\
input 0 of 0\n\
output 0\n\
error 1: Conditional jump or move depends on uninitialised value(s)\n   at 0x00010004: ???\n\
error 1: Jump to the invalid address stated on the next line\n   at 0x0001000c: ???\n \
Address 0x0001000c is not stack'd, malloc'd or (recently) free'd\n\
definitely lost: ",
            b"\n\
ERROR SUMMARY: 2 errors from 2 contexts (suppressed: 0 from 0)\n",
        ),
    ),
    // `lui t0, 0x7F000; jalr x0, 0(t0)`
    (
        "a jump into the stack",
        &[0x7F00_02B7, 0x0002_8067],
        3,
        Telling::Ends(
            b"step 3\n\
state stopped jump 0x7f000000\n\
input 0 of 0\n\
output 0\n\
error 1: Jump to the invalid address stated on the next line\n   at 0x7f000000: ???\n \
Address 0x7f000000 is in the stack region\n\
definitely lost: ",
            b"",
        ),
    ),
    (
        "like errors are counted",
        &BRANCH_BACK,
        4,
        Telling::Ends(
            b"step 4\n\
state running 0x00010000\n\
input 0 of 0\n\
output 0\n\
error 2: Conditional jump or move depends on uninitialised value(s)\n   at 0x00010004: ???\n\
definitely lost: ",
            b"\n\
ERROR SUMMARY: 2 errors from 1 contexts (suppressed: 0 from 0)\n",
        ),
    ),
];

#[test]
fn errors(rt: HostRuntime) {
    assert_told(&rt, rt.alloc(), &ERRORS);
}

const LEAKS: [Run; 4] = [
    (
        "two blocks that are reached",
        &TWO_BLOCKS,
        9,
        Telling::Shown(
            MEMCHECK,
            b"output 0\n\
definitely lost: 0 bytes in 0 blocks\n\
indirectly lost: 0 bytes in 0 blocks\n\
possibly lost: 0 bytes in 0 blocks\n\
still reachable: 16 bytes in 2 blocks\n\
suppressed: 0 bytes in 0 blocks\n\
ERROR SUMMARY: 0 errors from 0 contexts (suppressed: 0 from 0)\n",
        ),
    ),
    (
        "one block points to the other",
        &TWO_BLOCKS,
        10,
        Telling::Shown(
            MEMCHECK,
            b"output 0\n\
leak 8 bytes in 1 blocks are definitely lost\n   at 0x00010008: ???\n\
definitely lost: 8 bytes in 1 blocks\n\
indirectly lost: 8 bytes in 1 blocks\n\
possibly lost: 0 bytes in 0 blocks\n\
still reachable: 0 bytes in 0 blocks\n\
suppressed: 0 bytes in 0 blocks\n\
ERROR SUMMARY: 0 errors from 0 contexts (suppressed: 0 from 0)\n",
        ),
    ),
    (
        "the other shown too",
        &TWO_BLOCKS,
        10,
        Telling::Shown(
            [true; 4],
            b"output 0\n\
leak 8 bytes in 1 blocks are definitely lost\n   at 0x00010008: ???\n\
leak 8 bytes in 1 blocks are indirectly lost\n   at 0x00010014: ???\n\
definitely lost: 8 bytes in 1 blocks\n\
indirectly lost: 8 bytes in 1 blocks\n\
possibly lost: 0 bytes in 0 blocks\n\
still reachable: 0 bytes in 0 blocks\n\
suppressed: 0 bytes in 0 blocks\n\
ERROR SUMMARY: 0 errors from 0 contexts (suppressed: 0 from 0)\n",
        ),
    ),
    (
        "an address inside",
        &INSIDE,
        4,
        Telling::Shown(
            MEMCHECK,
            b"output 0\n\
leak 8 bytes in 1 blocks are possibly lost\n   at 0x00010008: ???\n\
definitely lost: 0 bytes in 0 blocks\n\
indirectly lost: 0 bytes in 0 blocks\n\
possibly lost: 8 bytes in 1 blocks\n\
still reachable: 0 bytes in 0 blocks\n\
suppressed: 0 bytes in 0 blocks\n\
ERROR SUMMARY: 0 errors from 0 contexts (suppressed: 0 from 0)\n",
        ),
    ),
];

#[test]
fn leaks(rt: HostRuntime) {
    assert_told(&rt, rt.alloc(), &LEAKS);
}

const GROUPS: [Run; 3] = [
    // `malloc(0x1000000)` again and again: 31 blocks have room, and one group has them all.
    (
        "like blocks together",
        &[0x7D10_0893, 0x0100_0537, 0x0000_0073, 0xFF9F_F06F],
        97,
        Telling::Ends(
            b"step 97\n\
state running 0x00010004\n\
input 0 of 0\n\
output 0\n\
leak 520093696 bytes in 31 blocks are definitely lost\n   at 0x00010008: ???\n\
definitely lost: 520093696 bytes in 31 blocks\n",
            b"",
        ),
    ),
    (
        "suppressed blocks count apart",
        &INSIDE,
        4,
        Telling::Hidden(
            b"output 0\n\
definitely lost: 0 bytes in 0 blocks\n\
indirectly lost: 0 bytes in 0 blocks\n\
possibly lost: 0 bytes in 0 blocks\n\
still reachable: 0 bytes in 0 blocks\n\
suppressed: 8 bytes in 1 blocks\n\
ERROR SUMMARY: 0 errors from 0 contexts (suppressed: 0 from 0)\n",
        ),
    ),
    (
        "records tell their blocks",
        &TWO_BLOCKS,
        10,
        Telling::Leaks(&[
            (0x4000_0010, LeakKind::Definite, 0x10008),
            (0x4000_0040, LeakKind::Indirect, 0x10014),
        ]),
    ),
];

#[test]
fn groups_of_leaks(rt: HostRuntime) {
    assert_told(&rt, rt.alloc(), &GROUPS);
}

#[test]
fn options_are_those_of_memcheck(rt: HostRuntime) {
    let options = Options::default();
    assert!(rt; options.callers == 12 && options.show == [true, false, true, false]);
}
