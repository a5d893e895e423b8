//! The public calls of the machine, once each with ample memory, and a few short programs. Other behaviour of programs is tested from
//! outside (`tests/program/test-guests`).
use crate::trials::{COUNT, NO_STREAMS, Row, Trial, are_hooks, assert_so, assert_so_for, is_count};
use guest_elf::Isa;
use guest_machine::{Input, Status, Stop};
use instructions::{Code, row_of_code};
use std::alloc::{AllocError, Global};

/// `addi a7, x0, 93`, `1234` and `2001`; `addi a0, x0, 300`; ECALL
const EXIT: u32 = 0x05D0_0893;

const NO_CALL: u32 = 0x4D20_0893;

const MALLOC: u32 = 0x7D10_0893;

const THREE_HUNDRED: u32 = 0x12C0_0513;

const ECALL: u32 = 0x0000_0073;

/// `lw a0, 0(x2)`
const LOAD: u32 = 0x0001_2503;

const BEGINNINGS: [Row; 4] = [
    (
        "the entry",
        &[EXIT, 0x0000_0513, ECALL],
        b"",
        false,
        Trial::Steps(&[], 0, (Status::Running, 0x10000, 0, 0, 0), NO_STREAMS),
    ),
    ("registers", &[EXIT, ECALL], b"", false, Trial::Registers),
    (
        "exit",
        &[EXIT, THREE_HUNDRED, ECALL],
        b"",
        false,
        Trial::Steps(&[], 5, (Status::Exited(44), 0x10008, 300, 0, 0), NO_STREAMS),
    ),
    (
        "a break",
        &[THREE_HUNDRED, 0x0010_0073],
        b"",
        false,
        Trial::Steps(
            &[],
            5,
            (Status::Stopped(Stop::Break), 0x10004, 300, 0, 0),
            NO_STREAMS,
        ),
    ),
];

#[test]
fn programs_begin_and_exit(rt: HostRuntime) {
    assert_so(&rt, rt.alloc(), &BEGINNINGS);
}

const STOPS: [Row; 4] = [
    (
        "a misaligned jump",
        &[0x0020_0067],
        b"",
        false,
        Trial::Steps(
            &[],
            5,
            (Status::Stopped(Stop::Misaligned), 0x10000, 0, 0, 0),
            NO_STREAMS,
        ),
    ),
    (
        "no instruction",
        &[0x6015_5513],
        b"",
        false,
        Trial::Steps(
            &[],
            5,
            (Status::Stopped(Stop::Illegal), 0x10000, 0, 0, 0),
            NO_STREAMS,
        ),
    ),
    (
        "past the last word",
        &[NO_CALL, ECALL],
        b"",
        false,
        Trial::Steps(
            &[],
            5,
            (Status::Stopped(Stop::Jump), 0x10008, 0xFFFF_FFDA, 1, 0),
            NO_STREAMS,
        ),
    ),
    // `addi a0, x0, 300; ..; jal x0, 0`
    (
        "malloc, and a loop",
        &[MALLOC, THREE_HUNDRED, ECALL, 0x0000_006F],
        b"",
        false,
        Trial::Steps(
            &[],
            5,
            (Status::Running, 0x1000C, 0x4000_0010, 0, 1),
            NO_STREAMS,
        ),
    ),
];

#[test]
fn programs_stop_and_go_on(rt: HostRuntime) {
    assert_so(&rt, rt.alloc(), &STOPS);
}

const TOUCHES: [Row; 3] = [
    // `lui x5, 0x10; lw x7, 16(x5); sh x7, 22(x5); ebreak; .word 0x12345678; .word 0`
    (
        "what a step touches",
        &[
            0x0001_02B7,
            0x0102_A383,
            0x0072_9B23,
            0x0010_0073,
            0x1234_5678,
            0,
        ],
        b"",
        false,
        Trial::Steps(
            &[
                (Some((0x10000, 4)), None, None),
                (Some((0x10004, 4)), Some((0x10010, 4)), None),
                (Some((0x10008, 4)), None, Some((0x10016, 2))),
                (Some((0x1000C, 4)), None, None),
                (None, None, None),
            ],
            0,
            (Status::Stopped(Stop::Break), 0x1000C, 0, 0, 0),
            NO_STREAMS,
        ),
    ),
    // `addi a0, x0, 8; addi a1, x0, 16`, `calloc` by name, which returns to 0, and `realloc` there: no word is fetched.
    (
        "functions called by name",
        &[0x0080_0513, 0x0100_0593],
        b"",
        true,
        Trial::Steps(
            &[
                (Some((0x10000, 4)), None, None),
                (Some((0x10004, 4)), None, None),
                (None, None, Some((0x4000_0010, 128))),
                (None, Some((0x4000_0010, 16)), Some((0x4000_00B0, 16))),
            ],
            0,
            (Status::Running, 0, 0x4000_00B0, 0, 2),
            NO_STREAMS,
        ),
    ),
    // `addi a7, x0, 63; addi a2, x0, 3; ecall`, with an input of two bytes: it has seen the end. `addi a7, x0, 64; addi a0, x0, 1; ecall`:
    // what was read is written. Both calls name bytes at 0, which are inaccessible.
    (
        "an input to its end, and output",
        &[
            0x03F0_0893,
            0x0030_0613,
            ECALL,
            0x0400_0893,
            0x0010_0513,
            ECALL,
        ],
        b"ab",
        false,
        Trial::Steps(&[], 6, (Status::Running, 0x10018, 3, 2, 0), (2, 3, true)),
    ),
];

#[test]
fn steps_touch_and_read(rt: HostRuntime) {
    assert_so(&rt, rt.alloc(), &TOUCHES);
}

const OTHERS: [Row; 6] = [
    (
        "it rests where it has ended",
        &[EXIT, ECALL],
        b"",
        false,
        Trial::Rests,
    ),
    ("a mark and a poke", &[LOAD], b"", false, Trial::Marks),
    ("a half poked", &[LOAD], b"", false, Trial::PokesHalf),
    ("alterations", &[LOAD], b"", false, Trial::Alters),
    ("a copy", &[LOAD], b"", false, Trial::Copies),
    // `next: addi a0, a0, 1; j next`
    (
        "what is decoded",
        &[COUNT, 0xFFDF_F06F],
        b"",
        false,
        Trial::Learns,
    ),
];

// `c.li a0, 5; c.addi a0, 2; addi a0, a0, 1; c.nop; addi a0, a0, 300; c.ebreak`, and `c.nop` before the first half of `addi`
const SHORT: [Row; 3] = [
    (
        "16-bit instructions, and one of 32 bits at a multiple of 2",
        &[0x0509_4515, 0x0015_0513, 0x0513_0001, 0x9002_12C5],
        b"",
        false,
        Trial::Steps(
            &[
                (Some((0x10000, 2)), None, None),
                (Some((0x10002, 2)), None, None),
                (Some((0x10004, 4)), None, None),
                (Some((0x10008, 2)), None, None),
                (Some((0x1000A, 4)), None, None),
                (Some((0x1000E, 2)), None, None),
            ],
            3,
            (Status::Stopped(Stop::Break), 0x1000E, 308, 0, 0),
            NO_STREAMS,
        ),
    ),
    (
        "a word that is cut",
        &[0x0513_0001],
        b"",
        false,
        Trial::Steps(
            &[
                (Some((0x10000, 2)), None, None),
                (Some((0x10002, 2)), None, None),
            ],
            3,
            (Status::Stopped(Stop::Jump), 0x10002, 0, 1, 0),
            NO_STREAMS,
        ),
    ),
    (
        "the code at the entry",
        &[0x0509_4515],
        b"",
        false,
        Trial::Begins(0x4515),
    ),
];

#[test]
fn halves_are_executed(rt: HostRuntime) {
    assert_so_for(&rt, rt.alloc(), Isa::RV32IMC, &SHORT);
}

/// Returns whether a code of this length adds 1 to a register.
fn is_count_of(code: Code, len: u32) -> bool {
    is_count(row_of_code(code)) && code.len() == len
}

#[test]
fn codes_stand_for_instructions(rt: HostRuntime) {
    assert!(rt; is_count_of(Code::Word(COUNT), 4), "a word");
    assert!(rt; is_count_of(Code::Half(0x0505), 2), "a half");
    assert!(rt; row_of_code(Code::Half(0)).is_none(), "no instruction");
}

#[test]
fn machines_rest_and_are_copied(rt: HostRuntime) {
    assert_so(&rt, rt.alloc(), &OTHERS);
}

#[test]
fn functions_are_known_by_address(rt: HostRuntime) {
    assert!(rt; matches!(are_hooks(rt.alloc()), Ok(true)));
}

/// Returns whether an input of three bytes has one byte left after its last two were removed.
fn is_shrunk(three: Input) -> bool {
    let mut input = three;
    input.pop();
    input.pop();
    let bytes = input.into_vec();
    bytes.as_slice() == b"a".as_slice()
}

/// Returns whether a byte is appended to an input.
fn is_grown(alloc: Global) -> Result<bool, AllocError> {
    let mut input = Input::new(b"ab".to_vec(alloc)?);
    input.push(b'c')?;
    if input.len() != 3 {
        return Ok(false);
    }
    Ok(is_shrunk(input))
}

#[test]
fn an_input_grows_and_shrinks_at_its_end(rt: HostRuntime) {
    assert!(rt; matches!(is_grown(rt.alloc()), Ok(true)));
}
