//! The compares of runs, and what they compare. The programs are encoded and executed by hand.
use crate::runs::setup_of;
use checkpoints::{Compare, Effect, Fork, Trail};
use guest_elf::{Image, read};
use guest_machine::{Input, Machine, Setup};
use std::alloc::{AllocError, Global};
use test_support::program;

/// `addi x5, x0, 7; slti x6, x5, -1; sltiu x6, x5, 9; sltu x7, x6, x5; slt x8, x5, x0; sub x8, x6, x7; bne x6, x7, 8; bltu x6, x5, 8;
/// ebreak; bge x0, x5, -4; ebreak`: each branch but `bltu` falls through.
const COMPARES: [u32; 11] = [
    0x0070_0293,
    0xFFF2_A313,
    0x0092_B313,
    0x0053_33B3,
    0x0002_A433,
    0x4073_0433,
    0x0073_1463,
    0x0053_6463,
    0x0010_0073,
    0xFE50_5EE3,
    0x0010_0073,
];

/// `addi a7, x0, 63; addi a0, x0, 0; addi a1, x2, 0; addi a2, x0, 2; ecall; lb a3, 0(x2); lbu a4, 1(x2); blt a3, a4, 8; ebreak; beq a3,
/// a4, 4; ebreak`: reads two bytes in step 4.
const COMPARES_INPUT: [u32; 11] = [
    0x03F0_0893,
    0x0000_0513,
    0x0001_0593,
    0x0020_0613,
    0x0000_0073,
    0x0001_0683,
    0x0011_4703,
    0x00E6_C463,
    0x0010_0073,
    0x00E6_8263,
    0x0010_0073,
];

/// A compare: its step, its address, and what is on its left and on its right.
type Row = (u32, u32, u32, u32);

/// The compares of the first program.
const ROWS: [Row; 7] = [
    (1, 0x10004, 7, 0xFFFF_FFFF),
    (2, 0x10008, 7, 9),
    (3, 0x1000C, 1, 7),
    (4, 0x10010, 7, 0),
    (6, 0x10018, 1, 1),
    (7, 0x1001C, 1, 7),
    (8, 0x10024, 0, 7),
];

/// The step below which compares are asked for, the most of them, and how many there are: all of a run that ends, those before the step of
/// one, the first two, as many as there are, none, and those of no step.
const ASKED: [(u32, usize, usize); 6] = [
    (100, 65536, 7),
    (8, 65536, 6),
    (100, 2, 2),
    (9, 7, 7),
    (100, 0, 0),
    (0, 7, 0),
];

/// The compares of the second program with the input `ab`, and with the bytes 0xFF and `a`, the first of which is a negative number.
const OF_AB: [Row; 2] = [(7, 0x1001C, 0x61, 0x62), (8, 0x10024, 0x61, 0x62)];

const OF_NEGATIVE: [Row; 2] = [
    (7, 0x1001C, 0xFFFF_FFFF, 0x61),
    (8, 0x10024, 0xFFFF_FFFF, 0x61),
];

/// Returns whether a compare is that of a row.
fn is_row(compare: &Compare, row: &Row) -> bool {
    let (step, pc, left, right) = *row;
    compare.step == step && compare.pc == pc && compare.left == left && compare.right == right
}

/// Returns whether compares are those of the first `count` rows.
fn are_rows(found: &[Compare], rows: &[Row], count: usize) -> bool {
    if found.len() != count || rows.len() < count {
        return false;
    }
    for (compare, row) in found.iter().zip(rows) {
        if !is_row(compare, row) {
            return false;
        }
    }
    true
}

/// Returns whether a fork before step 0 has the compares that are asked for.
fn has_asked(alloc: Global, fork: &Fork, setup: &Setup) -> Result<bool, AllocError> {
    for (step, most, count) in &ASKED {
        let found = fork.compares(alloc, setup, &[], *step, *most)?;
        if !are_rows(&found, &ROWS, *count) {
            return Ok(false);
        }
    }
    Ok(true)
}

/// Returns whether a fork of an image before step 0 has them.
fn has_asked_of(alloc: Global, image: &Image) -> Result<bool, AllocError> {
    let setup = setup_of(alloc, Input::new(Vec::new(alloc)));
    let machine = Machine::start(alloc, image)?;
    has_asked(alloc, &Fork { machine, step: 0 }, &setup)
}

/// Returns whether a fork has the compares of the second program with `ab`, and the edited run those with the other bytes.
fn has_both(alloc: Global, fork: &Fork, setup: &Setup, other: &Setup) -> Result<bool, AllocError> {
    let found = fork.compares(alloc, setup, &[], 100, 10)?;
    let edited = fork.compares_edited(alloc, Effect::Input(0), other, &[], 100, 10)?;
    Ok(fork.step == 4 && are_rows(&found, &OF_AB, 2) && are_rows(&edited, &OF_NEGATIVE, 2))
}

/// Returns whether a fork of an image before the step that reads has both.
fn has_both_of(alloc: Global, image: &Image) -> Result<bool, AllocError> {
    let setup = setup_of(alloc, Input::new(b"ab".to_vec(alloc)?));
    let other = setup_of(alloc, Input::new([0xFF, b'a'].to_vec(alloc)?));
    let mut trail = Trail::begin(alloc, image)?;
    let fork = trail.fork_at_byte(0, 100, &setup, &[])?;
    has_both(alloc, &fork, &setup, &other)
}

/// Returns whether the first program has the compares that are asked for.
fn has_first(alloc: Global) -> Result<bool, AllocError> {
    let file = program(alloc, &COMPARES)?;
    match read(alloc, &file) {
        Ok(image) => has_asked_of(alloc, &image),
        Err(_) => Ok(false),
    }
}

/// Returns whether the second program has its own, with either input.
fn has_second(alloc: Global) -> Result<bool, AllocError> {
    let file = program(alloc, &COMPARES_INPUT)?;
    match read(alloc, &file) {
        Ok(image) => has_both_of(alloc, &image),
        Err(_) => Ok(false),
    }
}

#[test]
fn runs_have_their_compares(rt: HostRuntime) {
    assert!(rt; matches!(has_first(rt.alloc()), Ok(true)));
}

#[test]
fn edited_runs_have_their_compares(rt: HostRuntime) {
    assert!(rt; matches!(has_second(rt.alloc()), Ok(true)));
}
