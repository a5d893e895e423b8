//! Control and status registers, and copies of them.
use crate::comes;
use control_registers::ControlRegisters;
use definedness::Bits;
use std::alloc::{AllocError, Global};

/// What is written in turn: a label, a register's number, its value and undefined bits, and whether that changes what the register has.
/// The names and numbers are those of the privileged manual.
const WRITES: [(&str, u16, u32, u32, bool); 12] = [
    ("mtvec", 0x305, 0x8000_0100, 0, true),
    ("mtvec again", 0x305, 0x8000_0100, 0, false),
    ("mscratch, undefined", 0x340, 0, 0xFFFF_FFFF, true),
    ("mstatus, partly undefined", 0x300, 0x1880, 0x8, true),
    ("mstatus, other undefined bits", 0x300, 0x1880, 0x80, true),
    ("mie, as it is", 0x304, 0, 0, false),
    ("the least number", 0, 0xFFFF_FFFF, 0, true),
    ("the greatest number", 0xFFF, 1, 0, true),
    ("mepc", 0x341, 0x8000_0024, 0, true),
    ("mscratch, defined", 0x340, 0, 0, true),
    ("mtvec, back to 0", 0x305, 0, 0, true),
    ("mcause, by its neighbour", 0x342, 0x8000_0007, 0, true),
];

/// Returns what a register has after the first `count` writes, by a search of all of them.
fn expected(count: usize, number: u16) -> Bits {
    let mut bits = Bits { value: 0, undef: 0 };
    for (_label, at, value, undef, _changes) in WRITES.iter().take(count) {
        if *at == number {
            bits = Bits {
                value: *value,
                undef: *undef,
            };
        }
    }
    bits
}

/// Returns whether each register has what it should after the first `count` writes.
fn has_written(registers: &ControlRegisters, count: usize) -> bool {
    for number in 0..0x1000u16 {
        if registers.read(number) != expected(count, number) {
            return false;
        }
    }
    true
}

/// Returns whether two sets are the same, if both say so, or neither.
fn are_same(one: &ControlRegisters, other: &ControlRegisters) -> Option<bool> {
    let is_same = one.is_same(other);
    if other.is_same(one) == is_same {
        Some(is_same)
    } else {
        None
    }
}

/// Writes a register. Returns whether only that one changes, a copy from before stays as it was, and one from after is the same.
fn writes(
    registers: &mut ControlRegisters,
    row: &(&str, u16, u32, u32, bool),
    count: usize,
) -> Result<bool, AllocError> {
    let (_label, number, value, undef, changes) = *row;
    let before = registers.share()?;
    registers.write(number, Bits { value, undef })?;
    let after = registers.share()?;
    Ok(
        has_written(registers, count.saturating_add(1))
            && has_written(&before, count)
            && are_same(registers, &before) == Some(!changes)
            && are_same(registers, &after) == Some(true),
    )
}

/// Returns whether 4,096 registers, written in another order than by number, each have what was written.
fn holds_all(alloc: Global) -> Result<bool, AllocError> {
    let mut registers = ControlRegisters::new(alloc);
    for place in 0..0x1000u32 {
        let number = (place.wrapping_mul(1365) % 0x1000) as u16;
        registers.write(number, filled(number))?;
    }
    for number in 0..0x1000u16 {
        if registers.read(number) != filled(number) {
            return Ok(false);
        }
    }
    Ok(true)
}

/// Returns what is written to a register if each is written.
fn filled(number: u16) -> Bits {
    let number = u32::from(number);
    Bits {
        value: number.wrapping_mul(0x9E37_79B1),
        undef: !number,
    }
}

#[test]
fn each_write_changes_one_register(rt: HostRuntime) {
    let mut registers = ControlRegisters::new(rt.alloc());
    let mut count = 0usize;
    for row in &WRITES {
        comes(&rt, row.0, writes(&mut registers, row, count));
        count = count.saturating_add(1);
    }
}

#[test]
fn each_register_is_held(rt: HostRuntime) {
    comes(&rt, "all registers", holds_all(rt.alloc()));
}
