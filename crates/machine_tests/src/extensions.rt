//! Instructions of extensions: atomic ones, those of control registers, FENCE.I and WFI. What they store comes from the RISC-V
//! Unprivileged ISA 20191213, chapters 3, 8 and 9, with undefined bits as Memcheck has them.
use crate::trials::{NO_STREAMS, Row, Trial, assert_so_for};
use definedness::Bits;
use guest_elf::Isa;
use guest_machine::{Status, Stop};
use instructions::{ControlAccess, ControlOperand, Update, replaced, updated};

// `lr.w a1, (sp); addi a2, x0, 5; sc.w a0, a2, (sp); amoadd.w a0, a2, (sp); sc.w a0, a2, (sp); amomax.w.aqrl a0, x0, (sp)`: the word is 0,
// 5, then 10. `addi a1, sp, 2; lr.w a0, (a1)`. `amoswap.w a0, a1, (x0)`, where nothing can be accessed
const ATOMICS: [Row; 3] = [
    (
        "a word reserved, stored and updated",
        &[
            0x1001_25AF,
            0x0050_0613,
            0x18C1_252F,
            0x00C1_252F,
            0x18C1_252F,
            0xA601_252F,
        ],
        b"",
        false,
        Trial::Steps(
            &[
                (Some((0x10000, 4)), Some((0x7FFF_FFF0, 4)), None),
                (Some((0x10004, 4)), None, None),
                (Some((0x10008, 4)), None, Some((0x7FFF_FFF0, 4))),
                (
                    Some((0x1000C, 4)),
                    Some((0x7FFF_FFF0, 4)),
                    Some((0x7FFF_FFF0, 4)),
                ),
                (Some((0x10010, 4)), None, None),
                (
                    Some((0x10014, 4)),
                    Some((0x7FFF_FFF0, 4)),
                    Some((0x7FFF_FFF0, 4)),
                ),
            ],
            0,
            (Status::Running, 0x10018, 10, 0, 0),
            NO_STREAMS,
        ),
    ),
    (
        "an address that is no multiple of 4",
        &[0x0021_0593, 0x1005_A52F],
        b"",
        false,
        Trial::Steps(
            &[
                (Some((0x10000, 4)), None, None),
                (Some((0x10004, 4)), None, None),
            ],
            0,
            (Status::Stopped(Stop::Misaligned), 0x10004, 0, 0, 0),
            NO_STREAMS,
        ),
    ),
    (
        "a word that can't be accessed",
        &[0x08B0_252F],
        b"",
        false,
        Trial::Steps(
            &[(Some((0x10000, 4)), Some((0, 4)), Some((0, 4)))],
            0,
            (Status::Running, 0x10004, 0, 2, 0),
            NO_STREAMS,
        ),
    ),
];

#[test]
fn atomics_are_executed(rt: HostRuntime) {
    assert_so_for(&rt, rt.alloc(), Isa::RV32IMAC, &ATOMICS);
}

// `csrwi mscratch, 5; csrrsi a1, mscratch, 2; csrrc a0, mscratch, a1; csrr a0, mscratch`. `csrw mcycle, sp; csrr a0, mcycle`.
// `fence.i; wfi; addi a0, x0, 1`. `csrw cycle, x0`
const CONTROLS: [Row; 4] = [
    (
        "a control register written, set, cleared and read",
        &[0x3402_D073, 0x3401_65F3, 0x3405_B573, 0x3400_2573],
        b"",
        false,
        Trial::Steps(
            &[
                (Some((0x10000, 4)), None, None),
                (Some((0x10004, 4)), None, None),
                (Some((0x10008, 4)), None, None),
                (Some((0x1000C, 4)), None, None),
            ],
            0,
            (Status::Running, 0x10010, 2, 0, 0),
            NO_STREAMS,
        ),
    ),
    (
        "a counter, which can't be set",
        &[0xB001_1073, 0xB000_2573],
        b"",
        false,
        Trial::Steps(
            &[
                (Some((0x10000, 4)), None, None),
                (Some((0x10004, 4)), None, None),
            ],
            0,
            (Status::Running, 0x10008, 1, 0, 0),
            NO_STREAMS,
        ),
    ),
    (
        "a fence of fetches, and a wait for an interrupt",
        &[0x0000_100F, 0x1050_0073, 0x0010_0513],
        b"",
        false,
        Trial::Steps(
            &[
                (Some((0x10000, 4)), None, None),
                (Some((0x10004, 4)), None, None),
                (Some((0x10008, 4)), None, None),
            ],
            0,
            (Status::Running, 0x1000C, 1, 0, 0),
            NO_STREAMS,
        ),
    ),
    (
        "a register that can only be read",
        &[0xC000_1073],
        b"",
        false,
        Trial::Steps(
            &[(Some((0x10000, 4)), None, None)],
            0,
            (Status::Stopped(Stop::Illegal), 0x10000, 0, 0, 0),
            NO_STREAMS,
        ),
    ),
];

#[test]
fn control_registers_are_accessed(rt: HostRuntime) {
    assert_so_for(&rt, rt.alloc(), Isa::RV32IMC, &CONTROLS);
}

/// The end of a run of one word that is no instruction.
const NONE: Trial = Trial::Steps(
    &[(Some((0x10000, 4)), None, None)],
    3,
    (Status::Stopped(Stop::Illegal), 0x10000, 0, 0, 0),
    NO_STREAMS,
);

const WITHOUT: [Row; 1] = [("no atomic instructions", &[0x1001_25AF], b"", false, NONE)];

/// An operation on a word in memory and one in a register, and what is stored; each with its undefined bits.
type Updated = (&'static str, Update, (u32, u32), (u32, u32), (u32, u32));

const MINUS_1: (u32, u32) = (u32::MAX, 0);

const ONE: (u32, u32) = (1, 0);

const UPDATES: [Updated; 11] = [
    ("swap", Update::Swap, (7, 0xFF), (1, 0x10), (1, 0x10)),
    ("add", Update::Add, MINUS_1, (2, 0), (1, 0)),
    ("xor", Update::Xor, (0b1100, 1), (0b1010, 0), (0b0110, 1)),
    ("and with a 0", Update::And, (0xFF, 0xFF), (0, 0), (0, 0)),
    (
        "or with a 1",
        Update::Or,
        (0, 0x30),
        (0x10, 0),
        (0x10, 0x20),
    ),
    ("the lesser signed", Update::Min, MINUS_1, ONE, MINUS_1),
    ("the greater signed", Update::Max, MINUS_1, ONE, ONE),
    ("the lesser", Update::MinUnsigned, MINUS_1, ONE, ONE),
    ("the greater", Update::MaxUnsigned, MINUS_1, ONE, MINUS_1),
    (
        "undefined in memory",
        Update::Min,
        (5, 1),
        (9, 0),
        (5, u32::MAX),
    ),
    (
        "undefined in the register",
        Update::MaxUnsigned,
        (9, 0),
        (5, 0x8000_0000),
        (9, u32::MAX),
    ),
];

fn bits_of(pair: (u32, u32)) -> Bits {
    Bits {
        value: pair.0,
        undef: pair.1,
    }
}

#[test]
fn updates_are_computed(rt: HostRuntime) {
    for (label, update, held, given, want) in &UPDATES {
        let stored = updated(*update, bits_of(*held), bits_of(*given));
        assert!(rt;
            stored.value == want.0 && stored.undef == want.1,
            "{}",
            label
        );
    }
}

/// What an instruction does with the word in a control register, by that of its operand, and what is there then.
type Replaced = (
    &'static str,
    ControlAccess,
    (u32, u32),
    (u32, u32),
    (u32, u32),
);

const REPLACED: [Replaced; 3] = [
    (
        "written",
        ControlAccess::Write,
        (7, 0xFF),
        (1, 0x10),
        (1, 0x10),
    ),
    (
        "set",
        ControlAccess::Set,
        (0, 0x30),
        (0x10, 0),
        (0x10, 0x20),
    ),
    (
        "cleared",
        ControlAccess::Clear,
        (7, 7),
        (0b101, 1),
        (0b010, 0b011),
    ),
];

#[test]
fn control_registers_are_replaced(rt: HostRuntime) {
    for (label, access, held, given, want) in &REPLACED {
        let stored = replaced(*access, bits_of(*held), bits_of(*given));
        assert!(rt;
            stored.value == want.0 && stored.undef == want.1,
            "{}",
            label
        );
    }
    assert!(rt;
        ControlAccess::Write.writes(ControlOperand::Immediate(0)),
        "0 is written"
    );
    assert!(rt;
        !ControlAccess::Set.writes(ControlOperand::Immediate(0)),
        "no bit is set"
    );
}

#[test]
fn a_set_without_atomics_has_none(rt: HostRuntime) {
    assert_so_for(&rt, rt.alloc(), Isa::RV32IM, &WITHOUT);
    assert_so_for(&rt, rt.alloc(), Isa::RV32IMC, &WITHOUT);
}

const BASE: [Row; 3] = [
    ("no control registers", &[0x3400_2573], b"", false, NONE),
    ("no fence of fetches", &[0x0000_100F], b"", false, NONE),
    ("no wait for an interrupt", &[0x1050_0073], b"", false, NONE),
];

#[test]
fn the_base_has_no_extensions(rt: HostRuntime) {
    assert_so_for(&rt, rt.alloc(), Isa::RV32IM, &BASE);
}
