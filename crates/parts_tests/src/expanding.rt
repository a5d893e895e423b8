//! Halves of an assembler, and what all halves stand for beside binutils' disassembly.
use rv_compressed::{each_expands, expand, halves_without_a_row, one_row, short_registers};
use rv_decode::{Insn, Op};

/// A half, and the operation, `rd`, `rs1`, `rs2` and immediate of what it stands for. An assembler made the half of the comment.
const ASSEMBLED: [(u16, Op, u8, u8, u8, u32); 55] = [
    // c.addi4spn x10, x2, 1020
    (0x1FE8, Op::Addi, 10, 2, 0, 1020),
    // c.addi4spn x8, x2, 4
    (0x0040, Op::Addi, 8, 2, 0, 4),
    // c.addi4spn x15, x2, 8
    (0x003C, Op::Addi, 15, 2, 0, 8),
    // c.lw x15, 124(x9)
    (0x5CFC, Op::Lw, 15, 9, 0, 124),
    // c.lw x8, 4(x15)
    (0x43C0, Op::Lw, 8, 15, 0, 4),
    // c.sw x9, 64(x10)
    (0xC124, Op::Sw, 0, 10, 9, 64),
    // c.sw x14, 60(x8)
    (0xDC58, Op::Sw, 0, 8, 14, 60),
    // c.nop
    (0x0001, Op::Addi, 0, 0, 0, 0),
    // c.addi x10, -32
    (0x1501, Op::Addi, 10, 10, 0, 0xFFFF_FFE0),
    // c.addi x31, 31
    (0x0FFD, Op::Addi, 31, 31, 0, 31),
    // c.jal .-2048
    (0x3001, Op::Jal, 1, 0, 0, 0xFFFF_F800),
    // c.jal .+2046
    (0x2FFD, Op::Jal, 1, 0, 0, 2046),
    // c.jal .+64
    (0x2081, Op::Jal, 1, 0, 0, 64),
    // c.jal .+128
    (0x2041, Op::Jal, 1, 0, 0, 128),
    // c.jal .+1024
    (0x2101, Op::Jal, 1, 0, 0, 1024),
    // c.li x10, -1
    (0x557D, Op::Addi, 10, 0, 0, 0xFFFF_FFFF),
    // c.li x31, 31
    (0x4FFD, Op::Addi, 31, 0, 0, 31),
    // c.addi16sp x2, -512
    (0x7101, Op::Addi, 2, 2, 0, 0xFFFF_FE00),
    // c.addi16sp x2, 496
    (0x617D, Op::Addi, 2, 2, 0, 496),
    // c.addi16sp x2, 64
    (0x6121, Op::Addi, 2, 2, 0, 64),
    // c.addi16sp x2, 32
    (0x6105, Op::Addi, 2, 2, 0, 32),
    // c.lui x31, 0x1f
    (0x6FFD, Op::Lui, 31, 0, 0, 0x0001_F000),
    // c.lui x10, 0xfffe0
    (0x7501, Op::Lui, 10, 0, 0, 0xFFFE_0000),
    // c.srli x8, 31
    (0x807D, Op::Srli, 8, 8, 0, 31),
    // c.srai x15, 1
    (0x8785, Op::Srai, 15, 15, 0, 1),
    // c.andi x13, -32
    (0x9A81, Op::Andi, 13, 13, 0, 0xFFFF_FFE0),
    // c.andi x9, 31
    (0x88FD, Op::Andi, 9, 9, 0, 31),
    // c.sub x8, x15
    (0x8C1D, Op::Sub, 8, 8, 15, 0),
    // c.xor x15, x8
    (0x8FA1, Op::Xor, 15, 15, 8, 0),
    // c.or x10, x11
    (0x8D4D, Op::Or, 10, 10, 11, 0),
    // c.and x9, x14
    (0x8CF9, Op::And, 9, 9, 14, 0),
    // c.j .-2
    (0xBFFD, Op::Jal, 0, 0, 0, 0xFFFF_FFFE),
    // c.j .+32
    (0xA005, Op::Jal, 0, 0, 0, 32),
    // c.j .+16
    (0xA801, Op::Jal, 0, 0, 0, 16),
    // c.beqz x8, .-256
    (0xD001, Op::Beq, 0, 8, 0, 0xFFFF_FF00),
    // c.beqz x15, .+254
    (0xCFFD, Op::Beq, 0, 15, 0, 254),
    // c.bnez x10, .+64
    (0xE121, Op::Bne, 0, 10, 0, 64),
    // c.bnez x9, .+32
    (0xE085, Op::Bne, 0, 9, 0, 32),
    // c.bnez x9, .+8
    (0xE481, Op::Bne, 0, 9, 0, 8),
    // c.slli x31, 31
    (0x0FFE, Op::Slli, 31, 31, 0, 31),
    // c.lwsp x1, 252(x2)
    (0x50FE, Op::Lw, 1, 2, 0, 252),
    // c.lwsp x31, 32(x2)
    (0x5F82, Op::Lw, 31, 2, 0, 32),
    // c.lwsp x10, 64(x2)
    (0x4506, Op::Lw, 10, 2, 0, 64),
    // c.swsp x1, 252(x2)
    (0xDF86, Op::Sw, 0, 2, 1, 252),
    // c.swsp x31, 64(x2)
    (0xC0FE, Op::Sw, 0, 2, 31, 64),
    // c.swsp x0, 32(x2)
    (0xD002, Op::Sw, 0, 2, 0, 32),
    // c.jr x1
    (0x8082, Op::Jalr, 0, 1, 0, 0),
    // c.jr x31
    (0x8F82, Op::Jalr, 0, 31, 0, 0),
    // c.mv x10, x31
    (0x857E, Op::Add, 10, 0, 31, 0),
    // c.mv x31, x10
    (0x8FAA, Op::Add, 31, 0, 10, 0),
    // c.ebreak
    (0x9002, Op::Ebreak, 0, 0, 0, 0),
    // c.jalr x1
    (0x9082, Op::Jalr, 1, 1, 0, 0),
    // c.jalr x31
    (0x9F82, Op::Jalr, 1, 31, 0, 0),
    // c.add x10, x31
    (0x957E, Op::Add, 10, 10, 31, 0),
    // c.add x31, x1
    (0x9F86, Op::Add, 31, 31, 1, 0),
];

/// Halves that stand for nothing: 0 and C.ADDI4SPN without an immediate; C.ADDI16SP and C.LUI without one; C.LWSP and C.JR with x0; shifts by
/// 32; C.SUBW and C.ADDW of RV64, and the two codes after them; loads and stores of floating point; the first half of a longer instruction.
const NO_HALVES: [u16; 21] = [
    0x0000, 0x0004, 0x6101, 0x6501, 0x4002, 0x8002, 0x9001, 0x9401, 0x1002, 0x9C01, 0x9C21, 0x9C41,
    0x9C61, 0x2000, 0x6000, 0xA000, 0xE000, 0x2002, 0x6002, 0x0003, 0xFFFF,
];

/// What `tests/instructions/test-halves` folds from binutils' disassembly of all halves.
const ALL_HALVES: u32 = 0x1DCF_C360;

/// Returns whether a row's half stands for its other fields.
fn is_expanded(row: &(u16, Op, u8, u8, u8, u32)) -> bool {
    let (half, op, rd, rs1, rs2, imm) = *row;
    expand(half)
        == Some(Insn {
            op,
            rd,
            rs1,
            rs2,
            imm,
        })
}

/// Folds another word, by FNV-1a's factor.
fn fold(folded: u32, word: u32) -> u32 {
    (folded ^ word).wrapping_mul(0x0100_0193)
}

/// Folds what a half stands for: the number of the operation and 1, the registers, and the immediate; 0 for nothing.
fn fold_half(folded: u32, half: u16) -> u32 {
    match expand(half) {
        None => fold(folded, 0),
        Some(insn) => {
            let registers = insn.rd as u32 | (insn.rs1 as u32) << 8 | (insn.rs2 as u32) << 16;
            fold(fold(fold(folded, insn.op as u32 + 1), registers), insn.imm)
        }
    }
}

#[test]
fn assembled_halves(rt: HostRuntime) {
    one_row();
    each_expands();
    short_registers();
    halves_without_a_row();
    for row in &ASSEMBLED {
        assert!(rt; is_expanded(row), "at {:#06x}", row.0);
    }
}

#[test]
fn halves_that_stand_for_nothing(rt: HostRuntime) {
    for half in &NO_HALVES {
        assert!(rt; expand(*half).is_none(), "at {half:#06x}");
    }
}

#[test]
fn all_halves(rt: HostRuntime) {
    let mut folded = 0x811C_9DC5;
    for half in 0..=u16::MAX {
        folded = fold_half(folded, half);
    }
    assert_eq!(rt; folded, ALL_HALVES);
}
