//! Words of the manual and of an assembler, and the whole table against a slow search.
use rv_decode::{Insn, Op, decode, one_row};

/// A word, and the operation, `rd`, `rs1`, `rs2` and immediate from which an assembler made it.
const ASSEMBLED: [(u32, Op, u8, u8, u8, u32); 55] = [
    // lui x31, 0x80001
    (0x8000_1FB7, Op::Lui, 31, 0, 0, 0x8000_1000),
    // auipc x1, 0xfffff
    (0xFFFF_F097, Op::Auipc, 1, 0, 0, 0xFFFF_F000),
    // jal x1, -8
    (0xFF9F_F0EF, Op::Jal, 1, 0, 0, 0xFFFF_FFF8),
    // jal x0, 0xffffe
    (0x7FFF_F06F, Op::Jal, 0, 0, 0, 0x000F_FFFE),
    // jal x31, -0x100000
    (0x8000_0FEF, Op::Jal, 31, 0, 0, 0xFFF0_0000),
    // jal x5, 2048
    (0x0010_02EF, Op::Jal, 5, 0, 0, 0x0000_0800),
    // jal x5, 4096
    (0x0000_12EF, Op::Jal, 5, 0, 0, 0x0000_1000),
    // jalr x0, 0(x1)
    (0x0000_8067, Op::Jalr, 0, 1, 0, 0),
    // jalr x31, -2048(x30)
    (0x800F_0FE7, Op::Jalr, 31, 30, 0, 0xFFFF_F800),
    // beq x10, x0, 8
    (0x0005_0463, Op::Beq, 0, 10, 0, 8),
    // beq x6, x0, -8
    (0xFE03_0CE3, Op::Beq, 0, 6, 0, 0xFFFF_FFF8),
    // bne x1, x31, 2048
    (0x01F0_90E3, Op::Bne, 0, 1, 31, 0x0000_0800),
    // blt x1, x31, -4096
    (0x81F0_C063, Op::Blt, 0, 1, 31, 0xFFFF_F000),
    // bge x31, x1, 4094
    (0x7E1F_DFE3, Op::Bge, 0, 31, 1, 0x0000_0FFE),
    // bltu x15, x16, 30
    (0x0107_EF63, Op::Bltu, 0, 15, 16, 30),
    // bgeu x16, x15, 1024
    (0x40F8_7063, Op::Bgeu, 0, 16, 15, 0x0000_0400),
    // lb x1, 2047(x2)
    (0x7FF1_0083, Op::Lb, 1, 2, 0, 0x0000_07FF),
    // lh x3, -1(x4)
    (0xFFF2_1183, Op::Lh, 3, 4, 0, 0xFFFF_FFFF),
    // lw x10, 0(x2)
    (0x0001_2503, Op::Lw, 10, 2, 0, 0),
    // lbu x5, 1(x6)
    (0x0013_4283, Op::Lbu, 5, 6, 0, 1),
    // lhu x7, -2048(x8)
    (0x8004_5383, Op::Lhu, 7, 8, 0, 0xFFFF_F800),
    // sb x1, -2048(x2)
    (0x8011_0023, Op::Sb, 0, 2, 1, 0xFFFF_F800),
    // sh x5, 2047(x31)
    (0x7E5F_9FA3, Op::Sh, 0, 31, 5, 0x0000_07FF),
    // sw x31, -4(x1)
    (0xFFF0_AE23, Op::Sw, 0, 1, 31, 0xFFFF_FFFC),
    // addi x17, x0, 93
    (0x05D0_0893, Op::Addi, 17, 0, 0, 93),
    // addi x2, x2, -16
    (0xFF01_0113, Op::Addi, 2, 2, 0, 0xFFFF_FFF0),
    // slti x9, x10, -1
    (0xFFF5_2493, Op::Slti, 9, 10, 0, 0xFFFF_FFFF),
    // sltiu x3, x4, -1
    (0xFFF2_3193, Op::Sltiu, 3, 4, 0, 0xFFFF_FFFF),
    // xori x11, x12, 1365
    (0x5556_4593, Op::Xori, 11, 12, 0, 0x0000_0555),
    // ori x13, x14, -1366
    (0xAAA7_6693, Op::Ori, 13, 14, 0, 0xFFFF_FAAA),
    // andi x11, x10, 32
    (0x0205_7593, Op::Andi, 11, 10, 0, 32),
    // slli x1, x2, 31
    (0x01F1_1093, Op::Slli, 1, 2, 0, 31),
    // srli x31, x30, 17
    (0x011F_5F93, Op::Srli, 31, 30, 0, 17),
    // srai x10, x10, 1
    (0x4015_5513, Op::Srai, 10, 10, 0, 1),
    // add x1, x2, x3
    (0x0031_00B3, Op::Add, 1, 2, 3, 0),
    // sub x7, x8, x9
    (0x4094_03B3, Op::Sub, 7, 8, 9, 0),
    // sll x4, x5, x6
    (0x0062_9233, Op::Sll, 4, 5, 6, 0),
    // slt x10, x11, x12
    (0x00C5_A533, Op::Slt, 10, 11, 12, 0),
    // sltu x13, x14, x15
    (0x00F7_36B3, Op::Sltu, 13, 14, 15, 0),
    // xor x16, x17, x18
    (0x0128_C833, Op::Xor, 16, 17, 18, 0),
    // srl x19, x20, x21
    (0x015A_59B3, Op::Srl, 19, 20, 21, 0),
    // sra x22, x23, x24
    (0x418B_DB33, Op::Sra, 22, 23, 24, 0),
    // or x25, x26, x27
    (0x01BD_6CB3, Op::Or, 25, 26, 27, 0),
    // and x28, x29, x30
    (0x01EE_FE33, Op::And, 28, 29, 30, 0),
    // mul x31, x30, x29
    (0x03DF_0FB3, Op::Mul, 31, 30, 29, 0),
    // mulh x1, x2, x3
    (0x0231_10B3, Op::Mulh, 1, 2, 3, 0),
    // mulhsu x4, x5, x6
    (0x0262_A233, Op::Mulhsu, 4, 5, 6, 0),
    // mulhu x7, x8, x9
    (0x0294_33B3, Op::Mulhu, 7, 8, 9, 0),
    // div x10, x11, x12
    (0x02C5_C533, Op::Div, 10, 11, 12, 0),
    // divu x10, x10, x0
    (0x0205_5533, Op::Divu, 10, 10, 0, 0),
    // rem x13, x14, x15
    (0x02F7_66B3, Op::Rem, 13, 14, 15, 0),
    // remu x16, x17, x18
    (0x0328_F833, Op::Remu, 16, 17, 18, 0),
    // fence rw, w
    (0x0310_000F, Op::Fence, 0, 0, 0, 0),
    // ecall
    (0x0000_0073, Op::Ecall, 0, 0, 0, 0),
    // ebreak
    (0x0010_0073, Op::Ebreak, 0, 0, 0, 0),
];

/// The listing again, as (mask, value, operation).
const LISTING: [(u32, u32, Op); 48] = [
    (0x0000_007F, 0x0000_0037, Op::Lui),
    (0x0000_007F, 0x0000_0017, Op::Auipc),
    (0x0000_007F, 0x0000_006F, Op::Jal),
    (0x0000_707F, 0x0000_0067, Op::Jalr),
    (0x0000_707F, 0x0000_0063, Op::Beq),
    (0x0000_707F, 0x0000_1063, Op::Bne),
    (0x0000_707F, 0x0000_4063, Op::Blt),
    (0x0000_707F, 0x0000_5063, Op::Bge),
    (0x0000_707F, 0x0000_6063, Op::Bltu),
    (0x0000_707F, 0x0000_7063, Op::Bgeu),
    (0x0000_707F, 0x0000_0003, Op::Lb),
    (0x0000_707F, 0x0000_1003, Op::Lh),
    (0x0000_707F, 0x0000_2003, Op::Lw),
    (0x0000_707F, 0x0000_4003, Op::Lbu),
    (0x0000_707F, 0x0000_5003, Op::Lhu),
    (0x0000_707F, 0x0000_0023, Op::Sb),
    (0x0000_707F, 0x0000_1023, Op::Sh),
    (0x0000_707F, 0x0000_2023, Op::Sw),
    (0x0000_707F, 0x0000_0013, Op::Addi),
    (0x0000_707F, 0x0000_2013, Op::Slti),
    (0x0000_707F, 0x0000_3013, Op::Sltiu),
    (0x0000_707F, 0x0000_4013, Op::Xori),
    (0x0000_707F, 0x0000_6013, Op::Ori),
    (0x0000_707F, 0x0000_7013, Op::Andi),
    (0xFE00_707F, 0x0000_1013, Op::Slli),
    (0xFE00_707F, 0x0000_5013, Op::Srli),
    (0xFE00_707F, 0x4000_5013, Op::Srai),
    (0xFE00_707F, 0x0000_0033, Op::Add),
    (0xFE00_707F, 0x0000_1033, Op::Sll),
    (0xFE00_707F, 0x0000_2033, Op::Slt),
    (0xFE00_707F, 0x0000_3033, Op::Sltu),
    (0xFE00_707F, 0x0000_4033, Op::Xor),
    (0xFE00_707F, 0x0000_5033, Op::Srl),
    (0xFE00_707F, 0x0000_6033, Op::Or),
    (0xFE00_707F, 0x0000_7033, Op::And),
    (0xFE00_707F, 0x4000_0033, Op::Sub),
    (0xFE00_707F, 0x4000_5033, Op::Sra),
    (0xFE00_707F, 0x0200_0033, Op::Mul),
    (0xFE00_707F, 0x0200_1033, Op::Mulh),
    (0xFE00_707F, 0x0200_2033, Op::Mulhsu),
    (0xFE00_707F, 0x0200_3033, Op::Mulhu),
    (0xFE00_707F, 0x0200_4033, Op::Div),
    (0xFE00_707F, 0x0200_5033, Op::Divu),
    (0xFE00_707F, 0x0200_6033, Op::Rem),
    (0xFE00_707F, 0x0200_7033, Op::Remu),
    (0x0000_707F, 0x0000_000F, Op::Fence),
    (0xFFFF_FFFF, 0x0000_0073, Op::Ecall),
    (0xFFFF_FFFF, 0x0010_0073, Op::Ebreak),
];

/// Returns whether `decode` finds the operation of the one row whose fixed bits the word has, and `None` if there is no such row.
fn agrees(word: u32) -> bool {
    let mut found = None;
    for (mask, value, op) in &LISTING {
        if word & *mask == *value {
            if found.is_some() {
                return false;
            }
            found = Some(*op);
        }
    }
    match decode(word) {
        Some(insn) => found == Some(insn.op),
        None => found.is_none(),
    }
}

/// Returns whether `decode` agrees with the listing at each opcode, funct3 and funct7, with these other bits.
fn all_agree(others: u32) -> bool {
    for key in 0..1 << 17u32 {
        if !agrees(others | (key & 0x7F) | ((key >> 7 & 0x7) << 12) | ((key >> 10) << 25)) {
            return false;
        }
    }
    true
}

/// Returns whether a row's word is decoded to its other fields.
fn is_decoded(row: &(u32, Op, u8, u8, u8, u32)) -> bool {
    let (word, op, rd, rs1, rs2, imm) = *row;
    decode(word)
        == Some(Insn {
            op,
            rd,
            rs1,
            rs2,
            imm,
        })
}

/// A shift with another funct7, BGE's opcode with funct3 2, a whole word except for one bit, and other words that aren't instructions.
const NO_WORDS: [u32; 6] = [
    0x6015_5513,
    0x0205_2063,
    0x0020_0073,
    0x0010_00F3,
    0x0000_0000,
    0xFFFF_FFFF,
];

#[test]
fn assembled_words(rt: HostRuntime) {
    one_row();
    for row in &ASSEMBLED {
        assert!(rt; is_decoded(row), "at {:#010x}", row.0);
    }
}

#[test]
fn words_without_a_row(rt: HostRuntime) {
    for word in &NO_WORDS {
        assert!(rt; decode(*word).is_none(), "at {word:#010x}");
    }
}

/// At zero operands, those of EBREAK, and others.
#[test]
fn listing(rt: HostRuntime) {
    for others in &[0, 0x0010_0000, 0x0073_0280] {
        assert!(rt; all_agree(*others), "with {others:#010x}");
    }
}
