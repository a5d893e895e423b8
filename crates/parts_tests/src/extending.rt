//! Words of an assembler that are instructions of extensions, and the whole table against a slow search.
use rv_decode::decode as decode_base;
use rv_extensions::{Extension, ExtensionOp, apart_from_base, decode, one_row};

/// A word, and the operation, control register, `rd`, `rs1`, `rs2` and immediate from which an assembler made it.
const ASSEMBLED: [(u32, ExtensionOp, u16, u8, u8, u8, u8); 23] = [
    // lr.w x10, (x11)
    (0x1005_A52F, ExtensionOp::LrW, 0, 10, 11, 0, 0),
    // lr.w.aqrl x31, (x1)
    (0x1600_AFAF, ExtensionOp::LrW, 0, 31, 1, 0, 0),
    // sc.w x10, x12, (x11)
    (0x18C5_A52F, ExtensionOp::ScW, 0, 10, 11, 12, 0),
    // sc.w.rl x1, x31, (x30)
    (0x1BFF_20AF, ExtensionOp::ScW, 0, 1, 30, 31, 0),
    // amoswap.w x5, x6, (x7)
    (0x0863_A2AF, ExtensionOp::AmoswapW, 0, 5, 7, 6, 0),
    // amoadd.w x5, x6, (x7)
    (0x0063_A2AF, ExtensionOp::AmoaddW, 0, 5, 7, 6, 0),
    // amoadd.w.aq x0, x31, (x16)
    (0x05F8_202F, ExtensionOp::AmoaddW, 0, 0, 16, 31, 0),
    // amoxor.w x5, x6, (x7)
    (0x2063_A2AF, ExtensionOp::AmoxorW, 0, 5, 7, 6, 0),
    // amoand.w x5, x6, (x7)
    (0x6063_A2AF, ExtensionOp::AmoandW, 0, 5, 7, 6, 0),
    // amoor.w.rl x5, x6, (x7)
    (0x4263_A2AF, ExtensionOp::AmoorW, 0, 5, 7, 6, 0),
    // amomin.w x5, x6, (x7)
    (0x8063_A2AF, ExtensionOp::AmominW, 0, 5, 7, 6, 0),
    // amomax.w x5, x6, (x7)
    (0xA063_A2AF, ExtensionOp::AmomaxW, 0, 5, 7, 6, 0),
    // amominu.w x5, x6, (x7)
    (0xC063_A2AF, ExtensionOp::AmominuW, 0, 5, 7, 6, 0),
    // amomaxu.w.aqrl x5, x6, (x7)
    (0xE663_A2AF, ExtensionOp::AmomaxuW, 0, 5, 7, 6, 0),
    // csrrw x10, mscratch, x11
    (0x3405_9573, ExtensionOp::Csrrw, 0x340, 10, 11, 0, 0),
    // csrrs x31, mhartid, x0
    (0xF140_2FF3, ExtensionOp::Csrrs, 0xF14, 31, 0, 0, 0),
    // csrrc x0, mstatus, x30
    (0x300F_3073, ExtensionOp::Csrrc, 0x300, 0, 30, 0, 0),
    // csrrw x1, 0xfff, x2
    (0xFFF1_10F3, ExtensionOp::Csrrw, 0xFFF, 1, 2, 0, 0),
    // csrrwi x10, mie, 31
    (0x304F_D573, ExtensionOp::Csrrwi, 0x304, 10, 0, 0, 31),
    // csrrsi x0, mstatus, 8
    (0x3004_6073, ExtensionOp::Csrrsi, 0x300, 0, 0, 0, 8),
    // csrrci x5, mtvec, 16
    (0x3058_72F3, ExtensionOp::Csrrci, 0x305, 5, 0, 0, 16),
    // fence.i
    (0x0000_100F, ExtensionOp::FenceI, 0, 0, 0, 0, 0),
    // wfi
    (0x1050_0073, ExtensionOp::Wfi, 0, 0, 0, 0, 0),
];

/// The listing again, as (mask, value, operation).
const LISTING: [(u32, u32, ExtensionOp); 19] = [
    (0xF9F0_707F, 0x1000_202F, ExtensionOp::LrW),
    (0xF800_707F, 0x1800_202F, ExtensionOp::ScW),
    (0xF800_707F, 0x0800_202F, ExtensionOp::AmoswapW),
    (0xF800_707F, 0x0000_202F, ExtensionOp::AmoaddW),
    (0xF800_707F, 0x2000_202F, ExtensionOp::AmoxorW),
    (0xF800_707F, 0x6000_202F, ExtensionOp::AmoandW),
    (0xF800_707F, 0x4000_202F, ExtensionOp::AmoorW),
    (0xF800_707F, 0x8000_202F, ExtensionOp::AmominW),
    (0xF800_707F, 0xA000_202F, ExtensionOp::AmomaxW),
    (0xF800_707F, 0xC000_202F, ExtensionOp::AmominuW),
    (0xF800_707F, 0xE000_202F, ExtensionOp::AmomaxuW),
    (0x0000_707F, 0x0000_1073, ExtensionOp::Csrrw),
    (0x0000_707F, 0x0000_2073, ExtensionOp::Csrrs),
    (0x0000_707F, 0x0000_3073, ExtensionOp::Csrrc),
    (0x0000_707F, 0x0000_5073, ExtensionOp::Csrrwi),
    (0x0000_707F, 0x0000_6073, ExtensionOp::Csrrsi),
    (0x0000_707F, 0x0000_7073, ExtensionOp::Csrrci),
    (0x0000_707F, 0x0000_100F, ExtensionOp::FenceI),
    (0xFFFF_FFFF, 0x1050_0073, ExtensionOp::Wfi),
];

/// LR.W with a second register, LR.D, an AMO of another width and one of no funct5, a funct3 without a row, MRET, WFI with a register, and the
/// plain fence.
const NO_WORDS: [u32; 8] = [
    0x1015_A52F,
    0x1005_B52F,
    0x0062_822F,
    0x2800_202F,
    0x3000_4073,
    0x3020_0073,
    0x1050_00F3,
    0x0FF0_000F,
];

/// Returns whether a row's word is decoded to its other fields, and is no instruction of RV32IM.
fn is_decoded(row: &(u32, ExtensionOp, u16, u8, u8, u8, u8)) -> bool {
    let (word, op, csr, rd, rs1, rs2, uimm) = *row;
    let expected = Extension {
        op,
        csr,
        rd,
        rs1,
        rs2,
        uimm,
    };
    decode(word) == Some(expected) && decode_base(word).is_none()
}

/// Returns whether `decode` finds the operation of the one row whose fixed bits the word has, and `None` if there is no such row.
fn agrees(word: u32) -> bool {
    let mut found = None;
    for (mask, value, op) in &LISTING {
        if word & *mask == *value {
            if found.is_some() {
                return false;
            }
            found = Some(*op);
        }
    }
    match decode(word) {
        Some(extension) => found == Some(extension.op),
        None => found.is_none(),
    }
}

/// Returns whether `decode` agrees with the listing at each opcode, funct3 and funct7, with these other bits.
fn all_agree(others: u32) -> bool {
    for key in 0..1 << 17u32 {
        if !agrees(others | (key & 0x7F) | ((key >> 7 & 0x7) << 12) | ((key >> 10) << 25)) {
            return false;
        }
    }
    true
}

#[test]
fn assembled_extensions(rt: HostRuntime) {
    one_row();
    apart_from_base();
    for row in &ASSEMBLED {
        assert!(rt; is_decoded(row), "at {:#010x}", row.0);
    }
}

#[test]
fn words_of_no_extension(rt: HostRuntime) {
    for word in &NO_WORDS {
        assert!(rt; decode(*word).is_none(), "at {word:#010x}");
    }
}

/// At zero operands, those of WFI, and others.
#[test]
fn extensions_listed(rt: HostRuntime) {
    for others in &[0, 0x0050_0000, 0x0073_0280] {
        assert!(rt; all_agree(*others), "with {others:#010x}");
    }
}
