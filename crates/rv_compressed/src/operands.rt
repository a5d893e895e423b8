//! The operands of a 16-bit instruction: its registers, and its immediates modulo 2^32
//! (RISC-V Unprivileged ISA 20191213, sections 16.2 and 16.8).
ghost use Rattle.std.specs.Prelude.{◌≡◌};
ghost use Rattle.rv_compressed.specs.Operands.{rd, rs2, short_rs1, short_rs2, uimm_4spn, uimm_word, imm_six, imm_jump, imm_16sp};
ghost use Rattle.rv_compressed.specs.Operands.{imm_upper, shift_amount, imm_branch, uimm_lwsp, uimm_swsp};

use rv_fields::field;

/// Returns the number of the register in bits 11 to 7, below 32: `rd`, `rs1` or both.
pub(crate) fn rd(half: u32) -> u8
    ensures { result ≡ rd half }
{
    field(half, 11, 7) as u8
}

/// Returns the number of the register in bits 6 to 2, below 32.
pub(crate) fn rs2(half: u32) -> u8
    ensures { result ≡ rs2 half }
{
    field(half, 6, 2) as u8
}

/// Returns the number of the register in bits 9 to 7, one of 8 to 15.
pub(crate) fn short_rs1(half: u32) -> u8
    ensures { result ≡ short_rs1 half }
{
    8 + field(half, 9, 7) as u8
}

/// Returns the number of the register in bits 4 to 2, one of 8 to 15.
pub(crate) fn short_rs2(half: u32) -> u8
    ensures { result ≡ short_rs2 half }
{
    8 + field(half, 4, 2) as u8
}

/// Returns what C.ADDI4SPN adds: a multiple of 4 below 1,024.
pub(crate) fn uimm_4spn(half: u32) -> u32
    ensures { result ≡ uimm_4spn half }
{
    (field(half, 10, 7) << 6)
        + (field(half, 12, 11) << 4)
        + (field(half, 5, 5) << 3)
        + (field(half, 6, 6) << 2)
}

/// Returns the offset of C.LW and C.SW: a multiple of 4 below 128.
pub(crate) fn uimm_word(half: u32) -> u32
    ensures { result ≡ uimm_word half }
{
    (field(half, 5, 5) << 6) + (field(half, 12, 10) << 3) + (field(half, 6, 6) << 2)
}

/// Returns the immediate of C.ADDI, C.LI and C.ANDI. Its bits 31 to 5 are copies of the half's bit 12.
pub(crate) fn imm_six(half: u32) -> u32
    ensures { result ≡ imm_six half }
{
    field(half, 12, 12) * 0xFFFF_FFE0 + field(half, 6, 2)
}

/// Returns the distance of C.J and C.JAL, in bytes. Its bits 31 to 11 are copies of the half's bit 12.
pub(crate) fn imm_jump(half: u32) -> u32
    ensures { result ≡ imm_jump half }
{
    field(half, 12, 12) * 0xFFFF_F800
        + (field(half, 8, 8) << 10)
        + (field(half, 10, 9) << 8)
        + (field(half, 6, 6) << 7)
        + (field(half, 7, 7) << 6)
        + (field(half, 2, 2) << 5)
        + (field(half, 11, 11) << 4)
        + (field(half, 5, 3) << 1)
}

/// Returns what C.ADDI16SP adds, a multiple of 16. Its bits 31 to 9 are copies of the half's bit 12.
pub(crate) fn imm_16sp(half: u32) -> u32
    ensures { result ≡ imm_16sp half }
{
    field(half, 12, 12) * 0xFFFF_FE00
        + (field(half, 4, 3) << 7)
        + (field(half, 5, 5) << 6)
        + (field(half, 2, 2) << 5)
        + (field(half, 6, 6) << 4)
}

/// Returns the immediate of C.LUI, a multiple of 4,096. Its bits 31 to 17 are copies of the half's bit 12.
pub(crate) fn imm_upper(half: u32) -> u32
    ensures { result ≡ imm_upper half }
{
    field(half, 12, 12) * 0xFFFE_0000 + (field(half, 6, 2) << 12)
}

/// Returns the amount of a shift, below 32.
pub(crate) fn shift_amount(half: u32) -> u32
    ensures { result ≡ shift_amount half }
{
    field(half, 6, 2)
}

/// Returns the distance of C.BEQZ and C.BNEZ, in bytes. Its bits 31 to 8 are copies of the half's bit 12.
pub(crate) fn imm_branch(half: u32) -> u32
    ensures { result ≡ imm_branch half }
{
    field(half, 12, 12) * 0xFFFF_FF00
        + (field(half, 6, 5) << 6)
        + (field(half, 2, 2) << 5)
        + (field(half, 11, 10) << 3)
        + (field(half, 4, 3) << 1)
}

/// Returns the offset of C.LWSP: a multiple of 4 below 256.
pub(crate) fn uimm_lwsp(half: u32) -> u32
    ensures { result ≡ uimm_lwsp half }
{
    (field(half, 3, 2) << 6) + (field(half, 12, 12) << 5) + (field(half, 6, 4) << 2)
}

/// Returns the offset of C.SWSP: a multiple of 4 below 256.
pub(crate) fn uimm_swsp(half: u32) -> u32
    ensures { result ≡ uimm_swsp half }
{
    (field(half, 8, 7) << 6) + (field(half, 12, 9) << 2)
}
