//! The fields of an instruction word, and its immediates modulo 2^32 (RISC-V Unprivileged ISA 20191213, sections 2.2 and 2.3).
//!
//! The decoders of words and halves are built on this crate. `specs/Fields.antt` says by the positions of its bits what each field is.
//! `proofs/Tables.antt` has the lemmas that the decoders share: what holds of a table of rows, each with the bits of a word that it fixes.
#![tactic(auto)]

ghost use Rattle.std.specs.Prelude.{◌≡◌, ◌<◌, ◌≤◌};
ghost use Rattle.rv_fields.specs.Fields.{field, rd, rs1, rs2, shift_amount, imm_i, imm_s, imm_b, imm_u, imm_j};

/// Returns the number in the bits `high` down to `low` of the word.
#[inline(always)]
pub fn field(word: u32, high: u32, low: u32) -> u32
    requires order { low ≤ high }
    requires range { high < 32 }
    ensures { result ≡ field word high low }
{
    (word >> low) & (u32::MAX >> (31 - high + low))
}

/// Returns the number of the destination register, below 32.
pub fn rd(word: u32) -> u8
    ensures { result ≡ rd word }
{
    field(word, 11, 7) as u8
}

/// Returns the number of the first source register, below 32.
pub fn rs1(word: u32) -> u8
    ensures { result ≡ rs1 word }
{
    field(word, 19, 15) as u8
}

/// Returns the number of the second source register, below 32.
pub fn rs2(word: u32) -> u8
    ensures { result ≡ rs2 word }
{
    field(word, 24, 20) as u8
}

/// Returns the amount of a shift by an immediate, below 32.
pub fn shift_amount(word: u32) -> u32
    ensures { result ≡ shift_amount word }
{
    field(word, 24, 20)
}

/// Returns the I-immediate. Its bits 31 to 11 are copies of the word's bit 31.
pub fn imm_i(word: u32) -> u32
    ensures { result ≡ imm_i word }
{
    field(word, 31, 31) * 0xFFFF_F800 + field(word, 30, 20)
}

/// Returns the S-immediate. Its bits 31 to 11 are copies of the word's bit 31.
pub fn imm_s(word: u32) -> u32
    ensures { result ≡ imm_s word }
{
    field(word, 31, 31) * 0xFFFF_F800 + (field(word, 30, 25) << 5) + field(word, 11, 7)
}

/// Returns the B-immediate, in bytes. Its bits 31 to 12 are copies of the word's bit 31.
pub fn imm_b(word: u32) -> u32
    ensures { result ≡ imm_b word }
{
    field(word, 31, 31) * 0xFFFF_F000
        + (field(word, 7, 7) << 11)
        + (field(word, 30, 25) << 5)
        + (field(word, 11, 8) << 1)
}

/// Returns the U-immediate: the upper 20 bits of the word in their places.
pub fn imm_u(word: u32) -> u32
    ensures { result ≡ imm_u word }
{
    field(word, 31, 12) << 12
}

/// Returns the J-immediate, in bytes. Its bits 31 to 20 are copies of the word's bit 31.
pub fn imm_j(word: u32) -> u32
    ensures { result ≡ imm_j word }
{
    field(word, 31, 31) * 0xFFF0_0000
        + (field(word, 19, 12) << 12)
        + (field(word, 20, 20) << 11)
        + (field(word, 30, 21) << 1)
}
