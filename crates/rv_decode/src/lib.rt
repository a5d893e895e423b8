//! The decoder of RV32IM: which instruction a 32-bit word is.
//!
//! The instructions are those of RV32I and of the M extension, 48 in all, by the RISC-V Unprivileged ISA 20191213: chapter 2 (RV32I),
//! chapter 7 (M) and the listing of chapter 24. A word is the number in the four bytes of a little-endian instruction. A word that is none
//! of the 48, such as one of FENCE.I, of a CSR or of a compressed instruction, gives `None`.
//!
//! # Public items
//!
//! - [`Op`] is one of the 48 operations, and [`Insn`] an operation with its operands.
//! - [`decode`] returns the instruction of a word. It is total and keeps no state.
//! - [`one_row`] is a law of the table; it does nothing.
//!
//! # What a caller can rely on
//!
//! One clause of [`decode`]: `result ≡ insn word`. The definition `insn` is a table and not a program: a list `rows` of fixed bits, each
//! with its operation, read by `find`. A caller can take `insn` as opaque, since further clauses say what else is known of a result:
//!
//! - `registers`: the numbers of its registers are below 32;
//! - `some`: an instruction is that of a row whose fixed bits the word has;
//! - `none`: where there is none, the word has the fixed bits of no row;
//! - `only`: a word with the fixed bits of a row is that row's instruction, whichever row it is.
//!
//! # Where the definitions are
//!
//! - `specs/Fields.antt` of `rv_fields`: the fields of a word, as bits from `high` down to `low`, and the five immediates, by the positions
//!   of their bits.
//! - `specs/Table.antt`: the rows (mask, value, form, operation), the operands that a form has,
//!   `insn`, and the law that no word has two rows.
//!
//! # How the code decodes
//!
//! The code searches no table: [`decode`] branches on the opcode, then on funct7 and funct3, each time on the word under a mask. That the
//! branches give what the table gives rests on two facts (`proofs/Tables.antt` of `rv_fields`). Rows that some bits of a word rule out may
//! be left out of the table. A word whose bits are none of those that the rows fix has no row.
//!
//! # Edges of the table
//!
//! - FENCE is known only by its opcode and funct3, since an implementation must ignore its registers and treat reserved configurations as
//!   plain fences (section 2.7). Its other fields are no part of the result.
//! - ECALL and EBREAK are whole words (section 2.8).
//! - A shift by an immediate amount has no upper bits other than the listing's (section 2.4).
#![tactic(auto)]

ghost use Rattle.std.specs.Prelude.{◌≡◌, ℕ, ◌<◌, IfSome, IfNone, bit_and, All, Any};
ghost use Rattle.rv_decode.specs.Table.{insn, insn_of, rows, HasFixedBits, IsOfRow, OneRow};

mod forms;

use forms::{b_form, bare, i_form, j_form, r_form, s_form, shift_form, u_form};

/// An operation, by its name in the listing (RISC-V Unprivileged ISA 20191213, chapter 24).
#[derive(Clone, Copy, Debug, PartialEq, Eq)]
pub enum Op {
    Lui,
    Auipc,
    Jal,
    Jalr,
    Beq,
    Bne,
    Blt,
    Bge,
    Bltu,
    Bgeu,
    Lb,
    Lh,
    Lw,
    Lbu,
    Lhu,
    Sb,
    Sh,
    Sw,
    Addi,
    Slti,
    Sltiu,
    Xori,
    Ori,
    Andi,
    Slli,
    Srli,
    Srai,
    Add,
    Sll,
    Slt,
    Sltu,
    Xor,
    Srl,
    Or,
    And,
    Sub,
    Sra,
    Mul,
    Mulh,
    Mulhsu,
    Mulhu,
    Div,
    Divu,
    Rem,
    Remu,
    Fence,
    Ecall,
    Ebreak,
}

/// An instruction: an operation and its operands. An operand that the operation lacks is 0.
#[derive(Clone, Copy, Debug, PartialEq, Eq)]
pub struct Insn {
    /// The operation.
    pub op: Op,
    // Before the registers. After them, an instruction would have eight bytes, which would be moved as one number and taken apart.
    /// The immediate modulo 2^32, sign-extended; for a shift, the amount, below 32. LUI and AUIPC have the upper 20 bits in their places.
    /// Jumps and branches have a distance in bytes (section 2.3).
    pub imm: u32,
    /// The number of the destination register, below 32.
    pub rd: u8,
    /// The number of the first source register, below 32.
    pub rs1: u8,
    /// The number of the second source register, below 32.
    pub rs2: u8,
}

/// Decodes a jump to an address in a register.
#[tactic(auto, using(crate::proofs::TableLemmas::insn_jalr))]
fn jalr(word: u32) -> Option<Insn>
    requires { bit_and word 0x7F ≡ 0x67 }
    ensures { result ≡ insn word }
{
    match word & 0x707F {
        0x0067 => Some(i_form(Op::Jalr, word)),
        _ => None,
    }
}

/// Decodes a conditional branch.
#[tactic(auto, using(crate::proofs::TableLemmas::insn_branch))]
fn branch(word: u32) -> Option<Insn>
    requires { bit_and word 0x7F ≡ 0x63 }
    ensures { result ≡ insn word }
{
    match word & 0x707F {
        0x0063 => Some(b_form(Op::Beq, word)),
        0x1063 => Some(b_form(Op::Bne, word)),
        0x4063 => Some(b_form(Op::Blt, word)),
        0x5063 => Some(b_form(Op::Bge, word)),
        0x6063 => Some(b_form(Op::Bltu, word)),
        0x7063 => Some(b_form(Op::Bgeu, word)),
        _ => None,
    }
}

/// Decodes a load.
#[tactic(auto, using(crate::proofs::TableLemmas::insn_load))]
fn load(word: u32) -> Option<Insn>
    requires { bit_and word 0x7F ≡ 0x03 }
    ensures { result ≡ insn word }
{
    match word & 0x707F {
        0x0003 => Some(i_form(Op::Lb, word)),
        0x1003 => Some(i_form(Op::Lh, word)),
        0x2003 => Some(i_form(Op::Lw, word)),
        0x4003 => Some(i_form(Op::Lbu, word)),
        0x5003 => Some(i_form(Op::Lhu, word)),
        _ => None,
    }
}

/// Decodes a store.
#[tactic(auto, using(crate::proofs::TableLemmas::insn_store))]
fn store(word: u32) -> Option<Insn>
    requires { bit_and word 0x7F ≡ 0x23 }
    ensures { result ≡ insn word }
{
    match word & 0x707F {
        0x0023 => Some(s_form(Op::Sb, word)),
        0x1023 => Some(s_form(Op::Sh, word)),
        0x2023 => Some(s_form(Op::Sw, word)),
        _ => None,
    }
}

/// Decodes an operation on a register and an immediate.
#[tactic(auto, using(crate::proofs::TableLemmas::insn_immediate))]
fn immediate(word: u32) -> Option<Insn>
    requires { bit_and word 0x7F ≡ 0x13 }
    ensures { result ≡ insn word }
{
    match word & 0x707F {
        0x0013 => Some(i_form(Op::Addi, word)),
        0x1013 => left_shift(word),
        0x2013 => Some(i_form(Op::Slti, word)),
        0x3013 => Some(i_form(Op::Sltiu, word)),
        0x4013 => Some(i_form(Op::Xori, word)),
        0x5013 => right_shift(word),
        0x6013 => Some(i_form(Op::Ori, word)),
        0x7013 => Some(i_form(Op::Andi, word)),
        // Each funct3 is above.
        _ => None,
    }
}

/// Decodes the left shift by an immediate amount.
#[tactic(auto, using(crate::proofs::TableLemmas::insn_left_shift))]
fn left_shift(word: u32) -> Option<Insn>
    requires { bit_and word 0x707F ≡ 0x1013 }
    ensures { result ≡ insn word }
{
    match word & 0xFE00_707F {
        0x0000_1013 => Some(shift_form(Op::Slli, word)),
        _ => None,
    }
}

/// Decodes a right shift by an immediate amount.
#[tactic(auto, using(crate::proofs::TableLemmas::insn_right_shift))]
fn right_shift(word: u32) -> Option<Insn>
    requires { bit_and word 0x707F ≡ 0x5013 }
    ensures { result ≡ insn word }
{
    match word & 0xFE00_707F {
        0x0000_5013 => Some(shift_form(Op::Srli, word)),
        0x4000_5013 => Some(shift_form(Op::Srai, word)),
        _ => None,
    }
}

/// Decodes an operation on two registers, by funct7.
#[tactic(auto, using(crate::proofs::TableLemmas::insn_register_other))]
fn register(word: u32) -> Option<Insn>
    requires { bit_and word 0x7F ≡ 0x33 }
    ensures { result ≡ insn word }
{
    match word & 0xFE00_007F {
        0x0000_0033 => base(word),
        0x4000_0033 => alternate(word),
        0x0200_0033 => multiply(word),
        _ => None,
    }
}

/// Decodes an operation on two registers with funct7 0x00.
#[tactic(auto, using(crate::proofs::TableLemmas::insn_base))]
fn base(word: u32) -> Option<Insn>
    requires { bit_and word 0xFE00007F ≡ 0x33 }
    ensures { result ≡ insn word }
{
    match word & 0xFE00_707F {
        0x0000_0033 => Some(r_form(Op::Add, word)),
        0x0000_1033 => Some(r_form(Op::Sll, word)),
        0x0000_2033 => Some(r_form(Op::Slt, word)),
        0x0000_3033 => Some(r_form(Op::Sltu, word)),
        0x0000_4033 => Some(r_form(Op::Xor, word)),
        0x0000_5033 => Some(r_form(Op::Srl, word)),
        0x0000_6033 => Some(r_form(Op::Or, word)),
        0x0000_7033 => Some(r_form(Op::And, word)),
        _ => None,
    }
}

/// Decodes an operation on two registers with funct7 0x20.
#[tactic(auto, using(crate::proofs::TableLemmas::insn_alternate))]
fn alternate(word: u32) -> Option<Insn>
    requires { bit_and word 0xFE00007F ≡ 0x40000033 }
    ensures { result ≡ insn word }
{
    match word & 0xFE00_707F {
        0x4000_0033 => Some(r_form(Op::Sub, word)),
        0x4000_5033 => Some(r_form(Op::Sra, word)),
        _ => None,
    }
}

/// Decodes a multiplication or division, with funct7 0x01.
#[tactic(auto, using(crate::proofs::TableLemmas::insn_multiply))]
fn multiply(word: u32) -> Option<Insn>
    requires { bit_and word 0xFE00007F ≡ 0x02000033 }
    ensures { result ≡ insn word }
{
    match word & 0xFE00_707F {
        0x0200_0033 => Some(r_form(Op::Mul, word)),
        0x0200_1033 => Some(r_form(Op::Mulh, word)),
        0x0200_2033 => Some(r_form(Op::Mulhsu, word)),
        0x0200_3033 => Some(r_form(Op::Mulhu, word)),
        0x0200_4033 => Some(r_form(Op::Div, word)),
        0x0200_5033 => Some(r_form(Op::Divu, word)),
        0x0200_6033 => Some(r_form(Op::Rem, word)),
        0x0200_7033 => Some(r_form(Op::Remu, word)),
        _ => None,
    }
}

/// Decodes the fence, whose other fields are free.
#[tactic(auto, using(crate::proofs::TableLemmas::insn_fence))]
fn fence(word: u32) -> Option<Insn>
    requires { bit_and word 0x7F ≡ 0x0F }
    ensures { result ≡ insn word }
{
    match word & 0x707F {
        0x000F => Some(bare(Op::Fence)),
        _ => None,
    }
}

/// Decodes a call of the environment, which is a whole word.
#[tactic(auto, using(crate::proofs::TableLemmas::insn_environment))]
fn environment(word: u32) -> Option<Insn>
    requires { bit_and word 0x7F ≡ 0x73 }
    ensures { result ≡ insn word }
{
    match word {
        0x0000_0073 => Some(bare(Op::Ecall)),
        0x0010_0073 => Some(bare(Op::Ebreak)),
        _ => None,
    }
}

/// Decodes an instruction, by its opcode.
#[tactic(auto, using(crate::proofs::TableLemmas::insn_lui, crate::proofs::TableLemmas::insn_auipc, crate::proofs::TableLemmas::insn_jal))]
fn by_opcode(word: u32) -> Option<Insn>
    ensures { result ≡ insn word }
{
    match word & 0x7F {
        0x37 => Some(u_form(Op::Lui, word)),
        0x17 => Some(u_form(Op::Auipc, word)),
        0x6F => Some(j_form(Op::Jal, word)),
        0x67 => jalr(word),
        0x63 => branch(word),
        0x03 => load(word),
        0x23 => store(word),
        0x13 => immediate(word),
        0x33 => register(word),
        0x0F => fence(word),
        0x73 => environment(word),
        _ => None,
    }
}

/// Returns the instruction of a word, or `None` if the word has the fixed bits of no row.
pub fn decode(word: u32) -> Option<Insn>
    ensures row { result ≡ insn word }
    ensures registers { IfSome result (λ i. (i.rd < 32) × (i.rs1 < 32) × (i.rs2 < 32)) }

    // The same without the order of the table: the instruction is that of a row, and each word of a row has that row's instruction.
    ensures some { IfSome result (λ i. Any (IsOfRow word i) rows) }
    ensures none { IfNone result (All (λ row. ¬ HasFixedBits word row) rows) }
    ensures only { All (λ row. HasFixedBits word row → result ≡ Some (insn_of row word)) rows }
{
    by_opcode(word)
}

/// No word has the fixed bits of two rows of the table. This is a law; the function does nothing.
pub fn one_row()
    ensures { OneRow }
{}
