//! The decoder of RV32C: which instruction a 16-bit instruction stands for.
//!
//! The instructions are those of the C extension for RV32 without floating point, 26 in all, by the RISC-V Unprivileged ISA 20191213,
//! chapter 16. A *half* is the number in the two bytes of a little-endian 16-bit instruction. Each stands for one of the 48 instructions
//! of [`rv_decode`]. A half that is none of the 26 gives `None`: one that is reserved, illegal or for an extension that isn't standard, a
//! load or a store of floating point, and the first half of a longer instruction.
//!
//! # Public items
//!
//! - [`expand`] returns the instruction that a half stands for. It is total and keeps no state.
//! - [`one_row`], [`each_expands`], [`short_registers`] and [`halves_without_a_row`] are laws of the table; they do nothing.
//!
//! # What a caller can rely on
//!
//! One clause of [`expand`]: `result ≡ expansion half`. The definition `expansion` is a table and not a program: a list `rows` of fixed
//! bits, each with exceptions, an operation and the places of its operands. A caller can take `expansion` as opaque, since further clauses
//! say what else is known of a result:
//!
//! - `registers`: the numbers of its registers are below 32;
//! - `some`: an instruction is that of a row which the half is of;
//! - `none`: where there is none, the half is of no row;
//! - `only`: a half that is of a row has that row's instruction, whichever row it is.
//!
//! # Where the definitions are
//!
//! - `specs/Operands.antt`: registers, and immediates by the manual's patterns, such as `imm[11|4|9:8|10|6|7|3:1|5]`.
//! - `specs/Table.antt`: the rows in the order of tables 16.5 to 16.7, and `expansion`.
//! - `specs/Laws.antt`: what the laws say.
//!
//! # Edges of the table
//!
//! - A hint, such as C.ADDI with `rd` = x0, is what its code expands to. That changes nothing but `pc`.
//! - C.ADDI16SP has the code that C.LUI would have with `rd` = x2, and C.JR, C.JALR and C.EBREAK those of C.MV and C.ADD with `rs2` = x0.
//!   The exceptions of the rows say so: no half has two rows.
//! - A shift whose amount has bit 5 set isn't standard in RV32C, and has no row. A shift by 0 is a hint.
#![tactic(auto)]

ghost use Rattle.std.specs.Prelude.{◌≡◌, ◌<◌, IfSome, IfNone, All, Any, bit_and};
ghost use Rattle.rv_compressed.specs.Table.{expansion, rows, insn_of};
ghost use Rattle.rv_compressed.specs.Laws.{IsOf, IsOfRow, OneRow, AllExpand, ShortRegisters, LongHalvesHaveNone, ZeroHasNone};

mod forms;
mod operands;

use forms::{i_form, r_form, s_form, u_form};
use operands::{
    imm_16sp, imm_branch, imm_jump, imm_six, imm_upper, rd, rs2, shift_amount, short_rs1,
    short_rs2, uimm_4spn, uimm_lwsp, uimm_swsp, uimm_word,
};
use rv_decode::{Insn, Op};

/// The number of the return address register.
const RA: u8 = 1;
/// The number of the stack pointer.
const SP: u8 = 2;

/// Expands C.ADDI4SPN, which is reserved without an immediate.
#[tactic(auto, using(crate::proofs::TableLemmas::expansion_addi4spn))]
fn addi4spn(half: u32) -> Option<Insn>
    requires { bit_and half 0xE003 ≡ 0x0000 }
    ensures { result ≡ expansion half }
{
    match half & 0x1FE0 {
        0 => None,
        _ => Some(i_form(Op::Addi, short_rs2(half), SP, uimm_4spn(half))),
    }
}

/// Expands a half of quadrant 0, by funct3.
#[tactic(auto, using(crate::proofs::TableLemmas::expansion_lw, crate::proofs::TableLemmas::expansion_sw))]
fn quadrant_0(half: u32) -> Option<Insn>
    requires { bit_and half 3 ≡ 0 }
    ensures { result ≡ expansion half }
{
    match half & 0xE003 {
        0x0000 => addi4spn(half),
        0x4000 => Some(i_form(Op::Lw, short_rs2(half), short_rs1(half), uimm_word(half))),
        0xC000 => Some(s_form(Op::Sw, short_rs1(half), short_rs2(half), uimm_word(half))),
        _ => None,
    }
}

/// Expands C.ADDI16SP and C.LUI, which are reserved without an immediate.
#[tactic(auto, using(crate::proofs::TableLemmas::expansion_upper, crate::proofs::TableLemmas::expansion_lui))]
fn upper(half: u32) -> Option<Insn>
    requires { bit_and half 0xE003 ≡ 0x6001 }
    ensures { result ≡ expansion half }
{
    if half & 0x107C == 0 {
        return None;
    }
    match half & 0xEF83 {
        0x6101 => Some(i_form(Op::Addi, SP, SP, imm_16sp(half))),
        _ => Some(u_form(Op::Lui, rd(half), imm_upper(half))),
    }
}

/// Expands C.SRLI by less than 32.
#[tactic(auto, using(crate::proofs::TableLemmas::expansion_srli))]
fn srli(half: u32) -> Option<Insn>
    requires { bit_and half 0xEC03 ≡ 0x8001 }
    ensures { result ≡ expansion half }
{
    match half & 0xFC03 {
        0x8001 => Some(i_form(
            Op::Srli,
            short_rs1(half),
            short_rs1(half),
            shift_amount(half),
        )),
        _ => None,
    }
}

/// Expands C.SRAI by less than 32.
#[tactic(auto, using(crate::proofs::TableLemmas::expansion_srai))]
fn srai(half: u32) -> Option<Insn>
    requires { bit_and half 0xEC03 ≡ 0x8401 }
    ensures { result ≡ expansion half }
{
    match half & 0xFC03 {
        0x8401 => Some(i_form(
            Op::Srai,
            short_rs1(half),
            short_rs1(half),
            shift_amount(half),
        )),
        _ => None,
    }
}

/// Expands an operation on two registers of x8 to x15, of which RV32C has four.
#[tactic(auto, using(crate::proofs::TableLemmas::expansion_short_pair))]
fn short_pair(half: u32) -> Option<Insn>
    requires { bit_and half 0xEC03 ≡ 0x8C01 }
    ensures { result ≡ expansion half }
{
    let op = match half & 0xFC63 {
        0x8C01 => Op::Sub,
        0x8C21 => Op::Xor,
        0x8C41 => Op::Or,
        0x8C61 => Op::And,
        _ => return None,
    };
    Some(r_form(op, short_rs1(half), short_rs1(half), short_rs2(half)))
}

/// Expands an operation on x8 to x15, by bits 11 and 10.
#[tactic(auto, using(crate::proofs::TableLemmas::expansion_andi))]
fn short(half: u32) -> Option<Insn>
    requires { bit_and half 0xE003 ≡ 0x8001 }
    ensures { result ≡ expansion half }
{
    match half & 0xEC03 {
        0x8001 => srli(half),
        0x8401 => srai(half),
        0x8801 => Some(i_form(Op::Andi, short_rs1(half), short_rs1(half), imm_six(half))),
        0x8C01 => short_pair(half),
        // Each value of the two bits is above.
        _ => None,
    }
}

/// Expands a half of quadrant 1, by funct3.
#[tactic(auto, using(crate::proofs::TableLemmas::expansion_addi, crate::proofs::TableLemmas::expansion_jal, crate::proofs::TableLemmas::expansion_li, crate::proofs::TableLemmas::expansion_j, crate::proofs::TableLemmas::expansion_beqz, crate::proofs::TableLemmas::expansion_bnez))]
fn quadrant_1(half: u32) -> Option<Insn>
    requires { bit_and half 3 ≡ 1 }
    ensures { result ≡ expansion half }
{
    match half & 0xE003 {
        0x0001 => Some(i_form(Op::Addi, rd(half), rd(half), imm_six(half))),
        0x2001 => Some(u_form(Op::Jal, RA, imm_jump(half))),
        0x4001 => Some(i_form(Op::Addi, rd(half), 0, imm_six(half))),
        0x6001 => upper(half),
        0x8001 => short(half),
        0xA001 => Some(u_form(Op::Jal, 0, imm_jump(half))),
        0xC001 => Some(s_form(Op::Beq, short_rs1(half), 0, imm_branch(half))),
        0xE001 => Some(s_form(Op::Bne, short_rs1(half), 0, imm_branch(half))),
        // Each funct3 is above.
        _ => None,
    }
}

/// Expands C.SLLI by less than 32.
#[tactic(auto, using(crate::proofs::TableLemmas::expansion_slli))]
fn slli(half: u32) -> Option<Insn>
    requires { bit_and half 0xE003 ≡ 0x0002 }
    ensures { result ≡ expansion half }
{
    match half & 0xF003 {
        0x0002 => Some(i_form(Op::Slli, rd(half), rd(half), shift_amount(half))),
        _ => None,
    }
}

/// Expands C.LWSP, which is reserved with `rd` = x0.
#[tactic(auto, using(crate::proofs::TableLemmas::expansion_lwsp))]
fn lwsp(half: u32) -> Option<Insn>
    requires { bit_and half 0xE003 ≡ 0x4002 }
    ensures { result ≡ expansion half }
{
    match half & 0x0F80 {
        0 => None,
        _ => Some(i_form(Op::Lw, rd(half), SP, uimm_lwsp(half))),
    }
}

/// Expands C.MV, and C.JR, which is reserved with `rs1` = x0.
#[tactic(auto, using(crate::proofs::TableLemmas::expansion_mv, crate::proofs::TableLemmas::expansion_jr, crate::proofs::TableLemmas::expansion_no_jr))]
fn mv_or_jr(half: u32) -> Option<Insn>
    requires { bit_and half 0xF003 ≡ 0x8002 }
    ensures { result ≡ expansion half }
{
    if half & 0x007C != 0 {
        return Some(r_form(Op::Add, rd(half), 0, rs2(half)));
    }
    match half & 0x0F80 {
        0 => None,
        _ => Some(i_form(Op::Jalr, 0, rd(half), 0)),
    }
}

/// Expands C.ADD, C.JALR and C.EBREAK.
#[tactic(auto, using(crate::proofs::TableLemmas::expansion_add, crate::proofs::TableLemmas::expansion_jalr, crate::proofs::TableLemmas::expansion_ebreak))]
fn add_or_jalr(half: u32) -> Option<Insn>
    requires { bit_and half 0xF003 ≡ 0x9002 }
    ensures { result ≡ expansion half }
{
    if half & 0x007C != 0 {
        return Some(r_form(Op::Add, rd(half), rd(half), rs2(half)));
    }
    match half & 0x0F80 {
        0 => Some(r_form(Op::Ebreak, 0, 0, 0)),
        _ => Some(i_form(Op::Jalr, RA, rd(half), 0)),
    }
}

/// Expands an operation on registers of five bits, by bit 12.
fn registers(half: u32) -> Option<Insn>
    requires { bit_and half 0xE003 ≡ 0x8002 }
    ensures { result ≡ expansion half }
{
    match half & 0xF003 {
        0x8002 => mv_or_jr(half),
        0x9002 => add_or_jalr(half),
        // Both values of the bit are above.
        _ => None,
    }
}

/// Expands a half of quadrant 2, by funct3.
#[tactic(auto, using(crate::proofs::TableLemmas::expansion_swsp))]
fn quadrant_2(half: u32) -> Option<Insn>
    requires { bit_and half 3 ≡ 2 }
    ensures { result ≡ expansion half }
{
    match half & 0xE003 {
        0x0002 => slli(half),
        0x4002 => lwsp(half),
        0x8002 => registers(half),
        0xC002 => Some(s_form(Op::Sw, SP, rs2(half), uimm_swsp(half))),
        _ => None,
    }
}

/// Expands a half, by its quadrant.
fn by_quadrant(half: u32) -> Option<Insn>
    ensures { result ≡ expansion half }
{
    match half & 3 {
        0 => quadrant_0(half),
        1 => quadrant_1(half),
        2 => quadrant_2(half),
        _ => None,
    }
}

/// Returns the 32-bit instruction that a 16-bit instruction of RV32C stands for, or `None` if the half is of no row of the table: reserved,
/// illegal, not in RV32C, or the first half of a longer instruction.
pub fn expand(half: u16) -> Option<Insn>
    ensures row { result ≡ expansion half }
    ensures registers { IfSome result (λ i. (i.rd < 32) × (i.rs1 < 32) × (i.rs2 < 32)) }

    // The same without the order of the table: the instruction is that of a row, and each half of a row has that row's instruction.
    ensures some { IfSome result (λ i. Any (IsOfRow half i) rows) }
    ensures none { IfNone result (All (λ row. ¬ IsOf half row) rows) }
    ensures only { All (λ row. IsOf half row → result ≡ Some (insn_of row half)) rows }
{
    by_quadrant(half as u32)
}

/// No half is of two rows of the table. This is a law; the function does nothing.
pub fn one_row()
    ensures { OneRow }
{}

/// Each row stands for instructions of the 32-bit listing: of an operation, with operands that its form can have. This is a law; the
/// function does nothing.
pub fn each_expands()
    ensures { AllExpand }
{}

/// A register that has three bits in a half is one of x8 to x15. This is a law; the function does nothing.
pub fn short_registers()
    ensures { ShortRegisters }
{}

/// A half whose bits 1 and 0 are set stands for nothing, and neither does 0. This is a law; the function does nothing.
pub fn halves_without_a_row()
    ensures long { LongHalvesHaveNone }
    ensures zero { ZeroHasNone }
{}
