//! An operation with the operands that its form has, and 0 for the others
//! (RISC-V Unprivileged ISA 20191213, section 2.2).
ghost use Rattle.std.specs.Prelude.{◌≡◌};
ghost use Rattle.rv_decode.specs.Table.{with_fields, R, I, Shift, S, B, U, J, Bare};

use crate::{Insn, Op};
use rv_fields::{imm_b, imm_i, imm_j, imm_s, imm_u, rd, rs1, rs2, shift_amount};

/// Returns an instruction with two source registers and a destination.
pub(crate) fn r_form(op: Op, word: u32) -> Insn
    ensures { result ≡ with_fields R op word }
{
    Insn {
        op,
        rd: rd(word),
        rs1: rs1(word),
        rs2: rs2(word),
        imm: 0,
    }
}

/// Returns an instruction with a source register, an immediate and a destination.
pub(crate) fn i_form(op: Op, word: u32) -> Insn
    ensures { result ≡ with_fields I op word }
{
    Insn {
        op,
        rd: rd(word),
        rs1: rs1(word),
        rs2: 0,
        imm: imm_i(word),
    }
}

/// Returns an instruction with a source register, a shift amount and a destination.
pub(crate) fn shift_form(op: Op, word: u32) -> Insn
    ensures { result ≡ with_fields Shift op word }
{
    Insn {
        op,
        rd: rd(word),
        rs1: rs1(word),
        rs2: 0,
        imm: shift_amount(word),
    }
}

/// Returns a store.
pub(crate) fn s_form(op: Op, word: u32) -> Insn
    ensures { result ≡ with_fields S op word }
{
    Insn {
        op,
        rd: 0,
        rs1: rs1(word),
        rs2: rs2(word),
        imm: imm_s(word),
    }
}

/// Returns a branch.
pub(crate) fn b_form(op: Op, word: u32) -> Insn
    ensures { result ≡ with_fields B op word }
{
    Insn {
        op,
        rd: 0,
        rs1: rs1(word),
        rs2: rs2(word),
        imm: imm_b(word),
    }
}

/// Returns an instruction with a destination and an upper immediate.
pub(crate) fn u_form(op: Op, word: u32) -> Insn
    ensures { result ≡ with_fields U op word }
{
    Insn {
        op,
        rd: rd(word),
        rs1: 0,
        rs2: 0,
        imm: imm_u(word),
    }
}

/// Returns an instruction with a destination and the distance of a jump.
pub(crate) fn j_form(op: Op, word: u32) -> Insn
    ensures { result ≡ with_fields J op word }
{
    Insn {
        op,
        rd: rd(word),
        rs1: 0,
        rs2: 0,
        imm: imm_j(word),
    }
}

/// Returns an instruction without operands.
pub(crate) fn bare(op: Op) -> Insn
    ensures { result ≡ with_fields Bare op 0 }
{
    Insn {
        op,
        rd: 0,
        rs1: 0,
        rs2: 0,
        imm: 0,
    }
}
