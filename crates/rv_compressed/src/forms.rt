//! Instructions of 32 bits by the operands of their forms (RISC-V Unprivileged ISA 20191213, section 2.2). An operand that a form lacks is 0.
ghost use Rattle.std.specs.Prelude.{◌≡◌};
ghost use Rattle.rv_compressed.specs.Table.{insn_with};

use rv_decode::{Insn, Op};

/// Returns an operation on two registers.
pub(crate) fn r_form(op: Op, rd: u8, rs1: u8, rs2: u8) -> Insn
    ensures { result ≡ insn_with op rd rs1 rs2 0 }
{
    Insn {
        op,
        imm: 0,
        rd,
        rs1,
        rs2,
    }
}

/// Returns an operation on a register and an immediate, a load, or a jump to an address in a register.
pub(crate) fn i_form(op: Op, rd: u8, rs1: u8, imm: u32) -> Insn
    ensures { result ≡ insn_with op rd rs1 0 imm }
{
    Insn {
        op,
        imm,
        rd,
        rs1,
        rs2: 0,
    }
}

/// Returns a store, or a branch: two registers and an offset or a distance.
pub(crate) fn s_form(op: Op, rs1: u8, rs2: u8, imm: u32) -> Insn
    ensures { result ≡ insn_with op 0 rs1 rs2 imm }
{
    Insn {
        op,
        imm,
        rd: 0,
        rs1,
        rs2,
    }
}

/// Returns a destination with an immediate: an upper one, or the distance of a jump.
pub(crate) fn u_form(op: Op, rd: u8, imm: u32) -> Insn
    ensures { result ≡ insn_with op rd 0 0 imm }
{
    Insn {
        op,
        imm,
        rd,
        rs1: 0,
        rs2: 0,
    }
}
