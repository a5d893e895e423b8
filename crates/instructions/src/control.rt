//! Instructions of control registers, and what they store.
ghost use Rattle.std.specs.Prelude.{◌≡◌};
ghost use Rattle.instructions.specs.Controls.{complement, replaced, writes};

use crate::alu::computed;
use crate::instruction::Operation;
use crate::register::Register;
use definedness::Bits;

/// What becomes of a control register that is read (RISC-V Unprivileged ISA 20191213, section 9.1).
#[derive(Clone, Copy)]
pub enum ControlAccess {
    /// CSRRW writes the operand.
    Write,
    /// CSRRS sets the bits that the operand has.
    Set,
    /// CSRRC clears the bits that the operand has.
    Clear,
}

/// The operand: a register, or the number of CSRRWI, CSRRSI and CSRRCI, below 32.
#[derive(Clone, Copy)]
pub enum ControlOperand {
    Register(Register),
    Immediate(u8),
}

impl ControlAccess {
    /// Returns whether the register is written. CSRRS and CSRRC with x0, and CSRRSI and CSRRCI with 0, only read it.
    #[tactic(auto, unfolding(crate::specs::Controls::writes))]
    pub fn writes(self, operand: ControlOperand) -> bool
        ensures { result ≡ writes self operand }
    {
        match (self, operand) {
            (ControlAccess::Write, _) => true,
            (_, ControlOperand::Register(register)) => register.number() != 0,
            (_, ControlOperand::Immediate(number)) => number != 0,
        }
    }
}

/// Returns a word with each bit turned. Undefined bits stay undefined.
fn complement(given: Bits) -> Bits
    ensures { result ≡ complement given }
{
    let ones = Bits {
        value: u32::MAX,
        undef: 0,
    };
    computed(Operation::Xor, given, ones)
}

/// Returns what replaces the word in a control register, by that of the operand.
#[tactic(auto, unfolding(crate::specs::Controls::replaced))]
pub fn replaced(access: ControlAccess, held: Bits, given: Bits) -> Bits
    ensures { result ≡ replaced access held given }
{
    match access {
        ControlAccess::Write => given,
        ControlAccess::Set => computed(Operation::Or, held, given),
        ControlAccess::Clear => computed(Operation::And, held, complement(given)),
    }
}
