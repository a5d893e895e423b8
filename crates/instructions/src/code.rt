//! The code of an instruction, as memory has it.
ghost use Rattle.std.specs.Prelude.{◌≡◌};
ghost use Rattle.instructions.specs.Codes.{len_of, row_of_code};

use crate::instruction::{Instruction, row_of, row_of_half};

/// The code of an instruction (RISC-V Unprivileged ISA 20191213, section 1.5).
#[derive(Clone, Copy)]
pub enum Code {
    /// 32 bits, in four bytes.
    Word(u32),
    /// 16 bits, in two bytes.
    Half(u16),
}

impl Code {
    /// Returns the number of its bytes: 4 or 2.
    #[inline(always)]
    pub fn len(self) -> u32
        ensures { result ≡ len_of self }
    {
        match self {
            Code::Word(_) => 4,
            Code::Half(_) => 2,
        }
    }
}

/// Returns the instruction of a code, if it is one.
#[inline(always)]
pub fn row_of_code(code: Code) -> Option<Instruction>
    ensures { result ≡ row_of_code code }
{
    match code {
        Code::Word(word) => row_of(word),
        Code::Half(half) => row_of_half(half),
    }
}
