//! The fields that only instructions of a control register have (RISC-V Unprivileged ISA 20191213, section 9.1).
ghost use Rattle.std.specs.Prelude.{◌≡◌};
ghost use Rattle.rv_extensions.specs.Table.{csr, uimm};

use rv_fields::field;

/// Returns the immediate of an instruction of a control register, below 32.
pub(crate) fn uimm(word: u32) -> u8
    ensures { result ≡ uimm word }
{
    field(word, 19, 15) as u8
}

/// Returns the number of the control register, below 4,096.
pub(crate) fn csr(word: u32) -> u16
    ensures { result ≡ csr word }
{
    field(word, 31, 20) as u16
}
