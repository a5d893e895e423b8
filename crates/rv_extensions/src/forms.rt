//! An operation with the operands that its form has, and 0 for the others.
ghost use Rattle.std.specs.Prelude.{◌≡◌};
ghost use Rattle.rv_extensions.specs.Table.{with_fields, Load, Update, Control, Immediate, Bare};

use crate::fields::{csr, uimm};
use crate::{Extension, ExtensionOp};
use rv_fields::{rd, rs1, rs2};

/// Returns a load that reserves its address.
pub(crate) fn load_form(op: ExtensionOp, word: u32) -> Extension
    ensures { result ≡ with_fields Load op word }
{
    Extension {
        op,
        csr: 0,
        rd: rd(word),
        rs1: rs1(word),
        rs2: 0,
        uimm: 0,
    }
}

/// Returns a store on the condition of a reservation, or an update of memory.
pub(crate) fn update_form(op: ExtensionOp, word: u32) -> Extension
    ensures { result ≡ with_fields Update op word }
{
    Extension {
        op,
        csr: 0,
        rd: rd(word),
        rs1: rs1(word),
        rs2: rs2(word),
        uimm: 0,
    }
}

/// Returns an instruction of a control register and a source register.
pub(crate) fn control_form(op: ExtensionOp, word: u32) -> Extension
    ensures { result ≡ with_fields Control op word }
{
    Extension {
        op,
        csr: csr(word),
        rd: rd(word),
        rs1: rs1(word),
        rs2: 0,
        uimm: 0,
    }
}

/// Returns an instruction of a control register and an immediate.
pub(crate) fn immediate_form(op: ExtensionOp, word: u32) -> Extension
    ensures { result ≡ with_fields Immediate op word }
{
    Extension {
        op,
        csr: csr(word),
        rd: rd(word),
        rs1: 0,
        rs2: 0,
        uimm: uimm(word),
    }
}

/// Returns an instruction without operands.
pub(crate) fn bare(op: ExtensionOp) -> Extension
    ensures { result ≡ with_fields Bare op 0 }
{
    Extension {
        op,
        csr: 0,
        rd: 0,
        rs1: 0,
        rs2: 0,
        uimm: 0,
    }
}
