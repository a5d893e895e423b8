//! The decoder of extensions: which instruction of A, Zicsr or Zifencei a 32-bit word is, or whether it is WFI.
//!
//! The instructions are 19: LR.W, SC.W and nine AMOs, six of control registers, FENCE.I and WFI, by the RISC-V Unprivileged ISA 20191213,
//! chapters 8, 9 and 3 and the listing of chapter 24, and the RISC-V Privileged Architecture 20190608, section 3.2.3. A word that is none
//! of them gives `None`. None of them is one of the 48 instructions of `rv_decode`.
//!
//! # Public items
//!
//! - [`ExtensionOp`] is one of the 19 operations, and [`Extension`] an operation with its operands.
//! - [`decode`] returns the instruction of a word. It is total and keeps no state.
//! - [`one_row`] and [`apart_from_base`] are laws of the table; they do nothing.
//!
//! # What a caller can rely on
//!
//! One clause of [`decode`]: `result ≡ extension word`. The definition `extension` is a table and not a program: a list `rows` of fixed
//! bits, each with its operation, read by `find`. A caller can take `extension` as opaque, since further clauses say what else is known of
//! a result:
//!
//! - `operands`: the numbers of its registers and its immediate are below 32, and that of its control register is below 4,096;
//! - `some`: an instruction is that of a row whose fixed bits the word has;
//! - `none`: where there is none, the word has the fixed bits of no row;
//! - `only`: a word with the fixed bits of a row is that row's instruction, whichever row it is.
//!
//! # Where the definitions are
//!
//! - `specs/Table.antt`: the rows (mask, value, form, operation), the operands that a form has, and `extension`.
//! - `specs/Laws.antt`: what the laws say.
//!
//! # Edges of the table
//!
//! - The bits aq and rl of atomic instructions are free, and no part of the result.
//! - FENCE.I is known only by its opcode and funct3, since an implementation must ignore its other fields (chapter 3).
//! - LR.W has no second source register: those bits are 0 (section 8.2).
//! - Each number of a control register has its instructions. Whether there is such a register, and whether it can be written, is no
//!   matter of the decoder.
#![tactic(auto)]

ghost use Rattle.std.specs.Prelude.{◌≡◌, ◌<◌, IfSome, IfNone, All, Any, bit_and};
ghost use Rattle.rv_extensions.specs.Table.{extension, rows, extension_of, HasFixedBits};
ghost use Rattle.rv_extensions.specs.Laws.{IsOfRow, HasOperands, OneRow, ApartFromBase};

mod fields;
mod forms;

use forms::{bare, control_form, immediate_form, load_form, update_form};

/// An operation, by its name in the listing (RISC-V Unprivileged ISA 20191213, chapter 24), or WFI.
#[derive(Clone, Copy, Debug, PartialEq, Eq)]
pub enum ExtensionOp {
    LrW,
    ScW,
    AmoswapW,
    AmoaddW,
    AmoxorW,
    AmoandW,
    AmoorW,
    AmominW,
    AmomaxW,
    AmominuW,
    AmomaxuW,
    Csrrw,
    Csrrs,
    Csrrc,
    Csrrwi,
    Csrrsi,
    Csrrci,
    FenceI,
    Wfi,
}

/// An instruction: an operation and its operands. An operand that the operation lacks is 0.
#[derive(Clone, Copy, Debug, PartialEq, Eq)]
pub struct Extension {
    /// The operation.
    pub op: ExtensionOp,
    /// The number of the control register, below 4,096.
    pub csr: u16,
    /// The number of the destination register, below 32.
    pub rd: u8,
    /// The number of the first source register, below 32: of an atomic instruction, the one that has the address.
    pub rs1: u8,
    /// The number of the second source register, below 32.
    pub rs2: u8,
    /// The immediate, below 32.
    pub uimm: u8,
}

/// Decodes the load that reserves its address, which has no second source register.
#[tactic(auto, using(crate::proofs::TableLemmas::extension_load))]
fn load_reserved(word: u32) -> Option<Extension>
    requires { bit_and word 0xF800707F ≡ 0x1000202F }
    ensures { result ≡ extension word }
{
    match word & 0xF9F0_707F {
        0x1000_202F => Some(load_form(ExtensionOp::LrW, word)),
        _ => None,
    }
}

/// Decodes another atomic instruction, by funct5.
#[tactic(auto, using(crate::proofs::TableLemmas::extension_update))]
fn update(word: u32) -> Option<Extension>
    requires opcode { bit_and word 0x7F ≡ 0x2F }
    requires other { ¬ (bit_and word 0xF800707F ≡ 0x1000202F) }
    ensures { result ≡ extension word }
{
    match word & 0xF800_707F {
        0x1800_202F => Some(update_form(ExtensionOp::ScW, word)),
        0x0800_202F => Some(update_form(ExtensionOp::AmoswapW, word)),
        0x0000_202F => Some(update_form(ExtensionOp::AmoaddW, word)),
        0x2000_202F => Some(update_form(ExtensionOp::AmoxorW, word)),
        0x6000_202F => Some(update_form(ExtensionOp::AmoandW, word)),
        0x4000_202F => Some(update_form(ExtensionOp::AmoorW, word)),
        0x8000_202F => Some(update_form(ExtensionOp::AmominW, word)),
        0xA000_202F => Some(update_form(ExtensionOp::AmomaxW, word)),
        0xC000_202F => Some(update_form(ExtensionOp::AmominuW, word)),
        0xE000_202F => Some(update_form(ExtensionOp::AmomaxuW, word)),
        _ => None,
    }
}

/// Decodes an atomic instruction.
fn atomic(word: u32) -> Option<Extension>
    requires { bit_and word 0x7F ≡ 0x2F }
    ensures { result ≡ extension word }
{
    match word & 0xF800_707F {
        0x1000_202F => load_reserved(word),
        _ => update(word),
    }
}

/// Decodes the wait for an interrupt, which is a whole word.
#[tactic(auto, using(crate::proofs::TableLemmas::extension_wait))]
fn wait(word: u32) -> Option<Extension>
    requires { bit_and word 0x707F ≡ 0x0073 }
    ensures { result ≡ extension word }
{
    match word {
        0x1050_0073 => Some(bare(ExtensionOp::Wfi)),
        _ => None,
    }
}

/// Decodes an instruction of a control register, or the wait for an interrupt, by funct3.
#[tactic(auto, using(crate::proofs::TableLemmas::extension_system))]
fn system(word: u32) -> Option<Extension>
    requires { bit_and word 0x7F ≡ 0x73 }
    ensures { result ≡ extension word }
{
    match word & 0x707F {
        0x0073 => wait(word),
        0x1073 => Some(control_form(ExtensionOp::Csrrw, word)),
        0x2073 => Some(control_form(ExtensionOp::Csrrs, word)),
        0x3073 => Some(control_form(ExtensionOp::Csrrc, word)),
        0x5073 => Some(immediate_form(ExtensionOp::Csrrwi, word)),
        0x6073 => Some(immediate_form(ExtensionOp::Csrrsi, word)),
        0x7073 => Some(immediate_form(ExtensionOp::Csrrci, word)),
        _ => None,
    }
}

/// Decodes the fence of fetches, whose other fields are free.
#[tactic(auto, using(crate::proofs::TableLemmas::extension_fence))]
fn fence(word: u32) -> Option<Extension>
    requires { bit_and word 0x7F ≡ 0x0F }
    ensures { result ≡ extension word }
{
    match word & 0x707F {
        0x100F => Some(bare(ExtensionOp::FenceI)),
        _ => None,
    }
}

/// Decodes an instruction, by its opcode.
fn by_opcode(word: u32) -> Option<Extension>
    ensures { result ≡ extension word }
{
    match word & 0x7F {
        0x2F => atomic(word),
        0x73 => system(word),
        0x0F => fence(word),
        _ => None,
    }
}

/// Returns the instruction of a word, or `None` if the word has the fixed bits of no row.
pub fn decode(word: u32) -> Option<Extension>
    ensures row { result ≡ extension word }
    ensures operands { IfSome result HasOperands }

    // The same without the order of the table: the instruction is that of a row, and each word of a row has that row's instruction.
    ensures some { IfSome result (λ found. Any (IsOfRow word found) rows) }
    ensures none { IfNone result (All (λ row. ¬ HasFixedBits word row) rows) }
    ensures only { All (λ row. HasFixedBits word row → result ≡ Some (extension_of row word)) rows }
{
    by_opcode(word)
}

/// No word has the fixed bits of two rows of the table. This is a law; the function does nothing.
pub fn one_row()
    ensures { OneRow }
{}

/// No word of an extension is an instruction of RV32IM as well. This is a law; the function does nothing.
pub fn apart_from_base()
    ensures { ApartFromBase }
{}
