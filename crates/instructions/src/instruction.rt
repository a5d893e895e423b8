//! The instructions in classes, and the class of each row of the instruction table.
ghost use Rattle.std.specs.Prelude.{◌≡◌, ◌<◌};
ghost use Rattle.instructions.specs.Instructions.{extension_of, if_extension, instruction_of, row_of, row_of_half};
ghost use Rattle.rv_extensions.specs.Table.{extension};

use crate::atomic::Update;
use crate::control::{ControlAccess, ControlOperand};
use crate::register::Register;
use crate::width::Width;
use rv_compressed::expand;
use rv_decode::{Insn, Op, decode};
use rv_extensions::{Extension, ExtensionOp};

/// What a branch compares (RISC-V Unprivileged ISA 20191213, section 2.5).
#[derive(Clone, Copy)]
pub enum Comparison {
    Equal,
    NotEqual,
    Less,
    GreaterEqual,
    LessUnsigned,
    GreaterEqualUnsigned,
}

/// What an instruction computes from two numbers (sections 2.4 and 7).
#[derive(Clone, Copy)]
pub enum Operation {
    Add,
    Sub,
    ShiftLeft,
    SetLess,
    SetLessUnsigned,
    Xor,
    ShiftRight,
    ShiftArith,
    Or,
    And,
    Mul,
    MulHigh,
    MulHighSignedUnsigned,
    MulHighUnsigned,
    Div,
    DivUnsigned,
    Rem,
    RemUnsigned,
}

/// An instruction. Immediates are modulo 2^32 and sign-extended; the amount of a shift is its immediate.
#[derive(Clone, Copy)]
pub enum Instruction {
    LoadUpper {
        rd: Register,
        imm: u32,
    },
    AddUpper {
        rd: Register,
        imm: u32,
    },
    Jump {
        rd: Register,
        imm: u32,
    },
    JumpRegister {
        rd: Register,
        rs1: Register,
        imm: u32,
    },
    Branch {
        comparison: Comparison,
        rs1: Register,
        rs2: Register,
        imm: u32,
    },
    Load {
        width: Width,
        signed: bool,
        rd: Register,
        rs1: Register,
        imm: u32,
    },
    Store {
        width: Width,
        rs1: Register,
        rs2: Register,
        imm: u32,
    },
    Immediate {
        operation: Operation,
        rd: Register,
        rs1: Register,
        imm: u32,
    },
    Registers {
        operation: Operation,
        rd: Register,
        rs1: Register,
        rs2: Register,
    },
    Fence,
    CallEnvironment,
    Breakpoint,
    LoadReserved {
        rd: Register,
        rs1: Register,
    },
    StoreConditional {
        rd: Register,
        rs1: Register,
        rs2: Register,
    },
    Update {
        update: Update,
        rd: Register,
        rs1: Register,
        rs2: Register,
    },
    /// One of a control register, by its number.
    Control {
        access: ControlAccess,
        rd: Register,
        number: u16,
        operand: ControlOperand,
    },
    /// FENCE.I or WFI: one hart without interrupts goes on.
    Barrier,
}

/// The operands of a row of the table, from which instructions are made.
#[derive(Clone, Copy)]
struct Operands {
    rd: Register,
    rs1: Register,
    rs2: Register,
    imm: u32,
}

impl Operands {
    ghost use Rattle.std.specs.Prelude.{◌≡◌};

    #[inline(always)]
    fn branch(self, comparison: Comparison) -> Instruction
        ensures { result ≡ Instruction.Branch comparison self.rs1 self.rs2 self.imm }
    {
        let Operands { rs1, rs2, imm, .. } = self;
        Instruction::Branch {
            comparison,
            rs1,
            rs2,
            imm,
        }
    }

    #[inline(always)]
    fn load(self, width: Width, signed: bool) -> Instruction
        ensures { result ≡ Instruction.Load width signed self.rd self.rs1 self.imm }
    {
        let Operands { rd, rs1, imm, .. } = self;
        Instruction::Load {
            width,
            signed,
            rd,
            rs1,
            imm,
        }
    }

    #[inline(always)]
    fn store(self, width: Width) -> Instruction
        ensures { result ≡ Instruction.Store width self.rs1 self.rs2 self.imm }
    {
        let Operands { rs1, rs2, imm, .. } = self;
        Instruction::Store {
            width,
            rs1,
            rs2,
            imm,
        }
    }

    #[inline(always)]
    fn immediate(self, operation: Operation) -> Instruction
        ensures { result ≡ Instruction.Immediate operation self.rd self.rs1 self.imm }
    {
        let Operands { rd, rs1, imm, .. } = self;
        Instruction::Immediate {
            operation,
            rd,
            rs1,
            imm,
        }
    }

    #[inline(always)]
    fn registers(self, operation: Operation) -> Instruction
        ensures { result ≡ Instruction.Registers operation self.rd self.rs1 self.rs2 }
    {
        let Operands { rd, rs1, rs2, .. } = self;
        Instruction::Registers {
            operation,
            rd,
            rs1,
            rs2,
        }
    }
}

/// Returns the instruction of a row of the table.
#[inline(always)]
#[tactic(auto, unfolding(crate::specs::Instructions::instruction_of))]
fn instruction_of(insn: Insn) -> Instruction
    requires rd { insn.rd < 32 }
    requires rs1 { insn.rs1 < 32 }
    requires rs2 { insn.rs2 < 32 }
    ensures { result ≡ instruction_of insn }
{
    let rd = Register::new(insn.rd);
    let rs1 = Register::new(insn.rs1);
    let rs2 = Register::new(insn.rs2);
    let imm = insn.imm;
    let operands = Operands { rd, rs1, rs2, imm };
    match insn.op {
        Op::Lui => Instruction::LoadUpper { rd, imm },
        Op::Auipc => Instruction::AddUpper { rd, imm },
        Op::Jal => Instruction::Jump { rd, imm },
        Op::Jalr => Instruction::JumpRegister { rd, rs1, imm },
        Op::Beq => operands.branch(Comparison::Equal),
        Op::Bne => operands.branch(Comparison::NotEqual),
        Op::Blt => operands.branch(Comparison::Less),
        Op::Bge => operands.branch(Comparison::GreaterEqual),
        Op::Bltu => operands.branch(Comparison::LessUnsigned),
        Op::Bgeu => operands.branch(Comparison::GreaterEqualUnsigned),
        Op::Lb => operands.load(Width::Byte, true),
        Op::Lh => operands.load(Width::Half, true),
        Op::Lw => operands.load(Width::Word, true),
        Op::Lbu => operands.load(Width::Byte, false),
        Op::Lhu => operands.load(Width::Half, false),
        Op::Sb => operands.store(Width::Byte),
        Op::Sh => operands.store(Width::Half),
        Op::Sw => operands.store(Width::Word),
        Op::Addi => operands.immediate(Operation::Add),
        Op::Slti => operands.immediate(Operation::SetLess),
        Op::Sltiu => operands.immediate(Operation::SetLessUnsigned),
        Op::Xori => operands.immediate(Operation::Xor),
        Op::Ori => operands.immediate(Operation::Or),
        Op::Andi => operands.immediate(Operation::And),
        Op::Slli => operands.immediate(Operation::ShiftLeft),
        Op::Srli => operands.immediate(Operation::ShiftRight),
        Op::Srai => operands.immediate(Operation::ShiftArith),
        Op::Add => operands.registers(Operation::Add),
        Op::Sub => operands.registers(Operation::Sub),
        Op::Sll => operands.registers(Operation::ShiftLeft),
        Op::Slt => operands.registers(Operation::SetLess),
        Op::Sltu => operands.registers(Operation::SetLessUnsigned),
        Op::Xor => operands.registers(Operation::Xor),
        Op::Srl => operands.registers(Operation::ShiftRight),
        Op::Sra => operands.registers(Operation::ShiftArith),
        Op::Or => operands.registers(Operation::Or),
        Op::And => operands.registers(Operation::And),
        Op::Mul => operands.registers(Operation::Mul),
        Op::Mulh => operands.registers(Operation::MulHigh),
        Op::Mulhsu => operands.registers(Operation::MulHighSignedUnsigned),
        Op::Mulhu => operands.registers(Operation::MulHighUnsigned),
        Op::Div => operands.registers(Operation::Div),
        Op::Divu => operands.registers(Operation::DivUnsigned),
        Op::Rem => operands.registers(Operation::Rem),
        Op::Remu => operands.registers(Operation::RemUnsigned),
        Op::Fence => Instruction::Fence,
        Op::Ecall => Instruction::CallEnvironment,
        Op::Ebreak => Instruction::Breakpoint,
    }
}

/// The operands of a row of the table of extensions, from which instructions are made.
#[derive(Clone, Copy)]
struct Fields {
    rd: Register,
    rs1: Register,
    rs2: Register,
    number: u16,
    imm: u8,
}

impl Fields {
    ghost use Rattle.std.specs.Prelude.{◌≡◌};

    #[inline(always)]
    fn update(self, update: Update) -> Instruction
        ensures { result ≡ Instruction.Update update self.rd self.rs1 self.rs2 }
    {
        let Fields { rd, rs1, rs2, .. } = self;
        Instruction::Update {
            update,
            rd,
            rs1,
            rs2,
        }
    }

    #[inline(always)]
    fn control(self, access: ControlAccess) -> Instruction
        ensures { result ≡ Instruction.Control access self.rd self.number (ControlOperand.Register self.rs1) }
    {
        let Fields {
            rd,
            rs1,
            number,
            ..
        } = self;
        Instruction::Control {
            access,
            rd,
            number,
            operand: ControlOperand::Register(rs1),
        }
    }

    #[inline(always)]
    fn immediate(self, access: ControlAccess) -> Instruction
        ensures { result ≡ Instruction.Control access self.rd self.number (ControlOperand.Immediate self.imm) }
    {
        let Fields {
            rd,
            number,
            imm,
            ..
        } = self;
        Instruction::Control {
            access,
            rd,
            number,
            operand: ControlOperand::Immediate(imm),
        }
    }
}

/// Returns the instruction of a row of the table of extensions.
#[tactic(auto, unfolding(crate::specs::Instructions::extension_of))]
fn extension_of(found: Extension) -> Instruction
    requires rd { found.rd < 32 }
    requires rs1 { found.rs1 < 32 }
    requires rs2 { found.rs2 < 32 }
    ensures { result ≡ extension_of found }
{
    let rd = Register::new(found.rd);
    let rs1 = Register::new(found.rs1);
    let rs2 = Register::new(found.rs2);
    let fields = Fields {
        rd,
        rs1,
        rs2,
        number: found.csr,
        imm: found.uimm,
    };
    match found.op {
        ExtensionOp::LrW => Instruction::LoadReserved { rd, rs1 },
        ExtensionOp::ScW => Instruction::StoreConditional { rd, rs1, rs2 },
        ExtensionOp::AmoswapW => fields.update(Update::Swap),
        ExtensionOp::AmoaddW => fields.update(Update::Add),
        ExtensionOp::AmoxorW => fields.update(Update::Xor),
        ExtensionOp::AmoandW => fields.update(Update::And),
        ExtensionOp::AmoorW => fields.update(Update::Or),
        ExtensionOp::AmominW => fields.update(Update::Min),
        ExtensionOp::AmomaxW => fields.update(Update::Max),
        ExtensionOp::AmominuW => fields.update(Update::MinUnsigned),
        ExtensionOp::AmomaxuW => fields.update(Update::MaxUnsigned),
        ExtensionOp::Csrrw => fields.control(ControlAccess::Write),
        ExtensionOp::Csrrs => fields.control(ControlAccess::Set),
        ExtensionOp::Csrrc => fields.control(ControlAccess::Clear),
        ExtensionOp::Csrrwi => fields.immediate(ControlAccess::Write),
        ExtensionOp::Csrrsi => fields.immediate(ControlAccess::Set),
        ExtensionOp::Csrrci => fields.immediate(ControlAccess::Clear),
        ExtensionOp::FenceI | ExtensionOp::Wfi => Instruction::Barrier,
    }
}

/// Returns the instruction of a word in the table of extensions, if it is one.
fn extension_row_of(word: u32) -> Option<Instruction>
    ensures { result ≡ if_extension (extension word) }
{
    Some(extension_of(rv_extensions::decode(word)?))
}

/// Returns the instruction of a word, if it is one.
#[tactic(auto, unfolding(crate::specs::Instructions::row_of))]
pub fn row_of(word: u32) -> Option<Instruction>
    ensures { result ≡ row_of word }
{
    match decode(word) {
        Some(insn) => Some(instruction_of(insn)),
        None => extension_row_of(word),
    }
}

/// Returns the instruction of a half, if it is one.
#[tactic(auto, unfolding(crate::specs::Instructions::row_of_half))]
pub fn row_of_half(half: u16) -> Option<Instruction>
    ensures { result ≡ row_of_half half }
{
    Some(instruction_of(expand(half)?))
}
