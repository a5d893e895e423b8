//! What a register is to the next step of a machine.
ghost use Rattle.std.specs.Prelude.{◌≡◌, Some};
ghost use Rattle.guest_machine.specs.State.{State};
ghost use Rattle.guest_machine.specs.Shows.{Shows};
ghost use Rattle.guest_machine.specs.Exec.{called_here};
ghost use Rattle.pruning.specs.Passing.{completes, passing, passing_row, reads, writes};

use guest_elf::Hook;
use guest_machine::{Hooks, Machine, Register, Setup, Status};
use instructions::{Instruction, row_of_code};

/// What a register is to a step.
#[derive(Clone, Copy, PartialEq, Eq)]
pub enum Passing {
    /// What the step does may depend on the register.
    Looks,
    /// The step does the same whatever the register holds, and leaves it as it is.
    Keeps,
    /// The step does the same whatever the register holds, and replaces it.
    Overwrites,
}

/// The number of the stack pointer.
const STACK_POINTER: usize = 2;

/// Whether an instruction has a register as an operand.
#[tactic(auto, unfolding(crate::specs::Passing::reads))]
fn reads(row: &Instruction, register: Register) -> bool
    ensures { result ≡ reads (Some row.now) register }
{
    let r = register.number();
    match *row {
        Instruction::JumpRegister { rs1, .. } => r == rs1.number(),
        Instruction::Branch { rs1, rs2, .. } => r == rs1.number() || r == rs2.number(),
        Instruction::Load { rs1, .. } => r == rs1.number(),
        Instruction::Store { rs1, rs2, .. } => r == rs1.number() || r == rs2.number(),
        Instruction::Immediate { rs1, .. } => r == rs1.number(),
        Instruction::Registers { rs1, rs2, .. } => r == rs1.number() || r == rs2.number(),
        Instruction::CallEnvironment => true,
        Instruction::LoadReserved { .. } => true,
        Instruction::StoreConditional { .. } => true,
        Instruction::Update { .. } => true,
        Instruction::Control { .. } => true,
        _ => false,
    }
}

/// Whether an instruction has a register as its destination.
#[tactic(auto, unfolding(crate::specs::Passing::writes))]
fn writes(row: &Instruction, register: Register) -> bool
    ensures { result ≡ writes (Some row.now) register }
{
    let r = register.number();
    match *row {
        Instruction::LoadUpper { rd, .. } => r == rd.number(),
        Instruction::AddUpper { rd, .. } => r == rd.number(),
        Instruction::Jump { rd, .. } => r == rd.number(),
        Instruction::JumpRegister { rd, .. } => r == rd.number(),
        Instruction::Load { rd, .. } => r == rd.number(),
        Instruction::Immediate { rd, .. } => r == rd.number(),
        Instruction::Registers { rd, .. } => r == rd.number(),
        _ => false,
    }
}

/// Whether an instruction at pc comes to write its destination.
#[tactic(auto, unfolding(crate::specs::Passing::completes, guest_machine::specs::Effects::target))]
fn completes(machine: &Machine, row: &Instruction) -> bool
    ensures { (s : State) → Shows machine.now s → result ≡ completes s.core (Some row.now) }
{
    match *row {
        Instruction::Jump { imm, .. } => { machine.isa().aligns(machine.pc().wrapping_add(imm)) }
        Instruction::JumpRegister { rs1, imm, .. } => {
            let target = machine.register(rs1).value.wrapping_add(imm);
            machine.isa().aligns(target / 2 * 2)
        }
        _ => true,
    }
}

/// The function of the heap that the next step calls by name.
#[tactic(auto, unfolding(guest_machine::specs::Exec::called_here))]
fn called_here(machine: &Machine, hooks: &Hooks) -> Option<Hook>
    ensures { (s : State) → Shows machine.now s → result ≡ called_here s.core hooks.now }
{
    if matches!(machine.status(), Status::Running) && machine.isa().aligns(machine.pc()) {
        hooks.at(machine.pc())
    } else {
        None
    }
}

/// What a register is to an instruction at pc.
#[tactic(auto, unfolding(crate::specs::Passing::passing_row))]
fn passing_row(machine: &Machine, row: &Instruction, register: Register) -> Passing
    ensures { (s : State) → Shows machine.now s → result ≡ passing_row s.core (Some row.now) register }
{
    let is_operand = reads(row, register);
    let is_destination = writes(row, register);
    let is_complete = completes(machine, row);
    let is_stack_pointer = register.number() == STACK_POINTER;
    if is_operand || is_destination && is_stack_pointer {
        Passing::Looks
    } else if is_complete && is_destination {
        Passing::Overwrites
    } else {
        Passing::Keeps
    }
}

/// Returns what a register is to the next step of a machine, under a setup.
#[tactic(auto, unfolding(crate::specs::Passing::passing, crate::specs::Passing::passing_action, crate::specs::Passing::passing_row, crate::specs::Passing::reads, crate::specs::Passing::writes))]
pub fn passing_of(machine: &Machine, setup: &Setup, register: Register) -> Passing
    ensures { (s : State) → Shows machine.now s → result ≡ passing s setup.now register }
{
    if called_here(machine, &setup.hooks).is_some() {
        return Passing::Looks;
    }
    match machine.code() {
        Some(code) => match row_of_code(code) {
            Some(row) => passing_row(machine, &row, register),
            None => Passing::Keeps,
        },
        None => Passing::Keeps,
    }
}
