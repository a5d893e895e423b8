//! The compares that a run executes, with their operands.
ghost use Rattle.std.specs.Prelude.{◌≡◌, ◌++◌, ℕ, take, option_and_then, option_to_list, IfOk, OnOk};
ghost use Rattle.guest_machine.specs.State.{State};
ghost use Rattle.guest_machine.specs.Run.{pre};
ghost use Rattle.guest_machine.specs.Shows.{Shows};
ghost use Rattle.checkpoints.specs.Compares.{code_at, compare_at, compares_between, if_compares, operands_in, operands_of, value_of};
ghost use Rattle.checkpoints.specs.Effects.{LeadsTo, Run};
ghost use Rattle.checkpoints.specs.Forks.{IsForkFor};
ghost use Rattle.instructions.specs.Codes.{row_of_code};

use crate::effect::Effect;
use crate::forks::{Fork, written_copy};
use crate::running::{is_running, next_step, pass_marks};
use guest_machine::laws::{
    end_stays, keeps_end, keeps_heap, keeps_input, keeps_isa, keeps_pokes, reads_on, stays_halted,
};
use guest_machine::{Alteration, Machine, Register, Setup};
use instructions::{Instruction, Operation};
use std::alloc::{AllocError, Global};

/// A compare that a run executes: a branch, or SLT, SLTU, SLTI or SLTIU.
#[derive(Clone, Copy)]
pub struct Compare {
    /// The step.
    pub step: u32,
    /// The address of the instruction.
    pub pc: u32,
    /// The value of the instruction's first register, whichever of its bits are undefined.
    pub left: u32,
    /// The value of the second register, in the same way, or the immediate, sign-extended.
    pub right: u32,
}

impl Fork {
    /// Returns the first `most` compares, in order, of the fork's run from the fork's step on and below another step. No step is executed
    /// from the last of these compares on, nor once the machine is halted. The steps count on no meter.
    pub fn compares(
        &self,
        alloc: Global,
        setup: &Setup,
        marks: &[Alteration],
        step: u32,
        most: usize,
    ) -> Result<Vec<Compare>, AllocError>
        ensures { IfOk result (λ found. (start : State) → Shows self.now.machine (pre start setup.now marks.now self.now.step)
            → found.items ≡ take most (compares_between start setup.now marks.now self.now.step step)) }
    {
        let copy = self.machine.share_warm()?;
        compares_from(alloc, copy, setup, marks, self.step, step, most)
    }

    /// Returns the same of an edited run, if an edit with this effect leads from the fork's run to it.
    pub fn compares_edited(
        &self,
        alloc: Global,
        effect: Effect,
        setup: &Setup,
        marks: &[Alteration],
        step: u32,
        most: usize,
    ) -> Result<Vec<Compare>, AllocError>
        ensures { IfOk result (λ found. (one : Run) (start : State) (last : ℕ)
            → LeadsTo effect one (record { start = start; setup = setup.now; marks = marks.now }) → IsForkFor effect one last self.now
            → found.items ≡ take most (compares_between start setup.now marks.now self.now.step step)) }
    {
        keeps_input();
        keeps_end();
        reads_on();
        end_stays();
        keeps_heap();
        keeps_pokes();
        keeps_isa();
        let written = written_copy(&self.machine, effect)?;
        let found = compares_from(alloc, written, setup, marks, self.step, step, most)?;
        Ok(found)
    }
}

/// The first `most` compares of a run from a step on and below another, by the machine before the first step.
fn compares_from(
    alloc: Global,
    machine: Machine,
    setup: &Setup,
    marks: &[Alteration],
    from: u32,
    to: u32,
    most: usize,
) -> Result<Vec<Compare>, AllocError>
    ensures { IfOk result (λ found. (start : State) → Shows machine (pre start setup.now marks.now from)
        → found.items ≡ take most (compares_between start setup.now marks.now from to)) }
{
    stays_halted();
    let mut found = Vec::new(alloc);
    if most == 0 {
        return Ok(found);
    }
    let mut machine = machine;
    let mut next = next_step(marks, from);
    for k in from..to {
        if !is_running(&machine) {
            return Ok(found);
        }
        let marked = pass_marks(machine, marks, k, &mut next)?;
        push_if(&mut found, compare_at(&marked, setup, k))?;
        if found.len() == most {
            return Ok(found);
        }
        let (stepped, _touched) = marked.step_on(setup)?;
        machine = stepped;
    }
    Ok(found)
}

/// Appends a compare, if there is one.
fn push_if(found: &mut Vec<Compare>, compare: Option<Compare>) -> Result<(), AllocError>
    ensures { OnOk result (found.new.items ≡ found.old.items ++ option_to_list compare) }
{
    if let Some(compare) = compare {
        found.push(compare)?;
    }
    Ok(())
}

/// The compare that the next step of a machine executes, if it executes one.
fn compare_at(machine: &Machine, setup: &Setup, step: u32) -> Option<Compare>
    ensures { (s : State) → Shows machine.now s → result ≡ compare_at step s setup.now }
{
    let (left, right) = operands_at(machine, setup)?;
    let pc = machine.pc();
    Some(Compare {
        step,
        pc,
        left,
        right,
    })
}

/// The operands of the instruction that the next step of a machine executes, if it is a compare.
fn operands_at(machine: &Machine, setup: &Setup) -> Option<(u32, u32)>
    ensures { (s : State) → Shows machine.now s → result ≡ option_and_then (operands_in s.core) (code_at s setup.now) }
{
    match instruction_at(machine, setup) {
        Some(instruction) => operands_of(machine, &instruction),
        None => None,
    }
}

/// The instruction that the next step of a machine executes, if it takes a code that is one.
fn instruction_at(machine: &Machine, setup: &Setup) -> Option<Instruction>
    ensures { (s : State) → Shows machine.now s → result ≡ option_and_then row_of_code (code_at s setup.now) }
{
    match setup.hooks.at(machine.pc()) {
        Some(_) => None,
        None => machine.instruction(),
    }
}

/// The operands of an instruction, if it is a compare.
#[tactic(auto, unfolding(crate::specs::Compares::operands_of))]
fn operands_of(machine: &Machine, row: &Instruction) -> Option<(u32, u32)>
    ensures { (s : State) → Shows machine.now s → result ≡ operands_of s.core row.now }
{
    match *row {
        Instruction::Branch { rs1, rs2, .. } => {
            Some((value_of(machine, rs1), value_of(machine, rs2)))
        }
        Instruction::Registers {
            operation,
            rs1,
            rs2,
            ..
        } => { if_compares(operation, value_of(machine, rs1), value_of(machine, rs2)) }
        Instruction::Immediate {
            operation,
            rs1,
            imm,
            ..
        } => { if_compares(operation, value_of(machine, rs1), imm) }
        _ => None,
    }
}

/// The operands of an operation, if it compares them.
fn if_compares(operation: Operation, left: u32, right: u32) -> Option<(u32, u32)>
    ensures { result ≡ if_compares operation left right }
{
    match operation {
        Operation::SetLess | Operation::SetLessUnsigned => Some((left, right)),
        _ => None,
    }
}

/// The value of a register, whichever of its bits are undefined.
fn value_of(machine: &Machine, register: Register) -> u32
    ensures { (s : State) → Shows machine.now s → result ≡ value_of s.core register }
{
    machine.register(register).value
}
