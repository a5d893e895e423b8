//! The changes at a step.
ghost use Rattle.std.specs.Prelude.{◌≡◌, ◌+◌, ◌^◌, ◌<◌, ◌≤◌, ◌++◌, IfOk, OnOk};
ghost use Rattle.sweep_plans.specs.Glitches.{bits_of, byte_flips, flip_of, flips_at, glitches_at, register_flips, register_sets, skip_at, when, word_flips};
ghost use Rattle.sweep_plans.specs.declared.glitches.Target.TheVariants.{Pc};

use crate::change::{Change, Glitch};
use crate::plan::{FaultModels, HALF_BITS, WORD_BITS};
use std::alloc::{AllocError, Global};

/// What a bit is turned in.
#[derive(Clone, Copy)]
pub enum Target {
    /// A register, x0 to x31.
    Register(u8),
    /// pc.
    Pc,
    /// The word at an address, for one step.
    Word(u32),
}

/// The number of registers that may be changed: x1 to x31.
const REGISTERS: u8 = 31;

/// The number of bits of a byte.
const BYTE_BITS: u32 = 8;

/// The last address from which there are four bytes.
const LAST_WORD: u32 = u32::MAX - 3;

/// Returns the change at a step that turns the bits of a mask.
fn flip_of(step: u32, target: Target, mask: u32) -> Change
    requires { step + 1 < 2 ^ 32 }
    ensures { result ≡ flip_of step target mask }
{
    match target {
        Target::Register(register) => Change::Once {
            step,
            glitch: Glitch::Flip { register, mask },
        },
        Target::Pc => Change::Once {
            step,
            glitch: Glitch::FlipPc { mask },
        },
        Target::Word(addr) => Change::Twice {
            step,
            glitch: Glitch::Turn { addr, mask },
            later: step + 1,
            other: Glitch::Turn { addr, mask },
        },
    }
}

/// Appends the changes at a step that turn each of the lowest bits, from bit 0 on.
fn push_flips(
    changes: &mut Vec<Change>,
    step: u32,
    target: Target,
    bits: u32,
) -> Result<(), AllocError>
    requires next { step + 1 < 2 ^ 32 }
    requires bits { bits ≤ 32 }
    ensures { OnOk result (changes.new.items ≡ changes.old.items ++ flips_at step target bits) }
{
    for bit in 0..bits {
        changes.push(flip_of(step, target, 1 << bit))?;
    }
    Ok(())
}

/// Appends the change that leaves out the instruction of a step, if wanted.
fn push_skip(changes: &mut Vec<Change>, is_wanted: bool, step: u32) -> Result<(), AllocError>
    ensures { OnOk result (changes.new.items ≡ changes.old.items ++ when is_wanted (skip_at step)) }
{
    if is_wanted {
        changes.push(Change::Once {
            step,
            glitch: Glitch::Skip,
        })?;
    }
    Ok(())
}

/// Appends the flips of x1 to x31.
fn push_register_flips(changes: &mut Vec<Change>, step: u32) -> Result<(), AllocError>
    requires { step + 1 < 2 ^ 32 }
    ensures { OnOk result (changes.new.items ≡ changes.old.items ++ register_flips step) }
{
    for r in 0..REGISTERS {
        push_flips(changes, step, Target::Register(r + 1), WORD_BITS)?;
    }
    Ok(())
}

/// Appends the flips of x1 to x31, if wanted.
fn push_registers(changes: &mut Vec<Change>, is_wanted: bool, step: u32) -> Result<(), AllocError>
    requires { step + 1 < 2 ^ 32 }
    ensures { OnOk result (changes.new.items ≡ changes.old.items ++ when is_wanted (register_flips step)) }
{
    if is_wanted {
        push_register_flips(changes, step)?;
    }
    Ok(())
}

/// Appends the flips of pc, if wanted.
fn push_pc(changes: &mut Vec<Change>, is_wanted: bool, step: u32) -> Result<(), AllocError>
    requires { step + 1 < 2 ^ 32 }
    ensures { OnOk result (changes.new.items ≡ changes.old.items ++ when is_wanted (flips_at step Pc 32)) }
{
    if is_wanted {
        push_flips(changes, step, Target::Pc, WORD_BITS)?;
    }
    Ok(())
}

/// Returns the number of bits of an instruction.
fn bits_of(is_half: bool) -> u32
    ensures { result ≡ bits_of is_half }
{
    if is_half { HALF_BITS } else { WORD_BITS }
}

/// Appends the flips of the instruction at pc, if wanted and if the word there ends at the last address or before.
#[tactic(auto, unfolding(crate::specs::Glitches::word_flips))]
fn push_word(
    changes: &mut Vec<Change>,
    is_wanted: bool,
    step: u32,
    pc: u32,
    is_half: bool,
) -> Result<(), AllocError>
    requires { step + 1 < 2 ^ 32 }
    ensures { OnOk result (changes.new.items ≡ changes.old.items ++ when is_wanted (word_flips step pc is_half)) }
{
    if !is_wanted {
        return Ok(());
    }
    if pc <= LAST_WORD {
        push_flips(changes, step, Target::Word(pc), bits_of(is_half))?;
    }
    Ok(())
}

/// Appends the changes that set x1 to x31 to a value, one register each.
fn push_register_sets(changes: &mut Vec<Change>, step: u32, value: u32) -> Result<(), AllocError>
    ensures { OnOk result (changes.new.items ≡ changes.old.items ++ register_sets step value) }
{
    for r in 0..REGISTERS {
        let register = r + 1;
        changes.push(Change::Once {
            step,
            glitch: Glitch::Set { register, value },
        })?;
    }
    Ok(())
}

/// Appends the changes that set x1 to x31 to a value, if wanted.
fn push_sets(
    changes: &mut Vec<Change>,
    is_wanted: bool,
    step: u32,
    value: u32,
) -> Result<(), AllocError>
    ensures { OnOk result (changes.new.items ≡ changes.old.items ++ when is_wanted (register_sets step value)) }
{
    if is_wanted {
        push_register_sets(changes, step, value)?;
    }
    Ok(())
}

/// Returns the changes at a step that turn each bit of the byte at an address, from bit 0 on.
pub fn byte_flips(alloc: Global, step: u32, addr: u32) -> Result<Vec<Change>, AllocError>
    ensures { IfOk result (λ changes. changes.items ≡ byte_flips step addr) }
{
    let mut changes = Vec::new(alloc);
    let place = addr % 4;
    let word = addr - place;
    for bit in 0..BYTE_BITS {
        let mask = 1 << (8 * place + bit);
        changes.push(Change::Once {
            step,
            glitch: Glitch::Turn { addr: word, mask },
        })?;
    }
    Ok(changes)
}

/// Returns the changes at a step before which pc has a value, and the instruction there has 16 bits or 32, except for those of the model
/// `memory`, which depend on later steps.
#[tactic(auto, unfolding(crate::specs::Glitches::glitches_at), using(std::proofs::Common::append_assoc))]
pub fn glitches(
    alloc: Global,
    models: FaultModels,
    step: u32,
    pc: u32,
    is_half: bool,
) -> Result<Vec<Change>, AllocError>
    requires { step + 1 < 2 ^ 32 }
    ensures { IfOk result (λ changes. changes.items ≡ glitches_at models step pc is_half) }
{
    let mut changes = Vec::new(alloc);
    push_skip(&mut changes, models.skip, step)?;
    push_registers(&mut changes, models.registers, step)?;
    push_pc(&mut changes, models.pc, step)?;
    push_word(&mut changes, models.words, step, pc, is_half)?;
    push_sets(&mut changes, models.zero, step, 0)?;
    push_sets(&mut changes, models.ones, step, u32::MAX)?;
    Ok(changes)
}
