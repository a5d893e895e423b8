//! Atomic instructions, and what an atomic memory operation stores.
ghost use Rattle.std.specs.Prelude.{◌≡◌};
ghost use Rattle.instructions.specs.Atomics.{chosen, updated};

use crate::alu::{computed, less_signed};
use crate::instruction::Operation;
use definedness::{Bits, undef_wide};

/// What an atomic memory operation stores, of the word in memory and that in rs2 (RISC-V Unprivileged ISA 20191213, section 8.4).
#[derive(Clone, Copy)]
pub enum Update {
    Swap,
    Add,
    Xor,
    And,
    Or,
    Min,
    Max,
    MinUnsigned,
    MaxUnsigned,
}

/// What an atomic instruction does with the word at the address in rs1 (chapter 8).
#[derive(Clone, Copy)]
pub enum Atomic {
    /// LR loads it, and reserves its address.
    LoadReserved,
    /// SC stores rs2 there, if the address is reserved.
    StoreConditional,
    /// An AMO loads it, and stores another one.
    Update(Update),
}

/// Returns the first of two words, or the second, with no bit defined if any bit of either is undefined.
fn chosen(first: bool, x: Bits, y: Bits) -> Bits
    ensures { result ≡ chosen first x y }
{
    Bits {
        value: if first { x.value } else { y.value },
        undef: undef_wide(x, y),
    }
}

/// Returns what an atomic memory operation stores, of the word in memory and that in rs2.
#[tactic(auto, unfolding(crate::specs::Atomics::updated, definedness::specs::Operations::less_unsigned))]
pub fn updated(update: Update, held: Bits, given: Bits) -> Bits
    ensures { result ≡ updated update held given }
{
    match update {
        Update::Swap => given,
        Update::Add => computed(Operation::Add, held, given),
        Update::Xor => computed(Operation::Xor, held, given),
        Update::And => computed(Operation::And, held, given),
        Update::Or => computed(Operation::Or, held, given),
        Update::Min => chosen(less_signed(held.value, given.value), held, given),
        Update::Max => chosen(less_signed(held.value, given.value), given, held),
        Update::MinUnsigned => chosen(held.value < given.value, held, given),
        Update::MaxUnsigned => chosen(held.value < given.value, given, held),
    }
}
