ghost use Rattle.std.specs.Prelude.{◌≡◌, ℕ, ◌<◌, ◌≤◌, ◌%◌, ◌^◌, OnOk, IfOk, Some, slice_get, length, true, false, Bool};
ghost use Rattle.leak_graph.specs.Graphs.{LeadsTo, GoWithin, AllGoWithin, HasEdge};
ghost use Rattle.leak_search.specs.Pointing.{PointsTo, IsInNoBlock, IsWordIn};
ghost use Rattle.leak_search.specs.Gathering.{AreOrdered, words_in, words_within, listed, Gains, EdgesGain, RootAny, EdgeAny, RegisterBelow};

use crate::finding::{Owner, Reach, owner_of, pointer_to, reach_of};
use crate::words::next_word;
use definedness::Bits;
use guest_heap::Block;
use leak_graph::Pointer;
use shadow_memory::Memory;
use std::alloc::{AllocError, Global};

/// Adds a pointer to those of a block.
pub(crate) fn add_edge(
    edges: &mut [Vec<Pointer>],
    block: usize,
    pointer: Pointer,
) -> Result<(), AllocError>
    requires { block < length edges.old }
    ensures { OnOk result (EdgesGain (λ starts a b. (block ≡ a) × LeadsTo starts pointer b) edges.old edges.new) }
{
    edges[block].push(pointer)?;
    Ok(())
}

/// Adds the pointer in the word at an address, if it has one, to the roots or to the pointers of its block.
fn gather_word(
    blocks: &[Block],
    word: u32,
    value: u32,
    roots: &mut Vec<Pointer>,
    edges: &mut [Vec<Pointer>],
) -> Result<(), AllocError>
    requires ordered { AreOrdered blocks.now }
    requires aligned { word % 4 ≡ 0 }
    requires len { length edges.old ≡ length blocks.now }
    ensures roots { OnOk result (Gains (λ starts b. IsInNoBlock blocks.now word × PointsTo starts blocks.now value b) roots.old.items roots.new.items) }
    ensures edges { OnOk result (EdgesGain (λ starts a b. IsWordIn blocks.now word a × PointsTo starts blocks.now value b) edges.old edges.new) }
{
    let Some(pointer) = pointer_to(blocks, value) else {
        return Ok(())
    };
    match owner_of(blocks, word) {
        Owner::Outside => {
            roots.push(pointer)?;
            Ok(())
        }
        Owner::Inside(block) => {
            add_edge(edges, block, pointer)?;
            Ok(())
        }
        Owner::Across => Ok(()),
    }
}

/// Adds the pointers in the words whose values lie in a range, in one pass.
fn gather_within(
    memory: &Memory,
    blocks: &[Block],
    reach: Reach,
    roots: &mut Vec<Pointer>,
    edges: &mut [Vec<Pointer>],
) -> Result<(), AllocError>
    requires ordered { AreOrdered blocks.now }
    requires len { length edges.old ≡ length blocks.now }
    requires positive { 0 < reach.low }
    ensures roots { OnOk result (Gains (RootAny (words_within memory.now reach.low reach.high) blocks.now) roots.old.items roots.new.items) }
    ensures edges { OnOk result (EdgesGain (EdgeAny (words_within memory.now reach.low reach.high) blocks.now) edges.old edges.new) }
{
    let mut from = 0;
    while let Some(word) = next_word(memory, from, reach.low, reach.high) {
        gather_word(blocks, word.address, word.value, roots, edges)?;
        match word.address.checked_add(4) {
            Some(next) => from = next,
            None => return Ok(()),
        }
    }
    Ok(())
}

/// Adds the pointers in all words; words that can't point to a block are skipped.
pub(crate) fn gather_words(
    memory: &Memory,
    blocks: &[Block],
    roots: &mut Vec<Pointer>,
    edges: &mut [Vec<Pointer>],
) -> Result<(), AllocError>
    requires ordered { AreOrdered blocks.now }
    requires len { length edges.old ≡ length blocks.now }
    ensures roots { OnOk result (Gains (RootAny (words_in memory.now) blocks.now) roots.old.items roots.new.items) }
    ensures edges { OnOk result (EdgesGain (EdgeAny (words_in memory.now) blocks.now) edges.old edges.new) }
{
    match reach_of(blocks) {
        None => Ok(()),
        Some(reach) => gather_within(memory, blocks, reach, roots, edges),
    }
}

/// Adds the pointer in a register, if the register is wholly defined.
fn add_register(
    register: Bits,
    blocks: &[Block],
    roots: &mut Vec<Pointer>,
) -> Result<(), AllocError>
    requires { AreOrdered blocks.now }
    ensures { OnOk result (Gains (λ starts b. (register.undef ≡ 0) × PointsTo starts blocks.now register.value b) roots.old.items roots.new.items) }
{
    if register.undef != 0 {
        return Ok(());
    }
    let Some(pointer) = pointer_to(blocks, register.value) else {
        return Ok(())
    };
    roots.push(pointer)?;
    Ok(())
}

/// Adds the pointers in x1 to x31. x0 holds no value of the guest.
pub(crate) fn gather_registers(
    registers: &[Bits],
    blocks: &[Block],
    roots: &mut Vec<Pointer>,
) -> Result<(), AllocError>
    requires ordered { AreOrdered blocks.now }
    requires len { length registers.now ≡ 32 }
    ensures { OnOk result (Gains (RegisterBelow (listed registers.now) blocks.now 32) roots.old.items roots.new.items) }
{
    for number in 1..32 {
        add_register(registers[number], blocks, roots)?;
    }
    Ok(())
}
