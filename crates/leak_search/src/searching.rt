ghost use Rattle.std.specs.Prelude.{◌≡◌, ℕ, ◌<◌, ◌≤◌, ◌%◌, OnOk, IfOk, Some, slice_get, length, []};
ghost use Rattle.guest_heap.specs.Heaps.{blocks_of};
ghost use Rattle.guest_heap.specs.Steps.{live_list};
ghost use Rattle.guest_machine.specs.State.{State};
ghost use Rattle.guest_machine.specs.Shows.{Shows};
ghost use Rattle.guest_machine.specs.Registers.{register};
ghost use Rattle.leak_graph.specs.Graphs.{HasPointer, HasEdge};
ghost use Rattle.leak_search.specs.declared.record.LeakRecord.{LeakRecord};
ghost use Rattle.leak_search.specs.Search.{RootPointsTo, BlockPointsTo, AreRecordsIn};
ghost use Rattle.leak_search.specs.Records.{AreRecordsOf};
ghost use Rattle.leak_search.specs.Gathering.{AreOrdered, listed, scene_by, Gains, EdgesGain, HasNoEdge, AreRecordsBy};

use crate::blocks::live_blocks;
use crate::gathering::{gather_registers, gather_words};
use crate::record::LeakRecord;
use definedness::Bits;
use guest_heap::{Block, Heap};
use guest_machine::{Machine, Register};
use leak_graph::{LeakKind, Pointer, leak_kinds};
use shadow_memory::Memory;
use std::alloc::{AllocError, Global};

/// The pointers to blocks: those of the roots, and those of each block.
#[derive(Drop)]
struct Graph {
    roots: Vec<Pointer>,
    edges: Vec<Vec<Pointer>>,
}

/// Returns an empty list of pointers for each block.
fn no_edges(alloc: Global, count: usize) -> Result<Vec<Vec<Pointer>>, AllocError>
    ensures len { IfOk result (λ edges. length edges.items ≡ count) }
    ensures none { IfOk result (λ edges. HasNoEdge edges.items) }
{
    let mut edges = Vec::with_capacity(alloc, count)?;
    for _block in 0..count {
        edges.push(Vec::new(alloc))?;
    }
    Ok(edges)
}

/// Adds the pointers of the roots and of the words of the blocks.
fn gather(
    memory: &Memory,
    registers: &[Bits],
    blocks: &[Block],
    roots: &mut Vec<Pointer>,
    edges: &mut [Vec<Pointer>],
) -> Result<(), AllocError>
    requires ordered { AreOrdered blocks.now }
    requires registers { length registers.now ≡ 32 }
    requires len { length edges.old ≡ length blocks.now }
    ensures roots { OnOk result (Gains (RootPointsTo (scene_by memory.now registers.now blocks.now)) roots.old.items roots.new.items) }
    ensures edges { OnOk result (EdgesGain (BlockPointsTo (scene_by memory.now registers.now blocks.now)) edges.old edges.new) }
{
    gather_registers(registers, blocks, roots)?;
    gather_words(memory, blocks, roots, edges)?;
    Ok(())
}

/// Returns the records of the blocks with these kinds.
fn records(
    alloc: Global,
    blocks: &[Block],
    kinds: &[LeakKind],
) -> Result<Vec<LeakRecord>, AllocError>
    requires { length kinds.now ≡ length blocks.now }
    ensures { IfOk result (λ entries. AreRecordsBy blocks.now kinds.now entries.items (length blocks.now)) }
{
    let mut entries = Vec::with_capacity(alloc, blocks.len())?;
    for k in 0..blocks.len() {
        let block = blocks[k];
        entries.push(LeakRecord {
            start: block.start,
            size: block.size,
            kind: kinds[k],
            trace: block.trace,
        })?;
    }
    Ok(entries)
}

/// Returns the pointers of the roots and of each block.
fn graph_of(
    alloc: Global,
    memory: &Memory,
    registers: &[Bits],
    blocks: &[Block],
) -> Result<Graph, AllocError>
    requires ordered { AreOrdered blocks.now }
    requires registers { length registers.now ≡ 32 }
    ensures len { IfOk result (λ graph. length graph.edges.items ≡ length blocks.now) }
    ensures roots { IfOk result (λ graph. Gains (RootPointsTo (scene_by memory.now registers.now blocks.now)) [] graph.roots.items) }
    ensures edges { IfOk result (λ graph. EdgesGain (BlockPointsTo (scene_by memory.now registers.now blocks.now)) [] graph.edges.items) }
{
    let mut roots = Vec::new(alloc);
    let mut edges = no_edges(alloc, blocks.len())?;
    gather(memory, registers, blocks, &mut roots, &mut edges)?;
    Ok(Graph { roots, edges })
}

/// Returns a record for each live block of a heap, in order of address.
pub(crate) fn search_in(
    alloc: Global,
    memory: &Memory,
    registers: &[Bits],
    heap: &Heap,
) -> Result<Vec<LeakRecord>, AllocError>
    requires { length registers.now ≡ 32 }
    ensures { IfOk result (λ entries. AreRecordsIn (scene_by memory.now registers.now (live_list (blocks_of heap.now))) entries.items) }
{
    let blocks = live_blocks(alloc, heap)?;
    let graph = graph_of(alloc, memory, registers, &blocks)?;
    let kinds = leak_kinds(alloc, &graph.roots, &graph.edges)?;
    records(alloc, &blocks, &kinds)
}

/// Returns the registers of a machine, by their numbers.
fn registers_of(machine: &Machine) -> [Bits; 32]
    ensures { (s : State) → Shows machine.now s → (r : ℕ) → r < 32 → listed result r ≡ register s.core r }
{
    let mut registers = [Bits { value: 0, undef: 0 }; 32];
    for number in 0..32u8 {
        registers[number as usize] = machine.register(Register::new(number));
    }
    registers
}

/// Returns a record for each live block, in order of address. The time needed grows with the number of words and of live blocks, times the
/// logarithm of the number of live blocks.
///
/// # Errors
///
/// Fails if there is no memory for the records, or for the pointers between blocks.
pub fn search(alloc: Global, machine: &Machine) -> Result<Vec<LeakRecord>, AllocError>
    ensures { IfOk result (λ entries. (s : State) → Shows machine.now s → AreRecordsOf s entries.items) }
{
    let registers = registers_of(machine);
    search_in(alloc, machine.memory(), &registers, machine.heap())
}
