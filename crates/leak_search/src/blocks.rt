//! The live blocks.
ghost use Rattle.std.specs.Prelude.{◌≡◌, IfOk};
ghost use Rattle.guest_heap.specs.Heaps.{blocks_of};
ghost use Rattle.guest_heap.specs.Steps.{live_list};
ghost use Rattle.leak_search.specs.Gathering.{AreOrdered, GoesOn};

use guest_heap::laws::live_goes_on;
use guest_heap::{Block, Heap};
use std::alloc::{AllocError, Global};

/// Adds the first live block at an address or above, if there is one, and returns the address after its first byte.
fn add_live(heap: &Heap, from: u32, blocks: &mut Vec<Block>) -> Result<Option<u32>, AllocError>
    ensures { IfOk result (λ next. GoesOn (blocks_of heap.now) from next blocks.old.items blocks.new.items) }
{
    heap.in_region();
    let found = heap.live(from);
    match &found {
        None => Ok(None),
        Some(block) => {
            // The trace has a name of its own, since the prover looks for its type in this function.
            let trace = block.trace;
            blocks.push(Block { trace, ..*block })?;
            Ok(Some(block.start + 1))
        }
    }
}

/// Returns the live blocks of a heap, in order of address.
pub(crate) fn live_blocks(alloc: Global, heap: &Heap) -> Result<Vec<Block>, AllocError>
    ensures all { IfOk result (λ blocks. blocks.items ≡ live_list (blocks_of heap.now)) }
    ensures ordered { IfOk result (λ blocks. AreOrdered blocks.items) }
{
    live_goes_on();
    heap.in_region();
    heap.apart();
    let mut blocks = Vec::new(alloc);
    let mut from = 0;
    while let Some(next) = add_live(heap, from, &mut blocks)? {
        from = next;
    }
    Ok(blocks)
}
