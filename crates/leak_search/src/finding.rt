ghost use Rattle.std.specs.Prelude.{◌≡◌, ℕ, ◌<◌, ◌≤◌, ◌%◌, IfNone, IfSome, Some, slice_get, length, nat_le, true, false, Bool};
ghost use Rattle.std.specs.List.Sorted.{IsPartitionPoint, IsPartitionedBy};
ghost use Rattle.call_stacks.specs.declared.block.Block.{Block};
ghost use Rattle.leak_search.specs.Pointing.{PointsTo};
ghost use Rattle.leak_search.specs.Gathering.{AreOrdered, IsLastAt, Finds, IsOwner};

use guest_heap::Block;
use leak_graph::Pointer;

/// Where a word lies: in no block, wholly in one, or partly in one.
pub(crate) enum Owner {
    Outside,
    Inside(usize),
    Across,
}

/// A range of values from `low` up to, but not including, `high`.
#[derive(Clone, Copy)]
pub(crate) struct Reach {
    pub(crate) low: u32,
    pub(crate) high: u64,
}

/// Returns a range that has all values that point to a block: from the first block's start up to the last one's end.
#[tactic(auto, using(crate::proofs::ReachSteps::to_nothing))]
pub(crate) fn reach_of(blocks: &[Block]) -> Option<Reach>
    requires { AreOrdered blocks.now }
    ensures none { IfNone result ((starts : Bool) (value b : ℕ) → PointsTo starts blocks.now value b → ⊥) }
    ensures low { IfSome result (λ reach. (starts : Bool) (value b : ℕ) → PointsTo starts blocks.now value b → reach.low ≤ value) }
    ensures high { IfSome result (λ reach. (starts : Bool) (value b : ℕ) → PointsTo starts blocks.now value b → value < reach.high) }
    ensures positive { IfSome result (λ reach. 0 < reach.low) }
{
    if blocks.is_empty() {
        return None;
    }
    let first = &blocks[0];
    let last = &blocks[blocks.len() - 1];
    // The start of a block of size 0 points to it, too.
    Some(Reach {
        low: first.start,
        high: u64::from(last.start) + u64::from(last.size) + 1,
    })
}

/// Returns the number of blocks that start at an address or below.
fn up_to(blocks: &[Block], addr: u32) -> usize
    requires { IsPartitionedBy (λ b. nat_le b.start addr) blocks.now }
    ensures bound { result ≤ length blocks.now }
    ensures point { IsPartitionPoint (λ b. nat_le b.start addr ≡ true) (λ b. nat_le b.start addr ≡ false) blocks.now result }
{
    blocks.partition_point(|b| b.start <= addr)
}

/// Returns the last block that starts at an address or below.
#[tactic(auto, using(crate::proofs::FindSteps::partitioned, crate::proofs::FindSteps::last_none, crate::proofs::FindSteps::last_some))]
fn last_at(blocks: &[Block], addr: u32) -> Option<usize>
    requires { AreOrdered blocks.now }
    ensures none { IfNone result ((k : ℕ) (b : Block) → slice_get blocks.now k ≡ Some b → addr < b.start) }
    ensures some { IfSome result (λ k. IsLastAt blocks.now addr k) }
{
    let count = up_to(blocks, addr);
    if count == 0 { None } else { Some(count - 1) }
}

/// Returns what a value points to.
pub(crate) fn pointer_to(blocks: &[Block], value: u32) -> Option<Pointer>
    requires { AreOrdered blocks.now }
    ensures none { IfNone result ((starts : Bool) (b : ℕ) → PointsTo starts blocks.now value b → ⊥) }
    ensures some { IfSome result (λ pointer. Finds blocks.now value pointer) }
{
    match last_at(blocks, value) {
        None => None,
        Some(block) => {
            let offset = value - blocks[block].start;
            if offset == 0 {
                Some(Pointer {
                    block,
                    is_start: true,
                })
            } else if offset < blocks[block].size {
                Some(Pointer {
                    block,
                    is_start: false,
                })
            } else {
                None
            }
        }
    }
}

/// Returns where the word at an address lies.
pub(crate) fn owner_of(blocks: &[Block], word: u32) -> Owner
    requires ordered { AreOrdered blocks.now }
    requires aligned { word % 4 ≡ 0 }
    ensures { IsOwner blocks.now word result }
{
    match last_at(blocks, word) {
        None => Owner::Outside,
        Some(block) => {
            let found = &blocks[block];
            let offset = word - found.start;
            if found.size <= offset {
                Owner::Outside
            } else if found.size - offset < 4 {
                Owner::Across
            } else {
                Owner::Inside(block)
            }
        }
    }
}
