//! Heaps with the same contents.
ghost use Rattle.std.specs.Prelude.{◌≡◌, ℕ, ◌<◌, IsTrue};
ghost use Rattle.std.specs.Option.{option_copied, option_map};
ghost use Rattle.guest_heap.specs.Entries.{block_of};
ghost use Rattle.guest_heap.specs.Tables.{entries_of};

use crate::entry::Entry;
use crate::heap::Heap;
use crate::table::Table;

/// The greatest number of live blocks that are compared with those of another heap.
const MOST_COMPARED: usize = 256;

/// Returns whether there are two entries, and they have the same block.
fn have_same(one: Option<&Entry>, other: Option<&Entry>) -> bool
    ensures { IsTrue result → option_map block_of (option_copied one.entry) ≡ option_map block_of (option_copied other.entry) }
{
    match (one, other) {
        (Some(one), Some(other)) => one.has_block_of(other),
        _ => false,
    }
}

/// Returns whether the blocks of a table are those of another. May also return `false` for such tables, if there are many blocks.
fn are_same(table: &Table, other: &Table) -> bool
    ensures { IsTrue result → (k : ℕ) → k < 33554432
        → option_map block_of (entries_of table.now k) ≡ option_map block_of (entries_of other.now k) }
{
    let mut at = 0;
    for _ in 0..MOST_COMPARED {
        let Some(slot) = table.next_from(at) else {
            return other.next_from(at).is_none();
        };
        if other.next_from(at) != Some(slot) || !have_same(table.get(slot), other.get(slot)) {
            return false;
        }
        at = slot + 1;
    }
    false
}

impl Heap {
    ghost use Rattle.guest_heap.specs.Heaps.{blocks_of};

    /// Returns whether another heap has the same blocks. May also return `false` for such a heap, if there are many. Allocates nothing.
    #[tactic(auto, unfolding(crate::specs::Heaps::blocks_of))]
    pub fn is_same(&self, other: &Heap) -> bool
        ensures { IsTrue result → blocks_of self.now ≡ blocks_of other.now }
    {
        if self.begin != other.begin {
            return false;
        }
        self.queue.is_same(&other.queue) && are_same(&self.live, &other.live)
    }
}
