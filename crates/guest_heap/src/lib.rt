//! The heap of a guest: its live blocks, and the queue of the freed ones that aren't forgotten yet.
//!
//! A heap call of the guest asks a [`Heap`] for the lowest place, or frees the block at an address. A freed block is kept in a queue of
//! bounded volume, so that errors can name it, and its place isn't used again before it leaves the queue (Memcheck manual, section 4.3,
//! `--freelist-vol`). Either side of a block has a redzone (Valgrind core manual, section 2.6, `--redzone-size`). All lie in the heap's
//! region, whose first address is chosen when the heap is made, and whose size is `memory_map::HEAP_SIZE`.
//!
//! # Public items
//!
//! | Call | What it does |
//! |---|---|
//! | [`Heap::new`], [`Heap::new_in`] | return a heap with no blocks, in the usual region or in another |
//! | [`Heap::allocate`] | allocates a block and returns its start, the least place of all, or none if there is no place |
//! | [`Heap::release`] | frees a block and returns it; the queue is then the longest suffix whose sizes sum to at most the volume |
//! | [`Heap::live`] | returns the live block with the least start that isn't below an address |
//! | [`Heap::kept`] | returns the kept block with the least such start, live or in the queue |
//! | [`Heap::block_near`] | returns the kept block whose interval holds an address, and where in it the address lies |
//! | [`Heap::is_same`] | returns whether another heap has the same blocks |
//! | [`Heap::share`] | returns a copy, which later changes of the original don't reach |
//! | [`Heap::begin`], [`Heap::kept_blocks`] | return the first address of the heap's region, and how many blocks are kept |
//! | [`Heap::in_region`], [`Heap::apart`] | do nothing; their contracts say what the laws require of a heap's blocks |
//! | [`laws`] | do nothing; their contracts say what the functions of the definitions mean |
//!
//! A [`Block`] is a block as it was given to the guest. [`Near`] is a block whose interval holds an address, and [`Place`] the side of that
//! address.
//!
//! `allocate`, `release` and `share` allocate memory; if memory runs out, a heap keeps its contents. The other calls are total.
//!
//! # What a caller can rely on
//!
//! Contracts speak of `blocks_of` a heap: the live blocks by their starts, and the queue as a list. A caller keeps such a value in its own
//! state and never unfolds `blocks_of`. Each call is a function of it: `place` and `allocated`, `released_at` and `released_blocks`,
//! `live_from`, `near`. Further clauses and the laws say the same as relations: the least place of all (`Places`), the longest suffix
//! (`IsLongestFitting`), the one kept block that holds an address (`NearIsOne`).
//!
//! # Where the definitions are
//!
//! - `specs/Blocks.antt`: blocks, intervals, places, the queue, what is near an address, as relations.
//! - `specs/Steps.antt`: the calls as functions. `specs/Laws.antt`: what these functions mean, for all blocks.
//! - The others are for this crate's proofs: `Heaps` (`blocks_of`), `States`, `Bounds` and `Gaps` (what a heap keeps true), `Searches` (how
//!   far a search for a place has come), and `Entries`, `Leaves`, `Rows`, `Sizes`, `Tables`, `Runs`, `Queues`, `BoundLists`, `SharedLists`,
//!   `Unused` (how it stores these).
//!
//! # Costs
//!
//! Blocks are in two tables, live and freed, that are trees over the multiples of 16 of the heap's region: a row of up to 128 rows of up to
//! 64 rows of up to 64 leaves, and a leaf has 64 places. The queue is in runs of 256 blocks. Copies share what neither has changed. So a
//! search is a few steps, a change after a copy copies one row of each kind and one leaf, and `share` copies a reference for each table and
//! one for each run. What is kept of a block has references to its traces. Blocks of the same calls share these while the heap remembers
//! them (`traces.rt`). `allocate` keeps a bound for each class of sizes, below which the class has no place, and one range further up
//! (`bounds.rt`). It looks at kept blocks only from there on. When a block leaves the queue, it forgets no more of this than the room that
//! the block leaves.
//!
//! Once an allocation has looked at 64 kept blocks, the heap has an index of gaps by size (`gaps.rt`): 128 rows of 256 parts of 16 KiB, and
//! for each part and each row a size of which no block has a place there. A search passes over what is full for its size, and looks only at
//! the blocks of the other parts. A part that was searched in vain is then full for all sizes above its greatest gap. When a block leaves
//! the queue, the parts that its room meets have that room. A change after a copy copies the rows and the parts of one row, 3 KiB each.
#![tactic(auto)]

mod bounds;
mod entry;
mod gaps;
mod heap;
mod interval;
pub mod laws;
mod queue;
mod region;
mod released;
mod table;
mod traces;

pub use call_stacks::{Block, Near, Place};
pub use heap::Heap;
pub use released::Released;
