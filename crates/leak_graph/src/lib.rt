//! Leak kinds of blocks that point to one another: the graph below a leak search.
//!
//! Blocks are numbered from 0 in order of address. A [`Pointer`] goes to the start or the inside of a block. The roots have a list of
//! pointers, and so has each block. A [`LeakKind`] is a kind of the Memcheck manual (section 4.2, "Memory leak detection").
//!
//! # Public items
//!
//! | Call | What it returns |
//! |---|---|
//! | [`leak_kinds`] | the kind of each block, by the pointers of the roots and of each block |
//! | [`Pointer::counts`] | whether a pointer counts, where either all do, or only those to starts |
//!
//! `leak_kinds` allocates memory, and returns `AllocError` if memory runs out; nothing else fails.
//!
//! # What a caller can rely on
//!
//! The clause `kinds` of [`leak_kinds`]: each result is the block's kind by `HasKind`, which speaks only of paths. `HasKind` is over any
//! links (`Links`); `links_of` are those of the lists that are passed to the call.
//!
//! # Where the definitions are
//!
//! In `specs/`: `Paths` (a path along edges), `Leaks` (the kind of a block), `Graphs` (the links of lists of pointers). `Marks` is for
//! this crate's proofs.
//!
//! # How it is done
//!
//! A walk with a work list marks what has a path from a block (`spread`). No walk marks a block twice, and none recurses. Two walks from
//! the roots find what is reachable and what is found at all. The lost blocks to which no earlier lost block leads are heads. The heads are
//! visited again from the last one down, and those to which no other head leads are definitely lost. So each pointer is followed at most
//! four times. If all blocks are reachable, the first walk is enough.
#![tactic(auto)]

mod graph;
mod kinds;
mod leak_kind;
mod passes;
mod spread;

pub use graph::Pointer;
pub use kinds::leak_kinds;
pub use leak_kind::LeakKind;
