//! The leak search: whether a pointer leads to each live block of a machine's heap. It lies between the machine and the report.
//!
//! The roots are the values of x1 to x31, where they are defined, and the words outside live blocks. A word is the four bytes at a multiple
//! of 4, all accessible and defined. A value is a start-pointer to a block if it is the block's address, and an interior-pointer if it is
//! the address of a later byte of the block. From these follow the four kinds of the Memcheck manual (section 4.2, "Memory leak
//! detection").
//!
//! # Public items
//!
//! | Call | What it does |
//! |---|---|
//! | [`search`] | returns a [`LeakRecord`] for each live block, in order of address |
//! | [`laws::records_are_one`] | does nothing; its contract says that a search has one result |
//!
//! `search` allocates memory, and returns `AllocError` if memory runs out; nothing else fails.
//!
//! # What a caller can rely on
//!
//! The contract of [`search`]: for each state that the machine shows, the records are `AreRecordsOf` the state. That is a relation, by
//! paths of pointers; by the law, a state has no two lists of records.
//!
//! # Where the definitions are
//!
//! In `specs/`: `Words` (the words of a state), `Pointing` (what a value points to, and where a word lies), `Search` (roots, links and
//! records), `Records` (those of a state), `Laws`. The kind of a block by its links is `HasKind` of the crate `leak_graph`. `Gathering` is
//! for this crate's proofs.
//!
//! # Costs
//!
//! Only pages that are kept are looked at, 64 words at once, and for a value from the first live block's start up to the last one's
//! end, binary search finds the block. If there is no live block, no word is looked at. Nothing recurses.
#![tactic(auto)]

mod blocks;
mod finding;
mod gathering;
pub mod laws;
mod record;
mod searching;
mod words;

pub use record::LeakRecord;
pub use searching::search;
