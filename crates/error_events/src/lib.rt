//! Errors and their groups: what Memcheck reports, and how often, by kind and place.
//!
//! An [`Event`] is one error: its [`Kind`], the [`Trace`](call_stacks::Trace) where it happened, and a [`Note`] on the address that it is
//! about. [`Groups`] count errors as they come: those of one kind and one trace are one [`Group`], in order of first occurrence, with the
//! first one's note. No list of errors is kept. An error of a known group costs a look-up in a table, however many groups there are, or in
//! a few tables after shares. [`Groups::share`] copies the counts of at most the last 256 groups, and shares the others, of which 256 are
//! copied when one of them changes. Kinds, traces and notes are shared, and each of them is copied later about as many times as the number
//! of groups can be halved.
//!
//! # Public items
//!
//! | Call | What it does |
//! |---|---|
//! | [`Groups::new`] | returns no groups |
//! | [`Groups::add`] | adds an error; if memory runs out, the groups stay as they were |
//! | [`Groups::len`], [`Groups::get`] | return the number of groups, and the group at a place |
//! | [`Groups::regroup`] | returns the errors of the groups that are kept, grouped by fewer addresses |
//! | [`Groups::regrouped`] | returns the same as [`Groups`], not as a list |
//! | [`Groups::are_same`], [`Group::is_same`], [`Note::is_same`] | return whether others are the same |
//! | [`Groups::share`] | returns a copy, which later errors of the original don't reach |
//! | [`Parameter::text`] | returns the text by which reports and suppressions name a parameter of a call |
//! | [`laws::groups_grow`], [`laws::kept_by_test`] | do nothing; their contracts are laws of the definitions |
//!
//! [`Kind`], [`ParameterFault`], [`Parameter`], [`Note`], [`Event`] and [`Group`] are plain values. Only `add`, `regroup`, `regrouped` and
//! `share` allocate memory, and nothing else fails.
//!
//! # What a caller can rely on
//!
//! Contracts speak of `groups_of`, the list of the groups that [`Groups`] show. A caller keeps, only in its proofs, the list of all errors,
//! with `groups_of` of its groups equal to `grouped` of that list:
//!
//! - `new` shows no groups, which is `grouped` of no errors;
//! - `add` shows `add_event` of the groups and the error, which by [`laws::groups_grow`] is `grouped` of the longer list;
//! - `regroup` and `regrouped` return `regrouped` of every list of errors whose `grouped` the groups show: the groups, by kind and the
//!   first `callers` addresses, of the errors whose own group is kept. If groups are kept by a test of kind and trace, these are the errors
//!   that pass the test, by [`laws::kept_by_test`].
//!
//! Counts stop at 2^64 - 1.
//!
//! # Where the definitions are
//!
//! They are in `specs/`, here in the order to read them:
//!
//! - `Groups`: when two errors are of one group (`same_key`), and the groups of a list of errors (`grouped`).
//! - `Adding`: the groups after another error (`add_event`), and the law that ties it to `grouped`.
//! - `Regrouping`: which errors are kept (`kept`), and their groups by fewer addresses (`regrouped`).
//! - `Parameters`: the texts of parameters. `Shown`: what `Groups` show (`groups_of`).
//! - `Counts`, `CountLists`, `Entries`, `KeptNotes`, `Layers`, `Lent` and `Merging` are for this crate's proofs.
//!
//! Sources: Valgrind user manual, section 2.4 (how errors are compared and counted), and option `--num-callers`; Memcheck manual, section
//! 4.2 (the kinds).
#![tactic(auto)]

mod counts;
mod event;
mod groups;
mod kept_note;
mod kind;
pub mod laws;
mod layered_map;
mod layers;
mod lent;
mod parameter;
mod shared_map;

pub use event::{Event, Group, Note};
pub use groups::Groups;
pub use kind::{Kind, ParameterFault};
pub use parameter::Parameter;
