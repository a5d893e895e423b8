//! The command line: what its arguments ask for, by the parser `clap`.
//!
//! | Call | What it returns |
//! |---|---|
//! | [`read_order`] | the [`Order`] of the arguments, with its [`Task`], the [`ProfileArgs`] as they were given and, for a sweep, the [`SweepArgs`], for `exec` the [`ExecArgs`]; or the error of `clap`, whose kind says whether help, the version or a fault is shown |
//! | [`MOST_STEPS`], [`FURTHEST_STEP`] | the greatest step of a report, and the greatest that may be named for a session, a sweep or a verdict |
//! | [`isa_named`], [`isa_name`] | the instruction set of a name, if it is one, and the name of an instruction set |
//!
//! # What a caller can rely on
//!
//! An order is returned exactly if `clap`'s model of the command line finds no fault in the arguments, and it is then their order
//! (`IsOrderFor`). An error is of a kind that the first fault may have. The only exception is that memory runs out. The definitions are in
//! `specs/Orders.antt`, and the names of instruction sets in `specs/Isas.antt`.
#![tactic(auto)]

mod arguments;
mod exec;
mod help;
mod isa;
mod order;

pub use arguments::{FURTHEST_STEP, MOST_STEPS, read_order};
pub use isa::{isa_name, isa_named};
pub use order::{Action, CertifyArgs, ExecArgs, Order, ProfileArgs, SweepArgs, Task};
