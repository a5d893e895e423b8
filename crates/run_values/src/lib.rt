//! What goes into a run and comes out of it, as plain values: a [`Mark`] or any other [`Alteration`], applied just before a step, a [`Span`]
//! of addresses, and the [`Status`] of a machine, with the reason why it [`Stop`]ped.
//!
//! This crate is separate from `guest_machine`, so that what reads or writes these values as text doesn't depend on what runs a program.
#![tactic(auto)]

mod alteration;
mod mark;
mod span;
mod status;

pub use alteration::{Act, Alteration};
pub use mark::Mark;
pub use span::Span;
pub use status::{Status, Stop};
