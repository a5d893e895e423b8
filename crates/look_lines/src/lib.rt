//! What a line asks of the run of a session at its chosen step, and the reply to it; and what a line alters at a step.
//!
//! | Item | What it is |
//! |---|---|
//! | [`asked`] | reads a line as a [`Look`], or returns why it is rejected |
//! | [`Look`], [`Search`], [`Stretch`] | what is asked: registers, control registers, memory, the output, which instructions the run has executed, the input, the next or the last step that does something, whether the run is clean, the calls that it is in, the blocks of the heap, what happens in steps |
//! | [`alters`], [`alteration_asked`] | whether a line alters the machine at a step; reads it as an alteration, or returns why it is rejected |
//! | [`gives`], [`edit_asked`] | whether a line gives the input bytes; reads it as an edit, or returns why it is rejected |
//! | [`begins_with`], [`edit_tried`] | whether this is the first word of a line; reads a line that tries an input as an edit |
//! | [`push_registers`], [`push_controls`], [`push_memory`], [`push_input`] | append the reply on a machine |
//! | [`push_output`], [`push_sides`], [`push_step`] | append the reply on bytes of the output, on instructions that were executed, or on a step that was found |
//! | [`push_digits`], [`range_of`] | appends only the digits of [`push_sides`]; returns the range of a program's addresses of which a table has them |
//! | [`push_stack`], [`push_blocks`] | append the reply on the calls that a machine is in, or on the blocks of its heap |
//! | [`push_calls`] | appends the reply on what happens in steps; of that there are at most [`MOST_HAPPENED`] |
//!
//! This crate is separate from `looks`, which lists the lines and serves them over a session. In `specs/`: `Looks`, the lines; `Texts`, the
//! replies to them, `Controls` that of control registers, `Ranges` of which addresses there are digits, and `Lists` those that are lists; `Alterations`, the lines that alter; `Inputs`, the lines that give the input
//! bytes.
//!
//! Source of `__`: Valgrind's gdbserver, `monitor get_vbits` (Memcheck manual, section 4.6).
#![tactic(auto)]

mod altering;
mod controls;
mod inputs;
mod lists;
mod look;
mod parsing;
mod ranges;
mod replies;

pub use altering::{alteration_asked, alters};
pub use controls::push_controls;
pub use inputs::{begins_with, edit_asked, edit_tried, gives};
pub use lists::{MOST_HAPPENED, push_blocks, push_calls, push_stack};
pub use look::{Look, Search, Stretch};
pub use parsing::asked;
pub use ranges::range_of;
pub use replies::{
    push_digits, push_input, push_memory, push_output, push_registers, push_sides, push_step,
};
