//! The lines of a report, except those of leaks. Each is appended to a vector of bytes; if memory runs out, nothing is said of the vector.
//!
//! | Call | What it appends |
//! |---|---|
//! | [`push_text`], [`push_number`], [`push_address`], [`push_byte`], [`push_name`] | bytes; a number, decimal; an address and a byte, hexadecimal; a function's name |
//! | [`push_step`], [`push_state`], [`push_input`], [`push_output`] | a line: the step, whether the machine runs, the numbers of bytes read and written |
//! | [`push_kind`], [`push_trace`], [`push_groups`] | the text of an error; a line for each address of a trace; the lines of each group of errors |
//! | [`push_summary`] | the line of the sums of errors |
//! | [`stop_word`], [`front`], [`error_sum`] | nothing: they return why a machine stopped, in one word; the first addresses of a trace; what the summary says of groups |
//!
//! In `specs/`: `Lines`, each line; `Text`, an address, a byte, a byte of a name, and the end of a line. Decimal numbers are std's `decimal`.
//!
//! Source: Memcheck manual (Valgrind 3), sections 2.5 and 4.2, for the wording of errors, traces, notes and the summary.
#![tactic(auto)]

mod lines;
mod text;

pub use lines::{
    ErrorSum, error_sum, front, push_groups, push_input, push_kind, push_output, push_state,
    push_step, push_summary, push_trace, stop_word,
};
pub use text::{push_address, push_byte, push_name, push_number, push_text};
