//! The report of a machine, as bytes: the layer between a machine and what a user reads. For many runs, the outline of each.
//!
//! [`render`] appends the report of a machine at a step. If memory runs out, it leaves the vector as it was. [`outline`] returns the
//! outline of a machine.
//!
//! | Call | What it does |
//! |---|---|
//! | [`render`] | appends a report to a vector of bytes, or fails if memory runs out |
//! | [`outline`] | returns an outline, or fails if memory runs out |
//! | [`has_findings`] | returns whether there is an error, or a leak of some kinds, that no suppression matches |
//! | [`push_text`], [`push_number`], [`push_address`], [`push_byte`] | append bytes, a decimal number, a hexadecimal address, a hexadecimal byte |
//! | [`push_state`] | appends the line of a report that says whether the machine runs |
//! | [`laws::report_is_one`], [`laws::outline_is_one`] | do nothing; their contracts say that a state has one report and one outline |
//! | [`laws::leaks_are_grouped`] | does nothing; its contract says that the groups of leaks are their distinct keys, each with the sum of its blocks |
//! | [`Options::default`] | returns the default options: 12 addresses of a trace, definite and possible leaks |
//!
//! A report's lines, in order, each with a newline:
//!
//! ```text
//! step N
//! state running A             or: state exited C, state stopped W A
//! input P of L
//! output W
//! error COUNT: TEXT           for each group of errors, in order of first occurrence
//!    at A: NAME
//!    by A: NAME
//!  Address A is ..            where the error speaks of an address
//! leak N bytes in B blocks are K     for each group of leaked blocks whose kind is shown, in order of their first blocks
//!    at A: NAME                      where they were allocated
//! definitely lost: N bytes in B blocks
//! indirectly lost: N bytes in B blocks
//! possibly lost: N bytes in B blocks
//! still reachable: N bytes in B blocks
//! suppressed: N bytes in B blocks
//! ERROR SUMMARY: E errors from C contexts (suppressed: E2 from C2)
//! ```
//!
//! An outline leaves out what differs among runs with the same outcome: the number of steps, counts, sizes and notes. Its lines:
//!
//! ```text
//! running                     or: exited C, stopped W A, stopped jump
//! output W                    where it is asked for
//! TEXT                        for each group of errors that the report has, in its order; of a bad jump without the address it went to
//!    at A: NAME
//!    by A: NAME
//! K                           for each group of leaked blocks that the report has, in its order: definitely lost, ..
//!    at A: NAME
//! ```
//!
//! Numbers are decimal; an address is `0x` and eight hexadecimal digits in lower case. In a name each byte outside 0x21 to 0x7E
//! is shown as `?`, so that no name can make up a line. Errors that a suppression matches are only counted, in the summary. Leaked blocks
//! that one matches are only counted in the line `suppressed`. A suppression sees the whole trace, a group its first `callers` addresses.
//!
//! The layer above uses the contracts of [`render`] and [`outline`]. For each state that the machine shows (`Shows`), `render` appends a
//! text that is the report (`IsReport`) of that state, the image, the suppressions, the options, the step and the length of the input.
//! `outline` returns a text that is their outline (`IsOutline`). Both are relations, since paths of pointers define the kinds of leaks. The
//! laws say that a state has no two such texts.
//!
//! Where the definitions are, in `specs/`:
//!
//! - `Report`: the whole report (`IsReport`, `report_text`). `Outlines`: the outline (`IsOutline`, `outline_text`).
//! - `Filtering`: which groups of errors are shown, and which are only counted.
//! - `Findings`: whether a report lists an error or a leak.
//! - `Leaks`: the same for leaked blocks, with their groups and sums.
//! - `LeakLines`: the lines of leaks. The other lines are in the crate `report_lines`.
//! - `Laws`: a state has one report and one outline.
//!
//! Source: Memcheck manual (Valgrind 3), section 4.2, for the wording of leaks.
#![tactic(auto)]

mod filtering;
mod findings;
pub mod laws;
mod leak_lines;
mod leaks;
mod options;
mod outlining;
mod rendering;

pub use findings::has_findings;
pub use options::Options;
pub use outlining::outline;
pub use rendering::render;
pub use report_lines::{push_address, push_byte, push_number, push_state, push_text};
