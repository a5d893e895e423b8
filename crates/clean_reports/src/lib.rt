//! What a clean report guarantees: nothing that undefined or inaccessible memory holds has an influence on a run without uses.
//!
//! A *use* is an error that lets such memory in: a use of undefined bits as an address, a condition or a parameter, or a read of
//! inaccessible bytes. An invalid write, a bad free and a jump to no code are not uses. A run is *clean* up to a step if none of its errors
//! is a use and no mark is in the way: a mark that makes bits defined, or takes them as defined, or makes bytes of the heap inaccessible.
//!
//! | Call | What it does |
//! |---|---|
//! | [`certify`] | returns the [`Verdict`] on a trail's run up to a step: clean, or the first mark or the [`FirstUse`] that is in the way |
//! | [`push_verdict`], [`push_trace`] | append the line of a verdict; a trace as such a line has it |
//! | [`is_use`], [`is_clean`] | return whether an error is a use; whether a machine's run so far has none |
//! | [`has_ended`] | returns whether a machine's run has ended |
//! | [`laws::clean_runs`], [`laws::clean_reports`], [`laws::power_on`] | do nothing; their contracts are the theorems on whole runs of a program |
//! | [`laws::steps_agree`], [`laws::runs_agree`], [`laws::reports_agree`] | likewise, for a step, a run from any state, and a report |
//! | [`laws::disturbed_runs_exist`], [`laws::programs_are_bytes`], [`laws::inputs_are_bytes`] | likewise: that there are disturbed runs, and that files and inputs are bytes |
//! | [`laws::heap_stays_open`], [`laws::heap_stays_closed`], [`laws::accesses_are_live`] | likewise, on which bytes of the heap region may be accessed |
//!
//! # What a caller can rely on
//!
//! - [`certify`]: the verdict is that of the run (`IsVerdict`). If it is [`Verdict::Clean`], each disturbed run agrees with the run and has
//!   the same reports (`IsCertified`). In a disturbed run, any undefined or inaccessible value may change before any step (`IsDisturbed`).
//! - [`laws::heap_stays_closed`]: a byte of the heap region may be accessed exactly if it lies in a live block, at each step of each run
//!   whose marks miss the heap, whatever errors it raises.
//!
//! # Where the definitions are
//!
//! They are in `specs/`, here in the order to read them: `Agreement`, states that agree where they are defined; `Uses` and `Marks`, what is
//! in the way; `Heap`, what may be accessed in the heap; `Disturbed`, the runs that are compared; `Laws`; `Verdicts` and `Lines`, what a
//! user sees.
//!
//! Sources: Seward and Nethercote, "Using Valgrind to detect undefined value errors with bit-precision" (USENIX 2005), section 2; the
//! Memcheck manual, sections 4.2 and 4.5.
#![tactic(auto)]

mod certifying;
pub mod laws;
mod lines;
mod marks;
mod uses;
mod verdict;

pub use certifying::{certify, has_ended};
pub use lines::{push_trace, push_verdict};
pub use uses::{is_clean, is_use};
pub use verdict::{FirstUse, Verdict};
