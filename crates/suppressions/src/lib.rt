//! Suppressions: which errors and leaks a report leaves out.
//!
//! A suppression is for a kind of error or of leak, and has frame lines that the names of a trace's frames must fit. It is read from a text
//! in the form of Valgrind's suppression files, or from the arguments of a session's command. It can be switched on and off. Matching uses
//! all names of a trace, however few of its addresses a report shows.
//!
//! # Public items
//!
//! | Call | What it returns |
//! |---|---|
//! | [`parse`] | the suppressions of a text, or the least number of a line at fault |
//! | [`Suppression::from_words`] | the suppression of the arguments of a session's command `supp add` |
//! | [`Suppression::matches`] | whether a suppression matches an error or a leak with a trace, whatever its switch |
//! | [`Suppression::is_on`], [`Suppression::switch`] | its switch |
//! | [`is_suppressed`] | whether some suppression that is switched on matches |
//! | [`LeakKinds::from_list`] | the leak kinds that a list of words names |
//!
//! [`Target`] is the kind of an error or a leak, [`LeakKinds`] a set of leak kinds, [`SuppFault`] a fault, and [`TEXT_LIMIT`] the length of
//! the longest text. `matches`, `is_suppressed`, `is_on` and `switch` allocate nothing and always return, for any number of names. One walk
//! fits the bytes of a name to a pattern and the names of a trace to frame lines, where `...` is the star. It goes back only to the last
//! star. So the time is the length of the pattern times that of what is fitted to it, whatever the number of stars. If each name that fits
//! the first frame line begins with a known byte, a trace whose innermost name begins with another needs no walk.
//!
//! # What a caller can rely on
//!
//! Contracts see a suppression as a `Rule` (`specs/Rules.antt`): what it is for, its frame lines, its switch.
//!
//! - [`parse`]: the suppressions are `rules` of the text, if it has no `faults`. A fault names the least of these. `Memory` is returned
//!   only if the text `NeedsMemory`: something of it is kept before its first fault.
//! - [`Suppression::from_words`]: `added` of the arguments, if they are a suppression's, and a fault otherwise.
//! - [`Suppression::matches`]: the function `matches`, which holds exactly if the relation `Matches` does: the kind is one that the
//!   suppression is for, and some frames at the front of the trace fit the frame lines in order.
//! - [`is_suppressed`]: the function of that name, by which a report filters. It holds exactly if `IsSuppressed` does.
//!
//! # Where the definitions are
//!
//! They are in `specs/`, here in the order to read them:
//!
//! - `Fitting`, `Glob`, `Frames`: when parts fit pieces, a name a pattern, and a trace frame lines.
//! - `Subjects`, `Rules`: which kinds a suppression is for, and what it matches.
//! - `Words`, `Added`: the fields of a suppression, and those of a session's command.
//! - `Lines`, `Blocks`, `Texts`: the lines of a text that count, one block, and the whole text with its faults.
//! - `Initials` is for this crate's proofs.
//!
//! Beside each relation is a function that says the same: the relation is to be read, the function is for filters.
//!
//! Sources: Valgrind user manual, section 2.5 (suppressing errors); Memcheck manual, section 4.4 (writing suppression files).
#![tactic(auto)]

mod adding;
mod blocks;
mod fault;
mod frames;
mod glob;
mod leak_kinds;
mod lines;
mod parsing;
mod pieces;
mod subject;
mod suppression;
mod target;
mod text;
mod words;

pub use fault::SuppFault;
pub use leak_kinds::LeakKinds;
pub use lines::TEXT_LIMIT;
pub use parsing::parse;
pub use suppression::{Suppression, is_suppressed};
pub use target::Target;
