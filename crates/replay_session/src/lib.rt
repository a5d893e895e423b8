//! A session over one program: lines edit its run or ask for its report, and each report is that of one run from step zero.
//!
//! A [`Session`] keeps the scenario that the accepted lines leave ([`scenario::Scenario`]), and a trail of machines of its run. Each report
//! continues from the last machine of the trail before its step. An edit cuts the trail where the edit may first show, so nothing of
//! earlier reports is left in it.
//!
//! # Public items
//!
//! | Call | What it does |
//! |---|---|
//! | [`Session::begin`] | returns a session of a program with an input and suppressions, or a [`BeginFault`] |
//! | [`Session::command`] | answers one line: a [`Reply`], or a [`Fault`] with its number; appends the bytes of a report |
//! | [`Session::command_as`] | answers a line that its caller has read, as a command or as why it is none |
//! | [`Session::is_over`] | returns whether the limit of lines is reached |
//! | [`Session::allocator`] | returns the allocator of its memory |
//! | [`Session::machine`] | returns the machine at the chosen step |
//! | [`Session::next`], [`Session::last`] | return the first step from the chosen one on, and the last before it, that does what is sought |
//! | [`Session::output`] | returns the bytes of the output at the chosen step that are in a range of positions |
//! | [`Session::sides`] | returns what the run has done with each instruction of a range |
//! | [`Session::fork_point`] | returns a machine at which other input bytes don't show yet, and what the steps before it have done ([`ForkPoint`]) |
//! | [`Session::try_edit`] | returns what the run does with other input bytes, from a fork point ([`Tried`]); changes nothing |
//! | [`Session::compare_edit`] | returns the compares of the run, and those with other input bytes, from a fork point on ([`Compared`]) |
//! | [`Session::effect`] | returns where an edit shows in the run |
//! | [`Session::input_len`] | returns the number of bytes of the input |
//! | [`Session::step`], [`Session::image`] | return the chosen step, and the program |
//! | [`Session::certify`] | appends the line of the verdict on the run up to the chosen step |
//! | [`Session::trail`] | returns the held machines, on whose meter each step counts that a report executes |
//! | [`serve`] | reads lines from any reader and writes the replies to any writer, or stops with a [`ServeFault`] |
//! | [`Texts`] | the texts of a session's replies: answers a line, or one that its caller has read, with a text |
//! | [`setup_with`] | returns a setup: an input, Memcheck's settings of the heap, and the functions of the heap that a program has by name |
//! | [`send`] | writes bytes, all of them, and flushes; a [`Sent`] says how many were taken |
//! | [`laws::work_of_lines`] | does nothing; its contract says how many steps any lines cost |
//! | [`laws::work_is_told`] | does nothing; its contract says that `worked` prints this number in a served session |
//!
//! # The lines
//!
//! Fields are separated by one space each. A number is one to ten decimal digits with a value below 2^32, or `0x` and one to eight
//! hexadecimal digits of either case.
//!
//! | Line | What it does |
//! |---|---|
//! | `goto N` | chooses step N, at most 4,194,304 |
//! | `report` | prints the report at the chosen step |
//! | `input OFFSET BYTE` | replaces a byte of the input |
//! | `input append BYTE` | appends a byte to the input, which may have 1,048,576 |
//! | `input cut` | removes the last byte of the input |
//! | `patch ADDR WORD` | replaces a loaded word, the lowest byte first; its accessibility and undefined bits stay |
//! | `mark STEP ADDR LEN KIND` | makes a range `defined`, `undefined` or `noaccess` just before a step |
//! | `unmark I` | removes mark I, counted from 0; later ones move down |
//! | `supp on I`, `supp off I` | switches suppression I on or off, counted from 0 |
//! | `supp add KIND WORDS..` | adds a suppression, switched on: the kind, its extra line (for Param and Leak), then the frame lines, separated by spaces |
//! | `option callers N` | prints and groups by N addresses of a trace, 1 to 24 |
//! | `option redzone N` | puts N inaccessible bytes on each side of a block of the heap, at most 4,096 |
//! | `option queue N` | keeps freed blocks of N bytes in all, at most 1,000,000,000 |
//! | `option show LIST` | shows these leak kinds: `definite`, `indirect`, `possible`, `reachable`, `all`, `none`, separated by commas |
//! | `worked` | prints the number of steps executed so far |
//!
//! The reply to a line is `ok`, the report, `worked N`, or `refused N`. N is the first of these that applies: 12 for the 100,001st line or
//! a later one, 11 for more than 4,096 bytes, 2 for no command, and then the command's own number, which [`Fault`] lists. 1 means out of
//! memory and comes after these.
//!
//! # What a caller can rely on
//!
//! The turn of a session (`Turn`) is its scenario and the number of lines that it was given.
//!
//! - [`Session::begin`]: the turn is the one that its arguments begin with (`opening`).
//! - [`Session::command`]: the answer and the appended bytes are those of the line, and the session then has the turn that the line leaves
//!   (`Answered`). Or memory ran out where it may: at a report, or at an edit whose row says so and that isn't rejected. Then the line only
//!   counts (`Wanting`). A rejected line changes only the number of lines. A line costs the steps of its command by its first effect
//!   (`WorksLine`), as long as the trail isn't short. Only a patch makes it short.
//! - [`Session::command_as`]: the same of a line that is read as another command (`accepted_as`), or as none.
//! - [`Texts::answer`]: the reply to a line, from the stage that the session had to the one that it has afterwards (`Replies`).
//!   [`Texts::answer_as`]: the same of a line that its caller has read (`RepliesAs`).
//! - [`Session::try_edit`]: the outcome and the sides are those of one run from step zero of the edited scenario (`IsTried`).
//! - [`laws::work_of_lines`]: if each of any lines costs that, then afterwards machines are held at exactly the steps that the list of
//!   lines says (`IsHeldAfter`), and the number of executed steps is the one sum that it says (`AddUp`). Neither speaks of a trail.
//! - [`serve`]: at the end, it has written the replies to the lines of all bytes read, up to and including the first `refused 12`, and
//!   nothing else (`Served`). On a fault, it has written the whole replies to the first lines whose newline was read. After a failed write
//!   it has also written the front of the next reply, with the stated numbers of whole replies and bytes (`StopsBy`). Bytes after the last
//!   newline are a line only at the reader's end. Each reply is that of the stage that the lines before it leave (`Stage`): the scenario,
//!   the work, and whether the trail is short. So `worked` prints the work, and [`laws::work_is_told`] says that this is the sum of the
//!   lines before.
//! - A report is the text of one run from step zero over the scenario (`IsReportOf`). A state has one report (`replay_report::laws`).
//!
//! # Where the definitions are
//!
//! They are in `specs/`, here in the order to read them:
//!
//! - `Commands`, of the crate `commands`: the language, a definition for each command over the fields of a line. `Faults` there: the
//!   numbers of the faults.
//! - `Turns`: which lines are rejected, and what an accepted command leaves, over the scenario and the table of edits of the crate
//!   `scenario`.
//! - `Session`: a session's turn, and the answer to one line.
//! - `Work`: how a line moves the last held step and the number of executed steps. `Stages`: what the lines so far have left.
//! - `Replies`: the text of each reply, and the replies to one line after another (`Answers`, over `line_protocol::specs::Answers`).
//! - `LinesWork`: how many steps any lines cost, which depends on their list only, and that `worked` prints this.
//! - `Served`: what was written for the bytes read, in the terms of `line_protocol`.
//! - `Trying`: what a fork point is for, and what a try tells.
//! - `LongLines` is a lemma for the server of lines.
//!
//! Sources: the Memcheck manual, section 4.3 (options), and Valgrind's user manual, section 2.5 (suppressions); the language of the lines
//! and the limits are this project's.
#![tactic(auto)]

pub mod laws;
mod reply;
mod serving;
mod session;
mod trying;

pub use commands::{BeginFault, Fault, number};
pub use line_protocol::{READS, Sent, ServeFault, send};
pub use reply::Reply;
pub use scenario::{FURTHEST_STEP, LONGEST_INPUT, MOST_STEPS, setup_with};
pub use serving::reply_texts::Texts;
pub use serving::serve;
pub use session::Session;
pub use trying::{Compared, ForkPoint, Tried};
