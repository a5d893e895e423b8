//! A session that can be looked at, and whose run can be tried with other input bytes.
//!
//! | Item | What it is |
//! |---|---|
//! | [`serve`] | reads lines from any reader and writes the replies to any writer, or stops with a fault |
//!
//! # The lines
//!
//! Those of a session that can be looked at (the crate `looks`), and these, of which only `take` changes anything and is counted. The run
//! that is tried is that of the session's program with all edits, but other input bytes, up to the chosen step. HEX is two hexadecimal
//! digits a byte, in either case, and at least one byte.
//!
//! | Line | The input that is tried |
//! |---|---|
//! | `try HEX`, `try` | these bytes, or none |
//! | `try A HEX` | the session's, with the bytes from offset A on replaced |
//! | `tries A..B VALUES` | the session's, with one byte replaced: each of some bytes, by each of some values |
//!
//! The reply to a try ends with `tried K new N again M`. K is the number of the run's outcome, among those of all tries in order of first
//! occurrence, from 0 on. An outcome is the outline of the run at the chosen step, as in the table of a sweep. If no try before had it, the
//! reply begins with `outcome K` and its lines.
//!
//! A side is an instruction together with whether the run continues after it or elsewhere. N is the number of sides that the run has and no
//! try before had, M the number of those that it has more than once and no try before had more than once. They are told of the segment of
//! the file in which the program begins, as far as the file has bytes for it, and of at most 4 MiB.
//!
//! `tries A..B VALUES` is a plan of tries. It tries the bytes from offset A up to B, which isn't one of them, in order, and each of them
//! with each other value of VALUES, in ascending order: `all`, `flips`, those that differ in one bit, or `edges`, those of a sweep. For
//! each of these tries that has a new outcome or of which N or M isn't 0 the reply has the line `try P HH` with that byte's offset and
//! value, and the reply to that line. The last line is `end`. If memory runs out before the last try, the reply ends with `refused 1` in
//! place of `end`; what was tried until then counts as tried.
//!
//! `differs HEX`, `differs` and `differs A HEX` ask in which compares that run differs from the session's: the branches, `slt`, `sltu`,
//! `slti` and `sltiu` that the two execute from the last step on at which the input doesn't show, the first 65,536 of each, pair by pair up
//! to the first two at different addresses. For each pair whose operands differ there is a line `STEP PC A B A' B'`: the step and the
//! address of the session's compare, its operands, and those of the other. The last line is `end`.
//!
//! `take` makes the input of the last try the session's. It is answered as the line `bytes is HEX` or `bytes A HEX` that gives the session
//! this input. Any line forgets the last try, `take` and a plan that isn't rejected too, unless it tries, asks for compares or looks. What
//! tries have met stays.
//!
//! A line is rejected with the first of these numbers that applies: 12 and 11 as a line of a session; 2 for a field of another form or too
//! many, for a B that isn't above A, or for `take` without a last try; 3 for bytes beyond the input; 14 for an input of more than 1,048,576
//! bytes; 1 if memory runs out.
//!
//! # What a caller can rely on
//!
//! [`serve`]: what was written is the replies to the lines of all bytes read (`TriesLines`). The outcome and the sides of a try are those
//! of **one run from step zero of the edited program** (`Tried`), the compares those of two such runs (`Differ`), and a try leaves the
//! session's turn as it is (`LeavesBase`). A plan does what its tries do one after another, and only tells less (`Planned`). If memory runs
//! out, the next reply counts as if that line had not been given (`Refused`), or of a plan only those of its first tries (`TriedUpTo`).
//! `take` is answered as a session answers the edit of the last try (`RepliesAs`), and the reply to any other line is that of a session
//! that can be looked at (`Views`).
//!
//! The work of the session, which `worked` prints, is moved by a try, a plan that tries anything and a line that asks for compares as by
//! a report at the next multiple of 1,024 above the chosen step (`TryMoves`, `PlanMoves`), unless memory runs out: the session's own run is
//! executed up to there and its machines are held. The steps of the runs that are tried aren't counted. A rejected line, and a plan that
//! tries nothing, leaves the work as it is (`Rejected`).
//!
//! In `specs/`: `Tries`, the reply to a line; `Plans`, the tries of a plan; `Merging`, what is new; `Stages` and `Holding`, what a session
//! keeps. `LongLines` is a lemma for the server of lines.
//!
//! # What it costs
//!
//! A try executes the run from the last step at which its input doesn't show yet. The machine there is held for the next try whose input
//! begins to differ at the same byte, so a plan executes the run up to a byte once for all values of the byte. Another try executes the run
//! up to there again, so tries in order of that byte cost least.
#![tactic(auto)]

mod merging;
mod plan_text;
mod plans;
mod replies;
mod serving;
mod taking;
mod trying;

pub use serving::serve;
