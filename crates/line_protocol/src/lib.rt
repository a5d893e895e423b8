//! Reads lines from any reader and writes the reply to each to any writer; any listener answers them.
//!
//! | Item | What it is |
//! |---|---|
//! | [`Listener`] | what answers lines: what a line leaves of it, the text of its reply, and whether its limit of lines is reached |
//! | [`serve`] | has each line answered and writes its reply, or stops with a [`ServeFault`] |
//! | [`send`] | writes bytes, all of them, and flushes; a [`Sent`] says how many were taken |
//! | [`READS`], [`LONGEST_LINE`] | its limits: calls of `read`, and bytes of a line that is distinguished from others |
//!
//! # What a caller can rely on
//!
//! [`serve`]: at the end, it has written the replies to the lines of all bytes read, up to and including the first line that was given
//! after the limit of lines was reached, and nothing else (`Served`). On a fault, it has written the whole replies to the first lines whose
//! newline was read. After a failed write it has also written a front of the next reply, with the stated numbers of whole replies and bytes
//! (`StopsBy`). Bytes after the last newline are a line only at the reader's end. The listener determines the replies to lines (`Answers`).
//!
//! # How a listener is written
//!
//! Write a type, with an `impl` of [`Listener`] whose `answers` says what a line may leave of it. `long_alike` requires that it answer
//! lines of more than 4,096 bytes alike, since the server keeps only a front of 4,098 bytes of a longer line. The contract of [`serve`] is
//! about a chain of such listeners. If they represent something else, as the turns of a session, a map carries the chain over to that
//! (`specs/Answers`, `proofs/Carried`).
//!
//! # Where the definitions are
//!
//! In `specs/`: `Lines`, the lines of bytes; `Answers`, the replies to one line after another; `Served`, what was written for the bytes
//! read, over any relation between lines and replies. `Serving` is for this crate's proofs.
#![tactic(auto)]

mod fault;
mod listener;
mod serving;

pub use fault::ServeFault;
pub use listener::Listener;
pub use serving::send::{Sent, send};
pub use serving::{LONGEST_LINE, READS, serve};
