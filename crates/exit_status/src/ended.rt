//! Why a run ends at its last step, and what is said of that.
ghost use Rattle.std.specs.Prelude.{◌≡◌, IsTrue};
ghost use Rattle.std.specs.Io.KnownBytes.{Appends};
ghost use Rattle.exit_status.specs.Ends.{AppendsFront};
ghost use Rattle.exit_status.specs.ExecEnds.{needed_line, over_line, overflow_line};

use crate::addresses::address_glyphs;
use crate::lines::{send_line, send_named};
use itoa::Buffer;
use line_protocol::send;
use std::io::Write;

/// Why a run ends at its last step.
#[derive(Clone, Copy)]
pub enum Ended {
    /// It is the step that was asked for.
    AtLast,
    /// The stack overflows there: the stack pointer.
    Overflow(u32),
    /// It needs more memory there than it may have: the limit in MiB.
    OverLimit(u32),
}

/// Writes that the stack overflows. Returns whether all of it was taken.
pub(crate) fn write_overflow<W: Write>(pointer: u32, writer: &mut W) -> bool
    ensures line { AppendsFront (W.contents writer.old) (W.contents writer.new) (overflow_line pointer) }
    ensures whole { IsTrue result → Appends (W.contents writer.old) (W.contents writer.new) (overflow_line pointer) }
{
    let word = "replaycheck exec: Stack overflow in thread #1: can't grow stack to ";
    send_line(writer, word, &address_glyphs(pointer))
}

/// Writes the rest of the line on a run that needs more memory than it may have, after the limit. Returns whether all of it was taken.
fn write_needed<W: Write>(step: u32, writer: &mut W) -> bool
    ensures line { AppendsFront (W.contents writer.old) (W.contents writer.new) (needed_line step) }
    ensures whole { IsTrue result → Appends (W.contents writer.old) (W.contents writer.new) (needed_line step) }
{
    let mut digits = Buffer::new();
    let step = digits.format(step);
    send_named(
        writer,
        " MiB of memory are needed at step ",
        step,
        " (--memory-limit)",
        b"",
    )
}

/// Writes that a run needs more memory than it may have. Returns whether all of it was taken.
pub(crate) fn write_over<W: Write>(most: u32, step: u32, writer: &mut W) -> bool
    ensures line { AppendsFront (W.contents writer.old) (W.contents writer.new) (over_line most step) }
    ensures whole { IsTrue result → Appends (W.contents writer.old) (W.contents writer.new) (over_line most step) }
{
    let mut digits = Buffer::new();
    let most = digits.format(most);
    if !send(writer, b"replaycheck exec: more than ").whole {
        return false;
    }
    if !send(writer, most.as_bytes()).whole {
        return false;
    }
    write_needed(step, writer)
}
