//! A line of standard error, piece by piece.
ghost use Rattle.std.specs.Prelude.{◌≡◌, ◌++◌, IsTrue};
ghost use Rattle.std.specs.Io.KnownBytes.{Appends};
ghost use Rattle.exit_status.specs.Ends.{AppendsFront, line_with};

use line_protocol::send;
use std::io::Write;

/// Writes a line of two pieces, and returns whether all of it was taken. Nothing is written after a write that fails.
pub(crate) fn send_line<W: Write>(writer: &mut W, word: &str, rest: &[u8]) -> bool
    ensures front { AppendsFront (W.contents writer.old) (W.contents writer.new) (line_with word.now rest.now) }
    ensures whole { IsTrue result → Appends (W.contents writer.old) (W.contents writer.new) (line_with word.now rest.now) }
{
    if !send(writer, word.as_bytes()).whole {
        return false;
    }
    if !send(writer, rest).whole {
        return false;
    }
    send(writer, b"\n").whole
}

/// Writes a line of four pieces, and returns whether all of it was taken. Nothing is written after a write that fails.
pub(crate) fn send_named<W: Write>(
    writer: &mut W,
    word: &str,
    first: &str,
    gap: &str,
    second: &[u8],
) -> bool
    ensures front { AppendsFront (W.contents writer.old) (W.contents writer.new) (word.now ++ first.now ++ line_with gap.now second.now) }
    ensures whole { IsTrue result → Appends (W.contents writer.old) (W.contents writer.new) (word.now ++ first.now ++ line_with gap.now second.now) }
{
    if !send(writer, word.as_bytes()).whole {
        return false;
    }
    if !send(writer, first.as_bytes()).whole {
        return false;
    }
    send_line(writer, gap, second)
}

/// The same of four texts.
pub(crate) fn send_two<W: Write>(
    writer: &mut W,
    word: &str,
    first: &str,
    gap: &str,
    second: &str,
) -> bool
    ensures front { AppendsFront (W.contents writer.old) (W.contents writer.new) (word.now ++ first.now ++ line_with gap.now second.now) }
    ensures whole { IsTrue result → Appends (W.contents writer.old) (W.contents writer.new) (word.now ++ first.now ++ line_with gap.now second.now) }
{
    send_named(writer, word, first, gap, second.as_bytes())
}
