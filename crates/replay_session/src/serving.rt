//! A session over any reader and any writer.
mod listening;
pub(crate) mod reply_texts;

ghost use Rattle.std.specs.Prelude.{OnOk, IfErr};
ghost use Rattle.replay_session.specs.Served.{ServedAll, ServedRead, StoppedBy};
ghost use Rattle.replay_session.specs.Stages.{ForEachStage};

use crate::serving::listening::Listening;
use crate::session::Session;
use line_protocol::ServeFault;
use std::io::{Read, Write};

/// Reads lines and writes the reply to each: `ok`, the report, `worked N` or `refused N`, with a newline at its end. Flushes after each
/// reply. Drops one carriage return before a newline; bytes after the last newline are a line. Ends at the reader's end, or after the first
/// reply `refused 12`. Tries an interrupted read again, but not an interrupted write.
pub fn serve<R: Read, W: Write>(
    session: Session<'_>,
    reader: &mut R,
    writer: &mut W,
) -> Result<(), ServeFault>
    // At the end, the replies to the lines of all bytes were written, and nothing else.
    ensures ok { OnOk result (ForEachStage session.entry (λ stage.
        ServedAll stage (R.remaining reader.old) (W.contents writer.old) (W.contents writer.new))) }

    // For a reader that doesn't say which bytes it has: these are the replies to the lines of some bytes.
    ensures read { OnOk result (ForEachStage session.entry (λ stage.
        ServedRead stage (R.remaining reader.old) (R.remaining reader.new) (W.contents writer.old) (W.contents writer.new))) }

    // On a fault, some bytes were read and the others stay, and the fault says what was written for those that were read.
    ensures fault { IfErr result (λ fault. ForEachStage session.entry (λ stage.
        StoppedBy fault stage (R.remaining reader.old) (R.remaining reader.new) (W.contents writer.old) (W.contents writer.new))) }
{
    let alloc = session.allocator();
    let Ok(mut listening) = Listening::new(session) else {
        return Err(ServeFault::NoMemory {
            replies: 0,
            bytes: 0,
        });
    };
    line_protocol::serve(alloc, &mut listening, reader, writer)
}
