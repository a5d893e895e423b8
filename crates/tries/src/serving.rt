//! A session whose run can be tried with other input bytes, over any reader and any writer.
ghost use Rattle.std.specs.Prelude.{IfErr, OnOk};
ghost use Rattle.line_protocol.specs.Served.{ServedAll, ServedRead, StoppedBy};
ghost use Rattle.replay_session.specs.Stages.{stage_of};
ghost use Rattle.tries.specs.Tries.{TriesLines, untried};

use crate::trying::Tries;
use line_protocol::ServeFault;
use replay_session::Session;
use std::io::{Read, Write};

/// Reads lines and writes the replies as [`looks::serve`] does, and for lines that try an input the replies to these. Such lines change
/// nothing of the session, and aren't counted.
pub fn serve<R: Read, W: Write>(
    session: Session<'_>,
    reader: &mut R,
    writer: &mut W,
) -> Result<(), ServeFault>
    // At the end, the replies to the lines of all bytes were written, and nothing else.
    ensures ok { OnOk result (ServedAll (TriesLines (untried (stage_of session.entry)))
        (R.remaining reader.old) (W.contents writer.old) (W.contents writer.new)) }

    // For a reader that doesn't say which bytes it has: these are the replies to the lines of some bytes.
    ensures read { OnOk result (ServedRead (TriesLines (untried (stage_of session.entry)))
        (R.remaining reader.old) (R.remaining reader.new) (W.contents writer.old) (W.contents writer.new)) }

    // On a fault, some bytes were read and the others stay, and the fault says what was written for those that were read.
    ensures fault { IfErr result (λ fault. StoppedBy fault (TriesLines (untried (stage_of session.entry)))
        (R.remaining reader.old) (R.remaining reader.new) (W.contents writer.old) (W.contents writer.new)) }
{
    let alloc = session.allocator();
    let Ok(mut tries) = Tries::new(session) else {
        return Err(ServeFault::NoMemory {
            replies: 0,
            bytes: 0,
        });
    };
    line_protocol::serve(alloc, &mut tries, reader, writer)
}
