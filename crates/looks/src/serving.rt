//! A session that can be looked at, over any reader and any writer.
ghost use Rattle.std.specs.Prelude.{IfErr, OnOk};
ghost use Rattle.line_protocol.specs.Served.{ServedAll, ServedRead, StoppedBy};
ghost use Rattle.replay_session.specs.Stages.{stage_of};
ghost use Rattle.looks.specs.Views.{ViewsLines};

use crate::viewer::Viewer;
use line_protocol::ServeFault;
use replay_session::Session;
use std::io::{Read, Write};

/// Reads lines and writes the replies as [`replay_session::serve`] does, and for lines that look at the run of the session the replies to
/// what they ask for. These lines change nothing, and aren't counted. Lines that alter the machine at a step, or that give
/// the input bytes, are answered as edits.
pub fn serve<R: Read, W: Write>(
    session: Session<'_>,
    reader: &mut R,
    writer: &mut W,
) -> Result<(), ServeFault>
    // At the end, the replies to the lines of all bytes were written, and nothing else.
    ensures ok { OnOk result (ServedAll (ViewsLines (stage_of session.entry)) (R.remaining reader.old) (W.contents writer.old) (W.contents writer.new)) }

    // For a reader that doesn't say which bytes it has: these are the replies to the lines of some bytes.
    ensures read { OnOk result (ServedRead (ViewsLines (stage_of session.entry)) (R.remaining reader.old) (R.remaining reader.new)
        (W.contents writer.old) (W.contents writer.new)) }

    // On a fault, some bytes were read and the others stay, and the fault says what was written for those that were read.
    ensures fault { IfErr result (λ fault. StoppedBy fault (ViewsLines (stage_of session.entry)) (R.remaining reader.old) (R.remaining reader.new)
        (W.contents writer.old) (W.contents writer.new)) }
{
    let alloc = session.allocator();
    let Ok(mut viewer) = Viewer::new(session) else {
        return Err(ServeFault::NoMemory {
            replies: 0,
            bytes: 0,
        });
    };
    line_protocol::serve(alloc, &mut viewer, reader, writer)
}
