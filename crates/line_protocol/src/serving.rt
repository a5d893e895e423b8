//! Reads lines from any reader and writes the replies to any writer.
mod answer;
mod line_end;
pub(crate) mod send;
mod server;

ghost use Rattle.std.specs.Prelude.{OnOk, IfErr};
ghost use Rattle.line_protocol.specs.Answers.{Answers};
ghost use Rattle.line_protocol.specs.Served.{ServedAll, ServedRead, StoppedBy};
ghost use Rattle.line_protocol.specs.Serving.{IsFresh};

use crate::fault::ServeFault;
use crate::listener::Listener;
use crate::serving::server::Server;
use std::alloc::Global;
use std::io::{Read, Write};

/// The greatest number of calls of `read`.
pub const READS: u32 = 500_000_000;

/// The greatest number of bytes of a line that is distinguished from others. Of a longer line, a front is kept that is longer than this,
/// too.
pub const LONGEST_LINE: usize = 4096;

/// Has each line of a reader answered, writes its reply, and flushes after each. Drops one carriage return before a newline; bytes after
/// the last newline are a line. Ends at the reader's end, or after the reply to the first line that is given after the limit of lines was
/// reached. Tries an interrupted read again, but not an interrupted write.
pub fn serve<L: Listener, R: Read, W: Write>(
    alloc: Global,
    listener: &mut L,
    reader: &mut R,
    writer: &mut W,
) -> Result<(), ServeFault>
    // At the end, the replies to the lines of all bytes were written, and nothing else.
    ensures ok { OnOk result (ServedAll (Answers L.answers L.reply L.over listener.old) (R.remaining reader.old) (W.contents writer.old)
        (W.contents writer.new)) }

    // For a reader that doesn't say which bytes it has: these are the replies to the lines of some bytes.
    ensures read { OnOk result (ServedRead (Answers L.answers L.reply L.over listener.old) (R.remaining reader.old) (R.remaining reader.new)
        (W.contents writer.old) (W.contents writer.new)) }

    // On a fault, some bytes were read and the others stay, and the fault says what was written for those that were read.
    ensures fault { IfErr result (λ fault. StoppedBy fault (Answers L.answers L.reply L.over listener.old) (R.remaining reader.old)
        (R.remaining reader.new) (W.contents writer.old) (W.contents writer.new)) }
{
    let Ok(mut server) = Server::new(alloc) else {
        return Err(ServeFault::NoMemory {
            replies: 0,
            bytes: 0,
        });
    };
    serve_from(&mut server, listener, reader, writer)
}

/// Serves the lines of a reader's bytes.
fn serve_from<L: Listener, R: Read, W: Write>(
    server: &mut Server,
    listener: &mut L,
    reader: &mut R,
    writer: &mut W,
) -> Result<(), ServeFault>
    requires { IsFresh server.old }
    ensures ok { OnOk result (ServedAll (Answers L.answers L.reply L.over listener.old) (R.remaining reader.old) (W.contents writer.old)
        (W.contents writer.new)) }
    ensures read { OnOk result (ServedRead (Answers L.answers L.reply L.over listener.old) (R.remaining reader.old) (R.remaining reader.new)
        (W.contents writer.old) (W.contents writer.new)) }
    ensures fault { IfErr result (λ fault. StoppedBy fault (Answers L.answers L.reply L.over listener.old) (R.remaining reader.old)
        (R.remaining reader.new) (W.contents writer.old) (W.contents writer.new)) }
{
    let mut room = [0u8; 512];
    for _i in 0..READS {
        if server.read_once(listener, reader, writer, &mut room)? {
            return Ok(());
        }
    }
    Err(server.endless())
}
