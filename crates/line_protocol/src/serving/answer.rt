//! One line, and the reply to it.
ghost use Rattle.std.specs.Prelude.{◌≡◌, ◌+◌, if◌then◌else◌, IfErr, IfOk, OnOk, OnErr};
ghost use Rattle.line_protocol.specs.Served.{standing};
ghost use Rattle.line_protocol.specs.Serving.{Answered, Cut, IsWriteFailure};

use crate::fault::ServeFault;
use crate::listener::Listener;
use crate::serving::send::{Sent, send};
use std::io::Write;

/// The number of whole replies and of bytes that were written. Both stop at the greatest `u64`.
#[derive(Clone, Copy, Debug, PartialEq, Eq)]
pub(crate) struct Written {
    pub(crate) replies: u64,
    pub(crate) bytes: u64,
}

impl Written {
    /// Adds bytes, and the reply that they may have completed.
    fn add(&mut self, bytes: usize, whole: bool)
        ensures replies { self.new.replies ≡ standing (self.old.replies + (if whole then 1 else 0)) }
        ensures bytes { self.new.bytes ≡ standing (self.old.bytes + bytes) }
    {
        self.bytes = self.bytes.saturating_add(bytes as u64);
        self.replies = self.replies.saturating_add(if whole { 1 } else { 0 });
    }
}

/// Has a line answered, and writes its reply. Returns whether this line was the last: the limit of lines was reached before it. Fails if a
/// write or a flush fails.
pub(crate) fn answer<L: Listener, W: Write>(
    listener: &mut L,
    written: &mut Written,
    writer: &mut W,
    line: &[u8],
) -> Result<bool, ServeFault>
    ensures answers { L.answers listener.old line.now listener.new }
    ensures ok { IfOk result (λ over. over ≡ L.over listener.old) }
    ensures answered { OnOk result
        (Answered written.old written.new (W.contents writer.old) (W.contents writer.new) (L.reply listener.new)) }
    ensures err { OnErr result (Cut written.old written.new (W.contents writer.old) (W.contents writer.new) (L.reply listener.new)) }
    ensures fault { IfErr result (IsWriteFailure written.new) }
{
    let over = listener.is_over();
    listener.answer(line);
    let reply = listener.reply();
    let Sent { taken, whole } = send(writer, reply);
    written.add(taken, taken == reply.len());
    if whole {
        Ok(over)
    } else {
        Err(ServeFault::WriteFailed {
            replies: written.replies,
            bytes: written.bytes,
        })
    }
}
