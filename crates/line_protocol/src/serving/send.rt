//! Writes bytes, all of them.
ghost use Rattle.std.specs.Prelude.{◌≡◌, ◌≤◌, length, take, IsTrue};
ghost use Rattle.std.specs.Io.KnownBytes.{Appends};

use std::io::Write;

/// How much was sent.
#[derive(Clone, Copy, Debug, PartialEq, Eq)]
pub struct Sent {
    /// The number of bytes that the writer took.
    pub taken: usize,
    /// Whether it took all of them, and flushed.
    pub whole: bool,
}

/// Writes bytes, all of them, and flushes. Stops at a write that fails, even if it was interrupted, or that takes nothing, and at a flush
/// that fails.
pub fn send<W: Write>(writer: &mut W, bytes: &[u8]) -> Sent
    ensures within { result.taken ≤ length bytes.now }
    ensures sent { Appends (W.contents writer.old) (W.contents writer.new) (take result.taken bytes.now) }
    ensures all { IsTrue result.whole → result.taken ≡ length bytes.now }
    ensures whole { IsTrue result.whole → Appends (W.contents writer.old) (W.contents writer.new) bytes.now }
{
    let mut taken = 0;
    while taken < bytes.len() {
        match writer.write(&bytes[taken..]) {
            Ok(0) => return Sent {
                taken,
                whole: false,
            },
            Ok(n) => taken += n,
            Err(_) => return Sent {
                taken,
                whole: false,
            },
        }
    }
    match writer.flush() {
        Ok(()) => Sent { taken, whole: true },
        Err(_) => Sent {
            taken,
            whole: false,
        },
    }
}
