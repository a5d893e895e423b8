//! The state of a server between two reads.
ghost use Rattle.std.specs.Prelude.{◌≡◌, ◌≤◌, vec_len, vec_capacity};
ghost use Rattle.line_protocol.specs.Lines.{most_kept};

use crate::fault::ServeFault;
use crate::listener::Listener;
use crate::serving::LONGEST_LINE;
use crate::serving::answer::{Written, answer};
use crate::serving::line_end::line_len;
use std::alloc::{AllocError, Global};
use std::io::{ErrorKind, Read, Write};

/// The number of bytes of a line that are kept: more than the longest line and a carriage return.
const KEPT: usize = LONGEST_LINE + 2;

/// A front of the line so far, and how much was written.
#[derive(Drop)]
pub(crate) struct Server {
    /// All of the line so far, if it is shorter than `KEPT`.
    kept: Vec<u8>,
    written: Written,
    ghost roomy: { most_kept ≤ vec_capacity kept },
    ghost short: { vec_len kept ≤ most_kept },
}

impl Server {
    ghost use Rattle.std.specs.Prelude.{◌≡◌, ◌≢◌, ◌<◌, ◌∷◌, [], ℕ, List, IfErr, IfOk, OnOk, OnErr, length, true, false};
    ghost use Rattle.line_protocol.specs.Answers.{Answers};
    ghost use Rattle.line_protocol.specs.Lines.{KeepsByte, lines_by};
    ghost use Rattle.line_protocol.specs.Serving.{Fed, Over, Broken, Ended, Ends, Halts, IsEndlessFault, IsFresh, IsWriteFailure, Reads};

    pub(crate) fn new(alloc: Global) -> Result<Self, AllocError>
        ensures fresh { IfOk result IsFresh }
    {
        let kept = Vec::with_capacity(alloc, KEPT)?;
        Ok(Server {
            kept,
            written: Written {
                replies: 0,
                bytes: 0,
            },
        })
    }

    /// Keeps a byte of the line.
    fn keep(&mut self, byte: u8)
        requires { byte ≢ 10 }
        ensures written { self.new.written ≡ self.old.written }
        ensures kept { KeepsByte self.old.kept.items self.new.kept.items byte }
    {
        if self.kept.len() < KEPT {
            let Ok(()) = self.kept.push(byte) else {
                unreachable!()
            };
        }
    }

    /// Takes the next byte. Returns whether the last line was answered, since the limit of lines is reached.
    fn take_byte<L: Listener, W: Write>(
        &mut self,
        listener: &mut L,
        writer: &mut W,
        byte: u8,
    ) -> Result<bool, ServeFault>
        ensures fed { result ≡ Ok false →
            Fed (Answers L.answers L.reply L.over listener.old) (Answers L.answers L.reply L.over listener.new)
            self.old self.new (W.contents writer.old) (W.contents writer.new) (byte ∷ []) }
        ensures over { result ≡ Ok true → Over (Answers L.answers L.reply L.over listener.old)
            self.old (W.contents writer.old) (W.contents writer.new) (byte ∷ []) }
        ensures broken { OnErr result ((more : List ℕ) → Broken (Answers L.answers L.reply L.over listener.old)
            self.old self.new (W.contents writer.old) (W.contents writer.new) (lines_by false self.old.kept.items (byte ∷ more))) }
        ensures fault { IfErr result (IsWriteFailure self.new.written) }
    {
        if byte != b'\n' {
            self.keep(byte);
            return Ok(false);
        }
        let len = line_len(&self.kept);
        let over = answer(listener, &mut self.written, writer, &self.kept[..len])?;
        self.kept.clear();
        Ok(over)
    }

    /// Takes the next bytes. Returns whether the last line was answered, since the limit of lines is reached.
    pub(crate) fn feed<L: Listener, W: Write>(
        &mut self,
        listener: &mut L,
        writer: &mut W,
        bytes: &[u8],
    ) -> Result<bool, ServeFault>
        ensures fed { result ≡ Ok false →
            Fed (Answers L.answers L.reply L.over listener.old) (Answers L.answers L.reply L.over listener.new)
            self.old self.new (W.contents writer.old) (W.contents writer.new) bytes.now }
        ensures over { result ≡ Ok true → Over (Answers L.answers L.reply L.over listener.old)
            self.old (W.contents writer.old) (W.contents writer.new) bytes.now }
        ensures broken { OnErr result (Broken (Answers L.answers L.reply L.over listener.old)
            self.old self.new (W.contents writer.old) (W.contents writer.new) (lines_by false self.old.kept.items bytes.now)) }
        ensures fault { IfErr result (IsWriteFailure self.new.written) }
    {
        for byte in bytes {
            let over = self.take_byte(listener, writer, *byte)?;
            if over {
                return Ok(true);
            }
        }
        Ok(false)
    }

    /// Answers a last line without a newline, if there is one.
    pub(crate) fn finish<L: Listener, W: Write>(
        &mut self,
        listener: &mut L,
        writer: &mut W,
    ) -> Result<(), ServeFault>
        ensures ended { OnOk result (Ended (Answers L.answers L.reply L.over listener.old)
            self.old (W.contents writer.old) (W.contents writer.new)) }
        ensures broken { OnErr result (Broken (Answers L.answers L.reply L.over listener.old)
            self.old self.new (W.contents writer.old) (W.contents writer.new) (lines_by true self.old.kept.items [])) }
        ensures fault { IfErr result (IsWriteFailure self.new.written) }
    {
        if self.kept.is_empty() {
            return Ok(());
        }
        answer(listener, &mut self.written, writer, &self.kept)?;
        Ok(())
    }

    /// Reads once, into room for it, and answers the lines whose newline was read, or the last one at the reader's end. Returns whether
    /// serving has ended.
    pub(crate) fn read_once<L: Listener, R: Read, W: Write>(
        &mut self,
        listener: &mut L,
        reader: &mut R,
        writer: &mut W,
        room: &mut [u8],
    ) -> Result<bool, ServeFault>
        requires { 0 < length room.old }
        ensures goes { result ≡ Ok false → Reads (R.remaining reader.old) (R.remaining reader.new)
            (Fed (Answers L.answers L.reply L.over listener.old) (Answers L.answers L.reply L.over listener.new)
            self.old self.new (W.contents writer.old) (W.contents writer.new)) }
        ensures ends { result ≡ Ok true → Reads (R.remaining reader.old) (R.remaining reader.new)
            (Ends (Answers L.answers L.reply L.over listener.old)
            self.old (R.remaining reader.new) (W.contents writer.old) (W.contents writer.new)) }
        ensures fault { IfErr result (λ fault. Reads (R.remaining reader.old) (R.remaining reader.new)
            (Halts fault (Answers L.answers L.reply L.over listener.old) (Answers L.answers L.reply L.over listener.new)
            self.old self.new (R.remaining reader.new) (W.contents writer.old) (W.contents writer.new))) }
    {
        match reader.read(room) {
            Ok(0) => {
                self.finish(listener, writer)?;
                Ok(true)
            }
            Ok(n) => self.feed(listener, writer, &room[..n]),
            Err(error) => {
                if error.kind() == ErrorKind::Interrupted {
                    return Ok(false);
                }
                Err(ServeFault::ReadFailed {
                    replies: self.replies(),
                    bytes: self.bytes(),
                })
            }
        }
    }

    /// Returns the fault of a reader without an end.
    pub(crate) fn endless(&self) -> ServeFault
        ensures { IsEndlessFault self.now.written result }
    {
        ServeFault::Endless {
            replies: self.replies(),
            bytes: self.bytes(),
        }
    }

    /// Returns the number of whole replies that were written.
    fn replies(&self) -> u64
        ensures { result ≡ self.now.written.replies }
    {
        self.written.replies
    }

    /// Returns the number of bytes that were written.
    fn bytes(&self) -> u64
        ensures { result ≡ self.now.written.bytes }
    {
        self.written.bytes
    }
}
