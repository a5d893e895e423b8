//! A reader and a writer over memory that fail when they should.

use std::alloc::Global;
use std::io;
use std::io::{Error, ErrorKind, Read, Write};

/// Which reads are interrupted.
#[derive(Clone, Copy, Debug, PartialEq, Eq)]
pub enum Interruptions {
    None,
    /// The first, and every second after it.
    EverySecond,
    All,
}

/// A reader of some bytes, which fails from a call or from a byte on.
#[derive(Drop)]
pub struct Script<'a> {
    /// What is left.
    pub rest: &'a [u8],
    /// Whether letters `a` follow without an end.
    pub endless: bool,
    /// The greatest number of bytes that a read gives; 0 counts as 1.
    pub most: usize,
    /// The number of reads so far.
    pub reads: u64,
    /// The first read that fails, counted from 0; each later one does too.
    pub failing_read: u64,
    /// The number of bytes that are still given before each read fails.
    pub bytes: usize,
    /// Which of the reads that don't fail are interrupted.
    pub interruptions: Interruptions,
}

impl<'a> Script<'a> {
    ghost use Rattle.std.specs.Prelude.{◌≡◌, ◌-◌, ◌^◌, false};

    /// Returns a reader of some bytes that doesn't fail.
    pub fn new(rest: &'a [u8]) -> Self
        ensures bytes { (result.rest.now ≡ rest.now) × (result.endless ≡ false) × (result.most ≡ 2 ^ 64 - 1) × (result.bytes ≡ 2 ^ 64 - 1) }
        ensures reads { (result.reads ≡ 0) × (result.failing_read ≡ 2 ^ 64 - 1) × (result.interruptions ≡ Interruptions.None) }
    {
        Script {
            rest,
            endless: false,
            most: usize::MAX,
            reads: 0,
            failing_read: u64::MAX,
            bytes: usize::MAX,
            interruptions: Interruptions::None,
        }
    }
}

impl Read for Script<'_> {
    ghost use Rattle.std.specs.Prelude.{None, Some, if◌then◌else◌};

    ghost remaining = { λ s. if s.endless then None else Some s.rest.now };

    fn read(&mut self, buf: &mut [u8]) -> io::Result<usize> {
        if self.reads >= self.failing_read || self.bytes == 0 {
            return Err(Error::from(ErrorKind::Other));
        }
        let interrupted = match self.interruptions {
            Interruptions::None => false,
            Interruptions::EverySecond => self.reads % 2 == 0,
            Interruptions::All => true,
        };
        self.reads = self.reads.wrapping_add(1);
        if interrupted {
            return Err(Error::from(ErrorKind::Interrupted));
        }
        let room = buf.len().min(self.most.max(1)).min(self.bytes);
        if self.endless && self.rest.is_empty() {
            buf[..room].fill(b'a');
            self.bytes -= room;
            return Ok(room);
        }
        let n = self.rest.len().min(room);
        buf[..n].copy_from_slice(&self.rest[..n]);
        self.rest = &self.rest[n..];
        self.bytes -= n;
        Ok(n)
    }
}

/// How a write that doesn't succeed fails.
#[derive(Clone, Copy, Debug, PartialEq, Eq)]
pub enum Refusal {
    Fails,
    TakesNothing,
    IsInterrupted,
}

/// A writer that fails from a call or from a byte on, and whose flushes fail from one on.
#[derive(Drop)]
pub struct Room {
    /// The number of bytes that are still taken.
    pub left: usize,
    /// The greatest number of bytes that a write takes.
    pub most: usize,
    /// The number of writes that are still taken.
    pub writes: u64,
    /// How a write fails that isn't taken.
    pub refusal: Refusal,
    /// The number of flushes that still succeed.
    pub flushes: usize,
    /// The bytes that were taken.
    pub taken: Vec<u8>,
    /// The number of bytes that were flushed; the others would be lost.
    pub flushed: usize,
}

impl Room {
    ghost use Rattle.std.specs.Prelude.{◌≡◌, ◌-◌, ◌^◌, []};

    /// Returns a writer with room for a number of bytes, of which each flush succeeds.
    pub fn new(alloc: Global, left: usize) -> Self
        ensures bytes { (result.left ≡ left) × (result.most ≡ 2 ^ 64 - 1) × (result.taken.items ≡ []) × (result.flushed ≡ 0) }
        ensures calls { (result.writes ≡ 2 ^ 64 - 1) × (result.flushes ≡ 2 ^ 64 - 1) × (result.refusal ≡ Refusal.Fails) }
    {
        Room {
            left,
            most: usize::MAX,
            writes: u64::MAX,
            refusal: Refusal::Fails,
            flushes: usize::MAX,
            taken: Vec::new(alloc),
            flushed: 0,
        }
    }
}

impl Write for Room {
    ghost use Rattle.std.specs.Prelude.{Some};

    ghost contents = { λ s. Some s.taken.items };

    fn write(&mut self, bytes: &[u8]) -> io::Result<usize> {
        let n = bytes.len().min(self.left).min(self.most);
        if self.writes == 0 || (n == 0 && !bytes.is_empty()) {
            return match self.refusal {
                Refusal::Fails => Err(Error::from(ErrorKind::BrokenPipe)),
                Refusal::TakesNothing => Ok(0),
                Refusal::IsInterrupted => Err(Error::from(ErrorKind::Interrupted)),
            };
        }
        self.taken.extend_from_slice(&bytes[..n])?;
        self.left -= n;
        self.writes -= 1;
        Ok(n)
    }

    fn flush(&mut self) -> io::Result<()> {
        if self.flushes == 0 {
            return Err(Error::from(ErrorKind::BrokenPipe));
        }
        self.flushes -= 1;
        self.flushed = self.taken.len();
        Ok(())
    }
}
