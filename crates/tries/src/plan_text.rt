//! The reply to a plan of tries, as it grows.
ghost use Rattle.std.specs.Prelude.{◌≡◌, ◌≤◌, ◌+◌, is_ok, length, vec_capacity, vec_len};
ghost use Rattle.tries.specs.Tries.{last_line};

use std::alloc::{AllocError, Global};

/// The room for the longer of the two last lines.
const LAST: usize = 10;

/// The last line after all tries.
pub(crate) const END: &[u8] = b"end\n";

/// The last line where memory ran out.
const REFUSED: &[u8] = b"refused 1\n";

/// A reply so far, with room for its last line. So it has one even if memory runs out.
#[derive(Drop)]
pub(crate) struct PlanText {
    bytes: Vec<u8>,
    ghost roomy: { vec_len bytes + 10 ≤ vec_capacity bytes },
}

/// The last line, by whether all was tried.
fn last_line(done: Result<(), AllocError>) -> &'static [u8]
    ensures line { result.now ≡ last_line (is_ok done) }
    ensures short { length result.now ≤ 10 }
{
    match done {
        Ok(()) => END,
        Err(_) => REFUSED,
    }
}

impl PlanText {
    ghost use Rattle.std.specs.Prelude.{◌≡◌, ◌++◌, [], IfOk, OnOk};

    /// Returns an empty reply.
    pub(crate) fn new(alloc: Global) -> Result<Self, AllocError>
        ensures { IfOk result (λ text. text.bytes.items ≡ []) }
    {
        let bytes = Vec::with_capacity(alloc, LAST)?;
        Ok(PlanText { bytes })
    }

    /// Makes room for a number of bytes.
    pub(crate) fn make_room(&mut self, len: usize) -> Result<(), AllocError>
        ensures same { self.new.bytes.items ≡ self.old.bytes.items }
        ensures room { OnOk result (vec_len self.new.bytes + len + 10 ≤ vec_capacity self.new.bytes) }
    {
        let Some(room) = len.checked_add(LAST) else {
            return Err(AllocError);
        };
        self.bytes.reserve(room)
    }

    /// Appends bytes for which room was made.
    pub(crate) fn push(&mut self, piece: &[u8])
        requires { vec_len self.old.bytes + length piece.now + 10 ≤ vec_capacity self.old.bytes }
        ensures { self.new.bytes.items ≡ self.old.bytes.items ++ piece.now }
    {
        let Ok(()) = self.bytes.extend_from_slice(piece) else {
            unreachable!()
        };
    }

    /// Returns the reply with its last line.
    pub(crate) fn end(self, done: Result<(), AllocError>) -> Vec<u8>
        ensures { result.items ≡ self.bytes.items ++ last_line (is_ok done) }
    {
        let mut bytes = self.bytes;
        let Ok(()) = bytes.extend_from_slice(last_line(done)) else {
            unreachable!()
        };
        bytes
    }
}
