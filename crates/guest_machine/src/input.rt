ghost use Rattle.std.specs.Prelude.{◌≡◌, ◌-◌, ◌++◌, ◌∷◌, [], drop, length, take, IsTrue, OnOk, OnErr};

use std::alloc::AllocError;
use std::marker::Model;

/// The bytes that a run may read, in order. Contracts see their list. An input is made from a vector and gives it back.
#[derive(Drop)]
pub struct Input {
    bytes: Vec<u8>,
}

impl Model for Input {
    ghost use Rattle.std.specs.Prelude.{List, ℕ};

    ghost Value = { List ℕ };

    ghost view = { λ input. input.bytes.items };
}

impl Input {
    /// Returns the input with these bytes.
    pub fn new(bytes: Vec<u8>) -> Self
        ensures { result ≡ bytes.items }
    {
        Input { bytes }
    }

    /// Returns the number of bytes.
    pub fn len(&self) -> usize
        ensures { result ≡ length self.now }
    {
        self.bytes.len()
    }

    /// Returns the bytes as a slice.
    pub fn as_slice(&self) -> &[u8]
        ensures { result.now ≡ self.now }
    {
        &self.bytes
    }

    /// Returns whether the bytes from a position on are those of another input.
    pub(crate) fn has_rest_of(&self, other: &Input, position: usize) -> bool
        ensures { IsTrue result → drop position self.now ≡ drop position other.now }
    {
        match (self.bytes.get(position..), other.bytes.get(position..)) {
            (Some(rest), Some(other_rest)) => rest == other_rest,
            _ => false,
        }
    }

    /// Appends a byte. If memory runs out, the input stays as it is.
    pub fn push(&mut self, byte: u8) -> Result<(), AllocError>
        ensures ok { OnOk result (self.new ≡ self.old ++ byte ∷ []) }
        ensures err { OnErr result (self.new ≡ self.old) }
    {
        self.bytes.push(byte)?;
        Ok(())
    }

    /// Removes the last byte, if there is one.
    pub fn pop(&mut self)
        ensures { self.new ≡ take (length self.old - 1) self.old }
    {
        let _last = self.bytes.pop();
    }

    /// Returns the bytes.
    pub fn into_vec(self) -> Vec<u8>
        ensures { result.items ≡ self }
    {
        self.bytes
    }
}
