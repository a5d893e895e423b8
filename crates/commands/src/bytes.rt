//! Bytes of an edit.
ghost use Rattle.std.specs.Prelude.{◌≡◌, length};

use std::marker::Model;

/// Bytes that an edit gives the input, in order. Contracts see their list.
#[derive(Drop)]
pub struct Bytes {
    items: Vec<u8>,
}

impl Model for Bytes {
    ghost use Rattle.std.specs.Prelude.{List, ℕ};

    ghost Value = { List ℕ };

    ghost view = { λ bytes. bytes.items.items };
}

impl Bytes {
    /// Returns these bytes.
    pub fn new(items: Vec<u8>) -> Self
        ensures { result ≡ items.items }
    {
        Bytes { items }
    }

    /// Returns the number of bytes.
    pub fn len(&self) -> usize
        ensures { result ≡ length self.now }
    {
        self.items.len()
    }

    /// Returns the bytes as a slice.
    pub fn as_slice(&self) -> &[u8]
        ensures { result.now ≡ self.now }
    {
        &self.items
    }

    /// Returns the bytes as a vector.
    pub fn into_vec(self) -> Vec<u8>
        ensures { result.items ≡ self }
    {
        self.items
    }
}
