/// A range of addresses: `len` bytes from `start` on, modulo 2^32.
#[derive(Clone, Copy, PartialEq, Eq)]
pub struct Span {
    /// The first address.
    pub start: u32,
    /// The number of bytes.
    pub len: u32,
}
