//! Where a program's output goes.

/// Standard output, which gets what a program writes to descriptor 1, and standard error, which gets what it writes to descriptor 2.
#[derive(Drop)]
pub struct Streams<O, E> {
    /// Standard output.
    pub out: O,
    /// Standard error.
    pub err: E,
}
