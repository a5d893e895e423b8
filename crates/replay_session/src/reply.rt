//! The reply to a line.

/// The reply to a line that isn't rejected.
#[derive(Clone, Copy, Debug, PartialEq, Eq)]
pub enum Reply {
    /// The line was carried out, and asks for nothing.
    Done,
    /// The number of steps executed so far.
    Work(u64),
    /// The report, whose bytes were appended to the vector that came with the line.
    Report,
}
