//! Why a reader's lines weren't all answered.
use thiserror::Error;

/// Why a reader's lines weren't all answered, with the number of whole replies and of bytes that were written.
#[derive(Clone, Copy, Debug, PartialEq, Eq, Error)]
pub enum ServeFault {
    /// A read failed. The replies to all lines whose newline was read were written.
    #[error("the read failed after {replies} replies")]
    ReadFailed { replies: u64, bytes: u64 },
    /// A write or a flush failed, or a write took nothing. Whole replies were written, and a front of the next.
    #[error("the write failed after {bytes} bytes")]
    WriteFailed { replies: u64, bytes: u64 },
    /// Memory ran out before the first read.
    #[error("no memory")]
    NoMemory { replies: u64, bytes: u64 },
    /// 500,000,000 calls of `read` found no end. The replies to all lines whose newline was read were written.
    #[error("the input has no end")]
    Endless { replies: u64, bytes: u64 },
}
