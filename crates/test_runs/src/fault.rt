//! Why a run ends early.
use std::alloc::AllocError;
use thiserror::Error;

/// Why an execution was dropped before the chosen step.
#[derive(Clone, Copy, Debug, Error)]
pub enum ExecutionFault {
    /// Memory ran out.
    #[error("out of memory")]
    NoMemory,
    /// The program's output couldn't be written.
    #[error("the output couldn't be written")]
    WriteFailed,
}

impl From<AllocError> for ExecutionFault {
    fn from(_error: AllocError) -> Self {
        ExecutionFault::NoMemory
    }
}
