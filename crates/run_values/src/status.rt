/// Why a run stopped. pc stays at the instruction.
#[derive(Clone, Copy, PartialEq, Eq)]
pub enum Stop {
    /// A byte of the word at pc is inaccessible.
    Jump,
    /// The instruction is EBREAK.
    Break,
    /// The word at pc is no instruction.
    Illegal,
    /// pc, or the target of a jump or of a taken branch, is no multiple of 4.
    Misaligned,
}

/// Whether a machine runs. A machine that has stopped or exited is its own successor.
#[derive(Clone, Copy, PartialEq, Eq)]
pub enum Status {
    /// The machine runs.
    Running,
    /// The program ended by the call `exit`, with the low 8 bits of its status.
    Exited(u8),
    /// The machine stopped by itself.
    Stopped(Stop),
}
