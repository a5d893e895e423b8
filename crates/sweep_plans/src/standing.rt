//! What is at a place of the unedited run.

/// What is at a place.
#[derive(Clone, Copy)]
pub enum Standing {
    /// A byte of the input.
    Byte { offset: u32, byte: u8 },
    /// A word of the program.
    Word { addr: u32, word: u32 },
    /// An instruction of 16 bits.
    Half { addr: u32, half: u16 },
    /// A step of the run, before which pc has this value, and the instruction there has 16 bits or 32.
    Step { step: u32, pc: u32, is_half: bool },
}
