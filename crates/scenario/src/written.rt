//! A code that was written into a program.
use guest_machine::Code;

/// A code that was written.
#[derive(Clone, Copy)]
pub struct Written {
    /// Its address, at which an instruction may begin.
    pub addr: u32,
    /// The code.
    pub code: Code,
}
