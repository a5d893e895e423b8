//! The verdict on a run for every value of some bytes.
use clean_reports::FirstUse;

/// A byte that may not be accessed where one that may be any should be.
#[derive(Clone, Copy)]
pub enum Closed {
    /// The byte at a position of the input is read there at a step.
    Input { step: u32, position: u64 },
    /// One of memory, at an address.
    Memory(u32),
    /// One that is revealed just before a step, at an address.
    Revealed { step: u32, addr: u32 },
}

/// Whether a run is the same for every value of some bytes, or what may depend on them first.
#[derive(Clone, Copy)]
pub enum AnyVerdict {
    /// The run is the same up to the step.
    Same {
        /// Whether it has ended there, or rests in a jump to itself; if not, it goes on.
        ended: bool,
        /// How many bytes of the input it has read.
        read: u64,
    },
    /// An error is a use of undefined bits.
    Use(FirstUse),
    /// A step leaves the stack pointer undefined, or begins with one that is.
    StackPointer(u32),
    /// A step writes out a byte that may not be accessed, behind one that may be any.
    Write(u32),
    /// A byte that should be undefined, or known, may not be accessed.
    Closed(Closed),
}
