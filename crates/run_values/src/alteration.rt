ghost use Rattle.std.specs.Prelude.{◌≡◌};
ghost use Rattle.run_values.specs.Alterations.{alteration_of, writes_of};

use crate::mark::Mark;
use crate::span::Span;
use instructions::{Register, Width};
use shadow_memory::RangeKind;

/// What is altered in a machine just before a step.
#[derive(Clone, Copy)]
pub struct Alteration {
    /// The number of the step, from 0.
    pub step: u32,
    /// What is done to the machine.
    pub act: Act,
}

/// What a fault or a debugger does to a machine. A range may be made accessible or not at any time. All else is done only to a machine that
/// runs; one that has exited or stopped stays as it is.
#[derive(Clone, Copy)]
pub enum Act {
    /// Makes `len` bytes from `addr` on inaccessible, undefined or defined; addresses are modulo 2^32.
    Make {
        addr: u32,
        len: u32,
        kind: RangeKind,
    },
    /// Sets a register to a value, of which the bits of `undef` are undefined. x0 stays 0.
    Set {
        register: Register,
        value: u32,
        undef: u32,
    },
    /// Turns the bits of a mask in a register. Its undefined bits stay undefined, and the others defined.
    Flip {
        register: Register,
        mask: u32,
    },
    /// Sets pc.
    Jump {
        target: u32,
    },
    /// Turns the bits of a mask in pc.
    FlipPc {
        mask: u32,
    },
    /// Writes the low bytes of a value, the lowest first. They are defined where they may be accessed, and elsewhere stay inaccessible, as
    /// by a store. No error is raised.
    Write {
        addr: u32,
        width: Width,
        value: u32,
    },
    /// Turns the bits of a mask in the four bytes from `addr` on, the lowest byte first. What is known of the bytes stays.
    Turn {
        addr: u32,
        mask: u32,
    },
    /// Leaves out the instruction at pc: pc advances by the instruction's length, which the bytes there decide, accessible or not.
    Skip,
}

impl Act {
    /// Returns the range whose byte values it may change, if there is one.
    pub fn writes(&self) -> Option<Span>
        ensures { result ≡ writes_of self.now }
    {
        match self {
            Act::Write { addr, width, .. } => Some(Span {
                start: *addr,
                len: width.len(),
            }),
            Act::Turn { addr, .. } => Some(Span {
                start: *addr,
                len: 4,
            }),
            _ => None,
        }
    }
}

impl From<Mark> for Alteration {
    ghost from_gives = { λ mark alteration. alteration ≡ alteration_of mark };

    /// Returns the alteration that makes the range of a mark.
    fn from(mark: Mark) -> Self {
        Alteration {
            step: mark.step,
            act: Act::Make {
                addr: mark.addr,
                len: mark.len,
                kind: mark.kind,
            },
        }
    }
}
