//! Why a line is rejected, and why no session begins.
ghost use Rattle.std.specs.Prelude.{◌≡◌};
ghost use Rattle.commands.specs.Faults.{number_of, fault_of};
ghost use Rattle.commands.specs.declared.fault.Fault.TheVariants.{Memory};
ghost use Rattle.commands.specs.declared.fault.BeginFault.TheVariants.{Memory as NoMemory};

use crate::refusal::Refusal;
use std::alloc::{AllocError, AllocFailed};
use thiserror::Error;

/// Why a line is rejected. A rejected line changes nothing but the number of lines.
#[derive(Clone, Copy, Debug, PartialEq, Eq, Error)]
pub enum Fault {
    /// Memory ran out, at a report, a patch, a mark, a new suppression or bytes that the input is given, and there is no other reason
    /// to reject the line.
    #[error("no memory")]
    Memory,
    /// An unknown word, another number of fields, an empty field, or one of another form; or `patch16` where there are no instructions of 16
    /// bits.
    #[error("unknown command or bad fields")]
    BadCommand,
    /// An offset at or above the input's length, bytes beyond its end, or the last byte of an empty input.
    #[error("outside of the input")]
    OutsideInput,
    /// An address at which no instruction of this length may be, or whose bytes aren't all loaded.
    #[error("no loaded word")]
    NotPatchable,
    /// A step above 4,194,304.
    #[error("the step is above the limit")]
    StepLimit,
    /// A mark of no bytes, of more than 1,048,576, or that ends above 2^32.
    #[error("the range is empty, too long or ends above 2^32")]
    BadRange,
    /// No mark has this index.
    #[error("there is no such mark")]
    NoSuchMark,
    /// No suppression has this index.
    #[error("there is no such suppression")]
    NoSuchSuppression,
    /// An unknown option, a number out of its range, or a list that isn't one of leak kinds.
    #[error("no such option or value")]
    BadOption,
    /// There are 4,096 marks already.
    #[error("too many marks")]
    TooManyMarks,
    /// A line of more than 4,096 bytes.
    #[error("the line is too long")]
    LineTooLong,
    /// 100,000 lines were given before.
    #[error("too many commands")]
    TooManyCommands,
    /// Arguments that are no suppression's.
    #[error("no suppression")]
    BadSuppression,
    /// The input has 1,048,576 bytes already, or another one would have more.
    #[error("the input is too large")]
    InputTooLarge,
}

impl Fault {
    /// Returns the number of the fault, from 1 to 14, as a reply has it.
    pub fn number(self) -> u8
        ensures { result ≡ number_of self }
    {
        match self {
            Fault::Memory => 1,
            Fault::BadCommand => 2,
            Fault::OutsideInput => 3,
            Fault::NotPatchable => 4,
            Fault::StepLimit => 5,
            Fault::BadRange => 6,
            Fault::NoSuchMark => 7,
            Fault::NoSuchSuppression => 8,
            Fault::BadOption => 9,
            Fault::TooManyMarks => 10,
            Fault::LineTooLong => 11,
            Fault::TooManyCommands => 12,
            Fault::BadSuppression => 13,
            Fault::InputTooLarge => 14,
        }
    }
}

impl From<AllocError> for Fault {
    ghost from_gives = { λ _ fault. fault ≡ Memory };

    fn from(_error: AllocError) -> Self {
        Fault::Memory
    }
}

/// The fault of a line that asks for a rejected edit.
impl From<Refusal> for Fault {
    ghost from_gives = { λ refusal fault. fault ≡ fault_of refusal };

    fn from(refusal: Refusal) -> Self {
        match refusal {
            Refusal::OutsideInput => Fault::OutsideInput,
            Refusal::InputTooLarge => Fault::InputTooLarge,
            Refusal::NotPatchable => Fault::NotPatchable,
            Refusal::NoHalves => Fault::BadCommand,
            Refusal::StepLimit => Fault::StepLimit,
            Refusal::BadRange => Fault::BadRange,
            Refusal::TooManyMarks => Fault::TooManyMarks,
            Refusal::NoSuchMark => Fault::NoSuchMark,
            Refusal::NoSuchSuppression => Fault::NoSuchSuppression,
            Refusal::BadOption => Fault::BadOption,
        }
    }
}

impl<T: Drop> From<AllocFailed<T>> for Fault {
    ghost from_gives = { λ _ fault. fault ≡ Memory };

    fn from(_error: AllocFailed<T>) -> Self {
        Fault::Memory
    }
}

/// Why no session begins.
#[derive(Clone, Copy, Debug, PartialEq, Eq, Error)]
pub enum BeginFault {
    /// Memory ran out.
    #[error("no memory")]
    Memory,
    /// An input of more than 1,048,576 bytes.
    #[error("the input is too large")]
    InputTooLarge,
}

impl From<AllocError> for BeginFault {
    ghost from_gives = { λ _ fault. fault ≡ NoMemory };

    fn from(_error: AllocError) -> Self {
        BeginFault::Memory
    }
}
