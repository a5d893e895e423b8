//! Why an edit is rejected.

/// Why an edit is rejected. A rejected edit changes nothing.
#[derive(Clone, Copy)]
pub enum Refusal {
    /// An offset at or above the input's length, bytes beyond its end, or the last byte of an empty input.
    OutsideInput,
    /// The input has 1,048,576 bytes already, or another one would have more.
    InputTooLarge,
    /// An address at which no instruction of this length may be, or whose bytes aren't all loaded.
    NotPatchable,
    /// A half, where there are no instructions of 16 bits.
    NoHalves,
    /// A step above 4,194,304.
    StepLimit,
    /// A mark of no bytes, of more than 1,048,576, or that ends above 2^32.
    BadRange,
    /// There are 4,096 marks already.
    TooManyMarks,
    /// No mark has this index.
    NoSuchMark,
    /// No suppression has this index.
    NoSuchSuppression,
    /// An option's number that is out of its range.
    BadOption,
}
