use shadow_memory::RangeKind;

/// A range that is made inaccessible, undefined or defined just before a step.
#[derive(Clone, Copy)]
pub struct Mark {
    /// The number of the step, from 0.
    pub step: u32,
    /// The first address.
    pub addr: u32,
    /// The number of bytes; addresses are modulo 2^32.
    pub len: u32,
    /// The kind that the bytes get.
    pub kind: RangeKind,
}
