use call_stacks::Trace;
use leak_graph::LeakKind;

/// The result of a search for a live block.
#[derive(Clone, Copy, Debug, PartialEq, Eq)]
pub struct LeakRecord {
    /// The address of its first byte.
    pub start: u32,
    /// The number of its bytes; it may be 0.
    pub size: u32,
    /// How it was lost, or that it wasn't.
    pub kind: LeakKind,
    /// Where it was allocated.
    pub trace: Trace,
}
