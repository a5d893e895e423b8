//! The verdict on a run: whether it is clean up to a step.
use call_stacks::Trace;
use error_events::Kind;
use guest_machine::Alteration;

/// The first use of a run.
#[derive(Clone, Copy)]
pub struct FirstUse {
    /// The step that raises the error.
    pub step: u32,
    /// The kind of the error.
    pub kind: Kind,
    /// The trace where the error happened.
    pub trace: Trace,
}

/// Whether a run is clean up to a step, or what is in the way first.
#[derive(Clone, Copy)]
pub enum Verdict {
    /// The run is clean: nothing that undefined or inaccessible memory holds has an influence on it up to the step. Whether it has ended
    /// there, or rests in a jump to itself; if not, it goes on.
    Clean(bool),
    /// A mark makes bits defined, or bytes of the heap inaccessible. It is the first such mark, with its index.
    Mark(usize, Alteration),
    /// An error is a use.
    Use(FirstUse),
}
