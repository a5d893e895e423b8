//! What a look asks for.
use checkpoints::Sought;
use run_values::Span;

/// A search among the steps of a run, from the chosen one on to another one.
#[derive(Clone, Copy)]
pub struct Search {
    /// What a step has to do.
    pub sought: Sought,
    /// In a search forwards, the first step that isn't searched any more; in a search backwards, the first step that is searched.
    pub bound: u32,
}

/// The steps of which a look asks what happens in them.
#[derive(Clone, Copy)]
pub struct Stretch {
    /// The first of them.
    pub from: u32,
    /// The first that isn't one of them any more.
    pub end: u32,
}

/// What is asked of the run of a session, at its chosen step.
#[derive(Clone, Copy)]
pub enum Look {
    /// Whether it runs, and the registers with their undefined bits.
    Registers,
    /// The control registers that have names, with their undefined bits.
    Controls,
    /// The bytes of a range, with their undefined bits.
    Memory(Span),
    /// The bytes of the output in a range of positions.
    Output(Span),
    /// What the run has done with each instruction of a range.
    Sides(Span),
    /// How far the input was read, of how many bytes, and whether its end was seen.
    Input,
    /// The first step, from the chosen one on, that does what is sought.
    Next(Search),
    /// The last step, before the chosen one, that does what is sought.
    Last(Search),
    /// Whether the run is clean up to the step.
    Certify,
    /// The calls that it is in.
    Stack,
    /// The blocks of the heap from an address on.
    Blocks(u32),
    /// What happens in steps before it.
    Calls(Stretch),
}
