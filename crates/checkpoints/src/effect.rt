//! From which step on an edit shows.

use guest_machine::Code;

/// Where the first effect of an edit lies: no state of the run before it depends on the edit.
#[derive(Clone, Copy)]
pub enum Effect {
    /// Nowhere: the edit changes what is reported of a run, and no state of it.
    Nowhere,
    /// After a step, where the marks are others.
    After(u32),
    /// Once a byte of the input at an offset, or one after it, was read: the input differs from that offset on.
    Input(u32),
    /// Once a read has asked for more than was left: the input has more bytes at its end.
    End,
    /// Once a heap call was executed: the options of the heap are others.
    Heap,
    /// After a step that touches a word with a byte of the code at an address: another code is written there, of which no mark writes a byte or
    /// goes by one.
    Patch { addr: u32, code: Code },
    /// From step 1 on: another code is written at an address, of which marks write a byte too or may go by one. The run is begun anew.
    Anew { addr: u32, code: Code },
}
