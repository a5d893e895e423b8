use call_stacks::Block;

/// The outcome of the release of an address.
#[derive(Clone, Copy)]
pub enum Released {
    /// The block that was live there is freed; it has the trace of the release.
    Done(Block),
    /// Nothing: the address is 0.
    Nothing,
    /// Nothing: no live block begins at the address.
    Invalid,
}
