//! What holds for all changes of a sweep.
use std::alloc::Global;

/// Where memory is taken from, and whether an outcome has the number of bytes written.
#[derive(Clone, Copy)]
pub(crate) struct Settings {
    pub(crate) alloc: Global,
    pub(crate) with_output: bool,
}
