//! The machines of a trail: what is kept of them.
ghost use Rattle.std.specs.Prelude.{◌+◌, ◌<◌, ◌≤◌, vec_len};

use guest_machine::Machine;

/// Machines at places 0, 1, 2 and so on. Where the run has halted, one machine is that of all places from its own on.
#[derive(Drop)]
pub(crate) struct Held {
    pub(crate) machines: Vec<Machine>,
    /// The number of further places whose machine the last one is, too.
    pub(crate) more: usize,
    ghost begun: { 0 < vec_len machines },
    ghost apart: { 0 < more → 1 < vec_len machines },
    ghost few: { vec_len machines + more ≤ 4294967296 },
}
