//! Whether a machine has anything that a report lists.
ghost use Rattle.std.specs.Prelude.{◌≡◌, ◌<◌, IfOk};
ghost use Rattle.guest_machine.specs.State.{State};
ghost use Rattle.guest_machine.specs.Shows.{Shows};
ghost use Rattle.replay_report.specs.Findings.{has_leak, HasFindings};

use crate::filtering::told_groups;
use crate::leaks::{is_shown, split_records};
use guest_elf::Image;
use guest_machine::Machine;
use leak_search::{LeakRecord, search};
use std::alloc::{AllocError, Global};
use suppressions::Suppression;

/// Is a block of one of some kinds among these?
pub(crate) fn has_leak(records: &[LeakRecord], kinds: &[bool; 4]) -> bool
    ensures { result ≡ has_leak kinds.now records.now }
{
    records.iter().any(|record| is_shown(kinds, record.kind))
}

/// Returns whether a machine has an error, or a leaked block of one of some kinds, that no suppression matches. The kinds are definitely lost,
/// indirectly lost, possibly lost and still reachable, in this order.
#[tactic(auto, unfolding(crate::specs::Findings::has_findings))]
pub fn has_findings(
    alloc: Global,
    machine: &Machine,
    image: &Image,
    suppressions: &[Suppression],
    callers: u32,
    kinds: &[bool; 4],
) -> Result<bool, AllocError>
    requires { 0 < callers }
    ensures { IfOk result (λ found. (s : State) → Shows machine.now s → HasFindings s image.now suppressions.now callers kinds.now found) }
{
    let records = search(alloc, machine)?;
    let (told, _hidden) = split_records(alloc, &records, image, suppressions)?;
    let groups = told_groups(alloc, machine, image, suppressions, callers)?;
    Ok(groups.len() > 0 || has_leak(&told, kinds))
}
