//! The errors that are uses.
ghost use Rattle.std.specs.Prelude.{◌≡◌, ◌↔◌, IsTrue, find};
ghost use Rattle.error_events.specs.Shown.{groups_of};
ghost use Rattle.guest_machine.specs.State.{State};
ghost use Rattle.guest_machine.specs.Shows.{Shows};
ghost use Rattle.clean_reports.specs.Uses.{NoUse, fault_is_use, is_use};

use error_events::{Group, Groups, Kind, Parameter, ParameterFault};
use guest_machine::Machine;

/// Returns whether an error of a kind is a use, so that the run may depend on what undefined or inaccessible memory holds from then on.
pub fn is_use(kind: Kind) -> bool
    ensures { result ≡ is_use kind }
{
    match kind {
        Kind::Write(_) | Kind::Free | Kind::Jump => false,
        Kind::Read(_) | Kind::Value | Kind::Cond => true,
        Kind::Param(parameter, fault) => fault_is_use(parameter, fault),
    }
}

/// Returns whether a fault of a parameter is a use.
fn fault_is_use(parameter: Parameter, fault: ParameterFault) -> bool
    ensures { result ≡ fault_is_use parameter fault }
{
    match fault {
        ParameterFault::Contains | ParameterFault::Uninit => true,
        ParameterFault::Unaddressable => !matches!(parameter, Parameter::ReadBuffer),
    }
}

/// Returns the first group whose errors are uses.
pub(crate) fn first_use(groups: &Groups) -> Option<Group>
    ensures { result ≡ find (λ g. is_use g.kind) (groups_of groups.now) }
{
    for index in 0..groups.len() {
        if let Some(group) = groups.get(index) {
            if is_use(group.kind) {
                return Some(group);
            }
        }
    }
    None
}

/// Returns whether no error of a machine's run so far is a use; suppressed errors count. If none is, nothing that undefined or inaccessible
/// memory holds has had an influence on the run, as long as no mark is in the way ([`crate::certify`]).
pub fn is_clean(machine: &Machine) -> bool
    ensures { (s : State) → Shows machine.now s → IsTrue result ↔ NoUse s.events }
{
    first_use(machine.groups()).is_none()
}
