//! The errors that are uses of bytes that may be any.
ghost use Rattle.std.specs.Prelude.{◌≡◌, find};
ghost use Rattle.error_events.specs.Shown.{groups_of};
ghost use Rattle.any_runs.specs.Echoes.{is_echo};
ghost use Rattle.any_verdicts.specs.Verdicts.{is_kept_use};

use clean_reports::is_use;
use error_events::{Group, Groups, Kind, Parameter, ParameterFault};

/// Returns whether an error is that of a write of undefined bytes.
fn is_echo(kind: Kind) -> bool
    ensures { result ≡ is_echo kind }
{
    matches!(
        kind,
        Kind::Param(Parameter::WriteBuffer, ParameterFault::Uninit)
    )
}

/// Returns whether an error is a use, other than that of a write of undefined bytes.
fn is_kept_use(kind: Kind) -> bool
    ensures { result ≡ is_kept_use kind }
{
    is_use(kind) && !is_echo(kind)
}

/// Returns the first group whose errors are such uses.
pub(crate) fn first_kept_use(groups: &Groups) -> Option<Group>
    ensures { result ≡ find (λ g. is_kept_use g.kind) (groups_of groups.now) }
{
    for index in 0..groups.len() {
        if let Some(group) = groups.get(index) {
            if is_kept_use(group.kind) {
                return Some(group);
            }
        }
    }
    None
}
