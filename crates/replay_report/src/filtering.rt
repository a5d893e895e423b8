//! Which errors are shown, and their groups.
ghost use Rattle.std.specs.Prelude.{◌≡◌, ◌<◌, IfOk, List, Some, length, map, not};
ghost use Rattle.error_events.specs.Groups.{grouped};
ghost use Rattle.error_events.specs.Regrouping.{regrouped};
ghost use Rattle.error_events.specs.declared.event.Event.{Event};
ghost use Rattle.error_events.specs.declared.event.Group.{Group};
ghost use Rattle.error_events.specs.Shown.{groups_of};
ghost use Rattle.guest_machine.specs.State.{State};
ghost use Rattle.guest_machine.specs.Shows.{Shows};
ghost use Rattle.report_lines.specs.Lines.{error_sum};
ghost use Rattle.replay_report.specs.Filtering.{names_of, hides, shown_groups, hidden_groups};

use error_events::laws::kept_by_test;
use error_events::{Group, Groups};
use guest_elf::Image;
use guest_machine::Machine;
use report_lines::{ErrorSum, error_sum};
use std::alloc::{AllocError, Global};
use suppressions::{Suppression, Target, is_suppressed};

/// Returns the names of a trace's addresses.
pub(crate) fn names_of<'a>(
    alloc: Global,
    image: &'a Image,
    trace: &[u32],
) -> Result<Vec<&'a [u8]>, AllocError>
    ensures { IfOk result (λ names. map (λ name. name.now) names.items ≡ names_of image.now trace.now) }
{
    let mut names = Vec::new(alloc);
    for addr in trace {
        names.push(image.name_of(*addr))?;
    }
    Ok(names)
}

/// Returns whether a group of errors is suppressed; `None` is no group.
fn hides(
    alloc: Global,
    suppressions: &[Suppression],
    image: &Image,
    group: Option<Group>,
) -> Result<bool, AllocError>
    ensures { IfOk result (λ hidden. (g : Group) → group ≡ Some g → hidden ≡ hides suppressions.now image.now g.kind g.trace) }
{
    match group {
        Some(group) => {
            let names = names_of(alloc, image, group.trace.addresses())?;
            Ok(is_suppressed(suppressions, &Target::Error(group.kind), &names))
        }
        None => Ok(false),
    }
}

/// Returns, for each group, whether it is suppressed.
fn hidden_of(
    alloc: Global,
    groups: &Groups,
    suppressions: &[Suppression],
    image: &Image,
) -> Result<Vec<bool>, AllocError>
    ensures { IfOk result (λ hidden. hidden.items ≡ map (λ g. hides suppressions.now image.now g.kind g.trace) (groups_of groups.now)) }
{
    let mut hidden = Vec::new(alloc);
    for i in 0..groups.len() {
        let hides = hides(alloc, suppressions, image, groups.get(i))?;
        hidden.push(hides)?;
    }
    Ok(hidden)
}

/// Returns the negation of each test.
fn turned(alloc: Global, tests: &[bool]) -> Result<Vec<bool>, AllocError>
    ensures { IfOk result (λ turned. turned.items ≡ map not tests.now) }
{
    tests.iter().map(|test| !*test).collect(alloc)
}

/// Returns the groups of the errors that are shown, given which groups are hidden.
fn shown_groups(
    alloc: Global,
    all: &Groups,
    callers: u32,
    hidden: &[bool],
) -> Result<Groups, AllocError>
    requires each { length hidden.now ≡ length (groups_of all.now) }
    requires some { 0 < callers }
    ensures { IfOk result (λ shown. (es : List Event) → groups_of all.now ≡ grouped es → groups_of shown ≡ regrouped callers (map not hidden.now) es) }
{
    let shown = turned(alloc, hidden)?;
    all.regrouped(callers, &shown)
}

/// Returns the groups of the errors that are shown.
pub(crate) fn told_groups(
    alloc: Global,
    machine: &Machine,
    image: &Image,
    suppressions: &[Suppression],
    callers: u32,
) -> Result<Groups, AllocError>
    requires { 0 < callers }
    ensures { IfOk result (λ shown. (s : State) → Shows machine.now s → groups_of shown ≡ shown_groups suppressions.now image.now callers s.events) }
{
    let groups = machine.groups();
    let suppressed = hidden_of(alloc, groups, suppressions, image)?;
    kept_by_test();
    shown_groups(alloc, groups, callers, &suppressed)
}

/// Returns the sum of the errors that are only counted, given which groups are hidden.
fn hidden_sum(all: &Groups, callers: u32, hidden: &[bool]) -> Result<ErrorSum, AllocError>
    requires each { length hidden.now ≡ length (groups_of all.now) }
    requires some { 0 < callers }
    ensures { IfOk result (λ sum. (es : List Event) → groups_of all.now ≡ grouped es → sum ≡ error_sum (regrouped callers hidden.now es)) }
{
    let groups = all.regrouped(callers, hidden)?;
    Ok(error_sum(&groups))
}

/// Returns the groups of the errors that are shown, and the sum of those that are only counted.
pub(crate) fn split_groups(
    alloc: Global,
    machine: &Machine,
    image: &Image,
    suppressions: &[Suppression],
    callers: u32,
) -> Result<(Groups, ErrorSum), AllocError>
    requires { 0 < callers }
    ensures shown { IfOk result (λ r. (s : State) → Shows machine.now s → groups_of r.0 ≡ shown_groups suppressions.now image.now callers s.events) }
    ensures hidden { IfOk result (λ r. (s : State) → Shows machine.now s → r.1 ≡ error_sum (hidden_groups suppressions.now image.now callers s.events)) }
{
    let groups = machine.groups();
    let hidden = hidden_of(alloc, groups, suppressions, image)?;
    kept_by_test();
    let sum = hidden_sum(groups, callers, &hidden)?;
    Ok((shown_groups(alloc, groups, callers, &hidden)?, sum))
}
