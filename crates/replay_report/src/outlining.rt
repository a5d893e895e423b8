//! The outline of a machine: what runs with the same outcome have in common.
ghost use Rattle.std.specs.Prelude.{◌≡◌, ◌++◌, ◌<◌, ◌≤◌, IfOk, OnOk, Some, map};
ghost use Rattle.std.specs.List.{flat_map};
ghost use Rattle.call_stacks.specs.Frames.{longest_trace};
ghost use Rattle.error_events.specs.Shown.{groups_of};
ghost use Rattle.error_events.specs.declared.event.Group.{Group};
ghost use Rattle.guest_machine.specs.State.{State};
ghost use Rattle.guest_machine.specs.Shows.{Shows};
ghost use Rattle.replay_report.specs.Outlines.{stop_place, end_line, told_trace, error_outline, leak_outline, outline_head, leak_outlines, outline_text, IsOutline};

use crate::filtering::told_groups;
use crate::findings::has_leak;
use crate::leak_lines::leak_text;
use crate::leaks::{BlockSum, LeakKey, is_shown, leak_groups, split_records};
use crate::options::{Options, View};
use error_events::{Group, Groups, Kind};
use guest_elf::Image;
use guest_machine::{Machine, Status, Stop};
use indexmap::IndexMap;
use leak_search::{LeakRecord, search};
use report_lines::{
    front, push_address, push_kind, push_number, push_output, push_text, push_trace, stop_word,
};
use std::alloc::{AllocError, Global};
use suppressions::Suppression;

/// Appends ` A`, where a machine stopped; nothing after a bad jump.
#[tactic(auto, unfolding(crate::specs::Outlines::stop_place), using(std::proofs::Common::append_assoc))]
fn push_stop_place(out: &mut Vec<u8>, stop: Stop, pc: u32) -> Result<(), AllocError>
    ensures { OnOk result (out.new.items ≡ out.old.items ++ stop_place stop pc) }
{
    match stop {
        Stop::Jump => Ok(()),
        Stop::Break | Stop::Illegal | Stop::Misaligned => {
            push_text(out, b" ")?;
            push_address(out, pc)
        }
    }
}

/// Appends `running`, `exited C`, `stopped W A` or `stopped jump`, where A is pc.
#[tactic(auto, unfolding(crate::specs::Outlines::end_line), using(std::proofs::Common::append_assoc))]
fn push_end(out: &mut Vec<u8>, status: Status, pc: u32) -> Result<(), AllocError>
    ensures { OnOk result (out.new.items ≡ out.old.items ++ end_line status pc) }
{
    match status {
        Status::Running => push_text(out, b"running")?,
        Status::Exited(code) => {
            push_text(out, b"exited ")?;
            push_number(out, u64::from(code))?;
        }
        Status::Stopped(stop) => {
            push_text(out, b"stopped ")?;
            push_text(out, stop_word(stop))?;
            push_stop_place(out, stop, pc)?;
        }
    }
    push_text(out, b"\n")
}

/// Returns the part of a trace that an outline shows; for a bad jump, all but the first address.
#[tactic(auto, unfolding(crate::specs::Outlines::told_trace))]
fn told_trace(kind: Kind, addresses: &[u32]) -> &[u32]
    ensures { result.now ≡ told_trace kind addresses.now }
{
    match (kind, addresses) {
        (Kind::Jump, [_first, callers @ ..]) => callers,
        _ => addresses,
    }
}

/// Appends the text of an error, and its trace.
#[tactic(auto, unfolding(crate::specs::Outlines::error_outline), using(std::proofs::Common::append_assoc))]
fn push_error(
    out: &mut Vec<u8>,
    image: &Image,
    callers: u32,
    group: &Group,
) -> Result<(), AllocError>
    ensures { OnOk result (out.new.items ≡ out.old.items ++ error_outline image.now callers group.now) }
{
    push_kind(out, group.kind)?;
    push_text(out, b"\n")?;
    let trace = front(group.trace.addresses(), callers);
    push_trace(out, image, told_trace(group.kind, trace))
}

/// Appends the text of an error, and its trace, if there is one.
fn push_error_at(
    out: &mut Vec<u8>,
    image: &Image,
    callers: u32,
    group: Option<Group>,
) -> Result<(), AllocError>
    ensures { OnOk result ((g : Group) → group ≡ Some g → out.new.items ≡ out.old.items ++ error_outline image.now callers g) }
{
    match group {
        Some(group) => push_error(out, image, callers, &group),
        None => Ok(()),
    }
}

/// Appends the errors, in their order.
fn push_errors(
    out: &mut Vec<u8>,
    image: &Image,
    callers: u32,
    groups: &Groups,
) -> Result<(), AllocError>
    ensures { OnOk result (out.new.items ≡ out.old.items ++ flat_map (error_outline image.now callers) (groups_of groups.now)) }
{
    for index in 0..groups.len() {
        push_error_at(out, image, callers, groups.get(index))?;
    }
    Ok(())
}

/// Appends how blocks were lost and where they were allocated, if their kind is shown.
#[tactic(auto, unfolding(crate::specs::Outlines::leak_outline), using(std::proofs::Common::append_assoc))]
fn push_leak(
    out: &mut Vec<u8>,
    image: &Image,
    show: &[bool; 4],
    key: &LeakKey,
) -> Result<(), AllocError>
    ensures { OnOk result (out.new.items ≡ out.old.items ++ leak_outline image.now show.now key.now) }
{
    if !is_shown(show, key.kind) {
        return Ok(());
    }
    push_text(out, leak_text(key.kind))?;
    push_text(out, b"\n")?;
    push_trace(out, image, key.trace.addresses())
}

/// Appends the leaks whose kind is shown, in their order.
fn push_leaks(
    out: &mut Vec<u8>,
    image: &Image,
    show: &[bool; 4],
    groups: &IndexMap<LeakKey, BlockSum>,
) -> Result<(), AllocError>
    ensures { OnOk result (out.new.items ≡ out.old.items ++ flat_map (leak_outline image.now show.now) (map (λ g. g.0) groups.now.entries)) }
{
    for key in groups.keys() {
        push_leak(out, image, show, key)?;
    }
    Ok(())
}

/// Appends the leaks, with these records of the live blocks.
#[tactic(auto, unfolding(crate::specs::Outlines::leak_outlines))]
fn push_leaks_of(
    alloc: Global,
    out: &mut Vec<u8>,
    view: &View,
    records: &[LeakRecord],
) -> Result<(), AllocError>
    requires { 0 < view.now.options.now.callers }
    ensures { OnOk result (out.new.items ≡ out.old.items ++ leak_outlines view.now.image.now view.now.suppressions.now view.now.options.now records.now) }
{
    // No names are looked up, and no groups made, of blocks that aren't shown.
    if !has_leak(records, &view.options.show) {
        return Ok(());
    }
    let (shown, _hidden) = split_records(alloc, records, view.image, view.suppressions)?;
    let groups = leak_groups(alloc, &shown, view.options.callers)?;
    push_leaks(out, view.image, &view.options.show, &groups)
}

/// Appends the lines before the errors.
#[tactic(auto, unfolding(crate::specs::Outlines::outline_head), using(std::proofs::Common::append_assoc))]
fn push_outline_head(
    out: &mut Vec<u8>,
    machine: &Machine,
    with_output: bool,
) -> Result<(), AllocError>
    ensures { OnOk result ((s : State) → Shows machine.now s → out.new.items ≡ out.old.items ++ outline_head s with_output) }
{
    push_end(out, machine.status(), machine.pc())?;
    if with_output {
        push_output(out, machine.output_len())?;
    }
    Ok(())
}

/// Appends the outline, with these records of the live blocks.
#[tactic(auto, unfolding(crate::specs::Outlines::outline_text), using(std::proofs::Common::append_assoc))]
fn push_outline(
    alloc: Global,
    out: &mut Vec<u8>,
    machine: &Machine,
    view: &View,
    with_output: bool,
    records: &[LeakRecord],
) -> Result<(), AllocError>
    requires { 0 < view.now.options.now.callers }
    ensures { OnOk result ((s : State) → Shows machine.now s → out.new.items ≡ out.old.items
        ++ outline_text s view.now.image.now view.now.suppressions.now view.now.options.now with_output records.now) }
{
    let callers = view.options.callers;
    push_outline_head(out, machine, with_output)?;
    let shown = told_groups(alloc, machine, view.image, view.suppressions, callers)?;
    push_errors(out, view.image, callers, &shown)?;
    push_leaks_of(alloc, out, view, records)
}

/// Returns the outline of a machine, with names from the image. It has how the machine ended, how many bytes were written if `with_output`
/// is true, and each error and each leak that the report shows, without counts, sizes and notes. `callers` of the options is from 1 to 24.
pub fn outline(
    alloc: Global,
    machine: &Machine,
    image: &Image,
    suppressions: &[Suppression],
    options: &Options,
    with_output: bool,
) -> Result<Vec<u8>, AllocError>
    requires some { 1 ≤ options.now.callers }
    requires few { options.now.callers ≤ longest_trace }
    ensures { IfOk result (λ text. (s : State) → Shows machine.now s
        → IsOutline s image.now suppressions.now options.now with_output text.items) }
{
    let records = search(alloc, machine)?;
    let view = View {
        image,
        suppressions,
        options,
    };
    let mut text = Vec::new(alloc);
    push_outline(alloc, &mut text, machine, &view, with_output, &records)?;
    Ok(text)
}
