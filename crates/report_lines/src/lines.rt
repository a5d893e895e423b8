//! The lines of a report.
ghost use Rattle.std.specs.Prelude.{◌≡◌, ◌++◌, ◌+◌, ◌≤◌, ◌<◌, List, OnOk, Some, codes, min, take};
ghost use Rattle.std.specs.Fmt.{decimal};
ghost use Rattle.std.specs.List.{flat_map};
ghost use Rattle.report_lines.specs.Lines.{step_line, state_line, stop_word, input_line, output_line, fault_text, param_text, kind_text, error_line, frame_line, trace_lines, place_text, state_text, last_trace, near_front, near_back, near_line, note_lines, group_lines, error_total, error_sum, shown_summary, hidden_summary, summary_line};
ghost use Rattle.report_lines.specs.Text.{address_text, newline};
ghost use Rattle.error_events.specs.Groups.{most};
ghost use Rattle.error_events.specs.Shown.{groups_of};
ghost use Rattle.error_events.specs.declared.event.Group.{Group};

use crate::text::{push_address, push_name, push_number, push_text};
use call_stacks::{Block, Near, Place, Trace};
use error_events::{Group, Groups, Kind, Note, Parameter, ParameterFault};
use guest_elf::Image;
use run_values::{Status, Stop};
use std::alloc::AllocError;

/// Appends `step N`.
#[tactic(auto, unfolding(crate::specs::Lines::step_line), using(std::proofs::Common::append_assoc))]
pub fn push_step(out: &mut Vec<u8>, step: u32) -> Result<(), AllocError>
    ensures { OnOk result (out.new.items ≡ out.old.items ++ step_line step) }
{
    push_text(out, b"step ")?;
    push_number(out, u64::from(step))?;
    push_text(out, b"\n")
}

/// Returns why a machine stopped, in one word.
pub fn stop_word(stop: Stop) -> &'static [u8]
    ensures { result.now ≡ stop_word stop }
{
    match stop {
        Stop::Jump => b"jump",
        Stop::Break => b"break",
        Stop::Illegal => b"illegal",
        Stop::Misaligned => b"misaligned",
    }
}

/// Appends `state running A`.
#[tactic(auto, using(std::proofs::Common::append_assoc))]
fn push_running(out: &mut Vec<u8>, pc: u32) -> Result<(), AllocError>
    ensures { OnOk result (out.new.items ≡ out.old.items ++ (codes "state running " ++ address_text pc ++ newline)) }
{
    push_text(out, b"state running ")?;
    push_address(out, pc)?;
    push_text(out, b"\n")
}

/// Appends `state exited C`.
#[tactic(auto, using(std::proofs::Common::append_assoc))]
fn push_exited(out: &mut Vec<u8>, code: u8) -> Result<(), AllocError>
    ensures { OnOk result (out.new.items ≡ out.old.items ++ (codes "state exited " ++ decimal code ++ newline)) }
{
    push_text(out, b"state exited ")?;
    push_number(out, u64::from(code))?;
    push_text(out, b"\n")
}

/// Appends `state stopped W A`.
#[tactic(auto, using(std::proofs::Common::append_assoc))]
fn push_stopped(out: &mut Vec<u8>, stop: Stop, pc: u32) -> Result<(), AllocError>
    ensures { OnOk result (out.new.items ≡ out.old.items ++ (codes "state stopped " ++ stop_word stop ++ codes " " ++ address_text pc ++ newline)) }
{
    push_text(out, b"state stopped ")?;
    push_text(out, stop_word(stop))?;
    push_text(out, b" ")?;
    push_address(out, pc)?;
    push_text(out, b"\n")
}

/// Appends the line `state running A`, `state exited C` or `state stopped W A`, where A is pc.
#[tactic(auto, unfolding(crate::specs::Lines::state_line))]
pub fn push_state(out: &mut Vec<u8>, status: Status, pc: u32) -> Result<(), AllocError>
    ensures { OnOk result (out.new.items ≡ out.old.items ++ state_line status pc) }
{
    match status {
        Status::Running => push_running(out, pc),
        Status::Exited(code) => push_exited(out, code),
        Status::Stopped(stop) => push_stopped(out, stop, pc),
    }
}

/// Appends `input P of L`, in bytes.
#[tactic(auto, unfolding(crate::specs::Lines::input_line), using(std::proofs::Common::append_assoc))]
pub fn push_input(out: &mut Vec<u8>, position: u64, len: u64) -> Result<(), AllocError>
    ensures { OnOk result (out.new.items ≡ out.old.items ++ input_line position len) }
{
    push_text(out, b"input ")?;
    push_number(out, position)?;
    push_text(out, b" of ")?;
    push_number(out, len)?;
    push_text(out, b"\n")
}

/// Appends `output W`, in bytes.
#[tactic(auto, unfolding(crate::specs::Lines::output_line), using(std::proofs::Common::append_assoc))]
pub fn push_output(out: &mut Vec<u8>, n: u64) -> Result<(), AllocError>
    ensures { OnOk result (out.new.items ≡ out.old.items ++ output_line n) }
{
    push_text(out, b"output ")?;
    push_number(out, n)?;
    push_text(out, b"\n")
}

/// Returns what is wrong with a parameter.
fn fault_text(fault: ParameterFault) -> &'static [u8]
    ensures { result.now ≡ fault_text fault }
{
    match fault {
        ParameterFault::Contains => b" contains uninitialised byte(s)",
        ParameterFault::Uninit => b" points to uninitialised byte(s)",
        ParameterFault::Unaddressable => b" points to unaddressable byte(s)",
    }
}

/// Appends the text of an error of a parameter.
#[tactic(auto, unfolding(crate::specs::Lines::param_text), using(std::proofs::Common::append_assoc))]
fn push_param(
    out: &mut Vec<u8>,
    parameter: Parameter,
    fault: ParameterFault,
) -> Result<(), AllocError>
    ensures { OnOk result (out.new.items ≡ out.old.items ++ param_text parameter fault) }
{
    push_text(out, b"Syscall param ")?;
    push_text(out, parameter.text())?;
    push_text(out, fault_text(fault))?;
    Ok(())
}

/// Appends bytes and a number.
#[tactic(auto, using(std::proofs::Common::append_assoc))]
fn push_sized(out: &mut Vec<u8>, text: &[u8], n: u8) -> Result<(), AllocError>
    ensures { OnOk result (out.new.items ≡ out.old.items ++ (text.now ++ decimal n)) }
{
    push_text(out, text)?;
    push_number(out, u64::from(n))
}

/// Appends the text of an error.
#[tactic(auto, unfolding(crate::specs::Lines::kind_text))]
pub fn push_kind(out: &mut Vec<u8>, kind: Kind) -> Result<(), AllocError>
    ensures { OnOk result (out.new.items ≡ out.old.items ++ kind_text kind) }
{
    match kind {
        Kind::Read(n) => push_sized(out, b"Invalid read of size ", n),
        Kind::Write(n) => push_sized(out, b"Invalid write of size ", n),
        Kind::Value => push_text(out, b"Use of uninitialised value of size 4"),
        Kind::Cond => push_text(
            out,
            b"Conditional jump or move depends on uninitialised value(s)",
        ),
        Kind::Param(parameter, fault) => push_param(out, parameter, fault),
        Kind::Free => push_text(out, b"Invalid free() / realloc()"),
        Kind::Jump => push_text(out, b"Jump to the invalid address stated on the next line"),
    }
}

/// Appends `error COUNT: TEXT`.
#[tactic(auto, unfolding(crate::specs::Lines::error_line), using(std::proofs::Common::append_assoc))]
fn push_error(out: &mut Vec<u8>, count: u64, kind: Kind) -> Result<(), AllocError>
    ensures { OnOk result (out.new.items ≡ out.old.items ++ error_line count kind) }
{
    push_text(out, b"error ")?;
    push_number(out, count)?;
    push_text(out, b": ")?;
    push_kind(out, kind)?;
    push_text(out, b"\n")
}

/// Appends an address of a trace, after `at` or `by`, with its name.
#[tactic(auto, unfolding(crate::specs::Lines::frame_line), using(std::proofs::Common::append_assoc))]
fn push_frame(out: &mut Vec<u8>, word: &[u8], image: &Image, addr: u32) -> Result<(), AllocError>
    ensures { OnOk result (out.new.items ≡ out.old.items ++ frame_line word.now image.now addr) }
{
    push_text(out, b"   ")?;
    push_text(out, word)?;
    push_text(out, b" ")?;
    push_address(out, addr)?;
    push_text(out, b": ")?;
    push_name(out, image.name_of(addr))?;
    push_text(out, b"\n")
}

/// Appends the addresses of a trace after the first.
fn push_callers(out: &mut Vec<u8>, image: &Image, callers: &[u32]) -> Result<(), AllocError>
    ensures { OnOk result (out.new.items ≡ out.old.items ++ flat_map (frame_line (codes "by") image.now) callers.now) }
{
    for addr in callers {
        push_frame(out, b"by", image, *addr)?;
    }
    Ok(())
}

/// Appends the addresses of a trace, one line each.
#[tactic(auto, unfolding(crate::specs::Lines::trace_lines), using(std::proofs::Common::append_assoc))]
pub fn push_trace(out: &mut Vec<u8>, image: &Image, addresses: &[u32]) -> Result<(), AllocError>
    ensures { OnOk result (out.new.items ≡ out.old.items ++ trace_lines image.now addresses.now) }
{
    match addresses {
        [] => Ok(()),
        [first, callers @ ..] => {
            push_frame(out, b"at", image, *first)?;
            push_callers(out, image, callers)
        }
    }
}

/// Returns the first `n` elements, or all if there are fewer.
pub fn front(addresses: &[u32], n: u32) -> &[u32]
    ensures { result.now ≡ take n addresses.now }
{
    let n = (n as usize).min(addresses.len());
    &addresses[..n]
}

/// Returns on which side of a block an address lies.
fn place_text(place: Place) -> &'static [u8]
    ensures { result.now ≡ place_text place }
{
    match place {
        Place::Before => b" bytes before",
        Place::Inside => b" bytes inside",
        Place::After => b" bytes after",
    }
}

/// Returns whether a block is live.
fn state_text(freed: Option<Trace>) -> &'static [u8]
    ensures { result.now ≡ state_text freed }
{
    match freed {
        None => b" alloc'd",
        Some(_) => b" free'd",
    }
}

/// Returns where a block was freed or, if it is live, where it was allocated.
fn last_trace(block: &Block) -> Trace
    ensures { result ≡ last_trace block.now }
{
    block.freed.unwrap_or(block.trace)
}

/// Appends ` Address A is I bytes inside`.
#[tactic(auto, unfolding(crate::specs::Lines::near_front), using(std::proofs::Common::append_assoc))]
fn push_near_front(out: &mut Vec<u8>, addr: u32, near: &Near) -> Result<(), AllocError>
    ensures { OnOk result (out.new.items ≡ out.old.items ++ near_front addr near.now) }
{
    push_text(out, b" Address ")?;
    push_address(out, addr)?;
    push_text(out, b" is ")?;
    push_number(out, u64::from(near.distance))?;
    push_text(out, place_text(near.place))
}

/// Appends ` a block of size S alloc'd`.
#[tactic(auto, unfolding(crate::specs::Lines::near_back), using(std::proofs::Common::append_assoc))]
fn push_near_back(out: &mut Vec<u8>, block: &Block) -> Result<(), AllocError>
    ensures { OnOk result (out.new.items ≡ out.old.items ++ near_back block.now) }
{
    push_text(out, b" a block of size ")?;
    push_number(out, u64::from(block.size))?;
    push_text(out, state_text(block.freed))?;
    push_text(out, b"\n")?;
    Ok(())
}

/// Appends the note on an address in a block, or near one.
#[tactic(auto, using(std::proofs::Common::append_assoc))]
fn push_near(
    out: &mut Vec<u8>,
    image: &Image,
    callers: u32,
    addr: u32,
    near: &Near,
) -> Result<(), AllocError>
    ensures { OnOk result (out.new.items ≡ out.old.items ++ (near_line addr near.now ++ trace_lines image.now (take callers (last_trace near.now.block)))) }
{
    push_near_front(out, addr, near)?;
    push_near_back(out, &near.block)?;
    let trace = last_trace(&near.block);
    push_trace(out, image, front(trace.addresses(), callers))
}

/// Appends ` Address A`, and a text about it.
#[tactic(auto, using(std::proofs::Common::append_assoc))]
fn push_about(out: &mut Vec<u8>, addr: u32, text: &[u8]) -> Result<(), AllocError>
    ensures { OnOk result (out.new.items ≡ out.old.items ++ (codes " Address " ++ address_text addr ++ text.now ++ newline)) }
{
    push_text(out, b" Address ")?;
    push_address(out, addr)?;
    push_text(out, text)?;
    push_text(out, b"\n")
}

/// Appends the lines of a note, if it has any.
#[tactic(auto, unfolding(crate::specs::Lines::note_lines))]
fn push_note(out: &mut Vec<u8>, image: &Image, callers: u32, note: &Note) -> Result<(), AllocError>
    ensures { OnOk result (out.new.items ≡ out.old.items ++ note_lines image.now callers note.now) }
{
    match note {
        Note::Absent => Ok(()),
        Note::Near(addr, near) => push_near(out, image, callers, *addr, near),
        Note::Stack(addr) => push_about(out, *addr, b" is in the stack region"),
        Note::Elsewhere(addr) => {
            push_about(
                out,
                *addr,
                b" is not stack'd, malloc'd or (recently) free'd",
            )
        }
    }
}

/// Appends a group of errors, with at most `callers` addresses of its trace.
#[tactic(auto, unfolding(crate::specs::Lines::group_lines), using(std::proofs::Common::append_assoc))]
fn push_group(
    out: &mut Vec<u8>,
    image: &Image,
    callers: u32,
    group: &Group,
) -> Result<(), AllocError>
    ensures { OnOk result (out.new.items ≡ out.old.items ++ group_lines image.now callers group.now) }
{
    push_error(out, group.count, group.kind)?;
    push_trace(out, image, front(group.trace.addresses(), callers))?;
    push_note(out, image, callers, &group.note)
}

/// Appends a group of errors, if there is one.
fn push_group_at(
    out: &mut Vec<u8>,
    image: &Image,
    callers: u32,
    group: Option<Group>,
) -> Result<(), AllocError>
    ensures { OnOk result ((g : Group) → group ≡ Some g → out.new.items ≡ out.old.items ++ group_lines image.now callers g) }
{
    match group {
        Some(group) => push_group(out, image, callers, &group),
        None => Ok(()),
    }
}

/// Appends the groups of errors, in their order.
pub fn push_groups(
    out: &mut Vec<u8>,
    image: &Image,
    callers: u32,
    groups: &Groups,
) -> Result<(), AllocError>
    ensures { OnOk result (out.new.items ≡ out.old.items ++ flat_map (group_lines image.now callers) (groups_of groups.now)) }
{
    for index in 0..groups.len() {
        push_group_at(out, image, callers, groups.get(index))?;
    }
    Ok(())
}

/// Returns a number of errors plus those of a group, if there is one; at most the greatest `u64`.
fn with_errors_of(total: u64, group: Option<Group>) -> u64
    ensures { (g : Group) → group ≡ Some g → result ≡ min (total + g.count) most }
{
    match group {
        Some(group) => total.saturating_add(group.count),
        None => total,
    }
}

/// Returns the number of errors, at most the greatest `u64`.
fn error_total(groups: &Groups) -> u64
    ensures { result ≡ error_total (groups_of groups.now) }
{
    let mut total: u64 = 0;
    for index in 0..groups.len() {
        total = with_errors_of(total, groups.get(index));
    }
    total
}

/// The sum of groups, as the summary has it.
#[derive(Clone, Copy)]
pub struct ErrorSum {
    /// The number of errors, at most the greatest `u64`.
    pub errors: u64,
    /// The number of groups.
    pub groups: usize,
}

/// Returns the sum of groups.
pub fn error_sum(groups: &Groups) -> ErrorSum
    ensures { result ≡ error_sum (groups_of groups.now) }
{
    ErrorSum {
        errors: error_total(groups),
        groups: groups.len(),
    }
}

/// Appends `ERROR SUMMARY: E errors from C contexts`.
fn push_shown_summary(out: &mut Vec<u8>, sum: ErrorSum) -> Result<(), AllocError>
    ensures { OnOk result ((gs : List Group) → sum ≡ error_sum gs → out.new.items ≡ out.old.items ++ shown_summary gs) }
{
    push_text(out, b"ERROR SUMMARY: ")?;
    push_number(out, sum.errors)?;
    push_text(out, b" errors from ")?;
    push_number(out, sum.groups as u64)?;
    push_text(out, b" contexts")?;
    Ok(())
}

/// Appends ` (suppressed: E2 from C2)`.
fn push_hidden_summary(out: &mut Vec<u8>, sum: ErrorSum) -> Result<(), AllocError>
    ensures { OnOk result ((gs : List Group) → sum ≡ error_sum gs → out.new.items ≡ out.old.items ++ hidden_summary gs) }
{
    push_text(out, b" (suppressed: ")?;
    push_number(out, sum.errors)?;
    push_text(out, b" from ")?;
    push_number(out, sum.groups as u64)?;
    push_text(out, b")")?;
    push_text(out, b"\n")?;
    Ok(())
}

/// Appends the summary: the numbers of errors shown and suppressed, each with the number of groups.
pub fn push_summary(out: &mut Vec<u8>, shown: ErrorSum, hidden: ErrorSum) -> Result<(), AllocError>
    ensures { OnOk result ((gs hs : List Group) → shown ≡ error_sum gs → hidden ≡ error_sum hs
        → out.new.items ≡ out.old.items ++ summary_line gs hs) }
{
    push_shown_summary(out, shown)?;
    push_hidden_summary(out, hidden)
}
