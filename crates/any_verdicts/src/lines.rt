//! The line of a verdict.
ghost use Rattle.std.specs.Prelude.{◌≡◌, ◌++◌, OnOk};
ghost use Rattle.any_verdicts.specs.Lines.{any_line, at_text, bytes_text, closed_text, input_text, memory_text, no_front, no_line, no_subject, no_text, positions_text, ranges_text, read_front, read_step, read_text, reveal_text, revealed_at, revealed_len, revealed_step, revealed_text, same_end, same_front, same_line, shut_front, shut_text, subject_text, unread_at, unread_end, unread_front, unread_line, use_kind, use_step, use_text, value_text, values_text};

use crate::any_bytes::Reveal;
use crate::chosen::Chosen;
use crate::verdict::{AnyVerdict, Closed};
use clean_reports::{FirstUse, push_trace};
use error_events::Kind;
use guest_elf::Image;
use report_lines::{push_address, push_kind, push_number, push_text};
use run_values::Span;
use std::alloc::AllocError;

/// Appends positions of the input, with both ends.
#[tactic(auto, unfolding(crate::specs::Lines::positions_text), using(std::proofs::Common::append_assoc))]
fn push_positions(out: &mut Vec<u8>, first: u64, last: u64) -> Result<(), AllocError>
    ensures { OnOk result (out.new.items ≡ out.old.items ++ positions_text first last) }
{
    push_number(out, first)?;
    if first == last {
        return Ok(());
    }
    push_text(out, b"..")?;
    push_number(out, last)
}

/// Appends a range of the input.
fn push_input(out: &mut Vec<u8>, start: u32, len: u32) -> Result<(), AllocError>
    ensures { OnOk result (out.new.items ≡ out.old.items ++ input_text start len) }
{
    let end = u64::from(start) + u64::from(len);
    push_positions(out, u64::from(start), end.saturating_sub(1))
}

/// Appends a range of memory.
#[tactic(auto, unfolding(crate::specs::Lines::memory_text), using(std::proofs::Common::append_assoc))]
fn push_memory(out: &mut Vec<u8>, start: u32, len: u32) -> Result<(), AllocError>
    ensures { OnOk result (out.new.items ≡ out.old.items ++ memory_text start len) }
{
    push_text(out, b"memory ")?;
    push_address(out, start)?;
    push_text(out, b"..")?;
    push_address(out, start.wrapping_add(len))
}

/// Appends the ranges that are chosen.
#[tactic(auto, using(std::proofs::Common::append_assoc))]
fn push_ranges(
    out: &mut Vec<u8>,
    input: Option<Span>,
    memory: Option<Span>,
) -> Result<(), AllocError>
    ensures { OnOk result (out.new.items ≡ out.old.items ++ ranges_text input memory) }
{
    match (input, memory) {
        (Some(input), Some(memory)) => {
            push_input(out, input.start, input.len)?;
            push_text(out, b", ")?;
            push_memory(out, memory.start, memory.len)
        }
        (Some(input), None) => push_input(out, input.start, input.len),
        (None, Some(memory)) => push_memory(out, memory.start, memory.len),
        (None, None) => Ok(()),
    }
}

/// Appends what a verdict is about.
#[tactic(auto, unfolding(crate::specs::Lines::subject_text), using(std::proofs::Common::append_assoc))]
fn push_subject(out: &mut Vec<u8>, chosen: &Chosen) -> Result<(), AllocError>
    ensures { OnOk result (out.new.items ≡ out.old.items ++ subject_text chosen.now) }
{
    push_text(out, b"any ")?;
    push_ranges(out, chosen.input, chosen.memory)
}

/// Returns what these bytes are.
fn bytes_text(input: Option<Span>, memory: Option<Span>) -> &'static [u8]
    ensures { result.now ≡ bytes_text input memory }
{
    match (input, memory) {
        (Some(_), Some(_)) | (None, None) => b"these bytes",
        (Some(input), None) => {
            if input.len == 1 {
                b"this byte of the input"
            } else {
                b"these bytes of the input"
            }
        }
        (None, Some(_)) => b"these bytes of memory",
    }
}

/// Appends how many bytes are revealed.
#[tactic(auto, unfolding(crate::specs::Lines::revealed_len), using(std::proofs::Common::append_assoc))]
fn push_revealed_len(out: &mut Vec<u8>, len: u32) -> Result<(), AllocError>
    ensures { OnOk result (out.new.items ≡ out.old.items ++ revealed_len len) }
{
    push_text(out, b" that leaves the same ")?;
    push_number(out, u64::from(len))
}

/// Appends where they are.
fn push_revealed_at(out: &mut Vec<u8>, start: u32) -> Result<(), AllocError>
    ensures { OnOk result (out.new.items ≡ out.old.items ++ revealed_at start) }
{
    push_text(out, b" defined bytes at ")?;
    push_address(out, start)
}

/// Appends when.
#[tactic(auto, unfolding(crate::specs::Lines::revealed_step), using(std::proofs::Common::append_assoc))]
fn push_revealed_step(out: &mut Vec<u8>, step: u32) -> Result<(), AllocError>
    ensures { OnOk result (out.new.items ≡ out.old.items ++ revealed_step step) }
{
    push_text(out, b" before step ")?;
    push_number(out, u64::from(step))
}

/// Appends what is revealed of them.
#[tactic(auto, unfolding(crate::specs::Lines::revealed_text), using(std::proofs::Common::append_assoc))]
fn push_revealed(out: &mut Vec<u8>, step: u32, start: u32, len: u32) -> Result<(), AllocError>
    ensures { OnOk result (out.new.items ≡ out.old.items ++ revealed_text step start len) }
{
    push_revealed_len(out, len)?;
    push_revealed_at(out, start)?;
    push_revealed_step(out, step)
}

/// Appends that, if something is.
fn push_reveal(out: &mut Vec<u8>, reveal: Option<Reveal>) -> Result<(), AllocError>
    ensures { OnOk result (out.new.items ≡ out.old.items ++ reveal_text reveal) }
{
    match reveal {
        Some(reveal) => push_revealed(out, reveal.step, reveal.span.start, reveal.span.len),
        None => Ok(()),
    }
}

/// Appends up to which step a run is the same.
#[tactic(auto, unfolding(crate::specs::Lines::same_front), using(std::proofs::Common::append_assoc))]
fn push_same_front(out: &mut Vec<u8>, chosen: &Chosen, step: u32) -> Result<(), AllocError>
    ensures { OnOk result (out.new.items ≡ out.old.items ++ same_front chosen.now step) }
{
    push_subject(out, chosen)?;
    push_text(out, b": the run is the same up to step ")?;
    push_number(out, u64::from(step))
}

/// Appends which bytes may be any.
#[tactic(auto, unfolding(crate::specs::Lines::value_text), using(std::proofs::Common::append_assoc))]
fn push_value(
    out: &mut Vec<u8>,
    input: Option<Span>,
    memory: Option<Span>,
) -> Result<(), AllocError>
    ensures { OnOk result (out.new.items ≡ out.old.items ++ value_text input memory) }
{
    push_text(out, b" for each value of ")?;
    push_text(out, bytes_text(input, memory))
}

/// Appends for which values a run is the same.
#[tactic(auto, unfolding(crate::specs::Lines::values_text), using(std::proofs::Common::append_assoc))]
fn push_values(out: &mut Vec<u8>, chosen: &Chosen) -> Result<(), AllocError>
    ensures { OnOk result (out.new.items ≡ out.old.items ++ values_text chosen.now) }
{
    push_value(out, chosen.input, chosen.memory)?;
    push_reveal(out, chosen.reveal)
}

/// Returns what is the same, by whether the run has ended.
fn same_end(ended: bool) -> &'static [u8]
    ensures { result.now ≡ same_end ended }
{
    if ended {
        b": same instructions, same addresses, same status, same errors but for writes of uninitialised bytes\n"
    } else {
        b": same instructions, same addresses, same status, same errors but for writes of uninitialised bytes; the run goes on\n"
    }
}

/// Appends positions that aren't read.
#[tactic(auto, unfolding(crate::specs::Lines::unread_front), using(std::proofs::Common::append_assoc))]
fn push_unread_front(out: &mut Vec<u8>, first: u64, last: u64) -> Result<(), AllocError>
    ensures { OnOk result (out.new.items ≡ out.old.items ++ unread_front first last) }
{
    push_text(out, b" input ")?;
    push_positions(out, first, last)
}

/// Appends up to which step.
#[tactic(auto, unfolding(crate::specs::Lines::unread_end), using(std::proofs::Common::append_assoc))]
fn push_unread_end(out: &mut Vec<u8>, step: u32) -> Result<(), AllocError>
    ensures { OnOk result (out.new.items ≡ out.old.items ++ unread_end step) }
{
    push_text(out, b" is not read up to step ")?;
    push_number(out, u64::from(step))
}

/// Appends a line on positions that aren't read.
#[tactic(auto, unfolding(crate::specs::Lines::unread_line), using(std::proofs::Common::append_assoc))]
fn push_unread_line(out: &mut Vec<u8>, first: u64, last: u64, step: u32) -> Result<(), AllocError>
    ensures { OnOk result (out.new.items ≡ out.old.items ++ unread_line first last step) }
{
    push_unread_front(out, first, last)?;
    push_unread_end(out, step)?;
    push_text(out, b"\n")
}

/// Appends which positions of a range aren't among the first that are read, if some aren't.
fn push_unread(
    out: &mut Vec<u8>,
    start: u32,
    len: u32,
    read: u64,
    step: u32,
) -> Result<(), AllocError>
    ensures { OnOk result (out.new.items ≡ out.old.items ++ unread_at start len read step) }
{
    let start = u64::from(start);
    let end = start + u64::from(len);
    if read < end {
        push_unread_line(out, read.max(start), end.saturating_sub(1), step)
    } else {
        Ok(())
    }
}

/// Appends that a run is the same.
#[tactic(auto, unfolding(crate::specs::Lines::same_line), using(std::proofs::Common::append_assoc))]
fn push_same(
    out: &mut Vec<u8>,
    chosen: &Chosen,
    step: u32,
    ended: bool,
    read: u64,
) -> Result<(), AllocError>
    ensures { OnOk result (out.new.items ≡ out.old.items ++ same_line chosen.now step ended read) }
{
    push_same_front(out, chosen, step)?;
    push_values(out, chosen)?;
    push_text(out, same_end(ended))?;
    match chosen.input {
        Some(input) => push_unread(out, input.start, input.len, read, step),
        None => Ok(()),
    }
}

/// Appends of what a run isn't the same.
#[tactic(auto, unfolding(crate::specs::Lines::no_subject), using(std::proofs::Common::append_assoc))]
fn push_no_subject(out: &mut Vec<u8>, chosen: &Chosen) -> Result<(), AllocError>
    ensures { OnOk result (out.new.items ≡ out.old.items ++ no_subject chosen.now) }
{
    push_text(out, b"not the same for ")?;
    push_subject(out, chosen)
}

/// The same, with a colon.
#[tactic(auto, unfolding(crate::specs::Lines::no_front), using(std::proofs::Common::append_assoc))]
fn push_no_front(out: &mut Vec<u8>, chosen: &Chosen) -> Result<(), AllocError>
    ensures { OnOk result (out.new.items ≡ out.old.items ++ no_front chosen.now) }
{
    push_no_subject(out, chosen)?;
    push_text(out, b": ")
}

/// Appends the step of a first use.
#[tactic(auto, unfolding(crate::specs::Lines::use_step), using(std::proofs::Common::append_assoc))]
fn push_use_step(out: &mut Vec<u8>, step: u32) -> Result<(), AllocError>
    ensures { OnOk result (out.new.items ≡ out.old.items ++ use_step step) }
{
    push_text(out, b"first use at step ")?;
    push_number(out, u64::from(step))
}

/// Appends its kind.
#[tactic(auto, unfolding(crate::specs::Lines::use_kind), using(std::proofs::Common::append_assoc))]
fn push_use_kind(out: &mut Vec<u8>, kind: Kind) -> Result<(), AllocError>
    ensures { OnOk result (out.new.items ≡ out.old.items ++ use_kind kind) }
{
    push_text(out, b": ")?;
    push_kind(out, kind)
}

/// Appends a first use.
#[tactic(auto, unfolding(crate::specs::Lines::use_text), using(std::proofs::Common::append_assoc))]
fn push_use(out: &mut Vec<u8>, image: &Image, found: &FirstUse) -> Result<(), AllocError>
    ensures { OnOk result (out.new.items ≡ out.old.items ++ use_text image.now found.now) }
{
    push_use_step(out, found.step)?;
    push_use_kind(out, found.kind)?;
    push_trace(out, image, found.trace.addresses())
}

/// Appends what happens at a step.
#[tactic(auto, unfolding(crate::specs::Lines::at_text), using(std::proofs::Common::append_assoc))]
fn push_at(out: &mut Vec<u8>, step: u32, text: &[u8]) -> Result<(), AllocError>
    ensures { OnOk result (out.new.items ≡ out.old.items ++ at_text step text.now) }
{
    push_text(out, b"at step ")?;
    push_number(out, u64::from(step))?;
    push_text(out, b": ")?;
    push_text(out, text)
}

/// Appends the position of a byte of the input.
#[tactic(auto, unfolding(crate::specs::Lines::read_front), using(std::proofs::Common::append_assoc))]
fn push_read_front(out: &mut Vec<u8>, position: u64) -> Result<(), AllocError>
    ensures { OnOk result (out.new.items ≡ out.old.items ++ read_front position) }
{
    push_text(out, b"input ")?;
    push_number(out, position)
}

/// Appends when it is read.
#[tactic(auto, unfolding(crate::specs::Lines::read_step), using(std::proofs::Common::append_assoc))]
fn push_read_step(out: &mut Vec<u8>, step: u32) -> Result<(), AllocError>
    ensures { OnOk result (out.new.items ≡ out.old.items ++ read_step step) }
{
    push_text(out, b" is read at step ")?;
    push_number(out, u64::from(step))
}

/// Appends which byte of the input is read to where it may not be accessed.
#[tactic(auto, unfolding(crate::specs::Lines::read_text), using(std::proofs::Common::append_assoc))]
fn push_read(out: &mut Vec<u8>, step: u32, position: u64) -> Result<(), AllocError>
    ensures { OnOk result (out.new.items ≡ out.old.items ++ read_text step position) }
{
    push_read_front(out, position)?;
    push_read_step(out, step)?;
    push_text(out, b" into bytes that may not be accessed")
}

/// Appends that an address may not be accessed.
#[tactic(auto, unfolding(crate::specs::Lines::shut_front), using(std::proofs::Common::append_assoc))]
fn push_shut_front(out: &mut Vec<u8>, addr: u32) -> Result<(), AllocError>
    ensures { OnOk result (out.new.items ≡ out.old.items ++ shut_front addr) }
{
    push_address(out, addr)?;
    push_text(out, b" may not be accessed at step ")
}

/// Appends at which step that is.
#[tactic(auto, unfolding(crate::specs::Lines::shut_text), using(std::proofs::Common::append_assoc))]
fn push_shut(out: &mut Vec<u8>, addr: u32, step: u32) -> Result<(), AllocError>
    ensures { OnOk result (out.new.items ≡ out.old.items ++ shut_text addr step) }
{
    push_shut_front(out, addr)?;
    push_number(out, u64::from(step))
}

/// Appends which byte may not be accessed.
fn push_closed(out: &mut Vec<u8>, byte: &Closed) -> Result<(), AllocError>
    ensures { OnOk result (out.new.items ≡ out.old.items ++ closed_text byte.now) }
{
    match byte {
        Closed::Input { step, position } => push_read(out, *step, *position),
        Closed::Memory(addr) => push_shut(out, *addr, 0),
        Closed::Revealed { step, addr } => push_shut(out, *addr, *step),
    }
}

/// Appends what depends on the bytes first.
fn push_no(out: &mut Vec<u8>, image: &Image, verdict: &AnyVerdict) -> Result<(), AllocError>
    ensures { OnOk result (out.new.items ≡ out.old.items ++ no_text image.now verdict.now) }
{
    match verdict {
        AnyVerdict::Same { .. } => Ok(()),
        AnyVerdict::Use(found) => push_use(out, image, found),
        AnyVerdict::StackPointer(step) => {
            push_at(out, *step, b"the stack pointer may depend on them")
        }
        AnyVerdict::Write(step) => push_at(
            out,
            *step,
            b"a write has a byte that may not be accessed behind one that depends on them",
        ),
        AnyVerdict::Closed(byte) => push_closed(out, byte),
    }
}

/// Appends a whole line on a run that may not be the same.
#[tactic(auto, unfolding(crate::specs::Lines::no_line), using(std::proofs::Common::append_assoc))]
fn push_no_line(
    out: &mut Vec<u8>,
    image: &Image,
    chosen: &Chosen,
    verdict: &AnyVerdict,
) -> Result<(), AllocError>
    ensures { OnOk result (out.new.items ≡ out.old.items ++ no_line chosen.now (no_text image.now verdict.now)) }
{
    push_no_front(out, chosen)?;
    push_no(out, image, verdict)?;
    push_text(out, b"\n")
}

/// Appends the line of the verdict on a run of a program up to a step, for every value of the bytes that are chosen; and a second line
/// where some of them aren't read.
pub fn push_any_verdict(
    out: &mut Vec<u8>,
    image: &Image,
    chosen: &Chosen,
    step: u32,
    verdict: &AnyVerdict,
) -> Result<(), AllocError>
    ensures { OnOk result (out.new.items ≡ out.old.items ++ any_line image.now chosen.now step verdict.now) }
{
    match verdict {
        AnyVerdict::Same { ended, read } => push_same(out, chosen, step, *ended, *read),
        _ => push_no_line(out, image, chosen, verdict),
    }
}
