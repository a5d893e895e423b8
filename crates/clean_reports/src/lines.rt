//! The line of a verdict.
ghost use Rattle.std.specs.Prelude.{◌≡◌, ◌++◌, OnOk, codes};
ghost use Rattle.std.specs.List.{flat_map};
ghost use Rattle.clean_reports.specs.Lines.{caller_text, act_text, clean_end, clean_front, clean_line, mark_front, mark_line, range_kind_text, range_text, trace_text, use_front, use_line, verdict_line};

use crate::verdict::{FirstUse, Verdict};
use guest_elf::Image;
use guest_machine::{Act, Alteration};
use report_lines::{push_address, push_kind, push_name, push_number, push_text};
use shadow_memory::RangeKind;
use std::alloc::AllocError;

/// Returns how the line of a clean run begins, by whether the run has ended.
fn clean_front(ended: bool) -> &'static [u8]
    ensures { result.now ≡ clean_front ended }
{
    if ended {
        b"clean to step "
    } else {
        b"clean up to step "
    }
}

/// Returns how it ends.
fn clean_end(ended: bool) -> &'static [u8]
    ensures { result.now ≡ clean_end ended }
{
    if ended {
        b"on this run\n"
    } else {
        b"on the run up to there; the run goes on\n"
    }
}

/// Appends that a run is clean, by whether it has ended.
#[tactic(auto, unfolding(crate::specs::Lines::clean_line), using(std::proofs::Common::append_assoc))]
fn push_clean(out: &mut Vec<u8>, step: u32, ended: bool) -> Result<(), AllocError>
    ensures { OnOk result (out.new.items ≡ out.old.items ++ clean_line step ended) }
{
    push_text(out, clean_front(ended))?;
    push_number(out, u64::from(step))?;
    push_text(
        out,
        b": nothing that uninitialised, freed or unmapped memory holds has any influence ",
    )?;
    push_text(out, clean_end(ended))
}

/// Returns the kind of a mark as a line of a session names it.
fn range_kind_text(kind: RangeKind) -> &'static [u8]
    ensures { result.now ≡ range_kind_text kind }
{
    match kind {
        RangeKind::NoAccess => b"noaccess",
        RangeKind::Undefined => b"undefined",
        RangeKind::Defined => b"defined",
    }
}

/// Appends which range a mark makes.
#[tactic(auto, unfolding(crate::specs::Lines::range_text), using(std::proofs::Common::append_assoc))]
fn push_range(out: &mut Vec<u8>, addr: u32, len: u32, kind: RangeKind) -> Result<(), AllocError>
    ensures { OnOk result (out.new.items ≡ out.old.items ++ range_text addr len kind) }
{
    push_text(out, b" makes ")?;
    push_number(out, u64::from(len))?;
    push_text(out, b" bytes at ")?;
    push_address(out, addr)?;
    push_text(out, b" ")?;
    push_text(out, range_kind_text(kind))
}

/// Appends what a mark does.
fn push_act(out: &mut Vec<u8>, act: &Act) -> Result<(), AllocError>
    ensures { OnOk result (out.new.items ≡ out.old.items ++ act_text act.now) }
{
    match act {
        Act::Make { addr, len, kind } => push_range(out, *addr, *len, *kind),
        _ => push_text(out, b" alters the machine"),
    }
}

/// Appends which mark is in the way.
#[tactic(auto, unfolding(crate::specs::Lines::mark_front), using(std::proofs::Common::append_assoc))]
fn push_mark_front(out: &mut Vec<u8>, index: usize) -> Result<(), AllocError>
    ensures { OnOk result (out.new.items ≡ out.old.items ++ mark_front index) }
{
    push_text(out, b"not clean: mark ")?;
    push_number(out, index as u64)
}

/// Appends that a mark is in the way.
#[tactic(auto, unfolding(crate::specs::Lines::mark_line), using(std::proofs::Common::append_assoc))]
fn push_mark(out: &mut Vec<u8>, index: usize, mark: &Alteration) -> Result<(), AllocError>
    ensures { OnOk result (out.new.items ≡ out.old.items ++ mark_line index mark.now) }
{
    push_mark_front(out, index)?;
    push_act(out, &mark.act)?;
    push_text(out, b" at step ")?;
    push_number(out, u64::from(mark.step))?;
    push_text(out, b"\n")
}

/// Appends an address of a trace with its name, after a word.
#[tactic(auto, unfolding(crate::specs::Lines::caller_text), using(std::proofs::Common::append_assoc))]
fn push_caller(out: &mut Vec<u8>, word: &[u8], image: &Image, addr: u32) -> Result<(), AllocError>
    ensures { OnOk result (out.new.items ≡ out.old.items ++ caller_text word.now image.now addr) }
{
    push_text(out, word)?;
    push_address(out, addr)?;
    push_text(out, b": ")?;
    push_name(out, image.name_of(addr))
}

/// Appends the addresses of a trace after the first.
fn push_callers(out: &mut Vec<u8>, image: &Image, callers: &[u32]) -> Result<(), AllocError>
    ensures { OnOk result (out.new.items ≡ out.old.items ++ flat_map (caller_text (codes ", by ") image.now) callers.now) }
{
    for addr in callers {
        push_caller(out, b", by ", image, *addr)?;
    }
    Ok(())
}

/// Appends a whole trace, on one line.
#[tactic(auto, unfolding(crate::specs::Lines::trace_text), using(std::proofs::Common::append_assoc))]
pub fn push_trace(out: &mut Vec<u8>, image: &Image, addresses: &[u32]) -> Result<(), AllocError>
    ensures { OnOk result (out.new.items ≡ out.old.items ++ trace_text image.now addresses.now) }
{
    match addresses {
        [] => Ok(()),
        [first, callers @ ..] => {
            push_caller(out, b" at ", image, *first)?;
            push_callers(out, image, callers)
        }
    }
}

/// Appends the step of the first use.
#[tactic(auto, unfolding(crate::specs::Lines::use_front), using(std::proofs::Common::append_assoc))]
fn push_use_front(out: &mut Vec<u8>, step: u32) -> Result<(), AllocError>
    ensures { OnOk result (out.new.items ≡ out.old.items ++ use_front step) }
{
    push_text(out, b"not clean: first use at step ")?;
    push_number(out, u64::from(step))?;
    push_text(out, b": ")
}

/// Appends the first use.
#[tactic(auto, unfolding(crate::specs::Lines::use_line), using(std::proofs::Common::append_assoc))]
fn push_use(out: &mut Vec<u8>, image: &Image, found: &FirstUse) -> Result<(), AllocError>
    ensures { OnOk result (out.new.items ≡ out.old.items ++ use_line image.now found.now) }
{
    push_use_front(out, found.step)?;
    push_kind(out, found.kind)?;
    push_trace(out, image, found.trace.addresses())?;
    push_text(out, b"\n")
}

/// Appends the line of the verdict on a run of a program up to a step.
pub fn push_verdict(
    out: &mut Vec<u8>,
    image: &Image,
    step: u32,
    verdict: &Verdict,
) -> Result<(), AllocError>
    ensures { OnOk result (out.new.items ≡ out.old.items ++ verdict_line image.now step verdict.now) }
{
    match verdict {
        Verdict::Clean(ended) => push_clean(out, step, *ended),
        Verdict::Mark(index, mark) => push_mark(out, *index, mark),
        Verdict::Use(found) => push_use(out, image, found),
    }
}
