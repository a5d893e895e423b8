//! The replies to lines that try an input, as text.
ghost use Rattle.std.specs.Prelude.{◌≡◌, ◌++◌, OnOk};
ghost use Rattle.tries.specs.Plans.{try_line};
ghost use Rattle.tries.specs.Tries.{differ_line, differ_lines, have_same, outcome_text, pair_lines, planned_text, tried_line, tried_text};

use crate::merging::News;
use crate::plans::Attempt;
use checkpoints::Compare;
use report_lines::{push_address, push_byte, push_number, push_text};
use std::alloc::AllocError;
use texts::Found;

/// Appends an outcome under its number.
#[tactic(auto, unfolding(crate::specs::Tries::outcome_text), using(std::proofs::Common::append_assoc))]
fn push_outcome(out: &mut Vec<u8>, number: u64, outcome: &[u8]) -> Result<(), AllocError>
    ensures { OnOk result (out.new.items ≡ out.old.items ++ outcome_text number outcome.now) }
{
    push_text(out, b"outcome ")?;
    push_number(out, number)?;
    push_text(out, b"\n")?;
    push_text(out, outcome)
}

/// Appends the last line of a reply to a try.
#[tactic(auto, unfolding(crate::specs::Tries::tried_line), using(std::proofs::Common::append_assoc))]
fn push_tried(out: &mut Vec<u8>, number: u64, news: News) -> Result<(), AllocError>
    ensures { OnOk result (out.new.items ≡ out.old.items ++ tried_line number news.sides news.again) }
{
    push_text(out, b"tried ")?;
    push_number(out, number)?;
    push_text(out, b" new ")?;
    push_number(out, news.sides)?;
    push_text(out, b" again ")?;
    push_number(out, news.again)?;
    push_text(out, b"\n")
}

/// Appends the reply to a try.
#[tactic(auto, unfolding(crate::specs::Tries::tried_text), using(std::proofs::Common::append_assoc))]
pub(crate) fn push_reply(
    out: &mut Vec<u8>,
    found: Found,
    outcome: &[u8],
    news: News,
) -> Result<(), AllocError>
    ensures { OnOk result (out.new.items ≡ out.old.items ++ tried_text found.is_met found.number outcome.now news.sides news.again) }
{
    let number = found.number as u64;
    if !found.is_met {
        push_outcome(out, number, outcome)?;
    }
    push_tried(out, number, news)
}

/// Appends the line that tries a byte with another value.
#[tactic(auto, unfolding(crate::specs::Plans::try_line), using(std::proofs::Common::append_assoc))]
fn push_attempt(out: &mut Vec<u8>, attempt: Attempt) -> Result<(), AllocError>
    ensures { OnOk result (out.new.items ≡ out.old.items ++ try_line attempt) }
{
    push_text(out, b"try ")?;
    push_number(out, u64::from(attempt.offset))?;
    push_text(out, b" ")?;
    push_byte(out, attempt.value)?;
    push_text(out, b"\n")
}

/// Appends what is told of a try of a plan: nothing, unless its outcome or sides are new.
#[tactic(auto, unfolding(crate::specs::Tries::planned_text), using(std::proofs::Common::append_assoc))]
pub(crate) fn push_planned(
    out: &mut Vec<u8>,
    attempt: Attempt,
    found: Found,
    outcome: &[u8],
    news: News,
) -> Result<(), AllocError>
    ensures { OnOk result (out.new.items ≡ out.old.items ++ planned_text attempt found.is_met found.number outcome.now news.sides news.again) }
{
    if found.is_met && news.sides == 0 && news.again == 0 {
        return Ok(());
    }
    push_attempt(out, attempt)?;
    push_reply(out, found, outcome, news)
}

/// Whether two compares have the same operands.
fn have_same(own: Compare, other: Compare) -> bool
    ensures { result ≡ have_same own other }
{
    own.left == other.left && own.right == other.right
}

/// Appends the line of two compares whose operands differ.
#[tactic(auto, unfolding(crate::specs::Tries::differ_line), using(std::proofs::Common::append_assoc))]
fn push_differ(out: &mut Vec<u8>, own: Compare, other: Compare) -> Result<(), AllocError>
    ensures { OnOk result (out.new.items ≡ out.old.items ++ differ_line own other) }
{
    push_number(out, u64::from(own.step))?;
    push_text(out, b" ")?;
    push_address(out, own.pc)?;
    push_text(out, b" ")?;
    push_address(out, own.left)?;
    push_text(out, b" ")?;
    push_address(out, own.right)?;
    push_text(out, b" ")?;
    push_address(out, other.left)?;
    push_text(out, b" ")?;
    push_address(out, other.right)?;
    push_text(out, b"\n")
}

/// Appends the line of two compares, if their operands differ.
fn push_pair(out: &mut Vec<u8>, own: Compare, other: Compare) -> Result<(), AllocError>
    ensures { OnOk result (out.new.items ≡ out.old.items ++ pair_lines own other) }
{
    if !have_same(own, other) {
        push_differ(out, own, other)?;
    }
    Ok(())
}

/// Appends a line for each pair of compares whose operands differ, up to the first pair at different addresses.
pub(crate) fn push_differs(
    out: &mut Vec<u8>,
    own: &[Compare],
    other: &[Compare],
) -> Result<(), AllocError>
    ensures { OnOk result (out.new.items ≡ out.old.items ++ differ_lines own.now other.now) }
{
    let mut i = 0;
    while i < own.len() && i < other.len() && own[i].pc == other[i].pc {
        push_pair(out, own[i], other[i])?;
        i += 1;
    }
    Ok(())
}
