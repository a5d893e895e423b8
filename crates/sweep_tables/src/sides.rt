//! The lines on what the runs of a sweep have executed.
ghost use Rattle.std.specs.Prelude.{◌≡◌, ◌++◌, ◌≤◌, OnOk};
ghost use Rattle.sweep_tables.specs.SidesLines.{range_for, sides_line, sides_lines, some_reached};

use guest_elf::Image;
use guest_machine::Span;
use look_lines::range_of;
use report_lines::{push_address, push_text};
use std::alloc::AllocError;
use sweep_plans::Plan;

/// The number of places of a line.
const LINE_PLACES: usize = 64;

/// The digit of a place that no run has reached.
const UNREACHED: u8 = b'0';

/// Returns the range of a table: that in which a program begins, if it was asked for and all places are bytes, and else none.
pub(crate) fn range_for(with_sides: bool, plan: &Plan, image: &Image<'_>) -> Span
    ensures { result ≡ range_for with_sides plan.now image.now }
{
    if with_sides && plan.has_only_bytes() {
        range_of(image)
    } else {
        Span { start: 0, len: 0 }
    }
}

/// Returns whether one of some places was reached.
fn some_reached(digits: &[u8]) -> bool
    ensures { result ≡ some_reached digits.now }
{
    digits.iter().any(|digit| *digit != UNREACHED)
}

/// Appends the line of the places from an address on, if one of them was reached.
#[tactic(auto, unfolding(crate::specs::SidesLines::sides_line), using(std::proofs::Common::append_assoc))]
fn push_line(out: &mut Vec<u8>, addr: u32, digits: &[u8]) -> Result<(), AllocError>
    ensures { OnOk result (out.new.items ≡ out.old.items ++ sides_line addr digits.now) }
{
    if !some_reached(digits) {
        return Ok(());
    }
    push_text(out, b"sides ")?;
    push_address(out, addr)?;
    push_text(out, b" ")?;
    push_text(out, digits)?;
    push_text(out, b"\n")
}

/// Appends the lines of the digits of a table, whose first place is at an address, and whose places are some bytes apart.
pub(crate) fn push_lines(
    out: &mut Vec<u8>,
    start: u32,
    apart: u32,
    digits: &[u8],
) -> Result<(), AllocError>
    requires { apart ≤ 4 }
    ensures { OnOk result (out.new.items ≡ out.old.items ++ sides_lines start apart digits.now) }
{
    let mut addr = start;
    for n in 0..(digits.len() + (LINE_PLACES - 1)) / LINE_PLACES {
        let from = n * LINE_PLACES;
        let to = digits.len().min(from + LINE_PLACES);
        push_line(out, addr, &digits[from..to])?;
        addr = addr.wrapping_add(LINE_PLACES as u32 * apart);
    }
    Ok(())
}
