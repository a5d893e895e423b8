//! The lines of a report on leaked blocks.
ghost use Rattle.std.specs.Prelude.{◌≡◌, ◌++◌, ◌<◌, OnOk, codes};
ghost use Rattle.std.specs.List.{flat_map};
ghost use Rattle.replay_report.specs.Leaks.{leak_groups};
ghost use Rattle.replay_report.specs.LeakLines.{leak_text, amount_text, leak_line, leak_lines, blocks_line, kind_line, total_lines, leak_section};

use crate::leaks::{BlockSum, LeakKey, is_shown, leak_groups, split_records, sum_of, sum_of_kind};
use crate::options::View;
use guest_elf::Image;
use indexmap::IndexMap;
use leak_graph::LeakKind;
use leak_search::LeakRecord;
use report_lines::{push_number, push_text, push_trace};
use std::alloc::{AllocError, Global};

/// Returns how a block was lost, or that it wasn't.
pub(crate) fn leak_text(kind: LeakKind) -> &'static [u8]
    ensures { result.now ≡ leak_text kind }
{
    match kind {
        LeakKind::Definite => b"definitely lost",
        LeakKind::Indirect => b"indirectly lost",
        LeakKind::Possible => b"possibly lost",
        LeakKind::Reachable => b"still reachable",
    }
}

/// Appends `N bytes in B blocks`.
#[tactic(auto, unfolding(crate::specs::LeakLines::amount_text), using(std::proofs::Common::append_assoc))]
fn push_amount(out: &mut Vec<u8>, sum: BlockSum) -> Result<(), AllocError>
    ensures { OnOk result (out.new.items ≡ out.old.items ++ amount_text sum) }
{
    push_number(out, sum.bytes)?;
    push_text(out, b" bytes in ")?;
    push_number(out, sum.blocks)?;
    push_text(out, b" blocks")
}

/// Appends `leak N bytes in B blocks are K`.
#[tactic(auto, unfolding(crate::specs::LeakLines::leak_line), using(std::proofs::Common::append_assoc))]
fn push_leak(out: &mut Vec<u8>, sum: BlockSum, kind: LeakKind) -> Result<(), AllocError>
    ensures { OnOk result (out.new.items ≡ out.old.items ++ leak_line sum kind) }
{
    push_text(out, b"leak ")?;
    push_amount(out, sum)?;
    push_text(out, b" are ")?;
    push_text(out, leak_text(kind))?;
    push_text(out, b"\n")
}

/// Appends the lines of a group of leaks, if its kind is shown.
#[tactic(auto, unfolding(crate::specs::LeakLines::leak_lines), using(std::proofs::Common::append_assoc))]
fn push_group(
    out: &mut Vec<u8>,
    image: &Image,
    show: &[bool; 4],
    key: &LeakKey,
    sum: BlockSum,
) -> Result<(), AllocError>
    ensures { OnOk result (out.new.items ≡ out.old.items ++ leak_lines image.now show.now (key.now, sum)) }
{
    if !is_shown(show, key.kind) {
        return Ok(());
    }
    push_leak(out, sum, key.kind)?;
    push_trace(out, image, key.trace.addresses())
}

/// Appends the groups of leaks whose kind is shown, in their order.
fn push_leak_groups(
    out: &mut Vec<u8>,
    image: &Image,
    show: &[bool; 4],
    groups: &IndexMap<LeakKey, BlockSum>,
) -> Result<(), AllocError>
    ensures { OnOk result (out.new.items ≡ out.old.items ++ flat_map (leak_lines image.now show.now) groups.now.entries) }
{
    for (key, sum) in groups.iter() {
        push_group(out, image, show, key, *sum)?;
    }
    Ok(())
}

/// Appends `NAME: N bytes in B blocks`.
#[tactic(auto, unfolding(crate::specs::LeakLines::blocks_line), using(std::proofs::Common::append_assoc))]
fn push_blocks(out: &mut Vec<u8>, name: &[u8], sum: BlockSum) -> Result<(), AllocError>
    ensures { OnOk result (out.new.items ≡ out.old.items ++ blocks_line name.now sum) }
{
    push_text(out, name)?;
    push_text(out, b": ")?;
    push_amount(out, sum)?;
    push_text(out, b"\n")
}

/// Appends the line with the sum of the blocks of a kind.
fn push_kind(out: &mut Vec<u8>, kind: LeakKind, records: &[LeakRecord]) -> Result<(), AllocError>
    ensures { OnOk result (out.new.items ≡ out.old.items ++ kind_line kind records.now) }
{
    push_blocks(out, leak_text(kind), sum_of_kind(records, kind))
}

/// Appends how much was lost in each way, how much wasn't lost, and how much is suppressed.
#[tactic(auto, unfolding(crate::specs::LeakLines::total_lines), using(std::proofs::Common::append_assoc))]
pub(crate) fn push_totals(
    out: &mut Vec<u8>,
    shown: &[LeakRecord],
    hidden: &[LeakRecord],
) -> Result<(), AllocError>
    ensures { OnOk result (out.new.items ≡ out.old.items ++ total_lines shown.now hidden.now) }
{
    push_kind(out, LeakKind::Definite, shown)?;
    push_kind(out, LeakKind::Indirect, shown)?;
    push_kind(out, LeakKind::Possible, shown)?;
    push_kind(out, LeakKind::Reachable, shown)?;
    push_blocks(out, b"suppressed", sum_of(hidden))
}

/// Appends the groups of some records whose kind is shown, in order of their first blocks.
fn push_groups_of(
    alloc: Global,
    out: &mut Vec<u8>,
    view: &View,
    records: &[LeakRecord],
) -> Result<(), AllocError>
    requires { 0 < view.now.options.now.callers }
    ensures { OnOk result (out.new.items ≡ out.old.items
        ++ flat_map (leak_lines view.now.image.now view.now.options.now.show) (leak_groups view.now.options.now.callers records.now)) }
{
    let groups = leak_groups(alloc, records, view.options.callers)?;
    push_leak_groups(out, view.image, &view.options.show, &groups)
}

/// Appends the lines on leaked blocks, with these records of the live ones.
#[tactic(auto, unfolding(crate::specs::LeakLines::leak_section), using(std::proofs::Common::append_assoc))]
pub(crate) fn push_leaks(
    alloc: Global,
    out: &mut Vec<u8>,
    view: &View,
    records: &[LeakRecord],
) -> Result<(), AllocError>
    requires { 0 < view.now.options.now.callers }
    ensures { OnOk result (out.new.items ≡ out.old.items ++ leak_section view.now.image.now view.now.suppressions.now view.now.options.now records.now) }
{
    let (shown, hidden) = split_records(alloc, records, view.image, view.suppressions)?;
    push_groups_of(alloc, out, view, &shown)?;
    push_totals(out, &shown, &hidden)
}
