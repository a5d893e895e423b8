//! The live blocks that a report shows as leaked, their groups and their sums.
ghost use Rattle.std.specs.Prelude.{◌≡◌, ◌++◌, ◌<◌, IfOk, OnOk, map, unwrap_or};
ghost use Rattle.replay_report.specs.Leaks.{is_hidden, shown_records, hidden_records, of_kind, sum_of, no_blocks, with_block, key_of, with_leak, leak_groups, is_shown};
ghost use Rattle.indexmap.specs.IndexMap.{get_by as get};

use crate::filtering::names_of;
use call_stacks::Trace;
use guest_elf::Image;
use indexmap::IndexMap;
use leak_graph::LeakKind;
use leak_search::LeakRecord;
use std::alloc::{AllocError, Global};
use suppressions::{Suppression, Target, is_suppressed};

/// What the blocks of a group have in common.
#[derive(Clone, Copy, PartialEq, Eq, Hash)]
pub(crate) struct LeakKey {
    pub(crate) kind: LeakKind,
    /// The first addresses of the traces of their allocations.
    pub(crate) trace: Trace,
}

/// The number of bytes and of blocks.
#[derive(Clone, Copy)]
pub(crate) struct BlockSum {
    pub(crate) bytes: u64,
    pub(crate) blocks: u64,
}

/// The sum of no blocks.
const NO_BLOCKS: BlockSum = BlockSum {
    bytes: 0,
    blocks: 0,
};

/// Returns whether the leak of a block is suppressed.
fn is_hidden(
    alloc: Global,
    leak: &LeakRecord,
    image: &Image,
    suppressions: &[Suppression],
) -> Result<bool, AllocError>
    ensures { IfOk result (λ hidden. hidden ≡ is_hidden suppressions.now image.now leak.now) }
{
    let names = names_of(alloc, image, leak.trace.addresses())?;
    Ok(is_suppressed(suppressions, &Target::Leak(leak.kind), &names))
}

/// Appends each record to those that no suppression matches, or to the others.
fn divide(
    alloc: Global,
    records: &[LeakRecord],
    image: &Image,
    suppressions: &[Suppression],
    shown: &mut Vec<LeakRecord>,
    hidden: &mut Vec<LeakRecord>,
) -> Result<(), AllocError>
    ensures shown { OnOk result (shown.new.items ≡ shown.old.items ++ shown_records suppressions.now image.now records.now) }
    ensures hidden { OnOk result (hidden.new.items ≡ hidden.old.items ++ hidden_records suppressions.now image.now records.now) }
{
    for record in records {
        if is_hidden(alloc, record, image, suppressions)? {
            hidden.push(*record)?;
        } else {
            shown.push(*record)?;
        }
    }
    Ok(())
}

/// Returns the records that no suppression matches, and the others.
pub(crate) fn split_records(
    alloc: Global,
    records: &[LeakRecord],
    image: &Image,
    suppressions: &[Suppression],
) -> Result<(Vec<LeakRecord>, Vec<LeakRecord>), AllocError>
    ensures shown { IfOk result (λ r. r.0.items ≡ shown_records suppressions.now image.now records.now) }
    ensures hidden { IfOk result (λ r. r.1.items ≡ hidden_records suppressions.now image.now records.now) }
{
    let mut shown = Vec::new(alloc);
    let mut hidden = Vec::new(alloc);
    divide(alloc, records, image, suppressions, &mut shown, &mut hidden)?;
    Ok((shown, hidden))
}

/// Returns the sum with another block.
fn with_block(sum: BlockSum, size: u32) -> BlockSum
    ensures { result ≡ with_block sum size }
{
    BlockSum {
        bytes: sum.bytes.saturating_add(u64::from(size)),
        blocks: sum.blocks.saturating_add(1),
    }
}

/// Returns the sum of some blocks.
#[tactic(auto, using(crate::proofs::LeakSteps::sum_more), unfolding(crate::specs::Leaks::sum_of))]
pub(crate) fn sum_of(records: &[LeakRecord]) -> BlockSum
    ensures { result ≡ sum_of records.now }
{
    let mut sum = NO_BLOCKS;
    for record in records {
        sum = with_block(sum, record.size);
    }
    sum
}

/// Returns the sum of the blocks of a kind.
#[tactic(auto, unfolding(crate::specs::Leaks::of_kind, crate::specs::Leaks::sum_of))]
pub(crate) fn sum_of_kind(records: &[LeakRecord], kind: LeakKind) -> BlockSum
    ensures { result ≡ sum_of (of_kind kind records.now) }
{
    let mut sum = NO_BLOCKS;
    for record in records {
        if kind == record.kind {
            sum = with_block(sum, record.size);
        }
    }
    sum
}

/// Returns the group of a record.
fn key_of(leak: &LeakRecord, callers: u32) -> LeakKey
    requires { 0 < callers }
    ensures { result ≡ key_of callers leak.now }
{
    LeakKey {
        kind: leak.kind,
        trace: leak.trace.front(callers),
    }
}

/// Returns the sum of the blocks of a group so far.
fn sum_at(groups: &IndexMap<LeakKey, BlockSum>, key: &LeakKey) -> BlockSum
    ensures { result ≡ unwrap_or (get (⟦<LeakKey as PartialEq>⟧.eq key.now) groups.now) no_blocks }
{
    groups.get(key).copied().unwrap_or(NO_BLOCKS)
}

/// Adds a block to the group of its key.
#[tactic(auto, using(crate::proofs::LeakSteps::leak_inserted))]
fn add_leak(
    groups: &mut IndexMap<LeakKey, BlockSum>,
    key: LeakKey,
    size: u32,
) -> Result<(), AllocError>
    ensures { OnOk result (groups.new.entries ≡ with_leak groups.old.entries key size) }
{
    let sum = with_block(sum_at(groups, &key), size);
    let _former = groups.insert(key, sum)?;
    Ok(())
}

/// Returns the groups of some records, in order of their first blocks.
#[tactic(auto, using(crate::proofs::LeakSteps::groups_more), unfolding(crate::specs::Leaks::leak_groups))]
pub(crate) fn leak_groups(
    alloc: Global,
    records: &[LeakRecord],
    callers: u32,
) -> Result<IndexMap<LeakKey, BlockSum>, AllocError>
    requires { 0 < callers }
    ensures { IfOk result (λ groups. groups.entries ≡ leak_groups callers records.now) }
{
    let mut groups = IndexMap::new(alloc);
    for record in records {
        add_leak(&mut groups, key_of(record, callers), record.size)?;
    }
    Ok(groups)
}

/// Returns whether a kind is among those that are shown.
pub(crate) fn is_shown(show: &[bool; 4], kind: LeakKind) -> bool
    ensures { result ≡ is_shown show.now kind }
{
    match kind {
        LeakKind::Definite => show[0],
        LeakKind::Indirect => show[1],
        LeakKind::Possible => show[2],
        LeakKind::Reachable => show[3],
    }
}
