//! Small graphs, with the kinds that follow from the definition.
ghost use Rattle.std.specs.Prelude.{IsTrue};
ghost use Rattle.leak_graph.specs.Graphs.{GoWithin, AllGoWithin};

use crate::comes;
use leak_graph::LeakKind::{Definite, Indirect, Possible, Reachable};
use leak_graph::{LeakKind, Pointer, leak_kinds};
use std::alloc::{AllocError, Global};

// A label; the pointers of the roots; the pointers of the blocks, by the block that has each, the block that it goes to, and whether to its
// start; and the kinds of the blocks.
type Case = (
    &'static str,
    &'static [Pointer],
    &'static [(usize, usize, bool)],
    &'static [LeakKind],
);

const FIRST: Pointer = Pointer {
    block: 0,
    is_start: true,
};

const SECOND: Pointer = Pointer {
    block: 1,
    is_start: true,
};

const CASES: [Case; 6] = [
    (
        "a chain of start-pointers",
        &[FIRST],
        &[(0, 1, true), (1, 2, true)],
        &[Reachable, Reachable, Reachable],
    ),
    (
        "a chain that a pointer to an inside parts",
        &[FIRST],
        &[(0, 1, false), (1, 2, true)],
        &[Reachable, Possible, Possible],
    ),
    (
        "a lost block that points to itself",
        &[],
        &[(0, 0, true)],
        &[Definite],
    ),
    (
        "a ring",
        &[],
        &[(0, 1, true), (1, 0, false)],
        &[Definite, Indirect],
    ),
    (
        "a ring that a later block leads to",
        &[],
        &[(0, 1, true), (1, 0, true), (2, 1, true)],
        &[Indirect, Indirect, Definite],
    ),
    (
        "a lost block that points to a found one",
        &[SECOND],
        &[(0, 1, true)],
        &[Definite, Reachable],
    ),
];

/// Returns the pointers of each of `count` blocks.
fn rows(
    alloc: Global,
    count: usize,
    pointers: &[(usize, usize, bool)],
) -> Result<Vec<Vec<Pointer>>, AllocError> {
    let mut rows = Vec::new(alloc);
    for from in 0..count {
        rows.push(row(alloc, from, pointers)?)?;
    }
    Ok(rows)
}

fn row(
    alloc: Global,
    from: usize,
    pointers: &[(usize, usize, bool)],
) -> Result<Vec<Pointer>, AllocError> {
    let mut row = Vec::new(alloc);
    for (holder, block, is_start) in pointers {
        if *holder == from {
            row.push(Pointer {
                block: *block,
                is_start: *is_start,
            })?;
        }
    }
    Ok(row)
}

/// Returns whether each pointer goes to one of `count` blocks.
fn all_go_within(edges: &[Vec<Pointer>], count: usize) -> bool
    ensures { IsTrue result → AllGoWithin edges.now count }
{
    for row in edges {
        if !go_within(row, count) {
            return false;
        }
    }
    true
}

fn go_within(row: &[Pointer], count: usize) -> bool
    ensures { IsTrue result → GoWithin row.now count }
{
    row.iter().all(|p| p.block < count)
}

/// Returns the kinds of blocks, or an empty list if a pointer goes to no block.
fn kinds_of(
    alloc: Global,
    roots: &[Pointer],
    edges: &[Vec<Pointer>],
) -> Result<Vec<LeakKind>, AllocError> {
    if !go_within(roots, edges.len()) {
        return Ok(Vec::new(alloc));
    }
    if !all_go_within(edges, edges.len()) {
        return Ok(Vec::new(alloc));
    }
    leak_kinds(alloc, roots, edges)
}

/// Returns whether the blocks of a case have its kinds.
fn is_decided(alloc: Global, case: &Case) -> Result<bool, AllocError> {
    let (_, roots, pointers, kinds) = case;
    let edges = rows(alloc, kinds.len(), pointers)?;
    Ok(kinds_of(alloc, roots, &edges)?.as_slice() == *kinds)
}

#[test]
fn paths_decide_the_kind(rt: HostRuntime) {
    for case in &CASES {
        comes(&rt, case.0, is_decided(rt.alloc(), case));
    }
}
