ghost use Rattle.std.specs.Prelude.{◌≡◌, ℕ, ◌<◌, length, replicate, IfOk, IsTrue, slice_get, Some, slice_index_or, false, vec_len};
ghost use Rattle.leak_graph.specs.declared.leak_kind.LeakKind.{LeakKind};
ghost use Rattle.leak_graph.specs.Graphs.{GoWithin, AllGoWithin, links_of};
ghost use Rattle.leak_graph.specs.Leaks.{HasKind};
ghost use Rattle.leak_graph.specs.Marks.{kind_by, AreBy, IsMarked};

use crate::graph::Pointer;
use crate::leak_kind::LeakKind;
use crate::passes::{definite_heads, lost_heads, reached};
use std::alloc::{AllocError, Global};

/// Returns the kind of a block with these marks.
#[tactic(auto, unfolding(crate::specs::Marks::kind_by))]
fn kind_of(reachable: bool, found: bool, definite: bool) -> LeakKind
    ensures { result ≡ kind_by reachable found definite }
{
    if reachable {
        LeakKind::Reachable
    } else if found {
        LeakKind::Possible
    } else if definite {
        LeakKind::Definite
    } else {
        LeakKind::Indirect
    }
}

/// Returns the kinds of all blocks by their marks.
fn sort_out(
    alloc: Global,
    reachable: &[bool],
    found: &[bool],
    definite: &[bool],
) -> Result<Vec<LeakKind>, AllocError>
    requires found { length found.now ≡ length reachable.now }
    requires definite { length definite.now ≡ length reachable.now }
    ensures len { IfOk result (λ kinds. length kinds.items ≡ length reachable.now) }
    ensures kinds { IfOk result (λ kinds. AreBy reachable.now found.now definite.now kinds.items) }
{
    let mut kinds = Vec::with_capacity(alloc, reachable.len())?;
    for block in 0..reachable.len() {
        kinds.push(kind_of(reachable[block], found[block], definite[block]))?;
    }
    Ok(kinds)
}

/// Returns whether each block is marked.
fn are_all(marks: &[bool]) -> bool
    ensures { IsTrue result → (b : ℕ) → b < length marks.now → IsMarked marks.now b }
{
    for block in 0..marks.len() {
        if !marks[block] {
            return false;
        }
    }
    true
}

/// Returns the kinds of so many blocks, all of them reachable.
fn all_reachable(alloc: Global, count: usize) -> Result<Vec<LeakKind>, AllocError>
    ensures { IfOk result (λ kinds. kinds.items ≡ replicate count LeakKind.Reachable) }
{
    let kinds = vec![in alloc; LeakKind::Reachable; count]?;
    Ok(kinds)
}

/// Returns the leak kind of each block, from the pointers of the roots and those of each block. The time needed grows with the number of
/// blocks and pointers together.
pub fn leak_kinds(
    alloc: Global,
    roots: &[Pointer],
    edges: &[Vec<Pointer>],
) -> Result<Vec<LeakKind>, AllocError>
    requires roots { GoWithin roots.now (length edges.now) }
    requires edges { AllGoWithin edges.now (length edges.now) }
    ensures len { IfOk result (λ kinds. length kinds.items ≡ length edges.now) }
    ensures kinds { IfOk result (λ kinds. (b : ℕ) (kind : LeakKind) → slice_get kinds.items b ≡ Some kind
        → HasKind (links_of roots.now edges.now) b kind) }
{
    let reachable = reached(alloc, roots, edges, true)?;
    // Then no other path makes a difference.
    if are_all(&reachable) {
        return all_reachable(alloc, edges.len());
    }
    let found = reached(alloc, roots, edges, false)?;
    let heads = lost_heads(alloc, edges, &found)?;
    let definite = definite_heads(alloc, edges, &found, &heads)?;
    let kinds = sort_out(alloc, &reachable, &found, &definite)?;
    Ok(kinds)
}
