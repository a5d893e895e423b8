//! Parts of two memories that have the same contents, part by part.
ghost use Rattle.std.specs.Prelude.{◌≡◌, IsTrue};
ghost use Rattle.std.specs.List.{AllZip};

/// A part of a memory.
pub(crate) trait HasCells {
    ghost use Rattle.std.specs.Prelude.{ℕ};
    ghost use Rattle.shadow_memory.specs.declared.cells.Cell.{Cell};

    /// The cells at its places.
    ghost cells: { Self → ℕ → Cell };

    /// Returns whether another part has the same cells. May also return `false` for such a part, if it is kept in another way.
    fn is_same(&self, other: &Self) -> bool
        ensures { IsTrue result → cells other.now ≡ cells self.now };
}

/// Returns whether parts have the same cells as others, in order.
pub(crate) fn are_same<T: HasCells>(parts: &[T], others: &[T]) -> bool
    ensures { IsTrue result → AllZip (λ part other. T.cells other ≡ T.cells part) parts.now others.now }
{
    let Some((part, later)) = parts.split_first() else {
        return others.is_empty();
    };
    let Some((other, rest)) = others.split_first() else {
        return false;
    };
    part.is_same(other) && are_same(later, rest)
}
