//! Patterns of pieces, and the walk that fits items to them.
ghost use Rattle.std.specs.Prelude.{◌≡◌, ◌↔◌, ◌∷◌, [], IsTrue, false};
ghost use Rattle.suppressions.specs.Fitting.{FitsPieces, FitsFront, IsStar, IsSingle, StandsAt};

/// A piece of a pattern for items `X`: a star, which fits any number of them, or a piece that fits at most one.
pub(crate) trait Piece<X> {
    ghost use Rattle.std.specs.Prelude.{List};

    /// The lists of items that it takes.
    ghost takes: { Self → List X → Type 0 };

    /// Returns whether it is a star.
    fn is_star(&self) -> bool
        ensures star { IsTrue result → IsStar takes self.now }
        ensures single { result ≡ false → IsSingle takes self.now };

    /// Returns whether it takes one item.
    fn takes_one(&self, item: &X) -> bool
        ensures { IsTrue result ↔ takes self.now (item.now ∷ []) };
}

/// Returns whether there is a star at a place of a pattern.
fn has_star<P: Piece<X>, X>(pieces: &[P], at: usize) -> bool
    ensures star { IsTrue result → ((p : P) × StandsAt pieces.now at p × IsStar P.takes p) }
    ensures single { result ≡ false → (p : P) → StandsAt pieces.now at p → IsSingle P.takes p }
{
    at < pieces.len() && pieces[at].is_star()
}

/// Returns whether the piece at a place of a pattern takes an item.
fn has_taker<P: Piece<X>, X>(pieces: &[P], at: usize, item: &X) -> bool
    ensures { IsTrue result ↔ ((p : P) × StandsAt pieces.now at p × P.takes p (item.now ∷ [])) }
{
    at < pieces.len() && pieces[at].takes_one(item)
}

/// Returns whether a pattern fits no items, that is, has only stars.
fn are_stars<P: Piece<X>, X>(pieces: &[P]) -> bool
    ensures { IsTrue result ↔ FitsPieces P.takes pieces.now [] }
{
    for piece in pieces {
        if !piece.is_star() {
            return false;
        }
    }
    true
}

/// Returns whether items fit a pattern, or, if `may_go_on` is true, some front of them does: a walk over both that goes back to the last
/// star when nothing fits.
pub(crate) fn walk<P: Piece<X>, X>(pieces: &[P], items: &[X], may_go_on: bool) -> bool
    ensures { IsTrue result ↔ FitsFront P.takes may_go_on pieces.now items.now }
{
    let mut at: usize = 0;
    let mut place: usize = 0;
    let mut back: Option<(usize, usize)> = None;
    while place < items.len() {
        if may_go_on && at == pieces.len() {
            return true;
        }
        if has_star(pieces, at) {
            at += 1;
            back = Some((at, place));
        } else if has_taker(pieces, at, &items[place]) {
            at += 1;
            place += 1;
        } else if let Some((star, from)) = back {
            at = star;
            place = from + 1;
            back = Some((star, place));
        } else {
            return false;
        }
    }
    are_stars(&pieces[at..])
}
