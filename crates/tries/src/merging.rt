//! What several runs have done with each instruction of a range, and what one more run does that none of them did.
ghost use Rattle.std.specs.Prelude.{◌≡◌, ◌≤◌, IsTrue, length, slice_index_or};
ghost use Rattle.tries.specs.Merging.{IsMerged, KnownBelow, adds_none, again_in, agains_of, either, gained, is_old, new_in, news_of, unreached};

use checkpoints::Sides;

/// What is said of an instruction that no run has reached.
const UNREACHED: Sides = Sides {
    on: false,
    away: false,
    on_again: false,
    away_again: false,
};

/// How many sides are new.
#[derive(Clone, Copy)]
pub(crate) struct News {
    /// Sides that no run before had.
    pub(crate) sides: u64,
    /// Sides that no run before had more than once.
    pub(crate) again: u64,
}

/// What is said of an instruction by two tables.
fn either(a: Sides, b: Sides) -> Sides
    ensures { result ≡ either a b }
{
    Sides {
        on: a.on || b.on,
        away: a.away || b.away,
        on_again: a.on_again || b.on_again,
        away_again: a.away_again || b.away_again,
    }
}

/// 1 if something is so now, and wasn't.
fn gained(before: bool, now: bool) -> u64
    ensures gained { result ≡ gained before now }
    ensures few { result ≤ 1 }
{
    if now && !before { 1 } else { 0 }
}

/// The number of sides of an instruction that are new.
fn new_in(seen: Sides, run: Sides) -> u64
    ensures new { result ≡ new_in seen run }
    ensures few { result ≤ 2 }
{
    gained(seen.on, run.on) + gained(seen.away, run.away)
}

/// The number of those that are new more than once.
fn again_in(seen: Sides, run: Sides) -> u64
    ensures again { result ≡ again_in seen run }
    ensures few { result ≤ 2 }
{
    gained(seen.on_again, run.on_again) + gained(seen.away_again, run.away_again)
}

/// What a table says at a place.
fn row_at(table: &[Sides], place: usize) -> Sides
    ensures { result ≡ slice_index_or table.now place unreached }
{
    if place < table.len() {
        table[place]
    } else {
        UNREACHED
    }
}

/// Whether a side was had before, if it is had now.
fn is_old(before: bool, now: bool) -> bool
    ensures { result ≡ is_old before now }
{
    before || !now
}

/// Whether a run's row says of no side what the row of the runs before it doesn't say.
fn adds_none(seen: Sides, run: Sides) -> bool
    ensures { result ≡ adds_none seen run }
{
    is_old(seen.on, run.on)
        && is_old(seen.away, run.away)
        && is_old(seen.on_again, run.on_again)
        && is_old(seen.away_again, run.away_again)
}

/// Whether no row of a run says anything new. Looks at all rows, several at once.
fn is_known(seen: &[Sides], run: &[Sides]) -> bool
    ensures rows { IsTrue result → length seen.now ≡ length run.now }
    ensures known { IsTrue result → KnownBelow seen.now run.now (length run.now) }
{
    if seen.len() != run.len() {
        return false;
    }
    let mut known = true;
    for place in 0..run.len() {
        let adds_none = adds_none(seen[place], run[place]);
        known = known && adds_none;
    }
    known
}

/// Merges the table of a run with what runs before it have done, and returns how much of it is new. Nothing is, for most runs.
pub(crate) fn merge(seen: &[Sides], run: &mut [Sides]) -> News
    ensures merged { IsMerged seen.now run.old run.new }
    ensures sides { result.sides ≡ news_of seen.now run.old }
    ensures again { result.again ≡ agains_of seen.now run.old }
{
    let mut news = News { sides: 0, again: 0 };
    if is_known(seen, run) {
        run.copy_from_slice(seen);
        return news;
    }
    for place in 0..run.len() {
        let before = row_at(seen, place);
        let now = run[place];
        news.sides += new_in(before, now);
        news.again += again_in(before, now);
        run[place] = either(before, now);
    }
    news
}
