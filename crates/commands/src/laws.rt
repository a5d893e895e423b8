//! A law of the lines of a session: the contract of a function that does nothing.
ghost use Rattle.commands.specs.Laws.{LinesMakeRanges};

/// A line of a session makes no alteration but of a range.
pub fn lines_make_ranges()
    ensures { LinesMakeRanges }
{}
