//! Laws of a sweep's table. Each law is the contract of a function that does nothing; a caller has it after the call.
ghost use Rattle.sweeps.specs.Laws.{MetAreOne, NumbersArePlaces, OutlineIsOne, PartsHaveAllChanges, ReadsAreLooks, RowsHaveNumbers, StepsAreOne, TalliesCount};

use sweep_plans::laws::parts_make_the_whole;
use texts::laws::texts_are_counted;

/// The number of a row is the place of its outcome among the distinct outcomes. The tally of a number is the number of edits with that
/// outcome.
pub fn outcomes_are_counted()
    ensures tallies { TalliesCount }
    ensures rows { RowsHaveNumbers }
    ensures numbers { NumbersArePlaces }
{
    texts_are_counted();
}

/// An edit needs one number of steps.
pub fn steps_are_one()
    ensures { StepsAreOne }
{}

/// A scenario has one outline, so edits of it have one list of outcomes and steps.
pub fn outcomes_are_one()
    ensures outline { OutlineIsOne }
    ensures met { MetAreOne }
{
    replay_report::laws::outline_is_one();
}

/// The edits of the parts 1 to N, one part after another, are all edits of a sweep.
pub fn parts_have_all_changes()
    ensures { PartsHaveAllChanges }
{
    parts_make_the_whole();
}

/// A byte of the fault model `memory` is one that a step reads, from the struck one on and below the chosen one, as a look at the run finds
/// it, and that no step in between writes.
pub fn reads_are_looks()
    ensures { ReadsAreLooks }
{}
