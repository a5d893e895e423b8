//! The parts of a sweep. The law is the contract of a function that does nothing; a caller has it after the call.
ghost use Rattle.sweep_plans.specs.Laws.{PartsMakeTheWhole};

/// The places of the parts 1 to N, one part after another, are all places of a plan in order, each once.
pub fn parts_make_the_whole()
    ensures { PartsMakeTheWhole }
{}
