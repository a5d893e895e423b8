//! What an edit does. Each law is the contract of a function that does nothing; a caller has it after the call.
ghost use Rattle.scenario.specs.Edits.{Follows, TakesBack};

/// An edit that isn't rejected leads from the run of the scenario to that of the edited one, by its effect.
pub fn edits_follow()
    ensures { Follows }
{}

/// What takes an edit back leaves the scenario as it was before both.
pub fn edits_go_back()
    ensures { TakesBack }
{}
