//! Laws of the definitions, as contracts of functions that do nothing.
ghost use Rattle.error_events.specs.Adding.{GroupsGrow, GroupsGrowBy};
ghost use Rattle.error_events.specs.Regrouping.{KeptByTest};

/// The groups of a list of errors and another error are the groups of the list, with that error added.
pub fn groups_grow()
    ensures one { GroupsGrow }
    ensures several { GroupsGrowBy }
{}

/// If groups are kept by a test of kind and trace, the errors of the kept groups are the errors that pass the test.
pub fn kept_by_test()
    ensures { KeptByTest }
{}
