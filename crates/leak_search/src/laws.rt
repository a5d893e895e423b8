//! A law of the records of a search. The law is the contract of a function that does nothing; a caller has it after the call.
ghost use Rattle.leak_search.specs.Laws.{RecordsAreOne};

/// Two lists of records of one state are equal.
#[tactic(auto, using(crate::proofs::OneAnswer::records_are_one))]
pub fn records_are_one()
    ensures { RecordsAreOne }
{}
