//! A report, an outline, and the groups of leaks. Each law is the contract of a function that does nothing; a caller has it after the call.
ghost use Rattle.replay_report.specs.Laws.{LeaksAreGrouped, OutlineIsOne, ReportIsOne};

use leak_search::laws::records_are_one;

/// Two texts that are the report of one state are equal.
#[tactic(auto, using(crate::proofs::OneReport::one_report))]
pub fn report_is_one()
    ensures { ReportIsOne }
{
    records_are_one();
}

/// Two texts that are the outline of one state are equal.
#[tactic(auto, using(crate::proofs::OneReport::one_outline))]
pub fn outline_is_one()
    ensures { OutlineIsOne }
{
    records_are_one();
}

/// The groups of leaked blocks have each key once, in order of first occurrence, with the sum of all blocks that have that key.
pub fn leaks_are_grouped()
    ensures { LeaksAreGrouped }
{}
