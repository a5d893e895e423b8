//! How many steps the lines of a session cost. Each law is the contract of a function that does nothing; a caller has it after the call.
ghost use Rattle.replay_session.specs.LinesWork.{AnswersLead, HeldByLines, MadeByLines, TellsWork, WorkIsOne};

/// If each line moves the work as [`crate::Session::command`] says of it, from a session that has just begun, then machines are held at
/// exactly the steps that the list of lines says, and the number of executed steps is the one number that it says.
#[tactic(auto, using(crate::proofs::LawSteps::held_by_lines, crate::proofs::LawSteps::made_by_lines, crate::proofs::LawSteps::work_is_one))]
pub fn work_of_lines()
    ensures held { HeldByLines }
    ensures made { MadeByLines }
    ensures one { WorkIsOne }
{}

/// The replies of [`crate::serve`] lead from stage to stage. After lines of which none was answered `refused 1`, and where no patch has
/// left the trail short, `worked` prints the number that the list of lines says.
#[tactic(auto, using(crate::proofs::ToldSteps::tells_work))]
pub fn work_is_told()
    ensures leads { AnswersLead }
    ensures told { TellsWork }
{}
