//! What joins runs with different inputs. The law is the contract of a function that does nothing; a caller has it after the call.
ghost use Rattle.test_runs.specs.Executions.{MovesOn};

use guest_machine::laws::{end_stays, keeps_front};

/// An execution that hasn't seen the end of an empty input is one of the scenario with any input, at the same step.
pub fn moves_on()
    ensures { MovesOn }
{
    keeps_front();
    end_stays();
}
