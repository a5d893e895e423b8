//! Laws of one step and one register or word, and of runs. Each is the contract of a function that does nothing; a caller has the law after the call.
ghost use Rattle.pruning.specs.Laws.{KeepsRegisters, OverwritesRegisters, RunsKeep, RunsKeepWords, RunsOverwrite};

use guest_machine::laws::keeps_pokes;

/// A register that a step keeps may be changed before the step or after it, and the step leaves it as it is.
pub fn keeps_registers()
    ensures { KeepsRegisters }
{}

/// A change of a register that a step overwrites is gone after the step.
pub fn overwrites_registers()
    ensures { OverwritesRegisters }
{}

/// An alteration of a register that a step keeps leads to the same run if it is made one step later.
pub fn runs_keep()
    ensures { RunsKeep }
{}

/// An alteration of a register that a step overwrites is gone after the step, in a run.
pub fn runs_overwrite()
    ensures { RunsOverwrite }
{}

/// Bits of a word that a step keeps lead to the same run if they are turned one step later.
pub fn runs_keep_words()
    ensures { RunsKeepWords }
{
    keeps_pokes();
}
