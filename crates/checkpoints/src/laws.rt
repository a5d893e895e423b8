//! Laws of what an edit keeps and of where it shows. Each is the contract of a function that does nothing; a caller has the law after the call.
ghost use Rattle.checkpoints.specs.Edits.{KeepsLower};
ghost use Rattle.checkpoints.specs.FirstUses.{UsesByWords};

/// Where an edit keeps the machines below its first effect, the last step at which one is held follows from that effect.
pub fn keeps_lower()
    ensures { KeepsLower }
{}

/// A word at a multiple of 4 is used as a code, of four bytes, by the steps that use it as a word.
pub fn uses_by_words()
    ensures { UsesByWords }
{}
