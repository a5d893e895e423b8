//! What the counts of texts are. Each law is the contract of a function that does nothing; a caller has it after the call.
ghost use Rattle.texts.specs.Laws.{CountsTexts, NumbersTexts};

/// The texts that were met are kept once each, in order of first occurrence, with how often each was met. The number of a text is its place
/// among them.
pub fn texts_are_counted()
    ensures counts { CountsTexts }
    ensures numbers { NumbersTexts }
{}
