//! What answers lines.
ghost use Rattle.std.specs.Prelude.{◌≡◌, ℕ, List, Bool};
ghost use Rattle.line_protocol.specs.Answers.{AreLongAlike};

/// Answers lines, one after another.
pub trait Listener {
    /// Relates a listener and a line given to it to what the listener may be afterwards.
    ghost answers: { Self → List ℕ → Self → Type 0 };

    /// The text of its last reply.
    ghost reply: { Self → List ℕ };

    /// Whether the limit of lines is reached.
    ghost over: { Self → Bool };

    /// Returns whether the limit of lines is reached. The next line is still answered, and is the last.
    fn is_over(&self) -> bool
        ensures { result ≡ over self.now };

    /// Answers a line, which has no newline. For a line of more than [`crate::LONGEST_LINE`] bytes, it may be given a front that is longer
    /// than that, too.
    fn answer(&mut self, line: &[u8])
        ensures { answers self.old line.now self.new };

    /// Returns the text of the reply to the last line.
    fn reply(&self) -> &[u8]
        ensures { result.now ≡ reply self.now };

    /// Lines that are longer than the longest are all answered alike.
    ghost long_alike: { AreLongAlike answers };
}
