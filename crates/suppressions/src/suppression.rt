ghost use Rattle.std.specs.Prelude.{◌≡◌, ◌↔◌, IsTrue, map};
ghost use Rattle.suppressions.specs.Rules.{IsSuppressed, Matches, is_suppressed, matches};
ghost use Rattle.suppressions.specs.Added.{Gives, added};

use crate::adding;
use crate::fault::SuppFault;
use crate::frames::Frames;
use crate::subject::Subject;
use crate::target::Target;
use std::alloc::Global;
use std::marker::Model;

/// A suppression. Contracts see what it is for, its frame lines and its switch.
#[derive(Drop)]
pub struct Suppression {
    pub(crate) subject: Subject,
    pub(crate) frames: Frames,
    pub(crate) on: bool,
}

impl Model for Suppression {
    ghost use Rattle.suppressions.specs.Rules.{Rule};

    ghost Value = { Rule };

    ghost view = { λ s. record { subject = s.subject; frames = s.frames; on = s.on } };
}

impl Suppression {
    /// Returns the suppression, switched on, of the arguments KIND WORDS.. of a session's command `supp add`: the kind, its extra line (for
    /// Param and Leak), and frame lines, separated by one space each. Other arguments are rejected as line 1, even if memory would run out.
    pub fn from_words(alloc: Global, words: &[u8]) -> Result<Self, SuppFault>
        ensures { Gives (added words.now) result }
    {
        adding::added(alloc, words)
    }

    /// Returns whether it matches an error or a leak with a trace, whatever its switch. The trace is given by the names of its frames.
    pub fn matches(&self, target: &Target, names: &[&[u8]]) -> bool
        ensures value { result ≡ matches self.now target.now (map (λ name. name.now) names.now) }
        ensures meaning { IsTrue result ↔ Matches self.now target.now (map (λ name. name.now) names.now) }
    {
        self.subject.is_for(target) && self.frames.matches(names)
    }

    /// Returns whether it is switched on.
    pub fn is_on(&self) -> bool
        ensures { result ≡ self.now.on }
    {
        self.on
    }

    /// Switches it on or off.
    pub fn switch(&mut self, on: bool)
        ensures { self.new ≡ record self.old { on = on } }
    {
        self.on = on;
    }
}

/// Returns whether an error or a leak is left out of a report: some suppression that is switched on matches it. Its trace is given by the
/// names of its frames.
pub fn is_suppressed(suppressions: &[Suppression], target: &Target, names: &[&[u8]]) -> bool
    ensures value { result ≡ is_suppressed suppressions.now target.now (map (λ name. name.now) names.now) }
    ensures meaning { IsTrue result ↔ IsSuppressed suppressions.now target.now (map (λ name. name.now) names.now) }
{
    for suppression in suppressions {
        if suppression.is_on() && suppression.matches(target, names) {
            return true;
        }
    }
    false
}
