//! Frame lines.
ghost use Rattle.std.specs.Prelude.{◌≡◌, ◌↔◌, ◌∷◌, [], IsTrue, false, map};
ghost use Rattle.suppressions.specs.Fitting.{IsStar, IsSingle};
ghost use Rattle.suppressions.specs.Frames.{FitsFrame, matches_trace};
ghost use Rattle.suppressions.specs.Initials.{initial_of, innermost_initial, may_match};

use crate::glob::{ANY_BYTE, ANY_BYTES, fits};
use crate::pieces::{Piece, walk};
use crate::text::Text;
use std::marker::Model;

/// The one object that all code lies in.
const GUEST: &[u8] = b"guest";

/// A frame line of a suppression.
#[derive(Drop)]
pub(crate) enum FrameLine {
    /// `fun:P`: one frame whose name fits the pattern.
    Function(Text),
    /// `obj:P`: one frame, if the object's name fits the pattern.
    Object(Text),
    /// `...`: any number of frames.
    AnyFrames,
    /// `src:..`: no frame.
    Source,
}

impl<'a> Piece<&'a [u8]> for FrameLine {
    ghost takes = { λ frame names. FitsFrame frame (map (λ name. name.now) names) };

    fn is_star(&self) -> bool
        ensures star { IsTrue result → IsStar ⟦<FrameLine as Piece<&'a [u8]>>⟧.takes self.now }
        ensures single { result ≡ false → IsSingle ⟦<FrameLine as Piece<&'a [u8]>>⟧.takes self.now }
    {
        matches!(self, FrameLine::AnyFrames)
    }

    fn takes_one(&self, name: &&'a [u8]) -> bool
        ensures { IsTrue result ↔ FitsFrame self.now (name.now.now ∷ []) }
    {
        match self {
            FrameLine::Function(pattern) => fits(pattern.as_slice(), *name),
            FrameLine::Object(pattern) => fits(pattern.as_slice(), GUEST),
            FrameLine::AnyFrames => true,
            FrameLine::Source => false,
        }
    }
}

/// Returns the first byte of each text that fits a pattern, if the pattern's first byte stands for itself.
fn initial_of(pattern: &[u8]) -> Option<u8>
    ensures { result ≡ initial_of pattern.now }
{
    match pattern.first() {
        Some(&byte) if byte != ANY_BYTES && byte != ANY_BYTE => Some(byte),
        _ => None,
    }
}

/// Returns the first byte of the innermost frame's name in each trace that frame lines match, if the first of them gives it.
fn innermost_initial(lines: &[FrameLine]) -> Option<u8>
    ensures { result ≡ innermost_initial lines.now }
{
    match lines.first() {
        Some(FrameLine::Function(pattern)) => initial_of(pattern.as_slice()),
        _ => None,
    }
}

/// Returns whether the name of a trace's innermost frame begins with a byte; true if no byte is known. The trace is given by the names of
/// its frames.
fn may_match(initial: Option<u8>, names: &[&[u8]]) -> bool
    ensures { result ≡ may_match initial (map (λ name. name.now) names.now) }
{
    let Some(byte) = initial else {
        return true;
    };
    match names.first() {
        Some(name) => name.first() == Some(&byte),
        None => false,
    }
}

/// The frame lines of a suppression, with a byte that rules out most traces at a glance. Contracts see their list.
#[derive(Drop)]
pub(crate) struct Frames {
    lines: Vec<FrameLine>,
    initial: Option<u8>,
}

impl Model for Frames {
    ghost use Rattle.std.specs.Prelude.{◌≡◌, List};
    ghost use Rattle.suppressions.specs.declared.frames.FrameLine.{FrameLine};
    ghost use Rattle.suppressions.specs.Initials.{innermost_initial};

    ghost Value = { List FrameLine };

    ghost view = { λ frames. frames.lines.items };

    ghost invariant = { λ frames. frames.initial ≡ innermost_initial frames.lines.items };
}

impl Frames {
    /// Returns frame lines to match.
    pub(crate) fn new(lines: Vec<FrameLine>) -> Self
        ensures { result ≡ lines.items }
    {
        let initial = innermost_initial(&lines);
        Frames { lines, initial }
    }

    /// Returns whether some frames at the front of a trace, given by their names, fit the frame lines in order.
    pub(crate) fn matches(&self, names: &[&[u8]]) -> bool
        ensures { result ≡ matches_trace self.now (map (λ name. name.now) names.now) }
    {
        may_match(self.initial, names) && matches_trace(&self.lines, names)
    }
}

/// Returns the same for any frame lines, only by the walk.
fn matches_trace(frames: &[FrameLine], names: &[&[u8]]) -> bool
    ensures { result ≡ matches_trace frames.now (map (λ name. name.now) names.now) }
{
    walk(frames, names, true)
}
