//! The suppression that the command `supp add` of a session adds.
ghost use Rattle.std.specs.Prelude.{◌≡◌, ◌∷◌, true};
ghost use Rattle.suppressions.specs.Words.{are_frames};
ghost use Rattle.suppressions.specs.Added.{framed, parameter_rule, leak_rule, added, Gives};

use crate::fault::SuppFault;
use crate::frames::Frames;
use crate::leak_kinds::{EACH_KIND, LeakKinds};
use crate::subject::Subject;
use crate::suppression::Suppression;
use crate::text::Text;
use crate::words::{LEAK, PARAM, are_frames, frames_among, plain_subject};
use std::alloc::Global;
use texts::Parts;

/// The fault of arguments that aren't a suppression's.
const REFUSED: SuppFault = SuppFault::BadSuppression(1);

/// Returns the suppression of a subject and frame lines.
#[tactic(auto, unfolding(crate::specs::Added::framed))]
fn framed(alloc: Global, subject: Subject, words: Parts<'_>) -> Result<Suppression, SuppFault>
    ensures { Gives (framed subject words.entry) result }
{
    if !are_frames(words.fork()) {
        return Err(REFUSED);
    }
    let frames = frames_among(alloc, words)?;
    Ok(Suppression {
        subject,
        frames: Frames::new(frames),
        on: true,
    })
}

/// Returns the suppression of a parameter's text and frame lines.
#[tactic(auto, unfolding(crate::specs::Added::framed))]
fn parameter_rule(alloc: Global, mut words: Parts<'_>) -> Result<Suppression, SuppFault>
    ensures { Gives (parameter_rule words.entry) result }
{
    let Some(text) = words.next() else {
        return Err(REFUSED);
    };
    if !are_frames(words.fork()) {
        return Err(REFUSED);
    }
    let text = Text::new(alloc, text)?;
    framed(alloc, Subject::Parameter(text), words)
}

/// Returns the suppression of leak kinds, if they are given, and frame lines.
fn leak_rule(alloc: Global, words: Parts<'_>) -> Result<Suppression, SuppFault>
    ensures { Gives (leak_rule words.entry) result }
{
    let mut others = words.fork();
    if let Some(word) = others.next()
        && let Some(list) = word.strip_prefix(b"match-leak-kinds:")
    {
        return match LeakKinds::from_list(list) {
            Some(kinds) => framed(alloc, Subject::Leak(kinds), others),
            None => Err(REFUSED),
        };
    }
    framed(alloc, Subject::Leak(EACH_KIND), words)
}

/// Returns the suppression of the command's arguments.
#[tactic(auto, unfolding(crate::specs::Added::added))]
pub(crate) fn added(alloc: Global, words: &[u8]) -> Result<Suppression, SuppFault>
    ensures { Gives (added words.now) result }
{
    let mut words = Parts::new(words, b' ');
    let Some(kind) = words.next() else {
        return Err(REFUSED);
    };
    if kind == PARAM {
        parameter_rule(alloc, words)
    } else if kind == LEAK {
        leak_rule(alloc, words)
    } else {
        match plain_subject(kind) {
            Some(subject) => framed(alloc, subject, words),
            None => Err(REFUSED),
        }
    }
}
