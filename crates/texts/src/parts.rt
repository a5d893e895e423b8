//! The parts of a text between separator bytes, one at a time.

ghost use Rattle.std.specs.Prelude.{◌≡◌, ◌==◌, ◌∷◌, [], IfSome, IfNone, position};

use std::marker::Model;

/// The remaining parts of a text between separator bytes, at first one more than there are separators. Contracts see the list of the
/// remaining parts.
#[derive(Drop)]
pub struct Parts<'a> {
    rest: Option<&'a [u8]>,
    separator: u8,
}

impl<'a> Model for Parts<'a> {
    ghost use Rattle.std.specs.Prelude.{List, ℕ};
    ghost use Rattle.texts.specs.Parts.{parts_left};

    ghost Value = { List (List ℕ) };

    ghost view = { λ parts. parts_left parts.separator parts.rest };
}

/// Returns the place of the first separator of a text.
pub fn separator_at(text: &[u8], separator: u8) -> Option<usize>
    ensures { result ≡ position (λ b. b == separator) text.now }
{
    text.iter().position(|b| *b == separator)
}

impl<'a> Parts<'a> {
    ghost use Rattle.texts.specs.Parts.{parts};

    /// Returns all parts of a text.
    pub fn new(text: &'a [u8], separator: u8) -> Self
        ensures { result ≡ parts separator text.now }
    {
        Parts {
            rest: Some(text),
            separator,
        }
    }

    /// Returns a copy with the same remaining parts.
    pub fn fork(&self) -> Self
        ensures { result ≡ self.now }
    {
        Parts {
            rest: self.rest,
            separator: self.separator,
        }
    }

    /// Returns the next part.
    pub fn next(&mut self) -> Option<&'a [u8]>
        ensures none { IfNone result ((self.old ≡ []) × (self.new ≡ [])) }
        ensures some { IfSome result (λ part. self.old ≡ part.now ∷ self.new) }
    {
        let rest = self.rest?;
        match separator_at(rest, self.separator) {
            None => {
                self.rest = None;
                Some(rest)
            }
            Some(end) => {
                self.rest = Some(&rest[end + 1..]);
                Some(&rest[..end])
            }
        }
    }
}
