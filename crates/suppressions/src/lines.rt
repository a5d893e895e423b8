//! The lines of a suppression text, one at a time.
ghost use Rattle.std.specs.Prelude.{◌≡◌, ◌==◌, ◌∷◌, ◌≤◌, [], IfSome, IfNone, OnSome, length};
ghost use Rattle.suppressions.specs.Lines.{is_blank, trim_start, trim_end, trimmed, is_skipped, lines_of};
ghost use Rattle.suppressions.specs.Texts.{closing, after_block};

use std::marker::Model;
use texts::Parts;

/// The longest text that is read, in bytes.
pub const TEXT_LIMIT: usize = 1_048_576;

/// The line that ends a block.
pub(crate) const CLOSE: &[u8] = b"}";

/// A line without blanks at its ends, and its number. Contracts see both.
#[derive(Drop)]
pub(crate) struct Line<'a> {
    number: u32,
    text: &'a [u8],
}

impl<'a> Model for Line<'a> {
    ghost use Rattle.suppressions.specs.Lines.{Line as NumberedLine};

    ghost Value = { NumberedLine };

    ghost view = { λ line. record { number = line.number; text = line.text.now } };
}

impl<'a> Line<'a> {
    pub(crate) fn number(&self) -> u32
        ensures { result ≡ self.now.number }
    {
        self.number
    }

    pub(crate) fn text(&self) -> &'a [u8]
        ensures { result.now ≡ self.now.text }
    {
        self.text
    }
}

/// Returns whether a byte is dropped at the ends of a line.
fn is_blank(b: u8) -> bool
    ensures { result ≡ is_blank b }
{
    b == b' ' || b == b'\t' || b == b'\r'
}

fn trim_start(line: &[u8]) -> &[u8]
    ensures { result.now ≡ trim_start line.now }
{
    let mut rest = line;
    while let Some((first, others)) = rest.split_first() {
        if !is_blank(*first) {
            return rest;
        }
        rest = others;
    }
    rest
}

fn trim_end(line: &[u8]) -> &[u8]
    ensures { result.now ≡ trim_end line.now }
{
    let mut rest = line;
    while let Some((last, others)) = rest.split_last() {
        if !is_blank(*last) {
            return rest;
        }
        rest = others;
    }
    rest
}

/// Returns a line without blanks at its ends.
#[tactic(auto, unfolding(crate::specs::Lines::trimmed))]
fn trim(line: &[u8]) -> &[u8]
    ensures { result.now ≡ trimmed line.now }
{
    trim_end(trim_start(line))
}

/// Returns whether a line, trimmed, is empty or a comment.
fn is_skipped(line: &[u8]) -> bool
    ensures { result ≡ is_skipped line.now }
{
    match line.first() {
        None => true,
        Some(first) => *first == b'#',
    }
}

/// The remaining lines that count. Contracts see their list.
#[derive(Drop)]
pub(crate) struct Lines<'a> {
    parts: Parts<'a>,
    number: u32,
}

impl<'a> Model for Lines<'a> {
    ghost use Rattle.std.specs.Prelude.{List, ◌+◌, ◌<◌, length};
    ghost use Rattle.suppressions.specs.Lines.{Line, numbered};

    ghost Value = { List Line };

    ghost view = { λ lines. numbered lines.number lines.parts };

    ghost invariant = { λ lines. lines.number + length lines.parts < 4294967296 };
}

impl<'a> Lines<'a> {
    /// Returns the lines of a text.
    pub(crate) fn new(text: &'a [u8]) -> Self
        requires { length text.now ≤ TEXT_LIMIT }
        ensures { result ≡ lines_of text.now }
    {
        Lines {
            parts: Parts::new(text, b'\n'),
            number: 1,
        }
    }

    /// Returns the same lines.
    pub(crate) fn fork(&self) -> Self
        ensures { result ≡ self.now }
    {
        Lines {
            parts: self.parts.fork(),
            number: self.number,
        }
    }

    /// Returns the next line.
    pub(crate) fn next(&mut self) -> Option<Line<'a>>
        ensures none { IfNone result ((self.old ≡ []) × (self.new ≡ [])) }
        ensures some { IfSome result (λ line. self.old ≡ line ∷ self.new) }
    {
        while let Some(line) = self.parts.next() {
            let number = self.number;
            self.number += 1;
            let text = trim(line);
            if !is_skipped(text) {
                return Some(Line { number, text });
            }
        }
        None
    }

    /// Skips a block, and returns the number of its last line, if there is one.
    pub(crate) fn pass_block(&mut self) -> Option<u32>
        ensures number { result ≡ closing self.old }
        ensures after { OnSome result (self.new ≡ after_block self.old) }
    {
        while let Some(line) = self.next() {
            if line.text() == CLOSE {
                return Some(line.number());
            }
        }
        None
    }
}
