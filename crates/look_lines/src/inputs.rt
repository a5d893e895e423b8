//! A line read as an edit that gives the input bytes.
ghost use Rattle.std.specs.Prelude.{◌≡◌, ◌∷◌, [], nat_lt, IfOk, true};
ghost use Rattle.std.specs.Char.{digit_value};
ghost use Rattle.std.specs.List.{list_all};
ghost use Rattle.commands.specs.Commands.{number as number_of};
ghost use Rattle.look_lines.specs.Inputs.{begins_with, bytes_of, edit_asked, edit_of, edit_tried, give_of, gives, is_hex, overwrite_with, tried_of, ReadsFor};

use commands::{Bytes, Edit, Fault, digit_value, number};
use scenario::LONGEST_INPUT;
use std::alloc::{AllocError, Global};
use texts::Parts;

const BYTES: &[u8] = b"bytes";

const IS: &[u8] = b"is";

/// Returns whether the first word of a line is this one.
pub fn begins_with(line: &[u8], word: &[u8]) -> bool
    ensures { result ≡ begins_with word.now line.now }
{
    match Parts::new(line, b' ').next() {
        Some(first) => first == word,
        None => false,
    }
}

/// Returns whether a line gives the input bytes: its first word is `bytes`.
#[tactic(auto, unfolding(crate::specs::Inputs::gives))]
pub fn gives(line: &[u8]) -> bool
    ensures { result ≡ gives line.now }
{
    begins_with(line, BYTES)
}

/// Whether a byte is a hexadecimal digit.
fn is_digit(c: u8) -> bool
    ensures { result ≡ nat_lt (digit_value c) 16 }
{
    digit_value(c) < 16
}

/// Whether all bytes are hexadecimal digits.
fn are_digits(field: &[u8]) -> bool
    ensures { result ≡ list_all (λ c. nat_lt (digit_value c) 16) field.now }
{
    field.iter().all(|c| is_digit(*c))
}

/// Whether a field writes bytes, at least one.
#[tactic(auto, unfolding(crate::specs::Inputs::is_hex))]
fn is_hex(field: &[u8]) -> bool
    ensures { result ≡ is_hex field.now }
{
    !field.is_empty() && field.len() % 2 == 0 && are_digits(field)
}

/// Returns the bytes that digits write.
fn bytes_of(alloc: Global, digits: &[u8]) -> Result<Bytes, AllocError>
    requires { is_hex digits.now ≡ true }
    ensures { IfOk result (λ bytes. bytes ≡ bytes_of digits.now) }
{
    let mut bytes = Vec::with_capacity(alloc, digits.len() / 2)?;
    let mut at = 0;
    while at + 1 < digits.len() {
        let byte = 16 * digit_value(digits[at]) + digit_value(digits[at + 1]);
        bytes.push(byte as u8)?;
        at += 2;
    }
    Ok(Bytes::new(bytes))
}

/// `is`: an empty input.
#[tactic(auto, unfolding(crate::specs::Inputs::edit_of))]
fn give_nothing(alloc: Global, place: &[u8], len: u64) -> Result<Edit, Fault>
    ensures { ReadsFor len (edit_of (place.now ∷ [])) result }
{
    if place == IS {
        Ok(Edit::Give(Bytes::new(Vec::new(alloc))))
    } else {
        Err(Fault::BadCommand)
    }
}

/// `is HEX`.
fn give_of(alloc: Global, hex: &[u8], len: u64) -> Result<Edit, Fault>
    ensures { ReadsFor len (give_of hex.now) result }
{
    if !is_hex(hex) {
        return Err(Fault::BadCommand);
    }
    if hex.len() / 2 > LONGEST_INPUT {
        return Err(Fault::InputTooLarge);
    }
    let bytes = bytes_of(alloc, hex)?;
    Ok(Edit::Give(bytes))
}

/// `A HEX`.
fn overwrite_of(alloc: Global, place: &[u8], hex: &[u8], len: u64) -> Result<Edit, Fault>
    ensures { ReadsFor len (overwrite_with (number_of place.now) hex.now) result }
{
    let Some(offset) = number(place) else {
        return Err(Fault::BadCommand);
    };
    if !is_hex(hex) {
        return Err(Fault::BadCommand);
    }
    if u64::from(offset) + (hex.len() / 2) as u64 > len {
        return Err(Fault::OutsideInput);
    }
    let bytes = bytes_of(alloc, hex)?;
    Ok(Edit::Overwrite { offset, bytes })
}

/// The edit of the fields after `bytes`.
#[tactic(auto, unfolding(crate::specs::Inputs::edit_of))]
fn edit_of(alloc: Global, mut fields: Parts<'_>, len: u64) -> Result<Edit, Fault>
    ensures { ReadsFor len (edit_of fields.entry) result }
{
    let Some(place) = fields.next() else {
        return Err(Fault::BadCommand);
    };
    let Some(hex) = fields.next() else {
        return give_nothing(alloc, place, len);
    };
    if fields.next().is_some() {
        return Err(Fault::BadCommand);
    }
    if place == IS {
        give_of(alloc, hex, len)
    } else {
        overwrite_of(alloc, place, hex, len)
    }
}

/// The edit of the fields after the word of a line that tries an input.
#[tactic(auto, unfolding(crate::specs::Inputs::tried_of))]
fn tried_of(alloc: Global, mut fields: Parts<'_>, len: u64) -> Result<Edit, Fault>
    ensures { ReadsFor len (tried_of fields.entry) result }
{
    let Some(place) = fields.next() else {
        return Ok(Edit::Give(Bytes::new(Vec::new(alloc))));
    };
    let Some(hex) = fields.next() else {
        return give_of(alloc, place, len);
    };
    if fields.next().is_some() {
        return Err(Fault::BadCommand);
    }
    overwrite_of(alloc, place, hex, len)
}

/// Returns the edit that a line tries, or why it is rejected, for an input of a length. The line's first word is not looked at.
///
/// # Errors
///
/// Those of [`edit_asked`].
#[tactic(auto, unfolding(crate::specs::Inputs::edit_tried))]
pub fn edit_tried(alloc: Global, line: &[u8], len: u64) -> Result<Edit, Fault>
    ensures { ReadsFor len (edit_tried line.now) result }
{
    let mut fields = Parts::new(line, b' ');
    let Some(_word) = fields.next() else {
        return Err(Fault::BadCommand);
    };
    tried_of(alloc, fields, len)
}

/// Returns the edit that a line asks for, or why it is rejected, for an input of a length.
///
/// # Errors
///
/// [`Fault::BadCommand`] for another line, a field that is missing or too many, an A that is no number, or a HEX that isn't hexadecimal
/// digits, two a byte and at least two; then [`Fault::OutsideInput`] for bytes beyond the input, or [`Fault::InputTooLarge`]; then
/// [`Fault::Memory`].
#[tactic(auto, unfolding(crate::specs::Inputs::edit_asked))]
pub fn edit_asked(alloc: Global, line: &[u8], len: u64) -> Result<Edit, Fault>
    ensures { ReadsFor len (edit_asked line.now) result }
{
    let mut fields = Parts::new(line, b' ');
    let Some(_word) = fields.next() else {
        return Err(Fault::BadCommand);
    };
    edit_of(alloc, fields, len)
}
