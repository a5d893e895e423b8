//! The numbers in the fields of a line.
ghost use Rattle.std.specs.Prelude.{◌≡◌, ◌≤◌};
ghost use Rattle.std.specs.Char.{digit_value};
ghost use Rattle.commands.specs.Commands.{number_in, number, small, short, one_number};

use texts::Parts;

/// Returns the value of a digit or a letter, in either case, and 36 for another byte.
pub fn digit_value(b: u8) -> u64
    ensures { result ≡ digit_value b }
{
    match b {
        b'0'..=b'9' => u64::from(b - b'0'),
        b'A'..=b'Z' => u64::from(b - b'A') + 10,
        b'a'..=b'z' => u64::from(b - b'a') + 10,
        _ => 36,
    }
}

/// A number of one to `most` digits in a base up to 16, if it is below 2^32.
fn number_in(base: u64, most: usize, field: &[u8]) -> Option<u32>
    requires base { base ≤ 16 }
    requires most { most ≤ 10 }
    ensures { result ≡ number_in base most field.now }
{
    if field.is_empty() || field.len() > most {
        return None;
    }
    let mut value: u64 = 0;
    for b in field {
        let digit = digit_value(*b);
        if digit >= base {
            return None;
        }
        value = value * base + digit;
    }
    u32::try_from(value).ok()
}

/// Returns the number in a field: decimal, or hexadecimal after `0x`.
#[tactic(auto, unfolding(crate::specs::Commands::number))]
pub fn number(field: &[u8]) -> Option<u32>
    ensures { result ≡ number field.now }
{
    match field.strip_prefix(b"0x") {
        Some(digits) => number_in(16, 8, digits),
        None => number_in(10, 10, field),
    }
}

/// A number, if it is a byte's value.
pub(crate) fn byte(field: &[u8]) -> Option<u8>
    ensures { result ≡ small (number field.now) }
{
    let value = number(field)?;
    u8::try_from(value).ok()
}

/// A number, if it is a half's value.
pub(crate) fn half(field: &[u8]) -> Option<u16>
    ensures { result ≡ short (number field.now) }
{
    let value = number(field)?;
    u16::try_from(value).ok()
}

/// The number in the only field.
#[tactic(auto, unfolding(crate::specs::Commands::one_number))]
pub(crate) fn one_number(mut fields: Parts<'_>) -> Option<u32>
    ensures { result ≡ one_number fields.entry }
{
    let field = fields.next()?;
    if fields.next().is_some() {
        return None;
    }
    number(field)
}
