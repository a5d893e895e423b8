//! A line read as an alteration of the machine at a step.
ghost use Rattle.std.specs.Prelude.{◌≡◌};
ghost use Rattle.commands.specs.Commands.{number as number_of};
ghost use Rattle.look_lines.specs.Alterations.{act_of, alteration_among, alteration_asked, alters, flip_at, flip_of, is_altering, judged, register_of, set_of, set_to, set_with, skip_of, width_of, write_of, write_with};

use commands::{Fault, number};
use instructions::{Register, Width};
use run_values::{Act, Alteration};
use texts::Parts;

const SET: &[u8] = b"set";

const FLIP: &[u8] = b"flip";

const WRITE: &[u8] = b"write";

const SKIP: &[u8] = b"skip";

const PC: &[u8] = b"pc";

/// The number of registers, of which a line names each but x0.
const REGISTERS: u32 = 32;

/// Whether a word begins a line that alters.
fn is_altering(word: &[u8]) -> bool
    ensures { result ≡ is_altering word.now }
{
    word == SET || word == FLIP || word == WRITE || word == SKIP
}

/// Returns whether a line alters the machine at a step: its first word is `set`, `flip`, `write` or `skip`.
#[tactic(auto, unfolding(crate::specs::Alterations::alters))]
pub fn alters(line: &[u8]) -> bool
    ensures { result ≡ alters line.now }
{
    match Parts::new(line, b' ').next() {
        Some(word) => is_altering(word),
        None => false,
    }
}

/// A register by its name, `x1` to `x31`.
#[tactic(auto, unfolding(crate::specs::Alterations::register_of))]
fn register_of(field: &[u8]) -> Option<Register>
    ensures { result ≡ register_of field.now }
{
    if field.starts_with(b"x0") {
        return None;
    }
    let digits = field.strip_prefix(b"x")?;
    let number = number(digits)?;
    if number < REGISTERS {
        Some(Register::new(number as u8))
    } else {
        None
    }
}

/// `REGISTER VALUE UNDEF`.
fn set_with(place: &[u8], value: &[u8], undef: Option<u32>) -> Option<Act>
    ensures { result ≡ set_with (register_of place.now) (number_of value.now) undef }
{
    let register = register_of(place)?;
    let value = number(value)?;
    let undef = undef?;
    Some(Act::Set {
        register,
        value,
        undef,
    })
}

/// `pc VALUE`, or `REGISTER VALUE`.
#[tactic(auto, unfolding(crate::specs::Alterations::set_to))]
fn set_to(place: &[u8], value: &[u8]) -> Option<Act>
    ensures { result ≡ set_to place.now value.now }
{
    if place == PC {
        let target = number(value)?;
        Some(Act::Jump { target })
    } else {
        set_with(place, value, Some(0))
    }
}

/// The fields after `set STEP`.
#[tactic(auto, unfolding(crate::specs::Alterations::set_of))]
fn set_of(mut fields: Parts<'_>) -> Option<Act>
    ensures { result ≡ set_of fields.entry }
{
    let place = fields.next()?;
    let value = fields.next()?;
    let Some(undef) = fields.next() else {
        return set_to(place, value);
    };
    if fields.next().is_some() {
        return None;
    }
    set_with(place, value, number(undef))
}

/// `pc MASK`, `REGISTER MASK`, or `ADDR MASK`.
#[tactic(auto, unfolding(crate::specs::Alterations::flip_at))]
fn flip_at(place: &[u8], mask: &[u8]) -> Option<Act>
    ensures { result ≡ flip_at place.now (number_of mask.now) }
{
    let mask = number(mask)?;
    if place == PC {
        return Some(Act::FlipPc { mask });
    }
    if let Some(register) = register_of(place) {
        return Some(Act::Flip { register, mask });
    }
    let addr = number(place)?;
    Some(Act::Turn { addr, mask })
}

/// The fields after `flip STEP`.
#[tactic(auto, unfolding(crate::specs::Alterations::flip_of))]
fn flip_of(mut fields: Parts<'_>) -> Option<Act>
    ensures { result ≡ flip_of fields.entry }
{
    let place = fields.next()?;
    let mask = fields.next()?;
    if fields.next().is_some() {
        return None;
    }
    flip_at(place, mask)
}

/// The width of an access to a number of bytes.
#[tactic(auto, unfolding(crate::specs::Alterations::width_of))]
fn width_of(len: u32) -> Option<Width>
    ensures { result ≡ width_of len }
{
    if len == 1 {
        Some(Width::Byte)
    } else if len == 2 {
        Some(Width::Half)
    } else if len == 4 {
        Some(Width::Word)
    } else {
        None
    }
}

/// `ADDR LEN VALUE`.
fn write_with(addr: &[u8], len: &[u8], value: &[u8]) -> Option<Result<Act, Fault>>
    ensures { result ≡ write_with (number_of addr.now) (number_of len.now) (number_of value.now) }
{
    let addr = number(addr)?;
    let len = number(len)?;
    let value = number(value)?;
    Some(match width_of(len) {
        Some(width) => Ok(Act::Write { addr, width, value }),
        None => Err(Fault::BadRange),
    })
}

/// The fields after `write STEP`.
#[tactic(auto, unfolding(crate::specs::Alterations::write_of))]
fn write_of(mut fields: Parts<'_>) -> Option<Result<Act, Fault>>
    ensures { result ≡ write_of fields.entry }
{
    let addr = fields.next()?;
    let len = fields.next()?;
    let value = fields.next()?;
    if fields.next().is_some() {
        return None;
    }
    write_with(addr, len, value)
}

/// No field after `skip STEP`.
#[tactic(auto, unfolding(crate::specs::Alterations::skip_of))]
fn skip_of(mut fields: Parts<'_>) -> Option<Act>
    ensures { result ≡ skip_of fields.entry }
{
    match fields.next() {
        None => Some(Act::Skip),
        Some(_) => None,
    }
}

/// What a line asks for, by its first word and the fields after STEP; or why it is rejected, once its step isn't.
#[tactic(auto, unfolding(crate::specs::Alterations::act_of))]
fn act_of(word: &[u8], fields: Parts<'_>) -> Option<Result<Act, Fault>>
    ensures { result ≡ act_of word.now fields.entry }
{
    if word == SET {
        Some(Ok(set_of(fields)?))
    } else if word == FLIP {
        Some(Ok(flip_of(fields)?))
    } else if word == WRITE {
        write_of(fields)
    } else if word == SKIP {
        Some(Ok(skip_of(fields)?))
    } else {
        None
    }
}

/// The alteration of a step, which may be the limit at most, and of what is asked for, unless one of the two is rejected.
fn judged(
    limit: u32,
    step: Option<u32>,
    act: Option<Result<Act, Fault>>,
) -> Result<Alteration, Fault>
    ensures { result ≡ judged limit step act }
{
    let Some(step) = step else {
        return Err(Fault::BadCommand);
    };
    let Some(act) = act else {
        return Err(Fault::BadCommand);
    };
    if step > limit {
        return Err(Fault::StepLimit);
    }
    let act = act?;
    Ok(Alteration { step, act })
}

/// The alteration of a line's fields.
fn alteration_among(limit: u32, mut fields: Parts<'_>) -> Result<Alteration, Fault>
    ensures { result ≡ alteration_among limit fields.entry }
{
    let Some(word) = fields.next() else {
        return Err(Fault::BadCommand);
    };
    let Some(step) = fields.next() else {
        return Err(Fault::BadCommand);
    };
    judged(limit, number(step), act_of(word, fields))
}

/// Returns the alteration that a line asks for, or the fault for which the line is rejected.
///
/// # Errors
///
/// [`Fault::BadCommand`] for another line, or a field that is missing, too many or of another form; then [`Fault::StepLimit`]; then
/// [`Fault::BadRange`] for a write of a number of bytes other than 1, 2 and 4. What depends on the marks so far is left to the edit.
#[tactic(auto, unfolding(crate::specs::Alterations::alteration_asked))]
pub fn alteration_asked(limit: u32, line: &[u8]) -> Result<Alteration, Fault>
    ensures { result ≡ alteration_asked limit line.now }
{
    alteration_among(limit, Parts::new(line, b' '))
}
