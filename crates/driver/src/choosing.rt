//! The bytes that may be any, as the arguments of `certify` name them.
ghost use Rattle.std.specs.Prelude.{◌≡◌, IfErr, IfOk};
ghost use Rattle.command_line.specs.Orders.{text_of};
ghost use Rattle.exit_status.specs.declared.ends.SweepOption.TheVariants.{AnyMemory, Reveal as RevealOption};
ghost use Rattle.driver.specs.Choosing.{IsChosen, IsNotChosen, Names, NamesInput, NamesNoInput, NamesNone, can_reveal, memory_of, reveal_in, reveal_of};

use any_verdicts::{Chosen, Reveal};
use command_line::CertifyArgs;
use commands::number;
use exit_status::{End, LoneOption, SweepOption};
use run_values::Span;
use scenario::FURTHEST_STEP;
use sweep_plans::{bytes_of, closed_range, open_range};
use texts::Parts;

/// Returns the range of an input of some length that is named, if one is.
fn named_input<'a>(text: Option<&'a str>, len: u32) -> Result<Option<Span>, End<'a>>
    ensures ok { IfOk result (NamesInput (text_of text.entry) len) }
    ensures err { IfErr result (NamesNoInput (text_of text.entry) len) }
{
    let Some(text) = text else {
        return Ok(None);
    };
    let Some(range) = open_range(text.as_bytes()) else {
        return Err(End::BadText {
            option: SweepOption::Any,
            text,
        });
    };
    let places = bytes_of(Some(range), true, len)?;
    Ok(Some(Span {
        start: places.first,
        len: places.end.saturating_sub(places.first),
    }))
}

/// Returns the range of memory that a text is.
fn memory_in(text: &[u8]) -> Option<Span>
    ensures { result ≡ memory_of text.now }
{
    let range = closed_range(text)?;
    let last = range.last?;
    if range.first < last {
        Some(Span {
            start: range.first,
            len: last - range.first,
        })
    } else {
        None
    }
}

/// Returns the range of memory that is named, if one is.
fn named_memory<'a>(text: Option<&'a str>) -> Result<Option<Span>, End<'a>>
    ensures ok { IfOk result (Names memory_of (text_of text.entry)) }
    ensures err { IfErr result (NamesNone AnyMemory memory_of (text_of text.entry)) }
{
    let Some(text) = text else {
        return Ok(None);
    };
    match memory_in(text.as_bytes()) {
        Some(span) => Ok(Some(span)),
        None => Err(End::BadText {
            option: SweepOption::AnyMemory,
            text,
        }),
    }
}

/// Returns whether bytes can be revealed before a step: the step may be made, and they are bytes of memory, one at least.
#[tactic(auto, unfolding(crate::specs::Choosing::can_reveal))]
fn can_reveal(step: u32, start: u32, len: u32) -> bool
    ensures { result ≡ can_reveal step start len }
{
    step <= FURTHEST_STEP && len > 0 && u64::from(start) + u64::from(len) <= 0x1_0000_0000
}

/// Returns what is revealed, given its parts between commas.
#[tactic(auto, unfolding(crate::specs::Choosing::reveal_in))]
fn reveal_in(mut parts: Parts<'_>) -> Option<Reveal>
    ensures { result ≡ reveal_in parts.entry }
{
    let step = parts.next()?;
    let addr = parts.next()?;
    let len = parts.next()?;
    if parts.next().is_some() {
        return None;
    }
    let step = number(step)?;
    let start = number(addr)?;
    let len = number(len)?;
    if !can_reveal(step, start, len) {
        return None;
    }
    let span = Span { start, len };
    Some(Reveal { step, span })
}

/// Returns what is revealed, if something is.
fn named_reveal<'a>(text: Option<&'a str>) -> Result<Option<Reveal>, End<'a>>
    ensures ok { IfOk result (Names reveal_of (text_of text.entry)) }
    ensures err { IfErr result (NamesNone RevealOption reveal_of (text_of text.entry)) }
{
    let Some(text) = text else {
        return Ok(None);
    };
    match reveal_in(Parts::new(text.as_bytes(), b',')) {
        Some(reveal) => Ok(Some(reveal)),
        None => Err(End::BadText {
            option: SweepOption::Reveal,
            text,
        }),
    }
}

/// Returns the bytes that some arguments choose, for an input of some length, if they choose any.
pub(crate) fn chosen_of<'a>(args: &CertifyArgs<'a>, len: u32) -> Result<Option<Chosen>, End<'a>>
    ensures ok { IfOk result (IsChosen args.now len) }
    ensures err { IfErr result (IsNotChosen args.now len) }
{
    let input = named_input(args.any, len)?;
    let memory = named_memory(args.any_memory)?;
    let reveal = named_reveal(args.reveal)?;
    if input.is_some() || memory.is_some() {
        return Ok(Some(Chosen {
            input,
            memory,
            reveal,
        }));
    }
    match reveal {
        Some(_) => Err(End::Lone(LoneOption::Reveal)),
        None => Ok(None),
    }
}
