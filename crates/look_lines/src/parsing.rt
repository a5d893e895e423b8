//! A line read as a look.
ghost use Rattle.std.specs.Prelude.{◌≡◌, IfOk, None};
ghost use Rattle.commands.specs.Commands.{number as number_of};
ghost use Rattle.look_lines.specs.Looks.{asked, bare, is_range, is_view, look_among, look_of, look_refusal, may_watch, number_in, range_of, search_of, search_refusal, span_with, stretch_of, stretch_refusal, watch_of};

use crate::look::{Look, Search, Stretch};
use checkpoints::{Sought, Watch};
use commands::{Fault, number};
use run_values::Span;
use texts::Parts;

const RUN: &[u8] = b"run";

const READ: &[u8] = b"read";

const WRITE: &[u8] = b"write";

const SHADOW: &[u8] = b"shadow";

const ERROR: &[u8] = b"error";

const REGISTERS: &[u8] = b"registers";

const CONTROLS: &[u8] = b"controls";

const MEMORY: &[u8] = b"memory";

const OUTPUT: &[u8] = b"output";

const SIDES: &[u8] = b"sides";

const INPUT: &[u8] = b"input";

const NEXT: &[u8] = b"next";

const LAST: &[u8] = b"last";

const CERTIFY: &[u8] = b"certify";

const STACK: &[u8] = b"stack";

const BLOCKS: &[u8] = b"blocks";

const CALLS: &[u8] = b"calls";

/// The greatest number of bytes that a look at memory, at the output or at sides may show, and that a search for a change of what is known of them
/// may watch.
const LONGEST_VIEW: u32 = 4096;

/// The range of a first address, or position, and a number of bytes.
fn span_of(addr: &[u8], len: &[u8]) -> Option<Span>
    ensures { result ≡ span_with (number_of addr.now) (number_of len.now) }
{
    let start = number(addr)?;
    let len = number(len)?;
    Some(Span { start, len })
}

/// What a step is watched for.
#[tactic(auto, unfolding(crate::specs::Looks::watch_of))]
fn watch_of(word: &[u8]) -> Option<Watch>
    ensures { result ≡ watch_of word.now }
{
    if word == RUN {
        Some(Watch::Run)
    } else if word == READ {
        Some(Watch::Read)
    } else if word == WRITE {
        Some(Watch::Write)
    } else if word == SHADOW {
        Some(Watch::Shadow)
    } else if word == ERROR {
        Some(Watch::Error)
    } else {
        None
    }
}

/// A look that has no fields.
#[tactic(auto, unfolding(crate::specs::Looks::bare))]
fn bare(look: Look, mut fields: Parts<'_>) -> Option<Look>
    ensures { result ≡ bare look fields.entry }
{
    match fields.next() {
        None => Some(look),
        Some(_) => None,
    }
}

/// The range of `memory ADDR LEN`, of `output FROM LEN` and of `sides ADDR LEN`.
#[tactic(auto, unfolding(crate::specs::Looks::range_of))]
fn range_of(mut fields: Parts<'_>) -> Option<Span>
    ensures { result ≡ range_of fields.entry }
{
    let start = fields.next()?;
    let len = fields.next()?;
    if fields.next().is_some() {
        return None;
    }
    span_of(start, len)
}

/// The address of `blocks ADDR`.
#[tactic(auto, unfolding(crate::specs::Looks::number_in))]
fn number_in(mut fields: Parts<'_>) -> Option<u32>
    ensures { result ≡ number_in fields.entry }
{
    let field = fields.next()?;
    if fields.next().is_some() {
        return None;
    }
    number(field)
}

/// The steps of `calls FROM END`.
#[tactic(auto, unfolding(crate::specs::Looks::stretch_of))]
fn stretch_of(mut fields: Parts<'_>) -> Option<Stretch>
    ensures { result ≡ stretch_of fields.entry }
{
    let from = fields.next()?;
    let end = fields.next()?;
    if fields.next().is_some() {
        return None;
    }
    let from = number(from)?;
    let end = number(end)?;
    Some(Stretch { from, end })
}

/// `KIND ADDR LEN STEP`.
#[tactic(auto, unfolding(crate::specs::Looks::search_of))]
fn search_of(mut fields: Parts<'_>) -> Option<Search>
    ensures { result ≡ search_of fields.entry }
{
    let kind = fields.next()?;
    let addr = fields.next()?;
    let len = fields.next()?;
    let bound = fields.next()?;
    if fields.next().is_some() {
        return None;
    }
    let watch = watch_of(kind)?;
    let range = span_of(addr, len)?;
    let bound = number(bound)?;
    Some(Search {
        sought: Sought { watch, range },
        bound,
    })
}

/// The look of the word after `look`, and the fields after that.
#[tactic(auto, unfolding(crate::specs::Looks::look_of))]
fn look_of(word: &[u8], fields: Parts<'_>) -> Option<Look>
    ensures { result ≡ look_of word.now fields.entry }
{
    if word == REGISTERS {
        bare(Look::Registers, fields)
    } else if word == CONTROLS {
        bare(Look::Controls, fields)
    } else if word == MEMORY {
        Some(Look::Memory(range_of(fields)?))
    } else if word == OUTPUT {
        Some(Look::Output(range_of(fields)?))
    } else if word == SIDES {
        Some(Look::Sides(range_of(fields)?))
    } else if word == INPUT {
        bare(Look::Input, fields)
    } else if word == NEXT {
        Some(Look::Next(search_of(fields)?))
    } else if word == LAST {
        Some(Look::Last(search_of(fields)?))
    } else if word == CERTIFY {
        bare(Look::Certify, fields)
    } else if word == STACK {
        bare(Look::Stack, fields)
    } else if word == BLOCKS {
        Some(Look::Blocks(number_in(fields)?))
    } else if word == CALLS {
        Some(Look::Calls(stretch_of(fields)?))
    } else {
        None
    }
}

/// The look of a line's fields, of which the first is `look`.
fn look_among(mut fields: Parts<'_>) -> Option<Look>
    ensures { result ≡ look_among fields.entry }
{
    let _look = fields.next()?;
    let word = fields.next()?;
    look_of(word, fields)
}

/// Whether a range has at least one byte, and ends at 2^32 or below.
fn is_range(range: Span) -> bool
    ensures { result ≡ is_range range }
{
    0 < range.len && u64::from(range.start) + u64::from(range.len) <= 1 << 32
}

/// Whether it is also no longer than one that may be shown.
fn is_view(range: Span) -> bool
    ensures { result ≡ is_view range }
{
    is_range(range) && range.len <= LONGEST_VIEW
}

/// Whether a search may watch a range for this.
fn may_watch(watch: Watch, range: Span) -> bool
    ensures { result ≡ may_watch watch range }
{
    match watch {
        Watch::Run | Watch::Read | Watch::Write | Watch::Error => is_range(range),
        Watch::Shadow => is_view(range),
    }
}

/// Why a search is rejected, if it is, where a step may be the limit at most.
fn search_refusal(limit: u32, search: Search) -> Option<Fault>
    ensures { result ≡ search_refusal limit search }
{
    if search.bound > limit {
        Some(Fault::StepLimit)
    } else if may_watch(search.sought.watch, search.sought.range) {
        None
    } else {
        Some(Fault::BadRange)
    }
}

/// Why steps are rejected, if they are.
fn stretch_refusal(limit: u32, stretch: Stretch) -> Option<Fault>
    ensures { result ≡ stretch_refusal limit stretch }
{
    if stretch.from > limit || stretch.end > limit {
        Some(Fault::StepLimit)
    } else {
        None
    }
}

/// Why a look is rejected, if it is.
fn look_refusal(limit: u32, look: Look) -> Option<Fault>
    ensures { result ≡ look_refusal limit look }
{
    match look {
        Look::Registers
        | Look::Controls
        | Look::Input
        | Look::Certify
        | Look::Stack
        | Look::Blocks(_) => None,
        Look::Memory(range) | Look::Output(range) | Look::Sides(range) => {
            if is_view(range) {
                None
            } else {
                Some(Fault::BadRange)
            }
        }
        Look::Next(search) | Look::Last(search) => search_refusal(limit, search),
        Look::Calls(stretch) => stretch_refusal(limit, stretch),
    }
}

/// Returns the look that a line asks for, or why it is rejected.
#[tactic(auto, unfolding(crate::specs::Looks::asked))]
pub fn asked(limit: u32, line: &[u8]) -> Result<Look, Fault>
    ensures asked { result ≡ asked limit line.now }
    ensures taken { IfOk result (λ look. look_refusal limit look ≡ None) }
{
    let Some(look) = look_among(Parts::new(line, b' ')) else {
        return Err(Fault::BadCommand);
    };
    match look_refusal(limit, look) {
        Some(fault) => Err(fault),
        None => Ok(look),
    }
}
