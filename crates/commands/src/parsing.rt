//! A line read as a command.
ghost use Rattle.std.specs.Prelude.{◌≡◌, true, false};
ghost use Rattle.commands.specs.Commands.{has_empty, kind_of, taken, alone, replace_of, append_of, cut_of, input_of, patch_of, patch_half_of, mark_of, one_number, unmark_with, switch_of, add_with, option_named, option_of, command_of, parsed, Reads};
ghost use Rattle.suppressions.specs.Added.{added};

use crate::command::Command;
use crate::edit::Edit;
use crate::fault::Fault;
use crate::numbers::{byte, half, number, one_number};
use run_values::{Act, Alteration};
use shadow_memory::RangeKind;
use std::alloc::Global;
use suppressions::{LeakKinds, SuppFault, Suppression};
use texts::Parts;

const DEFINED: &[u8] = b"defined";

const UNDEFINED: &[u8] = b"undefined";

const NOACCESS: &[u8] = b"noaccess";

const ON: &[u8] = b"on";

const OFF: &[u8] = b"off";

const CALLERS: &[u8] = b"callers";

const REDZONE: &[u8] = b"redzone";

const VOLUME: &[u8] = b"queue";

const SHOW: &[u8] = b"show";

const GOTO: &[u8] = b"goto";

const REPORT: &[u8] = b"report";

const INPUT: &[u8] = b"input";

const APPEND: &[u8] = b"append";

const CUT: &[u8] = b"cut";

const PATCH: &[u8] = b"patch";

const PATCH_HALF: &[u8] = b"patch16";

const MARK: &[u8] = b"mark";

const UNMARK: &[u8] = b"unmark";

const SUPP: &[u8] = b"supp";

const OPTION: &[u8] = b"option";

const WORKED: &[u8] = b"worked";

/// Whether one of some fields is empty.
fn has_empty(mut fields: Parts<'_>) -> bool
    ensures { result ≡ has_empty fields.entry }
{
    while let Some(field) = fields.next() {
        if field.is_empty() {
            return true;
        }
    }
    false
}

#[tactic(auto, unfolding(crate::specs::Commands::kind_of))]
fn kind_of(field: &[u8]) -> Option<RangeKind>
    ensures { result ≡ kind_of field.now }
{
    if field == DEFINED {
        Some(RangeKind::Defined)
    } else if field == UNDEFINED {
        Some(RangeKind::Undefined)
    } else if field == NOACCESS {
        Some(RangeKind::NoAccess)
    } else {
        None
    }
}

/// A command, or the fault of fields that aren't one.
fn taken(command: Option<Command>) -> Result<Command, Fault>
    ensures { result ≡ taken command }
{
    match command {
        Some(command) => Ok(command),
        None => Err(Fault::BadCommand),
    }
}

/// A command without fields.
#[tactic(auto, unfolding(crate::specs::Commands::alone))]
fn alone(command: Command, mut fields: Parts<'_>) -> Result<Command, Fault>
    ensures { result ≡ alone command fields.entry }
{
    match fields.next() {
        None => Ok(command),
        Some(_) => Err(Fault::BadCommand),
    }
}

/// `input OFFSET BYTE`.
#[tactic(auto, unfolding(crate::specs::Commands::replace_of))]
fn replace_of(offset: &[u8], mut fields: Parts<'_>) -> Option<Command>
    ensures { result ≡ replace_of offset.now fields.entry }
{
    let value = fields.next()?;
    if fields.next().is_some() {
        return None;
    }
    let offset = number(offset)?;
    let byte = byte(value)?;
    Some(Command::Edit(Edit::Input { offset, byte }))
}

/// `input append BYTE`.
#[tactic(auto, unfolding(crate::specs::Commands::append_of))]
fn append_of(mut fields: Parts<'_>) -> Option<Command>
    ensures { result ≡ append_of fields.entry }
{
    let value = fields.next()?;
    if fields.next().is_some() {
        return None;
    }
    let byte = byte(value)?;
    Some(Command::Edit(Edit::Append(byte)))
}

/// `input cut`.
#[tactic(auto, unfolding(crate::specs::Commands::cut_of))]
fn cut_of(mut fields: Parts<'_>) -> Option<Command>
    ensures { result ≡ cut_of fields.entry }
{
    match fields.next() {
        None => Some(Command::Edit(Edit::Cut)),
        Some(_) => None,
    }
}

/// An edit of the input.
#[tactic(auto, unfolding(crate::specs::Commands::input_of))]
fn input_of(mut fields: Parts<'_>) -> Option<Command>
    ensures { result ≡ input_of fields.entry }
{
    let word = fields.next()?;
    if word == APPEND {
        append_of(fields)
    } else if word == CUT {
        cut_of(fields)
    } else {
        replace_of(word, fields)
    }
}

/// `patch ADDR WORD`.
#[tactic(auto, unfolding(crate::specs::Commands::patch_of))]
fn patch_of(mut fields: Parts<'_>) -> Option<Command>
    ensures { result ≡ patch_of fields.entry }
{
    let addr = fields.next()?;
    let word = fields.next()?;
    if fields.next().is_some() {
        return None;
    }
    let addr = number(addr)?;
    let word = number(word)?;
    Some(Command::Edit(Edit::Patch { addr, word }))
}

/// `patch16 ADDR HALF`.
#[tactic(auto, unfolding(crate::specs::Commands::patch_half_of))]
fn patch_half_of(mut fields: Parts<'_>) -> Option<Command>
    ensures { result ≡ patch_half_of fields.entry }
{
    let addr = fields.next()?;
    let value = fields.next()?;
    if fields.next().is_some() {
        return None;
    }
    let addr = number(addr)?;
    let half = half(value)?;
    Some(Command::Edit(Edit::PatchHalf { addr, half }))
}

/// `mark STEP ADDR LEN KIND`.
#[tactic(auto, unfolding(crate::specs::Commands::mark_of))]
fn mark_of(mut fields: Parts<'_>) -> Option<Command>
    ensures { result ≡ mark_of fields.entry }
{
    let step = fields.next()?;
    let addr = fields.next()?;
    let len = fields.next()?;
    let kind = fields.next()?;
    if fields.next().is_some() {
        return None;
    }
    let step = number(step)?;
    let addr = number(addr)?;
    let len = number(len)?;
    let kind = kind_of(kind)?;
    Some(Command::Edit(Edit::Mark(Alteration {
        step,
        act: Act::Make { addr, len, kind },
    })))
}

/// `unmark I`.
fn unmark_of(fields: Parts<'_>) -> Option<Command>
    ensures { result ≡ unmark_with (one_number fields.entry) }
{
    let index = one_number(fields)?;
    Some(Command::Edit(Edit::Unmark(index)))
}

/// `supp on I` and `supp off I`.
#[tactic(auto, unfolding(crate::specs::Commands::switch_of))]
fn switch_of(mut fields: Parts<'_>) -> Option<Command>
    ensures { result ≡ switch_of fields.entry }
{
    let word = fields.next()?;
    if word == ON {
        let index = one_number(fields)?;
        Some(Command::Edit(Edit::Switch { index, on: true }))
    } else if word == OFF {
        let index = one_number(fields)?;
        Some(Command::Edit(Edit::Switch { index, on: false }))
    } else {
        None
    }
}

/// `supp add` with these arguments.
fn add_of(alloc: Global, words: &[u8]) -> Result<Command, Fault>
    ensures { Reads (add_with (added words.now)) result }
{
    match Suppression::from_words(alloc, words) {
        Ok(suppression) => Ok(Command::Edit(Edit::Add(suppression))),
        Err(SuppFault::Memory) => Err(Fault::Memory),
        Err(SuppFault::BadSuppression(_)) => Err(Fault::BadSuppression),
    }
}

/// An option by its name.
#[tactic(auto, unfolding(crate::specs::Commands::option_named))]
fn option_named(name: &[u8], field: &[u8]) -> Result<Command, Fault>
    ensures { result ≡ option_named name.now field.now }
{
    if name == SHOW {
        return match LeakKinds::from_list(field) {
            Some(kinds) => Ok(Command::Edit(Edit::Show(kinds))),
            None => Err(Fault::BadOption),
        };
    }
    let known = name == CALLERS || name == REDZONE || name == VOLUME;
    if !known {
        return Err(Fault::BadOption);
    }
    let Some(n) = number(field) else {
        return Err(Fault::BadCommand);
    };
    if name == CALLERS {
        Ok(Command::Edit(Edit::Callers(n)))
    } else if name == REDZONE {
        Ok(Command::Edit(Edit::Redzone(n)))
    } else {
        Ok(Command::Edit(Edit::Volume(n)))
    }
}

/// `option NAME FIELD`.
#[tactic(auto, unfolding(crate::specs::Commands::option_of))]
fn option_of(mut fields: Parts<'_>) -> Result<Command, Fault>
    ensures { result ≡ option_of fields.entry }
{
    let Some(name) = fields.next() else {
        return Err(Fault::BadCommand);
    };
    let Some(field) = fields.next() else {
        return Err(Fault::BadCommand);
    };
    if fields.next().is_some() {
        return Err(Fault::BadCommand);
    }
    option_named(name, field)
}

/// The command of a word and the fields after it.
#[tactic(auto, unfolding(crate::specs::Commands::command_of))]
fn command_of(word: &[u8], fields: Parts<'_>) -> Result<Command, Fault>
    ensures { result ≡ command_of word.now fields.entry }
{
    if word == GOTO {
        taken(one_number(fields).map(Command::Goto))
    } else if word == REPORT {
        alone(Command::Report, fields)
    } else if word == INPUT {
        taken(input_of(fields))
    } else if word == PATCH {
        taken(patch_of(fields))
    } else if word == PATCH_HALF {
        taken(patch_half_of(fields))
    } else if word == MARK {
        taken(mark_of(fields))
    } else if word == UNMARK {
        taken(unmark_of(fields))
    } else if word == SUPP {
        taken(switch_of(fields))
    } else if word == OPTION {
        option_of(fields)
    } else if word == WORKED {
        alone(Command::Worked, fields)
    } else {
        Err(Fault::BadCommand)
    }
}

/// Returns the command of a line, or why it is none.
#[tactic(auto, unfolding(crate::specs::Commands::parsed))]
pub fn parse(alloc: Global, line: &[u8]) -> Result<Command, Fault>
    ensures { Reads (parsed line.now) result }
{
    let mut fields = Parts::new(line, b' ');
    if has_empty(fields.fork()) {
        return Err(Fault::BadCommand);
    }
    if let Some(words) = line.strip_prefix(b"supp add ") {
        return add_of(alloc, words);
    }
    let Some(word) = fields.next() else {
        return Err(Fault::BadCommand);
    };
    command_of(word, fields)
}
