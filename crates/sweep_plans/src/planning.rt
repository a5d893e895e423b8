//! The places of a sweep of a program with an input.
ghost use Rattle.std.specs.Prelude.{◌≡◌, ◌≤◌, ◌+◌, ◌/◌, ◌^◌, ◌⊎◌, ◌||◌, IfErr, IfOk, None, Some, is_some, length};
ghost use Rattle.sweep_plans.specs.Planned.{HasNoPlan, IsPlanOf, NoInstructions, bytes_by, bytes_meant, code_by, end_behind, if_any, inside, instructions_by, instructions_in, models_by, pairs_by, steps_by, words_by};
ghost use Rattle.exit_status.specs.declared.ends.End.TheVariants.{BytesRefused, NoMemory, StepsRefused, WordsRefused};

use crate::code::instructions;
use crate::loaded::has_word;
use crate::plan::{FaultModels, Places, Plan, SweepPlace};
use crate::request::{Range, Request};
use crate::steps::StepRequest;
use exit_status::End;
use guest_elf::Image;
use std::alloc::Global;

/// No places.
const NOWHERE: Places = Places { first: 0, end: 0 };

/// The number of addresses.
const ADDRESSES: u64 = 1 << 32;

/// Returns the end after a last place, or after all places.
fn end_behind(last: Option<u32>, all: u64) -> u64
    ensures { result ≡ end_behind last all }
{
    match last {
        Some(last) => u64::from(last) + 1,
        None => all,
    }
}

/// Returns the bytes to edit in an input of some length: those that are named, or all if neither words nor steps are.
pub fn bytes_of<'a>(named: Option<Range>, has_others: bool, len: u32) -> Result<Places, End<'a>>
    ensures ok { IfOk result (λ places. bytes_by named has_others len ≡ Some places) }
    ensures err { IfErr result (λ end. (end ≡ BytesRefused) × (bytes_by named has_others len ≡ None)) }
{
    let (first, end) = match named {
        Some(range) => (range.first, end_behind(range.last, u64::from(len))),
        None if has_others => return Ok(NOWHERE),
        None => (0, u64::from(len)),
    };
    if u64::from(first) < end && end <= u64::from(len) {
        Ok(Places {
            first,
            end: end as u32,
        })
    } else {
        Err(End::BytesRefused)
    }
}

/// Returns the first multiple of 4 from an address on, divided by 4.
fn quarter(address: u64) -> u32
    requires { address ≤ 2 ^ 32 }
    ensures value { result ≡ (address + 3) / 4 }
    ensures small { result ≤ 2 ^ 30 }
{
    ((address + 3) / 4) as u32
}

/// Returns the words to edit, if all instructions are words.
fn words_of<'a>(named: Option<Range>, image: &Image) -> Result<Places, End<'a>>
    ensures ok { IfOk result (λ places. words_by image.now named ≡ Some places) }
    ensures small { IfOk result (λ places. places.end ≤ 2 ^ 30) }
    ensures err { IfErr result (λ end. (end ≡ WordsRefused) × (words_by image.now named ≡ None)) }
{
    let Some(range) = named else {
        return Ok(NOWHERE);
    };
    if image.profile().isa.has_halves() {
        return Ok(NOWHERE);
    }
    let words = Places {
        first: quarter(u64::from(range.first)),
        end: quarter(end_behind(range.last, ADDRESSES)),
    };
    if has_word(image, words) {
        Ok(words)
    } else {
        Err(End::WordsRefused)
    }
}

/// Returns half of the first multiple of 2 from an address on.
fn half(address: u64) -> u32
    requires { address ≤ 2 ^ 32 }
    ensures value { result ≡ (address + 1) / 2 }
    ensures small { result ≤ 2 ^ 31 }
{
    ((address + 1) / 2) as u32
}

/// Returns the instructions that begin at the addresses of a range, if there is one.
fn instructions_in<'a>(
    alloc: Global,
    range: Range,
    image: &Image,
) -> Result<Vec<SweepPlace>, End<'a>>
    ensures ok { IfOk result (λ list. if_any (instructions_in image.now range) ≡ Some list.items) }
    ensures few { IfOk result (λ list. length list.items ≤ 2 ^ 31) }
    ensures err { IfErr result (λ end. ((end ≡ WordsRefused) × (if_any (instructions_in image.now range) ≡ None)) ⊎ (end ≡ NoMemory)) }
{
    let halves = Places {
        first: half(u64::from(range.first)),
        end: half(end_behind(range.last, ADDRESSES)),
    };
    let Ok(list) = instructions(alloc, image, halves) else {
        return Err(End::NoMemory);
    };
    if list.is_empty() {
        Err(End::WordsRefused)
    } else {
        Ok(list)
    }
}

/// Returns the instructions to edit, if some have 16 bits.
fn instructions_of<'a>(
    alloc: Global,
    named: Option<Range>,
    image: &Image,
) -> Result<Vec<SweepPlace>, End<'a>>
    ensures ok { IfOk result (λ list. instructions_by image.now named ≡ Some list.items) }
    ensures few { IfOk result (λ list. length list.items ≤ 2 ^ 31) }
    ensures err { IfErr result (NoInstructions named image.now) }
{
    let Some(range) = named else {
        return Ok(Vec::new(alloc));
    };
    if image.profile().isa.has_halves() {
        instructions_in(alloc, range, image)
    } else {
        Ok(Vec::new(alloc))
    }
}

/// Returns the steps at which faults strike: those below the step of the outcomes.
fn steps_of<'a>(named: Option<StepRequest>, step: u32) -> Result<Places, End<'a>>
    ensures ok { IfOk result (λ places. steps_by named step ≡ Some places) }
    ensures err { IfErr result (λ end. (end ≡ StepsRefused) × (steps_by named step ≡ None)) }
{
    let Some(steps) = named else {
        return Ok(NOWHERE);
    };
    let first = steps.at.first;
    let end = end_behind(steps.at.last, u64::from(step));
    if u64::from(first) < end && end <= u64::from(step) {
        Ok(Places {
            first,
            end: end as u32,
        })
    } else {
        Err(End::StepsRefused)
    }
}

/// Returns the fault models of the named steps.
fn models_of(named: Option<StepRequest>) -> FaultModels
    ensures { result ≡ models_by named }
{
    match named {
        Some(steps) => steps.models,
        None => FaultModels::none(),
    }
}

/// Returns the range of code of the named steps, if one is named.
fn code_of(named: Option<StepRequest>) -> Option<Range>
    ensures { result ≡ code_by named }
{
    named?.code
}

/// Returns whether pairs are tried at the named steps.
fn pairs_of(named: Option<StepRequest>) -> bool
    ensures { result ≡ pairs_by named }
{
    match named {
        Some(steps) => steps.pairs,
        None => false,
    }
}

/// Returns whether a request names words or steps.
fn names_others(request: &Request) -> bool
    ensures { result ≡ (is_some request.now.words || is_some request.now.steps) }
{
    request.words.is_some() || request.steps.is_some()
}

/// Returns the plan of a sweep of a program with an input of some length, for outcomes at a step.
#[tactic(auto, unfolding(crate::specs::Planned::bytes_meant))]
pub fn plan_of<'a>(
    alloc: Global,
    request: Request,
    image: &Image,
    len: u32,
    step: u32,
) -> Result<Plan, End<'a>>
    ensures ok { IfOk result (λ plan. IsPlanOf request image.now len step plan) }
    ensures err { IfErr result (HasNoPlan request image.now len step) }
{
    let has_others = names_others(&request);
    let bytes = bytes_of(request.bytes, has_others, len)?;
    let words = words_of(request.words, image)?;
    let instructions = instructions_of(alloc, request.words, image)?;
    let steps = steps_of(request.steps, step)?;
    Ok(Plan {
        bytes,
        byte_values: request.byte_values,
        words,
        instructions,
        word_values: request.word_values,
        steps,
        models: models_of(request.steps),
        code: code_of(request.steps),
        pairs: pairs_of(request.steps),
    })
}
