//! Reads the arguments of a sweep.
ghost use Rattle.std.specs.Prelude.{◌≡◌, IfErr, IfOk, IfSome, MatchOption, Some, option_map};
ghost use Rattle.command_line.specs.Orders.{text_of};
ghost use Rattle.sweep_plans.specs.Planned.{AreBadByteValues, AreBadWordValues, AreEditsOf, AreNoEdits, IsBadPart, IsNoRequest, IsPart, IsRequestOf, has_others};
ghost use Rattle.sweep_plans.specs.Requests.{IsBadRange, NamesByteValues, NamesNoByteValues, NamesNoWordValues, NamesRange, NamesWordValues, closed_range_of, joined_by, list_of, part_in, part_of, range_in, range_of, up_to};
ghost use Rattle.exit_status.specs.declared.ends.SweepOption.TheVariants.{Bytes, Words};

use crate::plan::{ByteValues, WordValues};
use crate::steps::{StepRequest, named_steps};
use command_line::SweepArgs;
use commands::number;
use exit_status::{End, LoneOption, SweepOption};
use std::alloc::{AllocError, Global};
use texts::Parts;

const ALL: &[u8] = b"all";

const FLIPS: &[u8] = b"flips";

const EDGES: &[u8] = b"edges";

const SKIP: &[u8] = b"skip";

/// The greatest number of parts of a sweep.
const MOST_PARTS: u32 = 1_000_000;

/// Places from a first one to a last one, or to the last that exists.
#[derive(Clone, Copy)]
pub struct Range {
    /// The first place.
    pub first: u32,
    /// The last place, if it is named.
    pub last: Option<u32>,
}

/// One of the parts into which the places are split.
#[derive(Clone, Copy)]
pub struct Part {
    /// The number of this part, from 1.
    pub index: u32,
    /// The number of parts.
    pub count: u32,
}

/// The request that the arguments of a sweep make.
#[derive(Drop)]
pub struct Request {
    /// The bytes of the input, if some are named.
    pub bytes: Option<Range>,
    /// The values that they get.
    pub byte_values: ByteValues,
    /// The addresses of words, if some are named.
    pub words: Option<Range>,
    /// The values that they get.
    pub word_values: WordValues,
    /// The steps that faults strike, if some are named.
    pub steps: Option<StepRequest>,
    /// The part of the places.
    pub part: Part,
}

/// Returns a range from a place on, given what follows the dots.
fn range_to(first: u32, end: &[u8]) -> Option<Range>
    ensures { result ≡ up_to (Some first) end.now }
{
    if end.is_empty() {
        return Some(Range { first, last: None });
    }
    let last = number(end)?;
    if last < first {
        return None;
    }
    Some(Range {
        first,
        last: Some(last),
    })
}

/// Returns a range, given its parts between dots.
#[tactic(auto, unfolding(crate::specs::Requests::range_in))]
fn range_in(mut parts: Parts<'_>) -> Option<Range>
    ensures { result ≡ range_in parts.entry }
{
    let first = parts.next()?;
    let Some(gap) = parts.next() else {
        let only = number(first)?;
        return Some(Range {
            first: only,
            last: Some(only),
        });
    };
    let end = parts.next()?;
    if parts.next().is_some() || !gap.is_empty() {
        return None;
    }
    range_to(number(first)?, end)
}

/// Returns a range.
pub fn open_range(text: &[u8]) -> Option<Range>
    ensures { result ≡ range_of text.now }
{
    range_in(Parts::new(text, b'.'))
}

/// Returns a range that has an end.
pub fn closed_range(text: &[u8]) -> Option<Range>
    ensures { result ≡ closed_range_of text.now }
{
    let range = open_range(text)?;
    if range.last.is_some() {
        Some(range)
    } else {
        None
    }
}

/// Returns a part of a sweep, given its numbers.
#[tactic(auto, unfolding(crate::specs::Requests::part_in))]
fn part_in(mut parts: Parts<'_>) -> Option<Part>
    ensures value { result ≡ part_in parts.entry }
    ensures right { IfSome result IsPart }
{
    let index = parts.next()?;
    let count = parts.next()?;
    if parts.next().is_some() {
        return None;
    }
    let index = number(index)?;
    let count = number(count)?;
    if 1 <= index && index <= count && count <= MOST_PARTS {
        Some(Part { index, count })
    } else {
        None
    }
}

/// Returns a list with another number appended, if that is small enough and not in the list yet.
fn join(list: Vec<u32>, most: u32, next: Option<u32>) -> Result<Option<Vec<u32>>, AllocError>
    ensures { IfOk result (λ longer. option_map (λ v. v.items) longer ≡ joined_by most list.items next) }
{
    let mut list = list;
    let Some(n) = next else {
        return Ok(None);
    };
    if n > most || list.contains(&n) {
        return Ok(None);
    }
    list.push(n)?;
    Ok(Some(list))
}

/// Returns the numbers between commas, if none is there twice and none is above `most`.
#[tactic(auto, unfolding(crate::specs::Requests::listed_from))]
fn list_of(alloc: Global, text: &[u8], most: u32) -> Result<Option<Vec<u32>>, AllocError>
    ensures { IfOk result (λ list. option_map (λ v. v.items) list ≡ list_of most text.now) }
{
    let mut parts = Parts::new(text, b',');
    let mut list = Vec::new(alloc);
    while let Some(part) = parts.next() {
        match join(list, most, number(part))? {
            Some(longer) => list = longer,
            None => return Ok(None),
        }
    }
    Ok(Some(list))
}

/// Returns the values that a text names for bytes.
fn byte_values(alloc: Global, text: &[u8]) -> Result<Option<ByteValues>, AllocError>
    ensures { IfOk result (λ values. MatchOption values (NamesNoByteValues text.now) (NamesByteValues text.now)) }
{
    if text == ALL {
        return Ok(Some(ByteValues::All));
    }
    if text == FLIPS {
        return Ok(Some(ByteValues::Flips));
    }
    if text == EDGES {
        return Ok(Some(ByteValues::Edges));
    }
    match list_of(alloc, text, 255)? {
        Some(list) => Ok(Some(ByteValues::Listed(list))),
        None => Ok(None),
    }
}

/// Returns the values that a text names for words.
fn word_values(alloc: Global, text: &[u8]) -> Result<Option<WordValues>, AllocError>
    ensures { IfOk result (λ values. MatchOption values (NamesNoWordValues text.now) (NamesWordValues text.now)) }
{
    if text == FLIPS {
        return Ok(Some(WordValues::Flips));
    }
    if text == SKIP {
        return Ok(Some(WordValues::Skip));
    }
    match list_of(alloc, text, u32::MAX)? {
        Some(list) => Ok(Some(WordValues::Listed(list))),
        None => Ok(None),
    }
}

/// Returns the range of bytes that is named, if one is.
fn named_bytes<'a>(text: Option<&'a str>) -> Result<Option<Range>, End<'a>>
    ensures ok { IfOk result (NamesRange range_of (text_of text.entry)) }
    ensures err { IfErr result (IsBadRange Bytes range_of (text_of text.entry)) }
{
    let Some(text) = text else {
        return Ok(None);
    };
    match open_range(text.as_bytes()) {
        Some(range) => Ok(Some(range)),
        None => Err(End::BadText {
            option: SweepOption::Bytes,
            text,
        }),
    }
}

/// Returns the range of words that is named, if one is.
fn named_words<'a>(text: Option<&'a str>) -> Result<Option<Range>, End<'a>>
    ensures ok { IfOk result (NamesRange closed_range_of (text_of text.entry)) }
    ensures err { IfErr result (IsBadRange Words closed_range_of (text_of text.entry)) }
{
    let Some(text) = text else {
        return Ok(None);
    };
    match closed_range(text.as_bytes()) {
        Some(range) => Ok(Some(range)),
        None => Err(End::BadText {
            option: SweepOption::Words,
            text,
        }),
    }
}

/// Returns the values that are named for bytes.
fn named_byte_values<'a>(alloc: Global, text: &'a str) -> Result<ByteValues, End<'a>>
    ensures ok { IfOk result (NamesByteValues text.entry.now) }
    ensures err { IfErr result (AreBadByteValues text.entry.now) }
{
    match byte_values(alloc, text.as_bytes()) {
        Ok(Some(values)) => Ok(values),
        Ok(None) => Err(End::BadText {
            option: SweepOption::Values,
            text,
        }),
        Err(_) => Err(End::NoMemory),
    }
}

/// Returns the values that are named for words.
fn named_word_values<'a>(alloc: Global, text: &'a str) -> Result<WordValues, End<'a>>
    ensures ok { IfOk result (NamesWordValues text.entry.now) }
    ensures err { IfErr result (AreBadWordValues text.entry.now) }
{
    match word_values(alloc, text.as_bytes()) {
        Ok(Some(values)) => Ok(values),
        Ok(None) => Err(End::BadText {
            option: SweepOption::WordsValues,
            text,
        }),
        Err(_) => Err(End::NoMemory),
    }
}

/// Returns the part that is named.
fn named_part<'a>(text: &'a str) -> Result<Part, End<'a>>
    ensures ok { IfOk result (λ part. part_of text.entry.now ≡ Some part) }
    ensures right { IfOk result IsPart }
    ensures err { IfErr result (IsBadPart text.entry.now) }
{
    match part_in(Parts::new(text.as_bytes(), b'/')) {
        Some(part) => Ok(part),
        None => Err(End::BadText {
            option: SweepOption::Part,
            text,
        }),
    }
}

impl Request {
    /// Returns the request in the arguments of a sweep. They are read in the order of the fields of [`SweepArgs`]. The first that can't be
    /// read is how the sweep ends, or `--sides` if there are other edits than of bytes.
    pub fn of<'a>(alloc: Global, words: &SweepArgs<'a>) -> Result<Request, End<'a>>
        ensures ok { IfOk result (λ request. IsRequestOf words.now request) }
        ensures part { IfOk result (λ request. IsPart request.part) }
        ensures err { IfErr result (λ end. IsNoRequest words.now end) }
    {
        let request = Request::edits_of(alloc, words)?;
        if words.with_sides && request.has_others() {
            return Err(End::Lone(LoneOption::Sides));
        }
        Ok(request)
    }

    /// Returns whether there are edits of words, or at steps.
    fn has_others(&self) -> bool
        ensures { result ≡ has_others self.now }
    {
        self.words.is_some() || self.steps.is_some()
    }

    /// Returns the edits that the arguments of a sweep ask for.
    fn edits_of<'a>(alloc: Global, words: &SweepArgs<'a>) -> Result<Request, End<'a>>
        ensures ok { IfOk result (λ request. AreEditsOf words.now request) }
        ensures part { IfOk result (λ request. IsPart request.part) }
        ensures err { IfErr result (λ end. AreNoEdits words.now end) }
    {
        let bytes = named_bytes(words.bytes)?;
        let byte_values = named_byte_values(alloc, words.byte_values)?;
        let named = named_words(words.words)?;
        let word_values = named_word_values(alloc, words.word_values)?;
        let steps = named_steps(words.at, words.faults, words.code, words.pairs)?;
        let part = named_part(words.part)?;
        Ok(Request {
            bytes,
            byte_values,
            words: named,
            word_values,
            steps,
            part,
        })
    }
}
