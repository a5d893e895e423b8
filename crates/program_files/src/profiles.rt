//! What a program's file is read for, by the texts of a command line.
ghost use Rattle.std.specs.Prelude.{◌≡◌, ℕ, List, None, Some, IfErr, IfOk};
ghost use denote.Ref.{Bor};
ghost use Rattle.exit_status.specs.declared.ends.End.TheVariants.{BadMostMoved, BadMostOutput};
ghost use Rattle.program_files.specs.Profiles.{between, bounds_in, heap_in, moved_in, moved_number, output_in, stack_in, IsProfileNamed, NoProfile};

use command_line::{ProfileArgs, isa_named};
use commands::number;
use exit_status::End;
use guest_elf::{Profile, StreamLimits};
use memory_map::{Regions, RegionsFault, StackRegion};
use texts::Parts;

/// A region without an address, which no stack has.
const NO_STACK: StackRegion = StackRegion { begin: 0, end: 0 };

/// Returns where a text has the heap's region begin; 0, where none begins, if the text is no number.
fn heap_in(text: &str) -> u32
    ensures { result ≡ heap_in text.now }
{
    number(text.as_bytes()).unwrap_or(0)
}

/// Returns the region from one number up to, but not including, another.
fn between(begin: Option<u32>, end: Option<u32>) -> StackRegion
    ensures { result ≡ between begin end }
{
    match (begin, end) {
        (Some(begin), Some(end)) => StackRegion { begin, end },
        _ => NO_STACK,
    }
}

/// Returns the region of a text, given its parts between dots.
#[tactic(auto, unfolding(crate::specs::Profiles::bounds_in))]
fn bounds_in(mut parts: Parts<'_>) -> StackRegion
    ensures { result ≡ bounds_in parts.entry }
{
    let Some(begin) = parts.next() else {
        return NO_STACK;
    };
    let Some(gap) = parts.next() else {
        return NO_STACK;
    };
    let Some(end) = parts.next() else {
        return NO_STACK;
    };
    if parts.next().is_some() || !gap.is_empty() {
        return NO_STACK;
    }
    between(number(begin), number(end))
}

/// Returns where a text has the stack's region lie; a region without an address if the text isn't of the form `A..B`.
fn stack_in(text: &str) -> StackRegion
    ensures { result ≡ stack_in text.now }
{
    bounds_in(Parts::new(text.as_bytes(), b'.'))
}

/// The most bytes that one call moves on Linux.
const GREATEST_MOVED: u32 = 0x7fff_f000;

/// Returns a number, if one call may move as many bytes.
fn moved_number(number: Option<u32>) -> Option<u32>
    ensures { result ≡ moved_number number }
{
    match number {
        Some(n) => {
            if n >= 1 && n <= GREATEST_MOVED {
                Some(n)
            } else {
                None
            }
        }
        None => None,
    }
}

/// Returns the most bytes that one call moves, by the text of an option; the usual number if it isn't given.
fn moved_in<'a>(given: Option<&'a str>) -> Result<u32, End<'a>>
    ensures ok { IfOk result (λ n. moved_in given.entry ≡ Some n) }
    ensures err { IfErr result (λ end. (text : Bor (List ℕ)) × (given.entry ≡ Some text) × (moved_in given.entry ≡ None) × (end ≡ BadMostMoved text)) }
{
    let Some(text) = given else {
        return Ok(StreamLimits::USUAL.most_moved);
    };
    match moved_number(number(text.as_bytes())) {
        Some(n) => Ok(n),
        None => Err(End::BadMostMoved(text)),
    }
}

/// Returns the most bytes of output, by the text of an option; the usual number if it isn't given.
fn output_in<'a>(given: Option<&'a str>) -> Result<u64, End<'a>>
    ensures ok { IfOk result (λ n. output_in given.entry ≡ Some n) }
    ensures err { IfErr result (λ end. (text : Bor (List ℕ)) × (given.entry ≡ Some text) × (output_in given.entry ≡ None) × (end ≡ BadMostOutput text)) }
{
    let Some(text) = given else {
        return Ok(StreamLimits::USUAL.most_output);
    };
    if text == "none" {
        return Ok(u64::MAX);
    }
    match number(text.as_bytes()) {
        Some(n) => Ok(u64::from(n)),
        None => Err(End::BadMostOutput(text)),
    }
}

/// Returns what a program's file is read for, by the name of an instruction set, the begin of the heap's region, the bounds of the
/// stack's, and how many bytes calls move.
///
/// # Errors
///
/// Returns the end for the first fault, with the text that has it: of the name, of the heap's region, of the stack's, that the two have
/// an address in common, or of the two numbers of bytes.
pub fn profile_named<'a>(words: ProfileArgs<'a>) -> Result<Profile, End<'a>>
    ensures ok { IfOk result (IsProfileNamed words.entry) }
    ensures err { IfErr result (NoProfile words.entry) }
{
    let Some(isa) = isa_named(words.isa) else {
        return Err(End::BadIsa(words.isa));
    };
    let regions = match Regions::new(heap_in(words.heap), stack_in(words.stack)) {
        Ok(regions) => regions,
        Err(RegionsFault::Heap) => return Err(End::BadHeapRegion(words.heap)),
        Err(RegionsFault::Stack) => return Err(End::BadStackRegion(words.stack)),
        Err(RegionsFault::Meet) => {
            return Err(End::RegionsOverlap {
                heap: words.heap,
                stack: words.stack,
            });
        }
    };
    let most_moved = moved_in(words.most_moved)?;
    let most_output = output_in(words.most_output)?;
    let limits = StreamLimits {
        most_moved,
        most_output,
    };
    Ok(Profile {
        isa,
        regions,
        limits,
    })
}
