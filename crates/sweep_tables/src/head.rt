//! The first lines of a table: its format, the files that were read, and the request.
ghost use Rattle.std.specs.Prelude.{◌≡◌, ◌++◌, OnOk, codes};
ghost use Rattle.hex.specs.Hex.{encode_lower};
ghost use Rattle.sha2.specs.Sha256.{sha256};
ghost use Rattle.report_lines.specs.Text.{newline};
ghost use Rattle.command_line.specs.Orders.{text_of};
ghost use Rattle.guest_elf.specs.File.{is_moved};
ghost use Rattle.exit_status.specs.ExecEnds.{most_text};
ghost use Rattle.sweep_tables.specs.Swept.{bytes_line, code_text, fault_text, file_line, file_lines, head_text, heap_line, heap_text, heap_word, is_heap_moved, is_other, is_other_moved, is_other_room, is_unusual, isa_line, moved_line, moved_text, output_line, pairs_text, profile_lines, room_line, room_text, sides_head, stack_line, stack_text, stack_word, step_lines, steps_line, version_line, words_line};

use command_line::{SweepArgs, isa_name};
use guest_elf::{Isa, Profile, StreamLimits};
use memory_map::{Regions, StackRegion};
use report_lines::{push_address, push_number, push_text};
use sha2::{Digest, Sha256};
use std::alloc::{AllocError, Global};
use sweep_plans::{Part, Places, Plan, Range};

/// The files that were read, whole.
#[derive(Clone, Copy)]
pub(crate) struct Sources<'a> {
    pub(crate) program: &'a [u8],
    pub(crate) input: &'a [u8],
    pub(crate) suppressions: &'a [u8],
}

/// What is swept, as the command says it: its arguments, the plan that they make, the addresses of the words that they name, and the part of
/// the places.
#[derive(Clone, Copy)]
pub(crate) struct Swept<'a> {
    pub(crate) words: &'a SweepArgs<'a>,
    pub(crate) plan: &'a Plan,
    pub(crate) named: Option<Range>,
    pub(crate) part: Part,
}

/// Appends the SHA-256 of bytes, in hexadecimal digits.
fn push_digest(alloc: Global, out: &mut Vec<u8>, bytes: &[u8]) -> Result<(), AllocError>
    ensures { OnOk result (out.new.items ≡ out.old.items ++ encode_lower (sha256 bytes.now)) }
{
    let digest = hex::encode(alloc, Sha256::digest(bytes))?;
    push_text(out, digest.as_bytes())
}

/// Appends the line of a file: the number of bytes read, and their digest.
#[tactic(auto, unfolding(crate::specs::Swept::file_line), using(std::proofs::Common::append_assoc))]
fn push_file(alloc: Global, out: &mut Vec<u8>, word: &[u8], bytes: &[u8]) -> Result<(), AllocError>
    ensures { OnOk result (out.new.items ≡ out.old.items ++ file_line word.now bytes.now) }
{
    push_text(out, word)?;
    push_number(out, bytes.len() as u64)?;
    push_text(out, b" ")?;
    push_digest(alloc, out, bytes)?;
    push_text(out, b"\n")
}

/// Appends the lines of the files.
#[tactic(auto, unfolding(crate::specs::Swept::file_lines), using(std::proofs::Common::append_assoc))]
fn push_files(alloc: Global, out: &mut Vec<u8>, sources: &Sources) -> Result<(), AllocError>
    ensures { OnOk result (out.new.items ≡ out.old.items ++ file_lines sources.now.program.now sources.now.input.now sources.now.suppressions.now) }
{
    push_file(alloc, out, b"program ", sources.program)?;
    push_file(alloc, out, b"input ", sources.input)?;
    push_file(alloc, out, b"supp ", sources.suppressions)
}

/// Appends the end of a line on edited bytes or words: the values.
fn push_values(out: &mut Vec<u8>, values: &str) -> Result<(), AllocError>
    ensures { OnOk result (out.new.items ≡ out.old.items ++ (codes " " ++ values.now ++ newline)) }
{
    push_text(out, b" ")?;
    push_text(out, values.as_bytes())?;
    push_text(out, b"\n")
}

/// Appends the line on the edited bytes, if there are any.
#[tactic(auto, unfolding(crate::specs::Swept::bytes_line), using(std::proofs::Common::append_assoc))]
fn push_bytes(out: &mut Vec<u8>, bytes: Places, values: &str) -> Result<(), AllocError>
    ensures { OnOk result (out.new.items ≡ out.old.items ++ bytes_line bytes values.now) }
{
    if bytes.end <= bytes.first {
        return Ok(());
    }
    push_text(out, b"bytes ")?;
    push_number(out, u64::from(bytes.first))?;
    push_text(out, b"..")?;
    push_number(out, u64::from(bytes.end - 1))?;
    push_values(out, values)
}

/// Appends the line on the edited words, if there are any.
#[tactic(auto, unfolding(crate::specs::Swept::words_line), using(std::proofs::Common::append_assoc))]
fn push_words(out: &mut Vec<u8>, words: Option<Range>, values: &str) -> Result<(), AllocError>
    ensures { OnOk result (out.new.items ≡ out.old.items ++ words_line words values.now) }
{
    let Some(Range { first, last }) = words else {
        return Ok(());
    };
    push_text(out, b"words ")?;
    push_address(out, first)?;
    push_text(out, b"..")?;
    push_address(out, last.unwrap_or(u32::MAX))?;
    push_values(out, values)
}

/// Returns whether an instruction set is another one than the usual one.
fn is_other(isa: Isa) -> bool
    ensures { result ≡ is_other isa }
{
    isa.compressed || isa.atomics || isa.controls
}

/// Returns whether the heap's region begins elsewhere than the usual one.
#[tactic(auto, unfolding(memory_map::specs::Regions::is_heap_begin, memory_map::specs::Regions::is_stack_region, memory_map::specs::Regions::overlap))]
fn is_heap_moved(regions: Regions) -> bool
    ensures { result ≡ is_heap_moved regions }
{
    regions.heap_begin() != Regions::USUAL.heap_begin()
}

/// Returns whether the stack's region is another than the usual one.
#[tactic(auto, unfolding(guest_elf::specs::File::is_moved, memory_map::specs::Regions::is_heap_begin, memory_map::specs::Regions::is_stack_region, memory_map::specs::Regions::overlap))]
fn is_moved(stack: StackRegion) -> bool
    ensures { result ≡ is_moved stack }
{
    stack != Regions::USUAL.stack()
}

/// Returns whether one call moves another number of bytes than usual.
fn is_other_moved(limits: StreamLimits) -> bool
    ensures { result ≡ is_other_moved limits }
{
    limits.most_moved != StreamLimits::USUAL.most_moved
}

/// Returns whether there is room for another number of bytes of output than usual.
fn is_other_room(limits: StreamLimits) -> bool
    ensures { result ≡ is_other_room limits }
{
    limits.most_output != StreamLimits::USUAL.most_output
}

/// Returns whether a profile is another one than the usual one.
fn is_unusual(profile: Profile) -> bool
    ensures { result ≡ is_unusual profile }
{
    is_other(profile.isa)
        || is_heap_moved(profile.regions)
        || is_moved(profile.regions.stack())
        || is_other_moved(profile.limits)
        || is_other_room(profile.limits)
}

/// Returns the line of the table's format: the second one, if faults strike at steps, a line names a part of the profile, or lines say what
/// the runs have executed.
fn version_line(steps: Places, profile: Profile, with_sides: bool) -> &'static [u8]
    ensures { result.now ≡ version_line steps profile with_sides }
{
    if steps.first < steps.end || is_unusual(profile) || with_sides {
        b"sweep 2\n"
    } else {
        b"sweep 1\n"
    }
}

/// Appends the line on the instruction set, if it isn't the usual one.
#[tactic(auto, unfolding(crate::specs::Swept::isa_line), using(std::proofs::Common::append_assoc))]
fn push_isa(out: &mut Vec<u8>, isa: Isa) -> Result<(), AllocError>
    ensures { OnOk result (out.new.items ≡ out.old.items ++ isa_line isa) }
{
    if !is_other(isa) {
        return Ok(());
    }
    push_text(out, b"isa ")?;
    push_text(out, isa_name(isa).as_bytes())?;
    push_text(out, b"\n")
}

/// Returns the word before the begin of the heap's region.
#[tactic(auto, unfolding(crate::specs::Swept::heap_word))]
fn heap_word() -> &'static [u8]
    ensures { result.now ≡ heap_word }
{
    b"heap-region "
}

/// Appends the line on the begin of the heap's region.
#[tactic(auto, unfolding(crate::specs::Swept::heap_text), using(std::proofs::Common::append_assoc))]
fn push_begin(out: &mut Vec<u8>, begin: u32) -> Result<(), AllocError>
    ensures { OnOk result (out.new.items ≡ out.old.items ++ heap_text begin) }
{
    push_text(out, heap_word())?;
    push_address(out, begin)?;
    push_text(out, b"\n")
}

/// Appends that line, if the region isn't the usual one.
#[tactic(auto, unfolding(crate::specs::Swept::heap_line))]
fn push_heap(out: &mut Vec<u8>, regions: Regions) -> Result<(), AllocError>
    ensures { OnOk result (out.new.items ≡ out.old.items ++ heap_line regions) }
{
    if !is_heap_moved(regions) {
        return Ok(());
    }
    push_begin(out, regions.heap_begin())
}

/// Returns the word before the stack's region.
#[tactic(auto, unfolding(crate::specs::Swept::stack_word))]
fn stack_word() -> &'static [u8]
    ensures { result.now ≡ stack_word }
{
    b"stack-region "
}

/// Appends the line on the stack's region.
#[tactic(auto, unfolding(crate::specs::Swept::stack_text), using(std::proofs::Common::append_assoc))]
fn push_bounds(out: &mut Vec<u8>, stack: StackRegion) -> Result<(), AllocError>
    ensures { OnOk result (out.new.items ≡ out.old.items ++ stack_text stack) }
{
    push_text(out, stack_word())?;
    push_address(out, stack.begin)?;
    push_text(out, b"..")?;
    push_address(out, stack.end)?;
    push_text(out, b"\n")
}

/// Appends that line, if the region isn't the usual one.
#[tactic(auto, unfolding(crate::specs::Swept::stack_line))]
fn push_stack(out: &mut Vec<u8>, stack: StackRegion) -> Result<(), AllocError>
    ensures { OnOk result (out.new.items ≡ out.old.items ++ stack_line stack) }
{
    if !is_moved(stack) {
        return Ok(());
    }
    push_bounds(out, stack)
}

/// Appends the line on how many bytes one call moves.
fn push_moved_text(out: &mut Vec<u8>, moved: u64) -> Result<(), AllocError>
    ensures { OnOk result (out.new.items ≡ out.old.items ++ moved_text moved) }
{
    push_text(out, b"most-moved ")?;
    push_number(out, moved)?;
    push_text(out, b"\n")?;
    Ok(())
}

/// The same, if that isn't the usual number.
#[tactic(auto, unfolding(crate::specs::Swept::moved_line))]
fn push_moved(out: &mut Vec<u8>, limits: StreamLimits) -> Result<(), AllocError>
    ensures { OnOk result (out.new.items ≡ out.old.items ++ moved_line limits) }
{
    if !is_other_moved(limits) {
        return Ok(());
    }
    push_moved_text(out, u64::from(limits.most_moved))
}

/// Appends a number, or that there is no limit.
fn push_most(out: &mut Vec<u8>, n: u64) -> Result<(), AllocError>
    ensures { OnOk result (out.new.items ≡ out.old.items ++ most_text n) }
{
    if n == u64::MAX {
        push_text(out, b"none")
    } else {
        push_number(out, n)
    }
}

/// Appends the line on how many bytes of output there is room for, if that isn't the usual number.
#[tactic(auto, unfolding(crate::specs::Swept::room_line, crate::specs::Swept::room_text), using(std::proofs::Common::append_assoc))]
fn push_room(out: &mut Vec<u8>, limits: StreamLimits) -> Result<(), AllocError>
    ensures { OnOk result (out.new.items ≡ out.old.items ++ room_line limits) }
{
    if !is_other_room(limits) {
        return Ok(());
    }
    push_text(out, b"most-output ")?;
    push_most(out, limits.most_output)?;
    push_text(out, b"\n")
}

/// Appends the lines on what of a profile isn't the usual.
#[tactic(auto, unfolding(crate::specs::Swept::profile_lines), using(std::proofs::Common::append_assoc))]
fn push_profile(out: &mut Vec<u8>, profile: Profile) -> Result<(), AllocError>
    ensures { OnOk result (out.new.items ≡ out.old.items ++ profile_lines profile) }
{
    push_isa(out, profile.isa)?;
    push_heap(out, profile.regions)?;
    push_stack(out, profile.regions.stack())?;
    push_moved(out, profile.limits)?;
    push_room(out, profile.limits)
}

/// Appends the range of code, if one is named.
#[tactic(auto, using(std::proofs::Common::append_assoc))]
fn push_code(out: &mut Vec<u8>, code: Option<Range>) -> Result<(), AllocError>
    ensures { OnOk result (out.new.items ≡ out.old.items ++ code_text code) }
{
    let Some(Range { first, last }) = code else {
        return Ok(());
    };
    push_text(out, b" code ")?;
    push_address(out, first)?;
    push_text(out, b"..")?;
    push_address(out, last.unwrap_or(u32::MAX))
}

/// Returns the end of the line on steps.
fn pairs_text(pairs: bool) -> &'static [u8]
    ensures { result.now ≡ pairs_text pairs }
{
    if pairs { b" pairs skip\n" } else { b"\n" }
}

/// Appends the line on the steps at which faults strike, if there are any.
#[tactic(auto, unfolding(crate::specs::Swept::steps_line), using(std::proofs::Common::append_assoc))]
fn push_steps(
    out: &mut Vec<u8>,
    steps: Places,
    faults: &str,
    code: Option<Range>,
    pairs: bool,
) -> Result<(), AllocError>
    ensures { OnOk result (out.new.items ≡ out.old.items ++ steps_line steps faults.now code pairs) }
{
    if steps.end <= steps.first {
        return Ok(());
    }
    push_text(out, b"steps ")?;
    push_number(out, u64::from(steps.first))?;
    push_text(out, b"..")?;
    push_number(out, u64::from(steps.end - 1))?;
    push_text(out, b" ")?;
    push_text(out, faults.as_bytes())?;
    push_code(out, code)?;
    push_text(out, pairs_text(pairs))
}

/// Returns the fault models as they were given, or nothing if none were.
fn fault_text<'a>(faults: Option<&'a str>) -> &'a str
    ensures { result.now ≡ fault_text (text_of faults.entry) }
{
    match faults {
        Some(text) => text,
        None => "",
    }
}

/// Returns the line on what an outcome has.
fn output_line(with_output: bool) -> &'static [u8]
    ensures { result.now ≡ output_line with_output }
{
    if with_output {
        b"\noutput yes\npart "
    } else {
        b"\noutput no\npart "
    }
}

/// Returns the line which says that lines on what the runs have executed follow, if they do.
fn sides_head(with_sides: bool) -> &'static [u8]
    ensures { result.now ≡ sides_head with_sides }
{
    if with_sides { b"sides yes\n" } else { b"" }
}

/// Appends the lines on the step, on what an outcome has, and on the part.
#[tactic(auto, unfolding(crate::specs::Swept::step_lines), using(std::proofs::Common::append_assoc))]
fn push_rest(out: &mut Vec<u8>, step: u32, with_output: bool, part: Part) -> Result<(), AllocError>
    ensures { OnOk result (out.new.items ≡ out.old.items ++ step_lines step with_output part) }
{
    push_text(out, b"step ")?;
    push_number(out, u64::from(step))?;
    push_text(out, output_line(with_output))?;
    push_number(out, u64::from(part.index))?;
    push_text(out, b"/")?;
    push_number(out, u64::from(part.count))?;
    push_text(out, b"\n")
}

/// Appends the head of a table.
#[tactic(auto, unfolding(crate::specs::Swept::head_text), using(std::proofs::Common::append_assoc))]
pub(crate) fn push_head(
    alloc: Global,
    out: &mut Vec<u8>,
    sources: &Sources,
    profile: Profile,
    swept: Swept,
) -> Result<(), AllocError>
    ensures { OnOk result (out.new.items ≡ out.old.items
        ++ head_text sources.now.program.now sources.now.input.now sources.now.suppressions.now profile
        swept.entry.words.now swept.entry.plan.now swept.entry.named swept.entry.part) }
{
    let Swept {
        words,
        plan,
        named,
        part,
    } = swept;
    push_text(out, version_line(plan.steps, profile, words.with_sides))?;
    push_profile(out, profile)?;
    push_files(alloc, out, sources)?;
    push_bytes(out, plan.bytes, words.byte_values)?;
    push_words(out, named, words.word_values)?;
    push_steps(
        out,
        plan.steps,
        fault_text(words.faults),
        plan.code,
        plan.pairs,
    )?;
    push_text(out, sides_head(words.with_sides))?;
    push_rest(out, words.step, words.with_output, part)
}
