//! The lines of a table.
ghost use Rattle.std.specs.Prelude.{◌≡◌, ◌++◌, [], OnOk, codes, if◌then◌else◌, length};
ghost use Rattle.std.specs.Fmt.{decimal};
ghost use Rattle.report_lines.specs.Text.{address_text};
ghost use Rattle.sweeps.specs.Tables.{change_text, change_row, glitch_text, half_text, outcome_lines, first_lines, tally_line, tally_lines, end_line};

use replay_report::{push_address, push_byte, push_number, push_text};
use std::alloc::AllocError;
use sweep_plans::{Change, Glitch};

/// Appends a word of a line, and the step after it.
fn push_at(out: &mut Vec<u8>, word: &[u8], step: u32) -> Result<(), AllocError>
    ensures { OnOk result (out.new.items ≡ out.old.items ++ word.now ++ decimal step) }
{
    push_text(out, word)?;
    push_number(out, u64::from(step))
}

/// Appends the end of a line on a register: its number, and a mask or a value.
#[tactic(auto, using(std::proofs::Common::append_assoc))]
fn push_register(out: &mut Vec<u8>, register: u8, number: u32) -> Result<(), AllocError>
    ensures { OnOk result (out.new.items ≡ out.old.items ++ codes " x" ++ decimal register ++ codes " " ++ address_text number) }
{
    push_text(out, b" x")?;
    push_number(out, u64::from(register))?;
    push_text(out, b" ")?;
    push_address(out, number)
}

/// Appends a glitch, as the line that has it happen just before a step.
#[tactic(auto, unfolding(crate::specs::Tables::glitch_text), using(std::proofs::Common::append_assoc))]
fn push_glitch(out: &mut Vec<u8>, step: u32, glitch: Glitch) -> Result<(), AllocError>
    ensures { OnOk result (out.new.items ≡ out.old.items ++ glitch_text step glitch) }
{
    match glitch {
        Glitch::Skip => push_at(out, b"skip ", step),
        Glitch::Flip { register, mask } => {
            push_at(out, b"flip ", step)?;
            push_register(out, register, mask)
        }
        Glitch::FlipPc { mask } => {
            push_at(out, b"flip ", step)?;
            push_text(out, b" pc ")?;
            push_address(out, mask)
        }
        Glitch::Set { register, value } => {
            push_at(out, b"set ", step)?;
            push_register(out, register, value)
        }
        Glitch::Turn { addr, mask } => {
            push_at(out, b"flip ", step)?;
            push_text(out, b" ")?;
            push_address(out, addr)?;
            push_text(out, b" ")?;
            push_address(out, mask)
        }
    }
}

/// Appends an instruction of 16 bits: `0x` and four hexadecimal digits.
#[tactic(auto, unfolding(crate::specs::Tables::half_text))]
fn push_half(out: &mut Vec<u8>, half: u16) -> Result<(), AllocError>
    ensures { OnOk result (out.new.items ≡ out.old.items ++ half_text half) }
{
    push_text(out, b"0x")?;
    push_byte(out, (half / 256) as u8)?;
    push_byte(out, (half % 256) as u8)
}

/// Appends a change, as the line or the lines of a session that apply it.
#[tactic(auto, unfolding(crate::specs::Tables::change_text), using(std::proofs::Common::append_assoc))]
fn push_change(out: &mut Vec<u8>, change: Change) -> Result<(), AllocError>
    ensures { OnOk result (out.new.items ≡ out.old.items ++ change_text change) }
{
    match change {
        Change::Byte { offset, byte } => {
            push_text(out, b"input ")?;
            push_number(out, u64::from(offset))?;
            push_text(out, b" ")?;
            push_number(out, u64::from(byte))
        }
        Change::Word { addr, word } => {
            push_text(out, b"patch ")?;
            push_address(out, addr)?;
            push_text(out, b" ")?;
            push_address(out, word)
        }
        Change::Half { addr, half } => {
            push_text(out, b"patch16 ")?;
            push_address(out, addr)?;
            push_text(out, b" ")?;
            push_half(out, half)
        }
        Change::Once { step, glitch } => push_glitch(out, step, glitch),
        Change::Twice {
            step,
            glitch,
            later,
            other,
        } => {
            push_glitch(out, step, glitch)?;
            push_text(out, b"; ")?;
            push_glitch(out, later, other)
        }
    }
}

/// Appends the row of a change.
#[tactic(auto, unfolding(crate::specs::Tables::change_row), using(std::proofs::Common::append_assoc))]
pub(crate) fn push_row(out: &mut Vec<u8>, change: Change, number: u64) -> Result<(), AllocError>
    ensures { OnOk result (out.new.items ≡ out.old.items ++ change_row change number) }
{
    push_change(out, change)?;
    push_text(out, b" ")?;
    push_number(out, number)?;
    push_text(out, b"\n")
}

/// Appends an outcome.
#[tactic(auto, unfolding(crate::specs::Tables::outcome_lines), using(std::proofs::Common::append_assoc))]
pub(crate) fn push_outcome(out: &mut Vec<u8>, number: u64, outcome: &[u8]) -> Result<(), AllocError>
    ensures { OnOk result (out.new.items ≡ out.old.items ++ outcome_lines number outcome.now) }
{
    push_text(out, b"outcome ")?;
    push_number(out, number)?;
    push_text(out, b"\n")?;
    push_text(out, outcome)
}

/// Appends the outcome of the unedited run.
#[tactic(auto, unfolding(crate::specs::Tables::first_lines), using(std::proofs::Common::append_assoc))]
pub(crate) fn push_first(out: &mut Vec<u8>, outcome: &[u8]) -> Result<(), AllocError>
    ensures { OnOk result (out.new.items ≡ out.old.items ++ first_lines outcome.now) }
{
    push_outcome(out, 0, outcome)?;
    push_text(out, b"unedited 0\n")
}

/// Appends the number of edits that lead to an outcome.
#[tactic(auto, unfolding(crate::specs::Tables::tally_line), using(std::proofs::Common::append_assoc))]
fn push_tally(out: &mut Vec<u8>, number: u64, count: u64) -> Result<(), AllocError>
    ensures { OnOk result (out.new.items ≡ out.old.items ++ tally_line number count) }
{
    push_text(out, b"tally ")?;
    push_number(out, number)?;
    push_text(out, b" ")?;
    push_number(out, count)?;
    push_text(out, b"\n")
}

/// Appends the same for each outcome.
pub(crate) fn push_tallies(out: &mut Vec<u8>, counts: &[u64]) -> Result<(), AllocError>
    ensures { OnOk result (out.new.items ≡ out.old.items ++ tally_lines 0 counts.now) }
{
    for (number, count) in counts.iter().enumerate() {
        push_tally(out, number as u64, *count)?;
    }
    Ok(())
}

/// Appends the last line.
#[tactic(auto, unfolding(crate::specs::Tables::end_line), using(std::proofs::Common::append_assoc))]
pub(crate) fn push_end(
    out: &mut Vec<u8>,
    edits: u64,
    outcomes: u64,
    steps: u64,
) -> Result<(), AllocError>
    ensures { OnOk result (out.new.items ≡ out.old.items ++ end_line edits outcomes steps) }
{
    push_text(out, b"end ")?;
    push_number(out, edits)?;
    push_text(out, b" ")?;
    push_number(out, outcomes)?;
    push_text(out, b" ")?;
    push_number(out, steps)?;
    push_text(out, b"\n")
}
