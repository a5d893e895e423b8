//! The replies to looks, as text.
ghost use Rattle.std.specs.Prelude.{◌≡◌, ◌+◌, ◌++◌, ◌≤◌, ◌^◌, if◌then◌else◌, codes, OnOk};
ghost use Rattle.std.specs.List.{flat_map};
ghost use Rattle.guest_machine.specs.State.{State};
ghost use Rattle.guest_machine.specs.Shows.{Shows};
ghost use Rattle.shadow_memory.specs.Cells.{shadow_in};
ghost use Rattle.shadow_memory.specs.Memories.{bytes_in, shadows_in};
ghost use Rattle.report_lines.specs.Text.{byte_text};
ghost use Rattle.look_lines.specs.Texts.{bits_text, bytes_line, bytes_text, digit_text, input_text, memory_text, register_line, registers_text, side_digit, sides_text, step_text, undef_text, undefs_text};

use checkpoints::Sides;
use definedness::Bits;
use guest_machine::{Machine, Register};
use report_lines::{push_address, push_byte, push_number, push_state, push_text};
use run_values::Span;
use shadow_memory::{Cell, Memory};
use std::alloc::AllocError;

/// The number of registers that are shown: all except x0, which is 0.
const SHOWN: u8 = 31;

/// Appends the rest of a register's line, after its name: its value and its undefined bits.
#[tactic(auto, unfolding(crate::specs::Texts::bits_text), using(std::proofs::Common::append_assoc))]
pub(crate) fn push_bits(out: &mut Vec<u8>, bits: Bits) -> Result<(), AllocError>
    ensures { OnOk result (out.new.items ≡ out.old.items ++ bits_text bits) }
{
    push_text(out, b" ")?;
    push_address(out, bits.value)?;
    push_text(out, b" ")?;
    push_address(out, bits.undef)?;
    push_text(out, b"\n")
}

/// Appends a register's line.
#[tactic(auto, unfolding(crate::specs::Texts::register_line), using(std::proofs::Common::append_assoc))]
fn push_register(out: &mut Vec<u8>, number: u8, bits: Bits) -> Result<(), AllocError>
    ensures { OnOk result (out.new.items ≡ out.old.items ++ register_line number bits) }
{
    push_text(out, b"x")?;
    push_number(out, u64::from(number))?;
    push_bits(out, bits)
}

/// Appends whether a machine runs, and its registers.
#[tactic(auto, unfolding(crate::specs::Texts::registers_text), using(std::proofs::Common::append_assoc))]
pub fn push_registers(out: &mut Vec<u8>, machine: &Machine) -> Result<(), AllocError>
    ensures { OnOk result ((s : State) → Shows machine.now s → out.new.items ≡ out.old.items ++ registers_text s) }
{
    push_state(out, machine.status(), machine.pc())?;
    for i in 0..SHOWN {
        push_register(out, i + 1, machine.register(Register::new(i + 1)))?;
    }
    Ok(())
}

/// Appends the undefined bits of a byte.
fn push_undef(out: &mut Vec<u8>, cell: Cell) -> Result<(), AllocError>
    ensures { OnOk result (out.new.items ≡ out.old.items ++ undef_text (shadow_in cell)) }
{
    if cell.accessible {
        push_byte(out, cell.undef)
    } else {
        push_text(out, b"__")
    }
}

/// Appends the bytes of a range.
fn push_bytes(out: &mut Vec<u8>, memory: &Memory, range: Span) -> Result<(), AllocError>
    requires { range.start + range.len ≤ 2 ^ 32 }
    ensures { OnOk result (out.new.items ≡ out.old.items ++ bytes_text (bytes_in memory.now) range.start range.len) }
{
    for i in 0..range.len {
        push_byte(out, memory.byte(range.start + i).byte)?;
    }
    Ok(())
}

/// Appends the undefined bits of a range.
fn push_undefs(out: &mut Vec<u8>, memory: &Memory, range: Span) -> Result<(), AllocError>
    requires { range.start + range.len ≤ 2 ^ 32 }
    ensures { OnOk result (out.new.items ≡ out.old.items ++ undefs_text (shadows_in memory.now) range.start range.len) }
{
    for i in 0..range.len {
        push_undef(out, memory.byte(range.start + i))?;
    }
    Ok(())
}

/// Appends the bytes of a range, and below each its undefined bits.
#[tactic(auto, unfolding(crate::specs::Texts::memory_text), using(std::proofs::Common::append_assoc))]
pub fn push_memory(out: &mut Vec<u8>, machine: &Machine, range: Span) -> Result<(), AllocError>
    requires { range.start + range.len ≤ 2 ^ 32 }
    ensures { OnOk result ((s : State) → Shows machine.now s → out.new.items ≡ out.old.items ++ memory_text s range) }
{
    push_text(out, b"bytes ")?;
    push_bytes(out, machine.memory(), range)?;
    push_text(out, b"\nundef ")?;
    push_undefs(out, machine.memory(), range)?;
    push_text(out, b"\n")
}

/// Appends bytes in hexadecimal.
fn push_hex(out: &mut Vec<u8>, bytes: &[u8]) -> Result<(), AllocError>
    ensures { OnOk result (out.new.items ≡ out.old.items ++ flat_map byte_text bytes.now) }
{
    for byte in bytes {
        push_byte(out, *byte)?;
    }
    Ok(())
}

/// Appends the line of some bytes of the output.
#[tactic(auto, unfolding(crate::specs::Texts::bytes_line), using(std::proofs::Common::append_assoc))]
pub fn push_output(out: &mut Vec<u8>, bytes: &[u8]) -> Result<(), AllocError>
    ensures { OnOk result (out.new.items ≡ out.old.items ++ bytes_line bytes.now) }
{
    push_text(out, b"bytes ")?;
    push_hex(out, bytes)?;
    push_text(out, b"\n")
}

/// The digit that says what a run has done with an instruction.
fn side_digit(sides: Sides) -> u64
    ensures { result ≡ side_digit sides }
{
    u64::from(sides.on) + 2 * u64::from(sides.away)
}

/// Appends the digits of a table.
pub fn push_digits(out: &mut Vec<u8>, table: &[Sides]) -> Result<(), AllocError>
    ensures { OnOk result (out.new.items ≡ out.old.items ++ flat_map digit_text table.now) }
{
    for sides in table {
        push_number(out, side_digit(*sides))?;
    }
    Ok(())
}

/// Appends the line of what a run has done with some instructions.
#[tactic(auto, unfolding(crate::specs::Texts::sides_text), using(std::proofs::Common::append_assoc))]
pub fn push_sides(out: &mut Vec<u8>, table: &[Sides]) -> Result<(), AllocError>
    ensures { OnOk result (out.new.items ≡ out.old.items ++ sides_text table.now) }
{
    push_text(out, b"sides ")?;
    push_digits(out, table)?;
    push_text(out, b"\n")
}

/// Returns `yes` or `no`.
fn yes_or_no(is_so: bool) -> &'static [u8]
    ensures { result.now ≡ (if is_so then codes "yes" else codes "no") }
{
    if is_so { b"yes" } else { b"no" }
}

/// Appends how far a machine has read an input of a number of bytes, and whether it has seen the end.
#[tactic(auto, unfolding(crate::specs::Texts::input_text), using(std::proofs::Common::append_assoc))]
pub fn push_input(out: &mut Vec<u8>, machine: &Machine, len: u64) -> Result<(), AllocError>
    ensures { OnOk result ((s : State) → Shows machine.now s → out.new.items ≡ out.old.items ++ input_text s len) }
{
    push_text(out, b"input ")?;
    push_number(out, machine.position())?;
    push_text(out, b" ")?;
    push_number(out, len)?;
    push_text(out, b" ")?;
    push_text(out, yes_or_no(machine.end_seen()))?;
    push_text(out, b"\n")
}

/// Appends a step that was found, if one was.
#[tactic(auto, unfolding(crate::specs::Texts::step_text))]
pub fn push_step(out: &mut Vec<u8>, found: Option<u32>) -> Result<(), AllocError>
    ensures { OnOk result (out.new.items ≡ out.old.items ++ step_text found) }
{
    match found {
        Some(step) => {
            push_text(out, b"step ")?;
            push_number(out, u64::from(step))?;
            push_text(out, b"\n")
        }
        None => push_text(out, b"none\n"),
    }
}
