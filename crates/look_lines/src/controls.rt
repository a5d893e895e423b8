//! The reply to a look at control registers, as text.
ghost use Rattle.std.specs.Prelude.{◌≡◌, ◌++◌, OnOk, option_map};
ghost use Rattle.guest_machine.specs.Shows.{Shows};
ghost use Rattle.guest_machine.specs.State.{State};
ghost use Rattle.look_lines.specs.Controls.{control_line, control_name, controls_text};

use crate::replies::push_bits;
use definedness::Bits;
use guest_machine::Machine;
use report_lines::push_text;
use std::alloc::AllocError;

/// The number of control registers: one for each number of 12 bits.
const CONTROLS: u16 = 4096;

/// The name of a control register by its number, if it is shown.
#[tactic(auto, unfolding(crate::specs::Controls::control_name))]
fn control_name(number: u16) -> Option<&'static [u8]>
    ensures { option_map (λ name. name.now) result ≡ control_name number }
{
    match number {
        0x300 => Some(b"mstatus"),
        0x301 => Some(b"misa"),
        0x304 => Some(b"mie"),
        0x305 => Some(b"mtvec"),
        0x306 => Some(b"mcounteren"),
        0x340 => Some(b"mscratch"),
        0x341 => Some(b"mepc"),
        0x342 => Some(b"mcause"),
        0x343 => Some(b"mtval"),
        0x344 => Some(b"mip"),
        0xB00 => Some(b"mcycle"),
        0xB02 => Some(b"minstret"),
        0xB80 => Some(b"mcycleh"),
        0xB82 => Some(b"minstreth"),
        0xC00 => Some(b"cycle"),
        0xC01 => Some(b"time"),
        0xC02 => Some(b"instret"),
        0xC80 => Some(b"cycleh"),
        0xC81 => Some(b"timeh"),
        0xC82 => Some(b"instreth"),
        0xF11 => Some(b"mvendorid"),
        0xF12 => Some(b"marchid"),
        0xF13 => Some(b"mimpid"),
        0xF14 => Some(b"mhartid"),
        _ => None,
    }
}

/// Appends the line of a control register, if it is shown.
#[tactic(auto, unfolding(crate::specs::Controls::control_line), using(std::proofs::Common::append_assoc))]
fn push_control(out: &mut Vec<u8>, number: u16, bits: Option<Bits>) -> Result<(), AllocError>
    ensures { OnOk result (out.new.items ≡ out.old.items ++ control_line (control_name number) bits) }
{
    if let (Some(name), Some(bits)) = (control_name(number), bits) {
        push_text(out, name)?;
        push_bits(out, bits)?;
    }
    Ok(())
}

/// Appends the control registers that are shown, or `none` if the instruction set has no control registers.
#[tactic(auto, unfolding(crate::specs::Controls::controls_text))]
pub fn push_controls(out: &mut Vec<u8>, machine: &Machine) -> Result<(), AllocError>
    ensures { OnOk result ((s : State) → Shows machine.now s → out.new.items ≡ out.old.items ++ controls_text s) }
{
    if !machine.isa().has_controls() {
        return push_text(out, b"none\n");
    }
    for number in 0..CONTROLS {
        push_control(out, number, machine.control(number))?;
    }
    Ok(())
}
