//! Whether alterations write a code, or go by bytes.
ghost use Rattle.std.specs.Prelude.{◌≡◌};
ghost use Rattle.shadow_memory.specs.Ranges.{is_in};
ghost use Rattle.checkpoints.specs.Effects.{code_effect};
ghost use Rattle.checkpoints.specs.Words.{meets_code};
ghost use Rattle.checkpoints.specs.Writes.{touch_code, touches_code, writes_code};

use crate::effect::Effect;
use guest_elf::Isa;
use guest_machine::{Act, Alteration, Code, Span};

/// Whether an address is in a range.
fn is_in(range: Span, address: u64) -> bool
    ensures { result ≡ is_in range.start range.len address }
{
    address < 1 << 32 && (address as u32).wrapping_sub(range.start) < range.len
}

/// Whether a range has a byte of the code of some bytes, two or four, at an address.
fn meets_code(range: Span, addr: u32, len: u32) -> bool
    ensures { result ≡ meets_code (is_in range.start range.len) addr len }
{
    let first = u64::from(addr);
    if len == 2 {
        return is_in(range, first) || is_in(range, first + 1);
    }
    is_in(range, first)
        || is_in(range, first + 1)
        || is_in(range, first + 2)
        || is_in(range, first + 3)
}

/// Whether an act may change a byte of the code at an address.
fn writes_code(act: &Act, addr: u32, len: u32) -> bool
    ensures { result ≡ writes_code act.now addr len }
{
    match act.writes() {
        Some(range) => meets_code(range, addr, len),
        None => false,
    }
}

/// Whether an act may change a byte of the code at an address, or goes by bytes: so a skip does among instructions of 16 bits.
fn touches_code(isa: Isa, act: &Act, addr: u32, len: u32) -> bool
    ensures { result ≡ touches_code isa act.now addr len }
{
    if isa.has_halves() && matches!(act, Act::Skip) {
        return true;
    }
    writes_code(act, addr, len)
}

/// Whether one of some alterations may change a byte of the code at an address, or goes by bytes.
pub(crate) fn touch_code(isa: Isa, marks: &[Alteration], addr: u32, len: u32) -> bool
    ensures { result ≡ touch_code isa marks.now addr len }
{
    marks
        .iter()
        .any(|mark| touches_code(isa, &mark.act, addr, len))
}

/// Returns the effect of another code at an address, in a run with alterations.
pub fn code_effect(isa: Isa, marks: &[Alteration], addr: u32, code: Code) -> Effect
    ensures { result ≡ code_effect isa marks.now addr code }
{
    if touch_code(isa, marks, addr, code.len()) {
        Effect::Anew { addr, code }
    } else {
        Effect::Patch { addr, code }
    }
}
