//! What jumps mean for the stack of calls.
ghost use Rattle.std.specs.Prelude.{◌≡◌};
ghost use Rattle.instructions.specs.CallStack.{is_link, jal_hint, jalr_hint};

use crate::register::Register;

/// What a jump does to a stack of return addresses (RISC-V Unprivileged ISA 20191213, section 2.5, table 2.1).
#[derive(Clone, Copy)]
pub enum StackHint {
    NoHint,
    Pop,
    Push,
    PopPush,
}

fn is_link(r: Register) -> bool
    ensures { result ≡ is_link r }
{
    let number = r.number();
    number == 1 || number == 5
}

#[tactic(auto, unfolding(crate::specs::CallStack::hint_by))]
impl StackHint {
    /// Returns the hint of JAL, by the register that it links to.
    pub fn of_jal(rd: Register) -> StackHint
        ensures { result ≡ jal_hint rd }
    {
        if is_link(rd) {
            StackHint::Push
        } else {
            StackHint::NoHint
        }
    }

    /// Returns the hint of JALR, by the register that it links to and the register that has the address.
    pub fn of_jalr(rd: Register, rs1: Register) -> StackHint
        ensures { result ≡ jalr_hint rd rs1 }
    {
        match (is_link(rd), is_link(rs1)) {
            (false, false) => StackHint::NoHint,
            (false, true) => StackHint::Pop,
            (true, false) => StackHint::Push,
            (true, true) if rd.number() == rs1.number() => StackHint::Push,
            (true, true) => StackHint::PopPush,
        }
    }
}
