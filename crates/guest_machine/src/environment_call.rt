//! The calls of the environment, by their numbers.
ghost use Rattle.std.specs.Prelude.{◌≡◌};
ghost use Rattle.guest_machine.specs.Calls.{call_of};

use guest_elf::Hook;

/// What a program asks of its environment by ECALL.
#[derive(Clone, Copy)]
pub(crate) enum EnvironmentCall {
    Read,
    Write,
    Exit,
    ExitGroup,
    Heap(Hook),
    Unknown,
}

impl EnvironmentCall {
    /// The call of a number: as Linux for RISC-V numbers them, and from 2001 on those of the heap.
    pub(crate) fn of(number: u32) -> EnvironmentCall
        ensures { result ≡ call_of number }
    {
        match number {
            63 => EnvironmentCall::Read,
            64 => EnvironmentCall::Write,
            93 => EnvironmentCall::Exit,
            94 => EnvironmentCall::ExitGroup,
            2001 => EnvironmentCall::Heap(Hook::Malloc),
            2002 => EnvironmentCall::Heap(Hook::Free),
            2003 => EnvironmentCall::Heap(Hook::Calloc),
            2004 => EnvironmentCall::Heap(Hook::Realloc),
            _ => EnvironmentCall::Unknown,
        }
    }
}
