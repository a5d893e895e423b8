ghost use Rattle.std.specs.Prelude.{◌≡◌, ◌<◌};

use std::marker::Model;

/// The number of a register, x0 to x31 (RISC-V Unprivileged ISA 20191213, section 2.1).
#[derive(Clone, Copy)]
pub struct Register {
    number: u8,
}

impl Model for Register {
    ghost use Rattle.std.specs.Prelude.{ℕ, ◌<◌};

    ghost Value = { ℕ };

    ghost view = { λ r. r.number };

    ghost invariant = { λ r. r.number < 32 };

    ghost inverse = { λ n. record { number = n } };
}

impl Register {
    /// Returns the register x`number`, for a number below 32.
    #[inline(always)]
    pub fn new(number: u8) -> Self
        requires { number < 32 }
        ensures { result ≡ number }
    {
        Register { number }
    }

    /// Returns the number, below 32.
    #[inline(always)]
    pub fn number(self) -> usize
        ensures value { result ≡ self }
        ensures small { result < 32 }
    {
        self.number as usize
    }
}
