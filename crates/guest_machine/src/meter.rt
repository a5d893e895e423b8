ghost use Rattle.std.specs.Prelude.{◌≡◌, ◌+◌, ◌≤◌, min};

use std::marker::Model;

/// A count of steps. It can't be copied, and stops at the greatest `u64`.
#[derive(Drop)]
pub struct Meter {
    steps: u64,
}

impl Model for Meter {
    ghost use Rattle.std.specs.Prelude.{ℕ};

    ghost Value = { ℕ };

    ghost view = { λ m. m.steps };
}

impl Meter {
    /// Returns a meter at 0.
    pub fn new() -> Self
        ensures { result ≡ 0 }
    {
        Meter { steps: 0 }
    }

    /// Returns the number of steps executed on it.
    pub fn read(&self) -> u64
        ensures { result ≡ self.now }
    {
        self.steps
    }

    #[inline(always)]
    pub(crate) fn rise(&mut self)
        ensures { self.new ≡ min (self.old + 1) u64.MAX }
    {
        self.steps = self.steps.saturating_add(1);
    }

    /// Adds a number of steps.
    #[inline(always)]
    pub fn rise_by(&mut self, steps: u32)
        ensures { self.new ≡ min (self.old + steps) u64.MAX }
    {
        self.steps = self.steps.saturating_add(u64::from(steps));
    }
}
