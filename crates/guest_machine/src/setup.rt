ghost use Rattle.std.specs.Prelude.{◌≡◌, IfOk, IsTrue};
ghost use Rattle.guest_machine.specs.Laws.{SharesRest};

use crate::hooks::Hooks;
use crate::input::Input;
use run_values::Span;
use std::alloc::{AllocError, Global};

/// The default number of inaccessible bytes on each side of a heap block (Valgrind core manual, section 2.6, `--redzone-size`).
pub const USUAL_REDZONE: u32 = 16;
/// The default number of bytes that freed blocks may have in all (Memcheck manual, section 4.3, `--freelist-vol`).
pub const USUAL_VOLUME: u32 = 20_000_000;

/// The setup of a run: its input, the options of its heap, and the functions that a step replaces by a heap call.
#[derive(Drop)]
pub struct Setup {
    /// The bytes that the program can read.
    pub input: Input,
    /// The number of inaccessible bytes before and after each block of the heap.
    pub redzone: u32,
    /// The number of bytes that freed blocks may have whose places aren't used again yet.
    pub volume: u32,
    /// A step at one of their addresses executes the heap call of the function there, and returns to x1.
    pub hooks: Hooks,
}

impl Setup {
    /// Returns a copy.
    pub fn copy(&self, alloc: Global) -> Result<Setup, AllocError>
        ensures { IfOk result (λ copy. copy ≡ self.now) }
    {
        let bytes = self.input.as_slice().to_vec(alloc)?;
        let hooks = self.hooks.copy(alloc)?;
        Ok(Setup {
            input: Input::new(bytes),
            redzone: self.redzone,
            volume: self.volume,
            hooks,
        })
    }

    /// Returns whether another setup differs at most in input below a position.
    pub fn shares_rest(&self, other: &Setup, position: u64) -> bool
        ensures { IsTrue result → SharesRest position self.now other.now }
    {
        self.redzone == other.redzone
            && self.volume == other.volume
            && self.hooks.are_same(&other.hooks)
            && self.input.has_rest_of(&other.input, position as usize)
    }
}

/// The addresses whose bytes a step read or wrote.
#[derive(Clone, Copy, PartialEq, Eq)]
pub struct Touched {
    /// The code at pc, if it was fetched, or the first half of a word there if no more of it could be.
    pub fetch: Option<Span>,
    /// What the step read besides its code.
    pub reads: Option<Span>,
    /// What it wrote.
    pub writes: Option<Span>,
}
