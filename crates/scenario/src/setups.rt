//! The setup of a run by default.
ghost use Rattle.std.specs.Prelude.{◌≡◌, IfOk};
ghost use Rattle.scenario.specs.Setups.{setup_with};

use guest_elf::Image;
use guest_machine::{Hooks, Input, Setup, USUAL_REDZONE, USUAL_VOLUME};
use std::alloc::{AllocError, Global};

/// Returns a setup: an input, Memcheck's settings of the heap (a redzone of 16 bytes and 20,000,000 bytes of freed blocks), and the
/// functions of the heap that a program has by name.
pub fn setup_with(alloc: Global, image: &Image, input: Vec<u8>) -> Result<Setup, AllocError>
    ensures { IfOk result (λ setup. setup ≡ setup_with image.now input.items) }
{
    let hooks = image.hooks(alloc)?;
    Ok(Setup {
        input: Input::new(input),
        redzone: USUAL_REDZONE,
        volume: USUAL_VOLUME,
        hooks: Hooks::new(hooks),
    })
}
