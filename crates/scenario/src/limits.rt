//! The limits on what a user may ask for.
ghost use Rattle.std.specs.Prelude.{◌≡◌};
ghost use Rattle.scenario.specs.Scenario.{limit_for};

use call_stacks::LONGEST_TRACE;

/// The greatest number of bytes of an input.
pub const LONGEST_INPUT: usize = 1_048_576;
/// The greatest step that may be chosen or marked where no other is named.
pub const MOST_STEPS: u32 = 4_194_304;
/// The greatest step that may be named as that.
pub const FURTHEST_STEP: u32 = 2_147_483_647;

/// Returns the greatest step that may be chosen, where this one will be.
pub fn limit_for(step: u32) -> u32
    ensures { result ≡ limit_for step }
{
    step.max(MOST_STEPS)
}

/// The greatest number of marks at one time.
pub(crate) const MOST_MARKS: usize = 4096;
/// The greatest length of a mark, in bytes.
pub(crate) const LONGEST_MARK: u32 = 1_048_576;
/// The greatest number of addresses of a trace that may be shown.
pub(crate) const MOST_CALLERS: u32 = LONGEST_TRACE as u32;
/// The greatest number of inaccessible bytes on each side of a block.
pub(crate) const LARGEST_REDZONE: u32 = 4096;
/// The greatest number of bytes that freed blocks may have in all.
pub(crate) const LARGEST_VOLUME: u32 = 1_000_000_000;
