//! A law of operands that are wholly defined, as the contract of a function that does nothing. A caller has the law after the call.

ghost use Rattle.std.specs.Prelude.{◌≡◌};
ghost use Rattle.definedness.specs.KnownLaw.{GivesDefined};

use crate::Bits;

/// If no bit of `x` and `y` is undefined, no bit of a result is.
#[inline(always)]
pub fn defined_results(x: Bits, y: Bits)
    requires x_defined { x.undef ≡ 0 }
    requires y_defined { y.undef ≡ 0 }
    ensures { GivesDefined x y }
{}
