//! The options of a report.
ghost use Rattle.std.specs.Prelude.{◌≡◌, ◌∷◌, [], true, false};

use guest_elf::Image;
use suppressions::Suppression;

/// The options of a report (Memcheck manual, options `--num-callers` and `--show-leak-kinds`).
#[derive(Clone, Copy)]
pub struct Options {
    /// The number of addresses of a trace that are shown, from 1 to 24.
    pub callers: u32,
    /// Which kinds of leak are shown: definitely lost, indirectly lost, possibly lost, still reachable.
    pub show: [bool; 4],
}

/// What a report shows of a machine: the names of an image, what no suppression matches, by a user's options.
#[derive(Clone, Copy)]
pub(crate) struct View<'a> {
    pub(crate) image: &'a Image<'a>,
    pub(crate) suppressions: &'a [Suppression],
    pub(crate) options: &'a Options,
}

/// Memcheck's defaults: 12 addresses, definite and possible leaks.
impl Default for Options {
    fn default() -> Self
        ensures callers { result.callers ≡ 12 }
        ensures show { result.show ≡ true ∷ false ∷ true ∷ false ∷ [] }
    {
        Options {
            callers: 12,
            show: [true, false, true, false],
        }
    }
}
