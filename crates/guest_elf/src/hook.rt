//! The functions of the heap, and their names.
ghost use Rattle.std.specs.Prelude.{◌≡◌};
ghost use Rattle.guest_elf.specs.Hooks.{hook_named};
ghost use Rattle.guest_elf.specs.Sections.{name_from};

use crate::lookups::name_from;

/// A function of the heap of the C library, which a program may have under its name (ISO/IEC 9899, 7.22.3).
#[derive(Clone, Copy, PartialEq, Eq)]
pub enum Hook {
    /// `malloc`, with a size.
    Malloc,
    /// `free`, with an address.
    Free,
    /// `calloc`, with a number of members and the size of one.
    Calloc,
    /// `realloc`, with an address and a new size.
    Realloc,
}

const MALLOC: &[u8] = b"malloc";

const FREE: &[u8] = b"free";

const CALLOC: &[u8] = b"calloc";

const REALLOC: &[u8] = b"realloc";

/// One more than the length of the longest of these names: the number of a name's bytes that are looked at.
const ENOUGH: usize = 8;

/// Returns the function whose name this is, byte for byte.
#[tactic(auto, unfolding(crate::specs::Hooks::hook_named))]
fn hook_named(name: &[u8]) -> Option<Hook>
    ensures { result ≡ hook_named name.now }
{
    if name == MALLOC {
        Some(Hook::Malloc)
    } else if name == FREE {
        Some(Hook::Free)
    } else if name == CALLOC {
        Some(Hook::Calloc)
    } else if name == REALLOC {
        Some(Hook::Realloc)
    } else {
        None
    }
}

/// Returns the function whose name is at an offset of a string table. A long name costs no more than a short one.
pub(crate) fn hook_from(strings: &[u8], start: u32) -> Option<Hook>
    ensures { result ≡ hook_named (name_from strings.now start) }
{
    let from = strings.len().min(start as usize);
    let rest = &strings[from..];
    let front = &rest[..rest.len().min(ENOUGH)];
    hook_named(name_from(front, 0))
}
