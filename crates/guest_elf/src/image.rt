//! What a file loads.
ghost use Rattle.std.specs.Prelude.{◌≡◌, ℕ, ◌+◌, ◌%◌, ◌^◌, ◌<◌, ◌↔◌, All, IsSome, IsTrue, IfOk, is_some};
ghost use Rattle.std.specs.List.Sorted.{IsNonDecreasingBy};
ghost use Rattle.guest_elf.specs.Hooks.{hooks_by, IsRising};
ghost use Rattle.guest_elf.specs.declared.hook.Hook.{Hook as HookOf};
ghost use Rattle.guest_elf.specs.Images.{segments_of, entry_of, loaded_at, name_at, hooks_of, profile_of, has_room, is_half_word, is_loaded, is_word};
ghost use Rattle.guest_elf.specs.Names.{named_by};
ghost use Rattle.guest_elf.specs.Segments.{has_address, Fits};
ghost use Rattle.std.specs.List.{list_any};

use crate::hook::Hook;
use crate::names::FunctionNames;
use crate::profile::Profile;
use crate::segment::Segment;
use std::alloc::{AllocError, Global};

/// The number of bytes in a word.
const WORD_SIZE: u32 = 4;

/// The number of addresses.
const ADDRESSES: u64 = 1 << 32;

/// What an executable file loads, and where it begins.
#[derive(Drop)]
pub struct Image<'a> {
    segments: Vec<Segment<'a>>,
    entry: u32,
    names: FunctionNames<'a>,
    profile: Profile,
}

impl<'a> Image<'a> {
    /// Returns the image of these segments, which begins at `entry`, with these names, read for a profile.
    #[tactic(auto, unfolding(crate::specs::Images::segments_of, crate::specs::Images::entry_of, crate::specs::Images::name_at, crate::specs::Images::hooks_of, crate::specs::Images::profile_of))]
    pub(crate) fn new(
        segments: Vec<Segment<'a>>,
        entry: u32,
        names: FunctionNames<'a>,
        profile: Profile,
    ) -> Self
        ensures segments { segments_of result ≡ segments.entry.items }
        ensures entry { entry_of result ≡ entry }
        ensures names { (address : ℕ) → name_at result address ≡ named_by names.entry address }
        ensures hooks { hooks_of result ≡ hooks_by names.entry.strings.now names.entry.symbols.items }
        ensures profile { profile_of result ≡ profile }
    {
        Image {
            segments,
            entry,
            names,
            profile,
        }
    }

    /// Returns the loaded segments, in the order of the file's program headers.
    #[tactic(auto, unfolding(crate::specs::Images::segments_of))]
    pub fn segments(&self) -> &[Segment<'a>]
        ensures list { result.now ≡ segments_of self.now }
        ensures fits { All Fits result.now }
        ensures loads { (address : ℕ) → list_any (λ segment. has_address segment address) result.now ≡ is_some (loaded_at self.now address) }
    {
        self.segments.as_slice()
    }

    /// Returns the address of the first instruction.
    #[tactic(auto, unfolding(crate::specs::Images::entry_of))]
    pub fn entry(&self) -> u32
        ensures { result ≡ entry_of self.now }
    {
        self.entry
    }

    /// Returns what the file was read for.
    #[tactic(auto, unfolding(crate::specs::Images::profile_of))]
    pub fn profile(&self) -> Profile
        ensures { result ≡ profile_of self.now }
    {
        self.profile
    }

    /// Returns the name of the function at an address, a slice of the file; `???` if no symbol names one. It may outlive the image.
    /// Allocates nothing.
    #[tactic(auto, unfolding(crate::specs::Images::name_at))]
    pub fn name_of(&self, addr: u32) -> &'a [u8]
        ensures { result.now ≡ name_at self.now addr }
    {
        self.names.name_of(addr)
    }

    /// Returns the functions of the heap that the program has by name, with their addresses: those of type STT_FUNC that a section defines
    /// and that are named exactly `malloc`, `free`, `calloc` or `realloc`. They are in the order of their addresses, one at each: the one
    /// with the lowest index in the symbol table. This is the only call on an image that allocates memory.
    #[tactic(auto, unfolding(crate::specs::Images::hooks_of), using(crate::proofs::Hooked::hooks_rise))]
    pub fn hooks(&self, alloc: Global) -> Result<Vec<(u32, Hook)>, AllocError>
        ensures list { IfOk result (λ hooks. hooks.items ≡ hooks_of self.now) }
        ensures rising { IfOk result (λ hooks. IsRising hooks.items) }
        ensures sorted { IfOk result (λ hooks. IsNonDecreasingBy (λ (entry : ℕ × HookOf). entry.0) hooks.items) }
    {
        self.names.hooks(alloc)
    }

    /// Returns whether each byte of the word at an address is loaded. Addresses wrap at 2^32. This is for callers that patch a machine
    /// themselves: an edit of a scenario asks also whether an instruction may begin there.
    pub fn patchable(&self, addr: u32) -> bool
        ensures { IsTrue result
            ↔ ((i : ℕ) → i < 4 → IsSome (loaded_at self.now ((addr + i) % 2 ^ 32))) }
    {
        (0..WORD_SIZE).all(|offset| self.is_loaded(addr.wrapping_add(offset)))
    }

    /// Returns whether a word of the program is at an address: an instruction may begin there, and each of the four bytes is loaded.
    #[tactic(auto, unfolding(crate::specs::Images::is_word))]
    pub fn is_word(&self, addr: u32) -> bool
        ensures { result ≡ is_word self.now addr }
    {
        self.has_room(addr, 4)
            && self.is_loaded_after(addr, 0)
            && self.is_loaded_after(addr, 1)
            && self.is_loaded_after(addr, 2)
            && self.is_loaded_after(addr, 3)
    }

    /// Returns whether a half of the program is at an address: an instruction may begin there, and both bytes are loaded.
    #[tactic(auto, unfolding(crate::specs::Images::is_half_word))]
    pub fn is_half_word(&self, addr: u32) -> bool
        ensures { result ≡ is_half_word self.now addr }
    {
        self.has_room(addr, 2) && self.is_loaded_after(addr, 0) && self.is_loaded_after(addr, 1)
    }

    /// Returns whether an instruction of some bytes may be at an address.
    #[tactic(auto, unfolding(crate::specs::Images::profile_of))]
    fn has_room(&self, addr: u32, len: u32) -> bool
        ensures { result ≡ has_room self.now addr len }
    {
        self.profile.isa.aligns(addr) && u64::from(addr) + u64::from(len) <= ADDRESSES
    }

    /// Returns whether the byte at a distance after an address is loaded.
    fn is_loaded_after(&self, addr: u32, distance: u32) -> bool
        ensures { result ≡ is_loaded self.now addr distance }
    {
        self.is_loaded(addr.wrapping_add(distance))
    }

    /// Returns whether the byte at an address is loaded.
    fn is_loaded(&self, addr: u32) -> bool
        ensures { result ≡ is_some (loaded_at self.now addr) }
    {
        has_any(&self.segments, addr)
    }
}

/// Returns whether an address is in one of some segments.
fn has_any(segments: &[Segment], addr: u32) -> bool
    ensures { result ≡ list_any (λ segment. has_address segment addr) segments.now }
{
    segments.iter().any(|segment| segment.has(addr))
}
