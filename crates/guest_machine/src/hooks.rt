ghost use Rattle.std.specs.Prelude.{◌≡◌, ℕ, ◌<◌, ◌≤◌, length, slice_index_or, IfOk, IsTrue};
ghost use Rattle.guest_elf.specs.declared.hook.Hook.{Hook as HookOf};
ghost use Rattle.std.specs.List.Sorted.{IsNonDecreasingBy};
ghost use Rattle.guest_elf.specs.Hooks.{hook_at};
ghost use Rattle.guest_machine.specs.Sieve.{slot_of, AreMarked};

use guest_elf::Hook;
use std::alloc::{AllocError, Global};
use std::marker::Model;

/// The number of marks in a sieve.
const SLOTS: usize = 64;

/// The functions of the heap that a program has under their own names, each with its first address. Contracts see them as their
/// list.
#[derive(Drop)]
pub struct Hooks {
    entries: Vec<(u32, Hook)>,
    // A mark in the place of each entry's address. Where there is no mark, no function begins.
    sieve: [bool; SLOTS],
}

impl Model for Hooks {
    ghost use Rattle.std.specs.Prelude.{List, ℕ, length};
    ghost use Rattle.std.specs.List.Sorted.{IsNonDecreasingBy};
    ghost use Rattle.guest_elf.specs.declared.hook.Hook.{Hook as HookOf};
    ghost use Rattle.guest_machine.specs.Sieve.{AreMarked};

    ghost Value = { List (ℕ × HookOf) };

    ghost view = { λ hooks. hooks.entries.items };

    ghost invariant = { λ hooks. IsNonDecreasingBy (λ (entry : ℕ × HookOf). entry.0) hooks.entries.items
        × AreMarked hooks.sieve hooks.entries.items (length hooks.entries.items) };
}

impl Hooks {
    /// Returns the functions at these addresses, which are in order.
    pub fn new(entries: Vec<(u32, Hook)>) -> Self
        requires { IsNonDecreasingBy (λ (entry : ℕ × HookOf). entry.0) entries.items }
        ensures { result ≡ entries.items }
    {
        let sieve = sieve_of(&entries);
        Hooks { entries, sieve }
    }

    /// Returns a copy.
    pub(crate) fn copy(&self, alloc: Global) -> Result<Hooks, AllocError>
        ensures { IfOk result (λ copy. copy ≡ self.now) }
    {
        let entries = self.entries.as_slice().to_vec(alloc)?;
        Ok(Hooks {
            entries,
            sieve: self.sieve,
        })
    }

    /// Returns whether others are the same functions, at the same addresses.
    pub(crate) fn are_same(&self, others: &Hooks) -> bool
        ensures { IsTrue result → self.now ≡ others.now }
    {
        self.entries == others.entries
    }

    /// Returns the function that begins at an address; if there are several, the first.
    #[inline(always)]
    pub fn at(&self, addr: u32) -> Option<Hook>
        ensures { result ≡ hook_at self.now addr }
    {
        if self.sieve[slot_of(addr)] {
            find(&self.entries, addr)
        } else {
            None
        }
    }
}

/// The place of an address in a sieve.
fn slot_of(addr: u32) -> usize
    ensures value { result ≡ slot_of addr }
    ensures within { result < 64 }
{
    addr as usize / 4 % SLOTS
}

/// The sieve of some functions.
fn sieve_of(entries: &[(u32, Hook)]) -> [bool; SLOTS]
    ensures { AreMarked result entries.now (length entries.now) }
{
    let mut sieve = [false; SLOTS];
    for &(start, _) in entries {
        sieve[slot_of(start)] = true;
    }
    sieve
}

/// How many of the functions begin below an address.
fn below(entries: &[(u32, Hook)], addr: u32) -> usize
    requires { IsNonDecreasingBy (λ (entry : ℕ × HookOf). entry.0) entries.now }
    ensures within { result ≤ length entries.now }
    ensures before { (k : ℕ) (d : ℕ × HookOf) → k < result → (slice_index_or entries.now k d).0 < addr }
    ensures next { (k : ℕ) (d : ℕ × HookOf) → result ≤ k → k < length entries.now → addr ≤ (slice_index_or entries.now k d).0 }
{
    entries.partition_point(|entry| entry.0 < addr)
}

/// The function that begins at an address.
#[inline(never)]
#[tactic(auto, using(crate::proofs::HookSteps::hook_passed, crate::proofs::HookSteps::hook_past))]
fn find(entries: &[(u32, Hook)], addr: u32) -> Option<Hook>
    requires { IsNonDecreasingBy (λ (entry : ℕ × HookOf). entry.0) entries.now }
    ensures { result ≡ hook_at entries.now addr }
{
    let place = below(entries, addr);
    match entries.get(place) {
        Some(&(start, function)) if start == addr => Some(function),
        _ => None,
    }
}
