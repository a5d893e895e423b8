//! Instructions that were decoded recently, by the addresses of their codes.
ghost use Rattle.std.specs.Prelude.{◌≡◌, ◌^◌, ◌%◌, ◌<◌, ◌≤◌};
ghost use Rattle.guest_machine.specs.DecodeCaches.{AreEntries};

use crate::decode_table::{FEW, clear_all, drop_met, entry_in, put_in};
use instructions::Instruction;
use run_values::Span;
use std::alloc::Global;

/// The greatest number of bytes, from the first code of a table to the last one, that are compared at once with those of another memory.
const NEAR: u64 = 1 << 16;

/// An instruction, and the address of the code that it was decoded from.
#[derive(Clone, Copy)]
pub(crate) struct Decoded {
    pub(crate) addr: u32,
    pub(crate) row: Instruction,
}

/// No entry: no instruction begins at address 1.
pub(crate) const NO_ENTRY: Decoded = Decoded {
    addr: 1,
    row: Instruction::Fence,
};

/// Two tables of instructions, each in the place of its address: those of words, and those of halves. A table reaches as far as one was
/// put in.
#[derive(Drop)]
pub(crate) struct DecodeCache {
    pub(crate) words: Vec<Decoded>,
    pub(crate) halves: Vec<Decoded>,
    /// The least address of an entry.
    low: u32,
    /// The greatest end of an entry's code.
    high: u64,
    ghost words_right: { AreEntries 4 words.items low high },
    ghost halves_right: { AreEntries 2 halves.items low high },
    ghost flat: { high ≤ 2 ^ 32 },
}

impl DecodeCache {
    ghost use Rattle.std.specs.Prelude.{ℕ, ◌+◌, ◌⊎◌, ◌&&◌, IfSome, IsTrue, length, nat_eq, slice_set, vec_len};
    ghost use Rattle.guest_machine.specs.DecodeCaches.{entry_at, no_entry, place_of, AreLeft, CoversEntries, IsEntry};

    /// Empty tables.
    pub(crate) fn new(alloc: Global) -> Self
        ensures words { (k : ℕ) → IsEntry (entry_at result.words.items k) → ⊥ }
        ensures halves { (k : ℕ) → IsEntry (entry_at result.halves.items k) → ⊥ }
    {
        DecodeCache {
            words: Vec::new(alloc),
            halves: Vec::new(alloc),
            low: u32::MAX,
            high: 0,
        }
    }

    /// Tables of its own with the same entries. If memory runs out for them, they have none.
    pub(crate) fn share(&self, alloc: Global) -> Self
        ensures words { (k : ℕ) → IsEntry (entry_at result.words.items k) → entry_at result.words.items k ≡ entry_at self.now.words.items k }
        ensures halves { (k : ℕ) → IsEntry (entry_at result.halves.items k) → entry_at result.halves.items k ≡ entry_at self.now.halves.items k }
    {
        let mut words = Vec::new(alloc);
        let mut halves = Vec::new(alloc);
        if words.extend_from_slice(&self.words).is_err()
            || halves.extend_from_slice(&self.halves).is_err()
        {
            return DecodeCache::new(alloc);
        }
        DecodeCache {
            words,
            halves,
            low: self.low,
            high: self.high,
        }
    }

    /// Is there no place for an entry?
    pub(crate) fn is_unused(&self) -> bool
        ensures { result ≡ (nat_eq (vec_len self.now.words) 0 && nat_eq (vec_len self.now.halves) 0) }
    {
        self.words.is_empty() && self.halves.is_empty()
    }

    /// A range that has the codes of all entries, if there are entries and they lie near each other.
    pub(crate) fn range(&self) -> Option<Span>
        ensures flat { IfSome result (λ range. range.start + range.len ≤ 2 ^ 32) }
        ensures words { IfSome result (λ range. CoversEntries range 4 self.now.words.items) }
        ensures halves { IfSome result (λ range. CoversEntries range 2 self.now.halves.items) }
    {
        let len = self.high.checked_sub(u64::from(self.low))?;
        if len > NEAR {
            return None;
        }
        Some(Span {
            start: self.low,
            len: len as u32,
        })
    }

    /// The instruction of the word at an address, if there is one.
    #[inline(always)]
    pub(crate) fn word_at(&self, addr: u32) -> Option<Instruction>
        ensures { IfSome result (λ row. (row ≡ (entry_at self.now.words.items (place_of 4 addr)).row)
            × ((entry_at self.now.words.items (place_of 4 addr)).addr ≡ addr)) }
    {
        entry_in(&self.words, 4, addr)
    }

    /// The instruction of the half at an address, if there is one.
    #[inline(always)]
    pub(crate) fn half_at(&self, addr: u32) -> Option<Instruction>
        ensures { IfSome result (λ row. (row ≡ (entry_at self.now.halves.items (place_of 2 addr)).row)
            × ((entry_at self.now.halves.items (place_of 2 addr)).addr ≡ addr)) }
    {
        entry_in(&self.halves, 2, addr)
    }

    /// Empties the tables. Their room stays.
    pub(crate) fn clear(&mut self)
        ensures words { (k : ℕ) → IsEntry (entry_at self.new.words.items k) → ⊥ }
        ensures halves { (k : ℕ) → IsEntry (entry_at self.new.halves.items k) → ⊥ }
    {
        clear_all(&mut self.words);
        clear_all(&mut self.halves);
        self.low = u32::MAX;
        self.high = 0;
    }

    /// Puts the entry of a word in its place, where there is room.
    pub(crate) fn put_word(&mut self, entry: Decoded)
        requires { entry.addr + 4 ≤ 2 ^ 32 }
        ensures words { (k : ℕ) → IsEntry (entry_at self.new.words.items k)
            → (entry_at self.new.words.items k ≡ entry_at self.old.words.items k) ⊎ (entry_at self.new.words.items k ≡ entry) }
        ensures halves { self.new.halves.items ≡ self.old.halves.items }
    {
        self.low = self.low.min(entry.addr);
        self.high = self.high.max(u64::from(entry.addr) + 4);
        put_in(&mut self.words, 4, entry);
    }

    /// Puts the entry of a half in its place, where there is room.
    pub(crate) fn put_half(&mut self, entry: Decoded)
        requires { entry.addr + 2 ≤ 2 ^ 32 }
        ensures words { self.new.words.items ≡ self.old.words.items }
        ensures halves { (k : ℕ) → IsEntry (entry_at self.new.halves.items k)
            → (entry_at self.new.halves.items k ≡ entry_at self.old.halves.items k) ⊎ (entry_at self.new.halves.items k ≡ entry) }
    {
        self.low = self.low.min(entry.addr);
        self.high = self.high.max(u64::from(entry.addr) + 2);
        put_in(&mut self.halves, 2, entry);
    }

    /// Whether the bounds of the tables show that no entry's code has one of the `len` bytes from an address on.
    #[inline(always)]
    fn lies_apart(&self, start: u32, len: u32) -> bool
        ensures words { IsTrue result → AreLeft self.now.words.items self.now.words.items start len 4 }
        ensures halves { IsTrue result → AreLeft self.now.halves.items self.now.halves.items start len 2 }
    {
        let end = u64::from(start) + u64::from(len);
        end <= u64::from(self.low) || (self.high <= u64::from(start) && end <= 1 << 32)
    }

    /// Removes the entries whose codes have one of the bytes of a range; all entries, if the range is long.
    #[inline(always)]
    pub(crate) fn forget(&mut self, start: u32, len: u32)
        ensures words { AreLeft self.old.words.items self.new.words.items start len 4 }
        ensures halves { AreLeft self.old.halves.items self.new.halves.items start len 2 }
    {
        if !self.lies_apart(start, len) {
            self.forget_near(start, len);
        }
    }

    #[cold]
    #[inline(never)]
    fn forget_near(&mut self, start: u32, len: u32)
        ensures words { AreLeft self.old.words.items self.new.words.items start len 4 }
        ensures halves { AreLeft self.old.halves.items self.new.halves.items start len 2 }
    {
        if len > FEW || start > u32::MAX - len {
            self.clear();
            return;
        }
        drop_met(&mut self.words, 4, start, len);
        drop_met(&mut self.halves, 2, start, len);
    }
}
