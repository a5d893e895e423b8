//! A memory, with the instructions that were decoded from it recently.
ghost use Rattle.std.specs.Prelude.{◌≡◌};
ghost use Rattle.shadow_memory.specs.Memories.{bytes_in, shadows_in};
ghost use Rattle.guest_machine.specs.DecodeCaches.{HasBoth};

use crate::decode_cache::{DecodeCache, Decoded};
use definedness::Bits;
use instructions::{Code, Instruction};
use shadow_memory::{Bad, Loaded, Memory, RangeKind};
use std::alloc::{AllocError, Global};
use std::marker::Model;
use std::mem;

/// A memory with a decode cache. Each change of the memory removes from the cache the entries that it makes wrong. Contracts see the
/// memory.
#[derive(Drop)]
pub(crate) struct CachedMemory {
    memory: Memory,
    cache: DecodeCache,
    ghost kept: { HasBoth (bytes_in memory) (shadows_in memory) cache.words.items cache.halves.items },
}

impl Model for CachedMemory {
    ghost use Rattle.std.specs.Coded.{codes};
    ghost use Rattle.shadow_memory.specs.contracts.memory.Memory as e;
    ghost use Rattle.shadow_memory.specs.declared.memory.Memory.{Memory};

    ghost Value = { Memory };

    ghost coded = { Prim.hlevel (codes, e.the_row.coded) };

    ghost view = { λ cached. cached.memory };
}

impl CachedMemory {
    ghost use Rattle.std.specs.Prelude.{◌+◌, ◌*◌, ◌%◌, ◌^◌, ◌<◌, None, IfOk, IfSome, IsTrue, IsFalse, OnOk, length, slice_index};
    ghost use Rattle.guest_machine.specs.DecodeCaches.{HasRow};
    ghost use Rattle.instructions.specs.Codes.{len_of, number_of};
    ghost use Rattle.shadow_memory.specs.Changes.{AreApart, IsWidth};
    ghost use Rattle.shadow_memory.specs.Ranges.{byte_of, copied, little_word, window, written};
    ghost use Rattle.shadow_memory.specs.Shadows.{copied_undef, first_bad, first_inaccessible, loaded_undef, made_so, stored_undef, HasDefined};

    /// A memory with nothing decoded.
    pub(crate) fn new(alloc: Global, memory: Memory) -> Self
        ensures { result ≡ memory }
    {
        CachedMemory {
            memory,
            cache: DecodeCache::new(alloc),
        }
    }

    /// The memory.
    #[inline(always)]
    pub(crate) fn memory(&self) -> &Memory
        ensures { result.now ≡ self.now }
    {
        &self.memory
    }

    /// Returns the instruction of the word at a multiple of 2, if it is known; the word may then be accessed, and is defined.
    #[inline(always)]
    pub(crate) fn decoded_word(&self, addr: u32) -> Option<Instruction>
        requires { addr % 2 ≡ 0 }
        ensures { IfSome result (λ row. HasRow (bytes_in self.now) (shadows_in self.now) 4 addr row) }
    {
        self.cache.word_at(addr)
    }

    /// Returns the instruction of the half at a multiple of 2, if it is known; the half may then be accessed, and is defined.
    #[inline(always)]
    pub(crate) fn decoded_half(&self, addr: u32) -> Option<Instruction>
        requires { addr % 2 ≡ 0 }
        ensures { IfSome result (λ row. HasRow (bytes_in self.now) (shadows_in self.now) 2 addr row) }
    {
        self.cache.half_at(addr)
    }

    /// Keeps the instruction of the word at an address, all of which may be accessed and is defined; not of one that goes on at address 0.
    pub(crate) fn keep_word(&mut self, addr: u32, row: Instruction)
        requires { HasRow (bytes_in self.old) (shadows_in self.old) 4 addr row }
        ensures { self.new ≡ self.old }
    {
        if addr <= u32::MAX - 3 {
            self.cache.put_word(Decoded { addr, row });
        }
    }

    /// Keeps the instruction of the half at a multiple of 2, all of which may be accessed and is defined.
    pub(crate) fn keep_half(&mut self, addr: u32, row: Instruction)
        requires aligned { addr % 2 ≡ 0 }
        requires there { HasRow (bytes_in self.old) (shadows_in self.old) 2 addr row }
        ensures { self.new ≡ self.old }
    {
        self.cache.put_half(Decoded { addr, row });
    }

    /// See [`Memory::load`].
    #[inline(always)]
    pub(crate) fn load(&self, addr: u32, n: u32) -> Loaded
        requires { IsWidth n }
        ensures value { result.value ≡ little_word (window (bytes_in self.now) addr n) }
        ensures undef { result.undef ≡ little_word (window (λ a. loaded_undef (shadows_in self.now a)) addr n) }
        ensures bad { result.bad ≡ first_inaccessible (shadows_in self.now) addr n }
        ensures small { result.value < 2 ^ (8 * n) }
        ensures small_undef { result.undef < 2 ^ (8 * n) }
    {
        self.memory.load(addr, n)
    }

    /// See [`Memory::defined`].
    #[inline(always)]
    pub(crate) fn defined(&self, addr: u32, n: u32) -> Option<u32>
        requires { IsWidth n }
        ensures has { IfSome result (λ value. HasDefined (bytes_in self.now) (shadows_in self.now) addr n value) }
        ensures small { IfSome result (λ value. value < 2 ^ (8 * n)) }
    {
        self.memory.defined(addr, n)
    }

    /// See [`Memory::first_bad`].
    pub(crate) fn first_bad(&self, addr: u32, len: u32, need_defined: bool) -> Option<Bad>
        ensures { result ≡ first_bad (shadows_in self.now) addr len need_defined }
    {
        self.memory.first_bad(addr, len, need_defined)
    }

    /// See [`Memory::store_at_once`].
    #[inline(always)]
    pub(crate) fn store_at_once(&mut self, addr: u32, n: u32, bits: Bits) -> bool
        requires { IsWidth n }
        ensures bad { IsTrue result → first_inaccessible (shadows_in self.old) addr n ≡ None }
        ensures bytes { IsTrue result → bytes_in self.new ≡ written (bytes_in self.old) addr n (byte_of bits.value) }
        ensures shadows { IsTrue result → shadows_in self.new ≡ stored_undef (shadows_in self.old) addr n bits.undef }
        ensures bytes_kept { IsFalse result → bytes_in self.new ≡ bytes_in self.old }
        ensures shadows_kept { IsFalse result → shadows_in self.new ≡ shadows_in self.old }
    {
        self.cache.forget(addr, n);
        self.memory.store_at_once(addr, n, bits)
    }

    /// See [`Memory::store`].
    #[inline(always)]
    pub(crate) fn store(&mut self, addr: u32, n: u32, bits: Bits) -> Result<Option<u32>, AllocError>
        requires { IsWidth n }
        ensures bad { IfOk result (λ bad. bad ≡ first_inaccessible (shadows_in self.old) addr n) }
        ensures bytes { OnOk result (bytes_in self.new ≡ written (bytes_in self.old) addr n (byte_of bits.value)) }
        ensures shadows { OnOk result (shadows_in self.new ≡ stored_undef (shadows_in self.old) addr n bits.undef) }
    {
        self.cache.forget(addr, n);
        self.memory.store(addr, n, bits)
    }

    /// See [`Memory::set_range`].
    pub(crate) fn set_range(
        &mut self,
        addr: u32,
        len: u32,
        kind: RangeKind,
    ) -> Result<(), AllocError>
        ensures bytes { bytes_in self.new ≡ bytes_in self.old }
        ensures shadows { OnOk result (shadows_in self.new ≡ made_so (shadows_in self.old) addr len kind) }
    {
        self.cache.forget(addr, len);
        self.memory.set_range(addr, len, kind)
    }

    /// See [`Memory::fill`].
    pub(crate) fn fill(&mut self, addr: u32, len: u32, bytes: &[u8]) -> Result<(), AllocError>
        ensures bytes { OnOk result (bytes_in self.new ≡ written (bytes_in self.old) addr len (slice_index bytes.now)) }
        ensures shadows { OnOk result (shadows_in self.new ≡ made_so (shadows_in self.old) addr len RangeKind.Defined) }
    {
        self.cache.forget(addr, len);
        self.memory.fill(addr, len, bytes)
    }

    /// See [`Memory::store_bytes`].
    pub(crate) fn store_bytes(&mut self, addr: u32, bytes: &[u8]) -> Result<(), AllocError>
        requires { length bytes.now < 2 ^ 32 }
        ensures bytes { OnOk result (bytes_in self.new ≡ written (bytes_in self.old) addr (length bytes.now) (slice_index bytes.now)) }
        ensures shadows { OnOk result (shadows_in self.new ≡ stored_undef (shadows_in self.old) addr (length bytes.now) 0) }
    {
        self.cache.forget(addr, bytes.len() as u32);
        self.memory.store_bytes(addr, bytes)
    }

    /// See [`Memory::copy_with_shadow`].
    pub(crate) fn copy_with_shadow(
        &mut self,
        from: u32,
        to: u32,
        len: u32,
    ) -> Result<(), AllocError>
        requires { AreApart from to len }
        ensures bytes { OnOk result (bytes_in self.new ≡ copied (bytes_in self.old) from to len) }
        ensures shadows { OnOk result (shadows_in self.new ≡ copied_undef (shadows_in self.old) from to len) }
    {
        self.cache.forget(to, len);
        self.memory.copy_with_shadow(from, to, len)
    }

    /// See [`Memory::poke_word`].
    pub(crate) fn poke_word(&mut self, addr: u32, word: u32) -> Result<(), AllocError>
        ensures bytes { OnOk result (bytes_in self.new ≡ written (bytes_in self.old) addr 4 (byte_of word)) }
        ensures shadows { shadows_in self.new ≡ shadows_in self.old }
    {
        self.cache.forget(addr, 4);
        self.memory.poke_word(addr, word)
    }

    /// Changes the bytes of a code. Their accessibility and undefined bits stay.
    pub(crate) fn poke(&mut self, addr: u32, code: Code) -> Result<(), AllocError>
        ensures bytes { OnOk result (bytes_in self.new ≡ written (bytes_in self.old) addr (len_of code) (byte_of (number_of code))) }
        ensures shadows { shadows_in self.new ≡ shadows_in self.old }
    {
        match code {
            Code::Word(word) => self.poke_word(addr, word),
            Code::Half(half) => self.poke_half(addr, half),
        }
    }

    /// See [`Memory::poke_half`].
    fn poke_half(&mut self, addr: u32, half: u16) -> Result<(), AllocError>
        ensures bytes { OnOk result (bytes_in self.new ≡ written (bytes_in self.old) addr 2 (byte_of half)) }
        ensures shadows { shadows_in self.new ≡ shadows_in self.old }
    {
        self.cache.forget(addr, 2);
        self.memory.poke_half(addr, half)
    }

    /// See [`Memory::share`]. The copy has nothing decoded.
    pub(crate) fn share(&self, alloc: Global) -> Result<CachedMemory, AllocError>
        ensures bytes { IfOk result (λ copy. bytes_in copy ≡ bytes_in self.now) }
        ensures shadows { IfOk result (λ copy. shadows_in copy ≡ shadows_in self.now) }
    {
        let memory = self.memory.share()?;
        Ok(CachedMemory::new(alloc, memory))
    }

    /// See [`Memory::share`]. The copy has decoded the same.
    pub(crate) fn share_warm(&self, alloc: Global) -> Result<CachedMemory, AllocError>
        ensures bytes { IfOk result (λ copy. bytes_in copy ≡ bytes_in self.now) }
        ensures shadows { IfOk result (λ copy. shadows_in copy ≡ shadows_in self.now) }
    {
        let memory = self.memory.share()?;
        let cache = self.cache.share(alloc);
        Ok(CachedMemory { memory, cache })
    }

    /// Copies what another memory has decoded, for the codes that are the same in both.
    #[tactic(auto, using(crate::proofs::SameCodes::both_left))]
    pub(crate) fn copy_decoded(&mut self, alloc: Global, other: &CachedMemory)
        ensures { self.new ≡ self.old }
    {
        let mut cache = other.cache.share(alloc);
        cache.fit(&self.memory, &other.memory);
        self.cache = cache;
    }

    /// Takes over what another memory has decoded, for the codes that are the same in both, unless this one has decoded something itself.
    pub(crate) fn move_decoded(&mut self, alloc: Global, other: &mut CachedMemory)
        ensures same { self.new ≡ self.old }
        ensures other { other.new ≡ other.old }
    {
        if self.cache.is_unused() {
            let mut cache = mem::replace(&mut other.cache, DecodeCache::new(alloc));
            cache.fit(&self.memory, &other.memory);
            self.cache = cache;
        }
    }

    /// See [`Memory::share`]. What was decoded moves to the copy.
    pub(crate) fn share_moving(&mut self, alloc: Global) -> Result<CachedMemory, AllocError>
        ensures same { self.new ≡ self.old }
        ensures bytes { IfOk result (λ copy. bytes_in copy ≡ bytes_in self.old) }
        ensures shadows { IfOk result (λ copy. shadows_in copy ≡ shadows_in self.old) }
    {
        let memory = self.memory.share()?;
        let cache = mem::replace(&mut self.cache, DecodeCache::new(alloc));
        Ok(CachedMemory { memory, cache })
    }
}
