//! The instructions. Each is given its length, `len`, or the address after it, `next`.
ghost use Rattle.std.specs.Prelude.{◌≡◌, ◌<◌, false, Some, None, OnOk, IfOk, IfSome, IsTrue, IsFalse};
ghost use Rattle.shadow_memory.specs.Ranges.{byte_of, written};
ghost use Rattle.shadow_memory.specs.Shadows.{first_inaccessible, stored_undef, HasDefined};
ghost use Rattle.shadow_memory.specs.Memories.{bytes_in, shadows_in};
ghost use Rattle.error_events.specs.declared.kind.Kind.TheVariants.{Read as ReadError};
ghost use Rattle.shadow_memory.specs.Ranges.{little_word, window};
ghost use Rattle.guest_machine.specs.Errors.{access_errors, taken_undef};
ghost use Rattle.guest_machine.specs.Spans.{span_at};
ghost use Rattle.instructions.specs.Widths.{width_len, width_limit};
ghost use Rattle.guest_machine.specs.Effects.{next_of, stored_core, results_in, load, store, branch, jump, jump_register, branched};
ghost use Rattle.guest_machine.specs.Exec.{no_intake, nothing, accessed, writing, taken_from};
ghost use Rattle.guest_machine.specs.Shows.{core_of, bytes_of};
ghost use Rattle.guest_machine.specs.Doing.{Notes, Changes, Does, stored_at};

use crate::cached_memory::CachedMemory;
use crate::machine::Guest;
use crate::machine::registers::known;
use definedness::Bits;
use instructions::{Comparison, Register, StackHint, Width, extended, passes};
use run_values::Span;
use shadow_memory::Loaded;
use std::alloc::AllocError;

/// Stores the low bytes of a number, and returns the first inaccessible address. Each width is separate, so that a word is stored as one.
#[inline(always)]
pub(super) fn put(
    memory: &mut CachedMemory,
    start: u32,
    width: Width,
    bits: Bits,
) -> Result<Option<u32>, AllocError>
    ensures fault { IfOk result (λ fault. fault ≡ first_inaccessible (shadows_in memory.old) start (width_len width)) }
    ensures shadows { OnOk result (shadows_in memory.new ≡ stored_undef (shadows_in memory.old) start (width_len width) bits.undef) }
    ensures bytes { OnOk result (bytes_in memory.new ≡ written (bytes_in memory.old) start (width_len width) (byte_of bits.value)) }
{
    match width {
        Width::Byte => memory.store(start, 1, bits),
        Width::Half => memory.store(start, 2, bits),
        Width::Word => memory.store(start, 4, bits),
    }
}

impl Guest {
    /// Writes rd, and goes on after the instruction.
    #[inline(always)]
    #[tactic(auto, unfolding(crate::specs::Registers::set_register, crate::specs::Doing::note_events))]
    pub(super) fn result_in(&mut self, len: u32, rd: Register, bits: Bits)
        ensures { Does self.old self.new (results_in (core_of self.old) (next_of (core_of self.old) len) rd bits) nothing false no_intake }
    {
        self.set_register(rd, bits);
        self.advance_by(len);
    }

    /// Returns the low bytes at an address, their undefined bits and the first inaccessible one. Each width is separate, so that a word is
    /// loaded as one.
    #[inline(always)]
    fn loaded(&self, start: u32, width: Width) -> Loaded
        ensures value { result.value ≡ little_word (window (bytes_of self.now) start (width_len width)) }
        ensures undef { result.undef ≡ taken_undef (core_of self.now) start (width_len width) }
        ensures bad { result.bad ≡ first_inaccessible (core_of self.now).shadow start (width_len width) }
        ensures small { result.value < width_limit width }
        ensures small_undef { result.undef < width_limit width }
    {
        match width {
            Width::Byte => self.memory.load(start, 1),
            Width::Half => self.memory.load(start, 2),
            Width::Word => self.memory.load(start, 4),
        }
    }

    /// The low bytes at an address and their undefined bits; the first inaccessible one is noted.
    #[inline(always)]
    pub(super) fn load_checked(&mut self, start: u32, width: Width) -> Result<Bits, AllocError>
        ensures notes { OnOk result (Notes self.old self.new (core_of self.old) (access_errors (core_of self.old) (ReadError (width_len width)) start (width_len width))) }
        ensures value { IfOk result (λ bits. bits.value ≡ little_word (window (bytes_of self.old) start (width_len width))) }
        ensures undef { IfOk result (λ bits. bits.undef ≡ taken_undef (core_of self.old) start (width_len width)) }
        ensures small { IfOk result (λ bits. bits.value < width_limit width) }
        ensures small_undef { IfOk result (λ bits. bits.undef < width_limit width) }
    {
        let loaded = self.loaded(start, width);
        self.test_load(width.byte_len(), loaded.bad)?;
        Ok(Bits {
            value: loaded.value,
            undef: loaded.undef,
        })
    }

    /// A load, with each test that it needs.
    #[inline(never)]
    #[tactic(auto, unfolding(crate::specs::Doing::note_events), using(crate::proofs::Showing::note_events_append))]
    pub(super) fn load_testing(
        &mut self,
        next: u32,
        width: Width,
        signed: bool,
        rd: Register,
        rs1: Register,
        imm: u32,
    ) -> Result<(), AllocError>
        ensures { OnOk result (Does self.old self.new (load (core_of self.old) next width signed rd rs1 imm
            (taken_from (bytes_of self.old) (Some (accessed (core_of self.old) rs1 imm width)))) nothing false no_intake) }
    {
        let start = self.target(rs1, imm);
        self.test_value(rs1)?;
        let loaded = self.load_checked(start, width)?;
        let value = extended(width, signed, loaded.value);
        let undef = extended(width, signed, loaded.undef);
        self.set_register(rd, Bits { value, undef });
        self.advance(next);
        Ok(())
    }

    /// The bytes that a load or a store accesses.
    #[inline(always)]
    pub(super) fn accessed(&self, rs1: Register, imm: u32, width: Width) -> Span
        ensures { result ≡ accessed (core_of self.now) rs1 imm width }
    {
        Span {
            start: self.target(rs1, imm),
            len: width.len(),
        }
    }

    /// The number at an address, if one look-up shows that it is accessible and defined.
    #[inline(always)]
    fn defined(&self, start: u32, width: Width) -> Option<u32>
        ensures has { IfSome result (λ value. HasDefined (bytes_of self.now) (core_of self.now).shadow start (width_len width) value) }
        ensures small { IfSome result (λ value. value < width_limit width) }
    {
        match width {
            Width::Byte => self.memory.defined(start, 1),
            Width::Half => self.memory.defined(start, 2),
            Width::Word => self.memory.defined(start, 4),
        }
    }

    /// A load: at once, if its address and what it loads are defined.
    #[inline(always)]
    fn load_of(
        &mut self,
        len: u32,
        width: Width,
        signed: bool,
        rd: Register,
        rs1: Register,
        imm: u32,
    ) -> Result<(), AllocError>
        ensures { OnOk result (Does self.old self.new (load (core_of self.old) (next_of (core_of self.old) len) width signed rd rs1 imm
            (taken_from (bytes_of self.old) (Some (accessed (core_of self.old) rs1 imm width)))) nothing false no_intake) }
    {
        if self.read_register(rs1).undef == 0
            && let Some(value) = self.defined(self.target(rs1, imm), width)
        {
            self.result_in(len, rd, known(extended(width, signed, value)));
            return Ok(());
        }
        self.load_testing(self.pc.wrapping_add(len), width, signed, rd, rs1, imm)
    }

    /// A load; each width is separate.
    #[inline(always)]
    pub(super) fn load(
        &mut self,
        len: u32,
        width: Width,
        signed: bool,
        rd: Register,
        rs1: Register,
        imm: u32,
    ) -> Result<(), AllocError>
        ensures { OnOk result (Does self.old self.new (load (core_of self.old) (next_of (core_of self.old) len) width signed rd rs1 imm
            (taken_from (bytes_of self.old) (Some (accessed (core_of self.old) rs1 imm width)))) nothing false no_intake) }
    {
        match width {
            Width::Byte => self.load_of(len, Width::Byte, signed, rd, rs1, imm),
            Width::Half => self.load_of(len, Width::Half, signed, rd, rs1, imm),
            Width::Word => self.load_of(len, Width::Word, signed, rd, rs1, imm),
        }
    }

    /// A store, with each test that it needs.
    #[inline(never)]
    #[tactic(auto, unfolding(crate::specs::Doing::note_events), using(crate::proofs::Showing::note_events_append))]
    pub(super) fn store_testing(
        &mut self,
        next: u32,
        width: Width,
        rs1: Register,
        rs2: Register,
        imm: u32,
    ) -> Result<(), AllocError>
        ensures { OnOk result (Does self.old self.new (store (core_of self.old) next width rs1 rs2 imm)
            (writing (accessed (core_of self.old) rs1 imm width)) false no_intake) }
    {
        let to = self.target(rs1, imm);
        self.test_value(rs1)?;
        let stored = self.read_register(rs2);
        let fault = put(&mut self.memory, to, width, stored)?;
        self.test_store(width.byte_len(), fault)?;
        self.advance(next);
        Ok(())
    }

    /// Stores the low bytes of a number at once, if it is defined and one look-up shows that they are accessible. Returns whether it did.
    #[inline(always)]
    fn put_at_once(&mut self, start: u32, width: Width, bits: Bits) -> bool
        ensures done { IsTrue result → Changes self.old self.new (stored_core (core_of self.old) start (width_len width) bits.undef)
            (written (bytes_of self.old) start (width_len width) (byte_of bits.value)) }
        ensures bad { IsTrue result → first_inaccessible (core_of self.old).shadow start (width_len width) ≡ None }
        ensures kept { IsFalse result → Changes self.old self.new (core_of self.old) (bytes_of self.old) }
    {
        match width {
            Width::Byte => self.memory.store_at_once(start, 1, bits),
            Width::Half => self.memory.store_at_once(start, 2, bits),
            Width::Word => self.memory.store_at_once(start, 4, bits),
        }
    }

    /// Does the same, and goes on after the instruction.
    #[inline(always)]
    #[tactic(auto, unfolding(crate::specs::Doing::note_events))]
    fn store_at_once(&mut self, len: u32, start: u32, width: Width, bits: Bits) -> bool
        ensures done { IsTrue result → Does self.old self.new (stored_at (core_of self.old) (next_of (core_of self.old) len) start (width_len width) bits)
            (writing (span_at start (width_len width))) false no_intake }
        ensures bad { IsTrue result → first_inaccessible (core_of self.old).shadow start (width_len width) ≡ None }
        ensures kept { IsFalse result → Changes self.old self.new (core_of self.old) (bytes_of self.old) }
    {
        let done = self.put_at_once(start, width, bits);
        if done {
            self.advance_by(len);
        }
        done
    }

    /// A store: at once, if its address and what it stores are defined.
    #[inline(always)]
    fn store_of(
        &mut self,
        len: u32,
        width: Width,
        rs1: Register,
        rs2: Register,
        imm: u32,
    ) -> Result<(), AllocError>
        ensures { OnOk result (Does self.old self.new (store (core_of self.old) (next_of (core_of self.old) len) width rs1 rs2 imm)
            (writing (accessed (core_of self.old) rs1 imm width)) false no_intake) }
    {
        if self.read_register(rs1).undef == 0
            && self.store_at_once(len, self.target(rs1, imm), width, self.read_register(rs2))
        {
            return Ok(());
        }
        self.store_testing(self.pc.wrapping_add(len), width, rs1, rs2, imm)
    }

    /// A store; each width is separate.
    #[inline(always)]
    pub(super) fn store(
        &mut self,
        len: u32,
        width: Width,
        rs1: Register,
        rs2: Register,
        imm: u32,
    ) -> Result<(), AllocError>
        ensures { OnOk result (Does self.old self.new (store (core_of self.old) (next_of (core_of self.old) len) width rs1 rs2 imm)
            (writing (accessed (core_of self.old) rs1 imm width)) false no_intake) }
    {
        match width {
            Width::Byte => self.store_of(len, Width::Byte, rs1, rs2, imm),
            Width::Half => self.store_of(len, Width::Half, rs1, rs2, imm),
            Width::Word => self.store_of(len, Width::Word, rs1, rs2, imm),
        }
    }

    #[inline(always)]
    #[tactic(auto, unfolding(crate::specs::Effects::branched))]
    pub(super) fn branch(
        &mut self,
        len: u32,
        comparison: Comparison,
        rs1: Register,
        rs2: Register,
        imm: u32,
    ) -> Result<(), AllocError>
        ensures { OnOk result (Does self.old self.new (branch (core_of self.old) (next_of (core_of self.old) len) comparison rs1 rs2 imm) nothing false no_intake) }
    {
        let taken = passes(
            comparison,
            self.read_register(rs1).value,
            self.read_register(rs2).value,
        );
        let next = self.pc.wrapping_add(len);
        let to = self.pc.wrapping_add(imm);
        self.test_branch(comparison, rs1, rs2)?;
        if taken {
            self.jump(to);
        } else {
            self.advance(next);
        }
        Ok(())
    }

    #[inline(always)]
    #[tactic(auto, unfolding(crate::specs::Doing::note_events))]
    pub(super) fn jump_and_link(&mut self, next: u32, rd: Register, imm: u32)
        ensures { Does self.old self.new (jump (core_of self.old) next rd imm) nothing false no_intake }
    {
        self.linked_jump(next, StackHint::of_jal(rd), rd, self.pc.wrapping_add(imm));
    }

    #[tactic(auto, unfolding(crate::specs::Doing::note_events))]
    pub(super) fn jump_register(
        &mut self,
        next: u32,
        rd: Register,
        rs1: Register,
        imm: u32,
    ) -> Result<(), AllocError>
        ensures { OnOk result (Does self.old self.new (jump_register (core_of self.old) next rd rs1 imm) nothing false no_intake) }
    {
        let to = self.target(rs1, imm) / 2 * 2;
        self.test_value(rs1)?;
        self.linked_jump(next, StackHint::of_jalr(rd, rs1), rd, to);
        Ok(())
    }
}
