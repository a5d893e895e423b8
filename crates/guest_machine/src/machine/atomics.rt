//! Atomic instructions. Each is given the address after it, `next`.
ghost use Rattle.std.specs.Prelude.{◌≡◌, true, false, Some, None, OnOk, IfOk};
ghost use Rattle.guest_machine.specs.Atomics.{admits, atomic_effect, atomic_reads, atomic_span, is_reserved, load_reserved, not_admitted, not_stored, reserving, resulting, store_conditional, update_word};
ghost use Rattle.guest_machine.specs.Doing.{used_of, Does, Sets};
ghost use Rattle.guest_machine.specs.Effects.{store};
ghost use Rattle.guest_machine.specs.Exec.{atomic_uses, no_intake, nothing, taken_from, writing};
ghost use Rattle.guest_machine.specs.Shows.{core_of, bytes_of};

use crate::machine::Guest;
use crate::machine::execute::put;
use crate::machine::registers::known;
use crate::machine::step::{NOTHING, Used};
use instructions::{Atomic, Register, Update, Width, updated};
use run_values::Stop;
use std::alloc::AllocError;

impl Guest {
    /// Whether the word at the address in rs1 is to be accessed.
    #[tactic(auto, unfolding(crate::specs::Atomics::admits))]
    fn admits(&self, rs1: Register) -> bool
        ensures { result ≡ admits (core_of self.now) rs1 }
    {
        self.isa.has_atomics() && self.target(rs1, 0) % 4 == 0
    }

    /// Stops at an instruction that the machine doesn't have, or whose address is no multiple of 4.
    #[tactic(auto, unfolding(crate::specs::Doing::note_events))]
    fn stop_at_atomic(&mut self, rs1: Register) -> Result<(), AllocError>
        ensures { OnOk result (Does self.old self.new (not_admitted (core_of self.old) rs1) nothing false no_intake) }
    {
        if self.isa.has_atomics() {
            self.test_value(rs1)?;
            self.stop(Stop::Misaligned);
        } else {
            self.stop(Stop::Illegal);
        }
        Ok(())
    }

    /// Reserves an address, or none.
    fn reserve(&mut self, addr: Option<u32>)
        ensures { Sets self.old self.new (record (core_of self.old) { reserved = addr }) }
    {
        self.reserved = addr;
    }

    /// Whether the address in rs1 is reserved.
    #[tactic(auto, unfolding(crate::specs::Atomics::is_reserved))]
    fn is_reserved(&self, rs1: Register) -> bool
        ensures { result ≡ is_reserved (core_of self.now) rs1 }
    {
        let start = self.target(rs1, 0);
        matches!(self.reserved, Some(reserved) if reserved == start)
    }

    /// A load that reserves its address.
    fn load_reserved(&mut self, next: u32, rd: Register, rs1: Register) -> Result<(), AllocError>
        ensures { OnOk result (Does self.old self.new (load_reserved (core_of self.old) next rd rs1
            (taken_from (bytes_of self.old) (Some (atomic_span (core_of self.old) rs1)))) nothing false no_intake) }
    {
        let start = self.target(rs1, 0);
        self.load_testing(next, Width::Word, true, rd, rs1, 0)?;
        self.reserve(Some(start));
        Ok(())
    }

    /// The store of a store on condition, and the 0 that says so.
    fn store_reserved(
        &mut self,
        next: u32,
        rd: Register,
        rs1: Register,
        rs2: Register,
    ) -> Result<(), AllocError>
        ensures { OnOk result (Does self.old self.new (reserving None (resulting rd 0 (store (core_of self.old) next Width.Word rs1 rs2 0)))
            (writing (atomic_span (core_of self.old) rs1)) false no_intake) }
    {
        self.store_testing(next, Width::Word, rs1, rs2, 0)?;
        self.set_register(rd, known(0));
        self.reserve(None);
        Ok(())
    }

    /// A store on condition that doesn't store, and the 1 that says so.
    #[tactic(auto, unfolding(crate::specs::Doing::note_events))]
    fn pass_over(&mut self, next: u32, rd: Register, rs1: Register) -> Result<(), AllocError>
        ensures { OnOk result (Does self.old self.new (reserving None (resulting rd 1 (not_stored (core_of self.old) next rs1))) nothing false no_intake) }
    {
        self.test_value(rs1)?;
        self.advance(next);
        self.set_register(rd, known(1));
        self.reserve(None);
        Ok(())
    }

    /// A store on the condition that its address is reserved.
    #[tactic(auto, unfolding(crate::specs::Atomics::atomic_reads, crate::specs::Atomics::atomic_writes))]
    fn store_conditional(
        &mut self,
        next: u32,
        rd: Register,
        rs1: Register,
        rs2: Register,
    ) -> Result<(), AllocError>
        requires { admits (core_of self.old) rs1 ≡ true }
        ensures { OnOk result (Does self.old self.new (store_conditional (core_of self.old) next rd rs1 rs2)
            (atomic_uses (core_of self.old) Atomic.StoreConditional rs1) false no_intake) }
    {
        if !self.is_reserved(rs1) {
            return self.pass_over(next, rd, rs1);
        }
        self.store_reserved(next, rd, rs1, rs2)
    }

    /// An atomic memory operation.
    #[tactic(auto, unfolding(crate::specs::Doing::note_events), using(crate::proofs::Showing::note_events_append))]
    fn update_word(
        &mut self,
        next: u32,
        update: Update,
        rd: Register,
        rs1: Register,
        rs2: Register,
    ) -> Result<(), AllocError>
        ensures { OnOk result (Does self.old self.new (update_word (core_of self.old) next update rd rs1 rs2
            (taken_from (bytes_of self.old) (Some (atomic_span (core_of self.old) rs1))))
            (writing (atomic_span (core_of self.old) rs1)) false no_intake) }
    {
        let start = self.target(rs1, 0);
        self.test_value(rs1)?;
        let held = self.load_checked(start, Width::Word)?;
        let stored = updated(update, held, self.read_register(rs2));
        let fault = put(&mut self.memory, start, Width::Word, stored)?;
        self.test_store(4, fault)?;
        self.set_register(rd, held);
        self.advance(next);
        Ok(())
    }

    /// Which bytes an atomic instruction reads and which it writes. Inline, so that a step has no room for what it returns.
    #[inline(always)]
    #[tactic(auto, unfolding(crate::specs::Atomics::atomic_reads, crate::specs::Atomics::atomic_writes))]
    pub(super) fn atomic_used(&self, atomic: Atomic, rs1: Register) -> Used
        ensures { result ≡ used_of (atomic_uses (core_of self.now) atomic rs1) }
    {
        if !self.admits(rs1) {
            return NOTHING;
        }
        let range = self.accessed(rs1, 0, Width::Word);
        match atomic {
            Atomic::LoadReserved => Used::reading(range),
            Atomic::StoreConditional if self.is_reserved(rs1) => Used::writing(range),
            Atomic::StoreConditional => NOTHING,
            Atomic::Update(_) => Used::updating(range),
        }
    }

    /// Executes an atomic instruction.
    #[inline(never)]
    #[tactic(auto, unfolding(crate::specs::Atomics::atomic_effect, crate::specs::Atomics::atomic_reads, crate::specs::Atomics::atomic_writes))]
    pub(super) fn atomic(
        &mut self,
        next: u32,
        atomic: Atomic,
        rd: Register,
        rs1: Register,
        rs2: Register,
    ) -> Result<(), AllocError>
        ensures { OnOk result (Does self.old self.new (atomic_effect (core_of self.old) next atomic rd rs1 rs2
            (taken_from (bytes_of self.old) (atomic_reads (core_of self.old) atomic rs1))) (atomic_uses (core_of self.old) atomic rs1) false no_intake) }
    {
        if !self.admits(rs1) {
            return self.stop_at_atomic(rs1);
        }
        match atomic {
            Atomic::LoadReserved => self.load_reserved(next, rd, rs1),
            Atomic::StoreConditional => self.store_conditional(next, rd, rs1, rs2),
            Atomic::Update(update) => self.update_word(next, update, rd, rs1, rs2),
        }
    }
}
