//! The tests of a step, and the errors that they record.
ghost use Rattle.std.specs.Prelude.{◌≡◌, ◌∷◌, ◌<◌, ◌==◌, [], false, OnOk};
ghost use Rattle.guest_machine.specs.Registers.{defined, tested};
ghost use Rattle.guest_machine.specs.Effects.{branch_tested, branch_errors};
ghost use Rattle.guest_machine.specs.Errors.{here, event_of, event_unless, event_about, note_at, region_note, register_errors, value_errors};
ghost use Rattle.guest_machine.specs.Shows.{core_of};
ghost use Rattle.guest_machine.specs.Doing.{Notes};

use crate::machine::Guest;
use error_events::{Event, Kind, Note};
use instructions::{Comparison, Register, is_undecided};
use memory_map::StackRegion;
use std::alloc::AllocError;

/// The note on an address that is near no block.
fn region_note(stack: StackRegion, addr: u32) -> Note
    ensures { result ≡ region_note stack addr }
{
    if stack.begin <= addr && addr < stack.end {
        Note::Stack(addr)
    } else {
        Note::Elsewhere(addr)
    }
}

impl Guest {
    /// The note on an address.
    #[tactic(auto, unfolding(crate::specs::Errors::note_at))]
    pub(super) fn note_at(&self, addr: u32) -> Note
        ensures { result ≡ note_at (core_of self.now).stack (core_of self.now).blocks addr }
    {
        match self.heap.block_near(addr) {
            Some(near) => Note::Near(addr, near),
            None => region_note(self.stack, addr),
        }
    }

    /// Records an error at this instruction.
    #[cold]
    #[inline(never)]
    #[tactic(auto, unfolding(crate::specs::Doing::note_events))]
    pub(super) fn raise(&mut self, kind: Kind, note: Note) -> Result<(), AllocError>
        ensures { OnOk result (Notes self.old self.new (core_of self.old) (event_of (here (core_of self.old)) kind note ∷ [])) }
    {
        let trace = self.frames.trace(self.pc);
        self.noted.add(Event { kind, trace, note })
    }

    /// Records that a code with undefined bits is executed. Out of line, to keep it out of the code of a step.
    #[cold]
    #[inline(never)]
    #[tactic(auto, unfolding(crate::specs::Errors::event_unless, crate::specs::Doing::note_events))]
    fn raise_value(&mut self) -> Result<(), AllocError>
        ensures { OnOk result (Notes self.old self.new (core_of self.old) (event_unless false (here (core_of self.old)) Kind.Value)) }
    {
        self.raise(Kind::Value, Note::Absent)
    }

    /// Tests the undefined bits of a code that is to be executed.
    #[inline(always)]
    #[tactic(auto, unfolding(crate::specs::Errors::event_unless, crate::specs::Doing::note_events))]
    pub(super) fn test_word(&mut self, undef: u32) -> Result<(), AllocError>
        ensures { OnOk result (Notes self.old self.new (core_of self.old) (event_unless (undef == 0) (here (core_of self.old)) Kind.Value)) }
    {
        if undef != 0 {
            return self.raise_value();
        }
        Ok(())
    }

    /// Records the error of an address at fault, if there is one.
    #[cold]
    #[inline(never)]
    #[tactic(auto, unfolding(crate::specs::Errors::event_about, crate::specs::Doing::note_events))]
    pub(super) fn raise_about(&mut self, kind: Kind, fault: Option<u32>) -> Result<(), AllocError>
        ensures { OnOk result (Notes self.old self.new (core_of self.old) (event_about (core_of self.old).stack (core_of self.old).blocks (here (core_of self.old)) kind fault)) }
    {
        if let Some(addr) = fault {
            let note = self.note_at(addr);
            self.raise(kind, note)?;
        }
        Ok(())
    }

    /// Records the first inaccessible byte of a load of `len` bytes, if there is one.
    #[inline(always)]
    #[tactic(auto, unfolding(crate::specs::Errors::event_about, crate::specs::Doing::note_events))]
    pub(super) fn test_load(&mut self, len: u8, bad: Option<u32>) -> Result<(), AllocError>
        ensures { OnOk result (Notes self.old self.new (core_of self.old) (event_about (core_of self.old).stack (core_of self.old).blocks (here (core_of self.old)) (Kind.Read len) bad)) }
    {
        match bad {
            None => Ok(()),
            Some(_) => self.raise_about(Kind::Read(len), bad),
        }
    }

    /// Records the first inaccessible byte of a store of `len` bytes, if there is one.
    #[inline(always)]
    #[tactic(auto, unfolding(crate::specs::Errors::event_about, crate::specs::Doing::note_events))]
    pub(super) fn test_store(&mut self, len: u8, bad: Option<u32>) -> Result<(), AllocError>
        ensures { OnOk result (Notes self.old self.new (core_of self.old) (event_about (core_of self.old).stack (core_of self.old).blocks (here (core_of self.old)) (Kind.Write len) bad)) }
    {
        match bad {
            None => Ok(()),
            Some(_) => self.raise_about(Kind::Write(len), bad),
        }
    }

    /// Tests that a register is defined, and makes it so.
    #[cold]
    #[inline(never)]
    #[tactic(auto, unfolding(crate::specs::Registers::tested, crate::specs::Errors::event_unless, crate::specs::Doing::note_events))]
    pub(super) fn test(&mut self, r: Register, kind: Kind) -> Result<(), AllocError>
        ensures { OnOk result (Notes self.old self.new (tested (core_of self.old) r) (register_errors (core_of self.old) r kind)) }
    {
        if self.read_register(r).undef != 0 {
            self.raise(kind, Note::Absent)?;
            self.define(r);
        }
        Ok(())
    }

    /// Tests a register from which an address or a jump's target is computed.
    #[inline(always)]
    #[tactic(auto, unfolding(crate::specs::Registers::tested, crate::specs::Errors::event_unless, crate::specs::Doing::note_events))]
    pub(super) fn test_value(&mut self, r: Register) -> Result<(), AllocError>
        ensures { OnOk result (Notes self.old self.new (tested (core_of self.old) r) (value_errors (core_of self.old) r)) }
    {
        if self.read_register(r).undef != 0 {
            return self.test(r, Kind::Value);
        }
        Ok(())
    }

    /// Records that a branch depends on undefined bits, and makes its registers defined.
    #[cold]
    #[inline(never)]
    #[tactic(auto, unfolding(crate::specs::Errors::event_unless, crate::specs::Doing::note_events))]
    fn raise_branch(&mut self, rs1: Register, rs2: Register) -> Result<(), AllocError>
        ensures { OnOk result (Notes self.old self.new (defined (defined (core_of self.old) rs1) rs2) (event_unless false (here (core_of self.old)) Kind.Cond)) }
    {
        self.raise(Kind::Cond, Note::Absent)?;
        self.define(rs1);
        self.define(rs2);
        Ok(())
    }

    /// Tests that a branch doesn't depend on undefined bits; if it does, its registers are made defined.
    #[inline(always)]
    #[tactic(auto, unfolding(crate::specs::Effects::branch_tested, crate::specs::Errors::event_unless, crate::specs::Doing::note_events))]
    pub(super) fn test_branch(
        &mut self,
        comparison: Comparison,
        rs1: Register,
        rs2: Register,
    ) -> Result<(), AllocError>
        ensures { OnOk result (Notes self.old self.new (branch_tested (core_of self.old) comparison rs1 rs2) (branch_errors (core_of self.old) comparison rs1 rs2)) }
    {
        if is_undecided(comparison, self.read_register(rs1), self.read_register(rs2)) {
            return self.raise_branch(rs1, rs2);
        }
        Ok(())
    }
}
