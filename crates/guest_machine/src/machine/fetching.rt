//! The code at pc: what can be fetched, and which instruction it is.
ghost use Rattle.std.specs.Prelude.{◌≡◌, Option, Some, None, option_and_then, IfSome, OnOk, false, true};
ghost use Rattle.guest_machine.specs.Errors.{fetch_undef};
ghost use Rattle.guest_machine.specs.Exec.{code_in, cut, fetched, is_ready, is_running, jump_fault, no_intake, nothing, unfetched, Takes};
ghost use Rattle.guest_machine.specs.Shows.{core_of, bytes_of, Shows};
ghost use Rattle.guest_machine.specs.State.{State};
ghost use Rattle.guest_machine.specs.Doing.{Does, IsDecoded, IsFetch};
ghost use Rattle.instructions.specs.Codes.{len_of, row_of_code};

use crate::machine::{Guest, Machine};
use error_events::Kind;
use guest_elf::is_short;
use instructions::{Code, Instruction, row_of_code};
use run_values::{Status, Stop};
use std::alloc::AllocError;

/// What can be fetched at pc.
#[derive(Clone, Copy)]
pub(super) enum Fetch {
    /// A code, and its undefined bits.
    Whole(Code, u32),
    /// The first half of a word, of which no more can be fetched, and the undefined bits of that.
    First(u32),
    Nothing,
}

#[tactic(auto, unfolding(crate::specs::Shows::Shows))]
impl Machine {
    /// Returns the code at pc, if the machine runs and all of it can be fetched. Where a function of the heap begins, a step calls that and
    /// fetches none.
    pub fn code(&self) -> Option<Code>
        ensures { (s : State) → Shows self.now s → result ≡ code_in (fetched s.core s.bytes) }
    {
        match self.guest.fetch() {
            Fetch::Whole(code, _) => Some(code),
            Fetch::First(_) | Fetch::Nothing => None,
        }
    }

    /// Returns the instruction of the code that [`Machine::code`] returns, if it is one. Costs less where it was decoded before.
    pub fn instruction(&self) -> Option<Instruction>
        ensures { (s : State) → Shows self.now s → result ≡ option_and_then row_of_code (code_in (fetched s.core s.bytes)) }
    {
        if let Some(instruction) = self.guest.decoded() {
            return Some(instruction);
        }
        if let Some(instruction) = self.guest.decoded_half() {
            return Some(instruction);
        }
        match self.code() {
            Some(code) => row_of_code(code),
            None => None,
        }
    }
}

impl Guest {
    /// Whether it runs.
    #[inline(always)]
    pub(super) fn runs(&self) -> bool
        ensures { result ≡ is_running (core_of self.now).status }
    {
        matches!(self.status, Status::Running)
    }

    /// Whether it runs, and an instruction may begin at pc.
    #[inline(always)]
    pub(super) fn is_ready(&self) -> bool
        ensures { result ≡ is_ready (core_of self.now) }
    {
        self.runs() && self.isa.aligns(self.pc)
    }

    /// What can be fetched at pc.
    #[tactic(auto, unfolding(crate::specs::Exec::fetches, crate::specs::Exec::fetched))]
    pub(super) fn fetch(&self) -> Fetch
        ensures { IsFetch (core_of self.now) (bytes_of self.now) result }
    {
        if !self.is_ready() || self.memory.load(self.pc, self.isa.unit()).bad.is_some() {
            return Fetch::Nothing;
        }
        let half = self.memory.load(self.pc, 2);
        if self.isa.is_half(half.value) {
            return Fetch::Whole(Code::Half(half.value as u16), half.undef);
        }
        let word = self.memory.load(self.pc, 4);
        match word.bad {
            None => Fetch::Whole(Code::Word(word.value), word.undef),
            Some(_) => Fetch::First(half.undef),
        }
    }

    /// A fetch that meets an inaccessible byte.
    #[cold]
    #[inline(never)]
    #[tactic(auto, unfolding(crate::specs::Errors::event_about, crate::specs::Doing::note_events))]
    fn jump_fault(&mut self, fault: Option<u32>) -> Result<(), AllocError>
        ensures { OnOk result (Does self.old self.new (jump_fault (core_of self.old) fault) nothing false no_intake) }
    {
        if fault.is_some() {
            self.raise_about(Kind::Jump, fault)?;
            self.stop(Stop::Jump);
        }
        Ok(())
    }

    /// A fetch of a word of which only the first half may be accessed.
    #[tactic(auto, using(crate::proofs::Showing::note_events_append))]
    pub(super) fn cut(&mut self, undef: u32) -> Result<(), AllocError>
        requires { undef ≡ fetch_undef (core_of self.old) 2 }
        ensures { OnOk result (Does self.old self.new (cut (core_of self.old)) nothing false no_intake) }
    {
        self.test_word(undef)?;
        let fault = self.memory.load(self.pc, 4).bad;
        self.jump_fault(fault)
    }

    /// A step that fetches nothing and calls no function by name.
    #[inline(always)]
    #[tactic(auto, unfolding(crate::specs::Exec::unfetched, crate::specs::Doing::note_events))]
    pub(super) fn halt(&mut self) -> Result<(), AllocError>
        ensures { OnOk result (Does self.old self.new (unfetched (core_of self.old)) nothing false no_intake) }
    {
        if let Status::Running = self.status {
            if self.isa.aligns(self.pc) {
                let fault = self.memory.load(self.pc, self.isa.unit()).bad;
                self.jump_fault(fault)?;
            } else {
                self.stop(Stop::Misaligned);
            }
        }
        Ok(())
    }

    /// The instruction of the word at pc, if it was decoded recently; an instruction may begin there.
    #[inline(always)]
    pub(super) fn decoded_here(&self) -> Option<Instruction>
        requires { is_ready (core_of self.now) ≡ true }
        ensures { IfSome result (λ row. IsDecoded (core_of self.now) (bytes_of self.now) 4 row) }
    {
        self.memory.decoded_word(self.pc)
    }

    /// The same, if the machine runs and an instruction may begin at pc.
    #[inline(always)]
    pub(super) fn decoded(&self) -> Option<Instruction>
        ensures { IfSome result (λ row. IsDecoded (core_of self.now) (bytes_of self.now) 4 row) }
    {
        if !self.is_ready() {
            return None;
        }
        self.decoded_here()
    }

    /// The same of the half at pc, if the machine has instructions of 16 bits.
    #[inline(always)]
    pub(super) fn decoded_half(&self) -> Option<Instruction>
        ensures { IfSome result (λ row. IsDecoded (core_of self.now) (bytes_of self.now) 2 row) }
    {
        if !self.isa.has_halves() {
            return None;
        }
        if !self.is_ready() {
            return None;
        }
        self.memory.decoded_half(self.pc)
    }

    /// Keeps the instruction at pc, if no bit of its code is undefined.
    #[inline(always)]
    fn keep(&mut self, code: Code, undef: u32, instruction: Instruction)
        requires taken { fetched (core_of self.old) (bytes_of self.old) ≡ Takes code }
        requires undef { undef ≡ fetch_undef (core_of self.old) (len_of code) }
        requires row { row_of_code code ≡ Some instruction }
        ensures { self.new ≡ self.old }
    {
        if undef != 0 {
            return;
        }
        match code {
            Code::Word(word) if !is_short(word) => {
                self.memory.keep_word(self.pc, instruction);
            }
            Code::Half(half) if is_short(u32::from(half)) => {
                self.memory.keep_half(self.pc, instruction);
            }
            _ => {}
        }
    }

    /// The instruction of the code at pc, if it is one, which is kept.
    #[inline(always)]
    pub(super) fn decode(&mut self, code: Code, undef: u32) -> Option<Instruction>
        requires { IsFetch (core_of self.old) (bytes_of self.old) (Fetch.Whole code undef) }
        ensures same { self.new ≡ self.old }
        ensures row { result ≡ row_of_code code }
    {
        let row = row_of_code(code);
        if let Some(instruction) = &row {
            self.keep(code, undef, *instruction);
        }
        row
    }
}
