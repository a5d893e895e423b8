//! Where edited runs continue: a machine of the run that is edited, before the last step at which the edit doesn't show yet.
ghost use Rattle.std.specs.Prelude.{◌≡◌, ◌+◌, ◌-◌, ◌<◌, ◌≤◌, ◌^◌, ℕ, List, min, IfOk, OnOk};
ghost use Rattle.guest_machine.specs.State.{State};
ghost use Rattle.guest_machine.specs.Run.{pre};
ghost use Rattle.guest_machine.specs.Shows.{Shows};
ghost use Rattle.guest_machine.specs.declared.setup.Setup.{Setup as SetupOf};
ghost use Rattle.run_values.specs.declared.alteration.Alteration.{Alteration as AlterationOf};
ghost use Rattle.checkpoints.specs.Effects.{EffectShows, IsOfSetup, LeadsTo, Run, code_effect, written_by};
ghost use Rattle.checkpoints.specs.FirstEffects.{IsBelowFirst};
ghost use Rattle.checkpoints.specs.Forks.{IsLastUnshown, IsForkFor, ShowsEdited, WritesWhole, IsStepOf, IsForkOf};
ghost use Rattle.checkpoints.specs.Trails.{is_short, loaded_of, last_held, meter_of, IsRightFor, spacing_of};
ghost use Rattle.checkpoints.specs.Words.{IsCodeIn};
ghost use Rattle.checkpoints.specs.Work.{next_held, reached, steps_made};
ghost use Rattle.instructions.specs.Codes.{len_of};
ghost use Rattle.instructions.specs.declared.code.Code.{Code as CodeOf};
ghost use Rattle.checkpoints.specs.declared.effect.Effect.{Effect as EffectOf};

use crate::cuts::{has_shown_in, poked_copy};
use crate::effect::Effect;
use crate::running::{apply_marks, next_step, pass_marks, run_on};
use crate::trail::Trail;
use crate::writes::touch_code;
use guest_elf::Isa;
use guest_machine::laws::{
    end_stays, keeps_end, keeps_heap, keeps_input, keeps_isa, keeps_pokes, reads_on,
};
use guest_machine::{Alteration, Machine, Meter, Setup};
use std::alloc::AllocError;

/// A machine of a run, before a step at which an edit doesn't show yet, and that step.
#[derive(Drop)]
pub struct Fork {
    /// The machine.
    pub machine: Machine,
    /// The step.
    pub step: u32,
}

impl Fork {
    /// Returns the machine at a step of an edited run, after the step's marks, if an edit with this effect leads to that run. Each step
    /// from the fork's on counts on the meter.
    pub fn follow(
        &self,
        effect: Effect,
        setup: &Setup,
        marks: &[Alteration],
        step: u32,
        meter: &mut Meter,
    ) -> Result<Machine, AllocError>
        requires { self.now.step ≤ step }
        ensures shows { IfOk result (λ machine. (last : ℕ) → ShowsEdited effect self.now setup.now marks.now last step machine) }
        ensures meter { OnOk result (meter.new ≡ min (meter.old + (step - self.now.step)) u64.MAX) }
    {
        keeps_input();
        keeps_end();
        reads_on();
        end_stays();
        keeps_heap();
        keeps_pokes();
        keeps_isa();
        let _turns = meter.read();
        let written = written_copy(&self.machine, effect)?;
        let machine = run_on(written, setup, marks, self.step, step, meter)?;
        let marked = apply_marks(machine, marks, step)?;
        Ok(marked)
    }

    /// Returns a fork before a later step, or the same one, of a run to which other marks of one step lead, if this is a fork for these.
    pub fn go_on(&self, step: u32, setup: &Setup, marks: &[Alteration]) -> Result<Fork, AllocError>
        requires { self.now.step ≤ step }
        ensures step { IfOk result (λ fork. fork.step ≡ step) }
        ensures fork { IfOk result (λ fork. (s : ℕ) (one : Run) (start : State) (last : ℕ) → step ≤ last
            → LeadsTo (Effect.After s) one (record { start = start; setup = setup.now; marks = marks.now })
            → IsForkFor (Effect.After s) one last self.now
            → IsForkFor (Effect.After step) (record { start = start; setup = setup.now; marks = marks.now }) last fork) }
    {
        keeps_input();
        keeps_end();
        reads_on();
        end_stays();
        keeps_heap();
        keeps_pokes();
        keeps_isa();
        let copy = self.machine.share_warm()?;
        let machine = run_on(copy, setup, marks, self.step, step, &mut Meter::new())?;
        Ok(Fork { machine, step })
    }
}

/// A copy of a machine, with the code written if an effect writes one.
pub(crate) fn written_copy(machine: &Machine, effect: Effect) -> Result<Machine, AllocError>
    ensures { IfOk result (λ copy. (s : State) → Shows machine.now s → Shows copy (written_by effect s)) }
{
    match effect {
        Effect::Patch { addr, code } | Effect::Anew { addr, code } => poked_copy(
            machine, addr, code,
        ),
        _ => machine.share_warm(),
    }
}

impl Trail {
    /// Returns a fork of the run before the last step, up to another, at which the byte of the input at an offset isn't read yet. Each run
    /// whose input differs from that offset on continues from it.
    pub fn fork_at_byte(
        &mut self,
        offset: u32,
        last: u32,
        setup: &Setup,
        marks: &[Alteration],
    ) -> Result<Fork, AllocError>
        requires { last < 2 ^ 31 }
        ensures right { (start : State) → IsRightFor self.old start setup.now marks.now → IsRightFor self.new start setup.now marks.now }
        ensures fork { IfOk result (λ fork. (start : State) → IsRightFor self.old start setup.now marks.now
            → IsForkFor (Effect.Input offset) (record { start = start; setup = setup.now; marks = marks.now }) last fork) }
        ensures held { OnOk result (last_held self.new ≡ reached (spacing_of self.old) (last_held self.old) (next_held (spacing_of self.old) last)) }
        ensures meter { OnOk result (meter_of self.new ≡ min (meter_of self.old + steps_made (spacing_of self.old) (last_held self.old) (next_held (spacing_of self.old) last)) u64.MAX) }
        ensures short { is_short self.new ≡ is_short self.old }
        ensures loaded { loaded_of self.new ≡ loaded_of self.old }
        ensures spacing { spacing_of self.new ≡ spacing_of self.old }
    {
        self.fork_of_setup(Effect::Input(offset), last, setup, marks)
    }

    /// Returns a fork of the run before the last step, up to another, at which an edit that changes only the setup doesn't show. Each run to
    /// which such an edit leads continues from it.
    #[tactic(auto, unfolding(crate::specs::Trails::last_held, crate::specs::Trails::spacing_of))]
    pub fn fork_of_setup(
        &mut self,
        effect: Effect,
        last: u32,
        setup: &Setup,
        marks: &[Alteration],
    ) -> Result<Fork, AllocError>
        requires small { last < 2 ^ 31 }
        requires of { IsOfSetup effect }
        ensures right { (start : State) → IsRightFor self.old start setup.now marks.now → IsRightFor self.new start setup.now marks.now }
        ensures step { IfOk result (λ fork. fork.step ≤ last) }
        ensures fork { IfOk result (λ fork. (start : State) → IsRightFor self.old start setup.now marks.now
            → IsForkFor effect (record { start = start; setup = setup.now; marks = marks.now }) last fork) }
        ensures held { OnOk result (last_held self.new ≡ reached (spacing_of self.old) (last_held self.old) (next_held (spacing_of self.old) last)) }
        ensures meter { OnOk result (meter_of self.new ≡ min (meter_of self.old + steps_made (spacing_of self.old) (last_held self.old) (next_held (spacing_of self.old) last)) u64.MAX) }
        ensures short { is_short self.new ≡ is_short self.old }
        ensures loaded { loaded_of self.new ≡ loaded_of self.old }
        ensures spacing { spacing_of self.new ≡ spacing_of self.old }
    {
        self.reach((last / self.spacing + 1) as usize, setup, marks)?;
        let step = self.last_hidden(effect, last, setup, marks)?;
        self.fork_at(step, setup, marks)
    }

    /// Returns a fork of the run before the last step, up to another, with no earlier use of a word with a byte of the code of `len` bytes, 2
    /// or 4, at an address; before step 0 if a mark writes a byte of it, or may go by one with this instruction set. Each run in which another
    /// code is written there continues from it.
    #[tactic(auto, unfolding(crate::specs::Trails::last_held, crate::specs::Trails::spacing_of))]
    pub fn fork_at_code(
        &mut self,
        addr: u32,
        len: u32,
        last: u32,
        isa: Isa,
        setup: &Setup,
        marks: &[Alteration],
    ) -> Result<Fork, AllocError>
        requires small { last < 2 ^ 31 }
        requires code { IsCodeIn (loaded_of self.old) addr len }
        ensures right { (start : State) → IsRightFor self.old start setup.now marks.now → IsRightFor self.new start setup.now marks.now }
        ensures fork { IfOk result (λ fork. (code : CodeOf) (start : State) → len_of code ≡ len → IsRightFor self.old start setup.now marks.now
            → IsForkFor (code_effect isa marks.now addr code) (record { start = start; setup = setup.now; marks = marks.now }) last fork) }
        ensures held { OnOk result (last_held self.new ≡ reached (spacing_of self.old) (last_held self.old) (next_held (spacing_of self.old) last)) }
        ensures meter { OnOk result (meter_of self.new ≡ min (meter_of self.old + steps_made (spacing_of self.old) (last_held self.old) (next_held (spacing_of self.old) last)) u64.MAX) }
        ensures short { is_short self.new ≡ is_short self.old }
        ensures loaded { loaded_of self.new ≡ loaded_of self.old }
        ensures spacing { spacing_of self.new ≡ spacing_of self.old }
    {
        self.reach((last / self.spacing + 1) as usize, setup, marks)?;
        let step = self.last_without(addr, len, last, isa, marks);
        self.fork_at(step, setup, marks)
    }

    /// Returns a fork of the run before a step. Each run whose marks differ only at that step continues from it.
    #[tactic(auto, unfolding(crate::specs::Trails::last_held, crate::specs::Trails::spacing_of))]
    pub fn fork_at_step(
        &mut self,
        step: u32,
        last: u32,
        setup: &Setup,
        marks: &[Alteration],
    ) -> Result<Fork, AllocError>
        requires small { last < 2 ^ 31 }
        requires within { step ≤ last }
        ensures right { (start : State) → IsRightFor self.old start setup.now marks.now → IsRightFor self.new start setup.now marks.now }
        ensures step { IfOk result (λ fork. fork.step ≡ step) }
        ensures fork { IfOk result (λ fork. (start : State) → IsRightFor self.old start setup.now marks.now
            → IsForkFor (Effect.After step) (record { start = start; setup = setup.now; marks = marks.now }) last fork) }
        ensures held { OnOk result (last_held self.new ≡ reached (spacing_of self.old) (last_held self.old) (next_held (spacing_of self.old) step)) }
        ensures meter { OnOk result (meter_of self.new ≡ min (meter_of self.old + steps_made (spacing_of self.old) (last_held self.old) (next_held (spacing_of self.old) step)) u64.MAX) }
        ensures short { is_short self.new ≡ is_short self.old }
        ensures loaded { loaded_of self.new ≡ loaded_of self.old }
        ensures spacing { spacing_of self.new ≡ spacing_of self.old }
    {
        self.reach((step / self.spacing + 1) as usize, setup, marks)?;
        self.fork_at(step, setup, marks)
    }

    /// The last step, up to another, at which an edit that changes only the setup doesn't show.
    #[tactic(auto, unfolding(crate::specs::Trails::machines_of, crate::specs::Trails::last_held, crate::specs::Trails::spacing_of))]
    fn last_hidden(
        &self,
        effect: Effect,
        last: u32,
        setup: &Setup,
        marks: &[Alteration],
    ) -> Result<u32, AllocError>
        requires held { last < last_held self.now }
        requires of { IsOfSetup effect }
        ensures within { IfOk result (λ step. step ≤ last) }
        ensures step { IfOk result (λ step. IsStepOf effect self.now setup.now marks.now last step) }
    {
        let kept = self.held_before(effect);
        let place = lesser((kept - 1) as u32, last / self.spacing);
        let copy = self.warm_copy(place as usize)?;
        hidden_until(copy, effect, setup, marks, place * self.spacing, last)
    }

    /// The last step, up to another, at which another code at an address doesn't show.
    fn last_without(&self, addr: u32, len: u32, last: u32, isa: Isa, marks: &[Alteration]) -> u32
        requires held { last < last_held self.now }
        requires code { IsCodeIn (loaded_of self.now) addr len }
        ensures within { result ≤ last }
        ensures step { (code : CodeOf) (setup : SetupOf) → len_of code ≡ len → IsStepOf (code_effect isa marks.now addr code) self.now setup marks.now last result }
    {
        if touch_code(isa, marks, addr, len) {
            return 0;
        }
        self.last_unused(addr, len, last)
    }

    /// The last step, up to another, with no earlier use of a word with a byte of the code at an address.
    #[tactic(auto, unfolding(crate::specs::Trails::table_of, crate::specs::Trails::loaded_of))]
    fn last_unused(&self, addr: u32, len: u32, last: u32) -> u32
        requires held { last < last_held self.now }
        requires code { IsCodeIn (loaded_of self.now) addr len }
        ensures within { result ≤ last }
        ensures step { (code : CodeOf) (setup : SetupOf) (marks : List AlterationOf) → len_of code ≡ len
            → IsStepOf (Effect.Patch addr code) self.now setup marks last result }
    {
        self.uses.first_of_code(addr, len, last).unwrap_or(last)
    }

    /// The machine of the run before a step.
    #[tactic(auto, unfolding(crate::specs::Trails::machines_of, crate::specs::Trails::last_held, crate::specs::Trails::spacing_of))]
    fn fork_at(&self, step: u32, setup: &Setup, marks: &[Alteration]) -> Result<Fork, AllocError>
        requires { step < last_held self.now }
        ensures step { IfOk result (λ fork. fork.step ≡ step) }
        ensures fork { IfOk result (λ fork. (effect : EffectOf) (last : ℕ) → WritesWhole effect → IsStepOf effect self.now setup.now marks.now last step
            → IsForkOf effect self.now setup.now marks.now last fork) }
    {
        let copy = self.warm_copy((step / self.spacing) as usize)?;
        let mut meter = Meter::new();
        let from = step / self.spacing * self.spacing;
        let machine = run_on(copy, setup, marks, from, step, &mut meter)?;
        Ok(Fork { machine, step })
    }
}

/// The lesser of two numbers.
fn lesser(x: u32, y: u32) -> u32
    ensures { result ≡ min x y }
{
    if x < y { x } else { y }
}

/// The last step, from one up to another, at which an edit that changes only the setup doesn't show, if it doesn't at the first.
fn hidden_until(
    machine: Machine,
    effect: Effect,
    setup: &Setup,
    marks: &[Alteration],
    from: u32,
    to: u32,
) -> Result<u32, AllocError>
    requires forward { from ≤ to }
    requires of { IsOfSetup effect }
    ensures within { IfOk result (λ step. step ≤ to) }
    ensures last { IfOk result (λ step. (start : State) → Shows machine (pre start setup.now marks.now from)
        → IsBelowFirst (EffectShows effect start setup.now marks.now) from
        → IsLastUnshown effect (record { start = start; setup = setup.now; marks = marks.now }) to step) }
{
    let mut machine = machine;
    let mut meter = Meter::new();
    let mut next = next_step(marks, from);
    for k in from..to {
        let marked = pass_marks(machine, marks, k, &mut next)?;
        let (stepped, _touched) = marked.step(setup, &mut meter)?;
        if has_shown_in(effect, &stepped) {
            return Ok(k);
        }
        machine = stepped;
    }
    Ok(to)
}
