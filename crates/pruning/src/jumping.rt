//! Runs that jump over what they have in common with a course.
ghost use Rattle.std.specs.Prelude.{◌≡◌, ◌+◌, ◌-◌, ◌*◌, ◌/◌, ◌<◌, ◌≤◌, ◌^◌, [], ℕ, false, length, true, IfOk, IfSome};
ghost use Rattle.std.specs.List.{All};
ghost use Rattle.guest_machine.specs.Laws.{DifferWithin, Within};
ghost use Rattle.guest_machine.specs.Run.{pre};
ghost use Rattle.guest_machine.specs.Shows.{Shows};
ghost use Rattle.guest_machine.specs.State.{State};
ghost use Rattle.pruning.specs.Touches.{is_told};
ghost use Rattle.shadow_memory.specs.Differences.{in_words, IsWordApart};
ghost use Rattle.shadow_memory.specs.declared.differences.WordApart.{WordApart as WordOf};

use crate::course::Course;
use guest_machine::laws::{keeps_apart, reads_on};
use guest_machine::{Machine, Meter, Setup};
use shadow_memory::WordApart;
use std::alloc::AllocError;

/// The least number of steps of a course that is worth a look: of a shorter run a look costs as much as the steps that it saves.
const LEAST_LENGTH: u64 = 2048;

/// The number of steps from the begin of a run, or from a jump, to the first look, or less than a place.
const FIRST_LOOK: u32 = 64;

/// The greatest number of places between two looks: a run that has met nothing by then is executed to its end.
const WIDEST_PACE: u32 = 64;

/// The least number of steps for which a jump pays: it copies the machine, and later the pages that are written.
const LEAST_JUMP: u32 = 256;

/// The greatest number of looks at one run.
const MOST_LOOKS: u32 = 4096;

/// Returns a machine in whose words the bytes are those of another state: with these words put in, it shows that state.
fn put_back(machine: Machine, words: &[WordApart]) -> Result<Machine, AllocError>
    ensures { IfOk result (λ r. (s t : State) (other : ℕ → ℕ) → Shows machine s → DifferWithin (Within (in_words words.now)) s t
        → All (IsWordApart t.bytes other) words.now → Shows r t) }
{
    let Some((word, later)) = words.split_first() else {
        return Ok(machine);
    };
    let poked = machine.poke_word(word.addr, word.here)?;
    put_back(poked, later)
}

/// A place of a course, and the step of its run there.
#[derive(Clone, Copy)]
struct Stop {
    place: u32,
    step: u32,
}

impl Course {
    /// Returns the first step, from one on and up to a last one, that touches one of some words; the last one if none does. Steps are numbered
    /// from the first machine on.
    fn free_until(&self, words: &[WordApart], from: u32, last: u32) -> u32
        requires { from ≤ last }
        ensures later { from ≤ result }
        ensures within { result ≤ last }
        ensures none { All (λ (w : WordOf). (step : ℕ) → from ≤ step → step < result → is_told self.now.touches.keys.items (w.addr / 4) step ≡ false) words.now }
    {
        let Some((word, others)) = words.split_first() else {
            return last;
        };
        let until = self.touches.next(word.addr / 4, from, last);
        self.free_until(others, from, until)
    }

    /// Returns the stop at a place, if there is a machine and its step isn't behind a last one.
    fn stop_at(&self, place: u32, last: u32) -> Option<Stop>
        ensures there { IfSome result (λ stop. stop.place < length self.now.machines.items) }
        ensures step { IfSome result (λ stop. stop.step ≡ self.now.first + self.now.apart * stop.place) }
        ensures within { IfSome result (λ stop. stop.step ≤ last) }
    {
        let step = self.apart.checked_mul(place)?.checked_add(self.first)?;
        if step <= last && (place as usize) < self.machines.len() {
            Some(Stop { place, step })
        } else {
            None
        }
    }

    /// Returns the stop at which a run is compared next, a number of places behind a step.
    fn next_stop(&self, step: u32, pace: u32, last: u32) -> Option<Stop>
        requires { step ≤ last }
        ensures there { IfSome result (λ stop. stop.place < length self.now.machines.items) }
        ensures step { IfSome result (λ stop. stop.step ≡ self.now.first + self.now.apart * stop.place) }
        ensures later { IfSome result (λ stop. step ≤ stop.step) }
        ensures within { IfSome result (λ stop. stop.step ≤ last) }
    {
        let length = (self.machines.len() as u64).saturating_mul(u64::from(self.apart));
        if pace > WIDEST_PACE || length < LEAST_LENGTH {
            return None;
        }
        let done = step.saturating_sub(self.first);
        let stop = self.stop_at((done / self.apart).saturating_add(pace), last)?;
        if step <= stop.step { Some(stop) } else { None }
    }

    /// Jumps from the machine of another run at a place to a later place, the last one at most, if the other run differs from that of this
    /// course in words alone that the steps between don't touch. Returns the machine there, or else the same one, and the place.
    fn jump(
        &self,
        machine: Machine,
        place: u32,
        most: u32,
        setup: &Setup,
    ) -> Result<(Machine, u32), AllocError>
        requires order { place ≤ most }
        requires within { most < length self.now.machines.items }
        ensures later { IfOk result (λ r. place ≤ r.1) }
        ensures within { IfOk result (λ r. r.1 ≤ most) }
        ensures shows { IfOk result (λ r. (s : State) → Shows machine s → Shows r.0 (pre s setup.now [] (self.now.apart * (r.1 - place)))) }
    {
        keeps_apart();
        reads_on();
        let found = machine.words_apart(&self.machines[place as usize])?;
        let Some(words) = found else {
            return Ok((machine, place));
        };
        let there = self.reach(&words, place, most);
        let saved = (there - place).saturating_mul(self.apart);
        if saved < LEAST_JUMP || !self.setup.shares_rest(setup, machine.position()) {
            return Ok((machine, place));
        }
        let next = self.machines[there as usize].share()?;
        let ready = self.made_ready(next, machine);
        let jumped = put_back(ready, &words)?;
        Ok((jumped, there))
    }

    /// Returns a machine with what another has decoded, where that is soon compared.
    fn made_ready(&self, machine: Machine, other: Machine) -> Machine
        ensures { (s : State) → Shows machine s → Shows result s }
    {
        let mut machine = machine;
        let mut other = other;
        if self.is_near {
            machine.move_decoded(&mut other);
        }
        machine
    }

    /// Returns the place of the last machine whose step isn't behind a last one, if a stop's isn't.
    fn last_place(&self, stop: Stop, last: u32) -> u32
        requires there { stop.place < length self.now.machines.items }
        requires step { stop.step ≡ self.now.first + self.now.apart * stop.place }
        requires within { stop.step ≤ last }
        ensures later { stop.place ≤ result }
        ensures there { result < length self.now.machines.items }
        ensures within { self.now.first + self.now.apart * result ≤ last }
    {
        let more = (last - stop.step) / self.apart;
        let held = self.machines.len() - 1 - stop.place as usize;
        if (more as usize) < held {
            stop.place + more
        } else {
            stop.place + held as u32
        }
    }

    /// Returns the last place up to which the steps from another on touch none of some words.
    fn reach(&self, words: &[WordApart], place: u32, most: u32) -> u32
        requires { place ≤ most }
        ensures later { place ≤ result }
        ensures within { result ≤ most }
        ensures free { All (λ (w : WordOf). (step : ℕ) → self.now.apart * place ≤ step → step < self.now.apart * result
            → is_told self.now.touches.keys.items (w.addr / 4) step ≡ false) words.now }
    {
        let (Some(from), Some(last)) = (self.apart.checked_mul(place), self.apart.checked_mul(most))
        else {
            return place;
        };
        self.free_until(words, from, last) / self.apart
    }

    /// Executes the steps of a run under a setup from one step up to a last one, as `Machine::run` does; jumps over those that the run has
    /// in common with this course.
    pub fn run(
        &self,
        machine: Machine,
        step: u32,
        setup: &Setup,
        last: u32,
    ) -> Result<Machine, AllocError>
        requires { step ≤ last }
        ensures { IfOk result (λ r. (s : State) → Shows machine s → Shows r (pre s setup.now [] (last - step))) }
    {
        let mut machine = machine;
        let mut step = step;
        let first_pace = (FIRST_LOOK / self.apart).max(1);
        let mut pace = first_pace;
        for _look in 0..MOST_LOOKS {
            let Some(stop) = self.next_stop(step, pace, last) else {
                break;
            };
            let come = machine.run(setup, stop.step - step, &mut Meter::new())?;
            let (next, place) = self.jump(come, stop.place, self.last_place(stop, last), setup)?;
            pace = if place == stop.place {
                pace.saturating_mul(2)
            } else {
                first_pace
            };
            machine = next;
            step = self.first + self.apart * place;
        }
        machine.run(setup, last - step, &mut Meter::new())
    }
}
