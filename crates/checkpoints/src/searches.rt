//! The next and the last step of a run that does what is sought.
ghost use Rattle.std.specs.Prelude.{◌≡◌, ◌+◌, ◌-◌, ◌<◌, ◌≤◌, Bool, true, nat_lt, ◌&&◌, Decides, if◌then◌else◌, Some, length};
ghost use Rattle.std.specs.Prelude.{min, max, IfOk, IsTrue, IsFalse, OnOk, OnErr};
ghost use Rattle.shadow_memory.specs.Cells.{shadow_in};
ghost use Rattle.shadow_memory.specs.Memories.{shadows_in};
ghost use Rattle.shadow_memory.specs.Ranges.{is_in};
ghost use Rattle.guest_machine.specs.State.{State};
ghost use Rattle.guest_machine.specs.Exec.{exec, is_running, touched_of};
ghost use Rattle.guest_machine.specs.Run.{pre};
ghost use Rattle.guest_machine.specs.Shows.{Shows};
ghost use Rattle.guest_machine.specs.declared.setup.Setup.{Setup as SetupOf};
ghost use Rattle.checkpoints.specs.Searches.{Meets, AreAlikeIn, DiffersIn, HitsIn, Hits, IsNext, IsLast, next_price};
ghost use Rattle.checkpoints.specs.declared.searches.Watch.TheVariants.{Shadow as OfShadow};
ghost use Rattle.checkpoints.specs.Trails.{meter_of, is_short, loaded_of, last_held, IsRightFor, spacing_of};
ghost use Rattle.checkpoints.specs.Work.{floor, reached, steps_made};

use crate::running::{is_running, next_step, pass_marks, run_on};
use crate::trail::Trail;
use guest_machine::laws::stays_halted;
use guest_machine::{Alteration, Machine, Meter, Setup, Span, Touched};
use shadow_memory::{Cell, Memory};
use std::alloc::AllocError;

/// What a step is watched for.
#[derive(Clone, Copy)]
pub enum Watch {
    /// It runs at an address of a range.
    Run,
    /// It reads a byte of a range, besides its own word.
    Read,
    /// It writes a byte of a range.
    Write,
    /// It changes the undefined bits of a byte of a range, or whether the byte may be accessed.
    Shadow,
    /// It raises an error at an address of a range.
    Error,
}

/// What a search looks for: a step that does this in a range of addresses, which wraps at 2^32.
#[derive(Clone, Copy)]
pub struct Sought {
    /// What the step does.
    pub watch: Watch,
    /// Where it does so.
    pub range: Span,
}

impl Trail {
    /// Returns the least step that does what is sought, from one on and below another. The trail is moved as [`Trail::at`] the first of
    /// them moves it. The steps of the search count on another meter, up to the step that is found or at which the machine is halted.
    pub fn next(
        &mut self,
        sought: Sought,
        from: u32,
        end: u32,
        setup: &Setup,
        marks: &[Alteration],
        meter: &mut Meter,
    ) -> Result<Option<u32>, AllocError>
        ensures next { IfOk result (λ found. (start : State) → IsRightFor self.old start setup.now marks.now
            → IsNext (Hits sought start setup.now marks.now) from end found) }
        ensures price { IfOk result (λ found. meter.new ≤ meter.old + next_price from end found) }
        ensures right { (start : State) → IsRightFor self.old start setup.now marks.now → IsRightFor self.new start setup.now marks.now }
        ensures held { OnOk result (last_held self.new ≡ reached (spacing_of self.old) (last_held self.old) from) }
        ensures kept { OnErr result (last_held self.old ≤ last_held self.new) }
        ensures meter { OnOk result (meter_of self.new ≡ min (meter_of self.old + steps_made (spacing_of self.old) (last_held self.old) from) u64.MAX) }
        ensures short { is_short self.new ≡ is_short self.old }
        ensures loaded { loaded_of self.new ≡ loaded_of self.old }
        ensures spacing { spacing_of self.new ≡ spacing_of self.old }
    {
        let _turns = meter.read();
        let mut machine = self.before(from, setup, marks)?;
        self.copy_decoded_to(&mut machine);
        let found = next_from(machine, sought, setup, marks, from, end, meter)?;
        Ok(found)
    }

    /// Returns the greatest step that does what is sought, from one on and below another. The trail is moved as [`Trail::at`] the latter
    /// moves it. The steps of the search count on another meter: each at most once, from the held machine at or below the first step on.
    pub fn last(
        &mut self,
        sought: Sought,
        from: u32,
        before: u32,
        setup: &Setup,
        marks: &[Alteration],
        meter: &mut Meter,
    ) -> Result<Option<u32>, AllocError>
        ensures last { IfOk result (λ found. (start : State) → IsRightFor self.old start setup.now marks.now
            → IsLast (Hits sought start setup.now marks.now) from before found) }
        ensures price { OnOk result (meter.new ≤ meter.old + (before - floor (spacing_of self.old) from)) }
        ensures right { (start : State) → IsRightFor self.old start setup.now marks.now → IsRightFor self.new start setup.now marks.now }
        ensures held { OnOk result (last_held self.new ≡ reached (spacing_of self.old) (last_held self.old) before) }
        ensures kept { OnErr result (last_held self.old ≤ last_held self.new) }
        ensures meter { OnOk result (meter_of self.new ≡ min (meter_of self.old + steps_made (spacing_of self.old) (last_held self.old) before) u64.MAX) }
        ensures short { is_short self.new ≡ is_short self.old }
        ensures loaded { loaded_of self.new ≡ loaded_of self.old }
        ensures spacing { spacing_of self.new ≡ spacing_of self.old }
    {
        let _turns = meter.read();
        let _machine = self.before(before, setup, marks)?;
        let found = self.last_below(sought, from, before, setup, marks, meter)?;
        Ok(found)
    }

    /// The last step that does what is sought, if there is a machine for each window: a window is from a held machine to the next, or to
    /// the last step.
    fn last_below(
        &self,
        sought: Sought,
        from: u32,
        before: u32,
        setup: &Setup,
        marks: &[Alteration],
        meter: &mut Meter,
    ) -> Result<Option<u32>, AllocError>
        requires held { floor (spacing_of self.now) before ≤ last_held self.now }
        requires metered { meter.old ≤ u64.MAX }
        ensures last { IfOk result (λ found. (start : State) → IsRightFor self.now start setup.now marks.now
            → IsLast (Hits sought start setup.now marks.now) from before found) }
        ensures price { OnOk result (meter.new ≤ meter.old + (before - floor (spacing_of self.now) from)) }
    {
        let mut end = before;
        while end > from {
            let found = self.last_in(sought, from, end, setup, marks, meter)?;
            if found.is_some() {
                return Ok(found);
            }
            end = (end - 1) / self.spacing * self.spacing;
        }
        Ok(None)
    }

    /// The last step that does what is sought in the window up to `end`, from `from` on.
    #[tactic(auto, unfolding(crate::specs::Trails::machines_of, crate::specs::Trails::last_held, crate::specs::Trails::spacing_of))]
    fn last_in(
        &self,
        sought: Sought,
        from: u32,
        end: u32,
        setup: &Setup,
        marks: &[Alteration],
        meter: &mut Meter,
    ) -> Result<Option<u32>, AllocError>
        requires some { from < end }
        requires held { floor (spacing_of self.now) (end - 1) ≤ last_held self.now }
        requires metered { meter.old ≤ u64.MAX }
        ensures last { IfOk result (λ found. (start : State) → IsRightFor self.now start setup.now marks.now
            → IsLast (Hits sought start setup.now marks.now) (max from (floor (spacing_of self.now) (end - 1))) end found) }
        ensures price { OnOk result (meter.new ≤ meter.old + (end - floor (spacing_of self.now) (end - 1))) }
        ensures metered { meter.new ≤ u64.MAX }
    {
        let place = (end - 1) / self.spacing;
        let first = later(from, place * self.spacing);
        let copy = self.warm_copy(place as usize)?;
        let machine = run_on(copy, setup, marks, place * self.spacing, first, meter)?;
        last_from(machine, sought, setup, marks, first, end, meter)
    }
}

/// The later of two steps.
pub(crate) fn later(x: u32, y: u32) -> u32
    ensures { result ≡ max x y }
{
    if x < y { y } else { x }
}

/// Runs a machine to the next step that does what is sought. A machine that doesn't run does nothing more.
fn next_from(
    machine: Machine,
    sought: Sought,
    setup: &Setup,
    marks: &[Alteration],
    from: u32,
    end: u32,
    meter: &mut Meter,
) -> Result<Option<u32>, AllocError>
    requires metered { meter.old ≤ u64.MAX }
    ensures next { IfOk result (λ found. (start : State) → Shows machine (pre start setup.now marks.now from)
        → IsNext (Hits sought start setup.now marks.now) from end found) }
    ensures price { IfOk result (λ found. meter.new ≤ meter.old + next_price from end found) }
{
    stays_halted();
    let mut machine = machine;
    let mut next = next_step(marks, from);
    let mut seen = None;
    for k in from..end {
        if !is_running(&machine) {
            return Ok(None);
        }
        let marked = pass_marks(machine, marks, k, &mut next)?;
        let (stepped, is_hit) = step_watching(marked, sought, setup, &mut seen, meter)?;
        if is_hit {
            return Ok(Some(k));
        }
        machine = stepped;
    }
    Ok(None)
}

/// Runs a machine to the end of its window, and returns the last step that does what is sought.
fn last_from(
    machine: Machine,
    sought: Sought,
    setup: &Setup,
    marks: &[Alteration],
    from: u32,
    end: u32,
    meter: &mut Meter,
) -> Result<Option<u32>, AllocError>
    requires forward { from ≤ end }
    requires metered { meter.old ≤ u64.MAX }
    ensures last { IfOk result (λ found. (start : State) → Shows machine (pre start setup.now marks.now from)
        → IsLast (Hits sought start setup.now marks.now) from end found) }
    ensures price { OnOk result (meter.new ≤ meter.old + (end - from)) }
    ensures metered { meter.new ≤ u64.MAX }
{
    stays_halted();
    let mut machine = machine;
    let mut next = next_step(marks, from);
    let mut seen = None;
    let mut last = None;
    for k in from..end {
        if !is_running(&machine) {
            return Ok(last);
        }
        let marked = pass_marks(machine, marks, k, &mut next)?;
        let (stepped, is_hit) = step_watching(marked, sought, setup, &mut seen, meter)?;
        last = last_hit(is_hit, k, last);
        machine = stepped;
    }
    Ok(last)
}

/// The last step that is a hit, after another step.
#[inline(always)]
fn last_hit(is_hit: bool, step: u32, last: Option<u32>) -> Option<u32>
    ensures { result ≡ (if is_hit then Some step else last) }
{
    if is_hit { Some(step) } else { last }
}

/// One step, and whether it does what is sought, where the machine runs.
#[inline(always)]
fn step_watching(
    machine: Machine,
    sought: Sought,
    setup: &Setup,
    seen: &mut Option<Memory>,
    meter: &mut Meter,
) -> Result<(Machine, bool), AllocError>
    ensures shows { IfOk result (λ r. (s : State) → Shows machine s → Shows r.0 (exec s setup.now)) }
    ensures hit { IfOk result (λ r. (s : State) → Shows machine s → is_running s.core.status ≡ true
        → Decides r.1 (HitsIn sought.watch sought.range s setup.now)) }
    ensures meter { OnOk result (meter.new ≡ min (meter.old + 1) u64.MAX) }
    ensures unmoved { OnErr result (meter.new ≡ meter.old) }
{
    if let Watch::Shadow = sought.watch {
        return step_comparing(machine, sought.range, setup, seen, meter);
    }
    let pc = machine.pc();
    let (stepped, touched) = machine.step(setup, meter)?;
    let is_hit = is_hit(sought, pc, &touched, stepped.has_raised());
    Ok((stepped, is_hit))
}

/// Executes one step, and returns whether it changes what is known of a byte of a range. The memory that it was compared with is kept for
/// the next step, so that a share is made only if what is known has changed.
#[inline(never)]
fn step_comparing(
    machine: Machine,
    range: Span,
    setup: &Setup,
    seen: &mut Option<Memory>,
    meter: &mut Meter,
) -> Result<(Machine, bool), AllocError>
    ensures shows { IfOk result (λ r. (s : State) → Shows machine s → Shows r.0 (exec s setup.now)) }
    ensures hit { IfOk result (λ r. (s : State) → Shows machine s → Decides r.1 (HitsIn OfShadow range s setup.now)) }
    ensures meter { OnOk result (meter.new ≡ min (meter.old + 1) u64.MAX) }
    ensures unmoved { OnErr result (meter.new ≡ meter.old) }
{
    let before = alike_memory(seen.take(), range, machine.memory())?;
    let (stepped, _touched) = machine.step(setup, meter)?;
    let is_hit = differs_in(range, &before, stepped.memory());
    *seen = Some(before);
    Ok((stepped, is_hit))
}

/// A memory in which the same is known of a range as in another one: the one that was seen before, if that is so there, or a share of the
/// other.
fn alike_memory(seen: Option<Memory>, range: Span, memory: &Memory) -> Result<Memory, AllocError>
    ensures { IfOk result (λ before. AreAlikeIn range (shadows_in before) (shadows_in memory.now)) }
{
    match seen {
        Some(before) if !differs_in(range, &before, memory) => Ok(before),
        _ => memory.share(),
    }
}

/// Whether what is known of a byte of a range is not the same in two memories.
fn differs_in(range: Span, before: &Memory, after: &Memory) -> bool
    ensures differs { IsTrue result → DiffersIn range (shadows_in before.now) (shadows_in after.now) }
    ensures alike { IsFalse result → AreAlikeIn range (shadows_in before.now) (shadows_in after.now) }
{
    for i in 0..range.len {
        let address = range.start.wrapping_add(i);
        if !are_alike(before.byte(address), after.byte(address)) {
            return true;
        }
    }
    false
}

/// Whether the same is known of two bytes.
#[inline(always)]
fn are_alike(one: Cell, other: Cell) -> bool
    ensures { Decides result (shadow_in one ≡ shadow_in other) }
{
    one.accessible == other.accessible && one.undef == other.undef
}

/// Whether a step of a machine that runs does what is sought, unless a change of what is known is sought: by its pc, the ranges that it
/// touches, and whether it raises an error.
#[inline(always)]
fn is_hit(sought: Sought, pc: u32, touched: &Touched, raised: bool) -> bool
    requires { sought.watch ≡ OfShadow → ⊥ }
    ensures { (s : State) (setup : SetupOf) → is_running s.core.status ≡ true → pc ≡ s.core.pc → touched.now ≡ touched_of s setup
        → raised ≡ nat_lt (length s.events) (length (exec s setup).events) → Decides result (HitsIn sought.watch sought.range s setup) }
{
    match sought.watch {
        Watch::Run => has_address(sought.range, pc),
        Watch::Read => meets(sought.range, touched.reads),
        Watch::Write => meets(sought.range, touched.writes),
        Watch::Shadow => false,
        Watch::Error => raised && has_address(sought.range, pc),
    }
}

/// Whether a byte of a range is one of another, if there is one.
#[inline(always)]
fn meets(range: Span, touched: Option<Span>) -> bool
    ensures { Decides result (Meets range touched) }
{
    match touched {
        None => false,
        Some(other) => has_first(range, other) || has_first(other, range),
    }
}

/// Whether a range has the first byte of another.
#[inline(always)]
fn has_first(range: Span, other: Span) -> bool
    ensures { result ≡ (nat_lt 0 other.len && is_in range.start range.len other.start) }
{
    other.len > 0 && has_address(range, other.start)
}

/// Whether an address is in a range.
#[inline(always)]
fn has_address(range: Span, address: u32) -> bool
    ensures { result ≡ is_in range.start range.len address }
{
    address.wrapping_sub(range.start) < range.len
}
