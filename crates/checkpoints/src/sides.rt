//! Which instructions a run has executed, and how it went on from each.
ghost use Rattle.std.specs.Prelude.{◌≡◌, ◌+◌, ◌-◌, ◌*◌, ◌^◌, ◌<◌, ◌≤◌, ℕ, Bool, List, false, length, slice_index_or, IfOk, IfNone, IfSome, IsTrue, OnOk};
ghost use Rattle.guest_elf.specs.Profiles.{unit};
ghost use Rattle.guest_machine.specs.State.{State};
ghost use Rattle.guest_machine.specs.Exec.{exec};
ghost use Rattle.guest_machine.specs.Run.{pre, post};
ghost use Rattle.guest_machine.specs.Shows.{Shows};
ghost use Rattle.run_values.specs.declared.alteration.Alteration.{Alteration as AlterationOf};
ghost use Rattle.guest_machine.specs.declared.setup.Setup.{Setup as SetupOf};
ghost use Rattle.checkpoints.specs.Entering.{Enters, IsApart, with_side};
ghost use Rattle.checkpoints.specs.Effects.{IsOfSetup, LeadsTo, Run};
ghost use Rattle.checkpoints.specs.Forks.{IsForkFor, ShowsEdited};
ghost use Rattle.checkpoints.specs.Marks.{NoneBetween};
ghost use Rattle.checkpoints.specs.Merged.{AlsoEnters};
ghost use Rattle.checkpoints.specs.Extending.{Extends};
ghost use Rattle.checkpoints.specs.Sides.{IsSides, has_again, has_side, places, side_by, side_of, sided, span};
ghost use Rattle.checkpoints.specs.Trails.{machines_of, IsRightFor};

use crate::effect::Effect;
use crate::forks::{Fork, written_copy};
use crate::running::{apply_marks, is_running, next_step, pass_marks, quiet_until, run_on};
use crate::straight::pass_straight;
use crate::trail::Trail;
use guest_machine::laws::{
    end_stays, keeps_end, keeps_heap, keeps_input, keeps_isa, keeps_pokes, reads_on, stays_halted,
};
use guest_machine::{Alteration, Machine, Meter, Setup, Span};
use std::alloc::{AllocError, Global};

/// What a run has done with the instruction at a place.
#[derive(Clone, Copy)]
pub struct Sides {
    /// It has executed the instruction and continued after it.
    pub on: bool,
    /// It has executed the instruction and gone elsewhere, or ended there.
    pub away: bool,
    /// It has continued after the instruction more than once.
    pub on_again: bool,
    /// It has gone elsewhere more than once.
    pub away_again: bool,
}

/// What it has done with one that it hasn't reached.
const UNREACHED: Sides = Sides {
    on: false,
    away: false,
    on_again: false,
    away_again: false,
};

impl Trail {
    /// Returns for each place of a range what the steps of the run below another have done with the instruction there. Places are as far
    /// apart as the shortest instructions are long. The run is executed again from step zero; its steps count on no meter, and the trail
    /// isn't moved.
    #[tactic(auto, unfolding(crate::specs::Trails::machines_of))]
    pub fn sides(
        &self,
        alloc: Global,
        range: Span,
        step: u32,
        setup: &Setup,
        marks: &[Alteration],
    ) -> Result<Vec<Sides>, AllocError>
        ensures { IfOk result (λ table. (start : State) → IsRightFor self.now start setup.now marks.now
            → IsSides start setup.now marks.now step range table.items) }
    {
        let machine = self.warm_copy(0)?;
        let apart = machine.isa().unit();
        let mut table = empty_table(alloc, rows(apart, range.len))?;
        let rows = RowAddresses {
            first: range.start,
            apart,
        };
        enter_sides(machine, setup, marks, rows, 0, step, &mut table)?;
        Ok(table)
    }
}

impl Fork {
    /// Returns the machine at a step of an edited run as [`Fork::follow`] does, and what the steps of that run below it have done with the
    /// instruction at each place of a range. `table` says what the steps below the fork's have done. No step counts on a meter. If `table`
    /// also says what other runs have done once, it still does.
    pub fn follow_entering(
        &self,
        effect: Effect,
        setup: &Setup,
        marks: &[Alteration],
        step: u32,
        first: u32,
        table: &mut Vec<Sides>,
    ) -> Result<Machine, AllocError>
        requires before { self.now.step ≤ step }
        requires of { IsOfSetup effect }
        ensures shows { IfOk result (λ machine. (last : ℕ) → ShowsEdited effect self.now setup.now marks.now last step machine) }
        ensures sides { OnOk result ((one : Run) (start : State) (last len : ℕ) → LeadsTo effect one (record { start = start; setup = setup.now; marks = marks.now })
            → IsForkFor effect one last self.now → IsSides one.start one.setup one.marks self.now.step (span first len) table.old.items
            → IsSides start setup.now marks.now step (span first len) table.new.items) }
        ensures rows { OnOk result (length table.new.items ≡ length table.old.items) }
        ensures also { OnOk result (AlsoEnters effect self.now first setup.now marks.now step table.old.items table.new.items) }
    {
        keeps_input();
        keeps_end();
        reads_on();
        end_stays();
        keeps_heap();
        keeps_pokes();
        keeps_isa();
        let written = written_copy(&self.machine, effect)?;
        let apart = written.isa().unit();
        let rows = RowAddresses { first, apart };
        let machine = enter_sides(written, setup, marks, rows, self.step, step, table)?;
        let marked = apply_marks(machine, marks, step)?;
        Ok(marked)
    }
}

/// A table that tells of no step.
fn empty_table(alloc: Global, rows: usize) -> Result<Vec<Sides>, AllocError>
    ensures rows { IfOk result (λ table. length table.items ≡ rows) }
    ensures once { IfOk result (λ table. (i : ℕ) (on : Bool) (d : Sides) → i < rows → has_side (slice_index_or table.items i d) on ≡ false) }
    ensures again { IfOk result (λ table. (i : ℕ) (on : Bool) (d : Sides) → i < rows → has_again (slice_index_or table.items i d) on ≡ false) }
{
    vec![in alloc; UNREACHED; rows]
}

/// The number of places in a number of bytes.
fn rows(apart: u32, len: u32) -> usize
    requires { IsApart apart }
    ensures { result ≡ places apart len }
{
    (len as usize + (apart as usize - 1)) / apart as usize
}

/// The addresses of the rows of a table: that of the first one, and how far they are apart.
#[derive(Clone, Copy)]
struct RowAddresses {
    first: u32,
    apart: u32,
}

/// Moves a machine from one step of a run to a later one, both before their marks, and enters the side of each step on the way in a table
/// that says what the steps before have done. A step of a machine that is halted has no side.
fn enter_sides(
    machine: Machine,
    setup: &Setup,
    marks: &[Alteration],
    rows: RowAddresses,
    from: u32,
    to: u32,
    table: &mut Vec<Sides>,
) -> Result<Machine, AllocError>
    requires forward { from ≤ to }
    requires apart { IsApart rows.apart }
    ensures shows { IfOk result (λ r. (start : State) → Shows machine (pre start setup.now marks.now from) → Shows r (pre start setup.now marks.now to)) }
    ensures rows { OnOk result (length table.new.items ≡ length table.old.items) }
    ensures extends { OnOk result ((start : State) → Shows machine (pre start setup.now marks.now from)
        → Extends start setup.now marks.now from to rows.first rows.apart table.old.items table.new.items) }
{
    stays_halted();
    let RowAddresses { first, apart } = rows;
    let mut machine = machine;
    let mut next = next_step(marks, from);
    let mut at = from;
    while at < to {
        if !is_running(&machine) {
            let halted = run_on(machine, setup, marks, at, to, &mut Meter::new())?;
            return Ok(halted);
        }
        let marked = pass_marks(machine, marks, at, &mut next)?;
        let end = quiet_until(next, at + 1, to);
        let (stepped, reached) = enter_quietly(marked, setup, first, apart, at, end, table)?;
        machine = stepped;
        at = reached;
    }
    Ok(machine)
}

/// Moves a machine from after the marks of a step to a later step, with no marks between, or past the first step that finds it halted.
/// Enters the sides of these steps, and returns the step to which it has come.
#[inline(never)]
fn enter_quietly(
    machine: Machine,
    setup: &Setup,
    first: u32,
    apart: u32,
    from: u32,
    end: u32,
    table: &mut Vec<Sides>,
) -> Result<(Machine, u32), AllocError>
    requires forward { from < end }
    requires apart { IsApart apart }
    ensures on { IfOk result (λ r. from < r.1) }
    ensures within { IfOk result (λ r. r.1 ≤ end) }
    ensures shows { IfOk result (λ r. (start : State) (marks : List AlterationOf) → NoneBetween from end marks
        → Shows machine (post start setup.now marks from) → Shows r.0 (pre start setup.now marks r.1)) }
    ensures rows { OnOk result (length table.new.items ≡ length table.old.items) }
    ensures extends { IfOk result (λ r. (start : State) (marks : List AlterationOf) → NoneBetween from end marks
        → Shows machine (post start setup.now marks from)
        → Extends start setup.now marks from r.1 first apart table.old.items table.new.items) }
{
    let mut machine = machine;
    let mut at = from;
    while at < end {
        let (stepped, reached) = pass_straight(machine, setup, first, apart, at, end, table)?;
        machine = stepped;
        at = reached;
        if at == end {
            return Ok((machine, end));
        }
        let (stepped, touched) = machine.step_on(setup)?;
        machine = stepped;
        enter(table, first, apart, touched.fetch, machine.pc());
        at += 1;
        if touched.fetch.is_none() && !is_running(&machine) {
            return Ok((machine, at));
        }
    }
    Ok((machine, end))
}

/// Enters the side of a step that fetches a code, if it does, and leaves pc at an address.
#[inline(always)]
fn enter(table: &mut Vec<Sides>, first: u32, apart: u32, code: Option<Span>, pc: u32)
    requires { IsApart apart }
    ensures { Enters first apart (side_by code pc) table.old.items table.new.items }
{
    if let Some(code) = code {
        let on = pc == code.start.wrapping_add(code.len);
        enter_side(table, first, apart, code.start, on);
    }
}

/// Enters a side of the instruction at an address, if a place is there and has a row.
#[inline(always)]
pub(crate) fn enter_side(table: &mut [Sides], first: u32, apart: u32, addr: u32, on: bool)
    requires { IsApart apart }
    ensures { Enters first apart (Some (sided addr on)) table.old table.new }
{
    if let Some(place) = place_at(first, apart, addr) {
        enter_row(table, first, apart, place, on);
    }
}

/// Enters the side of the instruction of a row, if there is that row.
#[inline(always)]
fn enter_row(table: &mut [Sides], first: u32, apart: u32, place: usize, on: bool)
    requires { IsApart apart }
    ensures { Enters first apart (Some (sided (first + apart * place) on)) table.old table.new }
{
    if place < table.len() {
        enter_at(table, first, apart, place, on);
    }
}

/// Enters the side of the instruction of a row.
#[inline(always)]
pub(crate) fn enter_at(table: &mut [Sides], first: u32, apart: u32, place: usize, on: bool)
    requires apart { IsApart apart }
    requires row { place < length table.old }
    ensures { Enters first apart (Some (sided (first + apart * place) on)) table.old table.new }
{
    add_side(&mut table[place], on);
}

/// Adds to what a run has done with an instruction that it also continues after it, or elsewhere.
#[inline(always)]
fn add_side(sides: &mut Sides, on: bool)
    ensures { sides.new ≡ with_side sides.old on }
{
    if on {
        sides.on_again |= sides.on;
        sides.on = true;
    } else {
        sides.away_again |= sides.away;
        sides.away = true;
    }
}

/// The index of the place at an address, if it is that of a place.
#[inline(always)]
fn place_at(first: u32, apart: u32, addr: u32) -> Option<usize>
    requires { IsApart apart }
    ensures some { IfSome result (λ i. first + apart * i ≡ addr) }
    ensures none { IfNone result ((i : ℕ) → first + apart * i ≡ addr → ⊥) }
{
    let after = addr.checked_sub(first)?;
    // Divisors that are known cost less.
    let (place, rest) = if apart == 4 {
        (after / 4, after % 4)
    } else {
        (after / 2, after % 2)
    };
    if rest == 0 {
        Some(place as usize)
    } else {
        None
    }
}
