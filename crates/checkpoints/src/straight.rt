//! Steps that execute words which were decoded recently. The sides of those that go straight ahead are entered together.
ghost use Rattle.std.specs.Prelude.{◌≡◌, ℕ, ◌+◌, ◌-◌, ◌*◌, ◌%◌, ◌^◌, ◌<◌, ◌≤◌, List, Some, false, length, IfOk, IfSome, IsTrue, OnOk};
ghost use Rattle.guest_machine.specs.State.{State};
ghost use Rattle.guest_machine.specs.Run.{pre, post};
ghost use Rattle.guest_machine.specs.Shows.{Shows};
ghost use Rattle.guest_machine.specs.declared.setup.Setup.{Setup as SetupOf};
ghost use Rattle.run_values.specs.declared.alteration.Alteration.{Alteration as AlterationOf};
ghost use Rattle.checkpoints.specs.Entering.{IsApart};
ghost use Rattle.checkpoints.specs.Extending.{Extends, GoesStraight, Leaves};
ghost use Rattle.checkpoints.specs.Marks.{NoneBetween};
ghost use Rattle.checkpoints.specs.Sides.{side_of, sided};

use crate::sides::{Sides, enter_at, enter_side};
use guest_machine::{Machine, Setup};
use std::alloc::AllocError;

/// The bytes of a word.
const WORD: u32 = 4;

/// Moves a machine from after the marks of a step towards a later one, with no marks between, as long as places are as far apart as words
/// and it executes words that were decoded recently. Enters the sides of these steps, and returns the step to which it has come.
#[inline(always)]
pub(crate) fn pass_straight(
    machine: Machine,
    setup: &Setup,
    first: u32,
    apart: u32,
    from: u32,
    end: u32,
    table: &mut Vec<Sides>,
) -> Result<(Machine, u32), AllocError>
    requires { from ≤ end }
    ensures later { IfOk result (λ r. from ≤ r.1) }
    ensures within { IfOk result (λ r. r.1 ≤ end) }
    ensures marked { IfOk result (λ r. (start : State) (marks : List AlterationOf) → NoneBetween from end marks
        → Shows machine (post start setup.now marks from) → r.1 < end → Shows r.0 (post start setup.now marks r.1)) }
    ensures shows { IfOk result (λ r. (start : State) (marks : List AlterationOf) → NoneBetween from end marks
        → Shows machine (post start setup.now marks from) → from < r.1 → Shows r.0 (pre start setup.now marks r.1)) }
    ensures rows { OnOk result (length table.new.items ≡ length table.old.items) }
    ensures extends { IfOk result (λ r. (start : State) (marks : List AlterationOf) → NoneBetween from end marks
        → Shows machine (post start setup.now marks from)
        → Extends start setup.now marks from r.1 first apart table.old.items table.new.items) }
{
    if apart == WORD {
        pass_words(machine, setup, first, from, end, table)
    } else {
        Ok((machine, from))
    }
}

/// The same, where places are that far apart.
#[inline(never)]
fn pass_words(
    machine: Machine,
    setup: &Setup,
    first: u32,
    from: u32,
    end: u32,
    table: &mut Vec<Sides>,
) -> Result<(Machine, u32), AllocError>
    requires { from ≤ end }
    ensures later { IfOk result (λ r. from ≤ r.1) }
    ensures within { IfOk result (λ r. r.1 ≤ end) }
    ensures marked { IfOk result (λ r. (start : State) (marks : List AlterationOf) → NoneBetween from end marks
        → Shows machine (post start setup.now marks from) → r.1 < end → Shows r.0 (post start setup.now marks r.1)) }
    ensures shows { IfOk result (λ r. (start : State) (marks : List AlterationOf) → NoneBetween from end marks
        → Shows machine (post start setup.now marks from) → from < r.1 → Shows r.0 (pre start setup.now marks r.1)) }
    ensures rows { OnOk result (length table.new.items ≡ length table.old.items) }
    ensures extends { IfOk result (λ r. (start : State) (marks : List AlterationOf) → NoneBetween from end marks
        → Shows machine (post start setup.now marks from)
        → Extends start setup.now marks from r.1 first 4 table.old.items table.new.items) }
{
    let mut machine = machine;
    let mut at = from;
    while at < end {
        let pc = machine.pc();
        let (stepped, count, is_away) = run_words(machine, setup, pc, end - at)?;
        machine = stepped;
        enter_words(table, first, pc, count, is_away);
        at += count;
        if !is_away {
            return Ok((machine, at));
        }
        at += 1;
    }
    Ok((machine, at))
}

/// Executes steps, with no marks between, as long as they execute words that were decoded recently and continue after them, `most` at most;
/// and one more if that executes such a word and leads elsewhere. Returns how many go straight ahead, and whether there was one more. `pc`
/// is where the machine is.
#[inline(always)]
fn run_words(
    machine: Machine,
    setup: &Setup,
    pc: u32,
    most: u32,
) -> Result<(Machine, u32, bool), AllocError>
    requires { (s : State) → Shows machine s → pc ≡ s.core.pc }
    ensures within { IfOk result (λ r. r.1 ≤ most) }
    ensures fewer { IfOk result (λ r. IsTrue r.2 → r.1 < most) }
    ensures room { IfOk result (λ r. pc + 4 * r.1 < 2 ^ 32) }
    ensures straight { IfOk result (λ r. (start : State) (marks : List AlterationOf) (from : ℕ) → NoneBetween from (from + most) marks
        → Shows machine (post start setup.now marks from) → GoesStraight start setup.now marks from pc 4 r.1) }
    ensures marked { IfOk result (λ r. (start : State) (marks : List AlterationOf) (from : ℕ) → NoneBetween from (from + most) marks
        → Shows machine (post start setup.now marks from) → r.2 ≡ false → r.1 < most → Shows r.0 (post start setup.now marks (from + r.1))) }
    ensures shows { IfOk result (λ r. (start : State) (marks : List AlterationOf) (from : ℕ) → NoneBetween from (from + most) marks
        → Shows machine (post start setup.now marks from) → r.2 ≡ false → 0 < r.1 → Shows r.0 (pre start setup.now marks (from + r.1))) }
    ensures away { IfOk result (λ r. (start : State) (marks : List AlterationOf) (from : ℕ) → NoneBetween from (from + most) marks
        → Shows machine (post start setup.now marks from) → IsTrue r.2 → Leaves start setup.now marks (from + r.1) r.0 (pc + 4 * r.1)) }
{
    let fits = words_from(pc, most);
    let mut machine = machine;
    let mut next = pc;
    // What is left is counted: to count what was made costs more at each step.
    let mut left = fits;
    while left > 0 {
        let (stepped, is_made) = machine.step_decoded(setup)?;
        machine = stepped;
        if !is_made {
            return Ok((machine, fits - left, false));
        }
        next += WORD;
        if machine.pc() != next {
            return Ok((machine, fits - left, true));
        }
        left -= 1;
    }
    Ok((machine, fits, false))
}

/// A number of words, or how many there are from an address on before the last one.
#[inline(always)]
fn words_from(addr: u32, most: u32) -> u32
    ensures most { result ≤ most }
    ensures room { addr + 4 * result < 2 ^ 32 }
{
    let room = (u32::MAX - addr) / WORD;
    if most < room { most } else { room }
}

/// Enters the sides of steps that execute words from an address on: a number of steps that go straight ahead, and one more that doesn't if
/// `is_away`.
#[inline(always)]
fn enter_words(table: &mut Vec<Sides>, first: u32, pc: u32, count: u32, is_away: bool)
    requires room { pc + 4 * count < 2 ^ 32 }
    ensures rows { length table.new.items ≡ length table.old.items }
    ensures ahead { is_away ≡ false → (start : State) (setup : SetupOf) (marks : List AlterationOf) (from : ℕ)
        → GoesStraight start setup marks from pc 4 count → Extends start setup marks from (from + count) first 4 table.old.items table.new.items }
    ensures away { IsTrue is_away → (start : State) (setup : SetupOf) (marks : List AlterationOf) (from : ℕ)
        → GoesStraight start setup marks from pc 4 count → side_of (post start setup marks (from + count)) setup ≡ Some (sided (pc + 4 * count) false)
        → Extends start setup marks from (from + count + 1) first 4 table.old.items table.new.items }
{
    enter_words_in(table, first, pc, count, is_away);
}

/// The same, in the rows of a table.
#[inline(always)]
fn enter_words_in(table: &mut [Sides], first: u32, pc: u32, count: u32, is_away: bool)
    requires room { pc + 4 * count < 2 ^ 32 }
    ensures rows { length table.new ≡ length table.old }
    ensures ahead { is_away ≡ false → (start : State) (setup : SetupOf) (marks : List AlterationOf) (from : ℕ)
        → GoesStraight start setup marks from pc 4 count → Extends start setup marks from (from + count) first 4 table.old table.new }
    ensures away { IsTrue is_away → (start : State) (setup : SetupOf) (marks : List AlterationOf) (from : ℕ)
        → GoesStraight start setup marks from pc 4 count → side_of (post start setup marks (from + count)) setup ≡ Some (sided (pc + 4 * count) false)
        → Extends start setup marks from (from + count + 1) first 4 table.old table.new }
{
    match place_of(table, first, pc, count) {
        Some(place) => {
            enter_rows(table, first, place, count);
            if is_away {
                enter_at(table, first, WORD, place + count as usize, false);
            }
        }
        None => {
            enter_each(table, first, pc, count);
            if is_away {
                enter_side(table, first, WORD, pc + WORD * count, false);
            }
        }
    }
}

/// The place at an address, if the table has a row for it and for a number of places after it.
#[inline(always)]
fn place_of(table: &[Sides], first: u32, addr: u32, count: u32) -> Option<usize>
    ensures at { IfSome result (λ place. first + 4 * place ≡ addr) }
    ensures rows { IfSome result (λ place. place + count < length table.now) }
{
    if addr < first || (addr - first) % WORD != 0 {
        return None;
    }
    let place = ((addr - first) / WORD) as usize;
    if place + (count as usize) < table.len() {
        Some(place)
    } else {
        None
    }
}

/// Enters the sides of a number of steps that go straight ahead from a place, where the table has a row for each. Two at a time cost less.
#[inline(always)]
fn enter_rows(table: &mut [Sides], first: u32, place: usize, count: u32)
    requires rows { place + count ≤ length table.old }
    ensures rows { length table.new ≡ length table.old }
    ensures extends { (start : State) (setup : SetupOf) (marks : List AlterationOf) (from : ℕ) → GoesStraight start setup marks from (first + 4 * place) 4 count
        → Extends start setup marks from (from + count) first 4 table.old table.new }
{
    let end = place + count as usize;
    let mut at = place;
    while end - at >= 2 {
        enter_at(table, first, WORD, at, true);
        enter_at(table, first, WORD, at + 1, true);
        at += 2;
    }
    if at < end {
        enter_at(table, first, WORD, at, true);
    }
}

/// Enters the sides of a number of steps that go straight ahead from an address, one after another.
#[inline(never)]
fn enter_each(table: &mut [Sides], first: u32, pc: u32, count: u32)
    requires room { pc + 4 * count < 2 ^ 32 }
    ensures rows { length table.new ≡ length table.old }
    ensures extends { (start : State) (setup : SetupOf) (marks : List AlterationOf) (from : ℕ) → GoesStraight start setup marks from pc 4 count
        → Extends start setup marks from (from + count) first 4 table.old table.new }
{
    for step in 0..count {
        enter_side(table, first, WORD, pc + WORD * step, true);
    }
}
