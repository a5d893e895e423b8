//! What the steps of a run do first with each byte.
ghost use Rattle.std.specs.Prelude.{◌≡◌, ◌-◌, [], IfOk, OnOk};
ghost use Rattle.guest_machine.specs.Exec.{is_running};
ghost use Rattle.guest_machine.specs.Shows.{Shows};
ghost use Rattle.guest_machine.specs.State.{State};
ghost use Rattle.scenario.specs.Scenario.{first_state};
ghost use Rattle.sweeps.specs.Accesses.{AreEntered, IsEntered, IsTable, ShowsEntered};
ghost use Rattle.sweeps.specs.Standing.{state_before};

use guest_machine::laws::stays_halted;
use guest_machine::{Machine, Span, Status};
use scenario::Scenario;
use shadow_memory::{Memory, RangeKind};
use std::alloc::{AllocError, Global};

/// The number of a byte that isn't entered.
const NONE: u8 = 0;

/// The number of a byte that is read first.
pub(crate) const READ: u8 = 1;

/// The number of a byte that is written first.
const WRITTEN: u8 = 2;

/// Enters an access to a byte in a table, unless another one is entered.
fn enter_byte(table: &mut Memory, addr: u32, how: u8) -> Result<(), AllocError>
    requires shown { ShowsEntered table.old }
    ensures entered { OnOk result (IsEntered how addr table.old table.new) }
    ensures shown { OnOk result (ShowsEntered table.new) }
{
    if table.byte(addr).byte != NONE {
        return Ok(());
    }
    table.set_range(addr - addr % 4, 4, RangeKind::Defined)?;
    table.poke(addr, how)
}

/// Enters an access to each byte of a range.
fn enter_range(table: &mut Memory, range: Span, how: u8) -> Result<(), AllocError>
    requires shown { ShowsEntered table.old }
    ensures entered { OnOk result (AreEntered how (Some range) table.old table.new) }
    ensures shown { OnOk result (ShowsEntered table.new) }
{
    for i in 0..range.len {
        enter_byte(table, range.start.wrapping_add(i), how)?;
    }
    Ok(())
}

/// Enters an access to each byte of a range, if there is one.
fn enter(table: &mut Memory, range: Option<Span>, how: u8) -> Result<(), AllocError>
    requires shown { ShowsEntered table.old }
    ensures entered { OnOk result (AreEntered how range table.old table.new) }
    ensures shown { OnOk result (ShowsEntered table.new) }
{
    match range {
        Some(range) => enter_range(table, range, how),
        None => Ok(()),
    }
}

/// Returns whether a machine runs.
pub(crate) fn is_running(machine: &Machine) -> bool
    ensures { (s : State) → Shows machine.now s → result ≡ is_running s.core.status }
{
    matches!(machine.status(), Status::Running)
}

/// Returns the table of the steps of the unedited run from one on, up to the chosen step, given the machine before the first of them. The
/// words that steps take aren't entered. A step that reads a byte and writes it reads it first.
pub(crate) fn first_accesses(
    alloc: Global,
    scenario: &Scenario,
    before: &Machine,
    step: u32,
) -> Result<Memory, AllocError>
    requires unmarked { scenario.now.marks ≡ [] }
    requires before { Shows before.now (state_before scenario.now step) }
    ensures { IfOk result (IsTable scenario.now step (scenario.now.step - step)) }
{
    stays_halted();
    let mut machine = before.share_warm()?;
    let mut table = Memory::new(alloc);
    for k in step..scenario.step() {
        if !is_running(&machine) {
            return Ok(table);
        }
        let (stepped, touched) = machine.step_on(scenario.setup())?;
        enter(&mut table, touched.reads, READ)?;
        enter(&mut table, touched.writes, WRITTEN)?;
        machine = stepped;
    }
    Ok(table)
}
