//! The table of a sweep, place by place.
ghost use Rattle.std.specs.Prelude.{◌≡◌, ◌+◌, ◌-◌, ◌++◌, ◌<◌, ◌≤◌, ◌^◌, ℕ, List, Option, OnOk, IfOk, IfErr, map};
ghost use Rattle.std.specs.Io.KnownBytes.{Appends};
ghost use Rattle.exit_status.specs.Ends.{AppendsFront, end_of};
ghost use Rattle.sweep_plans.specs.Planned.{first_place};
ghost use Rattle.sweep_tables.specs.Swept.{Case, Reached, Writes, sides_told};
ghost use Rattle.exit_status.specs.declared.ends.End.TheVariants.{CannotWrite};
ghost use Rattle.sweeps.specs.Outcomes.{Met};
ghost use Rattle.sweeps.specs.Standing.{changes_at};
ghost use Rattle.sweep_plans.specs.declared.change.Change.{Change};
ghost use Rattle.sweeps.specs.Covered.{FitsPlan, HasCovered, range_of};
ghost use Rattle.sweeps.specs.Sweeps.{HasMet, scenario_of, tells_output};
ghost use Rattle.sweeps.specs.Tables.{rows_text, table_text};

use crate::sides::push_lines;
use exit_status::End;
use line_protocol::send;
use look_lines::push_digits;
use std::alloc::{AllocError, Global};
use std::io::Write;
use sweep_plans::Plan;
use sweeps::Sweep;

/// Returns the first place of a part, given the number of parts and how many of them come before it.
pub(crate) fn first_place(places: u64, before: u32, parts: u32) -> u64
    requires few { places < 2 ^ 34 }
    requires fewer { before ≤ 1000000 }
    requires some { 0 < parts }
    ensures { result ≡ first_place places before parts }
{
    places * u64::from(before) / u64::from(parts)
}

/// Writes bytes, all of them.
pub(crate) fn write_all<'a, W: Write>(writer: &mut W, bytes: &[u8]) -> Result<(), End<'a>>
    ensures ok { OnOk result (Appends (W.contents writer.old) (W.contents writer.new) bytes.now) }
    ensures err { IfErr result (λ end. (end ≡ CannotWrite) × AppendsFront (W.contents writer.old) (W.contents writer.new) bytes.now) }
{
    if send(writer, bytes).whole {
        Ok(())
    } else {
        Err(End::CannotWrite)
    }
}

/// Returns the rows of a place.
fn rows_of(
    alloc: Global,
    sweep: &mut Sweep<'_>,
    plan: &Plan,
    place: u64,
) -> Result<Vec<u8>, AllocError>
    ensures scenario { scenario_of sweep.new ≡ scenario_of sweep.old }
    ensures output { tells_output sweep.new ≡ tells_output sweep.old }
    ensures range { range_of sweep.new ≡ range_of sweep.old }
    ensures covered { IfOk result (λ out. (done : List Change) → FitsPlan plan.now (range_of sweep.old) → HasCovered sweep.old done
        → HasCovered sweep.new (done ++ changes_at (scenario_of sweep.old) plan.now place)) }
    ensures met { IfOk result (λ out. (first : List ℕ) (met : List Met) → HasMet sweep.old first met
        → (more : List Met) × (map (λ (m : Met). m.change) more ≡ changes_at (scenario_of sweep.old) plan.now place)
        × HasMet sweep.new first (met ++ more) × (rows_text first (met ++ more) ≡ rows_text first met ++ out.items)) }
{
    let mut out = Vec::new(alloc);
    sweep.visit(plan, place, &mut out)?;
    Ok(out)
}

/// Applies the changes of a place, and writes their rows.
fn write_place<'a, W: Write>(
    alloc: Global,
    sweep: &mut Sweep<'_>,
    plan: &Plan,
    place: u64,
    writer: &mut W,
) -> Result<(), End<'a>>
    ensures ok { OnOk result ((case : Case) (n : ℕ) (base : Option (List ℕ)) → case.plan ≡ plan.now → place ≡ case.from + n
        → Reached case n base (W.contents writer.old) sweep.old → Reached case (n + 1) base (W.contents writer.new) sweep.new) }
    ensures err { IfErr result (λ end. (case : Case) (n all : ℕ) (base : Option (List ℕ)) → case.plan ≡ plan.now → place ≡ case.from + n → n < all
        → Reached case n base (W.contents writer.old) sweep.old → Writes case all base (W.contents writer.new) end) }
{
    let Ok(out) = rows_of(alloc, sweep, plan, place) else {
        return Err(End::NoMemory);
    };
    write_all(writer, &out)
}

/// Applies the changes of the places from one on, up to another, and writes their rows.
fn write_places<'a, W: Write>(
    alloc: Global,
    sweep: &mut Sweep<'_>,
    plan: &Plan,
    from: u64,
    to: u64,
    writer: &mut W,
) -> Result<(), End<'a>>
    requires { from ≤ to }
    ensures ok { OnOk result ((case : Case) (base : Option (List ℕ)) → case.plan ≡ plan.now → case.from ≡ from
        → Reached case 0 base (W.contents writer.old) sweep.old → Reached case (to - from) base (W.contents writer.new) sweep.new) }
    ensures err { IfErr result (λ end. (case : Case) (base : Option (List ℕ)) → case.plan ≡ plan.now → case.from ≡ from
        → Reached case 0 base (W.contents writer.old) sweep.old → Writes case (to - from) base (W.contents writer.new) end) }
{
    for place in from..to {
        write_place(alloc, sweep, plan, place, writer)?;
    }
    Ok(())
}

/// Returns the lines of a table on what the runs have executed.
fn sides_of(alloc: Global, sweep: &Sweep<'_>) -> Result<Vec<u8>, AllocError>
    ensures { IfOk result (λ lines. lines.items ≡ sides_told sweep.now) }
{
    let mut digits = Vec::new(alloc);
    push_digits(&mut digits, sweep.table())?;
    let mut lines = Vec::new(alloc);
    push_lines(&mut lines, sweep.range().start, sweep.apart(), &digits)?;
    Ok(lines)
}

/// Returns the end of a table.
fn totals_of(alloc: Global, sweep: &Sweep<'_>) -> Result<Vec<u8>, AllocError>
    ensures { IfOk result (λ out. (first : List ℕ) (met : List Met) → HasMet sweep.now first met
        → table_text first met (sides_told sweep.now) ≡ rows_text first met ++ out.items) }
{
    let lines = sides_of(alloc, sweep)?;
    let mut out = Vec::new(alloc);
    sweep.finish(&lines, &mut out)?;
    Ok(out)
}

/// Writes the rows of the places from one on, up to another, and the end of the table.
pub(crate) fn write_table<'a, W: Write>(
    alloc: Global,
    sweep: &mut Sweep<'_>,
    plan: &Plan,
    from: u64,
    to: u64,
    writer: &mut W,
) -> Result<(), End<'a>>
    requires { from ≤ to }
    ensures { (case : Case) (base : Option (List ℕ)) → case.plan ≡ plan.now → case.from ≡ from
        → Reached case 0 base (W.contents writer.old) sweep.old → Writes case (to - from) base (W.contents writer.new) (end_of result) }
{
    write_places(alloc, sweep, plan, from, to, writer)?;
    let Ok(totals) = totals_of(alloc, sweep) else {
        return Err(End::NoMemory);
    };
    write_all(writer, &totals)
}
