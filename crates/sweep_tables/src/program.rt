//! A sweep of a program with an input and suppressions.
ghost use Rattle.std.specs.Prelude.{◌≡◌, ◌≤◌, ◌-◌, ◌++◌, [], ℕ, List, Option, IfOk, length};
ghost use Rattle.exit_status.specs.Ends.{end_of};
ghost use Rattle.guest_elf.specs.Images.{profile_of};
ghost use Rattle.sweep_plans.specs.Planned.{IsPart, part_from, part_to};
ghost use Rattle.sweep_tables.specs.SidesLines.{range_for};
ghost use Rattle.sweep_tables.specs.Swept.{Case, HasTable, Sweeps, Writes, case_with, head_text};
ghost use Rattle.scenario.specs.Limits.{furthest_step, longest_input};
ghost use Rattle.sweeps.specs.Covered.{HasCovered, range_of};
ghost use Rattle.sweeps.specs.Sweeps.{HasMet, scenario_of, tells_output, unedited_at};
ghost use Rattle.sweeps.specs.Tables.{rows_text};

use crate::head::{Sources, Swept, push_head};
use crate::sides::range_for;
use crate::table::{first_place, write_all, write_table};
use command_line::SweepArgs;
use exit_status::End;
use guest_elf::Image;
use std::alloc::{AllocError, Global};
use std::io::Write;
use suppressions::Suppression;
use sweep_plans::{Plan, Request, plan_of};
use sweeps::{Asked, Sweep};

/// What a sweep reads: the program's file and its image, the text of the suppressions and the suppressions in it, and the input.
#[derive(Drop)]
pub struct Material<'p> {
    pub file: &'p [u8],
    pub image: Image<'p>,
    pub text: &'p [u8],
    pub suppressions: Vec<Suppression>,
    pub input: Vec<u8>,
}

/// Returns the head of a table with the unedited run's outcome after it, and the sweep that has met that run.
fn begin_table<'p>(
    alloc: Global,
    material: Material<'p>,
    swept: Swept<'_>,
    out: &mut Vec<u8>,
) -> Result<Sweep<'p>, AllocError>
    requires short { length material.input.items ≤ longest_input }
    requires near { swept.words.now.step ≤ furthest_step }
    requires empty { out.old.items ≡ [] }
    ensures scenario { IfOk result (λ sweep. scenario_of sweep
        ≡ unedited_at material.entry.image material.entry.input.items material.entry.suppressions.items swept.entry.words.now.step) }
    ensures output { IfOk result (λ sweep. tells_output sweep ≡ swept.entry.words.now.with_output) }
    ensures range { IfOk result (λ sweep. range_of sweep ≡ range_for swept.entry.words.now.with_sides swept.entry.plan.now material.entry.image) }
    ensures covered { IfOk result (λ sweep. HasCovered sweep []) }
    ensures met { IfOk result (λ sweep. (first : List ℕ) × HasMet sweep first []
        × (out.new.items ≡ head_text material.entry.file.now material.entry.input.items material.entry.text.now (profile_of material.entry.image)
        swept.entry.words.now swept.entry.plan.now swept.entry.named swept.entry.part ++ rows_text first [])) }
{
    let Material {
        file,
        image,
        text,
        suppressions,
        input,
    } = material;
    let sources = Sources {
        program: file,
        input: &input,
        suppressions: text,
    };
    let asked = Asked {
        step: swept.words.step,
        with_output: swept.words.with_output,
        range: range_for(swept.words.with_sides, swept.plan, &image),
    };
    push_head(alloc, out, &sources, image.profile(), swept)?;
    Sweep::begin(alloc, image, input, suppressions, asked, out)
}

/// Writes the first lines of a table, then the rows of the places from one on, up to another, and then the end of the table.
fn write_behind<'a, W: Write>(
    alloc: Global,
    first_lines: &[u8],
    sweep: &mut Sweep<'_>,
    plan: &Plan,
    from: u64,
    to: u64,
    writer: &mut W,
) -> Result<(), End<'a>>
    requires { from ≤ to }
    ensures { (case : Case) (first : List ℕ) → case.plan ≡ plan.now → case.from ≡ from → scenario_of sweep.old ≡ case.sc
        → tells_output sweep.old ≡ case.with_output → HasTable case [] sweep.old → HasMet sweep.old first [] → first_lines.now ≡ case.head ++ rows_text first []
        → Writes case (to - from) (W.contents writer.old) (W.contents writer.new) (end_of result) }
{
    write_all(writer, first_lines)?;
    write_table(alloc, sweep, plan, from, to, writer)
}

/// Sweeps the places of a plan that lie in a part, and writes the table.
fn sweep_part<'a, W: Write>(
    alloc: Global,
    material: Material<'_>,
    swept: Swept<'_>,
    writer: &mut W,
) -> Result<(), End<'a>>
    requires short { length material.input.items ≤ longest_input }
    requires near { swept.words.now.step ≤ furthest_step }
    requires part { IsPart swept.part }
    ensures { Writes (case_with material.entry.file.now material.entry.text.now material.entry.image material.entry.input.items material.entry.suppressions.items
        swept.entry.words.now swept.entry.named swept.entry.part swept.entry.plan.now)
        (part_to swept.entry.plan.now swept.entry.part - part_from swept.entry.plan.now swept.entry.part)
        (W.contents writer.old) (W.contents writer.new) (end_of result) }
{
    let Swept { plan, part, .. } = swept;
    let places = plan.places();
    let from = first_place(places, part.index - 1, part.count);
    let to = first_place(places, part.index, part.count);
    let mut out = Vec::new(alloc);
    let Ok(mut sweep) = begin_table(alloc, material, swept, &mut out) else {
        return Err(End::NoMemory);
    };
    write_behind(alloc, &out, &mut sweep, plan, from, to, writer)
}

/// Sweeps a program with an input and suppressions, as a request says, and writes the table.
pub fn sweep_program<'a, W: Write>(
    alloc: Global,
    material: Material<'_>,
    words: &SweepArgs<'a>,
    request: Request,
    writer: &mut W,
) -> Result<(), End<'a>>
    requires short { length material.input.items ≤ longest_input }
    requires near { words.now.step ≤ furthest_step }
    requires part { IsPart request.part }
    ensures { Sweeps material.entry.file.now material.entry.text.now material.entry.image material.entry.input.items material.entry.suppressions.items
        words.now request (W.contents writer.old) (W.contents writer.new) (end_of result) }
{
    let part = request.part;
    let named = request.words;
    let plan = plan_of(
        alloc,
        request,
        &material.image,
        material.input.len() as u32,
        words.step,
    )?;
    let swept = Swept {
        words,
        plan: &plan,
        named,
        part,
    };
    sweep_part(alloc, material, swept, writer)
}
