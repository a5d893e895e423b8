//! How a sweep begins: with an unedited scenario, and the outcome of its run.
ghost use Rattle.std.specs.Prelude.{◌≡◌, ◌≤◌, ◌++◌, [], ℕ, List, IfOk, length};
ghost use Rattle.scenario.specs.Limits.{furthest_step, longest_input};
ghost use Rattle.sweeps.specs.Sweeps.{Counted, unedited_at};
ghost use Rattle.sweeps.specs.Tables.{rows_text};

use crate::counting::Counts;
use crate::held_run::HeldRun;
use crate::recall::{Recall, SharedOutcome};
use crate::rows::push_first;
use guest_elf::Image;
use scenario::{Scenario, limit_for};
use std::alloc::{AllocError, Global};
use suppressions::Suppression;
use texts::Tallies;

/// Returns the scenario of a program with an input and suppressions, without edits and with a step chosen.
pub(crate) fn scenario_at<'a>(
    alloc: Global,
    image: Image<'a>,
    input: Vec<u8>,
    suppressions: Vec<Suppression>,
    step: u32,
) -> Result<Scenario<'a>, AllocError>
    requires short { length input.items ≤ longest_input }
    requires near { step ≤ furthest_step }
    ensures { IfOk result (λ scenario. scenario ≡ unedited_at image.entry input.items suppressions.items step) }
{
    let mut scenario = Scenario::begin_within(alloc, image, input, suppressions, limit_for(step))?;
    scenario.choose(step);
    Ok(scenario)
}

/// Counts the outcome of the unedited run, before any edit, and appends it.
pub(crate) fn count_unedited(
    alloc: Global,
    run: &mut HeldRun,
    with_output: bool,
    out: &mut Vec<u8>,
) -> Result<Counts, AllocError>
    ensures same { run.new.scenario ≡ run.old.scenario }
    ensures counted { IfOk result (λ counts. (first : List ℕ) × Counted counts with_output run.old.scenario first []
        × (out.new.items ≡ out.old.items ++ rows_text first [])) }
{
    let first = run.outline(with_output)?;
    push_first(out, &first)?;
    let copy = Vec::from_slice(alloc, &first)?;
    let unedited = SharedOutcome::new(alloc, copy)?;
    let tallies = Tallies::begin(alloc, first)?;
    Ok(Counts {
        tallies,
        edits: 0,
        steps: 0,
        recall: Recall::begin(alloc, unedited),
        course: None,
    })
}
