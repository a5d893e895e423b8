//! The report of a machine.
ghost use Rattle.std.specs.Prelude.{◌≡◌, ◌++◌, ◌<◌, ◌≤◌, IfOk, List, OnOk, OnErr, length};
ghost use Rattle.call_stacks.specs.Frames.{longest_trace};
ghost use Rattle.error_events.specs.Shown.{groups_of};
ghost use Rattle.error_events.specs.declared.event.Group.{Group};
ghost use Rattle.guest_machine.specs.State.{State};
ghost use Rattle.guest_machine.specs.Shows.{Shows};
ghost use Rattle.std.specs.List.{flat_map};
ghost use Rattle.report_lines.specs.Lines.{error_sum, group_lines, summary_line};
ghost use Rattle.replay_report.specs.LeakLines.{leak_section};
ghost use Rattle.replay_report.specs.Report.{head_lines, report_text, IsReport, AppendsReport};

use crate::filtering::split_groups;
use crate::leak_lines::push_leaks;
use crate::options::{Options, View};
use error_events::Groups;
use guest_elf::Image;
use guest_machine::Machine;
use leak_search::{LeakRecord, search};
use report_lines::{
    ErrorSum, error_sum, push_groups, push_input, push_output, push_state, push_step, push_summary,
};
use std::alloc::{AllocError, Global};
use suppressions::Suppression;

/// What a report is of: a machine at a step, and the number of bytes of its input.
#[derive(Clone, Copy)]
struct Moment<'a> {
    machine: &'a Machine,
    step: u32,
    input_len: u64,
}

/// Appends the first lines of a report.
#[tactic(auto, unfolding(crate::specs::Report::head_lines), using(std::proofs::Common::append_assoc))]
fn push_head(out: &mut Vec<u8>, moment: &Moment) -> Result<(), AllocError>
    ensures { OnOk result ((s : State) → Shows moment.now.machine.now s
        → out.new.items ≡ out.old.items ++ head_lines s moment.now.step moment.now.input_len) }
{
    let machine = moment.machine;
    push_step(out, moment.step)?;
    push_state(out, machine.status(), machine.pc())?;
    push_input(out, machine.position(), moment.input_len)?;
    push_output(out, machine.output_len())
}

/// Appends the lines of a report after its first, with these groups of errors and these records of the live blocks.
fn push_findings(
    alloc: Global,
    out: &mut Vec<u8>,
    view: &View,
    shown: &Groups,
    hidden: ErrorSum,
    records: &[LeakRecord],
) -> Result<(), AllocError>
    requires { 0 < view.now.options.now.callers }
    ensures { OnOk result ((hs : List Group) → hidden ≡ error_sum hs
        → out.new.items ≡ out.old.items ++ (flat_map (group_lines view.now.image.now view.now.options.now.callers) (groups_of shown.now)
        ++ leak_section view.now.image.now view.now.suppressions.now view.now.options.now records.now ++ summary_line (groups_of shown.now) hs)) }
{
    push_groups(out, view.image, view.options.callers, shown)?;
    push_leaks(alloc, out, view, records)?;
    push_summary(out, error_sum(shown), hidden)
}

/// Appends the lines of a report, with these records of the live blocks.
fn push_report(
    alloc: Global,
    out: &mut Vec<u8>,
    moment: &Moment,
    view: &View,
    records: &[LeakRecord],
) -> Result<(), AllocError>
    requires { 0 < view.now.options.now.callers }
    ensures { OnOk result ((s : State) → Shows moment.now.machine.now s → out.new.items ≡ out.old.items
        ++ report_text s view.now.image.now view.now.suppressions.now view.now.options.now moment.now.step moment.now.input_len records.now) }
{
    push_head(out, moment)?;
    let (shown, hidden) = split_groups(
        alloc,
        moment.machine,
        view.image,
        view.suppressions,
        view.options.callers,
    )?;
    push_findings(alloc, out, view, &shown, hidden, records)
}

/// Returns the report.
fn report_of(alloc: Global, moment: &Moment, view: &View) -> Result<Vec<u8>, AllocError>
    requires { 0 < view.now.options.now.callers }
    ensures { IfOk result (λ text. (s : State) → Shows moment.now.machine.now s
        → IsReport s view.now.image.now view.now.suppressions.now view.now.options.now moment.now.step moment.now.input_len text.items) }
{
    let records = search(alloc, moment.machine)?;
    let mut text = Vec::new(alloc);
    push_report(alloc, &mut text, moment, view, &records)?;
    Ok(text)
}

/// Appends a text; doesn't copy it if nothing is before it.
fn append(out: &mut Vec<u8>, text: Vec<u8>) -> Result<(), AllocError>
    ensures ok { OnOk result (out.new.items ≡ out.old.items ++ text.items) }
    ensures err { OnErr result (out.new.items ≡ out.old.items) }
{
    if out.is_empty() {
        *out = text;
        return Ok(());
    }
    out.extend_from_slice(&text)?;
    Ok(())
}

/// Appends the report of a machine at a step, for an input of `input_len` bytes, with names from the image. `callers` of the options is
/// from 1 to 24. Errors and blocks that a suppression matches are only counted.
///
/// # Errors
///
/// Fails if memory runs out; the vector is then as it was before the call.
pub fn render(
    alloc: Global,
    machine: &Machine,
    image: &Image,
    suppressions: &[Suppression],
    options: &Options,
    step: u32,
    input_len: u64,
    out: &mut Vec<u8>,
) -> Result<(), AllocError>
    requires some { 1 ≤ options.now.callers }
    requires few { options.now.callers ≤ longest_trace }
    ensures ok { OnOk result ((s : State) → Shows machine.now s
        → AppendsReport (IsReport s image.now suppressions.now options.now step input_len) out.old.items out.new.items) }
    ensures err { OnErr result (out.new.items ≡ out.old.items) }
{
    let moment = Moment {
        machine,
        step,
        input_len,
    };
    let view = View {
        image,
        suppressions,
        options,
    };
    let text = report_of(alloc, &moment, &view)?;
    append(out, text)
}
