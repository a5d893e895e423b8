//! The scenario that the options and the files make.
ghost use Rattle.std.specs.Prelude.{◌≡◌, ◌⊎◌, [], IfErr, IfOk, None, OnOk, Some};
ghost use Rattle.scenario.specs.Edits.{IsTaken, row};
ghost use Rattle.suppressions.specs.Words.{leak_kinds};
ghost use Rattle.command_line.specs.Orders.{input_path};
ghost use Rattle.exit_status.specs.declared.ends.End.TheVariants.{NoMemory, Usage};
ghost use Rattle.exit_status.specs.declared.exec_ends.ExecEnd.TheVariants.{Early};
ghost use Rattle.test_runs.specs.Prepared.{KeepsRun, IsEdited, IsNoPatch, IsOptionRefused, IsPatched, IsPatchedBy, Makes, MakesFrom, MakesNone, MakesOr, IsPatchedIn, NoPatch, NoPatchIn, NotFrom, option_edits, patch_in};
ghost use Rattle.texts.specs.Parts.{parts};
ghost use Rattle.test_runs.specs.Executed.{NoKinds};

use command_line::{ExecArgs, Order};
use commands::{Edit, number};
use exit_status::{End, ExecEnd};
use guest_elf::Image;
use program_files::{Files, read_input, read_suppressions};
use scenario::Scenario;
use std::alloc::{AllocError, Global};
use suppressions::LeakKinds;
use texts::Parts;

/// Returns the leak kinds of a list.
pub(crate) fn kinds_of<'a>(text: &'a str) -> Result<LeakKinds, ExecEnd<'a>>
    ensures ok { IfOk result (λ kinds. leak_kinds text.entry.now ≡ Some kinds) }
    ensures err { IfErr result (NoKinds text.entry) }
{
    match LeakKinds::from_list(text.as_bytes()) {
        Some(kinds) => Ok(kinds),
        None => Err(ExecEnd::BadKinds(text)),
    }
}

/// Returns the patch of a text `ADDR=WORD`, if it is one.
#[tactic(auto, unfolding(crate::specs::Prepared::patch_of))]
fn patch_in(text: &[u8]) -> Option<Edit>
    ensures { result ≡ patch_in text.now }
{
    let mut fields = Parts::new(text, b'=');
    let addr = fields.next()?;
    let word = fields.next()?;
    if fields.next().is_some() {
        return None;
    }
    let addr = number(addr)?;
    let word = number(word)?;
    Some(Edit::Patch { addr, word })
}

/// Makes an edit, unless it is refused. Returns whether it was made.
fn edit(scenario: &mut Scenario, edit: Edit) -> Result<bool, AllocError>
    ensures ok { IfOk result (λ made. MakesOr made edit scenario.old scenario.new) }
{
    if scenario.refusal(&edit).is_some() {
        return Ok(false);
    }
    scenario.edit(edit)?;
    Ok(true)
}

/// Makes an edit that an option asks for. One that is refused is a fault of the command line.
fn choose<'a>(scenario: &mut Scenario, chosen: Edit) -> Result<(), ExecEnd<'a>>
    ensures ok { OnOk result (IsTaken scenario.old chosen × (scenario.new ≡ (row scenario.old chosen).after)) }
    ensures err { IfErr result (λ end. (end ≡ Early NoMemory) ⊎ ((IsTaken scenario.old chosen → ⊥) × (end ≡ Early Usage))) }
{
    match edit(scenario, chosen) {
        Ok(true) => Ok(()),
        Ok(false) => Err(ExecEnd::Early(End::Usage)),
        Err(_) => Err(ExecEnd::Early(End::NoMemory)),
    }
}

/// Makes the edits that the options ask for.
fn choose_all<'a>(
    scenario: &mut Scenario,
    asked: &ExecArgs,
    kinds: LeakKinds,
) -> Result<(), ExecEnd<'a>>
    ensures ok { OnOk result (IsEdited (option_edits asked.now kinds) scenario.old scenario.new) }
    ensures err { IfErr result (λ end. (end ≡ Early NoMemory) ⊎ (IsOptionRefused (option_edits asked.now kinds) scenario.old × (end ≡ Early Usage))) }
    ensures kept { OnOk result (KeepsRun scenario.old scenario.new) }
{
    choose(scenario, Edit::Callers(asked.callers))?;
    choose(scenario, Edit::Redzone(asked.redzone))?;
    choose(scenario, Edit::Volume(asked.queue))?;
    choose(scenario, Edit::Show(kinds))
}

/// Makes one patch of a list.
fn patch<'a>(scenario: &mut Scenario, list: &'a str, text: &[u8]) -> Result<(), ExecEnd<'a>>
    ensures ok { OnOk result (IsPatchedBy text.now scenario.old scenario.new) }
    ensures err { IfErr result (IsNoPatch list.now text.now scenario.old) }
{
    let Some(chosen) = patch_in(text) else {
        return Err(ExecEnd::BadPatch(list));
    };
    match edit(scenario, chosen) {
        Ok(true) => Ok(()),
        Ok(false) => Err(ExecEnd::PatchRefused(list)),
        Err(_) => Err(ExecEnd::Early(End::NoMemory)),
    }
}

/// Makes the patches of a list, in their order.
fn patch_all<'a>(scenario: &mut Scenario, list: &'a str) -> Result<(), ExecEnd<'a>>
    ensures ok { OnOk result (IsPatched (parts 44 list.now) scenario.old scenario.new) }
    ensures err { IfErr result (NoPatch list.now (parts 44 list.now) scenario.old) }
    ensures kept { OnOk result (KeepsRun scenario.old scenario.new) }
{
    let mut texts = Parts::new(list.as_bytes(), b',');
    while let Some(text) = texts.next() {
        patch(scenario, list, text)?;
    }
    Ok(())
}

/// Makes the patches of a list, if there is one.
fn patch_in_list<'a>(scenario: &mut Scenario, list: Option<&'a str>) -> Result<(), ExecEnd<'a>>
    ensures ok { OnOk result (IsPatchedIn list.entry scenario.old scenario.new) }
    ensures err { IfErr result (NoPatchIn list.entry scenario.old) }
    ensures kept { OnOk result (KeepsRun scenario.old scenario.new) }
{
    match list {
        Some(list) => patch_all(scenario, list),
        None => Ok(()),
    }
}

/// Edits a scenario by options and patches.
fn edit_all<'a>(
    scenario: &mut Scenario,
    asked: &ExecArgs<'a>,
    kinds: LeakKinds,
) -> Result<(), ExecEnd<'a>>
    ensures ok { OnOk result (MakesFrom asked.now kinds scenario.old scenario.new) }
    ensures err { IfErr result (λ end. (end ≡ Early NoMemory) ⊎ NotFrom asked.now kinds scenario.old end) }
    ensures kept { OnOk result (KeepsRun scenario.old scenario.new) }
{
    scenario.choose(asked.step);
    choose_all(scenario, asked, kinds)?;
    patch_in_list(scenario, asked.patches)
}

/// Reads the suppressions and the input, and edits the scenario that they make with a program.
pub(crate) fn prepare<'a, 'b, F: Files>(
    alloc: Global,
    image: Image<'b>,
    order: &Order<'a>,
    asked: &ExecArgs<'a>,
    kinds: LeakKinds,
    files: &F,
) -> Result<Scenario<'b>, ExecEnd<'a>>
    ensures ok { IfOk result (Makes (F.gives files.now) order.now asked.now kinds image.entry) }
    ensures err { IfErr result (MakesNone (F.gives files.now) order.now asked.now kinds image.entry) }
    ensures marks { IfOk result (λ scenario. scenario.marks ≡ []) }
    ensures empty { input_path order.now ≡ None → IfOk result (λ scenario. scenario.setup.input ≡ []) }
{
    let suppressions = read_suppressions(alloc, files, order.suppressions)?;
    let input = read_input(alloc, files, order.input)?;
    let Ok(mut scenario) = Scenario::begin(alloc, image, input, suppressions) else {
        return Err(ExecEnd::Early(End::NoMemory));
    };
    edit_all(&mut scenario, asked, kinds)?;
    Ok(scenario)
}
