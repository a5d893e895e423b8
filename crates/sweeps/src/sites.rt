//! What is at a place, and where the runs continue that are changed there.
ghost use Rattle.std.specs.Prelude.{◌≡◌, ◌≤◌, ◌<◌, ◌+◌, ◌^◌, ℕ, IfOk, MatchOption, None, Some, length, true};
ghost use Rattle.checkpoints.specs.Edits.{IsRightForRun};
ghost use Rattle.checkpoints.specs.Forks.{IsForkFor};
ghost use Rattle.checkpoints.specs.Trails.{LoadsAs, loaded_of};
ghost use Rattle.checkpoints.specs.Words.{IsCodeIn};
ghost use Rattle.checkpoints.specs.declared.effect.Effect.TheVariants.{After, Input};
ghost use Rattle.guest_machine.specs.Shows.{Shows};
ghost use Rattle.guest_machine.specs.State.{State};
ghost use Rattle.scenario.specs.Scenario.{first_state, run_of, limit_of};
ghost use Rattle.sweeps.specs.Sites.{Continues, ForksEachCode, IsFoundAt, IsLastFork};
ghost use Rattle.sweeps.specs.Standing.{is_half_next, is_in_code, standing_byte, standing_half, standing_in, standing_step, standing_word, state_before};

use crate::held_run::HeldRun;
use checkpoints::Fork;
use guest_machine::{Machine, Status};
use scenario::{Edit, Scenario};
use std::alloc::AllocError;
use sweep_plans::{Plan, Range, Standing, SweepPlace};

/// What is at a place, and the machine from which each run continues that is changed there.
#[derive(Drop)]
pub(crate) struct Site {
    pub(crate) standing: Standing,
    pub(crate) fork: Fork,
}

/// What is known of the unedited run before it is executed: its input, and the machine before step 0.
#[derive(Clone, Copy)]
pub(crate) struct Origin<'a> {
    pub(crate) input: &'a [u8],
    pub(crate) start: &'a Machine,
}

/// Returns the value at a byte of an input, if there is one.
#[tactic(auto, unfolding(crate::specs::Standing::standing_byte))]
fn standing_byte(scenario: &Scenario, input: &[u8], offset: u32) -> Option<Standing>
    requires { input.now ≡ scenario.now.setup.input }
    ensures { result ≡ standing_byte scenario.now offset }
{
    let byte = *input.get(offset as usize)?;
    Some(Standing::Byte { offset, byte })
}

/// Returns the value at a word of the program, if it is loaded whole.
#[tactic(auto, unfolding(crate::specs::Standing::standing_word))]
fn standing_word(scenario: &Scenario, start: &Machine, addr: u32) -> Option<Standing>
    requires { Shows start.now (first_state scenario.now) }
    ensures { result ≡ standing_word scenario.now addr }
{
    let nothing = Edit::Patch { addr, word: 0 };
    if scenario.refusal(&nothing).is_some() {
        return None;
    }
    let word = start.memory().load(addr, 4).value;
    Some(Standing::Word { addr, word })
}

/// Returns the value at an instruction of 16 bits, if there are some and it is loaded whole.
#[tactic(auto, unfolding(crate::specs::Standing::standing_half))]
fn standing_half(scenario: &Scenario, start: &Machine, addr: u32) -> Option<Standing>
    requires { Shows start.now (first_state scenario.now) }
    ensures { result ≡ standing_half scenario.now addr }
{
    let nothing = Edit::PatchHalf { addr, half: 0 };
    if scenario.refusal(&nothing).is_some() {
        return None;
    }
    let half = start.memory().load(addr, 2).value as u16;
    Some(Standing::Half { addr, half })
}

/// Returns whether an address is in the code that was named.
pub(crate) fn is_in_code(code: Option<Range>, pc: u32) -> bool
    ensures { result ≡ is_in_code code pc }
{
    match code {
        None => true,
        Some(range) => range.first <= pc && pc <= range.last.unwrap_or(u32::MAX),
    }
}

/// Returns whether the next instruction has 16 bits, as a fetch decides it. No byte is read if none has.
#[tactic(auto, unfolding(guest_elf::specs::Profiles::has_halves, guest_elf::specs::Profiles::is_half))]
fn is_half_next(machine: &Machine) -> bool
    ensures { (s : State) → Shows machine.now s → result ≡ is_half_next s }
{
    let isa = machine.isa();
    isa.has_halves() && isa.is_half(machine.memory().load(machine.pc(), 2).value)
}

/// Returns what is at a step below the chosen one, if a fault may strike the machine before it.
#[tactic(auto, unfolding(crate::specs::Standing::standing_step))]
pub(crate) fn standing_step(
    scenario: &Scenario,
    machine: &Machine,
    code: Option<Range>,
    step: u32,
) -> Option<Standing>
    requires below { step < scenario.now.step }
    requires shows { Shows machine.now (state_before scenario.now step) }
    ensures { result ≡ standing_step scenario.now code step }
{
    let pc = machine.pc();
    let is_running = matches!(machine.status(), Status::Running);
    if is_running && is_in_code(code, pc) && scenario.setup().hooks.at(pc).is_none() {
        let is_half = is_half_next(machine);
        Some(Standing::Step { step, pc, is_half })
    } else {
        None
    }
}

/// Returns the fork before a step, given one before that step or the step before it.
fn next_fork(scenario: &Scenario, last_fork: &Fork, step: u32) -> Result<Fork, AllocError>
    requires within { step ≤ scenario.now.step }
    requires before { last_fork.now.step ≤ step }
    requires last_fork { IsLastFork scenario.now (Some last_fork.now) }
    ensures fork { IfOk result (λ fork. IsForkFor (After step) (run_of scenario.now) scenario.now.step fork) }
    ensures step { IfOk result (λ fork. fork.step ≡ step) }
{
    last_fork.go_on(step, scenario.setup(), scenario.marks())
}

/// Returns the machine from which each run continues that is struck at a step: from the last fork, if that is before this step or the step
/// before it, and else from the trail.
fn step_fork(run: &mut HeldRun, last_fork: &Option<Fork>, step: u32) -> Result<Fork, AllocError>
    requires near { run.old.scenario.step ≤ limit_of run.old.scenario }
    requires within { step ≤ run.old.scenario.step }
    requires last_fork { IsLastFork run.old.scenario last_fork.now }
    ensures fork { IfOk result (λ fork. IsForkFor (After step) (run_of run.old.scenario) run.old.scenario.step fork) }
    ensures step { IfOk result (λ fork. fork.step ≡ step) }
    ensures same { run.new.scenario ≡ run.old.scenario }
{
    if let Some(last) = last_fork
        && last.step <= step
        && step - last.step <= 1
    {
        return next_fork(&run.scenario, last, step);
    }
    run.fork_at_step(step)
}

/// Finds a byte.
fn find_byte(run: &mut HeldRun, input: &[u8], offset: u32) -> Result<Option<Site>, AllocError>
    requires near { run.old.scenario.step ≤ limit_of run.old.scenario }
    requires input { input.now ≡ run.old.scenario.setup.input }
    ensures found { IfOk result (IsFoundAt run.old.scenario (standing_byte run.old.scenario offset)) }
    ensures same { run.new.scenario ≡ run.old.scenario }
{
    let Some(standing) = standing_byte(&run.scenario, input, offset) else {
        return Ok(None);
    };
    let fork = run.fork_at_byte(offset)?;
    Ok(Some(Site { standing, fork }))
}

/// Finds a word.
fn find_word(run: &mut HeldRun, start: &Machine, addr: u32) -> Result<Option<Site>, AllocError>
    requires near { run.old.scenario.step ≤ limit_of run.old.scenario }
    requires starts { Shows start.now (first_state run.old.scenario) }
    ensures found { IfOk result (IsFoundAt run.old.scenario (standing_word run.old.scenario addr)) }
    ensures same { run.new.scenario ≡ run.old.scenario }
{
    let Some(standing) = standing_word(&run.scenario, start, addr) else {
        return Ok(None);
    };
    let fork = run.fork_at_code(addr, 4)?;
    Ok(Some(Site { standing, fork }))
}

/// Finds an instruction of 16 bits.
fn find_half(run: &mut HeldRun, start: &Machine, addr: u32) -> Result<Option<Site>, AllocError>
    requires near { run.old.scenario.step ≤ limit_of run.old.scenario }
    requires starts { Shows start.now (first_state run.old.scenario) }
    ensures found { IfOk result (IsFoundAt run.old.scenario (standing_half run.old.scenario addr)) }
    ensures same { run.new.scenario ≡ run.old.scenario }
{
    let Some(standing) = standing_half(&run.scenario, start, addr) else {
        return Ok(None);
    };
    let fork = run.fork_at_code(addr, 2)?;
    Ok(Some(Site { standing, fork }))
}

/// Finds a step. If it isn't struck, its fork is the last one then.
fn find_step(
    run: &mut HeldRun,
    last_fork: &mut Option<Fork>,
    code: Option<Range>,
    step: u32,
) -> Result<Option<Site>, AllocError>
    requires near { run.old.scenario.step ≤ limit_of run.old.scenario }
    requires last_fork { IsLastFork run.old.scenario last_fork.old }
    ensures found { IfOk result (IsFoundAt run.old.scenario (standing_step run.old.scenario code step)) }
    ensures same { run.new.scenario ≡ run.old.scenario }
    ensures last_fork { IsLastFork run.old.scenario last_fork.new }
{
    if step >= run.scenario.step() {
        return Ok(None);
    }
    let fork = step_fork(run, last_fork, step)?;
    let Some(standing) = standing_step(&run.scenario, &fork.machine, code, step) else {
        *last_fork = Some(fork);
        return Ok(None);
    };
    Ok(Some(Site { standing, fork }))
}

/// Has the fork of a site at a step be the last one.
pub(crate) fn keep_last_fork(scenario: &Scenario, last_fork: &mut Option<Fork>, site: Site)
    requires last_fork { IsLastFork scenario.now last_fork.old }
    requires fork { Continues scenario.now site.standing site.fork }
    ensures { IsLastFork scenario.now last_fork.new }
{
    let _step = scenario.step();
    if let Standing::Step { .. } = site.standing {
        *last_fork = Some(site.fork);
    }
}

/// Returns what is at a place, with the machine from which each run continues that is changed there, if there is something. The fork of the
/// last step, if there is one, may save steps.
pub(crate) fn find(
    run: &mut HeldRun,
    last_fork: &mut Option<Fork>,
    origin: &Origin<'_>,
    plan: &Plan,
    place: SweepPlace,
) -> Result<Option<Site>, AllocError>
    requires near { run.old.scenario.step ≤ limit_of run.old.scenario }
    requires input { origin.now.input.now ≡ run.old.scenario.setup.input }
    requires starts { Shows origin.now.start.now (first_state run.old.scenario) }
    requires last_fork { IsLastFork run.old.scenario last_fork.old }
    ensures found { IfOk result (IsFoundAt run.old.scenario (standing_in run.old.scenario plan.now place)) }
    ensures same { run.new.scenario ≡ run.old.scenario }
    ensures last_fork { IsLastFork run.old.scenario last_fork.new }
{
    match place {
        SweepPlace::Byte(offset) => find_byte(run, origin.input, offset),
        SweepPlace::Word(addr) => find_word(run, origin.start, addr),
        SweepPlace::Half(addr) => find_half(run, origin.start, addr),
        SweepPlace::Step(step) => find_step(run, last_fork, plan.code, step),
        SweepPlace::Nowhere => Ok(None),
    }
}
