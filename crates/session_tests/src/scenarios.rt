//! An edited scenario, by one run from step zero, and its outlines.
use guest_elf::{Image, read};
use guest_machine::{Machine, Meter};
use scenario::{Edit, Scenario};
use std::alloc::{AllocError, Global};
use test_support::program;

/// Three words: exit with status 0.
const EXITS: [u32; 3] = [0x05D0_0893, 0x0000_0513, 0x0000_0073];

/// Returns whether the report of a scenario, by one run from step zero, begins with some lines.
fn has_state(alloc: Global, scenario: &Scenario<'_>, front: &[u8]) -> Result<bool, AllocError> {
    let mut text = Vec::new(alloc);
    scenario.report(&mut Meter::new(), &mut text)?;
    Ok(text.starts_with(front))
}

/// The edit that writes `addi a0, x0, 7` over the second word.
const EDIT: Edit = Edit::Patch {
    addr: 0x10004,
    word: 0x0070_0513,
};

/// Returns whether that word, written into a scenario of `EXITS`, shows at step 3.
fn is_written(alloc: Global, scenario: &mut Scenario<'_>) -> Result<bool, AllocError> {
    if scenario.refusal(&EDIT).is_some() {
        return Ok(false);
    }
    scenario.edit(EDIT)?;
    has_state(alloc, scenario, b"step 3\nstate exited 7\n")
}

/// Returns whether it shows, and no longer does after it was dropped.
fn is_written_and_dropped(alloc: Global, scenario: &mut Scenario<'_>) -> Result<bool, AllocError> {
    if !is_written(alloc, scenario)? {
        return Ok(false);
    }
    scenario.drop_word();
    has_state(alloc, scenario, b"step 3\nstate exited 0\n")
}

/// Returns a machine of a scenario without edits, at its step.
fn machine_at(alloc: Global, scenario: &Scenario<'_>) -> Result<Machine, AllocError> {
    let mut meter = Meter::new();
    let mut machine = Machine::start(alloc, scenario.image())?;
    for _ in 0..scenario.step() {
        let (next, _) = machine.step(scenario.setup(), &mut meter)?;
        machine = next;
    }
    Ok(machine)
}

/// Returns whether a scenario without edits has this outline, for a given machine.
fn is_outlined(
    scenario: &Scenario<'_>,
    machine: &Machine,
    with_output: bool,
    want: &[u8],
) -> Result<bool, AllocError> {
    let text = scenario.outline(machine, with_output)?;
    Ok(text.as_slice() == want)
}

/// Returns the same for a machine that is at the scenario's step.
fn has_outline(
    alloc: Global,
    scenario: &Scenario<'_>,
    with_output: bool,
    want: &[u8],
) -> Result<bool, AllocError> {
    let machine = machine_at(alloc, scenario)?;
    is_outlined(scenario, &machine, with_output, want)
}

/// Returns whether the outlines are right at step 0 and at step 3.
fn are_outlines(alloc: Global, scenario: &mut Scenario<'_>) -> Result<bool, AllocError> {
    if !has_outline(alloc, scenario, false, b"running\n")? {
        return Ok(false);
    }
    scenario.choose(3);
    has_outline(alloc, scenario, true, b"exited 0\noutput 0\n")
}

/// Returns whether the outlines are right, and then a word is written and dropped.
fn is_so(alloc: Global, scenario: &mut Scenario<'_>) -> Result<bool, AllocError> {
    if !are_outlines(alloc, scenario)? {
        return Ok(false);
    }
    is_written_and_dropped(alloc, scenario)
}

/// Returns the same for a new scenario on an image.
fn is_so_over(alloc: Global, image: Image<'_>) -> Result<bool, AllocError> {
    let mut scenario = Scenario::begin(alloc, image, Vec::new(alloc), Vec::new(alloc))?;
    is_so(alloc, &mut scenario)
}

/// Returns the same for a file.
fn is_so_on(alloc: Global, file: &[u8]) -> Result<bool, AllocError> {
    match read(alloc, file) {
        Ok(image) => is_so_over(alloc, image),
        Err(_) => Ok(false),
    }
}

/// Returns the same for a new file.
fn is_so_anew(alloc: Global) -> Result<bool, AllocError> {
    let file = program(alloc, &EXITS)?;
    is_so_on(alloc, &file)
}

#[test]
fn outlines_and_a_word_that_is_dropped(rt: HostRuntime) {
    assert!(rt; matches!(is_so_anew(rt.alloc()), Ok(true)));
}
