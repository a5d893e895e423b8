//! The arguments of the command line, and the order that they give.
ghost use Rattle.std.specs.Prelude.{◌≡◌, IfErr, IfOk, IfSome, IsSomeAnd, false, map, string_bytes, true};
ghost use Rattle.clap.specs.Words.{FailsBy, app_of, fault_of, found_of, kind_of, rows_of, rule_of, subcommand_rows_of, takes};
ghost use Rattle.clap.specs.declared.builder.command.Command.TheViews.{out-Command};
ghost use Rattle.command_line.specs.Orders.{IsCertifyOf, IsOrderFor, IsOrderOf, IsProfileOf, IsStepOf, IsSweepOf, IsTaskOf, certify_command, certify_of_step, command_line, default_option, file_argument, heap_option, input_command, isa_option, look_command, option, output_flag, program_command, run_command, stack_option, step_option, sides_flag, sweep_command, sweep_of_bytes, sweep_of_flags, sweep_of_steps, sweep_of_words, with_certify, with_limits, with_look, with_profile, with_run, with_session, with_sweep, with_tries};

use crate::exec::{default_number, exec_command, exec_of, number_in, number_option};
use crate::help::{
    ABOUT, AFTER_CERTIFY, AFTER_LOOK, AFTER_RUN, AFTER_SESSION, AFTER_SWEEP, AFTER_TRIES, CERTIFY,
    LOOK, RUN, SESSION, SWEEP, TRIES,
};
use crate::order::{Action, CertifyArgs, Order, ProfileArgs, SweepArgs, Task};
use clap::error::ErrorKind;
use clap::{Arg, ArgAction, ArgMatches, Command, Error, value_parser};
use std::alloc::{AllocError, Global};

/// The greatest step of a report.
pub const MOST_STEPS: u32 = 4_194_304;

/// The greatest step that may be named for a session, a sweep or a verdict.
pub const FURTHEST_STEP: u32 = 2_147_483_647;

/// The program's file, which is required.
fn file_argument<'a>(alloc: Global) -> Arg<'a>
    ensures rule { rule_of result ≡ file_argument }
    ensures local { result.global ≡ false }
{
    Arg::new(alloc, "FILE").required(true).help(
        "A static ELF32 program, for RV32IM unless --isa names another set",
    )
}

/// An option with a value, under its long name.
pub(crate) fn option<'a>(alloc: Global, name: &'a str, value: &'a str, help: &'a str) -> Arg<'a>
    ensures rule { rule_of result ≡ option name.entry.now }
    ensures local { result.global ≡ false }
{
    Arg::new(alloc, name)
        .long(name)
        .value_name(value)
        .help(help)
}

/// An option with a value, and a default for it.
pub(crate) fn default_option<'a>(
    alloc: Global,
    name: &'a str,
    value: &'a str,
    default: &'a str,
    help: &'a str,
) -> Arg<'a>
    ensures rule { rule_of result ≡ default_option name.entry.now default.entry.now }
    ensures local { result.global ≡ false }
{
    option(alloc, name, value, help).default_value(default)
}

/// The option for the instruction set.
fn isa_option<'a>(alloc: Global) -> Arg<'a>
    ensures rule { rule_of result ≡ isa_option }
    ensures local { result.global ≡ false }
{
    let help =
        "The instruction set: rv32im, rv32imc with 16-bit instructions and control registers, or rv32imac with atomic ones too";
    default_option(alloc, "isa", "NAME", "rv32im", help)
}

/// The option for the heap's region.
fn heap_option<'a>(alloc: Global) -> Arg<'a>
    ensures rule { rule_of result ≡ heap_option }
    ensures local { result.global ≡ false }
{
    let help = "Where the heap's 512 MiB begin: a multiple of 0x10000000, from there to 0xd0000000";
    default_option(alloc, "heap-region", "BEGIN", "0x40000000", help)
}

/// The option for the stack's region.
fn stack_option<'a>(alloc: Global) -> Arg<'a>
    ensures rule { rule_of result ≡ stack_option }
    ensures local { result.global ≡ false }
{
    let help =
        "The stack's region, from A up to, but not including, B: multiples of 4096, at least 65536 apart";
    let usual = "0x7f000000..0x80000000";
    default_option(alloc, "stack-region", "A..B", usual, help)
}

/// A command, with the options for what its program's file is read for.
fn with_profile<'a>(alloc: Global, command: Command<'a>) -> Result<Command<'a>, AllocError>
    ensures shape { IfOk result (λ longer. app_of longer ≡ with_profile (app_of command.entry)) }
    ensures globals { IfOk result (λ longer. (out-Command longer).has_globals ≡ (out-Command command.entry).has_globals) }
{
    let command = command.arg(isa_option(alloc))?;
    let command = command.arg(heap_option(alloc))?;
    command.arg(stack_option(alloc))
}

/// A command, with the options for how many bytes calls move.
fn with_limits<'a>(alloc: Global, command: Command<'a>) -> Result<Command<'a>, AllocError>
    ensures shape { IfOk result (λ longer. app_of longer ≡ with_limits (app_of command.entry)) }
    ensures globals { IfOk result (λ longer. (out-Command longer).has_globals ≡ (out-Command command.entry).has_globals) }
{
    let moved = "The most bytes that one read or write moves: 1 to 2147479552; 4096 without it";
    let command = command.arg(option(alloc, "most-moved", "N", moved))?;
    let output =
        "The most bytes that the program can write in all, or none for no limit; 65536 without it";
    command.arg(option(alloc, "most-output", "N", output))
}

/// What the help says of an input, unless a command has another one without it.
const INPUT: &str = "A file with the bytes that the program can read; none without it";

/// A command on a program, with an input, of which its help says this, and with what its file is read for.
fn input_command<'a>(
    alloc: Global,
    name: &'a str,
    about: &'a str,
    after: &'a str,
    input: &'a str,
) -> Result<Command<'a>, AllocError>
    ensures shape { IfOk result (λ command. app_of command ≡ input_command name.entry.now) }
    ensures globals { IfOk result (λ command. (out-Command command).has_globals ≡ false) }
{
    let command = Command::new(alloc, name).about(about).after_help(after);
    let command = command.arg(file_argument(alloc))?;
    let command = command.arg(option(alloc, "input", "F", input))?;
    with_profile(alloc, command)
}

/// A command on a program, with an input, of which its help says this, with what its file is read for, and suppressions.
pub(crate) fn program_command<'a>(
    alloc: Global,
    name: &'a str,
    about: &'a str,
    after: &'a str,
    input: &'a str,
) -> Result<Command<'a>, AllocError>
    ensures shape { IfOk result (λ command. app_of command ≡ program_command name.entry.now) }
    ensures globals { IfOk result (λ command. (out-Command command).has_globals ≡ false) }
{
    let command = input_command(alloc, name, about, after, input)?;
    let rules = "A file of suppressions, in Valgrind's form";
    command.arg(option(alloc, "supp", "F", rules))
}

/// The step of `run`.
fn step_argument<'a>(alloc: Global) -> Arg<'a>
    ensures rule { rule_of result ≡ step_option }
    ensures local { result.global ≡ false }
{
    let help = "The step to report at, from 0 to 4194304";
    option(alloc, "step", "N", help)
        .value_parser(value_parser!(u32).range(0..=i64::from(MOST_STEPS)))
        .default_value("1048576")
}

/// The command `run`.
fn run_command<'a>(alloc: Global) -> Result<Command<'a>, AllocError>
    ensures shape { IfOk result (λ command. app_of command ≡ run_command) }
    ensures globals { IfOk result (λ command. (out-Command command).has_globals ≡ false) }
{
    program_command(alloc, "run", RUN, AFTER_RUN, INPUT)?.arg(step_argument(alloc))
}

/// The command line with only `run`.
fn with_run<'a>(alloc: Global) -> Result<Command<'a>, AllocError>
    ensures { IfOk result (λ command. app_of command ≡ with_run) }
{
    let run = run_command(alloc)?;
    Command::new(alloc, "replaycheck")
        .version("1.0.0")
        .about(ABOUT)
        .subcommand_required(true)
        .subcommand(run)
}

/// The command line with `run` and `session`.
fn with_session<'a>(alloc: Global) -> Result<Command<'a>, AllocError>
    ensures { IfOk result (λ command. app_of command ≡ with_session) }
{
    let session = program_command(alloc, "session", SESSION, AFTER_SESSION, INPUT)?;
    with_run(alloc)?.subcommand(session)
}

/// A command for a session that can be looked at.
fn look_command<'a>(
    alloc: Global,
    name: &'a str,
    about: &'a str,
    after: &'a str,
) -> Result<Command<'a>, AllocError>
    ensures shape { IfOk result (λ command. app_of command ≡ look_command name.entry.now) }
    ensures globals { IfOk result (λ command. (out-Command command).has_globals ≡ false) }
{
    let command = program_command(alloc, name, about, after, INPUT)?;
    let command = with_limits(alloc, command)?;
    let limit = "The greatest step of goto and the like, from 1 to 2147483647: 4194304 without it";
    command.arg(number_option(alloc, "limit", 1, FURTHEST_STEP, limit))
}

/// The command line with `run`, `session` and `look`.
fn with_look<'a>(alloc: Global) -> Result<Command<'a>, AllocError>
    ensures { IfOk result (λ command. app_of command ≡ with_look) }
{
    let look = look_command(alloc, "look", LOOK, AFTER_LOOK)?;
    with_session(alloc)?.subcommand(look)
}

/// The command line with `run`, `session`, `look` and `tries`.
fn with_tries<'a>(alloc: Global) -> Result<Command<'a>, AllocError>
    ensures { IfOk result (λ command. app_of command ≡ with_tries) }
{
    let tries = look_command(alloc, "tries", TRIES, AFTER_TRIES)?;
    with_look(alloc)?.subcommand(tries)
}

/// The flag of `sweep` for longer outcomes.
fn output_flag<'a>(alloc: Global) -> Arg<'a>
    ensures rule { rule_of result ≡ output_flag }
    ensures local { result.global ≡ false }
{
    Arg::new(alloc, "with-output")
        .long("with-output")
        .action(ArgAction::SetTrue)
        .help("Has each outcome tell how many bytes were written")
}

/// The flag of `sweep` for what its runs have executed.
fn sides_flag<'a>(alloc: Global) -> Arg<'a>
    ensures rule { rule_of result ≡ sides_flag }
    ensures local { result.global ≡ false }
{
    Arg::new(alloc, "sides")
        .long("sides")
        .action(ArgAction::SetTrue)
        .help("Has the table say what its runs have executed; of edits of bytes only")
}

/// `sweep` with the bytes that it edits.
fn sweep_of_bytes<'a>(alloc: Global) -> Result<Command<'a>, AllocError>
    ensures shape { IfOk result (λ command. app_of command ≡ sweep_of_bytes) }
    ensures globals { IfOk result (λ command. (out-Command command).has_globals ≡ false) }
{
    let command = program_command(alloc, "sweep", SWEEP, AFTER_SWEEP, INPUT)?;
    let command = with_limits(alloc, command)?;
    let step = "The step to report at, from 0 to 2147483647";
    let command = command.arg(default_number(alloc, "step", 0, FURTHEST_STEP, "1048576", step))?;
    let bytes = "Bytes A to B of the input; A.. up to its last one; A alone";
    let command = command.arg(option(alloc, "bytes", "A..B", bytes))?;
    let values = "all, flips, edges, or numbers with commas";
    command.arg(default_option(alloc, "values", "VALUES", "all", values))
}

/// `sweep` with the bytes and the words that it edits.
fn sweep_of_words<'a>(alloc: Global) -> Result<Command<'a>, AllocError>
    ensures shape { IfOk result (λ command. app_of command ≡ sweep_of_words) }
    ensures globals { IfOk result (λ command. (out-Command command).has_globals ≡ false) }
{
    let words = "Loaded words from address A to address B; the one at A";
    let command = sweep_of_bytes(alloc)?.arg(option(alloc, "words", "A..B", words))?;
    let values = "skip, flips, or numbers with commas";
    command.arg(default_option(alloc, "words-values", "VALUES", "skip", values))
}

/// `sweep` with all that it changes.
fn sweep_of_steps<'a>(alloc: Global) -> Result<Command<'a>, AllocError>
    ensures shape { IfOk result (λ command. app_of command ≡ sweep_of_steps) }
    ensures globals { IfOk result (λ command. (out-Command command).has_globals ≡ false) }
{
    let at = "Steps A to B, at which faults strike; A.. up to the last before --step";
    let command = sweep_of_words(alloc)?.arg(option(alloc, "at", "A..B", at))?;
    let faults = "Their models, with commas: skip, registers, pc, words, memory, zero, ones";
    let command = command.arg(option(alloc, "faults", "MODELS", faults))?;
    let code = "Only at steps with pc from address A to address B";
    let command = command.arg(option(alloc, "code-range", "A..B", code))?;
    let pairs = "skip: two instructions left out, too";
    command.arg(option(alloc, "pairs", "MODEL", pairs))
}

/// `sweep` with all that it changes, and its flags.
fn sweep_of_flags<'a>(alloc: Global) -> Result<Command<'a>, AllocError>
    ensures shape { IfOk result (λ command. app_of command ≡ sweep_of_flags) }
    ensures globals { IfOk result (λ command. (out-Command command).has_globals ≡ false) }
{
    let command = sweep_of_steps(alloc)?.arg(output_flag(alloc))?;
    command.arg(sides_flag(alloc))
}

/// `sweep`.
fn sweep_command<'a>(alloc: Global) -> Result<Command<'a>, AllocError>
    ensures shape { IfOk result (λ command. app_of command ≡ sweep_command) }
    ensures globals { IfOk result (λ command. (out-Command command).has_globals ≡ false) }
{
    let part = "Part I of N of the places, from 1";
    sweep_of_flags(alloc)?.arg(default_option(alloc, "part", "I/N", "1/1", part))
}

/// The command line with `run`, `session`, `look`, `tries` and `sweep`.
fn with_sweep<'a>(alloc: Global) -> Result<Command<'a>, AllocError>
    ensures { IfOk result (λ command. app_of command ≡ with_sweep) }
{
    let sweep = sweep_command(alloc)?;
    with_tries(alloc)?.subcommand(sweep)
}

/// `certify` with its step.
fn certify_of_step<'a>(alloc: Global) -> Result<Command<'a>, AllocError>
    ensures shape { IfOk result (λ command. app_of command ≡ certify_of_step) }
    ensures globals { IfOk result (λ command. (out-Command command).has_globals ≡ false) }
{
    let command = input_command(alloc, "certify", CERTIFY, AFTER_CERTIFY, INPUT)?;
    let command = with_limits(alloc, command)?;
    let step = "The step to certify the run up to, from 0 to 2147483647: 4194304 without it";
    command.arg(number_option(alloc, "step", 0, FURTHEST_STEP, step))
}

/// The command `certify`.
fn certify_command<'a>(alloc: Global) -> Result<Command<'a>, AllocError>
    ensures shape { IfOk result (λ command. app_of command ≡ certify_command) }
    ensures globals { IfOk result (λ command. (out-Command command).has_globals ≡ false) }
{
    let any = "Bytes A to B of the input that may be any; A.. up to its last one; A alone";
    let command = certify_of_step(alloc)?.arg(option(alloc, "any", "A..B", any))?;
    let memory =
        "Bytes of memory from A up to, but not including, B that may be any from step 0 on";
    let command = command.arg(option(alloc, "any-memory", "A..B", memory))?;
    let reveal = "The LEN bytes at ADDR may be known before STEP";
    command.arg(option(alloc, "reveal", "STEP,ADDR,LEN", reveal))
}

/// The command line with `run`, `session`, `look`, `tries`, `sweep` and `certify`.
fn with_certify<'a>(alloc: Global) -> Result<Command<'a>, AllocError>
    ensures { IfOk result (λ command. app_of command ≡ with_certify) }
{
    let certify = certify_command(alloc)?;
    with_sweep(alloc)?.subcommand(certify)
}

/// The whole command line.
fn make_command<'a>(alloc: Global) -> Result<Command<'a>, AllocError>
    ensures { IfOk result (λ command. app_of command ≡ command_line) }
{
    let exec = exec_command(alloc)?;
    with_certify(alloc)?.subcommand(exec)
}

/// Reads the arguments of a command line, the program's name first. Help and the version are errors whose text goes to standard output.
///
/// Arguments that `clap` takes give an order: each of its values is required or has a default. As no clause of `clap` says so, a missing
/// value is reported as out of memory.
pub fn read_order<'a>(alloc: Global, words: &'a [String]) -> Result<Order<'a>, Error>
    ensures order { IfOk result (IsOrderFor (map string_bytes words.entry.now)) }
    // An order is returned if the arguments have no fault; an error is of a kind of their first fault, or memory ran out.
    ensures kinds { FailsBy (fault_of command_line (map string_bytes words.entry.now)) result }
    // A command line that is well formed fails only if memory runs out.
    ensures taken { IfErr result (λ error. takes command_line (map string_bytes words.entry.now) ≡ true → kind_of error ≡ ErrorKind.OutOfMemory) }
{
    let matches = make_command(alloc)?.try_get_matches_from(words)?;
    match order_of(&matches) {
        Some(order) => Ok(order),
        None => Err(Error::from(AllocError)),
    }
}

/// The step of what was found for the arguments of `run`.
pub(crate) fn step_of(chosen: &ArgMatches<'_>) -> Option<u32>
    ensures { IfSome result (IsStepOf (rows_of (found_of chosen.now))) }
{
    chosen.get_one::<u32>("step")
}

/// The words of what was found for the arguments of `sweep`.
fn sweep_of<'a>(chosen: &ArgMatches<'a>) -> Option<SweepArgs<'a>>
    ensures { IfSome result (IsSweepOf (rows_of (found_of chosen.now))) }
{
    Some(SweepArgs {
        step: step_of(chosen)?,
        bytes: chosen.get_str("bytes"),
        byte_values: chosen.get_str("values")?,
        words: chosen.get_str("words"),
        word_values: chosen.get_str("words-values")?,
        at: chosen.get_str("at"),
        faults: chosen.get_str("faults"),
        code: chosen.get_str("code-range"),
        pairs: chosen.get_str("pairs"),
        part: chosen.get_str("part")?,
        with_output: chosen.get_flag("with-output"),
        with_sides: chosen.get_flag("sides"),
    })
}

/// The arguments of `certify`, of what was found for them.
fn certify_of<'a>(chosen: &ArgMatches<'a>) -> Option<CertifyArgs<'a>>
    ensures { IfSome result (IsCertifyOf (rows_of (found_of chosen.now))) }
{
    Some(CertifyArgs {
        step: number_in("step", chosen)?,
        any: chosen.get_str("any"),
        any_memory: chosen.get_str("any-memory"),
        reveal: chosen.get_str("reveal"),
    })
}

/// The command of a name, of what was found for its arguments.
fn task_of<'a>(name: &str, chosen: &ArgMatches<'a>) -> Option<Task<'a>>
    ensures { IfSome result (IsTaskOf name.now (rows_of (found_of chosen.now))) }
{
    if name == "run" {
        Some(Task::Do(Action::Report(step_of(chosen)?)))
    } else if name == "sweep" {
        Some(Task::Sweep(sweep_of(chosen)?))
    } else if name == "look" {
        Some(Task::Do(Action::Look(number_in("limit", chosen)?)))
    } else if name == "tries" {
        Some(Task::Do(Action::Tries(number_in("limit", chosen)?)))
    } else if name == "certify" {
        Some(Task::Do(Action::Certify(certify_of(chosen)?)))
    } else if name == "exec" {
        Some(Task::Exec(exec_of(chosen)?))
    } else {
        Some(Task::Do(Action::Session))
    }
}

/// What a program's file is read for, of what was found for the arguments of a command.
fn profile_of<'a>(chosen: &ArgMatches<'a>) -> Option<ProfileArgs<'a>>
    ensures { IfSome result (IsProfileOf (rows_of (found_of chosen.now))) }
{
    Some(ProfileArgs {
        isa: chosen.get_str("isa")?,
        heap: chosen.get_str("heap-region")?,
        stack: chosen.get_str("stack-region")?,
        most_moved: chosen.get_str("most-moved"),
        most_output: chosen.get_str("most-output"),
    })
}

/// The order of what was found for the arguments of a command.
fn order_within<'a>(name: &str, chosen: &ArgMatches<'a>) -> Option<Order<'a>>
    ensures { IfSome result (IsOrderOf name.now (rows_of (found_of chosen.now))) }
{
    Some(Order {
        file: chosen.get_str("FILE")?,
        input: chosen.get_str("input"),
        suppressions: chosen.get_str("supp"),
        profile: profile_of(chosen)?,
        task: task_of(name, chosen)?,
    })
}

/// The order of what was found for a whole command line.
fn order_of<'a>(matches: &ArgMatches<'a>) -> Option<Order<'a>>
    ensures { IfSome result (λ order. IsSomeAnd (subcommand_rows_of matches.now) (λ found. IsOrderOf found.0 found.1 order)) }
{
    let (name, chosen) = matches.subcommand()?;
    order_within(name, chosen)
}
