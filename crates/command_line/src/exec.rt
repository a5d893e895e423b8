//! The arguments of `exec`.
ghost use Rattle.std.specs.Prelude.{◌≡◌, IfOk, IfSome, false};
ghost use Rattle.clap.specs.Words.{app_of, found_of, rows_of, rule_of};
ghost use Rattle.clap.specs.declared.builder.command.Command.TheViews.{out-Command};
ghost use Rattle.command_line.specs.Orders.{default_number, exec_command, exec_limits, exec_reports, exec_runs, exec_statuses, flag, number_option, quiet_flag, IsExecOf, IsNumberIn, IsNumberOf};

use crate::arguments::{default_option, option, program_command, step_of};
use crate::help::{AFTER_EXEC, EXEC};
use crate::order::ExecArgs;
use clap::{Arg, ArgAction, ArgMatches, Command, value_parser};
use std::alloc::{AllocError, Global};

/// The kinds of leak that are listed, and that count, unless others are chosen.
const USUAL_KINDS: &str = "definite,possible";

/// An option with a number from `least` to `most`.
pub(crate) fn number_option<'a>(
    alloc: Global,
    name: &'a str,
    least: u32,
    most: u32,
    help: &'a str,
) -> Arg<'a>
    ensures rule { rule_of result ≡ number_option name.entry.now least most }
    ensures local { result.global ≡ false }
{
    let numbers = i64::from(least)..=i64::from(most);
    option(alloc, name, "N", help).value_parser(value_parser!(u32).range(numbers))
}

/// An option with a number, which has one where none is given.
pub(crate) fn default_number<'a>(
    alloc: Global,
    name: &'a str,
    least: u32,
    most: u32,
    default: &'a str,
    help: &'a str,
) -> Arg<'a>
    ensures rule { rule_of result ≡ default_number name.entry.now least most default.entry.now }
    ensures local { result.global ≡ false }
{
    number_option(alloc, name, least, most, help).default_value(default)
}

/// The flag for a report only where there is something to report.
fn quiet_flag<'a>(alloc: Global) -> Arg<'a>
    ensures rule { rule_of result ≡ quiet_flag }
    ensures local { result.global ≡ false }
{
    Arg::new(alloc, "quiet")
        .long("quiet")
        .short('q')
        .action(ArgAction::SetTrue)
        .help("Reports only errors, listed leaks and stops")
}

/// `exec` with its options for how many bytes calls move.
fn exec_limits<'a>(alloc: Global) -> Result<Command<'a>, AllocError>
    ensures shape { IfOk result (λ command. app_of command ≡ exec_limits) }
    ensures globals { IfOk result (λ command. (out-Command command).has_globals ≡ false) }
{
    let input = "A file with the bytes that the program can read, in place of standard input";
    let command = program_command(alloc, "exec", EXEC, AFTER_EXEC, input)?;
    let moved = "The most bytes that one read or write moves: 1 to 2147479552";
    let command = command.arg(default_option(alloc, "most-moved", "N", "2147479552", moved))?;
    let output = "The most bytes that the program can write in all, or none for no limit";
    command.arg(default_option(alloc, "most-output", "N", "none", output))
}

/// `exec` with its options for the run.
fn exec_runs<'a>(alloc: Global) -> Result<Command<'a>, AllocError>
    ensures shape { IfOk result (λ command. app_of command ≡ exec_runs) }
    ensures globals { IfOk result (λ command. (out-Command command).has_globals ≡ false) }
{
    let command = exec_limits(alloc)?;
    let step = "The last step, up to 4294967295";
    let step = default_number(alloc, "step", 0, u32::MAX, "1000000000", step);
    let command = command.arg(step)?;
    let patches = "Words that are written into the program before the run, with commas";
    let command = command.arg(option(alloc, "patch", "ADDR=WORD,..", patches))?;
    let redzone = "Inaccessible bytes beside each block: 0 to 4096";
    let command = command.arg(default_number(alloc, "redzone", 0, 4096, "16", redzone))?;
    let queue = "Bytes of freed blocks that aren't used again yet: up to 1000000000";
    let queue = default_number(alloc, "queue", 0, 1_000_000_000, "20000000", queue);
    let memory = "The MiB of memory above which the run ends: up to 1048576; 0 for no limit";
    let memory = default_number(alloc, "memory-limit", 0, 1_048_576, "1024", memory);
    command.arg(queue)?.arg(memory)
}

/// And those for the report.
fn exec_reports<'a>(alloc: Global) -> Result<Command<'a>, AllocError>
    ensures shape { IfOk result (λ command. app_of command ≡ exec_reports) }
    ensures globals { IfOk result (λ command. (out-Command command).has_globals ≡ false) }
{
    let report = "A file for the report, in place of standard error";
    let command = exec_runs(alloc)?.arg(option(alloc, "report", "F", report))?;
    let callers = "Addresses of a trace: 1 to 24";
    let command = command.arg(default_number(alloc, "callers", 1, 24, "12", callers))?;
    let show = "Leak kinds that are listed: definite, indirect, possible, reachable, all, none";
    let show = default_option(alloc, "show", "LIST", USUAL_KINDS, show);
    command.arg(show)?.arg(quiet_flag(alloc))
}

/// And those for the exit status.
fn exec_statuses<'a>(alloc: Global) -> Result<Command<'a>, AllocError>
    ensures shape { IfOk result (λ command. app_of command ≡ exec_statuses) }
    ensures globals { IfOk result (λ command. (out-Command command).has_globals ≡ false) }
{
    let errors = "The exit status of a program that exits or rests and has errors: 1 to 255";
    let errors = number_option(alloc, "error-exitcode", 1, 255, errors);
    let command = exec_reports(alloc)?.arg(errors)?;
    let count = "Leak kinds that count as errors, as those of --show";
    let command = command.arg(default_option(alloc, "count", "LIST", USUAL_KINDS, count))?;
    let idle = "The exit status of a program that rests in a jump to itself: 0 to 255";
    command.arg(number_option(alloc, "idle-exitcode", 0, 255, idle))
}

/// A flag under its long name.
fn flag<'a>(alloc: Global, name: &'a str, help: &'a str) -> Arg<'a>
    ensures rule { rule_of result ≡ flag name.entry.now }
    ensures local { result.global ≡ false }
{
    Arg::new(alloc, name)
        .long(name)
        .action(ArgAction::SetTrue)
        .help(help)
}

/// The command `exec`.
pub(crate) fn exec_command<'a>(alloc: Global) -> Result<Command<'a>, AllocError>
    ensures shape { IfOk result (λ command. app_of command ≡ exec_command) }
    ensures globals { IfOk result (λ command. (out-Command command).has_globals ≡ false) }
{
    let required = "Fails if errors of the heap can't be found, as --error-exitcode does";
    let required = flag(alloc, "require-heap", required);
    let command = exec_statuses(alloc)?.arg(required)?;
    let unrequired = "Doesn't fail for that, with --error-exitcode";
    let command = command.arg(flag(alloc, "no-require-heap", unrequired))?;
    let not_heap = "Functions that aren't a heap's, whatever their names are";
    let command = command.arg(option(alloc, "not-heap", "NAME,..", not_heap))?;
    let ended = "Ends the program's last line on standard error before a report in a file";
    command.arg(flag(alloc, "end-line", ended))
}

/// The number of an option, of what was found for the arguments.
fn number_of(name: &str, chosen: &ArgMatches<'_>) -> Option<u32>
    ensures { IfSome result (IsNumberOf name.now (rows_of (found_of chosen.now))) }
{
    chosen.get_one::<u32>(name)
}

/// The number of an option that may not be given.
pub(crate) fn number_in(name: &str, chosen: &ArgMatches<'_>) -> Option<Option<u32>>
    ensures { IfSome result (IsNumberIn name.now (rows_of (found_of chosen.now))) }
{
    match chosen.get_str(name) {
        Some(_) => Some(Some(number_of(name, chosen)?)),
        None => Some(None),
    }
}

/// The arguments of `exec`, of what was found for them.
pub(crate) fn exec_of<'a>(chosen: &ArgMatches<'a>) -> Option<ExecArgs<'a>>
    ensures { IfSome result (IsExecOf (rows_of (found_of chosen.now))) }
{
    Some(ExecArgs {
        step: step_of(chosen)?,
        patches: chosen.get_str("patch"),
        report: chosen.get_str("report"),
        error_exitcode: number_in("error-exitcode", chosen)?,
        idle_exitcode: number_in("idle-exitcode", chosen)?,
        callers: number_of("callers", chosen)?,
        redzone: number_of("redzone", chosen)?,
        queue: number_of("queue", chosen)?,
        show: chosen.get_str("show")?,
        count: chosen.get_str("count")?,
        quiet: chosen.get_flag("quiet"),
        require_heap: chosen.get_flag("require-heap"),
        no_require_heap: chosen.get_flag("no-require-heap"),
        not_heap: chosen.get_str("not-heap"),
        memory_limit: number_of("memory-limit", chosen)?,
        end_line: chosen.get_flag("end-line"),
    })
}
