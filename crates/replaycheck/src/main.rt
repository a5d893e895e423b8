//! `replaycheck`: Memcheck for static RV32IM programs.
#![tactic(auto)]

ghost use Rattle.std.specs.Prelude.{◌≡◌, ◌≢◌, Bool, IfOk, map, string_bytes};
ghost use Rattle.std.specs.IoError.{error_kind};
ghost use Rattle.std.specs.declared.io.ErrorKind.TheVariants.{OutOfMemory};
ghost use Rattle.clap.specs.Words.{kind_of};
ghost use Rattle.replaycheck.specs.Shown.{end_of_showing, names_exec, place_of};

use clap::error::ErrorKind;
use command_line::{Order, Task, read_order};
use driver::{End, run_order, tell};
use exit_status::{tell_exec, tell_for};
use std::fs::File;
use std::io::Write;
use std::process::ExitCode;
use std::rt::Env;
use std::{env, io};
use test_runs::{Log, Streams, exec_order};

/// The arguments of the command line.
fn words_of<R: Env + AllocGlobal>(rt: &R) -> io::Result<Vec<String>> {
    let mut words = Vec::new(rt.alloc());
    for word in env::args(rt)? {
        words.push(word)?;
    }
    Ok(words)
}

/// How the program ends if it can't get its arguments: memory ran out, or one of them isn't text.
fn end_without_words<'a>(error: &io::Error) -> End<'a>
    ensures memory { error_kind error.now ≡ OutOfMemory → result ≡ End.NoMemory }
    ensures text { error_kind error.now ≢ OutOfMemory → result ≡ End.NotText }
{
    if error.kind() == io::ErrorKind::OutOfMemory {
        End::NoMemory
    } else {
        End::NotText
    }
}

/// How the program ends where help, the version or a fault of the command line is shown.
fn end_of_showing<'a>(kind: ErrorKind, printed: bool) -> End<'a>
    ensures { result ≡ end_of_showing kind printed }
{
    match kind {
        ErrorKind::OutOfMemory => End::NoMemory,
        ErrorKind::DisplayHelp | ErrorKind::DisplayVersion => {
            if printed { End::Done } else { End::CannotWrite }
        }
        _ => End::Usage,
    }
}

/// Shows help, the version or a fault of the command line, and returns how the program ends.
fn show<'a, R: Print + Eprint>(rt: &R, error: &clap::Error) -> End<'a>
    ensures { (printed : Bool) × (result ≡ end_of_showing (kind_of error.now) printed) }
{
    match error.kind() {
        ErrorKind::OutOfMemory => end_of_showing(ErrorKind::OutOfMemory, false),
        kind => end_of_showing(kind, error.print(rt).is_ok()),
    }
}

/// The place of a report that is open.
#[derive(Drop)]
enum Opened {
    /// None yet.
    Nothing,
    /// Standard error.
    StandardError,
    /// A file, with its path.
    Named(File, String),
}

/// Where a report goes: standard error, or a file in its place.
#[derive(Drop)]
struct ReportFile<'a> {
    rt: &'a HostRuntime,
    opened: Opened,
}

impl<'a> Write for ReportFile<'a> {
    fn write(&mut self, bytes: &[u8]) -> io::Result<usize> {
        match &mut self.opened {
            Opened::Named(file, _) => file.write(bytes),
            _ => self.rt.stderr().write(bytes),
        }
    }

    fn flush(&mut self) -> io::Result<()> {
        match &mut self.opened {
            Opened::Named(file, _) => file.flush(),
            _ => self.rt.stderr().flush(),
        }
    }
}

impl<'a> ReportFile<'a> {
    /// Opens a file, which is emptied, and returns it with its path.
    fn create(rt: &HostRuntime, path: &str) -> io::Result<(File, String)>
        ensures { IfOk result (λ r. string_bytes r.1 ≡ path.now) }
    {
        let name = String::from_str(rt.alloc(), path)?;
        Ok((File::create(rt, path)?, name))
    }
}

impl<'a> Log for ReportFile<'a> {
    ghost place = { λ log. place_of log.opened };

    fn open(&mut self, path: Option<&str>) -> bool {
        let Some(path) = path else {
            self.opened = Opened::StandardError;
            return true;
        };
        match ReportFile::create(self.rt, path) {
            Ok((file, name)) => {
                self.opened = Opened::Named(file, name);
                true
            }
            Err(_) => false,
        }
    }
}

/// Follows an order, and returns the exit status.
fn run_command(rt: &HostRuntime, order: &Order) -> u8 {
    match &order.task {
        Task::Exec(asked) => {
            let mut log = ReportFile {
                rt,
                opened: Opened::Nothing,
            };
            let mut streams = Streams {
                out: rt.stdout(),
                err: rt.stderr(),
            };
            let (reader, streams) = (&mut rt.stdin(), &mut streams);
            let done = exec_order(rt.alloc(), order, asked, rt, reader, streams, &mut log);
            tell_exec(&done, &mut rt.stderr())
        }
        _ => {
            let end = run_order(rt.alloc(), order, rt, &mut rt.stdin(), &mut rt.stdout());
            tell(&end, &mut rt.stderr())
        }
    }
}

/// Returns whether a command line names `exec`, whose exit statuses are others.
fn names_exec(words: &[String]) -> bool
    ensures { result ≡ names_exec (map string_bytes words.now) }
{
    match words.get(1) {
        Some(word) => word.as_str() == "exec",
        None => false,
    }
}

/// Carries out the command line, and returns the exit status.
fn finish(rt: &HostRuntime) -> u8 {
    let words = match words_of(rt) {
        Ok(words) => words,
        Err(error) => return tell(&end_without_words(&error), &mut rt.stderr()),
    };
    match read_order(rt.alloc(), &words) {
        Ok(order) => run_command(rt, &order),
        Err(error) => {
            let end = show(rt, &error);
            tell_for(names_exec(&words), &end, &mut rt.stderr())
        }
    }
}

fn main(rt: HostRuntime) -> ExitCode {
    ExitCode::from(finish(&rt))
}
