//! Carries out a command on a program: reads its files, and prints a report or serves a session.
ghost use Rattle.std.specs.Prelude.{◌≡◌, ◌≤◌, length};
ghost use Rattle.replay_session.specs.Replies.{Answers};
ghost use Rattle.replay_session.specs.Stages.{fresh, opened};
ghost use Rattle.replay_session.specs.Turns.{opening};
ghost use Rattle.looks.specs.Views.{ViewsLines};
ghost use Rattle.tries.specs.Tries.{TriesLines, untried};
ghost use Rattle.driver.specs.Carried.{Carried, Reports, Serves, limit_asked};
ghost use Rattle.program_files.specs.Files.{streams};
ghost use Rattle.sweep_plans.specs.Planned.{IsPart};
ghost use Rattle.driver.specs.Sweeping.{CarriedOut, CarriedSweep, SweepsImage};
ghost use Rattle.exit_status.specs.Ends.{end_of};
ghost use Rattle.driver.specs.Once.{IsReportOnce};
ghost use Rattle.scenario.specs.Limits.{furthest_step, longest_input};

use crate::certifying::print_certified;
use crate::reporting::run_once;
use command_line::{Action, Order, SweepArgs, Task};
use exit_status::End;
use guest_elf::{Image, read_for};
use program_files::{
    Files, MOST_READ, profile_named, read_front, read_input, read_named_text, read_suppressions,
    read_sweep_input,
};
use replay_session::{FURTHEST_STEP, MOST_STEPS, Session, serve};
use std::alloc::Global;
use std::io::{Read, Write};
use suppressions::{Suppression, parse};
use sweep_plans::Request;
use sweep_tables::{Material, sweep_program};

/// Prints the report of a program at a step.
fn print_report<'a, W: Write>(
    alloc: Global,
    image: &Image,
    input: Vec<u8>,
    suppressions: &[Suppression],
    step: u32,
    writer: &mut W,
) -> Result<(), End<'a>>
    requires { length input.items ≤ longest_input }
    ensures { Reports (IsReportOnce image.now input.items suppressions.now step) (W.contents writer.old) (W.contents writer.new) (end_of result) }
{
    Ok(run_once(alloc, image, input, suppressions, step, writer)?)
}

/// Serves a session with a program.
fn serve_session<'a, R: Read, W: Write>(
    alloc: Global,
    image: Image<'_>,
    input: Vec<u8>,
    suppressions: Vec<Suppression>,
    reader: &mut R,
    writer: &mut W,
) -> Result<(), End<'a>>
    requires { length input.items ≤ longest_input }
    ensures { Serves (Answers (fresh (opening image.entry input.items suppressions.items)))
        (streams (R.remaining reader.old) (W.contents writer.old)) (streams (R.remaining reader.new) (W.contents writer.new)) (end_of result) }
{
    let session = Session::begin(alloc, image, input, suppressions)?;
    Ok(serve(session, reader, writer)?)
}

/// Returns the greatest step of a session: the one that was asked for, if one was.
fn limit_of(asked: Option<u32>) -> u32
    ensures { result ≡ limit_asked asked }
{
    asked.unwrap_or(MOST_STEPS).min(FURTHEST_STEP)
}

/// Serves a session with a program that can also be looked at.
fn serve_looks<'a, R: Read, W: Write>(
    alloc: Global,
    image: Image<'_>,
    input: Vec<u8>,
    suppressions: Vec<Suppression>,
    asked: Option<u32>,
    reader: &mut R,
    writer: &mut W,
) -> Result<(), End<'a>>
    requires { length input.items ≤ longest_input }
    ensures { Serves (ViewsLines (opened (limit_asked asked) image.entry input.items suppressions.items))
        (streams (R.remaining reader.old) (W.contents writer.old)) (streams (R.remaining reader.new) (W.contents writer.new)) (end_of result) }
{
    let limit = limit_of(asked);
    let session = Session::begin_within(alloc, image, input, suppressions, limit)?;
    Ok(looks::serve(session, reader, writer)?)
}

/// Serves a session with a program that can also be looked at, and in which inputs can be tried.
fn serve_tries<'a, R: Read, W: Write>(
    alloc: Global,
    image: Image<'_>,
    input: Vec<u8>,
    suppressions: Vec<Suppression>,
    asked: Option<u32>,
    reader: &mut R,
    writer: &mut W,
) -> Result<(), End<'a>>
    requires { length input.items ≤ longest_input }
    ensures { Serves (TriesLines (untried (opened (limit_asked asked) image.entry input.items suppressions.items)))
        (streams (R.remaining reader.old) (W.contents writer.old)) (streams (R.remaining reader.new) (W.contents writer.new)) (end_of result) }
{
    let limit = limit_of(asked);
    let session = Session::begin_within(alloc, image, input, suppressions, limit)?;
    Ok(tries::serve(session, reader, writer)?)
}

/// Carries out an order for the report or the verdict of a step, or for a session: the name of the instruction set is judged, then the
/// program is read, then the suppressions, then the input, each judged before the next is read.
fn follow_order<'a, F: Files, R: Read, W: Write>(
    alloc: Global,
    order: &Order<'a>,
    action: Action<'a>,
    files: &F,
    reader: &mut R,
    writer: &mut W,
) -> Result<(), End<'a>>
    ensures { Carried (F.gives files.now) order.now action.entry
        (streams (R.remaining reader.old) (W.contents writer.old)) (streams (R.remaining reader.new) (W.contents writer.new)) (end_of result) }
{
    let profile = profile_named(order.profile)?;
    let file = read_front(alloc, files, order.file, MOST_READ)?;
    let image = read_for(alloc, &file, profile)?;
    let suppressions = read_suppressions(alloc, files, order.suppressions)?;
    let input = read_input(alloc, files, order.input)?;
    match action {
        Action::Report(step) => print_report(alloc, &image, input, &suppressions, step, writer),
        Action::Session => serve_session(alloc, image, input, suppressions, reader, writer),
        Action::Look(asked) => {
            serve_looks(alloc, image, input, suppressions, asked, reader, writer)
        }
        Action::Tries(asked) => {
            serve_tries(alloc, image, input, suppressions, asked, reader, writer)
        }
        Action::Certify(args) => print_certified(alloc, &image, input, &args, writer),
    }
}

/// A program that was read: its file, and its image.
#[derive(Drop)]
struct Program<'p> {
    file: &'p [u8],
    image: Image<'p>,
}

/// What a sweep is asked for: its arguments, and the request that they make.
#[derive(Drop)]
struct Asked<'w, 'a> {
    words: &'w SweepArgs<'a>,
    request: Request,
}

/// Sweeps a program by the rest of an order: the suppressions are read, then the input, each judged before the next is read.
fn sweep_image<'a, F: Files, R: Read, W: Write>(
    alloc: Global,
    order: &Order<'a>,
    asked: Asked<'_, 'a>,
    program: Program<'_>,
    files: &F,
    reader: &mut R,
    writer: &mut W,
) -> Result<(), End<'a>>
    requires near { asked.words.now.step ≤ furthest_step }
    requires part { IsPart asked.request.part }
    ensures { SweepsImage (F.gives files.now) order.now asked.entry.words.now asked.entry.request program.entry.file.now program.entry.image
        (streams (R.remaining reader.old) (W.contents writer.old)) (W.contents writer.new) (end_of result) }
{
    let text = read_named_text(alloc, files, order.suppressions)?;
    let suppressions = parse(alloc, &text)?;
    let input = read_sweep_input(alloc, files, reader, order.input)?;
    let material = Material {
        file: program.file,
        image: program.image,
        text: &text,
        suppressions,
        input,
    };
    sweep_program(alloc, material, asked.words, asked.request, writer)
}

/// Carries out an order for a sweep: its arguments are read, the name of the instruction set last, and then the program, the suppressions
/// and the input, each judged before the next is read.
fn follow_sweep<'a, F: Files, R: Read, W: Write>(
    alloc: Global,
    order: &Order<'a>,
    words: &SweepArgs<'a>,
    files: &F,
    reader: &mut R,
    writer: &mut W,
) -> Result<(), End<'a>>
    ensures { CarriedSweep (F.gives files.now) order.now words.now (streams (R.remaining reader.old) (W.contents writer.old)) (W.contents writer.new) (end_of result) }
{
    if words.step > FURTHEST_STEP {
        return Err(End::Usage);
    }
    let request = Request::of(alloc, words)?;
    let profile = profile_named(order.profile)?;
    let file = read_front(alloc, files, order.file, MOST_READ)?;
    let image = read_for(alloc, &file, profile)?;
    let asked = Asked { words, request };
    let program = Program { file: &file, image };
    sweep_image(alloc, order, asked, program, files, reader, writer)
}

/// How the program ends with a result.
fn ended<'a>(done: Result<(), End<'a>>) -> End<'a>
    ensures { result ≡ end_of done.entry }
{
    match done {
        Ok(()) => End::Done,
        Err(end) => end,
    }
}

/// Carries out an order, and returns how the program ends.
pub fn run_order<'a, F: Files, R: Read, W: Write>(
    alloc: Global,
    order: &Order<'a>,
    files: &F,
    reader: &mut R,
    writer: &mut W,
) -> End<'a>
    ensures { CarriedOut (F.gives files.now) order.now order.now.task
        (streams (R.remaining reader.old) (W.contents writer.old)) (streams (R.remaining reader.new) (W.contents writer.new)) result }
{
    match order.task {
        Task::Do(action) => ended(follow_order(alloc, order, action, files, reader, writer)),
        Task::Sweep(words) => ended(follow_sweep(alloc, order, &words, files, reader, writer)),
        Task::Exec(_) => End::Usage,
    }
}
