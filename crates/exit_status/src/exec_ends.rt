//! How `exec` ends: its exit status, which is the program's where it has one, and what is said on standard error.
ghost use Rattle.std.specs.Prelude.{◌≡◌, ◌++◌, [], IsTrue, decimal, if◌then◌else◌, nat_lt};
ghost use Rattle.std.specs.Io.KnownBytes.{Appends};
ghost use Rattle.std.specs.List.{flat_map};
ghost use Rattle.exit_status.specs.Ends.{AppendsFront, line_of, line_with, status_of};
ghost use Rattle.exit_status.specs.ExecEnds.{call_line, done_lines, early_status, ended_lines, ended_status, exec_lines, exec_status, going_lines, heap_line, heap_lines, heap_words, judged_status, limits_line, line_end, lost_line, most_text, place_name, run_lines, run_status, says_ended, says_run, says_standing, standing_lines, standing_status, stop_status, stream_lines, times_word, unknown_lines};
ghost use Rattle.exit_status.specs.declared.ends.End.TheVariants.{Image};
ghost use Rattle.exit_status.specs.declared.exec_ends.ExecEnd.TheVariants.{Early};

use crate::ended::{Ended, write_over, write_overflow};
use crate::ends::{End, tell, write_line};
use crate::lines::{send_line, send_named, send_two};
use guest_elf::{ElfFault, StreamLimits};
use itoa::Buffer;
use line_protocol::send;
use run_values::{Status, Stop};
use std::io::Write;
use suppressions::SuppFault;
use unknown_calls::UnknownCall;

/// The exit status of a run that needs more memory than it may have.
const OVER: u32 = 122;
/// The exit status of a run that ended with 0 though some of its output was lost.
const LOST: u8 = 123;
/// The exit status of a run that goes on.
const RUNNING: u32 = 124;
/// The exit status of a fault of the command line, of memory, or of a write.
const FAILED: u8 = 125;
/// The exit status where what is to be run is refused.
const REFUSED: u8 = 126;
/// The exit status of a run whose heap is unseen, where none was chosen for errors.
const UNSEEN: u32 = 126;
/// The exit status where it can't be read.
const UNREADABLE: u8 = 127;

/// The exit statuses that a user chose in place of others; of each the system keeps eight bits.
#[derive(Clone, Copy)]
pub struct ChosenStatuses {
    /// Of a program that exits or rests, and has errors or leaks that count.
    pub errors: Option<u32>,
    /// Of one that rests in a jump to itself.
    pub idle: Option<u32>,
}

/// How a run stands at its last step.
#[derive(Clone, Copy)]
pub struct Outcome {
    /// The step.
    pub step: u32,
    /// Why it ends there.
    pub ended: Ended,
    /// Whether it runs.
    pub status: Status,
    /// Whether it rests in a jump to itself.
    pub idles: bool,
    /// Whether it has errors or leaks that count.
    pub has_errors: bool,
    /// The number of its `write`s that found no room.
    pub lost: u32,
    /// How many bytes its calls move, and how many it may write in all.
    pub limits: StreamLimits,
    /// Whether it is said that this matters.
    pub limits_told: bool,
    /// Whether errors of its heap can't be found, and it is asked for that they can.
    pub heap_fails: bool,
    /// Whether that is said, or that other functions may give blocks.
    pub heap_told: bool,
    /// Whether the program's last line on standard error is still open.
    pub is_open: bool,
}

/// How `exec` ends.
#[derive(Clone, Copy)]
pub enum ExecEnd<'a> {
    /// As another command would: before the run, or where reading or writing failed.
    Early(End<'a>),
    /// A patch isn't of the form `ADDR=WORD`.
    BadPatch(&'a str),
    /// A list of leak kinds is none.
    BadKinds(&'a str),
    /// The report would replace a file that is read.
    ReportInPlace(&'a str),
    /// The report couldn't be written to a file, or to standard error if none is named.
    NoReport(Option<&'a str>),
    /// A patch's address is that of no loaded word.
    PatchRefused(&'a str),
    /// The run was made, and its report written.
    Ran(ChosenStatuses, Outcome),
}

/// How `exec` ends, with what is said of the program's heap and of its calls.
#[derive(Drop)]
pub struct ExecDone<'a> {
    /// How it ends.
    pub end: ExecEnd<'a>,
    /// The program's file, as the command line names it.
    pub file: &'a str,
    /// The first names of functions whose blocks aren't known; empty if there are none.
    pub names: Vec<u8>,
    /// The calls of a run that aren't known, in order of their first occurrence.
    pub unknown: Vec<UnknownCall>,
}

impl<'a> From<End<'a>> for ExecEnd<'a> {
    ghost from_gives = { λ end exec. exec ≡ Early end };

    fn from(end: End<'a>) -> Self {
        ExecEnd::Early(end)
    }
}

impl From<ElfFault> for ExecEnd<'_> {
    ghost from_gives = { λ fault exec. exec ≡ Early (Image fault) };

    fn from(fault: ElfFault) -> Self {
        ExecEnd::Early(End::Image(fault))
    }
}

/// Returns the exit status of a program that stopped: that of a shell for the signal.
fn stop_status(stop: Stop) -> u32
    ensures { result ≡ stop_status stop }
{
    match stop {
        Stop::Illegal => 132,
        Stop::Break => 133,
        Stop::Misaligned => 135,
        Stop::Jump => 139,
    }
}

/// Returns the status of a run that has one of its own, where errors or an unseen heap may give it another one.
fn judged_status(errors: Option<u32>, outcome: Outcome, own: u32) -> u32
    ensures { result ≡ judged_status errors outcome own }
{
    match errors {
        Some(chosen) => {
            if outcome.has_errors || outcome.heap_fails {
                chosen
            } else {
                own
            }
        }
        None => { if outcome.heap_fails { UNSEEN } else { own } }
    }
}

/// Returns the exit status of a run but for lost output.
fn standing_status(codes: ChosenStatuses, outcome: Outcome) -> u32
    ensures { result ≡ standing_status codes outcome outcome.status }
{
    match outcome.status {
        Status::Running => {
            if outcome.idles {
                judged_status(codes.errors, outcome, codes.idle.unwrap_or(RUNNING))
            } else {
                RUNNING
            }
        }
        Status::Exited(code) => judged_status(codes.errors, outcome, u32::from(code)),
        Status::Stopped(stop) => stop_status(stop),
    }
}

/// Returns the exit status of a run but for lost output, whyever it ends.
fn ended_status(codes: ChosenStatuses, outcome: Outcome) -> u32
    ensures { result ≡ ended_status codes outcome outcome.ended }
{
    match outcome.ended {
        Ended::AtLast => standing_status(codes, outcome),
        Ended::Overflow(_) => stop_status(Stop::Jump),
        Ended::OverLimit(_) => OVER,
    }
}

/// Returns the exit status of a run.
fn run_status(codes: ChosenStatuses, outcome: Outcome) -> u8
    ensures { result ≡ run_status codes outcome }
{
    let status = (ended_status(codes, outcome) % 256) as u8;
    if status == 0 && outcome.lost > 0 {
        LOST
    } else {
        status
    }
}

/// Returns the exit status of an end that other commands have too.
fn early_status(end: End) -> u8
    ensures { result ≡ early_status end.entry }
{
    match end {
        End::Done => 0,
        End::CannotRead(_) | End::CannotReadInput => UNREADABLE,
        End::Image(ElfFault::Memory) | End::Suppressions(SuppFault::Memory) => FAILED,
        End::Image(_)
        | End::Suppressions(SuppFault::BadSuppression(_))
        | End::SuppressionsTooLong
        | End::InputTooLarge => REFUSED,
        _ => FAILED,
    }
}

/// Writes a line that ends with a number, if a test holds. Returns whether all of it was taken.
fn write_number<W: Write>(writer: &mut W, word: &str, number: u32) -> bool
    ensures line { AppendsFront (W.contents writer.old) (W.contents writer.new) (line_with word.now (decimal number)) }
    ensures whole { IsTrue result → Appends (W.contents writer.old) (W.contents writer.new) (line_with word.now (decimal number)) }
{
    let mut digits = Buffer::new();
    let number = digits.format(number);
    send_line(writer, word, number.as_bytes())
}

/// Writes that a run goes on or rests, unless a status was chosen for where it rests. Returns whether all of it was taken.
fn write_going<W: Write>(idle: Option<u32>, idles: bool, step: u32, writer: &mut W) -> bool
    ensures line { AppendsFront (W.contents writer.old) (W.contents writer.new) (going_lines idle idles step) }
    ensures whole { IsTrue result → Appends (W.contents writer.old) (W.contents writer.new) (going_lines idle idles step) }
{
    if !idles {
        return write_number(writer, "replaycheck exec: still running at step ", step);
    }
    match idle {
        Some(_) => true,
        None => {
            let word =
                "replaycheck exec: in a jump to itself (--idle-exitcode=0 passes that, as a failed assert that loops) at step ";
            write_number(writer, word, step)
        }
    }
}

/// Writes what is said of a run that hasn't ended. Returns whether all of it was taken.
fn write_standing<W: Write>(codes: ChosenStatuses, outcome: Outcome, writer: &mut W) -> bool
    ensures line { AppendsFront (W.contents writer.old) (W.contents writer.new) (standing_lines codes.idle outcome outcome.status) }
    ensures whole { IsTrue result → Appends (W.contents writer.old) (W.contents writer.new) (standing_lines codes.idle outcome outcome.status) }
{
    match outcome.status {
        Status::Running => write_going(codes.idle, outcome.idles, outcome.step, writer),
        Status::Exited(_) | Status::Stopped(_) => true,
    }
}

/// Writes what is said of why a run ends. Returns whether all of it was taken.
fn write_ended<W: Write>(codes: ChosenStatuses, outcome: Outcome, writer: &mut W) -> bool
    ensures line { AppendsFront (W.contents writer.old) (W.contents writer.new) (ended_lines codes.idle outcome outcome.ended) }
    ensures whole { IsTrue result → Appends (W.contents writer.old) (W.contents writer.new) (ended_lines codes.idle outcome outcome.ended) }
{
    match outcome.ended {
        Ended::AtLast => write_standing(codes, outcome, writer),
        Ended::Overflow(pointer) => write_overflow(pointer, writer),
        Ended::OverLimit(most) => write_over(most, outcome.step, writer),
    }
}

/// Writes how many `write`s found no room. Returns whether all of it was taken.
fn write_refused<W: Write>(limits: StreamLimits, lost: u32, writer: &mut W) -> bool
    ensures line { AppendsFront (W.contents writer.old) (W.contents writer.new) (lost_line limits lost) }
    ensures whole { IsTrue result → Appends (W.contents writer.old) (W.contents writer.new) (lost_line limits lost) }
{
    let gap = " bytes of output are all there is room for (--most-output); writes refused: ";
    let mut most = Buffer::new();
    let most = most.format(limits.most_output);
    let mut number = Buffer::new();
    let number = number.format(lost);
    send_two(writer, "replaycheck exec: ", most, gap, number)
}

/// The same, if some did. Returns whether all of it was taken.
fn write_lost<W: Write>(outcome: Outcome, writer: &mut W) -> bool
    ensures line { AppendsFront (W.contents writer.old) (W.contents writer.new) (if nat_lt 0 outcome.lost then lost_line outcome.limits outcome.lost else []) }
    ensures whole { IsTrue result → Appends (W.contents writer.old) (W.contents writer.new) (if nat_lt 0 outcome.lost then lost_line outcome.limits outcome.lost else []) }
{
    if outcome.lost == 0 {
        return true;
    }
    write_refused(outcome.limits, outcome.lost, writer)
}

/// Returns how many bytes there is room for, or that there is no limit.
fn most_text(most: u64, digits: &mut Buffer) -> &str
    ensures { result.now ≡ most_text most }
{
    if most == u64::MAX {
        "none"
    } else {
        digits.format(most)
    }
}

/// Writes with which options another command repeats a run. Returns whether all of it was taken.
fn write_repeats<W: Write>(limits: StreamLimits, writer: &mut W) -> bool
    ensures line { AppendsFront (W.contents writer.old) (W.contents writer.new) (limits_line limits) }
    ensures whole { IsTrue result → Appends (W.contents writer.old) (W.contents writer.new) (limits_line limits) }
{
    let word = "replaycheck exec: other commands repeat this run with --most-moved ";
    let mut moved = Buffer::new();
    let moved = moved.format(limits.most_moved);
    let mut most = Buffer::new();
    let most = most_text(limits.most_output, &mut most);
    send_two(writer, word, moved, " --most-output ", most)
}

/// The same, if it is said. Returns whether all of it was taken.
fn write_limits<W: Write>(outcome: Outcome, writer: &mut W) -> bool
    ensures line { AppendsFront (W.contents writer.old) (W.contents writer.new) (if outcome.limits_told then limits_line outcome.limits else []) }
    ensures whole { IsTrue result → Appends (W.contents writer.old) (W.contents writer.new) (if outcome.limits_told then limits_line outcome.limits else []) }
{
    if outcome.limits_told {
        write_repeats(outcome.limits, writer)
    } else {
        true
    }
}

/// Writes what is said of a run's output and of how much its calls move. Returns whether all of it was taken.
#[tactic(auto, unfolding(crate::specs::ExecEnds::stream_lines))]
fn write_streams<W: Write>(outcome: Outcome, writer: &mut W) -> bool
    ensures line { AppendsFront (W.contents writer.old) (W.contents writer.new) (stream_lines outcome) }
    ensures whole { IsTrue result → Appends (W.contents writer.old) (W.contents writer.new) (stream_lines outcome) }
{
    if !write_lost(outcome, writer) {
        return false;
    }
    write_limits(outcome, writer)
}

/// Writes what is said of a run. Returns whether all of it was taken.
fn write_run<W: Write>(codes: ChosenStatuses, outcome: Outcome, writer: &mut W) -> bool
    ensures line { AppendsFront (W.contents writer.old) (W.contents writer.new) (run_lines codes outcome) }
    ensures whole { IsTrue result → Appends (W.contents writer.old) (W.contents writer.new) (run_lines codes outcome) }
{
    if !write_ended(codes, outcome, writer) {
        return false;
    }
    write_streams(outcome, writer)
}

/// Returns the name of the place of a report.
fn place_name<'a>(place: Option<&'a str>) -> &'a str
    ensures { result.now ≡ place_name place.entry }
{
    match place {
        Some(path) => path,
        None => "standard error",
    }
}

/// Writes what is said of an end. Returns whether all of it was taken.
fn write_lines<W: Write>(end: ExecEnd, writer: &mut W) -> bool
    ensures line { AppendsFront (W.contents writer.old) (W.contents writer.new) (exec_lines end.entry) }
    ensures whole { IsTrue result → Appends (W.contents writer.old) (W.contents writer.new) (exec_lines end.entry) }
{
    match end {
        ExecEnd::Early(end) => write_line(&end, writer),
        ExecEnd::BadPatch(text) => {
            let word = "replaycheck exec: not ADDR=WORD: --patch ";
            send_line(writer, word, text.as_bytes())
        }
        ExecEnd::BadKinds(text) => {
            let word = "replaycheck exec: no list of leak kinds: ";
            send_line(writer, word, text.as_bytes())
        }
        ExecEnd::ReportInPlace(path) => {
            let word = "replaycheck exec: the report would replace a file that is read: ";
            send_line(writer, word, path.as_bytes())
        }
        ExecEnd::NoReport(place) => {
            let word = "replaycheck exec: cannot write the report: ";
            let name = place_name(place);
            send_line(writer, word, name.as_bytes())
        }
        ExecEnd::PatchRefused(text) => {
            let word = "replaycheck exec: patch refused 4: ";
            send_line(writer, word, text.as_bytes())
        }
        ExecEnd::Ran(codes, outcome) => write_run(codes, outcome, writer),
    }
}

/// Returns what is said of a heap that isn't seen, after the file's name and before the functions'.
fn heap_words(names: &[u8]) -> &'static str
    ensures { result.now ≡ heap_words names.now }
{
    if names.is_empty() {
        ": errors of the heap can't be found: the file has no symbols: strip it with --strip-debug only"
    } else {
        ": errors of the heap can't be found in blocks of these (see `replaycheck adopt`, --not-heap): "
    }
}

/// Writes what is said of a heap that isn't seen. Returns whether all of it was taken.
fn write_heap<W: Write>(file: &str, names: &[u8], writer: &mut W) -> bool
    ensures line { AppendsFront (W.contents writer.old) (W.contents writer.new) (heap_line file.now names.now) }
    ensures whole { IsTrue result → Appends (W.contents writer.old) (W.contents writer.new) (heap_line file.now names.now) }
{
    let words = heap_words(names);
    send_named(writer, "replaycheck exec: ", file, words, names)
}

/// Writes what is said of the heap of a run, if something is. Returns whether all of it was taken.
fn tell_heap<W: Write>(end: ExecEnd, file: &str, names: &[u8], writer: &mut W) -> bool
    ensures line { AppendsFront (W.contents writer.old) (W.contents writer.new) (heap_lines end.entry file.now names.now) }
    ensures whole { IsTrue result → Appends (W.contents writer.old) (W.contents writer.new) (heap_lines end.entry file.now names.now) }
{
    match end {
        ExecEnd::Ran(_, outcome) => {
            if outcome.heap_told {
                write_heap(file, names, writer)
            } else {
                true
            }
        }
        _ => true,
    }
}

/// Returns what follows the count of a call in its line.
fn times_word(times: u32) -> &'static str
    ensures { result.now ≡ times_word times }
{
    if times == 1 { " time)" } else { " times)" }
}

/// Writes that a call isn't known. Returns whether all of it was taken.
fn write_call<W: Write>(call: UnknownCall, writer: &mut W) -> bool
    ensures line { AppendsFront (W.contents writer.old) (W.contents writer.new) (call_line call) }
    ensures whole { IsTrue result → Appends (W.contents writer.old) (W.contents writer.new) (call_line call) }
{
    let mut digits = Buffer::new();
    let mut others = Buffer::new();
    let number = digits.format(call.number);
    let times = others.format(call.times);
    let word = times_word(call.times);
    if !send(writer, b"replaycheck: call ").whole {
        return false;
    }
    send_named(writer, number, " isn't known (", times, word.as_bytes())
}

/// Writes which calls aren't known.
fn write_calls<W: Write>(calls: &[UnknownCall], writer: &mut W)
    ensures { AppendsFront (W.contents writer.old) (W.contents writer.new) (flat_map call_line calls.now) }
{
    for call in calls {
        if !write_call(*call, writer) {
            return;
        }
    }
}

/// Writes which calls of a run aren't known.
fn tell_calls<W: Write>(end: ExecEnd, calls: &[UnknownCall], writer: &mut W)
    ensures { AppendsFront (W.contents writer.old) (W.contents writer.new) (unknown_lines end.entry calls.now) }
{
    if let ExecEnd::Ran(_, _) = end {
        write_calls(calls, writer);
    }
}

/// Returns whether something is said of a run that hasn't ended.
fn says_standing(idle: Option<u32>, outcome: Outcome) -> bool
    ensures { result ≡ says_standing idle outcome outcome.status }
{
    match outcome.status {
        Status::Running => !(outcome.idles && idle.is_some()),
        Status::Exited(_) | Status::Stopped(_) => false,
    }
}

/// Returns whether something is said of why a run ends.
fn says_ended(idle: Option<u32>, outcome: Outcome) -> bool
    ensures { result ≡ says_ended idle outcome outcome.ended }
{
    match outcome.ended {
        Ended::AtLast => says_standing(idle, outcome),
        Ended::Overflow(_) | Ended::OverLimit(_) => true,
    }
}

/// Returns whether something is said of a run.
fn says_run(codes: ChosenStatuses, outcome: Outcome, calls: &[UnknownCall]) -> bool
    ensures { result ≡ says_run codes outcome calls.now }
{
    says_ended(codes.idle, outcome)
        || outcome.lost > 0
        || outcome.limits_told
        || outcome.heap_told
        || !calls.is_empty()
}

/// Ends the program's last line, if it is open and something is said. Returns whether that was taken.
fn end_line<W: Write>(end: ExecEnd, calls: &[UnknownCall], writer: &mut W) -> bool
    ensures line { AppendsFront (W.contents writer.old) (W.contents writer.new) (line_end end.entry calls.now) }
    ensures whole { IsTrue result → Appends (W.contents writer.old) (W.contents writer.new) (line_end end.entry calls.now) }
{
    match end {
        ExecEnd::Ran(codes, outcome) => {
            if outcome.is_open && says_run(codes, outcome, calls) {
                send(writer, b"\n").whole
            } else {
                true
            }
        }
        _ => true,
    }
}

/// Writes the lines of an end: what is said of it, of the heap and of the calls.
fn tell_lines<W: Write>(done: &ExecDone, writer: &mut W)
    ensures { AppendsFront (W.contents writer.old) (W.contents writer.new) (done_lines done.now) }
{
    if !end_line(done.end, &done.unknown, writer) {
        return;
    }
    if !write_lines(done.end, writer) {
        return;
    }
    if tell_heap(done.end, done.file, &done.names, writer) {
        tell_calls(done.end, &done.unknown, writer);
    }
}

/// Returns the exit status of an end of `exec`.
fn exec_status(end: ExecEnd) -> u8
    ensures { result ≡ exec_status end.entry }
{
    match end {
        ExecEnd::Early(end) => early_status(end),
        ExecEnd::BadPatch(_)
        | ExecEnd::BadKinds(_)
        | ExecEnd::ReportInPlace(_)
        | ExecEnd::NoReport(_) => FAILED,
        ExecEnd::PatchRefused(_) => REFUSED,
        ExecEnd::Ran(codes, outcome) => run_status(codes, outcome),
    }
}

/// Writes what is said of an end of `exec` on standard error, and returns the exit status, whatever becomes of the write.
pub fn tell_exec<W: Write>(done: &ExecDone, writer: &mut W) -> u8
    ensures status { result ≡ exec_status done.now.end }
    ensures lines { AppendsFront (W.contents writer.old) (W.contents writer.new) (done_lines done.now) }
{
    tell_lines(done, writer);
    exec_status(done.end)
}

/// Writes the line of an end without a run, of `exec` or of another command, and returns the exit status.
pub fn tell_for<W: Write>(is_exec: bool, end: &End, writer: &mut W) -> u8
    ensures status { result ≡ (if is_exec then early_status end.now else status_of end.now) }
    ensures line { AppendsFront (W.contents writer.old) (W.contents writer.new) (line_of end.now) }
{
    let status = tell(end, writer);
    if is_exec { early_status(*end) } else { status }
}
