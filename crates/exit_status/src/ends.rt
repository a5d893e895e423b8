//! How the program ends: its error line and exit status.
ghost use Rattle.std.specs.Prelude.{◌≡◌, [], IsTrue, MatchOption, false};
ghost use Rattle.std.specs.Io.KnownBytes.{Appends};
ghost use Rattle.exit_status.specs.Ends.{AppendsFront, complaint, end_of_begin, end_of_serve, line_of, line_with, lone_text, names_two, status_of};
ghost use Rattle.exit_status.specs.declared.ends.End.TheVariants.{Image, Suppressions};

use crate::lines::{send_line, send_two};
use commands::BeginFault;
use guest_elf::ElfFault;
use itoa::Buffer;
use line_protocol::ServeFault;
use std::io::Write;
use suppressions::SuppFault;

/// What an error line says before the text of the heap's region that overlaps the stack's.
const OVERLAP: &str = "replaycheck: heap region and stack region overlap: --heap-region ";

/// The rest of a line that is fixed.
const NOTHING: &[u8] = b"";

/// An option of a sweep, or of a verdict for every value of some bytes, whose text is read.
#[derive(Clone, Copy)]
pub enum SweepOption {
    Bytes,
    Values,
    Words,
    WordsValues,
    At,
    Faults,
    CodeRange,
    Pairs,
    Part,
    Any,
    AnyMemory,
    Reveal,
}

/// An option that was given without another one, which it needs.
#[derive(Clone, Copy)]
pub enum LoneOption {
    At,
    Faults,
    CodeRange,
    Pairs,
    /// It goes with edits of bytes only.
    Sides,
    /// It needs bytes that may be any.
    Reveal,
}

impl SweepOption {
    /// What an error line says before the text that the option was given.
    fn complaint(self) -> &'static str
        ensures { result.now ≡ complaint self }
    {
        match self {
            SweepOption::Bytes => "replaycheck: no range, list or part: --bytes ",
            SweepOption::Values => "replaycheck: no range, list or part: --values ",
            SweepOption::Words => "replaycheck: no range, list or part: --words ",
            SweepOption::WordsValues => "replaycheck: no range, list or part: --words-values ",
            SweepOption::At => "replaycheck: no range, list or part: --at ",
            SweepOption::Faults => "replaycheck: no range, list or part: --faults ",
            SweepOption::CodeRange => "replaycheck: no range, list or part: --code-range ",
            SweepOption::Pairs => "replaycheck: no range, list or part: --pairs ",
            SweepOption::Part => "replaycheck: no range, list or part: --part ",
            SweepOption::Any => "replaycheck: not A..B, positions of the input: --any ",
            SweepOption::AnyMemory => "replaycheck: not A..B, addresses, A below B: --any-memory ",
            SweepOption::Reveal => "replaycheck: not STEP,ADDR,LEN: --reveal ",
        }
    }
}

impl LoneOption {
    /// What the error line says.
    fn line(self) -> &'static str
        ensures { result.now ≡ lone_text self }
    {
        match self {
            LoneOption::At => "replaycheck: --at needs --faults",
            LoneOption::Faults => "replaycheck: --faults needs --at",
            LoneOption::CodeRange => "replaycheck: --code-range needs --at",
            LoneOption::Pairs => "replaycheck: --pairs needs --at",
            LoneOption::Sides => {
                "replaycheck: --sides needs edits of bytes only, without --words and --at"
            }
            LoneOption::Reveal => "replaycheck: --reveal needs --any or --any-memory",
        }
    }
}

/// How the program ends. `Done` includes help. `Usage` is a fault of the command line, whose text the command-line parser has written.
#[derive(Clone, Copy)]
pub enum End<'a> {
    Done,
    /// A file, named as it was given.
    CannotRead(&'a str),
    /// Standard input, or it has no end.
    CannotReadInput,
    CannotWrite,
    Usage,
    /// An argument isn't UTF-8.
    NotText,
    /// No instruction set has this name.
    BadIsa(&'a str),
    /// The heap's region can't begin there.
    BadHeapRegion(&'a str),
    /// The stack's region can't lie there.
    BadStackRegion(&'a str),
    /// The two regions have an address in common.
    RegionsOverlap { heap: &'a str, stack: &'a str },
    /// One call can't move as many bytes.
    BadMostMoved(&'a str),
    /// A number of bytes of output is none.
    BadMostOutput(&'a str),
    /// The text of an option of a sweep is no range, list or part.
    BadText { option: SweepOption, text: &'a str },
    /// An option of a sweep needs another one.
    Lone(LoneOption),
    /// The bytes of a sweep lie outside of the input.
    BytesRefused,
    /// None of the words of a sweep is loaded.
    WordsRefused,
    /// The steps of a sweep don't lie below the step of its outcomes.
    StepsRefused,
    Image(ElfFault),
    Suppressions(SuppFault),
    /// A text of more than 1,048,576 bytes.
    SuppressionsTooLong,
    /// An input of more than 1,048,576 bytes.
    InputTooLarge,
    NoMemory,
    /// The run isn't clean, or goes on where no step was asked for: the line on standard output says why.
    NotClean,
}

impl From<ElfFault> for End<'_> {
    ghost from_gives = { λ fault end. end ≡ Image fault };

    fn from(fault: ElfFault) -> Self {
        End::Image(fault)
    }
}

impl From<SuppFault> for End<'_> {
    ghost from_gives = { λ fault end. end ≡ Suppressions fault };

    fn from(fault: SuppFault) -> Self {
        End::Suppressions(fault)
    }
}

impl From<BeginFault> for End<'_> {
    ghost from_gives = { λ fault end. end ≡ end_of_begin fault };

    fn from(fault: BeginFault) -> Self {
        match fault {
            BeginFault::InputTooLarge => End::InputTooLarge,
            BeginFault::Memory => End::NoMemory,
        }
    }
}

impl From<ServeFault> for End<'_> {
    ghost from_gives = { λ fault end. end ≡ end_of_serve fault };

    fn from(fault: ServeFault) -> Self {
        match fault {
            ServeFault::ReadFailed { .. } | ServeFault::Endless { .. } => End::CannotReadInput,
            ServeFault::WriteFailed { .. } => End::CannotWrite,
            ServeFault::NoMemory { .. } => End::NoMemory,
        }
    }
}

/// Writes the error line, if the end has one, and returns the exit status, whatever becomes of the write.
pub fn tell<W: Write>(end: &End, writer: &mut W) -> u8
    ensures status { result ≡ status_of end.now }
    ensures line { AppendsFront (W.contents writer.old) (W.contents writer.new) (line_of end.now) }
{
    let _is_whole = write_line(end, writer);
    match end {
        End::Done => 0,
        End::CannotRead(_) | End::CannotReadInput | End::CannotWrite => 1,
        End::BadHeapRegion(_) | End::BadStackRegion(_) | End::RegionsOverlap { .. } => 2,
        End::BadMostMoved(_) | End::BadMostOutput(_) => 2,
        End::Usage | End::NotText | End::BadIsa(_) | End::BadText { .. } | End::Lone(_) => 2,
        End::Image(ElfFault::Memory) | End::Suppressions(SuppFault::Memory) | End::NoMemory => 4,
        End::Image(_)
        | End::Suppressions(SuppFault::BadSuppression(_))
        | End::SuppressionsTooLong
        | End::InputTooLarge
        | End::BytesRefused
        | End::WordsRefused
        | End::StepsRefused => 3,
        End::NotClean => 5,
    }
}

/// Writes the error line, if the end has one, and returns whether all of it was taken.
pub(crate) fn write_line<W: Write>(end: &End, writer: &mut W) -> bool
    ensures line { AppendsFront (W.contents writer.old) (W.contents writer.new) (line_of end.now) }
    ensures whole { IsTrue result → Appends (W.contents writer.old) (W.contents writer.new) (line_of end.now) }
{
    match end {
        End::RegionsOverlap { heap, stack } => {
            send_two(writer, OVERLAP, heap, " --stack-region ", stack)
        }
        _ => write_one(*end, writer),
    }
}

/// The same for an end whose line has at most one text that was given.
fn write_one<W: Write>(end: End, writer: &mut W) -> bool
    requires { names_two end ≡ false }
    ensures line { AppendsFront (W.contents writer.old) (W.contents writer.new) (line_of end.entry) }
    ensures whole { IsTrue result → Appends (W.contents writer.old) (W.contents writer.new) (line_of end.entry) }
{
    let mut digits = Buffer::new();
    match pieces_of(end, &mut digits) {
        Some((word, rest)) => send_line(writer, word, rest),
        None => true,
    }
}

/// The word of the error line, if the end has one, and what follows it.
fn pieces_of<'a>(end: End<'a>, digits: &'a mut Buffer) -> Option<(&'a str, &'a [u8])>
    requires { names_two end ≡ false }
    ensures { MatchOption result (line_of end.entry ≡ []) (λ pieces. line_of end.entry ≡ line_with pieces.0.now pieces.1.now) }
{
    let pieces = match end {
        End::Done | End::Usage | End::NotClean | End::RegionsOverlap { .. } => return None,
        End::CannotRead(path) => ("replaycheck: cannot read ", path.as_bytes()),
        End::CannotReadInput => ("replaycheck: cannot read standard input", NOTHING),
        End::CannotWrite => ("replaycheck: cannot write", NOTHING),
        End::NotText => (
            "error: invalid UTF-8 was detected in one or more arguments",
            NOTHING,
        ),
        End::Image(ElfFault::Memory) | End::Suppressions(SuppFault::Memory) | End::NoMemory => {
            ("replaycheck: out of memory", NOTHING)
        }
        End::Image(fault) => {
            let number = digits.format(fault.number());
            ("replaycheck: image refused ", number.as_bytes())
        }
        End::Suppressions(SuppFault::BadSuppression(line)) => {
            let number = digits.format(line);
            (
                "replaycheck: suppressions refused 13 at line ",
                number.as_bytes(),
            )
        }
        End::SuppressionsTooLong => ("replaycheck: suppressions refused 15", NOTHING),
        End::InputTooLarge => ("replaycheck: input refused 14", NOTHING),
        End::BytesRefused => ("replaycheck: bytes refused 3", NOTHING),
        End::WordsRefused => ("replaycheck: words refused 4", NOTHING),
        End::StepsRefused => ("replaycheck: steps refused 5", NOTHING),
        End::Lone(option) => (option.line(), NOTHING),
        End::BadIsa(name) => (
            "replaycheck: not one of rv32im, rv32imc, rv32imac: --isa ",
            name.as_bytes(),
        ),
        End::BadHeapRegion(text) => (
            "replaycheck: not a multiple of 0x10000000 from 0x10000000 to 0xd0000000: --heap-region ",
            text.as_bytes(),
        ),
        End::BadStackRegion(text) => (
            "replaycheck: not A..B, multiples of 4096 at least 65536 apart: --stack-region ",
            text.as_bytes(),
        ),
        End::BadMostMoved(text) => (
            "replaycheck: not a number from 1 to 2147479552: --most-moved ",
            text.as_bytes(),
        ),
        End::BadMostOutput(text) => (
            "replaycheck: not a number up to 4294967295, and not none: --most-output ",
            text.as_bytes(),
        ),
        End::BadText { option, text } => (option.complaint(), text.as_bytes()),
    };
    Some(pieces)
}
