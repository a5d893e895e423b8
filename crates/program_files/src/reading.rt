//! The files that a command names, read and judged.
ghost use Rattle.std.specs.Prelude.{◌≤◌, ◌<◌, ◌^◌, ◌≡◌, Some, IfOk, IfErr, length, option_map};
ghost use Rattle.program_files.specs.Files.{HasInput, HasRules, HasStream, HasSweepInput, HasText, IsFront, NoBytes, NoInput, NoRules, NoStream, NoSweepInput, NoText, is_stream};
ghost use Rattle.program_files.specs.Opened.{end_of_input};
ghost use Rattle.scenario.specs.Limits.{longest_input};

use crate::files::{Files, ReadFault, front_of, read_or_fault};
use exit_status::End;
use scenario::LONGEST_INPUT;
use std::alloc::Global;
use std::io::Read;
use suppressions::{Suppression, TEXT_LIMIT, parse};

/// The number of bytes of a program's file that are judged, and one more if the file is larger. A file is rejected for its size at fewer
/// bytes; of a larger file, only this front is judged.
pub const MOST_READ: usize = 67_108_864;

/// Returns the bytes of a file up to a limit, and one more if the file is larger.
pub fn read_front<'a, F: Files>(
    alloc: Global,
    files: &F,
    path: &'a str,
    limit: usize,
) -> Result<Vec<u8>, End<'a>>
    requires { limit < 2 ^ 32 }
    ensures ok { IfOk result (λ bytes. IsFront (F.gives files.now) path.entry.now limit bytes.items) }
    ensures err { IfErr result (NoBytes (F.gives files.now) path.entry.now) }
{
    match files.read(alloc, path, limit + 1) {
        Ok(bytes) => Ok(bytes),
        Err(ReadFault::NoMemory) => Err(End::NoMemory),
        Err(ReadFault::Unreadable) => Err(End::CannotRead(path)),
    }
}

/// The text of a file of suppressions.
fn read_text<'a, F: Files>(alloc: Global, files: &F, path: &'a str) -> Result<Vec<u8>, End<'a>>
    ensures ok { IfOk result (λ text. HasText (F.gives files.now) (Some path.entry.now) text.items) }
    ensures err { IfErr result (NoText (F.gives files.now) (Some path.entry.now)) }
{
    let text = read_front(alloc, files, path, TEXT_LIMIT)?;
    if text.len() > TEXT_LIMIT {
        return Err(End::SuppressionsTooLong);
    }
    Ok(text)
}

/// Returns the suppressions of a file, if one is named.
pub fn read_suppressions<'a, F: Files>(
    alloc: Global,
    files: &F,
    path: Option<&'a str>,
) -> Result<Vec<Suppression>, End<'a>>
    ensures ok { IfOk result (λ list. HasRules (F.gives files.now) (option_map (λ path. path.now) path.entry) list.items) }
    ensures err { IfErr result (NoRules (F.gives files.now) (option_map (λ path. path.now) path.entry)) }
{
    let Some(path) = path else {
        return Ok(Vec::new(alloc));
    };
    let text = read_text(alloc, files, path)?;
    Ok(parse(alloc, &text)?)
}

/// Returns the text of a file of suppressions, or none where no file is named.
pub fn read_named_text<'a, F: Files>(
    alloc: Global,
    files: &F,
    path: Option<&'a str>,
) -> Result<Vec<u8>, End<'a>>
    ensures ok { IfOk result (λ text. HasText (F.gives files.now) (option_map (λ path. path.now) path.entry) text.items) }
    ensures err { IfErr result (NoText (F.gives files.now) (option_map (λ path. path.now) path.entry)) }
{
    match path {
        Some(path) => read_text(alloc, files, path),
        None => Ok(Vec::new(alloc)),
    }
}

/// How the program ends if standard input gives no bytes.
fn end_of_input<'a>(fault: ReadFault) -> End<'a>
    ensures { result ≡ end_of_input fault }
{
    match fault {
        ReadFault::NoMemory => End::NoMemory,
        ReadFault::Unreadable => End::CannotReadInput,
    }
}

/// Returns the bytes of an input from standard input.
pub fn read_stream<'a, R: Read>(alloc: Global, reader: &mut R) -> Result<Vec<u8>, End<'a>>
    ensures ok { IfOk result (λ input. HasStream (R.remaining reader.old) input.items) }
    ensures err { IfErr result (NoStream (R.remaining reader.old)) }
{
    match read_or_fault(front_of(alloc, reader, LONGEST_INPUT + 1)) {
        Ok(input) => {
            if input.len() > LONGEST_INPUT {
                return Err(End::InputTooLarge);
            }
            Ok(input)
        }
        Err(fault) => Err(end_of_input(fault)),
    }
}

/// Returns the bytes of the input, if a file is named.
pub fn read_input<'a, F: Files>(
    alloc: Global,
    files: &F,
    path: Option<&'a str>,
) -> Result<Vec<u8>, End<'a>>
    ensures ok { IfOk result (λ input. HasInput (F.gives files.now) (option_map (λ path. path.now) path.entry) input.items) }
    ensures short { IfOk result (λ input. length input.items ≤ longest_input) }
    ensures err { IfErr result (NoInput (F.gives files.now) (option_map (λ path. path.now) path.entry)) }
{
    let Some(path) = path else {
        return Ok(Vec::new(alloc));
    };
    let input = read_front(alloc, files, path, LONGEST_INPUT)?;
    if input.len() > LONGEST_INPUT {
        return Err(End::InputTooLarge);
    }
    Ok(input)
}

/// Whether an input is that of standard input, `-`.
fn is_stream(path: Option<&str>) -> bool
    ensures { result ≡ is_stream (option_map (λ path. path.now) path.entry) }
{
    match path {
        Some(path) => path == "-",
        None => false,
    }
}

/// Returns the bytes of the input of a sweep: for `-` those of standard input.
pub fn read_sweep_input<'a, F: Files, R: Read>(
    alloc: Global,
    files: &F,
    reader: &mut R,
    path: Option<&'a str>,
) -> Result<Vec<u8>, End<'a>>
    ensures ok { IfOk result (λ input. HasSweepInput (F.gives files.now) (option_map (λ path. path.now) path.entry) (R.remaining reader.old) input.items) }
    ensures short { IfOk result (λ input. length input.items ≤ longest_input) }
    ensures err { IfErr result (NoSweepInput (F.gives files.now) (option_map (λ path. path.now) path.entry) (R.remaining reader.old)) }
{
    if is_stream(path) {
        read_stream(alloc, reader)
    } else {
        read_input(alloc, files, path)
    }
}
