//! One program, one report.
ghost use Rattle.std.specs.Prelude.{◌≡◌, ◌<◌, ◌↔◌, Err, IfOk, OnOk, IfErr, length};
ghost use Rattle.driver.specs.Once.{IsReportOnce, WritesReport, StopsBy, end_of_run};
ghost use Rattle.scenario.specs.Limits.{longest_input};

use exit_status::End;
use guest_elf::Image;
use guest_machine::Meter;
use line_protocol::{Sent, send};
use replay_report::Options;
use scenario::{LONGEST_INPUT, MOST_STEPS, ScenarioRef, setup_with};
use std::alloc::{AllocError, Global};
use std::io::Write;
use suppressions::Suppression;
use thiserror::Error;

/// Why no whole report was written.
#[derive(Clone, Copy, Debug, Error)]
pub enum RunFault {
    /// The input has more than 1,048,576 bytes; nothing was written.
    #[error("the input is too large")]
    InputTooLarge,
    /// Nothing was written.
    #[error("no memory")]
    NoMemory,
    /// A write or the flush at the end failed, or a write took nothing; this number of bytes of the report was taken.
    #[error("the write failed after {bytes} bytes")]
    WriteFailed { bytes: u64 },
}

impl From<RunFault> for End<'_> {
    ghost from_gives = { λ fault end. end ≡ end_of_run fault };

    fn from(fault: RunFault) -> Self {
        match fault {
            RunFault::InputTooLarge => End::InputTooLarge,
            RunFault::NoMemory => End::NoMemory,
            RunFault::WriteFailed { .. } => End::CannotWrite,
        }
    }
}

/// The report of a program with an input and suppressions at a step, with no marks and default options.
fn report_once(
    alloc: Global,
    image: &Image,
    input: Vec<u8>,
    suppressions: &[Suppression],
    step: u32,
) -> Result<Vec<u8>, AllocError>
    ensures { IfOk result (λ text. IsReportOnce image.now input.items suppressions.now step text.items) }
{
    let setup = setup_with(alloc, image, input)?;
    let options = Options::default();
    let mut text = Vec::new(alloc);
    let scenario = ScenarioRef {
        image,
        words: &[],
        setup: &setup,
        marks: &[],
        suppressions,
        options: &options,
        step,
        limit: MOST_STEPS,
    };
    scenario.report(alloc, &mut Meter::new(), &mut text)?;
    Ok(text)
}

/// Writes the report of a program with an input and suppressions at a step, with no marks and default options.
pub fn run_once<W: Write>(
    alloc: Global,
    image: &Image,
    input: Vec<u8>,
    suppressions: &[Suppression],
    step: u32,
    writer: &mut W,
) -> Result<(), RunFault>
    ensures ok { OnOk result (WritesReport (IsReportOnce image.now input.items suppressions.now step) (W.contents writer.old) (W.contents writer.new)) }
    ensures large { (result ≡ Err RunFault.InputTooLarge) ↔ (longest_input < length input.items) }
    ensures fault { IfErr result (λ fault. StopsBy fault (IsReportOnce image.now input.items suppressions.now step)
        (W.contents writer.old) (W.contents writer.new)) }
{
    if input.len() > LONGEST_INPUT {
        return Err(RunFault::InputTooLarge);
    }
    let Ok(text) = report_once(alloc, image, input, suppressions, step) else {
        return Err(RunFault::NoMemory);
    };
    let Sent { taken, whole } = send(writer, &text);
    if whole {
        Ok(())
    } else {
        Err(RunFault::WriteFailed {
            bytes: taken as u64,
        })
    }
}
