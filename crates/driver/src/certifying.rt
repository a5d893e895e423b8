//! One program, one verdict.
ghost use Rattle.std.specs.Prelude.{◌≡◌, ◌≤◌, ℕ, Bool, IfOk, Ok, length};
ghost use Rattle.scenario.specs.Limits.{longest_input};
ghost use Rattle.any_verdicts.specs.Lines.{any_line};
ghost use Rattle.any_verdicts.specs.declared.verdict.AnyVerdict.TheVariants.{Same};
ghost use Rattle.driver.specs.AnyCertified.{AreSameOnce, CertifiesAny, CertifiesBy, IsAnyOnce, IsTold, clean_end, is_right};
ghost use Rattle.clean_reports.specs.Lines.{verdict_line};
ghost use Rattle.clean_reports.specs.declared.verdict.Verdict.TheVariants.{Clean};
ghost use Rattle.driver.specs.Certified.{Certifies, IsCertifiedOnce, IsVerdictOnce, end_of_verdict};
ghost use Rattle.exit_status.specs.Ends.{end_of};

use crate::choosing::chosen_of;
use any_verdicts::{AnyVerdict, Chosen, certify_any, push_any_verdict};
use checkpoints::{Trail, spacing_for};
use clean_reports::laws::inputs_are_bytes;
use clean_reports::{Verdict, certify, push_verdict};
use command_line::CertifyArgs;
use exit_status::End;
use guest_elf::Image;
use guest_machine::Machine;
use line_protocol::{Sent, send};
use replay_session::MOST_STEPS;
use scenario::setup_with;
use std::alloc::{AllocError, Global};
use std::io::Write;

/// Returns the verdict on the run of a program with an input up to a step, with no marks and default options.
fn verdict_once(
    alloc: Global,
    image: &Image,
    input: Vec<u8>,
    step: u32,
) -> Result<Verdict, AllocError>
    ensures verdict { IfOk result (λ verdict. IsVerdictOnce image.now input.items step verdict) }
    ensures certified { (ended : Bool) → result ≡ Ok (Clean ended) → IsCertifiedOnce image.now input.items step }
{
    inputs_are_bytes(&input);
    let setup = setup_with(alloc, image, input)?;
    let mut trail = Trail::begin_apart(alloc, image, spacing_for(step))?;
    certify(&mut trail, &setup, &[], step)
}

/// Returns the line of a verdict up to a step.
fn line_of(
    alloc: Global,
    image: &Image,
    step: u32,
    verdict: &Verdict,
) -> Result<Vec<u8>, AllocError>
    ensures { IfOk result (λ line. line.items ≡ verdict_line image.now step verdict.now) }
{
    let mut line = Vec::new(alloc);
    push_verdict(&mut line, image, step, verdict)?;
    Ok(line)
}

/// Returns how the program ends with a verdict, by whether its step was asked for.
fn ended_by<'a>(verdict: &Verdict, is_asked: bool) -> Result<(), End<'a>>
    ensures { end_of result ≡ end_of_verdict is_asked verdict.now }
{
    match verdict {
        Verdict::Clean(ended) => {
            if *ended || is_asked {
                Ok(())
            } else {
                Err(End::NotClean)
            }
        }
        Verdict::Mark(..) | Verdict::Use(_) => Err(End::NotClean),
    }
}

/// Writes the line of the verdict on the run of a program with an input up to a step, the greatest one if none was asked for.
fn print_verdict<'a, W: Write>(
    alloc: Global,
    image: &Image,
    input: Vec<u8>,
    asked: Option<u32>,
    writer: &mut W,
) -> Result<(), End<'a>>
    ensures { Certifies image.now input.items asked (W.contents writer.old) (W.contents writer.new) (end_of result) }
{
    let step = asked.unwrap_or(MOST_STEPS);
    let Ok(verdict) = verdict_once(alloc, image, input, step) else {
        return Err(End::NoMemory);
    };
    let Ok(line) = line_of(alloc, image, step, &verdict) else {
        return Err(End::NoMemory);
    };
    let Sent { whole, .. } = send(writer, &line);
    if !whole {
        return Err(End::CannotWrite);
    }
    ended_by(&verdict, asked.is_some())
}

/// Returns the verdict on the run of a program with an input up to a step, for every value of the bytes that are chosen.
fn any_once(
    alloc: Global,
    image: &Image,
    input: Vec<u8>,
    chosen: &Chosen,
    step: u32,
) -> Result<AnyVerdict, AllocError>
    ensures verdict { IfOk result (IsAnyOnce image.now input.items step chosen.now) }
    ensures same { (ended : Bool) (read : ℕ) → result ≡ Ok (Same ended read) → AreSameOnce image.now input.items step chosen.now }
{
    inputs_are_bytes(&input);
    let setup = setup_with(alloc, image, input)?;
    let bytes = chosen.bytes(alloc)?;
    let machine = Machine::start(alloc, image)?;
    certify_any(machine, &setup, &bytes, step)
}

/// Returns the line of a verdict for every value of the bytes that are chosen.
fn any_line_of(
    alloc: Global,
    image: &Image,
    chosen: &Chosen,
    step: u32,
    verdict: &AnyVerdict,
) -> Result<Vec<u8>, AllocError>
    ensures { IfOk result (λ line. line.items ≡ any_line image.now chosen.now step verdict.now) }
{
    let mut line = Vec::new(alloc);
    push_any_verdict(&mut line, image, chosen, step, verdict)?;
    Ok(line)
}

/// Returns whether a verdict for every value is all right, by whether its step was asked for.
fn is_right(verdict: &AnyVerdict, is_asked: bool) -> bool
    ensures { result ≡ is_right is_asked verdict.now }
{
    match verdict {
        AnyVerdict::Same { ended, .. } => *ended || is_asked,
        _ => false,
    }
}

/// Returns whether a clean run has ended.
fn clean_end(verdict: &Verdict) -> Option<bool>
    ensures { result ≡ clean_end verdict.now }
{
    match verdict {
        Verdict::Clean(ended) => Some(*ended),
        Verdict::Mark(..) | Verdict::Use(_) => None,
    }
}

/// What is said of a run, and whether it is all right.
#[derive(Drop)]
struct Told {
    line: Vec<u8>,
    right: bool,
}

/// Returns what is said of the run of a program with an input up to a step: whether it is clean, and if so, whether it is the same for every
/// value of the bytes that are chosen.
fn told_of(
    alloc: Global,
    image: &Image,
    input: Vec<u8>,
    chosen: &Chosen,
    step: u32,
    is_asked: bool,
) -> Result<Told, AllocError>
    ensures { IfOk result (λ told. IsTold image.now input.items step is_asked chosen.now told.line.items told.right) }
{
    let copy = input.as_slice().to_vec(alloc)?;
    let Ok(plain) = verdict_once(alloc, image, copy, step) else {
        return Err(AllocError);
    };
    if clean_end(&plain).is_none() {
        let line = line_of(alloc, image, step, &plain)?;
        return Ok(Told { line, right: false });
    }
    let verdict = any_once(alloc, image, input, chosen, step)?;
    let line = any_line_of(alloc, image, chosen, step, &verdict)?;
    let right = is_right(&verdict, is_asked);
    Ok(Told { line, right })
}

/// Writes what is said of a run for every value of the bytes that are chosen.
fn print_any<'a, W: Write>(
    alloc: Global,
    image: &Image,
    input: Vec<u8>,
    asked: Option<u32>,
    chosen: &Chosen,
    writer: &mut W,
) -> Result<(), End<'a>>
    ensures { CertifiesAny image.now input.items asked chosen.now (W.contents writer.old) (W.contents writer.new) (end_of result) }
{
    let last = asked.unwrap_or(MOST_STEPS);
    let Ok(told) = told_of(alloc, image, input, chosen, last, asked.is_some()) else {
        return Err(End::NoMemory);
    };
    let sent = send(writer, &told.line);
    if !sent.whole {
        return Err(End::CannotWrite);
    }
    if told.right {
        Ok(())
    } else {
        Err(End::NotClean)
    }
}

/// Writes the line of the verdict that some arguments ask for.
pub(crate) fn print_certified<'a, W: Write>(
    alloc: Global,
    image: &Image,
    input: Vec<u8>,
    args: &CertifyArgs<'a>,
    writer: &mut W,
) -> Result<(), End<'a>>
    requires { length input.items ≤ longest_input }
    ensures { CertifiesBy image.now input.items args.now (W.contents writer.old) (W.contents writer.new) (end_of result) }
{
    match chosen_of(args, input.len() as u32)? {
        None => print_verdict(alloc, image, input, args.step, writer),
        Some(chosen) => print_any(alloc, image, input, args.step, &chosen, writer),
    }
}
