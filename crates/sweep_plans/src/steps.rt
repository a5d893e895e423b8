//! Reads the steps of a sweep, with what is tried at them.
ghost use Rattle.std.specs.Prelude.{◌≡◌, IfErr, IfOk, None, Some};
ghost use Rattle.command_line.specs.Orders.{text_of};
ghost use Rattle.sweep_plans.specs.Models.{models_of};
ghost use Rattle.sweep_plans.specs.Requests.{IsBadRange, NamesRange, closed_range_of, range_of};
ghost use Rattle.sweep_plans.specs.Steps.{AreBadFaults, AreBadPairs, AreBadSteps, AreNoSteps, AreSteps, IsBadAt, NamesSteps, pairs_of};
ghost use Rattle.exit_status.specs.declared.ends.SweepOption.TheVariants.{CodeRange};

use crate::models::models_of;
use crate::plan::FaultModels;
use crate::request::{Range, closed_range, open_range};
use command_line::SweepArgs;
use exit_status::{End, LoneOption, SweepOption};

/// The steps that a sweep strikes by faults.
#[derive(Clone, Copy)]
pub struct StepRequest {
    /// The steps.
    pub at: Range,
    /// The fault models that are tried at each.
    pub models: FaultModels,
    /// The addresses to which pc is limited at these steps, if some are named.
    pub code: Option<Range>,
    /// Whether two instructions are left out, too.
    pub pairs: bool,
}

const SKIP: &[u8] = b"skip";

/// Returns the steps that are named.
fn named_at<'a>(text: &'a str) -> Result<Range, End<'a>>
    ensures ok { IfOk result (λ at. range_of text.entry.now ≡ Some at) }
    ensures err { IfErr result (IsBadAt text.entry.now) }
{
    match open_range(text.as_bytes()) {
        Some(at) => Ok(at),
        None => Err(End::BadText {
            option: SweepOption::At,
            text,
        }),
    }
}

/// Returns the fault models that are named.
fn named_models<'a>(text: &'a str) -> Result<FaultModels, End<'a>>
    ensures ok { IfOk result (λ models. models_of text.entry.now ≡ Some models) }
    ensures err { IfErr result (AreBadFaults text.entry.now) }
{
    match models_of(text.as_bytes()) {
        Some(models) => Ok(models),
        None => Err(End::BadText {
            option: SweepOption::Faults,
            text,
        }),
    }
}

/// Returns the range of code that is named, if one is.
fn named_code<'a>(text: Option<&'a str>) -> Result<Option<Range>, End<'a>>
    ensures ok { IfOk result (NamesRange closed_range_of (text_of text.entry)) }
    ensures err { IfErr result (IsBadRange CodeRange closed_range_of (text_of text.entry)) }
{
    let Some(text) = text else {
        return Ok(None);
    };
    match closed_range(text.as_bytes()) {
        Some(range) => Ok(Some(range)),
        None => Err(End::BadText {
            option: SweepOption::CodeRange,
            text,
        }),
    }
}

/// Returns whether pairs are named.
fn named_pairs<'a>(text: Option<&'a str>) -> Result<bool, End<'a>>
    ensures ok { IfOk result (λ pairs. pairs_of (text_of text.entry) ≡ Some pairs) }
    ensures err { IfErr result (AreBadPairs (text_of text.entry)) }
{
    let Some(text) = text else {
        return Ok(false);
    };
    if text.as_bytes() == SKIP {
        Ok(true)
    } else {
        Err(End::BadText {
            option: SweepOption::Pairs,
            text,
        })
    }
}

/// Returns the steps in these texts, which are read in this order.
fn steps_in<'a>(
    at: &'a str,
    faults: &'a str,
    code: Option<&'a str>,
    pairs: Option<&'a str>,
) -> Result<StepRequest, End<'a>>
    ensures ok { IfOk result (NamesSteps at.entry.now faults.entry.now (text_of code.entry) (text_of pairs.entry)) }
    ensures err { IfErr result (AreBadSteps at.entry.now faults.entry.now (text_of code.entry) (text_of pairs.entry)) }
{
    let at = named_at(at)?;
    let models = named_models(faults)?;
    let code = named_code(code)?;
    let pairs = named_pairs(pairs)?;
    Ok(StepRequest {
        at,
        models,
        code,
        pairs,
    })
}

/// Returns no steps, if no option is there that needs some.
fn no_steps<'a>(
    faults: Option<&'a str>,
    code: Option<&'a str>,
    pairs: Option<&'a str>,
) -> Result<Option<StepRequest>, End<'a>>
    ensures ok { IfOk result (AreSteps None (text_of faults.entry) (text_of code.entry) (text_of pairs.entry)) }
    ensures err { IfErr result (AreNoSteps None (text_of faults.entry) (text_of code.entry) (text_of pairs.entry)) }
{
    if faults.is_some() {
        return Err(End::Lone(LoneOption::Faults));
    }
    if code.is_some() {
        return Err(End::Lone(LoneOption::CodeRange));
    }
    if pairs.is_some() {
        return Err(End::Lone(LoneOption::Pairs));
    }
    Ok(None)
}

/// Returns the steps in the arguments of a sweep, if they name any.
pub fn named_steps<'a>(
    at: Option<&'a str>,
    faults: Option<&'a str>,
    code: Option<&'a str>,
    pairs: Option<&'a str>,
) -> Result<Option<StepRequest>, End<'a>>
    ensures ok { IfOk result (AreSteps (text_of at.entry) (text_of faults.entry) (text_of code.entry) (text_of pairs.entry)) }
    ensures err { IfErr result (AreNoSteps (text_of at.entry) (text_of faults.entry) (text_of code.entry) (text_of pairs.entry)) }
{
    let Some(at) = at else {
        return no_steps(faults, code, pairs);
    };
    let Some(faults) = faults else {
        return Err(End::Lone(LoneOption::At));
    };
    Ok(Some(steps_in(at, faults, code, pairs)?))
}
