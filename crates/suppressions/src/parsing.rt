//! A suppression text.
ghost use Rattle.std.specs.Prelude.{◌≡◌, ◌≤◌, ℕ, [], IfOk, MatchResult, length};
ghost use Rattle.suppressions.specs.Blocks.{IsFirstFault};
ghost use Rattle.suppressions.specs.Texts.{KeepsFirst, NeedsMemory, faults_in, rules_in, faults, rules, IsLeast};

use crate::blocks::{Body, block};
use crate::fault::SuppFault;
use crate::lines::{Lines, TEXT_LIMIT};
use crate::suppression::Suppression;
use std::alloc::Global;

/// The line that begins a block.
const OPEN: &[u8] = b"{";

/// Returns the suppressions of some lines, or the first line at fault.
fn read_lines(alloc: Global, mut lines: Lines<'_>) -> Result<Vec<Suppression>, SuppFault>
    ensures read { MatchResult result (λ list. (faults_in lines.entry ≡ []) × (list.items ≡ rules_in lines.entry)) (IsFirstFault (faults_in lines.entry)) }
    ensures memory { result ≡ Err SuppFault.Memory → KeepsFirst lines.entry }
{
    let mut list = Vec::new(alloc);
    while let Some(open) = lines.next() {
        if open.text() != OPEN {
            return Err(SuppFault::BadSuppression(open.number()));
        }
        let body = Body::new(lines.fork());
        let Some(close) = lines.pass_block() else {
            return Err(SuppFault::BadSuppression(open.number()));
        };
        let suppression = block(alloc, body, close)?;
        list.push(suppression)?;
    }
    Ok(list)
}

/// Returns the suppressions of a text of at most [`TEXT_LIMIT`] bytes, each switched on, in order. The text's form is that of Valgrind's
/// suppression files (user manual, section 2.5).
///
/// # Errors
///
/// Fails with the least number of a line at fault; the first line is 1. If memory runs out, `Memory` may be returned instead, but only if
/// something of the text is kept before that fault: not if the first block has no end, nor if the fault comes before the block's parameter
/// or its first frame line.
pub fn parse(alloc: Global, text: &[u8]) -> Result<Vec<Suppression>, SuppFault>
    requires { length text.now ≤ TEXT_LIMIT }
    ensures read { IfOk result (λ list. (faults text.now ≡ []) × (list.items ≡ rules text.now)) }
    ensures refused { (line : ℕ) → result ≡ Err (SuppFault.BadSuppression line) → IsLeast line (faults text.now) }
    ensures memory { result ≡ Err SuppFault.Memory → NeedsMemory text.now }
{
    read_lines(alloc, Lines::new(text))
}
