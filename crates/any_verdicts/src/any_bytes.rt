//! The bytes that may be any.
ghost use Rattle.std.specs.Prelude.{◌≡◌};
ghost use Rattle.any_verdicts.specs.Chosen.{has_position, is_at};

use run_values::Span;

/// A range of memory whose bytes may be known just before a step.
#[derive(Clone, Copy)]
pub struct Reveal {
    /// The number of the step, from 0.
    pub step: u32,
    /// The range.
    pub span: Span,
}

/// The bytes of a run that may be any.
#[derive(Drop)]
pub struct AnyBytes {
    /// Ranges of the input, by positions.
    pub input: Vec<Span>,
    /// Ranges of memory, from step 0 on.
    pub memory: Vec<Span>,
    /// What may be known of them.
    pub revealed: Vec<Reveal>,
}

/// Returns whether a position is among `len` from `start` on.
fn is_at(start: u32, len: u32, position: u64) -> bool
    ensures { result ≡ is_at start len position }
{
    let first = u64::from(start);
    first <= position && position - first < u64::from(len)
}

/// Returns whether a position is in one of some ranges of positions.
pub(crate) fn has_position(spans: &[Span], position: u64) -> bool
    ensures { result ≡ has_position spans.now position }
{
    spans
        .iter()
        .any(|span| is_at(span.start, span.len, position))
}
