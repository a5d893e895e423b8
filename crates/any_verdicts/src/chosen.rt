//! Bytes that may be any, as a user chooses them.
ghost use Rattle.std.specs.Prelude.{◌≡◌, IfOk};
ghost use Rattle.any_verdicts.specs.Chosen.{listed};

use crate::any_bytes::{AnyBytes, Reveal};
use run_values::Span;
use std::alloc::{AllocError, Global};

/// A range of the input, one of memory, and what is revealed of them, each if there is one.
#[derive(Clone, Copy)]
pub struct Chosen {
    /// A range of the input, by positions.
    pub input: Option<Span>,
    /// A range of memory, from step 0 on.
    pub memory: Option<Span>,
    /// What may be known of them.
    pub reveal: Option<Reveal>,
}

/// Returns a list of ranges: the one that there is, or none.
fn listed_span(alloc: Global, span: Option<Span>) -> Result<Vec<Span>, AllocError>
    ensures { IfOk result (λ list. list.items ≡ listed span) }
{
    let mut list = Vec::new(alloc);
    if let Some(span) = span {
        list.push(span)?;
    }
    Ok(list)
}

/// Returns a list of what is revealed.
fn listed_reveal(alloc: Global, reveal: Option<Reveal>) -> Result<Vec<Reveal>, AllocError>
    ensures { IfOk result (λ list. list.items ≡ listed reveal) }
{
    let mut list = Vec::new(alloc);
    if let Some(reveal) = reveal {
        list.push(reveal)?;
    }
    Ok(list)
}

impl Chosen {
    /// Returns the bytes.
    pub fn bytes(&self, alloc: Global) -> Result<AnyBytes, AllocError>
        ensures input { IfOk result (λ bytes. bytes.input.items ≡ listed self.now.input) }
        ensures memory { IfOk result (λ bytes. bytes.memory.items ≡ listed self.now.memory) }
        ensures revealed { IfOk result (λ bytes. bytes.revealed.items ≡ listed self.now.reveal) }
    {
        Ok(AnyBytes {
            input: listed_span(alloc, self.input)?,
            memory: listed_span(alloc, self.memory)?,
            revealed: listed_reveal(alloc, self.reveal)?,
        })
    }
}
