//! Marks.
ghost use Rattle.std.specs.Prelude.{◌≡◌, ◌+◌, ◌^◌, nat_lt};
ghost use Rattle.scenario.specs.Edits.{is_bad_range, is_too_wide, mark_refusal};

use crate::edits::refused_if;
use crate::limits::{LONGEST_MARK, MOST_MARKS};
use crate::scenario::Scenario;
use checkpoints::Effect;
use commands::Refusal;
use guest_machine::{Act, Alteration, Width};
use std::alloc::AllocError;

/// Returns whether bytes lie past the last address.
fn is_past_the_end(addr: u32, len: u32) -> bool
    ensures { result ≡ nat_lt (2 ^ 32) (addr + len) }
{
    u64::from(addr) + u64::from(len) > 1 << 32
}

/// Returns whether a value is too wide for an access.
fn is_too_wide(width: Width, value: u32) -> bool
    ensures { result ≡ is_too_wide width value }
{
    match width {
        Width::Byte => value > 0xFF,
        Width::Half => value > 0xFFFF,
        Width::Word => false,
    }
}

/// Returns whether there are no such bytes as an act needs.
#[tactic(auto, unfolding(crate::specs::Edits::is_bad_range))]
fn is_bad_range(act: &Act) -> bool
    ensures { result ≡ is_bad_range act.now }
{
    match act {
        Act::Make { addr, len, .. } => {
            *len < 1 || *len > LONGEST_MARK || is_past_the_end(*addr, *len)
        }
        Act::Write { addr, width, value } => {
            is_past_the_end(*addr, width.len()) || is_too_wide(*width, *value)
        }
        Act::Turn { addr, .. } => is_past_the_end(*addr, 4),
        _ => false,
    }
}

/// Returns why a mark is rejected, up to this step and for this number of marks so far.
#[tactic(auto, unfolding(crate::specs::Edits::mark_refusal))]
fn refusal_of(limit: u32, marks: usize, mark: &Alteration) -> Option<Refusal>
    ensures { result ≡ mark_refusal limit marks mark.now }
{
    if mark.step > limit {
        Some(Refusal::StepLimit)
    } else if is_bad_range(&mark.act) {
        Some(Refusal::BadRange)
    } else if marks >= MOST_MARKS {
        Some(Refusal::TooManyMarks)
    } else {
        None
    }
}

impl<'a> Scenario<'a> {
    ghost use Rattle.std.specs.Prelude.{◌≡◌, OnOk, OnErr};
    ghost use Rattle.scenario.specs.Edits.{row, IsTaken};
    ghost use Rattle.commands.specs.declared.edit.Edit.TheVariants.{Mark as MarkEdit, Unmark};

    pub(crate) fn mark_refusal(&self, mark: &Alteration) -> Option<Refusal>
        ensures { result ≡ (row self.now (MarkEdit mark.now)).refusal }
    {
        refusal_of(self.limit, self.marks.len(), mark)
    }

    pub(crate) fn unmark_refusal(&self, index: u32) -> Option<Refusal>
        ensures { result ≡ (row self.now (Unmark index)).refusal }
    {
        refused_if(index as usize >= self.marks.len(), Refusal::NoSuchMark)
    }

    /// Returns where the mark at an index shows.
    pub(crate) fn mark_at(&self, index: u32) -> Effect
        ensures { result ≡ (row self.now (Unmark index)).effect }
    {
        match self.marks.get(index as usize) {
            Some(mark) => Effect::After(mark.step),
            None => Effect::After(0),
        }
    }

    /// Appends an alteration to the list of marks.
    pub(crate) fn mark(&mut self, mark: Alteration) -> Result<(), AllocError>
        ensures ok { OnOk result (self.new ≡ (row self.old (MarkEdit mark)).after) }
        ensures err { OnErr result (self.new ≡ self.old) }
    {
        let Alteration { step, act } = mark;
        let made = Alteration { step, act };
        self.marks.push(made)?;
        Ok(())
    }

    /// Removes the mark at an index.
    pub(crate) fn unmark(&mut self, index: u32)
        requires { IsTaken self.old (Unmark index) }
        ensures { self.new ≡ (row self.old (Unmark index)).after }
    {
        let _mark = self.marks.remove(index as usize);
    }
}
