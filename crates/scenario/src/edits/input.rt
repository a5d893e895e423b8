//! Edits of the input.
ghost use Rattle.std.specs.Prelude.{◌≡◌, ◌+◌, ◌<◌, ◌≤◌, length, nat_lt, slice_set};
ghost use Rattle.scenario.specs.Edits.{alike, input_effect, overwritten};
ghost use Rattle.scenario.specs.Limits.{longest_input};

use crate::edits::refused_if;
use crate::limits::LONGEST_INPUT;
use crate::scenario::Scenario;
use checkpoints::Effect;
use commands::{Bytes, Refusal};
use guest_machine::Input;
use std::alloc::AllocError;
use std::mem;

/// Returns an input with one byte replaced.
fn with_byte(input: Input, offset: u32, byte: u8) -> Input
    requires { offset < length input }
    ensures { result ≡ slice_set input offset byte }
{
    let mut bytes = input.into_vec();
    bytes[offset as usize] = byte;
    Input::new(bytes)
}

/// Returns an input with some of its bytes replaced, from an offset on.
fn with_bytes(input: Input, offset: u32, bytes: Bytes) -> Input
    requires { offset + length bytes ≤ length input }
    ensures { result ≡ overwritten input offset bytes }
{
    let mut all = input.into_vec();
    let start = offset as usize;
    let end = start + bytes.len();
    all[start..end].copy_from_slice(bytes.as_slice());
    Input::new(all)
}

/// Whether a number of bytes from an offset on go beyond an input of a length.
fn is_beyond(len: usize, offset: u32, count: usize) -> bool
    requires { len ≤ longest_input }
    ensures { result ≡ nat_lt len (offset + count) }
{
    let end = (offset as usize).saturating_add(count);
    end > len
}

/// Returns the number of bytes with which two inputs begin alike.
#[tactic(auto, unfolding(crate::specs::Edits::alike))]
fn alike(one: &[u8], other: &[u8]) -> usize
    ensures { result ≡ alike one.now other.now }
{
    let mut n = 0;
    while n < one.len() && n < other.len() && one[n] == other[n] {
        n += 1;
    }
    n
}

/// Returns where another input shows.
#[tactic(auto, unfolding(crate::specs::Edits::input_effect))]
fn input_effect(old: &[u8], new: &[u8]) -> Effect
    requires { length old.now ≤ longest_input }
    ensures { result ≡ input_effect old.now new.now }
{
    let same = alike(old, new);
    if same < old.len() {
        Effect::Input(same as u32)
    } else if old.len() < new.len() {
        Effect::End
    } else {
        Effect::Nowhere
    }
}

/// Returns where an input shows with some of its bytes replaced, from an offset on.
fn overwrite_effect(input: &[u8], offset: u32, bytes: &[u8]) -> Effect
    requires { length input.now ≤ longest_input }
    ensures { result ≡ input_effect input.now (overwritten input.now offset bytes.now) }
{
    let start = input.len().min(offset as usize);
    let rest = &input[start..];
    let same = alike(rest, bytes);
    if same == bytes.len() {
        Effect::Nowhere
    } else if same == rest.len() {
        Effect::End
    } else {
        Effect::Input((start + same) as u32)
    }
}

impl<'a> Scenario<'a> {
    ghost use Rattle.std.specs.Prelude.{◌≡◌, OnOk, OnErr};
    ghost use Rattle.scenario.specs.Edits.{row, IsTaken};
    ghost use Rattle.commands.specs.declared.edit.Edit.TheVariants.{Input as Replace, Append, Cut, Overwrite, Give};

    pub(crate) fn input_refusal(&self, offset: u32) -> Option<Refusal>
        ensures { result ≡ (row self.now (Replace offset 0)).refusal }
    {
        refused_if(
            offset as usize >= self.setup.input.len(),
            Refusal::OutsideInput,
        )
    }

    pub(crate) fn append_refusal(&self) -> Option<Refusal>
        ensures { result ≡ (row self.now (Append 0)).refusal }
    {
        refused_if(
            self.setup.input.len() >= LONGEST_INPUT,
            Refusal::InputTooLarge,
        )
    }

    pub(crate) fn cut_refusal(&self) -> Option<Refusal>
        ensures { result ≡ (row self.now Cut).refusal }
    {
        refused_if(self.setup.input.len() < 1, Refusal::OutsideInput)
    }

    pub(crate) fn overwrite_refusal(&self, offset: u32, bytes: &Bytes) -> Option<Refusal>
        ensures { result ≡ (row self.now (Overwrite offset bytes.now)).refusal }
    {
        let beyond = is_beyond(self.setup.input.len(), offset, bytes.len());
        refused_if(beyond, Refusal::OutsideInput)
    }

    pub(crate) fn give_refusal(&self, bytes: &Bytes) -> Option<Refusal>
        ensures { result ≡ (row self.now (Give bytes.now)).refusal }
    {
        refused_if(bytes.len() > LONGEST_INPUT, Refusal::InputTooLarge)
    }

    /// Returns where the removal of the input's last byte shows.
    pub(crate) fn last_byte(&self) -> Effect
        ensures { result ≡ (row self.now Cut).effect }
    {
        Effect::Input((self.setup.input.len() as u32).saturating_sub(1))
    }

    /// Returns where bytes from an offset on show.
    pub(crate) fn overwrite_shows(&self, offset: u32, bytes: &Bytes) -> Effect
        ensures { result ≡ (row self.now (Overwrite offset bytes.now)).effect }
    {
        overwrite_effect(self.setup.input.as_slice(), offset, bytes.as_slice())
    }

    /// Returns where another input shows.
    pub(crate) fn give_shows(&self, bytes: &Bytes) -> Effect
        ensures { result ≡ (row self.now (Give bytes.now)).effect }
    {
        input_effect(self.setup.input.as_slice(), bytes.as_slice())
    }

    /// Replaces a byte.
    pub(crate) fn set_byte(&mut self, offset: u32, byte: u8)
        requires { IsTaken self.old (Replace offset byte) }
        ensures { self.new ≡ (row self.old (Replace offset byte)).after }
    {
        let input = mem::replace(&mut self.setup.input, Input::new(Vec::new(self.alloc)));
        self.setup.input = with_byte(input, offset, byte);
    }

    /// Appends a byte.
    pub(crate) fn append(&mut self, byte: u8) -> Result<(), AllocError>
        requires { IsTaken self.old (Append byte) }
        ensures ok { OnOk result (self.new ≡ (row self.old (Append byte)).after) }
        ensures err { OnErr result (self.new ≡ self.old) }
    {
        self.setup.input.push(byte)
    }

    /// Removes the last byte.
    pub(crate) fn cut(&mut self)
        ensures { self.new ≡ (row self.old Cut).after }
    {
        self.setup.input.pop();
    }

    /// Replaces bytes, from an offset on.
    pub(crate) fn overwrite(&mut self, offset: u32, bytes: Bytes)
        requires { IsTaken self.old (Overwrite offset bytes) }
        ensures { self.new ≡ (row self.old (Overwrite offset bytes)).after }
    {
        let input = mem::replace(&mut self.setup.input, Input::new(Vec::new(self.alloc)));
        self.setup.input = with_bytes(input, offset, bytes);
    }
}
