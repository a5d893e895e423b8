//! What each edit does to a scenario: why it is rejected, where it shows, and what it leaves.
mod input;
mod marks;
mod options;
mod switches;
mod words;

ghost use Rattle.std.specs.Prelude.{◌≡◌};
ghost use Rattle.scenario.specs.Edits.{refused_if};

use crate::scenario::Scenario;
use checkpoints::Effect;
use commands::{Edit, Refusal};
use guest_machine::Code;
use std::alloc::AllocError;

/// Returns a refusal if a test holds.
fn refused_if(test: bool, refusal: Refusal) -> Option<Refusal>
    ensures { result ≡ refused_if test refusal }
{
    if test { Some(refusal) } else { None }
}

impl<'a> Scenario<'a> {
    ghost use Rattle.std.specs.Prelude.{◌≡◌, true, OnOk, OnErr};
    ghost use Rattle.scenario.specs.Edits.{row, IsTaken, WritesLoaded};

    /// Returns why an edit is rejected, if it is.
    pub fn refusal(&self, edit: &Edit) -> Option<Refusal>
        ensures { result ≡ (row self.now edit.now).refusal }
    {
        match edit {
            Edit::Input { offset, .. } => self.input_refusal(*offset),
            Edit::Append(_) => self.append_refusal(),
            Edit::Cut => self.cut_refusal(),
            Edit::Overwrite { offset, bytes } => self.overwrite_refusal(*offset, bytes),
            Edit::Give(bytes) => self.give_refusal(bytes),
            Edit::Patch { addr, .. } => self.patch_refusal(*addr),
            Edit::PatchHalf { addr, .. } => self.half_refusal(*addr),
            Edit::Mark(mark) => self.mark_refusal(mark),
            Edit::Unmark(index) => self.unmark_refusal(*index),
            Edit::Switch { index, .. } => self.switch_refusal(*index),
            Edit::Callers(n) => self.callers_refusal(*n),
            Edit::Redzone(n) => self.redzone_refusal(*n),
            Edit::Volume(n) => self.volume_refusal(*n),
            Edit::Add(_) | Edit::Show(_) => None,
        }
    }

    /// Returns where an edit shows in the run. If the edit isn't rejected and writes a code, that replaces a loaded one.
    pub fn effect(&self, edit: &Edit) -> Effect
        ensures effect { result ≡ (row self.now edit.now).effect }
        ensures loaded { IsTaken self.now edit.now → WritesLoaded self.now.image result }
    {
        match edit {
            Edit::Input { offset, .. } => Effect::Input(*offset),
            Edit::Append(_) => Effect::End,
            Edit::Cut => self.last_byte(),
            Edit::Overwrite { offset, bytes } => self.overwrite_shows(*offset, bytes),
            Edit::Give(bytes) => self.give_shows(bytes),
            Edit::Patch { addr, word } => self.word_shows(*addr, *word),
            Edit::PatchHalf { addr, half } => self.half_shows(*addr, *half),
            Edit::Mark(mark) => Effect::After(mark.step),
            Edit::Unmark(index) => self.mark_at(*index),
            Edit::Redzone(_) | Edit::Volume(_) => Effect::Heap,
            Edit::Switch { .. } | Edit::Add(_) | Edit::Callers(_) | Edit::Show(_) => {
                Effect::Nowhere
            }
        }
    }

    /// Applies an edit that isn't rejected. If memory runs out, nothing changes.
    pub fn edit(&mut self, edit: Edit) -> Result<(), AllocError>
        requires { IsTaken self.old edit }
        ensures ok { OnOk result (self.new ≡ (row self.old edit).after) }
        ensures err { OnErr result (((row self.old edit).may_fail ≡ true) × (self.new ≡ self.old)) }
    {
        match edit {
            Edit::Input { offset, byte } => self.set_byte(offset, byte),
            Edit::Append(byte) => return self.append(byte),
            Edit::Cut => self.cut(),
            Edit::Overwrite { offset, bytes } => self.overwrite(offset, bytes),
            Edit::Give(bytes) => self.give(bytes.into_vec()),
            Edit::Patch { addr, word } => return self.write(addr, Code::Word(word)),
            Edit::PatchHalf { addr, half } => return self.write(addr, Code::Half(half)),
            Edit::Mark(mark) => return self.mark(mark),
            Edit::Unmark(index) => self.unmark(index),
            Edit::Switch { index, on } => self.switch(index, on),
            Edit::Add(suppression) => return self.add(suppression),
            Edit::Callers(n) => self.set_callers(n),
            Edit::Redzone(n) => self.set_redzone(n),
            Edit::Volume(n) => self.set_volume(n),
            Edit::Show(kinds) => self.show(kinds),
        }
        Ok(())
    }
}
