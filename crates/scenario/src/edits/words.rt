//! Words and halves written into the program.
ghost use Rattle.std.specs.Prelude.{◌≡◌};
ghost use Rattle.scenario.specs.Edits.{half_refusal};

use crate::edits::refused_if;
use crate::scenario::Scenario;
use crate::written::Written;
use checkpoints::{Effect, code_effect};
use commands::Refusal;
use guest_elf::Image;
use guest_machine::Code;
use std::alloc::AllocError;

/// Returns why a half isn't written, if it isn't.
#[tactic(auto, unfolding(crate::specs::Edits::half_refusal))]
fn half_refusal(image: &Image, addr: u32) -> Option<Refusal>
    ensures { result ≡ half_refusal image.now addr }
{
    if image.profile().isa.has_halves() {
        refused_if(!image.is_half_word(addr), Refusal::NotPatchable)
    } else {
        Some(Refusal::NoHalves)
    }
}

impl<'a> Scenario<'a> {
    ghost use Rattle.std.specs.Prelude.{◌≡◌, ◌-◌, take, length, OnOk, OnErr};
    ghost use Rattle.scenario.specs.Edits.{row, with_code, IsTaken, WritesLoaded};
    ghost use Rattle.commands.specs.declared.edit.Edit.TheVariants.{Patch, PatchHalf};

    pub(crate) fn patch_refusal(&self, addr: u32) -> Option<Refusal>
        ensures { result ≡ (row self.now (Patch addr 0)).refusal }
    {
        refused_if(!self.image.is_word(addr), Refusal::NotPatchable)
    }

    pub(crate) fn half_refusal(&self, addr: u32) -> Option<Refusal>
        ensures { result ≡ (row self.now (PatchHalf addr 0)).refusal }
    {
        half_refusal(&self.image, addr)
    }

    /// Returns where another word shows.
    pub(crate) fn word_shows(&self, addr: u32, word: u32) -> Effect
        ensures effect { result ≡ (row self.now (Patch addr word)).effect }
        ensures loaded { IsTaken self.now (Patch addr word) → WritesLoaded self.now.image result }
    {
        let isa = self.image.profile().isa;
        code_effect(isa, &self.marks, addr, Code::Word(word))
    }

    /// Returns where another half shows.
    pub(crate) fn half_shows(&self, addr: u32, half: u16) -> Effect
        ensures effect { result ≡ (row self.now (PatchHalf addr half)).effect }
        ensures loaded { IsTaken self.now (PatchHalf addr half) → WritesLoaded self.now.image result }
    {
        let isa = self.image.profile().isa;
        code_effect(isa, &self.marks, addr, Code::Half(half))
    }

    /// Writes a code.
    pub(crate) fn write(&mut self, addr: u32, code: Code) -> Result<(), AllocError>
        ensures ok { OnOk result (self.new ≡ with_code self.old addr code) }
        ensures err { OnErr result (self.new ≡ self.old) }
    {
        self.words.push(Written { addr, code })?;
        Ok(())
    }

    /// Removes the word or half that was written last, if there is one.
    pub fn drop_word(&mut self)
        ensures { self.new ≡ record self.old { words = take (length self.old.words - 1) self.old.words } }
    {
        let _last = self.words.pop();
    }
}
