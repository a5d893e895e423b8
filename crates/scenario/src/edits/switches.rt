//! Suppressions and their switches.
use crate::edits::refused_if;
use crate::scenario::Scenario;
use commands::Refusal;
use std::alloc::AllocError;
use suppressions::Suppression;

impl<'a> Scenario<'a> {
    ghost use Rattle.std.specs.Prelude.{◌≡◌, false, OnOk, OnErr};
    ghost use Rattle.scenario.specs.Edits.{row, IsTaken};
    ghost use Rattle.commands.specs.declared.edit.Edit.TheVariants.{Switch, Add};

    pub(crate) fn switch_refusal(&self, index: u32) -> Option<Refusal>
        ensures { result ≡ (row self.now (Switch index false)).refusal }
    {
        let beyond = index as usize >= self.suppressions.len();
        refused_if(beyond, Refusal::NoSuchSuppression)
    }

    /// Switches the suppression at an index on or off.
    pub(crate) fn switch(&mut self, index: u32, on: bool)
        requires { IsTaken self.old (Switch index on) }
        ensures { self.new ≡ (row self.old (Switch index on)).after }
    {
        self.suppressions[index as usize].switch(on);
    }

    /// Appends a suppression to the list.
    pub(crate) fn add(&mut self, suppression: Suppression) -> Result<(), AllocError>
        ensures ok { OnOk result (self.new ≡ (row self.old (Add suppression)).after) }
        ensures err { OnErr result (self.new ≡ self.old) }
    {
        self.suppressions.push(suppression)?;
        Ok(())
    }
}
