//! Options of the heap and of the report.
use crate::edits::refused_if;
use crate::limits::{LARGEST_REDZONE, LARGEST_VOLUME, MOST_CALLERS};
use crate::scenario::Scenario;
use commands::Refusal;
use suppressions::LeakKinds;

impl<'a> Scenario<'a> {
    ghost use Rattle.std.specs.Prelude.{◌≡◌};
    ghost use Rattle.scenario.specs.Edits.{row, IsTaken};
    ghost use Rattle.commands.specs.declared.edit.Edit.TheVariants.{Callers, Redzone, Volume, Show};

    pub(crate) fn callers_refusal(&self, n: u32) -> Option<Refusal>
        ensures { result ≡ (row self.now (Callers n)).refusal }
    {
        refused_if(n < 1 || n > MOST_CALLERS, Refusal::BadOption)
    }

    pub(crate) fn redzone_refusal(&self, n: u32) -> Option<Refusal>
        ensures { result ≡ (row self.now (Redzone n)).refusal }
    {
        refused_if(n > LARGEST_REDZONE, Refusal::BadOption)
    }

    pub(crate) fn volume_refusal(&self, n: u32) -> Option<Refusal>
        ensures { result ≡ (row self.now (Volume n)).refusal }
    {
        refused_if(n > LARGEST_VOLUME, Refusal::BadOption)
    }

    /// Sets the number of addresses of a trace that are shown.
    pub(crate) fn set_callers(&mut self, n: u32)
        requires { IsTaken self.old (Callers n) }
        ensures { self.new ≡ (row self.old (Callers n)).after }
    {
        self.options.callers = n;
    }

    /// Sets the redzone of the blocks that are allocated.
    pub(crate) fn set_redzone(&mut self, n: u32)
        ensures { self.new ≡ (row self.old (Redzone n)).after }
    {
        self.setup.redzone = n;
    }

    /// Sets the number of bytes that freed blocks may have in all.
    pub(crate) fn set_volume(&mut self, n: u32)
        ensures { self.new ≡ (row self.old (Volume n)).after }
    {
        self.setup.volume = n;
    }

    /// Sets the kinds of leak that are shown.
    pub(crate) fn show(&mut self, kinds: LeakKinds)
        ensures { self.new ≡ (row self.old (Show kinds)).after }
    {
        self.options.show = [
            kinds.definite,
            kinds.indirect,
            kinds.possible,
            kinds.reachable,
        ];
    }
}
