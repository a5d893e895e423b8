//! The machines at the places of a trail.
ghost use Rattle.std.specs.Prelude.{◌≡◌, ℕ, List, ◌+◌, ◌-◌, ◌*◌, ◌<◌, ◌≤◌, ◌++◌, ◌∷◌, [], length, min, take, slice_index_or, slice_set, IfOk, OnOk, OnErr};
ghost use Rattle.guest_machine.specs.State.{State};
ghost use Rattle.guest_machine.specs.Shows.{Shows};
ghost use Rattle.guest_machine.specs.declared.machine.Machine.{Machine as MachineOf};
ghost use Rattle.checkpoints.specs.Places.{places_of, own_places, AreCopies};
ghost use Rattle.checkpoints.specs.Trails.{IsCopyAt};

use crate::held::Held;
use guest_machine::Machine;
use std::alloc::{AllocError, Global};

impl Held {
    /// Returns a machine at place 0.
    #[tactic(auto, unfolding(crate::specs::Places::places_of))]
    pub(crate) fn begin(alloc: Global, start: Machine) -> Result<Held, AllocError>
        ensures { IfOk result (λ held. places_of held ≡ start ∷ []) }
    {
        let mut machines = Vec::new(alloc);
        machines.push(start)?;
        Ok(Held { machines, more: 0 })
    }

    /// Where its memory comes from.
    pub(crate) fn allocator(&self) -> Global {
        *self.machines.allocator()
    }

    /// Returns the number of places.
    #[tactic(auto, unfolding(crate::specs::Places::places_of))]
    pub(crate) fn len(&self) -> usize
        ensures count { result ≡ length (places_of self.now) }
        ensures some { 0 < result }
        ensures few { result ≤ 4294967296 }
    {
        self.machines.len() + self.more
    }

    /// Returns the number of places that have a machine of their own.
    #[tactic(auto, unfolding(crate::specs::Places::own_places, crate::specs::Places::places_of))]
    pub(crate) fn own(&self) -> usize
        ensures own { result ≡ own_places self.now }
        ensures some { 0 < result }
        ensures within { result ≤ length (places_of self.now) }
    {
        self.machines.len()
    }

    /// Returns the machine at a place.
    #[tactic(auto, unfolding(crate::specs::Places::places_of))]
    pub(crate) fn at(&self, place: usize) -> &Machine
        requires { place < length (places_of self.now) }
        ensures { result.now ≡ slice_index_or (places_of self.now) place result.now }
    {
        let last = self.machines.len() - 1;
        if place < last {
            return &self.machines[place];
        }
        &self.machines[last]
    }

    /// Returns the machine at the last place.
    #[tactic(auto, unfolding(crate::specs::Places::places_of))]
    pub(crate) fn newest(&self) -> &Machine
        ensures { result.now ≡ slice_index_or (places_of self.now) (length (places_of self.now) - 1) result.now }
    {
        &self.machines[self.machines.len() - 1]
    }

    /// Returns a copy of the machine at the last place, to which what that one has decoded moves.
    #[tactic(auto, unfolding(crate::specs::Places::places_of))]
    pub(crate) fn share_moving(&mut self) -> Result<Machine, AllocError>
        ensures same { self.new ≡ self.old }
        ensures copy { IfOk result (IsCopyAt (places_of self.old) (length (places_of self.old) - 1)) }
    {
        let last = self.machines.len() - 1;
        self.machines[last].share_moving()
    }

    /// Gives a machine what the one at the last place has decoded.
    pub(crate) fn move_decoded_to(&mut self, machine: &mut Machine)
        ensures same { self.new ≡ self.old }
        ensures other { machine.new ≡ machine.old }
    {
        let last = self.machines.len() - 1;
        machine.move_decoded(&mut self.machines[last]);
    }

    /// Gives the machine at the last place what another one has decoded.
    pub(crate) fn move_decoded_from(&mut self, machine: &mut Machine)
        ensures same { self.new ≡ self.old }
        ensures other { machine.new ≡ machine.old }
    {
        let last = self.machines.len() - 1;
        self.machines[last].move_decoded(machine);
    }

    /// Adds a place with a machine of its own. Machines at the places before it may become copies.
    #[tactic(auto, unfolding(crate::specs::Places::places_of))]
    pub(crate) fn push(&mut self, machine: Machine) -> Result<(), AllocError>
        requires room { length (places_of self.old) < 4294967296 }
        ensures more { OnOk result ((all : List MachineOf) × AreCopies (places_of self.old) all × (places_of self.new ≡ all ++ machine ∷ [])) }
        ensures same { OnErr result (AreCopies (places_of self.old) (places_of self.new)) }
        ensures few { length (places_of self.new) ≤ length (places_of self.old) + 1 }
    {
        self.part()?;
        self.machines.push(machine)?;
        Ok(())
    }

    /// Gives each place a machine of its own.
    #[tactic(auto, unfolding(crate::specs::Places::places_of, crate::specs::Places::own_places))]
    fn part(&mut self) -> Result<(), AllocError>
        ensures same { AreCopies (places_of self.old) (places_of self.new) }
        ensures own { OnOk result (own_places self.new ≡ length (places_of self.new)) }
    {
        while self.more > 0 {
            let copy = self.machines[self.machines.len() - 1].share()?;
            self.machines.push(copy)?;
            self.more -= 1;
        }
        Ok(())
    }

    /// Makes the machine at the last place that of all places up to a number of these.
    #[tactic(auto, unfolding(crate::specs::Places::places_of, crate::specs::Places::own_places))]
    pub(crate) fn stay(&mut self, places: usize)
        requires second { 1 < length (places_of self.old) }
        requires more { length (places_of self.old) ≤ places }
        requires few { places ≤ 4294967296 }
        ensures count { length (places_of self.new) ≡ places }
        ensures before { (i : ℕ) (d : MachineOf) → i < length (places_of self.old)
            → slice_index_or (places_of self.new) i d ≡ slice_index_or (places_of self.old) i d }
        ensures later { (i : ℕ) (d : MachineOf) → length (places_of self.old) ≤ i → i < places
            → slice_index_or (places_of self.new) i d ≡ slice_index_or (places_of self.old) (length (places_of self.old) - 1) d }
    {
        self.more = places - self.machines.len();
    }

    /// Keeps the first places. The last of these takes over what the last one of all has decoded.
    #[tactic(auto, unfolding(crate::specs::Places::places_of))]
    pub(crate) fn keep(&mut self, kept: usize)
        requires { 0 < kept }
        ensures { places_of self.new ≡ take kept (places_of self.old) }
    {
        let own = self.machines.len();
        if kept < own {
            keep_first(&mut self.machines, kept);
            self.more = 0;
        } else if kept - own < self.more {
            self.more = kept - own;
        }
    }

    /// Puts another machine at a place that has one of its own, and with the last of these at the places after it.
    #[tactic(auto, unfolding(crate::specs::Places::places_of, crate::specs::Places::own_places))]
    pub(crate) fn put(&mut self, place: usize, machine: Machine)
        requires { place < own_places self.old }
        ensures count { length (places_of self.new) ≡ length (places_of self.old) }
        ensures own { own_places self.new ≡ own_places self.old }
        ensures there { (i : ℕ) (d : MachineOf) → i < length (places_of self.old) → min i (own_places self.old - 1) ≡ place
            → slice_index_or (places_of self.new) i d ≡ machine }
        ensures others { (i : ℕ) (d : MachineOf) → i < length (places_of self.old) → (min i (own_places self.old - 1) ≡ place → ⊥)
            → slice_index_or (places_of self.new) i d ≡ slice_index_or (places_of self.old) i d }
    {
        self.machines[place] = machine;
    }

    /// Puts another machine at place 0.
    #[tactic(auto, unfolding(crate::specs::Places::places_of))]
    pub(crate) fn put_first(&mut self, machine: Machine)
        ensures { places_of self.new ≡ slice_set (places_of self.old) 0 machine }
    {
        self.machines[0] = machine;
    }
}

/// Keeps the first of some machines. The last of these takes over what the last one of all has decoded.
fn keep_first(machines: &mut Vec<Machine>, kept: usize)
    requires { 0 < kept }
    ensures { machines.new.items ≡ take kept machines.old.items }
{
    if machines.len() > kept
        && let Some(mut newest) = machines.pop()
    {
        machines.truncate(kept);
        machines[kept - 1].move_decoded(&mut newest);
    }
}
