//! A map from keys to notes in order of insertion. Copying it costs little, and so does adding keys after it was copied.
//!
//! The entries are in layers and then in one young map, all of which copies share. A new key goes into the young map, which must be copied
//! first if a copy shares it. If a shared young map has 64 entries, it becomes a layer instead.
ghost use Rattle.std.specs.Prelude.{◌≡◌, ◌<◌, ◌^◌, [], ◌∷◌, ◌++◌, None, length, map, position, slice_get, OnOk, OnErr, IfOk};
ghost use Rattle.std.specs.Map.Iter.{deref_pair};
ghost use Rattle.std.specs.Option.{option_map};

use crate::event::Key;
use crate::kept_note::KeptNote;
use crate::layers::Layers;
use crate::shared_map::SharedMap;
use std::alloc::{AllocError, Global};
use std::marker::Model;

/// The number of entries from which on a shared young map isn't copied for a new key.
const COPIED: usize = 64;

/// The map. Contracts see it as the list of its entries.
#[derive(Drop)]
pub(crate) struct LayeredMap {
    settled: Layers,
    recent: SharedMap,
}

impl Model for LayeredMap {
    ghost use Rattle.std.specs.Prelude.{List, ◌++◌};
    ghost use Rattle.error_events.specs.Entries.{AreNew};
    ghost use Rattle.error_events.specs.declared.event.Key.{Key};
    ghost use Rattle.error_events.specs.declared.event.Note.{Note};

    ghost Value = { List (Key × Note) };

    ghost view = { λ m. m.settled ++ m.recent };

    ghost invariant = { λ m. AreNew ⟦<Key as PartialEq>⟧.eq m.settled m.recent };
}

impl LayeredMap {
    /// Returns the empty map. Allocates nothing.
    pub(crate) fn new(alloc: Global) -> Self
        ensures { result ≡ [] }
    {
        LayeredMap {
            settled: Layers::new(alloc),
            recent: SharedMap::new(),
        }
    }

    /// Returns the index of a key.
    pub(crate) fn position(&self, key: &Key) -> Option<usize>
        requires { length self.now < 2 ^ 64 }
        ensures { result ≡ position (⟦<Key as PartialEq>⟧.eq key.now) (map (λ e. e.0) self.now) }
    {
        match self.settled.position(key) {
            Some(index) => Some(index),
            None => match self.recent.position(key) {
                Some(index) => Some(self.settled.len() + index),
                None => None,
            },
        }
    }

    /// Returns the entry at an index.
    pub(crate) fn get(&self, index: usize) -> Option<(&Key, &KeptNote)>
        ensures { option_map deref_pair result ≡ slice_get self.now index }
    {
        let first = self.settled.len();
        if index < first {
            self.settled.get(index)
        } else {
            self.recent.get(index - first)
        }
    }

    /// Appends a key that isn't there yet.
    pub(crate) fn push(
        &mut self,
        alloc: Global,
        key: &Key,
        note: KeptNote,
    ) -> Result<(), AllocError>
        requires { position (⟦<Key as PartialEq>⟧.eq key.now) (map (λ e. e.0) self.old) ≡ None }
        ensures ok { OnOk result (self.new ≡ self.old ++ (key.now, note) ∷ []) }
        ensures err { OnErr result (self.new ≡ self.old) }
    {
        self.prepare(alloc)?;
        self.recent.push(alloc, key, note)
    }

    /// Empties the young map if a new key would copy too much of it.
    fn prepare(&mut self, alloc: Global) -> Result<(), AllocError>
        ensures { self.new ≡ self.old }
    {
        if self.recent.len() >= COPIED && self.recent.is_shared() {
            self.settle(alloc)?;
        }
        Ok(())
    }

    /// Moves the young map to the layers.
    fn settle(&mut self, alloc: Global) -> Result<(), AllocError>
        ensures { self.new ≡ self.old }
    {
        self.settled.push(alloc, &self.recent)?;
        self.recent = SharedMap::new();
        Ok(())
    }

    /// Returns a copy, which shares the maps.
    pub(crate) fn share(&self) -> Result<Self, AllocError>
        ensures { IfOk result (λ copy. copy ≡ self.now) }
    {
        Ok(LayeredMap {
            settled: self.settled.share()?,
            recent: self.recent.share()?,
        })
    }
}
