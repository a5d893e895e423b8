//! A map from keys to notes in order of insertion, whose copies share it until one of them gets a new key.
ghost use Rattle.error_events.specs.Entries.{AreNew};
ghost use Rattle.indexmap.specs.IndexMap.{insert_entry};
ghost use Rattle.std.specs.Prelude.{◌≡◌, [], ◌∷◌, ◌++◌, None, length, map, position, slice_get, OnOk, OnErr, IfOk};
ghost use Rattle.std.specs.Map.Iter.{deref_pair};
ghost use Rattle.std.specs.Option.{option_map};

use crate::event::Key;
use crate::kept_note::KeptNote;
use indexmap::IndexMap;
use std::alloc::{AllocError, Global};
use std::hash::Hash;
use std::marker::Model;
use std::rc::Rc;

/// The map. Contracts see it as the list of its entries.
#[derive(Drop)]
pub(crate) struct SharedMap {
    map: Option<Rc<IndexMap<Key, KeptNote>>>,
}

impl Model for SharedMap {
    ghost use Rattle.std.specs.Prelude.{List};
    ghost use Rattle.error_events.specs.declared.event.Key.{Key};
    ghost use Rattle.error_events.specs.declared.event.Note.{Note};

    ghost Value = { List (Key × Note) };

    ghost use Rattle.error_events.specs.Entries.{entries_of};

    ghost view = { λ m. entries_of m.map };
}

/// Returns a copy that nothing shares.
fn copy(map: &IndexMap<Key, KeptNote>) -> Result<IndexMap<Key, KeptNote>, AllocError>
    ensures { IfOk result (λ copy. copy.entries ≡ map.now.entries) }
{
    map.clone()
}

/// Inserts a value at a copy of a key. Drops the value that was at the key.
fn put<K: Eq + Hash + Copy + Drop, V: Drop>(
    map: &mut IndexMap<K, V>,
    key: &K,
    value: V,
) -> Result<(), AllocError>
    ensures ok { OnOk result (map.new.entries ≡ insert_entry K.eq map.old.entries key.now value) }
    ensures err { OnErr result (map.new.entries ≡ map.old.entries) }
{
    map.insert(*key, value)?;
    Ok(())
}

/// Appends copies of a map's entries to another.
fn append(
    whole: &mut IndexMap<Key, KeptNote>,
    second: &IndexMap<Key, KeptNote>,
) -> Result<(), AllocError>
    requires { AreNew ⟦<Key as PartialEq>⟧.eq whole.old.entries second.now.entries }
    ensures { OnOk result (whole.new.entries ≡ whole.old.entries ++ second.now.entries) }
{
    whole.reserve(second.len())?;
    for (key, note) in second {
        put(whole, key, note.clone()?)?;
    }
    Ok(())
}

/// Returns a map with the entries of two.
fn join(
    first: &IndexMap<Key, KeptNote>,
    second: &IndexMap<Key, KeptNote>,
) -> Result<IndexMap<Key, KeptNote>, AllocError>
    requires { AreNew ⟦<Key as PartialEq>⟧.eq first.now.entries second.now.entries }
    ensures { IfOk result (λ whole. whole.entries ≡ first.now.entries ++ second.now.entries) }
{
    let mut whole = copy(first)?;
    append(&mut whole, second)?;
    Ok(whole)
}

/// Inserts a note at a copy of a key. The other owners keep the map as it was.
fn insert(
    shared: &mut Rc<IndexMap<Key, KeptNote>>,
    key: &Key,
    note: KeptNote,
) -> Result<(), AllocError>
    requires { position (⟦<Key as PartialEq>⟧.eq key.now) (map (λ e. e.0) shared.old.value.entries) ≡ None }
    ensures ok { OnOk result (shared.new.value.entries ≡ shared.old.value.entries ++ (key.now, note) ∷ []) }
    ensures err { OnErr result (shared.new.value.entries ≡ shared.old.value.entries) }
{
    let own = Rc::make_mut(shared)?;
    put(own, key, note)
}

impl SharedMap {
    /// Returns the empty map. Allocates nothing.
    pub(crate) fn new() -> Self
        ensures { result ≡ [] }
    {
        SharedMap { map: None }
    }

    /// Returns the index of a key.
    pub(crate) fn position(&self, key: &Key) -> Option<usize>
        ensures { result ≡ position (⟦<Key as PartialEq>⟧.eq key.now) (map (λ e. e.0) self.now) }
    {
        match &self.map {
            Some(map) => map.get_index_of(key),
            None => None,
        }
    }

    /// Returns the entry at an index.
    pub(crate) fn get(&self, index: usize) -> Option<(&Key, &KeptNote)>
        ensures { option_map deref_pair result ≡ slice_get self.now index }
    {
        match &self.map {
            Some(map) => map.get_index(index),
            None => None,
        }
    }

    /// Appends a key that isn't there yet.
    pub(crate) fn push(
        &mut self,
        alloc: Global,
        key: &Key,
        note: KeptNote,
    ) -> Result<(), AllocError>
        requires { position (⟦<Key as PartialEq>⟧.eq key.now) (map (λ e. e.0) self.old) ≡ None }
        ensures ok { OnOk result (self.new ≡ self.old ++ (key.now, note) ∷ []) }
        ensures err { OnErr result (self.new ≡ self.old) }
    {
        match &mut self.map {
            Some(shared) => insert(shared, key, note),
            None => {
                *self = Self::with_one(alloc, key, note)?;
                Ok(())
            }
        }
    }

    /// Returns a map of one entry.
    fn with_one(alloc: Global, key: &Key, note: KeptNote) -> Result<Self, AllocError>
        ensures { IfOk result (λ one. one ≡ (key.now, note) ∷ []) }
    {
        let mut map = IndexMap::new(alloc);
        put(&mut map, key, note)?;
        Self::unshared(alloc, map)
    }

    /// Returns a map that nothing shares yet.
    fn unshared(alloc: Global, map: IndexMap<Key, KeptNote>) -> Result<Self, AllocError>
        ensures { IfOk result (λ unshared. unshared ≡ map.entries) }
    {
        Ok(SharedMap {
            map: Some(Rc::new(alloc, map)?),
        })
    }

    /// Returns the number of entries.
    pub(crate) fn len(&self) -> usize
        ensures { result ≡ length self.now }
    {
        match &self.map {
            Some(map) => map.len(),
            None => 0,
        }
    }

    /// Returns whether inserting a key would copy the map.
    pub(crate) fn is_shared(&self) -> bool {
        match &self.map {
            Some(map) => Rc::strong_count(map) != 1,
            None => false,
        }
    }

    /// Returns a map that nothing shares, with the entries of another after those of this one.
    pub(crate) fn joined(&self, alloc: Global, other: &Self) -> Result<Self, AllocError>
        requires { AreNew ⟦<Key as PartialEq>⟧.eq self.now other.now }
        ensures { IfOk result (λ whole. whole ≡ self.now ++ other.now) }
    {
        match (&self.map, &other.map) {
            (Some(first), Some(second)) => Self::unshared(alloc, join(first, second)?),
            (Some(_), None) => self.share(),
            (None, _) => other.share(),
        }
    }

    /// Returns a copy, which shares the map.
    pub(crate) fn share(&self) -> Result<Self, AllocError>
        ensures { IfOk result (λ copy. copy ≡ self.now) }
    {
        match &self.map {
            Some(map) => Ok(SharedMap {
                map: Some(map.clone()?),
            }),
            None => Ok(SharedMap { map: None }),
        }
    }
}

impl Clone for SharedMap {
    ghost use Rattle.std.specs.Prelude.{◌≡◌};

    ghost is_clone = { λ source clone. clone ≡ source };

    fn clone(&self) -> Result<SharedMap, AllocError> {
        self.share()
    }
}
