//! Maps in order of age, each with at least twice the entries of the next, as in the levels of a log-structured merge tree. An added map
//! takes up the smaller ones before it, so an entry is copied about as many times as the number of entries can be halved. Copies share each
//! map.
ghost use Rattle.std.specs.Prelude.{◌≡◌, ◌≤◌, ◌<◌, ◌^◌, ◌∷◌, [], ◌++◌, length, map, position, slice_get, take, OnOk, OnErr, IfOk};
ghost use Rattle.std.specs.List.{flat_map};
ghost use Rattle.std.specs.Map.Iter.{deref_pair};
ghost use Rattle.std.specs.Option.{option_map};
ghost use Rattle.error_events.specs.Entries.{AreNew};
ghost use Rattle.error_events.specs.Layers.{AreApart, entries_in};

use crate::event::Key;
use crate::kept_note::KeptNote;
use crate::shared_map::SharedMap;
use std::alloc::{AllocError, Global};
use std::marker::Model;

/// The maps, the oldest entries first. Contracts see the list of all entries.
#[derive(Drop)]
pub(crate) struct Layers {
    maps: Vec<SharedMap>,
    len: usize,
}

impl Model for Layers {
    ghost use Rattle.std.specs.Prelude.{List, ◌≡◌, length};
    ghost use Rattle.error_events.specs.Layers.{AreApart, entries_in};
    ghost use Rattle.error_events.specs.declared.event.Key.{Key};
    ghost use Rattle.error_events.specs.declared.event.Note.{Note};

    ghost Value = { List (Key × Note) };

    ghost view = { λ layers. entries_in layers.maps.items };

    ghost invariant = { λ layers. AreApart ⟦<Key as PartialEq>⟧.eq layers.maps.items × (layers.len ≡ length (entries_in layers.maps.items)) };
}

/// Returns the index of a key among the entries of some maps.
fn position_in(maps: &[SharedMap], key: &Key) -> Option<usize>
    requires { length (entries_in maps.now) < 2 ^ 64 }
    ensures { result ≡ position (⟦<Key as PartialEq>⟧.eq key.now) (map (λ e. e.0) (entries_in maps.now)) }
{
    let (oldest, later) = maps.split_first()?;
    match oldest.position(key) {
        Some(index) => Some(index),
        None => match position_in(later, key) {
            Some(index) => Some(oldest.len() + index),
            None => None,
        },
    }
}

/// Returns the entry at an index among those of some maps.
fn entry_in(maps: &[SharedMap], index: usize) -> Option<(&Key, &KeptNote)>
    ensures { option_map deref_pair result ≡ slice_get (entries_in maps.now) index }
{
    let (oldest, later) = maps.split_first()?;
    let len = oldest.len();
    if index < len {
        oldest.get(index)
    } else {
        entry_in(later, index - len)
    }
}

/// Returns the number of maps that stay when a new one comes, and the map that takes up the others and the new one's entries.
fn taken_up(
    alloc: Global,
    maps: &[SharedMap],
    young: SharedMap,
) -> Result<(usize, SharedMap), AllocError>
    requires { AreApart ⟦<Key as PartialEq>⟧.eq (maps.now ++ young ∷ []) }
    ensures count { IfOk result (λ r. r.0 ≤ length maps.now) }
    ensures entries { IfOk result (λ r. entries_in (take r.0 maps.now ++ r.1 ∷ []) ≡ entries_in (maps.now ++ young ∷ [])) }
    ensures apart { IfOk result (λ r. AreApart ⟦<Key as PartialEq>⟧.eq (take r.0 maps.now ++ r.1 ∷ [])) }
{
    match maps.split_last() {
        Some((last, before)) if last.len() / 2 < young.len() => {
            let whole = last.joined(alloc, &young)?;
            taken_up(alloc, before, whole)
        }
        _ => Ok((maps.len(), young)),
    }
}

/// Puts a new map after others. It takes up the smaller ones before it.
fn put_behind(alloc: Global, maps: &mut Vec<SharedMap>, young: SharedMap) -> Result<(), AllocError>
    requires { AreApart ⟦<Key as PartialEq>⟧.eq (maps.old.items ++ young ∷ []) }
    ensures apart { OnOk result (AreApart ⟦<Key as PartialEq>⟧.eq maps.new.items) }
    ensures entries { OnOk result (entries_in maps.new.items ≡ entries_in (maps.old.items ++ young ∷ [])) }
    ensures err { OnErr result (maps.new.items ≡ maps.old.items) }
{
    maps.reserve(1)?;
    let (kept, whole) = taken_up(alloc, maps, young)?;
    maps.truncate(kept);
    maps.push(whole)?;
    Ok(())
}

impl Layers {
    /// Returns no maps. Allocates nothing.
    pub(crate) fn new(alloc: Global) -> Self
        ensures { result ≡ [] }
    {
        Layers {
            maps: Vec::new(alloc),
            len: 0,
        }
    }

    /// Returns the index of a key.
    pub(crate) fn position(&self, key: &Key) -> Option<usize>
        requires { length self.now < 2 ^ 64 }
        ensures { result ≡ position (⟦<Key as PartialEq>⟧.eq key.now) (map (λ e. e.0) self.now) }
    {
        position_in(&self.maps, key)
    }

    /// Returns the entry at an index.
    pub(crate) fn get(&self, index: usize) -> Option<(&Key, &KeptNote)>
        ensures { option_map deref_pair result ≡ slice_get self.now index }
    {
        entry_in(&self.maps, index)
    }

    /// Returns the number of entries.
    pub(crate) fn len(&self) -> usize
        ensures { result ≡ length self.now }
    {
        self.len
    }

    /// Appends the entries of a map, whose keys aren't there yet.
    pub(crate) fn push(&mut self, alloc: Global, young: &SharedMap) -> Result<(), AllocError>
        requires { AreNew ⟦<Key as PartialEq>⟧.eq self.old young.now }
        ensures ok { OnOk result (self.new ≡ self.old ++ young.now) }
        ensures err { OnErr result (self.new ≡ self.old) }
    {
        let Some(len) = self.len.checked_add(young.len()) else {
            return Err(AllocError);
        };
        put_behind(alloc, &mut self.maps, young.share()?)?;
        self.len = len;
        Ok(())
    }

    /// Returns a copy, which shares the maps.
    pub(crate) fn share(&self) -> Result<Self, AllocError>
        ensures { IfOk result (λ copy. copy ≡ self.now) }
    {
        Ok(Layers {
            maps: self.maps.clone()?,
            len: self.len,
        })
    }
}
