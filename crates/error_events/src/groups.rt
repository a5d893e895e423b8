ghost use Rattle.std.specs.Prelude.{◌↔◌, ◌≡◌, [], ◌∷◌, ◌++◌, map, None, position, length, take, List, ◌≤◌, ◌+◌, ◌<◌, slice_get, OnOk, OnErr, IfOk, IsTrue};
ghost use Rattle.std.specs.List.{filter_map, range_with_len};
ghost use Rattle.std.specs.Option.{option_map};
ghost use Rattle.error_events.specs.Counts.{raised_at};
ghost use Rattle.error_events.specs.CountLists.{counts_of};
ghost use Rattle.error_events.specs.Lent.{group_with, lent_group, lent_note};
ghost use Rattle.error_events.specs.Merging.{merged, merged_with};
ghost use Rattle.error_events.specs.Regrouping.{regrouped};

use crate::counts::Counts;
use crate::event::{Event, Group, Key};
use crate::kept_note::KeptNote;
use crate::layered_map::LayeredMap;
use crate::lent::NoteRef;
use std::alloc::{AllocError, Global};

/// Errors counted by kind and trace, in order of first occurrence. Contracts see the list of the groups, `groups_of`.
#[derive(Drop)]
pub struct Groups {
    known: LayeredMap,
    counts: Counts,
    ghost matched: { length known ≡ length (counts_of counts) },
}

/// Returns a key with only the first addresses of its trace.
fn cut(key: &Key, callers: u32) -> Key
    requires { 0 < callers }
    ensures kind { result.kind ≡ key.now.kind }
    ensures trace { result.trace ≡ take callers key.now.trace }
{
    Key {
        kind: key.kind,
        trace: key.trace.front(callers),
    }
}

/// The greatest number of groups that are compared.
const MOST_COMPARED: usize = 64;

/// Returns whether two groups are the same, or there are none.
fn are_same(one: &Option<Group>, other: &Option<Group>) -> bool
    ensures { IsTrue result ↔ one.now ≡ other.now }
{
    match (one, other) {
        (Some(one), Some(other)) => one.is_same(other),
        (None, None) => true,
        _ => false,
    }
}

impl Groups {
    ghost use Rattle.error_events.specs.Shown.{groups_of};
    ghost use Rattle.error_events.specs.declared.event.Event.{Event};
    ghost use Rattle.error_events.specs.Groups.{grouped};
    ghost use Rattle.error_events.specs.Adding.{add_group, add_event};

    /// Returns no groups. Allocates nothing.
    pub fn new(alloc: Global) -> Self
        ensures { groups_of result ≡ [] }
    {
        Groups {
            known: LayeredMap::new(alloc),
            counts: Counts::new(alloc),
        }
    }

    /// Returns the number of groups.
    pub fn len(&self) -> usize
        ensures { result ≡ length (groups_of self.now) }
    {
        self.counts.len()
    }

    /// Returns the group at a place, in order of first occurrence.
    pub fn get(&self, index: usize) -> Option<Group>
        ensures { result ≡ slice_get (groups_of self.now) index }
    {
        let (key, note, count) = self.entry(index)?;
        Some(Group {
            kind: key.kind,
            trace: key.trace,
            count,
            note: note.note(),
        })
    }

    /// Returns the key, the note and the count of the group at a place.
    fn entry(&self, index: usize) -> Option<(&Key, &KeptNote, u64)>
        ensures { option_map lent_group result ≡ slice_get (groups_of self.now) index }
    {
        let (key, note) = self.known.get(index)?;
        let count = self.counts.get(index)?;
        Some((key, note, count))
    }

    /// Adds an error. If memory runs out, the groups stay as they were.
    pub fn add(&mut self, event: Event) -> Result<(), AllocError>
        ensures ok { OnOk result (groups_of self.new ≡ add_event (groups_of self.old) event) }
        ensures err { OnErr result (groups_of self.new ≡ groups_of self.old) }
    {
        let key = Key {
            kind: event.kind,
            trace: event.trace,
        };
        self.add_group(&key, &NoteRef::Plain(&event.note), 1)
    }

    /// Adds the errors of another group.
    fn add_group(&mut self, key: &Key, note: &NoteRef<'_>, count: u64) -> Result<(), AllocError>
        ensures ok { OnOk result (groups_of self.new ≡ add_group (groups_of self.old) (group_with key.now (lent_note note.now) count)) }
        ensures err { OnErr result (groups_of self.new ≡ groups_of self.old) }
    {
        match self.known.position(key) {
            Some(index) => self.raise(index, count),
            None => self.begin(key, note, count),
        }
    }

    /// Adds a number to the count of a group.
    fn raise(&mut self, index: usize, by: u64) -> Result<(), AllocError>
        requires { index < length self.old.known }
        ensures known { self.new.known ≡ self.old.known }
        ensures counts { OnOk result (counts_of self.new.counts ≡ raised_at (counts_of self.old.counts) index by) }
        ensures counts_err { OnErr result (counts_of self.new.counts ≡ counts_of self.old.counts) }
    {
        self.counts.raise(index, by)
    }

    /// Adds a new group. Everything that can fail comes before the count, so keys and counts stay matched.
    fn begin(&mut self, key: &Key, note: &NoteRef<'_>, count: u64) -> Result<(), AllocError>
        requires { position (⟦<Key as PartialEq>⟧.eq key.now) (map (λ e. e.0) self.old.known) ≡ None }
        ensures known { OnOk result (self.new.known ≡ self.old.known ++ (key.now, lent_note note.now) ∷ []) }
        ensures counts { OnOk result (counts_of self.new.counts ≡ counts_of self.old.counts ++ count ∷ []) }
        ensures known_err { OnErr result (self.new.known ≡ self.old.known) }
        ensures counts_err { OnErr result (counts_of self.new.counts ≡ counts_of self.old.counts) }
    {
        let alloc = self.counts.allocator();
        let note = note.kept(alloc)?;
        self.counts.make_room()?;
        self.known.push(alloc, key, note)?;
        self.counts.push(count);
        Ok(())
    }

    /// Returns the errors of the kept groups, grouped by kind and the first `callers` addresses of their traces, in order of first
    /// occurrence, each group with its first error's note. `keep` says for each group whether it is kept. If `callers` is above 24, all
    /// addresses count. This is [`Groups::regrouped`] for callers that want a list.
    pub fn regroup(&self, callers: u32, keep: &[bool]) -> Result<Vec<Group>, AllocError>
        requires each { length keep.now ≡ length (groups_of self.now) }
        requires some { 0 < callers }
        ensures { IfOk result (λ groups. (es : List Event) → groups_of self.now ≡ grouped es → groups.items ≡ regrouped callers keep.now es) }
    {
        self.regrouped(callers, keep)?.collected()
    }

    /// Returns the groups that `regroup` lists.
    pub fn regrouped(&self, callers: u32, keep: &[bool]) -> Result<Groups, AllocError>
        requires each { length keep.now ≡ length (groups_of self.now) }
        requires some { 0 < callers }
        ensures { IfOk result (λ groups. (es : List Event) → groups_of self.now ≡ grouped es → groups_of groups ≡ regrouped callers keep.now es) }
    {
        self.merged(callers, keep)
    }

    /// Returns the groups of the errors that are kept, by fewer addresses.
    fn merged(&self, callers: u32, keep: &[bool]) -> Result<Groups, AllocError>
        requires each { length keep.now ≡ length (groups_of self.now) }
        requires some { 0 < callers }
        ensures { IfOk result (λ groups. groups_of groups ≡ merged callers [] keep.now (groups_of self.now)) }
    {
        let mut groups = Groups::new(self.counts.allocator());
        for index in 0..keep.len() {
            groups.merge(callers, keep[index], self.entry(index))?;
        }
        Ok(groups)
    }

    /// The errors of one more group, if it is kept, with the first addresses of its trace.
    fn merge(
        &mut self,
        callers: u32,
        keep: bool,
        group: Option<(&Key, &KeptNote, u64)>,
    ) -> Result<(), AllocError>
        requires { 0 < callers }
        ensures { OnOk result (groups_of self.new ≡ merged_with callers (groups_of self.old) keep (option_map lent_group group.entry)) }
    {
        match group {
            Some((key, note, count)) if keep => {
                self.add_group(&cut(key, callers), &NoteRef::Kept(note), count)
            }
            _ => Ok(()),
        }
    }

    /// Returns all groups.
    fn collected(&self) -> Result<Vec<Group>, AllocError>
        ensures { IfOk result (λ groups. groups.items ≡ filter_map (slice_get (groups_of self.now)) (range_with_len 0 (length (groups_of self.now)))) }
    {
        (0..self.len())
            .filter_map(|index| self.get(index))
            .collect(self.counts.allocator())
    }

    /// Returns whether other groups are the same, in the same order. May also return `false` for such groups, if there are more than 64.
    pub fn are_same(&self, others: &Groups) -> bool
        ensures same { IsTrue result → groups_of self.now ≡ groups_of others.now }
        ensures found { groups_of self.now ≡ groups_of others.now → length (groups_of self.now) ≤ 64 → IsTrue result }
    {
        let len = self.len();
        if len != others.len() || len > MOST_COMPARED {
            return false;
        }
        for index in 0..len {
            if !are_same(&self.get(index), &others.get(index)) {
                return false;
            }
        }
        true
    }

    /// Returns a copy, which later errors of the original don't reach.
    pub fn share(&self) -> Result<Groups, AllocError>
        ensures { IfOk result (λ copy. groups_of copy ≡ groups_of self.now) }
    {
        Ok(Groups {
            known: self.known.share()?,
            counts: self.counts.share()?,
        })
    }
}
