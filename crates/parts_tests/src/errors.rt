//! Errors with their groups, worked out by hand.
use crate::comes;
use call_stacks::Trace;
use error_events::{Event, Group, Groups, Kind, Note, Parameter, ParameterFault};
use std::alloc::{AllocError, Global};

const READ: Kind = Kind::Read(4);

const PARAM: Kind = Kind::Param(Parameter::ReadBuffer, ParameterFault::Unaddressable);

/// A group's kind, addresses, count, and the address of its note.
type Row = (Kind, &'static [u32], u64, u32);

/// Returns whether a group is a row's.
fn is_row(group: Option<Group>, row: &Row) -> bool {
    let (kind, addresses, count, at) = row;
    match group {
        Some(group) => {
            group.kind == *kind
                && group.trace.addresses() == *addresses
                && group.count == *count
                && matches!(group.note, Note::Elsewhere(address) if address == *at)
        }
        None => false,
    }
}

/// Returns whether the groups are those of rows.
fn are_rows(groups: &Groups, rows: &[Row]) -> bool {
    for (i, row) in rows.iter().enumerate() {
        if !is_row(groups.get(i), row) {
            return false;
        }
    }
    groups.len() == rows.len() && groups.get(rows.len()).is_none()
}

/// An error, by its kind, its addresses and the address of its note.
type Added = (Kind, &'static [u32], u32);

/// Adds errors.
fn add_all(groups: &mut Groups, added: &[Added]) -> Result<(), AllocError> {
    for (kind, addresses, at) in added {
        if let Some(trace) = Trace::new(addresses) {
            let note = Note::Elsewhere(*at);
            groups.add(Event {
                kind: *kind,
                trace,
                note,
            })?;
        }
    }
    Ok(())
}

/// Errors and their groups; then further errors, and all groups after them. An earlier copy has none of the further errors.
type Case = (
    &'static [Added],
    &'static [Row],
    &'static [Added],
    &'static [Row],
);

const COUNTED: Case = (&ADDED, &GROUPS, &[], &GROUPS);

const COPIED: Case = (
    &[(READ, &[8], 1), (READ, &[8], 2)],
    &[(READ, &[8], 2, 1)],
    &[(READ, &[8], 3), (READ, &[12], 3)],
    &[(READ, &[8], 3, 1), (READ, &[12], 1, 3)],
);

const ADDED: [Added; 4] = [
    (READ, &[8, 20], 1),
    (PARAM, &[8, 20], 2),
    (READ, &[8, 24], 3),
    (READ, &[8, 20], 4),
];

const GROUPS: [Row; 3] = [
    (READ, &[8, 20], 2, 1),
    (PARAM, &[8, 20], 1, 2),
    (READ, &[8, 24], 1, 3),
];

/// The groups by only the first address.
const REGROUPED: [Row; 2] = [(READ, &[8], 3, 1), (PARAM, &[8], 1, 2)];

/// Only the last of them, by the first address.
const LAST_REGROUPED: [Row; 1] = [(READ, &[8], 1, 3)];

/// Returns whether groups and an earlier copy are those of a case, after its further errors were added.
fn are_apart(groups: &mut Groups, early: &Groups, case: &Case) -> Result<bool, AllocError> {
    add_all(groups, case.2)?;
    Ok(are_rows(early, case.1) && are_rows(groups, case.3))
}

/// Returns the same for groups without errors.
fn are_counted(groups: &mut Groups, case: &Case) -> Result<bool, AllocError> {
    add_all(groups, case.0)?;
    let early = groups.share()?;
    are_apart(groups, &early, case)
}

/// Adds a read at an address.
fn add_read(groups: &mut Groups, address: u32) -> Result<(), AllocError> {
    let trace = Trace::of(address);
    groups.add(Event {
        kind: READ,
        trace,
        note: Note::Elsewhere(1),
    })
}

/// Returns whether the group of reads at an address has this count.
fn counts(groups: &Groups, address: u32, count: u64) -> bool {
    match groups.get(address as usize) {
        Some(group) => {
            group.kind == READ
                && group.trace.addresses() == [address].as_slice()
                && group.count == count
                && matches!(group.note, Note::Elsewhere(1))
        }
        None => false,
    }
}

/// Returns whether a copy keeps its count of a group to which an error is added.
fn is_kept(groups: &mut Groups, early: &Groups, address: u32) -> Result<bool, AllocError> {
    add_read(groups, address)?;
    Ok(counts(early, address, 1) && counts(groups, address, 2))
}

/// Returns the same for a new copy.
fn is_raised_apart(groups: &mut Groups, address: u32) -> Result<bool, AllocError> {
    let early = groups.share()?;
    is_kept(groups, &early, address)
}

/// Returns whether this holds in 600 groups: for one in the first chunk of counts, one at the end of a chunk, and one after the chunks.
fn are_raised_apart(groups: &mut Groups) -> Result<bool, AllocError> {
    for address in 0..600 {
        add_read(groups, address)?;
    }
    for address in &[5, 511, 599] {
        if !is_raised_apart(groups, *address)? {
            return Ok(false);
        }
    }
    Ok(true)
}

/// Returns whether the groups that are kept, by only the first address, are these.
fn regroups(groups: &Groups, keep: &[bool], wanted: &[Row]) -> Result<bool, AllocError> {
    if groups.len() != keep.len() {
        return Ok(false);
    }
    let regrouped = groups.regroup(1, keep)?;
    for (i, row) in wanted.iter().enumerate() {
        if !is_row(regrouped.get(i).copied(), row) {
            return Ok(false);
        }
    }
    Ok(regrouped.len() == wanted.len())
}

/// Returns whether they are, for all and for the last of the groups above.
fn are_regrouped(groups: &mut Groups) -> Result<bool, AllocError> {
    add_all(groups, &ADDED)?;
    if !regroups(groups, &[true, true, true], &REGROUPED)? {
        return Ok(false);
    }
    regroups(groups, &[false, false, true], &LAST_REGROUPED)
}

/// A trial with groups.
enum Trial {
    Counted(&'static Case),
    RaisedApart,
    Regrouped,
}

/// Returns whether a trial passes with groups without errors.
fn goes_well(groups: &mut Groups, trial: &Trial) -> Result<bool, AllocError> {
    match trial {
        Trial::Counted(case) => are_counted(groups, case),
        Trial::RaisedApart => are_raised_apart(groups),
        Trial::Regrouped => are_regrouped(groups),
    }
}

/// Returns whether it passes with new groups.
fn goes_well_anew(alloc: Global, trial: &Trial) -> Result<bool, AllocError> {
    let mut groups = Groups::new(alloc);
    goes_well(&mut groups, trial)
}

const TRIALS: [(&str, Trial); 4] = [
    ("counted by kind and trace", Trial::Counted(&COUNTED)),
    ("a copy stays as it was", Trial::Counted(&COPIED)),
    ("counts of their own", Trial::RaisedApart),
    ("by the first address", Trial::Regrouped),
];

#[test]
fn errors_are_grouped(rt: HostRuntime) {
    for (label, trial) in &TRIALS {
        comes(&rt, label, goes_well_anew(rt.alloc(), trial));
    }
}

#[test]
fn parameters_have_texts(rt: HostRuntime) {
    assert!(rt; Parameter::ReadBuffer.text() == b"read(buf)".as_slice());
}
