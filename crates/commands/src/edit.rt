//! An edit of a scenario.
use crate::bytes::Bytes;
use run_values::Alteration;
use suppressions::{LeakKinds, Suppression};

/// One edit.
#[derive(Drop)]
pub enum Edit {
    /// Replaces a byte of the input.
    Input { offset: u32, byte: u8 },
    /// Appends a byte to the input.
    Append(u8),
    /// Removes the last byte of the input.
    Cut,
    /// Replaces bytes of the input, from an offset on.
    Overwrite { offset: u32, bytes: Bytes },
    /// Gives the run another input.
    Give(Bytes),
    /// Replaces a word of the loaded program.
    Patch { addr: u32, word: u32 },
    /// Replaces a half of the loaded program, if there are instructions of 16 bits.
    PatchHalf { addr: u32, half: u16 },
    /// Appends an alteration to the list of marks.
    Mark(Alteration),
    /// Removes the mark at an index.
    Unmark(u32),
    /// Switches the suppression at an index on or off.
    Switch { index: u32, on: bool },
    /// Appends a suppression to the list.
    Add(Suppression),
    /// Sets the number of addresses of a trace that are shown and group errors.
    Callers(u32),
    /// Sets the number of inaccessible bytes on each side of a heap block.
    Redzone(u32),
    /// Sets the number of bytes that freed blocks may have whose places aren't used again yet.
    Volume(u32),
    /// Sets the kinds of leak that are shown.
    Show(LeakKinds),
}
