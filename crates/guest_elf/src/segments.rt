//! The conditions on the program headers under which a file is rejected.
ghost use Rattle.std.specs.Prelude.{◌≡◌, length, nat_lt, sum_by};
ghost use Rattle.std.specs.Bool.{OnFalse};
ghost use Rattle.std.specs.List.{list_any};
ghost use Rattle.guest_elf.specs.File.{has_interpreter, has_bad_segment, is_too_large, is_bad_segment, loadable_of, loads_of, HasTable, HasSegments};

use crate::program::{ProgramHeader, header_at, header_count};
use memory_map::Regions;

/// The greatest size of a file, and of its segments in memory, in bytes: 16 MiB.
pub const MOST_BYTES: usize = 16_777_216;

/// Returns whether there is a program header of type PT_INTERP.
#[tactic(auto, unfolding(crate::specs::File::has_interpreter))]
pub(crate) fn has_interpreter(file: &[u8]) -> bool
    requires { HasTable file.now }
    ensures { result ≡ has_interpreter file.now }
{
    for index in 0..header_count(file) {
        if header_at(file, index).is_interpreter() {
            return true;
        }
    }
    false
}

/// Returns whether a segment that is to be loaded is bad.
#[tactic(auto, unfolding(crate::specs::File::has_bad_segment))]
pub(crate) fn has_bad_segment(file: &[u8]) -> bool
    requires { HasTable file.now }
    ensures value { result ≡ has_bad_segment file.now }
    ensures good { OnFalse result (HasSegments file.now) }
{
    has_bad_load(file)
}

/// Returns whether a segment that is to be loaded is bad, by a loop over the program headers.
fn has_bad_load(file: &[u8]) -> bool
    requires { HasTable file.now }
    ensures { result ≡ list_any (is_bad_segment (length file.now)) (loadable_of file.now) }
{
    for index in 0..header_count(file) {
        let header = header_at(file, index);
        if header.is_load() && header.is_bad_segment(file.len()) {
            return true;
        }
    }
    false
}

/// Returns whether segments need more than 16 MiB of memory.
fn exceed(loads: &[ProgramHeader]) -> bool
    ensures { result ≡ nat_lt 16777216 (sum_by (λ header. header.memsz) loads.now) }
{
    let mut size = 0;
    for header in loads {
        size += u64::from(header.memsz);
        if size > MOST_BYTES as u64 {
            return true;
        }
    }
    false
}

/// Returns whether the file has, or the segments that it loads have, more than 16 MiB.
#[tactic(auto, unfolding(crate::specs::File::is_too_large))]
pub(crate) fn is_too_large(file: &[u8], regions: Regions, loads: &[ProgramHeader]) -> bool
    requires { loads.now ≡ loads_of regions file.now }
    ensures { result ≡ is_too_large regions file.now }
{
    file.len() > MOST_BYTES || exceed(loads)
}
