//! Whether segments share an address, found from their headers in the order of their addresses.
ghost use Rattle.std.specs.Prelude.{◌≡◌, ◌<◌, All, IfOk};
ghost use Rattle.std.specs.List.{list_any};
ghost use Rattle.std.specs.List.Sorted.{IsNonDecreasingBy};
ghost use Rattle.guest_elf.specs.File.{any_two_meet, has_overlap, loads_of, meets_region, HasSegments};
ghost use Rattle.guest_elf.specs.declared.program.ProgramHeader.{ProgramHeader};

use crate::program::ProgramHeader;
use memory_map::Regions;
use std::alloc::{AllocError, Global};

/// Returns whether one of some segments shares an address with the heap's region or the stack's.
fn any_in_region(loads: &[ProgramHeader], regions: Regions) -> bool
    ensures { result ≡ list_any (meets_region regions) loads.now }
{
    loads.iter().any(|header| header.meets_region(regions))
}

/// Returns whether two of the segments share an address: one begins before its predecessor ends. Needs one pass.
fn any_two_meet(headers: &[ProgramHeader]) -> bool
    requires ascending { IsNonDecreasingBy (λ (header : ProgramHeader). header.vaddr) headers.now }
    requires some_bytes { All (λ (header : ProgramHeader). 0 < header.memsz) headers.now }
    ensures { result ≡ any_two_meet headers.now }
{
    let mut end = 0;
    for header in headers {
        if u64::from(header.vaddr) < end {
            return true;
        }
        end = header.end();
    }
    false
}

/// Returns whether a loaded segment shares an address with another, or with the heap's region or the stack's.
pub(crate) fn has_overlap(
    alloc: Global,
    file: &[u8],
    regions: Regions,
    loads: &[ProgramHeader],
) -> Result<bool, AllocError>
    requires good { HasSegments file.now }
    requires listed { loads.now ≡ loads_of regions file.now }
    ensures { IfOk result (λ overlap. overlap ≡ has_overlap regions file.now) }
{
    if any_in_region(loads, regions) {
        return Ok(true);
    }
    let mut sorted = loads.to_vec(alloc)?;
    sorted.sort_unstable_by_key(|header| header.vaddr);
    Ok(any_two_meet(&sorted))
}
