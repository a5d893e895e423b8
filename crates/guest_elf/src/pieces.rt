//! What a file loads: its program headers, without the region of the stack where a segment is around it.
ghost use Rattle.std.specs.Prelude.{◌≡◌, ◌++◌, ◌∷◌, [], filter, IfOk};
ghost use Rattle.guest_elf.specs.File.{is_load, loads_of, pieces_of, HasTable};

use crate::program::{ProgramHeader, header_at, header_count};
use memory_map::Regions;
use std::alloc::{AllocError, Global};

/// Appends a program header, if it isn't empty.
fn push_load(loads: &mut Vec<ProgramHeader>, header: ProgramHeader) -> Result<(), AllocError>
    ensures { IfOk result (λ _. loads.new.items ≡ loads.old.items ++ filter is_load (header ∷ [])) }
{
    if header.is_load() {
        loads.push(header)?;
    }
    Ok(())
}

/// Appends the pieces of a program header that is to be loaded.
#[tactic(auto, unfolding(crate::specs::File::pieces_of))]
fn push_pieces(
    loads: &mut Vec<ProgramHeader>,
    header: ProgramHeader,
    regions: Regions,
) -> Result<(), AllocError>
    ensures { IfOk result (λ _. loads.new.items ≡ loads.old.items ++ pieces_of regions.stack header) }
{
    if !header.is_split(regions) {
        loads.push(header)?;
        return Ok(());
    }
    push_load(loads, header.front(regions))?;
    push_load(loads, header.back(regions))
}

/// Returns what a file loads, in the order of its program headers.
pub(crate) fn loads_of(
    alloc: Global,
    file: &[u8],
    regions: Regions,
) -> Result<Vec<ProgramHeader>, AllocError>
    requires { HasTable file.now }
    ensures { IfOk result (λ loads. loads.items ≡ loads_of regions file.now) }
{
    let mut loads = Vec::new(alloc);
    for index in 0..header_count(file) {
        let header = header_at(file, index);
        if header.is_load() {
            push_pieces(&mut loads, header, regions)?;
        }
    }
    Ok(loads)
}
