//! Names in a line.
ghost use Rattle.std.specs.Prelude.{◌≡◌, ◌++◌, [], OnOk, codes, length, map, take, if◌then◌else◌, nat_lt};
ghost use Rattle.std.specs.List.{flat_map};
ghost use Rattle.guest_elf.specs.Defined.{SymbolContent, symbol_content};
ghost use Rattle.report_lines.specs.Text.{shown_name};
ghost use Rattle.file_heaps.specs.FileHeaps.{joined, names_text};

use guest_elf::DefinedSymbol;
use report_lines::push_name;
use std::alloc::AllocError;

/// The number of names that are listed.
const MOST_NAMES: usize = 4;

/// Appends a name after a comma.
#[tactic(auto, unfolding(guest_elf::specs::Defined::symbol_content), using(std::proofs::Common::append_assoc))]
fn push_other(text: &mut Vec<u8>, symbol: &DefinedSymbol) -> Result<(), AllocError>
    ensures { OnOk result (text.new.items ≡ text.old.items ++ (codes ", " ++ shown_name (symbol_content symbol.now).name)) }
{
    text.extend_from_slice(b", ")?;
    push_name(text, symbol.name)
}

/// Appends names after the first.
fn push_others(text: &mut Vec<u8>, symbols: &[DefinedSymbol]) -> Result<(), AllocError>
    ensures { OnOk result (text.new.items ≡ text.old.items
        ++ flat_map (λ (symbol : SymbolContent). codes ", " ++ shown_name symbol.name) (map symbol_content symbols.now)) }
{
    for symbol in symbols {
        push_other(text, symbol)?;
    }
    Ok(())
}

/// Appends names with commas between them.
#[tactic(auto, unfolding(crate::specs::FileHeaps::joined, guest_elf::specs::Defined::symbol_content), using(std::proofs::Common::append_assoc))]
fn push_joined(text: &mut Vec<u8>, symbols: &[DefinedSymbol]) -> Result<(), AllocError>
    ensures { OnOk result (text.new.items ≡ text.old.items ++ joined (map symbol_content symbols.now)) }
{
    match symbols {
        [] => Ok(()),
        [first, others @ ..] => {
            push_name(text, first.name)?;
            push_others(text, others)
        }
    }
}

/// Appends the first names of a list.
pub(crate) fn push_names(text: &mut Vec<u8>, symbols: &[DefinedSymbol]) -> Result<(), AllocError>
    ensures { OnOk result (text.new.items ≡ text.old.items ++ names_text (map symbol_content symbols.now)) }
{
    push_joined(text, &symbols[..symbols.len().min(MOST_NAMES)])?;
    if symbols.len() > MOST_NAMES {
        text.extend_from_slice(b", ..")?;
    }
    Ok(())
}
