//! The functions and labels that a file defines, with their names.
ghost use Rattle.std.specs.Prelude.{◌≡◌, ◌||◌, ◌==◌, not, filter, map, IfOk};
ghost use Rattle.guest_elf.specs.Defined.{content_by, defined_in, symbol_content, is_defined};
ghost use Rattle.guest_elf.specs.Sections.{strings_in, symbols_in, HasSections, HasSymbols};

use crate::lookups::name_from;
use crate::reading::early_refusal;
use crate::sections::{SectionHeader, symbol_table};
use crate::symbols::{SYMBOL_SIZE, Symbol, has_bad_symbols, strings_in, symbol_at};
use std::alloc::{AllocError, Global};

/// A function that a section of a file defines, or a label of assembly without a type.
#[derive(Clone, Copy)]
pub struct DefinedSymbol<'a> {
    /// Its address.
    pub address: u32,
    /// Whether it is a function, of type STT_FUNC. A label has the type STT_NOTYPE.
    pub is_function: bool,
    /// Its name, a slice of the file.
    pub name: &'a [u8],
}

/// Returns a symbol with its name.
#[tactic(auto, unfolding(crate::specs::Defined::content_by, crate::specs::Defined::symbol_content))]
fn defined<'a>(strings: &'a [u8], symbol: Symbol) -> DefinedSymbol<'a>
    ensures { symbol_content result ≡ content_by strings.now symbol }
{
    DefinedSymbol {
        address: symbol.value,
        is_function: symbol.is_function(),
        name: name_from(strings, symbol.name),
    }
}

/// Returns the functions and labels of a symbol table, in its order.
fn defined_by<'a>(
    alloc: Global,
    file: &'a [u8],
    table: SectionHeader,
) -> Result<Vec<DefinedSymbol<'a>>, AllocError>
    requires sections { HasSections file.now }
    requires inside { HasSymbols file.now table }
    ensures { IfOk result (λ list. map symbol_content list.items
        ≡ map (content_by (strings_in file.now table)) (filter is_defined (symbols_in file.now table))) }
{
    let strings = strings_in(file, table);
    let mut list = Vec::new(alloc);
    for index in 0..table.size / SYMBOL_SIZE {
        let symbol = symbol_at(file, table, index);
        if symbol.is_defined() {
            list.push(defined(strings, symbol))?;
        }
    }
    Ok(list)
}

/// Returns the functions and labels that the sections of a file define, in the order of its symbol table; none of a file that is rejected for
/// one of the conditions 20 to 28, or for its symbols.
#[tactic(auto, unfolding(crate::specs::Defined::defined_in))]
pub fn defined_symbols<'a>(
    alloc: Global,
    file: &'a [u8],
) -> Result<Vec<DefinedSymbol<'a>>, AllocError>
    ensures { IfOk result (λ list. map symbol_content list.items ≡ defined_in file.now) }
{
    if early_refusal(file).is_some() {
        return Ok(Vec::new(alloc));
    }
    if has_bad_symbols(file) {
        return Ok(Vec::new(alloc));
    }
    match symbol_table(file) {
        Some(table) => defined_by(alloc, file, table),
        None => Ok(Vec::new(alloc)),
    }
}
