//! The symbol table and its string table.
ghost use Rattle.std.specs.Prelude.{◌≡◌, ℕ, ◌/◌, ◌<◌, ◌&&◌, ◌||◌, ◌==◌, ◌+◌, drop, nat_le, nat_lt, filter, IfOk};
ghost use Rattle.std.specs.Bool.{OnFalse};
ghost use Rattle.std.specs.List.{list_any};
ghost use Rattle.guest_elf.specs.Defined.{is_defined};
ghost use Rattle.guest_elf.specs.File.{HasHeader, has_bad_symbols};
ghost use Rattle.guest_elf.specs.Sections.{has_bad_name, is_damaged, is_function, is_label, is_naming, is_zero, section_at, section_count, strings_in, symbol_at, symbol_table, symbols_in, HasNames, HasSections, HasSymbols};

use crate::fields::{byte_at, half_at, word_at};
use crate::sections::{SectionHeader, section_at, section_count, symbol_table};
use std::alloc::{AllocError, Global};

/// The size of a symbol, in bytes.
pub(crate) const SYMBOL_SIZE: u32 = 16;
/// STT_NOTYPE: no type.
const NO_TYPE: u8 = 0;
/// STT_FUNC: a function.
const FUNCTION: u8 = 2;
/// SHN_UNDEF: a symbol that is defined elsewhere.
const UNDEFINED: u16 = 0;

/// The fields of a symbol that matter here (Elf32_Sym, figure 4-15).
#[derive(Clone, Copy)]
pub(crate) struct Symbol {
    /// st_name: the offset of its name in the string table.
    pub(crate) name: u32,
    /// st_value: its address.
    pub(crate) value: u32,
    /// st_size: the number of its bytes, or 0 if that is unknown.
    pub(crate) size: u32,
    /// st_info: the low four bits are the type.
    pub(crate) info: u8,
    /// st_shndx: the section in which it is defined.
    pub(crate) section: u16,
}

impl Symbol {
    /// Returns whether it is an STT_FUNC that a section defines.
    #[tactic(auto, unfolding(crate::specs::Sections::is_function))]
    pub(crate) fn is_function(self) -> bool
        ensures { result ≡ is_function self }
    {
        self.info % 16 == FUNCTION && self.section != UNDEFINED
    }

    /// Returns whether it is an STT_NOTYPE that a section defines.
    #[tactic(auto, unfolding(crate::specs::Sections::is_label))]
    fn is_label(self) -> bool
        ensures { result ≡ is_label self }
    {
        self.info % 16 == NO_TYPE && self.section != UNDEFINED
    }

    /// Returns whether it is a function or a label.
    #[tactic(auto, unfolding(crate::specs::Defined::is_defined))]
    pub(crate) fn is_defined(self) -> bool
        ensures { result ≡ is_defined self }
    {
        self.is_function() || self.is_label()
    }

    /// Returns whether it is a function whose name begins at `end` or past it.
    fn is_function_from(self, end: usize) -> bool
        ensures { result ≡ (is_function self && nat_le end self.name) }
    {
        self.is_function() && self.name as usize >= end
    }

    /// Returns whether its size is unknown, or it ends above an address.
    pub(crate) fn has(self, addr: u32) -> bool
        ensures { result ≡ (self.size == 0 || nat_lt addr (self.value + self.size)) }
    {
        self.size == 0 || u64::from(addr) < u64::from(self.value) + u64::from(self.size)
    }

    /// Returns whether it is a function with a name that is not empty.
    #[tactic(auto, unfolding(crate::specs::Sections::is_naming))]
    fn is_naming(self, strings: &[u8]) -> bool
        ensures { result ≡ is_naming strings.now self }
    {
        let start = self.name as usize;
        self.is_function() && start < strings.len() && strings[start] != 0
    }
}

/// Returns the symbol at an index of a table.
#[tactic(auto, unfolding(crate::specs::Sections::symbol_from))]
pub(crate) fn symbol_at(file: &[u8], table: SectionHeader, index: u32) -> Symbol
    requires inside { HasSymbols file.now table }
    requires listed { index < table.size / 16 }
    ensures { result ≡ symbol_at file.now table index }
{
    let start = table.offset as usize + SYMBOL_SIZE as usize * index as usize;
    Symbol {
        name: word_at(file, start),
        value: word_at(file, start + 4),
        size: word_at(file, start + 8),
        info: byte_at(file, start + 12),
        section: half_at(file, start + 14),
    }
}

/// Returns the bytes of a symbol table's string table.
#[tactic(auto, unfolding(crate::specs::Sections::strings_in))]
pub(crate) fn strings_in(file: &[u8], table: SectionHeader) -> &[u8]
    requires sections { HasSections file.now }
    requires inside { HasSymbols file.now table }
    ensures { result.now ≡ strings_in file.now table }
{
    let section = section_at(file, table.link);
    let start = section.offset as usize;
    &file[start..start + section.size as usize]
}

/// Returns the number of bytes of a string table up to and including its last zero byte. A name has an end exactly if it begins before
/// that.
fn names_end(strings: &[u8]) -> usize
    ensures { (start : ℕ) → list_any is_zero (drop start strings.now) ≡ nat_lt start result }
{
    let mut end = 0;
    for (index, byte) in strings.iter().enumerate() {
        if *byte == 0 {
            end = index + 1;
        }
    }
    end
}

/// Returns whether sh_entsize is not 16, or the size is no multiple of 16, or the table or its string table isn't in the file.
#[tactic(auto, unfolding(crate::specs::Sections::is_damaged))]
fn is_damaged(file: &[u8], table: SectionHeader) -> bool
    requires header { HasHeader file.now }
    requires sections { HasSections file.now }
    ensures value { result ≡ is_damaged file.now table }
    ensures inside { OnFalse result (HasSymbols file.now table) }
{
    if table.entry_size != SYMBOL_SIZE
        || table.size % SYMBOL_SIZE != 0
        || table.offset as usize + table.size as usize > file.len()
        || table.link >= u32::from(section_count(file))
    {
        return true;
    }
    let strings = section_at(file, table.link);
    strings.offset as usize + strings.size as usize > file.len()
}

/// Returns whether a function's name has no end in the string table.
fn has_endless_name(file: &[u8], table: SectionHeader) -> bool
    requires sections { HasSections file.now }
    requires inside { HasSymbols file.now table }
    ensures { result ≡ list_any (has_bad_name (strings_in file.now table)) (symbols_in file.now table) }
{
    let end = names_end(strings_in(file, table));
    for index in 0..table.size / SYMBOL_SIZE {
        if symbol_at(file, table, index).is_function_from(end) {
            return true;
        }
    }
    false
}

/// Returns whether the symbol table is damaged, or a function's name has no end.
#[tactic(auto, unfolding(crate::specs::File::has_bad_symbols, crate::specs::Sections::is_bad_table))]
pub(crate) fn has_bad_symbols(file: &[u8]) -> bool
    requires header { HasHeader file.now }
    requires sections { HasSections file.now }
    ensures value { result ≡ has_bad_symbols file.now }
    ensures names { OnFalse result (HasNames file.now (symbol_table file.now)) }
{
    match symbol_table(file) {
        None => false,
        Some(table) => is_damaged(file, table) || has_endless_name(file, table),
    }
}

/// Returns the naming symbols of a table, in its order.
pub(crate) fn naming_symbols(
    alloc: Global,
    file: &[u8],
    table: SectionHeader,
) -> Result<Vec<Symbol>, AllocError>
    requires sections { HasSections file.now }
    requires inside { HasSymbols file.now table }
    ensures { IfOk result (λ symbols.
        symbols.items ≡ filter (is_naming (strings_in file.now table)) (symbols_in file.now table)) }
{
    let strings = strings_in(file, table);
    let mut symbols = Vec::new(alloc);
    for index in 0..table.size / SYMBOL_SIZE {
        let symbol = symbol_at(file, table, index);
        if symbol.is_naming(strings) {
            symbols.push(symbol)?;
        }
    }
    Ok(symbols)
}
