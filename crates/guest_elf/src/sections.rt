//! The section header table.
ghost use Rattle.std.specs.Prelude.{◌≡◌, ◌<◌};
ghost use Rattle.std.specs.Bool.{OnFalse};
ghost use Rattle.guest_elf.specs.File.{HasHeader};
ghost use Rattle.guest_elf.specs.Sections.{has_bad_section_table, is_symbol_table, section_at, section_count, symbol_table, HasSections};

use crate::fields::{E_SHENTSIZE, E_SHNUM, E_SHOFF, half_at, word_at};

/// The size of a section header, in bytes.
const SECTION_HEADER_SIZE: usize = 40;
/// SHT_SYMTAB: a symbol table.
const SYMBOL_TABLE: u32 = 2;

/// The fields of a section header that matter here (Elf32_Shdr, figure 4-8).
#[derive(Clone, Copy)]
pub(crate) struct SectionHeader {
    /// sh_type.
    pub(crate) kind: u32,
    /// sh_offset: the offset of its first byte in the file.
    pub(crate) offset: u32,
    /// sh_size: the number of its bytes.
    pub(crate) size: u32,
    /// sh_link: for a symbol table, the index of its string table.
    pub(crate) link: u32,
    /// sh_entsize: the size of an entry.
    pub(crate) entry_size: u32,
}

impl SectionHeader {
    /// Returns whether it is an SHT_SYMTAB.
    #[tactic(auto, unfolding(crate::specs::Sections::is_symbol_table))]
    fn is_symbol_table(self) -> bool
        ensures { result ≡ is_symbol_table self }
    {
        self.kind == SYMBOL_TABLE
    }
}

/// Returns the number of section headers.
#[tactic(auto, unfolding(crate::specs::Sections::section_count))]
pub(crate) fn section_count(file: &[u8]) -> u16
    requires { HasHeader file.now }
    ensures { result ≡ section_count file.now }
{
    if word_at(file, E_SHOFF) == 0 {
        return 0;
    }
    half_at(file, E_SHNUM)
}

/// Returns whether section headers have another size or end past the file.
#[tactic(auto, unfolding(crate::specs::Sections::has_bad_section_table))]
pub(crate) fn has_bad_section_table(file: &[u8]) -> bool
    requires { HasHeader file.now }
    ensures value { result ≡ has_bad_section_table file.now }
    ensures inside { OnFalse result (HasSections file.now) }
{
    let count = section_count(file);
    if count == 0 {
        return false;
    }
    let table_end = word_at(file, E_SHOFF) as usize + SECTION_HEADER_SIZE * count as usize;
    half_at(file, E_SHENTSIZE) as usize != SECTION_HEADER_SIZE || table_end > file.len()
}

/// Returns the section header at an index of the table.
#[tactic(auto, unfolding(crate::specs::Sections::section_from))]
pub(crate) fn section_at(file: &[u8], index: u32) -> SectionHeader
    requires table { HasSections file.now }
    requires listed { index < section_count file.now }
    ensures { result ≡ section_at file.now index }
{
    let start = word_at(file, E_SHOFF) as usize + SECTION_HEADER_SIZE * index as usize;
    SectionHeader {
        kind: word_at(file, start + 4),
        offset: word_at(file, start + 16),
        size: word_at(file, start + 20),
        link: word_at(file, start + 24),
        entry_size: word_at(file, start + 36),
    }
}

/// Returns the symbol table: the first section of that type.
pub(crate) fn symbol_table(file: &[u8]) -> Option<SectionHeader>
    requires header { HasHeader file.now }
    requires table { HasSections file.now }
    ensures { result ≡ symbol_table file.now }
{
    for index in 0..u32::from(section_count(file)) {
        let section = section_at(file, index);
        if section.is_symbol_table() {
            return Some(section);
        }
    }
    None
}
