//! Numbers in a file. A header's fields are named by their offsets (System V ABI, edition 4.1, figures
//! 4-3, 4-4 and 5-1).
ghost use Rattle.std.specs.Prelude.{◌≡◌, ◌+◌, ◌<◌, ◌≤◌, length};
ghost use Rattle.guest_elf.specs.Fields.{byte_at, half_at, word_at};

use byteorder::{ByteOrder, LittleEndian};

/// The size of the ELF header, in bytes.
pub(crate) const HEADER_SIZE: usize = 52;
/// EI_CLASS: 1 is a file of 32 bits.
pub(crate) const EI_CLASS: usize = 4;
/// EI_DATA: 1 is little-endian.
pub(crate) const EI_DATA: usize = 5;
/// EI_VERSION: 1 is the current version.
pub(crate) const EI_VERSION: usize = 6;
/// Two bytes: 2 is an executable file.
pub(crate) const E_TYPE: usize = 16;
/// Two bytes: 243 is RISC-V.
pub(crate) const E_MACHINE: usize = 18;
/// Four bytes: 1 is the current version.
pub(crate) const E_VERSION: usize = 20;
/// Four bytes: the address of the first instruction.
pub(crate) const E_ENTRY: usize = 24;
/// Four bytes: the offset of the program header table.
pub(crate) const E_PHOFF: usize = 28;
/// Four bytes: the offset of the section header table, or 0 if there is none.
pub(crate) const E_SHOFF: usize = 32;
/// Two bytes: the size of a program header.
pub(crate) const E_PHENTSIZE: usize = 42;
/// Two bytes: the number of program headers.
pub(crate) const E_PHNUM: usize = 44;
/// Two bytes: the size of a section header.
pub(crate) const E_SHENTSIZE: usize = 46;
/// Two bytes: the number of section headers.
pub(crate) const E_SHNUM: usize = 48;

/// Returns the byte at an offset.
#[tactic(auto, unfolding(crate::specs::Fields::byte_at))]
pub(crate) fn byte_at(file: &[u8], offset: usize) -> u8
    requires { offset < length file.now }
    ensures { result ≡ byte_at file.now offset }
{
    file[offset]
}

/// Returns the two bytes at an offset as a number.
#[tactic(auto, unfolding(crate::specs::Fields::half_at))]
pub(crate) fn half_at(file: &[u8], offset: usize) -> u16
    requires { offset + 2 ≤ length file.now }
    ensures { result ≡ half_at file.now offset }
{
    LittleEndian::read_u16(&file[offset..])
}

/// Returns the four bytes at an offset as a number.
#[tactic(auto, unfolding(crate::specs::Fields::word_at))]
pub(crate) fn word_at(file: &[u8], offset: usize) -> u32
    requires { offset + 4 ≤ length file.now }
    ensures { result ≡ word_at file.now offset }
{
    LittleEndian::read_u32(&file[offset..])
}
