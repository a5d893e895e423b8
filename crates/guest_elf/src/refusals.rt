//! The conditions under which a file is rejected, each with the name of its definition.
ghost use Rattle.std.specs.Prelude.{◌≡◌};
ghost use Rattle.guest_elf.specs.File.{is_not_elf, is_not_class_32, is_not_little_endian, has_bad_version, is_not_executable, is_not_risc_v, has_bad_program_table, has_bad_table, HasHeader, HasTable};
ghost use Rattle.guest_elf.specs.Sections.{HasSections};
ghost use Rattle.std.specs.Bool.{OnFalse};

use crate::fault::ElfFault;
use crate::fields::{
    E_MACHINE, E_PHENTSIZE, E_PHOFF, E_TYPE, E_VERSION, EI_CLASS, EI_DATA, EI_VERSION, HEADER_SIZE,
    byte_at, half_at, word_at,
};
use crate::program::{PROGRAM_HEADER_SIZE, header_count};
use crate::sections::has_bad_section_table;

/// The first bytes of an ELF file.
const MAGIC: [u8; 4] = *b"\x7FELF";
/// ELFCLASS32.
const CLASS_32: u8 = 1;
/// ELFDATA2LSB.
const LITTLE_ENDIAN: u8 = 1;
/// EV_CURRENT.
const CURRENT_VERSION: u32 = 1;
/// ET_EXEC.
const EXECUTABLE: u16 = 2;
/// EM_RISCV.
const RISC_V: u16 = 243;
/// PN_XNUM: the number of program headers is elsewhere.
const COUNT_ELSEWHERE: u16 = 0xFFFF;

/// Returns whether the file has fewer bytes than a header, or begins with other bytes.
#[tactic(auto, unfolding(crate::specs::File::is_not_elf))]
pub(crate) fn is_not_elf(file: &[u8]) -> bool
    ensures value { result ≡ is_not_elf file.now }
    ensures long { OnFalse result (HasHeader file.now) }
{
    file.len() < HEADER_SIZE || !file.starts_with(&MAGIC)
}

/// Returns whether EI_CLASS is not ELFCLASS32.
#[tactic(auto, unfolding(crate::specs::File::is_not_class_32))]
pub(crate) fn is_not_class_32(file: &[u8]) -> bool
    requires { HasHeader file.now }
    ensures { result ≡ is_not_class_32 file.now }
{
    byte_at(file, EI_CLASS) != CLASS_32
}

/// Returns whether EI_DATA is not ELFDATA2LSB.
#[tactic(auto, unfolding(crate::specs::File::is_not_little_endian))]
pub(crate) fn is_not_little_endian(file: &[u8]) -> bool
    requires { HasHeader file.now }
    ensures { result ≡ is_not_little_endian file.now }
{
    byte_at(file, EI_DATA) != LITTLE_ENDIAN
}

/// Returns whether EI_VERSION or e_version is not EV_CURRENT.
#[tactic(auto, unfolding(crate::specs::File::has_bad_version))]
pub(crate) fn has_bad_version(file: &[u8]) -> bool
    requires { HasHeader file.now }
    ensures { result ≡ has_bad_version file.now }
{
    u32::from(byte_at(file, EI_VERSION)) != CURRENT_VERSION
        || word_at(file, E_VERSION) != CURRENT_VERSION
}

/// Returns whether e_type is not ET_EXEC.
#[tactic(auto, unfolding(crate::specs::File::is_not_executable))]
pub(crate) fn is_not_executable(file: &[u8]) -> bool
    requires { HasHeader file.now }
    ensures { result ≡ is_not_executable file.now }
{
    half_at(file, E_TYPE) != EXECUTABLE
}

/// Returns whether e_machine is not EM_RISCV.
#[tactic(auto, unfolding(crate::specs::File::is_not_risc_v))]
pub(crate) fn is_not_risc_v(file: &[u8]) -> bool
    requires { HasHeader file.now }
    ensures { result ≡ is_not_risc_v file.now }
{
    half_at(file, E_MACHINE) != RISC_V
}

/// Returns whether e_phnum is PN_XNUM, or program headers have another size or end past the file.
#[tactic(auto, unfolding(crate::specs::File::has_bad_program_table))]
pub(crate) fn has_bad_program_table(file: &[u8]) -> bool
    requires { HasHeader file.now }
    ensures value { result ≡ has_bad_program_table file.now }
    ensures inside { OnFalse result (HasTable file.now) }
{
    let count = header_count(file);
    if count == 0 || count == COUNT_ELSEWHERE {
        return count == COUNT_ELSEWHERE;
    }
    let table_end = word_at(file, E_PHOFF) as usize + PROGRAM_HEADER_SIZE * count as usize;
    half_at(file, E_PHENTSIZE) as usize != PROGRAM_HEADER_SIZE || table_end > file.len()
}

/// Returns whether the table of program headers or that of section headers is bad.
#[tactic(auto, unfolding(crate::specs::File::has_bad_table))]
pub(crate) fn has_bad_table(file: &[u8]) -> bool
    requires { HasHeader file.now }
    ensures value { result ≡ has_bad_table file.now }
    ensures inside { OnFalse result (HasTable file.now) }
    ensures sections { OnFalse result (HasSections file.now) }
{
    has_bad_program_table(file) || has_bad_section_table(file)
}
