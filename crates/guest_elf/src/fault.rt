//! The reasons to reject a file.
ghost use Rattle.std.specs.Prelude.{◌≡◌};
ghost use Rattle.guest_elf.specs.Faults.{number_of};
ghost use Rattle.guest_elf.specs.declared.fault.ElfFault.TheVariants.{Memory};

use std::alloc::AllocError;
use thiserror::Error;

/// Why a file gives no image. Except for `Memory`, it is the first reason that holds, in the order of the numbers.
#[derive(Clone, Copy, Debug, PartialEq, Eq, Error)]
pub enum ElfFault {
    /// Memory ran out as a list grew.
    #[error("no memory")]
    Memory,
    /// Fewer than 52 bytes, or another beginning than `7F 45 4C 46`.
    #[error("not an ELF file")]
    NotElf,
    /// EI_CLASS is not ELFCLASS32.
    #[error("not an ELF file of 32 bits")]
    NotClass32,
    /// EI_DATA is not ELFDATA2LSB.
    #[error("not a little-endian ELF file")]
    NotLittleEndian,
    /// EI_VERSION or e_version is not EV_CURRENT.
    #[error("not an ELF file of version 1")]
    BadVersion,
    /// e_type is not ET_EXEC.
    #[error("not an executable file")]
    NotExecutable,
    /// e_machine is not EM_RISCV.
    #[error("not a RISC-V file")]
    NotRiscV,
    /// e_phnum is PN_XNUM; or there are program headers and e_phentsize is not 32 or their table ends past
    /// the file; or there are sections and e_shentsize is not 40 or their table ends past the file.
    #[error("bad table of program or section headers")]
    BadTable,
    /// There is a program header of type PT_INTERP.
    #[error("the file asks for an interpreter")]
    Interpreter,
    /// There is a PT_LOAD with p_filesz above p_memsz, or bytes past the end of the file, or an end above 2^32.
    #[error("bad segment")]
    BadSegment,
    /// A segment shares an address with another, with the heap's region or with the stack's. A segment may be around a region of the stack
    /// that isn't the usual one.
    #[error("segments overlap")]
    Overlap,
    /// The file or the sum of p_memsz has more than 16,777,216 bytes.
    #[error("the file is too large")]
    TooLarge,
    /// There is a symbol table with sh_entsize other than 16, a size that is no multiple of 16, or an end past the file; its sh_link is not
    /// below e_shnum; its string table ends past the file; or a function (STT_FUNC with st_shndx not 0) has a name without a zero byte
    /// before the string table's end.
    #[error("bad symbol table")]
    BadSymbols,
}

impl From<AllocError> for ElfFault {
    ghost from_gives = { λ _ fault. fault ≡ Memory };

    fn from(_error: AllocError) -> Self {
        ElfFault::Memory
    }
}

impl ElfFault {
    /// Returns the number of the fault: 1 or from 20 to 31.
    pub fn number(self) -> u8
        ensures { result ≡ number_of self }
    {
        match self {
            ElfFault::Memory => 1,
            ElfFault::NotElf => 20,
            ElfFault::NotClass32 => 21,
            ElfFault::NotLittleEndian => 22,
            ElfFault::BadVersion => 23,
            ElfFault::NotExecutable => 24,
            ElfFault::NotRiscV => 25,
            ElfFault::BadTable => 26,
            ElfFault::Interpreter => 27,
            ElfFault::BadSegment => 28,
            ElfFault::Overlap => 29,
            ElfFault::TooLarge => 30,
            ElfFault::BadSymbols => 31,
        }
    }
}
