//! Reads a static ELF32 executable for RV32 from bytes in memory: the layer between a program's file and
//! the machine that runs it.
//!
//! [`read`] returns an [`Image`], whose segments and names are slices of the file, or the first of the reasons to reject the file, in the
//! order of their numbers. [`read_for`] does the same for a [`Profile`], which it keeps in the image. Both return for every file. They test
//! the conditions 20 to 28 before they allocate memory. Then lists grow: of what is loaded, of the segments and of the symbols that name. If one can't grow, they return `Memory`. Of the other calls, only `hooks` and `defined_symbols` allocate memory.
//!
//! | Call | What it returns |
//! |---|---|
//! | [`read`] | the image of a file, or an [`ElfFault`] |
//! | [`read_for`] | the same, with a profile other than the usual one |
//! | [`Profile::USUAL`] | the profile of [`read`]: RV32IM, the usual regions of heap and stack, and the usual [`StreamLimits`] |
//! | [`Isa::aligns`], [`is_short`] | whether an instruction may begin at an address, and whether some bits begin one of 16 |
//! | [`Image::segments`] | the loaded segments, in the order of the file's program headers |
//! | [`Image::entry`] | the address of the first instruction |
//! | [`Image::profile`] | what the file was read for |
//! | [`Image::patchable`] | whether each byte of the word at an address is loaded |
//! | [`Image::is_word`], [`Image::is_half_word`] | whether an instruction of 32 bits or of 16 may be at an address, and all of its bytes are loaded |
//! | [`Image::name_of`] | the name of the function at an address |
//! | [`Image::hooks`] | the functions named `malloc`, `free`, `calloc` and `realloc`, by their addresses |
//! | [`defined_symbols`] | the functions and labels that a file defines, with their addresses and names |
//! | [`ElfFault::number`] | the number of a fault: 1, or from 20 to 31 |
//!
//! A file may have any number of PT_LOADs that share no address; one with p_memsz and p_filesz 0 is ignored. A file has sections if neither
//! e_shoff nor e_shnum is 0. Its names are those of the first section of type SHT_SYMTAB, if it has one. Consider the symbols of type
//! STT_FUNC with st_shndx not 0, a name that is not empty and st_value not above the address. The one with the greatest st_value, among
//! equals the first in the table, names the address if st_size is 0 or the address is below st_value + st_size. Otherwise the name is
//! `???`. e_flags, e_ehsize, e_shstrndx, p_paddr, p_flags and p_align are ignored, as are program headers of types other than PT_LOAD and
//! PT_INTERP.
//!
//! No segment may have an address of the heap's region or of the stack's, with one exception. Linker scripts of firmware often reserve the
//! stack inside of the segment of RAM. So where the profile names another region of the stack than the usual one, a segment may be around
//! it: all of the region lies in that part of the segment's memory for which the file has no bytes. Such a segment is split. What lies
//! before the region is loaded, and what lies after it; nothing is loaded in the region, so the stack begins undefined. With the usual
//! regions no segment is split ([`usual_whole`]).
//!
//! Reading is fast for files of any content. Whether segments share an address is found from their headers in the order of their addresses.
//! Whether each name has an end is found by the last zero byte of the string table. A name is found by two binary searches among symbols
//! that `read` sorted once.
//!
//! The layer above uses one contract, that of [`read`]. An image is the file's (`IsImageOf`): the file isn't rejected; the image's segments
//! are those of the loadable program headers, or of their pieces, in the order of their table; at each address it loads what the file does and has the file's
//! name; it has the file's functions of the heap; it begins at e_entry; and it has the usual profile, or that of [`read_for`]
//! (`IsImageFor`). A fault other than `Memory` is the file's refusal, and a
//! refusal from 20 to 28 is returned whatever memory there is. Callers see of an image `segments_of`, `contents_of`, `entry_of`,
//! `loaded_at`, `name_at`, `hooks_of` and `profile_of`.
//!
//! Where the definitions are, in `specs/`:
//!
//! - `Fields`: a number in the file, which is a list of bytes.
//! - `File`: each reason to reject it (`is_not_elf` to `has_bad_symbols`), the first of them (`refusal`), and what the file loads and names
//!   (`contents_in`, `loaded_in`, `entry_in`, `name_in`). What is loaded is a list of program headers (`loads_of`): each whole, or its
//!   `pieces_of`.
//! - `Sections`: the section headers, the symbol table, its symbols and their names.
//! - `Names`: the symbol that is nearest to an address, and the name by it (`nearest`, `name_by`).
//! - `Hooks`: which names are functions of the heap, and those of a symbol table (`hook_named`, `hooks_by`).
//! - `Defined`: the functions and labels that a file defines (`defined_in`).
//! - `Images` and `Segments`: what an image loads and names, and a list of segments (`loaded`).
//! - `Faults`: the numbers of the faults.
//! - `Profiles`: the usual profile, and where an instruction may begin (`is_aligned`).
//!
//! Sources: System V ABI, edition 4.1, chapters 4 and 5 (the ELF-32 object file format); RISC-V ELF
//! psABI 1.0 (e_machine 243); RISC-V Unprivileged ISA 20191213 (names of instruction sets, IALIGN).
#![tactic(auto)]

mod defined;
mod fault;
mod fields;
mod hook;
mod image;
mod laws;
mod lookups;
mod names;
mod overlaps;
mod pieces;
mod profile;
mod program;
mod reading;
mod refusals;
mod sections;
mod segment;
mod segments;
mod symbols;

pub use defined::{DefinedSymbol, defined_symbols};
pub use fault::ElfFault;
pub use hook::Hook;
pub use image::Image;
pub use laws::{pieces_stay_good, usual_whole};
pub use profile::{Isa, Profile, StreamLimits, is_short};
pub use reading::{read, read_for};
pub use segment::Segment;
pub use segments::MOST_BYTES;
