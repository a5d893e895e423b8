//! The memory of a guest program, with what Memcheck knows of each byte: the layer below the machine that executes steps.
//!
//! A [`Memory`] holds for each of the 2^32 addresses a byte, whether the byte may be accessed, and which of its bits are undefined. At
//! first each byte is 0 and inaccessible. An inaccessible byte has no undefined bits. Ranges wrap at the end of the address space: the
//! address after the last is 0.
//!
//! # Public items
//!
//! | Call | What it does | Allocates memory |
//! |---|---|---|
//! | [`Memory::new`] | returns a memory of inaccessible zeros | no |
//! | [`Memory::byte`] | returns what an address holds | no |
//! | [`Memory::load`] | returns 1, 2 or 4 bytes as a number, their undefined bits, the first inaccessible address | no |
//! | [`Memory::store`] | stores 1, 2 or 4 bytes with their undefined bits; returns the first inaccessible address | yes |
//! | [`Memory::defined`] | returns only the number, if one look-up shows that the bytes are accessible and defined | no |
//! | [`Memory::store_at_once`] | stores as `store` does, if one look-up shows that it can; returns whether it did | no |
//! | [`Memory::set_range`] | makes a range inaccessible, undefined or defined; its bytes stay | yes |
//! | [`Memory::fill`] | makes a range defined, with these bytes and zeros after them | yes |
//! | [`Memory::poke`], [`Memory::poke_half`], [`Memory::poke_word`] | change a byte, two or four; their accessibility and undefined bits stay | yes |
//! | [`Memory::store_bytes`] | stores bytes that are all defined, as input is | yes |
//! | [`Memory::copy_with_shadow`] | copies a range, with its undefined bits, to one that doesn't overlap it | yes |
//! | [`Memory::first_bad`] | returns the first byte of a range that is inaccessible or, if asked, not defined | no |
//! | [`Memory::next_word`] | returns the next multiple of 4 whose four bytes are accessible and defined | no |
//! | [`Memory::next_in_range`] | returns the next of these whose value lies in a range of numbers above 0 | no |
//! | [`Memory::has_bytes_of`] | returns whether the bytes of a range are those of another memory, all accessible and defined | no |
//! | [`Memory::is_same`] | returns whether another memory has the same contents | no |
//! | [`Memory::kept_pages`] | returns how many pages are kept | no |
//! | [`Memory::words_apart`] | returns the words in which another memory has other bytes, if all else is the same | yes |
//! | [`Memory::share`] | returns a memory with the same contents; a later change of one of the two doesn't reach the other | yes |
//! | [`laws::first_not`], [`laws::all_are`] | scans of bytes, sixteen at a time | no |
//!
//! [`Cell`], [`Loaded`], [`RangeKind`], [`Bad`] and [`WordApart`] are the values that these take and return. What allocates memory returns `AllocError` if
//! memory runs out; nothing else fails.
//!
//! # What a caller can rely on
//!
//! A memory is seen as two functions of the address, `bytes_in` and `shadows_in` (`specs/Memories`), and each contract is an equation of
//! them, for every address and length. So `store` ensures:
//!
//! - `bytes`: the bytes are those before the call, `written` at the range with the bytes of the number;
//! - `shadows`: the shadows are those before the call, with `stored_undef` of the range;
//! - `bad`: the result is `first_inaccessible` of the shadows before the call;
//! - `err`: if memory ran out, a front of the range was stored (`SomeFront`), and nothing else was changed.
//!
//! A `poke` that fails changes nothing; a `set_range` that fails changes no byte. No other definition says how a memory is kept.
//!
//! # Where the definitions are
//!
//! In `specs/`. For callers:
//!
//! - `Ranges`: ranges of addresses, a function changed at a range, bytes written and copied.
//! - `Shadows`: what is known of a byte, and what loads, stores, copies and marks make of it; the first inaccessible or bad byte, and the
//!   next word. `Values`: the next word whose value lies in a range.
//! - `Memories`: `bytes_in` and `shadows_in`. `Differences`: words in which the bytes of two memories differ. `Fronts` and `Changes`: what a
//!   failed call leaves, `IsWidth`, `AreApart`. `Cells`: `shadow_in`, `set_at`, `IsClean`.
//!
//! For this crate's own proofs: `Marks` (what a page keeps of a byte), `Edits` (one change of cells in a page), `Loads` (what a load
//! takes of cells), `TopDirectories`, `Directories`, `Pages`, `Views`, `Codes` and `Parts` (what each level of the table holds), `Places`,
//! `Firsts`, `Comparisons` (bytes that are those of others).
//!
//! # How a memory is kept
//!
//! There are up to 32 tops of 32 directories of 1,024 pages of 4,096 bytes. Each directory and each page is held by an `Rc`. The table
//! reaches as far as the last top directory that was changed, and a top directory as far as its last directory that was. What was not changed is blank. So
//! to share a memory is to copy short lists, although a stack is at high addresses: a top directory in which nothing was changed has an empty list.
//! A directory keeps its pages from the first to the last that was changed, so a copy of it is no longer than what a program uses there. A
//! page of zeros of one kind is blank too: it has no bytes at all. A search goes from one kept page to the next (`Memory::next_kept`).
//! `Memory::words_apart` follows it in both memories, and looks at single words only in the chunks of a page that differ.
//!
//! The marks of a page are of one kind, or two bits for each byte with an ordered map for the partly defined bytes (as in N. Nethercote and
//! J. Seward, "How to shadow every byte of memory used by a program", VEE 2007). A scan finds out that a change makes them one kind again.
//!
//! Every change goes through `Memory::change`, which changes cells of one page, all of them or none, in a page that no other memory shares,
//! or through `Memory::change_some`, which changes the bytes of a range alike, those of consecutive blank pages at once. `Rc::make_mut`
//! first copies a directory or a page that others share. Two calls change a page at once, only if no other memory has it, and allocate
//! nothing: `Memory::put` stores defined bits where the bytes are accessible; `Memory::change_own`, which `change` and `change_some` try
//! first, changes the kind of a range of one page, stores undefined bytes or sets a cell that isn't partly defined.
//!
//! A load that lies in one page looks it up once, and so does a store by `Memory::put`. Any other store in one page looks it up to find
//! what is inaccessible, and again to write.
//!
//! A copy looks first for zeros of one kind, over as many pages as there are. They change the target as a range alike, so blank pages stay
//! blank, and a held page that becomes zeros of one kind becomes blank. Other bytes go from one page to one page, the bytes as a slice and
//! the two bits by runs, up to a partly defined byte, which is copied separately.
//!
//! Sources: RISC-V Unprivileged ISA 20191213, sections 1.4 and 1.5; the Memcheck manual, sections 4.5 and 4.7.
#![tactic(auto)]

mod access;
mod cells;
mod codes;
mod comparisons;
mod contents;
mod copies;
mod differences;
mod directories;
mod directory_slots;
mod edits;
pub mod laws;
mod mark_changes;
mod marks;
mod memory;
mod pages;
mod ranges;
mod searches;
mod slices;
mod slots;
mod top_directories;
mod views;
mod word_scans;
mod words;

pub use cells::{Bad, Cell, Loaded, RangeKind};
pub use differences::WordApart;
pub use memory::Memory;
