//! How the heap of a file is known.
ghost use Rattle.std.specs.Prelude.{◌≡◌, ◌&&◌, ◌||◌, ◌==◌, ◌++◌, ◌∷◌, [], not, map, IfOk, OnOk, if◌then◌else◌};
ghost use Rattle.std.specs.List.{list_any};
ghost use Rattle.guest_elf.specs.Defined.{SymbolContent, defined_in, symbol_content};
ghost use Rattle.file_heaps.specs.FileHeaps.{doubtful, is_doubtful, is_seen, is_taken_over, is_unknown, is_unseen, is_unmapped, known_of, maps, sight_of, unknown_names, unmapped};

use crate::names::{is_allocator, is_heap_function, is_likely, is_mapped_mark};
use crate::searching::is_among;
use crate::wording::push_names;
use guest_elf::{DefinedSymbol, defined_symbols};
use std::alloc::{AllocError, Global};

/// What the symbols of a file tell of its heap.
#[derive(Clone, Copy)]
pub struct Known {
    /// Whether the file defines a function or a label.
    pub has_symbols: bool,
    /// Whether it has a function named `malloc`, `free`, `calloc` or `realloc`, which the machine takes over.
    pub is_named: bool,
    /// Whether it has a function that gives blocks of a real-time system's heap, and isn't mapped to one of these.
    pub has_unmapped: bool,
    /// Whether it has another function whose name speaks of blocks.
    pub has_doubtful: bool,
}

/// Whether errors of a heap can be found.
#[derive(Clone, Copy)]
pub enum Sight {
    /// They are found, or there is no heap.
    Seen,
    /// They are found in blocks of the known functions, and other functions may give blocks.
    Partly,
    /// They can't be found.
    Unseen,
}

impl Sight {
    /// Returns whether errors of the heap can't be found.
    pub fn is_unseen(self) -> bool
        ensures { result ≡ is_unseen self }
    {
        matches!(self, Sight::Unseen)
    }

    /// Returns whether all of them can be found.
    pub fn is_seen(self) -> bool
        ensures { result ≡ is_seen self }
    {
        matches!(self, Sight::Seen)
    }
}

impl Known {
    /// Returns whether errors of the heap can be found, in a run that has called the heap or hasn't.
    pub fn sight(self, is_called: bool) -> Sight
        ensures { result ≡ sight_of self is_called }
    {
        if self.has_unmapped {
            Sight::Unseen
        } else if self.is_named || is_called {
            if self.has_doubtful {
                Sight::Partly
            } else {
                Sight::Seen
            }
        } else if !self.has_symbols || self.has_doubtful {
            Sight::Unseen
        } else {
            Sight::Seen
        }
    }
}

/// How the heap of a file is known.
#[derive(Drop)]
pub struct FileHeap {
    /// What the symbols tell.
    pub known: Known,
    /// The first names of functions whose blocks aren't known, with commas between them.
    pub names: Vec<u8>,
}

/// Returns whether a symbol is a function that the machine takes over.
#[tactic(auto, unfolding(guest_elf::specs::Defined::symbol_content))]
fn is_taken_over(symbol: &DefinedSymbol) -> bool
    ensures { result ≡ is_taken_over (symbol_content symbol.now) }
{
    symbol.is_function && is_heap_function(symbol.name)
}

/// Returns whether a symbol says that the machine takes over what is at an address.
#[tactic(auto, unfolding(guest_elf::specs::Defined::symbol_content))]
fn maps(address: u32, symbol: &DefinedSymbol) -> bool
    ensures { result ≡ maps address (symbol_content symbol.now) }
{
    symbol.is_function
        && ((is_heap_function(symbol.name) || is_mapped_mark(symbol.name))
            && symbol.address == address)
}

/// Returns whether one of some symbols says so.
fn has_map(symbols: &[DefinedSymbol], address: u32) -> bool
    ensures { result ≡ list_any (λ symbol. maps address (symbol_content symbol)) symbols.now }
{
    symbols.iter().any(|symbol| maps(address, symbol))
}

/// Returns whether the machine takes over what is at an address, as some symbols say.
fn is_mapped(symbols: &[DefinedSymbol], address: u32) -> bool
    ensures { result ≡ list_any (maps address) (map symbol_content symbols.now) }
{
    has_map(symbols, address)
}

/// Returns whether one of some symbols is a function that the machine takes over.
fn has_taken_over(symbols: &[DefinedSymbol]) -> bool
    ensures { result ≡ list_any (λ symbol. is_taken_over (symbol_content symbol)) symbols.now }
{
    symbols.iter().any(is_taken_over)
}

/// Returns whether the machine takes over one of the functions that symbols name.
fn is_named(symbols: &[DefinedSymbol]) -> bool
    ensures { result ≡ list_any is_taken_over (map symbol_content symbols.now) }
{
    has_taken_over(symbols)
}

/// Returns whether a symbol is none of the names that are no heap's, and isn't mapped.
#[tactic(auto, unfolding(guest_elf::specs::Defined::symbol_content))]
fn is_unknown(symbols: &[DefinedSymbol], except: &[u8], symbol: &DefinedSymbol) -> bool
    ensures { result ≡ is_unknown (map symbol_content symbols.now) except.now (symbol_content symbol.now) }
{
    !is_among(b',', except, symbol.name) && !is_mapped(symbols, symbol.address)
}

/// Returns whether a symbol is a function that gives blocks of a real-time system's heap, and isn't mapped.
#[tactic(auto, unfolding(guest_elf::specs::Defined::symbol_content))]
fn is_unmapped(symbols: &[DefinedSymbol], except: &[u8], symbol: &DefinedSymbol) -> bool
    ensures { result ≡ is_unmapped (map symbol_content symbols.now) except.now (symbol_content symbol.now) }
{
    (symbol.is_function && is_allocator(symbol.name)) && is_unknown(symbols, except, symbol)
}

/// Returns whether a symbol is another one that may give blocks.
#[tactic(auto, unfolding(guest_elf::specs::Defined::symbol_content))]
fn is_doubtful(symbols: &[DefinedSymbol], except: &[u8], symbol: &DefinedSymbol) -> bool
    ensures { result ≡ is_doubtful (map symbol_content symbols.now) except.now (symbol_content symbol.now) }
{
    ((symbol.is_function && (is_likely(symbol.name) && !is_allocator(symbol.name)))
        || (!symbol.is_function && is_heap_function(symbol.name)))
        && is_unknown(symbols, except, symbol)
}

/// Appends a symbol to a list, if it is one for it.
#[tactic(auto, using(crate::proofs::Lists::mapped_push))]
fn push_if<'a>(
    list: &mut Vec<DefinedSymbol<'a>>,
    symbol: DefinedSymbol<'a>,
    is_one: bool,
) -> Result<(), AllocError>
    ensures { OnOk result (map symbol_content list.new.items
        ≡ map symbol_content list.old.items ++ (if is_one then symbol_content symbol.entry ∷ [] else [])) }
{
    if is_one {
        list.push(symbol)?;
    }
    Ok(())
}

/// Returns those of some symbols that give blocks of a real-time system's heap, and aren't mapped.
#[tactic(auto, using(crate::proofs::Lists::kept_next))]
fn unmapped<'a>(
    alloc: Global,
    symbols: &[DefinedSymbol<'a>],
    except: &[u8],
) -> Result<Vec<DefinedSymbol<'a>>, AllocError>
    ensures { IfOk result (λ list. map symbol_content list.items ≡ unmapped (map symbol_content symbols.now) except.now) }
{
    let mut list = Vec::new(alloc);
    for symbol in symbols {
        let is_one = is_unmapped(symbols, except, symbol);
        push_if(&mut list, *symbol, is_one)?;
    }
    Ok(list)
}

/// Returns the others that may give blocks.
#[tactic(auto, using(crate::proofs::Lists::kept_next))]
fn doubtful<'a>(
    alloc: Global,
    symbols: &[DefinedSymbol<'a>],
    except: &[u8],
) -> Result<Vec<DefinedSymbol<'a>>, AllocError>
    ensures { IfOk result (λ list. map symbol_content list.items ≡ doubtful (map symbol_content symbols.now) except.now) }
{
    let mut list = Vec::new(alloc);
    for symbol in symbols {
        let is_one = is_doubtful(symbols, except, symbol);
        push_if(&mut list, *symbol, is_one)?;
    }
    Ok(list)
}

impl FileHeap {
    /// Reads how the heap of a file is known. The functions whose names `except` lists, with commas, are no heap's.
    pub fn read(alloc: Global, file: &[u8], except: &[u8]) -> Result<Self, AllocError>
        ensures known { IfOk result (λ heap. heap.known ≡ known_of (defined_in file.now) except.now) }
        ensures names { IfOk result (λ heap. heap.names.items ≡ unknown_names (defined_in file.now) except.now) }
    {
        let symbols = defined_symbols(alloc, file)?;
        let unmapped = unmapped(alloc, &symbols, except)?;
        let doubtful = doubtful(alloc, &symbols, except)?;
        let known = Known {
            has_symbols: !symbols.is_empty(),
            is_named: is_named(&symbols),
            has_unmapped: !unmapped.is_empty(),
            has_doubtful: !doubtful.is_empty(),
        };
        let mut names = Vec::new(alloc);
        if unmapped.is_empty() {
            push_names(&mut names, &doubtful)?;
        } else {
            push_names(&mut names, &unmapped)?;
        }
        Ok(FileHeap { known, names })
    }
}
