//! The names of functions, by their addresses.
ghost use Rattle.std.specs.Prelude.{◌≡◌, ℕ, IfOk};
ghost use Rattle.std.specs.List.Sorted.{IsNonDecreasingBy};
ghost use Rattle.guest_elf.specs.declared.symbols.Symbol.{Symbol};

use crate::hook::{Hook, hook_from};
use crate::lookups::{name_from, nearest};
use crate::sections::symbol_table;
use crate::symbols::{Symbol, naming_symbols, strings_in};
use std::alloc::{AllocError, Global};

/// The name where none is known.
const UNKNOWN: &[u8] = b"???";

/// The naming symbols of a file in the order of their addresses, those of one address in the order of the
/// symbol table, and the bytes of its string table.
#[derive(Drop)]
pub(crate) struct FunctionNames<'a> {
    symbols: Vec<Symbol>,
    strings: &'a [u8],
    ghost ascending: { IsNonDecreasingBy (λ (symbol : Symbol). symbol.value) symbols.items },
}

impl<'a> FunctionNames<'a> {
    ghost use Rattle.guest_elf.specs.File.{HasHeader, name_in, hooks_in};
    ghost use Rattle.guest_elf.specs.Hooks.{hooks_by};
    ghost use Rattle.guest_elf.specs.Names.{named_by};
    ghost use Rattle.guest_elf.specs.Sections.{symbol_table, HasNames, HasSections};

    /// Returns the names in a file.
    pub(crate) fn read(alloc: Global, file: &'a [u8]) -> Result<Self, AllocError>
        requires header { HasHeader file.now }
        requires sections { HasSections file.now }
        requires inside { HasNames file.now (symbol_table file.now) }
        ensures names { IfOk result (λ names. (address : ℕ) →
            named_by names address ≡ name_in file.now address) }
        ensures hooks { IfOk result (λ names.
            hooks_by names.strings.now names.symbols.items ≡ hooks_in file.now) }
    {
        let Some(table) = symbol_table(file) else {
            return Ok(FunctionNames {
                symbols: Vec::new(alloc),
                strings: &[],
            });
        };
        let mut symbols = naming_symbols(alloc, file, table)?;
        symbols.sort_by_key(|symbol| symbol.value)?;
        let strings = strings_in(file, table);
        Ok(FunctionNames { symbols, strings })
    }

    /// Returns the name of the function at an address.
    #[tactic(auto, unfolding(crate::specs::Names::named_by, crate::specs::Names::name_by))]
    pub(crate) fn name_of(&self, addr: u32) -> &'a [u8]
        ensures { result.now ≡ named_by self.now addr }
    {
        match nearest(&self.symbols, addr) {
            Some(symbol) if symbol.has(addr) => name_from(self.strings, symbol.name),
            _ => UNKNOWN,
        }
    }
    /// Returns the functions of the heap that the symbols name, in the order of their addresses: one at each address, the one of the
    /// table's first symbol.
    pub(crate) fn hooks(&self, alloc: Global) -> Result<Vec<(u32, Hook)>, AllocError>
        ensures { IfOk result (λ hooks. hooks.items ≡ hooks_by self.now.strings.now self.now.symbols.items) }
    {
        let mut hooks = Vec::new(alloc);
        // Each address so far is below this one.
        let mut end = 0;
        for symbol in self.symbols.iter() {
            if u64::from(symbol.value) < end {
                continue;
            }
            if let Some(hook) = hook_from(self.strings, symbol.name) {
                hooks.push((symbol.value, hook))?;
                end = u64::from(symbol.value) + 1;
            }
        }
        Ok(hooks)
    }
}
