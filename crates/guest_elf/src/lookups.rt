//! The symbol that names an address, and its name.
ghost use Rattle.std.specs.Prelude.{◌≡◌, position};
ghost use Rattle.std.specs.List.Sorted.{IsNonDecreasingBy};
ghost use Rattle.guest_elf.specs.Names.{nearest};
ghost use Rattle.guest_elf.specs.Sections.{is_zero, name_from};
ghost use Rattle.guest_elf.specs.declared.symbols.Symbol.{Symbol};

use crate::symbols::Symbol;

/// Returns the first of the symbols with the greatest address not above `addr`.
pub(crate) fn nearest(symbols: &[Symbol], addr: u32) -> Option<Symbol>
    requires { IsNonDecreasingBy (λ (symbol : Symbol). symbol.value) symbols.now }
    ensures { result ≡ nearest symbols.now addr }
{
    let end = symbols.partition_point(|symbol| symbol.value <= addr);
    if end == 0 {
        return None;
    }
    let value = symbols[end - 1].value;
    let first = symbols.partition_point(|symbol| symbol.value < value);
    Some(symbols[first])
}

/// Returns the place of the first zero byte.
fn first_zero(bytes: &[u8]) -> Option<usize>
    ensures { result ≡ position is_zero bytes.now }
{
    bytes.iter().position(|byte| *byte == 0)
}

/// Returns the name that begins at an offset of a string table: the bytes before the next zero byte.
pub(crate) fn name_from(strings: &[u8], start: u32) -> &[u8]
    ensures { result.now ≡ name_from strings.now start }
{
    if start as usize >= strings.len() {
        return &[];
    }
    let rest = &strings[start as usize..];
    match first_zero(rest) {
        Some(end) => &rest[..end],
        None => rest,
    }
}
