//! Sums, products and quotients.

ghost use Rattle.std.specs.Prelude.{◌≡◌, suc};
ghost use Rattle.definedness.specs.Operations.{add_of, sub_of, mul_of, mulh_of, mulhsu_of, mulhu_of, div_of, divu_of, rem_of, remu_of};
ghost use Rattle.definedness.specs.Undefined.{undef_add, undef_sub, undef_mul, undef_wide};
ghost use Rattle.definedness.specs.Undefined.{bit_is_set, some_below, word_of, least_value, greatest_value};
ghost use Rattle.definedness.specs.Law.{KeepsAgreement};
ghost use Rattle.definedness.specs.Exact.{TakesBothValues};

use crate::{Bits, undef_branch};

/// Returns the undefined bits of the sum `x + y` modulo 2^32 (ADD, ADDI).
pub fn undef_add(x: Bits, y: Bits) -> u32
    ensures bits { result ≡ undef_add x y }
    ensures law { KeepsAgreement add_of x y result }
    ensures exact { TakesBothValues add_of x y result }
{
    let least_sum = least_value(x).wrapping_add(least_value(y));
    let greatest_sum = greatest_value(x).wrapping_add(greatest_value(y));
    // At a bit that is defined in both, the two sums differ exactly if the carries into it do.
    x.undef | y.undef | (least_sum ^ greatest_sum)
}

/// Returns the undefined bits of the difference `x - y` modulo 2^32 (SUB).
pub fn undef_sub(x: Bits, y: Bits) -> u32
    ensures bits { result ≡ undef_sub x y }
    ensures law { KeepsAgreement sub_of x y result }
    ensures exact { TakesBothValues sub_of x y result }
{
    let least_difference = least_value(x).wrapping_sub(greatest_value(y));
    let greatest_difference = greatest_value(x).wrapping_sub(least_value(y));
    // At a bit that is defined in both, the two differ exactly if the borrows into it do.
    x.undef | y.undef | (least_difference ^ greatest_difference)
}

/// Returns the undefined bits of the lower word of the product `x * y` (MUL).
pub fn undef_mul(x: Bits, y: Bits) -> u32
    ensures bits { result ≡ undef_mul x y }
    ensures law { KeepsAgreement mul_of x y result }
{
    let multiplied = x.undef | y.undef;
    from_lowest(multiplied)
}

/// Returns the undefined bits of the upper word of a product, of a quotient and of a remainder (MULH, MULHSU, MULHU, DIV, DIVU, REM, REMU).
pub fn undef_wide(x: Bits, y: Bits) -> u32
    ensures bits { result ≡ undef_wide x y }
    ensures law_mulh { KeepsAgreement mulh_of x y result }
    ensures law_mulhsu { KeepsAgreement mulhsu_of x y result }
    ensures law_mulhu { KeepsAgreement mulhu_of x y result }
    ensures law_div { KeepsAgreement div_of x y result }
    ensures law_divu { KeepsAgreement divu_of x y result }
    ensures law_rem { KeepsAgreement rem_of x y result }
    ensures law_remu { KeepsAgreement remu_of x y result }
{
    // 1 negated has every bit set, and 0 none.
    u32::from(undef_branch(x, y)).wrapping_neg()
}

/// Returns the word whose set bits are those at or above the lowest set bit of `word`.
#[inline]
fn from_lowest(word: u32) -> u32
    ensures { result ≡ word_of (λ i. some_below (bit_is_set word) (suc i)) }
{
    word | word.wrapping_neg()
}

/// Returns `x` with each undefined bit 0.
#[inline]
fn least_value(x: Bits) -> u32
    ensures { result ≡ least_value x }
{
    x.value & !x.undef
}

/// Returns `x` with each undefined bit 1.
#[inline]
fn greatest_value(x: Bits) -> u32
    ensures { result ≡ greatest_value x }
{
    x.value | x.undef
}
