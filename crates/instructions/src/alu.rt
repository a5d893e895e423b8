//! What an instruction computes from two numbers, with the undefined bits of the result.
ghost use Rattle.std.specs.Prelude.{◌≡◌, ◌<◌, ◌^◌};
ghost use Rattle.instructions.specs.Widths.{width_limit};
ghost use Rattle.definedness.specs.Operations.{less_signed, shift_of, upper_word, mulh_of, mulhsu_of, mulhu_of, div_of, rem_of};
ghost use Rattle.instructions.specs.Alu.{number_of, value_of, undef_of, computed, passes, is_undecided, extended};

use crate::instruction::{Comparison, Operation};
use crate::width::Width;
use definedness::known::defined_results;
use definedness::signed::arithmetic_shift;
use definedness::{
    Bits, Shift, undef_add, undef_and, undef_branch, undef_equal, undef_less, undef_mul, undef_or,
    undef_shift, undef_sub, undef_wide, undef_xor,
};

#[inline(always)]
#[tactic(auto, unfolding(crate::specs::Alu::undef_of))]
fn undef_of(operation: Operation, x: Bits, y: Bits) -> u32
    ensures { result ≡ undef_of operation x y }
{
    match operation {
        Operation::Add => undef_add(x, y),
        Operation::Sub => undef_sub(x, y),
        Operation::ShiftLeft => undef_shift(Shift::Left, x, y),
        Operation::SetLess | Operation::SetLessUnsigned => undef_less(x, y),
        Operation::Xor => undef_xor(x, y),
        Operation::ShiftRight => undef_shift(Shift::Right, x, y),
        Operation::ShiftArith => undef_shift(Shift::Arith, x, y),
        Operation::Or => undef_or(x, y),
        Operation::And => undef_and(x, y),
        Operation::Mul => undef_mul(x, y),
        Operation::MulHigh
        | Operation::MulHighSignedUnsigned
        | Operation::MulHighUnsigned
        | Operation::Div
        | Operation::DivUnsigned
        | Operation::Rem
        | Operation::RemUnsigned => undef_wide(x, y),
    }
}

/// Returns 1 for true and 0 for false.
#[inline(always)]
fn number_of(holds: bool) -> u32
    ensures { result ≡ number_of holds }
{
    if holds { 1 } else { 0 }
}

#[inline(always)]
#[tactic(auto, unfolding(definedness::specs::Operations::less_signed))]
pub(crate) fn less_signed(x: u32, y: u32) -> bool
    ensures { result ≡ less_signed x y }
{
    x.cast_signed() < y.cast_signed()
}

#[inline(always)]
#[tactic(auto, unfolding(definedness::specs::Operations::shift_of))]
fn shifted(shift: Shift, x: u32, amount: u32) -> u32
    ensures { result ≡ shift_of shift x amount }
{
    match shift {
        Shift::Left => x.wrapping_shl(amount),
        Shift::Right => x.wrapping_shr(amount),
        Shift::Arith => {
            arithmetic_shift();
            x.cast_signed().wrapping_shr(amount).cast_unsigned()
        }
    }
}

/// Returns the upper half of a product of 64 bits.
#[inline(always)]
fn upper_word(product: i64) -> u32
    ensures { result ≡ upper_word product }
{
    (product.cast_unsigned() >> 32) as u32
}

/// Returns the upper half of the product of two signed numbers.
#[inline(always)]
#[tactic(auto, unfolding(definedness::specs::Operations::mulh_of))]
fn mulh(x: u32, y: u32) -> u32
    ensures { result ≡ mulh_of x y }
{
    upper_word(i64::from(x.cast_signed()).wrapping_mul(i64::from(y.cast_signed())))
}

/// Returns the upper half of the product of a signed and an unsigned number.
#[inline(always)]
#[tactic(auto, unfolding(definedness::specs::Operations::mulhsu_of))]
fn mulhsu(x: u32, y: u32) -> u32
    ensures { result ≡ mulhsu_of x y }
{
    upper_word(i64::from(x.cast_signed()).wrapping_mul(i64::from(y)))
}

/// Returns the upper half of the product of two unsigned numbers.
#[inline(always)]
#[tactic(auto, unfolding(definedness::specs::Operations::mulhu_of))]
fn mulhu(x: u32, y: u32) -> u32
    ensures { result ≡ mulhu_of x y }
{
    (u64::from(x).wrapping_mul(u64::from(y)) >> 32) as u32
}

/// Returns the signed quotient, rounded towards zero; all ones for division by zero.
#[inline(always)]
#[tactic(auto, unfolding(definedness::specs::Operations::div_of))]
fn div(x: u32, y: u32) -> u32
    ensures { result ≡ div_of x y }
{
    if y == 0 {
        return u32::MAX;
    }
    x.cast_signed()
        .wrapping_div(y.cast_signed())
        .cast_unsigned()
}

/// Returns the signed remainder, with the sign of the dividend; the dividend for division by zero.
#[inline(always)]
#[tactic(auto, unfolding(definedness::specs::Operations::rem_of))]
fn rem(x: u32, y: u32) -> u32
    ensures { result ≡ rem_of x y }
{
    if y == 0 {
        return x;
    }
    x.cast_signed()
        .wrapping_rem(y.cast_signed())
        .cast_unsigned()
}

#[inline(always)]
#[tactic(auto, unfolding(crate::specs::Alu::value_of, definedness::specs::Operations::add_of, definedness::specs::Operations::sub_of, definedness::specs::Operations::mul_of, definedness::specs::Operations::and_of, definedness::specs::Operations::or_of, definedness::specs::Operations::xor_of, definedness::specs::Operations::divu_of, definedness::specs::Operations::remu_of, definedness::specs::Operations::less_unsigned))]
fn value_of(operation: Operation, x: u32, y: u32) -> u32
    ensures { result ≡ value_of operation x y }
{
    match operation {
        Operation::Add => x.wrapping_add(y),
        Operation::Sub => x.wrapping_sub(y),
        Operation::ShiftLeft => shifted(Shift::Left, x, y),
        Operation::SetLess => number_of(less_signed(x, y)),
        Operation::SetLessUnsigned => number_of(x < y),
        Operation::Xor => x ^ y,
        Operation::ShiftRight => shifted(Shift::Right, x, y),
        Operation::ShiftArith => shifted(Shift::Arith, x, y),
        Operation::Or => x | y,
        Operation::And => x & y,
        Operation::Mul => x.wrapping_mul(y),
        Operation::MulHigh => mulh(x, y),
        Operation::MulHighSignedUnsigned => mulhsu(x, y),
        Operation::MulHighUnsigned => mulhu(x, y),
        Operation::Div => div(x, y),
        Operation::DivUnsigned => if y == 0 { u32::MAX } else { x / y },
        Operation::Rem => rem(x, y),
        Operation::RemUnsigned => if y == 0 { x } else { x % y },
    }
}

/// Returns the result of an operation on two numbers some of whose bits are undefined. Out of line, since most numbers have no undefined
/// bits.
#[inline(never)]
#[tactic(auto, unfolding(crate::specs::Alu::computed))]
fn computed_in_part(operation: Operation, x: Bits, y: Bits) -> Bits
    ensures { result ≡ computed operation x y }
{
    Bits {
        value: value_of(operation, x.value, y.value),
        undef: undef_of(operation, x, y),
    }
}

/// If no bit of `x` and `y` is undefined, no bit of the result is.
#[inline(always)]
fn leaves_none(operation: Operation, x: Bits, y: Bits)
    requires x_defined { x.undef ≡ 0 }
    requires y_defined { y.undef ≡ 0 }
    ensures { undef_of operation x y ≡ 0 }
{
    defined_results(x, y);
}

/// Returns the result of an operation, with its undefined bits.
#[inline(always)]
#[tactic(auto, unfolding(crate::specs::Alu::computed), using(std::proofs::lemmas::Nat::le_or_l, std::proofs::lemmas::Nat::le_or_r))]
pub fn computed(operation: Operation, x: Bits, y: Bits) -> Bits
    ensures { result ≡ computed operation x y }
{
    if (x.undef | y.undef) != 0 {
        return computed_in_part(operation, x, y);
    }
    leaves_none(operation, x, y);
    Bits {
        value: value_of(operation, x.value, y.value),
        undef: 0,
    }
}

/// Returns whether a branch is taken.
#[inline(always)]
#[tactic(auto, unfolding(crate::specs::Alu::passes, definedness::specs::Operations::less_unsigned))]
pub fn passes(comparison: Comparison, x: u32, y: u32) -> bool
    ensures { result ≡ passes comparison x y }
{
    match comparison {
        Comparison::Equal => x == y,
        Comparison::NotEqual => x != y,
        Comparison::Less => less_signed(x, y),
        Comparison::GreaterEqual => !less_signed(x, y),
        Comparison::LessUnsigned => x < y,
        Comparison::GreaterEqualUnsigned => x >= y,
    }
}

/// Returns whether a branch depends on undefined bits.
#[inline(always)]
#[tactic(auto, unfolding(crate::specs::Alu::is_undecided))]
pub fn is_undecided(comparison: Comparison, x: Bits, y: Bits) -> bool
    ensures { result ≡ is_undecided comparison x y }
{
    match comparison {
        Comparison::Equal | Comparison::NotEqual => undef_equal(x, y),
        Comparison::Less
        | Comparison::GreaterEqual
        | Comparison::LessUnsigned
        | Comparison::GreaterEqualUnsigned => undef_branch(x, y),
    }
}

/// Returns what a load puts in a register: the number of its bytes, sign-extended if the load is signed.
#[inline(always)]
#[tactic(auto, unfolding(crate::specs::Alu::extended))]
pub fn extended(width: Width, signed: bool, x: u32) -> u32
    requires { x < width_limit width }
    ensures { result ≡ extended width signed x }
{
    if !signed {
        return x;
    }
    match width {
        Width::Byte => if x < 0x80 { x } else { x + 0xFFFF_FF00 },
        Width::Half => if x < 0x8000 { x } else { x + 0xFFFF_0000 },
        Width::Word => x,
    }
}
