//! The operations on whole numbers, from -max to max of an image.
//!
//! With `DEFAULT` the range is that of `DEFAULT_MAX`, which then is a part of the machine instructions.
ghost use Rattle.std.specs.Prelude.{◌≡◌, ℤ, neg_ℤ, ◌+ℤ◌, ◌-ℤ◌, ◌*ℤ◌};
ghost use Rattle.bk_code.specs.Numbers as numbers;
ghost use Rattle.bk_vm.specs.Flows.{IsSmall, HasRange};

use bk_code::{DEFAULT_MAX, Image, Trap};

#[inline]
#[tactic(auto, using(crate::proofs::Steps::default_is))]
fn greatest<const DEFAULT: bool>(image: &Image) -> i64
    requires { HasRange image.now DEFAULT }
    ensures { result ≡ numbers.int_max image.now }
{
    if DEFAULT {
        DEFAULT_MAX
    } else {
        image.int_max()
    }
}

// The least number is the negation of the greatest.
#[inline]
fn bounded<const DEFAULT: bool>(image: &Image, n: i64) -> Result<i64, Trap>
    requires { HasRange image.now DEFAULT }
    ensures { result ≡ numbers.bounded (numbers.int_max image.now) n }
{
    let max = greatest::<DEFAULT>(image);
    if n < -max || n > max {
        Err(Trap::Overflow)
    } else {
        Ok(n)
    }
}

#[inline]
pub fn sum<const DEFAULT: bool>(image: &Image, a: i64, b: i64) -> Result<i64, Trap>
    requires greatest { HasRange image.now DEFAULT }
    requires first { IsSmall a }
    requires second { IsSmall b }
    ensures { result ≡ numbers.bounded (numbers.int_max image.now) (a +ℤ b) }
{
    bounded::<DEFAULT>(image, a + b)
}

#[inline]
pub fn difference<const DEFAULT: bool>(image: &Image, a: i64, b: i64) -> Result<i64, Trap>
    requires greatest { HasRange image.now DEFAULT }
    requires first { IsSmall a }
    requires second { IsSmall b }
    ensures { result ≡ numbers.bounded (numbers.int_max image.now) (a -ℤ b) }
{
    bounded::<DEFAULT>(image, a - b)
}

/// A product that leaves 64 bits is outside each range.
#[inline]
#[tactic(auto, using(crate::proofs::Steps::too_wide))]
pub fn product<const DEFAULT: bool>(image: &Image, a: i64, b: i64) -> Result<i64, Trap>
    requires greatest { HasRange image.now DEFAULT }
    ensures { result ≡ numbers.bounded (numbers.int_max image.now) (a *ℤ b) }
{
    match a.checked_mul(b) {
        Some(n) => bounded::<DEFAULT>(image, n),
        None => Err(Trap::Overflow),
    }
}

#[inline]
pub fn negation<const DEFAULT: bool>(image: &Image, a: i64) -> Result<i64, Trap>
    requires greatest { HasRange image.now DEFAULT }
    requires number { IsSmall a }
    ensures { result ≡ numbers.bounded (numbers.int_max image.now) (neg_ℤ a) }
{
    bounded::<DEFAULT>(image, -a)
}

/// Rounds toward zero.
#[inline]
pub fn quotient(a: i64, b: i64) -> Result<i64, Trap>
    requires first { IsSmall a }
    requires second { IsSmall b }
    ensures { result ≡ numbers.quotient a b }
{
    if b == 0 {
        Err(Trap::DivZero)
    } else {
        Ok(a / b)
    }
}

#[inline]
pub fn remainder(a: i64, b: i64) -> Result<i64, Trap>
    requires first { IsSmall a }
    requires second { IsSmall b }
    ensures { result ≡ numbers.remainder a b }
{
    if a < 0 || b <= 0 {
        Err(Trap::ModRange)
    } else {
        Ok(a % b)
    }
}
