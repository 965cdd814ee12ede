//! The operators on whole numbers, within 128 bits.

ghost use Rattle.std.specs.Prelude.{◌≡◌, FitsSigned};
ghost use Rattle.std.specs.Int.{w128};
ghost use Rattle.std.specs.Result.{OkIff};
ghost use Rattle.bk_val.specs.Number.{number_of, quotient_of, remainder_of, power_of};

/// An operator on two whole numbers.
#[derive(Clone, Copy)]
pub enum NumOp {
    Add,
    Sub,
    Mul,
    /// Division, rounding toward zero; its divisor is not 0.
    Div,
    /// The remainder; its first operand is not negative, and its second is positive.
    Mod,
    /// The power; its exponent is not negative.
    Power,
}

/// The result lies outside `i128`.
#[derive(Clone, Copy, Debug, PartialEq, Eq)]
pub struct TooWide;

/// What the operator gives, and 0 outside its domain. TooWide comes exactly where that lies outside `i128`.
/// Takes no memory.
pub fn number(op: NumOp, a: i128, b: i128) -> Result<i128, TooWide>
    ensures { OkIff result (FitsSigned w128 (number_of op a b)) (number_of op a b) }
{
    match op {
        NumOp::Add => a.checked_add(b).ok_or(TooWide),
        NumOp::Sub => a.checked_sub(b).ok_or(TooWide),
        NumOp::Mul => a.checked_mul(b).ok_or(TooWide),
        NumOp::Div => quotient(a, b),
        NumOp::Mod => Ok(remainder(a, b)),
        NumOp::Power => power(a, b),
    }
}

fn quotient(a: i128, b: i128) -> Result<i128, TooWide>
    ensures { OkIff result (FitsSigned w128 (quotient_of a b)) (quotient_of a b) }
{
    if b == 0 {
        return Ok(0);
    }
    a.checked_div(b).ok_or(TooWide)
}

fn remainder(a: i128, b: i128) -> i128
    ensures { result ≡ remainder_of a b }
{
    if a < 0 || b <= 0 { 0 } else { a % b }
}

fn power(a: i128, b: i128) -> Result<i128, TooWide>
    ensures { OkIff result (FitsSigned w128 (power_of a b)) (power_of a b) }
{
    if b < 0 {
        return Ok(0);
    }
    if b < 256 {
        return a.checked_pow(b as u32).ok_or(TooWide);
    }
    // Of the powers this high only those of -1, 0 and 1 fit.
    if a < -1 || 1 < a {
        return Err(TooWide);
    }
    if a < 0 && b % 2 == 0 {
        return Ok(1);
    }
    Ok(a)
}
