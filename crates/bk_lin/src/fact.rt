//! Facts, the lines of a certificate, and why one is refused.

use thiserror::Error;

/// Says that 0 is at most the sum of each coefficient times its atom, and the constant.
#[derive(Drop)]
pub struct Fact {
    pub coefs: Vec<i128>,
    pub constant: i128,
}

/// Makes one fact of those that stand before it. Facts number from 1: the given ones first, then one for each line.
#[derive(Drop)]
pub enum Line {
    /// The sum of multiples: each a multiplier, which is not negative, and the number of a fact.
    Sum(Vec<(i128, u32)>),
    /// A fact divided by a positive number that divides its coefficients; the constant is rounded down.
    Div { fact: u32, by: i128 },
}

/// Why a certificate is refused. Lines number from 1.
#[derive(Clone, Copy, Debug, PartialEq, Eq, Error)]
pub enum CertFault {
    #[error("line {0} cites a fact that does not stand, or divides a coefficient that is no multiple")]
    BadLine(usize),
    #[error("line {0} has a negative multiplier, or a divisor below 1")]
    Negative(usize),
    #[error("a product or a partial sum of line {0} does not fit 128 bits")]
    TooWide(usize),
    #[error("the last fact is no contradiction")]
    NotClosed,
}
