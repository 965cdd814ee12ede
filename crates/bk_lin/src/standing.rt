//! The facts that stand before a line: the given ones, and those of the lines before it.

ghost use Rattle.std.specs.Prelude.{◌≡◌, ◌≤◌, ◌<◌, ◌+◌, ◌↔◌, ◌∷◌, IsTrue, length, slice_index_or, pos};
ghost use Rattle.bk_lin.specs.Certificate.{is_number, fact_at};
ghost use Rattle.bk_lin.specs.Inequality.{IsContradiction};
ghost use Rattle.bk_lin.specs.Layout.{shown, facts_of, held_at, held_in, IsLaidOut};

use crate::fact::Fact;

/// A fact as it is read, wherever it lies.
#[derive(Clone, Copy)]
pub struct Row<'a> {
    pub coefs: &'a [i128],
    pub constant: i128,
}

impl Row<'_> {
    /// The constant at 0, and coefficient k at k + 1.
    pub fn entry(&self, k: usize) -> i128
        requires { k < length self.now.coefs.now + 1 }
        ensures { result ≡ slice_index_or (self.now.constant ∷ self.now.coefs.now) k (pos 0) }
    {
        if k == 0 {
            self.constant
        } else {
            self.coefs[k - 1]
        }
    }

    /// No coefficient but 0, and a negative constant.
    pub fn is_contradiction(&self) -> bool
        ensures { IsTrue result ↔ IsContradiction (shown self.now.coefs.now self.now.constant) }
    {
        self.constant < 0 && self.coefs.iter().all(|coef| *coef == 0)
    }
}

/// The facts of lines lie one after another in `made`, `size` numbers each: the constant, then the coefficients.
#[derive(Clone, Copy)]
pub struct Standing<'a> {
    pub given: &'a [Fact],
    pub size: usize,
    pub lines: usize,
    pub made: &'a [i128],
}

impl<'a> Standing<'a> {
    /// Whether a fact of this number, from 1, stands.
    pub fn has(&self, number: u32) -> bool
        ensures { result ≡ is_number (facts_of self.now) number }
    {
        let number = number as usize;
        let given = self.given.len();
        number >= 1 && (number <= given || number - given <= self.lines)
    }

    /// The fact of a number that stands.
    pub fn row(&self, number: u32) -> Row<'a>
        requires laid_out { IsLaidOut self.now }
        requires stands { IsTrue (is_number (facts_of self.now) number) }
        ensures fact { shown result.coefs.now result.constant ≡ fact_at (facts_of self.now) number }
        ensures width { length result.coefs.now + 1 ≡ self.now.size }
    {
        let index = number as usize - 1;
        if index < self.given.len() {
            let fact = &self.given[index];
            return Row {
                coefs: fact.coefs.as_slice(),
                constant: fact.constant,
            };
        }
        self.row_of_line(index - self.given.len())
    }

    /// The fact of one of the lines, counted from 0.
    pub fn row_of_line(&self, line: usize) -> Row<'a>
        requires laid_out { IsLaidOut self.now }
        requires made { line < self.now.lines }
        ensures fact { shown result.coefs.now result.constant ≡ held_at self.now.size self.now.made.now line }
        ensures width { length result.coefs.now + 1 ≡ self.now.size }
    {
        let start = line * self.size;
        read_row(&self.made[start..start + self.size])
    }
}

fn read_row(held: &[i128]) -> Row<'_>
    requires { 0 < length held.now }
    ensures fact { shown result.coefs.now result.constant ≡ held_in held.now }
    ensures width { length result.coefs.now + 1 ≡ length held.now }
{
    Row {
        coefs: &held[1..],
        constant: held[0],
    }
}
