// The arrays that executed code may use.

ghost use Rattle.std.specs.Prelude.{◌≡◌, IfOk};
ghost use Rattle.std.specs.Option.{option_copied};
ghost use Rattle.bk_form.specs.ArrayTable.{row_of};

use bk_io::Memory;
use std::alloc::Global;
use std::marker::Model;

/// The indices of an array.
#[derive(Clone, Copy, PartialEq, Eq, Debug)]
pub enum ArrayDomain {
    /// The numbers from `low` to `high`.
    Interval { low: i64, high: i64 },
    /// `FALSE` and `TRUE`.
    Bool,
    /// The elements of the enumerated set of this number.
    Set(u32),
}

/// An array: the number of its variable, and its indices.
#[derive(Clone, Copy, PartialEq, Eq, Debug)]
pub struct ArrayRow {
    pub var: u32,
    pub domain: ArrayDomain,
}

/// The arrays that executed code may use, and the largest number that it may have, `MAXINT`.
#[derive(Drop)]
pub struct Arrays {
    max: i64,
    rows: Vec<ArrayRow>,
}

impl Model for Arrays {
    ghost use Rattle.bk_form.specs.ArrayTable.{ArrayTable};

    ghost Value = { ArrayTable };

    ghost view = { λ a. record { max = a.max; rows = a.rows.items } };
}

impl Arrays {
    /// The arrays of these rows. It takes no memory.
    pub fn from_rows(max: i64, rows: Vec<ArrayRow>) -> Arrays
        ensures { result ≡ record { max = max; rows = rows.items } }
    {
        Arrays { max, rows }
    }

    /// The rows back. It takes no memory.
    pub fn into_rows(self) -> Vec<ArrayRow>
        ensures { result.items ≡ self.rows }
    {
        self.rows
    }

    /// The largest number.
    pub fn max(&self) -> i64
        ensures { result ≡ self.now.max }
    {
        self.max
    }

    /// The rows in order.
    pub fn rows(&self) -> &[ArrayRow]
        ensures { result.now ≡ self.now.rows }
    {
        &self.rows
    }

    /// The array of a variable: the first row that has it.
    pub fn row(&self, var: u32) -> Option<&ArrayRow>
        ensures { option_copied result ≡ row_of self.now var }
    {
        self.rows.iter().find(|row| row.var == var)
    }

    /// The same arrays again.
    pub fn copy(&self, alloc: Global) -> Result<Arrays, Memory>
        ensures { IfOk result (λ a. a ≡ self.now) }
    {
        Ok(Arrays {
            max: self.max,
            rows: self.rows.to_vec(alloc)?,
        })
    }
}
