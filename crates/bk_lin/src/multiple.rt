//! Adds a multiple of one fact to another.

ghost use Rattle.std.specs.Prelude.{◌≡◌, ◌+◌, ◌↔◌, ◌*ℤ◌, ◌+ℤ◌, ◌&&◌, IsTrue, IsSome, OnSome, length};
ghost use Rattle.std.specs.Option.{SomeIff};
ghost use Rattle.bk_lin.specs.Inequality.{times, plus, takes_multiple};
ghost use Rattle.bk_val.specs.Value.{fits_i128};
ghost use Rattle.bk_lin.specs.Layout.{held_in, shown};

use crate::standing::Row;

/// Adds the multiple to the fact that `target` holds; none where a product or a sum is too wide, and then `target` is open.
pub fn add_multiple(target: &mut [i128], multiplier: i128, row: Row) -> Option<()>
    requires { length target.old ≡ length row.coefs.now + 1 }
    ensures narrow { IsSome result ↔
        IsTrue (takes_multiple (held_in target.old) multiplier (shown row.entry.coefs.now row.entry.constant)) }
    ensures added { OnSome result (held_in target.new ≡
        plus (held_in target.old) (times multiplier (shown row.entry.coefs.now row.entry.constant))) }
{
    for (k, sum) in target.iter_mut().enumerate() {
        *sum = add_product(*sum, multiplier, row.entry(k))?;
    }
    Some(())
}

fn add_product(sum: i128, multiplier: i128, entry: i128) -> Option<i128>
    ensures { SomeIff result (IsTrue (fits_i128 (multiplier *ℤ entry) && fits_i128 (sum +ℤ multiplier *ℤ entry)))
        (sum +ℤ multiplier *ℤ entry) }
{
    let product = multiplier.checked_mul(entry)?;
    sum.checked_add(product)
}
