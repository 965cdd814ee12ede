//! Linear forms, joined entry by entry. Each is given as the fact that it is at least 0.

ghost use Rattle.std.specs.Prelude.{◌≡◌, ◌↔◌, ◌*ℤ◌, IsTrue, IsSome, IfSome, OnSome, length, map};
ghost use Rattle.std.specs.List.{list_all};
ghost use Rattle.std.specs.Option.{SomeIff, option_map};
ghost use Rattle.bk_lin.specs.Inequality.{times};
ghost use Rattle.bk_val.specs.Value.{fits_i128};
ghost use Rattle.bk_lin.specs.Certificate.{inequality_of};
ghost use Rattle.bk_arith.specs.Reading.{if_narrow};
ghost use Rattle.bk_arith.specs.Layout.{entry_of, entries_of, combined};

use bk_lin::Fact;

/// How two linear forms are joined.
#[derive(Clone, Copy)]
pub enum Join {
    Sum,
    Difference,
}

/// The two joined; None where a number of the result does not fit.
pub fn combine(join: Join, left: Fact, right: &Fact) -> Option<Fact>
    requires { length left.coefs.items ≡ length right.now.coefs.items }
    ensures value { option_map inequality_of result ≡
        if_narrow (combined join (inequality_of left) (inequality_of right.now)) }
    ensures width { IfSome result (λ f. length f.coefs.items ≡ length left.coefs.items) }
{
    let Fact {
        mut coefs,
        constant,
    } = left;
    let constant = entry(join, constant, right.constant)?;
    combine_entries(join, coefs.as_mut_slice(), right.coefs.as_slice())?;
    Some(Fact { coefs, constant })
}

/// The linear form times a number; None where a number of the result does not fit.
pub fn scale(by: i128, form: Fact) -> Option<Fact>
    ensures value { option_map inequality_of result ≡ if_narrow (times by (inequality_of form)) }
    ensures width { IfSome result (λ f. length f.coefs.items ≡ length form.coefs.items) }
{
    let Fact {
        mut coefs,
        constant,
    } = form;
    let constant = product(by, constant)?;
    scale_entries(by, coefs.as_mut_slice())?;
    Some(Fact { coefs, constant })
}

fn entry(join: Join, left: i128, right: i128) -> Option<i128>
    ensures { SomeIff result (IsTrue (fits_i128 (entry_of join left right))) (entry_of join left right) }
{
    match join {
        Join::Sum => left.checked_add(right),
        Join::Difference => left.checked_sub(right),
    }
}

fn product(left: i128, right: i128) -> Option<i128>
    ensures { SomeIff result (IsTrue (fits_i128 (left *ℤ right))) (left *ℤ right) }
{
    left.checked_mul(right)
}

// None where an entry does not fit, and then `target` is open.
fn combine_entries(join: Join, target: &mut [i128], other: &[i128]) -> Option<()>
    requires { length target.old ≡ length other.now }
    ensures fits { IsSome result ↔ IsTrue (list_all fits_i128 (entries_of join target.old other.now)) }
    ensures made { OnSome result (target.new ≡ entries_of join target.old other.now) }
{
    for (k, number) in target.iter_mut().enumerate() {
        *number = entry(join, *number, other[k])?;
    }
    Some(())
}

// None where an entry does not fit, and then `target` is open.
fn scale_entries(by: i128, target: &mut [i128]) -> Option<()>
    ensures fits { IsSome result ↔ IsTrue (list_all fits_i128 (map (λ c. by *ℤ c) target.old)) }
    ensures made { OnSome result (target.new ≡ map (λ c. by *ℤ c) target.old) }
{
    for number in target.iter_mut() {
        *number = product(by, *number)?;
    }
    Some(())
}
