//! The fact that one line of a certificate makes.

ghost use Rattle.std.specs.Prelude.{◌≡◌, ◌-◌, ◌+◌, ◌^◌, ◌<◌, ◌↔◌, ◌≤ℤ◌, ℕ, ℤ, pos, int_le, length, IsTrue, IsSome, MatchResult, OnOk, OnSome};
ghost use Rattle.std.specs.Int.{int_rem_euclid};
ghost use Rattle.std.specs.List.{list_all};
ghost use Rattle.std.specs.Ordering.{int_eq};
ghost use Rattle.bk_lin.specs.Certificate.{line_fact, sum_fact, sum_fault, quotient_fault, multiples_of, sums_fit, is_number, fact_at};
ghost use Rattle.bk_lin.specs.Inequality.{plus_all, zero_of, quotient_of};
ghost use Rattle.bk_lin.specs.Layout.{shown, held_in, facts_of, next_fault, IsLaidOut};

use crate::fact::{CertFault, Line};
use crate::multiple::add_multiple;
use crate::standing::{Row, Standing};

/// Writes the line's fact into `target`, which is open where the line has a fault.
pub fn make_fact(standing: &Standing, line: &Line, target: &mut [i128]) -> Result<(), CertFault>
    requires laid_out { IsLaidOut standing.now }
    requires countable { standing.now.lines + 1 < 2 ^ 64 }
    requires room { length target.old ≡ standing.now.size }
    ensures fault { let fault = next_fault standing.now line.now in
        MatchResult result (λ _. fault ≡ None) (λ e. fault ≡ Some e) }
    ensures made { OnOk result (held_in target.new ≡
        line_fact (standing.now.size - 1) (facts_of standing.now) line.now) }
{
    match line {
        Line::Sum(parts) => make_sum(standing, parts.as_slice(), target),
        Line::Div { fact, by } => make_quotient(standing, *fact, *by, target),
    }
}

fn make_sum(
    standing: &Standing,
    parts: &[(i128, u32)],
    target: &mut [i128],
) -> Result<(), CertFault>
    requires laid_out { IsLaidOut standing.now }
    requires countable { standing.now.lines + 1 < 2 ^ 64 }
    requires room { length target.old ≡ standing.now.size }
    ensures fault { let fault = sum_fault (standing.now.size - 1) (standing.now.lines + 1)
        (facts_of standing.now) parts.now in MatchResult result (λ _. fault ≡ None) (λ e. fault ≡ Some e) }
    ensures made { OnOk result (held_in target.new ≡
        sum_fact (standing.now.size - 1) (facts_of standing.now) parts.now) }
{
    let number = standing.lines + 1;
    if !all_stand(standing, parts) {
        return Err(CertFault::BadLine(number));
    }
    if !none_negative(parts) {
        return Err(CertFault::Negative(number));
    }
    sum_up(standing, parts, target).ok_or(CertFault::TooWide(number))
}

fn all_stand(standing: &Standing, parts: &[(i128, u32)]) -> bool
    ensures { result ≡ list_all (λ (p : ℤ × ℕ). is_number (facts_of standing.now) p.1) parts.now }
{
    parts.iter().all(|(_, fact)| standing.has(*fact))
}

fn none_negative(parts: &[(i128, u32)]) -> bool
    ensures { result ≡ list_all (λ (p : ℤ × ℕ). int_le (pos 0) p.0) parts.now }
{
    parts.iter().all(|(multiplier, _)| 0 <= *multiplier)
}

/// None where a product or a partial sum is too wide.
fn sum_up(standing: &Standing, parts: &[(i128, u32)], target: &mut [i128]) -> Option<()>
    requires laid_out { IsLaidOut standing.now }
    requires room { length target.old ≡ standing.now.size }
    requires numbers { IsTrue (list_all (λ (p : ℤ × ℕ). is_number (facts_of standing.now) p.1) parts.now) }
    ensures fits { IsSome result ↔
        IsTrue (sums_fit (standing.now.size - 1) (multiples_of (facts_of standing.now) parts.now)) }
    ensures sum { OnSome result (held_in target.new ≡
        sum_fact (standing.now.size - 1) (facts_of standing.now) parts.now) }
{
    target.fill(0);
    for (multiplier, fact) in parts {
        add_multiple(target, *multiplier, standing.row(*fact))?;
    }
    Some(())
}

fn make_quotient(
    standing: &Standing,
    fact: u32,
    by: i128,
    target: &mut [i128],
) -> Result<(), CertFault>
    requires laid_out { IsLaidOut standing.now }
    requires countable { standing.now.lines + 1 < 2 ^ 64 }
    requires room { length target.old ≡ standing.now.size }
    ensures fault { let fault = quotient_fault (standing.now.lines + 1) (facts_of standing.now) fact by in
        MatchResult result (λ _. fault ≡ None) (λ e. fault ≡ Some e) }
    ensures made { OnOk result (held_in target.new ≡ quotient_of (fact_at (facts_of standing.now) fact) by) }
{
    let number = standing.lines + 1;
    if !standing.has(fact) {
        return Err(CertFault::BadLine(number));
    }
    if by < 1 {
        return Err(CertFault::Negative(number));
    }
    let row = standing.row(fact);
    if !all_divisible(row.coefs, by) {
        return Err(CertFault::BadLine(number));
    }
    divide(row, by, target);
    Ok(())
}

fn all_divisible(coefs: &[i128], by: i128) -> bool
    requires { pos 1 ≤ℤ by }
    ensures { result ≡ list_all (λ c. int_eq (int_rem_euclid c by) (pos 0)) coefs.now }
{
    coefs.iter().all(|coef| coef.rem_euclid(by) == 0)
}

fn divide(row: Row, by: i128, target: &mut [i128])
    requires positive { pos 1 ≤ℤ by }
    requires room { length target.old ≡ length row.coefs.now + 1 }
    ensures { held_in target.new ≡ quotient_of (shown row.entry.coefs.now row.entry.constant) by }
{
    for (k, entry) in target.iter_mut().enumerate() {
        *entry = row.entry(k).div_euclid(by);
    }
}
