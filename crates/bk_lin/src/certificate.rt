//! Checks a certificate line by line.

ghost use Rattle.std.specs.Prelude.{◌≡◌, ℕ, ℤ, ◌+◌, ◌-◌, ◌*◌, ◌^◌, ◌<◌, ◌≤◌, ◌↔◌, Some, None, All, take, length, IsOk, OnOk, IfErr, MatchResult};
ghost use Rattle.bk_lin.specs.Inequality.{IsTrueOf};
ghost use Rattle.bk_lin.specs.Certificate.{inequalities, width_of, facts_after, line_fact, line_fault, IsRight, IsClosed, IsFirstFault};
ghost use Rattle.bk_lin.specs.Answer.{certificate_fault};
ghost use Rattle.bk_lin.specs.Layout.{standing_of, held_in, held_at, number_of};

use crate::fact::{CertFault, Fact, Line};
use crate::line::make_fact;
use crate::standing::Standing;

/// Checks that the certificate derives a contradiction from the facts, and takes no memory.
///
/// `work` holds the facts of the lines while the check runs; what it holds afterwards is open. Where there is no fact,
/// a fact counts as one without coefficients, so `work` then has one number for each line.
///
/// The rules are those of Chvátal's cutting planes: sums of multiples that are not negative, and a division that rounds
/// the constant down, which keeps every solution in whole numbers.
pub fn check(facts: &[Fact], cert: &[Line], work: &mut [i128]) -> Result<(), CertFault>
    requires one_width { All (λ f. length f.coefs.items ≡ width_of facts.now) facts.now }
    requires room { length work.old ≡ (width_of facts.now + 1) * length cert.now }
    ensures ok { IsOk result ↔ (IsRight facts.now cert.now × IsClosed facts.now cert.now) }
    ensures bad_line { (k : ℕ) →
        (result ≡ Err (CertFault.BadLine k)) ↔ IsFirstFault facts.now cert.now k (CertFault.BadLine k) }
    ensures negative { (k : ℕ) →
        (result ≡ Err (CertFault.Negative k)) ↔ IsFirstFault facts.now cert.now k (CertFault.Negative k) }
    ensures too_wide { (k : ℕ) →
        (result ≡ Err (CertFault.TooWide k)) ↔ IsFirstFault facts.now cert.now k (CertFault.TooWide k) }
    ensures not_closed { (result ≡ Err CertFault.NotClosed) ↔
        (IsRight facts.now cert.now × (IsClosed facts.now cert.now → ⊥)) }
    ensures answer { let fault = certificate_fault (width_of facts.now) (inequalities facts.now) cert.now in
        MatchResult result (λ _. fault ≡ None) (λ e. fault ≡ Some e) }
    ensures sound { OnOk result ((atoms : ℕ → ℤ) → All (IsTrueOf atoms) (inequalities facts.now) → ⊥) }
{
    if cert.is_empty() {
        return Err(CertFault::NotClosed);
    }
    let size = width(facts) + 1;
    make_facts(facts, size, cert, work)?;
    let standing = Standing {
        given: facts,
        size,
        lines: cert.len(),
        made: work,
    };
    if standing.row_of_line(cert.len() - 1).is_contradiction() {
        Ok(())
    } else {
        Err(CertFault::NotClosed)
    }
}

/// How many coefficients each fact has.
pub fn width(facts: &[Fact]) -> usize
    ensures { result ≡ width_of facts.now }
{
    match facts {
        [] => 0,
        [first, ..] => first.coefs.len(),
    }
}

/// Writes the fact of each line, up to the first that has a fault.
fn make_facts(
    facts: &[Fact],
    size: usize,
    cert: &[Line],
    work: &mut [i128],
) -> Result<(), CertFault>
    requires size { size ≡ width_of facts.now + 1 }
    requires one_width { All (λ f. length f.coefs.items ≡ width_of facts.now) facts.now }
    requires room { length work.old ≡ size * length cert.now }
    ensures right { OnOk result (IsRight facts.now cert.now) }
    ensures made { OnOk result (facts_after (width_of facts.now) (inequalities facts.now) cert.now ≡
        standing_of facts.now size (length cert.now) work.new) }
    ensures fault { IfErr result (λ e. IsFirstFault facts.now cert.now (number_of e) e) }
{
    for (index, line) in cert.iter().enumerate() {
        make_line(facts, size, index, line, work)?;
    }
    Ok(())
}

/// Writes the fact of the line at an index after those of the lines before it.
fn make_line(
    facts: &[Fact],
    size: usize,
    index: usize,
    line: &Line,
    work: &mut [i128],
) -> Result<(), CertFault>
    requires size { size ≡ width_of facts.now + 1 }
    requires one_width { All (λ f. length f.coefs.items ≡ width_of facts.now) facts.now }
    requires countable { index + 1 < 2 ^ 64 }
    requires room { (index + 1) * size ≤ length work.old }
    ensures kept { take (index * size) work.new ≡ take (index * size) work.old }
    ensures fault { let fault = line_fault (width_of facts.now) (index + 1)
        (standing_of facts.now size index work.old) line.now in
        MatchResult result (λ _. fault ≡ None) (λ e. fault ≡ Some e) }
    ensures made { OnOk result (held_at size work.new index ≡
        line_fact (width_of facts.now) (standing_of facts.now size index work.old) line.now) }
{
    let (made, rest) = work.split_at_mut(index * size);
    make_next(facts, size, index, line, made, rest)
}

/// Writes the fact of the line at an index to the front of `rest`, where `made` holds those of the lines before it.
fn make_next(
    facts: &[Fact],
    size: usize,
    index: usize,
    line: &Line,
    made: &[i128],
    rest: &mut [i128],
) -> Result<(), CertFault>
    requires size { size ≡ width_of facts.now + 1 }
    requires one_width { All (λ f. length f.coefs.items ≡ width_of facts.now) facts.now }
    requires made_length { length made.now ≡ index * size }
    requires countable { index + 1 < 2 ^ 64 }
    requires room { size ≤ length rest.old }
    ensures fault { let fault = line_fault (width_of facts.now) (index + 1)
        (standing_of facts.now size index made.now) line.now in
        MatchResult result (λ _. fault ≡ None) (λ e. fault ≡ Some e) }
    ensures made { OnOk result (held_in (take size rest.new) ≡
        line_fact (width_of facts.now) (standing_of facts.now size index made.now) line.now) }
{
    let standing = Standing {
        given: facts,
        size,
        lines: index,
        made,
    };
    make_fact(&standing, line, &mut rest[..size])
}
