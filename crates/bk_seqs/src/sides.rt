//! The formulas and the lists of sides that laws of sequences are made of.

ghost use Rattle.std.specs.Prelude.{◌≡◌, ◌<◌, ◌^◌, IfOk, [], ◌∷◌};
ghost use Rattle.bk_form.specs.Formula.{formula_size, binary, btrue};
ghost use Rattle.bk_form.specs.declared.operator.BinOp.TheVariants.{Add, Apply, In};
ghost use Rattle.bk_form.specs.Expansion.{card_of, up_to};
ghost use Rattle.bk_laws.specs.Rows.{IsSmall};
ghost use Rattle.bk_seqs.specs.Rows.{sequence_over, is_not_empty};

use crate::making::{binary, card_of, number, sequence, up_to};
use bk_form::{BinOp, Form, Part};
use bk_io::Memory;
use std::alloc::Global;

// `s : seq(B)`, which is `s : (1 .. card(s)) --> B`
#[tactic(auto, using(crate::proofs::Measures::measures))]
pub(crate) fn sequence_over(alloc: Global, s: &Form, b: &Form) -> Result<Form, Memory>
    requires small_s { IsSmall s.now }
    requires small_b { IsSmall b.now }
    ensures { IfOk result (λ p. p ≡ sequence_over s.now b.now) }
{
    sequence(alloc, s.copy(alloc)?, card_of(alloc, s)?, b.copy(alloc)?)
}

// `x : B`
pub(crate) fn member(alloc: Global, x: &Form, b: &Form) -> Result<Form, Memory>
    requires small_x { IsSmall x.now }
    requires small_b { IsSmall b.now }
    ensures { IfOk result (λ p. p ≡ binary In x.now b.now) }
{
    binary(alloc, BinOp::In, x.copy(alloc)?, b.copy(alloc)?)
}

// `a : 1 .. card(s)`
#[tactic(auto, using(crate::proofs::Measures::measures))]
pub(crate) fn index_of(alloc: Global, a: &Form, s: &Form) -> Result<Form, Memory>
    requires small_a { IsSmall a.now }
    requires small_s { IsSmall s.now }
    ensures { IfOk result (λ p. p ≡ binary In a.now (up_to (card_of s.now))) }
{
    let indices = up_to(alloc, card_of(alloc, s)?)?;
    binary(alloc, BinOp::In, a.copy(alloc)?, indices)
}

// `1 <= card(s)`
pub(crate) fn not_empty(alloc: Global, s: &Form) -> Result<Form, Memory>
    requires small_s { IsSmall s.now }
    ensures { IfOk result (λ p. p ≡ is_not_empty s.now) }
{
    binary(alloc, BinOp::Le, number(alloc, 1)?, card_of(alloc, s)?)
}

// `card(s) + card(t)`
pub(crate) fn sum(alloc: Global, s: &Form, t: &Form) -> Result<Form, Memory>
    requires small_s { IsSmall s.now }
    requires small_t { IsSmall t.now }
    ensures { IfOk result (λ f. f ≡ binary Add (card_of s.now) (card_of t.now)) }
{
    binary(alloc, BinOp::Add, card_of(alloc, s)?, card_of(alloc, t)?)
}

// `f(x)`
pub(crate) fn apply(alloc: Global, f: Form, x: Form) -> Result<Form, Memory>
    requires { formula_size (binary Apply f x) < 2 ^ 32 }
    ensures { IfOk result (λ g. g ≡ binary Apply f x) }
{
    binary(alloc, BinOp::Apply, f, x)
}

// `btrue`
pub(crate) fn always(alloc: Global) -> Result<Form, Memory>
    ensures { IfOk result (λ p. p ≡ btrue) }
{
    Form::make(alloc, Part::True)
}

// One side.
pub(crate) fn alone(alloc: Global, p: Form) -> Result<Vec<Form>, Memory>
    ensures { IfOk result (λ ps. ps.items ≡ p ∷ []) }
{
    let mut sides = Vec::new(alloc);
    sides.push(p)?;
    Ok(sides)
}

// Two sides.
pub(crate) fn both(alloc: Global, p: Form, q: Form) -> Result<Vec<Form>, Memory>
    ensures { IfOk result (λ ps. ps.items ≡ p ∷ q ∷ []) }
{
    let mut sides = Vec::new(alloc);
    sides.push(p)?;
    sides.push(q)?;
    Ok(sides)
}

// `s : seq(B)`, `1 <= card(s)`
#[tactic(auto, using(crate::proofs::Measures::measures))]
pub(crate) fn some_members(alloc: Global, s: &Form, b: &Form) -> Result<Vec<Form>, Memory>
    requires small_s { IsSmall s.now }
    requires small_b { IsSmall b.now }
    ensures { IfOk result (λ ps. ps.items ≡ sequence_over s.now b.now ∷ is_not_empty s.now ∷ []) }
{
    both(alloc, sequence_over(alloc, s, b)?, not_empty(alloc, s)?)
}
