//! The formulas that expansions are made of.

ghost use Rattle.std.specs.Prelude.{◌≡◌, ◌<◌, ◌^◌, IfOk};
ghost use Rattle.bk_form.specs.Formula.{formula_size, literal, bound, unary, binary};
ghost use Rattle.bk_form.specs.declared.operator.BinOp.TheVariants.{Apply};
ghost use Rattle.bk_form.specs.Expansion.{card_of, one_more, one_less, up_to, function_on, pair_alone, is_sequence, raised};

use bk_bind::raise;
use bk_form::{BinOp, Form, Part, UnOp};
use bk_io::Memory;
use std::alloc::Global;

// `a op b`
pub(crate) fn binary(alloc: Global, op: BinOp, left: Form, right: Form) -> Result<Form, Memory>
    requires { formula_size (binary op left right) < 2 ^ 32 }
    ensures { IfOk result (λ f. f ≡ binary op left right) }
{
    Form::make(alloc, Part::Bin(op, left, right))
}

// `op a`
pub(crate) fn unary(alloc: Global, op: UnOp, operand: Form) -> Result<Form, Memory>
    requires { formula_size (unary op operand) < 2 ^ 32 }
    ensures { IfOk result (λ f. f ≡ unary op operand) }
{
    Form::make(alloc, Part::Un(op, operand))
}

// A number.
pub(crate) fn number(alloc: Global, number: i128) -> Result<Form, Memory>
    ensures { IfOk result (λ f. f ≡ literal number) }
{
    Form::make(alloc, Part::Int(number))
}

// `card(s)`
#[tactic(auto, using(crate::proofs::Measures::measures))]
pub(crate) fn card_of(alloc: Global, s: &Form) -> Result<Form, Memory>
    requires { formula_size (card_of s.now) < 2 ^ 32 }
    ensures { IfOk result (λ f. f ≡ card_of s.now) }
{
    unary(alloc, UnOp::Card, s.copy(alloc)?)
}

// `card(s) + 1`
#[tactic(auto, using(crate::proofs::Measures::measures))]
pub(crate) fn one_more(alloc: Global, s: &Form) -> Result<Form, Memory>
    requires { formula_size (one_more s.now) < 2 ^ 32 }
    ensures { IfOk result (λ f. f ≡ one_more s.now) }
{
    let size = card_of(alloc, s)?;
    let one = number(alloc, 1)?;
    binary(alloc, BinOp::Add, size, one)
}

// `card(s) - 1`
#[tactic(auto, using(crate::proofs::Measures::measures))]
pub(crate) fn one_less(alloc: Global, s: &Form) -> Result<Form, Memory>
    requires { formula_size (one_less s.now) < 2 ^ 32 }
    ensures { IfOk result (λ f. f ≡ one_less s.now) }
{
    let size = card_of(alloc, s)?;
    let one = number(alloc, 1)?;
    binary(alloc, BinOp::Sub, size, one)
}

// `1 .. n`
#[tactic(auto, using(crate::proofs::Measures::measures))]
pub(crate) fn up_to(alloc: Global, n: Form) -> Result<Form, Memory>
    requires { formula_size (up_to n) < 2 ^ 32 }
    ensures { IfOk result (λ f. f ≡ up_to n) }
{
    let one = number(alloc, 1)?;
    binary(alloc, BinOp::Range, one, n)
}

// `f : (1 .. n) --> D`
#[tactic(auto, using(crate::proofs::Measures::measures))]
pub(crate) fn sequence(alloc: Global, f: Form, n: Form, d: Form) -> Result<Form, Memory>
    requires { formula_size (is_sequence f n d) < 2 ^ 32 }
    ensures { IfOk result (λ p. p ≡ is_sequence f n d) }
{
    let indices = up_to(alloc, n)?;
    let functions = binary(alloc, BinOp::TotalFunctions, indices, d)?;
    binary(alloc, BinOp::In, f, functions)
}

// `%i.(i : a .. b | E)`
#[tactic(auto, using(crate::proofs::Measures::measures))]
pub(crate) fn function_on(alloc: Global, a: Form, b: Form, image: Form) -> Result<Form, Memory>
    requires { formula_size (function_on a b image) < 2 ^ 32 }
    ensures { IfOk result (λ f. f ≡ function_on a b image) }
{
    let mut ranges = Vec::new(alloc);
    ranges.push(binary(alloc, BinOp::Range, a, b)?)?;
    let all = Form::make(alloc, Part::True)?;
    Form::make(alloc, Part::Lam(ranges, all, image))
}

// `s(k)` under a binder, for an s that stands outside of it and a k under it.
#[tactic(auto, using(crate::proofs::Measures::measures))]
pub(crate) fn applied(alloc: Global, s: &Form, k: Form) -> Result<Form, Memory>
    requires { formula_size (binary Apply (raised s.now) k) < 2 ^ 32 }
    ensures { IfOk result (λ f. f ≡ binary Apply (raised s.now) k) }
{
    let inner = raise(alloc, s, 1)?;
    binary(alloc, BinOp::Apply, inner, k)
}

// The variable that the binder binds.
pub(crate) fn index(alloc: Global) -> Result<Form, Memory>
    ensures { IfOk result (λ f. f ≡ bound 0) }
{
    Form::make(alloc, Part::Bound(0))
}

// `{x |-> y}`
#[tactic(auto, using(crate::proofs::Measures::measures))]
pub(crate) fn pair_alone(alloc: Global, x: Form, y: Form) -> Result<Form, Memory>
    requires { formula_size (pair_alone x y) < 2 ^ 32 }
    ensures { IfOk result (λ f. f ≡ pair_alone x y) }
{
    let pair = binary(alloc, BinOp::Maps, x, y)?;
    unary(alloc, UnOp::Single, pair)
}
