//! The words and signs of sequences that stand for larger formulas.

ghost use Rattle.std.specs.Prelude.{◌≡◌, ◌<◌, ◌^◌, IfOk};
ghost use Rattle.bk_form.specs.Formula.{formula_size};
ghost use Rattle.bk_form.specs.Expansion.{front, tail, rev, append, later, prepend, behind, concat};

use crate::making::{
    applied, binary, card_of, function_on, index, number, one_less, one_more, pair_alone, up_to,
};
use bk_bind::raise;
use bk_form::{BinOp, Form};
use bk_io::Memory;
use std::alloc::Global;

// `front(s)`: all members but the last.
#[tactic(auto, using(crate::proofs::Measures::measures))]
pub(crate) fn front(alloc: Global, s: &Form) -> Result<Form, Memory>
    requires { formula_size (front s.now) < 2 ^ 32 }
    ensures { IfOk result (λ f. f ≡ front s.now) }
{
    let last = one_less(alloc, s)?;
    let indices = up_to(alloc, last)?;
    binary(alloc, BinOp::DomRes, indices, s.copy(alloc)?)
}

// `tail(s)`: all but the first, each one place earlier.
#[tactic(auto, using(crate::proofs::Measures::measures))]
pub(crate) fn tail(alloc: Global, s: &Form) -> Result<Form, Memory>
    requires { formula_size (tail s.now) < 2 ^ 32 }
    ensures { IfOk result (λ f. f ≡ tail s.now) }
{
    let next = binary(alloc, BinOp::Add, index(alloc)?, number(alloc, 1)?)?;
    let image = applied(alloc, s, next)?;
    function_on(alloc, number(alloc, 1)?, one_less(alloc, s)?, image)
}

// `rev(s)`: the members in the other order.
#[tactic(auto, using(crate::proofs::Measures::measures))]
pub(crate) fn rev(alloc: Global, s: &Form) -> Result<Form, Memory>
    requires { formula_size (rev s.now) < 2 ^ 32 }
    ensures { IfOk result (λ f. f ≡ rev s.now) }
{
    let inner = raise(alloc, s, 1)?;
    let mirrored = binary(alloc, BinOp::Sub, one_more(alloc, &inner)?, index(alloc)?)?;
    let image = binary(alloc, BinOp::Apply, inner, mirrored)?;
    function_on(alloc, number(alloc, 1)?, card_of(alloc, s)?, image)
}

// `s <- x`
#[tactic(auto, using(crate::proofs::Measures::measures))]
pub(crate) fn append(alloc: Global, s: &Form, x: &Form) -> Result<Form, Memory>
    requires { formula_size (append s.now x.now) < 2 ^ 32 }
    ensures { IfOk result (λ f. f ≡ append s.now x.now) }
{
    let place = one_more(alloc, s)?;
    let added = pair_alone(alloc, place, x.copy(alloc)?)?;
    binary(alloc, BinOp::Union, s.copy(alloc)?, added)
}

// The members of s, each one place later.
#[tactic(auto, using(crate::proofs::Measures::measures))]
fn later(alloc: Global, s: &Form) -> Result<Form, Memory>
    requires { formula_size (later s.now) < 2 ^ 32 }
    ensures { IfOk result (λ f. f ≡ later s.now) }
{
    let before = binary(alloc, BinOp::Sub, index(alloc)?, number(alloc, 1)?)?;
    let image = applied(alloc, s, before)?;
    function_on(alloc, number(alloc, 2)?, one_more(alloc, s)?, image)
}

// `x -> s`
#[tactic(auto, using(crate::proofs::Measures::measures))]
pub(crate) fn prepend(alloc: Global, x: &Form, s: &Form) -> Result<Form, Memory>
    requires { formula_size (prepend x.now s.now) < 2 ^ 32 }
    ensures { IfOk result (λ f. f ≡ prepend x.now s.now) }
{
    let added = pair_alone(alloc, number(alloc, 1)?, x.copy(alloc)?)?;
    let others = later(alloc, s)?;
    binary(alloc, BinOp::Union, added, others)
}

// The members of t, after those of s.
#[tactic(auto, using(crate::proofs::Measures::measures))]
fn behind(alloc: Global, s: &Form, t: &Form) -> Result<Form, Memory>
    requires { formula_size (behind s.now t.now) < 2 ^ 32 }
    ensures { IfOk result (λ f. f ≡ behind s.now t.now) }
{
    let inner = raise(alloc, s, 1)?;
    let place = binary(alloc, BinOp::Sub, index(alloc)?, card_of(alloc, &inner)?)?;
    let image = applied(alloc, t, place)?;
    let last = binary(alloc, BinOp::Add, card_of(alloc, s)?, card_of(alloc, t)?)?;
    function_on(alloc, one_more(alloc, s)?, last, image)
}

// `s ^ t`
#[tactic(auto, using(crate::proofs::Measures::measures))]
pub(crate) fn concat(alloc: Global, s: &Form, t: &Form) -> Result<Form, Memory>
    requires { formula_size (concat s.now t.now) < 2 ^ 32 }
    ensures { IfOk result (λ f. f ≡ concat s.now t.now) }
{
    let others = behind(alloc, s, t)?;
    binary(alloc, BinOp::Union, s.copy(alloc)?, others)
}
