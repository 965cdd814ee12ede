//! The rule of equal polynomials.

ghost use Rattle.std.specs.Prelude.{◌≡◌, IfOk};
ghost use Rattle.bk_seq.specs.Sequents.{sequent_of};
ghost use Rattle.bk_arith.specs.Polynomials.{equal_polynomials};
ghost use Rattle.bk_kernel.specs.declared.rule.Rule.TheVariants.{Poly};
ghost use Rattle.bk_kernel.specs.Rules.{branches};
ghost use Rattle.bk_kernel.specs.Held.{held};

use crate::branch::Branch;
use crate::closing::closed_if;
use crate::views::sides;
use bk_arith::{ArithFault, polynomial};
use bk_form::{BinOp, Form, VarTable};
use bk_io::Memory;
use bk_seq::Sequent;
use std::alloc::Global;

/// The goal is an equation of equal polynomials.
pub(crate) fn by_polynomials(
    alloc: Global,
    types: &VarTable,
    sequent: &Sequent,
) -> Result<Option<Vec<Branch>>, Memory>
    ensures { IfOk result (λ o. held o ≡ branches types.now (sequent_of sequent.now) Poly) }
{
    let _types = types;
    let Some((left, right)) = sides(BinOp::Eq, &sequent.goal) else {
        return Ok(None);
    };
    Ok(closed_if(alloc, are_equal_polynomials(alloc, left, right)?))
}

// Whether both are there as polynomials, and equal.
fn are_equal_polynomials(alloc: Global, left: &Form, right: &Form) -> Result<bool, Memory>
    ensures { IfOk result (λ b. b ≡ equal_polynomials left.now right.now) }
{
    match polynomial(alloc, left, right) {
        Ok(equal) => Ok(equal),
        Err(ArithFault::TooWide) => Ok(false),
        Err(ArithFault::NotLinear(_)) => Ok(false),
        Err(ArithFault::Cert(_)) => Ok(false),
        Err(ArithFault::Cases) => Ok(false),
        Err(ArithFault::Memory) => Err(Memory),
    }
}
