// Types as domains.

ghost use Rattle.std.specs.Prelude.{◌≡◌, Err, IfOk};
ghost use Rattle.bk_val.specs.ValueType.{set_type};
ghost use Rattle.bk_form.specs.Formula.{named};
ghost use Rattle.bk_form.specs.Role.{gives};
ghost use Rattle.bk_form.specs.declared.operator.Domain.TheVariants.{Integer};
ghost use Rattle.bk_bind.specs.Limits.{IsWithinLimits};
ghost use Rattle.bk_bind.specs.declared.error.BindFault.TheVariants.{TooLarge};
ghost use Rattle.bk_types.specs.Shown.{shown_role};
ghost use Rattle.bk_wd.specs.WellDefined.{domain_of, functions_of};

use bk_bind::{BindFault, binary, unary};
use bk_form::{BinOp, Domain, Form, Part, Ty, TyView, UnOp};
use bk_io::Memory;
use bk_types::Role;
use std::alloc::Global;

// `T +-> U` of a relation from values of `T` to values of `U`, and `INTEGER` of all else.
pub(crate) fn functions_of(alloc: Global, relation: &Role) -> Result<Form, BindFault>
    ensures value { IfOk result (λ f. f ≡ functions_of (shown_role relation.now)) }
    ensures too_large { result ≡ Err TooLarge → IsWithinLimits (functions_of (shown_role relation.now)) → ⊥ }
{
    match relation {
        Role::Value(ty) => functions_of_type(alloc, ty),
        Role::Domain(_) | Role::Predicate | Role::Nothing => Ok(integers(alloc)?),
    }
}

// The same of what has a value of this type.
fn functions_of_type(alloc: Global, ty: &Ty) -> Result<Form, BindFault>
    ensures value { IfOk result (λ f. f ≡ functions_of (gives ty.now)) }
    ensures too_large { result ≡ Err TooLarge → IsWithinLimits (functions_of (gives ty.now)) → ⊥ }
{
    match ty.view() {
        TyView::Set(elements) => functions_of_elements(alloc, elements),
        _ => Ok(integers(alloc)?),
    }
}

// The same of a set whose elements are of this type.
#[tactic(auto, using(bk_bind::proofs::Within::parts_within))]
fn functions_of_elements(alloc: Global, elements: &Ty) -> Result<Form, BindFault>
    ensures value { IfOk result (λ f. f ≡ functions_of (gives (set_type elements.now))) }
    ensures too_large { result ≡ Err TooLarge → IsWithinLimits (functions_of (gives (set_type elements.now))) → ⊥ }
{
    match elements.view() {
        TyView::Pair(from, to) => {
            let from = domain_of(alloc, from)?;
            let to = domain_of(alloc, to)?;
            binary(alloc, BinOp::PartialFunctions, from, to)
        }
        _ => Ok(integers(alloc)?),
    }
}

// The values of a type: `INTEGER`, `BOOL`, an enumerated set, `S * T` or `POW(S)`. A type that is larger than the limits is
// not gone through to its end.
#[tactic(auto, using(bk_bind::proofs::Within::parts_within))]
fn domain_of(alloc: Global, ty: &Ty) -> Result<Form, BindFault>
    ensures value { IfOk result (λ f. f ≡ domain_of ty.now) }
    ensures too_large { result ≡ Err TooLarge → IsWithinLimits (domain_of ty.now) → ⊥ }
{
    match ty.view() {
        TyView::Int => Ok(integers(alloc)?),
        TyView::Bool => Ok(Form::make(alloc, Part::Name(Domain::Bool))?),
        TyView::Enum(set) => Ok(Form::make(alloc, Part::Name(Domain::Enum(set)))?),
        TyView::Pair(left, right) => {
            let left = domain_of(alloc, left)?;
            let right = domain_of(alloc, right)?;
            binary(alloc, BinOp::Times, left, right)
        }
        TyView::Set(elements) => unary(alloc, UnOp::Pow, domain_of(alloc, elements)?),
    }
}

// `INTEGER`
fn integers(alloc: Global) -> Result<Form, Memory>
    ensures { IfOk result (λ f. f ≡ named Integer) }
{
    Form::make(alloc, Part::Name(Domain::Integer))
}
