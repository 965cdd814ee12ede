//! Short lists.

ghost use Rattle.std.specs.Prelude.{◌≡◌, ◌∷◌, ◌++◌, [], IfOk, OnOk};

use bk_form::{Form, Ty};
use bk_io::Memory;
use std::alloc::Global;

/// One formula alone.
pub(crate) fn one_form(alloc: Global, form: Form) -> Result<Vec<Form>, Memory>
    ensures { IfOk result (λ fs. fs.items ≡ form ∷ []) }
{
    Ok(Vec::from_array(alloc, [form])?)
}

/// One type alone.
pub(crate) fn one_type(alloc: Global, ty: Ty) -> Result<Vec<Ty>, Memory>
    ensures { IfOk result (λ ts. ts.items ≡ ty ∷ []) }
{
    Ok(Vec::from_array(alloc, [ty])?)
}

/// Two types.
pub(crate) fn two_types(alloc: Global, first: Ty, second: Ty) -> Result<Vec<Ty>, Memory>
    ensures { IfOk result (λ ts. ts.items ≡ first ∷ second ∷ []) }
{
    Ok(Vec::from_array(alloc, [first, second])?)
}

/// The formula goes after the others.
pub(crate) fn append(forms: &mut Vec<Form>, form: Form) -> Result<(), Memory>
    ensures { OnOk result (forms.new.items ≡ forms.old.items ++ form ∷ []) }
{
    forms.push(form)?;
    Ok(())
}
