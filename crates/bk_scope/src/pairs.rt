// Variables with formulas.

ghost use Rattle.std.specs.Prelude.{◌≡◌, ◌++◌, [], OnOk};
ghost use Rattle.bk_statics.specs.Elaborated as meant;

use bk_form::Form;
use bk_io::Memory;

// The variable with its formula goes after the pairs that were found, where there is a formula.
pub fn push_pair(
    found: &mut Vec<(u32, Form)>,
    variable: u32,
    form: Option<Form>,
) -> Result<(), Memory>
    ensures { OnOk result (found.new.items ≡ found.old.items ++ meant.with_pair variable form []) }
{
    let Some(form) = form else {
        return Ok(());
    };
    found.push((variable, form))?;
    Ok(())
}
