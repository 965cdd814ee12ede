// Rules that are added to a list, and the numbers of hypotheses that they name.

ghost use Rattle.std.specs.Prelude.{◌≡◌, ◌+◌, ◌++◌, ◌∷◌, [], IfOk, OnOk};

use bk_io::Memory;
use bk_kernel::Rule;

/// Adds a rule to the list.
pub(crate) fn add(rules: &mut Vec<Rule>, rule: Rule) -> Result<(), Memory>
    ensures { OnOk result (rules.new.items ≡ rules.old.items ++ rule ∷ []) }
{
    rules.push(rule)?;
    Ok(())
}

/// The number, from 1, of the hypothesis at an index; `Memory` where 32 bits do not reach it.
pub(crate) fn number_at(index: usize) -> Result<u32, Memory>
    ensures { IfOk result (λ n. n ≡ index + 1) }
{
    if index >= u32::MAX as usize {
        return Err(Memory);
    }
    Ok(index as u32 + 1)
}
