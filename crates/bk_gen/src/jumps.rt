//! Jumps whose distances are set once the places that they lead to are known.

ghost use Rattle.std.specs.Prelude.{◌≡◌, ◌-◌, ◌<◌, ◌≤◌, pos, neg_ℤ, [], ◌∷◌, ◌++◌, length, slice_set, OnOk};
ghost use Rattle.bk_code.specs.declared.instruction.Inst.TheVariants.{Jump, JumpZero};

use bk_code::{Inst, Memory};
use bk_limits::MOST_INSTRUCTIONS;

// Lets the test at a place lead after the code so far, where its number is 0.
pub(crate) fn set_test(code: &mut Vec<Inst>, at: usize)
    requires stands { at < length code.old.items }
    requires short { length code.old.items ≤ MOST_INSTRUCTIONS }
    ensures { code.new.items ≡ slice_set code.old.items at (JumpZero (pos (length code.old.items - at))) }
{
    let distance = (code.len() - at) as i32;
    code[at] = Inst::JumpZero(distance);
}

// Lets the jump at a place lead after the code so far.
pub(crate) fn set_jump(code: &mut Vec<Inst>, at: usize)
    requires stands { at < length code.old.items }
    requires short { length code.old.items ≤ MOST_INSTRUCTIONS }
    ensures { code.new.items ≡ slice_set code.old.items at (Jump (pos (length code.old.items - at))) }
{
    let distance = (code.len() - at) as i32;
    code[at] = Inst::Jump(distance);
}

// Adds a jump that leads back to a place.
pub(crate) fn add_jump_back(code: &mut Vec<Inst>, to: usize) -> Result<(), Memory>
    requires stands { to ≤ length code.old.items }
    requires short { length code.old.items ≤ MOST_INSTRUCTIONS }
    ensures { OnOk result (code.new.items ≡ code.old.items ++ Jump (neg_ℤ (pos (length code.old.items - to))) ∷ []) }
{
    let distance = (code.len() - to) as i32;
    code.push(Inst::Jump(-distance))?;
    Ok(())
}
