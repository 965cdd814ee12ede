// Texts and substitutions from few words.

ghost use Rattle.std.specs.Prelude.{◌≡◌, IfOk, [], ◌∷◌};
ghost use Rattle.bk_gsl.specs.Substitution.{assign};

use bk_form::Form;
use bk_gsl::Sub;
use bk_io::{Memory, Text};
use std::alloc::Global;

/// The text of these bytes.
pub fn text(alloc: Global, bytes: &[u8]) -> Result<Text, Memory>
    ensures { IfOk result (λ t. t ≡ bytes.now) }
{
    Ok(Text::from_bytes(Vec::from_slice(alloc, bytes)?))
}

/// `x := term`
pub fn becomes(alloc: Global, x: u32, term: Form) -> Result<Sub, Memory>
    ensures { IfOk result (λ s. s ≡ assign ((x, term) ∷ [])) }
{
    Sub::assign(alloc, vec![in alloc; (x, term)]?)
}
