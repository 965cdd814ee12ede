// Components, read from tokens.

ghost use Rattle.std.specs.Prelude.{IfOk, IfErr};
ghost use Rattle.bk_raw.specs.Grammar.ComponentSpelling.{SpellsComponent};
ghost use Rattle.bk_raw.specs.Errors.Limits.{IsLowComponent, IsShallow};
ghost use Rattle.bk_p_comp.specs.Faults.{IsFaultOfComponent};

use crate::clause::clauses;
use crate::header::header;
use crate::plain::before_addition;
use bk_form::Token;
use bk_ops::word;
use bk_p_expr::SynFault;
use bk_p_sub::after_word;
use bk_raw::{RawComponent, too_deep};
use std::alloc::Global;

/// The component that all of the tokens are written for.
///
/// `At(n)` is the place of the first token that no component goes on with: `n` tokens stand before it. The additions with
/// which formulas are printed are not read, nor are signs and words of sequences, sets without elements, calls and IMPORTS.
pub fn component(alloc: Global, tokens: &[Token]) -> Result<RawComponent, SynFault>
    ensures ok { IfOk result (λ c. SpellsComponent c tokens.now) }
    ensures low { IfOk result (λ c. IsLowComponent c) }
    ensures shallow { IfOk result (λ c. IsShallow tokens.now) }
    ensures fault { IfErr result (IsFaultOfComponent tokens.now) }
{
    if let Some(place) = too_deep(tokens) {
        return Err(SynFault::Depth(place));
    }
    let front = before_addition(tokens);
    let Some((headed, behind)) = header(alloc, front)? else {
        return Err(SynFault::At(0));
    };
    let (done, rest) = clauses(alloc, &headed.kind, behind)?;
    let Some(ended) = after_word(rest, word::END) else {
        return Err(SynFault::At(front.len() - rest.len()));
    };
    let place = front.len() - ended.len();
    if tokens.len() != place {
        return Err(SynFault::At(place));
    }
    if done.is_high {
        return Err(SynFault::High);
    }
    Ok(RawComponent {
        at: headed.at,
        kind: headed.kind,
        name: headed.name,
        refines: headed.refines,
        clauses: done.clauses,
    })
}
