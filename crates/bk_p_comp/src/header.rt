// The header of a component.

ghost use Rattle.std.specs.Prelude.{◌≡◌, ◌≢◌, ◌↔◌, ◌<◌, length, IfOk, IfSome, IsTrue, MatchOption};
ghost use Rattle.bk_raw.specs.Trees.ComponentTree.{kind_number};
ghost use Rattle.bk_p_comp.specs.Clauses.{HasNoHeader, IsHeaded};

use bk_form::{Token, TokenKind};
use bk_io::Memory;
use bk_ops::word;
use bk_p_sub::{after_word, declared, first_token};
use bk_raw::{ComponentKind, RawName};
use std::alloc::Global;

/// What a component is, its name, and what it refines.
#[derive(Drop)]
pub(crate) struct Headed {
    pub(crate) at: usize,
    pub(crate) kind: ComponentKind,
    pub(crate) name: RawName,
    pub(crate) refines: Option<RawName>,
}

/// The header in front, and what stands after it.
pub(crate) fn header(alloc: Global, tokens: &[Token]) -> Result<Option<(Headed, &[Token])>, Memory>
    ensures found { IfOk result (λ r. MatchOption r (HasNoHeader tokens.now) (λ p. IsHeaded tokens.now p.0 p.1.now)) }
    ensures shorter { IfOk result (λ r. IfSome r (λ p. length p.1.now < length tokens.now)) }
{
    let Some((first, behind)) = first_token(tokens) else {
        return Ok(None);
    };
    let Some(kind) = kind_of(&first.kind) else {
        return Ok(None);
    };
    let at = first.start;
    let Some((name, behind)) = declared(alloc, behind)? else {
        return Ok(None);
    };
    if is_machine(&kind) {
        let refines = None;
        let headed = Headed {
            at,
            kind,
            name,
            refines,
        };
        return Ok(Some((headed, behind)));
    }
    let Some(behind) = after_word(behind, word::REFINES) else {
        return Ok(None);
    };
    let Some((refined, rest)) = declared(alloc, behind)? else {
        return Ok(None);
    };
    let refines = Some(refined);
    let headed = Headed {
        at,
        kind,
        name,
        refines,
    };
    Ok(Some((headed, rest)))
}

fn is_machine(kind: &ComponentKind) -> bool
    ensures { IsTrue result ↔ (kind.now ≡ ComponentKind.Machine) }
{
    matches!(kind, ComponentKind::Machine)
}

/// The kind of component that the token begins, if it begins one.
fn kind_of(kind: &TokenKind) -> Option<ComponentKind>
    ensures { MatchOption result ((k : ComponentKind) → TokenKind.Word (kind_number k) ≢ kind.now)
        (λ k. TokenKind.Word (kind_number k) ≡ kind.now) }
{
    let TokenKind::Word(op) = kind else {
        return None;
    };
    match *op {
        word::MACHINE => Some(ComponentKind::Machine),
        word::REFINEMENT => Some(ComponentKind::Refinement),
        word::IMPLEMENTATION => Some(ComponentKind::Implementation),
        _ => None,
    }
}
