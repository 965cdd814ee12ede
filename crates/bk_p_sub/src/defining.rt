// Whether a predicate defines names, as LET asks.

ghost use Rattle.std.specs.Prelude.{◌≡◌, ◌&&◌, true, false, not, [], ◌∷◌, IfOk, MatchOption};
ghost use Rattle.bk_raw.specs.Trees.FreeNames.{Defines, is_among};
ghost use Rattle.bk_raw.specs.Trees.RawTree.{RawTree};
ghost use Rattle.bk_p_sub.specs.Defining.{define_each, has_one_of, is_named};
ghost use Rattle.bk_p_sub.specs.Statements.{IsTerm};

use crate::term::Term;
use bk_io::{Memory, Text};
use bk_p_expr::{Conjunct, conjuncts};
use bk_raw::RawName;
use std::alloc::Global;

/// Whether the predicate is `x = e` for each name in order, with none of the names free in an `e`.
pub(crate) fn defines(alloc: Global, names: &[RawName], predicate: &Term) -> Result<bool, Memory>
    ensures defining { IfOk result (λ r. (p : RawTree) → IsTerm p predicate.now → r ≡ true → Defines names.now p) }
    ensures not_defining { IfOk result (λ r. (p : RawTree) → IsTerm p predicate.now → r ≡ false → Defines names.now p → ⊥) }
{
    match predicate {
        Term::Built(term, _) => {
            let known = conjuncts(alloc, term)?;
            Ok(define_each(names, &known))
        }
        Term::High(known) => Ok(define_each(names, known)),
    }
}

/// Whether the conjuncts are `x = e` for each name in order, with none of the names free in an `e`.
fn define_each(names: &[RawName], known: &[Conjunct]) -> bool
    ensures { result ≡ define_each names.now names.now known.now }
{
    let mut others = names;
    let mut rest = known;
    while let Some((name, more)) = first_name(others) {
        let [conjunct, behind @ ..] = rest else {
            return false;
        };
        if !defines_one(names, name, conjunct) {
            return false;
        }
        others = more;
        rest = behind;
    }
    rest.is_empty()
}

/// The first of the names, and the others.
fn first_name(names: &[RawName]) -> Option<(&RawName, &[RawName])>
    ensures { MatchOption result (names.now ≡ []) (λ p. names.now ≡ p.0.now ∷ p.1.now) }
{
    let [first, rest @ ..] = names else {
        return None;
    };
    Some((first, rest))
}

/// Whether the conjunct is `x = e` for the name, with none of all the names free in `e`.
fn defines_one(all: &[RawName], name: &RawName, conjunct: &Conjunct) -> bool
    ensures { result ≡ (is_named name.now.text conjunct.now.name && not (has_one_of all.now conjunct.now.free.items)) }
{
    let Some(defined) = &conjunct.name else {
        return false;
    };
    *defined == name.text && !have_one_of(all, &conjunct.free)
}

/// Whether one of the names is one of these.
fn have_one_of(all: &[RawName], names: &[Text]) -> bool
    ensures { result ≡ has_one_of all.now names.now }
{
    for name in names {
        if among(name, all) {
            return true;
        }
    }
    false
}

/// Whether the name is one of these.
fn among(name: &Text, names: &[RawName]) -> bool
    ensures { result ≡ is_among name.now names.now }
{
    for other in names {
        if other.text == *name {
            return true;
        }
    }
    false
}
