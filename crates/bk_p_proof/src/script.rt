// Scripts of proof.

ghost use Rattle.std.specs.Prelude.{◌≡◌, ◌<◌, ◌≤◌, List, length, IfOk, IfSome, MatchOption, codes};
ghost use Rattle.bk_ops.specs.declared.sign.TheConstants.{SEMICOLON};
ghost use Rattle.bk_raw.specs.Grammar.Pieces.{AnyDivided};
ghost use Rattle.bk_raw.specs.Grammar.Reading.{start};
ghost use Rattle.bk_raw.specs.Trees.ScriptTree.{RawRule as WrittenRule, RawScript as WrittenScript};
ghost use Rattle.bk_raw.specs.Grammar.ScriptSpelling.{OpensScript, Rule};
ghost use Rattle.bk_p_expr.specs.Fronts.{Longest, Nothing};
ghost use Rattle.bk_p_proof.specs.Kept.{AreRules, IsScript};

use crate::name::name;
use crate::rule::rule;
use crate::token::{after_name, after_sign};
use bk_form::Token;
use bk_io::Memory;
use bk_ops::sign;
use bk_raw::{RawRule, RawScript};
use std::alloc::Global;

/// A script in front but for its `end`, whether one of its terms is too high, and what stands after it.
pub(crate) fn open_script(
    alloc: Global,
    tokens: &[Token],
) -> Result<Option<(RawScript, bool, &[Token])>, Memory>
    ensures found { IfOk result (λ r. MatchOption r (Nothing OpensScript tokens.now)
        (λ p. (s : WrittenScript) × Longest OpensScript tokens.now s p.2.now × IsScript s p.0 p.1)) }
    ensures shorter { IfOk result (λ r. IfSome r (λ p. length p.2.now < length tokens.now)) }
{
    let at = start_of(tokens);
    let Some(behind) = after_name(tokens, b"proof") else {
        return Ok(None);
    };
    let name_at = start_of(behind);
    let Some((name, behind)) = name(alloc, behind)? else {
        return Ok(None);
    };
    let (rules, is_high, rest) = rules(alloc, behind)?;
    let script = RawScript {
        at,
        name_at,
        name,
        rules,
    };
    Ok(Some((script, is_high, rest)))
}

/// The byte at which the first of the tokens starts.
fn start_of(tokens: &[Token]) -> usize
    ensures { result ≡ start tokens.now }
{
    match tokens {
        [first, ..] => first.start,
        [] => 0,
    }
}

/// Rules with semicolons between, none where no rule is in front, whether one of their terms is too high, and what stands
/// after them. Where no rule stands after a semicolon, they end before it.
fn rules(alloc: Global, tokens: &[Token]) -> Result<(Vec<RawRule>, bool, &[Token]), Memory>
    ensures found { IfOk result (λ p. (rs : List WrittenRule) × Longest (AnyDivided SEMICOLON Rule) tokens.now rs p.2.now ×
        AreRules rs p.0.items p.1) }
    ensures shorter { IfOk result (λ p. length p.2.now ≤ length tokens.now) }
{
    let mut all = Vec::new(alloc);
    let Some((first, first_is_high, after)) = rule(alloc, tokens)? else {
        return Ok((all, false, tokens));
    };
    all.push(first)?;
    let mut is_high = first_is_high;
    let mut rest = after;
    while let Some(behind) = after_sign(rest, sign::SEMICOLON) {
        let Some((rule, one_is_high, after)) = rule(alloc, behind)? else {
            return Ok((all, is_high, rest));
        };
        all.push(rule)?;
        is_high = is_high || one_is_high;
        rest = after;
    }
    Ok((all, is_high, rest))
}
