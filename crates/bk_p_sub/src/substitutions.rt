// The longest substitution in front of tokens.
//
// Each function answers what it reads and the tokens after it, or None where that does not stand there. Only blocks make
// the calls nest deeper: lists, branches and choices are read by loops. `calls` says whether operations may be called in
// what is read.

ghost use Rattle.std.specs.Prelude.{◌<◌, length, IfOk, IfSome};
ghost use Rattle.bk_p_sub.specs.Found.{Opens, Reads, ReadsBranches, ReadsChoices, ReadsLoopEnd};
ghost use Rattle.bk_p_sub.specs.Statements.{word_of};

use crate::branches::{Branches, Choices};
use crate::front::{after_sign, after_word, start_of, term_before};
use crate::opening::{Opening, opening_of};
use crate::statement::{Joint, Statement, Test};
use crate::term::Term;
use bk_form::Token;
use bk_io::Memory;
use bk_ops::{sign, word};
use std::alloc::Global;

/// Substitutions with `;` between.
#[cycle(substitution)]
pub(crate) fn sequence(
    alloc: Global,
    tokens: &[Token],
    calls: bool,
) -> Result<Option<(Statement, &[Token])>, Memory>
    ensures found { Reads calls 0 tokens.now result }
    ensures shorter { IfOk result (λ r. IfSome r (λ p. length p.1.now < length tokens.now)) }
{
    let at = start_of(tokens);
    let Some((first, after)) = parallel(alloc, tokens, calls)? else {
        return Ok(None);
    };
    let mut left = first;
    let mut rest = after;
    while let Some(behind) = after_sign(rest, sign::SEMICOLON) {
        let Some((right, after)) = parallel(alloc, behind, calls)? else {
            return Ok(Some((left, rest)));
        };
        left = left.with(alloc, at, Joint::Sequence, right)?;
        rest = after;
    }
    Ok(Some((left, rest)))
}

/// Substitutions with `||` between.
#[cycle(substitution)]
pub(crate) fn parallel(
    alloc: Global,
    tokens: &[Token],
    calls: bool,
) -> Result<Option<(Statement, &[Token])>, Memory>
    ensures found { Reads calls 1 tokens.now result }
    ensures shorter { IfOk result (λ r. IfSome r (λ p. length p.1.now < length tokens.now)) }
{
    let at = start_of(tokens);
    let Some((first, after)) = atom(alloc, tokens, calls)? else {
        return Ok(None);
    };
    let mut left = first;
    let mut rest = after;
    while let Some(behind) = after_sign(rest, sign::PARALLEL) {
        let Some((right, after)) = atom(alloc, behind, calls)? else {
            return Ok(Some((left, rest)));
        };
        left = left.with(alloc, at, Joint::Parallel, right)?;
        rest = after;
    }
    Ok(Some((left, rest)))
}

/// One substitution.
#[cycle(substitution)]
fn atom(
    alloc: Global,
    tokens: &[Token],
    calls: bool,
) -> Result<Option<(Statement, &[Token])>, Memory>
    ensures found { Reads calls 2 tokens.now result }
    ensures shorter { IfOk result (λ r. IfSome r (λ p. length p.1.now < length tokens.now)) }
{
    let at = start_of(tokens);
    let Some((opening, inside)) = opening_of(alloc, tokens, calls)? else {
        return Ok(None);
    };
    match opening {
        Opening::Closed(statement) => Ok(Some((statement, inside))),
        Opening::Around(block) => {
            let Some((body, after)) = sequence(alloc, inside, calls)? else {
                return Ok(None);
            };
            let Some(rest) = after_word(after, word::END) else {
                return Ok(None);
            };
            Ok(Some((body.around(alloc, at, block)?, rest)))
        }
        Opening::Tested(test, condition) => {
            let Some((body, after)) = sequence(alloc, inside, calls)? else {
                return Ok(None);
            };
            let Some((branches, rest)) = branches(alloc, after, test, calls)? else {
                return Ok(None);
            };
            Ok(Some((body.tested(alloc, at, test, condition, branches)?, rest)))
        }
        Opening::Choice => {
            let Some((body, after)) = sequence(alloc, inside, calls)? else {
                return Ok(None);
            };
            let Some((choices, rest)) = choices(alloc, after, calls)? else {
                return Ok(None);
            };
            Ok(Some((body.choice(alloc, at, choices)?, rest)))
        }
        Opening::While(condition) => looped(alloc, tokens, inside, condition, calls),
    }
}

/// The loop in front of the tokens, its condition read and its substitution inside.
#[cycle(substitution)]
fn looped<'a>(
    alloc: Global,
    tokens: &'a [Token],
    inside: &'a [Token],
    condition: Term,
    calls: bool,
) -> Result<Option<(Statement, &'a [Token])>, Memory>
    requires opens { Opens calls tokens.now (Opening.While condition) inside.now }
    requires inside { length inside.now < length tokens.now }
    ensures found { Reads calls 2 tokens.now result }
    ensures shorter { IfOk result (λ r. IfSome r (λ p. length p.1.now < length tokens.now)) }
{
    let at = start_of(tokens);
    let Some((body, after)) = sequence(alloc, inside, calls)? else {
        return Ok(None);
    };
    let Some((invariant, variant, rest)) = loop_end(alloc, after)? else {
        return Ok(None);
    };
    let whole = body.repeated(alloc, at, condition, invariant, variant)?;
    Ok(Some((whole, rest)))
}

/// Further branches of a test, each but ELSE with its word, and END.
#[cycle(substitution)]
fn branches(
    alloc: Global,
    tokens: &[Token],
    test: Test,
    calls: bool,
) -> Result<Option<(Branches, &[Token])>, Memory>
    ensures found { ReadsBranches calls (word_of test) tokens.now result }
    ensures shorter { IfOk result (λ r. IfSome r (λ p. length p.1.now < length tokens.now)) }
{
    let mut all = Branches::Built(Vec::new(alloc), None, 0);
    let mut rest = tokens;
    while let Some(behind) = after_word(rest, test.word()) {
        let Some((condition, inside)) = term_before(alloc, behind, word::THEN)? else {
            return Ok(None);
        };
        let Some((body, after)) = sequence(alloc, inside, calls)? else {
            return Ok(None);
        };
        all = all.and(condition, body)?;
        rest = after;
    }
    if let Some(behind) = after_word(rest, word::ELSE) {
        let Some((body, after)) = sequence(alloc, behind, calls)? else {
            return Ok(None);
        };
        let Some(rest) = after_word(after, word::END) else {
            return Ok(None);
        };
        return Ok(Some((all.otherwise(body), rest)));
    }
    let Some(rest) = after_word(rest, word::END) else {
        return Ok(None);
    };
    Ok(Some((all, rest)))
}

/// Further branches of CHOICE, and END.
#[cycle(substitution)]
fn choices(
    alloc: Global,
    tokens: &[Token],
    calls: bool,
) -> Result<Option<(Choices, &[Token])>, Memory>
    ensures found { ReadsChoices calls tokens.now result }
    ensures shorter { IfOk result (λ r. IfSome r (λ p. length p.1.now < length tokens.now)) }
{
    let mut all = Choices::Built(Vec::new(alloc), 0);
    let mut rest = tokens;
    while let Some(behind) = after_word(rest, word::OR_BRANCH) {
        let Some((body, after)) = sequence(alloc, behind, calls)? else {
            return Ok(None);
        };
        all = all.and(body)?;
        rest = after;
    }
    let Some(rest) = after_word(rest, word::END) else {
        return Ok(None);
    };
    Ok(Some((all, rest)))
}

/// The invariant and the variant of a loop, and END.
fn loop_end(alloc: Global, tokens: &[Token]) -> Result<Option<(Term, Term, &[Token])>, Memory>
    ensures found { ReadsLoopEnd tokens.now result }
    ensures shorter { IfOk result (λ r. IfSome r (λ p. length p.2.now < length tokens.now)) }
{
    let Some(behind) = after_word(tokens, word::INVARIANT) else {
        return Ok(None);
    };
    let Some((invariant, behind)) = term_before(alloc, behind, word::VARIANT)? else {
        return Ok(None);
    };
    let Some((variant, rest)) = term_before(alloc, behind, word::END)? else {
        return Ok(None);
    };
    Ok(Some((invariant, variant, rest)))
}
