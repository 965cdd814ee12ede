// What stands after the word of a clause.

ghost use Rattle.std.specs.Prelude.{◌<◌, length, IfOk, IfSome};
ghost use Rattle.bk_p_comp.specs.Parts.{ReadsParts};

use crate::entries::{OperationEntries, ValueEntries, assertions, operations, sets, values};
use bk_form::Token;
use bk_io::Memory;
use bk_p_expr::{Piece, Terms, front_term};
use bk_p_sub::{Statement, front_substitution, names};
use bk_raw::{ClauseParts, ClauseWord};
use std::alloc::Global;

/// The parts of a clause, or that one of their terms or substitutions is too high.
#[derive(Drop)]
pub(crate) enum Behind {
    Built(ClauseParts),
    High,
}

/// What stands after the word, and what stands after that.
pub(crate) fn parts<'a>(
    alloc: Global,
    word: &ClauseWord,
    tokens: &'a [Token],
) -> Result<Option<(Behind, &'a [Token])>, Memory>
    ensures found { ReadsParts word.now tokens.now result }
    ensures shorter { IfOk result (λ r. IfSome r (λ p. length p.1.now < length tokens.now)) }
{
    match word {
        ClauseWord::Sets => all_sets(alloc, tokens),
        ClauseWord::Constants => listed(alloc, tokens),
        ClauseWord::ConcreteConstants => listed(alloc, tokens),
        ClauseWord::Variables => listed(alloc, tokens),
        ClauseWord::AbstractVariables => listed(alloc, tokens),
        ClauseWord::ConcreteVariables => listed(alloc, tokens),
        ClauseWord::Properties => one_term(alloc, tokens),
        ClauseWord::Invariant => one_term(alloc, tokens),
        ClauseWord::Assertions => all_assertions(alloc, tokens),
        ClauseWord::Values => all_values(alloc, tokens),
        ClauseWord::Initialisation => one_substitution(alloc, tokens),
        ClauseWord::Operations => all_operations(alloc, tokens),
        ClauseWord::Imports => listed(alloc, tokens),
    }
}

fn all_sets(alloc: Global, tokens: &[Token]) -> Result<Option<(Behind, &[Token])>, Memory>
    ensures found { ReadsParts ClauseWord.Sets tokens.now result }
    ensures shorter { IfOk result (λ r. IfSome r (λ p. length p.1.now < length tokens.now)) }
{
    let Some((all, rest)) = sets(alloc, tokens)? else {
        return Ok(None);
    };
    Ok(Some((Behind::Built(ClauseParts::Sets(all)), rest)))
}

/// Names, as CONSTANTS, the clauses of variables and IMPORTS have them.
fn listed(alloc: Global, tokens: &[Token]) -> Result<Option<(Behind, &[Token])>, Memory>
    ensures found { ReadsParts ClauseWord.Constants tokens.now result }
    ensures shorter { IfOk result (λ r. IfSome r (λ p. length p.1.now < length tokens.now)) }
{
    let Some((all, rest)) = names(alloc, tokens)? else {
        return Ok(None);
    };
    Ok(Some((Behind::Built(ClauseParts::Names(all)), rest)))
}

/// A term, as PROPERTIES and INVARIANT have it.
fn one_term(alloc: Global, tokens: &[Token]) -> Result<Option<(Behind, &[Token])>, Memory>
    ensures found { ReadsParts ClauseWord.Properties tokens.now result }
    ensures shorter { IfOk result (λ r. IfSome r (λ p. length p.1.now < length tokens.now)) }
{
    let Some((term, rest)) = front_term(alloc, tokens)? else {
        return Ok(None);
    };
    match term {
        Piece::Built(term, _) => {
            let term = Box::into_inner(term);
            Ok(Some((Behind::Built(ClauseParts::Term(term)), rest)))
        }
        Piece::High(_) => Ok(Some((Behind::High, rest))),
    }
}

fn all_assertions(alloc: Global, tokens: &[Token]) -> Result<Option<(Behind, &[Token])>, Memory>
    ensures found { ReadsParts ClauseWord.Assertions tokens.now result }
    ensures shorter { IfOk result (λ r. IfSome r (λ p. length p.1.now < length tokens.now)) }
{
    let Some((all, rest)) = assertions(alloc, tokens)? else {
        return Ok(None);
    };
    match all {
        Terms::Built(all, _) => Ok(Some((Behind::Built(ClauseParts::Terms(all)), rest))),
        Terms::High(_) => Ok(Some((Behind::High, rest))),
    }
}

fn all_values(alloc: Global, tokens: &[Token]) -> Result<Option<(Behind, &[Token])>, Memory>
    ensures found { ReadsParts ClauseWord.Values tokens.now result }
    ensures shorter { IfOk result (λ r. IfSome r (λ p. length p.1.now < length tokens.now)) }
{
    let Some((all, rest)) = values(alloc, tokens)? else {
        return Ok(None);
    };
    match all {
        ValueEntries::Built(all) => Ok(Some((Behind::Built(ClauseParts::Values(all)), rest))),
        ValueEntries::High => Ok(Some((Behind::High, rest))),
    }
}

fn one_substitution(alloc: Global, tokens: &[Token]) -> Result<Option<(Behind, &[Token])>, Memory>
    ensures found { ReadsParts ClauseWord.Initialisation tokens.now result }
    ensures shorter { IfOk result (λ r. IfSome r (λ p. length p.1.now < length tokens.now)) }
{
    let Some((statement, rest)) = front_substitution(alloc, tokens, false)? else {
        return Ok(None);
    };
    match statement {
        Statement::Built(sub, _) => {
            let sub = Box::into_inner(sub);
            Ok(Some((Behind::Built(ClauseParts::Substitution(sub)), rest)))
        }
        Statement::High => Ok(Some((Behind::High, rest))),
    }
}

fn all_operations(alloc: Global, tokens: &[Token]) -> Result<Option<(Behind, &[Token])>, Memory>
    ensures found { ReadsParts ClauseWord.Operations tokens.now result }
    ensures shorter { IfOk result (λ r. IfSome r (λ p. length p.1.now < length tokens.now)) }
{
    let Some((all, rest)) = operations(alloc, tokens)? else {
        return Ok(None);
    };
    match all {
        OperationEntries::Built(all) => Ok(Some((
            Behind::Built(ClauseParts::Operations(all)),
            rest,
        ))),
        OperationEntries::High => Ok(Some((Behind::High, rest))),
    }
}
