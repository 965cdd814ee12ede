// Entries of clauses, with semicolons between.
//
// Where a semicolon is followed by no entry, the list ends before the semicolon.

ghost use Rattle.std.specs.Prelude.{◌<◌, ◌≤◌, ◌++◌, [], ◌∷◌, List, length, IfOk, IfSome, MatchOption};
ghost use Rattle.bk_ops.specs.declared.sign.TheConstants.{SEMICOLON};
ghost use Rattle.bk_raw.specs.Grammar.ComponentSpelling.{Operation, Value};
ghost use Rattle.bk_raw.specs.Trees.ComponentTree.{RawOperation as OperationTree};
ghost use Rattle.bk_raw.specs.Grammar.Pieces.{Divided};
ghost use Rattle.bk_raw.specs.Trees.RawTree.{RawTree, trees_of};
ghost use Rattle.bk_raw.specs.Grammar.Spelling.{Names, Term};
ghost use Rattle.bk_raw.specs.Trees.SubTree.{SubTree};
ghost use Rattle.bk_raw.specs.declared.component.RawValue.{RawValue as ValueTree};
ghost use Rattle.bk_p_expr.specs.Fronts.{Longest, Nothing};
ghost use Rattle.bk_p_expr.specs.Pieces.{IsPiece, IsTerms};
ghost use Rattle.bk_p_sub.specs.Longest.{Left};
ghost use Rattle.bk_p_sub.specs.Statements.{IsStatement};
ghost use Rattle.bk_p_comp.specs.Entries.{Bodied, CompleteSet, HasNoInputs, IsInputs, IsOutputs, titled};
ghost use Rattle.bk_p_comp.specs.Parts.{AreOperations, AreValues};

use bk_form::Token;
use bk_io::Memory;
use bk_ops::sign;
use bk_p_expr::{Piece, Terms, front_term};
use bk_p_sub::{Statement, after_sign, declared, front_body, names};
use bk_raw::{RawName, RawOperation, RawSet, RawValue};
use std::alloc::Global;

/// Sets with their elements, and what stands after them.
pub(crate) fn sets(
    alloc: Global,
    tokens: &[Token],
) -> Result<Option<(Vec<RawSet>, &[Token])>, Memory>
    ensures found { IfOk result (λ r. MatchOption r (Nothing (Divided SEMICOLON CompleteSet) tokens.now)
        (λ p. Longest (Divided SEMICOLON CompleteSet) tokens.now p.0.items p.1.now)) }
    ensures shorter { IfOk result (λ r. IfSome r (λ p. length p.1.now < length tokens.now)) }
{
    let Some((first, after)) = set(alloc, tokens)? else {
        return Ok(None);
    };
    let mut all = Vec::new(alloc);
    all.push(first)?;
    let mut rest = after;
    while let Some(behind) = after_sign(rest, sign::SEMICOLON) {
        let Some((set, after)) = set(alloc, behind)? else {
            return Ok(Some((all, rest)));
        };
        all.push(set)?;
        rest = after;
    }
    Ok(Some((all, rest)))
}

/// `NAME = { a, b }`.
fn set(alloc: Global, tokens: &[Token]) -> Result<Option<(RawSet, &[Token])>, Memory>
    ensures found { IfOk result (λ r. MatchOption r (Nothing CompleteSet tokens.now)
        (λ p. Longest CompleteSet tokens.now p.0 p.1.now)) }
    ensures shorter { IfOk result (λ r. IfSome r (λ p. length p.1.now < length tokens.now)) }
{
    let Some((name, behind)) = declared(alloc, tokens)? else {
        return Ok(None);
    };
    let Some(behind) = after_sign(behind, sign::EQUAL) else {
        return Ok(None);
    };
    let Some(behind) = after_sign(behind, sign::OPEN_BRACE) else {
        return Ok(None);
    };
    let Some((elements, behind)) = names(alloc, behind)? else {
        return Ok(None);
    };
    let Some(rest) = after_sign(behind, sign::CLOSE_BRACE) else {
        return Ok(None);
    };
    Ok(Some((RawSet { name, elements }, rest)))
}

/// Terms, and what stands after them.
pub(crate) fn assertions(
    alloc: Global,
    tokens: &[Token],
) -> Result<Option<(Terms, &[Token])>, Memory>
    ensures found { IfOk result (λ r. MatchOption r (Nothing (Divided SEMICOLON (λ t. Term t 0)) tokens.now)
        (λ p. (ts : List RawTree) × Longest (Divided SEMICOLON (λ t. Term t 0)) tokens.now ts p.1.now ×
        IsTerms (trees_of ts) p.0)) }
    ensures shorter { IfOk result (λ r. IfSome r (λ p. length p.1.now < length tokens.now)) }
{
    let Some((first, after)) = front_term(alloc, tokens)? else {
        return Ok(None);
    };
    let none = Terms::Built(Vec::new(alloc), 0);
    let mut all = none.and(alloc, first)?;
    let mut rest = after;
    while let Some(behind) = after_sign(rest, sign::SEMICOLON) {
        let Some((term, after)) = front_term(alloc, behind)? else {
            return Ok(Some((all, rest)));
        };
        all = all.and(alloc, term)?;
        rest = after;
    }
    Ok(Some((all, rest)))
}

/// Entries of VALUES; where a value is too high, none is kept.
#[derive(Drop)]
pub(crate) enum ValueEntries {
    Built(Vec<RawValue>),
    High,
}

impl ValueEntries {
    /// These and one more.
    fn and(self, name: RawName, value: Piece) -> Result<ValueEntries, Memory>
        ensures { IfOk result (λ r. (vs : List ValueTree) (e : RawTree) → AreValues vs self → IsPiece e value →
            AreValues (vs ++ record { name = name; value = e } ∷ []) r) }
    {
        let ValueEntries::Built(mut all) = self else {
            return Ok(ValueEntries::High);
        };
        let Piece::Built(value, _) = value else {
            return Ok(ValueEntries::High);
        };
        let value = Box::into_inner(value);
        all.push(RawValue { name, value })?;
        Ok(ValueEntries::Built(all))
    }
}

/// Entries of VALUES, and what stands after them.
pub(crate) fn values(
    alloc: Global,
    tokens: &[Token],
) -> Result<Option<(ValueEntries, &[Token])>, Memory>
    ensures found { IfOk result (λ r. MatchOption r (Nothing (Divided SEMICOLON Value) tokens.now)
        (λ p. (vs : List ValueTree) × Longest (Divided SEMICOLON Value) tokens.now vs p.1.now × AreValues vs p.0)) }
    ensures shorter { IfOk result (λ r. IfSome r (λ p. length p.1.now < length tokens.now)) }
{
    let Some((name, first, after)) = value(alloc, tokens)? else {
        return Ok(None);
    };
    let none = ValueEntries::Built(Vec::new(alloc));
    let mut all = none.and(name, first)?;
    let mut rest = after;
    while let Some(behind) = after_sign(rest, sign::SEMICOLON) {
        let Some((name, value, after)) = value(alloc, behind)? else {
            return Ok(Some((all, rest)));
        };
        all = all.and(name, value)?;
        rest = after;
    }
    Ok(Some((all, rest)))
}

/// `name = term`.
fn value(alloc: Global, tokens: &[Token]) -> Result<Option<(RawName, Piece, &[Token])>, Memory>
    ensures found { IfOk result (λ r. MatchOption r (Nothing Value tokens.now)
        (λ p. (e : RawTree) × Longest Value tokens.now (record { name = p.0; value = e }) p.2.now × IsPiece e p.1)) }
    ensures shorter { IfOk result (λ r. IfSome r (λ p. length p.2.now < length tokens.now)) }
{
    let Some((name, behind)) = declared(alloc, tokens)? else {
        return Ok(None);
    };
    let Some(behind) = after_sign(behind, sign::EQUAL) else {
        return Ok(None);
    };
    let Some((value, rest)) = front_term(alloc, behind)? else {
        return Ok(None);
    };
    Ok(Some((name, value, rest)))
}

/// What stands before an operation's body.
#[derive(Drop)]
pub(crate) struct OperationTitle {
    pub(crate) outputs: Vec<RawName>,
    pub(crate) name: RawName,
    pub(crate) inputs: Vec<RawName>,
}

/// Operations; where a body is too high, none is kept.
#[derive(Drop)]
pub(crate) enum OperationEntries {
    Built(Vec<RawOperation>),
    High,
}

impl OperationEntries {
    /// These and one more.
    fn and(self, title: OperationTitle, body: Statement) -> Result<OperationEntries, Memory>
        ensures { IfOk result (λ r. (os : List OperationTree) (s : SubTree) → AreOperations os self →
            IsStatement s body → AreOperations (os ++ titled title s ∷ []) r) }
    {
        let OperationEntries::Built(mut all) = self else {
            return Ok(OperationEntries::High);
        };
        let Statement::Built(body, _) = body else {
            return Ok(OperationEntries::High);
        };
        let body = Box::into_inner(body);
        all.push(RawOperation {
            outputs: title.outputs,
            name: title.name,
            inputs: title.inputs,
            body,
        })?;
        Ok(OperationEntries::Built(all))
    }
}

/// Operations, and what stands after them.
pub(crate) fn operations(
    alloc: Global,
    tokens: &[Token],
) -> Result<Option<(OperationEntries, &[Token])>, Memory>
    ensures found { IfOk result (λ r. MatchOption r (Nothing (Divided SEMICOLON Operation) tokens.now)
        (λ p. (os : List OperationTree) × Longest (Divided SEMICOLON Operation) tokens.now os p.1.now ×
        AreOperations os p.0)) }
    ensures shorter { IfOk result (λ r. IfSome r (λ p. length p.1.now < length tokens.now)) }
{
    let Some((title, body, after)) = operation(alloc, tokens)? else {
        return Ok(None);
    };
    let none = OperationEntries::Built(Vec::new(alloc));
    let mut all = none.and(title, body)?;
    let mut rest = after;
    while let Some(behind) = after_sign(rest, sign::SEMICOLON) {
        let Some((title, body, after)) = operation(alloc, behind)? else {
            return Ok(Some((all, rest)));
        };
        all = all.and(title, body)?;
        rest = after;
    }
    Ok(Some((all, rest)))
}

/// `outs <-- name(ins) = body`.
fn operation(
    alloc: Global,
    tokens: &[Token],
) -> Result<Option<(OperationTitle, Statement, &[Token])>, Memory>
    ensures found { IfOk result (λ r. MatchOption r (Nothing Operation tokens.now)
        (λ p. (s : SubTree) × Longest Operation tokens.now (titled p.0 s) p.2.now × IsStatement s p.1)) }
    ensures shorter { IfOk result (λ r. IfSome r (λ p. length p.2.now < length tokens.now)) }
{
    let Some((title, behind)) = title(alloc, tokens)? else {
        return Ok(None);
    };
    let Some(behind) = after_sign(behind, sign::EQUAL) else {
        return Ok(None);
    };
    let Some((body, rest)) = front_body(alloc, behind, false)? else {
        return Ok(None);
    };
    Ok(Some((title, body, rest)))
}

/// `outs <-- name(ins)` of an operation. Where `<--` does not stand after the names, they are no outputs.
fn title(alloc: Global, tokens: &[Token]) -> Result<Option<(OperationTitle, &[Token])>, Memory>
    ensures found { IfOk result (λ r. MatchOption r (Nothing Operation tokens.now)
        (λ p. Left Operation tokens.now Bodied p.1.now (titled p.0))) }
    ensures shorter { IfOk result (λ r. IfSome r (λ p. length p.1.now < length tokens.now)) }
{
    let Some((outputs, behind)) = outputs(alloc, tokens)? else {
        return Ok(None);
    };
    let Some((name, behind)) = declared(alloc, behind)? else {
        return Ok(None);
    };
    let Some((inputs, rest)) = inputs(alloc, behind)? else {
        return Ok(None);
    };
    Ok(Some((
        OperationTitle {
            outputs,
            name,
            inputs,
        },
        rest,
    )))
}

/// `outs <--`, or nothing where the sign does not stand after the names; None where no name is in front.
fn outputs(alloc: Global, tokens: &[Token]) -> Result<Option<(Vec<RawName>, &[Token])>, Memory>
    ensures found { IfOk result (λ r. MatchOption r (Nothing Names tokens.now)
        (λ p. IsOutputs tokens.now p.0.items p.1.now)) }
    ensures no_longer { IfOk result (λ r. IfSome r (λ p. length p.1.now ≤ length tokens.now)) }
{
    let Some((outputs, behind)) = names(alloc, tokens)? else {
        return Ok(None);
    };
    let Some(rest) = after_sign(behind, sign::OUTPUTS) else {
        return Ok(Some((Vec::new(alloc), tokens)));
    };
    Ok(Some((outputs, rest)))
}

/// `(ins)`, or nothing where no parenthesis is in front; None where one is and no names stand in it.
fn inputs(alloc: Global, tokens: &[Token]) -> Result<Option<(Vec<RawName>, &[Token])>, Memory>
    ensures found { IfOk result (λ r. MatchOption r (HasNoInputs tokens.now)
        (λ p. IsInputs tokens.now p.0.items p.1.now)) }
    ensures no_longer { IfOk result (λ r. IfSome r (λ p. length p.1.now ≤ length tokens.now)) }
{
    let Some(inside) = after_sign(tokens, sign::OPEN_PAREN) else {
        return Ok(Some((Vec::new(alloc), tokens)));
    };
    let Some((inputs, behind)) = names(alloc, inside)? else {
        return Ok(None);
    };
    let Some(rest) = after_sign(behind, sign::CLOSE_PAREN) else {
        return Ok(None);
    };
    Ok(Some((inputs, rest)))
}
