// How a substitution begins: what is read of it before the substitutions inside of it.

ghost use Rattle.std.specs.Prelude.{Bool, ◌≡◌, ◌≢◌, ◌<◌, ◌≤◌, true, ◌∷◌, length, IfOk, IfSome, MatchOption};
ghost use Rattle.bk_ops.specs.declared.word.TheConstants.{VAR, ANY, LET};
ghost use Rattle.bk_p_sub.specs.Found.{Begins, BeginsWithName, guard_begins, guard_end, guard_kind, is_behind_term};

use crate::call::call;
use crate::defining::defines;
use crate::front::{first_token, names_before, term_before};
use crate::statement::{Around, Head, Statement, Test};
use crate::target::target;
use crate::term::Term;
use bk_form::{Token, TokenKind};
use bk_io::Memory;
use bk_ops::word;
use std::alloc::Global;

/// How a substitution begins, and what is to be read after that.
#[derive(Drop)]
pub(crate) enum Opening {
    /// Nothing: there is no substitution inside.
    Closed(Statement),
    /// A substitution and END.
    Around(Around),
    /// A substitution, further branches and END.
    Tested(Test, Term),
    /// A substitution, further choices and END.
    Choice,
    /// A substitution, the invariant, the variant and END.
    While(Term),
}

/// How the atom in front begins. A call is read where operations may be called.
pub(crate) fn opening_of(
    alloc: Global,
    tokens: &[Token],
    calls: bool,
) -> Result<Option<(Opening, &[Token])>, Memory>
    ensures found { Begins calls tokens.now result }
    ensures shorter { IfOk result (λ r. IfSome r (λ p. length p.1.now < length tokens.now)) }
{
    let Some((first, rest)) = first_token(tokens) else {
        return Ok(None);
    };
    match &first.kind {
        TokenKind::Name(_) => named(alloc, tokens, calls),
        TokenKind::Word(op) => opening_by(alloc, *op, first, rest),
        _ => Ok(None),
    }
}

/// The substitution in front that begins with a name: nothing is left to be read of it. What a call is, is shorter than
/// what is written to names.
fn named(
    alloc: Global,
    tokens: &[Token],
    calls: bool,
) -> Result<Option<(Opening, &[Token])>, Memory>
    requires { BeginsWithName tokens.now }
    ensures found { Begins calls tokens.now result }
    ensures shorter { IfOk result (λ r. IfSome r (λ p. length p.1.now < length tokens.now)) }
{
    if let Some((statement, rest)) = target(alloc, tokens)? {
        return Ok(Some((Opening::Closed(statement), rest)));
    }
    if !calls {
        return Ok(None);
    }
    let Some((statement, rest)) = call(alloc, tokens)? else {
        return Ok(None);
    };
    Ok(Some((Opening::Closed(statement), rest)))
}

/// How the atom begins whose first token is this word.
fn opening_by<'a>(
    alloc: Global,
    op: u16,
    first: &Token,
    tokens: &'a [Token],
) -> Result<Option<(Opening, &'a [Token])>, Memory>
    requires { first.now.kind ≡ TokenKind.Word op }
    ensures found { (calls : Bool) → Begins calls (first.now ∷ tokens.now) result }
    ensures shorter { IfOk result (λ r. IfSome r (λ p. length p.1.now ≤ length tokens.now)) }
{
    if op == word::SKIP {
        let skip = Statement::skip(alloc, first.start)?;
        return Ok(Some((Opening::Closed(skip), tokens)));
    }
    if op == word::BEGIN {
        return Ok(Some((Opening::Around(Around::Begin), tokens)));
    }
    if op == word::CHOICE {
        return Ok(Some((Opening::Choice, tokens)));
    }
    if op == word::VAR {
        return variables(alloc, first, tokens);
    }
    if op == word::ANY {
        return values(alloc, first, tokens);
    }
    if op == word::LET {
        return definitions(alloc, first, tokens);
    }
    let Some(guard) = Guard::of(op) else {
        return Ok(None);
    };
    guarded(alloc, guard, first, tokens)
}

/// What stands after VAR, up to IN.
fn variables<'a>(
    alloc: Global,
    first: &Token,
    tokens: &'a [Token],
) -> Result<Option<(Opening, &'a [Token])>, Memory>
    requires { first.now.kind ≡ TokenKind.Word VAR }
    ensures found { (calls : Bool) → Begins calls (first.now ∷ tokens.now) result }
    ensures shorter { IfOk result (λ r. IfSome r (λ p. length p.1.now ≤ length tokens.now)) }
{
    let Some((names, rest)) = names_before(alloc, tokens, word::IN)? else {
        return Ok(None);
    };
    Ok(Some((Opening::Around(Around::Var(names)), rest)))
}

/// What stands after ANY, up to THEN.
fn values<'a>(
    alloc: Global,
    first: &Token,
    tokens: &'a [Token],
) -> Result<Option<(Opening, &'a [Token])>, Memory>
    requires { first.now.kind ≡ TokenKind.Word ANY }
    ensures found { (calls : Bool) → Begins calls (first.now ∷ tokens.now) result }
    ensures shorter { IfOk result (λ r. IfSome r (λ p. length p.1.now ≤ length tokens.now)) }
{
    let Some((names, behind)) = names_before(alloc, tokens, word::WHERE)? else {
        return Ok(None);
    };
    let Some((test, rest)) = term_before(alloc, behind, word::THEN)? else {
        return Ok(None);
    };
    Ok(Some((Opening::Around(Around::Under(Head::Any(names), test)), rest)))
}

/// What stands after LET, up to IN.
fn definitions<'a>(
    alloc: Global,
    first: &Token,
    tokens: &'a [Token],
) -> Result<Option<(Opening, &'a [Token])>, Memory>
    requires { first.now.kind ≡ TokenKind.Word LET }
    ensures found { (calls : Bool) → Begins calls (first.now ∷ tokens.now) result }
    ensures shorter { IfOk result (λ r. IfSome r (λ p. length p.1.now ≤ length tokens.now)) }
{
    let Some((names, behind)) = names_before(alloc, tokens, word::BE)? else {
        return Ok(None);
    };
    let Some((test, rest)) = term_before(alloc, behind, word::IN)? else {
        return Ok(None);
    };
    let defined = defines(alloc, &names, &test)?;
    if !defined {
        return Ok(None);
    }
    Ok(Some((Opening::Around(Around::Under(Head::Let(names), test)), rest)))
}

/// A word that begins a block, with a test after it.
#[derive(Clone, Copy)]
pub(crate) enum Guard {
    Pre,
    Assert,
    If,
    Select,
    While,
}

impl Guard {
    /// The one whose word has this number, if there is one.
    fn of(op: u16) -> Option<Guard>
        ensures { MatchOption result ((g : Guard) → guard_kind g ≢ TokenKind.Word op)
            (λ g. guard_kind g ≡ TokenKind.Word op) }
    {
        match op {
            word::PRE => Some(Guard::Pre),
            word::ASSERT => Some(Guard::Assert),
            word::IF => Some(Guard::If),
            word::SELECT => Some(Guard::Select),
            word::WHILE => Some(Guard::While),
            _ => None,
        }
    }

    /// The word after the test.
    fn end(self) -> u16
        ensures word { result ≡ guard_end self }
        ensures behind { is_behind_term result ≡ true }
    {
        match self {
            Guard::While => word::DO,
            Guard::Pre | Guard::Assert | Guard::If | Guard::Select => word::THEN,
        }
    }

    /// How the block begins, with this test.
    fn begins(self, test: Term) -> Opening
        ensures { result ≡ guard_begins self test }
    {
        match self {
            Guard::Pre => Opening::Around(Around::Under(Head::Pre, test)),
            Guard::Assert => Opening::Around(Around::Under(Head::Assert, test)),
            Guard::If => Opening::Tested(Test::If, test),
            Guard::Select => Opening::Tested(Test::Select, test),
            Guard::While => Opening::While(test),
        }
    }
}

/// What stands after such a word, up to the word after its test.
fn guarded<'a>(
    alloc: Global,
    guard: Guard,
    first: &Token,
    tokens: &'a [Token],
) -> Result<Option<(Opening, &'a [Token])>, Memory>
    requires { guard_kind guard ≡ first.now.kind }
    ensures found { (calls : Bool) → Begins calls (first.now ∷ tokens.now) result }
    ensures shorter { IfOk result (λ r. IfSome r (λ p. length p.1.now ≤ length tokens.now)) }
{
    let Some((test, rest)) = term_before(alloc, tokens, guard.end())? else {
        return Ok(None);
    };
    Ok(Some((guard.begins(test), rest)))
}
