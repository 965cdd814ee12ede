// Clauses of a component, one after another.

ghost use Rattle.std.specs.Prelude.{◌≡◌, ◌≢◌, ◌<◌, ◌++◌, [], ◌∷◌, ℕ, List, length, IfOk, IfSome, MatchOption};
ghost use Rattle.bk_raw.specs.Trees.ComponentTree.{RawClause as ClauseTree, clause_number, is_allowed, word_number};
ghost use Rattle.bk_p_expr.specs.Fronts.{Longest, Nothing};
ghost use Rattle.bk_p_comp.specs.Clauses.{AreDone, AreKeptUnless, CompleteFollow, IsFound, ReadOn};

use crate::parts::{Behind, parts};
use bk_form::{Token, TokenKind};
use bk_io::Memory;
use bk_ops::word;
use bk_p_sub::first_token;
use bk_raw::{ClauseWord, ComponentKind, RawClause};
use std::alloc::Global;

/// The clauses that are read. From a clause on that is too high, none is kept, but their numbers are.
#[derive(Drop)]
pub(crate) struct Done {
    pub(crate) clauses: Vec<RawClause>,
    pub(crate) numbers: Vec<u16>,
    pub(crate) is_high: bool,
}

impl Done {
    /// These and one more.
    fn and(self, next: Next) -> Result<Done, Memory>
        ensures { IfOk result (λ r. (cs : List ClauseTree) (c : ClauseTree) → AreDone cs self → IsFound c next →
            AreDone (cs ++ c ∷ []) r) }
    {
        let number = number_of(&next.word);
        let mut done = self.keep(next)?;
        done.numbers.push(number)?;
        Ok(done)
    }

    /// The same clauses and one more, and the numbers as they are.
    fn keep(mut self, next: Next) -> Result<Done, Memory>
        ensures numbers { IfOk result (λ r. r.numbers.items ≡ self.numbers.items) }
        ensures kept { IfOk result (λ r. (cs : List ClauseTree) (c : ClauseTree) →
            AreKeptUnless self.is_high self.clauses.items cs → IsFound c next →
            AreKeptUnless r.is_high r.clauses.items (cs ++ c ∷ [])) }
    {
        let Next { word, at, parts } = next;
        match parts {
            Behind::Built(parts) => {
                self.clauses.push(RawClause { word, at, parts })?;
                Ok(self)
            }
            Behind::High => {
                self.is_high = true;
                Ok(self)
            }
        }
    }
}

/// A clause that is read.
#[derive(Drop)]
pub(crate) struct Next {
    pub(crate) word: ClauseWord,
    pub(crate) at: usize,
    pub(crate) parts: Behind,
}

/// The clauses in front, each the longest that may be the next one, and what stands after them.
pub(crate) fn clauses<'a>(
    alloc: Global,
    kind: &ComponentKind,
    tokens: &'a [Token],
) -> Result<(Done, &'a [Token]), Memory>
    ensures { IfOk result (λ r. (cs : List ClauseTree) × ReadOn kind.now [] cs tokens.now r.1.now × AreDone cs r.0) }
{
    let clauses = Vec::new(alloc);
    let numbers = Vec::new(alloc);
    let is_high = false;
    let mut done = Done {
        clauses,
        numbers,
        is_high,
    };
    let mut rest = tokens;
    while let Some((next, after)) = next_clause(alloc, kind, &done, rest)? {
        done = done.and(next)?;
        rest = after;
    }
    Ok((done, rest))
}

/// The longest clause in front that may be the next one, and what stands after it.
fn next_clause<'a>(
    alloc: Global,
    kind: &ComponentKind,
    done: &Done,
    tokens: &'a [Token],
) -> Result<Option<(Next, &'a [Token])>, Memory>
    ensures found { IfOk result (λ r. (cs : List ClauseTree) → AreDone cs done.now →
        MatchOption r (Nothing (CompleteFollow kind.now cs) tokens.now)
        (λ p. (c : ClauseTree) × Longest (CompleteFollow kind.now cs) tokens.now c p.1.now × IsFound c p.0)) }
    ensures shorter { IfOk result (λ r. IfSome r (λ p. length p.1.now < length tokens.now)) }
{
    let Some((first, behind)) = first_token(tokens) else {
        return Ok(None);
    };
    let Some(word) = word_of(&first.kind) else {
        return Ok(None);
    };
    if !allows(kind, &word) {
        return Ok(None);
    }
    if done.numbers.contains(&number_of(&word)) {
        return Ok(None);
    }
    let Some((parts, rest)) = parts(alloc, &word, behind)? else {
        return Ok(None);
    };
    let at = first.start;
    Ok(Some((Next { word, at, parts }, rest)))
}

/// The clause that the token begins, if it begins one.
fn word_of(kind: &TokenKind) -> Option<ClauseWord>
    ensures { MatchOption result ((w : ClauseWord) → TokenKind.Word (word_number w) ≢ kind.now)
        (λ w. TokenKind.Word (word_number w) ≡ kind.now) }
{
    let TokenKind::Word(op) = kind else {
        return None;
    };
    match *op {
        word::SETS => Some(ClauseWord::Sets),
        word::CONSTANTS => Some(ClauseWord::Constants),
        word::CONCRETE_CONSTANTS => Some(ClauseWord::ConcreteConstants),
        word::PROPERTIES => Some(ClauseWord::Properties),
        word::VARIABLES => Some(ClauseWord::Variables),
        word::ABSTRACT_VARIABLES => Some(ClauseWord::AbstractVariables),
        word::CONCRETE_VARIABLES => Some(ClauseWord::ConcreteVariables),
        word::INVARIANT => Some(ClauseWord::Invariant),
        word::ASSERTIONS => Some(ClauseWord::Assertions),
        word::VALUES => Some(ClauseWord::Values),
        word::INITIALISATION => Some(ClauseWord::Initialisation),
        word::OPERATIONS => Some(ClauseWord::Operations),
        word::IMPORTS => Some(ClauseWord::Imports),
        _ => None,
    }
}

/// The number of the clause: two words of constants, and two of variables, are one clause each.
fn number_of(word: &ClauseWord) -> u16
    ensures { result ≡ clause_number word.now }
{
    match word {
        ClauseWord::Sets => word::SETS,
        ClauseWord::Constants | ClauseWord::ConcreteConstants => word::CONSTANTS,
        ClauseWord::Properties => word::PROPERTIES,
        ClauseWord::Variables | ClauseWord::AbstractVariables => word::VARIABLES,
        ClauseWord::ConcreteVariables => word::CONCRETE_VARIABLES,
        ClauseWord::Invariant => word::INVARIANT,
        ClauseWord::Assertions => word::ASSERTIONS,
        ClauseWord::Values => word::VALUES,
        ClauseWord::Initialisation => word::INITIALISATION,
        ClauseWord::Operations => word::OPERATIONS,
        ClauseWord::Imports => word::IMPORTS,
    }
}

/// Whether a component of the kind has the clause. IMPORTS is not read yet: none has it.
fn allows(kind: &ComponentKind, word: &ClauseWord) -> bool
    ensures { result ≡ is_allowed kind.now word.now }
{
    match (kind, word) {
        (ComponentKind::Implementation, ClauseWord::Variables) => false,
        (ComponentKind::Implementation, ClauseWord::AbstractVariables) => false,
        (_, ClauseWord::Imports) => false,
        (ComponentKind::Implementation, _) => true,
        (_, ClauseWord::Values) => false,
        _ => true,
    }
}
