//! Components as they are written.

use bk_raw::{ClauseParts, ClauseWord, RawComponent, RawOperation, RawTerm};

/// A component, and the text of its file.
#[derive(Clone, Copy)]
pub struct Component<'a> {
    /// The name of the file.
    pub file: &'a [u8],
    pub text: &'a [u8],
    pub raw: &'a RawComponent,
}

impl<'a> Component<'a> {
    /// The term of the clause that is asked for.
    pub(crate) fn term(&self, wanted: Term) -> Option<&'a RawTerm> {
        let raw = self.raw;
        for clause in &raw.clauses {
            if let ClauseParts::Term(term) = &clause.parts {
                if wanted.is_in(&clause.word) {
                    return Some(term);
                }
            }
        }
        None
    }

    /// The terms of ASSERTIONS.
    pub(crate) fn assertions(&self) -> &'a [RawTerm] {
        let raw = self.raw;
        for clause in &raw.clauses {
            if let ClauseParts::Terms(terms) = &clause.parts {
                return terms;
            }
        }
        &[]
    }

    /// The byte at which the clause begins; that of the component where it has none.
    pub(crate) fn clause_at(&self, wanted: Begun) -> usize {
        let raw = self.raw;
        for clause in &raw.clauses {
            if wanted.is_by(&clause.word) {
                return clause.at;
            }
        }
        raw.at
    }

    /// The byte at which the name of the operation stands; that of the component where it has none.
    pub(crate) fn operation_at(&self, name: &[u8]) -> usize {
        let raw = self.raw;
        for clause in &raw.clauses {
            if let ClauseParts::Operations(operations) = &clause.parts {
                if let Some(at) = name_at(operations, name) {
                    return at;
                }
            }
        }
        raw.at
    }
}

fn name_at(operations: &[RawOperation], name: &[u8]) -> Option<usize> {
    for operation in operations {
        if operation.name.text.as_bytes() == name {
            return Some(operation.name.at);
        }
    }
    None
}

/// A clause with one term.
#[derive(Clone, Copy, PartialEq, Eq)]
pub(crate) enum Term {
    Properties,
    Invariant,
}

impl Term {
    fn is_in(self, word: &ClauseWord) -> bool {
        match word {
            ClauseWord::Properties => self == Term::Properties,
            ClauseWord::Invariant => self == Term::Invariant,
            _ => false,
        }
    }
}

/// A clause by its word.
#[derive(Clone, Copy, PartialEq, Eq)]
pub(crate) enum Begun {
    Properties,
    Invariant,
    Assertions,
    Values,
    Initialisation,
}

impl Begun {
    fn is_by(self, word: &ClauseWord) -> bool {
        match word {
            ClauseWord::Properties => self == Begun::Properties,
            ClauseWord::Invariant => self == Begun::Invariant,
            ClauseWord::Assertions => self == Begun::Assertions,
            ClauseWord::Values => self == Begun::Values,
            ClauseWord::Initialisation => self == Begun::Initialisation,
            _ => false,
        }
    }
}
