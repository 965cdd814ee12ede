//! What the definitions imply.

ghost use Rattle.bk_lex.specs.Laws.{TokensAreOne, FaultsAreOne};

/// A text has at most one list of tokens.
pub fn tokens_are_one()
    ensures { TokensAreOne }
{}

/// A text has at most one fault.
pub fn faults_are_one()
    ensures { FaultsAreOne }
{}
