//! Components as trees, for the sentences of faults within them.

use crate::say::tokens_of;
use crate::source::{Source, SourceKind};
use bk_io::Memory;
use bk_p_comp::component;
use bk_p_expr::SynFault;
use bk_raw::{ClauseParts, ClauseWord, RawComponent, RawName, RawOperation, RawValue};
use std::alloc::Global;

/// The component that a text is read as, if it is one.
pub(crate) fn tree_of(alloc: Global, source: Source<'_>) -> Result<Option<RawComponent>, Memory> {
    let list = tokens_of(alloc, source.text)?;
    match component(alloc, &list) {
        Ok(tree) => Ok(Some(tree)),
        Err(SynFault::Memory) => Err(Memory),
        Err(_) => Ok(None),
    }
}

/// The machine, which is the first of the components.
pub(crate) fn machine_of(
    alloc: Global,
    sources: &[Source<'_>],
) -> Result<Option<RawComponent>, Memory> {
    for source in sources {
        if source.kind.is_component() {
            return tree_of(alloc, *source);
        }
    }
    Ok(None)
}

/// Its operations.
pub(crate) fn operations(tree: &RawComponent) -> &[RawOperation] {
    for clause in &tree.clauses {
        if let ClauseParts::Operations(operations) = &clause.parts {
            return operations;
        }
    }
    &[]
}

/// The operation with a name.
pub(crate) fn operation_named<'a>(tree: &'a RawComponent, name: &[u8]) -> Option<&'a RawOperation> {
    operations(tree)
        .iter()
        .find(|operation| operation.name.text.as_bytes() == name)
}

/// The entries of VALUES.
pub(crate) fn values(tree: &RawComponent) -> &[RawValue] {
    for clause in &tree.clauses {
        if let ClauseParts::Values(values) = &clause.parts {
            return values;
        }
    }
    &[]
}

/// How many entries are for a name.
pub(crate) fn entries_for(tree: &RawComponent, name: &[u8]) -> usize {
    values(tree)
        .iter()
        .filter(|entry| entry.name.text.as_bytes() == name)
        .count()
}

/// Its constants.
pub(crate) fn constants(tree: &RawComponent) -> &[RawName] {
    for clause in &tree.clauses {
        if is_of_constants(&clause.word) {
            if let ClauseParts::Names(names) = &clause.parts {
                return names;
            }
        }
    }
    &[]
}

fn is_of_constants(word: &ClauseWord) -> bool {
    matches!(word, ClauseWord::Constants | ClauseWord::ConcreteConstants)
}

/// Whether a component of these has a constant of this name.
pub(crate) fn is_constant(
    alloc: Global,
    sources: &[Source<'_>],
    name: &[u8],
) -> Result<bool, Memory> {
    for source in sources {
        if source.kind.is_component() {
            if let Some(tree) = tree_of(alloc, *source)? {
                if has_name(constants(&tree), name) {
                    return Ok(true);
                }
            }
        }
    }
    Ok(false)
}

/// Whether a name is one of these.
pub(crate) fn has_name(names: &[RawName], name: &[u8]) -> bool {
    for other in names {
        if other.text.as_bytes() == name {
            return true;
        }
    }
    false
}

/// Whether it has variables and no INITIALISATION.
pub(crate) fn lacks_initialisation(tree: &RawComponent) -> bool {
    has_variables(tree) && !has_initialisation(tree)
}

fn has_variables(tree: &RawComponent) -> bool {
    for clause in &tree.clauses {
        if is_of_variables(&clause.word) {
            return true;
        }
    }
    false
}

fn is_of_variables(word: &ClauseWord) -> bool {
    matches!(
        word,
        ClauseWord::Variables | ClauseWord::AbstractVariables | ClauseWord::ConcreteVariables
    )
}

fn has_initialisation(tree: &RawComponent) -> bool {
    for clause in &tree.clauses {
        if let ClauseParts::Substitution(_) = &clause.parts {
            return true;
        }
    }
    false
}
