//! Obligations by their clauses.

use crate::clause::{Clause, Site};
use crate::leaf::Leaf;
use bk_io::Memory;
use bk_po::Obligation;

/// A clause, and the parts of its goal where they are known.
#[derive(Drop)]
pub(crate) struct Asked {
    pub(crate) level: usize,
    pub(crate) clause: Clause,
    /// What stands before the number in the names of its obligations, with the dot.
    pub(crate) front: Vec<u8>,
    pub(crate) leaves: Option<Vec<Leaf>>,
}

/// The clauses of a level.
pub(crate) fn clauses_of(site: Site<'_>, clauses: &mut Vec<Asked>) -> Result<(), Memory> {
    for clause in [
        Clause::PropertiesDefined,
        Clause::Values,
        Clause::InvariantDefined,
        Clause::AssertionsDefined,
        Clause::Assertions,
        Clause::Initialisation,
        Clause::InitialisationDefined,
    ] {
        clauses.push(asked_of(site, clause)?)?;
    }
    let dev = site.dev;
    for operation in 0..dev.heads.len() {
        clauses.push(asked_of(site, Clause::Operation(operation))?)?;
        clauses.push(asked_of(site, Clause::OperationDefined(operation))?)?;
    }
    Ok(())
}

fn asked_of(site: Site<'_>, clause: Clause) -> Result<Asked, Memory> {
    let level = site.level;
    let mut front = Vec::from_slice(site.alloc, level.name.as_bytes())?;
    front.extend_from_slice(b".")?;
    front.extend_from_slice(&site.clause_name(clause)?)?;
    front.extend_from_slice(b".")?;
    Ok(Asked {
        level: site.number,
        clause,
        front,
        leaves: site.leaves(clause)?,
    })
}

/// The clause of an obligation, by its name.
pub(crate) fn clause_named<'a>(clauses: &'a [Asked], name: &[u8]) -> Option<&'a Asked> {
    let front = front_of(name);
    clauses.iter().find(|asked| asked.front.as_slice() == front)
}

// A name up to its last dot.
fn front_of(name: &[u8]) -> &[u8] {
    let mut end = 0;
    for (index, byte) in name.iter().enumerate() {
        if *byte == b'.' {
            end = index.saturating_add(1);
        }
    }
    if end < name.len() { &name[..end] } else { name }
}

/// How many obligations after this one have names with this front, up to the first that has not.
pub(crate) fn count_behind(list: &[Obligation], index: usize, front: &[u8]) -> usize {
    let mut count = 0usize;
    for before in index..list.len() {
        let Some(obligation) = list.get(before.saturating_add(1)) else {
            return count;
        };
        if front_of(obligation.name.as_bytes()) != front {
            return count;
        }
        count = count.saturating_add(1);
    }
    count
}

/// How many obligations before this one have names with this front, back to the last that has not.
pub(crate) fn place_among(list: &[Obligation], index: usize, front: &[u8]) -> usize {
    let mut place = 0usize;
    for behind in 0..index {
        let Some(obligation) = list.get(index - 1 - behind) else {
            return place;
        };
        if front_of(obligation.name.as_bytes()) != front {
            return place;
        }
        place = place.saturating_add(1);
    }
    place
}
