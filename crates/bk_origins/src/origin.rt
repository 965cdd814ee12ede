//! The origins of obligations.

ghost use Rattle.std.specs.Prelude.{◌≡◌, map, IfOk};
ghost use Rattle.bk_origins.specs.Concerns as meant;

use crate::asked::{Asked, clause_named, clauses_of, count_behind, place_among};
use crate::clause::Site;
use crate::component::Component;
use crate::concern::{Concern, concern_of};
use crate::leaf::Leaf;
use bk_dev::Development;
use bk_io::{Memory, Text};
use bk_po::Obligation;
use std::alloc::Global;

/// Where an obligation comes from.
#[derive(Drop)]
pub struct Origin {
    pub name: Text,
    pub concern: Concern,
    /// What it asks, in words.
    pub words: Vec<u8>,
    /// The number of the component, from 0, and the byte of its text.
    pub component: usize,
    pub at: usize,
}

/// The origins of the obligations of a development, in order, of which these are the components as they are written.
pub fn origins<'a>(
    alloc: Global,
    dev: &'a Development,
    components: &'a [Component<'a>],
    list: &[Obligation],
) -> Result<Vec<Origin>, Memory>
    ensures names { IfOk result (λ all. map (λ o. o.name) all.items ≡ map (λ o. o.name) list.now) }
    ensures concerns { IfOk result (λ all. map (λ o. o.concern) all.items ≡ map (λ o. meant.concern_of o.name) list.now) }
{
    let clauses = all_clauses(alloc, dev, components)?;
    let mut all = Vec::new(alloc);
    for (index, obligation) in list.iter().enumerate() {
        all.push(origin_of(alloc, dev, components, &clauses, list, index, obligation)?)?;
    }
    Ok(all)
}

// The clauses of all levels.
fn all_clauses<'a>(
    alloc: Global,
    dev: &'a Development,
    components: &'a [Component<'a>],
) -> Result<Vec<Asked>, Memory> {
    let mut clauses = Vec::new(alloc);
    for (number, level) in dev.levels.iter().enumerate() {
        let site = Site {
            alloc,
            dev,
            components,
            number,
            level,
        };
        clauses_of(site, &mut clauses)?;
    }
    Ok(clauses)
}

// The origin of the obligation with this index.
fn origin_of<'a>(
    alloc: Global,
    dev: &'a Development,
    components: &'a [Component<'a>],
    clauses: &[Asked],
    list: &[Obligation],
    index: usize,
    obligation: &Obligation,
) -> Result<Origin, Memory>
    ensures name { IfOk result (λ o. o.name ≡ obligation.now.name) }
    ensures concern { IfOk result (λ o. o.concern ≡ meant.concern_of obligation.now.name) }
{
    let name = obligation.name.copy(alloc)?;
    let concern = concern_of(obligation.name.as_bytes());
    let unknown = Origin {
        name,
        concern,
        words: Vec::new(alloc),
        component: 0,
        at: 0,
    };
    let Some(asked) = clause_named(clauses, obligation.name.as_bytes()) else {
        return Ok(unknown);
    };
    let Some(level) = dev.levels.get(asked.level) else {
        return Ok(unknown);
    };
    let site = Site {
        alloc,
        dev,
        components,
        number: asked.level,
        level,
    };
    let leaf = leaf_of(asked, list, index);
    Ok(Origin {
        name: unknown.name,
        concern,
        words: site.words(asked.clause, leaf, &obligation.sequent.goal)?,
        component: asked.level,
        at: place_of(site, asked, leaf),
    })
}

// The part of the goal that an obligation is, where there are as many parts as obligations of the clause.
fn leaf_of(asked: &Asked, list: &[Obligation], index: usize) -> Option<Leaf> {
    let leaves = asked.leaves.as_ref()?;
    let place = place_among(list, index, &asked.front);
    let behind = count_behind(list, index, &asked.front);
    if place.saturating_add(behind).saturating_add(1) != leaves.len() {
        return None;
    }
    leaves.get(place).copied()
}

fn place_of(site: Site<'_>, asked: &Asked, leaf: Option<Leaf>) -> usize {
    match leaf {
        Some(
            Leaf {
                what: _,
                at: Some(at),
            },
        ) => at,
        _ => site.clause_at(asked.clause),
    }
}
