//! Copies of the parts of a development.

ghost use Rattle.std.specs.Prelude.{◌≡◌, IfOk};

use bk_dev::{Body, EnumSet, Level, OpHead};
use bk_form::Form;
use bk_gsl::Sub;
use bk_io::{Memory, Text};
use std::alloc::Global;

// Values of constants.
pub(crate) fn copied_values(
    alloc: Global,
    values: &[(u32, Form)],
) -> Result<Vec<(u32, Form)>, Memory>
    ensures { IfOk result (λ copies. copies.items ≡ values.now) }
{
    let mut copies = Vec::new(alloc);
    for (constant, value) in values {
        copies.push((*constant, value.copy(alloc)?))?;
    }
    Ok(copies)
}

// Enumerated sets.
pub(crate) fn copied_sets(alloc: Global, sets: &[EnumSet]) -> Result<Vec<EnumSet>, Memory>
    ensures { IfOk result (λ copies. copies.items ≡ sets.now) }
{
    let mut copies = Vec::new(alloc);
    for set in sets {
        copies.push(copied_set(alloc, set)?)?;
    }
    Ok(copies)
}

fn copied_set(alloc: Global, set: &EnumSet) -> Result<EnumSet, Memory>
    ensures { IfOk result (λ copy. copy ≡ set.now) }
{
    Ok(EnumSet {
        name: set.name.copy(alloc)?,
        elements: copied_texts(alloc, &set.elements)?,
        size: set.size,
    })
}

fn copied_texts(alloc: Global, texts: &[Text]) -> Result<Vec<Text>, Memory>
    ensures { IfOk result (λ copies. copies.items ≡ texts.now) }
{
    let mut copies = Vec::new(alloc);
    for text in texts {
        copies.push(text.copy(alloc)?)?;
    }
    Ok(copies)
}

// Headers of operations.
pub(crate) fn copied_heads(alloc: Global, heads: &[OpHead]) -> Result<Vec<OpHead>, Memory>
    ensures { IfOk result (λ copies. copies.items ≡ heads.now) }
{
    let mut copies = Vec::new(alloc);
    for head in heads {
        copies.push(copied_head(alloc, head)?)?;
    }
    Ok(copies)
}

fn copied_head(alloc: Global, head: &OpHead) -> Result<OpHead, Memory>
    ensures { IfOk result (λ copy. copy ≡ head.now) }
{
    Ok(OpHead {
        name: head.name.copy(alloc)?,
        inputs: head.inputs.to_vec(alloc)?,
        outputs: head.outputs,
    })
}

// The initialisation of a level.
pub(crate) fn copied_init(alloc: Global, level: &Level) -> Result<Sub, Memory>
    ensures { IfOk result (λ copy. copy ≡ level.now.init) }
{
    level.init.copy(alloc)
}

// The bodies of a level's operations.
pub(crate) fn copied_bodies(alloc: Global, level: &Level) -> Result<Vec<Body>, Memory>
    ensures { IfOk result (λ copies. copies.items ≡ level.now.bodies) }
{
    each_copied(alloc, &level.bodies)
}

// Bodies of operations.
fn each_copied(alloc: Global, bodies: &[Body]) -> Result<Vec<Body>, Memory>
    ensures { IfOk result (λ copies. copies.items ≡ bodies.now) }
{
    let mut copies = Vec::new(alloc);
    for body in bodies {
        copies.push(copied_body(alloc, body)?)?;
    }
    Ok(copies)
}

fn copied_body(alloc: Global, body: &Body) -> Result<Body, Memory>
    ensures { IfOk result (λ copy. copy ≡ body.now) }
{
    Ok(Body {
        pre: body.pre.copy(alloc)?,
        sub: body.sub.copy(alloc)?,
        outputs: body.outputs.to_vec(alloc)?,
    })
}
