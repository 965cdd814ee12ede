// Names that a script writes with two types.

ghost use Rattle.std.specs.Prelude.{◌≡◌, ◌↔◌, All, IfOk, IsTrue, MatchOption, map};
ghost use Rattle.std.specs.List.{flat_map};
ghost use Rattle.bk_raw.specs.Codes.ScriptView.{part_of};
ghost use Rattle.bk_p_proof.specs.TypedNames.{AreOfOneType, IsSecondType, IsSecondTypeOf, part_names, script_names};

use bk_io::Memory;
use bk_raw::{RawScript, RawType, RawTypeNode, RawTyped, RulePart};
use indexmap::IndexSet;
use std::alloc::Global;

/// The byte where the first name starts that has another type before it in its script.
pub(crate) fn second_type(alloc: Global, scripts: &[RawScript]) -> Result<Option<usize>, Memory>
    ensures { IfOk result (λ r. MatchOption r (All (λ s. AreOfOneType (script_names s)) scripts.now)
        (IsSecondType scripts.now)) }
{
    for script in scripts {
        let names = typed_names(alloc, script)?;
        if let Some(place) = second_of(alloc, &names)? {
            return Ok(Some(place));
        }
    }
    Ok(None)
}

/// The names that a script brings by `fix` and `open`, each with its written type, in order.
pub fn typed_names(alloc: Global, script: &RawScript) -> Result<Vec<&RawTyped>, Memory>
    ensures { IfOk result (λ all. map (λ x. x.now) all.items ≡ script_names script.now) }
{
    let mut all = Vec::new(alloc);
    for rule in &script.rules {
        let mut more = rule_names(alloc, &rule.parts)?;
        all.append(&mut more)?;
    }
    Ok(all)
}

/// The names that parts of a rule bring.
fn rule_names(alloc: Global, parts: &[RulePart]) -> Result<Vec<&RawTyped>, Memory>
    ensures { IfOk result (λ all. map (λ x. x.now) all.items ≡ flat_map part_names (map part_of parts.now)) }
{
    let mut all = Vec::new(alloc);
    for part in parts {
        if let RulePart::Typed(names) = part {
            let mut more = all_of(alloc, names)?;
            all.append(&mut more)?;
        }
    }
    Ok(all)
}

/// Each of the names.
fn all_of(alloc: Global, names: &[RawTyped]) -> Result<Vec<&RawTyped>, Memory>
    ensures { IfOk result (λ all. map (λ x. x.now) all.items ≡ names.now) }
{
    let mut all = Vec::new(alloc);
    for name in names {
        all.push(name)?;
    }
    Ok(all)
}

/// The byte where the first of the names starts that has another type before it.
fn second_of(alloc: Global, names: &[&RawTyped]) -> Result<Option<usize>, Memory>
    ensures { IfOk result (λ r. MatchOption r (AreOfOneType (map (λ x. x.now) names.now))
        (IsSecondTypeOf (map (λ x. x.now) names.now))) }
{
    let mut texts = IndexSet::new(alloc);
    let mut first = Vec::new(alloc);
    for name in names {
        let text = name.name.text.as_bytes();
        match texts.get_index_of(text) {
            Some(index) => {
                let known: &RawTyped = first[index];
                if !same_type(&known.ty, &name.ty) {
                    return Ok(Some(name.name.at));
                }
            }
            None => {
                let copy: Vec<u8> = Vec::from_slice(alloc, text)?;
                texts.insert(copy)?;
                first.push(*name)?;
            }
        }
    }
    Ok(None)
}

/// Whether two types are written alike.
fn same_type(one: &RawType, other: &RawType) -> bool
    ensures { IsTrue result ↔ (one.now ≡ other.now) }
{
    match (&one.node, &other.node) {
        (RawTypeNode::Integer, RawTypeNode::Integer) => true,
        (RawTypeNode::Bool, RawTypeNode::Bool) => true,
        (RawTypeNode::Set(a), RawTypeNode::Set(b)) => a == b,
        (RawTypeNode::Power(a), RawTypeNode::Power(b)) => same_type(a, b),
        (RawTypeNode::Product(a, b), RawTypeNode::Product(c, d)) => {
            same_type(a, c) && same_type(b, d)
        }
        _ => false,
    }
}
