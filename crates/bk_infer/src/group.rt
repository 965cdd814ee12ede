// Groups of names, whose types the conjuncts of one predicate give.

ghost use Rattle.std.specs.Option.{option_copied, option_map};
ghost use Rattle.std.specs.Prelude.{◌≡◌, IfOk, OnOk};
ghost use Rattle.bk_elab_terms.specs.Visible.{visible_names};
ghost use Rattle.bk_statics.specs.Ways.{ways_by};
ghost use Rattle.bk_infer.specs.Listed.{ListsMore};
ghost use Rattle.bk_scope.specs.Shown.{refs, way_shown, member_shown, IsGroupOf};

use bk_elab_terms::Visible;
use bk_io::Memory;
use bk_raw::{RawName, RawTerm};
use bk_scope::way::{Group, Way};
use std::alloc::Global;
use std::rc::Rc;

// The ways of a group of names by a predicate, if there is one.
pub fn push_by<'a>(
    alloc: Global,
    around: &[Visible<'a>],
    predicate: Option<&'a RawTerm>,
    names: &[&'a RawName],
    found: &mut Vec<Way<'a>>,
) -> Result<(), Memory>
    ensures { OnOk result (ListsMore found.old.items
        (ways_by (visible_names around.now) (option_copied predicate.entry) (refs names.now)) found.new.items) }
{
    let group = group_by(alloc, around, predicate, names)?;
    for place in 0..names.len() {
        found.push(member(&group, place)?)?;
    }
    Ok(())
}

// The group of names whose types a predicate gives, if there is a predicate.
pub fn group_by<'a>(
    alloc: Global,
    around: &[Visible<'a>],
    predicate: Option<&'a RawTerm>,
    names: &[&'a RawName],
) -> Result<Option<Rc<Group<'a>>>, Memory>
    ensures { IfOk result (λ group. IsGroupOf (option_map (λ g. g.value) group) (visible_names around.now) (option_copied predicate.entry) (refs names.now)) }
{
    let Some(predicate) = predicate else {
        return Ok(None);
    };
    let group = Group {
        around: Vec::from_slice(alloc, around)?,
        names: Vec::from_slice(alloc, names)?,
        predicate,
    };
    Ok(Some(Rc::new(alloc, group)?))
}

// The way of the name at a place of a group, if there is one.
pub fn member<'a>(group: &Option<Rc<Group<'a>>>, place: usize) -> Result<Way<'a>, Memory>
    ensures { IfOk result (λ way. way_shown way ≡ member_shown (option_map (λ g. g.value) group.now) place) }
{
    match group {
        Some(group) => Ok(Way::Conjuncts(group.clone()?, place)),
        None => Ok(Way::Nowhere),
    }
}
