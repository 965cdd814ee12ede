// The types of all numbers, each by its way.

ghost use Rattle.std.specs.Prelude.{◌≡◌, ◌+◌, ◌<◌, ◌≤◌, ◌&&◌, not, length, map, take, false, IfOk};
ghost use Rattle.bk_raw.specs.Meaning.Binders.{has_type};
ghost use Rattle.bk_elab_terms.specs.Visible.{typing_of};
ghost use Rattle.bk_statics.specs.Components.{or_next};
ghost use Rattle.bk_scope.specs.Shown.{way_shown};
ghost use Rattle.bk_statics.specs.Ways as meant;
ghost use Rattle.bk_infer.specs.Told.{AreTold, IsKept};

use crate::same::is_same_group;
use bk_form::Ty;
use bk_io::Memory;
use bk_scope::way::{Group, Typing, Way};
use std::alloc::Global;

// The types that the conjuncts of a predicate give to the names of a group.
#[derive(Drop)]
struct Told<'g, 'a> {
    group: &'g Group<'a>,
    types: Vec<Option<Ty>>,
}

// The types after a round, and whether it has added one.
#[derive(Drop)]
struct Round {
    types: Vec<Option<Ty>>,
    has_added: bool,
}

/// The types of all numbers, those after these numbers having these ways. Rounds go on while one adds a type: a name
/// may be typed by one that is typed later in the text.
pub fn settled(
    alloc: Global,
    max: i64,
    known: Vec<Option<Ty>>,
    ways: &[Way<'_>],
) -> Result<Vec<Option<Ty>>, Memory>
    ensures { IfOk result (λ types. typing_of types.items ≡
        meant.settled max (length known.items) (map way_shown ways.now) (typing_of known.items)) }
{
    let first = known.len();
    let mut types = with_room(known, ways)?;
    for _ in 0..ways.len() {
        let typing = Typing {
            alloc,
            max,
            types: &types,
        };
        let round = next_round(typing, first, ways)?;
        if !round.has_added {
            return Ok(types);
        }
        types = round.types;
    }
    Ok(types)
}

// The types, and none for each of the ways.
fn with_room(mut types: Vec<Option<Ty>>, ways: &[Way<'_>]) -> Result<Vec<Option<Ty>>, Memory>
    ensures types { IfOk result (λ ts. typing_of ts.items ≡ typing_of types.items) }
    ensures room { IfOk result (λ ts. length ts.items ≡ length types.items + length ways.now) }
{
    for _ in ways {
        types.push(None)?;
    }
    Ok(types)
}

// The types after one round more: each number from this one on that has no type yet gets the one that its way gives.
fn next_round(typing: Typing<'_>, first: usize, ways: &[Way<'_>]) -> Result<Round, Memory>
    requires { length typing.types.now ≡ first + length ways.now }
    ensures next { IfOk result (λ r. typing_of r.types.items ≡
        meant.next_types typing.entry.max first (map way_shown ways.now) (typing_of typing.entry.types.now)) }
    ensures room { IfOk result (λ r. length r.types.items ≡ first + length ways.now) }
    ensures same { IfOk result (λ r. r.has_added ≡ false → typing_of r.types.items ≡ typing_of typing.entry.types.now) }
{
    let mut round = Round {
        types: copies(typing, first)?,
        has_added: false,
    };
    let mut last = None;
    for (index, way) in ways.iter().enumerate() {
        let next = next_type(typing, first + index, way, &mut last)?;
        round.has_added = round.has_added || is_new(typing, first + index, &next);
        round.types.push(next)?;
    }
    Ok(round)
}

// The first so many types.
fn copies(typing: Typing<'_>, count: usize) -> Result<Vec<Option<Ty>>, Memory>
    requires { count ≤ length typing.types.now }
    ensures { IfOk result (λ types. types.items ≡ take count typing.entry.types.now) }
{
    let mut found = Vec::new(typing.alloc);
    for ty in &typing.types[..count] {
        found.push(copy_of(typing.alloc, ty)?)?;
    }
    Ok(found)
}

// The same type again, if there is one.
fn copy_of(alloc: Global, ty: &Option<Ty>) -> Result<Option<Ty>, Memory>
    ensures { IfOk result (λ t. t ≡ ty.now) }
{
    match ty {
        Some(ty) => Ok(Some(ty.copy(alloc)?)),
        None => Ok(None),
    }
}

// The type that a number has, or else the one that its way gives.
fn next_type<'g, 'a>(
    typing: Typing<'_>,
    number: usize,
    way: &'g Way<'a>,
    last: &mut Option<Told<'g, 'a>>,
) -> Result<Option<Ty>, Memory>
    requires number { number < length typing.types.now }
    requires told { IsKept typing.max (typing_of typing.types.now) last.now }
    ensures next { IfOk result (λ t. t ≡ or_next (typing_of typing.entry.types.now number)
        (meant.given_by typing.entry.max (typing_of typing.entry.types.now) (way_shown way.now))) }
    ensures told { IsKept typing.entry.max (typing_of typing.entry.types.now) last.new }
{
    match &typing.types[number] {
        Some(ty) => Ok(Some(ty.copy(typing.alloc)?)),
        None => given(typing, way, last),
    }
}

// The type that a way gives. What is told of a group is kept for the names after, which mostly are of the same group.
fn given<'g, 'a>(
    typing: Typing<'_>,
    way: &'g Way<'a>,
    last: &mut Option<Told<'g, 'a>>,
) -> Result<Option<Ty>, Memory>
    requires { IsKept typing.max (typing_of typing.types.now) last.now }
    ensures given { IfOk result (λ t. t ≡
        meant.given_by typing.entry.max (typing_of typing.entry.types.now) (way_shown way.now)) }
    ensures told { IsKept typing.entry.max (typing_of typing.entry.types.now) last.new }
{
    let Way::Conjuncts(group, place) = way else {
        return typing.given(way);
    };
    let told = told_of(typing, group, last.take())?;
    let ty = type_at(typing.alloc, &told.types, *place)?;
    *last = Some(told);
    Ok(ty)
}

// What is told of a group, which is read unless it is the same as the last one.
fn told_of<'g, 'a>(
    typing: Typing<'_>,
    group: &'g Group<'a>,
    last: Option<Told<'g, 'a>>,
) -> Result<Told<'g, 'a>, Memory>
    requires { IsKept typing.max (typing_of typing.types.now) last }
    ensures group { IfOk result (λ t. t.group.now ≡ group.now) }
    ensures told { IfOk result (λ t. AreTold typing.entry.max (typing_of typing.entry.types.now) group.now t.types.items) }
{
    if let Some(told) = last {
        if is_same_group(told.group, group) {
            return Ok(Told {
                group,
                types: told.types,
            });
        }
    }
    let types = typing
        .under(&group.around)
        .typed_by(&group.names, group.predicate)?;
    Ok(Told { group, types })
}

// The type at a place, if there is one.
fn type_at(alloc: Global, types: &[Option<Ty>], place: usize) -> Result<Option<Ty>, Memory>
    ensures { IfOk result (λ t. t ≡ typing_of types.now place) }
{
    match types.get(place) {
        Some(ty) => copy_of(alloc, ty),
        None => Ok(None),
    }
}

// Whether there is a type that the number did not have.
fn is_new(typing: Typing<'_>, number: usize, next: &Option<Ty>) -> bool
    requires { number < length typing.types.now }
    ensures { result ≡ (has_type next.now && not (has_type (typing_of typing.entry.types.now number))) }
{
    next.is_some() && typing.types[number].is_none()
}
