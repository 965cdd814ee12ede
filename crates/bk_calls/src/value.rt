//! The numbers that arguments stand for.
ghost use Rattle.std.specs.Prelude.{◌≡◌, pos, [], position, slice_index_or, map, IfOk};
ghost use Rattle.std.specs.List.{list_all};
ghost use Rattle.std.specs.Option.{option_map};
ghost use Rattle.std.specs.Str.{bytes_eq};
ghost use Rattle.bk_code.specs.Numbers as numbers;
ghost use Rattle.bk_calls.specs.Script.{value_of};
ghost use Rattle.bk_calls.specs.Reading as reading;
ghost use Rattle.bk_calls.specs.Held.{held};

use crate::argument::Argument;
use bk_code::{CellKind, Image, NameText, Parameter};
use std::alloc::{AllocError, Global};

// The place of the first of some names that is that name.
fn place_of(names: &[NameText], name: &[u8]) -> Option<usize>
    ensures { result ≡ position (λ other. bytes_eq other name.now) names.now }
{
    names.iter().position(|other| other.as_slice() == name)
}

// The index of the first element of a set with a name.
fn element(image: &Image, set: u32, name: &[u8]) -> Option<i64>
    ensures { result ≡ option_map pos (position
        (λ other. bytes_eq other name.now) (slice_index_or image.now.sets set [])) }
{
    let names = image.sets.as_slice().get(set as usize)?;
    let place = place_of(names.as_slice(), name)?;
    Some(place as i64)
}

// The number that an argument stands for as a value of that kind.
fn value(image: &Image, kind: CellKind, argument: &Argument<'_>) -> Option<i64>
    ensures { result ≡ value_of image.now kind (held argument.now) }
{
    match (kind, *argument) {
        (CellKind::Integer, Argument::Number(number)) => Some(number),
        (CellKind::Bool, Argument::Truth(truth)) => Some(i64::from(truth)),
        (CellKind::Set(set), Argument::Element(name)) => element(image, set, name),
        _ => None,
    }
}

/// The numbers that arguments stand for, where they are as many as the inputs and of their kinds.
pub fn values(
    alloc: Global,
    image: &Image,
    inputs: &[Parameter],
    arguments: &[Argument<'_>],
) -> Result<Option<Vec<i64>>, AllocError>
    ensures { IfOk result (λ found. option_map (λ values. values.items) found ≡
        reading.values_of image.now inputs.now (map held arguments.now)) }
{
    if arguments.len() != inputs.len() {
        return Ok(None);
    }
    let mut values = Vec::new(alloc);
    for (i, argument) in arguments.iter().enumerate() {
        let Some(value) = value(image, inputs[i].kind, argument) else {
            return Ok(None);
        };
        values.push(value)?;
    }
    Ok(Some(values))
}

fn is_within(max: i64, number: i64) -> bool
    ensures { result ≡ numbers.is_within max number }
{
    let max = i128::from(max);
    let number = i128::from(number);
    -max <= number && number <= max
}

/// Whether numbers lie within the range up to this greatest number.
pub fn are_within(max: i64, values: &[i64]) -> bool
    ensures { result ≡ list_all (numbers.is_within max) values.now }
{
    values.iter().all(|number| is_within(max, *number))
}
