// What is known of tables and of rules by their types.

ghost use Rattle.std.specs.Prelude.{All};
ghost use Rattle.bk_form.specs.Table.{IsWellFormed};
ghost use Rattle.bk_print.specs.Held.{part_in, parts_in};
ghost use Rattle.bk_print.specs.Readable.{IsNumber};
ghost use Rattle.bk_print.specs.InScope.{MultipleFits, LineFits, PlaceFits, PartFits, PartsFit, RuleFits};

use crate::parts::{Part, Parts, parts_of};
use bk_form::VarTable;
use bk_kernel::{Place, Rule};
use bk_lin::Line;

/// Each table is well formed. It does nothing: callers learn this of the mathematical table.
pub(crate) fn is_formed(types: &VarTable)
    ensures { IsWellFormed types.now }
{
    let _count = types.variables();
}

/// The numbers in rules are within the ranges of their types. It does nothing: callers learn this of the mathematical rules.
pub(crate) fn are_in_range(rules: &[Rule])
    ensures { All RuleFits rules.now }
{
    for rule in rules {
        parts_in_range(parts_of(rule));
    }
}

fn parts_in_range(parts: Parts<'_>)
    ensures { PartsFit (parts_in parts.entry) }
{
    match parts {
        Parts::None => (),
        Parts::One(part) => part_in_range(part),
        Parts::Two(first, second) => {
            part_in_range(first);
            part_in_range(second)
        }
    }
}

fn part_in_range(part: Part<'_>)
    ensures { PartFits (part_in part.entry) }
{
    match part {
        Part::Number(number) => number_in_range(number),
        Part::Place(place) => place_in_range(place),
        Part::Certificate(facts, lines) => {
            numbers_in_range(facts);
            lines_in_range(lines)
        }
        _ => (),
    }
}

fn number_in_range(number: u32)
    ensures { IsNumber number }
{
    let _number = number;
}

fn place_in_range(place: &Place)
    ensures { PlaceFits place.now }
{
    match place {
        Place::Goal(path) => numbers_in_range(path),
        Place::Hyp(number, path) => {
            number_in_range(*number);
            numbers_in_range(path)
        }
    }
}

fn numbers_in_range(numbers: &[u32])
    ensures { All IsNumber numbers.now }
{
    for number in numbers {
        number_in_range(*number);
    }
}

fn lines_in_range(lines: &[Line])
    ensures { All LineFits lines.now }
{
    for line in lines {
        line_in_range(line);
    }
}

fn line_in_range(line: &Line)
    ensures { LineFits line.now }
{
    match line {
        Line::Sum(multiples) => multiples_in_range(multiples),
        Line::Div { fact, by } => multiple_in_range((*by, *fact)),
    }
}

fn multiples_in_range(multiples: &[(i128, u32)])
    ensures { All MultipleFits multiples.now }
{
    for multiple in multiples {
        multiple_in_range(*multiple);
    }
}

fn multiple_in_range(multiple: (i128, u32))
    ensures { MultipleFits multiple }
{
    let _multiple = multiple;
}
