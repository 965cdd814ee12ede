//! Whether names and counts fit the fields that an image has for them.

ghost use Rattle.std.specs.Prelude.{◌↔◌, ◌++◌, ◌∷◌, IsTrue, All, decimal};
ghost use Rattle.bk_form.specs.Table.{element_texts, texts_from};
ghost use Rattle.bk_image.specs.Spelling.{IsCountable, FitsSet, HasFewElements};
ghost use Rattle.bk_gen.specs.Spelled.{FitsHead, FitsFields};

use bk_b0::B0Unit;
use bk_dev::{Body, EnumSet, OpHead};
use bk_io::Text;
use bk_limits::MOST_SETS;
use itoa::Buffer;

/// How many items, and how many bytes of a name, a field can count.
const COUNTED: usize = 65536;

/// Whether sets, elements, operations, inputs and outputs, and their names, fit the fields that count them, and 0 to MAXINT number
/// the elements of each set.
pub(crate) fn fits_fields(unit: &B0Unit) -> bool
    ensures { IsTrue result ↔ FitsFields unit.now }
{
    unit.sets().len() <= MOST_SETS
        && unit.sets().iter().all(|set| elements_fit(set))
        && have_few_elements(unit)
        && unit.heads().len() < COUNTED
        && unit.heads().iter().all(|head| head_fits(head))
        && unit.bodies().iter().all(|body| outputs_fit(body))
}

// Whether 0 to MAXINT number the elements of each set.
fn have_few_elements(unit: &B0Unit) -> bool
    ensures { IsTrue result ↔ All (λ s. HasFewElements unit.now.arrays.max (element_texts s)) unit.now.sets }
{
    unit.sets().iter().all(|set| has_few_elements(unit, set))
}

// Whether 0 to MAXINT number the elements of a set.
#[tactic(auto, using(crate::proofs::ElementTexts::few_numbers, crate::proofs::ElementTexts::few_names))]
fn has_few_elements(unit: &B0Unit, set: &EnumSet) -> bool
    ensures { IsTrue result ↔ HasFewElements unit.now.arrays.max (element_texts set.now) }
{
    let arrays = unit.arrays();
    let most = i128::from(arrays.max()) + 1;
    if set.elements.is_empty() {
        return i128::from(set.size) <= most;
    }
    set.elements.len() as i128 <= most
}

// Whether a set has few enough elements, and the text of each is short enough.
#[tactic(auto, using(crate::proofs::ElementTexts::unwritten, crate::proofs::ElementTexts::written))]
fn elements_fit(set: &EnumSet) -> bool
    ensures { IsTrue result ↔ FitsSet (element_texts set.now) }
{
    if set.elements.is_empty() {
        return numbers_fit(&set.name, set.size);
    }
    names_fit(&set.elements)
}

// Whether there are few enough numbers below the count, and the name with each of them is short enough.
#[tactic(auto, using(crate::proofs::ElementTexts::numbers_long))]
fn numbers_fit(name: &Text, count: u32) -> bool
    ensures { IsTrue result ↔ FitsSet (texts_from name.now 0 count) }
{
    (count as usize) < COUNTED && each_fits(name, count)
}

// Whether a name with each number below the count is short enough.
fn each_fits(name: &Text, count: u32) -> bool
    ensures { IsTrue result ↔ All (λ text. IsCountable text) (texts_from name.now 0 count) }
{
    for number in 0..count {
        if !number_fits(name, number) {
            return false;
        }
    }
    true
}

// Whether a name with this number after it is short enough.
fn number_fits(name: &Text, number: u32) -> bool
    ensures { IsTrue result ↔ IsCountable (name.now ++ 36 ∷ decimal number) }
{
    let mut digits = Buffer::new();
    name.as_bytes().len() + 1 + digits.format(number).len() < COUNTED
}

// Whether there are few enough names, and each is short enough.
fn names_fit(names: &[Text]) -> bool
    ensures { IsTrue result ↔ FitsSet names.now }
{
    names.len() < COUNTED && names.iter().all(|name| name.as_bytes().len() < COUNTED)
}

// Whether the name and the inputs of an operation are few enough.
fn head_fits(head: &OpHead) -> bool
    ensures { IsTrue result ↔ FitsHead head.now }
{
    head.name.as_bytes().len() < COUNTED && head.inputs.len() < COUNTED
}

// Whether there are few enough outputs.
fn outputs_fit(body: &Body) -> bool
    ensures { IsTrue result ↔ IsCountable body.now.outputs }
{
    body.outputs.len() < COUNTED
}
