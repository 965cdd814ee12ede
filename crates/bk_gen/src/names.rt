//! The texts of elements, as images list them.

ghost use Rattle.std.specs.Prelude.{◌≡◌, ◌++◌, ◌∷◌, map, decimal, IfOk};
ghost use Rattle.bk_form.specs.Table.{element_texts, texts_from};

use bk_code::{Memory, NameText, NameTexts};
use bk_dev::EnumSet;
use bk_io::Text;
use itoa::Buffer;
use std::alloc::Global;

/// The texts of the elements of each set, in the order of the sets.
pub(crate) fn element_names(alloc: Global, sets: &[EnumSet]) -> Result<Vec<NameTexts>, Memory>
    ensures { IfOk result (λ names. names.items ≡ map element_texts sets.now) }
{
    let mut names = Vec::new(alloc);
    for set in sets {
        names.push(texts_of_set(alloc, set)?)?;
    }
    Ok(names)
}

// The written names of a set's elements; where none are written, the set's name with their numbers.
#[tactic(auto, using(crate::proofs::ElementTexts::unwritten, crate::proofs::ElementTexts::written))]
fn texts_of_set(alloc: Global, set: &EnumSet) -> Result<NameTexts, Memory>
    ensures { IfOk result (λ texts. texts ≡ element_texts set.now) }
{
    if set.elements.is_empty() {
        return numbered_texts(alloc, &set.name, set.size);
    }
    texts_of(alloc, &set.elements)
}

// Copies of names.
fn texts_of(alloc: Global, names: &[Text]) -> Result<NameTexts, Memory>
    ensures { IfOk result (λ copies. copies ≡ names.now) }
{
    let mut copies = Vec::new(alloc);
    for name in names {
        copies.push(NameText::from_vec(Vec::from_slice(alloc, name.as_bytes())?))?;
    }
    Ok(NameTexts::from_vec(copies))
}

// A name with the numbers below the count.
fn numbered_texts(alloc: Global, name: &Text, count: u32) -> Result<NameTexts, Memory>
    ensures { IfOk result (λ texts. texts ≡ texts_from name.now 0 count) }
{
    let mut texts = Vec::new(alloc);
    for number in 0..count {
        texts.push(numbered_text(alloc, name, number)?)?;
    }
    Ok(NameTexts::from_vec(texts))
}

// A name with a number after it.
fn numbered_text(alloc: Global, name: &Text, number: u32) -> Result<NameText, Memory>
    ensures { IfOk result (λ text. text ≡ name.now ++ 36 ∷ decimal number) }
{
    let mut bytes = Vec::from_slice(alloc, name.as_bytes())?;
    bytes.push(b'$')?;
    bytes.extend_from_slice(Buffer::new().format(number).as_bytes())?;
    Ok(NameText::from_vec(bytes))
}
