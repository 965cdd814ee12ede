// Names in scope: what is bound goes in front of the names around it.

ghost use Rattle.std.specs.Prelude.{◌≡◌, ◌++◌, IfOk};
ghost use Rattle.bk_form.specs.Role.{bind};
ghost use Rattle.bk_raw.specs.Meaning.Names.{level_name};
ghost use Rattle.bk_elab_terms.specs.Visible.{visible_names, meaning_of};
ghost use Rattle.bk_statics.specs.Binders.{old_texts};
ghost use Rattle.bk_scope.specs.Shown.{target_shown, numbered_texts};
ghost use Rattle.bk_statics.specs.Typings as meant;

use crate::above::variable_named;
use crate::number::ahead;
use bk_elab_terms::{Standing, Visible};
use bk_io::{Memory, Text};
use bk_raw::RawName;
use itoa::Buffer;
use std::alloc::Global;

/// What a name on the left of a substitution is.
#[derive(Clone, Copy, PartialEq, Eq, Debug)]
pub enum Target {
    /// It is not in scope.
    Unknown,
    /// A set or an element.
    Constant,
    /// The variable of this number.
    Variable(u32),
}

impl Target {
    // The variable, if it is one.
    pub fn variable(self) -> Option<u32>
        ensures { result ≡ meant.as_number (target_shown self) }
    {
        match self {
            Target::Variable(variable) => Some(variable),
            _ => None,
        }
    }

    // The variable's number; that of what is no variable does not matter.
    pub fn number(self) -> u32
        ensures { result ≡ meant.number_of (target_shown self) }
    {
        match self {
            Target::Variable(variable) => variable,
            _ => 0,
        }
    }

    // Whether it is this variable.
    pub fn is_variable(self, variable: u32) -> bool
        ensures { result ≡ meant.is_variable variable (target_shown self) }
    {
        match self {
            Target::Variable(number) => number == variable,
            _ => false,
        }
    }
}

// What a name is, where it is written to: the first with its text is meant.
pub fn target_named(names: &[Visible<'_>], text: &[u8]) -> Target
    ensures { target_shown result ≡ meant.target (visible_names names.now) text.now }
{
    for name in names {
        if name.text == text {
            return target_of(name.meaning);
        }
    }
    Target::Unknown
}

// What a meaning is, where its name is written to.
fn target_of(meaning: Standing) -> Target
    ensures { target_shown result ≡ meant.target_in (meaning_of meaning) }
{
    match meaning {
        Standing::Variable(variable) => Target::Variable(variable),
        _ => Target::Constant,
    }
}

// The variable of this name, if it is one's.
pub fn variable_of(names: &[Visible<'_>], text: &[u8]) -> Option<u32>
    ensures { result ≡ meant.variable_named (visible_names names.now) text.now }
{
    target_named(names, text).variable()
}

/// The set of this name, if it is one's: the first with its text is meant.
pub fn set_named(names: &[Visible<'_>], text: &[u8]) -> Option<u32>
    ensures { result ≡ meant.set_named (visible_names names.now) text.now }
{
    for name in names {
        if name.text == text {
            return set_of(name.meaning);
        }
    }
    None
}

// The set that a meaning is, if it is one.
fn set_of(meaning: Standing) -> Option<u32>
    ensures { result ≡ meant.set_in (meaning_of meaning) }
{
    match meaning {
        Standing::Set(set) => Some(set),
        _ => None,
    }
}

// The names of a list that a binder binds go in front of those around: they have the numbers from this one on, and the
// last is innermost.
pub fn bound<'a>(
    alloc: Global,
    first: u32,
    bound: &'a [RawName],
    around: &[Visible<'a>],
) -> Result<Vec<Visible<'a>>, Memory>
    ensures { IfOk result (λ names. visible_names names.items ≡
        bind (meant.numbered first bound.now) (visible_names around.now)) }
{
    let mut names = Vec::new(alloc);
    let mut index = bound.len();
    while index > 0 {
        index -= 1;
        let number = ahead(first, index)?;
        names.push(variable_named(bound[index].text.as_bytes(), number))?;
    }
    names.extend_from_slice(around)?;
    Ok(names)
}

// The same of names that stand for others, as inputs do.
pub fn bound_as<'a>(
    alloc: Global,
    bound: &[Visible<'a>],
    around: &[Visible<'a>],
) -> Result<Vec<Visible<'a>>, Memory>
    ensures { IfOk result (λ names. visible_names names.items ≡ bind (visible_names bound.now) (visible_names around.now)) }
{
    let mut names = Vec::new(alloc);
    let mut index = bound.len();
    while index > 0 {
        index -= 1;
        names.push(bound[index])?;
    }
    names.extend_from_slice(around)?;
    Ok(names)
}

// These names, which hide the others.
pub fn joined<'a>(
    alloc: Global,
    own: &[Visible<'a>],
    around: &[Visible<'a>],
) -> Result<Vec<Visible<'a>>, Memory>
    ensures { IfOk result (λ names. visible_names names.items ≡ visible_names own.now ++ visible_names around.now) }
{
    let mut names = Vec::from_slice(alloc, own)?;
    names.extend_from_slice(around)?;
    Ok(names)
}

// The texts `x$0` of names.
pub fn old_texts(alloc: Global, names: &[RawName]) -> Result<Vec<Text>, Memory>
    ensures { IfOk result (λ found. found.items ≡ old_texts names.now) }
{
    let mut found = Vec::new(alloc);
    for name in names {
        found.push(at_level(alloc, name.text.as_bytes(), 0)?)?;
    }
    Ok(found)
}

// A name at a level, which is written with a dollar sign and the level's number after it.
pub fn at_level(alloc: Global, name: &[u8], level: u32) -> Result<Text, Memory>
    ensures { IfOk result (λ text. text ≡ level_name name.now level) }
{
    let mut text = Vec::from_slice(alloc, name)?;
    text.push(b'$')?;
    text.extend_from_slice(Buffer::new().format(level).as_bytes())?;
    Ok(Text::from_bytes(text))
}

// The old values of written variables go in front of the names around; these are their texts.
pub fn bound_texts<'a>(
    alloc: Global,
    first: u32,
    bound: &'a [Text],
    around: &[Visible<'a>],
) -> Result<Vec<Visible<'a>>, Memory>
    ensures { IfOk result (λ names. visible_names names.items ≡
        bind (numbered_texts first bound.now) (visible_names around.now)) }
{
    let mut names = Vec::new(alloc);
    let mut index = bound.len();
    while index > 0 {
        index -= 1;
        let number = ahead(first, index)?;
        names.push(variable_named(bound[index].as_bytes(), number))?;
    }
    names.extend_from_slice(around)?;
    Ok(names)
}
