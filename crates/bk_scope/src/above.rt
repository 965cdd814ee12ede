// What stands above a component, and the names that it leaves in scope.

ghost use Rattle.std.specs.Option.{option_copied};
ghost use Rattle.std.specs.Prelude.{◌≡◌, ◌++◌, ◌∷◌, [], ◌≤◌, ◌^◌, length, map, IfOk, OnOk, Some};
ghost use Rattle.bk_form.specs.Table.{listed_size};
ghost use Rattle.bk_dev.specs.Facts.{home_of};
ghost use Rattle.bk_dev.specs.Development.{last};
ghost use Rattle.bk_raw.specs.Meaning.Names.{set_name, element_name};
ghost use Rattle.bk_raw.specs.Meaning.ScopeReading.{set_names, element_names};
ghost use Rattle.bk_elab_terms.specs.Visible.{visible_names};
ghost use Rattle.bk_statics.specs.Above as meant;
ghost use Rattle.bk_statics.specs.Binders.{texts};
ghost use Rattle.bk_statics.specs.Plan.{entries_of};
ghost use Rattle.bk_scope.specs.Shown.{above_shown, constant_at, set_at};
ghost use Rattle.bk_statics.specs.Typings.{as_variable};

use crate::number::ahead;
use bk_dev::{Development, Home, Level, OpHead};
use bk_elab_terms::{Standing, Visible};
use bk_form::Ty;
use bk_io::{Memory, Text};
use bk_raw::{RawName, RawSet};
use itoa::Buffer;
use std::alloc::Global;

/// What stands above a component: nothing above a machine.
#[derive(Clone, Copy)]
pub struct Above<'a> {
    pub development: Option<&'a Development>,
}

impl<'a> Above<'a> {
    // The levels, the machine's first.
    pub fn levels(&self) -> &'a [Level]
        ensures { result.now ≡ (above_shown self.now).levels }
    {
        match self.development {
            Some(development) => &development.levels,
            None => &[],
        }
    }

    // The headers of the operations.
    pub fn heads(&self) -> &'a [OpHead]
        ensures { result.now ≡ (above_shown self.now).heads }
    {
        match self.development {
            Some(development) => &development.heads,
            None => &[],
        }
    }

    // How many sets there are.
    pub fn sets(&self) -> usize
        ensures value { result ≡ length (above_shown self.now).table.sets }
        ensures few { result ≤ 2 ^ 32 }
    {
        match self.development {
            Some(development) => development.table.sets(),
            None => 0,
        }
    }

    /// How many elements a set has; 0 where it has no size.
    pub fn size(&self, set: u32) -> u32
        ensures { result ≡ listed_size (above_shown self.now).table set }
    {
        match self.development {
            Some(development) => development.table.size(set),
            None => 0,
        }
    }

    // How many variables there are.
    pub fn variables(&self) -> usize
        ensures value { result ≡ length (above_shown self.now).table.variables }
        ensures few { result ≤ 2 ^ 32 }
    {
        match self.development {
            Some(development) => development.table.variables(),
            None => 0,
        }
    }

    // How a variable is written.
    pub fn text(&self, variable: u32) -> &'a [u8]
        ensures { result.now ≡ meant.text_of (above_shown self.now).table variable }
    {
        let Some(development) = self.development else {
            return &[];
        };
        match development.table.text(variable) {
            Some(text) => text.as_bytes(),
            None => &[],
        }
    }

    // The type of a variable.
    pub fn ty(&self, variable: u32) -> Option<&'a Ty>
        ensures { option_copied result ≡ meant.known (above_shown self.now) variable }
    {
        let development = self.development?;
        development.table.ty(variable)
    }

    // Where a variable is at home.
    pub fn home(&self, variable: u32) -> Option<Home>
        ensures { result ≡ home_of (above_shown self.now) variable }
    {
        let development = self.development?;
        development.homes.get(variable as usize).copied()
    }

    // Whether a variable is concrete.
    pub fn is_concrete(&self, variable: u32) -> bool
        ensures { result ≡ meant.is_concrete (home_of (above_shown self.now) variable) }
    {
        matches!(self.home(variable), Some(Home::Concrete(_)))
    }

    // The types of all variables, by their numbers.
    pub fn types(&self, alloc: Global) -> Result<Vec<Option<Ty>>, Memory>
        ensures { IfOk result (λ types. types.items ≡ map (λ v. Some v.of_type) (above_shown self.now).table.variables) }
    {
        let mut types = Vec::new(alloc);
        for number in 0..self.variables() {
            types.push(self.type_of(alloc, number as u32)?)?;
        }
        Ok(types)
    }

    // A copy of a variable's type.
    fn type_of(&self, alloc: Global, variable: u32) -> Result<Option<Ty>, Memory>
        ensures { IfOk result (λ ty. ty ≡ meant.known (above_shown self.now) variable) }
    {
        match self.ty(variable) {
            Some(ty) => Ok(Some(ty.copy(alloc)?)),
            None => Ok(None),
        }
    }

    // The sets, elements and constants of all levels.
    pub fn globals(&self, alloc: Global) -> Result<Vec<Visible<'a>>, Memory>
        ensures { IfOk result (λ names. visible_names names.items ≡ meant.globals_of (above_shown self.now)) }
    {
        let mut names = Vec::new(alloc);
        for set in 0..self.sets() {
            self.push_set(&mut names, set as u32)?;
        }
        self.push_constants(&mut names)?;
        Ok(names)
    }

    // A set with its elements goes after the names.
    fn push_set(&self, names: &mut Vec<Visible<'a>>, set: u32) -> Result<(), Memory>
        ensures { OnOk result (visible_names names.new.items ≡
            visible_names names.old.items ++ set_at set (above_shown self.now).table.sets) }
    {
        let Some(development) = self.development else {
            return Ok(());
        };
        let Some(name) = development.table.set_name(set) else {
            return Ok(());
        };
        let Some(elements) = development.table.elements(set) else {
            return Ok(());
        };
        push_set_name(names, set, name.as_bytes())?;
        push_elements(names, set, elements)?;
        Ok(())
    }

    // The constants go after the names.
    fn push_constants(&self, names: &mut Vec<Visible<'a>>) -> Result<(), Memory>
        ensures { OnOk result (visible_names names.new.items ≡ visible_names names.old.items ++
            meant.constants_from 0 (above_shown self.now).homes (above_shown self.now).table.variables) }
    {
        for number in 0..self.variables() {
            let number = number as u32;
            let Some(home) = self.home(number) else {
                return Ok(());
            };
            self.push_constant(names, number, home)?;
        }
        Ok(())
    }

    // The name of a constant goes after the names; other homes give none.
    fn push_constant(
        &self,
        names: &mut Vec<Visible<'a>>,
        number: u32,
        home: Home,
    ) -> Result<(), Memory>
        ensures { OnOk result (visible_names names.new.items ≡ visible_names names.old.items ++
            constant_at home (meant.text_of (above_shown self.now).table number) number) }
    {
        match home {
            Home::Constant => {
                names.push(variable_named(self.text(number), number))?;
                Ok(())
            }
            _ => Ok(()),
        }
    }

    // The number of the last level.
    fn last(&self) -> usize
        ensures { result ≡ last (above_shown self.now) }
    {
        self.levels().len().saturating_sub(1)
    }

    // The variables of the last level, by their names.
    pub fn upper(&self, alloc: Global) -> Result<Vec<Visible<'a>>, Memory>
        ensures { IfOk result (λ names. visible_names names.items ≡ meant.upper_of (above_shown self.now)) }
    {
        let last = self.last();
        match self.levels().get(last) {
            Some(level) => self.names_at(alloc, last, &level.vars),
            None => Ok(Vec::new(alloc)),
        }
    }

    // These variables of a level, by their names.
    pub fn names_at(
        &self,
        alloc: Global,
        level: usize,
        variables: &[u32],
    ) -> Result<Vec<Visible<'a>>, Memory>
        ensures { IfOk result (λ names. visible_names names.items ≡
            meant.names_at_level level (above_shown self.now).table variables.now) }
    {
        let mut names = Vec::new(alloc);
        for variable in variables {
            let name = stem(level, self.text(*variable));
            names.push(variable_named(name, *variable))?;
        }
        Ok(names)
    }

    // These inputs, by their names.
    pub fn inputs(&self, alloc: Global, inputs: &[u32]) -> Result<Vec<Visible<'a>>, Memory>
        ensures { IfOk result (λ names. visible_names names.items ≡
            meant.inputs_named (above_shown self.now).table inputs.now) }
    {
        let mut names = Vec::new(alloc);
        for input in inputs {
            names.push(variable_named(self.text(*input), *input))?;
        }
        Ok(names)
    }

    // The machine's outputs of an operation, by their names.
    pub fn outputs(&self, alloc: Global, operation: usize) -> Result<Vec<Visible<'a>>, Memory>
        ensures { IfOk result (λ names. visible_names names.items ≡
            meant.outputs_named (above_shown self.now) operation) }
    {
        let Some(machine) = self.levels().first() else {
            return Ok(Vec::new(alloc));
        };
        match machine.bodies.get(operation) {
            Some(body) => self.names_at(alloc, 0, &body.outputs),
            None => Ok(Vec::new(alloc)),
        }
    }
}

// A variable's name.
pub fn variable_named(text: &[u8], variable: u32) -> Visible<'_>
    ensures { visible_names (result ∷ []) ≡ as_variable text.now variable ∷ [] }
{
    Visible {
        text,
        meaning: Standing::Variable(variable),
    }
}

// The name x of `x$k`: the text without as many bytes as `$k` has.
fn stem(level: usize, text: &[u8]) -> &[u8]
    ensures { result.now ≡ meant.stem level text.now }
{
    let mut digits = Buffer::new();
    let behind = digits.format(level).len() + 1;
    &text[..text.len().saturating_sub(behind)]
}

// A set's name goes after the names.
fn push_set_name<'a>(names: &mut Vec<Visible<'a>>, set: u32, text: &'a [u8]) -> Result<(), Memory>
    ensures { OnOk result (visible_names names.new.items ≡
        visible_names names.old.items ++ record { text = text.now; meaning = set_name set } ∷ []) }
{
    names.push(Visible {
        text,
        meaning: Standing::Set(set),
    })?;
    Ok(())
}

// A set's elements go after the names.
fn push_elements<'a>(
    names: &mut Vec<Visible<'a>>,
    set: u32,
    elements: &'a [Text],
) -> Result<(), Memory>
    ensures { OnOk result (visible_names names.new.items ≡
        visible_names names.old.items ++ element_names set 0 elements.now) }
{
    for (index, element) in elements.iter().enumerate() {
        push_element(names, set, index, element)?;
    }
    Ok(())
}

// An element goes after the names.
fn push_element<'a>(
    names: &mut Vec<Visible<'a>>,
    set: u32,
    index: usize,
    element: &'a Text,
) -> Result<(), Memory>
    ensures { OnOk result (visible_names names.new.items ≡
        visible_names names.old.items ++ record { text = element.now; meaning = element_name set index } ∷ []) }
{
    let Ok(index) = u32::try_from(index) else {
        return Err(Memory);
    };
    names.push(Visible {
        text: element.as_bytes(),
        meaning: Standing::Element { set, index },
    })?;
    Ok(())
}

// The component's sets, whose first has this number, each with its elements, go after the names.
pub fn push_written_sets<'a>(
    names: &mut Vec<Visible<'a>>,
    first: u32,
    sets: &[&'a RawSet],
) -> Result<(), Memory>
    ensures { OnOk result (visible_names names.new.items ≡
        visible_names names.old.items ++ set_names first (entries_of (map (λ s. s.now) sets.now))) }
{
    for (index, set) in sets.iter().enumerate() {
        let number = ahead(first, index)?;
        push_set_name(names, number, set.name.text.as_bytes())?;
        push_written_elements(names, number, &set.elements)?;
    }
    Ok(())
}

// A written set's elements go after the names.
fn push_written_elements<'a>(
    names: &mut Vec<Visible<'a>>,
    set: u32,
    elements: &'a [RawName],
) -> Result<(), Memory>
    ensures { OnOk result (visible_names names.new.items ≡
        visible_names names.old.items ++ element_names set 0 (texts elements.now)) }
{
    for (index, element) in elements.iter().enumerate() {
        push_element(names, set, index, &element.text)?;
    }
    Ok(())
}
