//! What parts of goals ask, in words.

use crate::clause::{Clause, Site};
use crate::defined::{defined_words, fitting_words};
use crate::leaf::{Leaf, What};
use bk_dev::Kind;
use bk_form::Form;
use bk_io::Memory;
use itoa::Buffer;

impl Site<'_> {
    /// What an obligation of a clause asks: of a part of its goal where that is known, else by the goal's form.
    pub(crate) fn words(
        &self,
        clause: Clause,
        leaf: Option<Leaf>,
        goal: &Form,
    ) -> Result<Vec<u8>, Memory> {
        let mut words = Vec::new(self.alloc);
        if self.asks_definedness(clause) {
            words.extend_from_slice(self.asked_words(clause, goal))?;
            self.say_where(&mut words, clause)?;
            return Ok(words);
        }
        match leaf {
            Some(leaf) => self.say_leaf(&mut words, clause, leaf)?,
            None => self.say_clause(&mut words, clause)?,
        }
        Ok(words)
    }

    fn asks_definedness(&self, clause: Clause) -> bool {
        matches!(
            clause,
            Clause::PropertiesDefined
                | Clause::InvariantDefined
                | Clause::AssertionsDefined
                | Clause::InitialisationDefined
                | Clause::OperationDefined(_)
        )
    }

    // What a goal asks that something is defined, or fits the machine.
    fn asked_words(&self, clause: Clause, goal: &Form) -> &'static [u8] {
        if self.asks_fitting(clause) {
            fitting_words(goal, self.dev.int_max())
        } else {
            defined_words(goal)
        }
    }

    // Whether a clause of an implementation asks that what is executed fits the machine.
    fn asks_fitting(&self, clause: Clause) -> bool {
        let level = self.level;
        match clause {
            Clause::InitialisationDefined | Clause::OperationDefined(_) => {
                level.kind == Kind::Implementation
            }
            _ => false,
        }
    }

    // ` in take`, ` in the invariant`.
    fn say_where(&self, words: &mut Vec<u8>, clause: Clause) -> Result<(), Memory> {
        words.extend_from_slice(b" in ")?;
        self.say_site(words, clause)
    }

    // `take`, `the invariant`.
    fn say_site(&self, words: &mut Vec<u8>, clause: Clause) -> Result<(), Memory> {
        match clause {
            Clause::PropertiesDefined => words.extend_from_slice(b"the properties")?,
            Clause::Values => words.extend_from_slice(b"the values")?,
            Clause::InvariantDefined => words.extend_from_slice(b"the invariant")?,
            Clause::AssertionsDefined | Clause::Assertions => {
                words.extend_from_slice(b"the assertions")?;
            }
            Clause::Initialisation | Clause::InitialisationDefined => {
                words.extend_from_slice(b"the initialisation")?;
            }
            Clause::Operation(operation) | Clause::OperationDefined(operation) => {
                words.extend_from_slice(self.operation_name(operation))?;
            }
        }
        Ok(())
    }

    // What a clause asks as a whole.
    fn say_clause(&self, words: &mut Vec<u8>, clause: Clause) -> Result<(), Memory> {
        match clause {
            Clause::Values => words.extend_from_slice(
                b"the values of the constants satisfy the properties",
            )?,
            Clause::Assertions => words.extend_from_slice(
                b"an assertion follows from those before it",
            )?,
            Clause::Initialisation => self.say_start(words)?,
            _ => self.say_operation(words, clause)?,
        }
        Ok(())
    }

    fn say_start(&self, words: &mut Vec<u8>) -> Result<(), Memory> {
        words.extend_from_slice(if self.number == 0 {
            b"the initialisation establishes the invariant"
        } else {
            b"the initialisation refines the one above, and establishes the invariant"
        })?;
        Ok(())
    }

    fn say_operation(&self, words: &mut Vec<u8>, clause: Clause) -> Result<(), Memory> {
        if let Clause::Operation(operation) = clause {
            words.extend_from_slice(self.operation_name(operation))?;
        }
        words.extend_from_slice(if self.number == 0 {
            b" preserves the invariant"
        } else {
            b" refines the operation above, and preserves the invariant"
        })?;
        Ok(())
    }

    // What a part of a goal asks.
    fn say_leaf(&self, words: &mut Vec<u8>, clause: Clause, leaf: Leaf) -> Result<(), Memory> {
        match leaf.what {
            What::Conjunct(number) => self.say_conjunct(words, clause, number),
            What::Linked(variable, above) => self.say_linked(words, clause, variable, above),
            What::Output(number) => self.say_output(words, clause, number),
            What::Condition => self.say_with(
                words,
                b"a condition of PRE, ASSERT or SELECT holds",
                clause,
            ),
            What::AtFirst => { self.say_with(words, b"loop: the invariant holds on entry", clause) }
            What::Kept => self.say_with(words, b"loop: the body preserves the invariant", clause),
            What::Natural => {
                self.say_with(words, b"loop: the variant is a natural number", clause)
            }
            What::Falls => self.say_with(words, b"loop: the variant falls", clause),
            What::Behind => self.say_with(words, b"loop: what follows holds on exit", clause),
            What::Whole => self.say_clause(words, clause),
        }
    }

    fn say_with(&self, words: &mut Vec<u8>, text: &[u8], clause: Clause) -> Result<(), Memory> {
        words.extend_from_slice(text)?;
        self.say_where(words, clause)
    }

    // `output 1 of count equals the one above`.
    fn say_output(&self, words: &mut Vec<u8>, clause: Clause, number: usize) -> Result<(), Memory> {
        words.extend_from_slice(b"output ")?;
        words.extend_from_slice(Buffer::new().format(number).as_bytes())?;
        words.extend_from_slice(b" of ")?;
        self.say_site(words, clause)?;
        words.extend_from_slice(b" equals the one above")?;
        Ok(())
    }

    // `invariant conjunct 3 is preserved by take`.
    fn say_conjunct(
        &self,
        words: &mut Vec<u8>,
        clause: Clause,
        number: usize,
    ) -> Result<(), Memory> {
        words.extend_from_slice(match clause {
            Clause::Assertions => b"assertion ",
            _ => b"invariant conjunct ",
        })?;
        words.extend_from_slice(Buffer::new().format(number).as_bytes())?;
        match clause {
            Clause::Assertions => words.extend_from_slice(b" follows from those before it")?,
            Clause::Operation(operation) => {
                words.extend_from_slice(b" is preserved by ")?;
                words.extend_from_slice(self.operation_name(operation))?;
            }
            _ => words.extend_from_slice(b" is established by the initialisation")?,
        }
        Ok(())
    }

    // `stock$1 = stock$0 after take`.
    fn say_linked(
        &self,
        words: &mut Vec<u8>,
        clause: Clause,
        variable: u32,
        above: u32,
    ) -> Result<(), Memory> {
        self.say_variable(words, variable)?;
        words.extend_from_slice(b" = ")?;
        self.say_variable(words, above)?;
        words.extend_from_slice(b" after ")?;
        self.say_site(words, clause)
    }

    fn say_variable(&self, words: &mut Vec<u8>, variable: u32) -> Result<(), Memory> {
        let dev = self.dev;
        match dev.table.text(variable) {
            Some(text) => words.extend_from_slice(text.as_bytes())?,
            None => words.extend_from_slice(b"a variable")?,
        }
        Ok(())
    }
}
