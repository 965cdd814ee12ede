//! Words that are gathered.

use bk_form::{Form, Ty, VarTable};
use bk_io::Memory;
use bk_seq::Sequent;
use bk_show::{show, show_type};
use itoa::Buffer;
use std::alloc::Global;

/// A formula within words has at most so many bytes; of a longer one the front is told.
const MOST_SHOWN: usize = 200;

/// Words that are gathered, in which formulas have the names of a table.
#[derive(Drop)]
pub struct Words<'a> {
    pub alloc: Global,
    pub table: &'a VarTable,
    text: Vec<u8>,
}

impl<'a> Words<'a> {
    pub fn new(alloc: Global, table: &'a VarTable) -> Words<'a> {
        Words {
            alloc,
            table,
            text: Vec::new(alloc),
        }
    }

    /// What is gathered.
    pub fn into_text(self) -> Vec<u8> {
        self.text
    }

    pub fn say(&mut self, words: &[u8]) -> Result<(), Memory> {
        self.text.extend_from_slice(words)?;
        Ok(())
    }

    pub fn number(&mut self, number: usize) -> Result<(), Memory> {
        self.say(Buffer::new().format(number).as_bytes())
    }

    pub fn whole(&mut self, number: i128) -> Result<(), Memory> {
        self.say(Buffer::new().format(number).as_bytes())
    }

    pub fn natural(&mut self, number: u128) -> Result<(), Memory> {
        self.say(Buffer::new().format(number).as_bytes())
    }

    /// A formula, or its front and two dots.
    pub fn form(&mut self, form: &Form) -> Result<(), Memory> {
        let shown = show(self.alloc, form, self.table)?;
        if shown.len() <= MOST_SHOWN {
            return self.say(&shown);
        }
        self.say(front_of(&shown, MOST_SHOWN))?;
        self.say(b" ..")
    }

    pub fn of_type(&mut self, ty: &Ty) -> Result<(), Memory> {
        let shown = show_type(self.alloc, ty, self.table)?;
        self.say(&shown)
    }

    /// `hypothesis 3`.
    pub fn hypothesis(&mut self, number: u32) -> Result<(), Memory> {
        self.say(b"hypothesis ")?;
        self.number(number as usize)
    }

    /// That there is no hypothesis of this number.
    pub(crate) fn no_hypothesis(&mut self, sequent: &Sequent, number: u32) -> Result<(), Memory> {
        if number == 0 {
            return self.say(b"hypotheses count from 1");
        }
        self.say(b"there is no ")?;
        self.hypothesis(number)?;
        self.say(b": there are ")?;
        self.number(sequent.hyps.len())
    }
}

// At most so many bytes of a text, up to the begin of a character.
fn front_of(text: &[u8], most: usize) -> &[u8] {
    let mut end = 0;
    for (index, byte) in text.iter().enumerate() {
        if index <= most && (*byte < 0x80 || *byte >= 0xc0) {
            end = index;
        }
    }
    if end < text.len() { &text[..end] } else { text }
}
