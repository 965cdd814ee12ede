// Substitutions as texts, as in `PRE ( x = 1 ) THEN x := 2 END`.
//
// Keywords, `;` and `||` stand between blanks, and formulas are those of `bk_tests_notation`. `;` and `||` join to the left, and
// `BEGIN` and `END` stand round what is joined first. Each `IF` has its `ELSE`. In `x, y := y, x` and `z :( z = x )` commas
// stand between variables and between terms.

ghost use Rattle.std.specs.Prelude.{IfOk};
ghost use Rattle.bk_gsl.specs.Flat.{IsFlat};

use bk_form::{Form, VarTable};
use bk_gsl::Sub;
use bk_io::Memory;
use bk_par::flatten;
use bk_tests_notation::{Unread, formula, table_of};
use std::alloc::Global;
use std::test::Fail;

// The whole numbers x, y and z, the truth value p, and the array a of whole numbers. Each capital letter stands for the old value
// of the small one.
const LETTERS: &str = "xyzpXYZPa";

// Their types.
pub(crate) const TYPES: [&str; 9] = ["i", "i", "i", "b", "i", "i", "i", "b", "PXii"];

// The number of an old value is so much greater than that of its variable.
const OLD: u32 = 4;

pub(crate) fn form(alloc: Global, text: &str) -> Result<Form, Unread> {
    formula(alloc, LETTERS, text)
}

pub(crate) fn table(alloc: Global) -> Result<VarTable, Unread> {
    table_of(alloc, &TYPES)
}

// The substitution of a text without `||`, and the table with the entries of its copies.
pub(crate) fn flat(alloc: Global, text: &str) -> Result<(VarTable, Sub), Fail>
    ensures { IfOk result (λ r. IsFlat r.1) }
{
    let mut table = table(alloc)?;
    let sub = flatten(alloc, substitution(alloc, text)?, &mut table)?;
    Ok((table, sub))
}

// ---- keywords

// A substitution that is begun and not yet ended.
#[derive(Clone, Copy)]
enum Begun {
    Block,
    Pre,
    Select,
    Assert,
    If,
    Choice,
    Var,
    While,
    Sequence,
    Parallel,
}

// What a keyword says.
#[derive(Clone, Copy)]
enum Keyword {
    // It begins a substitution.
    Begins(Begun),
    // The words before it are a condition, an invariant or locals.
    Heads,
    // A substitution ends before it.
    Parts,
    // A substitution ends before it, and it is the sign between this one and the next.
    Joins(Begun),
    // It is `END`.
    Ends,
}

const KEYWORDS: &[(&str, Keyword)] = &[
    ("BEGIN", Keyword::Begins(Begun::Block)),
    ("PRE", Keyword::Begins(Begun::Pre)),
    ("SELECT", Keyword::Begins(Begun::Select)),
    ("ASSERT", Keyword::Begins(Begun::Assert)),
    ("IF", Keyword::Begins(Begun::If)),
    ("CHOICE", Keyword::Begins(Begun::Choice)),
    ("VAR", Keyword::Begins(Begun::Var)),
    ("WHILE", Keyword::Begins(Begun::While)),
    ("THEN", Keyword::Heads),
    ("IN", Keyword::Heads),
    ("DO", Keyword::Heads),
    ("VARIANT", Keyword::Heads),
    ("ELSE", Keyword::Parts),
    ("OR", Keyword::Parts),
    ("INVARIANT", Keyword::Parts),
    (";", Keyword::Joins(Begun::Sequence)),
    ("||", Keyword::Joins(Begun::Parallel)),
    ("END", Keyword::Ends),
];

fn keyword_of(word: &str) -> Option<Keyword> {
    for (text, keyword) in KEYWORDS {
        if *text == word {
            return Some(*keyword);
        }
    }
    None
}

// ---- reading

// What is read of a text so far.
#[derive(Drop)]
struct Reading<'a> {
    // What is not read yet.
    rest: &'a str,
    // The substitutions that are begun, the innermost last.
    begun: Vec<Begun>,
    // Their conditions, invariants, variants and locals.
    heads: Vec<&'a str>,
    // The substitutions that are ended.
    ended: Vec<Sub>,
}

// The substitution of a text.
pub(crate) fn substitution(alloc: Global, text: &str) -> Result<Sub, Unread> {
    let mut reading = Reading {
        rest: text,
        begun: Vec::new(alloc),
        heads: Vec::new(alloc),
        ended: Vec::new(alloc),
    };
    reading.read(alloc, text)?;
    reading.only()
}

impl<'a> Reading<'a> {
    fn read(&mut self, alloc: Global, text: &str) -> Result<(), Unread> {
        for word in text.split_whitespace() {
            if let Some(keyword) = keyword_of(word) {
                let before = self.before(word)?;
                self.keyword(alloc, keyword, before)?;
            }
        }
        self.part(alloc, self.rest.trim())
    }

    // The words before the next keyword, which is read too.
    fn before(&mut self, keyword: &str) -> Result<&'a str, Unread> {
        let (before, behind) = self.rest.split_once(keyword).ok_or(Unread::Text)?;
        self.rest = behind;
        Ok(before.trim())
    }

    // Reads a keyword, and the words between it and the keyword before.
    fn keyword(&mut self, alloc: Global, keyword: Keyword, before: &'a str) -> Result<(), Unread> {
        match keyword {
            Keyword::Begins(_) if !before.is_empty() => Err(Unread::Text),
            Keyword::Begins(begun) => Ok(self.begun.push(begun)?),
            Keyword::Heads => Ok(self.heads.push(before)?),
            Keyword::Parts => self.part(alloc, before),
            Keyword::Joins(begun) => {
                self.part(alloc, before)?;
                Ok(self.begun.push(begun)?)
            }
            Keyword::Ends => {
                self.last_words(alloc, before)?;
                self.end(alloc)
            }
        }
    }

    // Reads the words before `END`: a variant, or a last substitution.
    fn last_words(&mut self, alloc: Global, words: &'a str) -> Result<(), Unread> {
        match self.begun.last() {
            Some(Begun::While) => Ok(self.heads.push(words)?),
            _ => self.part(alloc, words),
        }
    }

    // Ends a part: its words are a substitution, where they are not one that ended by `END`. It may be the right side of a sign.
    fn part(&mut self, alloc: Global, words: &str) -> Result<(), Unread> {
        if !words.is_empty() {
            self.ended.push(simple(alloc, words)?)?;
        }
        match self.begun.last() {
            Some(Begun::Sequence | Begun::Parallel) => self.end(alloc),
            _ => Ok(()),
        }
    }

    // Ends the innermost substitution.
    fn end(&mut self, alloc: Global) -> Result<(), Unread> {
        let begun = self.begun.pop().ok_or(Unread::Text)?;
        let sub = whole(alloc, begun, &mut self.heads, &mut self.ended)?;
        Ok(self.ended.push(sub)?)
    }

    // The one that is left.
    fn only(&mut self) -> Result<Sub, Unread> {
        if !self.begun.is_empty() || self.ended.len() != 1 {
            return Err(Unread::Text);
        }
        last(&mut self.ended)
    }
}

// ---- substitutions of parts
// Their formulas are read first: what is owned while something else may fail makes the proof long, substitutions most of all.

// The substitution whose parts are the last ones.
fn whole(
    alloc: Global,
    begun: Begun,
    heads: &mut Vec<&str>,
    ended: &mut Vec<Sub>,
) -> Result<Sub, Unread> {
    match begun {
        Begun::Block => last(ended),
        Begun::Pre | Begun::Select | Begun::Assert => {
            let (condition, body) = headed(alloc, heads, ended)?;
            Ok(with_condition(alloc, begun, condition, body)?)
        }
        Begun::If => if_else(alloc, heads, ended),
        Begun::Var => with_locals(alloc, heads, ended),
        Begun::While => while_loop(alloc, heads, ended),
        Begun::Choice | Begun::Sequence | Begun::Parallel => {
            let (first, second) = last_two(ended)?;
            Ok(of_two(alloc, begun, first, second)?)
        }
    }
}

fn with_condition(alloc: Global, begun: Begun, condition: Form, body: Sub) -> Result<Sub, Memory> {
    match begun {
        Begun::Pre => Sub::pre(alloc, condition, body),
        Begun::Select => Sub::guard(alloc, condition, body),
        _ => Sub::assertion(alloc, condition, body),
    }
}

fn of_two(alloc: Global, begun: Begun, first: Sub, second: Sub) -> Result<Sub, Memory> {
    match begun {
        Begun::Choice => Sub::choice(alloc, first, second),
        Begun::Sequence => Sub::seq(alloc, first, second),
        _ => Sub::par(alloc, first, second),
    }
}

fn last(ended: &mut Vec<Sub>) -> Result<Sub, Unread> {
    ended.pop().ok_or(Unread::Text)
}

fn last_two(ended: &mut Vec<Sub>) -> Result<(Sub, Sub), Unread> {
    let second = last(ended)?;
    Ok((last(ended)?, second))
}

// The formula of the last words.
fn condition(alloc: Global, heads: &mut Vec<&str>) -> Result<Form, Unread> {
    form(alloc, heads.pop().ok_or(Unread::Text)?)
}

// The last formula and the last substitution.
fn headed(
    alloc: Global,
    heads: &mut Vec<&str>,
    ended: &mut Vec<Sub>,
) -> Result<(Form, Sub), Unread> {
    let condition = condition(alloc, heads)?;
    Ok((condition, last(ended)?))
}

fn if_else(alloc: Global, heads: &mut Vec<&str>, ended: &mut Vec<Sub>) -> Result<Sub, Unread> {
    let test = condition(alloc, heads)?;
    let (yes, no) = last_two(ended)?;
    Ok(Sub::if_else(alloc, test, yes, no)?)
}

fn with_locals(alloc: Global, heads: &mut Vec<&str>, ended: &mut Vec<Sub>) -> Result<Sub, Unread> {
    let locals = variables(alloc, heads.pop().ok_or(Unread::Text)?)?;
    let body = last(ended)?;
    Ok(Sub::any(alloc, locals, body)?)
}

fn while_loop(alloc: Global, heads: &mut Vec<&str>, ended: &mut Vec<Sub>) -> Result<Sub, Unread> {
    let (invariant, variant) = loop_heads(alloc, heads)?;
    let (test, body) = headed(alloc, heads, ended)?;
    Ok(Sub::while_loop(alloc, test, body, invariant, variant)?)
}

// The last two formulas.
fn loop_heads(alloc: Global, heads: &mut Vec<&str>) -> Result<(Form, Form), Unread> {
    let variant = condition(alloc, heads)?;
    Ok((condition(alloc, heads)?, variant))
}

// ---- substitutions without parts

fn simple(alloc: Global, words: &str) -> Result<Sub, Unread> {
    if words == "skip" {
        return Ok(Sub::skip(alloc)?);
    }
    if let Some((written, terms)) = words.split_once(":=") {
        return assignment(alloc, written, terms);
    }
    match words.split_once(":(") {
        Some((written, predicate)) => such(alloc, written, predicate),
        None => Err(Unread::Text),
    }
}

// `written := terms`
fn assignment(alloc: Global, written: &str, terms: &str) -> Result<Sub, Unread> {
    let variables = variables(alloc, written)?;
    let mut pairs = Vec::new(alloc);
    let mut rest = terms;
    for variable in &variables {
        let (term, others) = rest.split_once(",").unwrap_or((rest, ""));
        pairs.push((*variable, form(alloc, term)?))?;
        rest = others;
    }
    if rest.is_empty() {
        Ok(Sub::assign(alloc, pairs)?)
    } else {
        Err(Unread::Text)
    }
}

// `written :( predicate`, where the bracket that is open ends with the predicate
fn such(alloc: Global, written: &str, predicate: &str) -> Result<Sub, Unread> {
    let variables = variables(alloc, written)?;
    let mut pairs = Vec::new(alloc);
    for variable in &variables {
        pairs.push((*variable, variable.saturating_add(OLD)))?;
    }
    Ok(Sub::becomes_such(alloc, pairs, form(alloc, predicate)?)?)
}

// The numbers of letters with commas between them.
fn variables(alloc: Global, letters: &str) -> Result<Vec<u32>, Unread> {
    let mut numbers = Vec::new(alloc);
    for word in letters.split_whitespace() {
        numbers.push(number(word.strip_suffix(",").unwrap_or(word))?)?;
    }
    Ok(numbers)
}

// The number of a letter.
pub(crate) fn number(letter: &str) -> Result<u32, Unread> {
    let place = LETTERS.find(letter).ok_or(Unread::Text)?;
    u32::try_from(place).ok().ok_or(Unread::Text)
}
