//! Formulas as texts.

use crate::error::Unread;
use crate::leaves::one_word;
use crate::signs::{Sign, operator};
use crate::types::types_of;
use bk_form::{Form, Part};
use bk_tests_fixtures::shapes::{comprehension, lambda};
use bk_tests_fixtures::{binary, unary};
use std::alloc::Global;

// Binders are made of so many nodes at most.
const MOST: u64 = 1000;

/// The formula of a text; the letters are the names of the variables, in the order of their numbers.
pub fn formula(alloc: Global, letters: &str, text: &str) -> Result<Form, Unread> {
    let mut signs = Vec::new(alloc);
    let mut forms = Vec::new(alloc);
    for word in text.split_whitespace() {
        if word == "(" {
            continue;
        }
        if word == ")" {
            let top = signs.pop().ok_or(Unread::Text)?;
            let made = whole(alloc, top, &mut forms)?;
            forms.push(made)?;
        } else if let Some(sign) = operator(word) {
            signs.push(sign)?;
        } else {
            forms.push(one_word(alloc, letters, word)?)?;
        }
    }
    match forms.pop() {
        Some(form) if forms.is_empty() && signs.is_empty() => Ok(form),
        _ => Err(Unread::Text),
    }
}

// The formula of an operator and its operands, which are the last ones.
fn whole(alloc: Global, sign: Sign<'_>, forms: &mut Vec<Form>) -> Result<Form, Unread> {
    let last = taken(forms)?;
    match sign {
        Sign::One(op) => Ok(unary(alloc, op, last)?),
        Sign::Two(op) => Ok(binary(alloc, op, taken(forms)?, last)?),
        Sign::All(types) => all(alloc, types, last),
        Sign::Some(types) => some(alloc, types, last),
        Sign::Set(ranges) => set(alloc, ranges, forms, last),
        Sign::Function(ranges) => function(alloc, ranges, forms, last),
    }
}

fn taken(forms: &mut Vec<Form>) -> Result<Form, Unread> {
    let last = forms.pop().ok_or(Unread::Text)?;
    if last.size() > MOST {
        return Err(Unread::Memory);
    }
    Ok(last)
}

fn all(alloc: Global, types: &str, body: Form) -> Result<Form, Unread> {
    if body.size() > MOST {
        return Err(Unread::Memory);
    }
    let types = types_of(alloc, types)?;
    Ok(Form::make(alloc, Part::All(types, body))?)
}

fn some(alloc: Global, types: &str, body: Form) -> Result<Form, Unread> {
    if body.size() > MOST {
        return Err(Unread::Memory);
    }
    let types = types_of(alloc, types)?;
    Ok(Form::make(alloc, Part::Some(types, body))?)
}

// A comprehension over the last ranges.
fn set(alloc: Global, ranges: u32, forms: &mut Vec<Form>, body: Form) -> Result<Form, Unread> {
    let last = taken(forms)?;
    match ranges {
        1 => set_of_one(alloc, last, body),
        2 => Ok(comprehension(alloc, taken(forms)?, last, body)?),
        _ => {
            let second = taken(forms)?;
            set_of_three(alloc, taken(forms)?, second, last, body)
        }
    }
}

fn set_of_one(alloc: Global, range: Form, body: Form) -> Result<Form, Unread> {
    if range.size() + body.size() > MOST {
        return Err(Unread::Memory);
    }
    let ranges = vec![in alloc; range]?;
    Ok(Form::make(alloc, Part::Compr(ranges, body))?)
}

fn set_of_three(
    alloc: Global,
    first: Form,
    second: Form,
    third: Form,
    body: Form,
) -> Result<Form, Unread> {
    if first.size() + second.size() + third.size() + body.size() > MOST {
        return Err(Unread::Memory);
    }
    let ranges = vec![in alloc; first, second, third]?;
    Ok(Form::make(alloc, Part::Compr(ranges, body))?)
}

// A lambda over the last ranges.
fn function(
    alloc: Global,
    ranges: u32,
    forms: &mut Vec<Form>,
    value: Form,
) -> Result<Form, Unread> {
    let body = taken(forms)?;
    let last = taken(forms)?;
    match ranges {
        1 => Ok(lambda(alloc, last, body, value)?),
        _ => function_of_two(alloc, taken(forms)?, last, body, value),
    }
}

fn function_of_two(
    alloc: Global,
    first: Form,
    second: Form,
    body: Form,
    value: Form,
) -> Result<Form, Unread> {
    if first.size() + second.size() + body.size() + value.size() > MOST {
        return Err(Unread::Memory);
    }
    let ranges = vec![in alloc; first, second]?;
    Ok(Form::make(alloc, Part::Lam(ranges, body, value))?)
}
