// Runs of statements by the meaning of the notation, with no code in between.

use bk_code::Trap;
use bk_form::{BinOp, Form, UnOp, View};
use bk_gsl::{Sub, SubNode};
use std::alloc::Global;
use std::test::Fail;

/// The values of the family's variables by their numbers, TRUE as 1, and the elements of its array.
#[derive(Drop)]
pub(crate) struct Store {
    scalars: Vec<i64>,
    elements: [i64; 3],
}

impl Store {
    /// The values after the initialisation.
    pub(crate) fn new(alloc: Global) -> Result<Store, Fail> {
        let mut scalars = Vec::new(alloc);
        for _ in 0..25 {
            scalars.push(0)?;
        }
        Ok(Store {
            scalars,
            elements: [0; 3],
        })
    }

    /// The value of a variable that is no array.
    pub(crate) fn scalar(&self, variable: u32) -> i64 {
        self.scalars.get(variable as usize).copied().unwrap_or(0)
    }

    /// The variable has another value.
    pub(crate) fn set(&mut self, variable: u32, value: i64) {
        if let Some(place) = self.scalars.get_mut(variable as usize) {
            *place = value;
        }
    }

    /// The elements of the array.
    pub(crate) fn elements(&self) -> [i64; 3] {
        self.elements
    }

    fn element(&self, index: i64) -> Result<i64, Trap> {
        let place = usize::try_from(index).map_err(|_| Trap::Index)?;
        self.elements.get(place).copied().ok_or(Trap::Index)
    }

    fn set_element(&mut self, index: i64, value: i64) -> Result<(), Trap> {
        let place = usize::try_from(index).map_err(|_| Trap::Index)?;
        let element = self.elements.get_mut(place).ok_or(Trap::Index)?;
        *element = value;
        Ok(())
    }
}

// The family's array.
const ARRAY: u32 = 3;

// MAXINT. MININT is its negation.
const GREATEST: i64 = 2147483647;

// A number, where it is one from MININT to MAXINT.
fn within(value: Option<i64>) -> Result<i64, Trap> {
    match value {
        Some(number) if -GREATEST <= number && number <= GREATEST => Ok(number),
        _ => Err(Trap::Overflow),
    }
}

fn calculated(op: BinOp, left: i64, right: i64) -> Result<i64, Trap> {
    match op {
        BinOp::Add => within(left.checked_add(right)),
        BinOp::Sub => within(left.checked_sub(right)),
        BinOp::Mul => within(left.checked_mul(right)),
        BinOp::Div if right == 0 => Err(Trap::DivZero),
        BinOp::Div => within(left.checked_div(right)),
        BinOp::Mod if left < 0 || right <= 0 => Err(Trap::ModRange),
        BinOp::Mod => within(left.checked_rem(right)),
        BinOp::Eq => Ok(i64::from(left == right)),
        BinOp::Lt => Ok(i64::from(left < right)),
        _ => Ok(i64::from(left <= right)),
    }
}

// The value of an expression or a condition, true as 1.
fn value(store: &Store, form: &Form) -> Result<i64, Trap> {
    match form.view() {
        View::Int(number) => within(i64::try_from(number).ok()),
        View::Bool(truth) => Ok(i64::from(truth)),
        View::Var(variable) => Ok(store.scalar(variable)),
        View::Un(UnOp::Neg, operand) => {
            let number = value(store, operand)?;
            within(number.checked_neg())
        }
        View::Un(UnOp::Not, operand) => {
            let truth = value(store, operand)?;
            Ok(i64::from(truth == 0))
        }
        View::Un(_, operand) => value(store, operand),
        View::Bin(BinOp::And, left, right) => match value(store, left)? {
            0 => Ok(0),
            _ => value(store, right),
        },
        View::Bin(BinOp::Or, left, right) => match value(store, left)? {
            0 => value(store, right),
            _ => Ok(1),
        },
        View::Bin(BinOp::Apply, _, index) => {
            let place = value(store, index)?;
            store.element(place)
        }
        View::Bin(op, left, right) => {
            let first = value(store, left)?;
            let second = value(store, right)?;
            calculated(op, first, second)
        }
        _ => Ok(0),
    }
}

// f(index) := value, as f := f <+ {index |-> value}.
fn write(store: &mut Store, change: &Form) -> Result<(), Trap> {
    match change.view() {
        View::Bin(BinOp::Over, _, single) => match single.view() {
            View::Un(_, pair) => match pair.view() {
                View::Bin(_, index, term) => {
                    let place = value(store, index)?;
                    let number = value(store, term)?;
                    store.set_element(place, number)
                }
                _ => Ok(()),
            },
            _ => Ok(()),
        },
        _ => Ok(()),
    }
}

fn assign(store: &mut Store, terms: &[(u32, Form)]) -> Result<(), Trap> {
    match terms {
        [(variable, term)] => {
            let target = *variable;
            if target == ARRAY {
                return write(store, term);
            }
            let number = value(store, term)?;
            store.set(target, number);
            Ok(())
        }
        _ => Ok(()),
    }
}

/// Runs a statement. A loop has at most 1000 turns.
pub(crate) fn run(store: &mut Store, sub: &Sub) -> Result<(), Trap> {
    match &*sub.node {
        SubNode::Assign(terms) => assign(store, terms),
        SubNode::Seq(first, second) => {
            run(store, first)?;
            run(store, second)
        }
        SubNode::If(test, yes, no) => match value(store, test)? {
            0 => run(store, no),
            _ => run(store, yes),
        },
        SubNode::Any(_, body) | SubNode::Assert(_, body) => run(store, body),
        SubNode::While { test, body, .. } => {
            for _ in 0..1000 {
                if value(store, test)? == 0 {
                    return Ok(());
                }
                run(store, body)?;
            }
            Ok(())
        }
        _ => Ok(()),
    }
}
