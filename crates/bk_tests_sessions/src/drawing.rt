// Statements drawn from a seed, for the operation of a development of the family.

ghost use Rattle.std.specs.Prelude.{◌≡◌, ◌⊎◌, ◌<◌, ◌≤◌, suc, true, pos, [], ◌∷◌, IfOk};
ghost use Rattle.bk_form.specs.Formula.{variable, literal, binary, truth_value, btrue};
ghost use Rattle.bk_form.specs.declared.operator.BinOp.TheVariants.{Eq as Equal, Sub as Less};
ghost use Rattle.bk_gsl.specs.Substitution.{any, seq, loop};
ghost use Rattle.bk_tests_sessions.specs.Drawn.{AreLocals, IsArithmetic, IsComparison, IsConnective, IsNumber, IsNumberAnywhere};
ghost use Rattle.bk_tests_sessions.specs.Drawn.{IsTest, IsDrawn, set_to, local_block, is_left, counted_turns, element_write};

use crate::draws::Draws;
use bk_form::{BinOp, Form, Part, UnOp};
use bk_gsl::Sub;
use bk_io::Memory;
use bk_tests_fixtures::{always, becomes, binary, literal, unary, variable, with_number};
use std::alloc::Global;

// ---- numbers

// A number from -20 to 20.
#[tactic(auto, using(crate::proofs::Drawn::small_number, crate::proofs::Drawn::in_int))]
fn small_number(alloc: Global, draws: &mut Draws) -> Result<Form, Memory>
    ensures { IfOk result IsNumberAnywhere }
{
    let value = i128::from(draws.below(41)) - 20;
    let term = literal(alloc, value)?;
    Ok(term)
}

// The innermost local, or `k` where there is none.
fn innermost(alloc: Global, locals: &[u32]) -> Result<Form, Memory>
    requires { AreLocals locals.now 25 }
    ensures { IfOk result (IsNumber locals.now 0) }
{
    match locals {
        [local, ..] => {
            let term = variable(alloc, *local)?;
            Ok(term)
        }
        _ => {
            let term = variable(alloc, 4)?;
            Ok(term)
        }
    }
}

// i, j, k, the innermost local or a number.
fn leaf(alloc: Global, draws: &mut Draws, locals: &[u32]) -> Result<Form, Memory>
    requires { AreLocals locals.now 25 }
    ensures { IfOk result (IsNumber locals.now 0) }
{
    match draws.below(6) {
        0 => {
            let term = variable(alloc, 0)?;
            Ok(term)
        }
        1 => {
            let term = variable(alloc, 1)?;
            Ok(term)
        }
        2 => {
            let term = variable(alloc, 4)?;
            Ok(term)
        }
        3 => innermost(alloc, locals),
        _ => {
            let term = small_number(alloc, draws)?;
            Ok(term)
        }
    }
}

// An operator that calculates.
fn arithmetic(draws: &mut Draws) -> BinOp
    ensures { IsArithmetic result }
{
    match draws.below(16) {
        0 => BinOp::Div,
        1 => BinOp::Mod,
        2 | 3 => BinOp::Mul,
        4..=8 => BinOp::Sub,
        _ => BinOp::Add,
    }
}

// A number that is calculated with at most so many operators on one way down.
fn number(alloc: Global, draws: &mut Draws, locals: &[u32], depth: u32) -> Result<Form, Memory>
    requires { AreLocals locals.now 25 }
    ensures { IfOk result (IsNumber locals.now depth) }
{
    if depth == 0 {
        let term = leaf(alloc, draws, locals)?;
        return Ok(term);
    }
    match draws.below(7) {
        0 => {
            let operand = number(alloc, draws, locals, depth - 1)?;
            let term = unary(alloc, UnOp::Neg, operand)?;
            Ok(term)
        }
        1 => {
            let index = some_index(alloc, draws, locals)?;
            let array = variable(alloc, 3)?;
            let term = binary(alloc, BinOp::Apply, array, index)?;
            Ok(term)
        }
        2 | 3 => {
            let term = leaf(alloc, draws, locals)?;
            Ok(term)
        }
        _ => {
            let left = number(alloc, draws, locals, depth - 1)?;
            let right = number(alloc, draws, locals, depth - 1)?;
            let operator = arithmetic(draws);
            let term = binary(alloc, operator, left, right)?;
            Ok(term)
        }
    }
}

// An index from 0 to 2, or now and then a local or an input.
#[tactic(auto, using(crate::proofs::Drawn::small_number, crate::proofs::Drawn::in_int))]
fn some_index(alloc: Global, draws: &mut Draws, locals: &[u32]) -> Result<Form, Memory>
    requires { AreLocals locals.now 25 }
    ensures { IfOk result (IsNumber locals.now 0) }
{
    let choice = draws.below(16);
    if choice == 0 {
        return innermost(alloc, locals);
    }
    let value = i128::from(choice % 3);
    let term = literal(alloc, value)?;
    Ok(term)
}

// ---- conditions

// An operator that compares.
fn comparison(draws: &mut Draws) -> BinOp
    ensures { IsComparison result }
{
    match draws.below(3) {
        0 => BinOp::Eq,
        1 => BinOp::Lt,
        _ => BinOp::Le,
    }
}

// And or or.
fn connective(draws: &mut Draws) -> BinOp
    ensures { IsConnective result }
{
    match draws.below(2) {
        0 => BinOp::And,
        _ => BinOp::Or,
    }
}

// A comparison of two numbers.
fn compared(alloc: Global, draws: &mut Draws, locals: &[u32], depth: u32) -> Result<Form, Memory>
    requires { AreLocals locals.now 25 }
    ensures { IfOk result (IsTest locals.now (suc depth)) }
{
    let left = number(alloc, draws, locals, depth)?;
    let right = number(alloc, draws, locals, depth)?;
    let operator = comparison(draws);
    let term = binary(alloc, operator, left, right)?;
    Ok(term)
}

// b = TRUE
fn is_true(alloc: Global) -> Result<Form, Memory>
    ensures { IfOk result (λ f. f ≡ binary Equal (variable 2) (truth_value true)) }
{
    let truth = variable(alloc, 2)?;
    let yes = Form::make(alloc, Part::Bool(true))?;
    binary(alloc, BinOp::Eq, truth, yes)
}

// A condition with at most so many operators on one way down, and one more.
fn condition(alloc: Global, draws: &mut Draws, locals: &[u32], depth: u32) -> Result<Form, Memory>
    requires { AreLocals locals.now 25 }
    ensures { IfOk result (IsTest locals.now (suc depth)) }
{
    if depth == 0 {
        return compared(alloc, draws, locals, depth);
    }
    match draws.below(6) {
        0 => {
            let term = is_true(alloc)?;
            Ok(term)
        }
        1 => {
            let operand = compared(alloc, draws, locals, depth)?;
            let term = unary(alloc, UnOp::Not, operand)?;
            Ok(term)
        }
        2 | 3 => compared(alloc, draws, locals, depth),
        _ => {
            let left = condition(alloc, draws, locals, depth - 1)?;
            let right = condition(alloc, draws, locals, depth - 1)?;
            let operator = connective(draws);
            let term = binary(alloc, operator, left, right)?;
            Ok(term)
        }
    }
}

// ---- statements

// i or j.
fn i_or_j(draws: &mut Draws) -> u32
    ensures { (result ≡ 0) ⊎ (result ≡ 1) }
{
    if draws.below(2) == 0 { 0 } else { 1 }
}

// x := term, where x is i or j.
fn number_set(alloc: Global, draws: &mut Draws, locals: &[u32], end: u32) -> Result<Sub, Memory>
    requires { AreLocals locals.now 25 }
    ensures { IfOk result (IsDrawn locals.now end end) }
{
    let _ = end;
    let term = number(alloc, draws, locals, 3)?;
    let target = i_or_j(draws);
    let set = becomes(alloc, target, term)?;
    Ok(set)
}

// b := bool(P)
fn truth_set(alloc: Global, draws: &mut Draws, locals: &[u32], end: u32) -> Result<Sub, Memory>
    requires { AreLocals locals.now 25 }
    ensures { IfOk result (IsDrawn locals.now end end) }
{
    let test = condition(alloc, draws, locals, 2)?;
    let term = unary(alloc, UnOp::BoolOf, test)?;
    let set = becomes(alloc, 2, term)?;
    Ok(set)
}

// f(index) := value
fn element_write(alloc: Global, index: Form, value: Form) -> Result<Sub, Memory>
    ensures { IfOk result (λ s. s ≡ element_write index value) }
{
    let pair = binary(alloc, BinOp::Maps, index, value)?;
    let change = unary(alloc, UnOp::Single, pair)?;
    let array = variable(alloc, 3)?;
    let term = binary(alloc, BinOp::Over, array, change)?;
    becomes(alloc, 3, term)
}

// An array's element is set.
fn element_set(alloc: Global, draws: &mut Draws, locals: &[u32], end: u32) -> Result<Sub, Memory>
    requires { AreLocals locals.now 25 }
    ensures { IfOk result (IsDrawn locals.now end end) }
{
    let index = some_index(alloc, draws, locals)?;
    let value = number(alloc, draws, locals, 2)?;
    let set = element_write(alloc, index, value)?;
    Ok(set)
}

// A statement without parts.
#[tactic(auto, using(crate::proofs::Drawn::drawn_skip))]
fn simple(alloc: Global, draws: &mut Draws, locals: &[u32], end: u32) -> Result<Sub, Memory>
    requires { AreLocals locals.now 25 }
    ensures { IfOk result (IsDrawn locals.now end end) }
{
    match draws.below(8) {
        0 => Ok(Sub::skip(alloc)?),
        1 | 2 => truth_set(alloc, draws, locals, end),
        3 | 4 => element_set(alloc, draws, locals, end),
        _ => number_set(alloc, draws, locals, end),
    }
}

// VAR z IN z := start ; body END
fn local_block(alloc: Global, local: u32, start: Form, body: Sub) -> Result<Sub, Memory>
    ensures { IfOk result (λ s. s ≡ local_block local start body) }
{
    let first = becomes(alloc, local, start)?;
    let steps = Sub::seq(alloc, first, body)?;
    Sub::any(alloc, vec![in alloc; local]?, steps)
}

// 0 < z
fn is_left(alloc: Global, local: u32) -> Result<Form, Memory>
    ensures { IfOk result (λ f. f ≡ is_left local) }
{
    let zero = literal(alloc, 0)?;
    let counter = variable(alloc, local)?;
    binary(alloc, BinOp::Lt, zero, counter)
}

// body ; z := z - 1
fn with_countdown(alloc: Global, local: u32, body: Sub) -> Result<Sub, Memory>
    ensures { IfOk result (λ s. s ≡ seq body (set_to local (binary Less (variable local) (literal (pos 1))))) }
{
    let less = with_number(alloc, BinOp::Sub, local, 1)?;
    let down = becomes(alloc, local, less)?;
    Sub::seq(alloc, body, down)
}

// WHILE 0 < z DO turn INVARIANT btrue VARIANT z END
fn while_left(alloc: Global, local: u32, turn: Sub) -> Result<Sub, Memory>
    ensures { IfOk result (λ s. s ≡ loop (is_left local) turn btrue (variable local)) }
{
    let test = is_left(alloc, local)?;
    let invariant = always(alloc)?;
    let variant = variable(alloc, local)?;
    Sub::while_loop(alloc, test, turn, invariant, variant)
}

// The body so many times.
fn counted_turns(alloc: Global, local: u32, turns: Form, body: Sub) -> Result<Sub, Memory>
    ensures { IfOk result (λ s. s ≡ counted_turns local turns body) }
{
    let turn = with_countdown(alloc, local, body)?;
    let steps = while_left(alloc, local, turn)?;
    local_block(alloc, local, turns, steps)
}

// From 1 to 3 turns, and now and then none.
#[tactic(auto, using(crate::proofs::Drawn::small_number, crate::proofs::Drawn::in_int))]
fn turns(alloc: Global, draws: &mut Draws) -> Result<Form, Memory>
    ensures { IfOk result IsNumberAnywhere }
{
    let value = i128::from(draws.below(4));
    let term = literal(alloc, value)?;
    Ok(term)
}

// A number from the first up to the second.
fn between(draws: &mut Draws, low: u32, high: u32) -> u32
    requires order { low ≤ high }
    requires small { high < 1000 }
    ensures { (low ≤ result) × (result ≤ high) }
{
    low + draws.below(u64::from(high - low) + 1) as u32
}

// The locals with one more in front.
fn with_local(alloc: Global, local: u32, locals: &[u32]) -> Result<Vec<u32>, Memory>
    ensures { IfOk result (λ all. all.items ≡ local ∷ locals.now) }
{
    let mut all = vec![in alloc; local]?;
    all.extend_from_slice(locals)?;
    Ok(all)
}

/// A statement over these locals, which binds others from `from` up to `end`, without `end`. It is at most so deep.
#[tactic(auto, using(crate::proofs::Drawn::drawn_seq, crate::proofs::Drawn::drawn_if, crate::proofs::Drawn::drawn_block, crate::proofs::Drawn::drawn_turns, crate::proofs::Drawn::drawn_lower, crate::proofs::Drawn::locals_up, crate::proofs::Drawn::locals_more))]
pub(crate) fn statement(
    alloc: Global,
    draws: &mut Draws,
    locals: &[u32],
    depth: u32,
    from: u32,
    end: u32,
) -> Result<Sub, Memory>
    requires locals { AreLocals locals.now from }
    requires low { 17 ≤ from }
    requires order { from ≤ end }
    requires high { end ≤ 25 }
    ensures { IfOk result (IsDrawn locals.now from end) }
{
    if depth == 0 {
        let least = simple(alloc, draws, locals, end)?;
        return Ok(least);
    }
    let choice = draws.below(10);
    if choice < 4 {
        let middle = between(draws, from, end);
        let first = statement(alloc, draws, locals, depth - 1, from, middle)?;
        let second = statement(alloc, draws, locals, depth - 1, middle, end)?;
        let both = Sub::seq(alloc, first, second)?;
        return Ok(both);
    }
    if choice < 6 {
        let middle = between(draws, from, end);
        let test = condition(alloc, draws, locals, 2)?;
        let yes = statement(alloc, draws, locals, depth - 1, from, middle)?;
        let no = statement(alloc, draws, locals, depth - 1, middle, end)?;
        let branches = Sub::if_else(alloc, test, yes, no)?;
        return Ok(branches);
    }
    if from == end {
        let least = simple(alloc, draws, locals, end)?;
        return Ok(least);
    }
    let inner = with_local(alloc, from, locals)?;
    let body = statement(alloc, draws, &inner, depth - 1, from + 1, end)?;
    if choice < 8 {
        let start = number(alloc, draws, locals, 2)?;
        let block = local_block(alloc, from, start, body)?;
        return Ok(block);
    }
    let count = turns(alloc, draws)?;
    let block = counted_turns(alloc, from, count, body)?;
    Ok(block)
}
