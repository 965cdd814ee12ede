// Easy sequents, by the shape of the goal.

ghost use Rattle.std.specs.Prelude.{◌≡◌, false, IfOk, OnOk};
ghost use Rattle.bk_form.specs.Formula.{binary, for_all};
ghost use Rattle.bk_form.specs.declared.operator.BinOp.TheVariants.{And, Imp};
ghost use Rattle.bk_form.specs.FormShown.{shown};
ghost use Rattle.bk_bind.specs.Opening.{opened};
ghost use Rattle.bk_seq.specs.Sequents.{sequent_of};
ghost use Rattle.bk_kernel.specs.Naming.{names_of};
ghost use Rattle.bk_kernel.specs.Obvious.{is_obvious};
ghost use Rattle.bk_auto.specs.NewVariables.{HasNew};
ghost use Rattle.bk_auto.specs.Found.{IsReady, Told};

use crate::adding::add;
use crate::arithmetic::by_arithmetic;
use crate::closing::close;
use crate::ordering::{equal, within};
use crate::supposing::suppose;
use crate::variables::{add_variables, is_formed};
use bk_bind::{BindFault, open_body};
use bk_form::{BinOp, Form, Part, Ty, VarTable, View};
use bk_io::Memory;
use bk_kernel::{Rule, is_obvious};
use bk_seq::Sequent;
use std::alloc::Global;

/// Adds rules that derive the sequent, over the table with the new variables that they name; or answers that it is not easy.
#[cycle(shapes)]
pub(crate) fn easy(
    alloc: Global,
    types: &mut VarTable,
    sequent: &Sequent,
    rules: &mut Vec<Rule>,
) -> Result<bool, Memory>
    requires { IsReady types.old (sequent_of sequent.now) }
    ensures new { HasNew types.old types.new }
    ensures told { IfOk result (λ b. Told b types.old types.new rules.old.items rules.new.items (sequent_of sequent.now)) }
{
    if is_obvious(sequent) {
        close(alloc, sequent, rules)?;
        return Ok(true);
    }
    by_shape(alloc, types, sequent, rules)
}

// The same of a sequent that is not obvious.
#[cycle(shapes)]
fn by_shape(
    alloc: Global,
    types: &mut VarTable,
    sequent: &Sequent,
    rules: &mut Vec<Rule>,
) -> Result<bool, Memory>
    requires ready { IsReady types.old (sequent_of sequent.now) }
    requires open { is_obvious sequent.now.hyps.items sequent.now.goal ≡ false }
    ensures new { HasNew types.old types.new }
    ensures told { IfOk result (λ b. Told b types.old types.new rules.old.items rules.new.items (sequent_of sequent.now)) }
{
    match sequent.goal.view() {
        View::Bin(op, left, right) => by_sides(alloc, types, sequent, op, left, right, rules),
        View::All(bound, body) => fixing(alloc, types, sequent, bound, body, rules),
        View::False => by_arithmetic(alloc, sequent, rules),
        View::True => {
            add(rules, Rule::True)?;
            Ok(true)
        }
        _ => Ok(false),
    }
}

// The same of a goal with two sides.
#[cycle(shapes)]
fn by_sides(
    alloc: Global,
    types: &mut VarTable,
    sequent: &Sequent,
    op: BinOp,
    left: &Form,
    right: &Form,
    rules: &mut Vec<Rule>,
) -> Result<bool, Memory>
    requires ready { IsReady types.old (sequent_of sequent.now) }
    requires goal { sequent.now.goal ≡ binary op left.now right.now }
    requires open { is_obvious sequent.now.hyps.items sequent.now.goal ≡ false }
    ensures new { HasNew types.old types.new }
    ensures told { IfOk result (λ b. Told b types.old types.new rules.old.items rules.new.items (sequent_of sequent.now)) }
{
    match op {
        BinOp::And => both(alloc, types, sequent, left, right, rules),
        BinOp::Imp => supposing(alloc, types, sequent, left, right, rules),
        BinOp::In => within(alloc, types, sequent, left, right, rules),
        BinOp::Eq => equal(alloc, types, sequent, left, right, rules),
        BinOp::Le => by_arithmetic(alloc, sequent, rules),
        BinOp::Lt => by_arithmetic(alloc, sequent, rules),
        _ => Ok(false),
    }
}

// The goal `P & Q`: P, then Q.
#[cycle(shapes)]
fn both(
    alloc: Global,
    types: &mut VarTable,
    sequent: &Sequent,
    left: &Form,
    right: &Form,
    rules: &mut Vec<Rule>,
) -> Result<bool, Memory>
    requires ready { IsReady types.old (sequent_of sequent.now) }
    requires goal { sequent.now.goal ≡ binary And left.now right.now }
    requires open { is_obvious sequent.now.hyps.items sequent.now.goal ≡ false }
    ensures new { HasNew types.old types.new }
    ensures told { IfOk result (λ b. Told b types.old types.new rules.old.items rules.new.items (sequent_of sequent.now)) }
{
    add(rules, Rule::And)?;
    let first = with_goal(alloc, sequent, left)?;
    if !easy(alloc, types, &first, rules)? {
        return Ok(false);
    }
    let second = with_goal(alloc, sequent, right)?;
    is_formed(types);
    easy(alloc, types, &second, rules)
}

// The same hypotheses and another goal.
fn with_goal(alloc: Global, sequent: &Sequent, goal: &Form) -> Result<Sequent, Memory>
    ensures { IfOk result (λ s. sequent_of s ≡ (sequent.now.hyps.items, goal.now)) }
{
    Ok(Sequent {
        hyps: Form::copy_all(&sequent.hyps, alloc)?,
        goal: goal.copy(alloc)?,
    })
}

// The goal `P => Q`: Q, with P and its parts as hypotheses.
#[cycle(shapes)]
fn supposing(
    alloc: Global,
    types: &mut VarTable,
    sequent: &Sequent,
    left: &Form,
    right: &Form,
    rules: &mut Vec<Rule>,
) -> Result<bool, Memory>
    requires ready { IsReady types.old (sequent_of sequent.now) }
    requires goal { sequent.now.goal ≡ binary Imp left.now right.now }
    requires open { is_obvious sequent.now.hyps.items sequent.now.goal ≡ false }
    ensures new { HasNew types.old types.new }
    ensures told { IfOk result (λ b. Told b types.old types.new rules.old.items rules.new.items (sequent_of sequent.now)) }
{
    let next = suppose(alloc, &sequent.hyps, left, right, rules)?;
    easy(alloc, types, &next, rules)
}

// The goal `!x.P`: P for new variables.
#[cycle(shapes)]
fn fixing(
    alloc: Global,
    types: &mut VarTable,
    sequent: &Sequent,
    bound: &[Ty],
    body: &Form,
    rules: &mut Vec<Rule>,
) -> Result<bool, Memory>
    requires ready { IsReady types.old (sequent_of sequent.now) }
    requires goal { sequent.now.goal ≡ for_all bound.now body.now }
    requires open { is_obvious sequent.now.hyps.items sequent.now.goal ≡ false }
    ensures new { HasNew types.old types.new }
    ensures told { IfOk result (λ b. Told b types.old types.new rules.old.items rules.new.items (sequent_of sequent.now)) }
{
    let names = add_variables(alloc, types, bound)?;
    is_formed(types);
    let next = opened(alloc, sequent, body, &names)?;
    add(rules, Rule::Fix(names))?;
    easy(alloc, types, &next, rules)
}

// The sequent with the body for these variables as its goal.
fn opened(alloc: Global, sequent: &Sequent, body: &Form, names: &[u32]) -> Result<Sequent, Memory>
    ensures { IfOk result (λ s. sequent_of s ≡ (sequent.now.hyps.items, opened (names_of names.now) body.now)) }
{
    let terms = terms_of(alloc, names)?;
    let goal = match open_body(alloc, body, &terms) {
        Ok(goal) => goal,
        // a variable is no larger than a bound number, so there is no other fault
        Err(_) => return Err(Memory),
    };
    Ok(Sequent {
        hyps: Form::copy_all(&sequent.hyps, alloc)?,
        goal,
    })
}

// The terms that these variables are.
fn terms_of(alloc: Global, names: &[u32]) -> Result<Vec<Form>, Memory>
    ensures { IfOk result (λ fs. fs.items ≡ names_of names.now) }
{
    let mut terms = Vec::new(alloc);
    for name in names {
        terms.push(Form::make(alloc, Part::Var(*name))?)?;
    }
    Ok(terms)
}
