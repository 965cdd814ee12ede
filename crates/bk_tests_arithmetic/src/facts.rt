// The facts that hypotheses and a negated goal state, and which formulas are comparisons.

use bk_arith::{ArithFault, facts, is_comparison};
use bk_form::BinOp;
use bk_tests_fixtures::{always, of_variables};
use std::test::Fail;

// `x = y` states that y - x and x - y are at least 0, and that `x <= y` is not so states it of x - y - 1. The atoms are y and x.
#[test]
fn facts_over_their_atoms(rt: HostRuntime) -> Result<(), Fail> {
    let alloc = rt.alloc();
    let hyps = vec![in alloc; of_variables(alloc, BinOp::Eq, 0, 1)?]?;
    let goal = of_variables(alloc, BinOp::Le, 0, 1)?;
    let found = facts(alloc, &hyps, &goal)?;
    let wanted = [([1, -1], 0), ([-1, 1], 0), ([-1, 1], -1)];
    assert_eq!(rt; found.len(), 3);
    for (fact, (coefs, constant)) in found.iter().zip(wanted) {
        assert!(rt; fact.coefs.as_slice() == coefs.as_slice() && fact.constant == constant);
    }
    Ok(())
}

#[test]
fn no_comparison_states_no_fact(rt: HostRuntime) -> Result<(), Fail> {
    let alloc = rt.alloc();
    let goal = of_variables(alloc, BinOp::Le, 0, 1)?;
    assert!(rt; is_comparison(&goal) && !is_comparison(&always(alloc)?));
    let hyps = vec![in alloc; of_variables(alloc, BinOp::Lt, 0, 1)?, always(alloc)?]?;
    assert!(rt; matches!(facts(alloc, &hyps, &goal), Err(ArithFault::NotLinear(2))));
    Ok(())
}
