// Operators and quantifiers on formulas.

use crate::binding_texts::LETTERS;
use bk_bind::{binary, bounded, for_all, for_some, unary};
use bk_form::{BinOp, Form, UnOp};
use bk_tests_notation::{Unread, formula, types_of};
use std::alloc::Global;
use std::test::Fail;

fn form(alloc: Global, text: &str) -> Result<Form, Unread> {
    formula(alloc, LETTERS, text)
}

#[test]
fn operators(rt: HostRuntime) -> Result<(), Fail> {
    let alloc = rt.alloc();
    let found = bounded(form(alloc, "( x < 2 )")?)?;
    assert!(rt; found.equal(&form(alloc, "( x < 2 )")?));
    let cases = [
        (UnOp::Card, "( card ( 1 .. x ) )"),
        (UnOp::Single, "( single ( 1 .. x ) )"),
    ];
    for (op, wanted) in cases {
        let found = unary(alloc, op, form(alloc, "( 1 .. x )")?)?;
        assert!(rt; found.equal(&form(alloc, wanted)?), "{wanted}");
    }
    let cases = [
        (BinOp::Sub, "( x - ( y + 1 ) )"),
        (BinOp::Le, "( x <= ( y + 1 ) )"),
    ];
    for (op, wanted) in cases {
        let found = binary(alloc, op, form(alloc, "x")?, form(alloc, "( y + 1 )")?)?;
        assert!(rt; found.equal(&form(alloc, wanted)?), "{wanted}");
    }
    Ok(())
}

#[test]
fn quantifiers(rt: HostRuntime) -> Result<(), Fail> {
    let alloc = rt.alloc();
    let types = types_of(alloc, "iPb")?;
    let found = for_all(alloc, &types, form(alloc, "( b1 < x )")?)?;
    assert!(rt; found.equal(&form(alloc, "( !iPb ( b1 < x ) )")?));
    let found = for_some(alloc, &types, form(alloc, "( b1 < x )")?)?;
    assert!(rt; found.equal(&form(alloc, "( #iPb ( b1 < x ) )")?));
    let found = for_all(alloc, &[], form(alloc, "btrue")?)?;
    assert!(rt; found.equal(&form(alloc, "( ! btrue )")?));
    Ok(())
}
