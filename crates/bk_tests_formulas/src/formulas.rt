// Formulas, types, tables, arrays and tokens, and their copies. Each call that takes memory is made once, and what it
// answers is compared.

use bk_form::{ArrayDomain, ArrayRow, Arrays, Form, Token, TokenKind, Ty, VarTable, View};
use bk_io::{Memory, Text};
use bk_tests_fixtures::text;
use bk_tests_notation::{Unread, formula};
use std::alloc::Global;
use std::process::Abort;
use std::test::Fail;

fn form(alloc: Global, text: &str) -> Result<Form, Unread> {
    formula(alloc, "", text)
}

// ---- formulas
fn is_its_copy(alloc: Global, form: &Form) -> Result<bool, Memory> {
    Ok(form.copy(alloc)?.equal(form))
}

// `!x.(x : 1 .. 3 => x < 4)`, and not `!x.(x : 1 .. 2 => x < 4)`
#[test]
fn quantified(rt: HostRuntime) -> Result<(), Fail> {
    let alloc = rt.alloc();
    let found = form(alloc, "( !i ( ( b0 : ( 1 .. 3 ) ) => ( b0 < 4 ) ) )")?;
    assert!(rt; found.size() == 10);
    assert!(rt; found.depth() == 5);
    assert!(rt; is_its_copy(alloc, &found)?);
    let other = form(alloc, "( !i ( ( b0 : ( 1 .. 2 ) ) => ( b0 < 4 ) ) )")?;
    assert!(rt; !other.equal(&found));
    Ok(())
}

fn are_their_copies(alloc: Global, forms: &[Form]) -> Result<bool, Memory> {
    Ok(Form::equal_all(&Form::copy_all(forms, alloc)?, forms))
}

// `{x | x : 1 .. 3 & x : 1 .. 5}`
#[test]
fn comprehended(rt: HostRuntime) -> Result<(), Fail> {
    let alloc = rt.alloc();
    let set = form(alloc, "( set1 ( 1 .. 3 ) ( 1 .. 5 ) )")?;
    assert!(rt; set.size() == 7);
    assert!(rt; set.depth() == 3);
    if let View::Compr(ranges, _) = set.view() {
        assert!(rt; are_their_copies(alloc, ranges)?);
        assert!(rt; ranges.len() == 1);
        return Ok(());
    }
    Err(Fail::from("a comprehension is seen as one"))
}

// ---- types
fn relation(alloc: Global) -> Result<Ty, Memory> {
    let pair = Ty::pair(alloc, Ty::boolean(), Ty::enumerated(2))?;
    Ty::set(alloc, pair)
}

fn is_copied(alloc: Global, ty: &Ty) -> Result<bool, Memory> {
    Ok(ty.copy(alloc)?.equal(ty))
}

fn all_are_copied(alloc: Global, types: &[Ty]) -> Result<bool, Memory> {
    Ok(Ty::equal_all(&Ty::copy_all(types, alloc)?, types))
}

#[test]
fn types(rt: HostRuntime) -> Result<(), Fail> {
    let alloc = rt.alloc();
    let relation = relation(alloc)?;
    assert!(rt; is_copied(alloc, &relation)?);
    assert!(rt; !relation.equal(&Ty::int()));
    let types = vec![in alloc; relation]?;
    assert!(rt; all_are_copied(alloc, &types)?);
    Ok(())
}

// ---- tables
// The set COLOUR of red and green, the number x and the colour c.
fn colours(alloc: Global) -> Result<VarTable, Memory> {
    let mut table = VarTable::new(alloc);
    let red = text(alloc, b"red")?;
    let colours = vec![in alloc; red, text(alloc, b"green")?]?;
    table.add_set(text(alloc, b"COLOUR")?, colours, 2)?;
    table.add_variable(text(alloc, b"x")?, Ty::int())?;
    table.add_variable(text(alloc, b"c")?, Ty::enumerated(0))?;
    Ok(table)
}

#[test]
fn tables_are_numbered(rt: HostRuntime) -> Result<(), Fail> {
    let alloc = rt.alloc();
    let mut table = VarTable::new(alloc);
    let red = vec![in alloc; text(alloc, b"red")?]?;
    assert!(rt; table.add_set(text(alloc, b"COLOUR")?, red, 1)? == 0);
    assert!(rt; table.add_variable(text(alloc, b"x")?, Ty::int())? == 0);
    assert!(rt; table.add_variable(text(alloc, b"c")?, Ty::enumerated(0))? == 1);
    Ok(())
}

fn is_text(found: Option<&Text>, wanted: &[u8]) -> bool {
    match found {
        Some(text) => text.as_bytes() == wanted,
        None => false,
    }
}

fn is_type(found: Option<&Ty>, wanted: &Ty) -> bool {
    match found {
        Some(ty) => ty.equal(wanted),
        None => false,
    }
}

fn are_so_many(found: Option<&[Text]>, count: usize) -> bool {
    match found {
        Some(texts) => texts.len() == count,
        None => false,
    }
}

#[test]
fn deferred_sets_get_sizes(rt: HostRuntime) -> Result<(), Fail> {
    let alloc = rt.alloc();
    let mut table = VarTable::new(alloc);
    table.add_set(text(alloc, b"DAY")?, Vec::new(alloc), 0)?;
    table.add_set(text(alloc, b"KEY")?, Vec::new(alloc), 0)?;
    table.give_size(1, 65535);
    assert!(rt; (table.sets(), table.size(0), table.size(1)) == (2, 0, 65535));
    table.give_size(0, 7);
    assert!(rt; (table.size(0), table.size(1)) == (7, 65535));
    assert!(rt; are_so_many(table.elements(0), 0));
    assert!(rt; is_text(table.set_name(1), b"KEY"));
    Ok(())
}

#[test]
fn tables_are_copied(rt: HostRuntime) -> Result<(), Fail> {
    let table = colours(rt.alloc())?;
    let copy = table.copy(rt.alloc())?;
    assert!(rt; copy.sets() == 1);
    assert!(rt; copy.variables() == 2);
    assert!(rt; is_text(copy.text(1), b"c"));
    assert!(rt; is_type(copy.ty(1), &Ty::enumerated(0)));
    assert!(rt; copy.ty(2).is_none());
    assert!(rt; is_text(copy.set_name(0), b"COLOUR"));
    assert!(rt; are_so_many(copy.elements(0), 2));
    Ok(())
}

// ---- arrays and tokens
const ROW: ArrayRow = ArrayRow {
    var: 7,
    domain: ArrayDomain::Interval { low: 0, high: 9 },
};

fn check_arrays(rt: &impl Abort, alloc: Global) -> Result<(), Fail> {
    let arrays = Arrays::from_rows(255, vec![in alloc; ROW]?);
    let copy = arrays.copy(alloc)?;
    assert!(rt; copy.row(7) == Some(&ROW));
    assert!(rt; copy.row(6) == None);
    assert!(rt; copy.max() == 255);
    assert!(rt; copy.into_rows().as_slice() == arrays.rows());
    Ok(())
}

fn token_is_copied(alloc: Global) -> Result<bool, Memory> {
    let token = Token {
        kind: TokenKind::LevelName(text(alloc, b"x")?, 0),
        start: 3,
        end: 6,
    };
    Ok(token.copy(alloc)? == token)
}

#[test]
fn arrays_and_tokens(rt: HostRuntime) -> Result<(), Fail> {
    check_arrays(&rt, rt.alloc())?;
    assert!(rt; token_is_copied(rt.alloc())?);
    Ok(())
}
