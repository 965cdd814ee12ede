// What formulas stand for, against what is written beside them.

use crate::type_texts::{
    AROUND, BINDERS, DOMAINS, LETTERS, NUMBERS_AND_SETS, PREDICATES, RELATIONS, TYPES, UNTYPED,
    UNTYPED_AROUND, UNTYPED_PREDICATES, UNTYPED_RELATIONS, WORDS,
};
use bk_form::{Form, Ty, VarTable};
use bk_tests_notation::{formula, table_of, type_of, types_of};
use bk_types::{Role, TypeFault, check, role_of, synth};
use std::alloc::Global;
use std::process::Abort;
use std::test::Fail;

// Whether the formula is a value of this type under these bound variables, and takes this type and no other.
fn gives(
    alloc: Global,
    table: &VarTable,
    around: &[Ty],
    form: &Form,
    ty: &Ty,
) -> Result<bool, Fail> {
    let is_value = match role_of(alloc, form, around, table)? {
        Role::Value(found) => found.equal(ty),
        _ => false,
    };
    check(alloc, form, ty, around, table)?;
    let sets = Ty::set(alloc, ty.copy(alloc)?)?;
    let other = check(alloc, form, &sets, around, table).err();
    let found = synth(alloc, form, around, table)?;
    Ok(is_value && found.equal(ty) && other == Some(TypeFault::NoType))
}

// Whether the formula gives no type under these bound variables, and takes none.
fn gives_none(alloc: Global, table: &VarTable, around: &[Ty], form: &Form) -> bool {
    let taken = check(alloc, form, &Ty::int(), around, table).err();
    let found = synth(alloc, form, around, table).err();
    taken == Some(TypeFault::NoType) && found == Some(TypeFault::NoType)
}

// Compares the types of the values of a list.
fn compare(rt: &impl Abort, alloc: Global, list: &[(&str, &str)]) -> Result<(), Fail> {
    let table = table_of(alloc, &TYPES)?;
    for (given, ty) in list {
        let form = formula(alloc, LETTERS, given)?;
        assert!(rt;
            gives(alloc, &table, &[], &form, &type_of(alloc, ty)?)?,
            "{given}"
        );
    }
    Ok(())
}

#[test]
fn words(rt: HostRuntime) -> Result<(), Fail> {
    compare(&rt, rt.alloc(), &WORDS)
}

#[test]
fn numbers_and_sets(rt: HostRuntime) -> Result<(), Fail> {
    compare(&rt, rt.alloc(), &NUMBERS_AND_SETS)
}

#[test]
fn relations(rt: HostRuntime) -> Result<(), Fail> {
    compare(&rt, rt.alloc(), &RELATIONS)
}

#[test]
fn binders(rt: HostRuntime) -> Result<(), Fail> {
    compare(&rt, rt.alloc(), &BINDERS)
}

// Whether the formula is a domain that is no value, and ranges over this type.
fn ranges_over(alloc: Global, table: &VarTable, form: &Form, ty: &Ty) -> Result<bool, Fail> {
    match role_of(alloc, form, &[], table)? {
        Role::Domain(found) => Ok(found.equal(ty) && gives_none(alloc, table, &[], form)),
        _ => Ok(false),
    }
}

#[test]
fn domains(rt: HostRuntime) -> Result<(), Fail> {
    let alloc = rt.alloc();
    let table = table_of(alloc, &TYPES)?;
    for (given, ty) in DOMAINS {
        let form = formula(alloc, LETTERS, given)?;
        assert!(rt;
            ranges_over(alloc, &table, &form, &type_of(alloc, ty)?)?,
            "{given}"
        );
    }
    Ok(())
}

#[test]
fn predicates(rt: HostRuntime) -> Result<(), Fail> {
    let alloc = rt.alloc();
    let table = table_of(alloc, &TYPES)?;
    for given in PREDICATES {
        let form = formula(alloc, LETTERS, given)?;
        let role = role_of(alloc, &form, &[], &table)?;
        assert!(rt; matches!(role, Role::Predicate), "{given}");
        assert!(rt; gives_none(alloc, &table, &[], &form), "{given}");
    }
    Ok(())
}

// Sees that the formulas of a list stand for nothing.
fn refuse(rt: &impl Abort, alloc: Global, list: &[&str]) -> Result<(), Fail> {
    let table = table_of(alloc, &TYPES)?;
    for given in list {
        let form = formula(alloc, LETTERS, given)?;
        let role = role_of(alloc, &form, &[], &table)?;
        assert!(rt; matches!(role, Role::Nothing), "{given}");
        assert!(rt; gives_none(alloc, &table, &[], &form), "{given}");
    }
    Ok(())
}

#[test]
fn untyped(rt: HostRuntime) -> Result<(), Fail> {
    refuse(&rt, rt.alloc(), &UNTYPED)
}

#[test]
fn untyped_relations(rt: HostRuntime) -> Result<(), Fail> {
    refuse(&rt, rt.alloc(), &UNTYPED_RELATIONS)
}

#[test]
fn untyped_predicates(rt: HostRuntime) -> Result<(), Fail> {
    refuse(&rt, rt.alloc(), &UNTYPED_PREDICATES)
}

#[test]
fn under_bound_variables(rt: HostRuntime) -> Result<(), Fail> {
    let alloc = rt.alloc();
    let table = table_of(alloc, &TYPES)?;
    for (around, given, ty) in AROUND {
        let types = types_of(alloc, around)?;
        let form = formula(alloc, LETTERS, given)?;
        assert!(rt;
            gives(alloc, &table, &types, &form, &type_of(alloc, ty)?)?,
            "{given}"
        );
    }
    Ok(())
}

#[test]
fn untyped_under_bound_variables(rt: HostRuntime) -> Result<(), Fail> {
    let alloc = rt.alloc();
    let table = table_of(alloc, &TYPES)?;
    for (around, given) in UNTYPED_AROUND {
        let types = types_of(alloc, around)?;
        let form = formula(alloc, LETTERS, given)?;
        assert!(rt; gives_none(alloc, &table, &types, &form), "{given}");
    }
    Ok(())
}
