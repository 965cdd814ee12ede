//! The implementation of a sample.
ghost use Rattle.std.specs.Prelude.{◌≡◌, codes, IfOk, string_bytes};
ghost use Rattle.bk_calls.specs.Sample as texts;

use crate::sample_variables::{ranges, separator, variables};
use bk_code::Memory;
use std::alloc::Global;
use std::fmt::Write;

// The variables set to zero, one after the other.
fn assignments(alloc: Global, n: u32) -> Result<String, Memory>
    ensures { IfOk result (λ text. string_bytes text ≡ texts.assignments n) }
{
    let mut list = String::new(alloc);
    for i in 1..=n {
        write!(list, "{}x{i} := 0", separator(i, " ;\n  "))?;
    }
    Ok(list)
}

// The operations of one variable.
fn operations_of(alloc: Global, i: u32) -> Result<String, Memory>
    ensures { IfOk result (λ text. string_bytes text ≡ texts.implementation_operations i) }
{
    Ok(format!(in alloc; "  add_{i}(k) = x{i} := x{i} + k ;\n  r <-- get_{i} = r := x{i}")?)
}

fn operations(alloc: Global, n: u32) -> Result<String, Memory>
    ensures { IfOk result (λ text. string_bytes text ≡ texts.list texts.implementation_operations (codes " ;\n") n) }
{
    let mut list = String::new(alloc);
    for i in 1..=n {
        write!(list, "{}{}", separator(i, " ;\n"), operations_of(alloc, i)?)?;
    }
    Ok(list)
}

/// The text of the implementation.
pub(crate) fn implementation_text(alloc: Global, n: u32) -> Result<String, Memory>
    ensures { IfOk result (λ text. string_bytes text ≡ texts.implementation_text n) }
{
    let variables = variables(alloc, n)?;
    let ranges = ranges(alloc, n)?;
    let assignments = assignments(alloc, n)?;
    let operations = operations(alloc, n)?;
    Ok(format!(in alloc;
        "IMPLEMENTATION Sample_i REFINES Sample\n\
         CONCRETE_VARIABLES\n  {variables}\n\
         INVARIANT\n  {ranges}\n\
         INITIALISATION\n  {assignments}\n\
         OPERATIONS\n{operations}\n\
         END\n"
    )?)
}
