//! The machine of a sample.
ghost use Rattle.std.specs.Prelude.{◌≡◌, codes, IfOk, string_bytes};
ghost use Rattle.bk_calls.specs.Sample as texts;

use crate::sample_variables::{ranges, separator, variables};
use bk_code::Memory;
use std::alloc::Global;
use std::fmt::Write;

// A zero for each variable.
fn zeros(alloc: Global, n: u32) -> Result<String, Memory>
    ensures { IfOk result (λ text. string_bytes text ≡ texts.zeros n) }
{
    let mut list = String::new(alloc);
    for i in 1..=n {
        write!(list, "{}0", separator(i, ", "))?;
    }
    Ok(list)
}

// The operations of one variable.
fn operations_of(alloc: Global, i: u32) -> Result<String, Memory>
    ensures { IfOk result (λ text. string_bytes text ≡ texts.machine_operations i) }
{
    Ok(format!(in alloc;
        "  add_{i}(k) = PRE k : 1..10 & x{i} + k <= 100 THEN x{i} := x{i} + k END ;\n  r <-- get_{i} = r := x{i}"
    )?)
}

fn operations(alloc: Global, n: u32) -> Result<String, Memory>
    ensures { IfOk result (λ text. string_bytes text ≡ texts.list texts.machine_operations (codes " ;\n") n) }
{
    let mut list = String::new(alloc);
    for i in 1..=n {
        write!(list, "{}{}", separator(i, " ;\n"), operations_of(alloc, i)?)?;
    }
    Ok(list)
}

/// The text of the machine.
pub(crate) fn machine_text(alloc: Global, n: u32) -> Result<String, Memory>
    ensures { IfOk result (λ text. string_bytes text ≡ texts.machine_text n) }
{
    let variables = variables(alloc, n)?;
    let ranges = ranges(alloc, n)?;
    let zeros = zeros(alloc, n)?;
    let operations = operations(alloc, n)?;
    Ok(format!(in alloc;
        "MACHINE Sample\n\
         VARIABLES\n  {variables}\n\
         INVARIANT\n  {ranges}\n\
         INITIALISATION\n  {variables} := {zeros}\n\
         OPERATIONS\n{operations}\n\
         END\n"
    )?)
}
