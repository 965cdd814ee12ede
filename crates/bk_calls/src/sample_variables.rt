//! The lists of variables that both components of a sample have.
ghost use Rattle.std.specs.Prelude.{◌≡◌, ◌<◌, ◌≤◌, codes, IfOk, string_bytes};
ghost use Rattle.bk_calls.specs.Sample as texts;

use bk_code::Memory;
use std::alloc::Global;
use std::fmt::Write;

/// What stands before a variable's part of a list: nothing before the first.
pub(crate) fn separator(i: u32, between: &'static str) -> &'static str
    ensures first { i ≤ 1 → result.now ≡ codes "" }
    ensures other { 1 < i → result.now ≡ between.now }
{
    if i > 1 { between } else { "" }
}

/// The variables, in a row.
pub(crate) fn variables(alloc: Global, n: u32) -> Result<String, Memory>
    ensures { IfOk result (λ text. string_bytes text ≡ texts.variables n) }
{
    let mut list = String::new(alloc);
    for i in 1..=n {
        write!(list, "{}x{i}", separator(i, ", "))?;
    }
    Ok(list)
}

/// The ranges of the variables, a line each.
pub(crate) fn ranges(alloc: Global, n: u32) -> Result<String, Memory>
    ensures { IfOk result (λ text. string_bytes text ≡ texts.ranges n) }
{
    let mut list = String::new(alloc);
    for i in 1..=n {
        write!(list, "{}x{i} : 0..100", separator(i, " &\n  "))?;
    }
    Ok(list)
}
