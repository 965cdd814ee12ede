//! The call script of a sample.
ghost use Rattle.std.specs.Prelude.{◌≡◌, IfOk, string_bytes};
ghost use Rattle.bk_calls.specs.Sample as texts;

use bk_code::Memory;
use std::alloc::Global;

/// How often a variable is added to.
const ADDITIONS: usize = 10;

// A call that adds to a variable.
fn addition(alloc: Global, i: u32) -> Result<String, Memory>
    ensures { IfOk result (λ text. string_bytes text ≡ texts.addition i) }
{
    let addend = 1 + i % 10;
    Ok(format!(in alloc; "add_{i}({addend})\n")?)
}

// The calls for one variable: it is added to, and then read.
fn calls_of(alloc: Global, i: u32) -> Result<String, Memory>
    ensures { IfOk result (λ text. string_bytes text ≡ texts.calls_of i) }
{
    let addition = addition(alloc, i)?;
    let additions = addition.repeat(alloc, ADDITIONS)?;
    Ok(format!(in alloc; "{additions}get_{i}\n")?)
}

/// The text of the call script.
pub(crate) fn calls_text(alloc: Global, n: u32) -> Result<String, Memory>
    ensures { IfOk result (λ text. string_bytes text ≡ texts.calls_text n) }
{
    let mut text = String::new(alloc);
    for i in 1..=n {
        text.push_str(&calls_of(alloc, i)?)?;
    }
    Ok(text)
}
