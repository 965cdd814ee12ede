//! The proof file of a sample: five scripts for each variable.
ghost use Rattle.std.specs.Prelude.{◌≡◌, ◌≤◌, IfOk, string_bytes};
ghost use Rattle.bk_calls.specs.Sample as texts;

use bk_code::Memory;
use bk_limits::MOST_SAMPLE_VARIABLES;
use std::alloc::Global;

// That a number that is not above 0 is at most the sum, by the hypotheses with the ranges of the variable and of the input.
fn least_rule(alloc: Global, variable: u32, input: u32) -> Result<String, Memory>
    ensures { IfOk result (λ text. string_bytes text ≡ texts.least_rule variable input) }
{
    Ok(format!(in alloc; "lin {variable}, {input} : 1 * 1 + 1 * 3 + 1 * 5")?)
}

// That the sum is in the range, but for its upper bound.
fn range_rules(
    alloc: Global,
    i: u32,
    level: u32,
    variable: u32,
    input: u32,
) -> Result<String, Memory>
    ensures { IfOk result (λ text. string_bytes text ≡ texts.range_rules i level variable input) }
{
    let least = least_rule(alloc, variable, input)?;
    Ok(format!(in alloc; "law O5(x{i}${level} + k, 0, 100) goal ; and ; {least}")?)
}

// That the machine keeps its invariant.
fn machine_script(alloc: Global, n: u32, i: u32) -> Result<String, Memory>
    requires { n ≤ MOST_SAMPLE_VARIABLES }
    ensures { IfOk result (λ text. string_bytes text ≡ texts.machine_script n i) }
{
    let range = range_rules(alloc, i, 0, i, n + 1)?;
    let bound = n + 2;
    Ok(format!(in alloc; "proof Sample.add_{i}.{i}\n  {range} ; hyp {bound}\nend\n")?)
}

// That the implementation keeps its invariant.
fn implementation_script(alloc: Global, n: u32, i: u32) -> Result<String, Memory>
    requires most { n ≤ MOST_SAMPLE_VARIABLES }
    requires number { i ≤ n }
    ensures { IfOk result (λ text. string_bytes text ≡ texts.implementation_script n i) }
{
    let range = range_rules(alloc, i, 1, n + i, 3 * n + 1)?;
    let link = 2 * n + i;
    let bound = 3 * n + 2;
    Ok(format!(in alloc;
        "proof Sample_i.add_{i}.{i}\n  {range} ;\n  lin {link}, {bound} : 1 * 1 + 1 * 3 + 1 * 4\nend\n"
    )?)
}

// That the variables of the machine and of the implementation stay equal.
fn link_script(alloc: Global, n: u32, i: u32) -> Result<String, Memory>
    requires most { n ≤ MOST_SAMPLE_VARIABLES }
    requires number { i ≤ n }
    ensures { IfOk result (λ text. string_bytes text ≡ texts.link_script n i) }
{
    let goal = n + i;
    let link = 2 * n + i;
    Ok(format!(in alloc; "proof Sample_i.add_{i}.{goal}\n  eq {link} goal 1 1 ; same\nend\n")?)
}

// That the sum is not below the least number of a variable.
fn least_script(alloc: Global, n: u32, i: u32) -> Result<String, Memory>
    requires most { n ≤ MOST_SAMPLE_VARIABLES }
    requires number { i ≤ n }
    ensures { IfOk result (λ text. string_bytes text ≡ texts.least_script n i) }
{
    let least = least_rule(alloc, n + i, 3 * n + 1)?;
    Ok(format!(in alloc; "proof Sample_i.add_{i}.chk.1\n  {least}\nend\n")?)
}

// That the sum is not above the greatest number of a variable.
fn greatest_script(alloc: Global, n: u32, i: u32) -> Result<String, Memory>
    requires most { n ≤ MOST_SAMPLE_VARIABLES }
    requires number { i ≤ n }
    ensures { IfOk result (λ text. string_bytes text ≡ texts.greatest_script n i) }
{
    let variable = n + i;
    let input = 3 * n + 1;
    Ok(format!(in alloc;
        "proof Sample_i.add_{i}.chk.2\n  lin {variable}, {input} : 1 * 2 + 1 * 4 + 1 * 5\nend\n"
    )?)
}

// The scripts for one variable.
fn scripts(alloc: Global, n: u32, i: u32) -> Result<String, Memory>
    requires most { n ≤ MOST_SAMPLE_VARIABLES }
    requires number { i ≤ n }
    ensures { IfOk result (λ text. string_bytes text ≡ texts.scripts n i) }
{
    let machine = machine_script(alloc, n, i)?;
    let implementation = implementation_script(alloc, n, i)?;
    let link = link_script(alloc, n, i)?;
    let least = least_script(alloc, n, i)?;
    let greatest = greatest_script(alloc, n, i)?;
    Ok(format!(in alloc; "{machine}{implementation}{link}{least}{greatest}")?)
}

/// The text of the proof file.
pub(crate) fn proof_text(alloc: Global, n: u32) -> Result<String, Memory>
    requires { n ≤ MOST_SAMPLE_VARIABLES }
    ensures { IfOk result (λ text. string_bytes text ≡ texts.proof_text n) }
{
    let mut text = String::new(alloc);
    for i in 1..=n {
        text.push_str(&scripts(alloc, n, i)?)?;
    }
    Ok(text)
}
