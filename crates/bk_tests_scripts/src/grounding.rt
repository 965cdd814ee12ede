// What written rules stand for where no table of states shows it: for no obligation, with the number of no hypothesis, with a new
// variable, and with a multiplier below 0.

use crate::counter::{bytes, counter};
use bk_dev::Development;
use bk_ground::ground;
use bk_kernel::Rule;
use bk_lin::Line;
use bk_p_proof::{ScriptFault, Scripts, scripts};
use bk_po::obligation_table;
use std::alloc::Global;
use std::test::Fail;

// The scripts of a proof file.
fn read(alloc: Global, text: &str) -> Result<Scripts, ScriptFault> {
    let files = bytes(alloc, &[text])?;
    if files.len() > 1000 {
        return Err(ScriptFault::Memory);
    }
    scripts(alloc, &files)
}

/// What is looked at in a rule.
#[derive(Clone, Copy)]
enum Meant {
    Nothing,
    Law(u16),
    Hyp(u32),
    Split(u32),
    /// of this variable alone
    Fix(u32),
    /// with one line, which is so many times a fact
    Lin(i128, u32),
}

fn is_multiple(lines: &[Line], multiplier: i128, fact: u32) -> bool {
    match lines {
        [Line::Sum(parts)] => parts.as_slice() == [(multiplier, fact)].as_slice(),
        _ => false,
    }
}

fn is_meant(rule: &Rule, meant: Meant) -> bool {
    match (rule, meant) {
        (Rule::Unread, Meant::Nothing) => true,
        (Rule::Law { law, .. }, Meant::Law(wanted)) => *law == wanted,
        (Rule::Hyp(number), Meant::Hyp(wanted)) => *number == wanted,
        (Rule::Split(number), Meant::Split(wanted)) => *number == wanted,
        (Rule::Fix(names), Meant::Fix(wanted)) => names.as_slice() == [wanted].as_slice(),
        (Rule::Lin { lines, .. }, Meant::Lin(multiplier, fact)) => {
            is_multiple(lines.as_slice(), multiplier, fact)
        }
        _ => false,
    }
}

// Whether the last rule of the text's first script stands for this.
fn stands_for(alloc: Global, dev: &Development, text: &str, meant: Meant) -> Result<bool, Fail> {
    let scripts = read(alloc, text)?;
    let Some(script) = scripts.all().first() else {
        return Ok(false);
    };
    let table = obligation_table(alloc, dev)?;
    let (rules, _) = ground(alloc, script, dev, &table)?;
    match rules.last() {
        Some(rule) => Ok(is_meant(rule, meant)),
        None => Ok(false),
    }
}

const ROWS: &[(&str, Meant)] = &[
    // a component alone, and no component
    (
        "proof Counter_i law O5(n$1, 0, 10) goal end",
        Meant::Law(105),
    ),
    (
        "proof Other.get.1 law O5(n$0, 0, 10) goal end",
        Meant::Nothing,
    ),
    // a law with the terms of another, and without terms
    (
        "proof Counter.reset.1 law O6(1, 0, 10) goal end",
        Meant::Law(106),
    ),
    ("proof Counter.reset.1 law G28 goal end", Meant::Law(28)),
    ("proof Counter.reset.1 law M65 goal end", Meant::Law(365)),
    // numbers that no hypothesis has
    ("proof Counter.reset.1 hyp 0 end", Meant::Hyp(0)),
    (
        "proof Counter.reset.1 split 4294967295 end",
        Meant::Split(4294967295),
    ),
    // behind a rule that means nothing
    (
        "proof Counter.reset.1 fix x : T ; cut x = x end",
        Meant::Nothing,
    ),
    // new names have the next numbers
    ("proof Counter.reset.1 fix u : INTEGER end", Meant::Fix(4)),
    (
        "proof Counter.reset.1 fix u : INTEGER ; fix w : BOOL end",
        Meant::Fix(5),
    ),
    (
        "proof Counter.reset.1 fix t : T ; fix w : BOOL end",
        Meant::Fix(4),
    ),
    (
        "proof Counter.reset.1 fix u : INTEGER ; fix w : BOOL ; fix u : INTEGER end",
        Meant::Fix(4),
    ),
    (
        "proof Counter.reset.1 lin 2 : -4 * 5 end",
        Meant::Lin(-4, 5),
    ),
];

#[test]
fn what_written_rules_stand_for(rt: HostRuntime) -> Result<(), Fail> {
    let alloc = rt.alloc();
    let dev = counter(alloc)?;
    for (text, meant) in ROWS {
        assert!(rt; stands_for(alloc, &dev, text, *meant)?, "{text}");
    }
    Ok(())
}
