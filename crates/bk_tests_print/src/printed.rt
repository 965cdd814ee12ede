// Rules are printed as they are written by hand, and what is printed reads back as rules that are printed so.

use crate::rule_texts::ROWS;
use crate::words::words;
use bk_dev::Development;
use bk_io::Memory;
use bk_p_proof::{ScriptFault, Scripts, scripts};
use bk_po::obligation_table;
use bk_print::print;
use bk_scripts::ground;
use std::alloc::Global;
use std::test::Fail;

const NAME: &str = "Words.reset.1";

// The scripts of a proof file.
fn read(alloc: Global, text: &[u8]) -> Result<Scripts, ScriptFault> {
    let file = Vec::from_slice(alloc, text)?;
    scripts(alloc, &[file])
}

// The rules of the text's first script, printed.
fn printed(alloc: Global, dev: &Development, text: &[u8]) -> Result<Vec<u8>, Fail> {
    let scripts = read(alloc, text)?;
    let Some(script) = scripts.all().first() else {
        return Err(Fail::from("no script"));
    };
    let table = obligation_table(alloc, dev)?;
    let (rules, wide) = ground(alloc, script, dev, &table)?;
    Ok(print(alloc, NAME.as_bytes(), &rules, &wide)?)
}

// `proof`, the name, this text and `end`.
fn script(alloc: Global, between: &str, rules: &str, last: &str) -> Result<Vec<u8>, Memory> {
    let mut text = Vec::from_slice(alloc, b"proof ")?;
    text.extend_from_slice(NAME.as_bytes())?;
    text.extend_from_slice(between.as_bytes())?;
    text.extend_from_slice(rules.as_bytes())?;
    text.extend_from_slice(last.as_bytes())?;
    Ok(text)
}

#[test]
fn each_rule(rt: HostRuntime) -> Result<(), Fail> {
    let alloc = rt.alloc();
    let dev = words(alloc)?;
    for (written, wanted) in ROWS {
        let by_hand = script(alloc, " ", written, " end")?;
        let text = script(alloc, "\n", wanted, "end\n")?;
        let first = printed(alloc, &dev, &by_hand)?;
        assert!(rt; first.as_slice() == text.as_slice(), "{written}");
        let second = printed(alloc, &dev, &text)?;
        assert!(rt; second.as_slice() == text.as_slice(), "{wanted}");
    }
    Ok(())
}
