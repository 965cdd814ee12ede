// What is asked of what substitutions evaluate, against the conditions that are written beside them.

use crate::evaluation_texts::EVALUATED;
use crate::transformers::{Transformer, gives};
use std::alloc::Global;
use std::process::Abort;
use std::test::Fail;

// Compares what implementations are asked, and sees that nothing is asked elsewhere.
fn compare(rt: &impl Abort, alloc: Global, list: &[(&str, &str)]) -> Result<(), Fail> {
    for (text, wanted) in list {
        let found = gives(alloc, text, Transformer::Executed, wanted)?;
        assert!(rt; found, "{text}");
        let found = gives(alloc, text, Transformer::Conditions, "btrue")?;
        assert!(rt; found, "{text}");
    }
    Ok(())
}

#[test]
fn evaluated(rt: HostRuntime) -> Result<(), Fail> {
    compare(&rt, rt.alloc(), &EVALUATED)
}
