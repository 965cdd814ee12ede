// A machine whose obligations scripts speak of: a set, a number and a function.

ghost use Rattle.std.specs.Prelude.{◌≡◌, length};
ghost use Rattle.bk_front.specs.ProjectFile.{component_lines};

use bk_dev::Development;
use bk_front::{ProjectLine, Refusal, lines, project};
use bk_io::Memory;
use std::alloc::Global;

const PROJECT: &str = "machine Words.mch\n";

const TEXTS: &[&str] = &[
    "MACHINE Words SETS S = {a, b} VARIABLES n, f
    INVARIANT n : 0..10 & f : 0..9 --> 0..9 INITIALISATION n, f := 0, (0..9) * {0}
    OPERATIONS reset = n := 0 END",
];

fn bytes(alloc: Global, texts: &[&str]) -> Result<Vec<Vec<u8>>, Memory> {
    let mut files = Vec::new(alloc);
    for text in texts {
        files.push(Vec::from_slice(alloc, text.as_bytes())?)?;
    }
    Ok(files)
}

// How many of the lines are for component files.
fn component_count(lines: &[ProjectLine]) -> usize
    ensures { result ≡ length (component_lines lines.now) }
{
    let mut count: usize = 0;
    for line in lines {
        if line.kind.is_component() {
            count += 1;
        }
    }
    count
}

/// The development that the text is read as.
pub(crate) fn words(alloc: Global) -> Result<Development, Refusal> {
    let texts = bytes(alloc, TEXTS)?;
    let lines = lines(alloc, PROJECT.as_bytes())?;
    if component_count(&lines) != texts.len() {
        return Err(Refusal::Memory);
    }
    project(alloc, &lines, &texts)
}
