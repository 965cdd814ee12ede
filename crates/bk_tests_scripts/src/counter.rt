// The counter, whose four variables have the numbers from 0 to 3, as it is read from its texts.

ghost use Rattle.std.specs.Prelude.{◌≡◌, true, length, IfOk};
ghost use Rattle.bk_dev.specs.B0.{IsB0Development};
ghost use Rattle.bk_dev.specs.Development.{is_complete};
ghost use Rattle.bk_front.specs.ProjectFile.{component_lines};

use bk_dev::Development;
use bk_front::{ProjectLine, Refusal, lines, project};
use bk_io::Memory;
use std::alloc::Global;

const PROJECT: &str = "machine Counter.mch\nimplementation Counter_i.imp\n";

const TEXTS: &[&str] = &[
    "MACHINE Counter VARIABLES n INVARIANT n : 0..10 INITIALISATION n := 0
    OPERATIONS reset = n := 0 ; setmax = n := 10 ; r <-- get = r := n END",
    "IMPLEMENTATION Counter_i REFINES Counter CONCRETE_VARIABLES n INVARIANT n : 0..10 INITIALISATION n := 0
    OPERATIONS reset = n := 0 ; setmax = n := 10 ; r <-- get = r := n END",
];

pub(crate) fn bytes(alloc: Global, texts: &[&str]) -> Result<Vec<Vec<u8>>, Memory> {
    let mut files = Vec::new(alloc);
    for text in texts {
        files.push(Vec::from_slice(alloc, text.as_bytes())?)?;
    }
    Ok(files)
}

// How many of the lines are for component files.
fn component_count(lines: &[ProjectLine]) -> usize
    ensures { result ≡ length (component_lines lines.now) }
{
    let mut count: usize = 0;
    for line in lines {
        if line.kind.is_component() {
            count += 1;
        }
    }
    count
}

/// The development that the texts are read as.
pub(crate) fn counter(alloc: Global) -> Result<Development, Refusal>
    ensures executable { IfOk result (λ dev. is_complete dev ≡ true → IsB0Development dev) }
{
    let texts = bytes(alloc, TEXTS)?;
    let lines = lines(alloc, PROJECT.as_bytes())?;
    if component_count(&lines) != texts.len() {
        return Err(Refusal::Memory);
    }
    project(alloc, &lines, &texts)
}
