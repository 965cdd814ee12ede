//! The sample of a development.
ghost use Rattle.std.specs.Prelude.{◌≡◌, ◌≤◌, IfOk, string_bytes};
ghost use Rattle.bk_calls.specs.Sample.{sample_of};

use crate::sample_calls::calls_text;
use crate::sample_files::{SAMPLE_PROJECT, Sample};
use crate::sample_implementation::implementation_text;
use crate::sample_machine::machine_text;
use crate::sample_proofs::proof_text;
use bk_code::Memory;
use bk_limits::MOST_SAMPLE_VARIABLES;
use std::alloc::Global;

/// The lines of the project file.
const PROJECT_TEXT: &str = "machine Sample.mch\nimplementation Sample_i.imp\nproofs Sample.prf\n";

// A file with this name and this text.
fn file(alloc: Global, name: &str, text: String) -> Result<(String, Vec<u8>), Memory>
    ensures name { IfOk result (λ file. string_bytes file.0 ≡ name.now) }
    ensures text { IfOk result (λ file. file.1.items ≡ string_bytes text) }
{
    let name = String::from_str(alloc, name)?;
    Ok((name, text.into_bytes()))
}

/// A development with `n` variables: the machine `Sample`, which adds to each of them and reads it, the implementation
/// `Sample_i`, scripts of proof for their obligations, and calls of the operations.
pub fn sample(alloc: Global, n: u32) -> Result<Sample, Memory>
    requires least { 1 ≤ n }
    requires most { n ≤ MOST_SAMPLE_VARIABLES }
    ensures { IfOk result (λ sample. sample ≡ sample_of n) }
{
    let project = file(
        alloc,
        SAMPLE_PROJECT,
        String::from_str(alloc, PROJECT_TEXT)?,
    )?;
    let machine = file(alloc, "Sample.mch", machine_text(alloc, n)?)?;
    let implementation = file(alloc, "Sample_i.imp", implementation_text(alloc, n)?)?;
    let proofs = file(alloc, "Sample.prf", proof_text(alloc, n)?)?;
    let files = vec![in alloc; project, machine, implementation, proofs]?;
    let calls = calls_text(alloc, n)?.into_bytes();
    Ok(Sample { files, calls })
}
