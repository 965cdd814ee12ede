//! What a sample consists of.
ghost use Rattle.std.specs.Prelude.{◌≡◌, IfOk};
ghost use Rattle.bk_io.specs.Files.{HasDistinctNames, files_of};
ghost use Rattle.bk_calls.specs.Sample.{shelved};

use bk_code::Memory;
use std::alloc::Global;
use std::marker::Model;

/// The name of a sample's project file.
pub const SAMPLE_PROJECT: &str = "sample.prj";

/// The name of a sample's call script among its files.
pub const SAMPLE_CALLS: &str = "sample.calls";

/// A development as its files by name, and the text of a call script for it. No two of the files, the call script among
/// them, have one name.
#[derive(Drop)]
pub struct Sample {
    pub(crate) files: Vec<(String, Vec<u8>)>,
    pub(crate) calls: Vec<u8>,
}

impl Model for Sample {
    ghost use Rattle.std.specs.Prelude.{◌++◌, ◌∷◌, [], codes};
    ghost use Rattle.bk_io.specs.Files.{HasDistinctNames, files_of};
    ghost use Rattle.bk_calls.specs.Sample.{SampleFiles};

    ghost Value = { SampleFiles };

    ghost view = { λ sample. record { files = files_of sample.files.items; calls = sample.calls.items } };

    ghost invariant = { λ sample.
        HasDistinctNames (files_of sample.files.items ++ (codes "sample.calls", sample.calls.items) ∷ []) };
}

impl Sample {
    /// The project file, the machine, the implementation and the proof file, by name.
    pub fn files(&self) -> &[(String, Vec<u8>)]
        ensures { files_of result.now ≡ self.now.files }
    {
        &self.files
    }

    /// The text of the call script.
    pub fn calls(&self) -> &[u8]
        ensures { result.now ≡ self.now.calls }
    {
        &self.calls
    }

    /// All of it as files for a shelf.
    pub fn into_files(self, alloc: Global) -> Result<Vec<(String, Vec<u8>)>, Memory>
        ensures files { IfOk result (λ files. files_of files.items ≡ shelved self) }
        ensures distinct { IfOk result (λ files. HasDistinctNames (files_of files.items)) }
    {
        let name = String::from_str(alloc, SAMPLE_CALLS)?;
        let mut files = self.files;
        files.push((name, self.calls))?;
        Ok(files)
    }
}
