//! Scripts of proof files.

ghost use Rattle.std.specs.Prelude.{◌≡◌, ◌≢◌, All};
ghost use Rattle.std.specs.List.{AllPairs};
ghost use Rattle.bk_raw.specs.Errors.Limits.{IsLowFile};
ghost use Rattle.bk_p_proof.specs.Files.{AreOfTexts, IsShort, StandsInFile, names_of};

use bk_raw::RawScript;
use std::marker::Model;

/// The scripts of proof files, in order. Clauses see them as a list.
#[derive(Drop)]
pub struct Scripts {
    all: Vec<RawScript>,
}

impl Model for Scripts {
    ghost use Rattle.std.specs.Prelude.{List};
    ghost use Rattle.std.specs.Coded.{coded_list};
    ghost use Rattle.bk_raw.specs.Codes.ScriptCodes.{coded_script};
    ghost use Rattle.bk_raw.specs.Trees.ScriptTree.{RawScript};
    ghost use Rattle.bk_p_proof.specs.Files.{AreOfTexts};

    ghost Value = { List RawScript };

    ghost coded = { coded_list coded_script };

    ghost view = { λ s. s.all.items };

    ghost invariant = { λ s. AreOfTexts s.all.items };
}

impl Scripts {
    /// The scripts of some texts.
    pub(crate) fn of_texts(all: Vec<RawScript>) -> Scripts
        requires { AreOfTexts all.items }
        ensures { result ≡ all.items }
    {
        Scripts { all }
    }

    /// The scripts, in the order of the files.
    pub fn all(&self) -> &[RawScript]
        ensures { result.now ≡ self.now }
    {
        &self.all
    }

    /// What holds of them: no two have one name, none has too many rules, no term is too high, and each stands in a file.
    pub fn facts(&self)
        ensures distinct { AllPairs (λ a b. a ≢ b) (names_of self.now) }
        ensures short { All IsShort self.now }
        ensures low { IsLowFile self.now }
        ensures each { All StandsInFile self.now }
    {
        let _ = &self.all;
    }
}
