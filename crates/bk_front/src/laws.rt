//! What the definitions imply.

ghost use Rattle.bk_front.specs.Laws.{LinesAreRead, LinesHaveOneRefusal, ReadAreDevelopments, ReadAreExecutable, TextsAreRead, TextsHaveOneRefusal};
ghost use Rattle.bk_front.specs.Project.{ReadAsOne, FaultsExclude};
ghost use Rattle.bk_front.specs.ProjectFile.{LinesAreOne, LinesExclude};

/// A project file has one list of lines at most, and no fault where it has one.
pub fn project_files()
    ensures one { LinesAreOne }
    ensures exclude { LinesExclude }
{}

/// The texts of the component files are read as one development at most, and have no fault where they are read.
pub fn projects()
    ensures one { ReadAsOne }
    ensures exclude { FaultsExclude }
{}

/// A project file has at most one fault or limit.
pub fn lines_have_one_refusal()
    ensures { LinesHaveOneRefusal }
{}

/// The texts of component files have at most one fault or limit.
pub fn texts_have_one_refusal()
    ensures { TextsHaveOneRefusal }
{}

/// A project file has lines, or a fault or limit.
pub fn lines_are_read()
    ensures { LinesAreRead }
{}

/// The texts of component files are read as a development, or have a fault or limit.
pub fn texts_are_read()
    ensures { TextsAreRead }
{}

/// What the texts of component files are read as is a development, which is in B0 where it ends in an implementation.
pub fn what_is_read()
    ensures development { ReadAreDevelopments }
    ensures executable { ReadAreExecutable }
{}
