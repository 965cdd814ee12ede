//! What the definitions imply.

ghost use Rattle.bk_sources.specs.Laws.{FaultsAreOne, FilesAreTold, ShallowFilesHaveNoFault, TextsAreCut};

/// Files whose tokens are told have no fault.
pub fn shallow_files_have_no_fault()
    ensures { ShallowFilesHaveNoFault }
{}

/// Files have at most one fault.
pub fn faults_are_one()
    ensures { FaultsAreOne }
{}

/// A text has tokens, or is at fault.
pub fn texts_are_cut()
    ensures { TextsAreCut }
{}

/// The tokens of files are told, or the files are at fault.
pub fn files_are_told()
    ensures { FilesAreTold }
{}
