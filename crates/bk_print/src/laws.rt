//! Laws of printed scripts. Each is the contract of a function that does nothing.

ghost use Rattle.bk_print.specs.Laws.{ScriptsReadBack, FilesReadBack};
ghost use Rattle.bk_print.specs.FoundFile.{FoundFilesProve};
ghost use Rattle.bk_print.specs.Examples.{TallyReadsInScope};

/// The text of a script reads back as the same rules.
pub fn scripts_read_back()
    ensures { ScriptsReadBack }
{}

/// The texts of scripts with different names, one after another and then a comment, read back as these scripts.
pub fn files_read_back()
    ensures { FilesReadBack }
{}

/// The text that is found reads as one proof file, whose scripts prove each obligation for which one is written.
pub fn found_files_prove()
    ensures { FoundFilesProve }
{}

/// The open obligations of the adder read back in their scopes.
pub fn tally_reads_in_scope()
    ensures { TallyReadsInScope }
{}
