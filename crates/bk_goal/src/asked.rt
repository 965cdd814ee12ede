//! What is asked.

use crate::names::Note;
use bk_dev::Development;
use bk_form::{Token, VarTable};
use bk_po::Obligation;
use bk_raw::RawScript;

/// A script, and the text of the file in which it stands.
#[derive(Clone, Copy)]
pub struct Found<'a> {
    pub script: &'a RawScript,
    /// The name of the file.
    pub file: &'a [u8],
    pub text: &'a [u8],
    pub tokens: &'a [Token],
}

/// An obligation of a development, with its script where one has its name.
#[derive(Clone, Copy)]
pub struct Asked<'a> {
    pub dev: &'a Development,
    /// The table of the development's obligations.
    pub table: &'a VarTable,
    pub obligation: &'a Obligation,
    pub found: Option<Found<'a>>,
    /// What the texts of the components call bound variables.
    pub notes: &'a [Note],
    /// After which rule the sequents are shown; where it is not said, after the last one that fits.
    pub at: Option<usize>,
}
