//! The files that were read.

/// What a file is to hold: of a component by the word of its line in the project file.
#[derive(Clone, Copy, PartialEq, Eq, Debug)]
pub enum SourceKind {
    Project,
    Machine,
    Refinement,
    Implementation,
    Proofs,
    Calls,
    Image,
}

impl SourceKind {
    /// Whether it is to hold a component.
    pub(crate) fn is_component(self) -> bool {
        matches!(
            self,
            SourceKind::Machine | SourceKind::Refinement | SourceKind::Implementation
        )
    }
}

/// A file that was read.
#[derive(Clone, Copy)]
pub struct Source<'a> {
    pub name: &'a str,
    pub kind: SourceKind,
    pub text: &'a [u8],
}

/// The source with a name.
pub(crate) fn source_named<'a>(sources: &[Source<'a>], name: &[u8]) -> Option<Source<'a>> {
    for source in sources {
        if source.name.as_bytes() == name {
            return Some(*source);
        }
    }
    None
}
