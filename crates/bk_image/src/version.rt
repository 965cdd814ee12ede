//! The versions of the layout.

/// A version of an image's layout. The first has no field for MAXINT, and is that of the images whose MAXINT is `DEFAULT_MAX`; all
/// others are in the second.
#[derive(Clone, Copy, PartialEq, Eq, Debug)]
pub enum ImageVersion {
    First,
    Second,
}
