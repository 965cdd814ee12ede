// Proof files from texts, and what they are read as.

use bk_p_proof::{ScriptFault, Scripts, scripts};
use std::alloc::{AllocError, Global};

/// The scripts of these texts.
pub(crate) fn read(alloc: Global, texts: &[&str]) -> Result<Scripts, ScriptFault> {
    let mut files = Vec::new(alloc);
    for text in texts {
        files.push(Vec::from_slice(alloc, text.as_bytes())?)?;
    }
    if files.len() > 1000 {
        return Err(ScriptFault::Memory);
    }
    scripts(alloc, &files)
}

/// A text of these pieces.
pub(crate) fn joined(alloc: Global, pieces: &[&str]) -> Result<Vec<u8>, AllocError> {
    let mut text = Vec::new(alloc);
    for piece in pieces {
        text.extend_from_slice(piece.as_bytes())?;
    }
    Ok(text)
}

/// The scripts of this one text.
pub(crate) fn read_one(
    alloc: Global,
    text: Result<Vec<u8>, AllocError>,
) -> Result<Scripts, ScriptFault> {
    let mut files = Vec::new(alloc);
    files.push(text?)?;
    scripts(alloc, &files)
}
