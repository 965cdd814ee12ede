//! Names that are like another one.

use bk_io::Memory;
use std::alloc::Global;
use std::str;
use strsim::levenshtein;

/// The place of the name that the fewest edits lead to; the first of several. Names that are no text are passed over.
pub fn nearest(alloc: Global, wanted: &[u8], names: &[&[u8]]) -> Result<Option<usize>, Memory> {
    let mut best: Option<(usize, usize)> = None;
    for (index, name) in names.iter().enumerate() {
        if let Some(edits) = edits_between(alloc, wanted, *name)? {
            best = nearer(best, index, edits);
        }
    }
    Ok(best.map(|found| found.0))
}

// The nearer of what is found and another one.
fn nearer(best: Option<(usize, usize)>, index: usize, edits: usize) -> Option<(usize, usize)> {
    match best {
        Some(found) if found.1 <= edits => Some(found),
        _ => Some((index, edits)),
    }
}

// How many edits lead from one to the other, if both are texts.
fn edits_between(alloc: Global, from: &[u8], to: &[u8]) -> Result<Option<usize>, Memory> {
    let Ok(from) = str::from_utf8(from) else {
        return Ok(None);
    };
    let Ok(to) = str::from_utf8(to) else {
        return Ok(None);
    };
    Ok(Some(levenshtein(alloc, from, to)?))
}
