//! Types as texts.

use crate::error::Unread;
use bk_form::Ty;
use std::alloc::Global;

/// The type of a text.
pub fn type_of(alloc: Global, text: &str) -> Result<Ty, Unread> {
    let mut types = stacked(alloc, text)?;
    match types.pop() {
        Some(ty) if types.is_empty() => Ok(ty),
        _ => Err(Unread::Text),
    }
}

/// The types that are written one after another.
pub fn types_of(alloc: Global, text: &str) -> Result<Vec<Ty>, Unread> {
    let mut types = stacked(alloc, text)?;
    types.reverse();
    Ok(types)
}

// The types, the last one first: they are read from the end.
fn stacked(alloc: Global, text: &str) -> Result<Vec<Ty>, Unread> {
    let mut types = Vec::new(alloc);
    for byte in text.as_bytes().iter().rev() {
        let ty = match *byte {
            b'i' => Ty::int(),
            b'b' => Ty::boolean(),
            b'c' => Ty::enumerated(0),
            b'd' => Ty::enumerated(7),
            b'P' => Ty::set(alloc, types.pop().ok_or(Unread::Text)?)?,
            b'X' => {
                let left = types.pop().ok_or(Unread::Text)?;
                Ty::pair(alloc, left, types.pop().ok_or(Unread::Text)?)?
            }
            _ => return Err(Unread::Text),
        };
        types.push(ty)?;
    }
    Ok(types)
}
