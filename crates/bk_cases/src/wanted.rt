// How a case is to end.

use crate::line::parted;
use crate::stop::Stop;
use bk_io::{Sink, put_all};
use std::alloc::Global;

// So many bytes of an output are shown at most.
const SHOWN: usize = 4000;

/// The exit status that is wanted, and the output: its parts in order, between which any bytes may stand.
#[derive(Drop)]
pub struct Wanted {
    pub status: u8,
    // those parts after which others stand
    parts: Vec<Vec<u8>>,
    last: Vec<u8>,
}

impl Wanted {
    /// This status, and no output.
    pub fn new(alloc: Global, status: u8) -> Wanted {
        Wanted {
            status,
            parts: Vec::new(alloc),
            last: Vec::new(alloc),
        }
    }

    /// The last part, to which bytes are added.
    pub fn last(&mut self) -> &mut Vec<u8> {
        &mut self.last
    }

    /// Ends the last part; after it any bytes may stand.
    pub fn end_part(&mut self, alloc: Global) -> Result<(), Stop> {
        let part = std::mem::replace(&mut self.last, Vec::new(alloc));
        self.parts.push(part)?;
        Ok(())
    }

    /// Whether a program that ended so and wrote this is as wanted.
    pub fn is_met(&self, status: u8, written: &[u8]) -> bool {
        status == self.status && self.is_output(written)
    }

    fn is_output(&self, written: &[u8]) -> bool {
        let Some((first, inner)) = self.parts.split_first() else {
            return written == self.last.as_slice();
        };
        match written.strip_prefix(first.as_slice()) {
            Some(rest) => has_parts(rest, inner, &self.last),
            None => false,
        }
    }

    /// Writes the parts, with a line `..` after each but the last.
    pub fn show<K: Sink>(&self, out: &mut K) -> Result<(), Stop> {
        for part in &self.parts {
            show_bytes(part, out)?;
            put_all(out, b"..\n")?;
        }
        show_bytes(&self.last, out)
    }
}

/// Writes the first of these bytes, and a line end.
pub fn show_bytes<K: Sink>(bytes: &[u8], out: &mut K) -> Result<(), Stop> {
    put_all(out, &bytes[..bytes.len().min(SHOWN)])?;
    put_all(out, b"\n")?;
    Ok(())
}

// Whether the parts stand in the bytes in order, and after them the last at the end.
fn has_parts(bytes: &[u8], parts: &[Vec<u8>], last: &[u8]) -> bool {
    let mut rest = bytes;
    for part in parts {
        match parted(rest, part) {
            Some((_, after)) => rest = after,
            None => return false,
        }
    }
    rest.ends_with(last)
}
