// Bytes in memory that was reserved for them, and the pieces in which they came.
ghost use Rattle.std.specs.Prelude.{◌≡◌, ◌<◌, ◌≤◌, ◌+◌, ◌++◌, ◌∷◌, [], length, take, vec_len, vec_capacity, OnOk, OnErr, IfOk};
ghost use Rattle.bk_io.specs.Parts.{total, pieces_in};
ghost use Rattle.bk_io.specs.Pieces.{taken_of};

use crate::Memory;
use crate::part::Part;
use std::alloc::Global;

// Bytes with memory for the first `room` of them.
#[derive(Drop)]
pub(crate) struct Store {
    bytes: Vec<u8>,
    // Of each piece that had bytes, in order.
    parts: Vec<Part>,
    room: usize,
    ghost reserved: { room ≤ vec_capacity bytes },
    ghost parts_reserved: { room ≤ vec_capacity parts },
    ghost all: { total parts.items ≡ length bytes.items },
    ghost few: { length parts.items ≤ length bytes.items },
}

impl Store {
    pub(crate) fn new(alloc: Global, room: usize) -> Result<Store, Memory>
        ensures bytes { IfOk result (λ store. store.bytes.items ≡ []) }
        ensures parts { IfOk result (λ store. store.parts.items ≡ []) }
        ensures room { IfOk result (λ store. store.room ≡ room) }
    {
        Ok(Store {
            bytes: Vec::with_capacity(alloc, room)?,
            parts: Vec::with_capacity(alloc, room)?,
            room,
        })
    }

    // Takes the first `count` bytes of a piece.
    #[tactic(auto, using(crate::proofs::Cuts::cuts))]
    pub(crate) fn append(&mut self, piece: &[u8], count: usize) -> Result<(), Memory>
        requires { count ≤ length piece.now }
        ensures ok { OnOk result (self.new.bytes.items ≡ self.old.bytes.items ++ take count piece.now) }
        ensures err { OnErr result (self.new.bytes.items ≡ self.old.bytes.items) }
        ensures told { OnOk result (pieces_in self.new.parts.items self.new.bytes.items ≡
            pieces_in self.old.parts.items self.old.bytes.items ++ taken_of piece.now count) }
        ensures untold { OnErr result (self.new.parts.items ≡ self.old.parts.items) }
        ensures full { OnErr result (self.old.room < length self.old.bytes.items + count) }
        ensures room { self.new.room ≡ self.old.room }
    {
        if count == 0 {
            return Ok(());
        }
        let is_whole = count == piece.len();
        self.parts.reserve(1)?;
        self.bytes.extend_from_slice(&piece[..count])?;
        push_reserved(&mut self.parts, Part { count, is_whole });
        Ok(())
    }

    pub(crate) fn bytes(&self) -> &[u8]
        ensures { result.now ≡ self.now.bytes.items }
    {
        &self.bytes
    }

    pub(crate) fn parts(&self) -> &[Part]
        ensures { result.now ≡ self.now.parts.items }
    {
        &self.parts
    }
}

// Puts a part where memory was reserved for it.
#[tactic(auto, using(crate::proofs::Cuts::has_room))]
fn push_reserved(parts: &mut Vec<Part>, part: Part)
    requires { vec_len parts.now < vec_capacity parts.now }
    ensures items { parts.new.items ≡ parts.old.items ++ part ∷ [] }
    ensures capacity { vec_capacity parts.old ≤ vec_capacity parts.new }
{
    let _ = parts.push(part);
}
