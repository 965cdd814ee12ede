// Where bytes go: what a put answers, and what it means.
ghost use Rattle.std.specs.Prelude.{◌≡◌, ℕ, List, Option, take, OnOk, OnErr, IfOk};
ghost use Rattle.bk_io.specs.Counts.{HasCause};
ghost use Rattle.bk_io.specs.Pieces.{IsTaken, WroteFront, Piece, PutWhole, PutFront, written_with, taken_of, pieces_with};
ghost use Rattle.bk_io.specs.declared.sink.SinkFault.TheVariants.{Memory};

use crate::text;
use std::alloc::{AllocError, AllocFailed};
use thiserror::Error;

/// Why a piece was not taken.
#[derive(Clone, Copy, Debug, PartialEq, Eq, Error)]
pub enum SinkFault {
    #[error("the output could not be written")]
    Failed,
    #[error("out of memory")]
    Memory,
}

impl From<AllocError> for SinkFault {
    ghost from_gives = { λ _ e. e ≡ Memory };

    fn from(_: AllocError) -> Self {
        SinkFault::Memory
    }
}

impl<T: Drop> From<AllocFailed<T>> for SinkFault {
    ghost from_gives = { λ _ e. e ≡ Memory };

    fn from(_: AllocFailed<T>) -> Self {
        SinkFault::Memory
    }
}

impl From<text::Memory> for SinkFault {
    ghost from_gives = { λ _ e. e ≡ Memory };

    fn from(_: text::Memory) -> Self {
        SinkFault::Memory
    }
}

/// A place for bytes in order. A sink in memory tells contracts its bytes, and the pieces in which they came; one over a
/// stream tells none.
pub trait Sink {
    /// All bytes taken so far, in order, where they are told.
    ghost written: { Self → Option (List ℕ) };

    /// What was taken of each piece that was put, in order: all of it or its front, where the pieces are told. Of a piece
    /// without bytes nothing is told.
    ghost pieces: { Self → Option (List Piece) };

    /// How often writing has failed.
    ghost faults: { Self → ℕ };

    /// Takes the first bytes of a piece, and answers how many.
    fn put(&mut self, piece: &[u8]) -> Result<usize, SinkFault>
        ensures taken { IfOk result (IsTaken piece.now) }
        ensures ok { IfOk result (λ n. written self.new ≡ written_with (written self.old) (take n piece.now)) }
        ensures err { OnErr result (written self.new ≡ written self.old) }
        ensures failed { HasCause SinkFault.Failed (faults self.old) (faults self.new) result }
        ensures told { IfOk result (λ n. pieces self.new ≡ pieces_with (pieces self.old) (taken_of piece.now n)) }
        ensures untold { OnErr result (pieces self.new ≡ pieces self.old) };
}

/// Puts all of a text as one piece: what is left of it again, as long as the sink takes a front alone. After an error a
/// front of it is written.
#[tactic(auto, using(crate::proofs::Written::written_on, crate::proofs::Written::written_none, crate::proofs::Written::put_nothing))]
pub fn put_all<K: Sink>(sink: &mut K, text: &[u8]) -> Result<(), SinkFault>
    ensures ok { OnOk result (K.written sink.new ≡ written_with (K.written sink.old) text.now) }
    ensures err { OnErr result (WroteFront text.now (K.written sink.old) (K.written sink.new)) }
    ensures failed { HasCause SinkFault.Failed (K.faults sink.old) (K.faults sink.new) result }
    ensures told { OnOk result (PutWhole text.now (K.pieces sink.old) (K.pieces sink.new)) }
    ensures untold { OnErr result (PutFront text.now (K.pieces sink.old) (K.pieces sink.new)) }
{
    let mut done = 0;
    while done < text.len() {
        done += sink.put(&text[done..])?;
    }
    Ok(())
}
