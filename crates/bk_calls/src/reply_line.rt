//! A line of a session in memory that was reserved for it.
ghost use Rattle.std.specs.Prelude.{◌≡◌, ◌≤◌, ◌++◌, [], length, IfOk};
ghost use Rattle.bk_calls.specs.Room.{HasRoom, IsMadeFor, longest_line, longest_closing};

use crate::room::line_room;
use bk_code::{Image, Memory};
use std::alloc::Global;
use std::marker::Model;

/// A buffer for the lines of a session, one at a time, with memory for the longest line of one image, the last line of a
/// session included. Only `new` takes memory.
#[derive(Drop)]
pub struct ReplyLine {
    bytes: Vec<u8>,
    room: usize,
}

impl Model for ReplyLine {
    ghost use Rattle.std.specs.Prelude.{◌≤◌, length, vec_capacity};
    ghost use Rattle.bk_calls.specs.Room.{Line, longest_closing};

    ghost Value = { Line };

    ghost view = { λ line. record { bytes = line.bytes.items; room = line.room } };

    // There is memory for the room, and room for each last line.
    ghost invariant = { λ line. (line.room ≤ vec_capacity line.bytes) × (length longest_closing ≤ line.room) };
}

impl ReplyLine {
    /// A buffer for the lines of an image, without a line yet.
    pub fn new(alloc: Global, image: &Image) -> Result<ReplyLine, Memory>
        ensures empty { IfOk result (λ line. line.bytes ≡ []) }
        ensures room { IfOk result (λ line. line.room ≡ length (longest_line image.now)) }
        ensures made { IfOk result (IsMadeFor image.now) }
    {
        let room = line_room(image).ok_or(Memory)?;
        let bytes = Vec::with_capacity(alloc, room)?;
        Ok(ReplyLine { bytes, room })
    }

    /// The present line with its line feed.
    pub fn bytes(&self) -> &[u8]
        ensures { result.now ≡ self.now.bytes }
    {
        &self.bytes
    }

    pub(crate) fn clear(&mut self)
        ensures bytes { self.new.bytes ≡ [] }
        ensures room { self.new.room ≡ self.old.room }
        ensures least { length longest_closing ≤ self.new.room }
    {
        self.bytes.clear();
    }

    // Writes a text after the present bytes.
    pub(crate) fn write(&mut self, text: &[u8])
        requires { HasRoom self.old text.now }
        ensures bytes { self.new.bytes ≡ self.old.bytes ++ text.now }
        ensures room { self.new.room ≡ self.old.room }
    {
        self.bytes.extend_from_slice(text).unwrap();
    }
}
