ghost use Rattle.std.specs.Prelude.{◌≡◌, ◌++◌, [], length, take, drop, min, IfOk, IsTrue};
ghost use Rattle.edge_core.specs.Room.{has_place};
ghost use Rattle.edge_core.specs.LinkInside.{after_reading, after_writing};

use crate::filled::FilledRoom;
use snap_core::Bytes;
use std::alloc::{AllocError, Global};
use std::marker::Model;

/// A link whose bytes lie in memory.
#[derive(Debug, Drop)]
pub(crate) struct MemoryLink {
    input: Bytes,
    position: usize,
    output: FilledRoom,
}

impl Model for MemoryLink {
    ghost use Rattle.std.specs.Prelude.{◌≤◌, drop, length};
    ghost use Rattle.edge_core.specs.LinkInside.{BoundedLink};

    ghost Value = { BoundedLink };

    ghost view = { λ l. record {
      link = record { left = drop l.position l.input; written = l.output.bytes };
      space = l.output.space;
    } };

    ghost invariant = { λ l. l.position ≤ length l.input };
}

impl MemoryLink {
    /// A link that brings `input`, with room for `space` bytes to be written.
    pub(crate) fn new(alloc: Global, input: Bytes, space: usize) -> Result<MemoryLink, AllocError>
        ensures { IfOk result (λ made. made ≡ record {
          link = record { left = input; written = [] };
          space = space;
        }) }
    {
        Ok(MemoryLink {
            input,
            position: 0,
            output: FilledRoom::new(alloc, space)?,
        })
    }

    pub(crate) fn written(&self) -> &[u8]
        ensures { result.now ≡ self.now.link.written }
    {
        self.output.as_slice()
    }

    pub(crate) fn has_place(&self, piece: &[u8]) -> bool
        ensures { result ≡ has_place self.now.link.written self.now.space piece.now }
    {
        self.output.has_place(piece)
    }

    /// Writes a piece, which has a place in the room.
    pub(crate) fn write(&mut self, piece: &[u8])
        requires { IsTrue (has_place self.old.link.written self.old.space piece.now) }
        ensures { self.new ≡ after_writing piece.now self.old }
    {
        self.output.append(piece);
    }

    /// Reads at most `cut` bytes to the start of `room`, and answers how many.
    pub(crate) fn read(&mut self, cut: usize, room: &mut [u8]) -> usize
        ensures count { result ≡ min cut (min (length room.old) (length self.old.link.left)) }
        ensures bytes { room.new ≡ take result self.old.link.left ++ drop result room.old }
        ensures after { self.new ≡ after_reading result self.old }
    {
        let rest = &self.input.as_slice()[self.position..];
        let count = cut.min(room.len()).min(rest.len());
        room[..count].copy_from_slice(&rest[..count]);
        self.position += count;
        count
    }
}
