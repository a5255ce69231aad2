ghost use Rattle.std.specs.Prelude.{◌≡◌, ◌++◌, [], IfOk, IsTrue};
ghost use Rattle.edge_core.specs.Room.{has_place};

use std::alloc::{AllocError, Global};
use std::marker::Model;

/// Bytes in a room that was made for them, so that no piece takes memory.
#[derive(Debug, Drop)]
pub(crate) struct FilledRoom {
    bytes: Vec<u8>,
    space: usize,
}

impl Model for FilledRoom {
    ghost use Rattle.std.specs.Prelude.{◌≤◌, vec_len, vec_capacity};
    ghost use Rattle.edge_core.specs.Room.{Filled};

    ghost Value = { Filled };

    ghost view = { λ r. record { bytes = r.bytes.items; space = r.space } };

    ghost invariant = { λ r. (vec_len r.bytes ≤ r.space) × (r.space ≤ vec_capacity r.bytes) };
}

impl FilledRoom {
    /// A room for `space` bytes.
    pub(crate) fn new(alloc: Global, space: usize) -> Result<FilledRoom, AllocError>
        ensures { IfOk result (λ room. room ≡ record { bytes = []; space = space }) }
    {
        Ok(FilledRoom {
            bytes: Vec::with_capacity(alloc, space)?,
            space,
        })
    }

    pub(crate) fn as_slice(&self) -> &[u8]
        ensures { result.now ≡ self.now.bytes }
    {
        self.bytes.as_slice()
    }

    pub(crate) fn has_place(&self, piece: &[u8]) -> bool
        ensures { result ≡ has_place self.now.bytes self.now.space piece.now }
    {
        piece.len() <= self.space - self.bytes.len()
    }

    /// Adds a piece behind the bytes.
    pub(crate) fn append(&mut self, piece: &[u8])
        requires { IsTrue (has_place self.old.bytes self.old.space piece.now) }
        ensures { self.new ≡ record self.old { bytes = self.old.bytes ++ piece.now } }
    {
        self.bytes.extend_from_slice(piece).unwrap();
    }
}
