//! A door that takes few bytes at a time.
ghost use Rattle.std.specs.Prelude.{◌≡◌, ◌<◌, ◌≤◌, ℕ, length, take};

use edge_core::{Door, DoorFault};

/// A door of which a writing takes at most so many bytes, and one at least.
#[derive(Debug, Drop)]
pub struct SlowDoor<D> {
    pub door: D,
    pub most: usize,
}

fn front(piece: &[u8], most: usize) -> &[u8]
    requires { 0 < length piece.now }
    ensures some { 0 < length result.now }
    ensures fits { length result.now ≤ length piece.now }
    ensures same { (n : ℕ) → n ≤ length result.now → take n result.now ≡ take n piece.now }
{
    &piece[..piece.len().min(most.max(1))]
}

impl<D: Door> Door for SlowDoor<D> {
    ghost state = { λ d. D.state d.door };

    ghost open_is_told = { λ d. D.open_is_told d.door };

    fn attach(&mut self, port: Option<u16>) -> Result<(), DoorFault> {
        self.door.attach(port)
    }

    fn accept(&mut self) -> Result<bool, DoorFault> {
        self.door.accept()
    }

    fn read(&mut self, room: &mut [u8]) -> Result<usize, DoorFault> {
        self.door.read(room)
    }

    fn write(&mut self, piece: &[u8]) -> Result<usize, DoorFault> {
        self.door.write(front(piece, self.most))
    }

    fn shut(&mut self) {
        self.door.shut();
    }

    fn faults(&self) -> u64 {
        self.door.faults()
    }
}
