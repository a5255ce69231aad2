ghost use Rattle.std.specs.Prelude.{◌≡◌, ◌≤◌, ◌<◌, ◌+◌, ◌-◌, [], length, drop, take, IfOk, OnErr, IsTrue};
ghost use Rattle.edge_core.specs.Door.{BothTold, Reads, DoorHasFailed, KeepsDoor};
ghost use Rattle.link_core.specs.Exchange.{ReadsMore};

use edge_core::{Door, DoorFault};
use std::alloc::{AllocError, Global};
use std::marker::Model;

/// How many bytes of a link are held at most: more than the largest request has.
pub const ROOM_BYTES: usize = 393_216;

/// Room for the bytes of a link that came and aren't answered yet. It is made once, for any number of
/// links. Contracts see the bytes that it holds.
#[derive(Drop)]
pub struct Room {
    bytes: Vec<u8>,
    start: usize,
    end: usize,
}

impl Model for Room {
    ghost use Rattle.std.specs.Prelude.{ℕ, List};
    ghost use Rattle.link_core.specs.Room.{held_in, IsRoom};

    ghost Value = { List ℕ };

    ghost view = { λ r. held_in r.bytes.items r.start r.end };

    ghost invariant = { λ r. IsRoom r.bytes.items r.start r.end };
}

impl Room {
    /// Room that holds nothing yet.
    pub fn new(alloc: Global) -> Result<Room, AllocError>
        ensures { IfOk result (λ room. room ≡ []) }
    {
        Ok(Room {
            bytes: zeros(alloc)?,
            start: 0,
            end: 0,
        })
    }

    pub(crate) fn held(&self) -> &[u8]
        ensures { result.now ≡ self.now }
    {
        &self.bytes[self.start..self.end]
    }

    pub(crate) fn clear(&mut self)
        ensures { self.new ≡ [] }
    {
        self.start = 0;
        self.end = 0;
    }

    // Gives up so many bytes from the front.
    pub(crate) fn drop_front(&mut self, n: usize)
        requires { n ≤ length self.old }
        ensures { self.new ≡ drop n self.old }
    {
        self.start += n;
    }

    // Reads what the open link brings next behind the bytes that are held, and answers whether anything
    // came.
    pub(crate) fn read_more<D: Door>(&mut self, door: &mut D) -> Result<bool, DoorFault>
        requires open { IsTrue (D.state door.old).is_open }
        requires space { length self.old < ROOM_BYTES }
        ensures ok { IfOk result (λ more. ReadsMore more self.old self.new (record {
          before = (D.state door.old).links;
          after = (D.state door.new).links;
        })) }
        ensures failed { OnErr result (DoorHasFailed (D.state door.old) (D.state door.new)) }
        ensures err { OnErr result ((D.state door.new).links ≡ (D.state door.old).links) }
        ensures keeps { KeepsDoor (D.state door.old) (D.state door.new) }
    {
        let n = read_on(door, &mut self.bytes, self.start, self.end)?;
        self.end = self.end - self.start + n;
        self.start = 0;
        Ok(n > 0)
    }
}

// Moves the bytes between two places to the front of a room, reads once behind them, and answers how
// many came.
fn read_on<D: Door>(
    door: &mut D,
    room: &mut [u8],
    start: usize,
    end: usize,
) -> Result<usize, DoorFault>
    requires open { IsTrue (D.state door.old).is_open }
    requires ordered { start ≤ end }
    requires within { end ≤ length room.old }
    requires space { end - start < length room.old }
    ensures len { length room.new ≡ length room.old }
    ensures in_room { IfOk result (λ n. end - start + n ≤ length room.new) }
    ensures kept { take (end - start) room.new ≡ take (end - start) (drop start room.old) }
    ensures reads { IfOk result (λ n. BothTold (Reads (take n (drop (end - start) room.new)))
        (D.state door.old).links (D.state door.new).links) }
    ensures failed { OnErr result (DoorHasFailed (D.state door.old) (D.state door.new)) }
    ensures err { OnErr result ((D.state door.new).links ≡ (D.state door.old).links) }
    ensures keeps { KeepsDoor (D.state door.old) (D.state door.new) }
{
    let held = end - start;
    room.copy_within(start..end, 0);
    door.read(&mut room[held..])
}

fn zeros(alloc: Global) -> Result<Vec<u8>, AllocError>
    ensures { IfOk result (λ bytes. length bytes.items ≡ ROOM_BYTES) }
{
    vec![in alloc; 0u8; ROOM_BYTES]
}
