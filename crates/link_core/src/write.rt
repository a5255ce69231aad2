//! Writing bytes to a link, in whatever pieces it takes them.
ghost use Rattle.std.specs.Prelude.{◌≡◌, ◌≤◌, ◌<◌, ◌-◌, length, take, drop, IsTrue, IfOk, OnOk, OnErr};
ghost use Rattle.edge_core.specs.Door.{BothTold, Writes, DoorHasFailed, KeepsDoor};
ghost use Rattle.link_core.specs.Exchange.{TakesPart};

use edge_core::{Door, DoorFault};

/// Writes all the bytes to the open link. An error is the door's; a first part of the bytes, and not
/// all of them, was written before it.
pub(crate) fn write_all<D: Door>(door: &mut D, bytes: &[u8]) -> Result<(), DoorFault>
    requires open { IsTrue (D.state door.old).is_open }
    ensures took { OnOk result (BothTold (Writes bytes.now) (D.state door.old).links (D.state door.new).links) }
    ensures failed { OnErr result (DoorHasFailed (D.state door.old) (D.state door.new)) }
    ensures part { OnErr result (TakesPart bytes.now (record {
      before = (D.state door.old).links;
      after = (D.state door.new).links;
    })) }
    ensures keeps { KeepsDoor (D.state door.old) (D.state door.new) }
{
    let mut written = 0;
    while written < bytes.len() {
        written = write_more(door, bytes, written)?;
    }
    Ok(())
}

// Writes once what isn't written yet, and answers how many bytes are written in all.
fn write_more<D: Door>(door: &mut D, bytes: &[u8], written: usize) -> Result<usize, DoorFault>
    requires open { IsTrue (D.state door.old).is_open }
    requires some_left { written < length bytes.now }
    ensures more { IfOk result (λ n. written < n) }
    ensures within { IfOk result (λ n. n ≤ length bytes.now) }
    ensures took { IfOk result (λ n. BothTold (Writes (take (n - written) (drop written bytes.now)))
        (D.state door.old).links (D.state door.new).links) }
    ensures failed { OnErr result (DoorHasFailed (D.state door.old) (D.state door.new)) }
    ensures err { OnErr result ((D.state door.new).links ≡ (D.state door.old).links) }
    ensures keeps { KeepsDoor (D.state door.old) (D.state door.new) }
{
    let n = door.write(&bytes[written..])?;
    Ok(written + n)
}
