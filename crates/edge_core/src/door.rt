ghost use Rattle.std.specs.Prelude.{◌≡◌, ◌≤◌, ◌<◌, length, take, IfOk, IfSome, OnOk, OnErr, IsTrue, is_some, false, option_map, MatchBool};
ghost use Rattle.edge_core.specs.Door.{DoorState, DoorHasFailed, AsksToAttach, KeepsAttachment, KeepsDoor, BothTold, Accepts, FindsNone, Reads, Writes, after_shut, asked_also};

use thiserror::Error;

/// A call on links failed, and was counted as a fault.
#[derive(Clone, Copy, Debug, PartialEq, Eq, Error)]
#[error("the link failed")]
pub struct DoorFault;

/// Links, one after another, as one state: each brings bytes and takes bytes. Failures are counted,
/// and a call fails only where it counted one.
pub trait Door {
    /// What the door tells of its links and of the calls of it.
    ghost state: { Self → DoorState };

    /// Listens on a port of 127.0.0.1, or takes standard input and output as the one link. Fails
    /// where the port can't be listened on. A fault is counted.
    fn attach(&mut self, port: Option<u16>) -> Result<(), DoorFault>
        ensures ok { OnOk result (IsTrue (state self.new).is_attached) }
        ensures err { OnErr result ((state self.new).is_attached ≡ (state self.old).is_attached) }
        ensures failed { OnErr result (DoorHasFailed (state self.old) (state self.new)) }
        ensures asks { AsksToAttach port (state self.old) (state self.new) };

    /// Opens the next link and answers true, or answers false where no link is left. After a
    /// failure no link is open, and the next one is still to come. A fault is counted.
    fn accept(&mut self) -> Result<bool, DoorFault>
        requires attached { IsTrue (state self.old).is_attached }
        requires none_open { (state self.old).is_open ≡ false }
        ensures open { IfOk result (λ more. (state self.new).is_open ≡ more) }
        ensures next { IfOk result (λ more. MatchBool more
            (BothTold Accepts (state self.old).links (state self.new).links)
            (BothTold FindsNone (state self.old).links (state self.new).links)) }
        ensures err_open { OnErr result ((state self.new).is_open ≡ (state self.old).is_open) }
        ensures err_links { OnErr result ((state self.new).links ≡ (state self.old).links) }
        ensures failed { OnErr result (DoorHasFailed (state self.old) (state self.new)) }
        ensures keeps { KeepsAttachment (state self.old) (state self.new) };

    /// Reads what the open link brings next to the start of `room`, and answers how many bytes
    /// these are: none at the link's end. Behind the bytes that were read, and after a failure,
    /// `room` may hold anything. A failure leaves the link open, and a fault is counted.
    fn read(&mut self, room: &mut [u8]) -> Result<usize, DoorFault>
        requires open { IsTrue (state self.old).is_open }
        requires has_room { 0 < length room.old }
        ensures in_room { IfOk result (λ n. n ≤ length room.new) }
        ensures reads { IfOk result (λ n.
            BothTold (Reads (take n room.new)) (state self.old).links (state self.new).links) }
        ensures err { OnErr result ((state self.new).links ≡ (state self.old).links) }
        ensures failed { OnErr result (DoorHasFailed (state self.old) (state self.new)) }
        ensures keeps { KeepsDoor (state self.old) (state self.new) };

    /// Writes bytes from the start of `piece` to the open link, and answers how many: one or more.
    /// A failure leaves the link open, and a fault is counted.
    fn write(&mut self, piece: &[u8]) -> Result<usize, DoorFault>
        requires open { IsTrue (state self.old).is_open }
        requires has_bytes { 0 < length piece.now }
        ensures some { IfOk result (λ n. 0 < n) }
        ensures in_piece { IfOk result (λ n. n ≤ length piece.now) }
        ensures writes { IfOk result (λ n.
            BothTold (Writes (take n piece.now)) (state self.old).links (state self.new).links) }
        ensures err { OnErr result ((state self.new).links ≡ (state self.old).links) }
        ensures failed { OnErr result (DoorHasFailed (state self.old) (state self.new)) }
        ensures keeps { KeepsDoor (state self.old) (state self.new) };

    /// Ends the open link, if there is one. What was written stays.
    fn shut(&mut self)
        ensures closed { (state self.new).is_open ≡ false }
        ensures links { (state self.new).links ≡ option_map after_shut (state self.old).links }
        ensures keeps { KeepsAttachment (state self.old) (state self.new) };

    /// How many calls failed so far. The count stays at its largest number.
    fn faults(&self) -> u64
        ensures { result ≡ (state self.now).fault_count };

    /// Where links are told, one of them is the open one exactly where a link is open.
    ghost open_is_told: { (door : Self) →
        IfSome (state door).links (λ told. (state door).is_open ≡ is_some told.current) };
}

/// At what a door was asked to attach.
#[derive(Clone, Copy, Debug, PartialEq, Eq)]
pub enum AskedPort {
    /// It was not asked.
    Never,
    /// It was asked once: at a port, or at the standard streams where there is none.
    Once(Option<u16>),
    /// It was asked more than once.
    Again,
}

impl AskedPort {
    /// What it is once the door was asked to attach there too.
    pub(crate) fn also(self, port: Option<u16>) -> AskedPort
        ensures { result ≡ asked_also port self }
    {
        match self {
            AskedPort::Never => AskedPort::Once(port),
            AskedPort::Once(_) | AskedPort::Again => AskedPort::Again,
        }
    }
}
