ghost use Rattle.std.specs.Prelude.{◌≡◌, ◌≤◌, length, false, IfOk, is_some};
ghost use Rattle.edge_core.specs.Faults.{HasRisen};

use crate::door::{AskedPort, Door, DoorFault};
use std::io;
use std::io::{Print, Read, Write};
use std::marker::Model;
use std::net::{IpAddr, Ipv4Addr, OpenListener, OpenStream, SocketAddr};
use std::rt::Net;

/// Where links come from.
#[derive(Drop)]
enum Source<L> {
    /// Standard input and output, which are one link.
    Standard { taken: bool },
    Port(L),
}

/// The other side of the open link.
#[derive(Drop)]
enum Peer<S> {
    Standard,
    Stream(S),
}

/// A port of this machine, or two streams as standard input and output. Which bytes they give and
/// take isn't told.
#[derive(Drop)]
pub struct RealDoor<N: Net, I, O> {
    net: N,
    input: I,
    output: O,
    source: Option<Source<N::Listener>>,
    asked: AskedPort,
    peer: Option<Peer<N::Stream>>,
    faults: u64,
}

impl<N: Net, I, O> Model for RealDoor<N, I, O> {
    ghost use Rattle.std.specs.Prelude.{is_some};
    ghost use Rattle.edge_core.specs.Door.{RealDoorState};

    ghost Value = { RealDoorState };

    ghost view = { λ d. record {
      is_attached = is_some d.source;
      asked = d.asked;
      is_open = is_some d.peer;
      fault_count = d.faults;
    } };
}

fn source_at<N: Net>(net: &N, port: Option<u16>) -> io::Result<Source<N::Listener>> {
    match port {
        None => Ok(Source::Standard { taken: false }),
        Some(port) => {
            let address = SocketAddr::new(IpAddr::V4(Ipv4Addr::LOCALHOST), port);
            Ok(Source::Port(net.bind(address)?))
        }
    }
}

// The next link, or none where no link is left.
fn next_peer<L: OpenListener>(source: &mut Option<Source<L>>) -> io::Result<Option<Peer<L::Stream>>>
where
    L::Stream: OpenStream,
    ensures { is_some source.new ≡ is_some source.old }
{
    match source {
        None => Ok(None),
        Some(Source::Standard { taken: true }) => Ok(None),
        Some(Source::Standard { taken }) => {
            *taken = true;
            Ok(Some(Peer::Standard))
        }
        Some(Source::Port(listener)) => {
            let (stream, _) = listener.accept()?;
            let _ = stream.set_nodelay(true);
            Ok(Some(Peer::Stream(stream)))
        }
    }
}

fn read_from<S: Read, I: Read>(
    peer: &mut Option<Peer<S>>,
    input: &mut I,
    room: &mut [u8],
) -> io::Result<usize>
    ensures in_room { IfOk result (λ n. n ≤ length room.new) }
    ensures same_open { is_some peer.new ≡ is_some peer.old }
{
    match peer {
        Some(Peer::Stream(stream)) => stream.read(room),
        _ => input.read(room),
    }
}

fn write_to<S: Write, O: Print>(
    peer: &mut Option<Peer<S>>,
    output: &O,
    piece: &[u8],
) -> io::Result<usize>
    ensures in_piece { IfOk result (λ n. n ≤ length piece.now) }
    ensures same_open { is_some peer.new ≡ is_some peer.old }
{
    match peer {
        Some(Peer::Stream(stream)) => stream.write(piece),
        _ => output.write_some(piece),
    }
}

impl<N: Net, I, O> RealDoor<N, I, O> {
    /// A door that isn't attached yet.
    pub fn new(net: N, input: I, output: O) -> RealDoor<N, I, O>
        ensures { result ≡ record {
          is_attached = false;
          asked = AskedPort.Never;
          is_open = false;
          fault_count = 0;
        } }
    {
        RealDoor {
            net,
            input,
            output,
            source: None,
            asked: AskedPort::Never,
            peer: None,
            faults: 0,
        }
    }

    fn failure(&mut self) -> DoorFault
        ensures rises { HasRisen self.old.fault_count self.new.fault_count }
        ensures count { self.old.fault_count ≤ self.new.fault_count }
        ensures same { self.new ≡ record self.old { fault_count = self.new.fault_count } }
    {
        self.faults = self.faults.saturating_add(1);
        DoorFault
    }
}

impl<N: Net, I: Read, O: Print> Door for RealDoor<N, I, O> {
    ghost use Rattle.edge_core.specs.Door.{told_of_system};

    ghost state = { told_of_system };

    ghost open_is_told = { λ _. tt };

    fn attach(&mut self, port: Option<u16>) -> Result<(), DoorFault> {
        self.asked = self.asked.also(port);
        match source_at(&self.net, port) {
            Ok(source) => {
                self.source = Some(source);
                Ok(())
            }
            Err(_) => Err(self.failure()),
        }
    }

    fn accept(&mut self) -> Result<bool, DoorFault> {
        match next_peer(&mut self.source) {
            Ok(Some(peer)) => {
                self.peer = Some(peer);
                Ok(true)
            }
            Ok(None) => Ok(false),
            Err(_) => Err(self.failure()),
        }
    }

    fn read(&mut self, room: &mut [u8]) -> Result<usize, DoorFault> {
        match read_from(&mut self.peer, &mut self.input, room) {
            Ok(n) => Ok(n),
            Err(_) => Err(self.failure()),
        }
    }

    fn write(&mut self, piece: &[u8]) -> Result<usize, DoorFault> {
        match write_to(&mut self.peer, &self.output, piece) {
            Ok(n) if n > 0 => Ok(n),
            _ => Err(self.failure()),
        }
    }

    fn shut(&mut self) {
        self.peer = None;
    }

    fn faults(&self) -> u64 {
        self.faults
    }
}
