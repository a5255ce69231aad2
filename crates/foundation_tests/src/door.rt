ghost use Rattle.std.specs.Prelude.{◌≡◌, ◌<◌, ◌≤◌, IsTrue, false, length, IfOk};

use crate::streams::Only;
use edge_core::{Door, DoorFault, RealDoor};
use std::io;
use std::io::{Print, Read, Write};
use std::net::{OpenListener, TcpListener, TcpStream};
use std::rt::Net;
use std::test::Fail;

/// Writes back what the open link brings, to its end.
fn echo_link<D: Door>(door: &mut D) -> Result<(), DoorFault>
    requires { IsTrue (D.state door.old).is_open }
    ensures { (D.state door.new).is_attached ≡ (D.state door.old).is_attached }
{
    let mut room = [0; 8];
    for _ in 0..64 {
        let n = door.read(&mut room)?;
        if n == 0 {
            break;
        }
        door.write(&room[..n])?;
    }
    Ok(())
}

/// Writes back what each link brings, and answers how many links there were.
fn echo<D: Door>(door: &mut D, port: Option<u16>) -> Result<usize, DoorFault>
    requires { (D.state door.old).is_open ≡ false }
{
    door.attach(port)?;
    for links in 0..8 {
        if !door.accept()? {
            return Ok(links);
        }
        echo_link(door)?;
        door.shut();
    }
    Ok(8)
}

#[test]
fn the_real_door_takes_standard_streams_as_one_link(rt: HostRuntime) -> Result<(), Fail> {
    let mut door = RealDoor::new(rt, b"standard".as_slice(), Only(b"standard"));
    assert_eq!(rt; echo(&mut door, None), Ok(1));
    assert_eq!(rt; door.faults(), 0);
    Ok(())
}

/// What the next link brings first. It is answered `pong`.
fn pong<D: Door>(door: &mut D, room: &mut [u8]) -> Result<usize, DoorFault>
    requires attached { IsTrue (D.state door.old).is_attached }
    requires none_open { (D.state door.old).is_open ≡ false }
    requires has_room { 0 < length room.old }
    ensures { IfOk result (λ n. n ≤ length room.new) }
{
    if !door.accept()? {
        return Ok(0);
    }
    let n = door.read(room)?;
    door.write(b"pong")?;
    door.shut();
    Ok(n)
}

/// A port of 127.0.0.1 that nobody listened on just now.
fn free_port<N: Net>(net: &N) -> io::Result<u16> {
    Ok(
        TcpListener::bind(net, ("127.0.0.1", 0))?
            .local_addr()?
            .port(),
    )
}

/// Whether a second door can't listen on the port.
fn is_taken<N: Net + Print>(net: &N, port: u16) -> bool {
    let mut door = RealDoor::new(net, io::empty(), net);
    door.attach(Some(port)).is_err() && door.faults() == 1
}

/// Sends `ping`.
fn ping<N: Net>(net: &N, port: u16) -> io::Result<N::Stream> {
    let mut client = TcpStream::connect(net, ("127.0.0.1", port))?;
    client.write_all(b"ping")?;
    Ok(client)
}

/// Whether all that comes is `pong`.
fn is_ponged(client: &mut impl Read) -> io::Result<bool> {
    let mut answer = [0; 4];
    client.read_exact(&mut answer)?;
    Ok(answer == *b"pong" && client.read(&mut answer)? == 0)
}

#[test]
fn the_real_door_listens_on_a_port(rt: HostRuntime) -> Result<(), Fail> {
    let port = free_port(&rt)?;
    let mut door = RealDoor::new(rt, io::empty(), rt.stdout());
    door.attach(Some(port))?;
    assert!(rt; is_taken(&rt, port));
    assert!(rt; TcpStream::connect(&rt, ("127.0.0.2", port)).is_err());
    let mut client = ping(&rt, port)?;
    let mut room = [0; 8];
    let n = pong(&mut door, &mut room)?;
    assert!(rt; &room[..n] == b"ping".as_slice());
    assert!(rt; is_ponged(&mut client)?);
    Ok(())
}
