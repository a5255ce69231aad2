//! One link, from its first byte to its end.
ghost use Rattle.std.specs.Prelude.{◌≡◌, ◌<◌, ◌≤◌, ◌-◌, false, IsTrue};
ghost use Rattle.edge_core.specs.Door.{KeepsAttachment, KeepsDoor};
ghost use Rattle.http_front.specs.Answer.{IsHeadStatus};
ghost use Rattle.http_front.specs.Request.{seen};
ghost use Rattle.link_core.specs.Inside as inside;
ghost use Rattle.link_core.specs.Link as link;

use crate::end::LinkEnd;
use crate::handler::Handler;
use crate::replies::{memory_bytes, print_refusal};
use crate::room::Room;
use crate::write::write_all;
use edge_core::Door;
use http_front::{Next, Request, next_request, requests_are_short, whole_stays};
use std::alloc::Global;

/// How many requests a link takes. The last of them closes it.
const MOST_REQUESTS: usize = 1_000_000;

/// Serves the open link of a door: answers each request in turn until the link ends or is closed,
/// and shuts it.
pub fn serve_link<A: Handler, D: Door>(
    alloc: Global,
    answers: &mut A,
    door: &mut D,
    room: &mut Room,
) -> LinkEnd
    requires open { IsTrue (D.state door.old).is_open }
    ensures serves { link.Serves A.replies (record {
      before = answers.old;
      after = answers.new;
      links = record { before = (D.state door.old).links; after = (D.state door.new).links };
    }) result }
    ensures failed { link.IfFault result (D.state door.old) (D.state door.new) }
    ensures none_open { (D.state door.new).is_open ≡ false }
    ensures keeps { KeepsAttachment (D.state door.old) (D.state door.new) }
{
    let end = serve_open(alloc, answers, door, room);
    door.shut();
    end
}

// Serves the open link to its end.
fn serve_open<A: Handler, D: Door>(
    alloc: Global,
    answers: &mut A,
    door: &mut D,
    room: &mut Room,
) -> LinkEnd
    requires open { IsTrue (D.state door.old).is_open }
    ensures serves { link.IsServed A.replies (record {
      before = answers.old;
      after = answers.new;
      links = record { before = (D.state door.old).links; after = (D.state door.new).links };
    }) result }
    ensures failed { link.IfFault result (D.state door.old) (D.state door.new) }
    ensures keeps { KeepsDoor (D.state door.old) (D.state door.new) }
{
    whole_stays();
    requests_are_short();
    room.clear();
    let mut left = MOST_REQUESTS;
    loop {
        match next_request(room.held()) {
            Next::Found { request, used } => {
                let request = asked(request, left);
                if let Some(end) = give_reply(answers, door, &request) {
                    return end;
                }
                room.drop_front(used);
                left -= 1;
            }
            Next::NeedMore => match room.read_more(door) {
                Ok(true) => {}
                Ok(false) => return input_end(room),
                Err(_) => return LinkEnd::Fault,
            },
            Next::Bad { status } => return refuse(alloc, door, status),
        }
    }
}

// A request as it is asked where so many can still be answered: the last of them closes the link.
fn asked<'a>(request: Request<'a>, left: usize) -> Request<'a>
    requires some { 0 < left }
    requires most { left ≤ MOST_REQUESTS }
    ensures { seen result ≡ link.asked (MOST_REQUESTS - left) (seen request.entry) }
{
    Request {
        close: request.close || left == 1,
        ..request
    }
}

// How a link ends whose input ended.
fn input_end(room: &Room) -> LinkEnd
    ensures { result ≡ inside.input_end room.now }
{
    if room.held().is_empty() {
        LinkEnd::End
    } else {
        LinkEnd::Inside
    }
}

// Answers a request. Where the link doesn't go on after it, it says how the link ends.
fn give_reply<A: Handler, D: Door>(
    answers: &mut A,
    door: &mut D,
    request: &Request<'_>,
) -> Option<LinkEnd>
    requires open { IsTrue (D.state door.old).is_open }
    ensures gives { inside.GivesReply A.replies (seen request.now) (record {
      before = answers.old;
      after = answers.new;
      links = record { before = (D.state door.old).links; after = (D.state door.new).links };
    }) result }
    ensures failed { inside.IfStops result (D.state door.old) (D.state door.new) }
    ensures keeps { KeepsDoor (D.state door.old) (D.state door.new) }
{
    match answers.answer(request) {
        Ok(bytes) => write_reply(door, bytes.as_slice(), request.close),
        Err(_) => Some(write_last(door, memory_bytes(), LinkEnd::Memory)),
    }
}

// Writes a reply, after which the link closes or doesn't.
fn write_reply<D: Door>(door: &mut D, bytes: &[u8], close: bool) -> Option<LinkEnd>
    requires open { IsTrue (D.state door.old).is_open }
    ensures writes { inside.WritesReply bytes.now close result (record {
      before = (D.state door.old).links;
      after = (D.state door.new).links;
    }) }
    ensures failed { inside.IfStops result (D.state door.old) (D.state door.new) }
    ensures keeps { KeepsDoor (D.state door.old) (D.state door.new) }
{
    if close {
        return Some(write_last(door, bytes, LinkEnd::Closed));
    }
    match write_all(door, bytes) {
        Ok(()) => None,
        Err(_) => Some(LinkEnd::Fault),
    }
}

// Writes the last bytes of a link, which then ends so.
#[tactic(auto, using(crate::proofs::Serving::no_fault))]
fn write_last<D: Door>(door: &mut D, bytes: &[u8], end: LinkEnd) -> LinkEnd
    requires open { IsTrue (D.state door.old).is_open }
    requires end { inside.IsByReply end }
    ensures writes { inside.WritesLast bytes.now end result (record {
      before = (D.state door.old).links;
      after = (D.state door.new).links;
    }) }
    ensures failed { link.IfFault result (D.state door.old) (D.state door.new) }
    ensures keeps { KeepsDoor (D.state door.old) (D.state door.new) }
{
    match write_all(door, bytes) {
        Ok(()) => end,
        Err(_) => LinkEnd::Fault,
    }
}

// Refuses a head with that status.
fn refuse<D: Door>(alloc: Global, door: &mut D, status: u16) -> LinkEnd
    requires open { IsTrue (D.state door.old).is_open }
    requires status { IsHeadStatus status }
    ensures writes { inside.Refuses status result (record {
      before = (D.state door.old).links;
      after = (D.state door.new).links;
    }) }
    ensures failed { link.IfFault result (D.state door.old) (D.state door.new) }
    ensures keeps { KeepsDoor (D.state door.old) (D.state door.new) }
{
    match print_refusal(alloc, status) {
        Ok(bytes) => write_last(door, bytes.as_slice(), LinkEnd::Closed),
        Err(_) => write_last(door, memory_bytes(), LinkEnd::Memory),
    }
}
