//! The links of a door, one after another.
ghost use Rattle.std.specs.Prelude.{◌≡◌, false, IsTrue};
ghost use Rattle.edge_core.specs.Door.{KeepsAttachment};
ghost use Rattle.serve_core.specs.Serving as serving;

use crate::plan::{Plan, ServeEnd};
use edge_core::Door;
use link_core::{Handler, Room, serve_link};
use std::alloc::Global;

/// Attaches a door and serves its links, one after another, as many as the plan has. The state of
/// `answers` goes on from link to link.
pub fn serve_door<A: Handler, D: Door>(
    alloc: Global,
    answers: &mut A,
    door: &mut D,
    room: &mut Room,
    plan: Plan,
) -> ServeEnd
    requires none_open { (D.state door.old).is_open ≡ false }
    ensures serves { serving.ServesDoor A.replies (record {
      plan = plan;
      before = record { state = answers.old; door = D.state door.old };
      after = record { state = answers.new; door = D.state door.new };
    }) result }
    ensures none_open { (D.state door.new).is_open ≡ false }
{
    match door.attach(plan.port()) {
        Ok(()) => serve_links(alloc, answers, door, room, plan),
        Err(_) => ServeEnd::Fault,
    }
}

// Serves the links of an attached door.
fn serve_links<A: Handler, D: Door>(
    alloc: Global,
    answers: &mut A,
    door: &mut D,
    room: &mut Room,
    plan: Plan,
) -> ServeEnd
    requires attached { IsTrue (D.state door.old).is_attached }
    requires none_open { (D.state door.old).is_open ≡ false }
    ensures serves { serving.ServesLinks A.replies (serving.most_links plan) (record {
      plan = plan;
      before = record { state = answers.old; door = D.state door.old };
      after = record { state = answers.new; door = D.state door.new };
    }) result }
    ensures none_open { (D.state door.new).is_open ≡ false }
{
    let mut left = plan.links();
    while left > 0 {
        if let Some(end) = serve_next(alloc, answers, door, room, plan) {
            return end;
        }
        left -= 1;
    }
    ServeEnd::Done
}

// Serves the next link, and answers how serving ends, where it does.
fn serve_next<A: Handler, D: Door>(
    alloc: Global,
    answers: &mut A,
    door: &mut D,
    room: &mut Room,
    plan: Plan,
) -> Option<ServeEnd>
    requires attached { IsTrue (D.state door.old).is_attached }
    requires none_open { (D.state door.old).is_open ≡ false }
    ensures next { serving.NextLink A.replies (record {
      plan = plan;
      before = record { state = answers.old; door = D.state door.old };
      after = record { state = answers.new; door = D.state door.new };
    }) result }
    ensures none_open { (D.state door.new).is_open ≡ false }
    ensures keeps { KeepsAttachment (D.state door.old) (D.state door.new) }
{
    match door.accept() {
        Ok(true) => plan.stopped_by(serve_link(alloc, answers, door, room)),
        Ok(false) => Some(ServeEnd::Done),
        Err(_) => Some(ServeEnd::Fault),
    }
}
