//! What was served at a door, as the laws of hosts speak of it.
ghost use Rattle.top_call.specs.Hosting.{ServedIsARun};

use crate::answering::Answerer;
use serve_core::door_leads;

/// However serving a door ended, what became of the state came of requests with short bodies, one after
/// another, to a host that began with no documents. So the laws of `host_laws` about such runs speak of
/// what the program served, and all that they ask is known of it: its documents are sound and its
/// replies tell their changes (`runs_stay_sound`), and requests on one document get what they get of a
/// host of their own, where none is refused for want of room (`runs_are_own`).
pub fn served_is_a_run()
    ensures { ServedIsARun }
{
    door_leads::<Answerer>();
}
