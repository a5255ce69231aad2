//! The links of a door, one after another, over anything that answers requests.
//!
//! ```
//! let mut room = Room::new(alloc)?;
//! let plan = Plan::Port { port: 8080, links: 1000 };
//! match serve_door(alloc, &mut answers, &mut door, &mut room, plan) {
//!     ServeEnd::Done => ..
//! }
//! ```
//!
//! `serve_door` promises that each link is served as `link_core` says, from the state that the link
//! before it left, that no more links are taken than the plan has, and how serving ends. At a port a
//! link's fault, or an input that ends inside a request, ends that link alone. By `door_leads` all that
//! became of the state, however serving ended, came of requests, each by a reply that it may get.
#![tactic(auto)]

mod laws;
mod plan;
mod serve;

pub use laws::{door_completes, door_leads, ends_have_causes};
pub use plan::{Plan, ServeEnd};
pub use serve::serve_door;
