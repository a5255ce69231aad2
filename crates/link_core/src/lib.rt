//! One link: request after request, from its first byte to its end, over anything that answers
//! requests.
//!
//! ```
//! let mut room = Room::new(alloc)?;
//! while door.accept()? {
//!     let end = serve_link(&mut answers, &mut door, &mut room);
//! }
//! ```
//!
//! `serve_link` promises that the replies are those that the `Handler` may give to the requests that the
//! link's bytes are, one after another, in whatever pieces the bytes come, and it says how each way
//! to end came about. A link is closed after 1,000,000 requests. By `link_leads` all that became of the
//! state, however the link ended, came of requests, each by a reply that it may get.
#![tactic(auto)]

mod end;
mod handler;
mod laws;
mod replies;
mod room;
mod serve;
mod write;

pub use end::LinkEnd;
pub use handler::Handler;
pub use laws::{link_completes, link_leads};
pub use room::Room;
pub use serve::serve_link;
