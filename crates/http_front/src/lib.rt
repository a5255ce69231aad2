//! The bytes of an HTTP/1.1 link as requests, and replies as bytes.
//!
//! ```
//! match next_request(&room[..held]) {
//!     Next::Found { request, used } => answer(request),
//!     Next::NeedMore => read_more(),
//!     Next::Bad { status } => print_reply(alloc, status, None, true, b"{}")?,
//! }
//! ```
//!
//! What `next_request` answers depends on the bytes alone, however they came in pieces, and bytes
//! behind a whole request change nothing of it; the laws say so. What a request asks for is read by
//! the crates above.
#![tactic(auto)]

mod fields;
mod laws;
mod query;
mod reply;
mod request;

pub use laws::{
    arrives_once, front_of_whole, nothing_is_partial, requests_are_short, whole_is_only,
    whole_stays,
};
pub use query::query_value;
pub use reply::print_reply;
pub use request::{Next, Request, next_request};
