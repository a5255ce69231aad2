//! What a request asks for, by its method and its path.
//!
//! ```
//! let routes = Routes::new(alloc)?;
//! match routes.asked(request.method, request.path) {
//!     Asked::Well(ask) => answer(ask),
//!     Asked::Wrong { allow } => refuse_method(allow),
//!     Asked::Unknown => refuse_path(),
//! }
//! ```
//!
//! A path without a route, or with a document's name that is none, is unknown whatever the method
//! is. The routes are read once; asking takes no memory.
#![tactic(auto)]

mod ask;
mod laws;
mod place;
mod routes;

pub use ask::{Ask, Asked};
pub use laws::paths_have_places;
pub use place::{Part, Place};
pub use routes::Routes;
