//! A host: documents of one schema by their names, and what answers requests to them.
//!
//! ```
//! let mut host = Host::new(alloc, schema)?;
//! let reply = host.answer(&request)?;
//! ```
//!
//! A request gets the reply that the plain definition `Steps` gives for it, in the order of its refusals, and leaves the
//! documents that `Steps` says. The reply is made whole before a document is changed for good, so that want of memory
//! leaves all as it was.
#![tactic(auto)]

mod acting;
mod answer;
mod calling;
mod creating;
mod document;
mod held;
mod host;
mod keeping;
mod laws;
mod reading;
mod visit;

pub use host::Host;
pub use laws::{changes_tell, names_ascend, others_stay, replies_are_own};
