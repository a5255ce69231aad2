//! The replies of a host, as bytes: one function for each kind of reply.
//!
//! ```
//! let bytes = rule_reply(alloc, request.close, &Rule::Unknown)?;
//! let bytes = snapshot_reply(alloc, request.close, 201, value)?;
//! let bytes = change_reply(alloc, request.close, &staged.patches)?;
//! let bytes = refused_change_reply(alloc, request.close, &refusal, &staged.patches)?;
//! ```
//!
//! Each body is the compact JSON text of a record with ascending keys. The inverses of a change stand in the order of its
//! patches. The only error is want of memory.
#![tactic(auto)]

mod bodies;
mod replies;

pub use replies::{
    answer_reply, change_reply, method_reply, names_reply, node_reply, refusal_reply,
    refused_change_reply, removed_reply, rule_reply, snapshot_reply,
};
