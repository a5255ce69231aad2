//! Documents: one typed tree each, changed by requests that are staged and then kept or taken back.
//!
//! ```
//! let mut document = Document::create(alloc, &schema, &given)?;
//! let staged = document.apply_patches(alloc, &schema, &patches)?;
//! match print(alloc, &staged.patches) {
//!     Ok(reply) => document.commit(),
//!     Err(_) => document.cancel(),
//! }
//! let shown = document.snapshot(alloc, &Pointer::new(alloc))?;
//! let answer = document.view(alloc, &schema, &user, "height", &mut steps)?;
//! let staged = document.act(alloc, &schema, &user, "rename", &args, &mut steps)?;
//! ```
//!
//! A request leaves exactly what its definition says, settling included, or its first refusal; an action that is refused
//! and yet left patches is staged, with its refusal beside them. After an error a document is as before, and so it is
//! after `cancel`, with the very nodes. Neither `cancel` nor `commit` takes memory.
#![tactic(auto)]

mod acting;
mod creating;
mod document;
mod error;
mod laws;
mod reading;
mod staging;
mod viewing;

pub use creating::try_value;
pub use document::{Document, Staged};
pub use error::DocError;
pub use laws::{atomics_keep_all_or_nothing, changes_lead};
