//! The views of a schema's models, asked of the nodes of a document's tree.
//!
//! ```
//! if let Some(of) = view_at(&tree, &schema, &place, "height") {
//!     let answer = answer_view(alloc, &tree, &schema, of, &mut steps)?;   // {"plain":1}
//! }
//! ```
//!
//! Answers are told as values, which JSON can spell: nodes by their paths.
#![tactic(auto)]

mod answer;
mod locate;
mod viewed;

pub use answer::{answer_view, values_are_plain};
pub use locate::{ViewOf, view_at};
pub use viewed::Viewed;
