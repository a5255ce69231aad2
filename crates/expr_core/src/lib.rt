//! What a schema file stands for.
//!
//! ```
//! if let Some(view) = schema.view(schema.root(), "isEmpty") {
//!     let body = schema.body(view);
//! }
//! ```
//!
//! Views have numbers: those of all models are counted through from 0, models in order and each model's views in theirs.
//! So have actions. A name is looked for by halves among the model's own, and a number leads to its part at once.
#![tactic(auto)]

mod named;
mod numbering;
mod schema;

pub use schema::Schema;
