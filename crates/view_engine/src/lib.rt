//! Views of a document: expressions evaluated on its live tree.
//!
//! ```
//! let mut views = Views::new();
//! let pending = views.ask(alloc, &tree, &schema, office, pending_view, &mut steps)?;
//! let framed = Framed { expr: &condition, env: &env, frame: &frame };
//! let holds = views.evaluate(alloc, &tree, &schema, &framed, &mut counted, &mut steps)?;
//! ```
//!
//! Answers and refusals, with their places, are exactly those of evaluating over what the tree shows, and no more
//! steps are taken than that counts, also where memory runs out. A refusal leaves `counted` as it was.
#![tactic(auto)]

mod counting;
mod evaluating;
mod gathering;
mod halt;
mod items;
mod making;
mod member;
mod names;
mod operating;
mod parts;
mod path;
mod reading;
mod schema;
mod scope;
mod step;
mod telling;
mod views;

pub use halt::RunError;
pub use names::{Binding, Env};
pub use schema::{Bodies, Named};
pub use views::{Framed, Views};
