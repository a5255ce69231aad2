//! What a model has beside its properties, as syntax: views, actions and middleware.
//!
//! ```text
//! for view in behaviour.views.as_slice() {
//!     println!(rt; "{}", view.name.text())?;
//! }
//! ```
//!
//! The types of parameters are numbers of a schema's types. Contracts see the expressions and statements in these parts
//! as `expr_syntax` shows them: a `View` as a `ShownView` of this crate's `specs/`, and so on.
#![tactic(auto)]

mod behaviour;

pub use behaviour::{Action, Behaviour, Middleware, Param, Surrounded, View};
