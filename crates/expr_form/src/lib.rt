//! Expressions and statements as schema files spell them.
//!
//! ```text
//! let mut scope = Scope::new(alloc)?;                 // `self` and `root`
//! scope.bind("by")?;
//! match read_expression(value, types, targets, &mut scope) {
//!     Ok(expr) => ..,
//!     Err(Trouble::Wrong(fault)) => ..,               // a rule, and the place in the value
//!     Err(Trouble::Astray(place)) => ..,              // no such fault, but a model that it can't speak of
//!     Err(Trouble::Memory) => ..,
//! }
//! let body = read_body(block, types, targets, &mut scope);
//! ```
//!
//! An expression is read in one walk, which gives exactly what its row of the table of forms says, or its first
//! fault in form, names, repetitions and depth, in document order; or, where it has none, the place of the first
//! expression that names no model that it may name. So one walk serves both passes over a schema file. The scope is
//! as before after each call.
#![tactic(auto)]

mod build;
mod build_stmts;
mod expr;
mod fault;
mod formed;
mod keys;
mod models;
mod names;
mod numbers;
mod scope;
mod singles;
mod stmt;
mod stmt_keys;
mod texts;
mod walk;

pub use expr::read_expression;
pub use fault::{Fault, Trouble};
pub use models::Target;
pub use names::read_name;
pub use scope::Scope;
pub use stmt::read_body;
pub use texts::{fields_in, items_in, pair_in, text_in};
pub use walk::{at_index, both, pushed, under, wrong};
