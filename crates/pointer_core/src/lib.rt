//! Places by JSON pointer (RFC 6901), and refusals that name a place and a rule.
//!
//! ```
//! let pointer = Pointer::parse(alloc, "/todos/0/title")?;
//! let index = Pointer::index_of("0");
//! let text = pointer.print()?;
//! println!(rt; "{pointer}")?;
//! ```
//!
//! A text becomes the one path that is printed as that text; a text that no path is printed as is refused,
//! with the first reason. A token is an index exactly where it is the plain decimal of one below 4294967296.
#![tactic(auto)]

mod display;
mod error;
mod index;
mod parse;
mod pointer;
mod refusal;
mod schema_rule;

pub use error::PointerError;
pub use pointer::{Pointer, Token};
pub use refusal::{Refusal, Rule};
pub use schema_rule::SchemaRule;
