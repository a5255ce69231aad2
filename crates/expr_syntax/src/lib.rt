//! The expressions and statements of a schema, as syntax.
//!
//! ```
//! let one = Expr::of(Form::Const(Snap::Int(1)));
//! match one.look(&mut steps) {
//!     Form::Const(value) => ..,
//!     form => ..,
//! }
//! ```
//!
//! What stands in an expression is seen only by `look`, which counts one step. So a bound on steps is a bound on
//! the expressions that were looked at. Contracts see an expression as an `Expression`, and a statement as a
//! `Statement`, of this crate's `specs/`.
#![tactic(auto)]

mod expr;
mod number;
mod op;
mod steps;
mod stmt;

pub use expr::{Entry, Expr, Form};
pub use number::{ActionNo, ViewNo};
pub use op::Op;
pub use steps::Steps;
pub use stmt::{Block, Stmt};
