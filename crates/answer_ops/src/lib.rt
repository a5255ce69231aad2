//! What expressions answer, and the operators on answers.
//!
//! ```
//! let both = Value::Several(answers);
//! let first = operated(alloc, Op::Item, &both, &Value::Plain(Snap::Int(0)))?;
//! if is_bounded(&first) && same(&first, &Value::Node(n)) { .. }
//! ```
//!
//! An answer is a plain value, a node, or several answers. Contracts see a `Value` as an `Answer`, and say of each
//! operator exactly what it gives, or which rule comes first.
#![tactic(auto)]

mod limits;
mod operating;
mod sameness;
mod value;

pub use limits::is_bounded;
pub use operating::operated;
pub use sameness::same;
pub use value::{Value, Values};
