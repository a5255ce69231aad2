//! The operators of expressions, on plain values.
//!
//! ```
//! let sum = plain_op(alloc, Op::Add, &Snap::Int(2), &Snap::Int(3))?;
//! let tail = plain_op(alloc, Op::Concat, &title, &Snap::Text(Txt::copy(alloc, "!")?))?;
//! let size = plain_op(alloc, Op::Size, &tail, &Snap::Null)?;
//! ```
//!
//! Contracts say exactly which value an operator gives, or which rule comes first: an operand of another kind, a
//! result outside the values, or an index outside a list.
#![tactic(auto)]

mod arithmetic;
mod errors;
mod limits;
mod operators;

pub use errors::OpError;
pub use operators::plain_op;
