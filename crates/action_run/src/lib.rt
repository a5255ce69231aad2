//! Running actions.
//!
//! ```
//! let callee = Callee { node, name: "addTodo", args: &args };
//! match run(alloc, &mut tree, &schema, &callee, &mut steps) {
//!     Ok(()) | Err(RunError::Refused(_)) => tree.settle(alloc, types)?,  // what was written before a refusal stays
//!     Err(RunError::Memory) => tree.roll_back(mark),
//! }
//! ```
#![tactic(auto)]

mod binding;
mod calling;
mod guarding;
mod running;

pub use action_steps::Callee;
pub use calling::run;
