//! Answers that are written: what is taken of an answer that holds nodes, and the change that giving it to a place is.
//!
//! ```
//! let giving = Giving::Insert(Value::Node(n));
//! let change = change_for(alloc, &types, &to, giving, &whole)?;
//! let changed = write_tree(alloc, &types, &to, &change, &whole)?;
//! ```
//!
//! A change that `change_for` answers is written exactly as the answer is given (`specs/Giving`), and a refusal is the
//! first rule that giving doesn't meet: those of the place, then the nodes that aren't taken, then what the type makes.
//! Nothing is written here, and nothing is copied but what is going to be written.
#![tactic(auto)]

mod giving;
mod items;
mod laws;
mod making;
mod manner;
mod nodes;
mod placing;
mod plain;
mod taking;

pub use giving::{Giving, change_for};
pub use laws::nodes_are_given_in_turn;
pub use plain::{are_plain, copy_plains};
