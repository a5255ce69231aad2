//! Growable lists that contracts see as the list of their items, so that a recursive value built of them is
//! plain data to a contract.
//!
//! ```
//! let mut names = Parts::new(alloc);
//! names.push("second")?;
//! names.insert(0, "first")?;
//! let last = names.pop();
//! ```
//!
//! A call that wants memory and gets none leaves its list as it was. `RoomyParts` takes memory in `reserve`
//! alone: `append`, `pop` and `truncate` can't fail, and contracts see how many items still fit.
#![tactic(auto)]

mod parts;
mod roomy;

pub use parts::Parts;
pub use roomy::RoomyParts;
