//! Writes to a tree of nodes that keep their identity: what a write makes of a labelled snapshot, or the first rule
//! that it doesn't meet. The definitions of settling, of patch lists and of the reading calls stand here too.
//!
//! ```
//! let to = Target { running: &running, place: &Place::Prop(node, name), named: None };
//! let changed = write_tree(alloc, &types, &to, &Change::Set(value), &Tree { root: &root, next })?;
//! let after = changed.value;                  // with its nodes' labels
//! for edit in changed.edits.as_slice() { .. } // what leads there
//! ```
//!
//! An answer is exactly that of the definition `written`: `dead`, `protected`, `kind`, `path`, `operation`, `index`,
//! `fixed`, what making refuses, `large` and `identifier` in this order, each with its place. Nothing is edited in
//! place, so an error changes nothing.
#![tactic(auto)]

mod changed;
mod error;
mod fixed;
mod making;
mod parts;
mod paths;
mod place;
mod reconciling;
mod typing;
mod whole;
mod write;
mod writing;

pub use changed::{Changed, part_added, part_removed, placed, placed_at};
pub use error::{TreeError, refuse};
pub use parts::{entries_of, entry_at, items_of, part_type, turn_to};
pub use paths::{joined, path_of_place};
pub use place::{Change, Place};
pub use reconciling::{New, label_new};
pub use write::{Target, Tree, judge, key_of, may_write, number_new, write_place, write_tree};
