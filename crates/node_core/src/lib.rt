//! Labelled values: the models, arrays and maps of a document with what tells each node from all others.
//!
//! ```
//! let way = tree.way_to(alloc, n)?;                       // where a node stands
//! let part = tree.part_at(way.as_slice());
//! let next = tree.with_part(alloc, way.as_slice(), new)?; // a new tree; the old one is as it was
//! for edit in edits_between(alloc, &tree, &next)?.as_slice() {
//!     patches.push(edit.patch(alloc)?)?;
//! }
//! ```
//!
//! Nothing is edited in place, and an `Err` is want of memory. Contracts see the labelled values, ways and edits of
//! `edit_core` (`specs/View` has what each type stands for), so its laws hold of what is given here: the edits
//! between two labelled values lead from the one to the other, are taken back by their inverses, and are patches
//! without their labels.
#![tactic(auto)]

mod between;
mod edit;
mod entry_edits;
mod item_edits;
mod labelled;
mod plain;
mod replacing;
mod way;

pub use between::{Edits, edits_between, same_kind, same_label};
pub use edit::{LoggedEdit, Operation};
pub use labelled::{Entries, Items, Label, Labelled, LabelledField};
pub use way::{Turn, Way, copy_way, pointer_of};
