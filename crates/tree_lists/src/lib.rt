//! Lists of patches on a tree of nodes that keep their identity: written on the root's behalf, all or nothing, and put
//! back as they stand.
//!
//! ```
//! let changed = write_list(alloc, &types, patches.as_slice(), &Tree { root: &root, next })?;
//! let after = changed.value;                  // once all are written
//! for edit in changed.edits.as_slice() { .. } // what led there, of all patches in turn
//! let back = restore(alloc, &types, inverses.as_slice(), &Tree { root: &after, next: changed.next })?;
//! ```
//!
//! `write_list` answers exactly as its definition `list_written`: the first patch that is refused, as a write is and
//! with the path as it was given, or that leaves the tree too deep; then the weight and the identifiers of the whole.
//! `restore` refuses nothing: each patch takes out, puts in or replaces the part that its path names, and what comes in
//! has new nodes. Both give the edits that lead from the tree to the one after, and back.
#![tactic(auto)]

mod folding;
mod listing;
mod naming;
mod restoring;

pub use listing::write_list;
pub use restoring::restore;
