//! A typed tree whose nodes keep their identity, and what was done to it since the last commit.
//!
//! ```
//! let mut tree = Tree::new(alloc, &types, value)?;
//! let mark = tree.mark();
//! tree.write(alloc, &types, &running, &Place::Item(todos, 0), Change::Remove)?;
//! tree.write_list(alloc, &types, &patches)?;  // all of them, or none
//! let done = tree.copy_log()?;
//! tree.roll_back(mark);
//! tree.put_back(alloc, &types, &done)?;
//! ```
//!
//! After an error a tree is as before. Rolling back gives the very nodes of the mark, takes no memory and can't fail,
//! and so does `commit`, which forgets what was done. No number is given to two nodes, also not after rolling back.
#![tactic(auto)]

mod call;
mod laws;
mod listing;
mod reading;
mod recording;
mod settling;
mod tree;
mod writing;

pub use laws::{calls_are_taken_back, marks_are_given_back};
pub use tree::{Mark, Tree};
