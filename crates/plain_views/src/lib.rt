//! Answers of views of a tree are plain. The crate is laws alone; it runs nothing.
//!
//! Who prints what a view answers can rely on this: a sound tree's value is plain, so what is seen of it is, and so are
//! the answers of views whose bodies have plain constants, as those have that are read from a schema file.
#![tactic(auto)]

mod laws;

pub use laws::{tree_sights_are_plain, trees_answer_plainly};
