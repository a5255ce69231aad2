//! What putting patches back makes of a tree. The crate is definitions and laws; it runs nothing.
//!
//! - `specs/Places`: patches whose places are in nodes of a tree.
//! - `specs/Laws`: what holds of putting them back. Each law is the contract of one function here. Read this page first.
//!
//! Who puts patches back that fit in turn, each at a place in a node, can rely on this: the tree is then, without its
//! labels, what applying them makes of its snapshot, and the log goes on with exactly these patches. Who can't know the
//! places can ask the marks before and after: where the log grew by as many patches as were put back, it holds too. So
//! what a call did is undone by the inverses of its patches, last first, and done again by its patches.
#![tactic(auto)]

mod laws;

pub use laws::{
    calls_are_redone, calls_are_undone, counted_are_applied, counted_are_put_back,
    dead_nodes_stay_dead, each_is_applied, putting_back_applies, single_patches_are_undone,
    single_writes_are_undone,
};
