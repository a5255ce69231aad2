//! What calling an action does to a tree. The crate is definitions and laws; it runs nothing.
//!
//! - `specs/Laws`: what holds of calling an action of a sound tree. Each law is the contract of one function here.
//! - `specs/Schemas`: what a schema says of actions, by what each model has beside its properties.
//!
//! Whoever runs actions can rely on this: what an action keeps, refused or not, fits in turn and leads from the snapshot
//! before it to the one behind it, its inverses lead back, rolling back gives the very nodes of then, and a sound tree
//! stays sound; and so it is once the tree is settled. A failed atomic action of a settled tree leaves nothing.
#![tactic(auto)]

mod laws;

pub use laws::{
    actions_are_done, actions_lead, failed_atomics_are_nothing, schemas_behave_plainly,
    settled_trees_stay,
};
