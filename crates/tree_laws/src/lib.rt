//! What a tree keeps, whatever is written to it. The crate is definitions and laws; it runs nothing.
//!
//! - `specs/Trees`: what a typed tree is, and a sound one.
//! - `specs/Calls`: writes, lists of patches, and what it is that they lead on.
//! - `specs/Tied`: trees in which each safe reference leads to a node.
//! - `specs/Laws`: what holds of them. Each law is the contract of one function here. Read this page first.
//!
//! Who writes a sound tree can rely on this: the patches that a write, a list of patches or settling logs fit in turn
//! and lead to the snapshot after it, and their inverses, last first, fit in turn and lead back; the tree is sound
//! again, and the values of its patches are plain; and after settling no safe reference is loose.
#![tactic(auto)]

mod laws;

pub use laws::{
    leading_goes_on, lists_are_done, lists_keep_trees, lists_lead, lists_stay_typed,
    new_trees_are_sound, settling_keeps_trees, settling_leads_on, settling_settles,
    settling_stays_typed, writes_are_done, writes_keep_trees, writes_lead, writes_stay_typed,
};
