//! Labelled snapshots, edits of them, and reconciling: what a tree of nodes that keep their identity is held to.
//! The crate is definitions and laws; it runs nothing.
//!
//! - `specs/Labelled`, `Labelling`, `Numbers`: values whose models, arrays and maps carry a number and a `Kind`.
//! - `specs/Edit`, `Application`, `Around`, `Plain`: what an edit leads to, and which patch it is without labels.
//! - `specs/Rules`: which patches lead from an old value to a new one, over plain values. Read this page first.
//! - `specs/Typing`, `Matching`, `Template`: which nodes stay where a value is set, and the numbers of the new ones.
//! - `specs/Between`, `Reconciling`: the edits that lead from an old labelled value to the one that is set.
//! - `specs/Logged`, `LoggedBetween`: edits as a log keeps them, without what stands around the place.
//! - `specs/Laws`: what holds of them. Each law is the contract of one function here.
//!
//! A tree whose log holds the edits of `reconciled` can rely on this: the edits fit in turn and lead to the value
//! that is set, their inverses lead back to the very labels, without labels they are the patches of the rules and
//! fit in turn, no two nodes have one number, and each has the kind that its type gives it.
#![tactic(auto)]

mod kind;
mod laws;

pub use kind::Kind;
pub use laws::{
    edits_are_taken_back, edits_lead_across, edits_lead_to_one, equal_changes_nothing,
    first_matches_once, items_are_set_alone, labels_follow_types, logged_between_is_between,
    logged_edits_say_all, matched_items_stay, numbers_differ, patches_lead_to_the_new,
    reconciling_follows_the_rules, reconciling_leads_to_the_new,
};
