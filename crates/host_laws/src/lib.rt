//! What holds of the documents of a host over every run of requests. The crate is definitions and laws; it runs nothing.
//!
//! - `specs/Sound`: what a document shows that is sound and settled.
//! - `specs/Runs`: requests one after another, and what each of them tells.
//! - `specs/Laws`: what holds. Each law is the contract of one function here. Read this page first.
//!
//! Who asks a host can rely on this, where the constants of the schema are plain, as those of a schema file are: from no
//! documents, whatever requests come, each document shows a snapshot that the root's model makes of itself, in which no
//! identifier stands twice and each safe reference leads to a node; and a reply after which a document shows something
//! else has the patches that lead there, and whose inverses lead back, also where it tells the refusal of an action. A
//! refused action that an atomic middleware surrounds leaves its document as it was.
#![tactic(auto)]

mod laws;

pub use laws::{
    created_are_sound, documents_stay_sound, failed_atomics_stay, other_replies_are_own,
    runs_are_own, runs_stay_sound,
};
