//! What evaluating an expression is, over what can be seen of a document. The crate is definitions and laws; it
//! runs nothing.
//!
//! - `specs/Sight`, `Seen`: what can be seen of a document by the numbers of its nodes, and of a labelled snapshot.
//! - `specs/Answer`, `Run`, `Scope`: what an expression answers, what evaluating comes to, and by what it goes.
//! - `specs/Evaluating`: what each form gives. Read this page first; `Operating`, `Reading`, `Walking` and `Making`
//!   are what it names.
//! - `specs/Asking`, `Reads`: asking a view of views that are in progress, and the cells that a view read.
//! - `specs/Pairing`: what a relation between evaluations has to keep, so that evaluating any expression keeps it.
//! - `specs/Laws`: what holds of evaluating. Each law is the contract of one function here.
//!
//! Whoever keeps answers can rely on this: a run is the same over every sight that agrees at the cells that it
//! read; a view that ends well does the same from nothing and among others in progress, unless its height has no
//! room there; and in one trace a view counts the same wherever it is entered.
#![tactic(auto)]

mod cell;
mod laws;
mod site;

pub use cell::Cell;
pub use laws::{
    all_stay_within, among_is_alone, height_tells_deep, plain_operands, same_cells_same_run,
    traces_repeat,
};
pub use site::Site;
