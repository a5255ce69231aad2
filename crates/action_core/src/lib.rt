//! What actions do, over labelled snapshots: running statements, and calling actions through their middleware. The crate
//! is definitions and laws; it runs nothing.
//!
//! - `specs/Act`: the state of a request, and how runs are put together.
//! - `specs/Running`: what each statement does. Read this page first; `Behaving` and `Statements` are what it names.
//! - `specs/Beginning`, `Layers`: what an action is refused for before it begins, and the middleware around it.
//! - `specs/Calling`: calling an action, with room for so many more.
//! - `specs/Keeping`: what a relation between states has to keep, so that calling any action keeps it.
//! - `specs/Laws`: what holds of calling. Each law is the contract of one function here.
//!
//! All of it computes: a labelled snapshot and the number of the next node determine what an action leaves.
#![tactic(auto)]

mod laws;

pub use laws::{failed_atomics_leave_all, requests_go_on};
