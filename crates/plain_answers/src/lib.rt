//! Answers of expressions are plain, so that they can be printed. The crate is definitions and laws; it runs nothing.
//!
//! - `specs/Plainness`: when an answer, a sight, an expression and what a schema says of views are plain.
//! - `specs/EachExpression`: a fact of each expression that statements evaluate, as that its constants are plain.
//! - `specs/Laws`: what holds of them. Each law is the contract of one function here. Read this page first.
//!
//! Who prints answers can rely on this: where what is seen is plain, and the constants of all bodies are, whatever
//! ends well gives plain values, nodes, and lists of them; and what is seen of a plain labelled snapshot is plain.
#![tactic(auto)]

mod laws;

pub use laws::{answers_are_plain, sights_are_plain};
