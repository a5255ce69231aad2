//! Constants in expressions and statements that are read from a schema file are plain. The crate is two laws; it runs nothing.
//!
//! A schema file's value has its keys in order, and a number in a constant that isn't whole is a fault. So the bodies of
//! views and of actions have plain constants, as the laws of `plain_answers` and `action_laws` want them.
#![tactic(auto)]

mod laws;

pub use laws::{read_bodies_are_plain, read_expressions_are_plain};
