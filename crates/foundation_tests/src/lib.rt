//! Tests of what no case reaches: the real world and the real door, lists as they
//! are edited, copies, and the texts of refusals. They stand apart, since a crate that has tests is proved twice.
#![tactic(auto)]

#[cfg(test)]
mod door;
#[cfg(test)]
mod parts;
#[cfg(test)]
mod pointers;
#[cfg(test)]
mod streams;
#[cfg(test)]
mod values;
#[cfg(test)]
mod world;
