//! The steps of running an action: what its statements evaluate and write, what an action begins with, and the
//! middleware around it. Each does exactly an act of the definitions of `action_core`.
#![tactic(auto)]

mod acting;
mod arguments;
mod beginning;
mod binding;
mod clearing;
mod layers;
mod naming;
mod parts;
mod writes;
mod writing;

pub use acting::{Acting, node_in, refused};
pub use beginning::{Begun, Callee, begin};
pub use layers::{Guard, Layer, admits, layers_around};
pub use parts::{CallParts, call_parts, condition, items, value};
pub use writes::{apply, clear, drop, insert, push, put, replace, set};
