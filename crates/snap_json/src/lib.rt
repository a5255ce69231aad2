//! Values as JSON text, read and printed.
#![tactic(auto)]

mod loose;
mod print;
mod read;

pub use loose::read_loosely;
pub use print::print_snap;
pub use read::{ReadError, read_snap};
