//! What programs of cases have in common: tables of lines, how many of them were judged, and how long texts are
//! written in short.
//!
//! ```
//! let mut tally = Tally::new();
//! judge_table(rt, &mut tally, "pointers.txt", &Texts::Pointer)?;
//! println!(rt; "{tally}")
//! ```
//!
//! Nothing is promised but that each call ends; what the programs print is looked at where they run.
#![tactic(auto)]

mod line;
mod long;
mod table;
mod tally;

pub use line::{given_table, is_comment};
pub use long::written_out;
pub use table::{Judge, judge_table};
pub use tally::{Place, Tally};
