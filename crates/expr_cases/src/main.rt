//! Cases of expressions and of bodies as data. Each table of `data/` has a case on each line: JSON, ` => `, and what
//! it comes to: `ok`, a rule and a place, or `astray` and a place. A line that begins with `#` is a comment.
//!
//! The types are A, a model without an identifier, M, one with an identifier, and W, which is no model. Bound are
//! `self`, `root` and `p`. Each case that comes out otherwise is printed, and so is each line that is no case; the
//! last line counts.
#![tactic(auto)]

mod judge;

use crate::judge::Texts;
use case_tables::{Tally, judge_table};
use std::io;

fn main(rt: HostRuntime) -> io::Result<()> {
    let mut tally = Tally::new();
    judge_table(&rt, &mut tally, "expressions.txt", &Texts::Expression)?;
    judge_table(&rt, &mut tally, "bodies.txt", &Texts::Body)?;
    println!(rt; "{tally}")
}
