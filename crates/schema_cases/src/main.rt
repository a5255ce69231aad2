//! Cases as data, over the crates that read values, pointers and schemas and make values by types. Each table
//! of `data/` has a case on each line: what is given, ` => `, and what it comes to. A line that begins with `#`
//! is a comment.
//!
//! Each case that comes out otherwise is printed, and so is each line that is no case; the last line counts.
#![tactic(auto)]

mod judge;
mod making;

use crate::judge::Texts;
use case_tables::{Tally, judge_table};
use std::io;

fn main(rt: HostRuntime) -> io::Result<()> {
    let mut tally = Tally::new();
    judge_table(&rt, &mut tally, "values.txt", &Texts::Value)?;
    judge_table(&rt, &mut tally, "measures.txt", &Texts::Measure)?;
    judge_table(&rt, &mut tally, "names.txt", &Texts::Name)?;
    judge_table(&rt, &mut tally, "pointers.txt", &Texts::Pointer)?;
    judge_table(&rt, &mut tally, "indices.txt", &Texts::Index)?;
    judge_table(&rt, &mut tally, "schemas.txt", &Texts::Schema)?;
    judge_table(&rt, &mut tally, "links.txt", &Texts::Schema)?;
    judge_table(&rt, &mut tally, "behaviours.txt", &Texts::Schema)?;
    judge_table(&rt, &mut tally, "held.txt", &Texts::Held)?;
    making::run(&rt, &mut tally, "making.txt")?;
    making::run(&rt, &mut tally, "examples.txt")?;
    making::run(&rt, &mut tally, "limits.txt")?;
    making::run(&rt, &mut tally, "identifiers.txt")?;
    making::run(&rt, &mut tally, "office.txt")?;
    println!(rt; "{tally}")
}
