//! Cases as data, over patches. Each table of `data/` has a case on each line: what is given, ` => `, and what it
//! comes to. A line that is empty or begins with `#` is a comment.
//!
//! Each case that comes out otherwise is printed, and so is each line that is no case; the last line counts. With
//! a word, the table in the file of that name is judged in place of those of `data/`, as `applying.txt` is.
#![tactic(auto)]

mod judge;

use crate::judge::Texts;
use case_tables::{Tally, given_table, judge_table};
use std::io;

fn main(rt: HostRuntime) -> io::Result<()> {
    let mut tally = Tally::new();
    match given_table(&rt)? {
        Some(name) => judge_table(&rt, &mut tally, name.as_str(), &Texts::Applied)?,
        None => {
            judge_table(&rt, &mut tally, "applying.txt", &Texts::Applied)?;
            judge_table(&rt, &mut tally, "reading.txt", &Texts::Read)?;
        }
    }
    println!(rt; "{tally}")
}
