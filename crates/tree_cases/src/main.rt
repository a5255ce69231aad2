//! Cases as data, over trees whose nodes keep their identity. A line of `data/writes.txt` and of `data/lists.txt` is one
//! of these, and empty or a comment where it begins with `#`:
//!
//! - `schema FILE`: the schema of what follows;
//! - `tree VALUE`: a new tree, of what the root's model makes of the value;
//! - `CALL => OUTCOME`: a call of the tree, and what it comes to.
//!
//! Each case that comes out otherwise is printed, and so is each line that is no case; the last line counts. With
//! a word, the table in the file of that name is judged in place of that of `data/`.
#![tactic(auto)]

mod calls;
mod fault;
mod places;
mod printing;
mod session;
mod table;

use case_tables::{Tally, given_table};
use std::io;

fn main(rt: HostRuntime) -> io::Result<()> {
    let mut tally = Tally::new();
    match given_table(&rt)? {
        Some(name) => table::run(&rt, &mut tally, name.as_str())?,
        None => {
            table::run(&rt, &mut tally, "writes.txt")?;
            table::run(&rt, &mut tally, "lists.txt")?;
        }
    }
    println!(rt; "{tally}")
}
