//! Tables of texts: each line has a text, ` => `, and what it comes to.
use crate::line::is_comment;
use crate::long::written_out;
use crate::tally::{Place, Tally};
use std::alloc::{AllocError, Global};
use std::rt::Files;
use std::{fs, io};

/// What says what the texts of a table come to.
pub trait Judge {
    /// What a text comes to, or why it comes to nothing.
    fn outcome(&self, alloc: Global, text: &str) -> Result<String, AllocError>;
}

/// Judges each line of a table.
pub fn judge_table<R: Files + Print + AllocGlobal, J: Judge>(
    rt: &R,
    tally: &mut Tally,
    table: &str,
    judge: &J,
) -> io::Result<()> {
    let text = fs::read_to_string(rt, table)?;
    for (at, line) in text.lines().enumerate() {
        let place = Place {
            table,
            line: at.saturating_add(1),
        };
        if !is_comment(line) {
            judge_line(rt, tally, &place, judge, line)?;
        }
    }
    Ok(())
}

fn judge_line<R: Print + AllocGlobal, J: Judge>(
    rt: &R,
    tally: &mut Tally,
    place: &Place,
    judge: &J,
    line: &str,
) -> io::Result<()> {
    let Some((given, wants)) = line.split_once(" => ") else {
        return tally.note_other(rt, place, line);
    };
    let text = written_out(rt.alloc(), given)?;
    let found = judge.outcome(rt.alloc(), text.as_str())?;
    let wanted = written_out(rt.alloc(), wants)?;
    tally.compare(rt, place, (given, wanted.as_str()), found.as_str())
}
