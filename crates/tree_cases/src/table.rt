//! Tables of texts.
use crate::fault::Fault;
use crate::printing::told;
use crate::session::Ground;
use case_tables::{Place, Tally, is_comment, written_out};
use std::rt::Files;
use std::{fs, io};

/// Judges each line of a table.
pub fn run<R: Files + Print + AllocGlobal>(
    rt: &R,
    tally: &mut Tally,
    table: &str,
) -> io::Result<()> {
    let text = fs::read_to_string(rt, table)?;
    let mut ground = Ground::new();
    for (at, line) in text.lines().enumerate() {
        let place = Place {
            table,
            line: at.saturating_add(1),
        };
        if !is_comment(line) {
            judge_line(rt, tally, &place, &mut ground, line)?;
        }
    }
    Ok(())
}

fn judge_line<R: Print + AllocGlobal>(
    rt: &R,
    tally: &mut Tally,
    place: &Place,
    ground: &mut Ground,
    line: &str,
) -> io::Result<()> {
    let alloc = rt.alloc();
    if let Some(file) = line.strip_prefix("schema ") {
        let set = ground.set_schema(alloc, file);
        return begin(rt, tally, place, set);
    }
    let whole = written_out(alloc, line)?;
    if let Some(value) = whole.strip_prefix("tree ") {
        let set = ground.set_tree(alloc, value);
        return begin(rt, tally, place, set);
    }
    let Some((given, wants)) = whole.split_once(" => ") else {
        return tally.note_other(rt, place, line);
    };
    let found = told(alloc, ground.called(alloc, given), wants)?;
    tally.compare(rt, place, (line, wants), found.as_str())
}

// A line that begins something new, and so comes to nothing.
fn begin<R: Print + AllocGlobal>(
    rt: &R,
    tally: &mut Tally,
    place: &Place,
    begun: Result<(), Fault>,
) -> io::Result<()> {
    match begun {
        Ok(()) => Ok(()),
        Err(fault) => {
            let why = told(rt.alloc(), Err(fault), "")?;
            tally.note_other(rt, place, why.as_str())
        }
    }
}
