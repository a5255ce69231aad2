//! What has been judged, and where.
use std::{fmt, io};

/// What has been judged so far.
#[derive(Drop)]
pub struct Tally {
    cases: u64,
    different: u64,
    others: u64,
}

/// Where a line stands, counted from 1.
#[derive(Clone, Copy)]
pub struct Place<'a> {
    pub table: &'a str,
    pub line: usize,
}

impl Tally {
    pub fn new() -> Tally {
        Tally {
            cases: 0,
            different: 0,
            others: 0,
        }
    }

    /// Counts a case, and prints it where it comes out otherwise.
    pub fn compare(
        &mut self,
        rt: &impl Print,
        place: &Place,
        case: (&str, &str),
        found: &str,
    ) -> io::Result<()> {
        let (given, wants) = case;
        self.cases = self.cases.saturating_add(1);
        if found == wants {
            return Ok(());
        }
        self.different = self.different.saturating_add(1);
        let Place { table, line } = *place;
        println!(rt; "{table} {line}: {given}\n  wants {wants}\n  found {found}")
    }

    /// Counts and prints a line that is no case.
    pub fn note_other(&mut self, rt: &impl Print, place: &Place, line: &str) -> io::Result<()> {
        self.others = self.others.saturating_add(1);
        let Place { table, line: at } = *place;
        println!(rt; "{table} {at} is no case: {line}")
    }
}

impl fmt::Display for Tally {
    fn fmt<W: fmt::Write>(&self, f: &mut fmt::Formatter<W>) -> fmt::Result {
        let Tally {
            cases,
            different,
            others,
        } = self;
        write!(
            f,
            "{cases} cases, {different} of them come out otherwise; {others} lines are none"
        )
    }
}
