//! Tables of making: blocks parted by an empty line, each with a schema in its first line, and behind it what
//! the schema's root is given and makes.
ghost use Rattle.snap_core.specs.Value.{IsPlain};
ghost use Rattle.snap_core.specs.View.{view};

use crate::judge::{compact, fault, misread, refused};
use case_tables::{Place, Tally, is_comment, written_out};
use expr_core::Schema;
use schema_read::read_schema;
use snap_core::Snap;
use snap_json::read_snap;
use std::alloc::{AllocError, Global};
use std::rt::Files;
use std::{fs, io};
use type_core::{MakeError, Types, doubled, make};

/// Judges each line of a table.
pub fn run<R: Files + Print + AllocGlobal>(
    rt: &R,
    tally: &mut Tally,
    table: &str,
) -> io::Result<()> {
    let text = fs::read_to_string(rt, table)?;
    let mut schema = None;
    for (at, line) in text.lines().enumerate() {
        let place = Place {
            table,
            line: at.saturating_add(1),
        };
        schema = judge_line(rt, tally, &place, schema, line)?;
    }
    Ok(())
}

// The schema by which the next line is judged: none before a block.
fn judge_line<R: Print + AllocGlobal>(
    rt: &R,
    tally: &mut Tally,
    place: &Place,
    schema: Option<Schema>,
    line: &str,
) -> io::Result<Option<Schema>> {
    if line.is_empty() {
        return Ok(None);
    }
    if is_comment(line) {
        return Ok(schema);
    }
    match schema {
        None => read(rt, tally, place, line),
        Some(schema) => {
            judge_case(rt, tally, place, &schema, line)?;
            Ok(Some(schema))
        }
    }
}

// The schema of a block.
fn read<R: Print + AllocGlobal>(
    rt: &R,
    tally: &mut Tally,
    place: &Place,
    line: &str,
) -> io::Result<Option<Schema>> {
    match read_schema(rt.alloc(), line.as_bytes()) {
        Ok(schema) => Ok(Some(schema)),
        Err(error) => {
            let why = fault(rt.alloc(), &error)?;
            tally.note_other(rt, place, why.as_str())?;
            Ok(None)
        }
    }
}

fn judge_case<R: Print + AllocGlobal>(
    rt: &R,
    tally: &mut Tally,
    place: &Place,
    schema: &Schema,
    line: &str,
) -> io::Result<()> {
    let Some((given, wants)) = line.split_once(" => ") else {
        return tally.note_other(rt, place, line);
    };
    let text = written_out(rt.alloc(), given)?;
    let found = made(rt.alloc(), schema, text.as_str())?;
    let wanted = written_out(rt.alloc(), wants)?;
    tally.compare(rt, place, (given, wanted.as_str()), found.as_str())
}

// What the root makes of a text.
fn made(alloc: Global, schema: &Schema, text: &str) -> Result<String, AllocError> {
    match read_snap(alloc, text.as_bytes()) {
        Ok(given) => made_of(alloc, schema.types(), &given),
        Err(error) => misread(alloc, &error),
    }
}

// What the root makes of a value.
fn made_of(alloc: Global, types: &Types, given: &Snap) -> Result<String, AllocError>
    requires { IsPlain (view given.now) }
{
    let t = types.model_type(types.root());
    match make(alloc, types, t, Some(given)) {
        Ok(made) => unless_doubled(alloc, types, &made),
        Err(MakeError::Refused(refusal)) => refused(alloc, refusal.rule.name(), &refusal.path),
        Err(MakeError::Memory) => Err(AllocError),
    }
}

// What was made, or the place of an identifier that an earlier model of the same type has.
fn unless_doubled(alloc: Global, types: &Types, made: &Snap) -> Result<String, AllocError>
    requires { IsPlain (view made.now) }
{
    match doubled(alloc, types, made)? {
        Some(path) => refused(alloc, "identifier", &path),
        None => compact(alloc, made),
    }
}
