//! Cases of the whole program, which stand in tables: words, a schema file and what links bring, and
//! the exit status and the bytes that must come of them. What differs is printed, and how many cases
//! there were.
#![tactic(auto)]

mod case;
mod links;
mod run;
mod slow_door;
mod text;

use crate::case::{is_line, number_of, text_of, value_of};
use crate::links::links_of;
use crate::run::outcome_of;
use snap_core::Bytes;
use std::io::Print;
use std::rt::Files;
use std::{fs, io};

/// The tables, which lie where the program runs.
const TABLES: &[&str] = &[
    "words.cases",
    "files.cases",
    "links.cases",
    "failures.cases",
    "requests.cases",
    "faults.cases",
    "ports.cases",
    "shelf.cases",
    "office.cases",
    "documents.cases",
    "sequences.cases",
    "views.cases",
    "view_sequences.cases",
    "actions_office.cases",
    "actions_bodies.cases",
    "actions_statements.cases",
    "actions_writes.cases",
    "actions_items.cases",
    "actions_protected.cases",
    "actions_nodes.cases",
    "actions_dead.cases",
    "actions_arguments.cases",
    "actions_calls.cases",
    "actions_guards.cases",
    "actions_atomic.cases",
    "actions_kept.cases",
    "actions_limits.cases",
    "actions_large.cases",
    "action_sequences.cases",
    "action_mixes.cases",
];

/// How many bytes a read takes at most, where a case is run with all of these.
const ALL_CUTS: &[u32] = &[1, 7, 1000];

fn main(rt: HostRuntime) -> io::Result<()> {
    let mut cases = 0u64;
    for table in TABLES {
        let count = try_table(&rt, table)?;
        println!(rt; "{table}: {count} cases")?;
        cases = cases.saturating_add(count);
    }
    println!(rt; "{cases} cases in all")
}

// Tries each case of a table, and answers how many there were.
fn try_table<R: Files + AllocGlobal + Print>(rt: &R, table: &str) -> io::Result<u64> {
    let text = fs::read_to_string(rt, table)?;
    let mut count = 0u64;
    for block in text.as_str().split("\n\n") {
        if !block.trim().is_empty() {
            count = count.saturating_add(1);
            try_lines(rt, table, count, block)?;
            try_block(rt, table, count, block)?;
        }
    }
    Ok(count)
}

// Prints each line of a block that is none of a case.
fn try_lines<R: Print>(rt: &R, table: &str, number: u64, block: &str) -> io::Result<()> {
    for line in block.lines() {
        if !is_line(line) {
            println!(rt; "{table} {number}: no line of a case: {line}")?;
        }
    }
    Ok(())
}

// Runs the case of a block, as often as it asks for.
fn try_block<R: Files + AllocGlobal + Print>(
    rt: &R,
    table: &str,
    number: u64,
    block: &str,
) -> io::Result<()> {
    if value_of(block, "all-cuts").is_none() {
        return try_cut(rt, table, number, block, number_of(block, "cut", 1000));
    }
    for cut in ALL_CUTS {
        try_cut(rt, table, number, block, *cut)?;
    }
    Ok(())
}

// Runs the case of a block with reads of so many bytes, and prints what is other than it wants.
fn try_cut<R: Files + AllocGlobal + Print>(
    rt: &R,
    table: &str,
    number: u64,
    block: &str,
    cut: u32,
) -> io::Result<()> {
    let alloc = rt.alloc();
    let links = links_of(alloc, block)?;
    let outcome = outcome_of(alloc, schema_of(rt, block)?, block, links.as_slice(), cut)?;
    let status = number_of(block, "status", 0);
    if u32::from(outcome.status) != status {
        println!(rt; "{table} {number}: status {}, not {status}", outcome.status)?;
    }
    for (at, link) in links.iter().enumerate() {
        let found = outcome.door.written(at).unwrap_or(b"");
        tell(rt, table, number, "reply", found, link.wanted.as_slice())?;
    }
    let out = text_of(alloc, block, "out")?;
    tell(
        rt,
        table,
        number,
        "out",
        outcome.world.out(),
        out.as_slice(),
    )?;
    let err = text_of(alloc, block, "err")?;
    tell(
        rt,
        table,
        number,
        "err",
        outcome.world.err(),
        err.as_slice(),
    )
}

// The contents of the schema file.
fn schema_of<R: Files + AllocGlobal>(rt: &R, block: &str) -> io::Result<Bytes> {
    match value_of(block, "schema") {
        Some(name) => {
            let text = fs::read_to_string(rt, name)?;
            Ok(Bytes::from_slice(rt.alloc(), text.as_str().as_bytes())?)
        }
        None => Ok(text_of(rt.alloc(), block, "text")?),
    }
}

// Prints bytes that are other than wanted.
fn tell<R: AllocGlobal + Print>(
    rt: &R,
    table: &str,
    number: u64,
    what: &str,
    found: &[u8],
    wanted: &[u8],
) -> io::Result<()> {
    if found == wanted {
        return Ok(());
    }
    let found = String::from_utf8_lossy(rt.alloc(), found)?;
    let wanted = String::from_utf8_lossy(rt.alloc(), wanted)?;
    println!(rt; "{table} {number}: {what} is {found:?}, not {wanted:?}")
}
