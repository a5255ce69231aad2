//! A case as a block of lines tells it.
//!
//! A line is a key, a blank and a value, and a key that isn't there has what stands for it below.
//! `schema FILE` or `text TEXT` is the contents of `schema.json`, and `words` are those of the command
//! line. What links bring, and what must be written to them, stands in lines that `links` reads.
use crate::text::bytes_of;
use edge_core::Calls;
use list_core::Parts;
use snap_core::{Bytes, Txt};
use std::alloc::{AllocError, Global};

/// The keys that a line may begin with.
const KEYS: &[&str] = &[
    "schema",
    "text",
    "words",
    "link",
    "input",
    "body",
    "ask",
    "reply",
    "answer",
    "gets",
    "gets-last",
    "cut",
    "all-cuts",
    "piece",
    "space",
    "fail-world",
    "fail-door",
    "status",
    "out",
    "err",
];

/// Whether a line is one of a case.
pub fn is_line(line: &str) -> bool {
    let (key, _) = parts_of(line);
    KEYS.contains(&key)
}

/// The key and the value of a line.
pub fn parts_of(line: &str) -> (&str, &str) {
    line.split_once(' ').unwrap_or((line, ""))
}

/// The value of the first line with this key.
pub fn value_of<'a>(block: &'a str, key: &str) -> Option<&'a str> {
    for line in block.lines() {
        let (name, value) = parts_of(line);
        if name == key {
            return Some(value);
        }
    }
    None
}

/// The number that stands under a key, or this one.
pub fn number_of(block: &str, key: &str, otherwise: u32) -> u32 {
    match value_of(block, key) {
        Some(value) => value.parse::<u32>().unwrap_or(otherwise),
        None => otherwise,
    }
}

/// The bytes that the text under a key spells: none where it isn't there.
pub fn text_of(alloc: Global, block: &str, key: &str) -> Result<Bytes, AllocError> {
    bytes_of(alloc, value_of(block, key).unwrap_or(""))
}

/// The words of the command line: `run schema.json` where none are given.
pub fn words_of(alloc: Global, block: &str) -> Result<Parts<Txt>, AllocError> {
    let mut words = Parts::new(alloc);
    for word in value_of(block, "words")
        .unwrap_or("run schema.json")
        .split_whitespace()
    {
        words.push(Txt::copy(alloc, word)?)?;
    }
    Ok(words)
}

/// The one call that fails, where its number stands under a key.
pub fn calls_of(alloc: Global, block: &str, key: &str) -> Result<Calls, AllocError> {
    Calls::from_slice(alloc, &[u64::from(number_of(block, key, 0))])
}
