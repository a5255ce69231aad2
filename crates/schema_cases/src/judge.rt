//! What the texts of a table come to.
ghost use Rattle.snap_core.specs.Value.{IsPlain};
ghost use Rattle.snap_core.specs.View.{view};

use case_tables::Judge;
use pointer_core::{Pointer, PointerError};
use schema_read::{SchemaError, read_schema};
use snap_core::{Name, NameError, Snap};
use snap_json::{ReadError, print_snap, read_snap};
use std::alloc::{AllocError, Global};

/// What the texts of a table are.
#[derive(Clone, Copy)]
pub enum Texts {
    /// JSON, which comes to its compact form.
    Value,
    /// Pointers, which come to their tokens in brackets.
    Pointer,
    /// Tokens, which come to their index.
    Index,
    /// JSON, which comes to its weight and its depth.
    Measure,
    /// Names, or no names.
    Name,
    /// Schema files.
    Schema,
    /// Schema files, which come to the root's name and how many steps of history are kept.
    Held,
}

/// What a text comes to: `ok` or what it is read as, or why it isn't read.
impl Judge for Texts {
    fn outcome(&self, alloc: Global, text: &str) -> Result<String, AllocError> {
        match self {
            Texts::Value => value(alloc, text),
            Texts::Pointer => tokens(alloc, text),
            Texts::Index => index(alloc, text),
            Texts::Measure => measure(alloc, text),
            Texts::Name => name(alloc, text),
            Texts::Schema => schema(alloc, text),
            Texts::Held => held(alloc, text),
        }
    }
}

fn value(alloc: Global, text: &str) -> Result<String, AllocError> {
    match read_snap(alloc, text.as_bytes()) {
        Ok(snap) => compact(alloc, &snap),
        Err(error) => misread(alloc, &error),
    }
}

/// A value as JSON.
pub fn compact(alloc: Global, snap: &Snap) -> Result<String, AllocError>
    requires { IsPlain (view snap.now) }
{
    let bytes = print_snap(alloc, snap)?;
    String::from_utf8(bytes.into_vec()).map_err(|_| AllocError)
}

/// Why a text is no value.
pub fn misread(alloc: Global, error: &ReadError) -> Result<String, AllocError> {
    match error {
        ReadError::Memory => Err(AllocError),
        ReadError::Syntax => String::from_str(alloc, "syntax"),
        ReadError::Whole { path } => refused(alloc, "whole", path),
    }
}

/// A rule and a place.
pub fn refused(alloc: Global, rule: &str, path: &Pointer) -> Result<String, AllocError> {
    if path.is_root() {
        format!(in alloc; "{rule} at the root")
    } else {
        format!(in alloc; "{rule} at {path}")
    }
}

fn tokens(alloc: Global, text: &str) -> Result<String, AllocError> {
    match Pointer::parse(alloc, text) {
        Ok(pointer) => bracketed(alloc, &pointer),
        Err(PointerError::Memory) => Err(AllocError),
        Err(PointerError::NoSlash) => String::from_str(alloc, "no slash"),
        Err(PointerError::BadTilde { at }) => format!(in alloc; "tilde at {at}"),
    }
}

fn bracketed(alloc: Global, pointer: &Pointer) -> Result<String, AllocError> {
    let mut text = String::from_str(alloc, "the root")?;
    for token in pointer.tokens() {
        text.push('[')?;
        text.push_str(token.text())?;
        text.push(']')?;
    }
    Ok(text)
}

fn index(alloc: Global, token: &str) -> Result<String, AllocError> {
    match Pointer::index_of(token) {
        Some(index) => format!(in alloc; "{index}"),
        None => String::from_str(alloc, "none"),
    }
}

fn measure(alloc: Global, text: &str) -> Result<String, AllocError> {
    match read_snap(alloc, text.as_bytes()) {
        Ok(snap) => {
            let weight = snap.weight(u64::MAX);
            let depth = snap.depth(u64::MAX);
            format!(in alloc; "{weight} {depth}")
        }
        Err(error) => misread(alloc, &error),
    }
}

fn name(alloc: Global, text: &str) -> Result<String, AllocError> {
    match Name::read(alloc, text) {
        Ok(_) => String::from_str(alloc, "a name"),
        Err(NameError::BadName) => String::from_str(alloc, "no name"),
        Err(NameError::Memory) => Err(AllocError),
    }
}

fn schema(alloc: Global, text: &str) -> Result<String, AllocError> {
    match read_schema(alloc, text.as_bytes()) {
        Ok(_) => String::from_str(alloc, "ok"),
        Err(error) => fault(alloc, &error),
    }
}

fn held(alloc: Global, text: &str) -> Result<String, AllocError> {
    match read_schema(alloc, text.as_bytes()) {
        Ok(schema) => {
            let root = schema.types().name(schema.root()).text();
            let history = schema.history();
            format!(in alloc; "{root} {history}")
        }
        Err(error) => fault(alloc, &error),
    }
}

/// Why a file is no schema.
pub fn fault(alloc: Global, error: &SchemaError) -> Result<String, AllocError> {
    match error {
        SchemaError::Memory => Err(AllocError),
        SchemaError::Syntax => String::from_str(alloc, "syntax"),
        SchemaError::Refused { pointer, rule } => refused(alloc, rule.name(), pointer),
    }
}
