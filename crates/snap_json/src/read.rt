ghost use Rattle.std.specs.Prelude.{◌≡◌, ◌≤◌, Option, Result, IfOk, IfErr, decimal};
ghost use Rattle.serde_json.specs.View.{number_view, view as data_view, items_view as data_items, members_view as data_members};
ghost use Rattle.serde_json.specs.Errors.{IsMemory};
ghost use Rattle.snap_core.specs.Value.{Value as Plain, IsPlain, depth_of};
ghost use Rattle.snap_core.specs.View.{view, items_view, fields_view};
ghost use Rattle.pointer_core.specs.Path.{Path};
ghost use Rattle.snap_json.specs.Fault.{IfMemory, IfSyntax, IfWhole, IsFaultOf};
ghost use Rattle.snap_json.specs.Reading.{reading, value, unwhole, syntax, whole_of, value_of, items_of, members_of, under};

use list_core::Parts;
use pointer_core::Pointer;
use serde_json::{Error, Map, Number, Value};
use snap_core::{Field, Fields, Items, Snap, Txt, is_whole};
use std::alloc::{AllocError, Global};

/// Why bytes are no value.
#[derive(Debug, Drop, thiserror::Error)]
pub enum ReadError {
    #[error("out of memory")]
    Memory,
    /// The bytes are no JSON in UTF-8, as `serde_json` reads it: of at most 127 levels, and with no
    /// number past a double.
    #[error("no JSON")]
    Syntax,
    /// The first number that isn't whole, or past what a value holds, stands here.
    #[error("the number at `{path}` isn't whole")]
    Whole { path: Pointer },
}

impl From<AllocError> for ReadError {
    ghost use Rattle.std.specs.Prelude.{◌≡◌};
    ghost use Rattle.snap_json.specs.declared.read.ReadError.TheVariants.{Memory};

    ghost from_gives = { λ _ e. e ≡ Memory };

    fn from(_refused: AllocError) -> ReadError {
        ReadError::Memory
    }
}

pub fn whole_number(number: &Number) -> Option<i64>
    ensures { result ≡ whole_of (number_view number.now) }
{
    match number.as_i128() {
        Some(n) if is_whole(n) => Some(n as i64),
        _ => None,
    }
}

// A number at this place isn't whole, or memory ran out while the place was made.
fn at_path(path: Result<Pointer, AllocError>) -> ReadError
    ensures { (found : Result Plain Path) → IfOk path (λ p. found ≡ Err p) → IsFaultOf result found }
{
    match path {
        Ok(path) => ReadError::Whole { path },
        Err(_) => ReadError::Memory,
    }
}

impl ReadError {
    fn under(self, token: &str) -> ReadError
        ensures { (found : Result Plain Path) → IsFaultOf self found
            → IsFaultOf result (under token.now found) }
    {
        match self {
            ReadError::Memory => ReadError::Memory,
            ReadError::Syntax => ReadError::Syntax,
            ReadError::Whole { path } => at_path(path.under(token)),
        }
    }

    fn under_index(self, index: usize) -> ReadError
        ensures { (found : Result Plain Path) → IsFaultOf self found
            → IsFaultOf result (under (decimal index) found) }
    {
        match self {
            ReadError::Memory => ReadError::Memory,
            ReadError::Syntax => ReadError::Syntax,
            ReadError::Whole { path } => at_path(path.under_index(index)),
        }
    }
}

/// The value that bytes of JSON spell. Where a key stands twice in one object, its last value counts.
/// The first number that isn't whole is the first in document order, in which an object's entries go
/// by ascending keys.
pub fn read_snap(alloc: Global, bytes: &[u8]) -> Result<Snap, ReadError>
    ensures ok { IfOk result (λ snap. reading bytes.now ≡ value (view snap)) }
    ensures plain { IfOk result (λ snap. IsPlain (view snap)) }
    ensures depth { IfOk result (λ snap. depth_of (view snap) ≤ 128) }
    ensures syntax { IfErr result (λ e. IfSyntax e (reading bytes.now ≡ syntax)) }
    ensures whole { IfErr result (λ e. IfWhole e (λ path. reading bytes.now ≡ unwhole path)) }
{
    match Value::from_slice(alloc, bytes) {
        Ok(value) => snap_of(alloc, &value),
        Err(error) => Err(refusal(&error)),
    }
}

fn refusal(error: &Error) -> ReadError
    ensures memory { IfMemory result (IsMemory error.now) }
    ensures syntax { IfSyntax result (¬ IsMemory error.now) }
    ensures whole { IfWhole result (λ _. ⊥) }
{
    if error.is_memory() {
        ReadError::Memory
    } else {
        ReadError::Syntax
    }
}

#[cycle(read)]
fn snap_of(alloc: Global, value: &Value) -> Result<Snap, ReadError>
    ensures ok { IfOk result (λ snap. value_of (data_view value.now) ≡ Ok (view snap)) }
    ensures err { IfErr result (λ e. IsFaultOf e (value_of (data_view value.now))) }
{
    match value {
        Value::Null => Ok(Snap::Null),
        Value::Bool(b) => Ok(Snap::Bool(*b)),
        Value::Number(number) => match whole_number(number) {
            Some(n) => Ok(Snap::Int(n)),
            None => Err(ReadError::Whole {
                path: Pointer::new(alloc),
            }),
        },
        Value::String(text) => Ok(Snap::Text(Txt::copy(alloc, text.as_str())?)),
        Value::Array(items) => Ok(Snap::List(list_of(alloc, items)?)),
        Value::Object(members) => Ok(Snap::Dict(fields_of(alloc, members)?)),
    }
}

#[cycle(read)]
fn list_of(alloc: Global, items: &[Value]) -> Result<Items, ReadError>
    ensures ok { IfOk result (λ list. items_of 0 (data_items items.now) ≡ Ok (items_view list)) }
    ensures err { IfErr result (λ e. IsFaultOf e (items_of 0 (data_items items.now))) }
{
    let mut list = Parts::new(alloc);
    for (index, item) in items.iter().enumerate() {
        match snap_of(alloc, item) {
            Ok(snap) => list.push(snap)?,
            Err(error) => return Err(error.under_index(index)),
        }
    }
    Ok(list)
}

#[cycle(read)]
fn fields_of(alloc: Global, members: &Map<String, Value>) -> Result<Fields, ReadError>
    ensures ok { IfOk result
        (λ fields. members_of (data_members members.now.entries) ≡ Ok (fields_view fields)) }
    ensures err { IfErr result (λ e. IsFaultOf e (members_of (data_members members.now.entries))) }
{
    let mut fields = Parts::new(alloc);
    for (key, member) in members.iter() {
        match snap_of(alloc, member) {
            Ok(value) => fields.push(Field {
                key: Txt::copy(alloc, key.as_str())?,
                value,
            })?,
            Err(error) => return Err(error.under(key.as_str())),
        }
    }
    Ok(fields)
}
