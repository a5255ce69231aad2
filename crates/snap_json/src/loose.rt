//! Values as JSON text spells them, where numbers aren't asked to be whole.
ghost use Rattle.std.specs.Prelude.{◌≡◌, IfOk, IfSome, option_map};
ghost use Rattle.serde_json.specs.View.{view as data_view, items_view as data_items, members_view as data_members};
ghost use Rattle.snap_core.specs.Value.{IsOrdered};
ghost use Rattle.snap_core.specs.View.{view, items_view, fields_view};
ghost use Rattle.snap_json.specs.Loose.{loosely, loose_value, loose_items, loose_members};

use crate::read::whole_number;
use list_core::Parts;
use serde_json::{Map, Value};
use snap_core::{Field, Fields, Items, Snap, Txt};
use std::alloc::{AllocError, Global};

/// What stands for a number that isn't whole: the first integer past those that a value holds.
const NOT_WHOLE: i64 = 9_007_199_254_740_992;

/// The value that bytes of JSON spell, with 9007199254740992 for each number that isn't whole, or
/// None where they are no JSON in UTF-8, as `serde_json` reads it: of at most 127 levels, and with no
/// number past a double. For readers that name the place of a number that isn't whole.
pub fn read_loosely(alloc: Global, bytes: &[u8]) -> Result<Option<Snap>, AllocError>
    ensures value { IfOk result (λ found. option_map view found ≡ loosely bytes.now) }
    ensures ordered { IfOk result (λ found. IfSome found (λ snap. IsOrdered (view snap))) }
{
    match Value::from_slice(alloc, bytes) {
        Ok(value) => Ok(Some(loosened(alloc, &value)?)),
        Err(error) if error.is_memory() => Err(AllocError),
        Err(_) => Ok(None),
    }
}

#[cycle(loosen)]
fn loosened(alloc: Global, value: &Value) -> Result<Snap, AllocError>
    ensures { IfOk result (λ snap. view snap ≡ loose_value (data_view value.now)) }
{
    match value {
        Value::Null => Ok(Snap::Null),
        Value::Bool(b) => Ok(Snap::Bool(*b)),
        Value::Number(number) => Ok(Snap::Int(whole_number(number).unwrap_or(NOT_WHOLE))),
        Value::String(text) => Ok(Snap::Text(Txt::copy(alloc, text.as_str())?)),
        Value::Array(items) => Ok(Snap::List(loosened_items(alloc, items)?)),
        Value::Object(members) => Ok(Snap::Dict(loosened_fields(alloc, members)?)),
    }
}

#[cycle(loosen)]
fn loosened_items(alloc: Global, items: &[Value]) -> Result<Items, AllocError>
    ensures { IfOk result (λ list. items_view list ≡ loose_items (data_items items.now)) }
{
    let mut list = Parts::new(alloc);
    for item in items {
        list.push(loosened(alloc, item)?)?;
    }
    Ok(list)
}

#[cycle(loosen)]
fn loosened_fields(alloc: Global, members: &Map<String, Value>) -> Result<Fields, AllocError>
    ensures { IfOk result
        (λ fields. fields_view fields ≡ loose_members (data_members members.now.entries)) }
{
    let mut fields = Parts::new(alloc);
    for (key, member) in members.iter() {
        fields.push(Field {
            key: Txt::copy(alloc, key.as_str())?,
            value: loosened(alloc, member)?,
        })?;
    }
    Ok(fields)
}
