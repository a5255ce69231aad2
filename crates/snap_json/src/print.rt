ghost use Rattle.std.specs.Prelude.{◌≡◌, ◌≤◌, IfOk};
ghost use Rattle.serde_json.specs.Data.{no_members};
ghost use Rattle.serde_json.specs.View.{view as data_view, items_view as data_items, members_view as data_members};
ghost use Rattle.snap_core.specs.Value.{IsPlain, depth_of};
ghost use Rattle.snap_core.specs.View.{view, items_view, fields_view};
ghost use Rattle.snap_json.specs.Printing.{json_text, built_of, items_built, members_built};
ghost use Rattle.snap_json.specs.Reading.{reading, value};

use list_core::Parts;
use serde_json::{Map, Value};
use snap_core::{Bytes, Fields, Items, Snap};
use std::alloc::{AllocError, Global};

/// The compact JSON text of a value. It reads back as that value where it is at most 127 levels deep.
pub fn print_snap(alloc: Global, snap: &Snap) -> Result<Bytes, AllocError>
    requires { IsPlain (view snap.now) }
    ensures text { IfOk result (λ bytes. bytes ≡ json_text (view snap.now)) }
    ensures reads_back { IfOk result (λ bytes. depth_of (view snap.now) ≤ 127
        → reading bytes ≡ value (view snap.now)) }
{
    let text = value_of(alloc, snap)?.to_vec(alloc)?;
    Ok(Parts::from_vec(text))
}

#[cycle(build)]
fn value_of(alloc: Global, snap: &Snap) -> Result<Value, AllocError>
    ensures { IfOk result (λ v. data_view v ≡ built_of (view snap.now)) }
{
    match snap {
        Snap::Null => Ok(Value::Null),
        Snap::Bool(b) => Ok(Value::Bool(*b)),
        Snap::Int(n) => Ok(Value::from(*n)),
        Snap::Text(text) => Ok(Value::try_from_str(alloc, text.text())?),
        Snap::List(items) => Ok(Value::Array(array_of(alloc, items)?)),
        Snap::Dict(fields) => Ok(Value::Object(object_of(alloc, fields)?)),
    }
}

#[cycle(build)]
fn array_of(alloc: Global, items: &Items) -> Result<Vec<Value>, AllocError>
    ensures { IfOk result (λ v. data_items v.items ≡ items_built (items_view items.now)) }
{
    let mut array = Vec::with_capacity(alloc, items.len())?;
    for item in items.as_slice() {
        array.push(value_of(alloc, item)?)?;
    }
    Ok(array)
}

#[cycle(build)]
fn object_of(alloc: Global, fields: &Fields) -> Result<Map<String, Value>, AllocError>
    ensures { IfOk result
        (λ m. data_members m.entries ≡ members_built (fields_view fields.now) no_members) }
{
    let mut object = Map::new(alloc);
    for field in fields.as_slice() {
        let member = value_of(alloc, &field.value)?;
        serde_json::put(&mut object, alloc, field.key.text(), member)?;
    }
    Ok(object)
}
