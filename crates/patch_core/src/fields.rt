//! Patches at the fields of a record.
ghost use Rattle.std.specs.Prelude.{◌≡◌, ◌<◌, length, slice_get, slice_set, Some, Ok, OnOk, OnErr, IfOk};
ghost use Rattle.snap_core.specs.Value.{AreKeyed};
ghost use Rattle.snap_core.specs.View.{view, fields_view};
ghost use Rattle.snap_core.specs.Level.{set_field, remove_field};
ghost use Rattle.patch_core.specs.Application.{HasValue, written, where_held, put_field, fields_after};
ghost use Rattle.patch_core.specs.Outcome.{Answers};

use crate::error::PatchError;
use crate::patch::{Patch, PatchOp};
use snap_core::{Field, Fields, Snap, Txt, position, search};
use std::alloc::{AllocError, Global};

pub(crate) fn edit_fields(
    alloc: Global,
    fields: &mut Fields,
    key: &str,
    patch: &Patch,
) -> Result<(), PatchError>
    requires keyed { AreKeyed (fields_view fields.old) }
    requires value { HasValue patch.now }
    ensures outcome { Answers result (fields_after patch.now.op key.now (written patch.now) (fields_view fields.old)) (fields_view fields.new) }
    ensures unchanged { OnErr result (fields.new ≡ fields.old) }
{
    match patch.op {
        PatchOp::Add => add_field(alloc, fields, key, patch.written()),
        PatchOp::Replace => replace_field(alloc, fields, key, patch.written()),
        PatchOp::Remove => remove_field(fields, key),
    }
}

fn add_field(alloc: Global, fields: &mut Fields, key: &str, value: &Snap) -> Result<(), PatchError>
    requires { AreKeyed (fields_view fields.old) }
    ensures outcome { Answers result (Ok (put_field key.now (view value.now) (fields_view fields.old))) (fields_view fields.new) }
    ensures unchanged { OnErr result (fields.new ≡ fields.old) }
{
    match search(fields.as_slice(), key) {
        Ok(at) => Ok(set_value(alloc, fields, at, value)?),
        Err(at) => Ok(fields.insert(at, field(alloc, key, value)?)?),
    }
}

fn replace_field(
    alloc: Global,
    fields: &mut Fields,
    key: &str,
    value: &Snap,
) -> Result<(), PatchError>
    requires { AreKeyed (fields_view fields.old) }
    ensures outcome { Answers result (where_held key.now (fields_view fields.old) (set_field key.now (view value.now) (fields_view fields.old))) (fields_view fields.new) }
    ensures unchanged { OnErr result (fields.new ≡ fields.old) }
{
    match position(fields.as_slice(), key) {
        Some(at) => Ok(set_value(alloc, fields, at, value)?),
        None => Err(PatchError::Path),
    }
}

fn remove_field(fields: &mut Fields, key: &str) -> Result<(), PatchError>
    requires { AreKeyed (fields_view fields.old) }
    ensures outcome { Answers result (where_held key.now (fields_view fields.old) (remove_field key.now (fields_view fields.old))) (fields_view fields.new) }
    ensures unchanged { OnErr result (fields.new ≡ fields.old) }
{
    match position(fields.as_slice(), key) {
        Some(at) => {
            fields.remove(at);
            Ok(())
        }
        None => Err(PatchError::Path),
    }
}

/// Puts a copy of a value into the field at an index.
fn set_value(alloc: Global, fields: &mut Fields, at: usize, value: &Snap) -> Result<(), AllocError>
    requires { at < length fields.old }
    ensures ok { OnOk result ((old : Field) → slice_get fields.old at ≡ Some old
        → fields.new ≡ slice_set fields.old at (record old { value = value.now })) }
    ensures err { OnErr result (fields.new ≡ fields.old) }
{
    let copy = value.clone_in(alloc)?;
    fields.item_mut(at).value = copy;
    Ok(())
}

/// A field with copies of a key and a value.
fn field(alloc: Global, key: &str, value: &Snap) -> Result<Field, AllocError>
    ensures key { IfOk result (λ field. field.key ≡ key.now) }
    ensures value { IfOk result (λ field. field.value ≡ value.now) }
{
    Ok(Field {
        key: Txt::copy(alloc, key)?,
        value: value.clone_in(alloc)?,
    })
}
