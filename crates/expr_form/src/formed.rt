//! The own form of an expression: an object with one key that stands for a form, or a scalar.
ghost use Rattle.std.specs.Prelude.{◌≡◌, None};
ghost use Rattle.snap_core.specs.Value.{dict, is_whole};
ghost use Rattle.snap_core.specs.View.{view, fields_view};
ghost use Rattle.expr_form.specs.Expressions as specs;
ghost use Rattle.expr_form.specs.Outcome.{Tells, if_so};
ghost use Rattle.expr_form.specs.Keys.{key_of};
ghost use Rattle.pointer_core.specs.declared.schema_rule.SchemaRule.TheVariants.{Shape};
ghost use Rattle.expr_form.specs.Seen.{formed_seen};

use crate::fault::Trouble;
use crate::keys::{Key, key_of};
use crate::walk::wrong;
use pointer_core::SchemaRule;
use snap_core::{Field, Snap, is_whole};
use std::alloc::Global;

/// The form that a value's only key stands for, and what stands under it; none for a scalar.
pub fn formed(alloc: Global, value: &Snap) -> Result<Option<(Key, &Field)>, Trouble>
    ensures { Tells formed_seen result (specs.own_form (view value.now)) }
{
    match value {
        Snap::Dict(fields) => formed_object(alloc, fields.as_slice()),
        Snap::List(_) => Err(wrong(alloc, SchemaRule::Shape)),
        Snap::Int(n) => formed_integer(alloc, *n),
        _ => Ok(None),
    }
}

fn formed_integer<'a>(alloc: Global, n: i64) -> Result<Option<(Key, &'a Field)>, Trouble>
    ensures { Tells formed_seen result (if_so (is_whole n) Shape None) }
{
    if is_whole(i128::from(n)) {
        Ok(None)
    } else {
        Err(wrong(alloc, SchemaRule::Shape))
    }
}

fn formed_object(alloc: Global, fields: &[Field]) -> Result<Option<(Key, &Field)>, Trouble>
    ensures { Tells formed_seen result (specs.own_form (dict tt (fields_view fields.now))) }
{
    if fields.len() != 1 {
        return Err(wrong(alloc, SchemaRule::Shape));
    }
    formed_field(alloc, &fields[0])
}

fn formed_field(alloc: Global, field: &Field) -> Result<Option<(Key, &Field)>, Trouble>
    ensures { Tells formed_seen result (specs.known field.now.key (view field.now.value) (key_of field.now.key)) }
{
    match key_of(field.key.text()) {
        Some(key) => Ok(Some((key, field))),
        None => Err(wrong(alloc, SchemaRule::Shape)),
    }
}
