//! Numbers that aren't whole are at fault wherever they stand: they are kept as integers
//! past the range of whole numbers.
ghost use Rattle.std.specs.Prelude.{◌≡◌, IfOk};
ghost use Rattle.snap_core.specs.Unview.{snap_of};
ghost use Rattle.snap_core.specs.View.{view, items_view, fields_view};
ghost use Rattle.schema_form.specs.Faults as faults;
ghost use Rattle.schema_form.specs.Outcome.{Finds};

use crate::fault::FormError;
use crate::walk::{at_index, require, under, wrong};
use pointer_core::SchemaRule;
use snap_core::{Field, Snap, is_whole};
use std::alloc::Global;

/// Refuses the first number in a value that isn't whole.
#[cycle(numbers)]
pub fn check_numbers(alloc: Global, value: &Snap) -> Result<(), FormError>
    ensures { Finds result (faults.number_faults (view value.now)) }
{
    match value {
        Snap::Int(n) => require(alloc, is_whole(i128::from(*n)), SchemaRule::Shape),
        Snap::List(items) => check_items(alloc, items.as_slice()),
        Snap::Dict(fields) => check_fields(alloc, fields.as_slice()),
        _ => Ok(()),
    }
}

#[cycle(numbers)]
fn check_items(alloc: Global, items: &[Snap]) -> Result<(), FormError>
    ensures { Finds result (faults.items_numbers 0 (items_view items.now)) }
{
    for (index, item) in items.iter().enumerate() {
        at_index(index, check_numbers(alloc, item))?;
    }
    Ok(())
}

#[cycle(numbers)]
fn check_fields(alloc: Global, fields: &[Field]) -> Result<(), FormError>
    ensures { Finds result (faults.members_numbers (fields_view fields.now)) }
{
    for field in fields {
        under(field.key.text(), check_numbers(alloc, &field.value))?;
    }
    Ok(())
}

/// Reads a literal: a scalar.
pub fn read_literal(alloc: Global, value: &Snap) -> Result<Snap, FormError>
    ensures finds { Finds result (faults.literal_faults (view value.now)) }
    ensures ok { IfOk result (λ literal. literal ≡ snap_of (view value.now)) }
{
    match value {
        Snap::List(_) | Snap::Dict(_) => Err(wrong(alloc, SchemaRule::Shape)),
        _ => read_scalar(alloc, value),
    }
}

fn read_scalar(alloc: Global, value: &Snap) -> Result<Snap, FormError>
    ensures finds { Finds result (faults.number_faults (view value.now)) }
    ensures ok { IfOk result (λ literal. literal ≡ snap_of (view value.now)) }
{
    check_numbers(alloc, value)?;
    Ok(value.clone_in(alloc)?)
}
