//! Numbers that aren't whole, which are kept as integers past the range of whole numbers.
ghost use Rattle.std.specs.Prelude.{◌≡◌};
ghost use Rattle.snap_core.specs.View.{view, items_view, fields_view};
ghost use Rattle.expr_form.specs.Numbers as specs;
ghost use Rattle.expr_form.specs.Outcome.{Tells};

use crate::fault::Trouble;
use crate::walk::{at_index, under, wrong};
use pointer_core::SchemaRule;
use snap_core::{Field, Snap, is_whole};
use std::alloc::Global;

/// Refuses the first number in a value that isn't whole.
#[cycle(numbers)]
pub fn check_numbers(alloc: Global, value: &Snap) -> Result<(), Trouble>
    ensures { Tells (λ u. tt) result (specs.numbers_read (view value.now)) }
{
    match value {
        Snap::Int(n) => check_whole(alloc, *n),
        Snap::List(items) => check_items(alloc, items.as_slice()),
        Snap::Dict(fields) => check_fields(alloc, fields.as_slice()),
        _ => Ok(()),
    }
}

fn check_whole(alloc: Global, n: i64) -> Result<(), Trouble>
    ensures { Tells (λ u. tt) result (specs.whole_read n) }
{
    if is_whole(i128::from(n)) {
        Ok(())
    } else {
        Err(wrong(alloc, SchemaRule::Shape))
    }
}

#[cycle(numbers)]
fn check_items(alloc: Global, items: &[Snap]) -> Result<(), Trouble>
    ensures { Tells (λ u. tt) result (specs.items_read 0 (items_view items.now)) }
{
    for (index, item) in items.iter().enumerate() {
        at_index(index, check_numbers(alloc, item))?;
    }
    Ok(())
}

#[cycle(numbers)]
fn check_fields(alloc: Global, fields: &[Field]) -> Result<(), Trouble>
    ensures { Tells (λ u. tt) result (specs.members_read (fields_view fields.now)) }
{
    for field in fields {
        under(field.key.text(), check_numbers(alloc, &field.value))?;
    }
    Ok(())
}
