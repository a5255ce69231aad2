//! Labelled values without their labels.
ghost use Rattle.std.specs.Prelude.{◌≡◌, ◌&&◌, IfOk};
ghost use Rattle.std.specs.Str.{bytes_eq};
ghost use Rattle.snap_core.specs.View.{view, items_view, fields_view};
ghost use Rattle.edit_core.specs.Comparing.{is_equal, are_equal, have_equal};
ghost use Rattle.node_core.specs.View.{plain, plain_items, plain_fields};

use crate::labelled::{Labelled, LabelledField};
use list_core::Parts;
use snap_core::{Field, Fields, Items, Snap};
use std::alloc::{AllocError, Global};

impl Labelled {
    /// The value without labels.
    #[cycle(snapshot)]
    pub fn snapshot(&self, alloc: Global) -> Result<Snap, AllocError>
        ensures { IfOk result (λ value. view value ≡ plain self.now) }
    {
        match self {
            Labelled::Leaf(value) => value.clone_in(alloc),
            Labelled::Array(_, items) => Ok(Snap::List(item_snapshots(alloc, items.as_slice())?)),
            Labelled::Record(_, fields) => {
                Ok(Snap::Dict(field_snapshots(alloc, fields.as_slice())?))
            }
        }
    }

    /// Whether the value, without labels, is a given one.
    #[cycle(equals)]
    pub fn equals(&self, value: &Snap) -> bool
        ensures { result ≡ is_equal (plain self.now) (view value.now) }
    {
        match (self, value) {
            (Labelled::Leaf(own), _) => own.equal(value),
            (Labelled::Array(_, items), Snap::List(values)) => {
                equal_items(items.as_slice(), values.as_slice())
            }
            (Labelled::Record(_, fields), Snap::Dict(values)) => {
                equal_fields(fields.as_slice(), values.as_slice())
            }
            _ => false,
        }
    }
}

#[cycle(snapshot)]
fn item_snapshots(alloc: Global, items: &[Labelled]) -> Result<Items, AllocError>
    ensures { IfOk result (λ values. items_view values ≡ plain_items items.now) }
{
    let mut values = Parts::new(alloc);
    for item in items {
        values.push(item.snapshot(alloc)?)?;
    }
    Ok(values)
}

#[cycle(snapshot)]
fn field_snapshots(alloc: Global, fields: &[LabelledField]) -> Result<Fields, AllocError>
    ensures { IfOk result (λ values. fields_view values ≡ plain_fields fields.now) }
{
    let mut values = Parts::new(alloc);
    for field in fields {
        values.push(Field {
            key: field.key.clone_in()?,
            value: field.value.snapshot(alloc)?,
        })?;
    }
    Ok(values)
}

#[cycle(equals)]
fn equal_items(items: &[Labelled], values: &[Snap]) -> bool
    ensures { result ≡ are_equal (plain_items items.now) (items_view values.now) }
{
    if items.len() != values.len() {
        return false;
    }
    for i in 0..items.len() {
        if !items[i].equals(&values[i]) {
            return false;
        }
    }
    true
}

#[cycle(equals)]
fn equal_fields(fields: &[LabelledField], values: &[Field]) -> bool
    ensures { result ≡ have_equal (plain_fields fields.now) (fields_view values.now) }
{
    if fields.len() != values.len() {
        return false;
    }
    for i in 0..fields.len() {
        if !equal_field(&fields[i], &values[i]) {
            return false;
        }
    }
    true
}

#[cycle(equals)]
fn equal_field(field: &LabelledField, value: &Field) -> bool
    ensures { result ≡ (bytes_eq field.now.key value.now.key && is_equal (plain field.now.value) (view value.now.value)) }
{
    field.key.text() == value.key.text() && field.value.equals(&value.value)
}
