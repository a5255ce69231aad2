//! A tree without its loose references.
ghost use Rattle.std.specs.Prelude.{◌≡◌, ◌++◌, IfOk, OnOk};
ghost use Rattle.edit_core.specs.Labelled.{branches, entries};
ghost use Rattle.node_core.specs.View.{labelled, items, fields};
ghost use Rattle.tree_reading.specs.Clearing.{goes_by};
ghost use Rattle.tree_reading.specs.Settled as specs;

use crate::clearing::item_type;
use crate::loose::{Clearing, is_loose};
use edit_core::Kind;
use list_core::Parts;
use node_core::{Entries, Items, Labelled, LabelledField};
use reconcile_core::type_under;
use snap_core::{Snap, TypeNo};
use std::alloc::{AllocError, Global};

/// A copy without the loose references: items and values of maps go, and properties become null.
#[cycle(settling)]
pub fn settled_value(alloc: Global, by: &Clearing, from: &Labelled) -> Result<Labelled, AllocError>
    ensures { IfOk result (λ value. labelled value ≡ specs.settled_value (goes_by by.now) (labelled from.now)) }
{
    match from {
        Labelled::Leaf(value) => Ok(Labelled::Leaf(value.clone_in(alloc)?)),
        Labelled::Array(own, parts) => Ok(Labelled::Array(
            *own,
            settled_items(alloc, by, item_type(own.kind), parts.as_slice())?,
        )),
        Labelled::Record(own, parts) => Ok(Labelled::Record(
            *own,
            settled_fields(alloc, by, own.kind, parts.as_slice())?,
        )),
    }
}

#[cycle(settling)]
fn settled_items(
    alloc: Global,
    by: &Clearing,
    of: TypeNo,
    parts: &[Labelled],
) -> Result<Items, AllocError>
    ensures { IfOk result (λ copy. items copy ≡ specs.settled_items (goes_by by.now) of.0 (branches (items parts.now))) }
{
    let mut copy = Parts::new(alloc);
    for part in parts {
        if !is_loose(by, of, part)? {
            copy.push(settled_value(alloc, by, part)?)?;
        }
    }
    Ok(copy)
}

#[cycle(settling)]
fn settled_fields(
    alloc: Global,
    by: &Clearing,
    kind: Kind,
    parts: &[LabelledField],
) -> Result<Entries, AllocError>
    ensures { IfOk result (λ copy. fields copy ≡ specs.settled_entries (goes_by by.now) kind (entries (fields parts.now))) }
{
    let mut copy = Parts::new(alloc);
    for part in parts {
        let t = type_under(by.types, kind, part.key.text());
        if is_loose(by, t, &part.value)? {
            append_left(kind, part, &mut copy)?;
        } else {
            copy.push(LabelledField {
                key: part.key.clone_in()?,
                value: settled_value(alloc, by, &part.value)?,
            })?;
        }
    }
    Ok(copy)
}

/// Adds what is left of a loose entry.
fn append_left(kind: Kind, part: &LabelledField, copy: &mut Entries) -> Result<(), AllocError>
    ensures { OnOk result (fields copy.new ≡ fields copy.old ++ specs.left_of kind part.now.key) }
{
    match kind {
        Kind::Map(_) => Ok(()),
        _ => copy.push(LabelledField {
            key: part.key.clone_in()?,
            value: Labelled::Leaf(Snap::Null),
        }),
    }
}
