//! The places of a tree, and what they hold.
ghost use Rattle.std.specs.Prelude.{◌≡◌, IfOk, IsSome, Some};
ghost use Rattle.std.specs.Option.{option_copied, option_map};
ghost use Rattle.snap_core.specs.View.{view};
ghost use Rattle.edit_core.specs.Labelled.{bare};
ghost use Rattle.edit_core.specs.Template.{entry_at};
ghost use Rattle.node_core.specs.View.{labelled, fields};
ghost use Rattle.tree_core.specs.Reading as specs;

use crate::nodes::node_of;
use edit_core::Kind;
use node_core::{Entries, Labelled, LabelledField};
use snap_core::{NodeNo, Snap};
use std::alloc::{AllocError, Global};
use tree_core::Place;

/// What stands at a place; none where it is no place of the tree.
pub fn part_at_place<'a>(root: &'a Labelled, place: &Place) -> Option<&'a Labelled>
    ensures { option_map labelled (option_copied result) ≡ specs.part_at_place place.now (labelled root.now) }
{
    let node = node_of(root, node_no(place))?;
    part_of(node, place)
}

/// The node that a place is in, or that it is as a whole.
pub fn node_no(place: &Place) -> NodeNo
    ensures { result.0 ≡ specs.node_no place.now }
{
    match place {
        Place::Whole(n) | Place::Prop(n, _) | Place::Item(n, _) | Place::Key(n, _) => *n,
    }
}

/// What stands at a place of a node.
pub fn part_of<'a>(node: &'a Labelled, place: &Place) -> Option<&'a Labelled>
    ensures { option_map labelled (option_copied result) ≡ specs.part_of place.now (labelled node.now) }
{
    match (place, node) {
        (Place::Whole(_), _) => Some(node),
        (Place::Prop(_, name), Labelled::Record(label, parts)) => {
            property_in(name.text(), label.kind, parts)
        }
        (Place::Item(_, i), Labelled::Array(_, parts)) => parts.get(*i as usize),
        (Place::Key(_, key), Labelled::Record(label, parts)) => {
            value_in(key.text(), label.kind, parts)
        }
        _ => None,
    }
}

fn property_in<'a>(name: &str, kind: Kind, parts: &'a Entries) -> Option<&'a Labelled>
    ensures { option_map labelled (option_copied result) ≡ specs.property_in name.now kind (fields parts.now) }
{
    match kind {
        Kind::Model(_) => entry_at(parts.as_slice(), name),
        _ => None,
    }
}

fn value_in<'a>(key: &str, kind: Kind, parts: &'a Entries) -> Option<&'a Labelled>
    ensures { option_map labelled (option_copied result) ≡ specs.value_in key.now kind (fields parts.now) }
{
    match kind {
        Kind::Map(_) => entry_at(parts.as_slice(), key),
        _ => None,
    }
}

/// The value of the first entry with a key.
pub fn entry_at<'a>(parts: &'a [LabelledField], key: &str) -> Option<&'a Labelled>
    ensures { option_map labelled (option_copied result) ≡ entry_at key.now (fields parts.now) }
{
    for part in parts {
        if part.key.text() == key {
            return Some(&part.value);
        }
    }
    None
}

/// The value at a place of the tree, without labels.
pub fn raw(alloc: Global, root: &Labelled, place: &Place) -> Result<Snap, AllocError>
    requires { IsSome (specs.part_at_place place.now (labelled root.now)) }
    ensures { IfOk result (λ value. Some (view value) ≡ option_map bare (specs.part_at_place place.now (labelled root.now))) }
{
    let part = part_at_place(root, place).unwrap();
    part.snapshot(alloc)
}
