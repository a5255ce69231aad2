//! Which old values stay as new ones.
ghost use Rattle.std.specs.Prelude.{◌≡◌, Some};
ghost use Rattle.std.specs.Option.{option_copied, option_map};
ghost use Rattle.snap_core.specs.Value.{IsPlain, value_at};
ghost use Rattle.snap_core.specs.View.{view, fields_view};
ghost use Rattle.edit_core.specs.declared.kind.Kind.TheVariants.{Model};
ghost use Rattle.edit_core.specs.Comparing.{is_equal};
ghost use Rattle.edit_core.specs.Labelled.{bare};
ghost use Rattle.edit_core.specs.Typing as specs;
ghost use Rattle.edit_core.specs.Matching as matching;
ghost use Rattle.edit_core.specs.Template.{entry_at};
ghost use Rattle.node_core.specs.View.{labelled, fields, plain};
ghost use Rattle.reconcile_core.specs.RealTypes.{typing_of};

use crate::typing::kind_of;
use edit_core::Kind;
use node_core::{Labelled, LabelledField, same_kind};
use snap_core::{Field, ModelNo, Snap, TypeNo, find};
use type_core::Types;

/// Whether an old item and a new one of a type are the same: equal, or made by one model with equal identifiers.
pub fn same_item(types: &Types, t: TypeNo, old: &Labelled, new: &Snap) -> bool
    requires plain { IsPlain (view new.now) }
    ensures { result ≡ matching.same_item (typing_of types.now.table) t.0 (specs.seen (labelled old.now)) (view new.now) }
{
    old.equals(new) || identified(types, kind_of(types, t, new), old, new)
}

/// Whether one model with an identifier made both, and their identifiers are equal.
fn identified(types: &Types, kind: Option<Kind>, old: &Labelled, new: &Snap) -> bool
    requires plain { IsPlain (view new.now) }
    ensures { result ≡ matching.identified (typing_of types.now.table) kind (specs.seen (labelled old.now)) (view new.now) }
{
    match kind {
        Some(Kind::Model(m)) => is_kind(old, Kind::Model(m)) && equal_under(types, m, old, new),
        _ => false,
    }
}

/// Whether an old node stays where a value of a kind is set.
pub fn stays_as(types: &Types, kind: Kind, old: &Labelled, new: &Snap) -> bool
    requires plain { IsPlain (view new.now) }
    ensures { result ≡ specs.stays_as (typing_of types.now.table) kind (specs.seen (labelled old.now)) (view new.now) }
{
    is_kind(old, kind) && identity_under(types, kind, old, new)
}

fn identity_under(types: &Types, kind: Kind, old: &Labelled, new: &Snap) -> bool
    requires plain { IsPlain (view new.now) }
    ensures { result ≡ specs.identity_under (typing_of types.now.table) kind (plain old.now) (view new.now) }
{
    match kind {
        Kind::Model(m) => types.identifying(m).is_none() || equal_under(types, m, old, new),
        _ => true,
    }
}

/// Whether a value is a node of a kind.
fn is_kind(old: &Labelled, kind: Kind) -> bool
    ensures { result ≡ specs.is_kind (specs.kind_in (specs.label_of (labelled old.now))) kind }
{
    match old {
        Labelled::Leaf(_) => false,
        Labelled::Array(label, _) | Labelled::Record(label, _) => same_kind(label.kind, kind),
    }
}

/// Whether two records hold equal values under the identifier of a model, which has one.
fn equal_under(types: &Types, m: ModelNo, old: &Labelled, new: &Snap) -> bool
    requires plain { IsPlain (view new.now) }
    ensures { result ≡ specs.equal_under ((typing_of types.now.table).identifier_of m) (plain old.now) (view new.now) }
{
    match types.identifying(m) {
        Some(name) => equal_fields(name.text(), old, new),
        None => false,
    }
}

fn equal_fields(name: &str, old: &Labelled, new: &Snap) -> bool
    requires plain { IsPlain (view new.now) }
    ensures { result ≡ specs.equal_under (Some name.now) (plain old.now) (view new.now) }
{
    match (old, new) {
        (Labelled::Record(_, olds), Snap::Dict(news)) => {
            equal_parts(
                entry_under(olds.as_slice(), name),
                find(news.as_slice(), name),
            )
        }
        (Labelled::Leaf(Snap::Dict(olds)), Snap::Dict(news)) => {
            equal_values(
                value_under(olds.as_slice(), name),
                find(news.as_slice(), name),
            )
        }
        _ => false,
    }
}

fn equal_parts(old: Option<&Labelled>, new: Option<&Snap>) -> bool
    ensures { result ≡ specs.both_equal (option_map bare (option_map labelled (option_copied old.entry))) (option_map view (option_copied new.entry)) }
{
    match (old, new) {
        (Some(old), Some(new)) => old.equals(new),
        _ => false,
    }
}

fn equal_values(old: Option<&Snap>, new: Option<&Snap>) -> bool
    ensures { result ≡ specs.both_equal (option_map view (option_copied old.entry)) (option_map view (option_copied new.entry)) }
{
    match (old, new) {
        (Some(old), Some(new)) => equals(old, new),
        _ => false,
    }
}

fn equals(old: &Snap, new: &Snap) -> bool
    ensures { result ≡ is_equal (view old.now) (view new.now) }
{
    old.equal(new)
}

/// The value of the first field under a key.
pub fn entry_under<'a>(parts: &'a [LabelledField], key: &str) -> Option<&'a Labelled>
    ensures { option_map labelled (option_copied result) ≡ entry_at key.now (fields parts.now) }
{
    for i in 0..parts.len() {
        if key == parts[i].key.text() {
            return Some(&parts[i].value);
        }
    }
    None
}

/// The value of the first field under a key, in whatever order they are.
fn value_under<'a>(fields: &'a [Field], key: &str) -> Option<&'a Snap>
    ensures { option_map view (option_copied result) ≡ value_at key.now (fields_view fields.now) }
{
    for i in 0..fields.len() {
        if key == fields[i].key.text() {
            return Some(&fields[i].value);
        }
    }
    None
}
