//! The labels of values that are set.
ghost use Rattle.std.specs.Prelude.{◌≡◌, ◌+◌, ℕ, Some, None, IfOk, OnOk, IfSome, IfNone, option_map};
ghost use Rattle.std.specs.Option.{option_copied};
ghost use Rattle.snap_core.specs.Value.{IsPlain, ArePlain, ArePlainMembers};
ghost use Rattle.snap_core.specs.View.{view, items_view, fields_view};
ghost use Rattle.type_table.specs.Table.{Table};
ghost use Rattle.edit_core.specs.Typing as typing;
ghost use Rattle.edit_core.specs.Template as specs;
ghost use Rattle.node_core.specs.View.{label, labelled, items, fields};
ghost use Rattle.reconcile_core.specs.RealTypes.{typing_of};
ghost use Rattle.reconcile_core.specs.Labelling.{template_of, changed_template, array_of, record_of, new_label, array_type, record_kind};

use crate::matching::{match_items, slot_at};
use crate::same::{entry_under, stays_as};
use crate::typing::{kind_of, type_under};
use edit_core::Kind;
use list_core::Parts;
use node_core::{Label, Labelled, LabelledField};
use snap_core::{Field, NodeNo, Snap, TypeNo};
use std::alloc::{AllocError, Global};
use type_core::Types;

/// The labelled value that a type makes of a new value in the place of an old one: what stays keeps its number, and
/// what is new draws one, in document order.
#[cycle(labelling)]
pub fn label_value(
    alloc: Global,
    types: &Types,
    t: TypeNo,
    new: &Snap,
    old: Option<&Labelled>,
    next: &mut usize,
) -> Result<Labelled, AllocError>
    requires plain { IsPlain (view new.now) }
    ensures value { IfOk result (λ value. labelled value
        ≡ specs.numbered next.old (template_of types.now.table t.0 (option_map labelled (option_copied old.entry)) (view new.now))) }
    ensures next { OnOk result (next.new
        ≡ next.old + specs.new_count (template_of types.now.table t.0 (option_map labelled (option_copied old.entry)) (view new.now))) }
{
    if let Some(kept) = unchanged(alloc, old, new)? {
        return Ok(kept);
    }
    let kind = kind_of(types, t, new);
    match new {
        Snap::List(news) => match array_type(kind) {
            Some(u) => {
                let stays = standing(types, Kind::Array(u), old, new);
                label_array(alloc, types, u, news.as_slice(), stays, next)
            }
            None => Ok(Labelled::Leaf(new.clone_in(alloc)?)),
        },
        Snap::Dict(news) => match record_kind(kind) {
            Some(kind) => {
                let stays = standing(types, kind, old, new);
                label_record(alloc, types, kind, news.as_slice(), stays, next)
            }
            None => Ok(Labelled::Leaf(new.clone_in(alloc)?)),
        },
        _ => Ok(Labelled::Leaf(new.clone_in(alloc)?)),
    }
}

/// The type of an array's items.
fn array_type(kind: Option<Kind>) -> Option<TypeNo>
    ensures { result ≡ array_type kind }
{
    match kind {
        Some(Kind::Array(u)) => Some(u),
        _ => None,
    }
}

/// The kind of a model or a map.
fn record_kind(kind: Option<Kind>) -> Option<Kind>
    ensures { result ≡ record_kind kind }
{
    match kind {
        Some(Kind::Array(_)) => None,
        _ => kind,
    }
}

/// The old value, where the new one is equal.
fn unchanged(
    alloc: Global,
    old: Option<&Labelled>,
    new: &Snap,
) -> Result<Option<Labelled>, AllocError>
    ensures kept { IfOk result (λ kept. IfSome kept (λ value. (table : Table) (t next : ℕ)
        → (labelled value ≡ specs.numbered next (template_of table t (option_map labelled (option_copied old.entry)) (view new.now)))
        × (specs.new_count (template_of table t (option_map labelled (option_copied old.entry)) (view new.now)) ≡ 0))) }
    ensures changed { IfOk result (λ kept. IfNone kept ((table : Table) (t : ℕ)
        → template_of table t (option_map labelled (option_copied old.entry)) (view new.now)
        ≡ changed_template table t (option_map labelled (option_copied old.entry)) (view new.now))) }
{
    match old {
        Some(old) => {
            if old.equals(new) {
                Ok(Some(old.clone_in(alloc)?))
            } else {
                Ok(None)
            }
        }
        None => Ok(None),
    }
}

/// The old node, where it stays as a value of a kind is set.
fn standing<'a>(
    types: &Types,
    kind: Kind,
    old: Option<&'a Labelled>,
    new: &Snap,
) -> Option<&'a Labelled>
    requires plain { IsPlain (view new.now) }
    ensures { option_map labelled (option_copied result)
        ≡ specs.standing (typing_of types.now.table) kind (option_map labelled (option_copied old.entry)) (view new.now) }
{
    match old {
        Some(old) => {
            if stays_as(types, kind, old, new) {
                Some(old)
            } else {
                None
            }
        }
        None => None,
    }
}

/// An array of a type: each item with the old one that it is matched with.
#[cycle(labelling)]
fn label_array(
    alloc: Global,
    types: &Types,
    u: TypeNo,
    news: &[Snap],
    stays: Option<&Labelled>,
    next: &mut usize,
) -> Result<Labelled, AllocError>
    requires plain { ArePlain (items_view news.now) }
    ensures value { IfOk result (λ value. labelled value
        ≡ specs.numbered next.old (array_of types.now.table u (option_map labelled (option_copied stays.entry)) (items_view news.now))) }
    ensures next { OnOk result (next.new
        ≡ next.old + specs.new_count (array_of types.now.table u (option_map labelled (option_copied stays.entry)) (items_view news.now))) }
{
    let label = draw_label(Kind::Array(u), stays, next)?;
    let olds = items_under(stays);
    let slots = match_items(alloc, types, u, olds, news)?;
    let mut parts = Parts::new(alloc);
    for i in 0..news.len() {
        let old = slot_at(olds, &slots, i);
        parts.push(label_value(alloc, types, u, &news[i], old, next)?)?;
    }
    Ok(Labelled::Array(label, parts))
}

/// A model or a map: each field with the old one under its key.
#[cycle(labelling)]
fn label_record(
    alloc: Global,
    types: &Types,
    kind: Kind,
    news: &[Field],
    stays: Option<&Labelled>,
    next: &mut usize,
) -> Result<Labelled, AllocError>
    requires plain { ArePlainMembers (fields_view news.now) }
    ensures value { IfOk result (λ value. labelled value
        ≡ specs.numbered next.old (record_of types.now.table kind (option_map labelled (option_copied stays.entry)) (fields_view news.now))) }
    ensures next { OnOk result (next.new
        ≡ next.old + specs.new_count (record_of types.now.table kind (option_map labelled (option_copied stays.entry)) (fields_view news.now))) }
{
    let label = draw_label(kind, stays, next)?;
    let olds = fields_under(stays);
    let mut parts = Parts::new(alloc);
    for i in 0..news.len() {
        let new = &news[i];
        let key = new.key.clone_in()?;
        let t = type_under(types, kind, key.text());
        let old = entry_under(olds, key.text());
        let value = label_value(alloc, types, t, &new.value, old, next)?;
        parts.push(LabelledField { key, value })?;
    }
    Ok(Labelled::Record(label, parts))
}

/// The label of the node that stays, or a new one.
fn draw_label(kind: Kind, stays: Option<&Labelled>, next: &mut usize) -> Result<Label, AllocError>
    ensures label { IfOk result (λ l. label l ≡ specs.drawn next.old (specs.label_for kind (option_map labelled (option_copied stays.entry)))) }
    ensures next { OnOk result (next.new ≡ next.old + specs.draws (specs.label_for kind (option_map labelled (option_copied stays.entry)))) }
{
    match label_of(stays) {
        Some(label) => Ok(Label {
            number: label.number,
            kind,
        }),
        None => {
            let number = NodeNo(*next);
            *next = next.checked_add(1).ok_or(AllocError)?;
            Ok(Label { number, kind })
        }
    }
}

fn label_of(stays: Option<&Labelled>) -> Option<Label>
    ensures { (kind : _) → specs.label_for kind (option_map labelled (option_copied stays.entry)) ≡ new_label kind result }
{
    match stays {
        Some(old) => old.label(),
        None => None,
    }
}

/// The items of an array that stays.
fn items_under<'a>(stays: Option<&'a Labelled>) -> &'a [Labelled]
    ensures { items result.now ≡ specs.items_under (option_map labelled (option_copied stays.entry)) }
{
    match stays {
        Some(old) => items_of(old),
        None => &[],
    }
}

fn items_of(old: &Labelled) -> &[Labelled]
    ensures { items result.now ≡ specs.items_under (Some (labelled old.now)) }
{
    match old {
        Labelled::Array(_, parts) => parts.as_slice(),
        _ => &[],
    }
}

/// The fields of a model or a map that stays.
fn fields_under<'a>(stays: Option<&'a Labelled>) -> &'a [LabelledField]
    ensures { fields result.now ≡ specs.entries_under (option_map labelled (option_copied stays.entry)) }
{
    match stays {
        Some(old) => fields_of(old),
        None => &[],
    }
}

fn fields_of(old: &Labelled) -> &[LabelledField]
    ensures { fields result.now ≡ specs.entries_under (Some (labelled old.now)) }
{
    match old {
        Labelled::Record(_, parts) => parts.as_slice(),
        _ => &[],
    }
}

/// A new value with labels, numbered from `next` on, and the number after them.
pub fn label_new(
    alloc: Global,
    types: &Types,
    t: TypeNo,
    new: &Snap,
    next: usize,
) -> Result<(Labelled, usize), AllocError>
    requires plain { IsPlain (view new.now) }
    ensures value { IfOk result (λ made. labelled made.0 ≡ specs.numbered next (template_of types.now.table t.0 None (view new.now))) }
    ensures next { IfOk result (λ made. made.1 ≡ next + specs.new_count (template_of types.now.table t.0 None (view new.now))) }
{
    let mut after = next;
    let value = label_value(alloc, types, t, new, None, &mut after)?;
    Ok((value, after))
}
