ghost use Rattle.std.specs.Prelude.{◌≡◌, ◌+◌, ◌↔◌, IsTrue, min};
ghost use Rattle.snap_core.specs.Value.{weight_of, depth_of, parts_weight, members_weight, parts_depth, members_depth};
ghost use Rattle.snap_core.specs.View.{view, items_view, fields_view};
ghost use Rattle.list_core.specs.Outcome.{Gives};

use crate::text::Txt;
use list_core::Parts;
use std::alloc::{AllocError, Global};

/// A value: plain data without identity, as JSON spells it.
#[cycle(snap)]
#[derive(Debug, Drop)]
pub enum Snap {
    Null,
    Bool(bool),
    Int(i64),
    Text(Txt),
    List(Parts<Snap>),
    Dict(Parts<Field>),
}

/// One entry of a record.
#[cycle(snap)]
#[derive(Debug, Drop)]
pub struct Field {
    pub key: Txt,
    pub value: Snap,
}

pub type Items = Parts<Snap>;

pub type Fields = Parts<Field>;

impl Snap {
    /// An equal value.
    #[cycle(copy)]
    pub fn clone_in(&self, alloc: Global) -> Result<Snap, AllocError>
        ensures { Gives result self.now }
    {
        match self {
            Snap::Null => Ok(Snap::Null),
            Snap::Bool(b) => Ok(Snap::Bool(*b)),
            Snap::Int(n) => Ok(Snap::Int(*n)),
            Snap::Text(text) => Ok(Snap::Text(Txt::copy(alloc, text.text())?)),
            Snap::List(items) => Ok(Snap::List(copy_items(alloc, items)?)),
            Snap::Dict(fields) => Ok(Snap::Dict(copy_fields(alloc, fields)?)),
        }
    }

    /// Whether two values are equal: the same parts in the same order.
    #[cycle(equal)]
    pub fn equal(&self, other: &Snap) -> bool
        ensures { IsTrue result ↔ (self.now ≡ other.now) }
    {
        match (self, other) {
            (Snap::Null, Snap::Null) => true,
            (Snap::Bool(a), Snap::Bool(b)) => a == b,
            (Snap::Int(a), Snap::Int(b)) => a == b,
            (Snap::Text(a), Snap::Text(b)) => a.text() == b.text(),
            (Snap::List(a), Snap::List(b)) => equal_items(a.as_slice(), b.as_slice()),
            (Snap::Dict(a), Snap::Dict(b)) => equal_fields(a.as_slice(), b.as_slice()),
            _ => false,
        }
    }

    /// The weight, or `most` where it is more: 1 for each value, and the bytes of texts and keys.
    #[cycle(weigh)]
    pub fn weight(&self, most: u64) -> u64
        ensures { result ≡ min (weight_of (view self.now)) most }
    {
        match self {
            Snap::Null | Snap::Bool(_) | Snap::Int(_) => most.min(1),
            Snap::Text(text) => (text.len() as u64).saturating_add(1).min(most),
            Snap::List(items) => weigh_items(items.as_slice(), most),
            Snap::Dict(fields) => weigh_fields(fields.as_slice(), most),
        }
    }

    /// The depth, or `most` where it is more: 1 for what has no parts, otherwise 1 more than the
    /// deepest part.
    #[cycle(deepen)]
    pub fn depth(&self, most: u64) -> u64
        ensures { result ≡ min (depth_of (view self.now)) most }
    {
        if most == 0 {
            return 0;
        }
        match self {
            Snap::List(items) => 1 + deepest_item(items.as_slice(), most - 1),
            Snap::Dict(fields) => 1 + deepest_field(fields.as_slice(), most - 1),
            _ => 1,
        }
    }
}

#[cycle(equal)]
fn equal_items(items: &[Snap], others: &[Snap]) -> bool
    ensures { IsTrue result ↔ (items.now ≡ others.now) }
{
    if items.len() != others.len() {
        return false;
    }
    for i in 0..items.len() {
        if !items[i].equal(&others[i]) {
            return false;
        }
    }
    true
}

#[cycle(equal)]
fn equal_fields(fields: &[Field], others: &[Field]) -> bool
    ensures { IsTrue result ↔ (fields.now ≡ others.now) }
{
    if fields.len() != others.len() {
        return false;
    }
    for i in 0..fields.len() {
        let field = &fields[i];
        let other = &others[i];
        if field.key.text() != other.key.text() || !field.value.equal(&other.value) {
            return false;
        }
    }
    true
}

#[cycle(weigh)]
fn weigh_items(items: &[Snap], most: u64) -> u64
    ensures { result ≡ min (1 + parts_weight (items_view items.now)) most }
{
    let mut sum = most.min(1);
    for item in items {
        sum += item.weight(most - sum);
    }
    sum
}

#[cycle(weigh)]
fn weigh_fields(fields: &[Field], most: u64) -> u64
    ensures { result ≡ min (1 + members_weight (fields_view fields.now)) most }
{
    let mut sum = most.min(1);
    for field in fields {
        sum += (field.key.len() as u64).min(most - sum);
        sum += field.value.weight(most - sum);
    }
    sum
}

/// The depth of the deepest item, or `most` where it is more; 0 where there is none.
#[cycle(deepen)]
fn deepest_item(items: &[Snap], most: u64) -> u64
    ensures { result ≡ min (parts_depth (items_view items.now)) most }
{
    let mut deepest = 0;
    for item in items {
        deepest = item.depth(most).max(deepest);
    }
    deepest
}

#[cycle(deepen)]
fn deepest_field(fields: &[Field], most: u64) -> u64
    ensures { result ≡ min (members_depth (fields_view fields.now)) most }
{
    let mut deepest = 0;
    for field in fields {
        deepest = field.value.depth(most).max(deepest);
    }
    deepest
}

#[cycle(copy)]
fn copy_items(alloc: Global, items: &Items) -> Result<Items, AllocError>
    ensures { Gives result items.now }
{
    let mut copy = Parts::new(alloc);
    for item in items.as_slice() {
        copy.push(item.clone_in(alloc)?)?;
    }
    Ok(copy)
}

#[cycle(copy)]
fn copy_fields(alloc: Global, fields: &Fields) -> Result<Fields, AllocError>
    ensures { Gives result fields.now }
{
    let mut copy = Parts::new(alloc);
    for field in fields.as_slice() {
        copy.push(Field {
            key: Txt::copy(alloc, field.key.text())?,
            value: field.value.clone_in(alloc)?,
        })?;
    }
    Ok(copy)
}
