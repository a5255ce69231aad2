ghost use Rattle.std.specs.Prelude.{◌≡◌, ◌+◌, min, Some, None, MatchOption, option_map};
ghost use Rattle.snap_core.specs.Value.{weight_of, depth_of, parts_weight, members_weight, parts_depth, members_depth};
ghost use Rattle.list_core.specs.Outcome.{Gives};
ghost use Rattle.edit_core.specs.Typing.{label_of};
ghost use Rattle.node_core.specs.View.{label, labelled, plain, plain_items, plain_fields};

use edit_core::Kind;
use list_core::Parts;
use snap_core::{NodeNo, Snap, Txt};
use std::alloc::{AllocError, Global};

/// What tells a node from all others of a tree, and what it is.
#[derive(Clone, Copy, Debug)]
pub struct Label {
    pub number: NodeNo,
    pub kind: Kind,
}

/// A value whose models, arrays and maps carry labels.
#[cycle(labelled)]
#[derive(Debug, Drop)]
pub enum Labelled {
    /// A scalar, a frozen value or a reference's value.
    Leaf(Snap),
    /// An array.
    Array(Label, Parts<Labelled>),
    /// A model or a map, keys ascending by bytes.
    Record(Label, Parts<LabelledField>),
}

/// A property of a model, or an entry of a map.
#[cycle(labelled)]
#[derive(Debug, Drop)]
pub struct LabelledField {
    pub key: Txt,
    pub value: Labelled,
}

pub type Items = Parts<Labelled>;

pub type Entries = Parts<LabelledField>;

impl Labelled {
    /// An equal labelled value, with all labels.
    #[cycle(copy)]
    pub fn clone_in(&self, alloc: Global) -> Result<Labelled, AllocError>
        ensures { Gives result self.now }
    {
        match self {
            Labelled::Leaf(value) => Ok(Labelled::Leaf(value.clone_in(alloc)?)),
            Labelled::Array(label, items) => {
                Ok(Labelled::Array(*label, copy_items(alloc, items)?))
            }
            Labelled::Record(label, fields) => {
                Ok(Labelled::Record(*label, copy_fields(alloc, fields)?))
            }
        }
    }
}

impl LabelledField {
    /// An equal field, with all labels.
    #[cycle(copy)]
    pub fn clone_in(&self, alloc: Global) -> Result<LabelledField, AllocError>
        ensures { Gives result self.now }
    {
        Ok(LabelledField {
            key: self.key.clone_in()?,
            value: self.value.clone_in(alloc)?,
        })
    }
}

impl Labelled {
    /// The label of a node; none of a leaf.
    pub fn label(&self) -> Option<Label>
        ensures { option_map label result ≡ label_of (labelled self.now) }
    {
        match self {
            Labelled::Leaf(_) => None,
            Labelled::Array(label, _) | Labelled::Record(label, _) => Some(*label),
        }
    }

    /// The weight without labels, or `most` where it is more: 1 for each value, and the bytes of texts and keys.
    #[cycle(weigh)]
    pub fn weight(&self, most: u64) -> u64
        ensures { result ≡ min (weight_of (plain self.now)) most }
    {
        match self {
            Labelled::Leaf(value) => value.weight(most),
            Labelled::Array(_, items) => weigh_items(items.as_slice(), most),
            Labelled::Record(_, fields) => weigh_fields(fields.as_slice(), most),
        }
    }

    /// The depth without labels, or `most` where it is more: 1 for what has no parts, otherwise 1 more than the
    /// deepest part.
    #[cycle(deepen)]
    pub fn depth(&self, most: u64) -> u64
        ensures { result ≡ min (depth_of (plain self.now)) most }
    {
        if most == 0 {
            return 0;
        }
        match self {
            Labelled::Leaf(value) => value.depth(most),
            Labelled::Array(_, items) => 1 + deepest_item(items.as_slice(), most - 1),
            Labelled::Record(_, fields) => 1 + deepest_field(fields.as_slice(), most - 1),
        }
    }
}

#[cycle(weigh)]
fn weigh_items(items: &[Labelled], most: u64) -> u64
    ensures { result ≡ min (1 + parts_weight (plain_items items.now)) most }
{
    let mut sum = most.min(1);
    for item in items {
        sum += item.weight(most - sum);
    }
    sum
}

#[cycle(weigh)]
fn weigh_fields(fields: &[LabelledField], most: u64) -> u64
    ensures { result ≡ min (1 + members_weight (plain_fields fields.now)) most }
{
    let mut sum = most.min(1);
    for field in fields {
        sum += (field.key.len() as u64).min(most - sum);
        sum += field.value.weight(most - sum);
    }
    sum
}

/// The depth of the deepest item, or `most` where it is more; 0 where there is none.
#[cycle(deepen)]
fn deepest_item(items: &[Labelled], most: u64) -> u64
    ensures { result ≡ min (parts_depth (plain_items items.now)) most }
{
    let mut deepest = 0;
    for item in items {
        deepest = item.depth(most).max(deepest);
    }
    deepest
}

#[cycle(deepen)]
fn deepest_field(fields: &[LabelledField], most: u64) -> u64
    ensures { result ≡ min (members_depth (plain_fields fields.now)) most }
{
    let mut deepest = 0;
    for field in fields {
        deepest = field.value.depth(most).max(deepest);
    }
    deepest
}

#[cycle(copy)]
fn copy_items(alloc: Global, items: &Items) -> Result<Items, AllocError>
    ensures { Gives result items.now }
{
    let mut copy = Parts::new(alloc);
    for item in items.as_slice() {
        copy.push(item.clone_in(alloc)?)?;
    }
    Ok(copy)
}

#[cycle(copy)]
fn copy_fields(alloc: Global, fields: &Entries) -> Result<Entries, AllocError>
    ensures { Gives result fields.now }
{
    let mut copy = Parts::new(alloc);
    for field in fields.as_slice() {
        copy.push(field.clone_in(alloc)?)?;
    }
    Ok(copy)
}
