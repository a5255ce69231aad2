//! Ways to the parts of a labelled value.
ghost use Rattle.std.specs.Prelude.{◌≡◌, map, slice_get, IfOk, option_map};
ghost use Rattle.std.specs.Option.{option_copied};
ghost use Rattle.list_core.specs.Outcome.{Gives};
ghost use Rattle.edit_core.specs.Plain.{token_of};
ghost use Rattle.edit_core.specs.Ways.{part_at_turn, part_at, way_to, way_among_items, way_among_entries};
ghost use Rattle.node_core.specs.View.{labelled, items, fields, turn, way};
ghost use Rattle.edit_core.specs.Labelled.{branches, entries};

use crate::labelled::{Labelled, LabelledField};
use list_core::Parts;
use pointer_core::Pointer;
use snap_core::{NodeNo, Txt};
use std::alloc::{AllocError, Global};

/// One step from a node to a part of it.
#[derive(Debug, Drop)]
pub enum Turn {
    /// An item by its index.
    Item(usize),
    /// A property of a model or an entry of a map, by its index among all and its key.
    Entry(usize, Txt),
}

/// The turns from a node to a place in it.
pub type Way = Parts<Turn>;

impl Turn {
    /// An equal turn.
    pub fn clone_in(&self) -> Result<Turn, AllocError>
        ensures { Gives result self.now }
    {
        match self {
            Turn::Item(i) => Ok(Turn::Item(*i)),
            Turn::Entry(i, key) => Ok(Turn::Entry(*i, key.clone_in()?)),
        }
    }

    /// The token that names the turn in a pointer.
    fn token(&self, alloc: Global) -> Result<Txt, AllocError>
        ensures { Gives result (token_of (turn self.now)) }
    {
        match self {
            Turn::Item(i) => Ok(Txt::from_string(format!(in alloc; "{i}")?)),
            Turn::Entry(_, key) => key.clone_in(),
        }
    }
}

/// An equal way.
pub fn copy_way(alloc: Global, way: &Way) -> Result<Way, AllocError>
    ensures { Gives result way.now }
{
    let mut copy = Parts::new(alloc);
    for turn in way.as_slice() {
        copy.push(turn.clone_in()?)?;
    }
    Ok(copy)
}

/// The pointer of a way.
pub fn pointer_of(alloc: Global, turns: &[Turn]) -> Result<Pointer, AllocError>
    ensures { Gives result (map token_of (way turns.now)) }
{
    let mut pointer = Pointer::new(alloc);
    for turn in turns {
        pointer.push(turn.token(alloc)?)?;
    }
    Ok(pointer)
}

impl Labelled {
    /// The part at a turn, which is found by its index; none where there is no such part.
    pub fn part(&self, to: &Turn) -> Option<&Labelled>
        ensures { option_map labelled (option_copied result) ≡ part_at_turn (turn to.now) (labelled self.now) }
    {
        match (self, to) {
            (Labelled::Array(_, items), Turn::Item(i)) => items.get(*i),
            (Labelled::Record(_, fields), Turn::Entry(i, _)) => value_at(fields.as_slice(), *i),
            _ => None,
        }
    }

    /// The part at the end of a way; none where no part is there.
    pub fn part_at(&self, turns: &[Turn]) -> Option<&Labelled>
        ensures { option_map labelled (option_copied result) ≡ part_at (way turns.now) (labelled self.now) }
    {
        let mut at = self;
        for to in turns {
            at = at.part(to)?;
        }
        Some(at)
    }

    /// The way to the node with a number: to the first in document order; none where no node has it.
    #[cycle(way_to)]
    pub fn way_to(&self, alloc: Global, n: NodeNo) -> Result<Option<Way>, AllocError>
        ensures { IfOk result (λ found. option_map way found ≡ way_to n.0 (labelled self.now)) }
    {
        match self {
            Labelled::Leaf(_) => Ok(None),
            Labelled::Array(label, items) => {
                if label.number == n {
                    return Ok(Some(Parts::new(alloc)));
                }
                way_among_items(alloc, items.as_slice(), n)
            }
            Labelled::Record(label, fields) => {
                if label.number == n {
                    return Ok(Some(Parts::new(alloc)));
                }
                way_among_fields(alloc, fields.as_slice(), n)
            }
        }
    }
}

/// The value of the field at an index.
fn value_at(parts: &[LabelledField], at: usize) -> Option<&Labelled>
    ensures { option_map labelled (option_copied result) ≡ option_map (λ e. e.1) (slice_get (fields parts.now) at) }
{
    if at < parts.len() {
        Some(&parts[at].value)
    } else {
        None
    }
}

#[cycle(way_to)]
fn way_among_items(alloc: Global, parts: &[Labelled], n: NodeNo) -> Result<Option<Way>, AllocError>
    ensures { IfOk result (λ found. option_map way found ≡ way_among_items n.0 0 (branches (items parts.now))) }
{
    for i in 0..parts.len() {
        if let Some(mut found) = parts[i].way_to(alloc, n)? {
            found.push_front(Turn::Item(i))?;
            return Ok(Some(found));
        }
    }
    Ok(None)
}

#[cycle(way_to)]
fn way_among_fields(
    alloc: Global,
    parts: &[LabelledField],
    n: NodeNo,
) -> Result<Option<Way>, AllocError>
    ensures { IfOk result (λ found. option_map way found ≡ way_among_entries n.0 0 (entries (fields parts.now))) }
{
    for i in 0..parts.len() {
        let field = &parts[i];
        if let Some(mut found) = field.value.way_to(alloc, n)? {
            found.push_front(Turn::Entry(i, field.key.clone_in()?))?;
            return Ok(Some(found));
        }
    }
    Ok(None)
}
