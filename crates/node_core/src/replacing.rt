//! Labelled values with another part in the place of one.
ghost use Rattle.std.specs.Prelude.{◌≡◌, ◌∷◌, ◌++◌, OnOk, IfOk};
ghost use Rattle.edit_core.specs.Ways.{with_part};
ghost use Rattle.edit_core.specs.Application.{item_changed, entry_changed};
ghost use Rattle.edit_core.specs.Labelled.{branches, entries};
ghost use Rattle.node_core.specs.View.{labelled, items, fields, turn, way};

use crate::labelled::{Entries, Items, Labelled, LabelledField};
use crate::way::Turn;
use list_core::Parts;
use std::alloc::{AllocError, Global};

impl Labelled {
    /// A copy with another part at the end of a way; an equal value where no part is there.
    #[cycle(with_part)]
    pub fn with_part(
        &self,
        alloc: Global,
        turns: &[Turn],
        new: Labelled,
    ) -> Result<Labelled, AllocError>
        ensures { IfOk result (λ value. labelled value ≡ with_part (way turns.now) (labelled new) (labelled self.now)) }
    {
        match turns {
            [] => Ok(new),
            [to, rest @ ..] => self.with_part_behind(alloc, to, rest, new),
        }
    }

    #[cycle(with_part)]
    fn with_part_behind(
        &self,
        alloc: Global,
        to: &Turn,
        rest: &[Turn],
        new: Labelled,
    ) -> Result<Labelled, AllocError>
        ensures { IfOk result (λ value. labelled value ≡ with_part (turn to.now ∷ way rest.now) (labelled new) (labelled self.now)) }
    {
        match (self, to) {
            (Labelled::Array(label, parts), Turn::Item(i)) => Ok(Labelled::Array(
                *label,
                items_with(alloc, parts.as_slice(), *i, rest, new)?,
            )),
            (Labelled::Record(label, parts), Turn::Entry(i, _)) => Ok(Labelled::Record(
                *label,
                fields_with(alloc, parts.as_slice(), *i, rest, new)?,
            )),
            _ => self.clone_in(alloc),
        }
    }
}

/// The items with a part of that at an index replaced.
#[cycle(with_part)]
fn items_with(
    alloc: Global,
    parts: &[Labelled],
    at: usize,
    rest: &[Turn],
    new: Labelled,
) -> Result<Items, AllocError>
    ensures { IfOk result (λ copy. branches (items copy) ≡ item_changed at (with_part (way rest.now) (labelled new)) (branches (items parts.now))) }
{
    let mut copy = Parts::new(alloc);
    if at >= parts.len() {
        append_items(alloc, &mut copy, parts)?;
        return Ok(copy);
    }
    append_items(alloc, &mut copy, &parts[..at])?;
    copy.push(parts[at].with_part(alloc, rest, new)?)?;
    append_items(alloc, &mut copy, &parts[at + 1..])?;
    Ok(copy)
}

/// The fields with a part of that at an index replaced.
#[cycle(with_part)]
fn fields_with(
    alloc: Global,
    parts: &[LabelledField],
    at: usize,
    rest: &[Turn],
    new: Labelled,
) -> Result<Entries, AllocError>
    ensures { IfOk result (λ copy. entries (fields copy) ≡ entry_changed at (with_part (way rest.now) (labelled new)) (entries (fields parts.now))) }
{
    let mut copy = Parts::new(alloc);
    if at >= parts.len() {
        append_fields(alloc, &mut copy, parts)?;
        return Ok(copy);
    }
    append_fields(alloc, &mut copy, &parts[..at])?;
    let part = &parts[at];
    copy.push(LabelledField {
        key: part.key.clone_in()?,
        value: part.value.with_part(alloc, rest, new)?,
    })?;
    append_fields(alloc, &mut copy, &parts[at + 1..])?;
    Ok(copy)
}

/// Adds copies of items at the end of others.
fn append_items(alloc: Global, to: &mut Items, parts: &[Labelled]) -> Result<(), AllocError>
    ensures { OnOk result (to.new ≡ to.old ++ parts.now) }
{
    for part in parts {
        to.push(part.clone_in(alloc)?)?;
    }
    Ok(())
}

/// Adds copies of fields at the end of others.
fn append_fields(alloc: Global, to: &mut Entries, parts: &[LabelledField]) -> Result<(), AllocError>
    ensures { OnOk result (to.new ≡ to.old ++ parts.now) }
{
    for part in parts {
        to.push(part.clone_in(alloc)?)?;
    }
    Ok(())
}
