//! What a change makes of a labelled value.
ghost use Rattle.std.specs.Prelude.{◌≡◌, [], ◌∷◌, ◌++◌, map, length, IfOk};
ghost use Rattle.list_core.specs.Outcome.{Gives};
ghost use Rattle.node_core.specs.View.{labelled, items, fields, field, way, turn, operation as operation_of, edit_of, edits_of};
ghost use Rattle.edit_core.specs.Edit.{add, remove};
ghost use Rattle.edit_core.specs.Logged.{after_at, spliced};
ghost use Rattle.edit_core.specs.Labelled as edits;
ghost use Rattle.edit_core.specs.Template.{numbered, new_count};
ghost use Rattle.tree_core.specs.Changed as specs;
ghost use Rattle.tree_core.specs.Written.{changed, Added};

use crate::reconciling::New;
use list_core::Parts;
use node_core::{Entries, Items, Labelled, LabelledField, LoggedEdit, Operation, Turn, Way};
use std::alloc::{AllocError, Global};

/// The value after a change, the edits that lead there, and the next number.
#[derive(Debug, Drop)]
pub struct Changed {
    pub value: Labelled,
    pub edits: Parts<LoggedEdit>,
    pub next: usize,
}

/// A changed part of a value, as a change of the value.
pub fn placed(
    alloc: Global,
    place: &[Turn],
    whole: &Labelled,
    part: Changed,
) -> Result<Changed, AllocError>
    ensures { IfOk result (λ c. changed c ≡ specs.placed (way place.now) (labelled whole.now) (changed part)) }
{
    let Changed { value, edits, next } = part;
    Ok(Changed {
        value: whole.with_part(alloc, place, value)?,
        edits: outward(alloc, place, edits)?,
        next,
    })
}

/// A changed part of a node, as a change of the node.
pub fn placed_at(
    alloc: Global,
    to: Turn,
    node: &Labelled,
    part: Changed,
) -> Result<Changed, AllocError>
    ensures { IfOk result (λ c. changed c ≡ specs.placed (turn to ∷ []) (labelled node.now) (changed part)) }
{
    let mut way = Parts::new(alloc);
    way.push(to)?;
    placed(alloc, way.as_slice(), node, part)
}

/// Edits as they read from a place that a way leads from.
fn outward(
    alloc: Global,
    place: &[Turn],
    edits: Parts<LoggedEdit>,
) -> Result<Parts<LoggedEdit>, AllocError>
    ensures { IfOk result (λ es. edits_of es ≡ map (specs.outward (way place.now)) (edits_of edits)) }
{
    let mut moved = Parts::new(alloc);
    for edit in edits.as_slice() {
        moved.push(moved_out(alloc, place, edit)?)?;
    }
    Ok(moved)
}

fn moved_out(alloc: Global, place: &[Turn], edit: &LoggedEdit) -> Result<LoggedEdit, AllocError>
    ensures { IfOk result (λ e. edit_of e ≡ specs.outward (way place.now) (edit_of edit.now)) }
{
    Ok(LoggedEdit {
        way: joined(alloc, place, &edit.way)?,
        operation: edit.operation.clone_in(alloc)?,
    })
}

/// A way behind another.
fn joined(alloc: Global, first: &[Turn], rest: &Way) -> Result<Way, AllocError>
    ensures { Gives result (first.now ++ rest.now) }
{
    let mut whole = Parts::new(alloc);
    for turn in first {
        whole.push(turn.clone_in()?)?;
    }
    for turn in rest.as_slice() {
        whole.push(turn.clone_in()?)?;
    }
    Ok(whole)
}

/// A new part put in at a turn.
pub fn part_added(alloc: Global, to: Turn, new: New, node: &Labelled) -> Result<Changed, AllocError>
    ensures { IfOk result (λ c. changed c ≡ specs.by_edit (record { way = turn to ∷ []; operation = add (labelled new.value) }) new.next (labelled node.now)) }
{
    let New { value: part, next } = new;
    let value = with_added(alloc, &to, part.clone_in(alloc)?, node)?;
    by_edit(alloc, to, Operation::Add(part), value, next)
}

/// A part taken out at a turn.
pub fn part_removed(
    alloc: Global,
    to: Turn,
    old: &Labelled,
    next: usize,
    node: &Labelled,
) -> Result<Changed, AllocError>
    ensures { IfOk result (λ c. changed c ≡ specs.part_removed (turn to) (labelled old.now) next (labelled node.now)) }
{
    let value = without(alloc, &to, old, node)?;
    by_edit(
        alloc,
        to,
        Operation::Remove(old.clone_in(alloc)?),
        value,
        next,
    )
}

/// A change by one edit.
fn by_edit(
    alloc: Global,
    to: Turn,
    operation: Operation,
    value: Labelled,
    next: usize,
) -> Result<Changed, AllocError>
    ensures { IfOk result (λ c. changed c ≡ record {
      value = labelled value;
      edits = record { way = turn to ∷ []; operation = operation_of operation } ∷ [];
      next = next;
    }) }
{
    let mut way = Parts::new(alloc);
    way.push(to)?;
    let mut edits = Parts::new(alloc);
    edits.push(LoggedEdit { way, operation })?;
    Ok(Changed { value, edits, next })
}

/// A node with a new part at a turn; past the end of its parts, at their end.
fn with_added(
    alloc: Global,
    to: &Turn,
    new: Labelled,
    node: &Labelled,
) -> Result<Labelled, AllocError>
    ensures { IfOk result (λ x. labelled x ≡ after_at (turn to.now) (add (labelled new)) (labelled node.now)) }
{
    let copy = node.clone_in(alloc)?;
    put_in(copy, to, new)
}

#[tactic(auto, using(crate::proofs::Splicing::put_array, crate::proofs::Splicing::put_record))]
fn put_in(node: Labelled, to: &Turn, new: Labelled) -> Result<Labelled, AllocError>
    ensures { IfOk result (λ x. labelled x ≡ after_at (turn to.now) (add (labelled new)) (labelled node)) }
{
    match (node, to) {
        (Labelled::Array(label, parts), Turn::Item(i)) => {
            Ok(Labelled::Array(label, with_item(parts, *i, new)?))
        }
        (Labelled::Record(label, parts), Turn::Entry(i, key)) => {
            let field = LabelledField {
                key: key.clone_in()?,
                value: new,
            };
            Ok(Labelled::Record(label, with_field(parts, *i, field)?))
        }
        (node, _) => Ok(node),
    }
}

#[tactic(auto, using(crate::proofs::Splicing::put_item))]
fn with_item(mut parts: Items, at: usize, new: Labelled) -> Result<Items, AllocError>
    ensures { IfOk result (λ xs. items xs ≡ spliced at 0 (labelled new ∷ []) (items parts)) }
{
    let at = at.min(parts.len());
    parts.insert(at, new)?;
    Ok(parts)
}

#[tactic(auto, using(crate::proofs::Splicing::put_entry))]
fn with_field(mut parts: Entries, at: usize, new: LabelledField) -> Result<Entries, AllocError>
    ensures { IfOk result (λ fs. fields fs ≡ spliced at 0 (field new ∷ []) (fields parts)) }
{
    let at = at.min(parts.len());
    parts.insert(at, new)?;
    Ok(parts)
}

/// A node without its part at a turn, if there is one.
fn without(
    alloc: Global,
    to: &Turn,
    old: &Labelled,
    node: &Labelled,
) -> Result<Labelled, AllocError>
    ensures { IfOk result (λ x. labelled x ≡ after_at (turn to.now) (remove (labelled old.now)) (labelled node.now)) }
{
    let copy = node.clone_in(alloc)?;
    Ok(cut_out(copy, to))
}

#[tactic(auto, using(crate::proofs::Splicing::cut_array, crate::proofs::Splicing::cut_record))]
fn cut_out(node: Labelled, to: &Turn) -> Labelled
    ensures { (old : edits.Labelled) → labelled result ≡ after_at (turn to.now) (remove old) (labelled node) }
{
    match (node, to) {
        (Labelled::Array(label, parts), Turn::Item(i)) => Labelled::Array(
            label,
            without_item(parts, *i),
        ),
        (Labelled::Record(label, parts), Turn::Entry(i, _)) => {
            Labelled::Record(label, without_field(parts, *i))
        }
        (node, _) => node,
    }
}

#[tactic(auto, using(crate::proofs::Splicing::cut_item, crate::proofs::Splicing::no_item_cut))]
fn without_item(mut parts: Items, at: usize) -> Items
    ensures { items result ≡ spliced at 1 [] (items parts) }
{
    if at >= parts.len() {
        return parts;
    }
    let _ = parts.remove(at);
    parts
}

#[tactic(auto, using(crate::proofs::Splicing::cut_entry, crate::proofs::Splicing::no_entry_cut))]
fn without_field(mut parts: Entries, at: usize) -> Entries
    ensures { fields result ≡ spliced at 1 [] (fields parts) }
{
    if at >= parts.len() {
        return parts;
    }
    let _ = parts.remove(at);
    parts
}
