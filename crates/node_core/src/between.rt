//! The edits that lead from one labelled value to another.
ghost use Rattle.std.specs.Prelude.{◌≡◌, [], ◌∷◌, ◌++◌, map, IfOk, OnOk};
ghost use Rattle.edit_core.specs.Edit.{add};
ghost use Rattle.edit_core.specs.Between.{stays};
ghost use Rattle.edit_core.specs.Comparing.{same_kind, same_label};
ghost use Rattle.edit_core.specs.Logged.{behind};
ghost use Rattle.edit_core.specs.LoggedBetween as between;
ghost use Rattle.node_core.specs.View.{label, labelled, items, fields, turn, operation, edit_of, edits_of};
ghost use Rattle.node_core.specs.Olds.{olds_of, old_fields_of};

use crate::edit::{LoggedEdit, Operation};
use crate::entry_edits::{cleared, settings};
use crate::item_edits::{additions, each_stays, in_place, one_by_one, removals};
use crate::labelled::{Label, Labelled, LabelledField};
use crate::way::Turn;
use edit_core::Kind;
use list_core::Parts;
use std::alloc::{AllocError, Global};

/// Edits in the order in which they are applied.
pub type Edits = Parts<LoggedEdit>;

/// The edits that lead from an old labelled value to a new one. A node stays where its label stands in both.
#[cycle(between)]
pub fn edits_between(alloc: Global, old: &Labelled, new: &Labelled) -> Result<Edits, AllocError>
    ensures { IfOk result (λ es. edits_of es ≡ between.logged_between (labelled old.now) (labelled new.now)) }
{
    match (old, new) {
        (Labelled::Leaf(value), Labelled::Leaf(other)) => {
            if value.equal(other) {
                Ok(Parts::new(alloc))
            } else {
                whole(alloc, old, new)
            }
        }
        (Labelled::Array(own, olds), Labelled::Array(other, news)) => {
            if same_label(own, other) {
                edits_of_items(alloc, olds.as_slice(), news.as_slice())
            } else {
                whole(alloc, old, new)
            }
        }
        (Labelled::Record(own, olds), Labelled::Record(other, news)) => {
            if same_label(own, other) {
                edits_of_fields(alloc, olds.as_slice(), news.as_slice())
            } else {
                whole(alloc, old, new)
            }
        }
        _ => whole(alloc, old, new),
    }
}

/// Another value in the place of the whole.
fn whole(alloc: Global, old: &Labelled, new: &Labelled) -> Result<Edits, AllocError>
    ensures { IfOk result (λ es. edits_of es ≡ between.of_whole (labelled old.now) (labelled new.now) ∷ []) }
{
    let mut edits = Parts::new(alloc);
    edits.push(LoggedEdit {
        way: Parts::new(alloc),
        operation: Operation::Replace(old.clone_in(alloc)?, new.clone_in(alloc)?),
    })?;
    Ok(edits)
}

/// The array rule.
#[cycle(between)]
fn edits_of_items(alloc: Global, olds: &[Labelled], news: &[Labelled]) -> Result<Edits, AllocError>
    ensures { IfOk result (λ es. edits_of es ≡ between.logged_items (olds_of olds.now) (items news.now)) }
{
    if each_stays(olds, news) {
        return one_by_one(alloc, olds, news);
    }
    let mut edits = in_place(alloc, olds, news)?;
    removals(alloc, &mut edits, olds, news)?;
    additions(alloc, &mut edits, news)?;
    Ok(edits)
}

/// The rule of maps and models.
#[cycle(between)]
fn edits_of_fields(
    alloc: Global,
    olds: &[LabelledField],
    news: &[LabelledField],
) -> Result<Edits, AllocError>
    ensures { IfOk result (λ es. edits_of es ≡ between.logged_entries (old_fields_of olds.now) (fields news.now)) }
{
    let mut edits = settings(alloc, olds, news)?;
    cleared(alloc, &mut edits, olds, news)?;
    Ok(edits)
}

/// Whether an old item stays as a new one: the same node, or an equal leaf.
pub(crate) fn stays(old: &Labelled, new: &Labelled) -> bool
    ensures { result ≡ stays (labelled old.now) (labelled new.now) }
{
    match (old, new) {
        (Labelled::Leaf(value), Labelled::Leaf(other)) => value.equal(other),
        (Labelled::Array(own, _), Labelled::Array(other, _)) => same_label(own, other),
        (Labelled::Record(own, _), Labelled::Record(other, _)) => same_label(own, other),
        _ => false,
    }
}

/// Whether two labels are the same.
pub fn same_label(own: &Label, other: &Label) -> bool
    ensures { result ≡ same_label (label own.now) (label other.now) }
{
    own.number.0 == other.number.0 && same_kind(own.kind, other.kind)
}

/// Whether two kinds are the same.
pub fn same_kind(own: Kind, other: Kind) -> bool
    ensures { result ≡ same_kind own other }
{
    match (own, other) {
        (Kind::Model(m), Kind::Model(n)) => m.0 == n.0,
        (Kind::Array(t), Kind::Array(u)) => t.0 == u.0,
        (Kind::Map(t), Kind::Map(u)) => t.0 == u.0,
        _ => false,
    }
}

/// Adds the edits of a part, as edits of its node.
pub(crate) fn append_behind(to: &mut Edits, part: &Turn, inner: Edits) -> Result<(), AllocError>
    ensures { OnOk result (edits_of to.new ≡ edits_of to.old ++ between.all_behind (turn part.now) (edits_of inner)) }
{
    for edit in inner.into_vec() {
        push_behind(to, part.clone_in()?, edit)?;
    }
    Ok(())
}

fn push_behind(to: &mut Edits, part: Turn, edit: LoggedEdit) -> Result<(), AllocError>
    ensures { OnOk result (edits_of to.new ≡ edits_of to.old ++ behind (turn part) (edit_of edit) ∷ []) }
{
    let LoggedEdit { mut way, operation } = edit;
    way.push_front(part)?;
    to.push(LoggedEdit { way, operation })
}

/// Adds an operation at a turn.
pub(crate) fn push_at(
    alloc: Global,
    to: &mut Edits,
    part: Turn,
    change: Operation,
) -> Result<(), AllocError>
    ensures { OnOk result (edits_of to.new ≡ edits_of to.old ++ between.at_turn (turn part) (operation change) ∷ []) }
{
    let mut way = Parts::new(alloc);
    way.push(part)?;
    to.push(LoggedEdit {
        way,
        operation: change,
    })
}
