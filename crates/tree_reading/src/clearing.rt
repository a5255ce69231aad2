//! The edits that clear the loose references of a tree.
ghost use Rattle.std.specs.Prelude.{◌≡◌, ◌+◌, ◌++◌, [], ◌∷◌, map, IfOk, OnOk};
ghost use Rattle.edit_core.specs.Labelled.{branches, entries};
ghost use Rattle.edit_core.specs.Logged.{behind};
ghost use Rattle.node_core.specs.View.{labelled, items, fields, turn, way, edit_of, edits_of};
ghost use Rattle.tree_core.specs.Settling as specs;
ghost use Rattle.tree_reading.specs.Clearing.{goes_by};

use crate::loose::{Clearing, is_loose};
use edit_core::Kind;
use list_core::Parts;
use node_core::{Labelled, LabelledField, LoggedEdit, Operation, Turn, Way};
use reconcile_core::type_under;
use snap_core::{Snap, TypeNo};
use std::alloc::{AllocError, Global};

/// Edits, in their order.
pub type Edits = Parts<LoggedEdit>;

/// The edits that clear the loose references of a value, in document order, the items of an array last to first.
#[cycle(clearing)]
pub fn settling_edits(alloc: Global, by: &Clearing, from: &Labelled) -> Result<Edits, AllocError>
    ensures { IfOk result (λ edits. edits_of edits ≡ specs.settling_edits (goes_by by.now) (labelled from.now)) }
{
    match from {
        Labelled::Leaf(_) => Ok(Parts::new(alloc)),
        Labelled::Array(label, parts) => array_edits(alloc, by, label.kind, parts.as_slice()),
        Labelled::Record(label, parts) => record_edits(alloc, by, label.kind, parts.as_slice()),
    }
}

/// The edits in the items, and then the removals of loose ones.
#[cycle(clearing)]
fn array_edits(
    alloc: Global,
    by: &Clearing,
    kind: Kind,
    parts: &[Labelled],
) -> Result<Edits, AllocError>
    ensures { let s = goes_by by.now in let bs = branches (items parts.now) in
        IfOk result (λ edits. edits_of edits ≡ specs.items_settling s 0 bs ++ specs.item_removals s (specs.item_type kind) 0 bs) }
{
    let mut edits = Parts::new(alloc);
    for i in 0..parts.len() {
        let inner = settling_edits(alloc, by, &parts[i])?;
        append_behind(&mut edits, &Turn::Item(i), inner)?;
    }
    append_removals(alloc, by, item_type(kind), parts, &mut edits)?;
    Ok(edits)
}

/// Adds edits of a part, as edits of its node.
fn append_behind(to: &mut Edits, first: &Turn, edits: Edits) -> Result<(), AllocError>
    ensures { OnOk result (edits_of to.new ≡ edits_of to.old ++ map (behind (turn first.now)) (edits_of edits)) }
{
    for edit in edits.into_vec() {
        to.push(moved(first, edit)?)?;
    }
    Ok(())
}

/// An edit of a part, as one of its node.
fn moved(first: &Turn, edit: LoggedEdit) -> Result<LoggedEdit, AllocError>
    ensures { IfOk result (λ e. edit_of e ≡ behind (turn first.now) (edit_of edit)) }
{
    let LoggedEdit { mut way, operation } = edit;
    way.push_front(first.clone_in()?)?;
    Ok(LoggedEdit { way, operation })
}

/// The type of an array's items.
pub fn item_type(kind: Kind) -> TypeNo
    ensures { result.0 ≡ specs.item_type kind }
{
    match kind {
        Kind::Array(of) => of,
        _ => TypeNo(0),
    }
}

/// Adds the removals of loose items, last to first.
fn append_removals(
    alloc: Global,
    by: &Clearing,
    of: TypeNo,
    parts: &[Labelled],
    edits: &mut Edits,
) -> Result<(), AllocError>
    ensures { OnOk result (edits_of edits.new ≡ edits_of edits.old ++ specs.item_removals (goes_by by.now) of.0 0 (branches (items parts.now))) }
{
    let mut i = parts.len();
    while i > 0 {
        i -= 1;
        let loose = is_loose(by, of, &parts[i])?;
        append_removal(alloc, loose, i, &parts[i], edits)?;
    }
    Ok(())
}

/// Adds the removal of an item, where it is loose.
fn append_removal(
    alloc: Global,
    loose: bool,
    i: usize,
    part: &Labelled,
    edits: &mut Edits,
) -> Result<(), AllocError>
    ensures { OnOk result (edits_of edits.new ≡ edits_of edits.old ++ specs.item_removal loose i (labelled part.now)) }
{
    if !loose {
        return Ok(());
    }
    let operation = Operation::Remove(part.clone_in(alloc)?);
    let way = one_turn(alloc, Turn::Item(i))?;
    edits.push(LoggedEdit { way, operation })
}

fn one_turn(alloc: Global, to: Turn) -> Result<Way, AllocError>
    ensures { IfOk result (λ turns. turns ≡ to ∷ []) }
{
    let mut turns = Parts::new(alloc);
    turns.push(to)?;
    Ok(turns)
}

/// The edits of the entries: a loose one is cleared.
#[cycle(clearing)]
fn record_edits(
    alloc: Global,
    by: &Clearing,
    kind: Kind,
    parts: &[LabelledField],
) -> Result<Edits, AllocError>
    ensures { IfOk result (λ edits. edits_of edits ≡ specs.entries_settling (goes_by by.now) kind 0 (entries (fields parts.now))) }
{
    let mut edits = Parts::new(alloc);
    let mut at = 0;
    for part in parts {
        let loose = is_loose(by, type_under(by.types, kind, part.key.text()), &part.value)?;
        if loose {
            edits.push(cleared(alloc, kind, at, part)?)?;
            at = behind_cleared(kind, at, at + 1);
        } else {
            let inner = settling_edits(alloc, by, &part.value)?;
            append_behind(&mut edits, &Turn::Entry(at, part.key.clone_in()?), inner)?;
            at += 1;
        }
    }
    Ok(edits)
}

/// The edit that clears a loose entry: a value of a map goes, and a property becomes null.
fn cleared(
    alloc: Global,
    kind: Kind,
    at: usize,
    part: &LabelledField,
) -> Result<LoggedEdit, AllocError>
    ensures { IfOk result (λ e. edit_of e ≡ specs.cleared kind at part.now.key (labelled part.now.value)) }
{
    let old = part.value.clone_in(alloc)?;
    let way = one_turn(alloc, Turn::Entry(at, part.key.clone_in()?))?;
    match kind {
        Kind::Map(_) => Ok(LoggedEdit {
            way,
            operation: Operation::Remove(old),
        }),
        _ => Ok(LoggedEdit {
            way,
            operation: Operation::Replace(old, Labelled::Leaf(Snap::Null)),
        }),
    }
}

/// Where the entry behind a cleared one then stands.
fn behind_cleared(kind: Kind, at: usize, next: usize) -> usize
    requires { next ≡ at + 1 }
    ensures { result ≡ specs.behind_cleared kind at }
{
    match kind {
        Kind::Map(_) => at,
        _ => next,
    }
}
