//! Patches put back as they stand.
ghost use Rattle.std.specs.Prelude.{◌≡◌, ◌≤◌, [], length, unwrap_or, All, IfOk};
ghost use Rattle.std.specs.Option.{option_map};
ghost use Rattle.snap_core.specs.Value.{IsPlain};
ghost use Rattle.snap_core.specs.View.{view};
ghost use Rattle.edit_core.specs.Edit.{replace};
ghost use Rattle.edit_core.specs.Logged.{before_log};
ghost use Rattle.edit_core.specs.Numbers.{AreNumbered};
ghost use Rattle.node_core.specs.View.{labelled, plain, edits_of, items as items_of, way as way_of};
ghost use Rattle.patch_core.specs.Application.{HasValue, index_for, written};
ghost use Rattle.patch_core.specs.Printing.{HasPlainValues};
ghost use Rattle.tree_core.specs.Written.{changed, tree};
ghost use Rattle.tree_core.specs.Changed.{by_edit};
ghost use Rattle.tree_lists.specs.Folding.{and_then, tree_after};
ghost use Rattle.tree_lists.specs.Restored.{goes_by, spot_of};
ghost use Rattle.tree_lists.specs.Restoring as specs;

use crate::folding::{joined, unchanged, written};
use crate::naming::index_for;
use list_core::Parts;
use node_core::{Labelled, LoggedEdit, Operation, Turn};
use patch_core::{Patch, PatchOp};
use pointer_core::Token;
use snap_core::Snap;
use std::alloc::{AllocError, Global};
use tree_core::{
    Changed, New, Tree, entry_at, key_of, label_new, part_added, part_removed, part_type, placed,
    placed_at, turn_to,
};
use tree_reading::way_along;
use type_core::Types;

/// The turn to a place of a node, and what stands there.
#[derive(Drop)]
struct Spot<'a> {
    turn: Turn,
    held: Option<&'a Labelled>,
}

/// A node that parts are put back into, the types, and the next number.
#[derive(Clone, Copy)]
struct Putting<'a> {
    types: &'a Types,
    node: &'a Labelled,
    next: usize,
}

/// What patches make of a tree, each as it stands; one that names no place changes nothing.
pub fn restore(
    alloc: Global,
    types: &Types,
    patches: &[Patch],
    whole: &Tree,
) -> Result<Changed, AllocError>
    requires values { All HasValue patches.now }
    requires plain_values { All HasPlainValues patches.now }
    requires numbered { AreNumbered whole.now.next (labelled whole.now.root.now) }
    requires plain { IsPlain (plain whole.now.root.now) }
    ensures outcome { IfOk result (λ c. changed c ≡ specs.restored types.now patches.now (tree whole.now)) }
    ensures undone { IfOk result (λ c. before_log (edits_of c.edits) (labelled c.value) ≡ labelled whole.now.root.now) }
    ensures numbered { IfOk result (λ c. AreNumbered c.next (labelled c.value)) }
    ensures plain { IfOk result (λ c. IsPlain (plain c.value)) }
    ensures later { IfOk result (λ c. whole.now.next ≤ c.next) }
{
    restore_patches(alloc, types, patches, whole)
}

fn restore_patches(
    alloc: Global,
    types: &Types,
    patches: &[Patch],
    whole: &Tree,
) -> Result<Changed, AllocError>
    requires values { All HasValue patches.now }
    requires plain_values { All HasPlainValues patches.now }
    ensures { IfOk result (λ c. changed c ≡ specs.restored types.now patches.now (tree whole.now)) }
{
    match patches {
        [] => unchanged(alloc, whole),
        [first, rest @ ..] => {
            let made = restore_or_keep(alloc, types, first, whole)?;
            restore_rest(alloc, types, rest, made)
        }
    }
}

/// What further patches make of a tree that was changed already.
fn restore_rest(
    alloc: Global,
    types: &Types,
    patches: &[Patch],
    made: Changed,
) -> Result<Changed, AllocError>
    requires values { All HasValue patches.now }
    requires plain_values { All HasPlainValues patches.now }
    ensures { IfOk result (λ c. changed c ≡ and_then (changed made) (specs.restored types.now patches.now (tree_after (changed made)))) }
{
    let mut made = made;
    for patch in patches {
        let so_far = Tree {
            root: &made.value,
            next: made.next,
        };
        let next = restore_or_keep(alloc, types, patch, &so_far)?;
        made = joined(made, next)?;
    }
    Ok(made)
}

/// What a patch makes of a tree, which is no change where the patch names no place.
fn restore_or_keep(
    alloc: Global,
    types: &Types,
    patch: &Patch,
    whole: &Tree,
) -> Result<Changed, AllocError>
    requires value { HasValue patch.now }
    requires plain_values { HasPlainValues patch.now }
    ensures { IfOk result (λ c. changed c ≡ unwrap_or (specs.one_restored (record { types = types.now; tree = tree whole.now; patch = patch.now })) (specs.unchanged (tree whole.now))) }
{
    match restore_one(alloc, types, patch, whole)? {
        Some(made) => Ok(made),
        None => unchanged(alloc, whole),
    }
}

/// What a patch makes of a tree; none where it names no place.
fn restore_one(
    alloc: Global,
    types: &Types,
    patch: &Patch,
    whole: &Tree,
) -> Result<Option<Changed>, AllocError>
    requires value { HasValue patch.now }
    requires plain_values { HasPlainValues patch.now }
    ensures { IfOk result (λ found. option_map changed found ≡ specs.one_restored (record { types = types.now; tree = tree whole.now; patch = patch.now })) }
{
    match patch.path.tokens() {
        [] => Ok(None),
        [holder @ .., token] => restore_by(alloc, types, patch, whole, holder, token),
    }
}

fn restore_by(
    alloc: Global,
    types: &Types,
    patch: &Patch,
    whole: &Tree,
    holder: &[Token],
    token: &Token,
) -> Result<Option<Changed>, AllocError>
    requires value { HasValue patch.now }
    requires plain_values { HasPlainValues patch.now }
    ensures { IfOk result (λ found. option_map changed found
        ≡ specs.restored_by (record { types = types.now; tree = tree whole.now; patch = patch.now }) (record { holder = holder.now; token = token.now })) }
{
    match way_along(alloc, whole.root, holder)? {
        Some(way) => restore_along(alloc, types, patch, whole, token, way.as_slice()),
        None => Ok(None),
    }
}

/// What a patch makes of a tree by the node at the end of a way, which holds its place.
fn restore_along(
    alloc: Global,
    types: &Types,
    patch: &Patch,
    whole: &Tree,
    token: &Token,
    way: &[Turn],
) -> Result<Option<Changed>, AllocError>
    requires value { HasValue patch.now }
    requires plain_values { HasPlainValues patch.now }
    ensures { IfOk result (λ found. option_map changed found
        ≡ specs.restored_along (record { types = types.now; tree = tree whole.now; patch = patch.now }) token.now (way_of way.now)) }
{
    let Some(node) = whole.root.part_at(way) else {
        return Ok(None);
    };
    let by = Putting {
        types,
        node,
        next: whole.next,
    };
    match restore_node(alloc, &by, token, patch)? {
        Some(part) => Ok(Some(placed(alloc, way, whole.root, part)?)),
        None => Ok(None),
    }
}

fn restore_node(
    alloc: Global,
    by: &Putting,
    token: &Token,
    patch: &Patch,
) -> Result<Option<Changed>, AllocError>
    requires value { HasValue patch.now }
    requires plain_values { HasPlainValues patch.now }
    ensures { IfOk result (λ found. option_map changed found ≡ specs.node_restored (goes_by by.now) token.now patch.now) }
{
    match spot_in(alloc, patch.op, token, by.node)? {
        Some(spot) => restore_spot(alloc, by, spot, patch),
        None => Ok(None),
    }
}

/// The spot that a token names in a node.
fn spot_in<'a>(
    alloc: Global,
    op: PatchOp,
    token: &Token,
    node: &'a Labelled,
) -> Result<Option<Spot<'a>>, AllocError>
    ensures { IfOk result (λ found. option_map spot_of found ≡ specs.spot_in op token.now (labelled node.now)) }
{
    match node {
        Labelled::Leaf(_) => Ok(None),
        Labelled::Array(_, items) => Ok(item_spot(op, token.text(), items.as_slice())),
        Labelled::Record(_, fields) => Ok(Some(Spot {
            turn: turn_to(alloc, node, token.text())?,
            held: entry_at(fields.as_slice(), token.text()),
        })),
    }
}

fn item_spot<'a>(op: PatchOp, token: &str, items: &'a [Labelled]) -> Option<Spot<'a>>
    ensures { option_map spot_of result ≡ option_map (specs.item_spot op (items_of items.now)) (index_for op (length items.now) token.now) }
{
    let at = index_for(op, items.len(), token)?;
    let turn = Turn::Item(at);
    match op {
        PatchOp::Add => Some(Spot { turn, held: None }),
        _ => Some(Spot {
            turn,
            held: items.get(at),
        }),
    }
}

fn restore_spot(
    alloc: Global,
    by: &Putting,
    spot: Spot,
    patch: &Patch,
) -> Result<Option<Changed>, AllocError>
    requires value { HasValue patch.now }
    requires plain_values { HasPlainValues patch.now }
    ensures { IfOk result (λ found. option_map changed found ≡ specs.spot_restored (goes_by by.now) (written patch.now) patch.now.op (spot_of spot.entry)) }
{
    match (patch.op, spot.held) {
        (PatchOp::Add, _) | (PatchOp::Replace, Some(_)) => {
            Ok(Some(put_value(alloc, by, spot, written(patch))?))
        }
        (PatchOp::Remove, Some(old)) => Ok(Some(part_removed(
            alloc, spot.turn, old, by.next, by.node,
        )?)),
        (_, None) => Ok(None),
    }
}

/// A value put in: where a part is held, in its place.
fn put_value(alloc: Global, by: &Putting, spot: Spot, value: &Snap) -> Result<Changed, AllocError>
    requires { IsPlain (view value.now) }
    ensures { IfOk result (λ c. changed c ≡ specs.value_put (goes_by by.now) (view value.now) (spot_of spot.entry)) }
{
    let Spot { turn, held } = spot;
    let t = part_type(by.types, by.node, key_of(&turn));
    let new = label_new(alloc, by.types, t, value, by.next)?;
    match held {
        Some(old) => placed_at(alloc, turn, by.node, replaced_by(alloc, new, old)?),
        None => part_added(alloc, turn, new, by.node),
    }
}

/// Another value in the place of a part, as a change of the part.
fn replaced_by(alloc: Global, new: New, old: &Labelled) -> Result<Changed, AllocError>
    ensures { IfOk result (λ c. changed c ≡ by_edit (record { way = []; operation = replace (labelled old.now) (labelled new.value) }) new.next (labelled old.now)) }
{
    let New { value, next } = new;
    let operation = Operation::Replace(old.clone_in(alloc)?, value.clone_in(alloc)?);
    let mut edits = Parts::new(alloc);
    edits.push(LoggedEdit {
        way: Parts::new(alloc),
        operation,
    })?;
    Ok(Changed { value, edits, next })
}
