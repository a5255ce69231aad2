//! Patches written one by one.
ghost use Rattle.std.specs.Prelude.{◌≡◌, [], All, IfOk, IsSome};
ghost use Rattle.edit_core.specs.Typing.{label_of};
ghost use Rattle.node_core.specs.View.{labelled};
ghost use Rattle.patch_core.specs.Application.{HasValue, written};
ghost use Rattle.patch_core.specs.Printing.{HasPlainValues};
ghost use Rattle.snap_core.specs.View.{view};
ghost use Rattle.tree_core.specs.Answers.{Answers};
ghost use Rattle.tree_core.specs.Listing as specs;
ghost use Rattle.tree_core.specs.Write.{write_of};
ghost use Rattle.tree_core.specs.Written.{changed, tree};
ghost use Rattle.tree_lists.specs.Folding.{one_written, and_then, rest_written};

use crate::naming::place_in;
use list_core::Parts;
use node_core::Labelled;
use patch_core::{Patch, PatchOp};
use pointer_core::{Pointer, Rule};
use snap_core::{NodeNo, Snap};
use std::alloc::{AllocError, Global};
use tree_core::{Change, Changed, Target, Tree, TreeError, refuse, write_place};
use type_core::Types;

/// What patches make of a tree, each a write on the root's behalf, or the first rule that one of them doesn't meet; the
/// depth of the tree is judged after each.
pub fn write_patches(
    alloc: Global,
    types: &Types,
    patches: &[Patch],
    whole: &Tree,
) -> Result<Changed, TreeError>
    requires values { All HasValue patches.now }
    requires plain_values { All HasPlainValues patches.now }
    ensures { Answers changed result (specs.patches_written types.now patches.now (tree whole.now)) }
{
    match patches {
        [] => Ok(unchanged(alloc, whole)?),
        [first, rest @ ..] => {
            let made = write_patch(alloc, types, first, whole)?;
            write_rest(alloc, types, rest, made)
        }
    }
}

/// What further patches make of a tree that was changed already.
fn write_rest(
    alloc: Global,
    types: &Types,
    patches: &[Patch],
    made: Changed,
) -> Result<Changed, TreeError>
    requires values { All HasValue patches.now }
    requires plain_values { All HasPlainValues patches.now }
    ensures { Answers changed result (rest_written types.now patches.now (changed made)) }
{
    let mut made = made;
    for patch in patches {
        let so_far = Tree {
            root: &made.value,
            next: made.next,
        };
        let next = write_patch(alloc, types, patch, &so_far)?;
        made = joined(made, next)?;
    }
    Ok(made)
}

/// No change of a tree.
pub fn unchanged(alloc: Global, whole: &Tree) -> Result<Changed, AllocError>
    ensures value { IfOk result (λ c. c.value ≡ whole.now.root.now) }
    ensures edits { IfOk result (λ c. c.edits ≡ []) }
    ensures next { IfOk result (λ c. c.next ≡ whole.now.next) }
{
    Ok(Changed {
        value: whole.root.clone_in(alloc)?,
        edits: Parts::new(alloc),
        next: whole.next,
    })
}

/// A change, and then another of the tree that it left.
pub fn joined(first: Changed, second: Changed) -> Result<Changed, AllocError>
    ensures { IfOk result (λ c. changed c ≡ and_then (changed first) (changed second)) }
{
    let Changed { mut edits, .. } = first;
    let Changed {
        value,
        edits: more,
        next,
    } = second;
    edits.extend(more)?;
    Ok(Changed { value, edits, next })
}

/// What one patch makes of a tree, unless that is too deep.
fn write_patch(
    alloc: Global,
    types: &Types,
    patch: &Patch,
    whole: &Tree,
) -> Result<Changed, TreeError>
    requires value { HasValue patch.now }
    requires plain_values { HasPlainValues patch.now }
    ensures { Answers changed result (one_written types.now patch.now (tree whole.now)) }
{
    let made = write_named(alloc, types, patch, whole)?;
    if made.value.depth(65) > 64 {
        return Err(refuse(Pointer::new(alloc), Rule::Large));
    }
    Ok(made)
}

/// What one patch makes of a tree, as a write on the root's behalf.
fn write_named(
    alloc: Global,
    types: &Types,
    patch: &Patch,
    whole: &Tree,
) -> Result<Changed, TreeError>
    requires value { HasValue patch.now }
    requires plain_values { HasPlainValues patch.now }
    ensures { Answers changed result (specs.patch_written types.now patch.now (tree whole.now)) }
{
    let place = place_in(alloc, patch, whole.root)?;
    let running = acting(alloc, whole.root)?;
    let change = change_in(alloc, patch)?;
    let to = Target {
        running: running.as_slice(),
        place: &place,
        named: Some(&patch.path),
    };
    write_place(alloc, types, &to, &change, whole)
}

/// The root as what acts, where it is a node.
fn acting(alloc: Global, root: &Labelled) -> Result<Parts<NodeNo>, AllocError>
    ensures { IfOk result (λ running. running ≡ specs.acting (label_of (labelled root.now))) }
{
    let mut running = Parts::new(alloc);
    if let Some(label) = root.label() {
        running.push(label.number)?;
    }
    Ok(running)
}

/// The change that a patch makes at its place.
fn change_in(alloc: Global, patch: &Patch) -> Result<Change, AllocError>
    requires { HasValue patch.now }
    ensures { IfOk result (λ change. write_of change ≡ specs.write_in patch.now) }
{
    match patch.op {
        PatchOp::Add => Ok(Change::Insert(written(patch).clone_in(alloc)?)),
        PatchOp::Replace => Ok(Change::Set(written(patch).clone_in(alloc)?)),
        PatchOp::Remove => Ok(Change::Remove),
    }
}

/// The value that a patch writes.
pub fn written(patch: &Patch) -> &Snap
    requires { IsSome patch.now.value }
    ensures { view result.now ≡ written patch.now }
{
    patch.value.as_ref().unwrap()
}
