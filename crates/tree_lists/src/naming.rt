//! The places that patches name.
ghost use Rattle.std.specs.Prelude.{◌≡◌, ◌+◌, ◌≤◌, length, IfOk, IfSome};
ghost use Rattle.node_core.specs.View.{label, labelled};
ghost use Rattle.patch_core.specs.Application.{index_for};
ghost use Rattle.patch_core.specs.Place.{new_index};
ghost use Rattle.tree_core.specs.Answers.{Answers};
ghost use Rattle.tree_core.specs.Listing as specs;
ghost use Rattle.tree_lists.specs.Naming.{place_by};

use node_core::{Label, Labelled};
use patch_core::{Patch, PatchOp};
use pointer_core::{Pointer, Rule, Token};
use std::alloc::Global;
use tree_core::{Place, TreeError, refuse};
use tree_reading::{entry_place, index_below, way_along};

/// The place that a patch names.
pub fn place_in(alloc: Global, patch: &Patch, root: &Labelled) -> Result<Place, TreeError>
    ensures { Answers (λ place. place) result (specs.place_in patch.now (labelled root.now)) }
{
    match patch.path.tokens() {
        [] => Err(refuse(patch.path.clone_in()?, Rule::Path)),
        [holder @ .., token] => place_by(alloc, patch, root, holder, token),
    }
}

/// The place that a token names in the node at the end of other tokens.
fn place_by(
    alloc: Global,
    patch: &Patch,
    root: &Labelled,
    holder: &[Token],
    token: &Token,
) -> Result<Place, TreeError>
    ensures { Answers (λ place. place) result (place_by patch.now (record { holder = holder.now; token = token.now }) (labelled root.now)) }
{
    let Some(way) = way_along(alloc, root, holder)? else {
        return Err(refuse(patch.path.clone_in()?, Rule::Path));
    };
    match root.part_at(way.as_slice()) {
        Some(from) => place_of(patch, token, from),
        None => Err(refuse(patch.path.clone_in()?, Rule::Path)),
    }
}

fn place_of(patch: &Patch, token: &Token, from: &Labelled) -> Result<Place, TreeError>
    ensures { Answers (λ place. place) result (specs.place_of patch.now token.now (labelled from.now)) }
{
    match from {
        Labelled::Leaf(_) => Err(refuse(patch.path.clone_in()?, Rule::Path)),
        Labelled::Array(own, items) => item_place(patch, *own, token.text(), items.len()),
        Labelled::Record(own, _) => Ok(entry_place(*own, token)?),
    }
}

/// The place of an item. No item stands at an index of 4294967296 or more: want of memory is said of one.
fn item_place(patch: &Patch, own: Label, token: &str, len: usize) -> Result<Place, TreeError>
    ensures { Answers (λ place. place) result (specs.item_place patch.now (label own) (index_for patch.now.op len token.now)) }
{
    match index_for(patch.op, len, token) {
        Some(at) => match u32::try_from(at) {
            Ok(at) => Ok(Place::Item(own.number, at)),
            Err(_) => Err(TreeError::Memory),
        },
        None => Err(refuse(patch.path.clone_in()?, Rule::Index)),
    }
}

/// The index that an operation takes a token for, in a list of a length.
pub fn index_for(op: PatchOp, len: usize, token: &str) -> Option<usize>
    ensures index { result ≡ index_for op len token.now }
    ensures within { IfSome result (λ at. at ≤ len) }
{
    match op {
        PatchOp::Add => new_index(token, len),
        PatchOp::Replace | PatchOp::Remove => index_below(token, len),
    }
}

/// The index where an item that is put in goes.
fn new_index(token: &str, len: usize) -> Option<usize>
    ensures index { result ≡ new_index len token.now }
    ensures within { IfSome result (λ at. at ≤ len) }
{
    if token == "-" {
        return Some(len);
    }
    let at = Pointer::index_of(token)? as usize;
    if at <= len { Some(at) } else { None }
}
