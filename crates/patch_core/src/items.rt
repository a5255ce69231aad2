//! Patches at the items of a list.
ghost use Rattle.std.specs.Prelude.{◌≡◌, ◌<◌, ◌≤◌, length, Some, IfSome, OnErr};
ghost use Rattle.snap_core.specs.View.{view, items_view};
ghost use Rattle.snap_core.specs.Level.{set_item, insert_item, remove_item};
ghost use Rattle.patch_core.specs.Place.{new_index, index_below};
ghost use Rattle.patch_core.specs.Application.{HasValue, written, with_index, items_after};
ghost use Rattle.patch_core.specs.Outcome.{Answers};

use crate::error::PatchError;
use crate::patch::{Patch, PatchOp};
use pointer_core::Pointer;
use snap_core::{Items, Snap};
use std::alloc::Global;

pub(crate) fn edit_items(
    alloc: Global,
    items: &mut Items,
    token: &str,
    patch: &Patch,
) -> Result<(), PatchError>
    requires { HasValue patch.now }
    ensures outcome { Answers result (items_after patch.now.op token.now (written patch.now) (items_view items.old)) (items_view items.new) }
    ensures unchanged { OnErr result (items.new ≡ items.old) }
{
    match patch.op {
        PatchOp::Add => add_item(alloc, items, token, patch.written()),
        PatchOp::Replace => replace_item(alloc, items, token, patch.written()),
        PatchOp::Remove => remove_item(items, token),
    }
}

fn add_item(alloc: Global, items: &mut Items, token: &str, value: &Snap) -> Result<(), PatchError>
    ensures outcome { Answers result (with_index (λ at. insert_item at (view value.now) (items_view items.old)) (new_index (length items.old) token.now)) (items_view items.new) }
    ensures unchanged { OnErr result (items.new ≡ items.old) }
{
    match new_index(token, items.len()) {
        Some(at) => Ok(items.insert(at, value.clone_in(alloc)?)?),
        None => Err(PatchError::Index),
    }
}

fn replace_item(
    alloc: Global,
    items: &mut Items,
    token: &str,
    value: &Snap,
) -> Result<(), PatchError>
    ensures outcome { Answers result (with_index (λ at. set_item at (view value.now) (items_view items.old)) (index_below (length items.old) token.now)) (items_view items.new) }
    ensures unchanged { OnErr result (items.new ≡ items.old) }
{
    match index_below(token, items.len()) {
        Some(at) => {
            items.set(at, value.clone_in(alloc)?);
            Ok(())
        }
        None => Err(PatchError::Index),
    }
}

fn remove_item(items: &mut Items, token: &str) -> Result<(), PatchError>
    ensures outcome { Answers result (with_index (λ at. remove_item at (items_view items.old)) (index_below (length items.old) token.now)) (items_view items.new) }
    ensures unchanged { OnErr result (items.new ≡ items.old) }
{
    match index_below(token, items.len()) {
        Some(at) => {
            items.remove(at);
            Ok(())
        }
        None => Err(PatchError::Index),
    }
}

/// The index that a token names, where it is below a bound.
pub(crate) fn index_below(token: &str, bound: usize) -> Option<usize>
    ensures index { result ≡ index_below bound token.now }
    ensures below { IfSome result (λ index. index < bound) }
{
    let index = Pointer::index_of(token)? as usize;
    if index < bound { Some(index) } else { None }
}

/// The index where an item that is added goes.
fn new_index(token: &str, length: usize) -> Option<usize>
    ensures index { result ≡ new_index length token.now }
    ensures within { IfSome result (λ index. index ≤ length) }
{
    if token == "-" {
        return Some(length);
    }
    let index = Pointer::index_of(token)? as usize;
    if index <= length { Some(index) } else { None }
}
