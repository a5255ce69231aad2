//! The edits of an array's items.
ghost use Rattle.std.specs.Prelude.{◌≡◌, ◌++◌, map, IfOk, OnOk, option_map};
ghost use Rattle.std.specs.Option.{option_copied};
ghost use Rattle.std.specs.List.{find};
ghost use Rattle.edit_core.specs.Between.{stays};
ghost use Rattle.edit_core.specs.LoggedBetween as between;
ghost use Rattle.node_core.specs.View.{labelled, items, edits_of};
ghost use Rattle.node_core.specs.Olds.{olds_of, remaining};

use crate::between::{Edits, append_behind, edits_between, push_at, stays};
use crate::edit::Operation;
use crate::labelled::Labelled;
use crate::way::Turn;
use list_core::Parts;
use std::alloc::{AllocError, Global};

/// Whether there are as many items, and each stays at its index.
pub(crate) fn each_stays(olds: &[Labelled], news: &[Labelled]) -> bool
    ensures { result ≡ between.each_stays (olds_of olds.now) (items news.now) }
{
    if olds.len() != news.len() {
        return false;
    }
    for i in 0..olds.len() {
        if !stays(&olds[i], &news[i]) {
            return false;
        }
    }
    true
}

/// Each item becomes the new one at its index.
#[cycle(between)]
pub(crate) fn one_by_one(
    alloc: Global,
    olds: &[Labelled],
    news: &[Labelled],
) -> Result<Edits, AllocError>
    ensures { IfOk result (λ es. edits_of es ≡ between.logged_one_by_one 0 (olds_of olds.now) (items news.now)) }
{
    let mut edits = Parts::new(alloc);
    for i in 0..olds.len().min(news.len()) {
        let inner = edits_between(alloc, &olds[i], &news[i])?;
        append_behind(&mut edits, &Turn::Item(i), inner)?;
    }
    Ok(edits)
}

/// The items that stay become the new ones at their old indexes.
#[cycle(between)]
pub(crate) fn in_place(
    alloc: Global,
    olds: &[Labelled],
    news: &[Labelled],
) -> Result<Edits, AllocError>
    ensures { IfOk result (λ es. edits_of es ≡ between.logged_in_place 0 (olds_of olds.now) (items news.now)) }
{
    let mut edits = Parts::new(alloc);
    for i in 0..olds.len() {
        if let Some(new) = same_among(&olds[i], news) {
            let inner = edits_between(alloc, &olds[i], new)?;
            append_behind(&mut edits, &Turn::Item(i), inner)?;
        }
    }
    Ok(edits)
}

/// The first new item that an old one stays as.
fn same_among<'a>(old: &Labelled, news: &'a [Labelled]) -> Option<&'a Labelled>
    ensures { option_map labelled (option_copied result) ≡ find (stays (labelled old.now)) (items news.now) }
{
    for i in 0..news.len() {
        if stays(old, &news[i]) {
            return Some(&news[i]);
        }
    }
    None
}

/// What an old item is once it is edited in its place.
fn remaining<'a>(old: &'a Labelled, news: &'a [Labelled]) -> &'a Labelled
    ensures { labelled result.now ≡ between.remains (labelled old.now) (items news.now) }
{
    match same_among(old, news) {
        Some(new) => new,
        None => old,
    }
}

/// All items are removed, from the last to the first.
pub(crate) fn removals(
    alloc: Global,
    edits: &mut Edits,
    olds: &[Labelled],
    news: &[Labelled],
) -> Result<(), AllocError>
    ensures { OnOk result (edits_of edits.new ≡ edits_of edits.old ++ between.logged_removals 0 (remaining (items news.now) olds.now)) }
{
    for done in 0..olds.len() {
        let i = olds.len() - done - 1;
        let old = remaining(&olds[i], news).clone_in(alloc)?;
        push_at(alloc, edits, Turn::Item(i), Operation::Remove(old))?;
    }
    Ok(())
}

/// All items are added, from the first to the last.
pub(crate) fn additions(
    alloc: Global,
    edits: &mut Edits,
    news: &[Labelled],
) -> Result<(), AllocError>
    ensures { OnOk result (edits_of edits.new ≡ edits_of edits.old ++ between.logged_additions 0 (items news.now)) }
{
    for i in 0..news.len() {
        let new = news[i].clone_in(alloc)?;
        push_at(alloc, edits, Turn::Item(i), Operation::Add(new))?;
    }
    Ok(())
}
