//! The edits of a map's entries and of a model's properties.
ghost use Rattle.std.specs.Prelude.{◌≡◌, ◌+◌, ◌≤◌, ◌<◌, ◌++◌, length, drop, is_some, IsTrue, IfOk, OnOk};
ghost use Rattle.edit_core.specs.LoggedBetween as between;
ghost use Rattle.node_core.specs.View.{fields, edits_of};
ghost use Rattle.node_core.specs.Olds.{old_fields_of};

use crate::between::{Edits, append_behind, edits_between, push_at};
use crate::edit::Operation;
use crate::labelled::LabelledField;
use crate::way::Turn;
use list_core::Parts;
use std::alloc::{AllocError, Global};

/// The keys of the new record: the edits of those that are held, and the others added.
#[cycle(between)]
pub(crate) fn settings(
    alloc: Global,
    olds: &[LabelledField],
    news: &[LabelledField],
) -> Result<Edits, AllocError>
    ensures { IfOk result (λ es. edits_of es ≡ between.logged_settings 0 (old_fields_of olds.now) (fields news.now)) }
{
    let mut edits = Parts::new(alloc);
    let mut from = 0;
    let mut at = 0;
    for i in 0..news.len() {
        let new = &news[i];
        let place = first_not_below(olds, from, new.key.text());
        at = further(at, place - from)?;
        let part = Turn::Entry(at, new.key.clone_in()?);
        from = place;
        if holds_at(olds, place, new.key.text()) {
            let inner = edits_between(alloc, &olds[place].value, &new.value)?;
            append_behind(&mut edits, &part, inner)?;
            from = place + 1;
        } else {
            let added = new.value.clone_in(alloc)?;
            push_at(alloc, &mut edits, part, Operation::Add(added))?;
        }
        at = further(at, 1)?;
    }
    Ok(edits)
}

/// So many entries further.
fn further(at: usize, more: usize) -> Result<usize, AllocError>
    ensures { IfOk result (λ sum. sum ≡ at + more) }
{
    at.checked_add(more).ok_or(AllocError)
}

/// Where the first entry stands, from an index on, that doesn't come before a key.
fn first_not_below(olds: &[LabelledField], from: usize, key: &str) -> usize
    requires { from ≤ length olds.now }
    ensures place { result ≡ from + between.count_below key.now (old_fields_of (drop from olds.now)) }
    ensures within { result ≤ length olds.now }
{
    for i in from..olds.len() {
        if !olds[i].key.text().cmp(key).is_lt() {
            return i;
        }
    }
    olds.len()
}

/// Whether the entry at an index stands under a key.
fn holds_at(olds: &[LabelledField], at: usize, key: &str) -> bool
    ensures held { result ≡ is_some (between.held_first key.now (old_fields_of (drop at olds.now))) }
    ensures within { IsTrue result → at < length olds.now }
{
    at < olds.len() && olds[at].key.text().cmp(key).is_eq()
}

/// The keys that only the old record has are removed.
pub(crate) fn cleared(
    alloc: Global,
    edits: &mut Edits,
    olds: &[LabelledField],
    news: &[LabelledField],
) -> Result<(), AllocError>
    ensures { OnOk result (edits_of edits.new ≡ edits_of edits.old ++ between.logged_cleared 0 (old_fields_of olds.now) (fields news.now)) }
{
    let mut from = 0;
    for i in 0..news.len() {
        let key = news[i].key.text();
        let place = first_not_below(olds, from, key);
        cuts(alloc, edits, i, &olds[from..place])?;
        from = if holds_at(olds, place, key) {
            place + 1
        } else {
            place
        };
    }
    cuts(alloc, edits, news.len(), &olds[from..])
}

/// Entries at an index are removed, from the first to the last.
fn cuts(
    alloc: Global,
    edits: &mut Edits,
    at: usize,
    olds: &[LabelledField],
) -> Result<(), AllocError>
    ensures { OnOk result (edits_of edits.new ≡ edits_of edits.old ++ between.logged_cuts at (old_fields_of olds.now)) }
{
    for i in 0..olds.len() {
        let old = &olds[i];
        let part = Turn::Entry(at, old.key.clone_in()?);
        let removed = old.value.clone_in(alloc)?;
        push_at(alloc, edits, part, Operation::Remove(removed))?;
    }
    Ok(())
}
