//! Which old item of an array each new one is matched with.
ghost use Rattle.std.specs.Prelude.{◌≡◌, ◌<◌, ◌&&◌, map, drop, length, replicate, slice_get, None, Some, IfOk, option_map};
ghost use Rattle.std.specs.Option.{option_copied};
ghost use Rattle.snap_core.specs.Value.{ArePlain, IsPlain};
ghost use Rattle.snap_core.specs.View.{view, items_view};
ghost use Rattle.edit_core.specs.Matching as matching;
ghost use Rattle.edit_core.specs.Template.{first_in};
ghost use Rattle.node_core.specs.View.{labelled, items};
ghost use Rattle.reconcile_core.specs.RealTypes.{typing_of};
ghost use Rattle.reconcile_core.specs.Slots.{slot_value, slot_values, slots_of, same_in};

use crate::same::same_item;
use list_core::Parts;
use node_core::Labelled;
use snap_core::{Snap, TypeNo};
use std::alloc::{AllocError, Global};
use type_core::Types;

/// For each new item, the index of the old one that it is matched with.
pub type Slots = Parts<Option<usize>>;

/// For each new item of an array, by their type, the old one that it is matched with, if any.
pub fn match_items(
    alloc: Global,
    types: &Types,
    t: TypeNo,
    olds: &[Labelled],
    news: &[Snap],
) -> Result<Slots, AllocError>
    requires plain { ArePlain (items_view news.now) }
    ensures { IfOk result (λ slots. slot_values (items olds.now) slots
        ≡ matching.first_matching (typing_of types.now.table) t.0 (items olds.now) (map view news.now)) }
{
    if pairwise(types, t, olds, news) {
        return each_itself(alloc, olds);
    }
    let mut slots = open_slots(alloc, news.len())?;
    for i in 0..olds.len() {
        take_first(types, t, olds, i, news, &mut slots);
    }
    Ok(slots)
}

/// Whether there are as many items, and the items at each index are the same.
fn pairwise(types: &Types, t: TypeNo, olds: &[Labelled], news: &[Snap]) -> bool
    requires plain { ArePlain (items_view news.now) }
    ensures { result ≡ matching.pairwise (same_in types.now.table t) (items olds.now) (map view news.now) }
{
    if olds.len() != news.len() {
        return false;
    }
    for i in 0..olds.len() {
        if !same_item(types, t, &olds[i], &news[i]) {
            return false;
        }
    }
    true
}

fn each_itself(alloc: Global, olds: &[Labelled]) -> Result<Slots, AllocError>
    ensures { IfOk result (λ slots. slot_values (items olds.now) slots ≡ map Some (items olds.now)) }
{
    let mut slots = Parts::new(alloc);
    for i in 0..olds.len() {
        slots.push(Some(i))?;
    }
    Ok(slots)
}

fn open_slots(alloc: Global, count: usize) -> Result<Slots, AllocError>
    ensures { IfOk result (λ slots. slots ≡ replicate count None) }
{
    let mut slots = Parts::new(alloc);
    for _slot in 0..count {
        slots.push(None)?;
    }
    Ok(slots)
}

/// The old item of a slot.
fn slot_item<'a>(olds: &'a [Labelled], slot: Option<usize>) -> Option<&'a Labelled>
    ensures { option_map labelled (option_copied result) ≡ slot_value (items olds.now) slot }
{
    match slot {
        Some(i) => olds.get(i),
        None => None,
    }
}

/// The old item in a slot, if there is such a slot.
pub fn slot_at<'a>(olds: &'a [Labelled], slots: &Slots, i: usize) -> Option<&'a Labelled>
    ensures { option_map labelled (option_copied result) ≡ first_in (drop i (slot_values (items olds.now) slots.now)) }
{
    match slots.get(i) {
        Some(slot) => slot_item(olds, *slot),
        None => None,
    }
}

/// The old item at an index takes the first new one that is the same and not yet matched.
fn take_first(
    types: &Types,
    t: TypeNo,
    olds: &[Labelled],
    i: usize,
    news: &[Snap],
    slots: &mut Slots,
)
    requires plain { ArePlain (items_view news.now) }
    requires within { i < length olds.now }
    requires count { length slots.old ≡ length news.now }
    ensures count { length slots.new ≡ length slots.old }
    ensures taken { (old : _) → slice_get (items olds.now) i ≡ Some old
        → slots_of (map view news.now) (slot_values (items olds.now) slots.new)
        ≡ matching.taken (same_in types.now.table t) old
        (slots_of (map view news.now) (slot_values (items olds.now) slots.old)) }
{
    for k in 0..news.len() {
        let slot = slot_at(olds, slots, k);
        if takes(types, t, slot, &olds[i], &news[k]) {
            slots.set(k, Some(i));
            return;
        }
    }
}

/// Whether an old item takes a new one: the slot is open, and both are the same.
fn takes(types: &Types, t: TypeNo, slot: Option<&Labelled>, old: &Labelled, new: &Snap) -> bool
    requires plain { IsPlain (view new.now) }
    ensures { result ≡ (matching.is_open (option_map labelled (option_copied slot.entry)) && same_in types.now.table t (labelled old.now) (view new.now)) }
{
    slot.is_none() && same_item(types, t, old, new)
}
