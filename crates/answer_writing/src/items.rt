//! The items that an answer's items are written in the place of.
ghost use Rattle.std.specs.Prelude.{◌≡◌, ℕ, List, None, drop, slice_get, if◌then◌else◌};
ghost use Rattle.std.specs.Option.{option_copied, option_map};
ghost use Rattle.node_core.specs.View.{labelled, items};
ghost use Rattle.edit_core.specs.Labelled.{Labelled as Held};
ghost use Rattle.edit_core.specs.Template as template;
ghost use Rattle.type_core.specs.Judging.{judged_by};
ghost use Rattle.snap_core.specs.Value.{list, no_parts};
ghost use Rattle.answer_ops.specs.View.{answer_of};
ghost use Rattle.answer_writing.specs.Taking as specs;

use answer_ops::Value;
use list_core::Parts;
use node_core::Labelled;
use snap_core::{Snap, TypeNo};
use std::alloc::Global;
use tree_core::items_of;
use type_core::{Shape, Types};

/// The type of the items, where a list is judged by an array.
pub fn items_at(alloc: Global, types: &Types, of: TypeNo) -> Option<TypeNo>
    ensures { option_map (λ t. t.0) result ≡ specs.items_of_shape (judged_by types.now.table (list tt no_parts) of.0) }
{
    match types.judge(of, &Snap::List(Parts::new(alloc))) {
        Some(Shape::Array(items)) => Some(*items),
        _ => None,
    }
}

/// The items that stand at a place.
pub fn items_under<'a>(held: Option<&'a Labelled>) -> &'a [Labelled]
    ensures { items result.now ≡ template.items_under (option_map labelled (option_copied held.entry)) }
{
    match held {
        Some(held) => items_of(held),
        None => &[],
    }
}

/// What stands at the index of an answer's item. No node stands at its own place in a list within a list.
pub fn item_held<'a>(x: &Value, held: &'a [Labelled], i: usize) -> Option<&'a Labelled>
    ensures { (t : ℕ) → specs.item_aim (answer_of x.now) t (drop i (items held.now))
        ≡ record { type = t; held = option_map labelled (option_copied result) } }
{
    if are_several(x) {
        None
    } else {
        at_index(held, i)
    }
}

fn at_index(held: &[Labelled], i: usize) -> Option<&Labelled>
    ensures { option_copied result ≡ slice_get held.now i }
{
    held.get(i)
}

fn are_several(x: &Value) -> bool
    ensures { (t : ℕ) (held : List Held) → specs.item_aim (answer_of x.now) t held
        ≡ (if result then record { type = t; held = None } else record { type = t; held = slice_get held 0 }) }
{
    matches!(x, Value::Several(_))
}
