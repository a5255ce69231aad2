ghost use Rattle.std.specs.Prelude.{◌≡◌, IfOk};
ghost use Rattle.snap_core.specs.Value.{IsPlain};
ghost use Rattle.snap_core.specs.View.{view};
ghost use Rattle.edit_core.specs.Reconciling as reconciling;
ghost use Rattle.node_core.specs.View.{labelled};
ghost use Rattle.reconcile_core.specs.Labelling.{rules_of};
ghost use Rattle.reconcile_core.specs.Setting.{written, writing_of};

use crate::labelling::label_value;
use crate::same::same_item;
use node_core::{Edits, Labelled, edits_between};
use snap_core::{Snap, TypeNo};
use std::alloc::{AllocError, Global};
use type_core::Types;

/// What stands in a place once a value is set there.
#[derive(Debug, Drop)]
pub struct Written {
    pub value: Labelled,
    /// What leads to the value from the old one.
    pub edits: Edits,
    /// The number for the next new node.
    pub next: usize,
}

/// A value set in the place of a labelled one of its type. New nodes are numbered from `next` on.
pub fn reconcile(
    alloc: Global,
    types: &Types,
    t: TypeNo,
    old: &Labelled,
    new: &Snap,
    next: usize,
) -> Result<Written, AllocError>
    requires plain { IsPlain (view new.now) }
    ensures { IfOk result (λ w. written w
        ≡ writing_of (reconciling.reconciled (rules_of types.now.table) (record { type = t.0; old = labelled old.now; new = view new.now; next = next }))) }
{
    let mut after = next;
    let value = label_value(alloc, types, t, new, Some(old), &mut after)?;
    let edits = edits_between(alloc, old, &value)?;
    Ok(Written {
        value,
        edits,
        next: after,
    })
}

/// An item of an array set alone: reconciled where it is the same as the old one, and otherwise replaced.
pub fn set_item(
    alloc: Global,
    types: &Types,
    t: TypeNo,
    old: &Labelled,
    new: &Snap,
    next: usize,
) -> Result<Written, AllocError>
    requires plain { IsPlain (view new.now) }
    ensures { IfOk result (λ w. written w
        ≡ writing_of (reconciling.item_set (rules_of types.now.table) (record { type = t.0; old = labelled old.now; new = view new.now; next = next }))) }
{
    if same_item(types, t, old, new) {
        return reconcile(alloc, types, t, old, new, next);
    }
    let mut after = next;
    let value = label_value(alloc, types, t, new, None, &mut after)?;
    let edits = edits_between(alloc, old, &value)?;
    Ok(Written {
        value,
        edits,
        next: after,
    })
}
