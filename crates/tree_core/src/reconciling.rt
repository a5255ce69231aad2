//! What reconciling makes of a value, as a change.
ghost use Rattle.std.specs.Prelude.{◌≡◌, None, IfOk};
ghost use Rattle.snap_core.specs.Value.{IsPlain};
ghost use Rattle.snap_core.specs.View.{view};
ghost use Rattle.edit_core.specs.Template.{template};
ghost use Rattle.edit_core.specs.Matching.{by_first};
ghost use Rattle.node_core.specs.View.{labelled};
ghost use Rattle.reconcile_core.specs.Setting.{written};
ghost use Rattle.tree_core.specs.TypesTyping.{typing_of};
ghost use Rattle.tree_core.specs.Changed as specs;
ghost use Rattle.tree_core.specs.Writing.{setting};
ghost use Rattle.tree_core.specs.Written.{Added, changed, changed_as};

use crate::changed::Changed;
use node_core::Labelled;
use reconcile_core::Written;
use snap_core::{Snap, TypeNo};
use std::alloc::{AllocError, Global};
use type_core::Types;

/// A new labelled value, and the number for the next new node.
#[derive(Debug, Drop)]
pub struct New {
    pub value: Labelled,
    pub next: usize,
}

/// A value set in the place of an old one.
#[tactic(auto, using(crate::proofs::Reconciled::value_set_by))]
pub fn reconcile(
    alloc: Global,
    types: &Types,
    t: TypeNo,
    old: &Labelled,
    new: &Snap,
    next: usize,
) -> Result<Changed, AllocError>
    requires { IsPlain (view new.now) }
    ensures { IfOk result (λ w. changed w ≡ specs.value_set (typing_of types.now.table) (setting t.0 (labelled old.now) (view new.now) next)) }
{
    let set = reconcile_core::reconcile(alloc, types, t, old, new, next)?;
    Ok(as_change(set))
}

/// An item that is set alone.
#[tactic(auto, using(crate::proofs::Reconciled::item_set_by))]
pub fn set_item(
    alloc: Global,
    types: &Types,
    t: TypeNo,
    old: &Labelled,
    new: &Snap,
    next: usize,
) -> Result<Changed, AllocError>
    requires { IsPlain (view new.now) }
    ensures { IfOk result (λ w. changed w ≡ specs.one_item_set (typing_of types.now.table) (setting t.0 (labelled old.now) (view new.now) next)) }
{
    let set = reconcile_core::set_item(alloc, types, t, old, new, next)?;
    Ok(as_change(set))
}

fn as_change(set: Written) -> Changed
    ensures { changed result ≡ changed_as (written set) }
{
    let Written { value, edits, next } = set;
    Changed { value, edits, next }
}

/// A new value with new nodes, numbered from the next number on.
pub fn label_new(
    alloc: Global,
    types: &Types,
    t: TypeNo,
    new: &Snap,
    next: usize,
) -> Result<New, AllocError>
    requires { IsPlain (view new.now) }
    ensures { IfOk result (λ w. Added (template (by_first (typing_of types.now.table)) t.0 None (view new.now)) next w) }
{
    let (value, next) = reconcile_core::label_new(alloc, types, t, new, next)?;
    Ok(New { value, next })
}
