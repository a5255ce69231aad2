//! Writing a node as a whole.
ghost use Rattle.std.specs.Prelude.{◌≡◌};
ghost use Rattle.snap_core.specs.Value.{IsPlain};
ghost use Rattle.snap_core.specs.View.{view};
ghost use Rattle.node_core.specs.View.{labelled};
ghost use Rattle.tree_core.specs.Answers.{Answers};
ghost use Rattle.tree_core.specs.Write.{write_of, WritesPlain};
ghost use Rattle.tree_core.specs.Written.{changed, goes_by};
ghost use Rattle.tree_core.specs.Writing as specs;

use crate::changed::Changed;
use crate::error::{TreeError, refuse};
use crate::fixed::other_identifier;
use crate::making::make_node;
use crate::paths::part_path;
use crate::place::Change;
use crate::reconciling::reconcile;
use crate::typing::model_type;
use crate::writing::Writing;
use edit_core::Kind;
use node_core::Labelled;
use pointer_core::Rule;
use snap_core::{Snap, TypeNo};
use std::alloc::Global;
use type_core::Types;

/// What a write makes of a node that it sets as a whole.
pub fn write_whole(
    alloc: Global,
    by: &Writing,
    kind: Kind,
    change: &Change,
    node: &Labelled,
) -> Result<Changed, TreeError>
    requires { WritesPlain (write_of change.now) }
    ensures { Answers changed result (specs.whole_written (goes_by by.now) kind (write_of change.now) (labelled node.now)) }
{
    match change {
        Change::Set(value) => set_whole(alloc, by, kind, value, node),
        _ => Err(refuse(by.named.clone_in()?, Rule::Path)),
    }
}

fn set_whole(
    alloc: Global,
    by: &Writing,
    kind: Kind,
    value: &Snap,
    node: &Labelled,
) -> Result<Changed, TreeError>
    requires { IsPlain (view value.now) }
    ensures { Answers changed result (specs.whole_set (goes_by by.now) kind (view value.now) (labelled node.now)) }
{
    match other_identifier(by.types, kind, node, value) {
        Some(name) => Err(refuse(part_path(alloc, by.node, name.text())?, Rule::Fixed)),
        None => make_whole(alloc, by, kind, value, node),
    }
}

fn make_whole(
    alloc: Global,
    by: &Writing,
    kind: Kind,
    value: &Snap,
    node: &Labelled,
) -> Result<Changed, TreeError>
    requires { IsPlain (view value.now) }
    ensures { Answers changed result (specs.whole_made (goes_by by.now) kind (view value.now) (labelled node.now)) }
{
    let made = make_node(alloc, by.types, kind, by.of, value, by.node)?;
    let t = own_type(by.types, kind, by.of);
    Ok(reconcile(alloc, by.types, t, node, &made, by.next)?)
}

/// A model's own type, and for an array and a map the type of its place.
fn own_type(types: &Types, kind: Kind, t: TypeNo) -> TypeNo
    ensures { result.0 ≡ specs.own_type types.now kind t.0 }
{
    match kind {
        Kind::Model(m) => model_type(types, m),
        _ => t,
    }
}
