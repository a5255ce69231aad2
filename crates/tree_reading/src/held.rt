//! What places hold: nodes, references and plain values.
ghost use Rattle.std.specs.Prelude.{◌≡◌};
ghost use Rattle.node_core.specs.View.{labelled};
ghost use Rattle.tree_core.specs.TypesTyping.{typing_of};
ghost use Rattle.tree_core.specs.Nodes.{part_type};
ghost use Rattle.tree_reading.specs.Held as specs;

use crate::nodes::node_of;
use crate::places::{node_no, part_of};
use crate::typing::{inner_type, is_safe, part_type, target_at};
use node_core::Labelled;
use snap_core::{ModelNo, NodeNo, TypeNo};
use tree_core::Place;
use type_core::Types;

/// What stands at a place.
#[derive(Clone, Copy, Debug)]
pub enum Held {
    /// A node.
    Node(NodeNo),
    /// The value of a reference to a model. Where the reference is optional it may be null.
    Target(ModelNo),
    /// The value of a safe reference to a model, which may be null.
    Safe(ModelNo),
    /// Any other value.
    Plain,
}

/// What stands at a place; none where it is no place of the tree.
pub fn held_at(root: &Labelled, types: &Types, place: &Place) -> Option<Held>
    ensures { result ≡ specs.held_at types.now.table place.now (labelled root.now) }
{
    let node = node_of(root, node_no(place))?;
    let part = part_of(node, place)?;
    let t = place_type(types, node, place);
    Some(held_as(types, t, part))
}

/// The type of a place of a node.
fn place_type(types: &Types, node: &Labelled, place: &Place) -> TypeNo
    ensures { result.0 ≡ part_type (typing_of types.now.table) (labelled node.now) (specs.place_key place.now) }
{
    part_type(types, node, place_key(place))
}

/// The key that a place has in its node, where it has one.
fn place_key(place: &Place) -> &str
    ensures { result.now ≡ specs.place_key place.now }
{
    match place {
        Place::Prop(_, name) => name.text(),
        Place::Key(_, key) => key.text(),
        _ => "",
    }
}

fn held_as(types: &Types, t: TypeNo, part: &Labelled) -> Held
    ensures { result ≡ specs.held_as types.now.table t.0 (labelled part.now) }
{
    match part {
        Labelled::Array(label, _) | Labelled::Record(label, _) => Held::Node(label.number),
        Labelled::Leaf(_) => held_by(types, inner_type(types, t)),
    }
}

/// What a value is that is no node, by its inner type.
fn held_by(types: &Types, inner: TypeNo) -> Held
    ensures { result ≡ specs.held_by types.now.table inner.0 }
{
    match target_at(types, inner) {
        Some(m) => {
            if is_safe(types, inner) {
                Held::Safe(m)
            } else {
                Held::Target(m)
            }
        }
        None => Held::Plain,
    }
}
