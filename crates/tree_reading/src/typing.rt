//! The types of places.
ghost use Rattle.std.specs.Prelude.{◌≡◌, ℕ, MatchOption};
ghost use Rattle.node_core.specs.View as node;
ghost use Rattle.node_core.specs.View.{labelled};
ghost use Rattle.type_table.specs.Table.{shape_at};
ghost use Rattle.type_table.specs.Targets.{target_of};
ghost use Rattle.type_table.specs.Identifiers.{is_safe};
ghost use Rattle.tree_core.specs.Nodes as specs;
ghost use Rattle.tree_core.specs.Asking as asking;
ghost use Rattle.tree_core.specs.TypesTyping.{typing_of, root_type};

use node_core::{Labelled, Turn};
use reconcile_core::type_under;
use snap_core::{ModelNo, TypeNo};
use type_core::{Shape, Types};

/// The type of the place at the end of a way from the root.
pub fn type_at(types: &Types, root: &Labelled, turns: &[Turn]) -> TypeNo
    ensures { result.0 ≡ specs.type_at (typing_of types.now.table) (root_type types.now) (node.way turns.now) (labelled root.now) }
{
    let mut at = root;
    let mut t = types.model_type(types.root());
    for to in turns {
        match at.part(to) {
            Some(part) => {
                t = part_type(types, at, key_of(to));
                at = part;
            }
            None => return t,
        }
    }
    t
}

/// The key of a turn, where an item has none.
fn key_of(to: &Turn) -> &str
    ensures { result.now ≡ specs.key_of (node.turn to.now) }
{
    match to {
        Turn::Item(_) => "",
        Turn::Entry(_, key) => key.text(),
    }
}

/// The type of a node's part under a key, where an item has none.
pub fn part_type(types: &Types, from: &Labelled, key: &str) -> TypeNo
    ensures { result.0 ≡ specs.part_type (typing_of types.now.table) (labelled from.now) key.now }
{
    match from.label() {
        Some(label) => type_under(types, label.kind, key),
        None => TypeNo(0),
    }
}

/// The model that references of a type lead to, seen through names, optionals and maybes; none where it is no
/// reference's type.
pub fn referred_by(types: &Types, t: TypeNo) -> Option<ModelNo>
    ensures { result ≡ asking.referred_by types.now.table t.0 }
{
    let inner = inner_type(types, t);
    target_at(types, inner)
}

/// The model that a reference leads to; none where the type is no reference.
pub fn target_at(types: &Types, t: TypeNo) -> Option<ModelNo>
    ensures { result ≡ target_of types.now.table (shape_at types.now.table t.0) }
{
    if t.0 < types.count() {
        types.target(t)
    } else {
        None
    }
}

/// Whether a type is one of safe references.
pub fn is_safe(types: &Types, t: TypeNo) -> bool
    ensures { result ≡ is_safe (shape_at types.now.table t.0) }
{
    t.0 < types.count() && matches!(types.shape(t), Shape::Safe(_))
}

/// The type that a type is, seen through names, optionals and maybes.
pub fn inner_type(types: &Types, t: TypeNo) -> TypeNo
    ensures { result.0 ≡ asking.inner_type types.now.table t.0 }
{
    let mut at = t;
    for _ in 0..types.count() {
        match inner_at(types, at) {
            Some(inner) => at = inner,
            None => return at,
        }
    }
    at
}

/// The type that a name, an optional or a maybe leads on to; none where the type is none of them.
fn inner_at(types: &Types, t: TypeNo) -> Option<TypeNo>
    ensures { (further : ℕ → ℕ) → MatchOption result
        (asking.inner_step further t.0 (shape_at types.now.table t.0) ≡ t.0)
        (λ u. asking.inner_step further t.0 (shape_at types.now.table t.0) ≡ further u.0) }
{
    if t.0 >= types.count() {
        return None;
    }
    match types.shape(t) {
        Shape::Named(u) | Shape::Optional(u, _) | Shape::Maybe(u) | Shape::MaybeNull(u) => Some(*u),
        _ => None,
    }
}
