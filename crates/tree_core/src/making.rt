//! Making the values that are written.
ghost use Rattle.std.specs.Prelude.{◌≡◌, Some, IfOk};
ghost use Rattle.snap_core.specs.Value.{Value, IsPlain};
ghost use Rattle.snap_core.specs.View.{view};
ghost use Rattle.type_core.specs.Making.{Outcome, making, entry_making};
ghost use Rattle.type_core.specs.Made as makes;
ghost use Rattle.edit_core.specs.Typing.{is_kind};
ghost use Rattle.tree_core.specs.Answers.{Answers};
ghost use Rattle.tree_core.specs.Outcome.{seen_from};
ghost use Rattle.tree_core.specs.Writing.{node_making};

use crate::error::{TreeError, refuse};
use crate::paths::joined;
use crate::typing::model_type;
use edit_core::Kind;
use pointer_core::{Pointer, Refusal, Rule};
use reconcile_core::kind_of;
use snap_core::{Snap, TypeNo};
use std::alloc::Global;
use type_core::{MakeError, Types, make, make_entry};

/// What a type makes of a value at a place.
pub fn make_at(
    alloc: Global,
    types: &Types,
    t: TypeNo,
    value: &Snap,
    place: &Pointer,
) -> Result<Snap, TreeError>
    requires { IsPlain (view value.now) }
    ensures made { Answers view result (seen_from place.now (making types.now t.0 (Some (view value.now)))) }
    ensures plain { IfOk result (λ s. IsPlain (view s)) }
{
    let made = make_given(alloc, types, t, value);
    at_place(place, made)
}

#[tactic(auto, using(crate::proofs::Answering::answers_made))]
fn make_given(alloc: Global, types: &Types, t: TypeNo, value: &Snap) -> Result<Snap, MakeError>
    requires { IsPlain (view value.now) }
    ensures made { makes.Answers view result (making types.now t.0 (Some (view value.now))) }
    ensures plain { IfOk result (λ s. IsPlain (view s)) }
{
    make(alloc, types, t, Some(value))
}

/// What a map with values of a type makes of a value under a key, at its place.
pub fn make_entry_at(
    alloc: Global,
    types: &Types,
    t: TypeNo,
    key: &str,
    value: &Snap,
    place: &Pointer,
) -> Result<Snap, TreeError>
    requires { IsPlain (view value.now) }
    ensures made { Answers view result (seen_from place.now (entry_making types.now t.0 key.now (view value.now))) }
    ensures plain { IfOk result (λ s. IsPlain (view s)) }
{
    let made = make_entry(alloc, types, t, key, value);
    at_place(place, made)
}

/// What making came to, as it reads from a place.
fn at_place(place: &Pointer, made: Result<Snap, MakeError>) -> Result<Snap, TreeError>
    ensures made { (outcome : Outcome Value) → makes.Answers view made outcome → Answers view result (seen_from place.now outcome) }
    ensures plain { IfOk made (λ s. IsPlain (view s)) → IfOk result (λ s. IsPlain (view s)) }
{
    match made {
        Ok(made) => Ok(made),
        Err(MakeError::Memory) => Err(TreeError::Memory),
        Err(MakeError::Refused(Refusal { path, rule })) => Err(refuse(joined(place, &path)?, rule)),
    }
}

/// What a node takes a value for: a model by its own type, and an array or a map where its place's type makes one
/// of the kind.
pub fn make_node(
    alloc: Global,
    types: &Types,
    kind: Kind,
    t: TypeNo,
    value: &Snap,
    node: &Pointer,
) -> Result<Snap, TreeError>
    requires { IsPlain (view value.now) }
    ensures made { Answers view result (seen_from node.now (node_making types.now kind t.0 (view value.now))) }
    ensures plain { IfOk result (λ s. IsPlain (view s)) }
{
    match kind {
        Kind::Model(m) => make_at(alloc, types, model_type(types, m), value, node),
        _ => {
            if !is_kind(kind_of(types, t, value), kind) {
                return Err(refuse(node.clone_in()?, Rule::Mistyped));
            }
            make_at(alloc, types, t, value, node)
        }
    }
}

/// Whether a kind is another.
fn is_kind(found: Option<Kind>, kind: Kind) -> bool
    ensures { result ≡ is_kind found kind }
{
    match (found, kind) {
        (Some(Kind::Model(m)), Kind::Model(n)) => m.0 == n.0,
        (Some(Kind::Array(t)), Kind::Array(u)) | (Some(Kind::Map(t)), Kind::Map(u)) => t.0 == u.0,
        _ => false,
    }
}
