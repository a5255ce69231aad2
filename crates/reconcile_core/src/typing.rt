//! What the types of a schema say of a value.
ghost use Rattle.std.specs.Prelude.{◌≡◌};
ghost use Rattle.snap_core.specs.Value.{IsPlain};
ghost use Rattle.snap_core.specs.View.{view};
ghost use Rattle.edit_core.specs.declared.kind.Kind.TheVariants.{Model};
ghost use Rattle.reconcile_core.specs.RealTypes as real;

use edit_core::Kind;
use snap_core::{ModelNo, Snap, TypeNo};
use type_core::{Shape, Types};

/// The kind of node that a type makes of a value; none where it makes none.
pub fn kind_of(types: &Types, t: TypeNo, value: &Snap) -> Option<Kind>
    requires plain { IsPlain (view value.now) }
    ensures { result ≡ (real.typing_of types.now.table).kind_of t.0 (view value.now) }
{
    match (types.judge(t, value), value) {
        (Some(Shape::Model(m)), Snap::Dict(_)) => Some(Kind::Model(*m)),
        (Some(Shape::Map(u)), Snap::Dict(_)) => Some(Kind::Map(*u)),
        (Some(Shape::Array(u)), Snap::List(_)) => Some(Kind::Array(*u)),
        _ => None,
    }
}

/// The type of a node's part under a key; where a model has no such property, the number behind all types.
pub fn type_under(types: &Types, kind: Kind, key: &str) -> TypeNo
    ensures { result.0 ≡ real.type_under types.now.table kind key.now }
{
    match kind {
        Kind::Model(m) => property_type(types, m, key),
        Kind::Array(u) | Kind::Map(u) => u,
    }
}

fn property_type(types: &Types, m: ModelNo, key: &str) -> TypeNo
    ensures { result.0 ≡ real.type_under types.now.table (Model m) key.now }
{
    match types.property_type(m, key) {
        Some(t) => t,
        None => TypeNo(types.count()),
    }
}
