//! Which scalars a shape takes.
ghost use Rattle.std.specs.Prelude.{◌≡◌};
ghost use Rattle.std.specs.List.{list_any};
ghost use Rattle.std.specs.Option.{option_copied};
ghost use Rattle.std.specs.Str.{bytes_eq};
ghost use Rattle.snap_core.specs.View.{view};
ghost use Rattle.type_table.specs.Unions as unions;

use crate::identifiers::is_key;
use crate::shape::{Shape, Texts};
use crate::table::Table;
use snap_core::Snap;

/// Whether these are equal scalars.
pub fn is_same(a: &Snap, b: &Snap) -> bool
    ensures { result ≡ unions.is_same (view a.now) (view b.now) }
{
    match (a, b) {
        (Snap::Null, Snap::Null) => true,
        (Snap::Bool(a), Snap::Bool(b)) => a == b,
        (Snap::Int(a), Snap::Int(b)) => a == b,
        (Snap::Text(a), Snap::Text(b)) => a.text() == b.text(),
        _ => false,
    }
}

/// Whether a shape takes a scalar, conditions aside.
pub fn takes(table: &Table, shape: Option<&Shape>, given: &Snap) -> bool
    ensures { result ≡ unions.takes table.now (option_copied shape.entry) (view given.now) }
{
    match (shape, given) {
        (Some(Shape::Str), Snap::Text(_)) => true,
        (Some(Shape::Integer), Snap::Int(_)) => true,
        (Some(Shape::Boolean), Snap::Bool(_)) => true,
        (Some(Shape::Null | Shape::Maybe(_) | Shape::MaybeNull(_)), Snap::Null) => true,
        (Some(Shape::Literal(literal)), _) => is_same(literal, given),
        (Some(Shape::Enumeration(texts)), Snap::Text(text)) => has_text(texts, text.text()),
        (Some(Shape::Refinement(base, _)), _) => is_based(table.named_shape(*base), given),
        (Some(Shape::Identifier), Snap::Text(_)) => true,
        (Some(Shape::IdentifierNumber), Snap::Int(_)) => true,
        (Some(Shape::Safe(_)), Snap::Null) => true,
        (Some(Shape::Reference(u) | Shape::Safe(u)), _) => is_key(table, *u, given),
        (Some(Shape::Frozen), _) => true,
        _ => false,
    }
}

pub fn has_text(texts: &Texts, text: &str) -> bool
    ensures { result ≡ list_any (bytes_eq text.now) texts.now }
{
    texts.as_slice().iter().any(|one| text == one.text())
}

fn is_based(shape: Option<&Shape>, given: &Snap) -> bool
    ensures { result ≡ unions.is_based (option_copied shape.entry) (view given.now) }
{
    match (shape, given) {
        (Some(Shape::Str), Snap::Text(_)) => true,
        (Some(Shape::Integer), Snap::Int(_)) => true,
        _ => false,
    }
}
