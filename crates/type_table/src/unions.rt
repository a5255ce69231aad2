//! Unions: which member a value chooses.
ghost use Rattle.std.specs.Prelude.{◌≡◌, [], ◌∷◌, Some, is_some, option_map};
ghost use Rattle.std.specs.Option.{option_copied};
ghost use Rattle.std.specs.List.{find};
ghost use Rattle.snap_core.specs.Value.{IsPlain, ArePlainMembers};
ghost use Rattle.snap_core.specs.View.{view, fields_view};
ghost use Rattle.type_table.specs.declared.shape.Shape.TheVariants.{Union};
ghost use Rattle.type_table.specs.Table.{shape_at};
ghost use Rattle.type_table.specs.Names.{shape_by};
ghost use Rattle.type_table.specs.Unions as unions;

use crate::scalars::{is_same, takes};
use crate::shape::Shape;
use crate::table::Table;
use crate::tagged::Tagged;
use crate::tags::literal_at;
use snap_core::{Field, ModelNo, Snap, TypeNo, find};

/// The member that a value chooses of the union `t`; none where no member takes it, or `t` is no
/// union.
pub fn chosen_at(types: &Tagged, t: TypeNo, given: &Snap) -> Option<TypeNo>
    requires plain { IsPlain (view given.now) }
    ensures { result ≡ unions.chosen_by types.now (shape_at types.now t.0) (view given.now) }
{
    match types.table().shape(t) {
        Some(Shape::Union(members)) => choose(types, t, members.as_slice(), given),
        _ => None,
    }
}

/// The member of the union `t` that a value chooses.
pub fn choose(types: &Tagged, t: TypeNo, members: &[TypeNo], given: &Snap) -> Option<TypeNo>
    requires union { shape_at types.now t.0 ≡ Some (Union members.now) }
    requires plain { IsPlain (view given.now) }
    ensures { result ≡ unions.chosen types.now members.now (view given.now) }
{
    match given {
        Snap::List(_) => array_among(types.table(), members),
        Snap::Dict(fields) => choose_for_record(types, t, members, fields.as_slice()),
        _ => taker_among(types.table(), members, given),
    }
}

fn taker_among(table: &Table, members: &[TypeNo], given: &Snap) -> Option<TypeNo>
    ensures { result
        ≡ find (λ t. unions.takes table.now (shape_by table.now t.0) (view given.now)) members.now }
{
    members
        .iter()
        .copied()
        .find(|t| takes(table, table.named_shape(*t), given))
}

fn array_among(table: &Table, members: &[TypeNo]) -> Option<TypeNo>
    ensures { result ≡ find (λ t. unions.is_array (shape_by table.now t.0)) members.now }
{
    members
        .iter()
        .copied()
        .find(|t| is_array(table.named_shape(*t)))
}

fn map_among(table: &Table, members: &[TypeNo]) -> Option<TypeNo>
    ensures { result ≡ find (λ t. unions.is_map (shape_by table.now t.0)) members.now }
{
    members
        .iter()
        .copied()
        .find(|t| is_map(table.named_shape(*t)))
}

pub fn is_array(shape: Option<&Shape>) -> bool
    ensures { result ≡ unions.is_array (option_copied shape.entry) }
{
    matches!(shape, Some(Shape::Array(_)))
}

pub fn is_map(shape: Option<&Shape>) -> bool
    ensures { result ≡ unions.is_map (option_copied shape.entry) }
{
    matches!(shape, Some(Shape::Map(_)))
}

fn choose_for_record(
    types: &Tagged,
    t: TypeNo,
    members: &[TypeNo],
    fields: &[Field],
) -> Option<TypeNo>
    requires union { shape_at types.now t.0 ≡ Some (Union members.now) }
    requires plain { ArePlainMembers (fields_view fields.now) }
    ensures { let map = find (λ t. unions.is_map (shape_by types.now t.0)) members.now in
        result ≡ unions.chosen_for_record types.now members.now map (fields_view fields.now) }
{
    match map_among(types.table(), members) {
        Some(map) => Some(map),
        None => choose_model(types, t, members, fields),
    }
}

fn choose_model(types: &Tagged, t: TypeNo, members: &[TypeNo], fields: &[Field]) -> Option<TypeNo>
    requires union { shape_at types.now t.0 ≡ Some (Union members.now) }
    requires plain { ArePlainMembers (fields_view fields.now) }
    ensures { result
        ≡ unions.chosen_model types.now (unions.models_of types.now members.now) (fields_view fields.now) }
{
    match types.tag(t) {
        Some(tag) => {
            let value = find(fields, tag.text())?;
            model_tagged(types.table(), members, tag.text(), value)
        }
        None => only_model(types.table(), members),
    }
}

/// The first model among the members whose literal under the tag is the value.
fn model_tagged(table: &Table, members: &[TypeNo], tag: &str, value: &Snap) -> Option<TypeNo>
    ensures { result
        ≡ unions.tagged table.now (unions.models_of table.now members.now) tag.now (view value.now) }
{
    for t in members {
        if is_tagged(table, *t, tag, value) {
            return Some(*t);
        }
    }
    None
}

fn is_tagged(table: &Table, t: TypeNo, tag: &str, value: &Snap) -> bool
    ensures { result
        ≡ is_some (unions.tagged table.now (unions.models_of table.now (t ∷ [])) tag.now (view value.now)) }
{
    match model_of(table, t) {
        Some(m) => is_literal(literal_at(table, tag, m), value),
        None => false,
    }
}

pub fn is_literal(literal: Option<&Snap>, value: &Snap) -> bool
    ensures { result ≡ unions.is_literal (view value.now) (option_map view (option_copied literal.entry)) }
{
    match literal {
        Some(literal) => is_same(value, literal),
        None => false,
    }
}

/// The model among the members, where there is just one.
fn only_model(table: &Table, members: &[TypeNo]) -> Option<TypeNo>
    ensures { result ≡ unions.only_model (unions.models_of table.now members.now) }
{
    let mut only = None;
    for t in members {
        if model_of(table, *t).is_some() {
            if only.is_some() {
                return None;
            }
            only = Some(*t);
        }
    }
    only
}

/// The model that a type is, names followed.
pub fn model_of(table: &Table, t: TypeNo) -> Option<ModelNo>
    ensures { result ≡ unions.model_of_shape (shape_by table.now t.0) }
{
    match table.named_shape(t) {
        Some(Shape::Model(m)) => Some(*m),
        _ => None,
    }
}
