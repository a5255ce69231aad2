//! Identifiers of models, and which scalars references to them take.
ghost use Rattle.std.specs.Prelude.{◌≡◌, List, IfOk};
ghost use Rattle.std.specs.Option.{option_copied, option_map};
ghost use Rattle.snap_core.specs.Value.{IsPlain, ArePlainMembers};
ghost use Rattle.snap_core.specs.View.{view, fields_view};
ghost use Rattle.type_table.specs.declared.shape.ModelType.{ModelType as Kept};
ghost use Rattle.type_table.specs.Table.{Table as Types, shape_at};
ghost use Rattle.type_table.specs.IdentifierPlaces as places;
ghost use Rattle.type_table.specs.Identifiers as specs;
ghost use Rattle.type_table.specs.Targets as targets;
ghost use Rattle.type_table.specs.Unions.{model_of_shape};

use crate::shape::{ModelType, Property, Shape};
use crate::table::Table;
use list_core::Parts;
use snap_core::{Field, ModelNo, Snap, TypeNo, find};
use std::alloc::{AllocError, Global};

/// Whether a shape is an identifier type.
pub fn is_identifier(shape: Option<&Shape>) -> bool
    ensures { result ≡ specs.is_identifier (option_copied shape.entry) }
{
    matches!(shape, Some(Shape::Identifier | Shape::IdentifierNumber))
}

/// Where the identifier of each model stands among its properties.
pub fn identifier_places(
    alloc: Global,
    shapes: &[Shape],
    models: &[ModelType],
) -> Result<Parts<Option<usize>>, AllocError>
    ensures { let table : Types = record { shapes = shapes.now; models = models.now } in
        IfOk result (λ found. found ≡ places.identifier_places table) }
{
    let mut found = Parts::new(alloc);
    for model in models {
        found.push(identifier_place(shapes, model.properties.as_slice()))?;
    }
    Ok(found)
}

fn identifier_place(shapes: &[Shape], properties: &[Property]) -> Option<usize>
    ensures { (models : List Kept)
        → result ≡ places.identifier_place (record { shapes = shapes.now; models = models }) properties.now }
{
    for place in 0..properties.len() {
        if identifies(shapes, &properties[place]) {
            return Some(place);
        }
    }
    None
}

/// Whether a property's type is directly an identifier type.
fn identifies(shapes: &[Shape], property: &Property) -> bool
    ensures { (models : List Kept)
        → result ≡ specs.identifies (record { shapes = shapes.now; models = models }) property.now }
{
    is_identifier(shapes.get(property.of.0))
}

/// The identifier of the model that a type is directly.
pub fn identifier_at(table: &Table, u: TypeNo) -> Option<&Property>
    ensures { option_copied result ≡ specs.identifier_in table.now (shape_at table.now u.0) }
{
    match table.shape(u) {
        Some(Shape::Model(m)) => table.identifier(*m),
        _ => None,
    }
}

/// The model that a type is directly.
fn model_at(table: &Table, u: TypeNo) -> Option<ModelNo>
    ensures { result ≡ model_of_shape (shape_at table.now u.0) }
{
    match table.shape(u) {
        Some(Shape::Model(m)) => Some(*m),
        _ => None,
    }
}

/// The model that a reference leads to; none where the type is no reference.
pub fn target_of(table: &Table, t: TypeNo) -> Option<ModelNo>
    ensures { result ≡ targets.target_of table.now (shape_at table.now t.0) }
{
    match table.shape(t) {
        Some(Shape::Reference(u) | Shape::Safe(u)) => model_at(table, *u),
        _ => None,
    }
}

/// The identifier of a value that a shape judges: of a record at a model that has one.
pub fn own_identifier<'a>(table: &Table, shape: Option<&Shape>, given: &'a Snap) -> Option<&'a Snap>
    requires plain { IsPlain (view given.now) }
    ensures { specs.ident_of (option_map view (option_copied result))
        ≡ specs.ident_in table.now (option_copied shape.entry) (view given.now) }
{
    match (shape, given) {
        (Some(Shape::Model(m)), Snap::Dict(fields)) => {
            identifier_under(table, *m, fields.as_slice())
        }
        _ => None,
    }
}

/// The identifier of a record at a model.
pub fn identifier_under<'a>(table: &Table, m: ModelNo, fields: &'a [Field]) -> Option<&'a Snap>
    requires plain { ArePlainMembers (fields_view fields.now) }
    ensures { specs.ident_of (option_map view (option_copied result))
        ≡ specs.ident_under (specs.identifier_of table.now m.0) (fields_view fields.now) }
{
    let property = table.identifier(m)?;
    find(fields, property.name.text())
}

/// Whether a key is the text of an identifier, where there is one.
pub fn is_keyed(alloc: Global, key: &str, identifier: Option<&Snap>) -> Result<bool, AllocError>
    ensures { let own = specs.ident_of (option_map view (option_copied identifier.entry)) in
        IfOk result (λ keyed. keyed ≡ specs.is_keyed key.now own) }
{
    match identifier {
        Some(Snap::Text(text)) => Ok(key == text.text()),
        Some(Snap::Int(n)) => {
            let spelled = format!(in alloc; "{n}")?;
            Ok(key == spelled.as_str())
        }
        _ => Ok(true),
    }
}

/// Whether a scalar is of the kind of the identifiers of the model that a type is directly.
pub fn is_key(table: &Table, u: TypeNo, given: &Snap) -> bool
    ensures { result ≡ specs.is_key table.now u (view given.now) }
{
    match identifier_at(table, u) {
        Some(property) => is_of_kind(table.shape(property.of), given),
        None => false,
    }
}

fn is_of_kind(shape: Option<&Shape>, given: &Snap) -> bool
    ensures { result ≡ specs.is_of_kind (option_copied shape.entry) (view given.now) }
{
    match (shape, given) {
        (Some(Shape::Identifier), Snap::Text(_)) => true,
        (Some(Shape::IdentifierNumber), Snap::Int(_)) => true,
        _ => false,
    }
}
