//! The tag by which a union's models are told apart.
ghost use Rattle.std.specs.Prelude.{◌≡◌, [], ◌++◌, List, Option, Some, IfOk, OnOk, option_map};
ghost use Rattle.std.specs.List.{find};
ghost use Rattle.std.specs.Option.{option_copied};
ghost use Rattle.snap_core.specs.Value.{Value};
ghost use Rattle.snap_core.specs.View.{view};
ghost use Rattle.type_table.specs.Table.{names_of};
ghost use Rattle.type_table.specs.Names.{shape_by};
ghost use Rattle.type_table.specs.Unions as unions;
ghost use Rattle.type_table.specs.Literals.{AreLiterals, AddsLiteral};

use crate::scalar_set::ScalarSet;
use crate::shape::{Property, Shape};
use crate::table::Table;
use crate::unions::model_of;
use list_core::Parts;
use snap_core::{ModelNo, Snap, Txt, TypeNo};
use std::alloc::{AllocError, Global};

/// The literal that the model's property of this name is, names followed.
pub fn literal_at<'a>(table: &'a Table, name: &str, m: ModelNo) -> Option<&'a Snap>
    ensures { option_map view (option_copied result) ≡ unions.literal_at table.now name.now m }
{
    let property = property_at(table.properties(m), name)?;
    match table.named_shape(property.of) {
        Some(Shape::Literal(literal)) => Some(literal),
        _ => None,
    }
}

fn property_at<'a>(properties: &'a [Property], name: &str) -> Option<&'a Property>
    ensures { option_copied result ≡ unions.property_at name.now properties.now }
{
    properties.iter().find(|p| name == p.name.text())
}

/// A copy of the tag of a shape that is a union of two or more models.
pub fn tag_in(alloc: Global, table: &Table, shape: &Shape) -> Result<Option<Txt>, AllocError>
    ensures { IfOk result (λ tag. tag ≡ unions.tag_in table.now (Some shape.now)) }
{
    match shape {
        Shape::Union(members) => tag_of(alloc, table, members.as_slice()),
        _ => Ok(None),
    }
}

fn tag_of(alloc: Global, table: &Table, members: &[TypeNo]) -> Result<Option<Txt>, AllocError>
    ensures { IfOk result (λ tag. tag ≡ unions.tag_of table.now (unions.models_of table.now members.now)) }
{
    let models = models_of(alloc, table, members)?;
    match tag_among(alloc, table, models.as_slice())? {
        Some(tag) => Ok(Some(Txt::copy(alloc, tag)?)),
        None => Ok(None),
    }
}

/// The members that are models, each with its model.
pub fn models_of(
    alloc: Global,
    table: &Table,
    members: &[TypeNo],
) -> Result<Parts<(TypeNo, ModelNo)>, AllocError>
    ensures { IfOk result (λ models. models ≡ unions.models_of table.now members.now) }
{
    let mut models = Parts::new(alloc);
    for t in members {
        push_model(&mut models, *t, model_of(table, *t))?;
    }
    Ok(models)
}

fn push_model(
    models: &mut Parts<(TypeNo, ModelNo)>,
    t: TypeNo,
    model: Option<ModelNo>,
) -> Result<(), AllocError>
    ensures { OnOk result (models.new ≡ models.old ++ unions.model_before t model []) }
{
    match model {
        Some(m) => models.push((t, m)),
        None => Ok(()),
    }
}

/// The first name by bytes that tells two or more models apart.
pub fn tag_among<'a>(
    alloc: Global,
    table: &'a Table,
    models: &[(TypeNo, ModelNo)],
) -> Result<Option<&'a str>, AllocError>
    ensures { IfOk result (λ tag. option_map (λ name. name.now) tag ≡ unions.tag_of table.now models.now) }
{
    if models.len() < 2 {
        return Ok(None);
    }
    first_apart(alloc, table, models, table.properties(models[0].1))
}

/// The first of the properties' names that tells the models apart.
fn first_apart<'a>(
    alloc: Global,
    table: &Table,
    models: &[(TypeNo, ModelNo)],
    properties: &'a [Property],
) -> Result<Option<&'a str>, AllocError>
    ensures { IfOk result (λ tag. option_map (λ name. name.now) tag
        ≡ find (unions.tells_apart table.now models.now) (names_of properties.now)) }
{
    for property in properties {
        if tells_apart(alloc, table, models, property.name.text())? {
            return Ok(Some(property.name.text()));
        }
    }
    Ok(None)
}

/// Whether each of the models has a literal property of this name, and the literals differ.
fn tells_apart(
    alloc: Global,
    table: &Table,
    models: &[(TypeNo, ModelNo)],
    name: &str,
) -> Result<bool, AllocError>
    ensures { IfOk result (λ apart. apart ≡ unions.tells_apart table.now models.now name.now) }
{
    let mut literals = ScalarSet::new(alloc);
    let mut rest = models;
    while let Some((m, before)) = rest.split_last() {
        if !add_literal(&mut literals, literal_at(table, name, m.1))? {
            return Ok(false);
        }
        rest = before;
    }
    Ok(true)
}

/// Adds a literal, if there is one and it isn't there yet; whether it was added.
fn add_literal<'a>(
    literals: &mut ScalarSet<'a>,
    literal: Option<&'a Snap>,
) -> Result<bool, AllocError>
    ensures { IfOk result (λ added. (others : List (Option Value)) → AreLiterals literals.old others
        → AddsLiteral added literals.new (option_map view (option_copied literal.entry)) others) }
{
    match literal {
        Some(literal) => add_unless_there(literals, literal),
        None => Ok(false),
    }
}

fn add_unless_there<'a>(literals: &mut ScalarSet<'a>, literal: &'a Snap) -> Result<bool, AllocError>
    ensures { IfOk result (λ added. (others : List (Option Value)) → AreLiterals literals.old others
        → AddsLiteral added literals.new (Some (view literal.now)) others) }
{
    if literals.has(literal) {
        return Ok(false);
    }
    literals.insert(literal)?;
    Ok(true)
}
