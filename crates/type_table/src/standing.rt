//! Where types stand directly.
ghost use Rattle.std.specs.Prelude.{◌≡◌, ◌<◌, List, [], ◌∷◌, ◌||◌, false, length, replicate, IfOk, if◌then◌else◌};
ghost use Rattle.snap_core.specs.declared.number.TypeNo.{TypeNo as Number};
ghost use Rattle.std.specs.List.{filter};
ghost use Rattle.type_table.specs.Identifiers as specs;
ghost use Rattle.type_table.specs.Identifiers.{property_types, part_types, part_type, second_types, types_in, later_identifiers, identifies, has_number};
ghost use Rattle.type_table.specs.Table.{Table as Types};
ghost use Rattle.type_table.specs.Marks.{AreMarks, marked};
ghost use Rattle.type_table.specs.Standings.{IsStanding};

use crate::identifiers::{identifier_at, is_identifier};
use crate::shape::{Property, Shape};
use crate::table::Table;
use list_core::Parts;
use snap_core::TypeNo;
use std::alloc::{AllocError, Global};

/// Where each type stands directly: marks by the types' numbers.
#[derive(Debug, Drop)]
pub struct Standing {
    /// A property's type.
    pub of_property: Parts<bool>,
    /// The type of an array's items or of a map's values.
    pub of_part: Parts<bool>,
    /// The type of a second identifier of a model.
    pub second: Parts<bool>,
}

/// Where the types of a table stand.
pub fn standing_of(alloc: Global, table: &Table) -> Result<Standing, AllocError>
    ensures { IfOk result (IsStanding table.now) }
{
    Ok(Standing {
        of_property: mark_properties(alloc, table)?,
        of_part: mark_parts(alloc, table)?,
        second: mark_seconds(alloc, table)?,
    })
}

/// Whether an identifier type stands elsewhere than directly at one property of a model.
pub fn is_misplaced(table: &Table, standing: &Standing, t: TypeNo) -> bool
    requires { IsStanding table.now standing.now }
    ensures { result ≡ specs.is_misplaced table.now t.0 }
{
    match table.shape(t) {
        Some(Shape::Identifier | Shape::IdentifierNumber) => {
            let of_property = is_marked(&standing.of_property, t);
            let second = is_marked(&standing.second, t);
            !of_property || second
        }
        _ => false,
    }
}

/// Whether a reference leads to no model with an identifier, or a safe one stands where it can't
/// be cleared.
pub fn misleads(table: &Table, standing: &Standing, t: TypeNo) -> bool
    requires { IsStanding table.now standing.now }
    ensures { result ≡ specs.misleads table.now t.0 }
{
    match table.shape(t) {
        Some(Shape::Reference(u)) => identifier_at(table, *u).is_none(),
        Some(Shape::Safe(u)) => identifier_at(table, *u).is_none() || !is_cleared(standing, t),
        _ => false,
    }
}

/// Whether a safe reference can be cleared where it stands.
fn is_cleared(standing: &Standing, t: TypeNo) -> bool
    ensures { (table : Types) → IsStanding table standing.now → t.0 < length table.shapes
        → result ≡ (specs.of_property table t.0 || has_number t.0 (part_types table.shapes)) }
{
    let of_property = is_marked(&standing.of_property, t);
    let of_part = is_marked(&standing.of_part, t);
    of_property || of_part
}

fn is_marked(marks: &Parts<bool>, t: TypeNo) -> bool
    ensures { (types : List Number) → AreMarks marks.now types → t.0 < length marks.now → result ≡ has_number t.0 types }
{
    match marks.get(t.0) {
        Some(mark) => *mark,
        None => false,
    }
}

/// Marks by the types' numbers: which types are directly a property's.
pub fn mark_properties(alloc: Global, table: &Table) -> Result<Parts<bool>, AllocError>
    ensures marks { IfOk result (λ marks. AreMarks marks (property_types table.now.models)) }
    ensures count { IfOk result (λ marks. length marks ≡ length table.now.shapes) }
{
    let mut marks = unmarked(alloc, table.shapes.len())?;
    for model in table.models.as_slice() {
        mark_each(&mut marks, model.properties.as_slice());
    }
    Ok(marks)
}

/// No mark for so many types.
fn unmarked(alloc: Global, count: usize) -> Result<Parts<bool>, AllocError>
    ensures { IfOk result (λ marks. marks ≡ replicate count false) }
{
    Ok(Parts::from_vec(vec![in alloc; false; count]?))
}

fn mark_each(marks: &mut Parts<bool>, properties: &[Property])
    ensures { marks.new ≡ marked marks.old (types_in properties.now) }
{
    for property in properties {
        mark(marks, property.of);
    }
}

/// Marks a type, if there is one of this number.
fn mark(marks: &mut Parts<bool>, t: TypeNo)
    ensures { marks.new ≡ marked marks.old (t ∷ []) }
{
    if t.0 < marks.len() {
        marks.set(t.0, true);
    }
}

fn mark_parts(alloc: Global, table: &Table) -> Result<Parts<bool>, AllocError>
    ensures marks { IfOk result (λ marks. AreMarks marks (part_types table.now.shapes)) }
    ensures count { IfOk result (λ marks. length marks ≡ length table.now.shapes) }
{
    let mut marks = unmarked(alloc, table.shapes.len())?;
    for shape in table.shapes.as_slice() {
        mark_part(&mut marks, shape);
    }
    Ok(marks)
}

/// Marks the type of an array's items or of a map's values.
fn mark_part(marks: &mut Parts<bool>, shape: &Shape)
    ensures { marks.new ≡ marked marks.old (part_type shape.now) }
{
    match shape {
        Shape::Array(u) | Shape::Map(u) => mark(marks, *u),
        _ => {}
    }
}

fn mark_seconds(alloc: Global, table: &Table) -> Result<Parts<bool>, AllocError>
    ensures marks { IfOk result (λ marks. AreMarks marks (second_types table.now table.now.models)) }
    ensures count { IfOk result (λ marks. length marks ≡ length table.now.shapes) }
{
    let mut marks = unmarked(alloc, table.shapes.len())?;
    for model in table.models.as_slice() {
        mark_later(&mut marks, table, model.properties.as_slice());
    }
    Ok(marks)
}

/// Marks the types of the identifiers behind the first one.
fn mark_later(marks: &mut Parts<bool>, table: &Table, properties: &[Property])
    ensures { marks.new ≡ marked marks.old (types_in (later_identifiers table.now properties.now)) }
{
    let mut rest = properties;
    while let Some((property, later)) = rest.split_first() {
        if is_identifier(table.shape(property.of)) {
            mark_identifiers(marks, table, later);
            return;
        }
        rest = later;
    }
}

fn mark_identifiers(marks: &mut Parts<bool>, table: &Table, properties: &[Property])
    ensures { marks.new ≡ marked marks.old (types_in (filter (identifies table.now) properties.now)) }
{
    let mut rest = properties;
    while let Some((property, later)) = rest.split_first() {
        mark_identifier(marks, table, property);
        rest = later;
    }
}

fn mark_identifier(marks: &mut Parts<bool>, table: &Table, property: &Property)
    ensures { marks.new ≡ (if identifies table.now property.now then marked marks.old (property.now.of ∷ []) else marks.old) }
{
    if is_identifier(table.shape(property.of)) {
        mark(marks, property.of);
    }
}
