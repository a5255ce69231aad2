//! The properties of models: type expressions under names.
ghost use Rattle.std.specs.Prelude.{◌≡◌, ◌++◌, length, IfOk, OnOk};
ghost use Rattle.snap_core.specs.View.{view, fields_view};
ghost use Rattle.schema_form.specs.Entries as entries;
ghost use Rattle.schema_form.specs.Faults as faults;
ghost use Rattle.schema_form.specs.Layout as layout;
ghost use Rattle.schema_form.specs.Outcome.{Finds};
ghost use Rattle.schema_form.specs.Setting.{IsSetting};

use crate::expressions::read_type;
use crate::fault::FormError;
use crate::form::{Expressions, Place};
use crate::keys::{is_expression, read_name};
use crate::leaves::check_own;
use crate::setting::Setting;
use crate::walk::{require, under, wrong};
use behaviour_form::stands_in;
use list_core::Parts;
use pointer_core::SchemaRule;
use snap_core::{Field, Snap, TypeNo};
use type_table::{Properties, Property};

/// Reads the properties of a model, and adds their type expressions.
pub fn read_properties(
    by: &Setting,
    value: &Snap,
    expressions: &mut Expressions,
) -> Result<Properties, FormError>
    requires { IsSetting by.now }
    ensures finds { Finds result
        (faults.properties_faults (fields_view by.now.types.now) (fields_view by.now.parts.now) (view value.now)) }
    ensures laid { OnOk result (expressions.new ≡ expressions.old
        ++ layout.properties_laid (fields_view by.now.types.now) by.now.model 0 (entries.entries (view value.now)) (length expressions.old)) }
    ensures properties { IfOk result (λ ps. ps
        ≡ layout.properties_of (fields_view by.now.types.now) by.now.model 0 (entries.entries (view value.now)) (length expressions.old)) }
{
    match value {
        Snap::Dict(fields) => read_each(by, fields.as_slice(), expressions),
        _ => Err(wrong(expressions.allocator(), SchemaRule::Shape)),
    }
}

fn read_each(
    by: &Setting,
    fields: &[Field],
    expressions: &mut Expressions,
) -> Result<Properties, FormError>
    requires { IsSetting by.now }
    ensures finds { Finds result
        (faults.member_faults (faults.property_faults (fields_view by.now.types.now) (fields_view by.now.parts.now)) (fields_view fields.now)) }
    ensures laid { OnOk result (expressions.new ≡ expressions.old
        ++ layout.properties_laid (fields_view by.now.types.now) by.now.model 0 (fields_view fields.now) (length expressions.old)) }
    ensures properties { IfOk result (λ ps. ps
        ≡ layout.properties_of (fields_view by.now.types.now) by.now.model 0 (fields_view fields.now) (length expressions.old)) }
{
    let mut properties = Parts::new(expressions.allocator());
    for (index, field) in fields.iter().enumerate() {
        let place = Place::Property(by.model, index);
        let property = read_property(by, field, place, expressions);
        properties.push(under(field.key.text(), property)?)?;
    }
    Ok(properties)
}

fn read_property(
    by: &Setting,
    field: &Field,
    place: Place,
    expressions: &mut Expressions,
) -> Result<Property, FormError>
    requires { IsSetting by.now }
    ensures finds { Finds result
        (faults.property_faults (fields_view by.now.types.now) (fields_view by.now.parts.now) field.now.key (view field.now.value)) }
    ensures laid { OnOk result (expressions.new ≡ expressions.old
        ++ layout.type_laid (fields_view by.now.types.now) (view field.now.value) (length expressions.old) place) }
    ensures property { IfOk result
        (λ p. p ≡ record { name = field.now.key; of = layout.type_no (length expressions.old) }) }
{
    let alloc = expressions.allocator();
    let key = field.key.text();
    let name = read_name(alloc, key, is_expression(&field.value))?;
    check_own(alloc, by.types, &field.value)?;
    let is_taken = stands_in(by.parts, "actions", key);
    require(alloc, !is_taken, SchemaRule::Twice)?;
    let of = TypeNo(expressions.len());
    read_type(&field.value, by.types, by.bases, place, expressions)?;
    Ok(Property { name, of })
}
