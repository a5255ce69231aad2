//! What each entry of the types is to an expression that names it.
ghost use Rattle.std.specs.Prelude.{◌≡◌, IfOk};
ghost use Rattle.snap_core.specs.Value.{IsOrdered, AreOrderedMembers};
ghost use Rattle.snap_core.specs.View.{view, fields_view};
ghost use Rattle.schema_form.specs.Entries as entries;
ghost use Rattle.schema_form.specs.Targets as specs;

use crate::form::Plain;
use crate::models::model_in;
use crate::objects::{entries_of, entries_under};
use crate::words::plain_of;
use expr_form::Target;
use snap_core::{Field, ModelNo, Snap};
use std::alloc::{AllocError, Global};

/// What each entry is: the models among them are counted in order.
pub fn targets_of(alloc: Global, types: &[Field]) -> Result<Vec<Target>, AllocError>
    requires { AreOrderedMembers (fields_view types.now) }
    ensures { IfOk result (λ targets. targets.items ≡ specs.targets_from 0 (fields_view types.now)) }
{
    let mut targets = Vec::new(alloc);
    let mut models = 0;
    for field in types {
        match model_in(&field.value) {
            Some(model) => {
                targets.push(model_target(ModelNo(models), model))?;
                models += 1;
            }
            None => targets.push(Target::Other)?,
        }
    }
    Ok(targets)
}

fn model_target(number: ModelNo, model: &Snap) -> Target
    requires { IsOrdered (view model.now) }
    ensures { result ≡ specs.model_target number (view model.now) }
{
    if has_identifier(properties_in(model)) {
        Target::Identified(number)
    } else {
        Target::Model(number)
    }
}

/// The properties of a model; none where it has none.
fn properties_in(model: &Snap) -> &[Field]
    requires { IsOrdered (view model.now) }
    ensures { fields_view result.now ≡ entries.properties_in (view model.now) }
{
    entries_under(entries_of(model), "properties")
}

/// Whether one of some properties is an identifier.
fn has_identifier(properties: &[Field]) -> bool
    ensures { result ≡ specs.has_identifier (fields_view properties.now) }
{
    for property in properties {
        if says_identifier(&property.value) {
            return true;
        }
    }
    false
}

fn says_identifier(value: &Snap) -> bool
    ensures { result ≡ specs.says_identifier (view value.now) }
{
    match value {
        Snap::Text(word) => is_identifier(plain_of(word.text())),
        _ => false,
    }
}

fn is_identifier(plain: Option<Plain>) -> bool
    ensures { result ≡ specs.is_identifier plain }
{
    matches!(plain, Some(Plain::Identifier | Plain::IdentifierNumber))
}
