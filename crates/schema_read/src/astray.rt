//! Expressions that lead to no model that they may name, among the faults of types.
ghost use Rattle.std.specs.Prelude.{◌≡◌, ◌<◌, length, slice_get, true, false, Some, IfOk};
ghost use Rattle.schema_form.specs.Pointers.{IsPointer, ArePlaces};
ghost use Rattle.schema_form.specs.declared.form.Astray.{Astray as AstraySpec};
ghost use Rattle.schema_form.specs.declared.form.ModelForm.{ModelForm as ModelSpec};
ghost use Rattle.schema_read.specs.Astray as specs;

use pointer_core::SchemaRule;
use schema_form::{Astray, Entry, Fault, ModelForm, Place, pointer_to};
use snap_core::TypeNo;
use std::alloc::{AllocError, Global};

/// Whether a fault of a type comes before an expression that goes astray: in the same pass, and before it in the file.
fn stands_before(t: TypeNo, rule: SchemaRule, astray: &Astray) -> bool
    ensures { result ≡ specs.stands_before t.0 rule astray.now }
{
    match rule {
        SchemaRule::Default => false,
        _ => t.0 < astray.before.0,
    }
}

/// The fault of an expression that leads to no model that it may name.
pub fn led_astray(models: &[ModelForm], astray: Astray) -> Result<Fault, AllocError>
    requires { astray.model.0 < length models.now }
    ensures { IfOk result (λ fault. (model : ModelSpec) → slice_get models.now astray.model.0 ≡ Some model
        → fault ≡ record { path = specs.astray_path model.name astray.path; rule = SchemaRule.Target }) }
{
    let model = &models[astray.model.0];
    let path = astray.path.under("model")?;
    let path = path.under(model.name.text())?.under("types")?;
    let rule = SchemaRule::Target;
    Ok(Fault { path, rule })
}

/// The first of a fault of the types and of an expression that goes astray, if one does.
pub fn first_of(
    alloc: Global,
    entries: &[Entry],
    models: &[ModelForm],
    places: &[Place],
    t: TypeNo,
    rule: SchemaRule,
    astray: Option<Astray>,
) -> Result<Fault, AllocError>
    requires places { ArePlaces entries.now models.now places.now }
    requires within { t.0 < length places.now }
    requires model { (a : AstraySpec) → astray ≡ Some a → a.model.0 < length models.now }
    ensures fault { specs.is_before t.0 rule astray ≡ true
        → IfOk result (λ fault. IsPointer entries.now models.now places.now t.0 fault.path × (fault.rule ≡ rule)) }
    ensures astray { (a : AstraySpec) → (model : ModelSpec) → astray ≡ Some a → specs.stands_before t.0 rule a ≡ false
        → slice_get models.now a.model.0 ≡ Some model
        → IfOk result (λ fault. fault ≡ record { path = specs.astray_path model.name a.path; rule = SchemaRule.Target }) }
{
    if let Some(astray) = astray {
        if !stands_before(t, rule, &astray) {
            return led_astray(models, astray);
        }
    }
    let path = pointer_to(alloc, entries, models, places, t)?;
    Ok(Fault { path, rule })
}
