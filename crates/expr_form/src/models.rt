//! The models that expressions speak of.
ghost use Rattle.std.specs.Prelude.{◌≡◌, length};
ghost use Rattle.snap_core.specs.Value.{AreKeyed};
ghost use Rattle.snap_core.specs.View.{view, fields_view};
ghost use Rattle.expr_form.specs.Models as specs;
ghost use Rattle.expr_form.specs.Outcome.{Tells};

use crate::fault::Trouble;
use crate::texts::text_in;
use crate::walk::wrong;
use pointer_core::SchemaRule;
use snap_core::{Field, ModelNo, Snap, position};
use std::alloc::Global;

/// What an entry of the types is to an expression that names it.
#[derive(Clone, Copy, Debug, PartialEq, Eq)]
pub enum Target {
    /// No model, or only the name of one.
    Other,
    /// A model without an identifier.
    Model(ModelNo),
    /// A model that has one.
    Identified(ModelNo),
}

/// What the entry of a name is.
fn target_of(types: &[Field], targets: &[Target], name: &str) -> Option<Target>
    requires keyed { AreKeyed (fields_view types.now) }
    requires each { length targets.now ≡ length types.now }
    ensures { result ≡ specs.target_of (fields_view types.now) targets.now name.now }
{
    match position(types, name) {
        Some(at) => Some(targets[at]),
        None => None,
    }
}

/// Reads the name of an entry, whatever it is.
pub fn read_entry(
    alloc: Global,
    value: &Snap,
    types: &[Field],
    targets: &[Target],
) -> Result<(), Trouble>
    requires keyed { AreKeyed (fields_view types.now) }
    requires each { length targets.now ≡ length types.now }
    ensures { Tells (λ u. tt) result (specs.entry_read (specs.target_of (fields_view types.now) targets.now) (view value.now)) }
{
    let Some(name) = text_in(value) else {
        return Err(wrong(alloc, SchemaRule::Shape));
    };
    match target_of(types, targets, name) {
        Some(_) => Ok(()),
        None => Err(wrong(alloc, SchemaRule::Name)),
    }
}

/// The model with an identifier that an entry is.
fn identified(target: Target) -> Option<ModelNo>
    ensures { result ≡ specs.identified target }
{
    match target {
        Target::Identified(model) => Some(model),
        _ => None,
    }
}

/// The model that an entry is.
fn model(target: Target) -> Option<ModelNo>
    ensures { result ≡ specs.model target }
{
    match target {
        Target::Model(model) | Target::Identified(model) => Some(model),
        Target::Other => None,
    }
}

/// The model with an identifier that a value names.
pub fn identified_named(value: &Snap, types: &[Field], targets: &[Target]) -> Option<ModelNo>
    requires keyed { AreKeyed (fields_view types.now) }
    requires each { length targets.now ≡ length types.now }
    ensures { result ≡ specs.named_by specs.identified (specs.target_of (fields_view types.now) targets.now) (view value.now) }
{
    let name = text_in(value)?;
    let target = target_of(types, targets, name)?;
    identified(target)
}

/// The model that a value names.
pub fn model_named(value: &Snap, types: &[Field], targets: &[Target]) -> Option<ModelNo>
    requires keyed { AreKeyed (fields_view types.now) }
    requires each { length targets.now ≡ length types.now }
    ensures { result ≡ specs.named_by specs.model (specs.target_of (fields_view types.now) targets.now) (view value.now) }
{
    let name = text_in(value)?;
    let target = target_of(types, targets, name)?;
    model(target)
}
