//! The types of a schema, put together from the entries, the type expressions and the models of a form.
ghost use Rattle.std.specs.Prelude.{◌≡◌, [], ◌++◌, length, map, take, drop, replicate, Some, None, All, IfOk, OnOk};
ghost use Rattle.type_table.specs.Table.{plan_of};
ghost use Rattle.schema_read.specs.Types as types;
ghost use Rattle.schema_read.specs.Types.{own_shapes, models_from, put_together};
ghost use Rattle.schema_read.specs.Assembly.{IsKindOf, IsFit, AreWhole};

use crate::shapes::kind_shape;
use list_core::Parts;
use schema_form::{Entry, Kind, ModelForm};
use snap_core::TypeNo;
use std::alloc::{AllocError, Global};
use type_draft::Draft;
use type_table::{Properties, Property};

/// A draft with a type for each expression and each model.
pub fn draft_of(
    alloc: Global,
    entries: &[Entry],
    models: &[ModelForm],
    kinds: Parts<Kind>,
) -> Result<Draft, AllocError>
    requires { AreWhole entries.now kinds models.now }
    ensures { IfOk result (λ draft. draft ≡ plan_of (put_together entries.now kinds models.now)) }
{
    let mut draft = begun(alloc, kinds.len())?;
    add_models(alloc, &mut draft, models)?;
    define_all(&mut draft, entries, kinds);
    Ok(draft)
}

/// A draft of so many types, none of which has its shape yet.
fn begun(alloc: Global, count: usize) -> Result<Draft, AllocError>
    ensures { IfOk result (λ draft. draft ≡ record { shapes = replicate count None; models = [] }) }
{
    let mut draft = Draft::new(alloc);
    for _i in 0..count {
        draft.fresh()?;
    }
    Ok(draft)
}

/// Adds models.
fn add_models(alloc: Global, draft: &mut Draft, models: &[ModelForm]) -> Result<(), AllocError>
    requires { All (IsFit (length draft.old.shapes)) models.now }
    ensures shapes { OnOk result (draft.new.shapes
        ≡ draft.old.shapes ++ map Some (own_shapes (length draft.old.models) models.now)) }
    ensures models { OnOk result
        (draft.new.models ≡ draft.old.models ++ models_from (length draft.old.shapes) models.now) }
{
    for model in models {
        let name = model.name.clone_in(alloc)?;
        let properties = copied(alloc, model.properties.as_slice())?;
        draft.model(name, properties)?;
    }
    Ok(())
}

/// A copy of properties: the form keeps its own, for the names in pointers.
fn copied(alloc: Global, properties: &[Property]) -> Result<Properties, AllocError>
    ensures { IfOk result (λ copy. copy ≡ properties.now) }
{
    let mut copy = Parts::new(alloc);
    for property in properties {
        let name = property.name.clone_in(alloc)?;
        copy.push(Property {
            name,
            of: property.of,
        })?;
    }
    Ok(copy)
}

/// Gives the draft's first types the shapes of expressions.
fn define_all(draft: &mut Draft, entries: &[Entry], mut kinds: Parts<Kind>)
    requires undefined { take (length kinds) draft.old.shapes ≡ replicate (length kinds) None }
    requires kinds { All (IsKindOf entries.now draft.old) kinds }
    ensures { draft.new ≡ record draft.old {
      shapes = map Some (map (types.kind_shape entries.now) kinds) ++ drop (length kinds) draft.old.shapes;
    } }
{
    while let Some(kind) = kinds.pop() {
        draft.define(TypeNo(kinds.len()), kind_shape(entries, kind));
    }
}
