//! Where the type expressions of a form stand in the file.
ghost use Rattle.std.specs.Prelude.{◌≡◌, ℕ, ◌<◌, List, ◌++◌, length, map, slice_get, Some, IfOk};
ghost use Rattle.type_table.specs.declared.shape.Property.{Property};
ghost use Rattle.schema_form.specs.Pointers as pointers;

use crate::form::{Entry, EntryNo, Expressions, Holder, Kind, ModelForm, Place, Step};
use list_core::Parts;
use pointer_core::Pointer;
use snap_core::{ModelNo, Name, TypeNo};
use std::alloc::{AllocError, Global};

/// Type expressions, taken apart.
#[derive(Debug, Drop)]
pub struct Laid {
    pub places: Parts<Place>,
    pub kinds: Parts<Kind>,
}

/// Takes type expressions apart: where each stands, and what each says.
pub fn taken_apart(alloc: Global, expressions: Expressions) -> Result<Laid, AllocError>
    ensures places { IfOk result (λ laid. laid.places ≡ pointers.places_of expressions) }
    ensures kinds { IfOk result (λ laid. laid.kinds ≡ map (λ e. e.kind) expressions) }
{
    let mut places = Parts::new(alloc);
    let mut kinds = Parts::new(alloc);
    for expression in expressions.into_vec() {
        places.push(expression.place)?;
        kinds.push(expression.kind)?;
    }
    Ok(Laid { places, kinds })
}

/// The pointer from the file to the type expression of this number.
pub fn pointer_to(
    alloc: Global,
    entries: &[Entry],
    models: &[ModelForm],
    places: &[Place],
    t: TypeNo,
) -> Result<Pointer, AllocError>
    requires places { pointers.ArePlaces entries.now models.now places.now }
    requires within { t.0 < length places.now }
    ensures { IfOk result (pointers.IsPointer entries.now models.now places.now t.0) }
{
    let mut path = Pointer::new(alloc);
    let mut at = t;
    loop {
        match place_at(places, at) {
            Place::Entry(entry) => return entry_pointer(path, &entry_at(entries, entry).name),
            Place::Property(model, index) => {
                return property_pointer(path, model_at(models, model), index);
            }
            Place::Param(model, action, index) => {
                return param_pointer(path, model_at(models, model), action, index);
            }
            Place::Part(whole, step) => {
                path = lowered(path, step)?;
                at = whole;
            }
        }
    }
}

fn place_at(places: &[Place], at: TypeNo) -> Place
    requires { at.0 < length places.now }
    ensures { slice_get places.now at.0 ≡ Some result }
{
    places[at.0]
}

fn entry_at(entries: &[Entry], at: EntryNo) -> &Entry
    requires { at.0 < length entries.now }
    ensures { slice_get entries.now at.0 ≡ Some result.now }
{
    &entries[at.0]
}

fn model_at(models: &[ModelForm], at: ModelNo) -> &ModelForm
    requires { at.0 < length models.now }
    ensures { slice_get models.now at.0 ≡ Some result.now }
{
    &models[at.0]
}

/// The pointer as it reads from the file, where its root is an entry of the types.
fn entry_pointer(path: Pointer, name: &Name) -> Result<Pointer, AllocError>
    ensures { IfOk result (λ longer. longer ≡ pointers.entry_path name.now ++ path) }
{
    path.under(name.text())?.under("types")
}

/// The pointer as it reads from the file, where its root is the property of a model at an index.
fn property_pointer(path: Pointer, model: &ModelForm, index: usize) -> Result<Pointer, AllocError>
    requires { index < length model.now.properties }
    ensures { IfOk result (λ longer. (p : Property) → slice_get model.now.properties index ≡ Some p
        → longer ≡ pointers.entry_path model.now.name ++ pointers.property_path p.name ++ path) }
{
    let property = &model.properties.as_slice()[index];
    let path = path.under(property.name.text())?.under("properties")?;
    entry_pointer(path.under("model")?, &model.name)
}

/// The pointer as it reads from the file, where its root is the type of a parameter: of a model's action at an index, the
/// parameter at another one.
fn param_pointer(
    path: Pointer,
    model: &ModelForm,
    action: usize,
    index: usize,
) -> Result<Pointer, AllocError>
    requires { action < length model.now.actions }
    ensures { IfOk result (λ longer. (name : List ℕ) → slice_get model.now.actions action ≡ Some name
        → longer ≡ pointers.entry_path model.now.name ++ pointers.param_path name index ++ path) }
{
    let action = &model.actions.as_slice()[action];
    let path = path.under("1")?.under_index(index)?.under("params")?;
    let path = path.under(action.text())?.under("actions")?;
    entry_pointer(path.under("model")?, &model.name)
}

/// The pointer as it reads from the type expression of which its root is a part.
fn lowered(path: Pointer, step: Step) -> Result<Pointer, AllocError>
    ensures { IfOk result (λ longer. longer ≡ pointers.step_path step ++ path) }
{
    match step {
        Step::Held(holder) => path.under(holder_key(holder)),
        Step::Defaulted => path.under("0")?.under("optional"),
        Step::Refined => path.under("0")?.under("refinement"),
        Step::Member(index) => path.under_index(index)?.under("union"),
    }
}

/// The key of a form that holds one type.
fn holder_key(holder: Holder) -> &'static str
    ensures { result.now ≡ pointers.holder_key holder }
{
    match holder {
        Holder::Maybe => "maybe",
        Holder::MaybeNull => "maybeNull",
        Holder::Array => "array",
        Holder::Map => "map",
    }
}
