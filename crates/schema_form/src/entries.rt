//! The entries of the types: models and type expressions under names.
ghost use Rattle.std.specs.Prelude.{◌≡◌, ◌++◌, length, map, OnOk, IfOk, codes, true};
ghost use Rattle.snap_core.specs.Value.{AreKeyed, IsOrdered, AreOrderedMembers};
ghost use Rattle.snap_core.specs.View.{view, fields_view};
ghost use Rattle.schema_form.specs.Bases.{AreBases};
ghost use Rattle.schema_form.specs.Faults as faults;
ghost use Rattle.schema_form.specs.Entries as entries;
ghost use Rattle.schema_form.specs.Gathering as gathering;
ghost use Rattle.schema_form.specs.Gathering.{Gathering, gathered_shown};
ghost use Rattle.schema_form.specs.SoFar.{so_far};
ghost use Rattle.schema_form.specs.Targets.{targets_from};
ghost use Rattle.schema_form.specs.Outcome.{Finds};

use crate::bases::{Base, bases_of};
use crate::expressions::read_type;
use crate::fault::FormError;
use crate::form::{Astray, Entry, EntryNo, Expression, Expressions, Kind, ModelForm, Place};
use crate::keys::{is_expression, read_free_name};
use crate::models::{Modelling, earlier, model_in, read_model};
use crate::targets::targets_of;
use crate::walk::{under, wrong};
use expr_form::Target;
use list_core::Parts;
use model_syntax::{Action, Behaviour};
use pointer_core::SchemaRule;
use snap_core::{Field, ModelNo, Name, Snap, TypeNo};
use std::alloc::{AllocError, Global};

/// What the walk has gathered: it goes from entry to entry.
#[derive(Debug, Drop)]
pub struct Gathered {
    pub entries: Parts<Entry>,
    pub expressions: Expressions,
    pub models: Parts<ModelForm>,
    pub behaviours: Parts<Behaviour>,
    pub astray: Option<Astray>,
}

/// Reads the types of a file, or names their first fault.
pub fn read_types(alloc: Global, value: &Snap) -> Result<Gathered, FormError>
    requires { IsOrdered (view value.now) }
    ensures finds { Finds result (faults.types_faults (view value.now)) }
    ensures ok { IfOk result (λ found. gathered_shown found ≡ gathering.gathered (entries.entries (view value.now))) }
{
    match value {
        Snap::Dict(types) => read_entries(alloc, types.as_slice()),
        _ => Err(wrong(alloc, SchemaRule::Shape)),
    }
}

#[tactic(auto, using(crate::proofs::Orders::keyed_by_order))]
fn read_entries(alloc: Global, types: &[Field]) -> Result<Gathered, FormError>
    requires { AreOrderedMembers (fields_view types.now) }
    ensures finds { Finds result
        (faults.member_faults (faults.entry_faults (fields_view types.now)) (fields_view types.now)) }
    ensures ok { IfOk result (λ found. gathered_shown found ≡ gathering.gathered (fields_view types.now)) }
{
    let bases = bases_of(alloc, types)?;
    let targets = targets_of(alloc, types)?;
    let mut gathered = Gathered::new(alloc);
    for field in types {
        let entry = gathered.read_entry(types, &bases, &targets, field);
        under(field.key.text(), entry)?;
    }
    Ok(gathered)
}

impl Gathered {
    fn new(alloc: Global) -> Gathered
        ensures { gathered_shown result ≡ gathering.nothing }
    {
        Gathered {
            entries: Parts::new(alloc),
            expressions: Parts::new(alloc),
            models: Parts::new(alloc),
            behaviours: Parts::new(alloc),
            astray: None,
        }
    }

    /// Adds an entry of the types, or names its first fault.
    fn read_entry(
        &mut self,
        types: &[Field],
        bases: &[Option<Base>],
        targets: &[Target],
        field: &Field,
    ) -> Result<(), FormError>
        requires keyed { AreKeyed (fields_view types.now) }
        requires bases { AreBases types.now bases.now }
        requires targets { targets.now ≡ targets_from 0 (fields_view types.now) }
        requires ordered { IsOrdered (view field.now.value) }
        ensures finds { Finds result
            (faults.entry_faults (fields_view types.now) field.now.key (view field.now.value)) }
        ensures ok { OnOk result (gathered_shown self.new
            ≡ gathering.with_entry (fields_view types.now) (gathered_shown self.old) field.now.key (view field.now.value)) }
    {
        match model_in(&field.value) {
            Some(model) => self.read_model(types, bases, targets, field.key.text(), model),
            None => self.read_type(types, bases, field),
        }
    }

    /// Adds an entry that is a model.
    fn read_model(
        &mut self,
        types: &[Field],
        bases: &[Option<Base>],
        targets: &[Target],
        key: &str,
        model: &Snap,
    ) -> Result<(), FormError>
        requires keyed { AreKeyed (fields_view types.now) }
        requires bases { AreBases types.now bases.now }
        requires targets { targets.now ≡ targets_from 0 (fields_view types.now) }
        requires ordered { IsOrdered (view model.now) }
        ensures finds { Finds result (faults.key_faults true (faults.is_free key.now)
            ++ faults.under (codes "model") (faults.model_faults (fields_view types.now) (view model.now))) }
        ensures ok { OnOk result (gathered_shown self.new
            ≡ gathering.with_model (fields_view types.now) (gathered_shown self.old) key.now (entries.entries (view model.now))) }
    {
        let name = read_free_name(self.entries.allocator(), key, true)?;
        let of = TypeNo(self.expressions.len());
        let number = ModelNo(self.models.len());
        let place = Place::Entry(EntryNo(self.entries.len()));
        let kind = Kind::Model(number);
        self.expressions.push(Expression { place, kind })?;
        let inner = read_model(types, bases, targets, model, number, &mut self.expressions);
        let said = under("model", inner)?;
        Ok(self.add_model(name, of, said)?)
    }

    /// Adds a model whose parts are read, under its name and with the number of its type expression.
    fn add_model(&mut self, name: Name, of: TypeNo, said: Modelling) -> Result<(), AllocError>
        ensures { OnOk result ((g : Gathering) → g ≡ record (gathered_shown self.old) { expressions = g.expressions } → length g.expressions ≡ of.0
            → gathered_shown self.new ≡ gathering.with_modelled g name (so_far self.old.expressions said)) }
    {
        let alloc = self.entries.allocator();
        let Modelling {
            properties,
            behaviour,
            astray,
        } = said;
        let entry = Entry {
            name: name.clone_in(alloc)?,
            of,
        };
        let actions = action_names(alloc, behaviour.actions.as_slice())?;
        self.astray = earlier(self.astray.take(), astray);
        self.entries.push(entry)?;
        self.behaviours.push(behaviour)?;
        self.models.push(ModelForm {
            name,
            properties,
            actions,
        })
    }

    /// Adds an entry that is another type expression.
    fn read_type(
        &mut self,
        types: &[Field],
        bases: &[Option<Base>],
        field: &Field,
    ) -> Result<(), FormError>
        requires keyed { AreKeyed (fields_view types.now) }
        requires bases { AreBases types.now bases.now }
        ensures finds { Finds result (faults.key_faults (faults.is_expression (view field.now.value)) (faults.is_free field.now.key)
            ++ faults.type_faults (fields_view types.now) (view field.now.value)) }
        ensures ok { OnOk result (gathered_shown self.new
            ≡ gathering.with_type (fields_view types.now) (gathered_shown self.old) field.now.key (view field.now.value)) }
    {
        let is_formed = is_expression(&field.value);
        let name = read_free_name(self.entries.allocator(), field.key.text(), is_formed)?;
        let of = TypeNo(self.expressions.len());
        let place = Place::Entry(EntryNo(self.entries.len()));
        read_type(&field.value, types, bases, place, &mut self.expressions)?;
        self.entries.push(Entry { name, of })?;
        Ok(())
    }
}

/// The names of actions.
fn action_names(alloc: Global, actions: &[Action]) -> Result<Parts<Name>, AllocError>
    ensures { IfOk result (λ names. names ≡ map (λ a. a.name) actions.now) }
{
    let mut names = Parts::new(alloc);
    for action in actions {
        names.push(action.name.clone_in(alloc)?)?;
    }
    Ok(names)
}
