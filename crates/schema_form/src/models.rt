//! Models, part by part.
ghost use Rattle.std.specs.Prelude.{◌≡◌, [], IfOk, OnOk, Some};
ghost use Rattle.std.specs.Option.{option_copied, option_map};
ghost use Rattle.snap_core.specs.Value.{AreKeyed, IsOrdered, dict};
ghost use Rattle.snap_core.specs.View.{view, fields_view};
ghost use Rattle.behaviour_form.specs.Middleware.{middleware_read};
ghost use Rattle.behaviour_form.specs.Named.{is_taken};
ghost use Rattle.behaviour_form.specs.Views.{views_read};
ghost use Rattle.schema_form.specs.Bases.{AreBases};
ghost use Rattle.schema_form.specs.Entries as entries;
ghost use Rattle.schema_form.specs.Faults as faults;
ghost use Rattle.schema_form.specs.Modelled as modelled;
ghost use Rattle.schema_form.specs.Outcome.{Finds};
ghost use Rattle.schema_form.specs.Setting.{IsSetting, within};
ghost use Rattle.schema_form.specs.SoFar.{so_far};
ghost use Rattle.schema_form.specs.Targets.{lookup, targets_from};

use crate::bases::Base;
use crate::fault::FormError;
use crate::form::{Astray, Expressions};
use crate::objects::has_key;
use crate::properties::read_properties;
use crate::setting::Setting;
use crate::walk::{told, under, wrong};
use behaviour_form::{read_middleware, read_views};
use expr_form::Target;
use list_core::Parts;
use model_syntax::Behaviour;
use pointer_core::{Pointer, SchemaRule};
use snap_core::{Field, ModelNo, Snap, TypeNo};
use std::alloc::Global;
use type_table::Properties;

/// What stands under `model` in an entry of the types that is a model: an object with this one key.
pub fn model_in(value: &Snap) -> Option<&Snap>
    ensures { option_map view (option_copied result) ≡ entries.model_in (view value.now) }
{
    match value {
        Snap::Dict(fields) => model_among(fields.as_slice()),
        _ => None,
    }
}

fn model_among(fields: &[Field]) -> Option<&Snap>
    ensures { option_map view (option_copied result) ≡ entries.model_in (dict tt (fields_view fields.now)) }
{
    if fields.len() != 1 {
        return None;
    }
    let field = &fields[0];
    if field.key.text() == "model" {
        Some(&field.value)
    } else {
        None
    }
}

/// The first of two expressions that go astray.
pub fn earlier(first: Option<Astray>, second: Option<Astray>) -> Option<Astray>
    ensures { result ≡ modelled.earlier first second }
{
    match first {
        Some(first) => Some(first),
        None => second,
    }
}

/// A model while its parts are read: what they say so far.
#[derive(Debug, Drop)]
pub struct Modelling {
    pub properties: Properties,
    pub behaviour: Behaviour,
    pub astray: Option<Astray>,
}

/// Reads the model of a number and adds the type expressions in it, or names its first fault.
pub fn read_model(
    types: &[Field],
    bases: &[Option<Base>],
    targets: &[Target],
    value: &Snap,
    model: ModelNo,
    expressions: &mut Expressions,
) -> Result<Modelling, FormError>
    requires keyed { AreKeyed (fields_view types.now) }
    requires bases { AreBases types.now bases.now }
    requires targets { targets.now ≡ targets_from 0 (fields_view types.now) }
    requires ordered { IsOrdered (view value.now) }
    ensures finds { Finds result (faults.model_faults (fields_view types.now) (view value.now)) }
    ensures ok { let parts = entries.entries (view value.now) in IfOk result (λ said. so_far expressions.new said
        ≡ modelled.with_parts (record { types = fields_view types.now; parts = parts; model = model }) (modelled.unsaid expressions.old) parts) }
{
    match value {
        Snap::Dict(parts) => {
            let parts = parts.as_slice();
            let by = Setting {
                types,
                bases,
                targets,
                parts,
                model,
            };
            read_parts(&by, expressions)
        }
        _ => Err(wrong(expressions.allocator(), SchemaRule::Shape)),
    }
}

fn read_parts(by: &Setting, expressions: &mut Expressions) -> Result<Modelling, FormError>
    requires { IsSetting by.now }
    ensures finds { Finds result (faults.model_faults (fields_view by.now.types.now) (dict tt (fields_view by.now.parts.now))) }
    ensures ok { IfOk result (λ said. so_far expressions.new said
        ≡ modelled.with_parts (within by.now) (modelled.unsaid expressions.old) (fields_view by.now.parts.now)) }
{
    let alloc = expressions.allocator();
    if !has_key(by.parts, "properties") {
        return Err(wrong(alloc, SchemaRule::Shape));
    }
    let mut said = Modelling::new(alloc);
    for part in by.parts {
        let read = said.read_part(by, part, expressions);
        under(part.key.text(), read)?;
    }
    Ok(said)
}

impl Modelling {
    fn new(alloc: Global) -> Modelling
        ensures { so_far [] result ≡ modelled.unsaid [] }
    {
        let behaviour = Behaviour {
            views: Parts::new(alloc),
            actions: Parts::new(alloc),
            middleware: Parts::new(alloc),
        };
        Modelling {
            properties: Parts::new(alloc),
            behaviour,
            astray: None,
        }
    }

    /// Adds what a part says, or names its first fault.
    fn read_part(
        &mut self,
        by: &Setting,
        part: &Field,
        expressions: &mut Expressions,
    ) -> Result<(), FormError>
        requires setting { IsSetting by.now }
        requires ordered { IsOrdered (view part.now.value) }
        ensures finds { Finds result
            (faults.model_part_faults (fields_view by.now.types.now) (fields_view by.now.parts.now) part.now.key (view part.now.value)) }
        ensures ok { OnOk result (so_far expressions.new self.new
            ≡ modelled.with_part (within by.now) (so_far expressions.old self.old) part.now.key (view part.now.value)) }
    {
        let value = &part.value;
        match part.key.text() {
            "actions" => self.read_actions(by, value, expressions),
            "middleware" => self.read_middleware(by, value, expressions),
            "properties" => {
                self.properties = read_properties(by, value, expressions)?;
                Ok(())
            }
            "views" => self.read_views(by, value, expressions),
            _ => Err(wrong(expressions.allocator(), SchemaRule::Shape)),
        }
    }

    fn read_middleware(
        &mut self,
        by: &Setting,
        value: &Snap,
        expressions: &Expressions,
    ) -> Result<(), FormError>
        requires { IsSetting by.now }
        ensures finds { Finds result (faults.told (middleware_read (lookup (fields_view by.now.types.now)) (view value.now))) }
        ensures ok { OnOk result (so_far expressions.now self.new ≡ modelled.with_middleware (within by.now)
            (so_far expressions.now self.old) (middleware_read (lookup (fields_view by.now.types.now)) (view value.now))) }
    {
        let alloc = expressions.allocator();
        match told(read_middleware(alloc, value, by.types, by.targets))? {
            Ok(middleware) => {
                self.behaviour.middleware = middleware;
                Ok(())
            }
            Err(path) => {
                let before = TypeNo(expressions.as_slice().len());
                self.stray(before, by.model, path.under("middleware")?);
                Ok(())
            }
        }
    }

    fn read_views(
        &mut self,
        by: &Setting,
        value: &Snap,
        expressions: &Expressions,
    ) -> Result<(), FormError>
        requires { IsSetting by.now }
        ensures finds { Finds result (faults.told
            (views_read (lookup (fields_view by.now.types.now)) (is_taken (fields_view by.now.parts.now)) (view value.now))) }
        ensures ok { OnOk result (so_far expressions.now self.new ≡ modelled.with_views (within by.now) (so_far expressions.now self.old)
            (views_read (lookup (fields_view by.now.types.now)) (is_taken (fields_view by.now.parts.now)) (view value.now))) }
    {
        let alloc = expressions.allocator();
        match told(read_views(alloc, value, by.parts, by.types, by.targets))? {
            Ok(views) => {
                self.behaviour.views = views;
                Ok(())
            }
            Err(path) => {
                let before = TypeNo(expressions.as_slice().len());
                self.stray(before, by.model, path.under("views")?);
                Ok(())
            }
        }
    }

    /// Notes where an expression goes astray, unless an earlier one does.
    pub fn stray(&mut self, before: TypeNo, model: ModelNo, path: Pointer)
        ensures { self.new ≡ record self.old {
          astray = modelled.earlier self.old.astray (Some (record { before = before; model = model; path = path }));
        } }
    {
        let here = Astray {
            before,
            model,
            path,
        };
        self.astray = earlier(self.astray.take(), Some(here));
    }
}
