//! The actions of models: bodies and parameters under names.
ghost use Rattle.std.specs.Prelude.{◌≡◌, List, length, codes, IfOk, OnOk};
ghost use Rattle.snap_core.specs.Value.{AreKeyed, IsOrdered, AreOrderedMembers, dict};
ghost use Rattle.snap_core.specs.View.{view, fields_view};
ghost use Rattle.expr_syntax.specs.ShownStatements.{block_shown};
ghost use Rattle.expr_syntax.specs.Syntax.{done};
ghost use Rattle.schema_form.specs.declared.form.Expression.{Expression as ExpressionSpec};
ghost use Rattle.schema_form.specs.Entries as entries;
ghost use Rattle.schema_form.specs.Faults as faults;
ghost use Rattle.schema_form.specs.Layout as layout;
ghost use Rattle.schema_form.specs.Modelled as modelled;
ghost use Rattle.schema_form.specs.Names as names;
ghost use Rattle.schema_form.specs.Outcome.{Finds};
ghost use Rattle.schema_form.specs.Setting.{IsSetting, within, action_of};
ghost use Rattle.schema_form.specs.SoFar.{so_far, acting};

use crate::fault::FormError;
use crate::form::Expressions;
use crate::keys::read_name;
use crate::models::Modelling;
use crate::objects::has_key;
use crate::params::read_params;
use crate::setting::Setting;
use crate::walk::{told, under, wrong};
use behaviour_form::read_action_body;
use expr_syntax::Block;
use list_core::Parts;
use model_syntax::{Action, Param};
use pointer_core::{Pointer, SchemaRule};
use snap_core::{Field, Name, Snap, TypeNo, find};
use std::alloc::{AllocError, Global};

impl Modelling {
    /// Adds the actions of the model and the type expressions in them, or names their first fault.
    pub fn read_actions(
        &mut self,
        by: &Setting,
        value: &Snap,
        expressions: &mut Expressions,
    ) -> Result<(), FormError>
        requires setting { IsSetting by.now }
        requires ordered { IsOrdered (view value.now) }
        ensures finds { Finds result (faults.actions_faults (fields_view by.now.types.now) (view value.now)) }
        ensures ok { OnOk result (so_far expressions.new self.new
            ≡ modelled.with_actions (within by.now) (so_far expressions.old self.old) (entries.entries (view value.now))) }
    {
        match value {
            Snap::Dict(fields) => self.read_each_action(by, fields.as_slice(), expressions),
            _ => Err(wrong(expressions.allocator(), SchemaRule::Shape)),
        }
    }

    fn read_each_action(
        &mut self,
        by: &Setting,
        fields: &[Field],
        expressions: &mut Expressions,
    ) -> Result<(), FormError>
        requires setting { IsSetting by.now }
        requires ordered { AreOrderedMembers (fields_view fields.now) }
        ensures finds { Finds result
            (faults.member_faults (faults.action_faults (fields_view by.now.types.now)) (fields_view fields.now)) }
        ensures ok { OnOk result (so_far expressions.new self.new
            ≡ modelled.with_actions (within by.now) (so_far expressions.old self.old) (fields_view fields.now)) }
    {
        for field in fields {
            let action = self.read_action(by, field, expressions);
            under(field.key.text(), action)?;
        }
        Ok(())
    }

    fn read_action(
        &mut self,
        by: &Setting,
        field: &Field,
        expressions: &mut Expressions,
    ) -> Result<(), FormError>
        requires setting { IsSetting by.now }
        requires ordered { IsOrdered (view field.now.value) }
        ensures finds { Finds result
            (faults.action_faults (fields_view by.now.types.now) field.now.key (view field.now.value)) }
        ensures ok { OnOk result (so_far expressions.new self.new
            ≡ modelled.with_action (within by.now) (so_far expressions.old self.old) field.now.key (view field.now.value)) }
    {
        let alloc = expressions.allocator();
        let name = read_name(alloc, field.key.text(), is_action(&field.value))?;
        let before = TypeNo(expressions.len());
        let index = self.behaviour.actions.len();
        let read = read_acting(by, index, &field.value, expressions)?;
        Ok(self.add_action(alloc, by, name, before, read)?)
    }

    /// Adds an action; if its body goes astray, one that does nothing.
    fn add_action(
        &mut self,
        alloc: Global,
        by: &Setting,
        name: Name,
        before: TypeNo,
        read: Acting,
    ) -> Result<(), AllocError>
        ensures { OnOk result ((expressions old : List ExpressionSpec) → before ≡ layout.type_no (length old)
            → so_far expressions self.new ≡ modelled.with_acting (within by.now) (so_far old self.old) name (acting expressions read)) }
    {
        let Acting { params, body } = read;
        match body {
            Ok(body) => self.behaviour.actions.push(Action { name, params, body }),
            Err(path) => {
                let path = path.under("body")?.under(name.text())?.under("actions")?;
                self.stray(before, by.model, path);
                let body = nothing(alloc);
                self.behaviour.actions.push(Action { name, params, body })
            }
        }
    }
}

/// No statements.
fn nothing(alloc: Global) -> Block
    ensures { block_shown result ≡ done }
{
    Block {
        statements: Parts::new(alloc),
    }
}

/// Whether a value is an object with a body, whatever stands in it.
fn is_action(value: &Snap) -> bool
    requires { IsOrdered (view value.now) }
    ensures { result ≡ faults.is_action (view value.now) }
{
    match value {
        Snap::Dict(fields) => has_body(fields.as_slice()),
        _ => false,
    }
}

#[tactic(auto, using(crate::proofs::Orders::keyed_by_order))]
fn has_body(parts: &[Field]) -> bool
    requires { AreOrderedMembers (fields_view parts.now) }
    ensures { result ≡ names.has_key (codes "body") (fields_view parts.now) }
{
    has_key(parts, "body")
}

/// An action while its parts are read: its parameters, and its body or the place in it where it goes astray.
#[derive(Debug, Drop)]
pub struct Acting {
    pub params: Parts<Param>,
    pub body: Result<Block, Pointer>,
}

fn read_acting(
    by: &Setting,
    index: usize,
    value: &Snap,
    expressions: &mut Expressions,
) -> Result<Acting, FormError>
    requires setting { IsSetting by.now }
    requires ordered { IsOrdered (view value.now) }
    ensures finds { Finds result (faults.action_inside (fields_view by.now.types.now) (view value.now)) }
    ensures ok { let parts = entries.entries (view value.now) in IfOk result (λ read. acting expressions.new read
        ≡ modelled.with_action_parts (action_of by.now parts index) (modelled.idle expressions.old) parts) }
{
    match value {
        Snap::Dict(parts) => read_parts(by, index, parts.as_slice(), expressions),
        _ => Err(wrong(expressions.allocator(), SchemaRule::Shape)),
    }
}

fn read_parts(
    by: &Setting,
    index: usize,
    parts: &[Field],
    expressions: &mut Expressions,
) -> Result<Acting, FormError>
    requires setting { IsSetting by.now }
    requires ordered { AreOrderedMembers (fields_view parts.now) }
    ensures finds { Finds result (faults.action_inside (fields_view by.now.types.now) (dict tt (fields_view parts.now))) }
    ensures ok { IfOk result (λ read. acting expressions.new read
        ≡ modelled.with_action_parts (action_of by.now (fields_view parts.now) index) (modelled.idle expressions.old) (fields_view parts.now)) }
{
    let alloc = expressions.allocator();
    if !has_body(parts) {
        return Err(wrong(alloc, SchemaRule::Shape));
    }
    let mut acting = Acting {
        params: Parts::new(alloc),
        body: Ok(nothing(alloc)),
    };
    for part in parts {
        let read = acting.read_part(by, index, parts, part, expressions);
        under(part.key.text(), read)?;
    }
    Ok(acting)
}

impl Acting {
    fn read_part(
        &mut self,
        by: &Setting,
        index: usize,
        parts: &[Field],
        part: &Field,
        expressions: &mut Expressions,
    ) -> Result<(), FormError>
        requires setting { IsSetting by.now }
        requires keyed { AreKeyed (fields_view parts.now) }
        ensures finds { Finds result
            (faults.action_part_faults (fields_view by.now.types.now) (fields_view parts.now) part.now.key (view part.now.value)) }
        ensures ok { OnOk result (acting expressions.new self.new ≡ modelled.with_action_part (action_of by.now (fields_view parts.now) index)
            (acting expressions.old self.old) part.now.key (view part.now.value)) }
    {
        match part.key.text() {
            "body" => {
                let alloc = expressions.allocator();
                let params = find(parts, "params");
                self.body = told(read_action_body(
                    alloc,
                    &part.value,
                    params,
                    by.types,
                    by.targets,
                ))?;
                Ok(())
            }
            "params" => {
                self.params = read_params(by, index, &part.value, expressions)?;
                Ok(())
            }
            _ => Err(wrong(expressions.allocator(), SchemaRule::Shape)),
        }
    }
}
