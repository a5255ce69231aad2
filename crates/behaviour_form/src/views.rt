//! Views: expressions under names.
ghost use Rattle.std.specs.Prelude.{◌≡◌, length, map};
ghost use Rattle.snap_core.specs.Value.{AreKeyed, AreOrderedMembers};
ghost use Rattle.snap_core.specs.View.{view, fields_view};
ghost use Rattle.expr_form.specs.Models.{target_of};
ghost use Rattle.expr_form.specs.Outcome.{Tells};
ghost use Rattle.expr_form.specs.Results.{Makes};
ghost use Rattle.expr_syntax.specs.Shown.{shown};
ghost use Rattle.model_syntax.specs.Shown.{view_shown};
ghost use Rattle.behaviour_form.specs.Named.{is_taken};
ghost use Rattle.behaviour_form.specs.Views as specs;

use crate::named::{named, read_key};
use expr_form::{Scope, Target, Trouble, fields_in, pushed, read_expression, under, wrong};
use expr_syntax::Expr;
use list_core::Parts;
use model_syntax::View;
use pointer_core::SchemaRule;
use snap_core::{Field, Name, Snap};
use std::alloc::Global;

/// Reads what stands under `views` in a model that has these parts.
pub fn read_views(
    alloc: Global,
    value: &Snap,
    parts: &[Field],
    types: &[Field],
    targets: &[Target],
) -> Result<Parts<View>, Trouble>
    requires parts { AreOrderedMembers (fields_view parts.now) }
    requires keyed { AreKeyed (fields_view types.now) }
    requires each { length targets.now ≡ length types.now }
    ensures { Tells (map view_shown) result
        (specs.views_read (target_of (fields_view types.now) targets.now) (is_taken (fields_view parts.now)) (view value.now)) }
{
    let Some(fields) = fields_in(value) else {
        return Err(wrong(alloc, SchemaRule::Shape));
    };
    let mut scope = Scope::new(alloc)?;
    let mut views = Ok(Parts::new(alloc));
    for field in fields {
        let view = read_view(alloc, field, parts, types, targets, &mut scope);
        let key = field.key.text();
        let view = under(key, view);
        let longer = pushed(views, view);
        views = longer;
    }
    views
}

fn read_view(
    alloc: Global,
    field: &Field,
    parts: &[Field],
    types: &[Field],
    targets: &[Target],
    scope: &mut Scope,
) -> Result<View, Trouble>
    requires parts { AreOrderedMembers (fields_view parts.now) }
    requires keyed { AreKeyed (fields_view types.now) }
    requires each { length targets.now ≡ length types.now }
    ensures reads { Tells view_shown result
        (specs.view_read (target_of (fields_view types.now) targets.now) (is_taken (fields_view parts.now)) scope.old
        (field.now.key, view field.now.value)) }
    ensures scope { scope.new ≡ scope.old }
{
    let body = read_expression(&field.value, types, targets, scope);
    let key = field.key.text();
    let name = read_key(alloc, parts, key);
    let whole = named(name, body);
    view_from(whole)
}

fn view_from(parts: Result<(Name, Expr), Trouble>) -> Result<View, Trouble>
    ensures { Makes (λ parts view. view_shown view ≡ record { name = parts.0; body = shown parts.1 }) parts result }
{
    let (name, body) = parts?;
    Ok(View { name, body })
}
