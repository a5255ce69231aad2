//! Middleware: what surrounds actions.
ghost use Rattle.std.specs.Prelude.{◌≡◌, length, map};
ghost use Rattle.snap_core.specs.Value.{AreKeyed, dict};
ghost use Rattle.snap_core.specs.View.{view, items_view, fields_view};
ghost use Rattle.expr_form.specs.Models.{target_of};
ghost use Rattle.expr_form.specs.Outcome.{Tells};
ghost use Rattle.expr_form.specs.Results.{Makes};
ghost use Rattle.expr_syntax.specs.Shown.{shown};
ghost use Rattle.model_syntax.specs.Shown.{middleware_shown, atomic, protect};
ghost use Rattle.model_syntax.specs.declared.behaviour.Surrounded.TheVariants.{Named};
ghost use Rattle.behaviour_form.specs.Middleware as specs;

use expr_form::{
    Scope, Target, Trouble, at_index, both, items_in, pair_in, pushed, read_expression, read_name,
    under, wrong,
};
use expr_syntax::Expr;
use list_core::Parts;
use model_syntax::{Middleware, Surrounded};
use pointer_core::SchemaRule;
use snap_core::{Field, Name, Snap};
use std::alloc::Global;

/// Reads what stands under `middleware` in a model.
pub fn read_middleware(
    alloc: Global,
    value: &Snap,
    types: &[Field],
    targets: &[Target],
) -> Result<Parts<Middleware>, Trouble>
    requires keyed { AreKeyed (fields_view types.now) }
    requires each { length targets.now ≡ length types.now }
    ensures { Tells (map middleware_shown) result
        (specs.middleware_read (target_of (fields_view types.now) targets.now) (view value.now)) }
{
    let Some(items) = items_in(value) else {
        return Err(wrong(alloc, SchemaRule::Shape));
    };
    let mut scope = Scope::new(alloc)?;
    let mut middleware = Ok(Parts::new(alloc));
    for (index, item) in items.iter().enumerate() {
        let one = read_one(alloc, item, types, targets, &mut scope);
        let one = at_index(index, one);
        let longer = pushed(middleware, one);
        middleware = longer;
    }
    middleware
}

/// Reads one middleware: an object with one key, which says its kind.
fn read_one(
    alloc: Global,
    value: &Snap,
    types: &[Field],
    targets: &[Target],
    scope: &mut Scope,
) -> Result<Middleware, Trouble>
    requires keyed { AreKeyed (fields_view types.now) }
    requires each { length targets.now ≡ length types.now }
    ensures reads { Tells middleware_shown result
        (specs.one_read (target_of (fields_view types.now) targets.now) scope.old (view value.now)) }
    ensures scope { scope.new ≡ scope.old }
{
    let Snap::Dict(fields) = value else {
        return Err(wrong(alloc, SchemaRule::Shape));
    };
    read_object(alloc, fields.as_slice(), types, targets, scope)
}

fn read_object(
    alloc: Global,
    fields: &[Field],
    types: &[Field],
    targets: &[Target],
    scope: &mut Scope,
) -> Result<Middleware, Trouble>
    requires keyed { AreKeyed (fields_view types.now) }
    requires each { length targets.now ≡ length types.now }
    ensures reads { Tells middleware_shown result
        (specs.one_read (target_of (fields_view types.now) targets.now) scope.old (dict tt (fields_view fields.now))) }
    ensures scope { scope.new ≡ scope.old }
{
    if fields.len() != 1 {
        return Err(wrong(alloc, SchemaRule::Shape));
    }
    read_keyed(alloc, &fields[0], types, targets, scope)
}

fn read_keyed(
    alloc: Global,
    field: &Field,
    types: &[Field],
    targets: &[Target],
    scope: &mut Scope,
) -> Result<Middleware, Trouble>
    requires keyed { AreKeyed (fields_view types.now) }
    requires each { length targets.now ≡ length types.now }
    ensures reads { Tells middleware_shown result
        (specs.keyed_read (target_of (fields_view types.now) targets.now) scope.old field.now.key (view field.now.value)) }
    ensures scope { scope.new ≡ scope.old }
{
    let key = field.key.text();
    let value = &field.value;
    if key == "atomic" {
        let around = read_surrounded(alloc, value);
        let atomic = atomic_from(around);
        return under(key, atomic);
    }
    if key == "protect" {
        let protect = read_protect(alloc, value, types, targets, scope);
        return under(key, protect);
    }
    Err(wrong(alloc, SchemaRule::Shape))
}

fn atomic_from(around: Result<Surrounded, Trouble>) -> Result<Middleware, Trouble>
    ensures { Makes (λ around middleware. middleware_shown middleware ≡ atomic around) around result }
{
    Ok(Middleware::Atomic(around?))
}

fn protect_from(parts: Result<(Surrounded, Expr), Trouble>) -> Result<Middleware, Trouble>
    ensures { Makes (λ parts middleware. middleware_shown middleware ≡ protect parts.0 (shown parts.1)) parts result }
{
    let (around, condition) = parts?;
    Ok(Middleware::Protect(around, condition))
}

fn read_protect(
    alloc: Global,
    value: &Snap,
    types: &[Field],
    targets: &[Target],
    scope: &mut Scope,
) -> Result<Middleware, Trouble>
    requires keyed { AreKeyed (fields_view types.now) }
    requires each { length targets.now ≡ length types.now }
    ensures reads { Tells middleware_shown result
        (specs.protect_read (target_of (fields_view types.now) targets.now) scope.old (view value.now)) }
    ensures scope { scope.new ≡ scope.old }
{
    let Some(pair) = pair_in(value) else {
        return Err(wrong(alloc, SchemaRule::Shape));
    };
    let around = read_surrounded(alloc, pair.0);
    let around = at_index(0, around);
    let condition = read_expression(pair.1, types, targets, scope);
    let condition = at_index(1, condition);
    let parts = both(around, condition);
    protect_from(parts)
}

/// Reads which actions are surrounded: all, or a list of names.
fn read_surrounded(alloc: Global, value: &Snap) -> Result<Surrounded, Trouble>
    ensures { Tells (λ around. around) result (specs.surrounded_read (view value.now)) }
{
    match value {
        Snap::Text(text) if text.text() == "*" => Ok(Surrounded::All),
        Snap::List(items) => named_from(read_names(alloc, items.as_slice())),
        _ => Err(wrong(alloc, SchemaRule::Shape)),
    }
}

fn named_from(names: Result<Parts<Name>, Trouble>) -> Result<Surrounded, Trouble>
    ensures { Makes (λ names around. around ≡ Named names) names result }
{
    Ok(Surrounded::Named(names?))
}

fn read_names(alloc: Global, items: &[Snap]) -> Result<Parts<Name>, Trouble>
    ensures { Tells (λ names. names) result (specs.names_read 0 (items_view items.now)) }
{
    let mut names = Ok(Parts::new(alloc));
    for (index, item) in items.iter().enumerate() {
        let name = read_name(alloc, item);
        let name = at_index(index, name);
        let longer = pushed(names, name);
        names = longer;
    }
    names
}
